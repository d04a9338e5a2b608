//! The count of comparisons that a probe keeps, for the contracts only.
ghost use Rattle.std.specs.Prelude.{◌≡◌, ℕ, ◌+◌};
ghost use base.Fml.{ftrue};

use std::marker::Model;

/// How many comparisons a [`Probe`](crate::Probe) has made, for the contracts only: it takes no memory, and has no
/// greatest number.
#[derive(Drop)]
pub struct Count {
    pub ghost total: { ℕ },
}

impl Model for Count {
    ghost also_owns = { λ _. ftrue };
}

impl Count {
    /// The count of no comparison.
    ///
    /// ```
    /// size_of_val(&Count::zero()) // 0
    /// ```
    pub fn zero() -> Count
        ensures { result.total ≡ 0 }
    {
        Count {}
    }

    /// Counts one comparison more.
    ///
    /// ```
    /// let mut count = Count::zero();
    /// count.tick();
    /// size_of_val(&count) // 0
    /// ```
    pub fn tick(&mut self)
        ensures { self.new.total ≡ self.old.total + 1 }
    {}
}
