//! What a search asks for: how the keys of a table compare with one that is sought.
ghost use Rattle.std.specs.Prelude.{◌≡◌, ℕ, ◌+◌, ◌<◌, List, length, slice_index_or};

use std::cmp::Ordering;

/// The one way to the keys of a table: their number, and comparisons with them. The count of these is for the contracts
/// and takes no memory.
///
/// A type of yours that keeps ascending keys, as a file or a part of memory, gets `longest_match` by implementing it.
/// The trait itself doesn't ask that the keys ascend: `longest_match` does, of its caller.
pub trait Probe<C: Ord> {
    /// The keys.
    ghost keys: { Self → List C };

    /// How many comparisons were made.
    ghost count: { Self → ℕ };

    /// The number of keys.
    ///
    /// ```
    /// let routes = LpmTable::<Ipv4Cidr, u32>::new(rt.alloc());
    /// routes.probe().len() // 0
    /// ```
    fn len(&self) -> usize
        ensures { result ≡ length (keys self.now) };

    /// How the key at index `i`, counted from 0, compares with `key`: `Less` where it comes before `key`. The caller
    /// has to prove that `i` is below the number of keys.
    ///
    /// ```
    /// let mut routes = LpmTable::<Ipv4Cidr, u32>::new(rt.alloc());
    /// routes.insert("10.0.0.0/8".parse()?, 1) // Ok(None)
    /// let mut rows = routes.probe();
    /// if 0 < rows.len() {
    ///     rows.compare(0, &"11.0.0.0/8".parse()?) // Less
    /// }
    /// ```
    fn compare(&mut self, i: usize, key: &C) -> Ordering
        requires { i < length (keys self.old) }
        ensures answer { result ≡ C.cmp (slice_index_or (keys self.old) i key.now) key.now }
        ensures keys { keys self.new ≡ keys self.old }
        ensures count { count self.new ≡ count self.old + 1 };
}
