//! Where the networks of a result are written: a `Vec`, or the first elements of a slice.
ghost use Rattle.std.specs.Prelude.{◌≡◌, ℕ, ◌+◌, ◌≤◌, ◌<◌, ◌++◌, ◌∷◌, [], List, length, take, OnOk, OnErr};

use std::alloc::AllocError;

/// Elements are written to it, one behind the other.
pub(crate) trait Writable<C> {
    /// What is written.
    ghost written: { Self → List C };

    /// For how many there is room at least.
    ghost room: { Self → ℕ };

    /// Both have the same memory, where that is the caller's.
    ghost AreOne: { Self → Self → Type 0 };

    /// Writes an element behind the others, where there is room.
    fn put(&mut self, element: C)
        requires { length (written self.old) < room self.old }
        ensures written { written self.new ≡ written self.old ++ element ∷ [] }
        ensures room { room self.old ≤ room self.new }
        ensures one { AreOne self.old self.new };

    /// Writes an element behind the others, or is an error where there is no room.
    fn write(&mut self, element: C) -> Result<(), AllocError>
        ensures ok { OnOk result (written self.new ≡ written self.old ++ element ∷ []) }
        ensures err { OnErr result (room self.old ≤ length (written self.old)) }
        ensures room { room self.old ≤ room self.new }
        ensures one { AreOne self.old self.new };

    ghost stay: { (a : Self) → AreOne a a };

    ghost follow: { (a b c : Self) → AreOne a b → AreOne b c → AreOne a c };
}

impl<C: Copy> Writable<C> for Vec<C> {
    ghost use Rattle.std.specs.Vec.{vec_capacity};

    ghost written = { λ v. v.items };

    ghost room = { λ v. vec_capacity v };

    ghost AreOne = { λ _ _. Unit {0} };

    ghost stay = { λ a. tt };

    ghost follow = { λ a b c h k. tt };

    fn put(&mut self, element: C) {
        self.push_reserved(element);
    }

    fn write(&mut self, element: C) -> Result<(), AllocError> {
        self.push(element)?;
        Ok(())
    }
}

/// The first elements of a slice, which are written.
#[derive(Drop)]
pub(crate) struct Filled<'a, C> {
    out: &'a mut [C],
    count: usize,
    ghost within: { count ≤ length out.now },
}

impl<'a, C> Filled<'a, C> {
    /// Nothing is written.
    pub(crate) fn new(out: &'a mut [C]) -> Filled<'a, C>
        ensures same_reference { result.out.ghost_name ≡ out.entry.ghost_name }
        ensures out { result.out.now ≡ out.old }
        ensures none { result.count ≡ 0 }
    {
        Filled { out, count: 0 }
    }

    /// How many elements are written.
    pub(crate) fn count(&self) -> usize
        ensures { result ≡ self.now.count }
    {
        self.count
    }
}

impl<'a, C: Copy> Writable<C> for Filled<'a, C> {
    ghost use Rattle.std.proofs.Common.{refl, ◌∙◌};

    ghost written = { λ w. take w.count w.out.now };

    ghost room = { λ w. length w.out.now };

    ghost AreOne = { λ a b. (b.out.ghost_name ≡ a.out.ghost_name) × (length b.out.now ≡ length a.out.now) };

    ghost stay = { λ a. (refl, refl) };

    ghost follow = { λ a b c h k. (k.0 ∙ h.0, k.1 ∙ h.1) };

    fn put(&mut self, element: C) {
        self.out[self.count] = element;
        self.count += 1;
    }

    fn write(&mut self, element: C) -> Result<(), AllocError> {
        if self.count >= self.out.len() {
            return Err(AllocError);
        }
        self.put(element);
        Ok(())
    }
}
