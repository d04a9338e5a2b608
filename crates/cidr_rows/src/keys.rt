//! What has keys, in any order.
ghost use Rattle.std.specs.Prelude.{◌≡◌, ◌<◌, List, length, slice_index_or};

/// Keys at indexes.
pub trait Keys<C> {
    /// The keys.
    ghost keys: { Self → List C };

    /// How many they are.
    fn len(&self) -> usize
        ensures { result ≡ length (keys self.now) };

    /// The key at an index, which the caller has to prove to be below their number.
    fn key(&self, i: usize) -> C
        requires { i < length (keys self.now) }
        ensures { (other : C) → slice_index_or (keys self.now) i other ≡ result };
}
