//! Which lengths keys may have.
ghost use Rattle.std.specs.Prelude.{◌≡◌, ◌<◌, ◌≤◌, ℕ, length, slice_set, MatchOption};
ghost use Rattle.cidr_rows.specs.Lengths.{AreLengthsAdded, MayHave};

use crate::keys::Keys;
use cidr::BitString;

/// Says that a key may have so many bits, as far as the array reaches.
pub fn add_length(lengths: &mut [u8], len: usize)
    ensures { lengths.new ≡ slice_set lengths.old len 1 }
{
    if len < lengths.len() {
        lengths[len] = 1;
    }
}

/// The same of the lengths of all keys.
pub fn add_lengths<C: BitString + Copy, K: Keys<C>>(rows: &K, lengths: &mut [u8])
    ensures { AreLengthsAdded C.bits (K.keys rows.now) lengths.old lengths.new }
{
    for i in 0..rows.len() {
        add_length(lengths, rows.key(i).len());
    }
}

/// The longest of the lengths up to one that keys may have, or `None` where they may have none of them.
pub fn longest_length(lengths: &[u8], most: usize) -> Option<usize>
    ensures { MatchOption result ((n : ℕ) → n ≤ most → ¬ (MayHave lengths.now n))
        (λ len. (len ≤ most) × MayHave lengths.now len × ((n : ℕ) → len < n → n ≤ most → ¬ (MayHave lengths.now n))) }
{
    if most >= lengths.len() {
        return Some(most);
    }
    let mut end = most + 1;
    while end > 0 {
        end -= 1;
        if lengths[end] != 0 {
            return Some(end);
        }
    }
    None
}
