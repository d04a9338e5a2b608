//! What holds of each key: after a call, a caller's proof has it.
ghost use Rattle.std.specs.Prelude.{◌≤◌, length};

use cidr::BitString;

/// A key has at most 129 bits, whatever its type: as many as an address has, and one more for the family in
/// `AnyIpCidr`.
pub fn has_at_most_129_bits<C: BitString>(key: &C)
    ensures { length (C.bits key.now) ≤ 129 }
{
    key.len();
}
