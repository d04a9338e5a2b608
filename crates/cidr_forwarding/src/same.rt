//! Whether two tables forward each address to the same value.
ghost use Rattle.std.specs.Prelude.{◌≡◌, ◌↔◌, ℕ, ◌+◌, ◌<◌, ◌≤◌, IsTrue, None, false, length};
ghost use Rattle.std.specs.Option.{option_eq};
ghost use Rattle.cidr.specs.either.IpAddress.{TellsEqual};
ghost use Rattle.cidr.specs.model.Network.{HasWidth};
ghost use Rattle.cidr_table.specs.model.CoverAddresses.{IsIpAddressBits};
ghost use Rattle.cidr_forwarding.specs.Forwarding.{AreNetworksOf, AreIpRows, ForwardSame};
ghost use Rattle.cidr_forwarding.specs.Trees.{agree};
ghost use Rattle.cidr_forwarding.specs.Plans.{planned, IsNode, AreDeep};

use crate::halves::halve;
use crate::laws::keys_ascend_within_129_bits;
use crate::tables::rows_of;
use cidr::NetworkBits;
use cidr_table::LpmTable;

/// Whether two tables forward the same: each address has the same value in both, or in neither one.
///
/// The caller has to prove that `==` of the values tells equality, as it does for numbers and addresses. It goes
/// through the rows of both once, in a time that grows with their number and their bits, up to the first network where
/// they differ, and allocates nothing.
///
/// ```
/// forwards_same(&routes, &smallest) // true
/// routes.set("10.1.0.0/16".parse()?, 3)?;
/// forwards_same(&routes, &smallest) // false
/// ```
pub fn forwards_same<C: NetworkBits + Copy, V: Copy + Eq>(
    one: &LpmTable<C, V>,
    other: &LpmTable<C, V>,
) -> bool
    requires { TellsEqual V.eq }
    ensures width { (w : ℕ) → w ≤ 129 → AreNetworksOf C.bits w one.now.rows → AreNetworksOf C.bits w other.now.rows
        → (IsTrue result ↔ ForwardSame C.bits (HasWidth w) one.now.rows other.now.rows) }
    ensures ip { AreIpRows C.bits one.now.rows → AreIpRows C.bits other.now.rows
        → (IsTrue result ↔ ForwardSame C.bits IsIpAddressBits one.now.rows other.now.rows) }
{
    let rows = rows_of(one);
    let others = rows_of(other);
    keys_ascend_within_129_bits(rows);
    keys_ascend_within_129_bits(others);
    agree(rows, others, 0, None, None)
}

/// Whether the rows of a network forward the same, where each has inherited a value.
fn agree<C: NetworkBits + Copy, V: Copy + Eq>(
    rows: &[(C, V)],
    others: &[(C, V)],
    depth: usize,
    inherited: Option<V>,
    other_inherited: Option<V>,
) -> bool
    requires node { IsNode C.bits depth rows.now }
    requires other_node { IsNode C.bits depth others.now }
    ensures { result ≡ agree (option_eq V.eq) (planned C.bits depth inherited rows.now) (planned C.bits depth other_inherited others.now) }
{
    let one = halve(rows, depth, inherited);
    let other = halve(others, depth, other_inherited);
    if are_ended(one.rest, other.rest, depth) {
        return one.own == other.own;
    }
    agree(one.lower, other.lower, depth + 1, one.own, other.own)
        && agree(one.upper, other.upper, depth + 1, one.own, other.own)
}

/// Whether there are no rows of more bits.
pub(crate) fn are_ended<C: NetworkBits + Copy, V: Copy>(
    rest: &[(C, V)],
    other_rest: &[(C, V)],
    depth: usize,
) -> bool
    requires node { IsNode C.bits depth rest.now }
    requires deep { AreDeep C.bits depth rest.now }
    requires other_node { IsNode C.bits depth other_rest.now }
    requires other_deep { AreDeep C.bits depth other_rest.now }
    ensures none { IsTrue result → length rest.now ≤ 0 }
    ensures other_none { IsTrue result → length other_rest.now ≤ 0 }
    ensures room { result ≡ false → depth < 129 }
    ensures some { result ≡ false → 0 < length rest.now + length other_rest.now }
{
    // No key has more than 129 bits.
    if depth < 129 {
        return rest.is_empty() && other_rest.is_empty();
    }
    true
}
