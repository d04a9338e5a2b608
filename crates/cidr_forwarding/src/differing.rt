//! Where two tables forward addresses to different values.
ghost use Rattle.std.specs.Prelude.{◌≡◌, ℕ, ◌+◌, ◌<◌, ◌≤◌, ◌++◌, ◌∷◌, [], Bool, false, true, cond, length, IfOk, OnOk, None};
ghost use Rattle.std.specs.Option.{option_eq};
ghost use Rattle.cidr.specs.either.IpAddress.{TellsEqual};
ghost use Rattle.cidr.specs.model.Network.{HasWidth};
ghost use Rattle.cidr_table.specs.model.CoverAddresses.{IsIpAddressBits};
ghost use Rattle.cidr_forwarding.specs.Differences.{AreDifferences};
ghost use Rattle.cidr_forwarding.specs.Forwarding.{in_bits, AreNetworksOf, AreIpRows};
ghost use Rattle.cidr_forwarding.specs.Trees.{paired, shared_values, sole_values, differing};
ghost use Rattle.cidr_forwarding.specs.Plans.{planned, IsNode, AreDeep, AreOf, behind};

use crate::halves::{half, halve};
use crate::laws::keys_ascend_within_129_bits;
use crate::same::are_ended;
use crate::tables::rows_of;
use cidr::NetworkBits;
use cidr_table::LpmTable;
use std::alloc::{AllocError, Global};

/// The values of an address in one table and in another, or `None` where a table has none.
pub type Answers<V> = (Option<V>, Option<V>);

/// Where two tables forward differently: the largest networks in which each table has one answer for all addresses, and
/// not the same one, each with both answers. They ascend, and each address that the tables forward differently is in one
/// and only one of them.
///
/// The caller has to prove that `==` of the values tells equality, as it does for numbers and addresses. It goes
/// through the rows of both once, in a time that grows with their number and their bits. The error is that an allocation
/// fails; only the result is allocated.
///
/// ```
/// routes.set("10.1.0.0/16".parse()?, 3)?;
/// forwards_same(&routes, &smallest) // false
/// differences(rt.alloc(), &routes, &smallest)? // [(10.1.0.0/16, (Some(3), Some(2)))]
/// ```
pub fn differences<C: NetworkBits + Copy, V: Copy + Eq>(
    alloc: Global,
    one: &LpmTable<C, V>,
    other: &LpmTable<C, V>,
) -> Result<Vec<(C, Answers<V>)>, AllocError>
    requires { TellsEqual V.eq }
    ensures width { IfOk result (λ listed. (w : ℕ) → w ≤ 129 → AreNetworksOf C.bits w one.now.rows → AreNetworksOf C.bits w other.now.rows
        → AreDifferences (in_bits C.bits one.now.rows) (in_bits C.bits other.now.rows) (HasWidth w) (in_bits C.bits listed.items)) }
    ensures ip { IfOk result (λ listed. AreIpRows C.bits one.now.rows → AreIpRows C.bits other.now.rows
        → AreDifferences (in_bits C.bits one.now.rows) (in_bits C.bits other.now.rows) IsIpAddressBits (in_bits C.bits listed.items)) }
    ensures kept { IfOk result (λ listed. (w : ℕ) → AreNetworksOf C.bits w one.now.rows → AreNetworksOf C.bits w other.now.rows
        → AreNetworksOf C.bits w listed.items) }
    ensures kept_ip { IfOk result (λ listed. AreIpRows C.bits one.now.rows → AreIpRows C.bits other.now.rows
        → AreIpRows C.bits listed.items) }
{
    let rows = rows_of(one);
    let others = rows_of(other);
    keys_ascend_within_129_bits(rows);
    keys_ascend_within_129_bits(others);
    let mut out = Vec::new(alloc);
    differ(rows, others, 0, None, None, C::null(), &mut out)?;
    Ok(out)
}

/// Appends the rows of a network, where each table has inherited a value. Returns the values of all its addresses, if
/// they have the same in each table.
fn differ<C: NetworkBits + Copy, V: Copy + Eq>(
    rows: &[(C, V)],
    others: &[(C, V)],
    depth: usize,
    inherited: Option<V>,
    other_inherited: Option<V>,
    network: C,
    out: &mut Vec<(C, Answers<V>)>,
) -> Result<Option<Answers<V>>, AllocError>
    requires tells { TellsEqual V.eq }
    requires node { IsNode C.bits depth rows.now }
    requires other_node { IsNode C.bits depth others.now }
    requires of { AreOf C.bits (C.bits network) rows.now }
    requires other_of { AreOf C.bits (C.bits network) others.now }
    requires depth { length (C.bits network) ≡ depth }
    ensures rows { OnOk result (in_bits C.bits out.new.items ≡ in_bits C.bits out.old.items ++ behind (C.bits network)
        (differing (option_eq V.eq) (paired (planned C.bits depth inherited rows.now) (planned C.bits depth other_inherited others.now)))) }
    ensures sole { IfOk result (λ values. values ≡ sole_values (option_eq V.eq)
        (paired (planned C.bits depth inherited rows.now) (planned C.bits depth other_inherited others.now))) }
{
    let one = halve(rows, depth, inherited);
    let other = halve(others, depth, other_inherited);
    if are_ended(one.rest, other.rest, depth) {
        list(network, (one.own, other.own), out)?;
        return Ok(Some((one.own, other.own)));
    }
    let lower = half_of(one.rest, other.rest, depth, network, false);
    let upper = half_of(one.rest, other.rest, depth, network, true);
    let before = out.len();
    let low = differ(
        one.lower,
        other.lower,
        depth + 1,
        one.own,
        other.own,
        lower,
        out,
    )?;
    let high = differ(
        one.upper,
        other.upper,
        depth + 1,
        one.own,
        other.own,
        upper,
        out,
    )?;
    match shared_values(low, high) {
        Some(values) => {
            out.truncate(before);
            list(network, values, out)?;
            Ok(Some(values))
        }
        None => Ok(None),
    }
}

/// Appends the row of a network with these values, if they differ.
fn list<C: Copy, V: Copy + Eq>(
    network: C,
    values: Answers<V>,
    out: &mut Vec<(C, Answers<V>)>,
) -> Result<(), AllocError>
    ensures { OnOk result (out.new.items ≡ out.old.items ++ cond (option_eq V.eq values.0 values.1) [] ((network, values) ∷ [])) }
{
    if values.0 == values.1 {
        return Ok(());
    }
    out.push((network, values))?;
    Ok(())
}

/// The values of both halves, if they are the same.
fn shared_values<V: Copy + Eq>(
    low: Option<Answers<V>>,
    high: Option<Answers<V>>,
) -> Option<Answers<V>>
    ensures { result ≡ shared_values (option_eq V.eq) low high }
{
    let (Some(low), Some(high)) = (low, high) else {
        return None;
    };
    if low.0 == high.0 && low.1 == high.1 {
        Some(low)
    } else {
        None
    }
}

/// A half of the network of `depth` bits that all rows are of.
fn half_of<C: NetworkBits + Copy, V: Copy>(
    rest: &[(C, V)],
    other_rest: &[(C, V)],
    depth: usize,
    network: C,
    upper: bool,
) -> C
    requires some { 0 < length rest.now + length other_rest.now }
    requires of { AreOf C.bits (C.bits network) rest.now }
    requires other_of { AreOf C.bits (C.bits network) other_rest.now }
    requires deep { AreDeep C.bits depth rest.now }
    requires other_deep { AreDeep C.bits depth other_rest.now }
    requires depth { length (C.bits network) ≡ depth }
    ensures { C.bits result ≡ C.bits network ++ upper ∷ [] }
{
    if rest.is_empty() {
        half(&other_rest[0].0, depth, upper)
    } else {
        half(&rest[0].0, depth, upper)
    }
}
