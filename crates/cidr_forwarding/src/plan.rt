//! The smallest rows, in two passes.
ghost use Rattle.std.specs.Prelude.{◌≡◌, ℕ, ◌≤◌, ◌++◌, ◌∷◌, [], length, cond, IfOk, OnOk, None};
ghost use Rattle.std.specs.Option.{option_eq};
ghost use Rattle.std.specs.List.Sorted.{IsStrictlySortedBy};
ghost use Rattle.std.specs.Map.{keys_of};
ghost use Rattle.cidr.specs.either.IpAddress.{TellsEqual};
ghost use Rattle.cidr.specs.model.Network.{HasWidth};
ghost use Rattle.cidr_table.specs.model.CoverAddresses.{IsIpAddressBits};
ghost use Rattle.cidr_forwarding.specs.Forwarding.{in_bits, AreNetworksOf, AreIpRows, IsSmallest, IsSmallestHoled};
ghost use Rattle.cidr_forwarding.specs.Choices.{EndsIn, is_listed, head_or, noted, counted};
ghost use Rattle.cidr_forwarding.specs.Plans.{planned, measured, IsNode, AreOf, AreOfOne, behind, choices, put_rows};

use crate::candidates::{first_of, holds, join};
use crate::halves::{Opened, first_bits, half, open};
use crate::laws::keys_ascend_within_129_bits;
use cidr::NetworkBits;
use std::alloc::{AllocError, Global};

/// A smallest table with the same forwarding: each address has the same value in both, or in neither one.
pub(crate) fn smallest_rows<C: NetworkBits + Copy, V: Copy + Ord>(
    alloc: Global,
    rows: &[(C, V)],
) -> Result<Vec<(C, V)>, AllocError>
    requires tells { TellsEqual V.eq }
    requires sorted { IsStrictlySortedBy C.cmp (keys_of rows.now) }
    ensures width { IfOk result (λ smallest. (w : ℕ) → w ≤ 129 → AreNetworksOf C.bits w rows.now
        → IsSmallest (HasWidth w) (in_bits C.bits rows.now) (in_bits C.bits smallest.items)) }
    ensures ip { IfOk result (λ smallest. AreIpRows C.bits rows.now
        → IsSmallest IsIpAddressBits (in_bits C.bits rows.now) (in_bits C.bits smallest.items)) }
    ensures kept { IfOk result (λ smallest. (w : ℕ) → AreNetworksOf C.bits w rows.now → AreNetworksOf C.bits w smallest.items) }
    ensures kept_ip { IfOk result (λ smallest. AreIpRows C.bits rows.now → AreIpRows C.bits smallest.items) }
    ensures sorted { IfOk result (λ smallest. IsStrictlySortedBy C.cmp (keys_of smallest.items)) }
    ensures fits { IfOk result (λ smallest. length smallest.items ≤ length rows.now) }
{
    let smallest = smallest(alloc, rows, false)?;
    let mut out = Vec::with_capacity(alloc, smallest.len())?;
    for row in &smallest {
        match row.1 {
            Some(value) => out.push((row.0, value))?,
            None => {}
        }
    }
    Ok(out)
}

/// The same where a row may be a hole: its addresses have no value.
pub(crate) fn smallest_holed<C: NetworkBits + Copy, V: Copy + Ord>(
    alloc: Global,
    rows: &[(C, V)],
) -> Result<Vec<(C, Option<V>)>, AllocError>
    requires tells { TellsEqual V.eq }
    requires sorted { IsStrictlySortedBy C.cmp (keys_of rows.now) }
    ensures width { IfOk result (λ smallest. (w : ℕ) → w ≤ 129 → AreNetworksOf C.bits w rows.now
        → IsSmallestHoled (HasWidth w) (in_bits C.bits rows.now) (in_bits C.bits smallest.items)) }
    ensures ip { IfOk result (λ smallest. AreIpRows C.bits rows.now
        → IsSmallestHoled IsIpAddressBits (in_bits C.bits rows.now) (in_bits C.bits smallest.items)) }
    ensures kept { IfOk result (λ smallest. (w : ℕ) → AreNetworksOf C.bits w rows.now → AreNetworksOf C.bits w smallest.items) }
    ensures kept_ip { IfOk result (λ smallest. AreIpRows C.bits rows.now → AreIpRows C.bits smallest.items) }
    ensures sorted { IfOk result (λ smallest. IsStrictlySortedBy C.cmp (keys_of smallest.items)) }
    ensures fits { IfOk result (λ smallest. length smallest.items ≤ length rows.now) }
{
    let out = smallest(alloc, rows, true)?;
    Ok(out)
}

fn smallest<C: NetworkBits + Copy, V: Copy + Ord>(
    alloc: Global,
    rows: &[(C, V)],
    holes: bool,
) -> Result<Vec<(C, Option<V>)>, AllocError>
    requires tells { TellsEqual V.eq }
    requires sorted { IsStrictlySortedBy C.cmp (keys_of rows.now) }
    ensures rows { IfOk result (λ smallest. in_bits C.bits smallest.items ≡ put_rows V.eq holes (planned C.bits 0 None rows.now) None) }
    ensures node { IsNode C.bits 0 rows.now }
{
    keys_ascend_within_129_bits(rows);
    // tables of routers and of GeoIP have some 1.1 counts and 2.5 to 3.1 candidates a row
    let quarter = rows.len() / 4;
    let mut counts = Vec::with_capacity(alloc, quarter.saturating_mul(5))?;
    let mut values = Vec::with_capacity(alloc, quarter.saturating_mul(13))?;
    let mut joined = Vec::new(alloc);
    measure(
        alloc,
        rows,
        0,
        None,
        holes,
        &mut counts,
        &mut values,
        &mut joined,
    )?;
    let mut out = Vec::new(alloc);
    place(
        rows,
        0,
        None,
        holes,
        None,
        C::null(),
        &counts,
        &values,
        &mut out,
    )?;
    Ok(out)
}

/// Appends the candidates of each network that is reached, the upper half first and the network last, and how many they
/// are where they may be more than one. Returns how many the last ones are.
///
/// Where all longer rows share at least two bits more, the network of these bits is reached next, and the only candidate
/// is the network's own value. `joined` is room for the candidates of one network.
fn measure<C: NetworkBits + Copy, V: Copy + Ord>(
    alloc: Global,
    rows: &[(C, V)],
    depth: usize,
    inherited: Option<V>,
    holes: bool,
    counts: &mut Vec<usize>,
    values: &mut Vec<Option<V>>,
    joined: &mut Vec<Option<V>>,
) -> Result<usize, AllocError>
    requires tells { TellsEqual V.eq }
    requires node { IsNode C.bits depth rows.now }
    requires of { AreOfOne C.bits depth rows.now }
    ensures counts { OnOk result (counts.new.items ≡ counts.old.items ++ counted (measured C.bits V.eq holes depth inherited rows.now)) }
    ensures values { OnOk result (values.new.items ≡ values.old.items ++ noted (measured C.bits V.eq holes depth inherited rows.now)) }
    ensures last { IfOk result (λ n. (n ≡ length (choices V.eq holes (planned C.bits depth inherited rows.now)))
        × EndsIn (noted (measured C.bits V.eq holes depth inherited rows.now)) (choices V.eq holes (planned C.bits depth inherited rows.now))) }
{
    match open(rows, depth, inherited) {
        Opened::Ended(own) => {
            values.push(own)?;
            Ok(1)
        }
        Opened::Narrowed(own, _, rest, inside) => {
            measure(alloc, rest, inside, own, holes, counts, values, joined)?;
            values.push(own)?;
            Ok(1)
        }
        Opened::Parted(own, _, lower, upper) => {
            let high = measure(alloc, upper, depth + 1, own, holes, counts, values, joined)?;
            let middle = values.len();
            let low = measure(alloc, lower, depth + 1, own, holes, counts, values, joined)?;
            join(
                alloc,
                &values[values.len() - low..],
                &values[middle - high..middle],
                holes,
                joined,
            )?;
            values.extend_from_slice(joined)?;
            counts.push(joined.len())?;
            Ok(joined.len())
        }
    }
}

/// Appends the row of a network itself if what is inherited is none of its candidates. Returns the value that the
/// network has.
fn begin<C: NetworkBits + Copy, V: Copy + Ord>(
    candidates: &[Option<V>],
    wanted: Option<V>,
    network: C,
    out: &mut Vec<(C, Option<V>)>,
) -> Result<Option<V>, AllocError>
    ensures value { IfOk result (λ value. value ≡ cond (is_listed (option_eq V.eq) candidates.now wanted) wanted (head_or None candidates.now)) }
    ensures rows { OnOk result (out.new.items ≡ out.old.items
        ++ cond (is_listed (option_eq V.eq) candidates.now wanted) [] ((network, head_or None candidates.now) ∷ [])) }
{
    if holds(candidates, wanted) {
        return Ok(wanted);
    }
    let first = first_of(candidates);
    out.push((network, first))?;
    Ok(first)
}

/// Appends the rows of a network where a value is inherited in the new table. Returns the counts and values before those
/// of the network.
fn place<'a, C: NetworkBits + Copy, V: Copy + Ord>(
    rows: &[(C, V)],
    depth: usize,
    inherited: Option<V>,
    holes: bool,
    wanted: Option<V>,
    network: C,
    counts: &'a [usize],
    values: &'a [Option<V>],
    out: &mut Vec<(C, Option<V>)>,
) -> Result<(&'a [usize], &'a [Option<V>]), AllocError>
    requires tells { TellsEqual V.eq }
    requires node { IsNode C.bits depth rows.now }
    requires of { AreOf C.bits (C.bits network) rows.now }
    requires depth { length (C.bits network) ≡ depth }
    requires counts { EndsIn counts.now (counted (measured C.bits V.eq holes depth inherited rows.now)) }
    requires values { EndsIn values.now (noted (measured C.bits V.eq holes depth inherited rows.now)) }
    ensures rows { OnOk result (in_bits C.bits out.new.items
        ≡ in_bits C.bits out.old.items ++ behind (C.bits network) (put_rows V.eq holes (planned C.bits depth inherited rows.now) wanted)) }
    ensures counts { IfOk result (λ before. counts.now ≡ before.0.now ++ counted (measured C.bits V.eq holes depth inherited rows.now)) }
    ensures values { IfOk result (λ before. values.now ≡ before.1.now ++ noted (measured C.bits V.eq holes depth inherited rows.now)) }
{
    match open(rows, depth, inherited) {
        Opened::Ended(_) => {
            let (before, last) = values.split_at(values.len() - 1);
            begin(last, wanted, network, out)?;
            Ok((counts, before))
        }
        Opened::Narrowed(own, key, rest, inside) => {
            let (before, last) = values.split_at(values.len() - 1);
            begin(last, wanted, network, out)?;
            let narrow = first_bits(&key, inside);
            let left = place(rest, inside, own, holes, own, narrow, counts, before, out)?;
            Ok(left)
        }
        Opened::Parted(own, key, lower, upper) => {
            let end = counts.len() - 1;
            let (before, last) = values.split_at(values.len() - counts[end]);
            let (others, _) = counts.split_at(end);
            let value = begin(last, wanted, network, out)?;
            let low = half(&key, depth, false);
            let high = half(&key, depth, true);
            let (upper_counts, upper_values) = place(
                lower,
                depth + 1,
                own,
                holes,
                value,
                low,
                others,
                before,
                out,
            )?;
            let left = place(
                upper,
                depth + 1,
                own,
                holes,
                value,
                high,
                upper_counts,
                upper_values,
                out,
            )?;
            Ok(left)
        }
    }
}
