//! Steps that leave the addresses of some networks out of another.
ghost use Rattle.std.specs.Prelude.{◌≡◌, ℕ, ◌+◌, ◌*◌, ◌<◌, ◌≤◌, ◌++◌, ◌∷◌, [], Bool, List, length, map, Contains, Some, slice_get, MatchOption, IfOk, OnOk, OnErr};
ghost use Rattle.std.specs.Bool.{Decides};
ghost use Rattle.std.specs.declared.cmp.Ordering.TheVariants.{Less};
ghost use Rattle.cidr.specs.model.Bits.{bit_cmp};
ghost use Rattle.cidr.specs.model.Network.{BeginsWith};
ghost use Rattle.cidr_table.specs.model.Cover.{AreNetworks, IsReduced};
ghost use Rattle.cidr_sets.specs.model.Sets.{IsComplement, IsDifference};
ghost use Rattle.cidr_sets.specs.internal.Steps.{AreApart, Ascend, IsDifferenceStep, IsOver, IsSkipped, StartsBehind, StartsFrom};

use crate::writing::Writable;
use cidr::{BitString, NetworkBits};
use cidr_table::is_inside;
use cidr_table::laws::keys::has_at_most_129_bits;
use std::alloc::AllocError;

/// The networks without the first ones, which come before this one and don't contain it.
pub(crate) fn skip<'a, C: NetworkBits>(network: &C, others: &'a [C]) -> &'a [C]
    requires { Ascend (map C.bits others.now) }
    ensures { IsSkipped (C.bits network.now) (map C.bits others.now) (map C.bits result.now) }
{
    let mut left = others;
    while let Some((first, behind)) = left.split_first() {
        if !is_passed(first, network) {
            break;
        }
        left = behind;
    }
    left
}

/// Whether a network comes before another and doesn't contain it.
pub(crate) fn is_passed<C: NetworkBits>(network: &C, next: &C) -> bool
    ensures { Decides result ((bit_cmp (C.bits network.now) (C.bits next.now) ≡ Less)
        × ¬ (BeginsWith (C.bits next.now) (C.bits network.now))) }
{
    network.cmp(next).is_lt() && !is_inside(next, network)
}

/// A half of a network that has another inside.
pub(crate) fn half<C: BitString + Copy>(network: &C, inner: &C, upper: bool) -> C
    requires begins { BeginsWith (C.bits inner.now) (C.bits network.now) }
    requires longer { length (C.bits network.now) < length (C.bits inner.now) }
    ensures bits { C.bits result ≡ C.bits network.now ++ upper ∷ [] }
    ensures room { length (C.bits network.now) < 129 }
{
    has_at_most_129_bits(inner);
    let mut half = *inner;
    half.clip(network.len());
    half.append(upper);
    half
}

/// The first network and those behind it, where it lies in another.
fn split_inside<'a, C: BitString>(outer: &C, networks: &'a [C]) -> Option<(&'a C, &'a [C])>
    ensures { MatchOption result
        ((q : List Bool) → slice_get (map C.bits networks.now) 0 ≡ Some q → ¬ (BeginsWith q (C.bits outer.now)))
        (λ r. (networks.now ≡ r.0.now ∷ r.1.now) × BeginsWith (C.bits r.0.now) (C.bits outer.now)) }
{
    let (first, behind) = networks.split_first()?;
    if is_inside(first, outer) {
        Some((first, behind))
    } else {
        None
    }
}

/// Whether the first network contains another and is larger.
fn starts_around<C: BitString>(networks: &[C], network: &C) -> bool
    ensures { Decides result ((q : List Bool) × (slice_get (map C.bits networks.now) 0 ≡ Some q)
        × BeginsWith (C.bits network.now) q × (length q < length (C.bits network.now))) }
{
    match networks.split_first() {
        Some((first, _)) => first.len() < network.len() && is_inside(network, first),
        None => false,
    }
}

/// Writes the networks of the addresses that a set has and another has not, ascending.
pub(crate) fn write_rests<C: NetworkBits + Copy, O: Writable<C>>(
    out: &mut O,
    networks: &[C],
    others: &[C],
) -> Result<(), AllocError>
    requires networks { IsReduced 129 (map C.bits networks.now) }
    requires others { IsReduced 129 (map C.bits others.now) }
    requires none { O.written out.old ≡ [] }
    ensures set { OnOk result
        (IsDifference 129 (map C.bits networks.now) (map C.bits others.now) (map C.bits (O.written out.new))) }
    ensures fits { OnOk result ((w : ℕ) → AreNetworks w (map C.bits others.now)
        → length (O.written out.new) ≤ length networks.now + w * length others.now) }
    ensures short { OnErr result ((set : List (List Bool))
        → IsDifference 129 (map C.bits networks.now) (map C.bits others.now) set → O.room out.old < length set) }
    ensures one { O.AreOne out.old out.new }
{
    let mut todo = networks;
    let mut left = others;
    while let Some((network, behind)) = todo.split_first() {
        left = write_rest(out, network, left)?;
        todo = behind;
    }
    Ok(())
}

/// Writes the networks of the addresses of a network that a set has not, ascending.
pub(crate) fn write_complement<C: NetworkBits + Copy, O: Writable<C>>(
    out: &mut O,
    network: &C,
    networks: &[C],
) -> Result<(), AllocError>
    requires networks { IsReduced 129 (map C.bits networks.now) }
    requires none { O.written out.old ≡ [] }
    ensures set { OnOk result
        (IsComplement 129 (C.bits network.now) (map C.bits networks.now) (map C.bits (O.written out.new))) }
    ensures fits { OnOk result ((w : ℕ) → AreNetworks w (map C.bits networks.now)
        → length (O.written out.new) ≤ w * length networks.now + 1) }
    ensures short { OnErr result ((set : List (List Bool))
        → IsComplement 129 (C.bits network.now) (map C.bits networks.now) set → O.room out.old < length set) }
    ensures one { O.AreOne out.old out.new }
{
    has_at_most_129_bits(network);
    write_rest(out, network, networks)?;
    Ok(())
}

/// Writes the networks of the addresses of a network that the others have not, ascending, and returns those of the
/// others that can have addresses behind the network.
pub(crate) fn write_rest<'a, C: NetworkBits + Copy, O: Writable<C>>(
    out: &mut O,
    network: &C,
    others: &'a [C],
) -> Result<&'a [C], AllocError>
    requires others { Ascend (map C.bits others.now) }
    requires apart { AreApart (map C.bits others.now) }
    requires ascend { Ascend (map C.bits (O.written out.old)) }
    requires before { (x : List Bool) → Contains (map C.bits (O.written out.old)) x
        → bit_cmp x (C.bits network.now) ≡ Less }
    ensures cut { IfOk result (λ rest. IsDifferenceStep (C.bits network.now) (map C.bits (O.written out.old))
        (map C.bits (O.written out.new)) (map C.bits others.now) (map C.bits rest.now)) }
    ensures over { OnErr result
        (IsOver (C.bits network.now) (map C.bits (O.written out.old)) (map C.bits others.now) (O.room out.old)) }
    ensures room { O.room out.old ≤ O.room out.new }
    ensures one { O.AreOne out.old out.new }
{
    let left = skip(network, others);
    if starts_around(left, network) {
        return Ok(left);
    }
    let rest = write_within(out, network, left)?;
    Ok(rest)
}

/// What `write_rest` does, where no other comes before the network or contains it, unless it is the same.
///
/// A network that contains none of the others is written itself. Any other is halved, as long as it isn't one of these.
fn write_within<'a, C: NetworkBits + Copy, O: Writable<C>>(
    out: &mut O,
    network: &C,
    others: &'a [C],
) -> Result<&'a [C], AllocError>
    requires others { Ascend (map C.bits others.now) }
    requires apart { AreApart (map C.bits others.now) }
    requires from { StartsFrom (C.bits network.now) (map C.bits others.now) }
    requires ascend { Ascend (map C.bits (O.written out.old)) }
    requires before { (x : List Bool) → Contains (map C.bits (O.written out.old)) x
        → bit_cmp x (C.bits network.now) ≡ Less }
    ensures cut { IfOk result (λ rest. IsDifferenceStep (C.bits network.now) (map C.bits (O.written out.old))
        (map C.bits (O.written out.new)) (map C.bits others.now) (map C.bits rest.now)) }
    ensures next { IfOk result (λ rest. StartsBehind (C.bits network.now) (map C.bits rest.now)) }
    ensures over { OnErr result
        (IsOver (C.bits network.now) (map C.bits (O.written out.old)) (map C.bits others.now) (O.room out.old)) }
    ensures room { O.room out.old ≤ O.room out.new }
    ensures one { O.AreOne out.old out.new }
{
    let Some((first, behind)) = split_inside(network, others) else {
        out.write(*network)?;
        return Ok(others);
    };
    if first.len() == network.len() {
        return Ok(behind);
    }
    let lower = half(network, first, false);
    let rest = write_within(out, &lower, others)?;
    let upper = half(network, first, true);
    let last = write_within(out, &upper, rest)?;
    Ok(last)
}
