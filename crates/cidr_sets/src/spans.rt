//! Writing the networks of a range of addresses.
ghost use Rattle.std.specs.Prelude.{◌≡◌, ◌⊎◌, ◌+◌, ◌≤◌, ◌<◌, [], Bool, List, length, drop, false, true, map, Contains, MatchOption, OnOk, OnErr};
ghost use Rattle.std.specs.Bool.{Decides};
ghost use Rattle.std.specs.declared.cmp.Ordering.TheVariants.{Less};
ghost use Rattle.cidr.specs.model.Bits.{bit_cmp};
ghost use Rattle.cidr.specs.model.Network.{BeginsWith};
ghost use Rattle.cidr_sets.specs.model.Ranges.{IsBetween, IsBetweenEdges, IsCutBy, IsFilled, IsOverfull, most, side};
ghost use Rattle.cidr_sets.specs.model.Sets.{IsSetOf};
ghost use Rattle.cidr_sets.specs.internal.Steps.{Ascend};

use crate::ranges::{Addressed, all_from};
use crate::rests::{half, is_passed};
use crate::writing::Writable;
use cidr::{BitString, NetworkBits};
use cidr_table::is_inside;
use cidr_table::laws::keys::has_at_most_129_bits;
use std::alloc::AllocError;

/// Writes the networks of the addresses from a first to a last one, ascending.
pub(crate) fn write_range<C: Addressed + Copy, O: Writable<C>>(
    out: &mut O,
    first: C::Address,
    last: C::Address,
) -> Result<(), AllocError>
    requires none { O.written out.old ≡ [] }
    ensures set { OnOk result (IsSetOf 129 (IsBetween (C.address_bits first) (C.address_bits last))
        (map C.bits (O.written out.new))) }
    ensures fits { OnOk result (length (O.written out.new) + 2
        ≤ length (C.address_bits first) + length (C.address_bits last)) }
    ensures short { OnErr result ((set : List (List Bool))
        → IsSetOf 129 (IsBetween (C.address_bits first) (C.address_bits last)) set → O.room out.old < length set) }
    ensures addresses { C.IsAddress (C.address_bits first) × C.IsAddress (C.address_bits last) }
    ensures one { O.AreOne out.old out.new }
{
    let (first, last) = (C::single(first), C::single(last));
    has_at_most_129_bits(&first);
    has_at_most_129_bits(&last);
    write_between(out, &C::null(), &first, &last)?;
    Ok(())
}

/// Writes the networks of the addresses of a network from a first to a last one, ascending.
///
/// A network that has none of them is left out, and one that has only such is written itself. Any other is halved.
fn write_between<C: NetworkBits + Copy, O: Writable<C>>(
    out: &mut O,
    network: &C,
    first: &C,
    last: &C,
) -> Result<(), AllocError>
    requires ascend { Ascend (map C.bits (O.written out.old)) }
    requires before { (x : List Bool) → Contains (map C.bits (O.written out.old)) x
        → bit_cmp x (C.bits network.now) ≡ Less }
    ensures filled { OnOk result (IsFilled (IsBetweenEdges (C.bits first.now) (C.bits last.now))
        (C.bits network.now) (map C.bits (O.written out.old)) (map C.bits (O.written out.new))) }
    ensures fits { OnOk result (length (O.written out.new) ≤ length (O.written out.old)
        + most (side false (C.bits first.now) (C.bits network.now)) (side true (C.bits last.now) (C.bits network.now))) }
    ensures over { OnErr result (IsOverfull (IsBetweenEdges (C.bits first.now) (C.bits last.now))
        (C.bits network.now) (map C.bits (O.written out.old)) (O.room out.old)) }
    ensures room { O.room out.old ≤ O.room out.new }
    ensures one { O.AreOne out.old out.new }
{
    has_at_most_129_bits(network);
    has_at_most_129_bits(first);
    has_at_most_129_bits(last);
    if is_passed(network, first) || is_passed(last, network) {
        return Ok(());
    }
    let Some(edge) = cutting(network, first, last) else {
        out.write(*network)?;
        return Ok(());
    };
    let lower = half(network, edge, false);
    write_between(out, &lower, first, last)?;
    let upper = half(network, edge, true);
    write_between(out, &upper, first, last)?;
    Ok(())
}

/// Of a first and a last address the one that lies in a network of which not all addresses are on its right side.
fn cutting<'a, C: BitString>(network: &C, first: &'a C, last: &'a C) -> Option<&'a C>
    ensures { MatchOption result
        ((¬ (IsCutBy false (C.bits first.now) (C.bits network.now))) × (¬ (IsCutBy true (C.bits last.now) (C.bits network.now))))
        (λ edge. (IsCutBy false (C.bits first.now) (C.bits network.now) ⊎ IsCutBy true (C.bits last.now) (C.bits network.now))
        × BeginsWith (C.bits edge.now) (C.bits network.now)
        × (length (C.bits network.now) < length (C.bits edge.now))) }
{
    if is_cut(network, first, false) {
        return Some(first);
    }
    if is_cut(network, last, true) {
        return Some(last);
    }
    None
}

/// Whether an edge lies in a network, and has other bits than `bit` behind the network's.
fn is_cut<C: BitString>(network: &C, edge: &C, bit: bool) -> bool
    ensures { Decides result (IsCutBy bit (C.bits edge.now) (C.bits network.now)) }
{
    is_inside(edge, network) && !all_from(edge, network.len(), bit)
}
