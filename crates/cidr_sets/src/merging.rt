//! Steps through two lists of networks at once.
ghost use Rattle.std.specs.Prelude.{◌≡◌, ◌⊎◌, ◌+◌, ◌-◌, ◌≤◌, [], length, map, MatchOption};
ghost use Rattle.std.specs.Option.{option_map};
ghost use Rattle.cidr_table.specs.model.Cover.{IsReduced};
ghost use Rattle.cidr_sets.specs.model.Sets.{IsIntersection};
ghost use Rattle.cidr_sets.specs.internal.Steps.{Ascend, IsMerge, IsIntersectionStep, IsUnionStep};

use crate::writing::Writable;
use cidr::NetworkBits;
use cidr_table::is_inside;
use std::cmp::Ordering;

/// The first network of two lists, and what is left of them; `None` where both are empty.
pub(crate) fn next_of<'a, C: NetworkBits + Copy>(
    left: &'a [C],
    right: &'a [C],
) -> Option<(&'a C, &'a [C], &'a [C])>
    requires left { Ascend (map C.bits left.now) }
    requires right { Ascend (map C.bits right.now) }
    ensures { MatchOption result (length left.now + length right.now ≡ 0) (λ r.
        IsUnionStep (map C.bits left.now) (map C.bits right.now) (C.bits r.0.now) (map C.bits r.1.now) (map C.bits r.2.now)) }
{
    match left.split_first() {
        Some((first, behind)) => match right.split_first() {
            Some((second, rest)) => match first.cmp(second) {
                Ordering::Less => Some((first, behind, right)),
                Ordering::Equal => Some((first, behind, rest)),
                Ordering::Greater => Some((second, left, rest)),
            },
            None => Some((first, behind, right)),
        },
        None => match right.split_first() {
            Some((second, rest)) => Some((second, left, rest)),
            None => None,
        },
    }
}

/// Of the first networks of two lists, the one that lies in the other, if one does, and what is left of the lists
/// without it, or else without the first of both; `None` where one list is empty.
pub(crate) fn next_shared<'a, C: NetworkBits + Copy>(
    left: &'a [C],
    right: &'a [C],
) -> Option<(Option<C>, &'a [C], &'a [C])>
    requires left { Ascend (map C.bits left.now) }
    requires right { Ascend (map C.bits right.now) }
    ensures { MatchOption result ((length left.now ≡ 0) ⊎ (length right.now ≡ 0)) (λ r.
        IsIntersectionStep (map C.bits left.now) (map C.bits right.now) (option_map C.bits r.0) (map C.bits r.1.now)
        (map C.bits r.2.now)) }
{
    let (first, behind) = left.split_first()?;
    let (second, rest) = right.split_first()?;
    if is_inside(first, second) {
        return Some((Some(*first), behind, right));
    }
    if is_inside(second, first) {
        return Some((Some(*second), left, rest));
    }
    match first.cmp(second) {
        Ordering::Less => Some((None, behind, right)),
        _ => Some((None, left, rest)),
    }
}

/// Writes the networks of both lists, ascending, and each once, where there is room for all.
pub(crate) fn write_merged<C: NetworkBits + Copy, O: Writable<C>>(
    out: &mut O,
    these: &[C],
    those: &[C],
)
    requires these { Ascend (map C.bits these.now) }
    requires those { Ascend (map C.bits those.now) }
    requires none { O.written out.old ≡ [] }
    requires room { length these.now + length those.now ≤ O.room out.old }
    ensures fits { length (O.written out.new) ≤ length these.now + length those.now }
    ensures merge { IsMerge (map C.bits these.now) (map C.bits those.now) (map C.bits (O.written out.new)) }
    ensures one { O.AreOne out.old out.new }
{
    let mut left = these;
    let mut right = those;
    while let Some((network, behind, rest)) = next_of(left, right) {
        out.put(*network);
        left = behind;
        right = rest;
    }
}

/// Writes the networks of the addresses that both of two sets have, ascending, where there is room for all.
pub(crate) fn write_shared<C: NetworkBits + Copy, O: Writable<C>>(
    out: &mut O,
    these: &[C],
    those: &[C],
)
    requires these { IsReduced 129 (map C.bits these.now) }
    requires those { IsReduced 129 (map C.bits those.now) }
    requires none { O.written out.old ≡ [] }
    requires room { length these.now + length those.now ≤ O.room out.old + 1 }
    ensures fits { length (O.written out.new) ≤ length these.now + length those.now - 1 }
    ensures set { IsIntersection 129 (map C.bits these.now) (map C.bits those.now) (map C.bits (O.written out.new)) }
    ensures one { O.AreOne out.old out.new }
{
    let mut left = these;
    let mut right = those;
    while let Some((shared, behind, rest)) = next_shared(left, right) {
        if let Some(network) = shared {
            out.put(network);
        }
        left = behind;
        right = rest;
    }
}
