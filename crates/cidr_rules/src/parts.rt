//! What holes leave of regions, as regions of which no two have a packet in common.
ghost use Rattle.std.specs.Prelude.{◌≡◌, ◌++◌, ◌+◌, ◌≤◌, ◌<◌, true, OnOk, IfOk, IsErrOf, MatchOption, option_map, position};
ghost use Rattle.std.specs.List.{list_any};
ghost use Rattle.cidr_rules.specs.Packets.{range_of, ranges_of};
ghost use Rattle.cidr_rules.specs.Regions.{are_full, are_within, meet};
ghost use Rattle.cidr_rules.specs.Parts.{AreAllFull, IsCut, IsNextRest, IsSettled, IsStep, IsTrimmed, all_cells, boxes_of, piece};
ghost use Rattle.cidr_rules.specs.declared.errors.RulesError.TheVariants.{TooManyParts};

use crate::errors::RulesError;
use crate::fields::{FieldValue, Range};
use crate::regions::{Destination, DestinationPort, Field, Protocol, Region, Source, SourcePort};
use std::alloc::AllocError;

/// What is to be done with a part.
#[derive(Clone, Copy, Drop)]
pub(crate) enum Step {
    /// No hole meets it.
    Keep,
    /// One hole holds all of it.
    Skip,
    /// The hole at this index meets it.
    Cut(usize),
}

/// Appends the region with this range of a field, if there is one.
fn push_piece<A: FieldValue, F: Field<A>>(
    parts: &mut Vec<Region<A>>,
    region: &Region<A>,
    range: Option<Range<F::Value>>,
) -> Result<(), AllocError>
    ensures { OnOk result (boxes_of A.number parts.new.items ≡ boxes_of A.number parts.old.items
        ++ piece (ranges_of A.number region.now) F.index (option_map (range_of F.Value.number) range)) }
{
    match range {
        Some(range) => {
            parts.push(F::with_range(region, range))?;
            Ok(())
        }
        None => Ok(()),
    }
}

/// Appends what is beside a hole in one field, and leaves in the rest what is not.
fn trim<A: FieldValue, F: Field<A>>(
    parts: &mut Vec<Region<A>>,
    rest: &mut Region<A>,
    hole: &Region<A>,
) -> Result<(), AllocError>
    ensures { OnOk result (IsTrimmed F.index (ranges_of A.number rest.old) (ranges_of A.number rest.new) (ranges_of A.number hole.now)
        (boxes_of A.number parts.old.items) (boxes_of A.number parts.new.items)) }
{
    let range = F::range(rest);
    let out = F::range(hole);
    push_piece::<A, F>(parts, rest, range.below(&out))?;
    push_piece::<A, F>(parts, rest, range.above(&out))?;
    *rest = F::with_range(rest, range.common(&out));
    Ok(())
}

/// Appends what a hole, which meets the region, leaves of it: regions of which no two have a packet in common.
fn cut<A: FieldValue>(
    parts: &mut Vec<Region<A>>,
    region: &Region<A>,
    hole: &Region<A>,
) -> Result<(), AllocError>
    requires parts { AreAllFull (boxes_of A.number parts.old.items) }
    requires region { are_full (ranges_of A.number region.now) ≡ true }
    requires hole { are_full (ranges_of A.number hole.now) ≡ true }
    requires met { meet (ranges_of A.number region.now) (ranges_of A.number hole.now) ≡ true }
    ensures { OnOk result (IsCut (ranges_of A.number region.now) (ranges_of A.number hole.now)
        (boxes_of A.number parts.old.items) (boxes_of A.number parts.new.items)) }
{
    let mut rest = *region;
    trim::<A, Source>(parts, &mut rest, hole)?;
    trim::<A, Destination>(parts, &mut rest, hole)?;
    trim::<A, Protocol>(parts, &mut rest, hole)?;
    trim::<A, SourcePort>(parts, &mut rest, hole)?;
    trim::<A, DestinationPort>(parts, &mut rest, hole)?;
    Ok(())
}

/// The index of the first hole that meets the region.
fn first_meeting<A: FieldValue>(region: &Region<A>, holes: &[Region<A>]) -> Option<usize>
    ensures { result ≡ position (λ h. meet (ranges_of A.number region.now) (ranges_of A.number h)) holes.now }
{
    holes.iter().position(|hole| region.meets(hole))
}

/// Whether one hole holds all of the region.
fn one_covers<A: FieldValue>(region: &Region<A>, holes: &[Region<A>]) -> bool
    ensures { result ≡ list_any (λ h. are_within (ranges_of A.number region.now) (ranges_of A.number h)) holes.now }
{
    holes.iter().any(|hole| region.is_within(hole))
}

/// What is to be done with a region.
fn step_of<A: FieldValue>(region: &Region<A>, holes: &[Region<A>]) -> Step
    ensures { IsStep (ranges_of A.number region.now) (boxes_of A.number holes.now) result }
{
    match first_meeting(region, holes) {
        None => Step::Keep,
        Some(i) => {
            if one_covers(region, holes) {
                Step::Skip
            } else {
                Step::Cut(i)
            }
        }
    }
}

/// Appends what the first hole that meets a region leaves of it; where none meets it, tells that it is to be kept.
fn settle<A: FieldValue>(
    parts: &mut Vec<Region<A>>,
    region: &Region<A>,
    holes: &[Region<A>],
) -> Result<bool, AllocError>
    requires parts { AreAllFull (boxes_of A.number parts.old.items) }
    requires region { are_full (ranges_of A.number region.now) ≡ true }
    requires holes { AreAllFull (boxes_of A.number holes.now) }
    ensures { IfOk result (IsSettled (ranges_of A.number region.now) (boxes_of A.number holes.now)
        (boxes_of A.number parts.old.items) (boxes_of A.number parts.new.items)) }
{
    match step_of(region, holes) {
        Step::Keep => Ok(true),
        Step::Skip => Ok(false),
        Step::Cut(i) => {
            cut(parts, region, &holes[i])?;
            Ok(false)
        }
    }
}

/// The next region of what the holes leave of the parts; what is left of these stays in them. Each part that is looked at
/// takes one from the budget.
pub(crate) fn next_rest<A: FieldValue>(
    parts: &mut Vec<Region<A>>,
    holes: &[Region<A>],
    budget: &mut u64,
) -> Result<Option<Region<A>>, RulesError>
    requires parts { AreAllFull (boxes_of A.number parts.old.items) }
    requires holes { AreAllFull (boxes_of A.number holes.now) }
    ensures parts { IfOk result (λ _. AreAllFull (boxes_of A.number parts.new.items)) }
    ensures rest { IfOk result (λ found. IsNextRest (boxes_of A.number holes.now) (boxes_of A.number parts.old.items)
        (boxes_of A.number parts.new.items) (option_map (ranges_of A.number) found)) }
    ensures less { IfOk result (λ found. MatchOption found (budget.new ≤ budget.old) (λ _. budget.new < budget.old)) }
    ensures spent { IfOk result (λ _. all_cells (boxes_of A.number holes.now) (boxes_of A.number parts.new.items) + budget.old
        ≤ all_cells (boxes_of A.number holes.now) (boxes_of A.number parts.old.items) + budget.new) }
    ensures limit { IsErrOf result TooManyParts
        → budget.old < all_cells (boxes_of A.number holes.now) (boxes_of A.number parts.old.items) }
{
    while let Some(region) = parts.pop() {
        if *budget == 0 {
            return Err(RulesError::TooManyParts);
        }
        *budget -= 1;
        let kept = settle(parts, &region, holes)?;
        if kept {
            return Ok(Some(region));
        }
    }
    Ok(None)
}
