//! An access list permits the same packets without the rules that decide none, so that nothing is told of both.
ghost use Rattle.std.specs.Prelude.{IfOk, IsFalse, IsTrue};

use cidr_rules::{FieldValue, Rule, RulesError, differences, differing_packet, pruned};
use std::alloc::Global;

/// Whether some packet is permitted by a list and not by what `pruned` leaves of it, or the other way round. Always false,
/// where the limit and memory are enough.
pub fn is_changed_by_pruning<A: FieldValue>(
    alloc: Global,
    rules: &[Rule<A>],
    limit: u64,
) -> Result<bool, RulesError>
    ensures { IfOk result IsFalse }
{
    let left = pruned(alloc, rules, limit)?;
    let found = differing_packet(alloc, rules, left.as_slice(), limit)?;
    Ok(found.is_some())
}

/// Whether no packets are told of a list and what `pruned` leaves of it. Always true, where the limit and memory are enough.
pub fn is_nothing_told_of_pruning<A: FieldValue>(
    alloc: Global,
    rules: &[Rule<A>],
    limit: u64,
) -> Result<bool, RulesError>
    ensures { IfOk result IsTrue }
{
    let left = pruned(alloc, rules, limit)?;
    let told = differences(alloc, rules, left.as_slice(), limit)?;
    Ok(told.as_slice().is_empty())
}
