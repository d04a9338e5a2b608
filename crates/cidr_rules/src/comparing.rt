//! How two access lists differ.
ghost use Rattle.std.specs.Prelude.{◌≡◌, ◌≢◌, ◌+◌, ◌++◌, ◌*◌, ◌<◌, ◌≤◌, true, count_by, ℕ, All, List, MatchOption, IfOk, IsErrOf, OnOk, length, map};
ghost use Rattle.cidr_rules.specs.Packets.{fields_of, is_in, ranges_of};
ghost use Rattle.cidr_rules.specs.Lists.{AreJoined, IsDifference, is_permitted, most_parts};
ghost use Rattle.cidr_rules.specs.Parts.{boxes_of};
ghost use Rattle.cidr_rules.specs.Searches.{AreOfPair, AreTold, index_at, stops_at};
ghost use Rattle.cidr_rules.specs.declared.errors.RulesError.TheVariants.{TooManyParts};

use crate::errors::RulesError;
use crate::fields::FieldValue;
use crate::regions::{Packet, Region};
use crate::rules::Rule;
use crate::search::{disputed, first_rules, free_packet, rests};
use std::alloc::{AllocError, Global};

/// Packets that one of two lists permits and the other doesn't, and the rules that decide them.
#[derive(Debug, Clone, Copy, Drop)]
pub struct Difference<A: FieldValue> {
    /// The packets.
    pub region: Region<A>,
    /// The index of the rule of the first list that decides them, counted from 0, or `None` where no rule has them.
    pub rule: Option<usize>,
    /// The same of the second list.
    pub other: Option<usize>,
}

/// A packet that a rule of each list decides, and one list permits and the other doesn't, if there is one.
fn packet_of_pair<A: FieldValue>(
    alloc: Global,
    rules: &[Rule<A>],
    i: usize,
    others: &[Rule<A>],
    j: usize,
    budget: &mut u64,
) -> Result<Option<Packet<A>>, RulesError>
    requires first { i ≤ length rules.now }
    requires second { j ≤ length others.now }
    ensures found { IfOk result (λ found. MatchOption found
        ((x : List ℕ) → stops_at A.number rules.now i x ≡ true → stops_at A.number others.now j x ≡ true
        → is_permitted A.number rules.now x ≡ is_permitted A.number others.now x)
        (λ p. is_permitted A.number rules.now (fields_of A.number p) ≢ is_permitted A.number others.now (fields_of A.number p))) }
    ensures spent { IfOk result (λ _. budget.old ≤ budget.new + most_parts (length rules.now + length others.now)) }
    ensures limit { IsErrOf result TooManyParts → budget.old < most_parts (length rules.now + length others.now) }
{
    match disputed(rules, i, others, j) {
        Some(region) => {
            let before = first_rules(rules, i);
            let beside = first_rules(others, j);
            let packet = free_packet(alloc, &region, before, beside, budget)?;
            Ok(packet)
        }
        None => Ok(None),
    }
}

/// A packet that a rule of the first list decides, and one list permits and the other doesn't, if there is one.
pub(crate) fn packet_of_rule<A: FieldValue>(
    alloc: Global,
    rules: &[Rule<A>],
    i: usize,
    others: &[Rule<A>],
    budget: &mut u64,
) -> Result<Option<Packet<A>>, RulesError>
    requires { i ≤ length rules.now }
    ensures found { IfOk result (λ found. MatchOption found
        ((x : List ℕ) → stops_at A.number rules.now i x ≡ true → is_permitted A.number rules.now x ≡ is_permitted A.number others.now x)
        (λ p. is_permitted A.number rules.now (fields_of A.number p) ≢ is_permitted A.number others.now (fields_of A.number p))) }
    ensures spent { IfOk result (λ _.
        budget.old ≤ budget.new + (length others.now + 1) * most_parts (length rules.now + length others.now)) }
    ensures limit { IsErrOf result TooManyParts
        → budget.old < (length others.now + 1) * most_parts (length rules.now + length others.now) }
{
    for j in 0..others.len() {
        let found = packet_of_pair(alloc, rules, i, others, j, budget)?;
        match found {
            Some(packet) => return Ok(Some(packet)),
            None => {}
        }
    }
    let last = packet_of_pair(alloc, rules, i, others, others.len(), budget)?;
    Ok(last)
}

/// A packet that one of two lists permits and the other doesn't, if there is one: `None` only where both permit the same
/// packets. Which rules decide it, [`decides`](crate::decides) tells.
///
/// For each two rules of different actions it looks at parts of what both have, and cuts them by the earlier rules of both lists
/// that meet them. Of n and m rules these are at most (n + 1) (m + 1) (2n + 2m + 1)^5 parts. Where it has looked at `limit` parts
/// and more are left, it returns `TooManyParts`. It keeps the regions of n + m rules, and 10 parts for each that was looked at.
///
/// ```
/// differing_packet(rt.alloc(), &rules, &rules[1..], 1_000_000)?.is_some() // true
/// ```
pub fn differing_packet<A: FieldValue>(
    alloc: Global,
    rules: &[Rule<A>],
    others: &[Rule<A>],
    limit: u64,
) -> Result<Option<Packet<A>>, RulesError>
    ensures found { IfOk result (λ found. MatchOption found
        ((x : List ℕ) → is_permitted A.number rules.now x ≡ is_permitted A.number others.now x)
        (λ p. is_permitted A.number rules.now (fields_of A.number p) ≢ is_permitted A.number others.now (fields_of A.number p))) }
    ensures limit { IsErrOf result TooManyParts
        → limit < (length rules.now + 1) * ((length others.now + 1) * most_parts (length rules.now + length others.now)) }
{
    let mut budget = limit;
    for i in 0..rules.len() {
        let found = packet_of_rule(alloc, rules, i, others, &mut budget)?;
        match found {
            Some(packet) => return Ok(Some(packet)),
            None => {}
        }
    }
    let last = packet_of_rule(alloc, rules, rules.len(), others, &mut budget)?;
    Ok(last)
}

/// The packets that the rules at two indices decide, if one permits and the other doesn't: regions of which no two have a packet
/// in common.
fn regions_of_pair<A: FieldValue>(
    alloc: Global,
    rules: &[Rule<A>],
    i: usize,
    others: &[Rule<A>],
    j: usize,
    budget: &mut u64,
) -> Result<Vec<Region<A>>, RulesError>
    requires first { i ≤ length rules.now }
    requires second { j ≤ length others.now }
    ensures regions { IfOk result (λ out. AreOfPair A.number rules.now i others.now j (boxes_of A.number out.items)) }
    ensures few { IfOk result (λ out. length out.items + budget.new ≤ budget.old) }
    ensures spent { IfOk result (λ _. budget.old ≤ budget.new + most_parts (length rules.now + length others.now)) }
    ensures limit { IsErrOf result TooManyParts → budget.old < most_parts (length rules.now + length others.now) }
{
    match disputed(rules, i, others, j) {
        Some(region) => {
            let before = first_rules(rules, i);
            let beside = first_rules(others, j);
            let regions = rests(alloc, &region, before, beside, budget)?;
            Ok(regions)
        }
        None => Ok(Vec::new(alloc)),
    }
}

/// The index, or `None` behind the last rule.
fn index_of<A: FieldValue>(rules: &[Rule<A>], i: usize) -> Option<usize>
    ensures { result ≡ index_at rules.now i }
{
    if i < rules.len() { Some(i) } else { None }
}

/// Appends regions as differences of two rules.
fn push_regions<A: FieldValue>(
    out: &mut Vec<Difference<A>>,
    regions: &[Region<A>],
    rule: Option<usize>,
    other: Option<usize>,
) -> Result<(), AllocError>
    ensures { OnOk result (out.new.items ≡ out.old.items ++ map (λ r. record { region = r; rule = rule; other = other }) regions.now) }
{
    for region in regions {
        out.push(Difference {
            region: *region,
            rule,
            other,
        })?;
    }
    Ok(())
}

/// Appends the differences of the packets that the rules at two indices decide.
fn push_pair<A: FieldValue>(
    alloc: Global,
    out: &mut Vec<Difference<A>>,
    rules: &[Rule<A>],
    i: usize,
    others: &[Rule<A>],
    j: usize,
    budget: &mut u64,
) -> Result<(), RulesError>
    requires first { i ≤ length rules.now }
    requires second { j ≤ length others.now }
    requires told { AreTold A.number rules.now others.now i j out.old.items }
    ensures told { OnOk result (AreTold A.number rules.now others.now i (j + 1) out.new.items) }
    ensures few { OnOk result (length out.new.items + budget.new ≤ length out.old.items + budget.old) }
    ensures spent { OnOk result (budget.old ≤ budget.new + most_parts (length rules.now + length others.now)) }
    ensures limit { IsErrOf result TooManyParts → budget.old < most_parts (length rules.now + length others.now) }
{
    let regions = regions_of_pair(alloc, rules, i, others, j, budget)?;
    push_regions(out, &regions, index_of(rules, i), index_of(others, j))?;
    Ok(())
}

/// Appends the differences of the packets that the rule at an index of the first list decides.
fn push_rule<A: FieldValue>(
    alloc: Global,
    out: &mut Vec<Difference<A>>,
    rules: &[Rule<A>],
    i: usize,
    others: &[Rule<A>],
    budget: &mut u64,
) -> Result<(), RulesError>
    requires first { i ≤ length rules.now }
    requires told { AreTold A.number rules.now others.now i 0 out.old.items }
    ensures told { OnOk result (AreTold A.number rules.now others.now (i + 1) 0 out.new.items) }
    ensures few { OnOk result (length out.new.items + budget.new ≤ length out.old.items + budget.old) }
    ensures spent { OnOk result (budget.old ≤ budget.new + (length others.now + 1) * most_parts (length rules.now + length others.now)) }
    ensures limit { IsErrOf result TooManyParts
        → budget.old < (length others.now + 1) * most_parts (length rules.now + length others.now) }
{
    for j in 0..others.len() {
        push_pair(alloc, out, rules, i, others, j, budget)?;
    }
    push_pair(alloc, out, rules, i, others, others.len(), budget)?;
    Ok(())
}

/// All packets that one of two lists permits and the other doesn't, as regions with the rule of each list that decides them. Each
/// such packet is in one region, and no other packet is in any. Two regions of the same rules that are together one region are
/// told as that.
///
/// It looks at parts as [`differing_packet`] does, though it ends at no packet, and returns `TooManyParts` as that does. What is
/// left of two rules is compared with the regions of these two that are told already. It tells no more regions than `limit`, and
/// keeps beside them what `differing_packet` keeps.
///
/// ```
/// differences(rt.alloc(), &rules, &rules[1..], 1_000_000)?.len() // 1
/// ```
pub fn differences<A: FieldValue>(
    alloc: Global,
    rules: &[Rule<A>],
    others: &[Rule<A>],
    limit: u64,
) -> Result<Vec<Difference<A>>, RulesError>
    ensures told { IfOk result (λ out. All (IsDifference A.number rules.now others.now) out.items) }
    ensures once { IfOk result (λ out. (x : List ℕ) → is_permitted A.number rules.now x ≢ is_permitted A.number others.now x
        → count_by (λ d. is_in (ranges_of A.number d.region) x) out.items ≡ 1) }
    ensures no_other { IfOk result (λ out. (x : List ℕ) → is_permitted A.number rules.now x ≡ is_permitted A.number others.now x
        → count_by (λ d. is_in (ranges_of A.number d.region) x) out.items ≡ 0) }
    ensures joined { IfOk result (λ out. AreJoined A.number out.items) }
    ensures few { IfOk result (λ out. length out.items ≤ limit) }
    ensures limit { IsErrOf result TooManyParts
        → limit < (length rules.now + 1) * ((length others.now + 1) * most_parts (length rules.now + length others.now)) }
{
    let mut budget = limit;
    let mut out = Vec::new(alloc);
    for i in 0..rules.len() {
        push_rule(alloc, &mut out, rules, i, others, &mut budget)?;
    }
    push_rule(alloc, &mut out, rules, rules.len(), others, &mut budget)?;
    Ok(out)
}
