//! What the rules of two lists leave of a region.
ghost use Rattle.std.specs.Prelude.{◌≡◌, ◌≤◌, ◌<◌, ◌+◌, ◌&&◌, ◌⊎◌, ℕ, List, not, [], length, take, OnOk, IfOk, IsErrOf, MatchOption, option_map};
ghost use Rattle.std.specs.List.{list_any};
ghost use Rattle.cidr_rules.specs.Packets.{fields_of, ranges_of};
ghost use Rattle.cidr_rules.specs.Regions.{are_full, are_within, meet};
ghost use Rattle.cidr_rules.specs.Parts.{AreAllFull, boxes_of};
ghost use Rattle.cidr_rules.specs.Lists.{most_parts};
ghost use Rattle.cidr_rules.specs.Searches.{AreBoth, AreDisputed, AreHoles, AreRests, IsFree, IsSearch, permits_at, differ};
ghost use Rattle.cidr_rules.specs.declared.errors.RulesError.TheVariants.{TooManyParts};

use crate::errors::RulesError;
use crate::fields::FieldValue;
use crate::joining::push_joined;
use crate::parts::next_rest;
use crate::regions::{Packet, Region};
use crate::rules::{Rule, is_permit};
use std::alloc::{AllocError, Global};

/// Whether one rule has all packets of the region.
fn one_holds<A: FieldValue>(region: &Region<A>, rules: &[Rule<A>]) -> bool
    ensures { result ≡ list_any (λ r. are_within (ranges_of A.number region.now) (ranges_of A.number r.region)) rules.now }
{
    rules.iter().any(|rule| region.is_within(&rule.region))
}

/// Whether the rule has a packet, and may have one of the region.
fn is_hole<A: FieldValue>(region: &Region<A>, rule: &Rule<A>) -> bool
    ensures { result ≡ (meet (ranges_of A.number region.now) (ranges_of A.number rule.now.region)
        && are_full (ranges_of A.number rule.now.region)) }
{
    region.meets(&rule.region) && rule.region.has_packet()
}

/// Whether the region has a packet, and no rule of two lists has all of them.
fn is_open<A: FieldValue>(region: &Region<A>, rules: &[Rule<A>], others: &[Rule<A>]) -> bool
    ensures { result ≡ (are_full (ranges_of A.number region.now)
        && (not (list_any (λ r. are_within (ranges_of A.number region.now) (ranges_of A.number r.region)) rules.now)
        && not (list_any (λ r. are_within (ranges_of A.number region.now) (ranges_of A.number r.region)) others.now))) }
{
    region.has_packet() && (!one_holds(region, rules) && !one_holds(region, others))
}

/// Appends the regions of the rules that may matter in the region.
fn push_holes<A: FieldValue>(
    holes: &mut Vec<Region<A>>,
    region: &Region<A>,
    rules: &[Rule<A>],
) -> Result<(), AllocError>
    requires { AreAllFull (boxes_of A.number holes.old.items) }
    ensures { OnOk result (AreHoles A.number (ranges_of A.number region.now) rules.now holes.old.items holes.new.items) }
{
    for rule in rules {
        if is_hole(region, rule) {
            holes.push(rule.region)?;
        }
    }
    Ok(())
}

/// Begins the search for the packets of the region that no rule of two lists has: parts that are to be looked at, and the
/// regions that are left out of them.
pub(crate) fn begin_search<A: FieldValue>(
    parts: &mut Vec<Region<A>>,
    holes: &mut Vec<Region<A>>,
    region: &Region<A>,
    rules: &[Rule<A>],
    others: &[Rule<A>],
) -> Result<(), AllocError>
    requires parts { parts.old.items ≡ [] }
    requires holes { holes.old.items ≡ [] }
    ensures { OnOk result (IsSearch A.number (ranges_of A.number region.now) rules.now others.now parts.new.items holes.new.items) }
{
    if !is_open(region, rules, others) {
        return Ok(());
    }
    push_holes(holes, region, rules)?;
    push_holes(holes, region, others)?;
    parts.push(*region)?;
    Ok(())
}

/// A packet of the region that no rule of two lists has, if there is one.
pub(crate) fn free_packet<A: FieldValue>(
    alloc: Global,
    region: &Region<A>,
    rules: &[Rule<A>],
    others: &[Rule<A>],
    budget: &mut u64,
) -> Result<Option<Packet<A>>, RulesError>
    ensures found { IfOk result (λ found. MatchOption found
        ((x : List ℕ) → ¬ (IsFree A.number (ranges_of A.number region.now) rules.now others.now x))
        (λ p. IsFree A.number (ranges_of A.number region.now) rules.now others.now (fields_of A.number p))) }
    ensures spent { IfOk result (λ _. budget.old ≤ budget.new + most_parts (length rules.now + length others.now)) }
    ensures limit { IsErrOf result TooManyParts → budget.old < most_parts (length rules.now + length others.now) }
{
    let mut parts = Vec::new(alloc);
    let mut holes = Vec::new(alloc);
    begin_search(&mut parts, &mut holes, region, rules, others)?;
    let found = next_rest(&mut parts, &holes, budget)?;
    match found {
        Some(rest) => Ok(Some(rest.first_packet())),
        None => Ok(None),
    }
}

/// The packets of the region that no rule of two lists has: regions of which no two have a packet in common.
pub(crate) fn rests<A: FieldValue>(
    alloc: Global,
    region: &Region<A>,
    rules: &[Rule<A>],
    others: &[Rule<A>],
    budget: &mut u64,
) -> Result<Vec<Region<A>>, RulesError>
    ensures rests { IfOk result (λ out. AreRests A.number (ranges_of A.number region.now) rules.now others.now (boxes_of A.number out.items)) }
    ensures few { IfOk result (λ out. length out.items + budget.new ≤ budget.old) }
    ensures spent { IfOk result (λ _. budget.old ≤ budget.new + most_parts (length rules.now + length others.now)) }
    ensures limit { IsErrOf result TooManyParts → budget.old < most_parts (length rules.now + length others.now) }
{
    let mut parts = Vec::new(alloc);
    let mut holes = Vec::new(alloc);
    let mut out = Vec::new(alloc);
    begin_search(&mut parts, &mut holes, region, rules, others)?;
    loop {
        let found = next_rest(&mut parts, &holes, budget)?;
        match found {
            Some(rest) => push_joined(&mut out, &rest)?,
            None => return Ok(out),
        }
    }
}

/// The first rules of a list.
pub(crate) fn first_rules<A: FieldValue>(rules: &[Rule<A>], i: usize) -> &[Rule<A>]
    requires { i ≤ length rules.now }
    ensures { result.now ≡ take i rules.now }
{
    &rules[..i]
}

/// Whether the rule at an index permits; behind the last rule, packets are denied.
fn permits_from<A: FieldValue>(rules: &[Rule<A>], i: usize) -> bool
    ensures { result ≡ permits_at rules.now i }
{
    if i < rules.len() {
        is_permit(rules[i].action)
    } else {
        false
    }
}

/// The packets that both rules have, of which one may stand behind its list's last and has every packet.
fn both<A: FieldValue>(
    rules: &[Rule<A>],
    i: usize,
    others: &[Rule<A>],
    j: usize,
) -> Option<Region<A>>
    requires { (i < length rules.now) ⊎ (j < length others.now) }
    ensures { AreBoth A.number rules.now i others.now j (option_map (ranges_of A.number) result) }
{
    if i < rules.len() {
        if j < others.len() {
            if rules[i].region.meets(&others[j].region) {
                Some(rules[i].region.shared(&others[j].region))
            } else {
                None
            }
        } else {
            Some(rules[i].region)
        }
    } else {
        Some(others[j].region)
    }
}

/// The packets that both rules have, if one permits and the other doesn't.
pub(crate) fn disputed<A: FieldValue>(
    rules: &[Rule<A>],
    i: usize,
    others: &[Rule<A>],
    j: usize,
) -> Option<Region<A>>
    ensures { AreDisputed A.number rules.now i others.now j (option_map (ranges_of A.number) result) }
{
    let permitted = permits_from(rules, i);
    let other = permits_from(others, j);
    let apart = is_different(permitted, other);
    if !apart {
        return None;
    }
    both(rules, i, others, j)
}

/// Whether one of two lists permits, and the other doesn't.
fn is_different(permitted: bool, other: bool) -> bool
    ensures { result ≡ differ permitted other }
{
    if permitted { !other } else { other }
}
