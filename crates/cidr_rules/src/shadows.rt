//! Rules that an access list doesn't need.
ghost use Rattle.std.specs.Prelude.{◌≡◌, ◌↔◌, ◌+◌, ◌*◌, ◌<◌, ◌≤◌, ℕ, Some, List, Contains, MatchBool, IfOk, IsErrOf, length, drop, remove};
ghost use Rattle.std.specs.List.Sorted.{IsStrictlyIncreasing};
ghost use Rattle.cidr_rules.specs.Lists.{IsRedundant, IsShadowed, decided, is_permitted, most_parts};
ghost use Rattle.cidr_rules.specs.declared.errors.RulesError.TheVariants.{TooManyParts};

use crate::comparing::packet_of_rule;
use crate::errors::RulesError;
use crate::fields::FieldValue;
use crate::rules::Rule;
use crate::search::{first_rules, free_packet};
use std::alloc::{AllocError, Global};

/// Whether a rule decides no packet.
fn is_shadowed<A: FieldValue>(
    alloc: Global,
    rules: &[Rule<A>],
    i: usize,
    budget: &mut u64,
) -> Result<bool, RulesError>
    requires { i < length rules.now }
    ensures answer { IfOk result (λ b. MatchBool b (IsShadowed A.number rules.now i) ((x : List ℕ) × (decided A.number rules.now x ≡ Some i))) }
    ensures spent { IfOk result (λ _. budget.old ≤ budget.new + most_parts (length rules.now)) }
    ensures limit { IsErrOf result TooManyParts → budget.old < most_parts (length rules.now) }
{
    let earlier = first_rules(rules, i);
    let none = first_rules(rules, 0);
    let packet = free_packet(alloc, &rules[i].region, earlier, none, budget)?;
    match packet {
        Some(_) => Ok(false),
        None => Ok(true),
    }
}

/// The indices of the rules that decide no packet, counted from 0 and ascending: earlier rules have all packets of such a
/// rule, or it has none.
///
/// For each rule it looks at parts of its region, and cuts them by the earlier rules that meet them: of n rules at most
/// n (2n + 1)^5 parts, each beside n rules. Where it has looked at `limit` parts and
/// more are left, it returns `TooManyParts`. Beside the answer it keeps the regions of n rules, and 10 parts for each that was
/// looked at.
///
/// ```
/// shadowed(rt.alloc(), &rules, 1_000_000)? // [2]
/// ```
pub fn shadowed<A: FieldValue>(
    alloc: Global,
    rules: &[Rule<A>],
    limit: u64,
) -> Result<Vec<usize>, RulesError>
    ensures indices { IfOk result (λ out. (i : ℕ) → Contains out.items i ↔ IsShadowed A.number rules.now i) }
    ensures ascending { IfOk result (λ out. IsStrictlyIncreasing out.items) }
    ensures limit { IsErrOf result TooManyParts → limit < length rules.now * most_parts (length rules.now) }
{
    let mut budget = limit;
    let mut out = Vec::new(alloc);
    for i in 0..rules.len() {
        let dead = is_shadowed(alloc, rules, i, &mut budget)?;
        if dead {
            out.push(i)?;
        }
    }
    Ok(out)
}

/// The rules that decide a packet, in their order. They permit the same packets, and each decides one of them.
///
/// It takes the time of [`shadowed`], and returns `TooManyParts` as that does.
///
/// ```
/// pruned(rt.alloc(), &rules, 1_000_000)?.len() // 2
/// ```
pub fn pruned<A: FieldValue>(
    alloc: Global,
    rules: &[Rule<A>],
    limit: u64,
) -> Result<Vec<Rule<A>>, RulesError>
    ensures same { IfOk result (λ out. (x : List ℕ) → is_permitted A.number out.items x ≡ is_permitted A.number rules.now x) }
    ensures used { IfOk result (λ out. (i : ℕ) → i < length out.items → (x : List ℕ) × (decided A.number out.items x ≡ Some i)) }
    ensures limit { IsErrOf result TooManyParts → limit < length rules.now * most_parts (length rules.now) }
{
    let mut budget = limit;
    let mut out = Vec::new(alloc);
    for i in 0..rules.len() {
        let dead = is_shadowed(alloc, rules, i, &mut budget)?;
        if !dead {
            out.push(rules[i])?;
        }
    }
    Ok(out)
}

/// The indices of the rules that may go, each alone, counted from 0 and ascending: without such a rule the same packets are
/// permitted. Two of them together may not be allowed to go, as where two rules are the same.
///
/// For each rule it looks at what it has in common with each rule of the other action, as [`differing_packet`]
/// does: at most n² (4n + 1)^5 parts of n rules. Where it has looked at `limit` parts and more are left, it returns
/// `TooManyParts`. Beside the answer it keeps a copy of the rules, the regions of 2n rules, and 10 parts for each that was looked
/// at.
///
/// [`differing_packet`]: crate::differing_packet
///
/// ```
/// redundant(rt.alloc(), &rules, 1_000_000)? // [1, 2]
/// ```
pub fn redundant<A: FieldValue>(
    alloc: Global,
    rules: &[Rule<A>],
    limit: u64,
) -> Result<Vec<usize>, RulesError>
    ensures indices { IfOk result (λ out. (i : ℕ) → Contains out.items i ↔ IsRedundant A.number rules.now i) }
    ensures ascending { IfOk result (λ out. IsStrictlyIncreasing out.items) }
    ensures limit { IsErrOf result TooManyParts → limit < length rules.now * (length rules.now * most_parts (2 * length rules.now)) }
{
    let mut budget = limit;
    let mut out = Vec::new(alloc);
    let mut rest = behind_first(alloc, rules)?;
    for i in 0..rules.len() {
        let free = is_redundant(alloc, rules, i, &rest, &mut budget)?;
        put_back(&mut rest, rules, i);
        if free {
            out.push(i)?;
        }
    }
    Ok(out)
}

/// Whether the same packets are permitted without a rule, by the list without it.
fn is_redundant<A: FieldValue>(
    alloc: Global,
    rules: &[Rule<A>],
    i: usize,
    rest: &[Rule<A>],
    budget: &mut u64,
) -> Result<bool, RulesError>
    requires within { i < length rules.now }
    requires rest { rest.now ≡ remove rules.now i }
    ensures answer { IfOk result (λ b. MatchBool b (IsRedundant A.number rules.now i) (¬ (IsRedundant A.number rules.now i))) }
    ensures spent { IfOk result (λ _. budget.old ≤ budget.new + length rules.now * most_parts (2 * length rules.now)) }
    ensures limit { IsErrOf result TooManyParts → budget.old < length rules.now * most_parts (2 * length rules.now) }
{
    let packet = packet_of_rule(alloc, rules, i, rest, budget)?;
    match packet {
        Some(_) => Ok(false),
        None => Ok(true),
    }
}

/// From the list without one rule to the list without the next.
fn put_back<A: FieldValue>(rest: &mut Vec<Rule<A>>, rules: &[Rule<A>], i: usize)
    requires within { i < length rules.now }
    requires rest { rest.old.items ≡ remove rules.now i }
    ensures { i + 1 < length rules.now → rest.new.items ≡ remove rules.now (i + 1) }
{
    if i + 1 < rules.len() {
        rest[i] = rules[i];
    }
}

/// The rules behind the first.
fn behind_first<A: FieldValue>(alloc: Global, rules: &[Rule<A>]) -> Result<Vec<Rule<A>>, AllocError>
    ensures { IfOk result (λ rest. rest.items ≡ drop 1 rules.now) }
{
    let mut rest = Vec::new(alloc);
    for i in 1..rules.len() {
        rest.push(rules[i])?;
    }
    Ok(rest)
}
