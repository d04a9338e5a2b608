//! Access lists: rules in order, each of which permits or denies the addresses of a network.
ghost use Rattle.std.specs.Prelude.{◌≡◌, ◌↔◌, ℕ, length, map, Contains, IfOk, Some};
ghost use Rattle.std.specs.Bool.{Decides};
ghost use Rattle.std.specs.List.{All};
ghost use Rattle.std.specs.List.Sorted.{IsStrictlyIncreasing};
ghost use Rattle.cidr_table.specs.model.Cover.{Covers};
ghost use Rattle.cidr_sets.specs.model.Sets.{IsSetOf};
ghost use Rattle.cidr_sets.specs.model.FirstRules.{IsPermitted, IsDeciding, AreDecidingRules, IsShadowed};
ghost use Rattle.cidr_sets.specs.declared.access.Action.{Action};
ghost use Rattle.cidr_sets.specs.declared.access.Action.TheVariants.{Permit};

use crate::decisions::{Decisions, decide_all, deciding_in};
use crate::set::NetworkSet;
use cidr::NetworkBits;
use cidr_table::{LpmTable, is_inside};
use std::alloc::{AllocError, Global};

/// What a rule does with the addresses of its network.
#[derive(Debug, Clone, Copy, Drop, PartialEq, Eq)]
pub enum Action {
    /// The addresses are permitted.
    Permit,
    /// The addresses are denied.
    Deny,
}

/// A rule of an access list.
#[derive(Debug, Clone, Copy, Drop)]
pub struct Rule<C: NetworkBits + Copy> {
    /// What the rule does with an address of its network, where no earlier rule's network contains the address.
    pub action: Action,
    /// The network.
    pub network: C,
}

/// Whether an access list permits an address, which is given as the network of full prefix length. The first rule whose
/// network contains it decides; an address in none of the networks is denied. A larger network is taken as a whole: a
/// rule for a part of it doesn't count.
///
/// It goes through the rules up to the one that decides, O(n), and takes no memory. For many addresses take the set
/// that [`permitted`] returns.
///
/// ```
/// permits(&rules, &"10.128.0.1".parse()?) // true
/// permits(&rules, &"10.0.0.1".parse()?) // false
/// ```
pub fn permits<C: NetworkBits + Copy>(rules: &[Rule<C>], address: &C) -> bool
    ensures { Decides result (IsPermitted (map (λ r. C.bits r.network) rules.now) (map (λ r. r.action) rules.now)
        (C.bits address.now)) }
{
    match rules.iter().find(|rule| is_inside(address, &rule.network)) {
        Some(rule) => is_permit(rule.action),
        None => false,
    }
}

/// Whether the addresses are permitted.
fn is_permit(action: Action) -> bool
    ensures { Decides result (action ≡ Permit) }
{
    match action {
        Action::Permit => true,
        Action::Deny => false,
    }
}

/// The addresses that an access list permits.
///
/// The first rule whose network contains an address decides. An address in none of the networks is denied, so that
/// a list without rules permits none.
///
/// It puts the halves of the list together, by a union and a difference of what they permit: O(n log n) for n rules,
/// and up to 128 times that where denied networks cut permitted ones. Where an allocation fails, it returns the error.
///
/// ```
/// permitted(rt.alloc(), &rules)?.as_slice() // [10.128.0.0/9]
/// ```
pub fn permitted<C: NetworkBits + Copy>(
    alloc: Global,
    rules: &[Rule<C>],
) -> Result<NetworkSet<C>, AllocError>
    ensures { IfOk result (λ set. IsSetOf 129
        (IsPermitted (map (λ r. C.bits r.network) rules.now) (map (λ r. r.action) rules.now)) (map C.bits set)) }
{
    Ok(decided(alloc, rules)?.permitted)
}

/// What some rules in order say by themselves.
#[derive(Drop)]
struct Outcome<C: NetworkBits + Copy> {
    /// The addresses that they permit.
    permitted: NetworkSet<C>,
    /// The addresses that they permit or deny.
    matched: NetworkSet<C>,
}

/// The most rules whose networks are added and removed one by one.
const FEW: usize = 64;

/// What some rules say: those of the later half play no part for the addresses of the earlier.
fn decided<C: NetworkBits + Copy>(
    alloc: Global,
    rules: &[Rule<C>],
) -> Result<Outcome<C>, AllocError>
    ensures permitted { IfOk result (λ d. IsSetOf 129
        (IsPermitted (map (λ r. C.bits r.network) rules.now) (map (λ r. r.action) rules.now)) (map C.bits d.permitted)) }
    ensures matched { IfOk result (λ d.
        IsSetOf 129 (Covers (map (λ r. C.bits r.network) rules.now)) (map C.bits d.matched)) }
{
    if rules.len() <= FEW {
        let permitted = permitted_by_few(alloc, rules)?;
        let matched = matched_by(alloc, rules)?;
        return Ok(Outcome { permitted, matched });
    }
    let (front, back) = rules.split_at(rules.len() / 2);
    let earlier = decided(alloc, front)?;
    let later = decided(alloc, back)?;
    let left = later.permitted.difference(&earlier.matched)?;
    let permitted = earlier.permitted.union(&left)?;
    let matched = earlier.matched.union(&later.matched)?;
    Ok(Outcome { permitted, matched })
}

/// The addresses of the networks of some rules.
fn matched_by<C: NetworkBits + Copy>(
    alloc: Global,
    rules: &[Rule<C>],
) -> Result<NetworkSet<C>, AllocError>
    ensures { IfOk result (λ set. IsSetOf 129 (Covers (map (λ r. C.bits r.network) rules.now)) (map C.bits set)) }
{
    let mut networks = Vec::new(alloc);
    for rule in rules {
        networks.push(rule.network)?;
    }
    Ok(NetworkSet::from_vec(networks))
}

/// The addresses that some rules permit, from the last rule to the first.
fn permitted_by_few<C: NetworkBits + Copy>(
    alloc: Global,
    rules: &[Rule<C>],
) -> Result<NetworkSet<C>, AllocError>
    ensures { IfOk result (λ set. IsSetOf 129
        (IsPermitted (map (λ r. C.bits r.network) rules.now) (map (λ r. r.action) rules.now)) (map C.bits set)) }
{
    let mut set = NetworkSet::new(alloc);
    for i in (0..rules.len()).rev() {
        let rule = &rules[i];
        match rule.action {
            Action::Permit => set.insert(rule.network)?,
            Action::Deny => set.remove(&rule.network)?,
        }
    }
    Ok(set)
}

/// The indices of the rules that no address reaches, counted from 0 and ascending: each address of such a rule's
/// network is in the network of an earlier rule, which decides. What the rules do plays no part.
///
/// It sorts the networks once, and halves each where an earlier one lies in it: O(n log n) for n rules, and a step for each
/// network that is left of a rule. Of these there are at most n where none is cut out of another, and else one more for
/// each bit of each network; it allocates room for them and for n rows. Where an allocation fails, it returns the error.
///
/// ```
/// shadowed(rt.alloc(), &rules)? // [2]
/// ```
pub fn shadowed<C: NetworkBits + Copy>(
    alloc: Global,
    rules: &[Rule<C>],
) -> Result<Vec<usize>, AllocError>
    ensures indices { IfOk result (λ out. (i : ℕ)
        → Contains out.items i ↔ IsShadowed 129 (map (λ r. C.bits r.network) rules.now) i) }
    ensures ascending { IfOk result (λ out. IsStrictlyIncreasing out.items) }
{
    Ok(decide_all(alloc, rules)?.unreached)
}

/// The indices of the rules that decide the addresses of a network, counted from 0 and ascending: each is the first
/// rule whose network contains some address of this one. Whether some of these are in no rule's network isn't told.
///
/// Of the network of a rule that [`shadowed`] returns, they are the earlier rules that together contain all of its
/// addresses. It takes the network of each rule out of a set that begins as this network, and stops where nothing is left:
/// O(n²) at most for n rules. Where an allocation fails, it returns the error.
///
/// ```
/// deciding(rt.alloc(), &rules, &rules[2].network)? // [0]
/// deciding(rt.alloc(), &rules, &rules[1].network)? // [0, 1]
/// ```
pub fn deciding<C: NetworkBits + Copy>(
    alloc: Global,
    rules: &[Rule<C>],
    network: &C,
) -> Result<Vec<usize>, AllocError>
    ensures indices { IfOk result (λ out. (i : ℕ) → Contains out.items i
        ↔ IsDeciding 129 (map (λ r. C.bits r.network) rules.now) (C.bits network.now) i) }
    ensures ascending { IfOk result (λ out. IsStrictlyIncreasing out.items) }
{
    let mut rest = NetworkSet::new(alloc);
    rest.insert(*network)?;
    let mut out = Vec::new(alloc);
    for (i, rule) in rules.iter().enumerate() {
        if rest.is_empty() {
            return Ok(out);
        }
        if rest.overlaps(&rule.network) {
            out.push(i)?;
            rest.remove(&rule.network)?;
        }
    }
    Ok(out)
}

/// A rule that no address reaches, with the earlier rules that cover it.
#[derive(Debug, Drop)]
pub struct Shadow {
    /// The index of the rule, counted from 0.
    pub rule: usize,
    /// The indices of the earlier rules that decide the addresses of its network, ascending.
    pub by: Vec<usize>,
}

/// The rules that no address reaches, ascending, each with the earlier rules that decide the addresses of its network.
///
/// It takes the time of [`shadowed`], and then for each rule that it returns a look-up, and a step for each network that
/// is left of the rules that decide. Where an allocation fails, it returns the error.
///
/// ```
/// shadowed_by(rt.alloc(), &rules)? // [Shadow { rule: 2, by: [0] }]
/// ```
pub fn shadowed_by<C: NetworkBits + Copy>(
    alloc: Global,
    rules: &[Rule<C>],
) -> Result<Vec<Shadow>, AllocError>
    ensures rules { IfOk result (λ out. (i : ℕ) → Contains (map (λ s. s.rule) out.items) i
        ↔ IsShadowed 129 (map (λ r. C.bits r.network) rules.now) i) }
    ensures ascending { IfOk result (λ out. IsStrictlyIncreasing (map (λ s. s.rule) out.items)) }
    ensures by { IfOk result (λ out.
        All (λ s. AreDecidingRules 129 (map (λ r. C.bits r.network) rules.now) s.rule s.by.items) out.items) }
{
    let Decisions { parts, unreached } = decide_all(alloc, rules)?;
    let parts = LpmTable::from_rows(parts);
    let mut out = Vec::new(alloc);
    for &rule in &unreached {
        let by = deciding_in(alloc, &parts, &rules[rule].network)?;
        out.push(Shadow { rule, by })?;
    }
    Ok(out)
}
