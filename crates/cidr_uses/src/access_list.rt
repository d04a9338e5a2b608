//! An access list: which addresses may connect.
ghost use Rattle.std.specs.Prelude.{◌≡◌, ◌↔◌, Bool, List, ℕ, IfOk, IsTrue, MatchOption, length, map};
ghost use Rattle.std.specs.Bool.{Decides};
ghost use Rattle.std.specs.List.{All, Any};
ghost use Rattle.cidr_table.specs.model.Cover.{AreNetworks};
ghost use Rattle.cidr_sets.specs.model.FirstRules.{IsPermitted, IsShadowed};
ghost use Rattle.cidr_uses.specs.AccessList.{Matches, IsFirstMatch, AreDeciders};

use cidr::{AnyIpCidr, IpAddr, Ipv4Addr, Ipv4Cidr, NetworkBits};
use cidr_sets::access::{Rule, deciding, permits, permitted, shadowed};
use cidr_sets::laws::{
    equal_sets_are_the_same, equal_sets_permit_the_same, permitted_sets_decide_addresses,
    shadowed_rules_are_decided_earlier,
};
use std::alloc::{AllocError, Global};

/// Whether some entry of the list matches the address. An empty list allows none, and the entry `any` allows every
/// address of both families.
pub fn allows(entries: &[AnyIpCidr], address: &IpAddr) -> bool
    ensures { IsTrue result ↔ Any (Matches address.now) entries.now }
{
    entries.iter().any(|entry| entry.contains(address))
}

/// The index of the first entry that matches the address, or `None` where no entry does.
pub fn first_match(entries: &[AnyIpCidr], address: &IpAddr) -> Option<usize>
    ensures { MatchOption result (All (λ entry. ¬ (Matches address.now entry)) entries.now)
        (IsFirstMatch entries.now address.now) }
{
    entries.iter().position(|entry| entry.contains(address))
}

/// Whether two lists of rules permit the same addresses: the sets that they permit are compared.
pub fn permit_the_same<C: NetworkBits + Copy>(
    alloc: Global,
    rules: &[Rule<C>],
    others: &[Rule<C>],
) -> Result<bool, AllocError>
    ensures { IfOk result (λ same. IsTrue same ↔ ((a : List Bool) → length a ≡ 129
        → IsPermitted (map (λ r. C.bits r.network) rules.now) (map (λ r. r.action) rules.now) a
        ↔ IsPermitted (map (λ r. C.bits r.network) others.now) (map (λ r. r.action) others.now) a)) }
{
    // the calls tell the proof which lists permit the same, and which sets are equal
    equal_sets_permit_the_same();
    equal_sets_are_the_same::<C>();
    let set = permitted(alloc, rules)?;
    let other = permitted(alloc, others)?;
    Ok(set == other)
}

/// The first rule that no address reaches, with the earlier rules that decide its addresses; `None` where each rule is
/// reached.
pub fn first_shadowed<C: NetworkBits + Copy>(
    alloc: Global,
    rules: &[Rule<C>],
) -> Result<Option<(usize, Vec<usize>)>, AllocError>
    ensures { IfOk result (λ found. MatchOption found
        ((i : ℕ) → ¬ (IsShadowed 129 (map (λ r. C.bits r.network) rules.now) i))
        (λ f. IsShadowed 129 (map (λ r. C.bits r.network) rules.now) f.0
        × AreDeciders 129 (map (λ r. C.bits r.network) rules.now) f.0 f.1.items)) }
{
    // the call tells the proof that these rules are earlier ones, and enough
    shadowed_rules_are_decided_earlier();
    let unreached = shadowed(alloc, rules)?;
    match unreached.first() {
        Some(index) => {
            let earlier = deciding(alloc, rules, &rules[*index].network)?;
            Ok(Some((*index, earlier)))
        }
        None => Ok(None),
    }
}

/// Whether the rules permit an IPv4 address, asked of the set of all that they permit: exactly if the first rule whose
/// network contains the address permits it.
pub fn may_connect(
    alloc: Global,
    rules: &[Rule<Ipv4Cidr>],
    address: Ipv4Addr,
) -> Result<bool, AllocError>
    ensures { IfOk result (λ may.
        Decides may (IsPermitted (map (λ r. r.network) rules.now) (map (λ r. r.action) rules.now) address)) }
{
    // the calls tell the proof what the set says of one address, and how long the networks are
    permitted_sets_decide_addresses();
    have_32_bits(rules);
    let set = permitted(alloc, rules)?;
    Ok(set.contains(&Ipv4Cidr::new_host(address)))
}

/// Whether the set of all that the rules permit and the rules themselves say the same of an IPv4 address, which they
/// do.
pub fn set_and_rules_agree(
    alloc: Global,
    rules: &[Rule<Ipv4Cidr>],
    address: Ipv4Addr,
) -> Result<bool, AllocError>
    ensures { IfOk result (λ same. IsTrue same) }
{
    let may = may_connect(alloc, rules, address)?;
    Ok(may == permits(rules, &Ipv4Cidr::new_host(address)))
}

/// The networks of the rules have at most 32 bits each, which a proof gets from the call.
fn have_32_bits(rules: &[Rule<Ipv4Cidr>])
    ensures { AreNetworks 32 (map (λ r. r.network) rules.now) }
{
    for rule in rules {
        rule.network.network_length();
    }
}
