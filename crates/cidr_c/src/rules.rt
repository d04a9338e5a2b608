//! Access lists.
ghost use Rattle.std.specs.Prelude.{◌≡◌, ◌⊎◌, map, MatchResult};
ghost use Rattle.std.specs.Bool.{Decides};
ghost use Rattle.cidr.specs.model.Network.{BeginsWith};
ghost use Rattle.cidr.specs.either.IpNetwork.{any_bits};
ghost use Rattle.cidr_sets.specs.model.FirstRules.{IsPermitted};
ghost use Rattle.cidr_sets.specs.model.Sets.{IsSetOf};
ghost use Rattle.cidr_sets.specs.declared.access.Action.TheVariants.{Permit};
ghost use Rattle.cidr_c.specs.calls.Batches.{IsPutInRoom};
ghost use Rattle.cidr_c.specs.calls.Calls.{IsYesOrNo};
ghost use Rattle.cidr_c.specs.model.Codes.{no_memory, no_value};
ghost use Rattle.cidr_c.specs.model.Rules.{AreDecidingPut, AreRules, AreShadowedPut, action_in, rule_actions, rule_bits, rule_in};
ghost use Rattle.cidr_c.specs.model.Values.{IsNetworkValue, network_in};

use crate::codes::{NO_MEMORY, NO_VALUE};
use crate::finding::{put_list, yes_or_no};
use crate::sets::deliver;
use crate::values::{CValue, value_network};
use cidr::AnyIpCidr;
use cidr_sets::access::{Action, Rule, deciding, permitted, shadowed};
use std::alloc::Global;

/// A rule of an access list.
#[repr(C)]
#[derive(Clone, Copy)]
pub struct CRule {
    /// The network.
    pub network: CValue,
    /// 1 permits its addresses, and any other number denies them.
    pub action: u32,
}

/// The rules, or the number of the error.
fn rules_of(alloc: Global, rules: &[CRule]) -> Result<Vec<Rule<AnyIpCidr>>, u32>
    ensures { MatchResult result
        (λ out. AreRules rules.now × (out.items ≡ map rule_in rules.now))
        (λ code. ((code ≡ no_value) × ¬ (AreRules rules.now)) ⊎ (code ≡ no_memory)) }
{
    let Ok(mut out) = Vec::with_capacity(alloc, rules.len()) else {
        return Err(NO_MEMORY);
    };
    for rule in rules {
        let Some(network) = value_network(&rule.network) else {
            return Err(NO_VALUE);
        };
        let action = action_of(rule);
        let Ok(()) = out.push(Rule { action, network }) else {
            return Err(NO_MEMORY);
        };
    }
    Ok(out)
}

/// What a rule does.
fn action_of(rule: &CRule) -> Action
    ensures { result ≡ action_in rule.now }
{
    if rule.action == 1 {
        Action::Permit
    } else {
        Action::Deny
    }
}

/// 1 where all values are networks and the access list permits the address, and 0 where not. A larger network is taken as a
/// whole: a rule for a part of it doesn't count. It goes through the rules twice at most, and allocates nothing.
#[unsafe(no_mangle)]
pub extern "C" fn pcidr_permits(rules: &[CRule], address: &CValue) -> u32
    ensures { IsYesOrNo result (AreRules rules.now × IsNetworkValue address.now
        × IsPermitted (rule_bits rules.now) (rule_actions rules.now) (any_bits (network_in address.now))) }
{
    let Some(address) = value_network(address) else {
        return 0;
    };
    if are_rules(rules) {
        yes_or_no(is_permitted(rules, &address))
    } else {
        0
    }
}

/// Whether each rule is for a network.
fn are_rules(rules: &[CRule]) -> bool
    ensures { Decides result (AreRules rules.now) }
{
    rules
        .iter()
        .all(|rule| value_network(&rule.network).is_some())
}

/// Whether the first rule whose network contains the address permits it.
fn is_permitted(rules: &[CRule], address: &AnyIpCidr) -> bool
    requires { AreRules rules.now }
    ensures { Decides result (IsPermitted (rule_bits rules.now) (rule_actions rules.now) (any_bits address.now)) }
{
    for rule in rules {
        if is_for(rule, address) {
            return does_permit(rule);
        }
    }
    false
}

/// Whether the network of a rule contains the address.
fn is_for(rule: &CRule, address: &AnyIpCidr) -> bool
    requires { IsNetworkValue rule.now.network }
    ensures { Decides result (BeginsWith (any_bits address.now) (any_bits (network_in rule.now.network))) }
{
    match value_network(&rule.network) {
        Some(network) => network.contains_cidr(address),
        None => false,
    }
}

/// Whether a rule permits the addresses that it decides.
fn does_permit(rule: &CRule) -> bool
    ensures { Decides result (action_in rule.now ≡ Permit) }
{
    match action_of(rule) {
        Action::Permit => true,
        Action::Deny => false,
    }
}

/// The addresses that an access list permits, as a set in a room, of which `count` becomes the number of networks; where
/// there is too little room, it becomes how many are needed.
#[unsafe(no_mangle)]
pub extern "C" fn pcidr_permitted(
    alloc: Global,
    rules: &[CRule],
    out: &mut [CValue],
    count: &mut usize,
) -> u32
    ensures { IsPutInRoom (AreRules rules.now)
        (IsSetOf 129 (IsPermitted (rule_bits rules.now) (rule_actions rules.now)))
        out.old out.new count.old count.new result }
{
    match rules_of(alloc, rules) {
        Ok(rules) => deliver(permitted(alloc, rules.as_slice()), out, count),
        Err(code) => code,
    }
}

/// The indexes of the rules that no address reaches, since earlier rules decide all addresses of their networks: the first
/// `count` of `out`, ascending; where there is too little room, `count` becomes how many they are.
#[unsafe(no_mangle)]
pub extern "C" fn pcidr_shadowed(
    alloc: Global,
    rules: &[CRule],
    out: &mut [usize],
    count: &mut usize,
) -> u32
    ensures { AreShadowedPut rules.now out.old out.new count.old count.new result }
{
    let rules = match rules_of(alloc, rules) {
        Ok(rules) => rules,
        Err(code) => return code,
    };
    match shadowed(alloc, rules.as_slice()) {
        Ok(indexes) => put_list(indexes.as_slice(), out, count),
        Err(_) => NO_MEMORY,
    }
}

/// The indexes of the rules that decide the addresses of a network, each the first rule for some of them: the first `count`
/// of `out`, ascending; where there is too little room, `count` becomes how many they are.
#[unsafe(no_mangle)]
pub extern "C" fn pcidr_deciding(
    alloc: Global,
    rules: &[CRule],
    network: &CValue,
    out: &mut [usize],
    count: &mut usize,
) -> u32
    ensures { AreDecidingPut rules.now network.now out.old out.new count.old count.new result }
{
    let rules = match rules_of(alloc, rules) {
        Ok(rules) => rules,
        Err(code) => return code,
    };
    let Some(network) = value_network(network) else {
        return NO_VALUE;
    };
    match deciding(alloc, rules.as_slice(), &network) {
        Ok(indexes) => put_list(indexes.as_slice(), out, count),
        Err(_) => NO_MEMORY,
    }
}
