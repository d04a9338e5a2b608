//! Access lists: rules that permit or deny the addresses of networks, the first of which decides.
ghost use Rattle.std.specs.Prelude.{◌≡◌, ◌++◌, [], ℕ, List, map, codes, slice_index, IfOk, MatchOption, MatchResult, OnOk};
ghost use Rattle.std.specs.List.{flat_map};
ghost use Rattle.cidr.specs.declared.family.Family.{Family};
ghost use Rattle.cidr.specs.declared.family.Family.TheVariants.{Ipv4, Ipv6};
ghost use Rattle.cidr_io.specs.Shown.{shown};
ghost use Rattle.cidr_sets.specs.model.FirstRules.{IsPermitted};
ghost use Rattle.cidr_sets.specs.model.Sets.{IsSetOf};
ghost use Rattle.cidr_lists.specs.Lists.{kept_of, text_by};
ghost use Rattle.cidr_lists.specs.Rules.{AddsRuleLine, ArePermitting, AreShadowLines, AreShadows, HaveRules, IsActionText, IsRulesError, ReadsRule, RulesGrow, action_text, plain_rule, rule_place, rules_of, shadow_line};
ghost use Rattle.cidr_lists.specs.Sets.{networks_of};
ghost use Rattle.cidr_lists.specs.Tables.{row_in};

use crate::columns::{network_in, split_line};
use crate::errors::{LineError, ListError};
use crate::lines::HostBits;
use crate::sets::Sets;
use crate::texts::line_len;
use cidr::{IpCidr, Ipv4Cidr, Ipv6Cidr, NetworkBits};
use cidr_io::decimal::decimal_text;
use cidr_io::lines::is_too_long;
use cidr_io::shown::{byte_excerpt, shown_char};
use cidr_sets::NetworkSet;
use cidr_sets::access::{Action, Rule, Shadow, permitted, shadowed_by};
use std::alloc::{AllocError, Global};

/// What is done with the addresses of a network, and where it is said.
#[derive(Clone, Copy, Debug, Drop)]
pub struct Ruling {
    /// Whether the addresses are permitted or denied.
    pub action: Action,
    /// The number of the line, from 1 on.
    pub number: u64,
}

/// The rules of an access list, those of each family in their order.
#[derive(Drop)]
pub struct Rules {
    /// Those of IPv4.
    pub v4: Vec<(Ipv4Cidr, Ruling)>,
    /// Those of IPv6.
    pub v6: Vec<(Ipv6Cidr, Ruling)>,
}

/// The action that a word is.
pub(crate) fn action_of(word: &[u8]) -> Option<Action>
    ensures { MatchOption result (¬ (IsActionText word.now)) (λ action. word.now ≡ action_text action) }
{
    if word == b"permit".as_slice() {
        return Some(Action::Permit);
    }
    if word == b"deny".as_slice() {
        return Some(Action::Deny);
    }
    None
}

/// The rule that a line says: `permit` or `deny` and, behind white space, a network or an address, with white space around
/// it and a comment behind it from `#` or `;` on; `None` for a line that is blank or a comment alone. A range is in error
/// here.
///
/// The first error is, in this order: `NoAction` of another word; `NoField` where nothing stands behind it; `NotUtf8` of
/// what does, and `NoNetwork`. A line of more than 1 MiB is for the caller to find.
pub fn rule_of(host_bits: HostBits, line: &[u8]) -> Result<Option<(IpCidr, Action)>, LineError>
    ensures { ReadsRule host_bits line.now result }
{
    let Some((word, rest)) = split_line(line) else {
        return Ok(None);
    };
    let Some(action) = action_of(word) else {
        return Err(LineError::NoAction(byte_excerpt(word)));
    };
    if rest.is_empty() {
        return Err(LineError::NoField);
    }
    match network_in(host_bits, rest) {
        Ok(network) => Ok(Some((network, action))),
        Err(e) => Err(e),
    }
}

/// Adds the rule that a line says, if it says one.
fn add_rule_line(
    host_bits: HostBits,
    number: u64,
    line: &[u8],
    rules: &mut Rules,
) -> Result<(), ListError>
    ensures { AddsRuleLine host_bits (kept_of line.now) number rules.old rules.new result }
{
    if is_too_long(line) {
        return Err(ListError::Line(number, LineError::TooLong));
    }
    match rule_of(host_bits, line) {
        Ok(None) => Ok(()),
        Ok(Some((network, action))) => {
            rules.push(&network, Ruling { action, number })?;
            Ok(())
        }
        Err(e) => Err(ListError::Line(number, e)),
    }
}

/// The rules as those of `cidr_sets`.
fn plain_rules<C: NetworkBits + Copy>(
    alloc: Global,
    rules: &[(C, Ruling)],
) -> Result<Vec<Rule<C>>, AllocError>
    ensures { IfOk result (λ out. out.items ≡ map plain_rule rules.now) }
{
    let mut out = Vec::new(alloc);
    for rule in rules {
        out.push(Rule {
            action: rule.1.action,
            network: rule.0,
        })?;
    }
    Ok(out)
}

/// The addresses that the rules of a family permit.
fn permitted_by<C: NetworkBits + Copy>(
    alloc: Global,
    rules: &[(C, Ruling)],
) -> Result<NetworkSet<C>, AllocError>
    ensures { IfOk result (λ set. IsSetOf 129 (IsPermitted (map (λ rule. C.bits rule.0) rules.now)
        (map (λ rule. rule.1.action) rules.now)) (map C.bits set)) }
{
    let plain = plain_rules(alloc, rules)?;
    permitted(alloc, plain.as_slice())
}

/// The number of the line of a rule.
fn number_at<C>(rules: &[(C, Ruling)], index: usize) -> u64
    ensures { result ≡ slice_index (map (λ rule. rule.1.number) rules.now) index }
{
    match rules.get(index) {
        Some(rule) => rule.1.number,
        None => 0,
    }
}

/// Appends a string as it is shown in a message.
fn push_shown(text: &mut Vec<u8>, string: &str) -> Result<(), AllocError>
    ensures { OnOk result (text.new.items ≡ text.old.items ++ shown string.now) }
{
    for c in string.chars() {
        text.extend_from_slice(shown_char(c).as_str().as_bytes())?;
    }
    Ok(())
}

/// Appends `FILE:LINE` of a rule.
fn push_place<C>(
    text: &mut Vec<u8>,
    file: &[u8],
    rules: &[(C, Ruling)],
    index: usize,
) -> Result<(), AllocError>
    ensures { OnOk result (text.new.items ≡ text.old.items ++ rule_place file.now (map (λ rule. rule.1.number) rules.now) index) }
{
    text.extend_from_slice(file)?;
    text.push(b':')?;
    let number = decimal_text(u128::from(number_at(rules, index)));
    text.extend_from_slice(number.as_str().as_bytes())?;
    Ok(())
}

/// Appends the places of rules, each behind a space.
fn push_places<C>(
    text: &mut Vec<u8>,
    file: &[u8],
    rules: &[(C, Ruling)],
    indices: &[usize],
) -> Result<(), AllocError>
    ensures { OnOk result (text.new.items ≡ text.old.items
        ++ flat_map (λ j. codes " " ++ rule_place file.now (map (λ rule. rule.1.number) rules.now) j) indices.now) }
{
    for index in indices {
        text.push(b' ')?;
        push_place(text, file, rules, *index)?;
    }
    Ok(())
}

/// Appends what is told of a rule that no address reaches, as a line.
fn push_shadow<C>(
    text: &mut Vec<u8>,
    file: &[u8],
    rules: &[(C, Ruling)],
    shadow: &Shadow,
) -> Result<(), AllocError>
    ensures { OnOk result (text.new.items ≡ text.old.items
        ++ shadow_line file.now (map (λ rule. rule.1.number) rules.now) (shadow.now.rule, shadow.now.by.items)) }
{
    push_place(text, file, rules, shadow.rule)?;
    text.extend_from_slice(b": shadowed by")?;
    push_places(text, file, rules, shadow.by.as_slice())?;
    text.push(b'\n')?;
    Ok(())
}

/// Appends what is told of rules that no address reaches, one a line.
fn push_each<C>(
    text: &mut Vec<u8>,
    file: &[u8],
    rules: &[(C, Ruling)],
    shadows: &[Shadow],
) -> Result<(), AllocError>
    ensures { OnOk result (text.new.items ≡ text.old.items
        ++ flat_map (λ s. shadow_line file.now (map (λ rule. rule.1.number) rules.now) (s.rule, s.by.items)) shadows.now) }
{
    for shadow in shadows {
        push_shadow(text, file, rules, shadow)?;
    }
    Ok(())
}

/// Appends what is told of each rule of a family that no address reaches, one a line.
fn push_shadows<C: NetworkBits + Copy>(
    alloc: Global,
    text: &mut Vec<u8>,
    file: &[u8],
    rules: &[(C, Ruling)],
) -> Result<(), AllocError>
    ensures { OnOk result ((shadows : List (ℕ × List ℕ)) × AreShadows (map (λ rule. C.bits rule.0) rules.now) shadows
        × (text.new.items ≡ text.old.items ++ flat_map (shadow_line file.now (map (λ rule. rule.1.number) rules.now)) shadows)) }
{
    let plain = plain_rules(alloc, rules)?;
    let shadows = shadowed_by(alloc, plain.as_slice())?;
    push_each(text, file, rules, shadows.as_slice())?;
    Ok(())
}

impl Rules {
    /// No rules. It allocates nothing.
    pub fn new(alloc: Global) -> Rules
        ensures { (family : Family) → rules_of result family ≡ [] }
    {
        Rules {
            v4: Vec::new(alloc),
            v6: Vec::new(alloc),
        }
    }

    /// Adds a rule behind those of its family. After an error, which is that there is no memory, what was added isn't told.
    pub fn push(&mut self, network: &IpCidr, ruling: Ruling) -> Result<(), AllocError>
        ensures { OnOk result (RulesGrow self.old self.new (λ family. row_in family (network.now, ruling))) }
    {
        match network {
            IpCidr::V4(network) => self.v4.push((*network, ruling))?,
            IpCidr::V6(network) => self.v6.push((*network, ruling))?,
        }
        Ok(())
    }

    /// The rules that an access list says, by [`rule_of`] of each line. The error is that of the first line in error, with
    /// its number from 1 on, where one of more than 1 MiB is `TooLong`; `NoMemory` may come before it. It takes time in the
    /// length of the text.
    pub fn of_text(alloc: Global, host_bits: HostBits, text: &[u8]) -> Result<Rules, ListError>
        ensures { MatchResult result (HaveRules (text_by host_bits text.now)) (IsRulesError (text_by host_bits text.now)) }
    {
        let mut rules = Rules::new(alloc);
        let mut rest = text;
        let mut number = 1;
        loop {
            let (line, behind) = rest.split_at(line_len(rest));
            add_rule_line(host_bits, number, line, &mut rules)?;
            let Some((_, next)) = behind.split_first() else {
                return Ok(rules);
            };
            rest = next;
            number += 1;
        }
    }

    /// The addresses of each family that the rules permit: the first rule whose network has an address decides, and an
    /// address that is in none is denied. It takes the time and memory of `cidr_sets::access::permitted`. The error is that
    /// there is no memory.
    pub fn permitted(&self, alloc: Global) -> Result<Sets, AllocError>
        ensures { IfOk result (λ sets. (family : Family) → IsSetOf 129 (ArePermitting (rules_of self.now family)) (networks_of sets family)) }
    {
        Ok(Sets {
            v4: permitted_by(alloc, self.v4.as_slice())?,
            v6: permitted_by(alloc, self.v6.as_slice())?,
        })
    }

    /// A line for each rule that no address reaches, as `FILE:4: shadowed by FILE:1 FILE:3`, with the earlier rules that
    /// decide the addresses of its network: those of IPv4 before those of IPv6. It takes the time and memory of
    /// `cidr_sets::access::shadowed_by`. The error is that there is no memory.
    pub fn to_shadow_lines(&self, alloc: Global, file: &str) -> Result<Vec<u8>, AllocError>
        ensures { IfOk result (λ text. (lines : Family → List ℕ)
            × ((family : Family) → AreShadowLines file.now (rules_of self.now family) (lines family))
            × (text.items ≡ lines Ipv4 ++ lines Ipv6)) }
    {
        let mut name = Vec::new(alloc);
        push_shown(&mut name, file)?;
        let mut text = Vec::new(alloc);
        push_shadows(alloc, &mut text, name.as_slice(), self.v4.as_slice())?;
        push_shadows(alloc, &mut text, name.as_slice(), self.v6.as_slice())?;
        Ok(text)
    }
}
