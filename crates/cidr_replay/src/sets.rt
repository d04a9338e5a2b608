//! Operations on sets of addresses.

use crate::answer::Answer;
use crate::tokens::Tokens;
use cidr::{AnyIpCidr, Ipv6Cidr};
use cidr_sets::NetworkSet;
use cidr_sets::access::{Action, Rule, deciding, permitted, shadowed};

/// A set of addresses of both families.
type Set = NetworkSet<AnyIpCidr>;

/// Answers the operation on sets that has this name.
pub fn answer(name: &str, kind: &str, tokens: &mut Tokens<'_>, answer: &mut Answer) -> Option<()> {
    match kind {
        "v6" => by_index(name, tokens, answer),
        "any" => match name {
            "run" | "permitted" | "shadowed" | "deciding" => by_rules(name, tokens, answer),
            "from_range" => {
                let (first, last) = (tokens.value()?, tokens.value()?);
                answer.debug(&Set::from_range(tokens.alloc, first, last).ok()?.as_slice());
                Some(())
            }
            _ => one_set(name, &set(tokens)?, tokens, answer),
        },
        _ => None,
    }
}

/// The set of the networks of the next token, which stand with commas between them; `-` for none.
fn set(tokens: &mut Tokens<'_>) -> Option<Set> {
    let mut networks = Vec::new(tokens.alloc);
    for part in tokens.word()?.split(',') {
        if part != "-" {
            networks.push(part.parse::<AnyIpCidr>().ok()?).ok()?;
        }
    }
    Some(Set::from_vec(networks))
}

/// The rules of the next token, with commas between them: `+` and a network that is permitted, `-` and one that is
/// denied; `-` for none.
fn rules(tokens: &mut Tokens<'_>) -> Option<Vec<Rule<AnyIpCidr>>> {
    let mut rules = Vec::new(tokens.alloc);
    for part in tokens.word()?.split(',') {
        if part != "-" {
            rules.push(rule(part)?).ok()?;
        }
    }
    Some(rules)
}

fn rule(word: &str) -> Option<Rule<AnyIpCidr>> {
    let (action, network) = match word.strip_prefix('+') {
        Some(network) => (Action::Permit, network),
        None => (Action::Deny, word.strip_prefix('-')?),
    };
    let network = network.parse().ok()?;
    Some(Rule { action, network })
}

/// The operations that begin with rules.
fn by_rules(name: &str, tokens: &mut Tokens<'_>, answer: &mut Answer) -> Option<()> {
    let rules = rules(tokens)?;
    let (alloc, rules) = (tokens.alloc, rules.as_slice());
    match name {
        "permitted" => answer.debug(&permitted(alloc, rules).ok()?.as_slice()),
        "shadowed" => answer.debug(&shadowed(alloc, rules).ok()?),
        "deciding" => answer.debug(&deciding(alloc, rules, &tokens.value()?).ok()?),
        _ => run(rules, tokens, answer)?,
    }
    Some(())
}

/// Inserts and removes networks one after the other.
fn run(rules: &[Rule<AnyIpCidr>], tokens: &mut Tokens<'_>, answer: &mut Answer) -> Option<()> {
    let mut set = Set::new(tokens.alloc);
    let mut lens = Vec::new(tokens.alloc);
    for rule in rules {
        match rule.action {
            Action::Permit => set.insert(rule.network).ok()?,
            Action::Deny => set.remove(&rule.network).ok()?,
        }
        lens.push(set.len()).ok()?;
    }
    answer.debug(&(lens, set.as_slice()));
    Some(())
}

/// The operations on one set.
fn one_set(name: &str, set: &Set, tokens: &mut Tokens<'_>, answer: &mut Answer) -> Option<()> {
    match name {
        "from_networks" => answer.debug(&set.as_slice()),
        "contains" => answer.debug(&set.contains(&tokens.value()?)),
        "overlaps" => answer.debug(&set.overlaps(&tokens.value()?)),
        "complement_in" => answer.debug(&set.complement_in(&tokens.value()?).ok()?.as_slice()),
        "first_free" => answer.debug(&set.first_free(tokens.value()?)),
        "best_free" => answer.debug(&set.best_free(tokens.value()?)),
        "ranges" => ranges(set, tokens, answer)?,
        _ => two_sets(name, set, &self::set(tokens)?, answer)?,
    }
    Some(())
}

fn ranges(set: &Set, tokens: &mut Tokens<'_>, answer: &mut Answer) -> Option<()> {
    let mut ranges = Vec::new(tokens.alloc);
    for range in set.ranges() {
        ranges.push((range.first, range.last)).ok()?;
    }
    answer.debug(&ranges);
    Some(())
}

/// The operations on two sets.
fn two_sets(name: &str, these: &Set, those: &Set, answer: &mut Answer) -> Option<()> {
    match name {
        "is_subset" => answer.debug(&these.is_subset(those)),
        "is_disjoint" => answer.debug(&these.is_disjoint(those)),
        "contains_all" => answer.debug(&these.contains_all(those.as_slice())),
        "eq" => answer.debug(&(these == those)),
        _ => {
            let set = match name {
                "union" => these.union(those),
                "intersection" => these.intersection(those),
                "difference" => these.difference(those),
                _ => these.symmetric_difference(those),
            };
            answer.debug(&set.ok()?.as_slice());
        }
    }
    Some(())
}

/// The operations on the addresses of an IPv6 network by their index.
fn by_index(name: &str, tokens: &mut Tokens<'_>, answer: &mut Answer) -> Option<()> {
    let mut networks = Vec::new(tokens.alloc);
    for part in tokens.word()?.split(',') {
        if part != "-" {
            networks.push(part.parse::<Ipv6Cidr>().ok()?).ok()?;
        }
    }
    let set = NetworkSet::from_vec(networks);
    match name {
        "address_count" => answer.debug(&set.address_count()),
        "nth" => answer.debug(&set.nth(tokens.value()?)),
        "position" => answer.debug(&set.position(tokens.value()?)),
        "addresses" => {
            let mut left = set.addresses();
            let ends = (left.next(), left.next_back());
            answer.debug(&(ends, left.next(), left.next_back()));
        }
        _ => return None,
    }
    Some(())
}
