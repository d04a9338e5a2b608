//! Access lists whose allocations are refused.
use crate::growths::{are_blocks, block};
use cidr::Ipv4Cidr;
use cidr_sets::access::{Action, Rule, deciding, permitted, shadowed, shadowed_by};
use std::alloc::{AllocError, Global};

/// The rules of a list.
type Rules = [Rule<Ipv4Cidr>; 3];

/// What is asked of a list.
#[derive(Clone, Copy)]
enum Question {
    Permitted,
    Unreached,
    Deciding,
    Shadows,
}

/// A rule for the addresses of a network.
fn rule(action: Action, network: Ipv4Cidr) -> Rule<Ipv4Cidr> {
    Rule { action, network }
}

/// Whether it is told what the list permits.
fn is_permitted(alloc: Global, rules: &Rules) -> Result<bool, AllocError> {
    let set = permitted(alloc, rules)?;
    Ok(are_blocks(set.as_slice(), &[(0x0a80_0000, 9)]))
}

/// Whether it is told which rules no address reaches.
fn is_unreached(alloc: Global, rules: &Rules) -> Result<bool, AllocError> {
    Ok(shadowed(alloc, rules)?.as_slice() == [2].as_slice())
}

/// Whether it is told which rules decide the second one's network.
fn do_decide(alloc: Global, rules: &Rules) -> Result<bool, AllocError> {
    Ok(deciding(alloc, rules, &rules[1].network)?.as_slice() == [0, 1].as_slice())
}

/// Whether it is told which rules cover those that no address reaches.
fn is_shadowed(alloc: Global, rules: &Rules) -> Result<bool, AllocError> {
    let shadows = shadowed_by(alloc, rules)?;
    Ok(match shadows.as_slice() {
        [shadow] => shadow.rule == 2 && shadow.by.as_slice() == [0].as_slice(),
        _ => false,
    })
}

/// Whether the question is answered as it is to be.
fn is_told(alloc: Global, question: Question, rules: &Rules) -> Result<bool, AllocError> {
    match question {
        Question::Permitted => is_permitted(alloc, rules),
        Question::Unreached => is_unreached(alloc, rules),
        Question::Deciding => do_decide(alloc, rules),
        Question::Shadows => is_shadowed(alloc, rules),
    }
}

/// Whether it is told of a list what it permits, which rules no address reaches, and which decide.
pub fn access_lists(alloc: Global) -> Result<bool, AllocError> {
    let rules = [
        rule(Action::Deny, block(0x0a00_0000, 9)),
        rule(Action::Permit, block(0x0a00_0000, 8)),
        rule(Action::Permit, block(0x0a40_0000, 10)),
    ];
    let mut held = true;
    for question in [
        Question::Permitted,
        Question::Unreached,
        Question::Deciding,
        Question::Shadows,
    ] {
        held &= match is_told(alloc, question, &rules) {
            Ok(told) => told,
            Err(_) => is_told(alloc, question, &rules)?,
        };
    }
    Ok(held)
}
