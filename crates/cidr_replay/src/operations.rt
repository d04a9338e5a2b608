//! From a line to its answer.

use crate::answer::Answer;
use crate::tokens::Tokens;
use crate::{
    addresses, bits, bytes, conversions, errors, further, hosts, networks, pairs, parsers, sets,
    sizes, tables,
};
use std::alloc::Global;
use std::str;

/// Appends the answer to the line, or returns `None` where the line is none of the operations.
pub fn respond(alloc: Global, line: &[u8], answer: &mut Answer) -> Option<()> {
    let line = str::from_utf8(line).ok()?;
    let mut tokens = Tokens {
        alloc,
        rest: Some(line.strip_suffix('\n').unwrap_or(line)),
    };
    let word = tokens.word()?;
    let (section, name) = word.split_once('.').unwrap_or((word, ""));
    let kind = tokens.word()?;
    answer_operation(section, name, kind, &mut tokens, answer)?;
    if tokens.rest.is_none() {
        Some(())
    } else {
        None
    }
}

/// Answers the operation of this section that has this name, on the type that the line names.
fn answer_operation(
    section: &str,
    name: &str,
    kind: &str,
    tokens: &mut Tokens<'_>,
    answer: &mut Answer,
) -> Option<()> {
    match section {
        "addr" => addresses::answer(name, kind, tokens, answer),
        "family" => addresses::families(name, kind, tokens, answer),
        "cidr" => networks::answer(name, kind, tokens, answer),
        "inet" => hosts::answer(name, kind, tokens, answer),
        "pair" => pairs::answer(name, kind, tokens, answer),
        "walk" => pairs::walk(name, kind, tokens, answer),
        "bits" => bits::of_network(name, kind, tokens, answer),
        "hostbits" => bits::of_host(name, kind, tokens, answer),
        "fault" => errors::answer(name, kind, tokens, answer),
        "convert" => conversions::answer(kind, tokens, answer),
        "parse" => parsers::answer(name, kind, tokens, answer),
        "calls" => parsers::calls(name, tokens, answer),
        "size" => sizes::answer(kind, answer),
        "set" => sets::answer(name, kind, tokens, answer),
        _ => answer_others(section, name, kind, tokens, answer),
    }
}

fn answer_others(
    section: &str,
    name: &str,
    kind: &str,
    tokens: &mut Tokens<'_>,
    answer: &mut Answer,
) -> Option<()> {
    match section {
        "compact" => bytes::compact(name, kind, tokens, answer),
        "hostcompact" => bytes::host_compact(name, kind, tokens, answer),
        "prefix" => bytes::prefix(name, kind, tokens, answer),
        "agree" => bytes::agreement(name, kind, tokens, answer),
        "table" => tables::answer(kind, tokens, answer),
        "load" => tables::load(kind, tokens, answer),
        "cover" => tables::cover(kind, tokens, answer),
        _ => further::answer(section, name, kind, tokens, answer),
    }
}
