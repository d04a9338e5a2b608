//! Operations on a longest-prefix table, which a line builds step by step.

use crate::answer::Answer;
use crate::errors;
use crate::tokens::Tokens;
use cidr::{AnyIpCidr, Ipv6Cidr};
use cidr_table::{LoadError, LpmTable, longest_match};

/// A table whose keys may be all addresses.
type Table = LpmTable<AnyIpCidr, usize>;

/// Answers the steps on an empty table, and then all its rows.
pub fn answer(kind: &str, tokens: &mut Tokens<'_>, answer: &mut Answer) -> Option<()> {
    if kind != "any" {
        return None;
    }
    let mut table = Table::new(tokens.alloc);
    for _ in 0..usize::MAX {
        let Some(step) = tokens.word() else {
            break;
        };
        match step {
            "insert" => {
                let before = table.insert(tokens.value()?, tokens.value()?).ok()?;
                answer.option(&before);
            }
            "remove" => answer.option(&table.remove(&tokens.value()?)),
            _ => asked(step, &table, tokens, answer)?,
        }
    }
    answer.show(&"rows");
    for row in table.iter() {
        shown(row, answer);
    }
    Some(())
}

/// The steps that change nothing.
fn asked(step: &str, table: &Table, tokens: &mut Tokens<'_>, answer: &mut Answer) -> Option<()> {
    match step {
        "row" => row(table.row(tokens.value()?), answer),
        "inside" => rows(table.inside(&tokens.value()?), answer),
        "get" => answer.option(&table.get(&tokens.value()?)),
        "match" => matched(table, &tokens.value()?, answer),
        _ => return None,
    }
    Some(())
}

/// Appends a row as a token.
fn shown(row: &(AnyIpCidr, usize), answer: &mut Answer) {
    answer.show(&row.0.with_length());
    answer.more(&format_args!("={}", row.1));
}

/// Appends a row, or `none`.
fn row(row: Option<&(AnyIpCidr, usize)>, answer: &mut Answer) {
    match row {
        Some(row) => shown(row, answer),
        None => answer.show(&"none"),
    }
}

/// Appends the rows between brackets, with commas between them.
fn rows(rows: &[(AnyIpCidr, usize)], answer: &mut Answer) {
    answer.show(&'[');
    let mut between = "";
    for (key, value) in rows {
        answer.more(&format_args!("{between}{}={value}", key.with_length()));
        between = ",";
    }
    answer.more(&']');
}

/// Appends the row of the longest match behind its index, or `none`.
fn matched(table: &Table, asked: &AnyIpCidr, answer: &mut Answer) {
    let Some(index) = longest_match(&mut table.probe(), asked) else {
        return answer.show(&"none");
    };
    if let Some((key, value)) = table.row(index) {
        answer.show(&format_args!("{index}@{}={value}", key.with_length()));
    }
}

/// Answers the rows of the table that prefix bytes are loaded as, or the error.
pub fn load(kind: &str, tokens: &mut Tokens<'_>, answer: &mut Answer) -> Option<()> {
    if kind != "v6" {
        return None;
    }
    match LpmTable::<Ipv6Cidr, usize>::load(tokens.alloc, tokens.bytes()?.as_slice()) {
        Ok(table) => {
            answer.show(&"ok rows");
            for (key, value) in table.iter() {
                answer.show(&format_args!("{}={value}", key.with_length()));
            }
            Some(())
        }
        Err(LoadError::Prefix(index, error)) => {
            answer.show(&format_args!("err Prefix {index}"));
            errors::of_prefix(&error, answer);
            Some(())
        }
        Err(LoadError::NoMemory) => None,
    }
}

/// Answers the least cover of the networks that are left of the line, or `none` where there is none.
pub fn cover(kind: &str, tokens: &mut Tokens<'_>, answer: &mut Answer) -> Option<()> {
    if kind != "any" {
        return None;
    }
    let mut table = Table::new(tokens.alloc);
    for index in 0..usize::MAX {
        let Some(word) = tokens.word() else {
            break;
        };
        table.set(word.parse().ok()?, index).ok()?;
    }
    let mut networks = vec![in tokens.alloc; AnyIpCidr::Any; table.len()].ok()?;
    let count = table.least_cover(networks.as_mut_slice());
    if count == 0 {
        answer.show(&"none");
    }
    networks.truncate(count);
    for network in networks.as_slice() {
        answer.show(&network.with_length());
    }
    Some(())
}
