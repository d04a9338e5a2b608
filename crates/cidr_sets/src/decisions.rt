//! Which addresses each rule of an access list decides.
ghost use Rattle.std.specs.Prelude.{◌≡◌, ◌↔◌, ◌<◌, ℕ, Bool, List, [], length, map, Contains, IfOk};
ghost use Rattle.std.specs.List.Sorted.{IsStrictlyIncreasing};
ghost use Rattle.cidr_sets.specs.model.FirstRules.{IsDeciding};
ghost use Rattle.cidr_sets.specs.internal.Deciding.{AreRows, AreUnreached, AscendFrom, IsPartStep, TellFirst};

use crate::access::Rule;
use crate::rests::half;
use cidr::NetworkBits;
use cidr_table::laws::keys::has_at_most_129_bits;
use cidr_table::{LpmTable, is_inside};
use std::alloc::{AllocError, Global};

/// What the rules of an access list decide.
#[derive(Drop)]
pub struct Decisions<C: NetworkBits + Copy> {
    /// Networks of all addresses that a rule decides, each with the index of that rule.
    pub parts: Vec<(C, usize)>,
    /// The indices of the rules that decide no address, ascending.
    pub unreached: Vec<usize>,
}

/// What the rules decide.
///
/// It sorts their networks once and goes through them: O(n log n) for n rules, and a step for each part. Of these there
/// are at most n where no network is cut out of another, and else one more for each bit of each network. Beside them it
/// takes room for n rows, and then for n marks.
pub fn decide_all<C: NetworkBits + Copy>(
    alloc: Global,
    rules: &[Rule<C>],
) -> Result<Decisions<C>, AllocError>
    ensures parts { IfOk result (λ d. TellFirst C.bits (map (λ r. C.bits r.network) rules.now) (length rules.now) d.parts.items) }
    ensures unreached { IfOk result (λ d. AreUnreached (map (λ r. C.bits r.network) rules.now) (length rules.now) d.unreached.items) }
{
    let parts = parts_of(alloc, rules)?;
    let unreached = unreached_in(alloc, parts.as_slice(), rules.len())?;
    Ok(Decisions { parts, unreached })
}

/// The networks of all addresses that a rule decides, each with the index of that rule.
fn parts_of<C: NetworkBits + Copy>(
    alloc: Global,
    rules: &[Rule<C>],
) -> Result<Vec<(C, usize)>, AllocError>
    ensures { IfOk result (λ parts. TellFirst C.bits (map (λ r. C.bits r.network) rules.now) (length rules.now) parts.items) }
{
    let rows = rule_rows(alloc, rules)?;
    let mut parts = Vec::new(alloc);
    let mut left = rows.as_slice();
    while let Some((row, behind)) = left.split_first() {
        left = push_parts(&mut parts, &row.0, row.1, behind)?;
    }
    Ok(parts)
}

/// The networks of the rules, each with its index: in their order, and equal ones in that of the rules.
fn rule_rows<C: NetworkBits + Copy>(
    alloc: Global,
    rules: &[Rule<C>],
) -> Result<Vec<(C, usize)>, AllocError>
    ensures ascend { IfOk result (λ rows. AscendFrom C.bits [] rows.items) }
    ensures rows { IfOk result (λ rows. AreRows C.bits (map (λ r. C.bits r.network) rules.now) (length rules.now) rows.items) }
{
    let mut rows = Vec::with_capacity(alloc, rules.len())?;
    for (index, rule) in rules.iter().enumerate() {
        rows.push((rule.network, index))?;
    }
    rows.sort_unstable();
    Ok(rows)
}

/// Pushes networks of all addresses of a network, each with the least index of those that contain it: of this network and
/// of the rows. Returns the rows behind the network.
///
/// Where the next row lies in the network and comes earlier in the list, the network is halved. Other rows in it play no
/// part.
fn push_parts<'a, C: NetworkBits + Copy>(
    parts: &mut Vec<(C, usize)>,
    network: &C,
    index: usize,
    rows: &'a [(C, usize)],
) -> Result<&'a [(C, usize)], AllocError>
    requires { AscendFrom C.bits (C.bits network.now) rows.now }
    ensures { IfOk result (λ rest. IsPartStep C.bits (C.bits network.now) index rows.now rest.now parts.old.items parts.new.items) }
{
    has_at_most_129_bits(network);
    let mut least = index;
    let mut left = rows;
    while let Some((row, behind)) = left.split_first() {
        if !is_inside(&row.0, network) {
            break;
        }
        if row.1 < least {
            if network.len() < row.0.len() {
                let lower = half(network, &row.0, false);
                let rest = push_parts(parts, &lower, least, left)?;
                let upper = half(network, &row.0, true);
                return push_parts(parts, &upper, least, rest);
            }
            least = row.1;
        }
        left = behind;
    }
    parts.push((*network, least))?;
    Ok(left)
}

/// The indices below `count` that no part has, ascending.
fn unreached_in<C>(
    alloc: Global,
    parts: &[(C, usize)],
    count: usize,
) -> Result<Vec<usize>, AllocError>
    requires { (part : C × ℕ) → Contains parts.now part → part.1 < count }
    ensures indices { IfOk result (λ out. (j : ℕ) → Contains out.items j
        ↔ ((j < count) × ¬ (Contains (map (λ part. part.1) parts.now) j))) }
    ensures ascending { IfOk result (λ out. IsStrictlyIncreasing out.items) }
{
    let mut reached = vec![in alloc; false; count]?;
    for part in parts {
        reached[part.1] = true;
    }
    let mut out = Vec::new(alloc);
    for (index, is_reached) in reached.iter().enumerate() {
        if !*is_reached {
            out.push(index)?;
        }
    }
    Ok(out)
}

/// The indices of the rules that decide the addresses of a network, ascending, where the rows tell the rule of each
/// address in the network of any rule.
pub fn deciding_in<C: NetworkBits + Copy>(
    alloc: Global,
    parts: &LpmTable<C, usize>,
    network: &C,
) -> Result<Vec<usize>, AllocError>
    ensures indices { IfOk result (λ by. (networks : List (List Bool)) → TellFirst C.bits networks (length networks) parts.now.rows
        → (j : ℕ) → Contains by.items j ↔ IsDeciding 129 networks (C.bits network.now) j) }
    ensures ascending { IfOk result (λ by. IsStrictlyIncreasing by.items) }
{
    has_at_most_129_bits(network);
    match parts.lookup(network) {
        Some(row) => {
            let mut by = Vec::new(alloc);
            by.push(row.1)?;
            Ok(by)
        }
        None => indices_of(alloc, parts.inside(network)),
    }
}

/// The indices of rows, ascending and each once.
fn indices_of<C>(alloc: Global, rows: &[(C, usize)]) -> Result<Vec<usize>, AllocError>
    ensures indices { IfOk result (λ out. (j : ℕ) → Contains out.items j ↔ Contains (map (λ row. row.1) rows.now) j) }
    ensures ascending { IfOk result (λ out. IsStrictlyIncreasing out.items) }
{
    let mut out = Vec::new(alloc);
    for row in rows {
        out.push(row.1)?;
    }
    out.sort_unstable();
    out.dedup();
    Ok(out)
}
