//! The rows of a prefix list that decide nothing.
ghost use Rattle.std.specs.Prelude.{◌≡◌, ◌↔◌, ◌+◌, ◌<◌, ◌≤◌, ℕ, Contains, IfOk, OnOk, Some, cond, false, length, map, replicate, slice_get, true};
ghost use Rattle.std.specs.Bool.{Decides};
ghost use Rattle.std.specs.List.Sorted.{IsStrictlyIncreasing};
ghost use Rattle.cidr.specs.model.Network.{width_of};
ghost use Rattle.cidr_sets.specs.model.FirstRules as access;
ghost use Rattle.cidr_routes.specs.Lengths.{AreMarkedBelow, DecidesNoneOf, rules_of};
ghost use Rattle.cidr_routes.specs.PrefixLists.{IsShadowed};

use crate::lists::{Row, full_length, has_length, is_changed, rules_of_length};
use cidr::FamilyCidr;
use cidr_sets::access;
use std::alloc::{AllocError, Global};

/// The indices of the rows of a prefix list that decide nothing, counted from 0 and ascending: each network that such a row
/// is about is one that an earlier row is about. What the rows do plays no part.
///
/// For each prefix length at which a row begins or ends it looks which rows no network of that length reaches, as
/// `access::shadowed` does: O(n log n) for n rows each time. Where an allocation fails, it returns the error.
///
/// ```
/// shadowed(rt.alloc(), &rows)? // [2]
/// ```
pub fn shadowed<C: FamilyCidr>(alloc: Global, rows: &[Row<C>]) -> Result<Vec<usize>, AllocError>
    ensures indices { IfOk result (λ out. (i : ℕ) → Contains out.items i ↔ IsShadowed C.bits (width_of C.FAMILY) rows.now i) }
    ensures ascending { IfOk result (λ out. IsStrictlyIncreasing out.items) }
{
    let mut marks = vec![in alloc; false; rows.len()]?;
    undecided(alloc, rows, &mut marks)
}

/// The indices of the rows that decide nothing, ascending, by marks of which none is set.
fn undecided<C: FamilyCidr>(
    alloc: Global,
    rows: &[Row<C>],
    marks: &mut [bool],
) -> Result<Vec<usize>, AllocError>
    requires { marks.old ≡ replicate (length rows.now) false }
    ensures indices { IfOk result (λ out. (i : ℕ) → Contains out.items i ↔ IsShadowed C.bits (width_of C.FAMILY) rows.now i) }
    ensures ascending { IfOk result (λ out. IsStrictlyIncreasing out.items) }
{
    mark_all(alloc, rows, marks)?;
    unmarked(alloc, marks)
}

/// Marks the rows that decide some network, where none is marked.
fn mark_all<C: FamilyCidr>(
    alloc: Global,
    rows: &[Row<C>],
    marks: &mut [bool],
) -> Result<(), AllocError>
    requires { marks.old ≡ replicate (length rows.now) false }
    ensures { OnOk result ((i : ℕ) → (slice_get marks.new i ≡ Some false) ↔ IsShadowed C.bits (width_of C.FAMILY) rows.now i) }
{
    let full = full_length::<C>();
    for len in 0..full + 1 {
        mark_length(alloc, rows, len, marks)?;
    }
    Ok(())
}

/// The same of one length, where the shorter ones are done.
fn mark_length<C: FamilyCidr>(
    alloc: Global,
    rows: &[Row<C>],
    len: u8,
    marks: &mut [bool],
) -> Result<(), AllocError>
    requires known { len ≤ width_of C.FAMILY }
    requires size { length marks.old ≡ length rows.now }
    requires done { AreMarkedBelow C.bits len rows.now marks.old }
    ensures size { length marks.new ≡ length marks.old }
    ensures marks { OnOk result (AreMarkedBelow C.bits (len + 1) rows.now marks.new) }
{
    if !is_changed(rows, len) {
        return Ok(());
    }
    mark_deciding(alloc, rows, len, marks)
}

/// Marks the rows that decide a network of one length.
fn mark_deciding<C: FamilyCidr>(
    alloc: Global,
    rows: &[Row<C>],
    len: u8,
    marks: &mut [bool],
) -> Result<(), AllocError>
    requires known { len ≤ 129 }
    requires size { length marks.old ≡ length rows.now }
    ensures size { length marks.new ≡ length marks.old }
    ensures marks { OnOk result ((i : ℕ) → (slice_get marks.new i ≡ Some false)
        ↔ ((slice_get marks.old i ≡ Some false) × DecidesNoneOf C.bits len rows.now i)) }
{
    let passed = passed_rules(alloc, rows, len)?;
    let mut rule = 0;
    for (i, row) in rows.iter().enumerate() {
        let has = has_length(row, len);
        marks[i] = mark_of(mark_at(marks, i), has, passed.as_slice(), rule);
        rule += count_of(has);
    }
    Ok(())
}

/// The indices of the rules of the rows about networks of one length that no address reaches, ascending.
fn passed_rules<C: FamilyCidr>(
    alloc: Global,
    rows: &[Row<C>],
    len: u8,
) -> Result<Vec<usize>, AllocError>
    ensures indices { IfOk result (λ passed. (j : ℕ) → Contains passed.items j
        ↔ access.IsShadowed 129 (map (λ r. C.bits r.network) (rules_of C.bits len rows.now)) j) }
    ensures ascending { IfOk result (λ passed. IsStrictlyIncreasing passed.items) }
{
    let rules = rules_of_length(alloc, rows, len)?;
    let passed = access::shadowed(alloc, rules.as_slice())?;
    Ok(passed)
}

/// The mark at an index.
fn mark_at(marks: &[bool], i: usize) -> bool
    requires { i < length marks.now }
    ensures { slice_get marks.now i ≡ Some result }
{
    marks[i]
}

/// The mark of a row that had one or not: it gets one where it is about the length and some address reaches its rule.
fn mark_of(mark: bool, has: bool, passed: &[usize], rule: usize) -> bool
    requires { IsStrictlyIncreasing passed.now }
    ensures { (result ≡ false) ↔ ((mark ≡ false) × (has ≡ true → Contains passed.now rule)) }
{
    if mark {
        return true;
    }
    if !has {
        return false;
    }
    !is_listed(passed, rule)
}

/// How many rules a row has that is about a length or isn't.
fn count_of(has: bool) -> usize
    ensures value { result ≡ cond has 1 0 }
    ensures fits { result ≤ 1 }
{
    if has { 1 } else { 0 }
}

/// Whether a number is one of those that ascend.
fn is_listed(numbers: &[usize], number: usize) -> bool
    requires { IsStrictlyIncreasing numbers.now }
    ensures { Decides result (Contains numbers.now number) }
{
    numbers.binary_search(&number).is_ok()
}

/// The indices without a mark, ascending.
fn unmarked(alloc: Global, marks: &[bool]) -> Result<Vec<usize>, AllocError>
    ensures indices { IfOk result (λ out. (i : ℕ) → Contains out.items i ↔ (slice_get marks.now i ≡ Some false)) }
    ensures ascending { IfOk result (λ out. IsStrictlyIncreasing out.items) }
{
    let mut out = Vec::new(alloc);
    for (i, is_marked) in marks.iter().enumerate() {
        if !*is_marked {
            out.push(i)?;
        }
    }
    Ok(out)
}
