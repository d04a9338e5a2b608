//! Lists of candidate values.
ghost use Rattle.std.specs.Prelude.{◌≡◌, ◌++◌, OnOk, IfOk, false};
ghost use Rattle.std.specs.List.{filter};
ghost use Rattle.std.specs.List.Sorted.{IsPermutation, IsSorted};
ghost use Rattle.std.specs.Option.{option_eq, option_cmp};
ghost use Rattle.cidr.specs.either.IpAddress.{TellsEqual};
ghost use Rattle.cidr_forwarding.specs.Choices.{is_listed, shared, joined_candidates, is_free, not_of, head_or};

use std::alloc::{AllocError, Global};

/// Whether one of the values is this one.
pub(crate) fn holds<V: Copy + Ord>(values: &[Option<V>], wanted: Option<V>) -> bool
    ensures { result ≡ is_listed (option_eq V.eq) values.now wanted }
{
    values.contains(&wanted)
}

/// The first value, or `None` where there is none.
pub(crate) fn first_of<V: Copy>(values: &[Option<V>]) -> Option<V>
    ensures { result ≡ head_or None values.now }
{
    match values {
        [first, ..] => *first,
        [] => None,
    }
}

/// The values, ascending.
fn ascending<V: Copy + Ord>(
    alloc: Global,
    values: &[Option<V>],
) -> Result<Vec<Option<V>>, AllocError>
    ensures same { IfOk result (λ sorted. IsPermutation values.now sorted.items) }
    ensures sorted { IfOk result (λ sorted. IsSorted (option_cmp V.cmp) sorted.items) }
{
    let mut sorted = Vec::with_capacity(alloc, values.len())?;
    for value in values {
        sorted.push(*value)?;
    }
    sorted.sort_unstable();
    Ok(sorted)
}

/// Whether one of the values, which ascend, is this one.
fn holds_ascending<V: Copy + Ord>(values: &[Option<V>], wanted: Option<V>) -> bool
    requires tells { TellsEqual V.eq }
    requires sorted { IsSorted (option_cmp V.cmp) values.now }
    ensures { result ≡ is_listed (option_eq V.eq) values.now wanted }
{
    values.binary_search(&wanted).is_ok()
}

/// Appends the values of one list that are in another: by a look at each pair where one list is short, or else by
/// searches in the other one, sorted.
fn push_shared<V: Copy + Ord>(
    alloc: Global,
    values: &[Option<V>],
    other: &[Option<V>],
    out: &mut Vec<Option<V>>,
) -> Result<(), AllocError>
    requires tells { TellsEqual V.eq }
    ensures { OnOk result (out.new.items ≡ out.old.items ++ shared (option_eq V.eq) values.now other.now) }
{
    if values.len() <= 16 || other.len() <= 16 {
        for value in values {
            if holds(other, *value) {
                out.push(*value)?;
            }
        }
    } else {
        let sorted = ascending(alloc, other)?;
        for wanted in values {
            if holds_ascending(&sorted, *wanted) {
                out.push(*wanted)?;
            }
        }
    }
    Ok(())
}

/// Appends one `None` for each in a list.
fn push_holes<V: Copy>(values: &[Option<V>], out: &mut Vec<Option<V>>) -> Result<(), AllocError>
    ensures { OnOk result (out.new.items ≡ out.old.items ++ filter (not_of (is_free false)) values.now) }
{
    for value in values {
        if value.is_none() {
            out.push(*value)?;
        }
    }
    Ok(())
}

/// The candidates of a network, of whose halves these are the candidates.
#[inline]
pub(crate) fn join<V: Copy + Ord>(
    alloc: Global,
    lower: &[Option<V>],
    upper: &[Option<V>],
    holes: bool,
    joined: &mut Vec<Option<V>>,
) -> Result<(), AllocError>
    requires tells { TellsEqual V.eq }
    ensures { OnOk result (joined.new.items ≡ joined_candidates (option_eq V.eq) (is_free holes) lower.now upper.now) }
{
    joined.clear();
    push_shared(alloc, lower, upper, joined)?;
    if !joined.is_empty() {
        return Ok(());
    }
    if !holes {
        push_holes(lower, joined)?;
        push_holes(upper, joined)?;
        if !joined.is_empty() {
            return Ok(());
        }
    }
    joined.extend_from_slice(lower)?;
    joined.extend_from_slice(upper)?;
    Ok(())
}
