//! Networks in order with their indexes, and what is around each: one pass finds it, and a look-up goes from a network to what is
//! around it.
ghost use Rattle.std.specs.Prelude.{◌≡◌, ◌≢◌, ◌⊎◌, ◌<◌, ◌≤◌, ℕ, IfOk, List, MatchResult, drop, length, map, slice_get, Some};
ghost use Rattle.std.specs.Bool.{Decides};
ghost use Rattle.std.specs.List.Sorted.{IsPermutation};
ghost use Rattle.std.specs.declared.cmp.Ordering.TheVariants.{Greater};
ghost use Rattle.cidr.specs.either.IpNetwork.{any_bits};
ghost use Rattle.cidr.specs.model.Bits.{bit_cmp};
ghost use Rattle.cidr.specs.declared.cidr.any.AnyIpCidr.{AnyIpCidr as Network};
ghost use Rattle.cidr_lists.specs.Findings.{AreBitsInside};
ghost use Rattle.cidr_lists.specs.Nearness.{AreRowsInOrder};
ghost use Rattle.cidr_c.specs.calls.Batches.{AreNetworkValues};
ghost use Rattle.cidr_c.specs.calls.Lookups.{IsLongestIndex};
ghost use Rattle.cidr_c.specs.Nested.{AreNearestPut, AreNested, AreOuters, AreRowsOfList, IsIndexBefore, IsOuter};
ghost use Rattle.cidr_c.specs.model.Codes.{no_memory, no_value};
ghost use Rattle.cidr_c.specs.model.Values.{network_in};

use crate::codes::NO_MEMORY;
use crate::lookups::indexed_rows;
use crate::values::CValue;
use cidr::{AnyIpCidr, BitString, NetworkBits};
use cidr_table::is_inside;
use std::alloc::{AllocError, Global};

/// Networks of a list in order, those that repeat by index, each with its index, and how many of these rows there are up to the
/// smallest network around that of each, 0 where there is none.
#[derive(Drop)]
pub struct Nested {
    rows: Vec<(AnyIpCidr, usize)>,
    outers: Vec<usize>,
}

/// The networks that values are, in order, or the number of the error.
pub fn nested_rows(alloc: Global, values: &[CValue]) -> Result<Nested, u32>
    ensures { MatchResult result
        (λ nested. AreNetworkValues values.now × AreNested (map network_in values.now) nested)
        (λ code. ((code ≡ no_value) × ¬ (AreNetworkValues values.now)) ⊎ (code ≡ no_memory)) }
{
    let listed = indexed_rows(alloc, values)?;
    let rows = sorted(listed);
    match outers_of(alloc, rows.as_slice()) {
        Ok(outers) => Ok(Nested { rows, outers }),
        Err(_) => Err(NO_MEMORY),
    }
}

/// Rows in the order of their networks, and those of one network by index.
pub fn sorted<C: NetworkBits>(mut rows: Vec<(C, usize)>) -> Vec<(C, usize)>
    ensures same { IsPermutation rows.items result.items }
    ensures ascending { AreRowsInOrder C.bits result.items }
{
    rows.sort_unstable();
    rows
}

/// Whether a network is inside another one, and not the same.
fn is_smaller_inside<C: BitString>(network: &C, outer: &C) -> bool
    ensures { Decides result (AreBitsInside (C.bits network.now) (C.bits outer.now)) }
{
    outer.len() < network.len() && is_inside(network, outer)
}

/// How many rows there are up to the smallest network around that of a row, by those of the rows before it: it may be inside the
/// one before it, or else inside what that is inside.
fn outer_of<C: NetworkBits>(rows: &[(C, usize)], outers: &[usize], inner: usize) -> usize
    requires rows { AreRowsInOrder C.bits rows.now }
    requires inner { inner < length rows.now }
    requires before { AreOuters C.bits rows.now outers.now inner }
    ensures { IsOuter C.bits rows.now inner result }
{
    let mut end = inner;
    while end > 0 {
        if is_smaller_inside(&rows[inner].0, &rows[end - 1].0) {
            return end;
        }
        end = outers[end - 1];
    }
    end
}

/// The same of each row.
fn outers_of<C: NetworkBits>(alloc: Global, rows: &[(C, usize)]) -> Result<Vec<usize>, AllocError>
    requires { AreRowsInOrder C.bits rows.now }
    ensures { IfOk result (λ outers. AreOuters C.bits rows.now outers.items (length rows.now)) }
{
    let mut outers = Vec::with_capacity(alloc, rows.len())?;
    for inner in 0..rows.len() {
        let outer = outer_of(rows, outers.as_slice(), inner);
        outers.push(outer)?;
    }
    Ok(outers)
}

/// The index of the last of the first `end` rows, or `usize::MAX` where these are none.
fn index_before(rows: &[(AnyIpCidr, usize)], end: usize) -> usize
    requires { end ≤ length rows.now }
    ensures { IsIndexBefore rows.now end result }
{
    if end == 0 {
        usize::MAX
    } else {
        rows[end - 1].1
    }
}

/// Puts the index of the smallest network around each at the index of its own row.
fn put_nearest(rows: &[(AnyIpCidr, usize)], outers: &[usize], out: &mut [usize])
    requires rows { AreRowsInOrder any_bits rows.now }
    requires outers { AreOuters any_bits rows.now outers.now (length rows.now) }
    requires room { (row : Network × ℕ) (k : ℕ) → slice_get rows.now k ≡ Some row → row.1 < length out.old }
    ensures put { (networks : List Network) → AreRowsOfList networks rows.now → AreNearestPut networks out.new }
    ensures size { length out.new ≡ length out.old }
    ensures behind { (many : ℕ) → ((row : Network × ℕ) (k : ℕ) → slice_get rows.now k ≡ Some row → row.1 < many)
        → drop many out.new ≡ drop many out.old }
{
    for inner in 0..rows.len() {
        out[rows[inner].1] = index_before(rows, outers[inner]);
    }
}

/// Whether a network comes behind another one.
fn is_behind<C: NetworkBits>(network: &C, other: &C) -> bool
    ensures { Decides result (bit_cmp (C.bits network.now) (C.bits other.now) ≡ Greater) }
{
    network.cmp(other).is_gt()
}

/// How many of the rows come up to a network in their order.
fn rows_upto<C: NetworkBits>(rows: &[(C, usize)], asked: &C) -> usize
    requires { AreRowsInOrder C.bits rows.now }
    ensures within { result ≤ length rows.now }
    ensures upto { (k : ℕ) (row : C × ℕ) → k < result → slice_get rows.now k ≡ Some row → bit_cmp (C.bits row.0) (C.bits asked.now) ≢ Greater }
    ensures behind { (k : ℕ) (row : C × ℕ) → result ≤ k → slice_get rows.now k ≡ Some row → bit_cmp (C.bits row.0) (C.bits asked.now) ≡ Greater }
{
    // Whatever a comparison returns, `left / 2` rows are left, so that the compiler can do without a branch on it.
    let mut found = 0;
    let mut left = rows.len();
    while left > 0 {
        let half = left - left / 2;
        if !is_behind(&rows[found + half - 1].0, asked) {
            found += half;
        }
        left /= 2;
    }
    found
}

/// The index of the longest network that contains the asked one, or `usize::MAX` where none does: a search by halving, and then from
/// a network to the one around it.
fn longest_of(rows: &[(AnyIpCidr, usize)], outers: &[usize], asked: &AnyIpCidr) -> usize
    requires rows { AreRowsInOrder any_bits rows.now }
    requires outers { AreOuters any_bits rows.now outers.now (length rows.now) }
    ensures { (networks : List Network) → AreRowsOfList networks rows.now → IsLongestIndex networks asked.now result }
{
    let mut end = rows_upto(rows, asked);
    while end > 0 {
        if is_inside(asked, &rows[end - 1].0) {
            return rows[end - 1].1;
        }
        end = outers[end - 1];
    }
    usize::MAX
}

/// The index of the longest network that contains the asked one, or `usize::MAX` where none does.
pub fn longest_in(nested: &Nested, asked: &AnyIpCidr) -> usize
    requires { (networks : List Network) × AreNested networks nested.now }
    ensures { (networks : List Network) → AreNested networks nested.now → IsLongestIndex networks asked.now result }
{
    longest_of(nested.rows.as_slice(), nested.outers.as_slice(), asked)
}

/// Puts the index of the smallest network around each at its own index, and leaves what is behind the networks.
pub fn put_nearest_in(nested: &Nested, out: &mut [usize])
    requires { (networks : List Network) × AreNested networks nested.now × (length networks ≤ length out.old) }
    ensures put { (networks : List Network) → AreNested networks nested.now → AreNearestPut networks out.new }
    ensures behind { (networks : List Network) → AreNested networks nested.now → drop (length networks) out.new ≡ drop (length networks) out.old }
{
    put_nearest(nested.rows.as_slice(), nested.outers.as_slice(), out);
}
