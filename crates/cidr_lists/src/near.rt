//! What stands near the network of a line: the first line that has it, and those of the longest network around it and
//! of its other half.
//!
//! One pass over the networks of a family in their order finds it. Of those passed, the ones that a network behind may
//! still be inside are open: a chain, in which each network is inside those before it. A network closes those at the
//! end of the chain that do not contain it. Then the last open one is the longest around it, and its other half, if
//! that stands before it, is the last one that it closed.
ghost use Rattle.std.specs.Prelude.{◌≡◌, ◌+◌, ◌<◌, ◌↔◌, Contains, IfOk, IfSome, OnOk, Some, length, map, set, slice_get, take, ℕ};
ghost use Rattle.std.specs.Bool.{Decides};
ghost use Rattle.std.specs.Option.{option_map};
ghost use Rattle.cidr.specs.declared.cidr.combined.IpCidr.{IpCidr as Network};
ghost use Rattle.cidr_lists.specs.Findings.{entry_network};
ghost use Rattle.cidr_lists.specs.Nearness.{AreRowsInOrder, AreNearKept, AreNear, AreNumbered, AreOthersSame, AreRows, ClosesAll, IsClosedHalf, IsLast, IsNear, IsPassed, IsSameRow, PutsFirst, PutsHalf};

use crate::entries::{Entry, entry_at};
use cidr::{IpCidr, Ipv4Cidr, Ipv6Cidr, NetworkBits};
use cidr_ext::NetworkExt;
use cidr_sets::is_inside;
use std::alloc::{AllocError, Global};

/// What stands near the network of a line. A line is told by its index, from 0 on, among those that have a network or a
/// host.
#[derive(Clone, Copy, Debug)]
pub struct Near {
    /// The first line that has the network. The two fields below are set at that line's index alone, where `near_at`
    /// reads them.
    pub first: usize,
    /// The first line of the longest network around it.
    pub outer: Option<usize>,
    /// The first line of its other half.
    pub half: Option<usize>,
}

/// The networks of lines of each family, each with the index of its line.
#[derive(Drop)]
struct Numbered {
    v4: Vec<(Ipv4Cidr, usize)>,
    v6: Vec<(Ipv6Cidr, usize)>,
}

/// The networks of lines, in the order of the lines.
fn number_networks(alloc: Global, entries: &[Entry<'_>]) -> Result<Numbered, AllocError>
    ensures { IfOk result (λ rows. AreNumbered (map entry_network entries.now) rows) }
{
    let mut v4 = Vec::new(alloc);
    let mut v6 = Vec::new(alloc);
    for index in 0..entries.len() {
        match entry_at(entries, index).host.network() {
            IpCidr::V4(network) => v4.push((network, index))?,
            IpCidr::V6(network) => v6.push((network, index))?,
        }
    }
    Ok(Numbered { v4, v6 })
}

/// The rows by network, and those of one network by index.
fn sorted<C: NetworkBits>(mut rows: Vec<(C, usize)>) -> Vec<(C, usize)>
    ensures ascending { AreRowsInOrder C.bits result.items }
    ensures same { (row : C × ℕ) → (Contains result.items row ↔ Contains rows.items row) }
{
    rows.sort_unstable();
    rows
}

/// Each line by itself, with nothing near.
fn nothing_near(alloc: Global, count: usize) -> Result<Vec<Near>, AllocError>
    ensures { IfOk result (λ near. length near.items ≡ count) }
{
    let mut near = Vec::with_capacity(alloc, count)?;
    for index in 0..count {
        near.push(Near {
            first: index,
            outer: None,
            half: None,
        })?;
    }
    Ok(near)
}

/// Whether two networks are the same.
fn is_same<C: NetworkBits>(one: &C, other: &C) -> bool
    ensures { Decides result (one.now ≡ other.now) }
{
    one.cmp(other).is_eq()
}

/// The row at an index.
fn row_at<C: Copy>(rows: &[(C, usize)], index: usize) -> (C, usize)
    requires { index < length rows.now }
    ensures { slice_get rows.now index ≡ Some result }
{
    rows[index]
}

/// The last row.
fn last_of<C: Copy>(rows: &[(C, usize)]) -> Option<(C, usize)>
    ensures { IsLast rows.now result }
{
    let len = rows.len();
    if len == 0 {
        return None;
    }
    Some(row_at(rows, len - 1))
}

/// Closes the networks at the end of the chain that do not contain the network, and gives the last one closed.
fn close<C: NetworkBits + Copy>(nest: &mut Vec<(C, usize)>, network: &C) -> Option<(C, usize)>
    ensures { ClosesAll C.bits network.now nest.old.items nest.new.items result }
{
    let mut closed = None;
    while let Some(row) = last_of(nest.as_slice()) {
        if is_inside(network, &row.0) {
            return closed;
        }
        nest.pop();
        closed = Some(row);
    }
    closed
}

/// The index of a row, if it is of this network.
fn same_of<C: NetworkBits + Copy>(found: Option<(C, usize)>, network: &C) -> Option<usize>
    ensures { IsSameRow found network.now result }
{
    match found {
        Some(row) => {
            if is_same(&row.0, network) {
                Some(row.1)
            } else {
                None
            }
        }
        None => None,
    }
}

/// The index of the row that was closed last, if it is of the other half.
fn half_of<C: NetworkExt>(closed: Option<(C, usize)>, network: &C) -> Option<usize>
    ensures { IsClosedHalf C.bits closed network.now result }
{
    match closed {
        Some(row) => {
            if network.is_sibling_of(&row.0) {
                Some(row.1)
            } else {
                None
            }
        }
        None => None,
    }
}

/// The index of a row, if there is one.
fn index_of<C: Copy>(found: Option<(C, usize)>) -> Option<usize>
    ensures { result ≡ option_map (λ row. row.1) found }
{
    let row = found?;
    Some(row.1)
}

/// What is kept at an index.
fn kept(near: &[Near], index: usize) -> Near
    requires { index < length near.now }
    ensures { slice_get near.now index ≡ Some result }
{
    near[index]
}

/// Keeps what stands near a network at an index.
fn put(near: &mut [Near], index: usize, one: Near)
    requires { index < length near.old }
    ensures { near.new ≡ set near.old index one }
{
    near[index] = one;
}

/// Keeps the first index of a network at another one.
fn put_first(near: &mut [Near], index: usize, first: usize)
    requires { index < length near.old }
    ensures { PutsFirst near.old index first near.new }
{
    let Near { outer, half, .. } = kept(near, index);
    put(near, index, Near { first, outer, half });
}

/// Keeps the other half of an earlier network, if there is one.
fn put_half(near: &mut [Near], earlier: Option<usize>, half: usize)
    requires { IfSome earlier (λ i. i < length near.old) }
    ensures { PutsHalf near.old earlier half near.new }
{
    match earlier {
        Some(index) => {
            let Near { first, outer, .. } = kept(near, index);
            let half = Some(half);
            put(near, index, Near { first, outer, half });
        }
        None => {}
    }
}

/// Passes the network of a row: keeps what stands near it, and opens it unless it is open.
fn pass<C: NetworkExt>(
    near: &mut [Near],
    nest: &mut Vec<(C, usize)>,
    rows: &[(C, usize)],
    index: usize,
) -> Result<(), AllocError>
    requires rows { AreRows rows.now (length near.old) }
    requires ascending { AreRowsInOrder C.bits rows.now }
    requires within { index < length rows.now }
    requires passed { IsPassed C.bits (take index rows.now) near.old nest.old.items }
    ensures passed { OnOk result (IsPassed C.bits (take (index + 1) rows.now) near.new nest.new.items) }
    ensures others { AreOthersSame rows.now near.old near.new }
{
    let row = row_at(rows, index);
    let closed = close(nest, &row.0);
    let outer = last_of(nest.as_slice());
    if let Some(first) = same_of(outer, &row.0) {
        put_first(near, row.1, first);
        return Ok(());
    }
    nest.push(row)?;
    let half = half_of(closed, &row.0);
    let one = Near {
        first: row.1,
        outer: index_of(outer),
        half,
    };
    put(near, row.1, one);
    put_half(near, half, row.1);
    Ok(())
}

/// Keeps what stands near the network of each row.
fn keep<C: NetworkExt>(
    alloc: Global,
    near: &mut [Near],
    rows: &[(C, usize)],
) -> Result<(), AllocError>
    requires rows { AreRows rows.now (length near.old) }
    requires ascending { AreRowsInOrder C.bits rows.now }
    ensures kept { OnOk result (AreNearKept C.bits rows.now near.new) }
    ensures others { AreOthersSame rows.now near.old near.new }
{
    let mut nest = Vec::new(alloc);
    for index in 0..rows.len() {
        pass(near, &mut nest, rows, index)?;
    }
    Ok(())
}

/// What stands near the networks of lines, for `near_at`. A host is taken by its network.
///
/// It sorts the networks of n lines, O(n log n), and passes them once. It allocates 16 bytes for each line of IPv4 and
/// 32 for each of IPv6, which it frees, and some 40 a line, which stay. The error is that there is no memory.
pub fn near_lines(alloc: Global, entries: &[Entry<'_>]) -> Result<Vec<Near>, AllocError>
    ensures { IfOk result (λ near. AreNear (map entry_network entries.now) near.items) }
{
    let rows = number_networks(alloc, entries)?;
    let Numbered { v4, v6 } = rows;
    let v4 = sorted(v4);
    let v6 = sorted(v6);
    let mut near = nothing_near(alloc, entries.len())?;
    keep(alloc, &mut near, v4.as_slice())?;
    keep(alloc, &mut near, v6.as_slice())?;
    Ok(near)
}

/// What stands near the network of the line at an index, which is kept for the first line of the network: two reads. The
/// caller has to prove that `near` is what `near_lines` gave of these lines, and that the index is below their number.
pub fn near_at(near: &[Near], entries: &[Entry<'_>], index: usize) -> Near
    requires near { AreNear (map entry_network entries.now) near.now }
    requires within { index < length entries.now }
    ensures { (network : Network) → slice_get (map entry_network entries.now) index ≡ Some network
        → IsNear (map entry_network entries.now) network result }
{
    let first = kept(near, index).first;
    kept(near, first)
}
