//! The searches by halving: for a key, and for how many bits of the look-up key a key begins with; and whether a network is
//! inside another.
ghost use Rattle.std.specs.Prelude.{◌≡◌, ℕ, ◌+◌, ◌-◌, ◌^◌, ◌<◌, ◌≤◌, length, slice_index_or, take};
ghost use Rattle.std.specs.Bool.{Decides};
ghost use Rattle.std.specs.List.Sorted.{IsStrictlySortedBy};
ghost use Rattle.std.specs.declared.cmp.Ordering.TheVariants.{Less};
ghost use Rattle.cidr.specs.model.Network.{BeginsWith};
ghost use Rattle.cidr_table.specs.internal.Places.{IsPlace, IsShared};

use crate::probe::Probe;
use cidr::{BitString, NetworkBits};

/// Where the key stands among the first `end` keys, or the index before which it would.
pub fn search<C: Ord, P: Probe<C>>(rows: &mut P, key: &C, end: usize) -> Result<usize, usize>
    requires sorted { IsStrictlySortedBy C.cmp (P.keys rows.old) }
    requires end { end ≤ length (P.keys rows.old) }
    ensures index { IsPlace C.cmp (P.keys rows.old) key.now end result }
    ensures keys { P.keys rows.new ≡ P.keys rows.old }
    ensures cost { (d : ℕ) → end < 2 ^ d → P.count rows.new ≤ P.count rows.old + d }
{
    // Whatever a comparison returns, `half` indices are left, so that the compiler can do without a branch on it.
    let mut low = 0;
    let mut left = end;
    let mut found = false;
    while left > 0 {
        let half = left / 2;
        let order = rows.compare(low + half, key);
        if order.is_lt() {
            low += left - half;
        } else {
            found = order.is_eq();
        }
        left = half;
    }
    if found { Ok(low) } else { Err(low) }
}

/// What `search` returns, where the keys before index `start` are known to come before the key.
pub fn search_between<C: Ord, P: Probe<C>>(
    rows: &mut P,
    key: &C,
    start: usize,
    end: usize,
) -> Result<usize, usize>
    requires sorted { IsStrictlySortedBy C.cmp (P.keys rows.old) }
    requires start { start ≤ end }
    requires end { end ≤ length (P.keys rows.old) }
    requires lesser { (j : ℕ) → j < start → C.cmp (slice_index_or (P.keys rows.old) j key.now) key.now ≡ Less }
    ensures index { IsPlace C.cmp (P.keys rows.old) key.now end result }
    ensures keys { P.keys rows.new ≡ P.keys rows.old }
    ensures cost { (d : ℕ) → end - start < 2 ^ d → P.count rows.new ≤ P.count rows.old + d }
{
    let mut low = start;
    let mut left = end - start;
    while left > 0 {
        let rest = left / 2;
        let order = rows.compare(low + rest, key);
        if order.is_lt() {
            low += left - rest;
        } else if order.is_eq() {
            return Ok(low + rest);
        }
        left = rest;
    }
    Err(low)
}

/// The same as `search`, for a key that likely stands near the end: first it goes back from there, `step` keys and then
/// each time twice as far, but at most `tries` times.
pub fn search_back<C: Ord, P: Probe<C>>(
    rows: &mut P,
    key: &C,
    end: usize,
    step: usize,
    tries: usize,
) -> Result<usize, usize>
    requires sorted { IsStrictlySortedBy C.cmp (P.keys rows.old) }
    requires end { end ≤ length (P.keys rows.old) }
    ensures index { IsPlace C.cmp (P.keys rows.old) key.now end result }
    ensures keys { P.keys rows.new ≡ P.keys rows.old }
    ensures cost { (d : ℕ) → end < 2 ^ d → P.count rows.new ≤ P.count rows.old + tries + d }
{
    let mut high = end;
    let mut far = step.max(1);
    let mut left = tries;
    while high > 0 && left > 0 {
        let near = high.saturating_sub(far);
        let order = rows.compare(near, key);
        if order.is_lt() {
            return search_between(rows, key, near + 1, high);
        } else if order.is_eq() {
            return Ok(near);
        } else {
            high = near;
        }
        far = far.saturating_mul(2);
        left -= 1;
    }
    search(rows, key, high)
}

/// How many of the look-up key's first `most` bits the key at an index begins with: `Ok` where it has no others, and
/// else `Err` of at least as many, where the key comes before all longer beginnings.
pub fn shared_len<C: NetworkBits + Copy, P: Probe<C>>(
    rows: &mut P,
    index: usize,
    asked: &C,
    most: usize,
) -> Result<usize, usize>
    requires index { index < length (P.keys rows.old) }
    requires most { most ≤ length (C.bits asked.now) }
    ensures shared { let key = slice_index_or (P.keys rows.old) index asked.now in
        IsShared (C.bits key) (C.bits asked.now) most result }
    ensures keys { P.keys rows.new ≡ P.keys rows.old }
    ensures cost { (d : ℕ) → most < 2 ^ d → P.count rows.new ≤ P.count rows.old + d }
{
    let mut low = 0;
    let mut left = most;
    while left > 0 {
        let next = left / 2;
        let mid = low + (left - next);
        let order = rows.compare(index, &clipped(asked, mid));
        if order.is_gt() {
            low = mid;
        } else if order.is_eq() {
            return Ok(mid);
        }
        left = next;
    }
    Err(low)
}

/// Whether a network is inside the outer one or the same: whether its bits begin with those of the outer one.
///
/// ```
/// is_inside::<Ipv4Cidr>(&"10.1.0.0/16".parse()?, &"10.0.0.0/8".parse()?) // true
/// is_inside::<Ipv4Cidr>(&"10.0.0.0/8".parse()?, &"10.1.0.0/16".parse()?) // false
/// ```
pub fn is_inside<C: BitString>(network: &C, outer: &C) -> bool
    ensures { Decides result (BeginsWith (C.bits network.now) (C.bits outer.now)) }
{
    network.shared_prefix_len(outer) == outer.len()
}

/// The first `len` bits of a network.
pub fn clipped<C: NetworkBits + Copy>(network: &C, len: usize) -> C
    ensures { C.bits result ≡ take len (C.bits network.now) }
{
    let mut clipped = *network;
    clipped.clip(len);
    clipped
}

/// The number of binary digits of a number, 0 of 0.
pub fn binary_digits(n: usize) -> usize
    ensures fits { n < 2 ^ result }
    ensures least { (d : ℕ) → n < 2 ^ d → result ≤ d }
    ensures bound { result ≤ 64 }
{
    if n == 0 { 0 } else { n.ilog2() as usize + 1 }
}
