//! The searches.
ghost use Rattle.std.specs.Prelude.{◌≡◌, ◌↔◌, ◌+◌, ◌<◌, ◌≤◌, ◌^◌, ℕ, length, map, slice_index_or, slice_set, IfSome, MatchResult};
ghost use Rattle.std.specs.List.Sorted.{IsStrictlySortedBy};
ghost use Rattle.cidr.specs.model.Bits.{bit_cmp};
ghost use Rattle.cidr.specs.model.Network.{BeginsWith};
ghost use Rattle.cidr_table.specs.internal.Places.{IsLowerBound, IsPlace};
ghost use Rattle.cidr_table.specs.model.Prefixes.{IsLongestMatch};
ghost use Rattle.cidr_rows.specs.Around.{AreCoveringPut};
ghost use Rattle.cidr_rows.specs.Between.{IsBetween};
ghost use Rattle.cidr_rows.specs.Lengths.{AreLengths};

use crate::keys::Keys;
use crate::lengths::longest_length;
use cidr::{BitString, NetworkBits};
use cidr_table::is_inside;

/// Where a network stands, or the index before which it would: each before that is less, and each from there on greater.
pub fn find<C: NetworkBits + Copy, K: Keys<C>>(rows: &K, key: &C) -> Result<usize, usize>
    ensures within { MatchResult result (λ i. i < length (K.keys rows.now)) (λ i. i ≤ length (K.keys rows.now)) }
    ensures index { IsStrictlySortedBy bit_cmp (map C.bits (K.keys rows.now))
        → IsPlace bit_cmp (map C.bits (K.keys rows.now)) (C.bits key.now) (length (K.keys rows.now)) result }
{
    place_of(rows, key, rows.len())
}

/// The index of the longest network that the look-up key is in, or `None` where it is in none.
///
/// Only lengths that networks may have are searched for: `lengths` has 0 at the index of a length that none has. Of a length that
/// it does not reach it tells nothing, so that an empty one is right of all networks.
pub fn longest<C: NetworkBits + Copy, K: Keys<C>>(
    rows: &K,
    lengths: &[u8],
    asked: &C,
) -> Option<usize>
    ensures within { IfSome result (λ i. i < length (K.keys rows.now)) }
    ensures longest { IsStrictlySortedBy bit_cmp (map C.bits (K.keys rows.now)) → AreLengths C.bits (K.keys rows.now) lengths.now
        → IsLongestMatch C.bits (C.bits asked.now) (K.keys rows.now) result }
{
    longest_key(rows, lengths, asked)
}

/// The indexes of all networks that the look-up key is in, ascending, and so the shortest network first: at the beginning of
/// `out`, as many as it has room for; what is behind them there stays. Returns how many they are, at most one more than the
/// look-up key has bits.
pub fn covering<C: NetworkBits + Copy, K: Keys<C>>(rows: &K, asked: &C, out: &mut [usize]) -> usize
    ensures { AreCoveringPut C.bits (C.bits asked.now) (K.keys rows.now) out.old out.new result }
{
    let Some(index) = longest_key(rows, &[], asked) else {
        return 0;
    };
    let len = rows.key(index).len().min(asked.len());
    if len == 0 {
        return put(out, 0, index);
    }
    // The others are shorter.
    let mut shorter = *asked;
    shorter.clip(len - 1);
    let count = covering(rows, &shorter, out);
    put(out, count, index)
}

/// Writes an index at another, if there is room for it, and returns the next one.
fn put(out: &mut [usize], at: usize, index: usize) -> usize
    requires { at < 2 ^ 32 }
    ensures next { result ≡ at + 1 }
    ensures put { out.new ≡ slice_set out.old at index }
{
    if at < out.len() {
        out[at] = index;
    }
    at + 1
}

/// Which networks are in the outer one, that may be one of them: those from the first index on and before the second.
pub fn covered<C: NetworkBits + Copy, K: Keys<C>>(rows: &K, outer: &C) -> (usize, usize)
    ensures from { result.0 ≤ result.1 }
    ensures to { result.1 ≤ length (K.keys rows.now) }
    ensures inside { IsStrictlySortedBy bit_cmp (map C.bits (K.keys rows.now)) → (i : ℕ) → i < length (K.keys rows.now)
        → BeginsWith (C.bits (slice_index_or (K.keys rows.now) i outer.now)) (C.bits outer.now) ↔ ((result.0 ≤ i) × (i < result.1)) }
{
    let from = lower_bound(rows, outer);
    let mut to = from;
    let mut left = rows.len() - from;
    while left > 0 {
        let half = left / 2;
        if is_inside(&rows.key(to + half), outer) {
            to += left - half;
        }
        left = half;
    }
    (from, to)
}

/// How many keys come before this one.
fn lower_bound<C: Ord + Copy, K: Keys<C>>(rows: &K, key: &C) -> usize
    ensures within { result ≤ length (K.keys rows.now) }
    ensures index { IsStrictlySortedBy C.cmp (K.keys rows.now)
        → IsLowerBound C.cmp (K.keys rows.now) key.now (length (K.keys rows.now)) result }
{
    let (Ok(index) | Err(index)) = place_of(rows, key, rows.len());
    index
}

/// Where a key stands among the first `end`, or the index before which it would.
fn place_of<C: Ord + Copy, K: Keys<C>>(rows: &K, key: &C, end: usize) -> Result<usize, usize>
    requires { end ≤ length (K.keys rows.now) }
    ensures within { MatchResult result (λ i. i < end) (λ i. i ≤ end) }
    ensures index { IsStrictlySortedBy C.cmp (K.keys rows.now) → IsPlace C.cmp (K.keys rows.now) key.now end result }
{
    place_between(rows, key, 0, end, end)
}

/// The same, sought from the end on: the nearer to it the key belongs, the fewer comparisons that takes.
fn place_back<C: Ord + Copy, K: Keys<C>>(rows: &K, key: &C, end: usize) -> Result<usize, usize>
    requires { end ≤ length (K.keys rows.now) }
    ensures within { MatchResult result (λ i. i < end) (λ i. i ≤ end) }
    ensures index { IsStrictlySortedBy C.cmp (K.keys rows.now) → IsPlace C.cmp (K.keys rows.now) key.now end result }
{
    // The key belongs before those from `upto` on.
    let mut upto = end;
    let mut step = 1;
    while step <= upto {
        let mid = upto - step;
        let order = rows.key(mid).cmp(key);
        if order.is_lt() {
            return place_between(rows, key, mid + 1, step - 1, end);
        }
        if order.is_eq() {
            return Ok(mid);
        }
        upto = mid;
        step += step.min(mid);
    }
    place_between(rows, key, 0, upto, end)
}

/// Where a key stands among the first `end`, or the index before which it would, that is among the `left` ones from `low` on or
/// behind these: those before are less, and those behind greater.
fn place_between<C: Ord + Copy, K: Keys<C>>(
    rows: &K,
    key: &C,
    mut low: usize,
    mut left: usize,
    end: usize,
) -> Result<usize, usize>
    requires end { end ≤ length (K.keys rows.now) }
    requires left { low + left ≤ end }
    ensures within { MatchResult result (λ i. i < end) (λ i. i ≤ end) }
    ensures index { IsStrictlySortedBy C.cmp (K.keys rows.now) → IsBetween C.cmp (K.keys rows.now) key.now low (low + left) end
        → IsPlace C.cmp (K.keys rows.now) key.now end result }
{
    let mut found = false;
    while left > 0 {
        let half = left / 2;
        let order = rows.key(low + half).cmp(key);
        if order.is_lt() {
            low += left - half;
        } else {
            found = order.is_eq();
        }
        left = half;
    }
    if found { Ok(low) } else { Err(low) }
}

/// The index of a key among the first `end`: which are all; or else it comes before all, or most likely not far from the end.
fn seek<C: Ord + Copy, K: Keys<C>>(rows: &K, key: &C, end: usize) -> Result<usize, usize>
    requires some { 0 < end }
    requires end { end ≤ length (K.keys rows.now) }
    ensures within { MatchResult result (λ i. i < end) (λ i. i ≤ end) }
    ensures index { IsStrictlySortedBy C.cmp (K.keys rows.now) → IsPlace C.cmp (K.keys rows.now) key.now end result }
{
    if end == rows.len() {
        return place_of(rows, key, end);
    }
    let order = rows.key(0).cmp(key);
    if order.is_lt() {
        return place_back(rows, key, end);
    }
    if order.is_eq() { Ok(0) } else { Err(0) }
}

/// The index of the longest key that begins the look-up key, or `None` where none does.
fn longest_key<C: NetworkBits + Copy, K: Keys<C>>(
    rows: &K,
    lengths: &[u8],
    asked: &C,
) -> Option<usize>
    ensures within { IfSome result (λ i. i < length (K.keys rows.now)) }
    ensures longest { IsStrictlySortedBy C.cmp (K.keys rows.now) → AreLengths C.bits (K.keys rows.now) lengths.now
        → IsLongestMatch C.bits (C.bits asked.now) (K.keys rows.now) result }
{
    // The keys that the look-up key is in are among the first `end`, and `sought` is in them, too.
    let mut sought = *asked;
    let mut end = rows.len();
    while end > 0 {
        match seek(rows, &sought, end) {
            Ok(index) => return Some(index),
            Err(0) => return None,
            Err(index) => {
                let before = rows.key(index - 1);
                let shared = sought.shared_prefix_len(&before);
                if shared == before.len() {
                    return Some(index - 1);
                }
                let len = longest_length(lengths, shared)?;
                sought.clip(len);
                end = index - 1;
            }
        }
    }
    None
}
