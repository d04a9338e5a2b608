//! The words of networks, by their ranges.
ghost use Rattle.std.specs.Prelude.{◌≡◌, ◌↔◌, ◌+◌, ◌-◌, ◌*◌, ◌/◌, ◌%◌, ◌^◌, ◌<◌, ◌≤◌, ◌⊎◌, ℕ, List, [], length, map, slice_index_or, IfErr, IfNone, IfOk, IfSome, IsTrue, OnErr, OnOk};
ghost use Rattle.cidr_lookup.specs.Keys.{AreAscendingNetworks, key_networks};
ghost use Rattle.cidr_lookup.specs.Ranges.{AreMatchRanges, changes_from};
ghost use Rattle.cidr_lookup.specs.Nodes.{IsEntry};
ghost use Rattle.cidr_lookup.specs.Putting.{AllHave, AreRuns, HasList, IsStopped, StopsBefore};
ghost use Rattle.cidr_lookup.specs.Tables.{IsAnswer, IsLookupTable};

use crate::address::Address;
use crate::key::Key;
use crate::list::{MOST_CHANGES, MOST_LIST_STEPS, put_list};
use crate::node::{PARTS, Runs, put_node};
use crate::search::PLACE;
use crate::words::{Sink, Stop, Stopped};

/// How many words may stand before a node or a list.
const MOST_WORDS: usize = 1 << 30;

/// Puts the entries of all blocks of 64^steps numbers, and the words of their nodes and lists.
pub(crate) fn put_table<A: Address, F: Sink, S: Sink>(
    keys: &[Key<A>],
    starts: &[A],
    answers: &[u32],
    first: &mut F,
    words: &mut S,
    steps: u32,
) -> Result<(), Stopped>
    requires keys { AreAscendingNetworks A.width (key_networks A.value keys.now) }
    requires ranges { AreMatchRanges A.width (key_networks A.value keys.now) (map A.value starts.now) answers.now }
    requires number { length keys.now < 2 ^ 31 }
    requires some { 6 * steps < A.width + A.padding }
    requires few { A.width + A.padding ≤ 6 * steps + 32 }
    requires first { F.put first.old ≡ [] }
    requires words { S.put words.old ≡ [] }
    ensures kept_first { F.given first.new ≡ F.given first.old }
    ensures kept_words { S.given words.new ≡ S.given words.old }
    ensures table { OnOk result (IsLookupTable A.width A.padding steps (key_networks A.value keys.now) (F.put first.new) (S.put words.new)) }
    ensures stopped { IfErr result (λ stopped. (all_first all_words : List ℕ)
        → IsLookupTable A.width A.padding steps (key_networks A.value keys.now) all_first all_words
        → IsStopped stopped (F.put first.new) (F.refuses first.new) all_first (S.put words.new) (S.refuses words.new) all_words) }
    ensures many { IfErr result (λ stopped. stopped ≡ Stopped.Words Stop.TooMany → 2 ^ 30 ≤ length (S.put words.new)) }
{
    let blocks = 1u64 << (A::padded_width() - 6 * steps);
    let mut near = 0;
    let mut until = 0;
    for block in 0..blocks {
        let entry = match next_entry(
            keys, starts, answers, words, steps, block, &mut near, &mut until,
        ) {
            Ok(entry) => entry,
            Err(stop) => return Err(Stopped::Words(stop)),
        };
        match first.push(entry) {
            Ok(()) => {}
            Err(stop) => return Err(Stopped::First(stop)),
        }
    }
    Ok(())
}

/// The entry of a block, as of `entry_of`. The blocks before `until` lie in the range.
#[inline(always)]
fn next_entry<A: Address, S: Sink>(
    keys: &[Key<A>],
    starts: &[A],
    answers: &[u32],
    sink: &mut S,
    steps: u32,
    block: u64,
    near: &mut usize,
    until: &mut u64,
) -> Result<u32, Stop>
    requires keys { AreAscendingNetworks A.width (key_networks A.value keys.now) }
    requires ranges { AreMatchRanges A.width (key_networks A.value keys.now) (map A.value starts.now) answers.now }
    requires few { length keys.now < 2 ^ 31 }
    requires wide { A.width + A.padding ≤ 130 }
    requires some { 0 < steps }
    requires steps { 6 * steps < A.width + A.padding }
    requires first { A.width + A.padding ≤ 6 * steps + 32 }
    requires near { near.old < length starts.now }
    requires upto { slice_index_or (map A.value starts.now) near.old 0 * 2 ^ A.padding ≤ block * 2 ^ (6 * steps) }
    requires until { (other : ℕ) → other < until.old → near.old + 1 < length starts.now
        → other < slice_index_or (map A.value starts.now) (near.old + 1) 0 * 2 ^ A.padding / 2 ^ (6 * steps) }
    requires block { (block + 1) * 2 ^ (6 * steps) ≤ 2 ^ (A.width + A.padding) }
    ensures near { near.new < length starts.now }
    ensures upto { slice_index_or (map A.value starts.now) near.new 0 * 2 ^ A.padding ≤ (block + 1) * 2 ^ (6 * steps) }
    ensures until { IfOk result (λ _. (other : ℕ) → other < until.new → near.new + 1 < length starts.now
        → other < slice_index_or (map A.value starts.now) (near.new + 1) 0 * 2 ^ A.padding / 2 ^ (6 * steps)) }
    ensures kept { S.given sink.new ≡ S.given sink.old }
    ensures stopped { OnErr result ((entry : ℕ) (after : List ℕ)
        → IsEntry (IsAnswer A.width A.padding (key_networks A.value keys.now)) steps block (S.put sink.old) entry after
        → StopsBefore (S.put sink.new) (S.refuses sink.new) after) }
    ensures many { IfErr result (λ stop. stop ≡ Stop.TooMany → 2 ^ 30 ≤ length (S.put sink.new)) }
    ensures entry { IfOk result (λ entry. IsEntry (IsAnswer A.width A.padding (key_networks A.value keys.now)) steps block (S.put sink.old) entry (S.put sink.new)) }
{
    if block < *until {
        return Ok(answers[*near]);
    }
    let entry = entry_of(keys, starts, answers, sink, steps, u128::from(block), near)?;
    *until = block_of_next(starts, *near, steps);
    Ok(entry)
}

/// The block in which the next range begins, or a number above all, where none does.
#[inline(always)]
fn block_of_next<A: Address>(starts: &[A], range: usize, steps: u32) -> u64
    requires range { range < length starts.now }
    requires wide { A.width + A.padding ≤ 130 }
    requires steps { 6 * steps < A.width + A.padding }
    requires first { A.width + A.padding ≤ 6 * steps + 32 }
    ensures { range + 1 < length starts.now → result ≡ slice_index_or (map A.value starts.now) (range + 1) 0 * 2 ^ A.padding / 2 ^ (6 * steps) }
{
    let next = range + 1;
    if next == starts.len() {
        return u64::MAX;
    }
    starts[next].block(6 * steps) as u64
}

/// The entry of a block of 64^steps numbers. The words of its nodes and lists are put behind those that were put. `near` is
/// a range that begins at most with the first number, and then the last such range. The keys, whose ranges these are, are
/// for the contract.
pub(crate) fn entry_of<A: Address, S: Sink>(
    keys: &[Key<A>],
    starts: &[A],
    answers: &[u32],
    sink: &mut S,
    steps: u32,
    block: u128,
    near: &mut usize,
) -> Result<u32, Stop>
    requires keys { AreAscendingNetworks A.width (key_networks A.value keys.now) }
    requires ranges { AreMatchRanges A.width (key_networks A.value keys.now) (map A.value starts.now) answers.now }
    requires few { length keys.now < 2 ^ 31 }
    requires wide { A.width + A.padding ≤ 130 }
    requires some { 0 < steps }
    requires steps { 6 * steps < A.width + A.padding }
    requires near { near.old < length starts.now }
    requires upto { slice_index_or (map A.value starts.now) near.old 0 * 2 ^ A.padding ≤ block * 2 ^ (6 * steps) }
    requires block { (block + 1) * 2 ^ (6 * steps) ≤ 2 ^ (A.width + A.padding) }
    ensures near { near.new < length starts.now }
    ensures upto { slice_index_or (map A.value starts.now) near.new 0 * 2 ^ A.padding ≤ (block + 1) * 2 ^ (6 * steps) }
    ensures kept { S.given sink.new ≡ S.given sink.old }
    ensures stopped { OnErr result ((entry : ℕ) (after : List ℕ)
        → IsEntry (IsAnswer A.width A.padding (key_networks A.value keys.now)) steps block (S.put sink.old) entry after
        → StopsBefore (S.put sink.new) (S.refuses sink.new) after) }
    ensures many { IfErr result (λ stop. stop ≡ Stop.TooMany → 2 ^ 30 ≤ length (S.put sink.new)) }
    ensures entry { IfOk result (λ entry. IsEntry (IsAnswer A.width A.padding (key_networks A.value keys.now)) steps block (S.put sink.old) entry (S.put sink.new)) }
{
    *near = last_upto(starts, *near, steps, block, 0);
    if is_whole(starts, *near, steps, block) {
        return Ok(answers[*near]);
    }
    if let Some(count) = changes_in(keys, starts, answers, steps, block, *near) {
        return put_listed(keys, starts, answers, sink, steps, block, *near, count);
    }
    let mut runs = Runs::new();
    let mut part = 0;
    loop {
        part = add_whole(keys, starts, answers, &mut runs, steps, block, part, near);
        if part >= PARTS {
            break;
        }
        let child = block * PARTS as u128 + part as u128;
        let entry = entry_of(keys, starts, answers, sink, steps - 1, child, near)?;
        runs.add(part, part + 1, entry);
        part += 1;
    }
    let index = sink.len();
    if index >= MOST_WORDS {
        return Err(Stop::TooMany);
    }
    put_node(&runs, sink)?;
    Ok(PLACE + 2 * index as u32)
}

/// How many changes the list of a block has, or `None` where it has no list. `range` is the last that begins at most with
/// the first number, and another begins behind it. The rest is as in `entry_of`.
fn changes_in<A: Address>(
    keys: &[Key<A>],
    starts: &[A],
    answers: &[u32],
    steps: u32,
    block: u128,
    range: usize,
) -> Option<usize>
    requires keys { AreAscendingNetworks A.width (key_networks A.value keys.now) }
    requires ranges { AreMatchRanges A.width (key_networks A.value keys.now) (map A.value starts.now) answers.now }
    requires few { length keys.now < 2 ^ 31 }
    requires wide { A.width + A.padding ≤ 130 }
    requires some { 0 < steps }
    requires steps { 6 * steps < A.width + A.padding }
    requires block { (block + 1) * 2 ^ (6 * steps) ≤ 2 ^ (A.width + A.padding) }
    requires more { range + 1 < length starts.now }
    requires upto { slice_index_or (map A.value starts.now) range 0 * 2 ^ A.padding ≤ block * 2 ^ (6 * steps) }
    requires next { block * 2 ^ (6 * steps) < slice_index_or (map A.value starts.now) (range + 1) 0 * 2 ^ A.padding }
    requires inner { slice_index_or (map A.value starts.now) (range + 1) 0 * 2 ^ A.padding / 2 ^ (6 * steps) ≤ block }
    ensures some { IfSome result (λ count. (range + count < length starts.now) × HasList (IsAnswer A.width A.padding (key_networks A.value keys.now)) steps block
        (slice_index_or answers.now range 0) (changes_from A.padding (map A.value starts.now) answers.now (range + 1) count)) }
    ensures none { IfNone result (¬ ((value : ℕ) × (changes : List (ℕ × ℕ)) × HasList (IsAnswer A.width A.padding (key_networks A.value keys.now)) steps block value changes)) }
{
    if steps > MOST_LIST_STEPS {
        return None;
    }
    let mut count = 0;
    while !is_whole(starts, range + count, steps, block) {
        count += 1;
        if count > MOST_CHANGES {
            return None;
        }
        if rest_of(starts, range + count) != 0 {
            return None;
        }
    }
    Some(count)
}

/// Puts the list of a block, and returns its entry. It has the changes to so many ranges behind `range`.
fn put_listed<A: Address, S: Sink>(
    keys: &[Key<A>],
    starts: &[A],
    answers: &[u32],
    sink: &mut S,
    steps: u32,
    block: u128,
    range: usize,
    count: usize,
) -> Result<u32, Stop>
    requires keys { AreAscendingNetworks A.width (key_networks A.value keys.now) }
    requires some { 0 < steps }
    requires both { length answers.now ≡ length starts.now }
    requires within { range + count < length starts.now }
    requires list { HasList (IsAnswer A.width A.padding (key_networks A.value keys.now)) steps block
        (slice_index_or answers.now range 0) (changes_from A.padding (map A.value starts.now) answers.now (range + 1) count) }
    ensures kept { S.given sink.new ≡ S.given sink.old }
    ensures stopped { OnErr result ((entry : ℕ) (after : List ℕ)
        → IsEntry (IsAnswer A.width A.padding (key_networks A.value keys.now)) steps block (S.put sink.old) entry after
        → StopsBefore (S.put sink.new) (S.refuses sink.new) after) }
    ensures many { IfErr result (λ stop. stop ≡ Stop.TooMany → 2 ^ 30 ≤ length (S.put sink.new)) }
    ensures entry { IfOk result (λ entry. IsEntry (IsAnswer A.width A.padding (key_networks A.value keys.now)) steps block (S.put sink.old) entry (S.put sink.new)) }
{
    let index = sink.len();
    if index >= MOST_WORDS {
        return Err(Stop::TooMany);
    }
    put_list(starts, answers, range, count, sink)?;
    Ok(PLACE + 2 * index as u32 + 1)
}

/// Adds the values of parts from one on, up to the first in which a range begins, which is returned, or the number of parts.
/// `near` is a range that begins at most with the first of them, and the rest as in `entry_of`.
#[inline(always)]
fn add_whole<A: Address>(
    keys: &[Key<A>],
    starts: &[A],
    answers: &[u32],
    runs: &mut Runs,
    steps: u32,
    block: u128,
    from: usize,
    near: &mut usize,
) -> usize
    requires ranges { AreMatchRanges A.width (key_networks A.value keys.now) (map A.value starts.now) answers.now }
    requires few { length keys.now < 2 ^ 31 }
    requires wide { A.width + A.padding ≤ 130 }
    requires some { 0 < steps }
    requires steps { 6 * steps < A.width + A.padding }
    requires from { from ≤ 64 }
    requires near { near.old < length starts.now }
    requires upto { slice_index_or (map A.value starts.now) near.old 0 * 2 ^ A.padding ≤ (block * 64 + from) * 2 ^ (6 * (steps - 1)) }
    requires block { (block + 1) * 2 ^ (6 * steps) ≤ 2 ^ (A.width + A.padding) }
    requires runs { (entries : List ℕ) × AreRuns entries from runs.old.marks runs.old.entries runs.old.count }
    ensures from { from ≤ result }
    ensures parts { result ≤ 64 }
    ensures near { near.new < length starts.now }
    ensures upto { slice_index_or (map A.value starts.now) near.new 0 * 2 ^ A.padding ≤ (block * 64 + result) * 2 ^ (6 * (steps - 1)) }
    ensures deeper { result < 64 → 1 < steps }
    ensures runs { (before : List ℕ) → AreRuns before from runs.old.marks runs.old.entries runs.old.count
        → (entries : List ℕ) × AreRuns entries result runs.new.marks runs.new.entries runs.new.count
        × ((i : ℕ) → i < from → slice_index_or entries i 0 ≡ slice_index_or before i 0)
        × ((i : ℕ) → from ≤ i → i < result
        → AllHave (IsAnswer A.width A.padding (key_networks A.value keys.now)) (steps - 1) (block * 64 + i) (slice_index_or entries i 0)) }
{
    let mut part = from;
    let mut range = *near;
    while part < PARTS {
        range = last_upto(starts, range, steps, block, part);
        let end = part_of_next(starts, range, steps, block);
        if end <= part {
            *near = range;
            return part;
        }
        runs.add(part, end, answers[range]);
        part = end;
    }
    *near = range;
    part
}

/// The part of a block in which the next range begins, or the number of parts, where it begins behind the block or none does.
#[inline(always)]
fn part_of_next<A: Address>(starts: &[A], range: usize, steps: u32, block: u128) -> usize
    requires range { range < length starts.now }
    requires some { 0 < steps }
    requires wide { A.width + A.padding ≤ 130 }
    requires steps { 6 * steps < A.width + A.padding }
    requires behind { range + 1 < length starts.now → block * 2 ^ (6 * steps) ≤ slice_index_or (map A.value starts.now) (range + 1) 0 * 2 ^ A.padding }
    ensures parts { result ≤ 64 }
    ensures before { (part : ℕ) → part < result → range + 1 < length starts.now
        → block * 64 + part < slice_index_or (map A.value starts.now) (range + 1) 0 * 2 ^ A.padding / 2 ^ (6 * (steps - 1)) }
    ensures inner { result < 64 → (range + 1 < length starts.now)
        × (slice_index_or (map A.value starts.now) (range + 1) 0 * 2 ^ A.padding / 2 ^ (6 * (steps - 1)) ≡ block * 64 + result) }
{
    if is_whole(starts, range, steps, block) {
        return PARTS;
    }
    part_of(starts, range + 1, steps)
}

/// The part of its block in which a range begins.
#[inline(always)]
fn part_of<A: Address>(starts: &[A], range: usize, steps: u32) -> usize
    requires range { range < length starts.now }
    requires some { 0 < steps }
    requires wide { A.width + A.padding ≤ 130 }
    requires steps { 6 * steps < A.width + A.padding }
    ensures { result ≡ slice_index_or (map A.value starts.now) range 0 * 2 ^ A.padding / 2 ^ (6 * (steps - 1)) % 64 }
{
    let number = starts[range].number();
    if steps == 1 {
        return (((number % 64) << A::padding()) % 64) as usize;
    }
    ((number >> (6 * (steps - 1) - A::padding())) % 64) as usize
}

/// The last range that begins at most with the first number of a part of a block, from one on that does.
#[inline(always)]
fn last_upto<A: Address>(starts: &[A], from: usize, steps: u32, block: u128, part: usize) -> usize
    requires some { 0 < steps }
    requires wide { A.width + A.padding ≤ 130 }
    requires steps { 6 * steps < A.width + A.padding }
    requires part { part < 64 }
    requires block { (block + 1) * 2 ^ (6 * steps) ≤ 2 ^ (A.width + A.padding) }
    requires from { from < length starts.now }
    requires upto { slice_index_or (map A.value starts.now) from 0 * 2 ^ A.padding ≤ (block * 64 + part) * 2 ^ (6 * (steps - 1)) }
    ensures within { result < length starts.now }
    ensures upto { slice_index_or (map A.value starts.now) result 0 * 2 ^ A.padding ≤ (block * 64 + part) * 2 ^ (6 * (steps - 1)) }
    ensures next { result + 1 < length starts.now
        → (block * 64 + part) * 2 ^ (6 * (steps - 1)) < slice_index_or (map A.value starts.now) (result + 1) 0 * 2 ^ A.padding }
{
    let number = first_of::<A>(steps, block, part);
    let mut range = from;
    while range + 1 < starts.len() {
        if starts[range + 1].number() > number {
            return range;
        }
        range += 1;
    }
    range
}

/// The address with which a part of a block begins.
#[inline(always)]
fn first_of<A: Address>(steps: u32, block: u128, part: usize) -> u128
    requires some { 0 < steps }
    requires wide { A.width + A.padding ≤ 130 }
    requires steps { 6 * steps < A.width + A.padding }
    requires part { part < 64 }
    requires block { (block + 1) * 2 ^ (6 * steps) ≤ 2 ^ (A.width + A.padding) }
    ensures { result ≡ (block * 64 + part) * 2 ^ (6 * (steps - 1)) / 2 ^ A.padding }
{
    A::width();
    let within = (part as u128) << (6 * (steps - 1));
    (block << (6 * steps - A::padding())) + (within >> A::padding())
}

/// Whether no later range begins in a block.
#[inline(always)]
fn is_whole<A: Address>(starts: &[A], range: usize, steps: u32, block: u128) -> bool
    requires range { range < length starts.now }
    requires some { 0 < steps }
    requires wide { A.width + A.padding ≤ 130 }
    requires steps { 6 * steps < A.width + A.padding }
    ensures { IsTrue result ↔ (range + 1 < length starts.now → block < slice_index_or (map A.value starts.now) (range + 1) 0 * 2 ^ A.padding / 2 ^ (6 * steps)) }
{
    let next = range + 1;
    if next == starts.len() {
        return true;
    }
    starts[next].number() >> (6 * steps - A::padding()) > block
}

/// How far a range begins behind a multiple of 2^82.
#[inline(always)]
fn rest_of<A: Address>(starts: &[A], range: usize) -> u128
    requires { range < length starts.now }
    ensures { result * 2 ^ A.padding ≡ slice_index_or (map A.value starts.now) range 0 * 2 ^ A.padding % 2 ^ 82 }
{
    starts[range].number() % (1 << (82 - A::padding()))
}
