//! The ranges of addresses between which the longest match changes.
ghost use Rattle.std.specs.Prelude.{ℕ, ◌+◌, ◌*◌, ◌^◌, ◌<◌, ◌≤◌, List, length, map, take, IfOk, IfErr};
ghost use Rattle.cidr_lookup.specs.Keys.{AreAscendingNetworks, key_networks};
ghost use Rattle.cidr_lookup.specs.Passing.{AreSoFar, IsEdge, IsLastWithNumber, IsPut};
ghost use Rattle.cidr_lookup.specs.Ranges.{AreKeysRefused, AreMatchRanges};

use crate::address::Address;
use crate::key::{Key, first_refused};
use crate::pass::{goes_on, started};
use crate::table::TableError;
use std::alloc::Global;

/// The ranges of keys.
#[derive(Drop)]
pub(crate) struct Ranges<A> {
    /// The first address of each range.
    pub(crate) starts: Vec<A>,
    /// How many keys there are up to the longest that has the addresses of the range, or 0 where none has them.
    pub(crate) answers: Vec<u32>,
}

/// The ranges of keys that ascend, two passes over them. The ranges are unique: two side by side differ in their answers.
pub(crate) fn ranges_of<A: Address>(alloc: Global, keys: &[Key<A>]) -> Result<Ranges<A>, TableError>
    ensures few { IfOk result (λ _. length keys.now < 2 ^ 31) }
    ensures keys { IfOk result (λ _. AreAscendingNetworks A.width (key_networks A.value keys.now)) }
    ensures ranges { IfOk result (λ ranges. AreMatchRanges A.width (key_networks A.value keys.now) (map A.value ranges.starts.items) ranges.answers.items) }
    ensures refused { IfErr result (AreKeysRefused A.width (key_networks A.value keys.now)) }
{
    if keys.len() >= 1 << 31 {
        return Err(TableError::TooMany);
    }
    let most = 2 * keys.len() + 1;
    let Ok(mut starts) = vec![in alloc; A::of(0); most] else {
        return Err(TableError::NoMemory);
    };
    let Ok(mut answers) = vec![in alloc; 0; most] else {
        return Err(TableError::NoMemory);
    };
    if let Some(index) = first_refused(keys) {
        return Err(TableError::Refused(index));
    }
    let count = written(keys, starts.as_mut_slice(), answers.as_mut_slice());
    starts.truncate(count);
    answers.truncate(count);
    Ok(Ranges { starts, answers })
}

/// Writes the ranges, and returns how many there are.
fn written<A: Address>(keys: &[Key<A>], starts: &mut [A], answers: &mut [u32]) -> usize
    requires keys { AreAscendingNetworks A.width (key_networks A.value keys.now) }
    requires few { length keys.now < 2 ^ 31 }
    requires starts { 2 * length keys.now + 1 ≤ length starts.old }
    requires answers { 2 * length keys.now + 1 ≤ length answers.old }
    ensures room { result ≤ 2 * length keys.now + 1 }
    ensures ranges { AreMatchRanges A.width (key_networks A.value keys.now) (map A.value (take result starts.new)) (take result answers.new) }
{
    let mut pass = started(keys);
    let mut count = 0;
    loop {
        let start = pass.start;
        let answer = pass.ends[pass.depth - 1];
        if !goes_on(keys, &mut pass) {
            put(starts, answers, count, start, answer);
            return count + 1;
        }
        count = put_range(starts, answers, count, start, answer, pass.start);
    }
}

/// Writes a range, unless it is empty, and returns how many ranges there are then.
fn put_range<A: Address>(
    starts: &mut [A],
    answers: &mut [u32],
    count: usize,
    start: u128,
    answer: u32,
    end: u128,
) -> usize
    requires start { start < 2 ^ A.width }
    requires starts { count < length starts.old }
    requires answers { count < length answers.old }
    ensures room { result ≤ count + 1 }
    ensures ranges { (networks : List (ℕ × ℕ)) → AreAscendingNetworks A.width networks → (0 < start → IsEdge A.width networks start)
        → AreSoFar A.width networks (map A.value starts.old) answers.old count start → start ≤ end
        → ((address : ℕ) → start ≤ address → address < end → IsLastWithNumber A.width networks
        (length networks) address answer)
        → AreSoFar A.width networks (map A.value starts.new) answers.new result end }
{
    if end <= start {
        return count;
    }
    put(starts, answers, count, start, answer);
    count + 1
}

/// Writes a range.
fn put<A: Address>(starts: &mut [A], answers: &mut [u32], index: usize, start: u128, answer: u32)
    requires start { start < 2 ^ A.width }
    requires starts { index < length starts.old }
    requires answers { index < length answers.old }
    ensures starts { IsPut (map A.value starts.old) (map A.value starts.new) index start }
    ensures answers { IsPut answers.old answers.new index answer }
{
    starts[index] = A::of(start);
    answers[index] = answer;
}
