//! The words of a list.
ghost use Rattle.std.specs.Prelude.{◌≡◌, ℕ, ◌+◌, ◌*◌, ◌/◌, ◌%◌, ◌^◌, ◌<◌, ◌≤◌, ◌++◌, ◌∷◌, List, length, map, slice_index_or, IfErr, OnErr, OnOk};
ghost use Rattle.cidr_lookup.specs.Nodes.{list};
ghost use Rattle.cidr_lookup.specs.Searching.{change_word};
ghost use Rattle.cidr_lookup.specs.Putting.{StopsBefore};
ghost use Rattle.cidr_lookup.specs.Ranges.{changes_from};

use crate::address::Address;
use crate::words::{Sink, Stop};

/// The most changes that a list may have.
pub(crate) const MOST_CHANGES: usize = 31;

/// How many steps may be left for the addresses of a list, so that those have the bits before its words in common.
pub(crate) const MOST_LIST_STEPS: u32 = 19;

/// Puts the words of a list: the answer of a range, and the changes to so many ranges behind it.
pub(crate) fn put_list<A: Address, S: Sink>(
    starts: &[A],
    answers: &[u32],
    range: usize,
    count: usize,
    sink: &mut S,
) -> Result<(), Stop>
    requires within { range + count < length starts.now }
    requires both { length answers.now ≡ length starts.now }
    requires few { count < 32 }
    ensures kept { S.given sink.new ≡ S.given sink.old }
    ensures put { OnOk result (S.put sink.new ≡ S.put sink.old ++ list (slice_index_or answers.now range 0) (changes_from A.padding (map A.value starts.now) answers.now (range + 1) count)) }
    ensures stopped { OnErr result (StopsBefore (S.put sink.new) (S.refuses sink.new) (S.put sink.old ++ list (slice_index_or answers.now range 0) (changes_from A.padding (map A.value starts.now) answers.now (range + 1) count))) }
    ensures only { IfErr result (λ stop. stop ≡ Stop.Refused) }
{
    sink.push(count as u32)?;
    put_starts(starts, answers, range + 1, count, sink)?;
    sink.push(answers[range])?;
    put_answers(starts, answers, range + 1, count, sink)
}

/// Puts where so many ranges begin, from one on. The answers are for the contract.
fn put_starts<A: Address, S: Sink>(
    starts: &[A],
    answers: &[u32],
    from: usize,
    count: usize,
    sink: &mut S,
) -> Result<(), Stop>
    requires within { from + count ≤ length starts.now }
    ensures kept { S.given sink.new ≡ S.given sink.old }
    ensures put { OnOk result (S.put sink.new ≡ S.put sink.old ++ map change_word (changes_from A.padding (map A.value starts.now) answers.now from count)) }
    ensures stopped { OnErr result (StopsBefore (S.put sink.new) (S.refuses sink.new) (S.put sink.old ++ map change_word (changes_from A.padding (map A.value starts.now) answers.now from count))) }
    ensures only { IfErr result (λ stop. stop ≡ Stop.Refused) }
{
    for at in 0..count {
        sink.push(word_of(starts, from + at))?;
    }
    Ok(())
}

/// Puts the answers of so many ranges, from one on. The starts are for the contract.
fn put_answers<A: Address, S: Sink>(
    starts: &[A],
    answers: &[u32],
    from: usize,
    count: usize,
    sink: &mut S,
) -> Result<(), Stop>
    requires within { from + count ≤ length answers.now }
    ensures kept { S.given sink.new ≡ S.given sink.old }
    ensures put { OnOk result (S.put sink.new ≡ S.put sink.old ++ map (λ (change : ℕ × ℕ). change.1) (changes_from A.padding (map A.value starts.now) answers.now from count)) }
    ensures stopped { OnErr result (StopsBefore (S.put sink.new) (S.refuses sink.new) (S.put sink.old ++ map (λ (change : ℕ × ℕ). change.1) (changes_from A.padding (map A.value starts.now) answers.now from count))) }
    ensures only { IfErr result (λ stop. stop ≡ Stop.Refused) }
{
    for at in 0..count {
        sink.push(answers[from + at])?;
    }
    Ok(())
}

/// The word of the change to a range.
fn word_of<A: Address>(starts: &[A], range: usize) -> u32
    requires { range < length starts.now }
    ensures { result ≡ slice_index_or (map A.value starts.now) range 0 * 2 ^ A.padding / 2 ^ 82 % 2 ^ 32 }
{
    starts[range].list_word()
}
