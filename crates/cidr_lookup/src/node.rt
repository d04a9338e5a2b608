//! The words of a node.
ghost use Rattle.std.specs.Prelude.{◌≡◌, [], ◌++◌, ◌∷◌, ◌/◌, ◌%◌, ◌^◌, ◌<◌, ◌≤◌, ◌-◌, ℕ, List, length, replicate, take, IfErr, OnErr, OnOk};
ghost use Rattle.cidr_lookup.specs.Putting.{AreRuns, StopsBefore};

use crate::words::{Sink, Stop};

/// How many parts a node has.
pub(crate) const PARTS: usize = 64;

/// The runs of the first parts of a node.
#[derive(Drop)]
pub(crate) struct Runs {
    /// A mark for each part, the first the highest bit: whether it begins a run.
    pub(crate) marks: u64,
    /// The entry of each run, and behind them zeros.
    pub(crate) entries: [u32; PARTS],
    /// How many runs there are.
    pub(crate) count: usize,
}

impl Runs {
    /// Those of no part.
    #[inline(always)]
    pub(crate) fn new() -> Runs
        ensures { AreRuns [] 0 result.marks result.entries result.count }
    {
        Runs {
            marks: 0,
            entries: [0; PARTS],
            count: 0,
        }
    }

    /// Adds the parts from one on before another, all of which have one entry.
    #[inline(always)]
    pub(crate) fn add(&mut self, from: usize, _end: usize, entry: u32)
        requires some { from < _end }
        requires parts { _end ≤ 64 }
        requires runs { (entries : List ℕ) × AreRuns entries from self.old.marks self.old.entries self.old.count }
        ensures { (entries : List ℕ) → AreRuns entries from self.old.marks self.old.entries self.old.count
            → AreRuns (entries ++ replicate (_end - from) entry) _end self.new.marks self.new.entries self.new.count }
    {
        if from > 0 && self.entries[self.count - 1] == entry {
            return;
        }
        self.marks += 1 << (63 - from);
        self.entries[self.count] = entry;
        self.count += 1;
    }
}

/// Puts the words of a node: its marks and the entries of its runs.
pub(crate) fn put_node<S: Sink>(runs: &Runs, sink: &mut S) -> Result<(), Stop>
    requires { runs.now.count ≤ 64 }
    ensures kept { S.given sink.new ≡ S.given sink.old }
    ensures put { OnOk result (S.put sink.new ≡ S.put sink.old ++ runs.now.marks % 2 ^ 32 ∷ runs.now.marks / 2 ^ 32 ∷ take runs.now.count runs.now.entries) }
    ensures stopped { OnErr result (StopsBefore (S.put sink.new) (S.refuses sink.new)
        (S.put sink.old ++ runs.now.marks % 2 ^ 32 ∷ runs.now.marks / 2 ^ 32 ∷ take runs.now.count runs.now.entries)) }
    ensures only { IfErr result (λ stop. stop ≡ Stop.Refused) }
{
    sink.push((runs.marks % (1 << 32)) as u32)?;
    sink.push((runs.marks >> 32) as u32)?;
    put_words(&runs.entries, runs.count, sink)
}

/// Puts the first words of an array, so many.
fn put_words<S: Sink>(words: &[u32], count: usize, sink: &mut S) -> Result<(), Stop>
    requires { count ≤ length words.now }
    ensures kept { S.given sink.new ≡ S.given sink.old }
    ensures put { OnOk result (S.put sink.new ≡ S.put sink.old ++ take count words.now) }
    ensures stopped { OnErr result (StopsBefore (S.put sink.new) (S.refuses sink.new) (S.put sink.old ++ take count words.now)) }
    ensures only { IfErr result (λ stop. stop ≡ Stop.Refused) }
{
    for at in 0..count {
        sink.push(words[at])?;
    }
    Ok(())
}
