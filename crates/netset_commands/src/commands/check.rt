//! The command `check`.
ghost use Rattle.std.specs.Prelude.{◌≡◌, ◌++◌, ◌<◌, ◌+◌, ◌*◌, IfErr, codes, length, map, ℕ};
ghost use Rattle.std.specs.List.{flat_map};
ghost use Rattle.cidr.specs.either.IpText.{ip_network_text};
ghost use Rattle.cidr.specs.texts.Printed.{plain_text};
ghost use Rattle.cidr_io.specs.Shown.{part_text, shown};
ghost use Rattle.cidr_io.specs.Writing.{State};
ghost use Rattle.cidr_io.specs.Collecting.{Collects};
ghost use Rattle.netset_commands.specs.Causes.{Cause, FileFails};
ghost use Rattle.netset_commands.specs.Commands.{Check};
ghost use Rattle.netset_commands.specs.Findings.{AnswersNotes, AreNoted, NotesAll, NotesOn};
ghost use Rattle.cidr_lists.specs.Findings.{entry_network, kind_rank, note_line};
ghost use Rattle.cidr_lists.specs.Nearness.{AreNear};
ghost use Rattle.netset_commands.specs.Program.{AnswersRequest};

use crate::errors::CommandError;
use crate::input::entries::read_entries;
use crate::input::files::Sources;
use crate::output::answers::Verdict;
use arrayvec::ArrayString;
use cidr::IpCidr;
use cidr_io::block::Block;
use cidr_io::decimal::decimal_text;
use cidr_io::memory::Memory;
use cidr_io::shown::MessagePart;
use cidr_io::sink::{OutputFailed, Sink};
use cidr_lists::entries::{Entry, entry_at};
use cidr_lists::findings::{Finding, FindingKind, Note, find};
use cidr_lists::near::{Near, near_at, near_lines};

/// The parts of the line of a finding: its place and what is found.
pub fn found_parts<'a>(
    file: &'a str,
    number: &'a str,
    words: &'a str,
    text: &'a str,
) -> [MessagePart<'a>; 6]
    ensures { flat_map part_text result ≡ shown file.now ++ (codes ":" ++ (number.now ++ (words.now ++ (text.now ++ codes "\n")))) }
{
    let colon: &'a str = ":";
    let end: &'a str = "\n";
    [
        MessagePart::Shown(file),
        MessagePart::Plain(colon),
        MessagePart::Plain(number),
        MessagePart::Plain(words),
        MessagePart::Plain(text),
        MessagePart::Plain(end),
    ]
}

/// The same of a finding that names another place.
fn placed_parts<'a>(
    file: &'a str,
    number: &'a str,
    words: &'a str,
    other: &'a str,
    line: &'a str,
) -> [MessagePart<'a>; 8]
    ensures { flat_map part_text result ≡ shown file.now ++ (codes ":" ++ (number.now
        ++ (words.now ++ (shown other.now ++ (codes ":" ++ (line.now ++ codes "\n")))))) }
{
    let colon: &'a str = ":";
    let end: &'a str = "\n";
    [
        MessagePart::Shown(file),
        MessagePart::Plain(colon),
        MessagePart::Plain(number),
        MessagePart::Plain(words),
        MessagePart::Shown(other),
        MessagePart::Plain(colon),
        MessagePart::Plain(line),
        MessagePart::Plain(end),
    ]
}

/// The words in front of the place of a network around another one.
fn inside_words(outer: &IpCidr) -> ArrayString<56>
    ensures { result.bytes ≡ codes ": inside " ++ (ip_network_text plain_text outer.now ++ codes " at ") }
{
    let mut words = ArrayString::new();
    words.push_str(": inside ");
    words.push_str(outer.to_text().as_str());
    words.push_str(" at ");
    words
}

/// Appends a finding to a block, as a line.
fn push_note<S: Sink>(block: &mut Block, out: &mut S, note: &Note<'_>) -> Result<(), OutputFailed>
    ensures { Collects (S.state out.old) (S.state out.new) block.old block.new (note_line note.now) result }
{
    let file = note.place.file;
    let digits = decimal_text(u128::from(note.place.number));
    let number = digits.as_str();
    match &note.finding {
        Finding::HostBits => {
            let parts = found_parts(file, number, ": host bits set", "");
            block.push_message(out, &parts)
        }
        Finding::NotCanonical(host) => {
            let text = host.to_text();
            let parts = found_parts(file, number, ": not in canonical form: ", text.as_str());
            block.push_message(out, &parts)
        }
        Finding::Repeats(place) => {
            let line = decimal_text(u128::from(place.number));
            let parts = placed_parts(file, number, ": repeats ", place.file, line.as_str());
            block.push_message(out, &parts)
        }
        Finding::Inside(outer, place) => {
            let line = decimal_text(u128::from(place.number));
            let words = inside_words(outer);
            let parts = placed_parts(file, number, words.as_str(), place.file, line.as_str());
            block.push_message(out, &parts)
        }
        Finding::Mergeable(place) => {
            let line = decimal_text(u128::from(place.number));
            let parts = placed_parts(file, number, ": mergeable with ", place.file, line.as_str());
            block.push_message(out, &parts)
        }
    }
}

/// The findings that are told so far.
#[derive(Drop)]
struct Messages {
    /// The lines that are not written yet.
    block: Block,
    /// Yes where nothing is found.
    verdict: Verdict,
}

/// Tells the finding of a kind in a line, if there is one.
fn tell<S: Sink>(
    messages: &mut Messages,
    out: &mut S,
    entries: &[Entry<'_>],
    near: &[Near],
    index: usize,
    kind: FindingKind,
) -> Result<(), OutputFailed>
    requires near { AreNear (map entry_network entries.now) near.now }
    requires within { index < length entries.now }
    ensures { (start : State) (bound : ℕ) → bound ≡ index * 5 + kind_rank kind
        → AreNoted entries.now bound start (S.state out.old) messages.old.block messages.old.verdict
        → NotesOn entries.now (bound + 1) start (S.state out.new) messages.new.block messages.new.verdict result }
{
    let entry = entry_at(entries, index);
    let Some(note) = find(kind, entries, near_at(near, entries, index), index, entry) else {
        return Ok(());
    };
    messages.verdict = Verdict::No;
    push_note(&mut messages.block, out, &note)
}

/// Tells the findings of a line.
fn tell_line<S: Sink>(
    messages: &mut Messages,
    out: &mut S,
    entries: &[Entry<'_>],
    near: &[Near],
    index: usize,
) -> Result<(), OutputFailed>
    requires near { AreNear (map entry_network entries.now) near.now }
    requires within { index < length entries.now }
    ensures { (start : State)
        → AreNoted entries.now (index * 5) start (S.state out.old) messages.old.block messages.old.verdict
        → NotesOn entries.now (index * 5 + 5) start (S.state out.new) messages.new.block messages.new.verdict result }
{
    tell(messages, out, entries, near, index, FindingKind::HostBits)?;
    tell(messages, out, entries, near, index, FindingKind::Form)?;
    tell(messages, out, entries, near, index, FindingKind::Same)?;
    tell(messages, out, entries, near, index, FindingKind::Outer)?;
    tell(messages, out, entries, near, index, FindingKind::Half)
}

/// Writes the findings of all lines in blocks, one a line, and flushes.
fn tell_all<S: Sink>(
    out: &mut S,
    entries: &[Entry<'_>],
    near: &[Near],
) -> Result<Verdict, OutputFailed>
    requires { AreNear (map entry_network entries.now) near.now }
    ensures { NotesAll entries.now (S.state out.old) (S.state out.new) result }
{
    let mut messages = Messages {
        block: Block::new(),
        verdict: Verdict::Yes,
    };
    for index in 0..entries.len() {
        tell_line(&mut messages, out, entries, near, index)?;
    }
    messages.block.flush(out)?;
    Ok(messages.verdict)
}

/// Writes the findings of all lines. An output that has failed before gets nothing.
fn answer<S: Sink>(
    out: &mut S,
    entries: &[Entry<'_>],
    near: &[Near],
) -> Result<Verdict, OutputFailed>
    requires { AreNear (map entry_network entries.now) near.now }
    ensures { AnswersNotes entries.now (S.state out.old) (S.state out.new) result }
{
    if out.failed() {
        return Err(OutputFailed);
    }
    tell_all(out, entries, near)
}

/// The command `check`.
pub fn check<'a, M: Memory, F: Sources, O: Sink>(
    memory: &mut M,
    sources: &F,
    files: &'a [&'a str],
    out: &mut O,
) -> Result<Verdict, CommandError<'a>>
    ensures answers { AnswersRequest (F.contents sources.now) (Check (map (λ file. file.now) files.now))
        (O.state out.old) (O.state out.new) result }
    ensures cause { IfErr result (Cause (FileFails (F.contents sources.now) (F.reasons sources.now)) (M.refused memory.new)) }
{
    let entries = read_entries(memory, sources, files)?;
    let near = near_lines(memory.alloc(), entries.as_slice());
    let near = memory.watch(near)?;
    match answer(out, entries.as_slice(), near.as_slice()) {
        Ok(verdict) => Ok(verdict),
        Err(_) => Err(CommandError::Output),
    }
}
