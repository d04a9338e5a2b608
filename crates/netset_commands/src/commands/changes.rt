//! What a second list adds to a first one, and what it lacks.
ghost use Rattle.std.specs.Prelude.{◌≡◌, [], IfErr};
ghost use Rattle.std.specs.List.{flat_map};
ghost use Rattle.cidr_io.specs.Writing.{Answered, Writes};
ghost use Rattle.netset_commands.specs.Answering.{AreSame, changed};
ghost use Rattle.cidr_lists.specs.Changes.{change_layout_in, change_line, merged, printed_changes};
ghost use Rattle.cidr_lists.specs.Formats.{family_by};
ghost use Rattle.cidr_io.specs.Collecting.{Collects};
ghost use Rattle.netset_commands.specs.Causes.{Cause, FileFails};
ghost use Rattle.netset_commands.specs.Changing.{TellsChanges};
ghost use Rattle.netset_commands.specs.Commands.{Diff};
ghost use Rattle.netset_commands.specs.Program.{AnswersRequest};

use crate::errors::CommandError;
use crate::input::files::Sources;
use crate::input::several::read_file;
use crate::output::answers::{Verdict, by_output};
use cidr::{Family, FamilyCidr};
use cidr_io::block::Block;
use cidr_io::memory::Memory;
use cidr_io::sink::{OutputFailed, Sink};
use cidr_io::writing::flush;
use cidr_lists::changes::{ChangeLayout, Changes, Sign, change_layout, sign_text};
use cidr_lists::formats::{LineFormat, written};
use cidr_lists::sets::{Sets, Step};

/// Appends a network with its sign to a block, as a line.
fn push_change<C: FamilyCidr, S: Sink>(
    block: &mut Block,
    out: &mut S,
    layout: ChangeLayout<'static>,
    change: (Sign, C),
) -> Result<(), OutputFailed>
    ensures { Collects (S.state out.old) (S.state out.new) block.old block.new
        (change_line (family_by C.FAMILY C.bits) (change_layout_in layout.entry) change) result }
{
    let text = written(&change.1, layout.notation);
    block.push_line(
        out,
        &[
            layout.before.as_bytes(),
            sign_text(change.0).as_bytes(),
            layout.between.as_bytes(),
            text.as_str().as_bytes(),
            layout.behind.as_bytes(),
            b"\n",
        ],
    )
}

/// Writes the networks of two lists in blocks, each with its sign, one a line.
fn write_changes<C: FamilyCidr, S: Sink>(
    out: &mut S,
    layout: ChangeLayout<'static>,
    added: &[C],
    lacking: &[C],
) -> Result<(), OutputFailed>
    ensures { Writes (S.state out.old) (S.state out.new)
        (flat_map (change_line (family_by C.FAMILY C.bits) (change_layout_in layout.entry)) (merged C.bits added.now lacking.now)) result }
{
    let mut changes = Changes { added, lacking };
    let mut block = Block::new();
    while let Some(change) = changes.next() {
        push_change(&mut block, out, layout, change)?;
    }
    block.write(out)
}

/// Writes what is added and what is lacking, one a line. An output that has failed before gets nothing.
fn write_both<S: Sink>(
    out: &mut S,
    format: LineFormat,
    added: &Sets,
    lacking: &Sets,
) -> Result<(), OutputFailed>
    ensures { Answered (S.state out.old) (S.state out.new) (printed_changes format (changed added.now lacking.now)) result }
{
    if out.failed() {
        return Err(OutputFailed);
    }
    let ipv4 = change_layout(format, Family::Ipv4);
    write_changes(out, ipv4, added.v4.as_slice(), lacking.v4.as_slice())?;
    let ipv6 = change_layout(format, Family::Ipv6);
    write_changes(out, ipv6, added.v6.as_slice(), lacking.v6.as_slice())?;
    flush(out)
}

/// Yes where nothing is added and nothing lacking.
fn verdict_of(added: &Sets, lacking: &Sets) -> Verdict
    ensures { AreSame (changed added.now lacking.now) result }
{
    if added.is_empty() && lacking.is_empty() {
        Verdict::Yes
    } else {
        Verdict::No
    }
}

/// Tells what a set adds to another one, and what it lacks.
pub(crate) fn tell_changes<'a, M: Memory, S: Sink>(
    memory: &mut M,
    format: LineFormat,
    before: &Sets,
    after: &Sets,
    out: &mut S,
) -> Result<Verdict, CommandError<'a>>
    ensures { TellsChanges format before.now after.now (M.refused memory.new) (S.state out.old) (S.state out.new) result }
{
    let added = after.stepped(Step::Difference, before);
    let added = memory.watch(added)?;
    let lacking = before.stepped(Step::Difference, after);
    let lacking = memory.watch(lacking)?;
    by_output(
        verdict_of(&added, &lacking),
        write_both(out, format, &added, &lacking),
    )
}

/// The command `diff`.
pub fn diff<'a, M: Memory, F: Sources, O: Sink>(
    memory: &mut M,
    sources: &F,
    format: LineFormat,
    old: &'a str,
    new: &'a str,
    out: &mut O,
) -> Result<Verdict, CommandError<'a>>
    ensures answers { AnswersRequest (F.contents sources.now) (Diff format old.now new.now) (O.state out.old) (O.state out.new) result }
    ensures cause { IfErr result (Cause (FileFails (F.contents sources.now) (F.reasons sources.now)) (M.refused memory.new)) }
{
    let before = read_file(memory, sources, old)?;
    let after = read_file(memory, sources, new)?;
    tell_changes(memory, format, &before, &after, out)
}
