//! What access lists permit, which of their rules no address reaches, and how two of them differ.
ghost use Rattle.std.specs.Prelude.{◌≡◌, true, option_map, IfErr};
ghost use Rattle.netset_commands.specs.Acl.{ReadsPermitted, ReadsRules, rules_error};
ghost use Rattle.netset_commands.specs.Causes.{Cause, FileFails};
ghost use Rattle.netset_commands.specs.Command.{question_of};
ghost use Rattle.netset_commands.specs.Commands.{Acl};
ghost use Rattle.netset_commands.specs.Findings.{IsClean};
ghost use Rattle.netset_commands.specs.Program.{AnswersRequest};
ghost use Rattle.cidr_lists.specs.declared.errors.ListError.TheVariants.{NoMemory};
ghost use Rattle.cidr_lists.specs.Formats.{style_in};
ghost use Rattle.cidr_lists.specs.Rules.{Permitted as AsPermitted, Shadowed as AsShadowed, Compared as AsCompared};

use crate::commands::changes::tell_changes;
use crate::errors::CommandError;
use crate::input::begun::{begin_file, read_whole};
use crate::input::files::Sources;
use crate::output::answers::{Verdict, by_output};
use crate::output::sets::{write_by, write_bytes};
use cidr_io::memory::Memory;
use cidr_io::sink::Sink;
use cidr_lists::errors::ListError;
use cidr_lists::formats::{LineFormat, Style};
use cidr_lists::rules::Rules;
use cidr_lists::sets::Sets;
use std::alloc::AllocError;

/// What is asked of an access list.
#[derive(Clone, Copy)]
pub enum Question<'a> {
    /// The addresses that it permits, and how they are written, if that is told.
    Permitted(Option<Style<'a>>),
    /// The rules that no address reaches.
    Shadowed,
    /// What it permits and the list of this file does not, and the other way round, and how that is written.
    Compared(LineFormat, &'a str),
}

/// The error of reading the rules of a file.
fn unread<'a, M: Memory>(memory: &mut M, file: &'a str, error: ListError) -> CommandError<'a>
    ensures result { result ≡ rules_error file.entry error }
    ensures refused { error ≡ NoMemory → M.refused memory.new ≡ true }
{
    match error {
        ListError::Line(number, e) => CommandError::Line(file, number, e),
        ListError::NoMemory => {
            let _ = memory.watch::<()>(Err(AllocError));
            CommandError::NoMemory
        }
    }
}

/// The rules of a file. It is read whole.
fn read_rules<'a, M: Memory, F: Sources>(
    memory: &mut M,
    sources: &F,
    file: &'a str,
) -> Result<Rules, CommandError<'a>>
    ensures reads { ReadsRules (F.contents sources.now file.now) file.now result }
    ensures cause { IfErr result (Cause (FileFails (F.contents sources.now) (F.reasons sources.now)) (M.refused memory.new)) }
{
    let begun = begin_file(sources, file)?;
    let bytes = read_whole(memory, file, begun)?;
    match Rules::of_text(
        memory.alloc(),
        sources.list_form().host_bits(),
        bytes.as_slice(),
    ) {
        Ok(rules) => Ok(rules),
        Err(e) => Err(unread(memory, file, e)),
    }
}

/// The addresses that the rules of a file permit.
fn read_permitted<'a, M: Memory, F: Sources>(
    memory: &mut M,
    sources: &F,
    file: &'a str,
) -> Result<Sets, CommandError<'a>>
    ensures reads { ReadsPermitted (F.contents sources.now file.now) file.now result }
    ensures cause { IfErr result (Cause (FileFails (F.contents sources.now) (F.reasons sources.now)) (M.refused memory.new)) }
{
    let rules = read_rules(memory, sources, file)?;
    let sets = rules.permitted(memory.alloc());
    let sets = memory.watch(sets)?;
    Ok(sets)
}

/// Writes the addresses that the rules of a file permit.
fn permitted<'a, M: Memory, F: Sources, O: Sink>(
    memory: &mut M,
    sources: &F,
    style: Option<Style<'_>>,
    file: &'a str,
    out: &mut O,
) -> Result<Verdict, CommandError<'a>>
    ensures answers { AnswersRequest (F.contents sources.now) (Acl (AsPermitted (option_map (λ s. style_in s) style.entry)) file.now) (O.state out.old) (O.state out.new) result }
    ensures cause { IfErr result (Cause (FileFails (F.contents sources.now) (F.reasons sources.now)) (M.refused memory.new)) }
{
    let sets = read_permitted(memory, sources, file)?;
    write_by(memory, style, &sets, out)
}

/// Yes where nothing is told.
fn clean(text: &[u8]) -> Verdict
    ensures { IsClean text.now result }
{
    if text.is_empty() {
        Verdict::Yes
    } else {
        Verdict::No
    }
}

/// Tells the rules of a file that no address reaches.
fn shadowed<'a, M: Memory, F: Sources, O: Sink>(
    memory: &mut M,
    sources: &F,
    file: &'a str,
    out: &mut O,
) -> Result<Verdict, CommandError<'a>>
    ensures answers { AnswersRequest (F.contents sources.now) (Acl AsShadowed file.now) (O.state out.old) (O.state out.new) result }
    ensures cause { IfErr result (Cause (FileFails (F.contents sources.now) (F.reasons sources.now)) (M.refused memory.new)) }
{
    let rules = read_rules(memory, sources, file)?;
    let text = rules.to_shadow_lines(memory.alloc(), file);
    let text = memory.watch(text)?;
    by_output(clean(text.as_slice()), write_bytes(out, text.as_slice()))
}

/// Writes the addresses that only one of two files permits.
fn compared<'a, M: Memory, F: Sources, O: Sink>(
    memory: &mut M,
    sources: &F,
    format: LineFormat,
    old: &'a str,
    new: &'a str,
    out: &mut O,
) -> Result<Verdict, CommandError<'a>>
    ensures answers { AnswersRequest (F.contents sources.now) (Acl (AsCompared format old.now) new.now) (O.state out.old) (O.state out.new) result }
    ensures cause { IfErr result (Cause (FileFails (F.contents sources.now) (F.reasons sources.now)) (M.refused memory.new)) }
{
    let before = read_permitted(memory, sources, old)?;
    let after = read_permitted(memory, sources, new)?;
    tell_changes(memory, format, &before, &after, out)
}

/// The command `acl`.
pub fn acl<'a, M: Memory, F: Sources, O: Sink>(
    memory: &mut M,
    sources: &F,
    question: Question<'a>,
    file: &'a str,
    out: &mut O,
) -> Result<Verdict, CommandError<'a>>
    ensures answers { AnswersRequest (F.contents sources.now) (Acl (question_of question.entry) file.now) (O.state out.old) (O.state out.new) result }
    ensures cause { IfErr result (Cause (FileFails (F.contents sources.now) (F.reasons sources.now)) (M.refused memory.new)) }
{
    match question {
        Question::Permitted(style) => permitted(memory, sources, style, file, out),
        Question::Shadowed => shadowed(memory, sources, file, out),
        Question::Compared(format, old) => compared(memory, sources, format, old, file, out),
    }
}
