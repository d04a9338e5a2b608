//! A run of the program, from its arguments to its exit status.
ghost use Rattle.std.specs.Prelude.{◌≡◌, ◌≤◌, ℕ, Bool, true, List, Option, None, Some, map, option_map, IfErr, MatchOption, Ok};
ghost use Rattle.cidr_io.specs.Arguments.{AreUnread, IsNotText};
ghost use Rattle.std.specs.String.{string_bytes};
ghost use Rattle.netset_commands.specs.Causes.{Cause, FileFails};
ghost use Rattle.netset_commands.specs.Combining.{form_of};
ghost use Rattle.netset_commands.specs.Arguments.{line_request, made_request, read_request};
ghost use Rattle.netset_commands.specs.Command.{line_in, parts_in, request_of};
ghost use Rattle.netset_commands.specs.Leaving.{Ends, LeavesBy, LeavesFound, LeavesTo, RunLeaves};
ghost use Rattle.cidr_lists.specs.Formats.{style_in};
ghost use Rattle.netset_commands.specs.Sets.{Prints};
ghost use Rattle.cidr_lists.specs.Sets.{networks_of};
ghost use Rattle.netset_commands.specs.declared.errors.CommandError.{CommandError};
ghost use Rattle.netset_commands.specs.declared.errors.Unsaved.{Unsaved};
ghost use Rattle.netset_commands.specs.Program.{AnswersRequest, IntoFound, IsNotSaved, IsReadTwice, IsWrong, KeepsGoing, Runs, RunsFound, RunsGood, contents_in, RunsRequest, contents_of};
ghost use Rattle.netset_commands.specs.Typed.{AnswersTyped};

use crate::commands::acl::acl;
use crate::commands::arguments::{Given, Line, line_of, line_parts};
use crate::commands::changes::diff;
use crate::commands::check::check;
use crate::commands::class::class;
use crate::commands::combine::combination;
use crate::commands::compile::{compile, same_file};
use crate::commands::describe::describe;
use crate::commands::free::free;
use crate::commands::help::write_help;
use crate::commands::inside::not_in;
use crate::commands::look::look;
use crate::commands::matching::{match_each, matching};
use crate::commands::operations::{Operation, form_of};
use crate::commands::same::same;
use crate::commands::single::{answer_single, network_operand};
use crate::commands::smallest::smallest;
use crate::commands::split::split;
use crate::commands::table::Verb;
use crate::commands::which::{address_of, which};
use crate::commands::{AtFault, Command, Reading, name_input_twice};
use crate::errors::{ArgumentError, CommandError, FileError, Unsaved, UsageError};
use crate::input::files::{Files, ReadBy, Sources};
use crate::input::good::GoodLists;
use crate::input::headed::Headed;
use crate::input::keeping::{Kept, Loaded, load};
use crate::input::several::read_several;
use crate::output::answers::{Verdict, by_output};
use crate::output::folder::{Folder, Sealed};
use crate::output::held::Held;
use crate::output::ranges::write_ranges;
use crate::output::report::{report, report_misuse, report_not_text};
use crate::output::sets::{write_by, write_counts, write_sets};
use cidr_io::arguments::{ArgumentReadError, Arguments, borrowed, texts_of};
use cidr_io::memory::Memory;
use cidr_io::sink::{Output, OutputFailed, Sink};
use cidr_io::writing::write_text;
use cidr_lists::formats::Style;
use cidr_lists::sets::{Form, Sets};

/// The version, and below it the logic in which it is proved, as `rt version` names it.
pub const VERSION: &str = "netset 0.4.0\nlogic dac8208d650f15bf\n";

/// Writes what an operation has made: the networks, their ranges, or how many addresses they have.
fn write_made<O: Sink>(operation: Operation, sets: &Sets, out: &mut O) -> Result<(), OutputFailed>
    ensures { Prints (form_of operation) (O.state out.old) (O.state out.new) (networks_of sets.now) result }
{
    match form_of(operation) {
        Form::Networks => write_sets(out, sets),
        Form::Ranges => write_ranges(out, sets),
        Form::Counts => write_counts(out, sets),
    }
}

/// What an operation makes of the lists of some files: in a style, if one is given, and else in the form of the operation.
fn lists<'a, M: Memory, F: Sources, O: Sink>(
    memory: &mut M,
    sources: &F,
    style: Option<Style<'_>>,
    operation: Operation,
    files: &'a [&'a str],
    out: &mut O,
) -> Result<Verdict, CommandError<'a>>
    ensures answers { AnswersRequest (F.contents sources.now) (made_request operation None (option_map (λ s. style_in s) style.entry) (map (λ file. file.now) files.now))
        (O.state out.old) (O.state out.new) result }
    ensures cause { IfErr result (Cause (FileFails (F.contents sources.now) (F.reasons sources.now)) (M.refused memory.new)) }
{
    let several = read_several(memory, sources, files)?;
    let sets = combination(operation, several);
    let sets = memory.watch(sets)?;
    match style {
        None => by_output(Verdict::Yes, write_made(operation, &sets, out)),
        Some(style) => write_by(memory, Some(style), &sets, out),
    }
}

/// Answers a command.
fn answer<'a, M: Memory, F: Sources, D: Folder, O: Sink>(
    memory: &mut M,
    sources: &F,
    folder: &mut D,
    command: Command<'a>,
    out: &mut O,
) -> Result<Verdict, CommandError<'a>>
    ensures { Ends (F.contents sources.now) (record { memory = M.refused memory.new; folder = D.refused folder.new; files = F.reasons sources.now })
        (request_of command.entry) (O.state out.old) (O.state out.new) (D.saved folder.old) (D.saved folder.new) result }
{
    match command {
        Command::Lists(operation, files) => lists(memory, sources, None, operation, files, out),
        Command::Styled(style, operation, files) => {
            lists(memory, sources, Some(style), operation, files, out)
        }
        Command::NotIn(style, net, files) => not_in(memory, sources, style, net, files, out),
        Command::Diff(format, old, new) => diff(memory, sources, format, old, new, out),
        Command::Same(form, old, new) => same(memory, sources, form, old, new, out),
        Command::Free(style, most, pool, len, used) => {
            free(memory, sources, style, most, pool, len, used, out)
        }
        Command::Split(style, operand, word, len) => {
            split(memory, sources, style, operand, word, len, out)
        }
        Command::Acl(asked, file) => acl(memory, sources, asked, file, out),
        Command::Check(files) => check(memory, sources, files, out),
        Command::Which(address, files) => which(memory, sources, address, files, out),
        Command::Match(picking, list, file) => {
            matching(memory, sources, picking, list, file, out)
        }
        Command::MatchEach(picking, list, files) => {
            match_each(memory, sources, picking, list, files, out)
        }
        Command::Look(seeking, table, file) => look(memory, sources, seeking, table, file, out),
        Command::Compile(form, table, name) => {
            compile(memory, sources, form, table, name, folder)
        }
        Command::Smallest(holes, form, table) => {
            smallest(memory, sources, holes, form, table, out)
        }
        Command::Describe(what, operand) => describe(memory, sources, what, operand, out),
        Command::Class(operand) => class(memory, sources, operand, out),
        Command::Single(single) => answer_single(single, out),
        Command::Help(topic) => by_output(Verdict::Yes, write_help(topic, out)),
        Command::Version => by_output(Verdict::Yes, write_text(out, VERSION)),
    }
}

/// The error of the first argument that is wrong whatever the lists say.
fn wrong_argument<'a>(command: Command<'a>) -> Option<CommandError<'a>>
    ensures { MatchOption result ((e : CommandError) → ¬ (IsWrong (request_of command.entry) e))
        (IsWrong (request_of command.entry)) }
{
    match command {
        Command::NotIn(_, net, _) => match network_operand(net) {
            Ok(_) => None,
            Err(e) => Some(e),
        },
        Command::Which(address, _) => match address_of(address) {
            Ok(_) => None,
            Err(e) => Some(e),
        },
        Command::Compile(_, table, name) => same_file(table, name),
        Command::Lists(_, _)
        | Command::Styled(_, _, _)
        | Command::Diff(_, _, _)
        | Command::Same(_, _, _)
        | Command::Free(_, _, _, _, _)
        | Command::Split(_, _, _, _)
        | Command::Acl(_, _)
        | Command::Check(_)
        | Command::Match(_, _, _)
        | Command::MatchEach(_, _, _)
        | Command::Look(_, _, _)
        | Command::Smallest(_, _, _)
        | Command::Describe(_, _)
        | Command::Class(_)
        | Command::Single(_)
        | Command::Help(_)
        | Command::Version => None,
    }
}

/// Answers a command by lists without their lines in error, which were told, reports and returns the exit status, which is at
/// least 2. No file is written. Its commands take no room on the stack of others.
#[inline(never)]
fn answer_good<'a, M: Memory, F: Sources, O: Output, E: Sink>(
    memory: &mut M,
    sources: &F,
    lists: &[Kept<'_>],
    command: Command<'a>,
    out: &mut O,
    err: &mut E,
) -> u8
    ensures above { 2 ≤ result }
    ensures runs { (folder : Option Unsaved) → RunsGood lists.now (F.contents sources.now) (record { memory = M.refused memory.new; folder = folder; files = F.reasons sources.now }) (request_of command.entry)
        (O.closed out.new) (O.Sink.state out.old) (O.Sink.state out.new) (E.state err.old) (E.state err.new) result }
{
    let good = GoodLists {
        lists,
        sources,
        list_form: sources.list_form(),
    };
    let answered = answer(memory, &good, &mut Sealed, command, out);
    report(&answered, out.is_closed(), err).max(2)
}

/// Tells the lines in error of the lists of a command while they are read, and answers it if there are none or if these are
/// skipped, reports and returns the exit status.
fn keep_going<'a, M: Memory, F: Sources, D: Folder, O: Output, E: Sink>(
    memory: &mut M,
    sources: &F,
    folder: &mut D,
    skips: bool,
    command: Command<'a>,
    out: &mut O,
    err: &mut E,
) -> u8
    ensures goes { KeepsGoing skips (F.contents sources.now) (record { memory = M.refused memory.new; folder = D.refused folder.new; files = F.reasons sources.now }) (request_of command.entry)
        (O.closed out.new) (O.Sink.state out.old) (O.Sink.state out.new) (E.state err.old) (E.state err.new) result }
    ensures leaves { LeavesBy (F.contents sources.now) (request_of command.entry) (D.saved folder.old) (D.saved folder.new) result }
{
    if let Some(e) = wrong_argument(command) {
        return report(&Err(e), out.is_closed(), err);
    }
    let Ok(names) = command.lists(memory) else {
        return report(&Err(CommandError::NoMemory), false, err);
    };
    let names = command.read_lists(names.as_slice());
    match load(
        memory,
        sources,
        command.kind(),
        command.takes_file(),
        skips,
        names,
        err,
    ) {
        Ok((lists, true)) => {
            if skips {
                answer_good(memory, sources, lists.as_slice(), command, out, err)
            } else {
                2
            }
        }
        Ok((lists, false)) => {
            let loaded = Loaded::new(sources, lists.as_slice());
            let answered = answer(memory, &loaded, folder, command, out);
            report(&answered, out.is_closed(), err)
        }
        Err(e) => report(&Err(e), out.is_closed(), err),
    }
}

/// The error of a command that reads the standard input more than once.
fn read_twice<'a>() -> CommandError<'a>
    ensures { IsReadTwice result }
{
    CommandError::Argument("-", ArgumentError::ReadTwice)
}

/// Answers a command whose lists are read this way from these files, reports and returns the exit status.
fn answer_read<'a, M: Memory, F: Files, D: Folder, O: Output, E: Sink>(
    memory: &mut M,
    files: &F,
    folder: &mut D,
    reading: Reading,
    command: Command<'a>,
    out: &mut O,
    err: &mut E,
) -> u8
    ensures runs { RunsRequest reading.at_fault (contents_in reading.list_form (F.contents files.now)) (record { memory = M.refused memory.new; folder = D.refused folder.new; files = F.reasons files.now })
        (request_of command.entry) (O.closed out.new) (O.Sink.state out.old) (O.Sink.state out.new) (E.state err.old) (E.state err.new) result }
    ensures leaves { LeavesBy (contents_in reading.list_form (F.contents files.now)) (request_of command.entry) (D.saved folder.old) (D.saved folder.new) result }
{
    let sources = ReadBy {
        files,
        list_form: reading.list_form,
    };
    match reading.at_fault {
        AtFault::Stop => {
            let answered = answer(memory, &sources, folder, command, out);
            report(&answered, out.is_closed(), err)
        }
        AtFault::Tell => keep_going(memory, &sources, folder, false, command, out, err),
        AtFault::Skip => keep_going(memory, &sources, folder, true, command, out, err),
    }
}

/// Answers a command whose lists are read this way, reports and returns the exit status.
fn answer_once<'a, M: Memory, F: Files, D: Folder, O: Output, E: Sink>(
    memory: &mut M,
    files: &F,
    folder: &mut D,
    reading: Reading,
    command: Command<'a>,
    out: &mut O,
    err: &mut E,
) -> u8
    ensures runs { RunsFound (Ok (reading, (None, request_of command.entry))) (F.contents files.now) (record { memory = M.refused memory.new; folder = D.refused folder.new; files = F.reasons files.now })
        (O.closed out.new) (O.Sink.state out.old) (O.Sink.state out.new) (E.state err.old) (E.state err.new) result }
    ensures leaves { LeavesFound (Ok (reading, (None, request_of command.entry))) (F.contents files.now) (D.saved folder.old) (D.saved folder.new) result }
{
    let Ok(names) = command.files(memory) else {
        return report(&Err(CommandError::NoMemory), false, err);
    };
    if name_input_twice(names.as_slice()) {
        return report(&Err(read_twice()), false, err);
    }
    let Ok(tables) = command.tables(memory, reading.table_header) else {
        return report(&Err(CommandError::NoMemory), false, err);
    };
    let headed = Headed {
        files,
        tables: tables.as_slice(),
    };
    answer_read(memory, &headed, folder, reading, command, out, err)
}

/// The error of a file that is not written.
fn unsaved<'a>(name: &'a str, why: Unsaved) -> CommandError<'a>
    ensures { IsNotSaved name.now why result }
{
    CommandError::File(name, FileError::NotSaved(why))
}

/// Answers a command whose lists are read this way into memory, writes the answer, if there is one, to the file of a name,
/// reports and returns the exit status.
fn answer_into<'a, M: Memory, F: Files, D: Folder, E: Sink>(
    memory: &mut M,
    files: &F,
    folder: &mut D,
    reading: Reading,
    name: &'a str,
    command: Command<'a>,
    err: &mut E,
) -> u8
    ensures runs { IntoFound name.now reading (F.contents files.now) (record { memory = M.refused memory.new; folder = D.refused folder.new; files = F.reasons files.now })
        (request_of command.entry) (E.state err.old) (E.state err.new) result }
    ensures leaves { LeavesTo (Some name.now) (contents_of reading (request_of command.entry) (F.contents files.now)) (request_of command.entry)
        (D.saved folder.old) (D.saved folder.new) result }
{
    let mut held = Held::new(memory.alloc());
    let status = answer_once(memory, files, &mut Sealed, reading, command, &mut held, err);
    let Ok(text) = memory.watch(held.finish()) else {
        return report(&Err(CommandError::NoMemory), false, err);
    };
    if status > 1 {
        return status;
    }
    match folder.replace(name, None, text.as_slice()) {
        Ok(()) => status,
        Err(why) => report(&Err(unsaved(name, why)), false, err),
    }
}

/// Answers a line of arguments, to the file of a name where one is given, reports and returns the exit status.
fn answer_to<'a, M: Memory, F: Files, D: Folder, O: Output, E: Sink>(
    memory: &mut M,
    files: &F,
    folder: &mut D,
    line: Line<'a>,
    out: &mut O,
    err: &mut E,
) -> u8
    ensures runs { RunsFound (Ok (line_in line.entry)) (F.contents files.now) (record { memory = M.refused memory.new; folder = D.refused folder.new; files = F.reasons files.now })
        (O.closed out.new) (O.Sink.state out.old) (O.Sink.state out.new) (E.state err.old) (E.state err.new) result }
    ensures leaves { LeavesFound (Ok (line_in line.entry)) (F.contents files.now) (D.saved folder.old) (D.saved folder.new) result }
{
    let Line {
        reading,
        target,
        command,
    } = line;
    match target {
        None => answer_once(memory, files, folder, reading, command, out, err),
        Some(name) => answer_into(memory, files, folder, reading, name, command, err),
    }
}

/// Answers a command and the parts of the words behind it, reports and returns the exit status.
fn answer_parts<M: Memory, F: Files, D: Folder, O: Output, E: Sink>(
    memory: &mut M,
    files: &F,
    folder: &mut D,
    verb: Verb,
    parts: Given<'_>,
    out: &mut O,
    err: &mut E,
) -> u8
    ensures runs { RunsFound (read_request verb (parts_in parts.entry)) (F.contents files.now) (record { memory = M.refused memory.new; folder = D.refused folder.new; files = F.reasons files.now })
        (O.closed out.new) (O.Sink.state out.old) (O.Sink.state out.new) (E.state err.old) (E.state err.new) result }
    ensures leaves { LeavesFound (read_request verb (parts_in parts.entry)) (F.contents files.now) (D.saved folder.old) (D.saved folder.new) result }
{
    match line_of(verb, parts) {
        Ok(line) => answer_to(memory, files, folder, line, out, err),
        Err(misuse) => report_misuse(&misuse, err),
    }
}

/// Answers the arguments as strings, reports and returns the exit status.
fn answer_texts<M: Memory, F: Files, D: Folder, O: Output, E: Sink>(
    memory: &mut M,
    files: &F,
    folder: &mut D,
    texts: &[String],
    out: &mut O,
    err: &mut E,
) -> u8
    ensures runs { RunsFound (line_request (map string_bytes texts.now)) (F.contents files.now) (record { memory = M.refused memory.new; folder = D.refused folder.new; files = F.reasons files.now })
        (O.closed out.new) (O.Sink.state out.old) (O.Sink.state out.new) (E.state err.old) (E.state err.new) result }
    ensures leaves { LeavesFound (line_request (map string_bytes texts.now)) (F.contents files.now) (D.saved folder.old) (D.saved folder.new) result }
{
    let Ok(words) = borrowed(memory, texts) else {
        return report(&Err(CommandError::NoMemory), false, err);
    };
    match line_parts(memory, words.as_slice()) {
        Ok((verb, parts)) => answer_parts(memory, files, folder, verb, parts.given(), out, err),
        Err(UsageError::Misuse(misuse)) => report_misuse(&misuse, err),
        Err(UsageError::NoMemory) => report(&Err(CommandError::NoMemory), false, err),
    }
}

/// An argument that is not UTF-8, as it is shown, where that is why the arguments can't be read; else there was no memory.
fn not_text(error: &ArgumentReadError) -> Option<&str>
    ensures { MatchOption result ((words : Option (List (List ℕ))) → (refused : Bool) → AreUnread words refused error.now → refused ≡ true)
        (λ shown. (words : Option (List (List ℕ))) → (refused : Bool) → AreUnread words refused error.now → IsNotText words shown.now) }
{
    match error {
        ArgumentReadError::NotText(shown) => Some(shown.as_str()),
        ArgumentReadError::NoMemory => None,
    }
}

/// Answers the arguments on `out`, writes the line that belongs to the answer, if there is one, to `err`, and returns
/// the exit status: 0 for an answer, 1 for none, no or findings, 2 for arguments, files and lines in error, 3 where the
/// output failed, a file can't be written, or there is no memory. Where nobody reads the output any more, there is no
/// such line. The file of `compile` is written to `folder`, and with `-o` an answer in place of `out`, and nothing else.
///
/// The contract says twice what is written to `out` and `err`: in short where the status is 0 or 1 (`answers`), and with
/// all errors (`runs`). `leaves` says what is written to `folder`.
pub fn program<M: Memory, A: Arguments, F: Files, D: Folder, O: Output, E: Sink>(
    memory: &mut M,
    arguments: &A,
    files: &F,
    folder: &mut D,
    out: &mut O,
    err: &mut E,
) -> u8
    ensures answers { AnswersTyped (A.told arguments.now) (F.contents files.now) (O.Sink.state out.old) (O.Sink.state out.new)
        (E.state err.old) (E.state err.new) result }
    ensures runs { Runs (A.told arguments.now) (F.contents files.now) (record { memory = M.refused memory.new; folder = D.refused folder.new; files = F.reasons files.now })
        (O.closed out.new) (O.Sink.state out.old) (O.Sink.state out.new) (E.state err.old) (E.state err.new) result }
    ensures leaves { RunLeaves (A.told arguments.now) (F.contents files.now) (D.saved folder.old) (D.saved folder.new) result }
{
    match texts_of(memory, arguments) {
        Ok(texts) => answer_texts(memory, files, folder, texts.as_slice(), out, err),
        Err(e) => match not_text(&e) {
            Some(shown) => report_not_text(shown, err),
            None => report(&Err(CommandError::NoMemory), false, err),
        },
    }
}
