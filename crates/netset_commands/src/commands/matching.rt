//! The command `match`: the lines of files of which a field lies in a list, or that have an address of it.
ghost use Rattle.std.specs.Prelude.{◌≡◌, ◌<◌, ◌++◌, ◌&&◌, ◌==◌, [], ◌∷◌, true, false, not, if◌then◌else◌, map, IfOk, IfErr, IfSome};
ghost use Rattle.std.specs.Bool.{Decides};
ghost use Rattle.cidr_io.specs.Lines.{MayFail as NoLineFails};
ghost use Rattle.cidr_io.specs.Writing.{Writes};
ghost use Rattle.cidr_io.specs.Collecting.{Collects};
ghost use Rattle.netset_commands.specs.Causes.{Cause, FileFails, TextFails};
ghost use Rattle.netset_commands.specs.Commands.{Match, MatchEach};
ghost use Rattle.netset_commands.specs.Gathering.{Finishes, IsCounted, IsDone, IsNotReadFurther, NotesLong, Streams, StreamsEach, StreamsFile, GathersPart, TakesHeader, label_of, lines_of_part, rest_written, told_behind};
ghost use Rattle.netset_commands.specs.Matching.{PicksByField, either, has, line_written, passed_over};
ghost use Rattle.netset_commands.specs.Picking.{PicksOf};
ghost use Rattle.netset_commands.specs.Program.{AnswersRequest};
ghost use Rattle.netset_commands.specs.Reading.{IsNextLine};
ghost use Rattle.netset_commands.specs.declared.commands.matching.Written.TheVariants.{Nothing};
ghost use Rattle.netset_commands.specs.declared.output.answers.Verdict.TheVariants.{Yes};
ghost use Rattle.cidr_lists.specs.Printing.{line as line_of};
ghost use Rattle.cidr_lists.specs.Sets.{IsInSets};

use crate::commands::picking::Picking;
use crate::errors::{CommandError, Reason};
use crate::input::files::Sources;
use crate::input::several::read_addresses;
use crate::output::answers::{Verdict, by_output};
use crate::output::printing::{catch_up, stop};
use cidr_io::block::Block;
use cidr_io::decimal::decimal_text;
use cidr_io::lines::{LineReadError, LineReader, is_too_long};
use cidr_io::memory::Memory;
use cidr_io::sink::{OutputFailed, Sink};
use cidr_io::source::Source;
use cidr_lists::errors::LineError;
use cidr_lists::fields::network_at;
use cidr_lists::sets::Sets;

/// What is written of the lines that are picked.
#[derive(Clone, Copy, Drop, PartialEq)]
pub enum Written {
    /// The lines.
    Lines,
    /// How many they are.
    Count,
    /// Nothing.
    Nothing,
}

/// Whether an option is given.
pub fn has(options: &[&str], name: &str) -> bool
    ensures { result ≡ has name.now (map (λ w. w.now) options.now) }
{
    options.contains(&name)
}

/// Which lines are picked, and what is written of them.
#[derive(Clone, Copy)]
struct Matcher<'a> {
    sets: &'a Sets,
    picking: Picking,
    /// The name in front of what is written of a file that is not the only one.
    name: Option<&'a str>,
}

impl Matcher<'_> {
    /// Whether the line of this number is a header.
    fn is_header(&self, number: u64) -> bool
        ensures { result ≡ (self.now.picking.headed && (number == 1)) }
    {
        self.picking.headed && number == 1
    }

    /// Whether a line is picked by its field.
    fn picks_by_field(&self, line: &[u8]) -> Result<bool, LineError>
        ensures { PicksByField self.now.picking.column (IsInSets self.now.sets.now) self.now.picking.inverted line.now result }
    {
        let network = network_at(self.picking.column, line)?;
        let lies = self.sets.have(&network);
        Ok(is_picked(self.picking.inverted, lies))
    }

    /// Whether a line is picked.
    fn picks(&self, line: &[u8]) -> Result<bool, LineError>
        ensures { PicksOf self.now.picking (IsInSets self.now.sets.now) line.now result }
    {
        if is_too_long(line) {
            return passed_over(self.picking.anywhere);
        }
        if self.picking.anywhere {
            return Ok(is_picked(self.picking.inverted, self.sets.have_one(line)));
        }
        self.picks_by_field(line)
    }
}

/// What becomes of a line that is too long: with `--any` it is passed over, and else it is in error.
fn passed_over(anywhere: bool) -> Result<bool, LineError>
    ensures { result ≡ passed_over anywhere }
{
    if anywhere {
        return Ok(false);
    }
    Err(LineError::TooLong)
}

/// The first line that is too long, where this was the first of those before, and this line has this number.
fn first_long(long: Option<u64>, number: u64, line: &[u8]) -> Option<u64>
    ensures { NotesLong number line.now long result }
{
    match long {
        Some(first) => Some(first),
        None => if is_too_long(line) {
            Some(number)
        } else {
            None
        },
    }
}

/// The answer of a file, or the first of its lines that is too long, if one is.
fn told_behind<'a>(
    file: &'a str,
    long: Option<u64>,
    answer: Result<Verdict, CommandError<'a>>,
) -> Result<Verdict, CommandError<'a>>
    ensures { result ≡ told_behind file.entry long answer.entry }
{
    match long {
        None => answer,
        Some(number) => match answer {
            Ok(_) => Err(CommandError::Line(file, number, LineError::TooLong)),
            Err(e) => Err(e),
        },
    }
}

/// Whether a line is picked, by whether it is picked without `-v`.
fn is_picked(inverted: bool, lies: bool) -> bool
    ensures { result ≡ (if inverted then not lies else lies) }
{
    if inverted { !lies } else { lies }
}

/// Whether a part up to a line feed or to the end is a line.
pub fn is_line(part: &[u8], has_more: bool) -> bool
    ensures line { result ≡ true → lines_of_part part.now has_more ≡ part.now ∷ [] }
    ensures none { result ≡ false → lines_of_part part.now has_more ≡ [] }
{
    has_more || !part.is_empty()
}

/// Yes if a line was counted.
fn verdict_of(count: u64) -> Verdict
    ensures { IsCounted count result }
{
    if count > 0 { Verdict::Yes } else { Verdict::No }
}

/// The lines that were picked: how many, and what of them is not yet written.
#[derive(Drop)]
pub struct Gathered {
    count: u64,
    block: Block,
}

impl Gathered {
    /// No lines.
    fn new() -> Gathered
        ensures count { result.count ≡ 0 }
        ensures block { result.block ≡ [] }
    {
        Gathered {
            count: 0,
            block: Block::new(),
        }
    }

    /// Adds a line, with a name in front if there is one.
    fn push_named<S: Sink>(
        &mut self,
        name: Option<&str>,
        out: &mut S,
        line: &[u8],
    ) -> Result<(), OutputFailed>
        ensures count { self.new.count ≡ self.old.count }
        ensures collects { Collects (S.state out.old) (S.state out.new) self.old.block self.new.block
            (label_of name.entry ++ line_of line.now) result }
    {
        match name {
            None => self.block.push_line(out, &[line, b"\n"]),
            Some(name) => self
                .block
                .push_line(out, &[name.as_bytes(), b":", line, b"\n"]),
        }
    }

    /// Adds what is written of a line.
    fn push<S: Sink>(
        &mut self,
        matcher: &Matcher<'_>,
        out: &mut S,
        line: &[u8],
    ) -> Result<(), OutputFailed>
        ensures count { self.new.count ≡ self.old.count }
        ensures collects { Collects (S.state out.old) (S.state out.new) self.old.block self.new.block
            (line_written (label_of matcher.now.name) matcher.now.picking.written line.now) result }
    {
        match matcher.picking.written {
            Written::Lines => self.push_named(matcher.name, out, line),
            Written::Count | Written::Nothing => Ok(()),
        }
    }

    /// Takes the header of a file, its first line: it is written whatever it says, and not counted. One that is too long is
    /// in error.
    fn take_header<'a, S: Sink>(
        &mut self,
        matcher: &Matcher<'_>,
        file: &'a str,
        line: &[u8],
        out: &mut S,
    ) -> Result<(), CommandError<'a>>
        ensures { TakesHeader (label_of matcher.now.name) matcher.now.picking.written file.now line.now (S.state out.old) (S.state out.new)
            self.old self.new result }
    {
        if is_too_long(line) {
            return Err(CommandError::Line(file, 1, LineError::TooLong));
        }
        match self.push(matcher, out, line) {
            Ok(()) => Ok(()),
            Err(_) => Err(CommandError::Output),
        }
    }

    /// Takes the line of a part up to a line feed or to the end, if it is one and is picked, or a header.
    fn take<'a, S: Sink>(
        &mut self,
        matcher: &Matcher<'_>,
        file: &'a str,
        number: u64,
        part: &[u8],
        has_more: bool,
        out: &mut S,
    ) -> Result<(), CommandError<'a>>
        requires { self.old.count < number }
        ensures { GathersPart (matcher.now.picking.headed && (number == 1)) (PicksOf matcher.now.picking (IsInSets matcher.now.sets.now))
            (label_of matcher.now.name) matcher.now.picking.written file.now number part.now has_more (S.state out.old) (S.state out.new)
            self.old self.new result }
    {
        if !is_line(part, has_more) {
            return Ok(());
        }
        if matcher.is_header(number) {
            return self.take_header(matcher, file, part, out);
        }
        match matcher.picks(part) {
            Ok(true) => {
                self.count += 1;
                match self.push(matcher, out, part) {
                    Ok(()) => Ok(()),
                    Err(_) => Err(CommandError::Output),
                }
            }
            Ok(false) => Ok(()),
            Err(e) => Err(CommandError::Line(file, number, e)),
        }
    }

    /// Whether no more lines are needed.
    fn is_done(&self, written: Written, has_more: bool) -> bool
        ensures { Decides result (IsDone written has_more self.now.count) }
    {
        !has_more || (written == Written::Nothing && self.count > 0)
    }

    /// Adds what is written behind the lines.
    fn push_count<S: Sink>(
        &mut self,
        matcher: &Matcher<'_>,
        out: &mut S,
    ) -> Result<(), OutputFailed>
        ensures { Collects (S.state out.old) (S.state out.new) self.old.block self.new.block
            (rest_written (label_of matcher.now.name) matcher.now.picking.written self.old.count) result }
    {
        match matcher.picking.written {
            Written::Count => {
                let count = decimal_text(u128::from(self.count));
                self.push_named(matcher.name, out, count.as_str().as_bytes())
            }
            Written::Lines | Written::Nothing => Ok(()),
        }
    }

    /// Writes what is not yet written.
    fn write_rest<S: Sink>(
        &mut self,
        matcher: &Matcher<'_>,
        out: &mut S,
    ) -> Result<(), OutputFailed>
        ensures { Writes (S.state out.old) (S.state out.new)
            (self.old.block ++ rest_written (label_of matcher.now.name) matcher.now.picking.written self.old.count) result }
    {
        self.push_count(matcher, out)?;
        self.block.flush(out)
    }

    /// Writes what is not yet written, and tells whether there was a line.
    fn finish<'a, S: Sink>(
        &mut self,
        matcher: &Matcher<'_>,
        out: &mut S,
    ) -> Result<Verdict, CommandError<'a>>
        ensures { Finishes (label_of matcher.now.name) matcher.now.picking.written (S.state out.old) (S.state out.new) self.old result }
    {
        let verdict = verdict_of(self.count);
        by_output(verdict, self.write_rest(matcher, out))
    }
}

/// Reads the next part of a file up to a line feed, without it, and tells whether there was one.
pub fn next_part<'a, M: Memory, R: Source + Drop>(
    memory: &mut M,
    file: &'a str,
    reader: &mut LineReader<R>,
) -> Result<bool, CommandError<'a>>
    ensures part { IfOk result (λ more. IfSome reader.old.left
        (λ text. IsNextLine text reader.new.line more reader.new.left)) }
    ensures stopped { IfErr result (IsNotReadFurther file.now) }
    ensures cause { IfErr result (Cause (λ name _. (name ≡ file.now) × NoLineFails reader.old.left) (M.refused memory.new)) }
{
    match reader.read_line(memory) {
        Ok(has_more) => Ok(has_more),
        Err(LineReadError::NoMemory) => Err(CommandError::NoMemory),
        Err(LineReadError::Failed) => Err(CommandError::Input(file, Reason::Unknown)),
    }
}

/// Reads a file line by line, and writes the lines that are picked, also those before a line in error. With `--any` a
/// line that is too long is passed over, and the first such line is the error behind the others. An output that has
/// failed before gets nothing.
fn stream<'a, M: Memory, R: Source + Drop, S: Sink>(
    memory: &mut M,
    matcher: &Matcher<'_>,
    file: &'a str,
    reader: &mut LineReader<R>,
    out: &mut S,
) -> Result<Verdict, CommandError<'a>>
    ensures streams { Streams matcher.now.picking.headed (PicksOf matcher.now.picking (IsInSets matcher.now.sets.now))
        (label_of matcher.now.name) matcher.now.picking.written file.now reader.old.left (S.state out.old) (S.state out.new) result }
    ensures cause { IfErr result (Cause (λ name _. (name ≡ file.now) × TextFails reader.old.left) (M.refused memory.new)) }
{
    if out.failed() {
        return Err(CommandError::Output);
    }
    let mut gathered = Gathered::new();
    let mut long = None;
    for number in 1..u64::MAX {
        let Ok(()) = catch_up(reader, &mut gathered.block, out) else {
            return Err(CommandError::Output);
        };
        let has_more = match next_part(memory, file, reader) {
            Ok(has_more) => has_more,
            Err(e) => return stop(&mut gathered.block, e, out),
        };
        long = first_long(long, number, reader.line());
        match gathered.take(matcher, file, number, reader.line(), has_more, out) {
            Ok(()) => {}
            Err(e) => return stop(&mut gathered.block, e, out),
        }
        if gathered.is_done(matcher.picking.written, has_more) {
            return told_behind(file, long, gathered.finish(matcher, out));
        }
    }
    stop(
        &mut gathered.block,
        CommandError::Input(file, Reason::Unknown),
        out,
    )
}

/// Opens a file, and writes what is written of its lines that are picked.
fn match_file<'a, M: Memory, F: Sources, O: Sink>(
    memory: &mut M,
    sources: &F,
    matcher: &Matcher<'_>,
    file: &'a str,
    out: &mut O,
) -> Result<Verdict, CommandError<'a>>
    ensures streams { StreamsFile matcher.now.picking.headed (PicksOf matcher.now.picking (IsInSets matcher.now.sets.now))
        (label_of matcher.now.name) matcher.now.picking.written file.now (F.contents sources.now file.now) (O.state out.old) (O.state out.new) result }
    ensures cause { IfErr result (Cause (FileFails (F.contents sources.now) (F.reasons sources.now)) (M.refused memory.new)) }
{
    let reader = match sources.open(file) {
        Ok(reader) => reader,
        Err(why) => return Err(CommandError::Input(file, why)),
    };
    let Ok(mut reader) = LineReader::new(memory, reader) else {
        return Err(CommandError::NoMemory);
    };
    stream(memory, matcher, file, &mut reader, out)
}

/// The command `match` on one file.
pub fn matching<'a, M: Memory, F: Sources, O: Sink>(
    memory: &mut M,
    sources: &F,
    picking: Picking,
    list: &'a str,
    file: &'a str,
    out: &mut O,
) -> Result<Verdict, CommandError<'a>>
    ensures answers { AnswersRequest (F.contents sources.now) (Match picking list.now file.now)
        (O.state out.old) (O.state out.new) result }
    ensures cause { IfErr result (Cause (FileFails (F.contents sources.now) (F.reasons sources.now)) (M.refused memory.new)) }
{
    let sets = read_addresses(memory, sources, list)?;
    let matcher = Matcher {
        sets: &sets,
        picking,
        name: None,
    };
    match_file(memory, sources, &matcher, file, out)
}

/// Yes if one of the two is.
fn either(one: Verdict, other: Verdict) -> Verdict
    ensures { result ≡ either one other }
{
    match one {
        Verdict::Yes => Verdict::Yes,
        Verdict::No => other,
    }
}

/// Whether no more files are needed.
fn needs_no_more(written: Written, verdict: Verdict) -> bool
    ensures { Decides result ((written ≡ Nothing) × (verdict ≡ Yes)) }
{
    written == Written::Nothing && verdict == Verdict::Yes
}

/// Writes what is written of the lines that are picked of some files, one file after another, the name of its file in
/// front of each line. The first file that has an error is the last one. An output that has failed before gets nothing.
fn match_files<'a, M: Memory, F: Sources, O: Sink>(
    memory: &mut M,
    sources: &F,
    matcher: &Matcher<'_>,
    files: &[&'a str],
    out: &mut O,
) -> Result<Verdict, CommandError<'a>>
    ensures streams { StreamsEach (F.contents sources.now) matcher.now.picking.headed (PicksOf matcher.now.picking (IsInSets matcher.now.sets.now))
        matcher.now.picking.written (map (λ file. file.now) files.now) (O.state out.old) (O.state out.new) result }
    ensures cause { IfErr result (Cause (FileFails (F.contents sources.now) (F.reasons sources.now)) (M.refused memory.new)) }
{
    if out.failed() {
        return Err(CommandError::Output);
    }
    let mut verdict = Verdict::No;
    for file in files {
        let named = Matcher {
            sets: matcher.sets,
            picking: matcher.picking,
            name: Some(*file),
        };
        let one = match_file(memory, sources, &named, file, out)?;
        verdict = either(verdict, one);
        if needs_no_more(matcher.picking.written, verdict) {
            return Ok(verdict);
        }
    }
    Ok(verdict)
}

/// The command `match` on several files.
pub fn match_each<'a, M: Memory, F: Sources, O: Sink>(
    memory: &mut M,
    sources: &F,
    picking: Picking,
    list: &'a str,
    files: &[&'a str],
    out: &mut O,
) -> Result<Verdict, CommandError<'a>>
    ensures answers { AnswersRequest (F.contents sources.now)
        (MatchEach picking list.now (map (λ file. file.now) files.now))
        (O.state out.old) (O.state out.new) result }
    ensures cause { IfErr result (Cause (FileFails (F.contents sources.now) (F.reasons sources.now)) (M.refused memory.new)) }
{
    let addresses = read_addresses(memory, sources, list)?;
    let matcher = Matcher {
        sets: &addresses,
        picking,
        name: None,
    };
    match_files(memory, sources, &matcher, files, out)
}
