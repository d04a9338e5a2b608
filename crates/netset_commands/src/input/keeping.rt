//! Telling every line in error of the lists of a command, in the pass that reads them, and keeping what the others say.
ghost use Rattle.std.specs.Prelude.{◌≡◌, ◌∷◌, ◌++◌, ◌+◌, drop, false, length, map, option_copied, take, true, MatchResult, IfErr, IfOk, OnErr};
ghost use Rattle.netset_commands.specs.Causes.{Cause, FileFails, ReadCause, TextFails};
ghost use Rattle.netset_commands.specs.Keeping.{AddsBy, AreKept, IsNothingSaid, KeepsLine, KeepsListLines, KeepsList, good_bytes, lined, list_named};
ghost use Rattle.netset_commands.specs.Loading.{AreListsLoaded, IsUnloaded};

use crate::errors::{CommandError, ListReadError, Reason};
use crate::input::begun::{FileContent, begin_file, read_whole};
use crate::input::files::Sources;
use crate::input::table::unread;
use crate::input::{entries, lists, rows};
use crate::output::report::say_fault;
use cidr_io::block::Block;
use cidr_io::lines::LineReader;
use cidr_io::memory::Memory;
use cidr_io::sink::Sink;
use cidr_io::source::Source;
use cidr_lists::entries::{Entry, Place};
use cidr_lists::forms::{ListKind, RowForm};
use cidr_lists::lists::Lists;
use cidr_lists::records::ListForm;
use cidr_lists::rows::RowList;
use std::alloc::{AllocError, Global};
use std::marker::Model;

/// What the lines of a list say, those in error left out.
#[derive(Drop)]
pub enum Said {
    Networks(Lists),
    /// Each entry stands in a file of no name.
    Hosts(Vec<Entry<'static>>),
    /// Rows that were read in this form.
    Rows(RowForm, RowList),
}

impl Said {
    /// What no lines say.
    fn new(alloc: Global, kind: ListKind) -> Said
        ensures { IsNothingSaid kind result }
    {
        match kind {
            ListKind::Networks => Said::Networks(Lists::new(alloc)),
            ListKind::Hosts => Said::Hosts(Vec::new(alloc)),
            ListKind::Rows(form) => Said::Rows(form, RowList::new(alloc)),
        }
    }

    /// Adds what a line says.
    fn add_line<M: Memory>(
        &mut self,
        memory: &mut M,
        list_form: ListForm,
        number: u64,
        line: &[u8],
    ) -> Result<(), ListReadError>
        ensures adds { AddsBy list_form line.now number self.old self.new result }
        ensures cause { IfErr result (ReadCause ⊥ (M.refused memory.new)) }
    {
        match self {
            Said::Networks(lists) => lists::add_list_line(memory, list_form, number, line, lists),
            Said::Hosts(hosts) => {
                entries::add_entry_line(memory, Place { file: "", number }, line, hosts)
            }
            Said::Rows(form, rows) => {
                rows::add_row_line(memory, *form, list_form, number, line, rows)
            }
        }
    }
}

/// Adds what a line says, or tells its error; tells whether it is in error.
fn keep_line<M: Memory, E: Sink>(
    memory: &mut M,
    list_form: ListForm,
    place: Place<'_>,
    line: &[u8],
    said: &mut Said,
    block: &mut Block,
    err: &mut E,
) -> Result<bool, ListReadError>
    ensures keeps { KeepsLine list_form place.entry.file.now place.entry.number line.now said.old said.new
        (E.state err.old) block.old (E.state err.new) block.new result }
    ensures cause { IfErr result (ReadCause ⊥ (M.refused memory.new)) }
{
    match said.add_line(memory, list_form, place.number, line) {
        Ok(()) => Ok(false),
        Err(ListReadError::Line(_, e)) => {
            say_fault(block, err, place.file, place.number, &e);
            Ok(true)
        }
        Err(ListReadError::Input) => Err(ListReadError::Input),
        Err(ListReadError::NoMemory) => Err(ListReadError::NoMemory),
    }
}

/// Adds a line to a text, with a line feed in front, if lines are to be skipped: how long the text is without the bytes of the
/// line.
fn begin_line<M: Memory>(
    memory: &mut M,
    skips: bool,
    line: &[u8],
    text: &mut Vec<u8>,
) -> Result<usize, AllocError>
    ensures added { IfOk result (λ len. skips ≡ true
        → (text.new.items ≡ text.old.items ++ 10 ∷ line.now) × (len ≡ length text.old.items + 1)) }
    ensures refused { OnErr result (M.refused memory.new ≡ true) }
{
    if !skips {
        return Ok(0);
    }
    memory.push(text, b'\n')?;
    let len = text.len();
    let added = text.extend_from_slice(line);
    memory.watch(added)?;
    Ok(len)
}

/// Takes the bytes of a line away that was added to a text last, if it is in error.
fn end_line(is_bad: bool, len: usize, text: &mut Vec<u8>)
    ensures bad { is_bad ≡ true → text.new.items ≡ take len text.old.items }
    ensures good { is_bad ≡ false → text.new.items ≡ text.old.items }
{
    if is_bad {
        text.truncate(len);
    }
}

/// What was read of the lines of a list.
#[derive(Drop)]
pub struct Heard {
    /// What those say that are not in error.
    pub said: Said,
    /// If lines are to be skipped, all of them, with a line feed in front of each, those in error left empty; else nothing.
    pub text: Vec<u8>,
    /// Whether one is in error.
    pub is_bad: bool,
}

/// Reads the lines of a list to its end, and tells those in error.
fn keep_lines<M: Memory, S: Source + Drop, E: Sink>(
    memory: &mut M,
    kind: ListKind,
    list_form: ListForm,
    file: &str,
    skips: bool,
    reader: &mut LineReader<S>,
    block: &mut Block,
    err: &mut E,
) -> Result<Heard, ListReadError>
    ensures keeps { KeepsListLines kind list_form file.now skips reader.old.left
        (E.state err.old) block.old (E.state err.new) block.new result }
    ensures cause { IfErr result (ReadCause (TextFails reader.old.left) (M.refused memory.new)) }
{
    let mut said = Said::new(memory.alloc(), kind);
    let mut text = Vec::new(memory.alloc());
    let mut found = false;
    for number in 1..u64::MAX {
        let has_more = reader.read_line(memory)?;
        let line = reader.line();
        let len = begin_line(memory, skips, line, &mut text)?;
        let place = Place { file, number };
        let is_bad = keep_line(memory, list_form, place, line, &mut said, block, err)?;
        end_line(is_bad, len, &mut text);
        found |= is_bad;
        if !has_more {
            return Ok(Heard {
                said,
                text,
                is_bad: found,
            });
        }
    }
    Err(ListReadError::Input)
}

/// A list that was read whole.
#[derive(Drop)]
pub struct Kept<'a> {
    pub name: &'a str,
    /// What those of its lines say that are not in error, or the bytes of a file of look-ups.
    pub given: FileContent<Said>,
    /// The same lines, as [`Heard`] has them.
    pub text: Vec<u8>,
}

impl Kept<'_> {
    /// What is read of the list where lines in error are skipped.
    pub fn good_bytes(&self) -> &[u8]
        ensures { result.now ≡ good_bytes self.now }
    {
        match &self.given {
            FileContent::Lines(_) => behind_first(self.text.as_slice()),
            FileContent::Stored(bytes) => bytes.as_slice(),
        }
    }
}

/// The bytes behind the first one.
fn behind_first(bytes: &[u8]) -> &[u8]
    ensures { result.now ≡ drop 1 bytes.now }
{
    match bytes.split_first() {
        Some((_, rest)) => rest,
        None => &[],
    }
}

/// Reads a list to its end, and tells its lines in error: what is kept of it, and whether a line is in error. Where it may be
/// a file of look-ups and begins as one, none is.
fn keep_list<'a, M: Memory, F: Sources, E: Sink>(
    memory: &mut M,
    sources: &F,
    kind: ListKind,
    takes_file: bool,
    skips: bool,
    file: &'a str,
    err: &mut E,
) -> Result<(Kept<'a>, bool), CommandError<'a>>
    ensures keeps { KeepsList takes_file (F.contents sources.now file.now) kind file.now skips (E.state err.old) (E.state err.new) result }
    ensures cause { IfErr result (Cause (FileFails (F.contents sources.now) (F.reasons sources.now)) (M.refused memory.new)) }
{
    let begun = begin_file(sources, file)?;
    if takes_file && begun.is_stored() {
        let bytes = read_whole(memory, file, begun)?;
        return Ok((
            Kept {
                name: file,
                given: FileContent::Stored(bytes),
                text: Vec::new(memory.alloc()),
            },
            false,
        ));
    }
    let Ok(mut reader) = LineReader::new(memory, begun) else {
        return Err(CommandError::NoMemory);
    };
    let mut block = Block::new();
    let kept = keep_lines(
        memory,
        kind,
        sources.list_form(),
        file,
        skips,
        &mut reader,
        &mut block,
        err,
    );
    block.end(err);
    match kept {
        Ok(heard) => Ok((
            Kept {
                name: file,
                given: FileContent::Lines(heard.said),
                text: heard.text,
            },
            heard.is_bad,
        )),
        Err(e) => Err(unread(file, e)),
    }
}

/// The first list of this name.
pub fn list_named<'l>(lists: &'l [Kept<'l>], name: &str) -> Option<&'l Kept<'l>>
    ensures { option_copied result ≡ list_named name.now lists.now }
{
    lists.iter().find(|list| list.name == name)
}

/// Lists that were read whole, of which no line is in error, and where files are read from.
#[derive(Drop)]
pub struct Loaded<'a, F: Sources> {
    lists: &'a [Kept<'a>],
    sources: &'a F,
}

impl<'a, F: Sources> Model for Loaded<'a, F> {
    ghost use Rattle.netset_commands.specs.Keeping.{AreKept};

    ghost Value = { F };

    ghost view = { λ l. l.sources.now };

    ghost invariant = { λ l. AreKept (F.contents l.sources.now) l.lists.now };
}

impl<'a, F: Sources> Loaded<'a, F> {
    /// These lists of these sources.
    pub fn new(sources: &'a F, lists: &'a [Kept<'a>]) -> Loaded<'a, F>
        requires { AreKept (F.contents sources.now) lists.now }
        ensures { result ≡ sources.now }
    {
        Loaded { lists, sources }
    }
}

impl<F: Sources> Sources for Loaded<'_, F> {
    type Reader = F::Reader;

    ghost contents = { λ s. F.contents s };

    ghost reasons = { λ s. F.reasons s };

    fn open(&self, name: &str) -> Result<F::Reader, Reason> {
        self.sources.open(name)
    }

    fn list_form(&self) -> ListForm {
        self.sources.list_form()
    }

    fn kept(&self, name: &str) -> Option<&FileContent<Said>> {
        let lists = self.lists;
        match list_named(lists, name) {
            Some(list) => Some(&list.given),
            None => None,
        }
    }
}

/// Reads lists whole, which may be files of look-ups or not, and tells their lines in error, up to the first list that can't be
/// read: what is kept of them, and whether a line is in error.
pub fn load<'a, M: Memory, F: Sources, E: Sink>(
    memory: &mut M,
    sources: &F,
    kind: ListKind,
    takes_file: bool,
    skips: bool,
    names: &[&'a str],
    err: &mut E,
) -> Result<(Vec<Kept<'a>>, bool), CommandError<'a>>
    ensures loads { MatchResult result
        (λ loaded. AreListsLoaded takes_file skips (F.contents sources.now) kind (map (λ name. name.now) names.now)
        (E.state err.old) (E.state err.new) loaded.0.items loaded.1)
        (IsUnloaded (lined takes_file (F.contents sources.now)) kind (map (λ name. name.now) names.now) (E.state err.old) (E.state err.new)) }
    ensures cause { IfErr result (Cause (FileFails (F.contents sources.now) (F.reasons sources.now)) (M.refused memory.new)) }
{
    let mut lists = Vec::new(memory.alloc());
    let mut found = false;
    for name in names {
        let (list, is_bad) = keep_list(memory, sources, kind, takes_file, skips, name, err)?;
        found |= is_bad;
        memory.push(&mut lists, list)?;
    }
    Ok((lists, found))
}
