//! Reading tables, and the longest network of a table that an address is in.
ghost use Rattle.std.specs.Prelude.{◌≡◌, Bool, List, ℕ, Option, None, Some, length, option_copied, option_map, true, IfErr};
ghost use Rattle.cidr.specs.declared.addr.ip.IpAddr.{IpAddr as Address};
ghost use Rattle.cidr.specs.declared.family.Family.{Family as AddressFamily};
ghost use Rattle.netset_commands.specs.Causes.{Cause, FileFails};
ghost use Rattle.netset_commands.specs.KeptLines.{IsRowOf};
ghost use Rattle.netset_commands.specs.LookUps.{GivesRows, GivesTable, HasAnswer, LooksUp, PushesFound, ReadsFileRows, answer_of, ReadsTable, unread};
ghost use Rattle.netset_commands.specs.Rows.{searched};
ghost use Rattle.netset_commands.specs.declared.input.table.Answer.{Answer};

use crate::errors::{CommandError, ListReadError, Reason};
use crate::input::begun::FileContent;
use crate::input::files::Sources;
use crate::input::keeping::Said;
use crate::input::lines::{read_file_lines, read_given};
use crate::input::tables::{PlainTable, SearchedTable};
use crate::output::rows::push_row;
use arrayvec::ArrayString;
use cidr::{BitString, Family, IpAddr, Ipv4Cidr, Ipv6Cidr};
use cidr_io::block::Block;
use cidr_io::memory::Memory;
use cidr_io::sink::{OutputFailed, Sink};
use cidr_lists::columns::Separator;
use cidr_lists::formats::LineFormat;
use cidr_lists::forms::{RowColumns, RowForm, RowLayout};
use cidr_lists::printing::block_text;
use cidr_lists::rows::{RowList, Span, value_at_span};

/// The longest network of a table that an address is in, by its length, and where its value stands.
#[derive(Clone, Copy, Drop)]
pub struct Answer {
    len: u8,
    value: Span,
}

/// A table in which addresses are looked up.
pub trait LookUps {
    /// Its rows of each family.
    ghost rows: { Self → AddressFamily → List (List Bool × List ℕ) };
    /// This was found of an address.
    ghost is_found: { Self → Address → Option Answer → Type 0 };

    /// Finds what the line of an address takes of the table. For many addresses this is done one after the other, before
    /// their lines are printed, so that their reads of memory don't wait for one another; a table for which that saves
    /// nothing finds nothing here.
    fn find(&self, address: &IpAddr) -> Option<Answer>
        ensures { is_found self.now address.now result };

    /// Appends the line of an address to a block, by what was found of it; tells whether a network has it.
    fn push<S: Sink>(
        &self,
        address: &IpAddr,
        found: Option<Answer>,
        block: &mut Block,
        out: &mut S,
    ) -> Result<bool, OutputFailed>
        requires { is_found self.now address.now found }
        ensures { LooksUp (rows self.now) address.now (S.state out.old) (S.state out.new) block.old block.new result };
}

/// A table whose rows are told one by one.
pub trait RowLookUps: LookUps {
    /// The length of the longest network that an address is in, and its value.
    fn row(&self, address: &IpAddr) -> Option<(u8, &[u8])>
        ensures { IsRowOf (Self.LookUps.rows self.now) address.now (option_map (λ row. (row.0, row.1.now)) result) };
}

/// The answer that is a row.
fn answer_of<C: BitString>(found: Option<&(C, Span)>) -> Option<Answer>
    ensures { result ≡ option_map (λ row. answer_of (length (C.bits row.0)) row.1) (option_copied found.entry) }
{
    let (network, value) = found?;
    Some(Answer {
        len: network.len() as u8,
        value: *value,
    })
}

impl LookUps for SearchedTable {
    ghost rows = { searched };

    ghost is_found = { HasAnswer };

    fn find(&self, address: &IpAddr) -> Option<Answer> {
        match address {
            IpAddr::V4(address) => answer_of(self.v4.lookup(&Ipv4Cidr::new_host(*address))),
            IpAddr::V6(address) => answer_of(self.v6.lookup(&Ipv6Cidr::new_host(*address))),
        }
    }

    fn push<S: Sink>(
        &self,
        address: &IpAddr,
        found: Option<Answer>,
        block: &mut Block,
        out: &mut S,
    ) -> Result<bool, OutputFailed> {
        match found {
            Some(answer) => {
                let value = value_at_span(self.values.as_slice(), answer.value);
                push_match(
                    block,
                    out,
                    address.to_text(),
                    block_text(address, answer.len),
                    value,
                )
            }
            None => push_none(block, out, address.to_text()),
        }
    }
}

impl RowLookUps for SearchedTable {
    fn row(&self, address: &IpAddr) -> Option<(u8, &[u8])> {
        match self.find(address) {
            Some(answer) => Some((
                answer.len,
                value_at_span(self.values.as_slice(), answer.value),
            )),
            None => None,
        }
    }
}

/// Appends the line of an address with its network and the value of that to a block.
pub fn push_match<S: Sink>(
    block: &mut Block,
    out: &mut S,
    address: ArrayString<39>,
    network: ArrayString<43>,
    value: &[u8],
) -> Result<bool, OutputFailed>
    ensures { PushesFound address.bytes (Some (network.bytes, value.now))
        (S.state out.old) (S.state out.new) block.old block.new result }
{
    push_row(
        block,
        out,
        address.as_str().as_bytes(),
        b" ",
        network,
        value,
    )?;
    Ok(true)
}

/// Appends the line of an address that has no network to a block.
pub fn push_none<S: Sink>(
    block: &mut Block,
    out: &mut S,
    address: ArrayString<39>,
) -> Result<bool, OutputFailed>
    ensures { PushesFound address.bytes None (S.state out.old) (S.state out.new) block.old block.new result }
{
    block.push_line(out, &[address.as_str().as_bytes(), b" -\n"])?;
    Ok(false)
}

/// The error of reading a file.
pub fn unread<'a>(file: &'a str, e: ListReadError) -> CommandError<'a>
    ensures { result ≡ unread file.entry e }
{
    match e {
        ListReadError::Line(number, e) => CommandError::Line(file, number, e),
        ListReadError::Input => CommandError::Input(file, Reason::Unknown),
        ListReadError::NoMemory => CommandError::NoMemory,
    }
}

/// Whether fields are parted the same way.
fn is_same_separator(one: Separator, other: Separator) -> bool
    ensures { result ≡ true → one ≡ other }
{
    match (one, other) {
        (Separator::WhiteSpace, Separator::WhiteSpace) => true,
        (Separator::Byte(one), Separator::Byte(other)) => one == other,
        _ => false,
    }
}

/// Whether the same fields are the network and the value.
fn are_same_columns(one: RowColumns, other: RowColumns) -> bool
    ensures { result ≡ true → one ≡ other }
{
    is_same_separator(one.separator, other.separator)
        && one.network == other.network
        && one.value == other.value
}

/// Whether rows are laid out the same way.
fn is_same_layout(one: RowLayout, other: RowLayout) -> bool
    ensures { result ≡ true → one ≡ other }
{
    match (one, other) {
        (RowLayout::Fields(one), RowLayout::Fields(other)) => is_same_separator(one, other),
        (RowLayout::Columns(one), RowLayout::Columns(other)) => are_same_columns(one, other),
        (RowLayout::Pfx2as, RowLayout::Pfx2as) => true,
        (RowLayout::Routes(Family::Ipv4), RowLayout::Routes(Family::Ipv4)) => true,
        (RowLayout::Routes(Family::Ipv6), RowLayout::Routes(Family::Ipv6)) => true,
        _ => false,
    }
}

/// Whether rows are read the same way.
fn is_same_form(one: RowForm, other: RowForm) -> bool
    ensures { result ≡ true → one ≡ other }
{
    match (one.values, other.values) {
        (LineFormat::Plain, LineFormat::Plain) => is_same_layout(one.layout, other.layout),
        (LineFormat::Json, LineFormat::Json) => is_same_layout(one.layout, other.layout),
        _ => false,
    }
}

/// The bytes of a file of look-ups, or the rows of another file, which is read unless it is read already.
fn give_rows<'a, M: Memory, F: Sources>(
    memory: &mut M,
    sources: &F,
    form: RowForm,
    file: &'a str,
) -> Result<FileContent<RowList>, CommandError<'a>>
    ensures gives { GivesRows form (F.contents sources.now file.now) file.now result }
    ensures cause { IfErr result (Cause (FileFails (F.contents sources.now) (F.reasons sources.now)) (M.refused memory.new)) }
{
    match sources.kept(file) {
        Some(FileContent::Lines(Said::Rows(said, kept))) if is_same_form(*said, form) => {
            let rows = kept.copy(memory.alloc());
            let rows = memory.watch(rows)?;
            Ok(FileContent::Lines(rows))
        }
        Some(FileContent::Stored(kept)) => {
            let bytes: Result<_, _> = kept.clone();
            let bytes = memory.watch(bytes)?;
            Ok(FileContent::Stored(bytes))
        }
        _ => {
            let mut read = RowList::new(memory.alloc());
            let given = read_given(memory, sources, &form, file, &mut read)?;
            match given {
                FileContent::Lines(()) => Ok(FileContent::Lines(read)),
                FileContent::Stored(bytes) => Ok(FileContent::Stored(bytes)),
            }
        }
    }
}

/// The bytes of a file of look-ups, or the table of another file.
pub fn give_table<'a, M: Memory, F: Sources>(
    memory: &mut M,
    sources: &F,
    form: RowForm,
    file: &'a str,
) -> Result<FileContent<SearchedTable>, CommandError<'a>>
    ensures gives { GivesTable form (F.contents sources.now file.now) file.now result }
    ensures cause { IfErr result (Cause (FileFails (F.contents sources.now) (F.reasons sources.now)) (M.refused memory.new)) }
{
    match give_rows(memory, sources, form, file)? {
        FileContent::Lines(rows) => {
            let table = SearchedTable::of_rows(memory.alloc(), rows);
            let table = memory.watch(table)?;
            Ok(FileContent::Lines(table))
        }
        FileContent::Stored(bytes) => Ok(FileContent::Stored(bytes)),
    }
}

/// The rows of a file, which is read unless it is read already.
fn rows_in_file<'a, M: Memory, F: Sources>(
    memory: &mut M,
    sources: &F,
    form: RowForm,
    file: &'a str,
) -> Result<RowList, CommandError<'a>>
    ensures reads { ReadsFileRows form (F.contents sources.now file.now) file.now result }
    ensures cause { IfErr result (Cause (FileFails (F.contents sources.now) (F.reasons sources.now)) (M.refused memory.new)) }
{
    match sources.kept(file) {
        Some(FileContent::Lines(Said::Rows(said, kept))) if is_same_form(*said, form) => {
            let rows = kept.copy(memory.alloc());
            let rows = memory.watch(rows)?;
            Ok(rows)
        }
        _ => {
            let mut rows = RowList::new(memory.alloc());
            read_file_lines(memory, sources, &form, file, &mut rows)?;
            Ok(rows)
        }
    }
}

/// The table of a file.
pub fn read_table<'a, M: Memory, F: Sources>(
    memory: &mut M,
    sources: &F,
    form: RowForm,
    file: &'a str,
) -> Result<PlainTable, CommandError<'a>>
    ensures reads { ReadsTable form (F.contents sources.now file.now) file.now result }
    ensures cause { IfErr result (Cause (FileFails (F.contents sources.now) (F.reasons sources.now)) (M.refused memory.new)) }
{
    let rows = rows_in_file(memory, sources, form, file)?;
    Ok(PlainTable::of_rows(rows))
}
