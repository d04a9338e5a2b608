//! The fewest rows in which a table gives each address its value.
ghost use Rattle.std.specs.Prelude.{◌≡◌, ◌++◌, true, false, codes, map, IfErr, IfOk};
ghost use Rattle.std.specs.Bool.{Decides};
ghost use Rattle.std.specs.List.{Contains, flat_map};
ghost use Rattle.std.specs.Map.{values_of};
ghost use Rattle.cidr.specs.declared.family.Family.{Family};
ghost use Rattle.cidr.specs.declared.family.Family.TheVariants.{Ipv4, Ipv6};
ghost use Rattle.cidr.specs.model.Network.{width_of};
ghost use Rattle.cidr.specs.texts.Printed.{forced_text};
ghost use Rattle.cidr_forwarding.specs.Forwarding.{AreNetworksOf, in_bits};
ghost use Rattle.cidr_io.specs.Collecting.{Collects};
ghost use Rattle.cidr_io.specs.Writing.{Answered};
ghost use Rattle.cidr_lists.specs.Tables.{resolved};
ghost use Rattle.netset_commands.specs.Rows.{kept};
ghost use Rattle.netset_commands.specs.Causes.{Cause, FileFails};
ghost use Rattle.netset_commands.specs.Commands.{Smallest};
ghost use Rattle.netset_commands.specs.Fewest.{AreFewestNumbers, TellsFewest, all_rows, told_row, told_value, with_numbers};
ghost use Rattle.netset_commands.specs.Numbers.{AreAscending, HaveValues, numbered};
ghost use Rattle.netset_commands.specs.Program.{AnswersRequest};

use crate::errors::{CommandError, FileError};
use crate::input::files::Sources;
use crate::input::numbers::Numbers;
use crate::input::table::read_table;
use crate::input::tables::PlainTable;
use crate::output::answers::{Verdict, by_output};
use crate::output::rows::push_row;
use cidr::{FamilyCidr, Ipv4Cidr, Ipv6Cidr, NetworkBits};
use cidr_forwarding::SmallestTable;
use cidr_io::block::Block;
use cidr_io::memory::Memory;
use cidr_io::sink::{OutputFailed, Sink};
use cidr_lists::forms::RowForm;
use cidr_lists::rows::{Span, value_at_span};
use cidr_table::LpmTable;
use std::alloc::{AllocError, Global};

/// The rows of a table.
fn rows_of<C: NetworkBits + Copy, V>(table: &LpmTable<C, V>) -> &[(C, V)]
    ensures { result.now ≡ table.now.rows }
{
    table.iter().as_slice()
}

/// Rows none of which is a hole.
fn no_holes<C: Copy>(
    alloc: Global,
    rows: &[(C, usize)],
) -> Result<Vec<(C, Option<usize>)>, AllocError>
    ensures { IfOk result (λ made. made.items ≡ with_numbers rows.now) }
{
    let mut made = Vec::with_capacity(alloc, rows.len())?;
    for row in rows {
        made.push((row.0, Some(row.1)))?;
    }
    Ok(made)
}

/// The fewest rows that forward as a table does, without holes.
fn plain_rows<C: FamilyCidr>(
    alloc: Global,
    table: &LpmTable<C, usize>,
) -> Result<Vec<(C, Option<usize>)>, AllocError>
    requires { AreNetworksOf C.bits (width_of C.FAMILY) table.now.rows }
    ensures { IfOk result (λ made. AreFewestNumbers false (width_of C.FAMILY) (in_bits C.bits table.now.rows) (in_bits C.bits made.items)) }
{
    let smallest = table.smallest(alloc)?;
    let made = no_holes(alloc, rows_of(&smallest))?;
    Ok(made)
}

/// The same with holes.
fn holed_rows<C: FamilyCidr>(
    alloc: Global,
    table: &LpmTable<C, usize>,
) -> Result<Vec<(C, Option<usize>)>, AllocError>
    requires { AreNetworksOf C.bits (width_of C.FAMILY) table.now.rows }
    ensures { IfOk result (λ made. AreFewestNumbers true (width_of C.FAMILY) (in_bits C.bits table.now.rows) (in_bits C.bits made.items)) }
{
    let smallest = table.smallest_with_holes(alloc)?;
    let mut made = Vec::new(alloc);
    made.extend_from_slice(rows_of(&smallest))?;
    Ok(made)
}

/// One or the other.
fn fewest_rows<C: FamilyCidr>(
    alloc: Global,
    table: &LpmTable<C, usize>,
    holes: bool,
) -> Result<Vec<(C, Option<usize>)>, AllocError>
    requires { AreNetworksOf C.bits (width_of C.FAMILY) table.now.rows }
    ensures { IfOk result (λ made. AreFewestNumbers holes (width_of C.FAMILY) (in_bits C.bits table.now.rows) (in_bits C.bits made.items)) }
{
    if holes {
        holed_rows(alloc, table)
    } else {
        plain_rows(alloc, table)
    }
}

/// The fewest rows of each family, with the numbers of their values, or none where a row is a hole.
#[derive(Drop)]
struct Fewest<'a> {
    numbers: Numbers<'a>,
    v4: Vec<(Ipv4Cidr, Option<usize>)>,
    v6: Vec<(Ipv6Cidr, Option<usize>)>,
}

/// Those of a table.
fn fewest_of<'a>(
    alloc: Global,
    table: &'a PlainTable,
    holes: bool,
) -> Result<Fewest<'a>, AllocError>
    ensures ascending { IfOk result (λ fewest. AreAscending fewest.numbers) }
    ensures values { IfOk result (λ fewest. HaveValues fewest.numbers (kept table.now)) }
    ensures ipv4 { IfOk result (λ fewest. AreFewestNumbers holes 32 (numbered fewest.numbers (kept table.now Ipv4)) fewest.v4.items) }
    ensures ipv6 { IfOk result (λ fewest. AreFewestNumbers holes 128 (numbered fewest.numbers (kept table.now Ipv6)) fewest.v6.items) }
{
    let numbers = Numbers::of_table(alloc, table)?;
    let all = table.values.as_slice();
    let ipv4 = numbers.table(alloc, &table.v4, all)?;
    let v4 = fewest_rows(alloc, &ipv4, holes)?;
    let ipv6 = numbers.table(alloc, &table.v6, all)?;
    let v6 = fewest_rows(alloc, &ipv6, holes)?;
    Ok(Fewest { numbers, v4, v6 })
}

/// What is written of the value of a row.
fn told_value<'n>(numbers: &Numbers<'n>, value: Option<usize>) -> &'n [u8]
    ensures { result.now ≡ told_value numbers.now value }
{
    match value {
        Some(number) => numbers.value(number),
        None => b"-",
    }
}

/// Appends the lines of the rows of one family to a block.
fn push_rows<C: FamilyCidr, S: Sink>(
    block: &mut Block,
    out: &mut S,
    numbers: &Numbers<'_>,
    rows: &[(C, Option<usize>)],
) -> Result<(), OutputFailed>
    ensures { Collects (S.state out.old) (S.state out.new) block.old block.new
        (flat_map (told_row (λ p. forced_text C.FAMILY (C.bits p)) numbers.now) rows.now) result }
{
    for row in rows {
        push_row(
            block,
            out,
            b"",
            b"",
            row.0.to_text_with_length(),
            told_value(numbers, row.1),
        )?;
    }
    Ok(())
}

/// Appends the lines of all rows to a block.
fn push_fewest<S: Sink>(
    block: &mut Block,
    out: &mut S,
    fewest: &Fewest<'_>,
) -> Result<(), OutputFailed>
    ensures { Collects (S.state out.old) (S.state out.new) block.old block.new (all_rows fewest.now) result }
{
    push_rows(block, out, &fewest.numbers, fewest.v4.as_slice())?;
    push_rows(block, out, &fewest.numbers, fewest.v6.as_slice())
}

/// Writes the lines of all rows, and flushes. An output that has failed before gets nothing.
fn write_fewest<S: Sink>(out: &mut S, fewest: &Fewest<'_>) -> Result<(), OutputFailed>
    ensures { Answered (S.state out.old) (S.state out.new) (all_rows fewest.now) result }
{
    if out.failed() {
        return Err(OutputFailed);
    }
    let mut block = Block::new();
    push_fewest(&mut block, out, fewest)?;
    block.flush(out)
}

/// Whether rows have a value.
fn has_value<C>(rows: &[(C, Span)], all: &[u8], value: &[u8]) -> bool
    ensures { Decides result (Contains (values_of (map (resolved all.now) rows.now)) value.now) }
{
    for row in rows {
        if value_at_span(all, row.1) == value {
            return true;
        }
    }
    false
}

/// Whether a table has the value that stands for a hole.
fn has_hole(table: &PlainTable) -> bool
    ensures { Decides result ((family : Family) × Contains (values_of (kept table.now family)) (codes "-")) }
{
    let all = table.values.as_slice();
    if has_value(rows_of(&table.v4), all, b"-") {
        return true;
    }
    has_value(rows_of(&table.v6), all, b"-")
}

/// Whether there may be holes, and the table has that value.
fn is_refused(holes: bool, table: &PlainTable) -> bool
    ensures { Decides result ((holes ≡ true) × ((family : Family) × Contains (values_of (kept table.now family)) (codes "-"))) }
{
    if holes { has_hole(table) } else { false }
}

/// Tells the fewest rows of a table.
fn tell_fewest<'a, M: Memory, S: Sink>(
    memory: &mut M,
    table: &PlainTable,
    holes: bool,
    out: &mut S,
) -> Result<Verdict, CommandError<'a>>
    ensures { TellsFewest holes (kept table.now) (M.refused memory.new) (S.state out.old) (S.state out.new) result }
{
    let fewest = fewest_of(memory.alloc(), table, holes);
    let fewest = memory.watch(fewest)?;
    by_output(Verdict::Yes, write_fewest(out, &fewest))
}

/// The command `smallest`.
pub fn smallest<'a, M: Memory, F: Sources, O: Sink>(
    memory: &mut M,
    sources: &F,
    holes: bool,
    form: RowForm,
    table: &'a str,
    out: &mut O,
) -> Result<Verdict, CommandError<'a>>
    ensures answers { AnswersRequest (F.contents sources.now) (Smallest holes form table.now) (O.state out.old) (O.state out.new) result }
    ensures cause { IfErr result (Cause (FileFails (F.contents sources.now) (F.reasons sources.now)) (M.refused memory.new)) }
{
    let rows = read_table(memory, sources, form, table)?;
    if is_refused(holes, &rows) {
        return Err(CommandError::File(table, FileError::Hole));
    }
    tell_fewest(memory, &rows, holes, out)
}
