//! Where two tables give addresses different values.
ghost use Rattle.std.specs.Prelude.{◌≡◌, ◌++◌, IfErr, IfOk, map, option_map};
ghost use Rattle.std.specs.List.{flat_map};
ghost use Rattle.cidr.specs.declared.family.Family.{Family};
ghost use Rattle.cidr.specs.declared.family.Family.TheVariants.{Ipv4, Ipv6};
ghost use Rattle.cidr.specs.model.Network.{HasWidth, width_of};
ghost use Rattle.cidr.specs.texts.Printed.{plain_text};
ghost use Rattle.cidr_forwarding.specs.Differences.{AreDifferences};
ghost use Rattle.cidr_io.specs.Collecting.{Collects};
ghost use Rattle.cidr_io.specs.Writing.{Answered, Writes};
ghost use Rattle.cidr_lists.specs.Tables.{resolved};
ghost use Rattle.netset_commands.specs.Rows.{kept};
ghost use Rattle.netset_commands.specs.Causes.{Cause, FileFails};
ghost use Rattle.netset_commands.specs.Commands.{Same};
ghost use Rattle.netset_commands.specs.Compared.{AreAlike, AreFound, found, named};
ghost use Rattle.netset_commands.specs.Numbers.{HaveValues, value_in};
ghost use Rattle.netset_commands.specs.Program.{AnswersRequest};
ghost use Rattle.netset_commands.specs.Same.{value_line, value_lines};

use crate::errors::CommandError;
use crate::input::files::Sources;
use crate::input::numbers::Numbers;
use crate::input::table::read_table;
use crate::input::tables::PlainTable;
use crate::output::answers::{Verdict, by_output};
use crate::output::rows::push_row;
use arrayvec::ArrayString;
use cidr::{FamilyCidr, Ipv4Cidr, Ipv6Cidr};
use cidr_forwarding::{Answers, differences};
use cidr_io::block::Block;
use cidr_io::memory::Memory;
use cidr_io::sink::{OutputFailed, Sink};
use cidr_io::writing::flush;
use cidr_lists::changes::{Sign, sign_text};
use cidr_lists::forms::RowForm;
use cidr_lists::rows::Span;
use cidr_table::LpmTable;
use std::alloc::{AllocError, Global};

/// The networks for which two tables have different values, each with the numbers of both, and the values by their numbers.
#[derive(Drop)]
struct Differing<'a> {
    numbers: Numbers<'a>,
    v4: Vec<(Ipv4Cidr, Answers<usize>)>,
    v6: Vec<(Ipv6Cidr, Answers<usize>)>,
}

/// The networks of one family for which two tables have different numbers.
fn listed<C: FamilyCidr>(
    alloc: Global,
    numbers: &Numbers<'_>,
    old: &LpmTable<C, Span>,
    old_values: &[u8],
    new: &LpmTable<C, Span>,
    new_values: &[u8],
) -> Result<Vec<(C, Answers<usize>)>, AllocError>
    ensures { IfOk result (λ listed. AreFound C.bits (width_of C.FAMILY) numbers.now (map (resolved old_values.now) old.now.rows)
        (map (resolved new_values.now) new.now.rows) listed.items) }
{
    let before = numbers.table(alloc, old, old_values)?;
    let after = numbers.table(alloc, new, new_values)?;
    differences(alloc, &before, &after)
}

/// The networks of each family for which two tables have different values.
fn compare<'a>(
    alloc: Global,
    old: &'a PlainTable,
    new: &'a PlainTable,
) -> Result<Differing<'a>, AllocError>
    ensures { IfOk result (λ made. (family : Family)
        → AreDifferences (kept old.now family) (kept new.now family) (HasWidth (width_of family)) (found made family)) }
{
    let numbers = Numbers::of_tables(alloc, old, new)?;
    let old_values = old.values.as_slice();
    let new_values = new.values.as_slice();
    let v4 = listed(alloc, &numbers, &old.v4, old_values, &new.v4, new_values)?;
    let v6 = listed(alloc, &numbers, &old.v6, old_values, &new.v6, new_values)?;
    Ok(Differing { numbers, v4, v6 })
}

/// Appends the line of the value of a number, if there is one.
fn push_number<S: Sink>(
    block: &mut Block,
    out: &mut S,
    numbers: &Numbers<'_>,
    sign: Sign,
    text: ArrayString<43>,
    number: Option<usize>,
) -> Result<(), OutputFailed>
    ensures { Collects (S.state out.old) (S.state out.new) block.old block.new
        (value_line sign text.bytes (option_map (value_in numbers.now) number)) result }
{
    match number {
        Some(number) => push_row(
            block,
            out,
            sign_text(sign).as_bytes(),
            b"",
            text,
            numbers.value(number),
        ),
        None => Ok(()),
    }
}

/// Appends the lines of the values that two tables have for a network.
fn push_differences<C: FamilyCidr, S: Sink>(
    block: &mut Block,
    out: &mut S,
    numbers: &Numbers<'_>,
    row: (C, Answers<usize>),
) -> Result<(), OutputFailed>
    ensures { Collects (S.state out.old) (S.state out.new) block.old block.new
        (value_lines (plain_text C.FAMILY (C.bits row.0)) (named numbers.now row.1)) result }
{
    let text = row.0.to_text();
    push_number(block, out, numbers, Sign::Minus, text, row.1.0)?;
    push_number(block, out, numbers, Sign::Plus, text, row.1.1)
}

/// Writes the lines of networks of one family in blocks.
fn write_rows<C: FamilyCidr, S: Sink>(
    out: &mut S,
    numbers: &Numbers<'_>,
    rows: &[(C, Answers<usize>)],
) -> Result<(), OutputFailed>
    ensures { Writes (S.state out.old) (S.state out.new)
        (flat_map (λ row. value_lines (plain_text C.FAMILY (C.bits row.0)) (named numbers.now row.1)) rows.now) result }
{
    let mut block = Block::new();
    for row in rows {
        push_differences(&mut block, out, numbers, *row)?;
    }
    block.write(out)
}

/// Writes what was found, IPv4 before IPv6. An output that has failed before gets nothing.
fn write_found<S: Sink>(out: &mut S, differing: &Differing<'_>) -> Result<(), OutputFailed>
    ensures { Answered (S.state out.old) (S.state out.new)
        (flat_map (λ row. value_lines (plain_text Ipv4 row.0) (named differing.now.numbers row.1)) differing.now.v4.items
        ++ flat_map (λ row. value_lines (plain_text Ipv6 row.0) (named differing.now.numbers row.1)) differing.now.v6.items) result }
{
    if out.failed() {
        return Err(OutputFailed);
    }
    write_rows(out, &differing.numbers, differing.v4.as_slice())?;
    write_rows(out, &differing.numbers, differing.v6.as_slice())?;
    flush(out)
}

/// Yes where there is no difference.
fn verdict_of(differing: &Differing<'_>) -> Verdict
    ensures { AreAlike (found differing.now) result }
{
    if differing.v4.is_empty() && differing.v6.is_empty() {
        Verdict::Yes
    } else {
        Verdict::No
    }
}

/// The command `same`.
pub fn same<'a, M: Memory, F: Sources, O: Sink>(
    memory: &mut M,
    sources: &F,
    form: RowForm,
    old: &'a str,
    new: &'a str,
    out: &mut O,
) -> Result<Verdict, CommandError<'a>>
    ensures answers { AnswersRequest (F.contents sources.now) (Same form old.now new.now) (O.state out.old) (O.state out.new) result }
    ensures cause { IfErr result (Cause (FileFails (F.contents sources.now) (F.reasons sources.now)) (M.refused memory.new)) }
{
    let before = read_table(memory, sources, form, old)?;
    let after = read_table(memory, sources, form, new)?;
    let made = compare(memory.alloc(), &before, &after);
    let made = memory.watch(made)?;
    by_output(verdict_of(&made), write_found(out, &made))
}
