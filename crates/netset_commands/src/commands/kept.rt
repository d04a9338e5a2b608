//! Addresses that are told one line after the other: with the lines that have them, or as objects of JSON.
ghost use Rattle.std.specs.Prelude.{◌≡◌, ◌≢◌, option_map, IfErr, IfOk, Some};
ghost use Rattle.std.specs.List.{flat_map};
ghost use Rattle.cidr_io.specs.Collecting.{Collects};
ghost use Rattle.cidr_io.specs.Writing.{Writes};
ghost use Rattle.cidr_lists.specs.LookUps.{kept_line, look_object, told_line};
ghost use Rattle.cidr_lists.specs.Printing.{line};
ghost use Rattle.cidr_lists.specs.declared.objects.Telling.TheVariants.{Alone};
ghost use Rattle.netset_commands.specs.Causes.{Cause, TextFails};
ghost use Rattle.netset_commands.specs.Gathering.{lines_of_part};
ghost use Rattle.netset_commands.specs.KeptLines.{HasNetwork, IsNetworkOf, IsObjectOf, KeepsLine, TellsBy, TellsPart, TellsText, header_text};

use crate::commands::look::{address_asked, verdict_of};
use crate::commands::matching::{is_line, next_part};
use crate::errors::{CommandError, Reason};
use crate::input::table::RowLookUps;
use crate::output::answers::{Verdict, by_output};
use crate::output::printing::{catch_up, stop};
use arrayvec::ArrayString;
use cidr::IpAddr;
use cidr_io::block::Block;
use cidr_io::lines::LineReader;
use cidr_io::memory::Memory;
use cidr_io::sink::{OutputFailed, Sink};
use cidr_io::source::Source;
use cidr_lists::fields::{Asked, joint_of, without_returns};
use cidr_lists::objects::{Telling, push_object};
use cidr_lists::printing::block_text;
use std::alloc::{AllocError, Global};

/// Appends a line to a block, and behind its fields a network and its value.
fn push_kept<S: Sink>(
    block: &mut Block,
    out: &mut S,
    joint: u8,
    line: &[u8],
    network: &ArrayString<43>,
    value: &[u8],
) -> Result<(), OutputFailed>
    ensures { Collects (S.state out.old) (S.state out.new) block.old block.new (kept_line joint line.now (Some (network.now.bytes, value.now))) result }
{
    let joint = [joint];
    let body = without_returns(line);
    let (_, returns) = line.split_at(body.len());
    let text = *network;
    let network = text.as_str().as_bytes();
    if value.is_empty() {
        return block.push_line(out, &[body, joint.as_slice(), network, returns, b"\n"]);
    }
    block.push_line(
        out,
        &[
            body,
            joint.as_slice(),
            network,
            joint.as_slice(),
            value,
            returns,
            b"\n",
        ],
    )
}

/// The longest network that an address is in, as it is printed, and its value.
fn network_found<'t, T: RowLookUps>(
    table: &'t T,
    address: &IpAddr,
) -> Option<(ArrayString<43>, &'t [u8])>
    ensures { IsNetworkOf (T.LookUps.rows table.now) address.now (option_map (λ found. (found.0.bytes, found.1.now)) result) }
{
    match table.row(address) {
        Some((len, value)) => Some((block_text(address, len), value)),
        None => None,
    }
}

/// The longest network of the address that a line has, if it has one, as it is printed, and its value.
fn network_asked<'t, T: RowLookUps>(
    table: &'t T,
    asked: &Option<IpAddr>,
) -> Option<(ArrayString<43>, &'t [u8])>
    ensures { HasNetwork (T.LookUps.rows table.now) asked.now (option_map (λ found. (found.0.bytes, found.1.now)) result) }
{
    match asked {
        Some(address) => network_found(table, address),
        None => None,
    }
}

/// Appends a line that has this address, or none, to a block, with the network of the address; tells whether it has one.
fn keep_line<T: RowLookUps, S: Sink>(
    table: &T,
    place: Asked,
    line: &[u8],
    asked: &Option<IpAddr>,
    block: &mut Block,
    out: &mut S,
) -> Result<bool, OutputFailed>
    ensures { KeepsLine place (T.LookUps.rows table.now) line.now asked.now (S.state out.old) (S.state out.new)
        block.old block.new result }
{
    match network_asked(table, asked) {
        Some(found) => {
            push_kept(block, out, joint_of(place), line, &found.0, found.1)?;
            Ok(true)
        }
        None => {
            block.push_line(out, &[line, b"\n"])?;
            Ok(false)
        }
    }
}

/// The object of an address, with the longest network that it is in, and whether there is one. The error is that an
/// allocation fails.
fn object_of<T: RowLookUps>(
    alloc: Global,
    table: &T,
    address: &IpAddr,
) -> Result<(Vec<u8>, bool), AllocError>
    ensures { IfOk result (λ made. IsObjectOf (T.LookUps.rows table.now) address.now made.0.items made.1) }
{
    let row = table.row(address);
    let mut text = Vec::new(alloc);
    push_object(&mut text, address, row)?;
    Ok((text, row.is_some()))
}

/// Appends the object of an address to a block; tells whether a network has the address.
fn tell_address<'a, T: RowLookUps, M: Memory, S: Sink>(
    memory: &mut M,
    table: &T,
    address: &IpAddr,
    block: &mut Block,
    out: &mut S,
) -> Result<bool, CommandError<'a>>
    ensures tells { TellsBy look_object (T.LookUps.rows table.now) (Some address.now) (S.state out.old) (S.state out.new)
        block.old block.new result }
    ensures cause { IfErr result (Cause (λ _ _. ⊥) (M.refused memory.new)) }
{
    let made = object_of(memory.alloc(), table, address);
    let object = memory.watch(made)?;
    match block.push(out, object.0.as_slice()) {
        Ok(()) => Ok(object.1),
        Err(_) => Err(CommandError::Output),
    }
}

/// The same of the address that a line has, if it has one.
fn tell_object<'a, T: RowLookUps, M: Memory, S: Sink>(
    memory: &mut M,
    table: &T,
    asked: &Option<IpAddr>,
    block: &mut Block,
    out: &mut S,
) -> Result<bool, CommandError<'a>>
    ensures tells { TellsBy look_object (T.LookUps.rows table.now) asked.now (S.state out.old) (S.state out.new)
        block.old block.new result }
    ensures cause { IfErr result (Cause (λ _ _. ⊥) (M.refused memory.new)) }
{
    match asked {
        Some(address) => tell_address(memory, table, address, block, out),
        None => Ok(false),
    }
}

/// Appends what is told of a line that has this address, or none, to a block; tells whether a network has the address.
fn tell_line<'a, T: RowLookUps, M: Memory, S: Sink>(
    memory: &mut M,
    table: &T,
    telling: Telling,
    place: Asked,
    line: &[u8],
    asked: &Option<IpAddr>,
    block: &mut Block,
    out: &mut S,
) -> Result<bool, CommandError<'a>>
    requires { telling ≢ Alone }
    ensures tells { TellsBy (told_line telling place line.now) (T.LookUps.rows table.now) asked.now (S.state out.old) (S.state out.new)
        block.old block.new result }
    ensures cause { IfErr result (Cause (λ _ _. ⊥) (M.refused memory.new)) }
{
    match telling {
        Telling::Objects => tell_object(memory, table, asked, block, out),
        Telling::Alone | Telling::Kept => match keep_line(table, place, line, asked, block, out) {
            Ok(found) => Ok(found),
            Err(_) => Err(CommandError::Output),
        },
    }
}

/// Appends what is told of the line of a part up to a line feed or to the end, if it is one, to a block; tells whether a
/// network has its address.
fn tell_part<'a, T: RowLookUps, M: Memory, S: Sink>(
    memory: &mut M,
    table: &T,
    telling: Telling,
    place: Asked,
    file: &'a str,
    number: u64,
    part: &[u8],
    has_more: bool,
    block: &mut Block,
    out: &mut S,
) -> Result<bool, CommandError<'a>>
    requires { telling ≢ Alone }
    ensures tells { TellsPart telling place (T.LookUps.rows table.now) file.now number part.now has_more (S.state out.old) (S.state out.new)
        block.old block.new result }
    ensures cause { IfErr result (Cause (λ _ _. ⊥) (M.refused memory.new)) }
{
    if !is_line(part, has_more) {
        return Ok(false);
    }
    match address_asked(place, part) {
        Ok(asked) => tell_line(memory, table, telling, place, part, &asked, block, out),
        Err(e) => Err(CommandError::Line(file, number, e)),
    }
}

/// Writes the part up to a line feed or to the end that is a header, if it is a line.
fn write_part<S: Sink>(header: &[u8], has_more: bool, out: &mut S) -> Result<(), OutputFailed>
    ensures { Writes (S.state out.old) (S.state out.new) (flat_map line (lines_of_part header.now has_more)) result }
{
    if !is_line(header, has_more) {
        return Ok(());
    }
    let mut block = Block::new();
    block.push_line(out, &[header, b"\n"])?;
    block.flush(out)
}

/// Writes what is told of the part up to a line feed or to the end that is a header: itself, where lines are kept.
pub fn write_header<S: Sink>(
    telling: Telling,
    header: &[u8],
    has_more: bool,
    out: &mut S,
) -> Result<(), OutputFailed>
    ensures { Writes (S.state out.old) (S.state out.new) (header_text telling header.now has_more) result }
{
    match telling {
        Telling::Kept => write_part(header, has_more, out),
        Telling::Alone | Telling::Objects => Ok(()),
    }
}

/// Reads a file line by line, and writes what is told of each: the line with the longest network of its address, or the
/// object of its address; also of those before a line in error. An output that has failed before gets nothing.
pub fn tell_lines<'a, T: RowLookUps, M: Memory, R: Source + Drop, S: Sink>(
    memory: &mut M,
    table: &T,
    telling: Telling,
    place: Asked,
    file: &'a str,
    reader: &mut LineReader<R>,
    out: &mut S,
) -> Result<Verdict, CommandError<'a>>
    requires { telling ≢ Alone }
    ensures tells { TellsText telling place (T.LookUps.rows table.now) reader.old.left file.now (S.state out.old) (S.state out.new) result }
    ensures cause { IfErr result (Cause (λ name _. (name ≡ file.now) × TextFails reader.old.left) (M.refused memory.new)) }
{
    if out.failed() {
        return Err(CommandError::Output);
    }
    let mut block = Block::new();
    let mut found = false;
    for number in 1..u64::MAX {
        let Ok(()) = catch_up(reader, &mut block, out) else {
            return Err(CommandError::Output);
        };
        let has_more = match next_part(memory, file, reader) {
            Ok(has_more) => has_more,
            Err(e) => return stop(&mut block, e, out),
        };
        match tell_part(
            memory,
            table,
            telling,
            place,
            file,
            number,
            reader.line(),
            has_more,
            &mut block,
            out,
        ) {
            Ok(hit) => found = found || hit,
            Err(e) => return stop(&mut block, e, out),
        }
        if !has_more {
            return by_output(verdict_of(found), block.flush(out));
        }
    }
    stop(&mut block, CommandError::Input(file, Reason::Unknown), out)
}
