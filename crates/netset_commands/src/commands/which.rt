//! The lines of lists that have an address.
ghost use Rattle.std.specs.Prelude.{◌≡◌, map, IfErr, MatchResult};
ghost use Rattle.std.specs.List.{flat_map, list_any};
ghost use Rattle.cidr.specs.either.IpAddress.{IsIpText};
ghost use Rattle.cidr_io.specs.Collecting.{Collects};
ghost use Rattle.cidr_io.specs.Writing.{Answered};
ghost use Rattle.netset_commands.specs.Causes.{Cause, FileFails};
ghost use Rattle.netset_commands.specs.Commands.{Which};
ghost use Rattle.netset_commands.specs.Program.{AnswersRequest, IsBadArgument};
ghost use Rattle.netset_commands.specs.Which.{IsNoAddressArgument, has_address, which_line};

use crate::commands::check::found_parts;
use crate::commands::look::verdict_of;
use crate::errors::{ArgumentError, CommandError};
use crate::input::entries::read_entries;
use crate::input::files::Sources;
use crate::output::answers::{Verdict, by_output};
use cidr::IpAddr;
use cidr_io::block::Block;
use cidr_io::decimal::decimal_text;
use cidr_io::memory::Memory;
use cidr_io::sink::{OutputFailed, Sink};
use cidr_lists::entries::Entry;

/// The address that an argument is.
pub fn address_of<'a>(text: &'a str) -> Result<IpAddr, CommandError<'a>>
    ensures { MatchResult result (IsIpText text.now) (IsBadArgument (IsNoAddressArgument text.now)) }
{
    match text.parse() {
        Ok(address) => Ok(address),
        Err(_) => Err(CommandError::Argument(text, ArgumentError::NoAddress)),
    }
}

/// Whether the network of a line has an address.
fn has_address(entry: &Entry<'_>, address: &IpAddr) -> bool
    ensures { result ≡ has_address address.now entry.now }
{
    entry.host.network().contains(address)
}

/// Whether the network of one of the lines has an address.
fn some_has(entries: &[Entry<'_>], address: &IpAddr) -> bool
    ensures { result ≡ list_any (has_address address.now) entries.now }
{
    entries.iter().any(|entry| has_address(entry, address))
}

/// Appends the place and the network of a line to a block, if the network has an address.
fn push_which<S: Sink>(
    block: &mut Block,
    out: &mut S,
    entry: &Entry<'_>,
    address: &IpAddr,
) -> Result<(), OutputFailed>
    ensures { Collects (S.state out.old) (S.state out.new) block.old block.new (which_line address.now entry.now) result }
{
    if !has_address(entry, address) {
        return Ok(());
    }
    let digits = decimal_text(u128::from(entry.place.number));
    let network = entry.host.network().to_text();
    let parts = found_parts(entry.place.file, digits.as_str(), ": ", network.as_str());
    block.push_message(out, &parts)
}

/// Appends the place and the network of each line whose network has an address to a block.
fn push_all<S: Sink>(
    block: &mut Block,
    out: &mut S,
    entries: &[Entry<'_>],
    address: &IpAddr,
) -> Result<(), OutputFailed>
    ensures { Collects (S.state out.old) (S.state out.new) block.old block.new (flat_map (which_line address.now) entries.now) result }
{
    for entry in entries {
        push_which(block, out, entry, address)?;
    }
    Ok(())
}

/// Writes the same, and flushes. An output that has failed before gets nothing.
fn write_which<S: Sink>(
    out: &mut S,
    entries: &[Entry<'_>],
    address: &IpAddr,
) -> Result<(), OutputFailed>
    ensures { Answered (S.state out.old) (S.state out.new) (flat_map (which_line address.now) entries.now) result }
{
    if out.failed() {
        return Err(OutputFailed);
    }
    let mut block = Block::new();
    push_all(&mut block, out, entries, address)?;
    block.flush(out)
}

/// The command `which`.
pub fn which<'a, M: Memory, F: Sources, O: Sink>(
    memory: &mut M,
    sources: &F,
    address: &'a str,
    files: &'a [&'a str],
    out: &mut O,
) -> Result<Verdict, CommandError<'a>>
    ensures answers { AnswersRequest (F.contents sources.now) (Which address.now (map (λ file. file.now) files.now))
        (O.state out.old) (O.state out.new) result }
    ensures cause { IfErr result (Cause (FileFails (F.contents sources.now) (F.reasons sources.now)) (M.refused memory.new)) }
{
    let address = address_of(address)?;
    let entries = read_entries(memory, sources, files)?;
    let found = some_has(entries.as_slice(), &address);
    by_output(
        verdict_of(found),
        write_which(out, entries.as_slice(), &address),
    )
}
