//! The networks of a prefix length inside a network, or inside the networks of a list.
ghost use Rattle.std.specs.Prelude.{option_map, IfErr};
ghost use Rattle.std.specs.Bool.{Decides};
ghost use Rattle.cidr_io.specs.Writing.{Answered};
ghost use Rattle.cidr_lists.specs.Formats.{printed_walk, style_in};
ghost use Rattle.netset_commands.specs.Answering.{SplitsList, SplitsNetwork};
ghost use Rattle.netset_commands.specs.Causes.{Cause, FileFails};
ghost use Rattle.netset_commands.specs.Commands.{Split};
ghost use Rattle.netset_commands.specs.Free.{inside_of};
ghost use Rattle.netset_commands.specs.Program.{AnswersRequest};
ghost use Rattle.netset_commands.specs.Single.{HasNone};

use crate::commands::free::{tell_free, write_inside};
use crate::errors::{ArgumentError, CommandError};
use crate::input::files::Sources;
use crate::input::operands::read_listed;
use crate::output::answers::{Verdict, by_output};
use cidr::IpCidr;
use cidr_io::memory::Memory;
use cidr_io::sink::{OutputFailed, Sink};
use cidr_lists::formats::Style;

/// Whether there is no network of prefix length `len` inside a network.
fn has_none(network: &IpCidr, len: u8) -> bool
    ensures { Decides result (HasNone network.now len) }
{
    len < network.network_length() || network.family().len() < len
}

/// Writes the networks of a prefix length inside a network, and flushes. An output that has failed before gets nothing.
fn write_subnets<S: Sink>(
    out: &mut S,
    style: Option<Style<'_>>,
    network: &IpCidr,
    len: u8,
) -> Result<(), OutputFailed>
    ensures { Answered (S.state out.old) (S.state out.new) (printed_walk (option_map (λ s. style_in s) style.entry) (inside_of len network.now)) result }
{
    match network {
        IpCidr::V4(network) => write_inside(out, style, &[*network], &[], len, None),
        IpCidr::V6(network) => write_inside(out, style, &[], &[*network], len, None),
    }
}

/// The networks inside a network.
fn split_network<'a, S: Sink>(
    style: Option<Style<'_>>,
    network: &IpCidr,
    word: &'a str,
    len: u8,
    out: &mut S,
) -> Result<Verdict, CommandError<'a>>
    ensures { SplitsNetwork (option_map (λ s. style_in s) style.entry) network.now word.now len (S.state out.old) (S.state out.new) result }
{
    if has_none(network, len) {
        return Err(CommandError::Argument(word, ArgumentError::Length));
    }
    by_output(Verdict::Yes, write_subnets(out, style, network, len))
}

/// The networks inside those of the list of a file.
fn split_list<'a, M: Memory, F: Sources, O: Sink>(
    memory: &mut M,
    sources: &F,
    style: Option<Style<'_>>,
    file: &'a str,
    len: u8,
    out: &mut O,
) -> Result<Verdict, CommandError<'a>>
    ensures splits { SplitsList (F.contents sources.now) (option_map (λ s. style_in s) style.entry) file.now len (O.state out.old) (O.state out.new) result }
    ensures cause { IfErr result (Cause (FileFails (F.contents sources.now) (F.reasons sources.now)) (M.refused memory.new)) }
{
    let sets = read_listed(memory, sources, file)?;
    tell_free(style, &sets, len, None, out)
}

/// The command `split`, of a prefix length with the word that it is told in.
pub fn split<'a, M: Memory, F: Sources, O: Sink>(
    memory: &mut M,
    sources: &F,
    style: Option<Style<'_>>,
    operand: &'a str,
    word: &'a str,
    len: u8,
    out: &mut O,
) -> Result<Verdict, CommandError<'a>>
    ensures answers { AnswersRequest (F.contents sources.now) (Split (option_map (λ s. style_in s) style.entry) operand.now word.now len)
        (O.state out.old) (O.state out.new) result }
    ensures cause { IfErr result (Cause (FileFails (F.contents sources.now) (F.reasons sources.now)) (M.refused memory.new)) }
{
    match operand.parse::<IpCidr>() {
        Ok(network) => split_network(style, &network, word, len, out),
        Err(_) => split_list(memory, sources, style, operand, len, out),
    }
}
