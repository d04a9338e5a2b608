//! What is told of each network: the names of its zones in reverse DNS, or its masks.
ghost use Rattle.std.specs.Prelude.{◌<◌, IfErr, MatchOption, decimal, ℕ};
ghost use Rattle.std.specs.List.{flat_map};
ghost use Rattle.cidr_io.specs.Collecting.{Collects};
ghost use Rattle.cidr_io.specs.Writing.{Answered, Writes};
ghost use Rattle.cidr_lists.specs.Sets.{networks_of};
ghost use Rattle.netset_commands.specs.Answering.{DescribesNetworks};
ghost use Rattle.netset_commands.specs.Causes.{Cause, FileFails};
ghost use Rattle.netset_commands.specs.Commands.{Describe};
ghost use Rattle.cidr_lists.specs.Descriptions.{mask_line};
ghost use Rattle.cidr_lists.specs.Printing.{line};
ghost use Rattle.netset_commands.specs.Describing.{IsMaskOfLength, told_of, zone_lines};
ghost use Rattle.netset_commands.specs.declared.commands.describe.Description.TheVariants.{Masks};
ghost use Rattle.netset_commands.specs.Free.{all_told};
ghost use Rattle.netset_commands.specs.Networks.{ip_of};
ghost use Rattle.netset_commands.specs.Program.{AnswersRequest};
ghost use Rattle.netset_commands.specs.Single.{IsNumber};

use crate::commands::free::length_of;
use crate::errors::CommandError;
use crate::input::files::Sources;
use crate::input::operands::read_operand;
use crate::output::answers::{Verdict, by_output};
use crate::output::report::write_line;
use cidr::{FamilyCidr, IpAddr, IpCidr};
use cidr_ext::CidrReverseName;
use cidr_io::block::Block;
use cidr_io::decimal::decimal_text;
use cidr_io::memory::Memory;
use cidr_io::sink::{OutputFailed, Sink};
use cidr_io::writing::{flush, write_text};
use cidr_lists::descriptions::{length_lines, length_of_mask, mask_line};
use cidr_lists::sets::Sets;

/// What is told of a network.
#[derive(Clone, Copy, Drop)]
pub enum Description {
    /// The names of its zones in reverse DNS.
    Zones,
    /// Its first address, its mask and its host mask.
    Masks,
}

/// Appends the names of the zones of a network to a block, a line each.
fn push_zones<S: Sink>(block: &mut Block, out: &mut S, network: &IpCidr) -> Result<(), OutputFailed>
    ensures { Collects (S.state out.old) (S.state out.new) block.old block.new (zone_lines network.now) result }
{
    let mut zones = network.reverse_zones();
    while let Some(name) = zones.next() {
        block.push_line(out, &[name.as_str().as_bytes(), b"\n"])?;
    }
    Ok(())
}

/// Appends the first address, the mask and the host mask of a network to a block, as a line.
fn push_masks<S: Sink>(block: &mut Block, out: &mut S, network: &IpCidr) -> Result<(), OutputFailed>
    ensures { Collects (S.state out.old) (S.state out.new) block.old block.new (mask_line network.now) result }
{
    block.push(out, mask_line(network).as_str().as_bytes())
}

/// Appends what is told of a network to a block.
fn push_told<S: Sink>(
    block: &mut Block,
    out: &mut S,
    what: Description,
    network: &IpCidr,
) -> Result<(), OutputFailed>
    ensures { Collects (S.state out.old) (S.state out.new) block.old block.new (told_of what network.now) result }
{
    match what {
        Description::Zones => push_zones(block, out, network),
        Description::Masks => push_masks(block, out, network),
    }
}

/// Writes what is told of networks in blocks.
fn write_each<C: FamilyCidr, S: Sink>(
    out: &mut S,
    what: Description,
    networks: &[C],
) -> Result<(), OutputFailed>
    ensures { Writes (S.state out.old) (S.state out.new)
        (flat_map (λ network. told_of what (ip_of C.FAMILY (C.bits network))) networks.now) result }
{
    let mut block = Block::new();
    for network in networks {
        push_told(&mut block, out, what, &network.to_ip())?;
    }
    block.write(out)
}

/// Writes what is told of the networks of sets. An output that has failed before gets nothing.
fn write_told<S: Sink>(out: &mut S, what: Description, sets: &Sets) -> Result<(), OutputFailed>
    ensures { Answered (S.state out.old) (S.state out.new) (all_told (told_of what) (networks_of sets.now)) result }
{
    if out.failed() {
        return Err(OutputFailed);
    }
    write_each(out, what, sets.v4.as_slice())?;
    write_each(out, what, sets.v6.as_slice())?;
    flush(out)
}

/// Tells of the networks of an operand.
fn describe_networks<'a, M: Memory, F: Sources, O: Sink>(
    memory: &mut M,
    sources: &F,
    what: Description,
    operand: &'a str,
    out: &mut O,
) -> Result<Verdict, CommandError<'a>>
    ensures describes { DescribesNetworks (F.contents sources.now) what operand.now (O.state out.old) (O.state out.new) result }
    ensures cause { IfErr result (Cause (FileFails (F.contents sources.now) (F.reasons sources.now)) (M.refused memory.new)) }
{
    let sets = read_operand(memory, sources, operand)?;
    by_output(Verdict::Yes, write_told(out, what, &sets))
}

/// The prefix length that an argument stands for as a mask.
fn mask_length_of(text: &str) -> Option<u8>
    ensures { MatchOption result ((n : ℕ) → ¬ (IsMaskOfLength text.now n)) (IsMaskOfLength text.now) }
{
    let Ok(mask) = text.parse::<IpAddr>() else {
        return None;
    };
    length_of_mask(mask)
}

/// Writes a prefix length as a line.
fn write_length<S: Sink>(out: &mut S, len: u8) -> Result<(), OutputFailed>
    ensures { Answered (S.state out.old) (S.state out.new) (line (decimal len)) result }
{
    write_line(out, &[decimal_text(u128::from(len)).as_str(), "\n"])
}

/// The command `mask` of an operand that is no prefix length.
fn describe_mask<'a, M: Memory, F: Sources, O: Sink>(
    memory: &mut M,
    sources: &F,
    operand: &'a str,
    out: &mut O,
) -> Result<Verdict, CommandError<'a>>
    requires { (n : ℕ) → IsNumber operand.now n → 128 < n }
    ensures answers { AnswersRequest (F.contents sources.now) (Describe Masks operand.now)
        (O.state out.old) (O.state out.new) result }
    ensures cause { IfErr result (Cause (FileFails (F.contents sources.now) (F.reasons sources.now)) (M.refused memory.new)) }
{
    match mask_length_of(operand) {
        Some(len) => by_output(Verdict::Yes, write_length(out, len)),
        None => describe_networks(memory, sources, Description::Masks, operand, out),
    }
}

/// The commands `reverse` and `mask`.
pub fn describe<'a, M: Memory, F: Sources, O: Sink>(
    memory: &mut M,
    sources: &F,
    what: Description,
    operand: &'a str,
    out: &mut O,
) -> Result<Verdict, CommandError<'a>>
    ensures answers { AnswersRequest (F.contents sources.now) (Describe what operand.now)
        (O.state out.old) (O.state out.new) result }
    ensures cause { IfErr result (Cause (FileFails (F.contents sources.now) (F.reasons sources.now)) (M.refused memory.new)) }
{
    match what {
        Description::Zones => describe_networks(memory, sources, what, operand, out),
        Description::Masks => match length_of(operand) {
            Some(len) => by_output(Verdict::Yes, write_text(out, length_lines(len).as_str())),
            None => describe_mask(memory, sources, operand, out),
        },
    }
}
