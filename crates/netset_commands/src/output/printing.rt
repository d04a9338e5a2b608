//! Writing what is collected in blocks: networks, one a line, and the lines of a file that is read at the same time.
ghost use Rattle.std.specs.List.{flat_map};
ghost use Rattle.cidr.specs.texts.Printed.{plain_text};
ghost use Rattle.cidr_io.specs.Writing.{Writes};
ghost use Rattle.cidr_lists.specs.Printing.{line};
ghost use Rattle.std.specs.Prelude.{[]};
ghost use Rattle.cidr_io.specs.Collecting.{Collects};
ghost use Rattle.netset_commands.specs.Gathering.{Stops};

use crate::errors::CommandError;
use crate::output::answers::Verdict;
use cidr::FamilyCidr;
use cidr_io::block::Block;
use cidr_io::lines::LineReader;
use cidr_io::sink::{OutputFailed, Sink};
use cidr_io::source::Source;

/// Writes the lines of a block before more is read, so that they don't wait for it.
pub fn catch_up<R: Source + Drop, S: Sink>(
    reader: &LineReader<R>,
    block: &mut Block,
    out: &mut S,
) -> Result<(), OutputFailed>
    ensures { Collects (S.state out.old) (S.state out.new) block.old block.new [] result }
{
    if block.is_empty() || reader.has_line() {
        return Ok(());
    }
    block.flush(out)
}

/// Writes what is not yet written where no more lines are read for an error, and returns it, or that the output has failed.
pub fn stop<'a, S: Sink>(
    block: &mut Block,
    error: CommandError<'a>,
    out: &mut S,
) -> Result<Verdict, CommandError<'a>>
    ensures { Stops error.entry (S.state out.old) (S.state out.new) block.old result }
{
    match error {
        CommandError::Output => Err(CommandError::Output),
        error => match block.flush(out) {
            Ok(()) => Err(error),
            Err(_) => Err(CommandError::Output),
        },
    }
}

/// Writes networks in blocks, one a line.
pub fn write_networks<C: FamilyCidr, S: Sink>(
    out: &mut S,
    networks: &[C],
) -> Result<(), OutputFailed>
    ensures { Writes (S.state out.old) (S.state out.new)
        (flat_map (λ network. line (plain_text C.FAMILY (C.bits network))) networks.now) result }
{
    let mut block = Block::new();
    for network in networks {
        let text = network.to_text();
        block.push_line(out, &[text.as_str().as_bytes(), b"\n"])?;
    }
    block.write(out)
}
