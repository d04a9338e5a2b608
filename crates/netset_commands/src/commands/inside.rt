//! The addresses of a network that no list has.
ghost use Rattle.std.specs.Prelude.{[], map, option_map, IfErr};
ghost use Rattle.cidr_lists.specs.Formats.{style_in};
ghost use Rattle.netset_commands.specs.Causes.{Cause, FileFails};
ghost use Rattle.netset_commands.specs.Commands.{NotIn};
ghost use Rattle.netset_commands.specs.Program.{AnswersRequest};

use crate::commands::combine::combination;
use crate::commands::operations::Operation;
use crate::commands::single::network_operand;
use crate::errors::CommandError;
use crate::input::files::Sources;
use crate::input::several::read_several;
use crate::output::answers::Verdict;
use crate::output::sets::write_by;
use cidr_io::memory::Memory;
use cidr_io::sink::Sink;
use cidr_lists::formats::Style;
use cidr_lists::sets::{Sets, Step};

/// The command `not --in`.
pub fn not_in<'a, M: Memory, F: Sources, O: Sink>(
    memory: &mut M,
    sources: &F,
    style: Option<Style<'_>>,
    net: &'a str,
    files: &'a [&'a str],
    out: &mut O,
) -> Result<Verdict, CommandError<'a>>
    ensures answers { AnswersRequest (F.contents sources.now) (NotIn (option_map (λ s. style_in s) style.entry) net.now (map (λ file. file.now) files.now))
        (O.state out.old) (O.state out.new) result }
    ensures cause { IfErr result (Cause (FileFails (F.contents sources.now) (F.reasons sources.now)) (M.refused memory.new)) }
{
    let network = network_operand(net)?;
    let several = read_several(memory, sources, files)?;
    let rest = combination(Operation::Not, several);
    let rest = memory.watch(rest)?;
    let whole = Sets::of_network(memory.alloc(), &network);
    let whole = memory.watch(whole)?;
    let inside = whole.stepped(Step::Intersection, &rest);
    let inside = memory.watch(inside)?;
    write_by(memory, style, &inside, out)
}
