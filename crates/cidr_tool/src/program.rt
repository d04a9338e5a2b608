//! A run of the program, from its arguments to its exit status.
ghost use Rattle.std.specs.Prelude.{◌≡◌, IfOk, OnErr, true};
ghost use Rattle.cidr_tool.specs.Program.{AnswersAll, Runs};

use crate::errors::ToolError;
use crate::report::{report, report_no_memory};
use crate::run::run;
use cidr_io::arguments::{ArgumentReadError, Arguments, borrowed, texts_of};
use cidr_io::memory::Memory;
use cidr_io::sink::Sink;
use std::alloc::AllocError;

/// Answers the arguments. An argument that is not UTF-8 is usage.
fn answer<M: Memory, A: Arguments, O: Sink>(
    memory: &mut M,
    arguments: &A,
    out: &mut O,
) -> Result<Result<(), ToolError>, AllocError>
    ensures answers { IfOk result (AnswersAll (A.told arguments.now) (O.state out.old) (O.state out.new)) }
    ensures no_memory { OnErr result (O.state out.new ≡ O.state out.old) }
    ensures refused { OnErr result (M.refused memory.new ≡ true) }
{
    let texts = match texts_of(memory, arguments) {
        Ok(texts) => texts,
        Err(ArgumentReadError::NotText(_)) => return Ok(Err(ToolError::Usage)),
        Err(ArgumentReadError::NoMemory) => return Err(AllocError),
    };
    let slices = borrowed(memory, texts.as_slice())?;
    Ok(run(slices.as_slice(), out))
}

/// Answers the arguments on `out`, writes the line that belongs to the answer, if there is one, to `err`, and
/// returns the exit status: 0 for an answer, 1 for a refusal, 2 for usage, 3 where the output failed or an allocation
/// for the arguments was refused.
pub fn program<M: Memory, A: Arguments, O: Sink, E: Sink>(
    memory: &mut M,
    arguments: &A,
    out: &mut O,
    err: &mut E,
) -> u8
    ensures { Runs (A.told arguments.now) (M.refused memory.new) (O.state out.old) (O.state out.new)
        (E.state err.old) (E.state err.new) result }
{
    match answer(memory, arguments, out) {
        Ok(answer) => report(&answer, err),
        Err(_) => report_no_memory(err),
    }
}
