//! What addresses are for, by the registries of IANA.
ghost use Rattle.std.specs.Prelude.{IfErr};
ghost use Rattle.netset_commands.specs.Causes.{Cause, FileFails};
ghost use Rattle.netset_commands.specs.Class.{IsNoAddressText};
ghost use Rattle.netset_commands.specs.Commands.{Class};
ghost use Rattle.netset_commands.specs.Program.{AnswersRequest};

use crate::commands::look::{LookError, look_all, verdict_of};
use crate::errors::{ArgumentError, CommandError};
use crate::input::files::Sources;
use crate::input::table::{Answer, LookUps, unread};
use crate::output::answers::{Verdict, by_output};
use cidr::IpAddr;
use cidr_io::block::Block;
use cidr_io::lines::LineReader;
use cidr_io::memory::Memory;
use cidr_io::sink::{OutputFailed, Sink};
use cidr_io::writing::write_text;
use cidr_lists::classes::class_line;
use cidr_lists::fields::Asked;

/// The registries, in which addresses are looked up.
#[derive(Clone, Copy)]
struct Registries;

impl LookUps for Registries {
    ghost use Rattle.cidr_lists.specs.Classes.{registry};

    ghost rows = { λ _. registry };

    ghost is_found = { λ _ _ _. Unit {0} };

    fn find(&self, _address: &IpAddr) -> Option<Answer> {
        None
    }

    fn push<S: Sink>(
        &self,
        address: &IpAddr,
        _found: Option<Answer>,
        block: &mut Block,
        out: &mut S,
    ) -> Result<bool, OutputFailed> {
        let (line, found) = class_line(address);
        block.push(out, line.as_str().as_bytes())?;
        Ok(found)
    }
}

/// Tells what the addresses of a file are for.
fn tell_classes<'a, M: Memory, F: Sources, O: Sink>(
    memory: &mut M,
    sources: &F,
    file: &'a str,
    out: &mut O,
) -> Result<Verdict, CommandError<'a>>
    ensures answers { IsNoAddressText file.now → AnswersRequest (F.contents sources.now) (Class file.now)
        (O.state out.old) (O.state out.new) result }
    ensures cause { IfErr result (Cause (FileFails (F.contents sources.now) (F.reasons sources.now)) (M.refused memory.new)) }
{
    let Ok(reader) = sources.open(file) else {
        return Err(CommandError::Argument(file, ArgumentError::AddressOrFile));
    };
    let Ok(mut reader) = LineReader::new(memory, reader) else {
        return Err(CommandError::NoMemory);
    };
    match look_all(memory, &Registries, Asked::First, &mut reader, out) {
        Ok(found) => Ok(verdict_of(found)),
        Err(LookError::Reading(e)) => Err(unread(file, e)),
        Err(LookError::Output) => Err(CommandError::Output),
    }
}

/// The command `class`.
pub fn class<'a, M: Memory, F: Sources, O: Sink>(
    memory: &mut M,
    sources: &F,
    operand: &'a str,
    out: &mut O,
) -> Result<Verdict, CommandError<'a>>
    ensures answers { AnswersRequest (F.contents sources.now) (Class operand.now) (O.state out.old) (O.state out.new) result }
    ensures cause { IfErr result (Cause (FileFails (F.contents sources.now) (F.reasons sources.now)) (M.refused memory.new)) }
{
    match operand.parse::<IpAddr>() {
        Ok(address) => {
            let (line, found) = class_line(&address);
            by_output(verdict_of(found), write_text(out, line.as_str()))
        }
        Err(_) => tell_classes(memory, sources, operand, out),
    }
}
