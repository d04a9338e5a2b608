//! What an answer tells by the exit status, and what an output that failed is to a command.
ghost use Rattle.std.specs.Prelude.{◌≡◌};
ghost use Rattle.netset_commands.specs.Program.{by_output};

use crate::errors::CommandError;
use cidr_io::sink::OutputFailed;

/// What an answer tells by the exit status.
#[derive(Clone, Copy, Drop, PartialEq)]
pub enum Verdict {
    /// Done, or yes: 0.
    Yes,
    /// None, no, or findings: 1.
    No,
}

/// The result of a command whose answer was written, or else a beginning of it.
pub fn by_output<'a>(
    verdict: Verdict,
    written: Result<(), OutputFailed>,
) -> Result<Verdict, CommandError<'a>>
    ensures { result ≡ by_output verdict written }
{
    match written {
        Ok(()) => Ok(verdict),
        Err(_) => Err(CommandError::Output),
    }
}
