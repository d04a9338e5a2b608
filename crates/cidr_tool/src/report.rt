//! The exit status, and what is written to standard error.
ghost use Rattle.std.specs.Prelude.{◌≡◌};
ghost use Rattle.cidr_io.specs.Writing.{Tells};
ghost use Rattle.cidr_tool.specs.Report.{Reports, status_of, refusal_line, no_memory_line};

use crate::errors::{Fault, ToolError};
use arrayvec::ArrayString;
use cidr_io::sink::Sink;
use cidr_io::writing::say;

const USAGE: &str =
    "usage: cidr_tool show NET | in NET ADDR | cmp NET NET | walk NET ENDS | bytes NET | loose TEXT\n";

/// The longest message of an error, and a line feed.
const MOST_LINE: usize = 100;

/// The line of a refusal, which is the error's message.
fn refused_line(fault: &Fault) -> ArrayString<MOST_LINE>
    ensures { result.bytes ≡ refusal_line fault.now }
{
    let mut line = ArrayString::new();
    line.push_str(fault.to_text().as_str());
    line.push_str("\n");
    line
}

/// Writes the line of a refusal, as far as the sink takes it.
fn say_refused<E: Sink>(err: &mut E, fault: &Fault)
    ensures { Tells (E.state err.old) (E.state err.new) (refusal_line fault.now) }
{
    say(err, refused_line(fault).as_str());
}

/// Writes the line that belongs to an answer, if there is one, and returns the exit status whatever the sink does:
/// 0 for an answer, 1 for a refusal, 2 for usage, 3 where the output failed.
pub fn report<E: Sink>(answer: &Result<(), ToolError>, err: &mut E) -> u8
    ensures status { result ≡ status_of answer.now }
    ensures says { Reports answer.now (E.state err.old) (E.state err.new) }
{
    match answer {
        Ok(()) => 0,
        Err(ToolError::Refused(fault)) => {
            say_refused(err, fault);
            1
        }
        Err(ToolError::Usage) => {
            say(err, USAGE);
            2
        }
        Err(ToolError::Output) => {
            say(err, "output failed\n");
            3
        }
    }
}

/// Says that there is no memory for the arguments, and returns the exit status, which is that of a failed output.
pub fn report_no_memory<E: Sink>(err: &mut E) -> u8
    ensures status { result ≡ 3 }
    ensures says { Tells (E.state err.old) (E.state err.new) no_memory_line }
{
    say(err, "no memory\n");
    3
}
