//! Writing a whole string to a sink that may take it in parts.
ghost use Rattle.std.specs.Prelude.{◌≡◌, []};
ghost use Rattle.cidr_io.specs.Writing.{Writes, Answered, Tells};

use crate::sink::{OutputFailed, Sink};

/// Writes all bytes: offers what is left until all is taken, or the sink fails, which has a beginning of them then.
pub fn write_all<S: Sink>(out: &mut S, text: &[u8]) -> Result<(), OutputFailed>
    ensures { Writes (S.state out.old) (S.state out.new) text.now result }
{
    let mut rest = text;
    while !rest.is_empty() {
        let Some(n) = out.write(rest) else {
            return Err(OutputFailed);
        };
        rest = &rest[n..];
    }
    Ok(())
}

/// Sends on what was taken. The error is that the sink has failed.
pub fn flush<S: Sink>(out: &mut S) -> Result<(), OutputFailed>
    ensures { Writes (S.state out.old) (S.state out.new) [] result }
{
    if out.flush() {
        Ok(())
    } else {
        Err(OutputFailed)
    }
}

/// Writes a string, by one call of `write` where the sink takes all of it, and flushes. A sink that has failed before
/// gets nothing.
pub fn write_text<S: Sink>(out: &mut S, text: &str) -> Result<(), OutputFailed>
    ensures { Answered (S.state out.old) (S.state out.new) text.now result }
{
    if out.failed() {
        return Err(OutputFailed);
    }
    write_all(out, text.as_bytes())?;
    flush(out)
}

/// Writes a line as `write_text` does, as far as the sink takes it: whether it does is known to the sink alone.
pub fn say<E: Sink>(err: &mut E, line: &str)
    ensures { Tells (E.state err.old) (E.state err.new) line.now }
{
    let _ = write_text(err, line);
}
