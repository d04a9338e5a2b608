//! What a program writes to: a sink that may take a part of what it is offered, and may fail.
ghost use Rattle.std.specs.Prelude.{◌≡◌, ◌↔◌, ◌⊎◌, Bool, IsTrue, true, false};
ghost use Rattle.std.specs.IoError.{error_kind};
ghost use Rattle.std.specs.declared.io.ErrorKind.TheVariants.{BrokenPipe};
ghost use Rattle.cidr_io.specs.Writing.{State, Takes, Flushes};

use std::io;
use std::io::Write;
use std::marker::Model;

/// The output has failed, and a beginning of what was to be written was written.
#[derive(Clone, Copy, Debug, Drop, PartialEq)]
pub struct OutputFailed;

/// Takes bytes, and remembers whether it has failed.
pub trait Sink {
    /// The bytes that were taken, if the sink tells them, and whether it has failed.
    ghost state: { Self → State };

    /// Offers bytes: `Some(n)` took the first n of them, at least one if there are any, and `None` took nothing
    /// and is a failure. No bytes give `Some(0)` and change nothing.
    fn write(&mut self, bytes: &[u8]) -> Option<usize>
        ensures takes { Takes (state self.old) (state self.new) bytes.now result };

    /// Sends on what was taken; false is a failure.
    fn flush(&mut self) -> bool
        ensures { Flushes (state self.old) (state self.new) result };

    /// Whether a call of `write` or `flush` has failed.
    fn failed(&self) -> bool
        ensures { result ≡ (state self.now).failed };
}

/// A sink that knows whether anybody still reads it.
pub trait Output: Sink {
    /// Whether a call has failed because nobody reads it any more.
    ghost closed: { Self → Bool };

    /// Whether a call of `write` or `flush` has failed because nobody reads what was written any more.
    fn is_closed(&self) -> bool
        ensures { result ≡ closed self.now };
}

/// A writer that remembers whether it has failed, and whether that was because nobody reads it any more
/// (`BrokenPipe`).
///
/// An error of the writer, also an interrupted call, is a failure, and so is a write that takes none of some bytes.
#[derive(Drop)]
pub struct Tracked<W: Write> {
    out: W,
    failed: bool,
    closed: bool,
}

impl<W: Write> Model for Tracked<W> {
    ghost use Rattle.cidr_io.specs.Tracked.{Watched};

    ghost Value = { Watched W };

    ghost view = { λ t. record { writer = t.out; has_failed = t.failed; is_closed = t.closed } };
}

impl<W: Write> Tracked<W> {
    /// A sink over this writer, which has not failed yet.
    pub fn new(out: W) -> Self
        ensures { result ≡ record { writer = out; has_failed = false; is_closed = false } }
    {
        Tracked {
            out,
            failed: false,
            closed: false,
        }
    }

    /// Gives the writer back.
    pub fn into_inner(self) -> W
        ensures { result ≡ self.writer }
    {
        let Tracked {
            out,
            failed: _,
            closed: _,
        } = self;
        out
    }

    /// Remembers an error.
    fn fail(&mut self, error: &io::Error)
        ensures writer { self.new.writer ≡ self.old.writer }
        ensures failed { self.new.has_failed ≡ true }
        ensures closed { IsTrue self.new.is_closed ↔ (IsTrue self.old.is_closed ⊎ (error_kind error.now ≡ BrokenPipe)) }
    {
        self.failed = true;
        self.closed |= error.kind() == io::ErrorKind::BrokenPipe;
    }
}

impl<W: Write> Sink for Tracked<W> {
    ghost state = { λ t. record { taken = W.contents t.writer; failed = t.has_failed } };

    fn write(&mut self, bytes: &[u8]) -> Option<usize> {
        if bytes.is_empty() {
            return Some(0);
        }
        match self.out.write(bytes) {
            Ok(0) => {
                self.failed = true;
                None
            }
            Ok(n) => Some(n),
            Err(e) => {
                self.fail(&e);
                None
            }
        }
    }

    fn flush(&mut self) -> bool {
        match self.out.flush() {
            Ok(()) => true,
            Err(e) => {
                self.fail(&e);
                false
            }
        }
    }

    fn failed(&self) -> bool {
        self.failed
    }
}

impl<W: Write> Output for Tracked<W> {
    ghost closed = { λ t. t.is_closed };

    fn is_closed(&self) -> bool {
        self.closed
    }
}
