//! An answer that is held in memory.
ghost use Rattle.std.specs.Prelude.{◌≡◌, [], Some, MatchResult, true, false};

use cidr_io::sink::{Output, Sink, Tracked};
use std::alloc::{AllocError, Global};
use std::marker::Model;

/// What was written so far. A write fails where there is no memory for it: that is not told as an output that failed, but
/// by `finish`.
#[derive(Drop)]
pub struct Held {
    text: Tracked<Vec<u8>>,
}

impl Model for Held {
    ghost use Rattle.std.specs.Prelude.{ℕ, Bool, List};

    ghost Value = { List ℕ × Bool };

    ghost view = { λ held. (held.text.writer.items, held.text.has_failed) };
}

impl Held {
    /// Nothing was written yet.
    pub fn new(alloc: Global) -> Self
        ensures { result ≡ ([], false) }
    {
        Held {
            text: Tracked::new(Vec::new(alloc)),
        }
    }

    /// All that was written, if there was memory for it.
    pub fn finish(self) -> Result<Vec<u8>, AllocError>
        ensures { MatchResult result (λ bytes. self ≡ (bytes.items, false)) (λ e. self.1 ≡ true) }
    {
        let Held { text } = self;
        if text.failed() {
            return Err(AllocError);
        }
        Ok(text.into_inner())
    }
}

impl Sink for Held {
    ghost state = { λ held. record { taken = Some held.0; failed = held.1 } };

    fn write(&mut self, bytes: &[u8]) -> Option<usize> {
        self.text.write(bytes)
    }

    fn flush(&mut self) -> bool {
        self.text.flush()
    }

    fn failed(&self) -> bool {
        self.text.failed()
    }
}

impl Output for Held {
    ghost closed = { λ held. held.1 };

    fn is_closed(&self) -> bool {
        self.failed()
    }
}
