//! What a program reads from: a source that may give a part of what it is asked for, and may fail.
ghost use Rattle.std.specs.Prelude.{◌≡◌, ℕ, List, Option, ◌<◌, ◌≤◌, length, take, IfSome, MatchOption};
ghost use Rattle.std.specs.Io.KnownBytes.{Consumes, IsAtEnd, Keeps};
ghost use Rattle.cidr_io.specs.Lines.{Gives};

use std::io;
use std::io::Read;

/// Gives bytes.
pub trait Source {
    /// The bytes that are left, if they are told. A source that tells them does not fail.
    ghost left: { Self → Option (List ℕ) };

    /// Reads bytes to the start of `buf`: `Some(n)` are n bytes, none only at the end or where there is no room, and
    /// `None` is a read that failed.
    fn read_some(&mut self, buf: &mut [u8]) -> Option<usize>
        ensures { Gives (left self.old) (left self.new) result buf.new };
}

impl Source for &[u8] {
    ghost use Rattle.std.specs.Prelude.{Some};

    ghost left = { λ s. Some s.now };

    fn read_some(&mut self, buf: &mut [u8]) -> Option<usize> {
        let count = self.len().min(buf.len());
        let (front, rest) = self.split_at(count);
        let (room, _) = buf.split_at_mut(count);
        room.copy_from_slice(front);
        *self = rest;
        Some(count)
    }
}

/// How often a read is tried that a signal interrupts.
const TRIES: usize = 1_000_000;

/// Reads bytes of a reader to the start of `buf`, again where a signal interrupts it; `None` is a read that failed, or
/// that was interrupted a million times, and nothing was read.
pub fn read_uninterrupted<R: Read>(reader: &mut R, buf: &mut [u8]) -> Option<usize>
    ensures fits { IfSome result (λ n. n ≤ length buf.new) }
    ensures bytes { MatchOption result (Keeps (R.remaining reader.old) (R.remaining reader.new))
        (λ n. Consumes (R.remaining reader.old) (R.remaining reader.new) (take n buf.new)) }
    ensures end { IfSome result (λ n. n ≡ 0 → 0 < length buf.new → IsAtEnd (R.remaining reader.new)) }
{
    for _tries in 0..TRIES {
        match reader.read(buf) {
            Ok(count) => return Some(count),
            Err(e) if e.kind() == io::ErrorKind::Interrupted => {}
            Err(_) => return None,
        }
    }
    None
}
