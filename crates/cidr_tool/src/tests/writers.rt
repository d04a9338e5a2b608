//! Writers in memory.
use cidr_io::sink::Tracked;
use std::alloc::Global;
use std::io;
use std::io::{ErrorKind, Write};

/// What a writer does at the call that it is to have trouble at.
#[derive(Clone, Copy, PartialEq)]
pub enum Trouble {
    Error(ErrorKind),
    Zero,
}

/// A writer in memory that takes at most so many bytes a call, and has its trouble at one call.
#[derive(Drop)]
pub struct Memory {
    pub bytes: Vec<u8>,
    pub calls: usize,
    step: usize,
    at: usize,
    trouble: Trouble,
}

impl Memory {
    fn has_trouble(&mut self) -> bool {
        self.calls = self.calls.saturating_add(1);
        self.calls == self.at
    }
}

impl Write for Memory {
    fn write(&mut self, buf: &[u8]) -> io::Result<usize> {
        if self.has_trouble() {
            return match self.trouble {
                Trouble::Error(kind) => Err(io::Error::from(kind)),
                Trouble::Zero => Ok(0),
            };
        }
        let n = buf.len().min(self.step);
        self.bytes.extend_from_slice(&buf[..n])?;
        Ok(n)
    }

    fn flush(&mut self) -> io::Result<()> {
        if self.has_trouble() {
            return match self.trouble {
                Trouble::Error(kind) => Err(io::Error::from(kind)),
                Trouble::Zero => Ok(()),
            };
        }
        Ok(())
    }
}

/// A writer that takes at most `step` bytes a call and has its trouble at the call `at`, from 1 on.
pub fn troubled(alloc: Global, step: usize, at: usize, trouble: Trouble) -> Tracked<Memory> {
    Tracked::new(Memory {
        bytes: Vec::new(alloc),
        calls: 0,
        step,
        at,
        trouble,
    })
}

/// A writer that takes all and never has trouble.
pub fn plain(alloc: Global) -> Tracked<Memory> {
    troubled(alloc, usize::MAX, 0, Trouble::Zero)
}
