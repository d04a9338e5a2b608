//! Lines that are collected and written in blocks, so that a line is written by one call.
ghost use Rattle.std.specs.Prelude.{◌≡◌, ◌↔◌, ◌++◌, List, ℕ, [], IsTrue, OnOk};
ghost use Rattle.std.specs.List.{flat_map};
ghost use Rattle.cidr_io.specs.Collecting.{Collects, HasSaid};
ghost use Rattle.cidr_io.specs.Shown.{part_text, shown};
ghost use Rattle.cidr_io.specs.Writing.{Answered, Tells, State, Writes};

use crate::shown::{MessagePart, shown_char};
use crate::sink::{OutputFailed, Sink};
use crate::writing::{flush, write_all};
use arrayvec::ArrayVec;
use std::marker::Model;

/// The most bytes that are collected.
const BLOCK: usize = 8192;

/// Lines that are collected to be written by one call: at most 8,192 bytes, in the block itself, so that nothing is
/// allocated.
///
/// By `push_line` and `push_message` a block ends where a line ends, but for a line that is longer than a block. After
/// an error a beginning of what was collected and of what was to come behind it was written, and what is collected is
/// not told.
#[derive(Drop)]
pub struct Block {
    collected: ArrayVec<u8, BLOCK>,
}

impl Model for Block {
    ghost use Rattle.std.specs.Prelude.{List, ℕ};

    ghost Value = { List ℕ };

    ghost view = { λ b. b.collected.items };
}

/// How many bytes parts have.
fn total_len(parts: &[&[u8]]) -> usize {
    let mut len = 0usize;
    for part in parts {
        len = len.saturating_add(part.len());
    }
    len
}

/// The most bytes that the parts of a message may have: four for each byte of a string that is shown.
fn most_len(parts: &[MessagePart<'_>]) -> usize {
    let mut len = 0usize;
    for part in parts {
        len = len.saturating_add(match part {
            MessagePart::Plain(text) => text.len(),
            MessagePart::Shown(text) => text.len().saturating_mul(4),
        });
    }
    len
}

impl Block {
    /// The block that has no bytes.
    pub fn new() -> Block
        ensures { result ≡ [] }
    {
        Block {
            collected: ArrayVec::new(),
        }
    }

    /// Whether nothing is collected.
    pub fn is_empty(&self) -> bool
        ensures { IsTrue result ↔ (self.now ≡ []) }
    {
        self.collected.is_empty()
    }

    /// Writes what is collected, unless there is room behind it for so many bytes.
    fn make_room<S: Sink>(&mut self, out: &mut S, len: usize) -> Result<(), OutputFailed>
        ensures { Collects (S.state out.old) (S.state out.new) self.old self.new [] result }
    {
        if self.collected.len().saturating_add(len) <= BLOCK {
            return Ok(());
        }
        self.write(out)
    }

    /// Appends bytes, wherever a line ends. Where there is no room for them, what is collected is written first, and
    /// they too where they are more than a block.
    pub fn push<S: Sink>(&mut self, out: &mut S, bytes: &[u8]) -> Result<(), OutputFailed>
        ensures { Collects (S.state out.old) (S.state out.new) self.old self.new bytes.now result }
    {
        let Err(_) = self.collected.try_extend_from_slice(bytes) else {
            return Ok(());
        };
        self.write(out)?;
        let Err(_) = self.collected.try_extend_from_slice(bytes) else {
            return Ok(());
        };
        write_all(out, bytes)
    }

    /// Appends the bytes of several parts, each as `push` does.
    fn push_parts<S: Sink>(&mut self, out: &mut S, parts: &[&[u8]]) -> Result<(), OutputFailed>
        ensures { Collects (S.state out.old) (S.state out.new) self.old self.new (flat_map (λ part. part.now) parts.now) result }
    {
        for part in parts {
            self.push(out, part)?;
        }
        Ok(())
    }

    /// Appends a line of several parts, the last of which ends it. Where there is no room for all of it, what is
    /// collected is written first.
    pub fn push_line<S: Sink>(&mut self, out: &mut S, parts: &[&[u8]]) -> Result<(), OutputFailed>
        ensures { Collects (S.state out.old) (S.state out.new) self.old self.new (flat_map (λ part. part.now) parts.now) result }
    {
        self.make_room(out, total_len(parts))?;
        self.push_parts(out, parts)
    }

    /// Writes what is collected.
    pub fn write<S: Sink>(&mut self, out: &mut S) -> Result<(), OutputFailed>
        ensures writes { Writes (S.state out.old) (S.state out.new) self.old result }
        ensures empty { OnOk result (self.new ≡ []) }
    {
        write_all(out, self.collected.as_slice())?;
        self.collected.clear();
        Ok(())
    }

    /// Writes what is collected, and flushes.
    pub fn flush<S: Sink>(&mut self, out: &mut S) -> Result<(), OutputFailed>
        ensures writes { Writes (S.state out.old) (S.state out.new) self.old result }
        ensures empty { OnOk result (self.new ≡ []) }
    {
        self.write(out)?;
        flush(out)
    }

    /// Appends a string from outside, as it is shown in a message.
    fn push_shown<S: Sink>(&mut self, out: &mut S, text: &str) -> Result<(), OutputFailed>
        ensures { Collects (S.state out.old) (S.state out.new) self.old self.new (shown text.now) result }
    {
        for c in text.chars() {
            self.push(out, shown_char(c).as_str().as_bytes())?;
        }
        Ok(())
    }

    /// Appends a part of a message.
    fn push_part<S: Sink>(&mut self, out: &mut S, part: MessagePart<'_>) -> Result<(), OutputFailed>
        ensures { Collects (S.state out.old) (S.state out.new) self.old self.new (part_text part.entry) result }
    {
        match part {
            MessagePart::Plain(text) => self.push(out, text.as_bytes()),
            MessagePart::Shown(text) => self.push_shown(out, text),
        }
    }

    /// Appends the parts of a message, the last of which ends in a line feed. Where there may be no room for all of
    /// them, four bytes for each byte of a string that is shown, what is collected is written first.
    pub fn push_message<S: Sink>(
        &mut self,
        out: &mut S,
        parts: &[MessagePart<'_>],
    ) -> Result<(), OutputFailed>
        ensures { Collects (S.state out.old) (S.state out.new) self.old self.new (flat_map part_text parts.now) result }
    {
        self.make_room(out, most_len(parts))?;
        for part in parts {
            self.push_part(out, *part)?;
        }
        Ok(())
    }

    /// Appends a line as `push_line` does, as far as the sink takes lines: one that has failed gets nothing.
    pub fn say<S: Sink>(&mut self, out: &mut S, parts: &[&[u8]])
        ensures { (start : State) (text : List ℕ) → HasSaid start (S.state out.old) self.old text
            → HasSaid start (S.state out.new) self.new (text ++ flat_map (λ part. part.now) parts.now) }
    {
        if !out.failed() {
            let _ = self.push_line(out, parts);
        }
    }

    /// Appends a message as `push_message` does, as far as the sink takes messages: one that has failed gets nothing.
    pub fn say_message<S: Sink>(&mut self, out: &mut S, parts: &[MessagePart<'_>])
        ensures { (start : State) (text : List ℕ) → HasSaid start (S.state out.old) self.old text
            → HasSaid start (S.state out.new) self.new (text ++ flat_map part_text parts.now) }
    {
        if !out.failed() {
            let _ = self.push_message(out, parts);
        }
    }

    /// Writes what is left of the lines, and flushes. A sink that has failed gets nothing.
    pub fn end<S: Sink>(&mut self, out: &mut S)
        ensures { (start : State) (text : List ℕ) → HasSaid start (S.state out.old) self.old text
            → Tells start (S.state out.new) text }
    {
        if !out.failed() {
            let _ = self.flush(out);
        }
    }
}
