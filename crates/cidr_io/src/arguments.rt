//! Reading the arguments of a run, without the program's name.
ghost use Rattle.std.specs.Prelude.{◌≡◌, ℕ, ◌<◌, List, map, Option, IfOk, MatchResult, OnErr, true};
ghost use Rattle.std.specs.Option.{option_map};
ghost use Rattle.std.specs.Io.{WritesAtMost};
ghost use Rattle.std.specs.String.{string_bytes};
ghost use Rattle.cidr_io.specs.Arguments.{IsArgument, Fills, AreArguments, AreUnread};

use crate::memory::Memory;
use crate::shown::byte_excerpt;
use arrayvec::ArrayString;
use std::alloc::AllocError;
use std::env::{Env, FillError};

/// The bytes of an argument for which there is room at first.
const ROOM: usize = 256;

/// The arguments of a run, without the program's name, which is not read.
pub trait Arguments {
    /// The bytes of each argument, if they are told.
    ghost told: { Self → Option (List (List ℕ)) };

    /// Copies the argument at this index, from 0 on and without the program's name, to the start of `buf`, and returns
    /// its length in bytes. The errors are `NotPresent` past the last argument, and `TooLong` where `buf` has no room
    /// for all of it. The caller has to prove that the index is below 2^64 - 1.
    fn copy_to(&self, index: usize, buf: &mut [u8]) -> Result<usize, FillError>
        requires { index < 18446744073709551615 }
        ensures bound { WritesAtMost result buf.new }
        ensures fills { Fills (told self.now) index result buf.new };
}

/// The arguments that the system has given, which nothing is told of.
#[derive(Clone, Copy)]
pub struct SystemArguments<'a, R: Env> {
    /// The system.
    pub system: &'a R,
}

impl<R: Env> Arguments for SystemArguments<'_, R> {
    ghost use Rattle.std.specs.Prelude.{None};

    ghost told = { λ _. None };

    fn copy_to(&self, index: usize, buf: &mut [u8]) -> Result<usize, FillError> {
        self.system.arg(index + 1, buf)
    }
}

/// Why the arguments can't be read.
#[derive(Debug, Drop, PartialEq)]
pub enum ArgumentReadError {
    /// An argument is not UTF-8: its beginning, as `byte_excerpt` shows it.
    NotText(ArrayString<42>),
    /// An allocation for the arguments was refused.
    NoMemory,
}

impl From<AllocError> for ArgumentReadError {
    ghost use Rattle.std.specs.Prelude.{◌≡◌};
    ghost use Rattle.cidr_io.specs.declared.arguments.ArgumentReadError.TheVariants.{NoMemory};

    ghost from_gives = { λ _ e. e ≡ NoMemory };

    fn from(_error: AllocError) -> ArgumentReadError {
        ArgumentReadError::NoMemory
    }
}

/// The bytes of the argument at this index; `None` past the last one.
fn bytes_at<M: Memory, A: Arguments>(
    memory: &mut M,
    arguments: &A,
    index: usize,
) -> Result<Option<Vec<u8>>, AllocError>
    requires { index < 18446744073709551615 }
    ensures argument { IfOk result
        (λ found. IsArgument (A.told arguments.now) index (option_map (λ bytes. bytes.items) found)) }
    ensures refused { OnErr result (M.refused memory.new ≡ true) }
{
    let mut buf = Vec::new(memory.alloc());
    let mut room = ROOM;
    loop {
        buf.clear();
        memory.reserve(&mut buf, room)?;
        let Ok(()) = buf.resize(room, 0) else {
            unreachable!()
        };
        match arguments.copy_to(index, buf.as_mut_slice()) {
            Ok(n) => {
                buf.truncate(n);
                return Ok(Some(buf));
            }
            Err(FillError::NotPresent) => return Ok(None),
            Err(FillError::TooLong) => room *= 2,
        }
    }
}

/// The arguments as strings, in their order. It reads up to the first error: `NotText` of the first argument that is not
/// UTF-8, and `NoMemory` where an allocation was refused, which `memory` remembers.
pub fn texts_of<M: Memory, A: Arguments>(
    memory: &mut M,
    arguments: &A,
) -> Result<Vec<String>, ArgumentReadError>
    ensures { MatchResult result (λ texts. AreArguments (A.told arguments.now) (map string_bytes texts.items))
        (AreUnread (A.told arguments.now) (M.refused memory.new)) }
{
    let mut texts = Vec::new(memory.alloc());
    loop {
        let Some(bytes) = bytes_at(memory, arguments, texts.len())? else {
            return Ok(texts);
        };
        let text = match String::from_utf8(bytes) {
            Ok(text) => text,
            Err(e) => return Err(ArgumentReadError::NotText(byte_excerpt(e.as_bytes()))),
        };
        memory.reserve(&mut texts, 1)?;
        let Ok(()) = texts.push(text) else {
            unreachable!()
        };
    }
}

/// The arguments as a program takes them: a slice of each string. The error is an allocation that was refused, which
/// `memory` remembers.
pub fn borrowed<'a, M: Memory>(
    memory: &mut M,
    texts: &'a [String],
) -> Result<Vec<&'a str>, AllocError>
    ensures slices { IfOk result (λ slices. map (λ s. s.now) slices.items ≡ map string_bytes texts.now) }
    ensures refused { OnErr result (M.refused memory.new ≡ true) }
{
    let mut slices = Vec::new(memory.alloc());
    for text in texts {
        memory.reserve(&mut slices, 1)?;
        let Ok(()) = slices.push(text.as_str()) else {
            unreachable!()
        };
    }
    Ok(slices)
}
