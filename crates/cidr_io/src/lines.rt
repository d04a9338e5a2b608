//! Reading lines, as slices of the blocks that are read.
ghost use Rattle.std.specs.Prelude.{◌≡◌, ◌<◌, ◌≤◌, [], Ok, None, true, false, ℕ, List, drop, length, take, vec_len, IsTrue, IfErr, IfOk, IfSome, MatchOption, OnErr, OnOk};
ghost use Rattle.std.specs.Bool.{Decides};
ghost use Rattle.std.specs.Io.KnownBytes.{IsAtEnd, prepend_known};
ghost use Rattle.cidr_io.specs.Lines.{HasNoFeed, IsFirstFeed, IsNextLine, IsTooLong, KeepsLines, MayFail, StaysTold, kept_of};
ghost use Rattle.cidr_io.specs.declared.lines.LineReadError.TheVariants.{Failed, NoMemory};

use crate::memory::Memory;
use crate::source::Source;
use std::alloc::AllocError;
use std::marker::Model;

/// How many bytes a source is asked for at once.
const CHUNK: usize = 65536;

/// The most bytes of a line, without its line feed: 1 MiB.
pub const MOST_BYTES: usize = 1_048_576;

/// How many bytes are kept of a longer line: so many that it is seen to be too long.
const KEPT: usize = MOST_BYTES + 1;

/// Why a line is not read.
#[derive(Clone, Copy, Debug, Drop, PartialEq)]
pub enum LineReadError {
    /// A read of the source has failed.
    Failed,
    /// An allocation was refused.
    NoMemory,
}

impl From<AllocError> for LineReadError {
    ghost use Rattle.std.specs.Prelude.{◌≡◌};
    ghost use Rattle.cidr_io.specs.declared.lines.LineReadError.TheVariants.{NoMemory};

    ghost from_gives = { λ _ e. e ≡ NoMemory };

    fn from(_error: AllocError) -> LineReadError {
        LineReadError::NoMemory
    }
}

/// Where the first line feed of a text stands.
pub fn feed_in(text: &[u8]) -> Option<usize>
    ensures { MatchOption result (HasNoFeed text.now) (IsFirstFeed text.now) }
{
    text.iter().position(|byte| *byte == b'\n')
}

/// Whether a line has more than [`MOST_BYTES`] bytes. Of such a line a [`LineReader`] has the first ones alone.
pub fn is_too_long(line: &[u8]) -> bool
    ensures { Decides result (IsTooLong line.now) }
{
    line.len() > MOST_BYTES
}

/// Drops bytes in front of the others.
fn drop_front(block: &mut Vec<u8>, count: usize)
    requires { count ≤ vec_len block.old }
    ensures { block.new.items ≡ drop count block.old.items }
{
    let len = block.len();
    block.as_mut_slice().copy_within(count..len, 0);
    block.truncate(len - count);
}

/// Reads bytes of a source behind those of a block, by way of a chunk; false at its end.
fn read_more<M: Memory, S: Source>(
    memory: &mut M,
    source: &mut S,
    chunk: &mut [u8],
    block: &mut Vec<u8>,
) -> Result<bool, LineReadError>
    requires { 0 < length chunk.old }
    ensures told { OnOk result (StaysTold (prepend_known block.old.items (S.left source.old))
        (prepend_known block.new.items (S.left source.new))) }
    ensures front { OnOk result (take (vec_len block.old) block.new.items ≡ block.old.items) }
    ensures more { result ≡ Ok true → vec_len block.old < vec_len block.new }
    ensures same { result ≡ Ok false → block.new.items ≡ block.old.items }
    ensures end { result ≡ Ok false → IsAtEnd (S.left source.new) }
    ensures failed { IfErr result (λ e. e ≡ Failed → prepend_known block.old.items (S.left source.old) ≡ None) }
    ensures refused { IfErr result (λ e. e ≡ NoMemory → M.refused memory.new ≡ true) }
{
    let Some(count) = source.read_some(chunk) else {
        return Err(LineReadError::Failed);
    };
    memory.reserve(block, count)?;
    let Ok(()) = block.extend_from_slice(&chunk[..count]) else {
        unreachable!()
    };
    Ok(count > 0)
}

/// Reads bytes of a source behind those of a block, until there is a line feed or to its end, and tells where the first
/// line feed stands. Of bytes without one no more stay in the block than are kept of a line, and a chunk.
fn fill_line<M: Memory, S: Source>(
    memory: &mut M,
    source: &mut S,
    chunk: &mut [u8],
    block: &mut Vec<u8>,
) -> Result<Option<usize>, LineReadError>
    requires { 0 < length chunk.old }
    ensures lines { OnOk result (KeepsLines (prepend_known block.old.items (S.left source.old))
        (prepend_known block.new.items (S.left source.new))) }
    ensures found { IfOk result (λ found. MatchOption found (HasNoFeed block.new.items × IsAtEnd (S.left source.new))
        (IsFirstFeed block.new.items)) }
    ensures failed { IfErr result (λ e. e ≡ Failed → MayFail (prepend_known block.old.items (S.left source.old))) }
    ensures refused { IfErr result (λ e. e ≡ NoMemory → M.refused memory.new ≡ true) }
{
    let mut seen = 0;
    for _reads in 0..u64::MAX {
        if let Some(index) = feed_in(&block[seen..]) {
            return Ok(Some(seen + index));
        }
        block.truncate(KEPT);
        seen = block.len();
        let has_more = read_more(memory, source, chunk, block)?;
        if !has_more {
            return Ok(None);
        }
    }
    Err(LineReadError::Failed)
}

/// How many bytes are kept of a line of so many.
fn kept(len: usize) -> usize
    ensures within { result ≤ len }
    ensures kept { (text : List ℕ) → take result text ≡ kept_of (take len text) }
{
    if len < KEPT { len } else { KEPT }
}

/// Where the next line of a block begins, and its length if a line feed is behind it: where none is known to be, more is
/// read, and what is in front of the line is dropped. `next` is where the line begins, and `ahead` its length, if that is
/// known.
fn find_line<M: Memory, S: Source>(
    memory: &mut M,
    source: &mut S,
    chunk: &mut [u8],
    block: &mut Vec<u8>,
    next: usize,
    ahead: Option<usize>,
) -> Result<(usize, Option<usize>), LineReadError>
    requires chunk { 0 < length chunk.old }
    requires within { next ≤ vec_len block.old }
    requires ahead { IfSome ahead (IsFirstFeed (drop next block.old.items)) }
    ensures within { IfOk result (λ line. line.0 ≤ vec_len block.new) }
    ensures lines { IfOk result (λ line. KeepsLines (prepend_known (drop next block.old.items) (S.left source.old))
        (prepend_known (drop line.0 block.new.items) (S.left source.new))) }
    ensures found { IfOk result (λ line. MatchOption line.1 (HasNoFeed (drop line.0 block.new.items) × IsAtEnd (S.left source.new))
        (IsFirstFeed (drop line.0 block.new.items))) }
    ensures failed { IfErr result (λ e. e ≡ Failed → MayFail (prepend_known (drop next block.old.items) (S.left source.old))) }
    ensures refused { IfErr result (λ e. e ≡ NoMemory → M.refused memory.new ≡ true) }
{
    if let Some(len) = ahead {
        return Ok((next, Some(len)));
    }
    drop_front(block, next);
    let found = fill_line(memory, source, chunk, block)?;
    Ok((0, found))
}

/// A chunk of zeros.
fn new_chunk<M: Memory>(memory: &mut M) -> Result<Vec<u8>, AllocError>
    ensures chunk { IfOk result (λ chunk. 0 < vec_len chunk) }
    ensures refused { OnErr result (M.refused memory.new ≡ true) }
{
    let mut chunk = Vec::new(memory.alloc());
    memory.reserve(&mut chunk, CHUNK)?;
    let Ok(()) = chunk.resize(CHUNK, 0) else {
        unreachable!()
    };
    Ok(chunk)
}

/// The bytes of a source, to its end, in memory that grows with them; it is read by 64 KiB at once. The error is the
/// first: `Failed` where a read of the source fails, or `NoMemory`, which `memory` remembers. What was read before it
/// is lost.
pub fn read_to_end<M: Memory, S: Source + Drop>(
    memory: &mut M,
    source: S,
) -> Result<Vec<u8>, LineReadError>
    ensures bytes { IfOk result (λ bytes. IfSome (S.left source) (λ text. bytes.items ≡ text)) }
    ensures failed { IfErr result (λ e. e ≡ Failed → S.left source ≡ None) }
    ensures refused { IfErr result (λ e. e ≡ NoMemory → M.refused memory.new ≡ true) }
{
    let mut source = source;
    let mut chunk = new_chunk(memory)?;
    let mut block = Vec::new(memory.alloc());
    loop {
        let has_more = read_more(memory, &mut source, chunk.as_mut_slice(), &mut block)?;
        if !has_more {
            return Ok(block);
        }
    }
}

/// Reads lines from a source.
///
/// A line is a slice of the block that was read, and is copied only where it goes on behind it. It stays until the next
/// one is read. Of a line of more than [`MOST_BYTES`] bytes the first ones are kept, one more than that, and the rest is
/// passed over, so that the memory does not grow with it: [`is_too_long`] tells such a line. The source is read by 64
/// KiB at once, and a line and two such parts are kept at most.
#[derive(Drop)]
pub struct LineReader<S: Source + Drop> {
    source: S,
    chunk: Vec<u8>,
    block: Vec<u8>,
    start: usize,
    stop: usize,
    next: usize,
    ahead: Option<usize>,
}

impl<S: Source + Drop> Model for LineReader<S> {
    ghost use Rattle.std.specs.Prelude.{◌<◌, ◌≤◌, drop, slice_range, vec_len, IfSome};
    ghost use Rattle.std.specs.Io.KnownBytes.{prepend_known};
    ghost use Rattle.cidr_io.specs.Lines.{IsFirstFeed, Lines};

    ghost Value = { Lines };

    ghost view = { λ r. record {
      line = slice_range r.block.items r.start r.stop;
      left = prepend_known (drop r.next r.block.items) (S.left r.source);
    } };

    ghost invariant = { λ r. (0 < vec_len r.chunk) × (r.start ≤ r.stop) × (r.stop ≤ r.next) × (r.next ≤ vec_len r.block)
        × IfSome r.ahead (IsFirstFeed (drop r.next r.block.items)) };
}

impl<S: Source + Drop> LineReader<S> {
    /// A reader of a source, of which nothing is read yet: it is at no line. The error is `NoMemory`, for the room of
    /// 64 KiB.
    pub fn new<M: Memory>(memory: &mut M, source: S) -> Result<LineReader<S>, LineReadError>
        ensures left { IfOk result (λ reader. reader.left ≡ S.left source) }
        ensures line { IfOk result (λ reader. reader.line ≡ []) }
        ensures refused { IfErr result (λ e. (e ≡ NoMemory) × (M.refused memory.new ≡ true)) }
    {
        let chunk = new_chunk(memory)?;
        let block = Vec::new(memory.alloc());
        Ok(LineReader {
            source,
            chunk,
            block,
            start: 0,
            stop: 0,
            next: 0,
            ahead: None,
        })
    }

    /// Reads the next line, without its line feed, and tells whether it ends in one, so that another line is behind it:
    /// behind the last line feed too, where that line may be empty. Behind the last line are only empty ones.
    ///
    /// It takes time in the length of the line, also of one that is too long. The errors are `Failed` where a read of
    /// the source fails, and `NoMemory`, which `memory` remembers. After an error the reader is at no line, and what it
    /// reads next is not told.
    pub fn read_line<M: Memory>(&mut self, memory: &mut M) -> Result<bool, LineReadError>
        ensures line { IfOk result (λ more. IfSome self.old.left
            (λ text. IsNextLine text self.new.line more self.new.left)) }
        ensures failed { IfErr result (λ e. e ≡ Failed → MayFail self.old.left) }
        ensures refused { IfErr result (λ e. e ≡ NoMemory → M.refused memory.new ≡ true) }
        ensures stopped { OnErr result (self.new.line ≡ []) }
    {
        let (next, ahead) = (self.next, self.ahead);
        self.start = 0;
        self.stop = 0;
        self.next = 0;
        self.ahead = None;
        let (start, found) = find_line(
            memory,
            &mut self.source,
            self.chunk.as_mut_slice(),
            &mut self.block,
            next,
            ahead,
        )?;
        self.start = start;
        let Some(len) = found else {
            let end = self.block.len();
            let last = kept(end - start);
            self.stop = start + last;
            self.next = end;
            return Ok(false);
        };
        let line = kept(len);
        self.stop = start + line;
        self.next = start + len + 1;
        self.ahead = feed_in(&self.block[self.next..]);
        Ok(true)
    }

    /// The line that was read last, without its line feed; of one that is too long its first 1,048,577 bytes.
    pub fn line(&self) -> &[u8]
        ensures { result.now ≡ self.now.line }
    {
        &self.block[self.start..self.stop]
    }

    /// Whether a whole line is read already behind this one, so that nothing is read for it: then a line feed is left. No
    /// contract says when it is so: what is made of lines has to be the same either way.
    pub fn has_line(&self) -> bool
        ensures { IsTrue result → IfSome self.now.left (λ text. (index : ℕ) × IsFirstFeed text index) }
    {
        self.ahead.is_some()
    }
}
