//! The header of a file, and the parts that it tells of.
ghost use Rattle.std.specs.Prelude.{◌≡◌, ◌+◌, ◌^◌, ◌<◌, ◌≤◌, drop, length, take, None, IfErr, IfOk, IfSome};
ghost use Rattle.cidr_files.specs.Faults.{IsFaultOfBytes};
ghost use Rattle.cidr_files.specs.Layout.{IsLaidOut, bytes_behind, counts_at, ipv4_counts, ipv6_counts, padded, parts_by_size, padded_room, sizes_of, word_at};
ghost use Rattle.cidr_files.specs.Tables.{IsTableCutFrom, parts_in};

use crate::faults::FileFault;
use crate::layout::{Counts, FileTable, FileTables};

/// The first word of a file: the bytes 89 43 49 44, which begin no UTF-8 text.
pub(crate) const MAGIC: u32 = 0x4449_4389;

/// The version that is read and written.
pub(crate) const VERSION: u32 = 5;

/// The size of the header.
const HEADER: usize = 64;

/// The tables of a file, in parts that are not yet checked: a few reads, however long it is, and no allocation. The
/// error is the first of `Magic`, `Old` or `Version`, and `Short` or `Long`.
pub fn open(bytes: &[u8]) -> Result<FileTables<'_>, FileFault>
    ensures laid_out { IfOk result (λ _. IsLaidOut bytes.now) }
    ensures cut { IfOk result (IsTableCutFrom bytes.now) }
    ensures refused { IfErr result (IsFaultOfBytes bytes.now) }
    ensures unopened { IfErr result (λ _. ¬ (IsLaidOut bytes.now)) }
{
    if word_at(bytes, 0) != MAGIC {
        return Err(FileFault::Magic);
    }
    let version = word_at(bytes, 1);
    if 0 < version && version < VERSION {
        return Err(FileFault::Old);
    }
    if version != VERSION {
        return Err(FileFault::Version(version));
    }
    if bytes.len() < HEADER {
        return Err(FileFault::Short);
    }
    let Some((ipv4, rest)) = part_of(&bytes[HEADER..], 4, &counts_at(bytes, 4)) else {
        return Err(FileFault::Short);
    };
    let Some((ipv6, rest)) = part_of(rest, 16, &counts_at(bytes, 10)) else {
        return Err(FileFault::Short);
    };
    if !rest.is_empty() {
        return Err(FileFault::Long);
    }
    Ok(FileTables { ipv4, ipv6 })
}

/// The counts of the IPv4 table and of the IPv6 table, as the header of a file has them: what is behind the end counts
/// as 0. Whether the bytes are a file is for [`open`]. A few reads, and no allocation.
pub fn counts(bytes: &[u8]) -> (Counts, Counts)
    ensures ipv4 { result.0 ≡ ipv4_counts bytes.now }
    ensures ipv6 { result.1 ≡ ipv6_counts bytes.now }
{
    (counts_at(bytes, 4), counts_at(bytes, 10))
}

/// The parts of a table whose addresses have so many bytes, and what lies behind them; `None` where the bytes are too few.
fn part_of<'a>(bytes: &'a [u8], size: usize, counts: &Counts) -> Option<(FileTable<'a>, &'a [u8])>
    requires { size ≤ 16 }
    ensures parts { IfSome result (λ found. parts_in found.0 ≡ parts_by_size (sizes_of size counts.now) bytes.now) }
    ensures steps { IfSome result (λ found. found.0.steps ≡ counts.now.steps) }
    ensures rest { IfSome result (λ found. found.1.now ≡ bytes_behind (sizes_of size counts.now) bytes.now) }
    ensures left { IfSome result
        (λ found. length found.1.now + padded_room (sizes_of size counts.now) ≡ length bytes.now) }
    ensures none { result ≡ None → length bytes.now < padded_room (sizes_of size counts.now) }
{
    let rows = counts.rows as usize;
    let (first, rest) = cut(bytes, 4 * counts.entries as usize)?;
    let (words, rest) = cut(rest, 4 * counts.words as usize)?;
    let (addresses, rest) = cut(rest, size * rows)?;
    let (lengths, rest) = cut(rest, rows)?;
    let (offsets, rest) = cut(rest, 4 * (rows + 1))?;
    let (values, rest) = cut(rest, counts.values as usize)?;
    let part = FileTable {
        first,
        words,
        addresses,
        lengths,
        offsets,
        values,
        steps: counts.steps,
    };
    Some((part, rest))
}

/// So many of the first bytes, and those from the next multiple of 8 on; `None` where these are too few.
fn cut(bytes: &[u8], size: usize) -> Option<(&[u8], &[u8])>
    requires { size < 2 ^ 63 }
    ensures part { IfSome result (λ found. found.0.now ≡ take size bytes.now) }
    ensures rest { IfSome result (λ found. found.1.now ≡ drop (padded size) bytes.now) }
    ensures left { IfSome result (λ found. length found.1.now + padded size ≡ length bytes.now) }
    ensures none { result ≡ None → length bytes.now < padded size }
{
    let end = (size + 7) / 8 * 8;
    if end > bytes.len() {
        return None;
    }
    Some((&bytes[..size], &bytes[end..]))
}

/// The counts of a table, whose words begin at an index.
fn counts_at(bytes: &[u8], index: usize) -> Counts
    requires { index < 16 }
    ensures { result ≡ counts_at bytes.now index }
{
    Counts {
        rows: word_at(bytes, index),
        entries: word_at(bytes, index + 1),
        words: word_at(bytes, index + 2),
        steps: word_at(bytes, index + 3),
        values: word_at(bytes, index + 4),
    }
}

/// The word at an index, or 0 behind the last.
#[inline(always)]
fn word_at(bytes: &[u8], index: usize) -> u32
    ensures { result ≡ word_at bytes.now index }
{
    let (words, _) = bytes.as_chunks::<4>();
    if index >= words.len() {
        return 0;
    }
    u32::from_le_bytes(words[index])
}
