//! Files of rows.
ghost use Rattle.std.specs.Prelude.{◌≡◌, IfErr, IfOk, length};
ghost use Rattle.std.specs.Int.{from_le_bytes, w32};
ghost use Rattle.cidr_lookup.specs.Tables.{ipv4_steps, ipv6_steps};
ghost use Rattle.cidr_files.specs.Contents.{AreContents, AreRowsUnwritten, AreTableOf, HasRows, HasZerosBetween, IsFileOfRows, IsWriteRefused};
ghost use Rattle.cidr_files.specs.Layout.{ipv4_counts, ipv4_parts, ipv6_counts, ipv6_parts, wide_word, wide_words, words};
ghost use Rattle.cidr_files.specs.Tables.{IsFile, IsSmall};

use crate::address::{FileAddress, Ipv4Bytes, Ipv6Bytes};
use crate::checking::are_offsets;
use crate::contents::{Contents, FileRows};
use crate::faults::WriteError;
use crate::writing::file_of;
use cidr_lookup::{LookupTable, TableError, build};
use std::alloc::Global;

/// The bytes of the file of rows, which are the same for the same rows. It takes O(n) for n rows and a pass over the bytes,
/// and allocates the bytes and the look-up tables of both families.
///
/// The error is the first of the IPv4 rows, or else of the IPv6 rows: more than 2,147,483,647 keys; `Values`, where the
/// values don't lie one behind the other, in fewer than 2^32 bytes; the first key that is no network or doesn't come
/// after the one before it, with its index among the rows of its family; more than 2,147,483,647 words. `NoMemory` may come
/// before any.
///
/// ```
/// let ipv4 = FileRows {
///     keys: &ipv4,
///     offsets: &[0, 5, 10, 14],
///     values: b"outerinnertest",
/// };
/// ```
///
/// With such rows of IPv6 as well:
///
/// ```
/// written(alloc, &ipv4, &ipv6)
/// ```
pub fn written(
    alloc: Global,
    ipv4: &FileRows<'_, Ipv4Bytes>,
    ipv6: &FileRows<'_, Ipv6Bytes>,
) -> Result<Vec<u8>, WriteError>
    ensures file { IfOk result (λ bytes. IsFile bytes.items) }
    ensures small { IfOk result (λ bytes. IsSmall bytes.items) }
    ensures zeros { IfOk result (λ bytes. HasZerosBetween bytes.items) }
    ensures ipv4 { IfOk result (λ bytes. HasRows words (ipv4_parts bytes.items) (from_le_bytes w32) ipv4.now) }
    ensures ipv6 { IfOk result (λ bytes. HasRows wide_words (ipv6_parts bytes.items) wide_word ipv6.now) }
    ensures ipv4_steps { IfOk result (λ bytes. (ipv4_counts bytes.items).steps ≡ ipv4_steps (length ipv4.now.keys.now)) }
    ensures ipv6_steps { IfOk result (λ bytes. (ipv6_counts bytes.items).steps ≡ ipv6_steps (length ipv6.now.keys.now)) }
    ensures all { IfOk result (λ bytes. IsFileOfRows ipv4.now ipv6.now bytes.items) }
    ensures refused { IfErr result (IsWriteRefused ipv4.now ipv6.now) }
{
    let ipv4_table = table_of(alloc, ipv4)?;
    let ipv6_table = table_of(alloc, ipv6)?;
    let ipv4_contents = contents_of(ipv4, &ipv4_table);
    let ipv6_contents = contents_of(ipv6, &ipv6_table);
    let bytes = file_of(alloc, &ipv4_contents, &ipv6_contents)?;
    Ok(bytes)
}

/// A table of rows and their words.
fn contents_of<'a, W: FileAddress>(
    rows: &'a FileRows<'a, W>,
    table: &'a LookupTable,
) -> Contents<'a, W>
    requires { AreTableOf W.width W.padding W.steps W.value rows.now table.now }
    ensures contents { AreContents W.width W.padding W.value result }
    ensures rows { result.rows.now ≡ rows.now }
    ensures steps { result.steps ≡ W.steps (length rows.now.keys.now) }
{
    Contents {
        rows,
        first: table.first.as_slice(),
        words: table.words.as_slice(),
        steps: table.steps,
    }
}

/// The look-up table of rows.
fn table_of<W: FileAddress>(
    alloc: Global,
    rows: &FileRows<'_, W>,
) -> Result<LookupTable, WriteError>
    ensures table { IfOk result (AreTableOf W.width W.padding W.steps W.value rows.now) }
    ensures refused { IfErr result (AreRowsUnwritten W.width W.padding W.steps W.value rows.now) }
{
    if rows.keys.len() >= 1 << 31 {
        return Err(WriteError::Table(TableError::TooMany));
    }
    if rows.values.len() >= 1 << 32 {
        return Err(WriteError::Values);
    }
    if !are_offsets(&rows.offsets, rows.keys.len(), rows.values.len()) {
        return Err(WriteError::Values);
    }
    let table = build(alloc, rows.keys)?;
    Ok(table)
}
