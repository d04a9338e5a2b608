//! Files of tables, written.
ghost use Rattle.std.specs.Prelude.{◌≡◌, ◌+◌, ◌%◌, ◌^◌, ◌<◌, ◌++◌, length, map, replicate, IfOk, OnOk};
ghost use Rattle.std.specs.Int.{from_le_bytes, w32};
ghost use Rattle.cidr_files.specs.Contents.{AreContents, HasRows, HasZerosBetween, file_bytes, key_addresses, head_of, lengths_of, parts_written};
ghost use Rattle.cidr_files.specs.Layout.{ipv4_counts, ipv4_parts, ipv6_counts, ipv6_parts, wide_word, wide_words, words};
ghost use Rattle.cidr_files.specs.Spelling.{word_bytes};
ghost use Rattle.cidr_files.specs.Tables.{IsFile, IsSmall};
ghost use Rattle.cidr_files.specs.Written.{AreBelow, filled, free, joined_parts, spelled};

use crate::address::{FileAddress, Ipv4Bytes, Ipv6Bytes};
use crate::contents::{Contents, counts_of};
use crate::layout::Counts;
use crate::opening::{MAGIC, VERSION};
use cidr_lookup::Key;
use std::alloc::{AllocError, Global};

/// The bytes of a file of two tables whose words the caller has; of rows alone, take `written`. It takes a pass over
/// the bytes and allocates them. The error is that an allocation fails.
///
/// The caller has to prove that each table is one: that its words are those of its keys, as `build` of `cidr_lookup`
/// returns them, that its values lie one behind the other, and that there are fewer than 2^31 keys, 2^30 entries and 2^30
/// words, and fewer than 2^32 bytes of values.
pub fn file_of(
    alloc: Global,
    ipv4: &Contents<'_, Ipv4Bytes>,
    ipv6: &Contents<'_, Ipv6Bytes>,
) -> Result<Vec<u8>, AllocError>
    requires ipv4 { AreContents 32 4 (from_le_bytes w32) ipv4.now }
    requires ipv6 { AreContents 128 2 wide_word ipv6.now }
    ensures file { IfOk result (λ bytes. IsFile bytes.items) }
    ensures small { IfOk result (λ bytes. IsSmall bytes.items) }
    ensures zeros { IfOk result (λ bytes. HasZerosBetween bytes.items) }
    ensures ipv4 { IfOk result (λ bytes. HasRows words (ipv4_parts bytes.items) (from_le_bytes w32) ipv4.now.rows.now) }
    ensures ipv6 { IfOk result (λ bytes. HasRows wide_words (ipv6_parts bytes.items) wide_word ipv6.now.rows.now) }
    ensures ipv4_steps { IfOk result (λ bytes. (ipv4_counts bytes.items).steps ≡ ipv4.now.steps) }
    ensures ipv6_steps { IfOk result (λ bytes. (ipv6_counts bytes.items).steps ≡ ipv6.now.steps) }
    ensures all { IfOk result (λ bytes. bytes.items ≡ file_bytes ipv4.now ipv6.now) }
{
    let mut out = Vec::new(alloc);
    put_head(&mut out, &counts_of(ipv4), &counts_of(ipv6))?;
    put_contents(&mut out, ipv4)?;
    put_contents(&mut out, ipv6)?;
    Ok(out)
}

/// Writes the header.
fn put_head(out: &mut Vec<u8>, ipv4: &Counts, ipv6: &Counts) -> Result<(), AllocError>
    requires { length out.old.items % 8 ≡ 0 }
    ensures words { OnOk result (out.new.items ≡ out.old.items ++ spelled word_bytes (head_of ipv4.now ipv6.now)) }
    ensures aligned { OnOk result (length out.new.items % 8 ≡ 0) }
{
    let words = [
        MAGIC,
        VERSION,
        0,
        0,
        ipv4.rows,
        ipv4.entries,
        ipv4.words,
        ipv4.steps,
        ipv4.values,
        0,
        ipv6.rows,
        ipv6.entries,
        ipv6.words,
        ipv6.steps,
        ipv6.values,
        0,
    ];
    put_words(out, &words)?;
    Ok(())
}

/// Writes the parts of a table.
fn put_contents<W: FileAddress>(
    out: &mut Vec<u8>,
    contents: &Contents<'_, W>,
) -> Result<(), AllocError>
    requires aligned { length out.old.items % 8 ≡ 0 }
    requires lengths { AreBelow 256 (lengths_of contents.now.rows.now.keys.now) }
    ensures parts { OnOk result (out.new.items ≡ out.old.items ++ joined_parts (parts_written W.value W.bytes_of contents.now)) }
    ensures aligned { OnOk result (length out.new.items % 8 ≡ 0) }
{
    put_word_part(out, contents.first)?;
    put_word_part(out, contents.words)?;
    put_key_part(out, contents.rows.keys)?;
    put_length_part(out, contents.rows.keys)?;
    put_word_part(out, contents.rows.offsets)?;
    put_part(out, contents.rows.values)?;
    Ok(())
}

/// Writes a part of words.
fn put_word_part(out: &mut Vec<u8>, words: &[u32]) -> Result<(), AllocError>
    requires { length out.old.items % 8 ≡ 0 }
    ensures part { OnOk result (out.new.items ≡ out.old.items ++ filled (spelled word_bytes words.now)) }
    ensures aligned { OnOk result (length out.new.items % 8 ≡ 0) }
{
    put_words(out, words)?;
    fill(out)?;
    Ok(())
}

/// Writes the part of the addresses of keys.
fn put_key_part<W: FileAddress>(out: &mut Vec<u8>, keys: &[Key<W>]) -> Result<(), AllocError>
    requires { length out.old.items % 8 ≡ 0 }
    ensures part { OnOk result (out.new.items ≡ out.old.items ++ filled (spelled W.bytes_of (key_addresses W.value keys.now))) }
    ensures aligned { OnOk result (length out.new.items % 8 ≡ 0) }
{
    put_keys(out, keys)?;
    fill(out)?;
    Ok(())
}

/// Writes the part of their prefix lengths.
fn put_length_part<W: FileAddress>(out: &mut Vec<u8>, keys: &[Key<W>]) -> Result<(), AllocError>
    requires aligned { length out.old.items % 8 ≡ 0 }
    requires lengths { AreBelow 256 (lengths_of keys.now) }
    ensures part { OnOk result (out.new.items ≡ out.old.items ++ filled (lengths_of keys.now)) }
    ensures aligned { OnOk result (length out.new.items % 8 ≡ 0) }
{
    put_lengths(out, keys)?;
    fill(out)?;
    Ok(())
}

/// Writes a part of bytes.
fn put_part(out: &mut Vec<u8>, part: &[u8]) -> Result<(), AllocError>
    requires { length out.old.items % 8 ≡ 0 }
    ensures part { OnOk result (out.new.items ≡ out.old.items ++ filled part.now) }
    ensures aligned { OnOk result (length out.new.items % 8 ≡ 0) }
{
    out.extend_from_slice(part)?;
    fill(out)?;
    Ok(())
}

/// Writes the bytes of the addresses of keys.
fn put_keys<W: FileAddress>(out: &mut Vec<u8>, keys: &[Key<W>]) -> Result<(), AllocError>
    ensures { OnOk result (out.new.items ≡ out.old.items ++ spelled W.bytes_of (key_addresses W.value keys.now)) }
{
    for i in 0..keys.len() {
        W::put(keys[i].address.number(), out)?;
    }
    Ok(())
}

/// Writes a byte for the prefix length of each key.
fn put_lengths<W: FileAddress>(out: &mut Vec<u8>, keys: &[Key<W>]) -> Result<(), AllocError>
    requires { AreBelow 256 (lengths_of keys.now) }
    ensures { OnOk result (out.new.items ≡ out.old.items ++ lengths_of keys.now) }
{
    for i in 0..keys.len() {
        out.push(keys[i].len as u8)?;
    }
    Ok(())
}

/// Writes the bytes of words.
fn put_words(out: &mut Vec<u8>, words: &[u32]) -> Result<(), AllocError>
    ensures { OnOk result (out.new.items ≡ out.old.items ++ spelled word_bytes words.now) }
{
    for i in 0..words.len() {
        out.extend_from_slice(&words[i].to_le_bytes())?;
    }
    Ok(())
}

/// Writes zeros up to a multiple of 8.
fn fill(out: &mut Vec<u8>) -> Result<(), AllocError>
    ensures { OnOk result (out.new.items ≡ out.old.items ++ replicate (free (length out.old.items)) 0) }
{
    let size = out.len();
    let free = (size + 7) / 8 * 8 - size;
    out.extend_from_slice(&[0; 8][..free])?;
    Ok(())
}
