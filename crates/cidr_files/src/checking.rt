//! Whether the parts of a file are tables.
ghost use Rattle.std.specs.Prelude.{◌≡◌, ◌↔◌, ◌^◌, ◌<◌, map, zip, IfErr, IfOk, IsTrue};
ghost use Rattle.cidr_lookup.specs.Keys.{key_networks};
ghost use Rattle.cidr_files.specs.Faults.{IsFaultOfBytes, IsTableFault};
ghost use Rattle.cidr_files.specs.Tables.{AreOffsets, IsTableCutFrom, IsFile, IsStoredTable, parts_in};

use crate::address::{FileAddress, Ipv4Bytes, Ipv6Bytes};
use crate::faults::{FileFault, TableFault};
use crate::layout::{FileTable, FileTables};
use crate::opening::open;
use cidr_lookup::TableError::NoMemory;
use cidr_lookup::WordsFault::Keys;
use cidr_lookup::{Address, Key, Words};
use std::alloc::{AllocError, Global};

/// The tables of a file, by [`open`] and by [`check`](crate::check) of both, in the time and memory of these. The error
/// is the first of those that [`FileFault`] names, in its order, but that want of memory for a table may come before what else
/// is wrong with it.
///
/// ```
/// let table = checked(rt.alloc(), file.as_slice())?;
/// name(&table, Ipv4Addr::new(10, 1, 2, 3)) // Some("inner")
/// name(&table, Ipv4Addr::new(192, 0, 3, 0)) // None
/// ```
pub fn checked(alloc: Global, bytes: &[u8]) -> Result<FileTables<'_>, FileFault>
    ensures file { IfOk result (λ _. IsFile bytes.now) }
    ensures cut { IfOk result (IsTableCutFrom bytes.now) }
    ensures refused { IfErr result (IsFaultOfBytes bytes.now) }
{
    let table = open(bytes)?;
    if let Err(fault) = check::<Ipv4Bytes>(alloc, &table.ipv4) {
        return Err(FileFault::Ipv4(fault));
    }
    if let Err(fault) = check::<Ipv6Bytes>(alloc, &table.ipv6) {
        return Err(FileFault::Ipv6(fault));
    }
    Ok(table)
}

/// Whether the parts are a table: the words are those of the look-up table of the keys, and the values lie one behind the
/// other. The error is the first of those that [`TableFault`] names, in its order, but that want of memory may come before
/// any.
///
/// It takes O(n) for n rows: the table is built, and compared as it goes. It allocates the keys and their ranges, and frees
/// them.
pub fn check<W: FileAddress>(alloc: Global, part: &FileTable<'_>) -> Result<(), TableFault>
    ensures table { IfOk result (λ _. IsStoredTable W.width W.padding W.numbers (parts_in part.now) part.now.steps) }
    ensures refused { IfErr result (IsTableFault W.width W.padding W.numbers (parts_in part.now) part.now.steps) }
{
    let addresses = W::addresses(part.addresses);
    let Ok(keys) = keys_of(alloc, addresses, part.lengths) else {
        return Err(TableFault::Words(Keys(NoMemory)));
    };
    let (first, _) = part.first.as_chunks::<4>();
    let (words, _) = part.words.as_chunks::<4>();
    if let Err(fault) = cidr_lookup::check(alloc, keys.as_slice(), &first, &words, part.steps) {
        return Err(TableFault::Words(fault));
    }
    let (offsets, _) = part.offsets.as_chunks::<4>();
    if !are_offsets(&offsets, keys.len(), part.values.len()) {
        return Err(TableFault::Offsets);
    }
    Ok(())
}

/// The keys of addresses and lengths.
fn keys_of<W: Address>(
    alloc: Global,
    addresses: &[W],
    lengths: &[u8],
) -> Result<Vec<Key<W>>, AllocError>
    ensures { IfOk result (λ keys. key_networks W.value keys.items ≡ zip (map W.value addresses.now) lengths.now) }
{
    let count = addresses.len().min(lengths.len());
    let mut keys = Vec::with_capacity(alloc, count)?;
    for i in 0..count {
        keys.push(Key {
            address: addresses[i],
            len: u32::from(lengths[i]),
        })?;
    }
    Ok(keys)
}

/// Whether offsets are those of so many values that lie one behind the other and have so many bytes together: there is
/// one more of them than rows, the first is 0, none is below the one before it, and the last is the size. One pass, up
/// to the first that is not so: O(n).
///
/// The caller has to prove that there are fewer than 2^63 rows.
pub fn are_offsets<T: Words>(offsets: &T, rows: usize, size: usize) -> bool
    requires { rows < 2 ^ 63 }
    ensures { IsTrue result ↔ AreOffsets (T.words offsets.now) rows size }
{
    if offsets.len() != rows + 1 {
        return false;
    }
    if offsets.word(0) != 0 {
        return false;
    }
    let mut before = 0;
    for i in 0..rows + 1 {
        let offset = offsets.word(i);
        if offset < before {
            return false;
        }
        before = offset;
    }
    before as usize == size
}
