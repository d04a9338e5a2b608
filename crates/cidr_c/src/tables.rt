//! Look-up tables in arrays of the caller.
ghost use Rattle.std.specs.Prelude.{◌≡◌, ◌≢◌, ◌<◌, ℕ, List, length, map, IfOk, IfSome, MatchOption};
ghost use Rattle.cidr.specs.model.Bits.{bits};
ghost use Rattle.cidr_table.specs.model.Prefixes.{IsLongestMatch};
ghost use Rattle.cidr_lookup.specs.Keys.{key_networks, prefix_bits};
ghost use Rattle.cidr_lookup.specs.Tables.{IsLookupTable, ipv4_steps, ipv6_steps};
ghost use Rattle.cidr_c.specs.model.Tables.{AreFound, ArePut, IsBuilt, IsChecked, IsRowFound, ipv4_pair, ipv6_pair, table_error_code, words_fault_code};

use crate::codes::{NO_MEMORY, NO_ROOM, NO_TABLE, NO_VALUE, OK, TOO_MANY};
use crate::values::CValue;
use cidr_files::{Ipv4Bytes, Ipv6Bytes};
use cidr_lookup::{
    Address, Ipv6Halves, Key, LookupTable, TableError, WordsFault, build, check, find,
};
use std::alloc::{AllocError, Global};

/// Where a table lies. The calls on whole tables take its parts one by one; a look-up, whose time they count in, takes the
/// two arrays as slices and the steps and the rows from here, so that all of its arguments are in registers.
#[repr(C)]
#[derive(Clone, Copy)]
pub struct CTable {
    /// The entries of the blocks of addresses, which are not read from here.
    pub first: *const u32,
    /// How many they are, which is not read from here.
    pub first_len: usize,
    /// The words of the nodes, which are not read from here.
    pub words: *const u32,
    /// How many they are, which is not read from here.
    pub words_len: usize,
    /// How many steps of six bits there are behind the first bits.
    pub steps: u32,
    /// How many networks there are.
    pub rows: u32,
    /// 4 or 6, which is not read from here.
    pub family: u32,
}

/// How large a table is, and which network it can't be built of.
#[repr(C)]
#[derive(Clone, Copy)]
pub struct CTableSizes {
    /// How many entries of blocks it has.
    pub first: usize,
    /// How many words of nodes.
    pub words: usize,
    /// The index of the first value that is no network of the family, or out of order.
    pub index: usize,
    /// How many steps.
    pub steps: u32,
}

/// The row that stands for none.
pub const NO_ROW: u32 = u32::MAX;

/// The length of what is no network.
const NO_LENGTH: u32 = 255;

/// A family of addresses, as values have them.
pub trait FromValue: Address {
    ghost use Rattle.cidr_c.specs.declared.values.CValue.{CValue};

    /// The number of the address and the prefix length of a value.
    ghost pair: { CValue → ℕ × ℕ };

    /// The value as a key, which is no network where the value is none of the family.
    fn key_in(value: &CValue) -> Key<Self>
        ensures address { Self.value result.address ≡ (pair value.now).0 }
        ensures len { result.len ≡ (pair value.now).1 };

    /// The address that a value is, if it is one of the family.
    fn address_in(value: &CValue) -> Option<Self>
        ensures { MatchOption result ((pair value.now).1 ≢ Self.width)
            (λ address. ((pair value.now).1 ≡ Self.width) × (Self.value address ≡ (pair value.now).0)) };
}

impl FromValue for u32 {
    ghost pair = { ipv4_pair };

    #[inline(always)]
    fn key_in(value: &CValue) -> Key<u32> {
        if value.high != 0 || value.low >= 1 << 32 {
            return Key {
                address: 0,
                len: NO_LENGTH,
            };
        }
        Key {
            address: value.low as u32,
            len: u32::from(value.tag),
        }
    }

    #[inline(always)]
    fn address_in(value: &CValue) -> Option<u32> {
        // One test takes less than three.
        let others = value.high | (value.low >> 32) | u64::from(value.tag).wrapping_sub(32);
        if others != 0 {
            return None;
        }
        Some(value.low as u32)
    }
}

impl FromValue for Ipv6Halves {
    ghost pair = { ipv6_pair };

    #[inline(always)]
    fn key_in(value: &CValue) -> Key<Ipv6Halves> {
        let address = Ipv6Halves {
            high: value.high,
            low: value.low,
        };
        if value.tag < 64 {
            return Key {
                address,
                len: NO_LENGTH,
            };
        }
        Key {
            address,
            len: u32::from(value.tag - 64),
        }
    }

    #[inline(always)]
    fn address_in(value: &CValue) -> Option<Ipv6Halves> {
        if value.tag != 192 {
            return None;
        }
        Some(Ipv6Halves {
            high: value.high,
            low: value.low,
        })
    }
}

impl FromValue for Ipv4Bytes {
    ghost pair = { ipv4_pair };

    fn key_in(value: &CValue) -> Key<Ipv4Bytes> {
        let key = u32::key_in(value);
        Key {
            address: key.address.to_le_bytes(),
            len: key.len,
        }
    }

    #[inline(always)]
    fn address_in(value: &CValue) -> Option<Ipv4Bytes> {
        Some(u32::address_in(value)?.to_le_bytes())
    }
}

impl FromValue for Ipv6Bytes {
    ghost pair = { ipv6_pair };

    fn key_in(value: &CValue) -> Key<Ipv6Bytes> {
        let key = Ipv6Halves::key_in(value);
        Key {
            address: [
                key.address.high.to_le_bytes(),
                key.address.low.to_le_bytes(),
            ],
            len: key.len,
        }
    }

    #[inline(always)]
    fn address_in(value: &CValue) -> Option<Ipv6Bytes> {
        let address = Ipv6Halves::address_in(value)?;
        Some([address.high.to_le_bytes(), address.low.to_le_bytes()])
    }
}

/// Values as keys.
pub fn keys_in<A: FromValue>(alloc: Global, values: &[CValue]) -> Result<Vec<Key<A>>, AllocError>
    ensures { IfOk result (λ keys. key_networks A.value keys.items ≡ map A.pair values.now) }
{
    let mut keys = Vec::with_capacity(alloc, values.len())?;
    for value in values {
        keys.push(A::key_in(value))?;
    }
    Ok(keys)
}

/// Builds the table of networks, and puts it into a room.
fn put_table<A: FromValue>(
    alloc: Global,
    networks: &[CValue],
    first: &mut [u32],
    words: &mut [u32],
    sizes: &mut CTableSizes,
) -> u32
    ensures { IsBuilt A.width A.padding A.steps (map A.pair networks.now) first.old words.old first.new words.new sizes.old sizes.new result }
{
    let Ok(keys) = keys_in::<A>(alloc, networks) else {
        return NO_MEMORY;
    };
    match build(alloc, keys.as_slice()) {
        Ok(table) => put_words(&table, first, words, sizes),
        Err(error) => {
            if let TableError::Refused(index) = error {
                sizes.index = index;
            }
            table_error_code(&error)
        }
    }
}

/// Puts the entries and the words of a table into a room, and says how many they are.
fn put_words(
    table: &LookupTable,
    first: &mut [u32],
    words: &mut [u32],
    sizes: &mut CTableSizes,
) -> u32
    ensures { ArePut table.now.first.items table.now.words.items table.now.steps first.old words.old first.new words.new sizes.old sizes.new result }
{
    let entries = table.first.as_slice();
    let nodes = table.words.as_slice();
    sizes.first = entries.len();
    sizes.words = nodes.len();
    sizes.steps = table.steps;
    if first.len() < entries.len() || words.len() < nodes.len() {
        return NO_ROOM;
    }
    first[..entries.len()].copy_from_slice(entries);
    words[..nodes.len()].copy_from_slice(nodes);
    OK
}

/// The number of why keys have no table.
pub fn table_error_code(error: &TableError) -> u32
    ensures value { result ≡ table_error_code error.now }
    ensures above { 0 < result }
{
    match error {
        TableError::TooMany | TableError::TooLarge => TOO_MANY,
        TableError::Refused(_) => NO_VALUE,
        TableError::NoMemory => NO_MEMORY,
    }
}

/// The number of what is wrong with the words of a table.
pub fn words_fault_code(fault: &WordsFault) -> u32
    ensures value { result ≡ words_fault_code fault.now }
    ensures above { 0 < result }
{
    match fault {
        WordsFault::Keys(error) => table_error_code(error),
        WordsFault::Steps | WordsFault::TooLong | WordsFault::First(_) | WordsFault::Word(_) =>
            NO_TABLE,
    }
}

/// 0 where arrays are the table of networks, or the number of what is wrong with them.
fn check_code<A: FromValue>(
    alloc: Global,
    networks: &[CValue],
    first: &[u32],
    words: &[u32],
    steps: u32,
) -> u32
    ensures { IsChecked A.width A.padding steps (map A.pair networks.now) first.now words.now result }
{
    let Ok(keys) = keys_in::<A>(alloc, networks) else {
        return NO_MEMORY;
    };
    match check(alloc, keys.as_slice(), &first, &words, steps) {
        Ok(()) => OK,
        Err(fault) => words_fault_code(&fault),
    }
}

/// The row of the longest match, or that which stands for none.
#[inline(always)]
fn row_in<A: FromValue>(first: &[u32], words: &[u32], steps: u32, rows: u32, asked: &CValue) -> u32
    ensures { IsRowFound A.width A.padding steps rows first.now words.now (A.pair asked.now) result }
{
    let Some(address) = A::address_in(asked) else {
        return NO_ROW;
    };
    match longest_row(first, words, steps, rows, address) {
        Some(row) => row as u32,
        None => NO_ROW,
    }
}

/// The row of the longest match of an address, if it is one of so many.
#[inline(always)]
fn longest_row<A: Address>(
    first: &[u32],
    words: &[u32],
    steps: u32,
    rows: u32,
    address: A,
) -> Option<usize>
    ensures within { IfSome result (λ row. row < rows) }
    ensures longest { (networks : List (ℕ × ℕ)) → length networks ≡ rows
        → IsLookupTable A.width A.padding steps networks first.now words.now
        → IsLongestMatch (prefix_bits A.width) (bits A.width (A.value address)) networks result }
{
    let row = find(&first, &words, steps, address)?;
    if row >= rows as usize {
        return None;
    }
    Some(row)
}

/// The rows of many.
fn put_rows<A: FromValue>(
    first: &[u32],
    words: &[u32],
    steps: u32,
    rows: u32,
    asked: &[CValue],
    out: &mut [u32],
) -> u32
    ensures { AreFound A.width A.padding steps rows first.now words.now (map A.pair asked.now) out.old out.new result }
{
    if out.len() < asked.len() {
        return NO_ROOM;
    }
    for i in 0..asked.len() {
        out[i] = row_in::<A>(first, words, steps, rows, &asked[i]);
    }
    OK
}

/// Makes a table of IPv4 networks that ascend, each once: 0, and its entries and words stand in the front of `first` and
/// `words`, of which `sizes` says how many they are. Else the number of the first error: no memory, which may also come
/// before each of the others; too many networks; a network, and `index` becomes that of it; too many words; the room, and
/// `sizes` says how much is enough. An error leaves the arrays as they were.
///
/// It takes O(n), and while it runs allocates the table and 24 bytes a network.
#[unsafe(no_mangle)]
pub extern "C" fn pcidr_ipv4_table_build(
    alloc: Global,
    networks: &[CValue],
    first: &mut [u32],
    words: &mut [u32],
    sizes: &mut CTableSizes,
) -> u32
    ensures { IsBuilt 32 4 ipv4_steps (map ipv4_pair networks.now) first.old words.old first.new words.new sizes.old sizes.new result }
{
    put_table::<u32>(alloc, networks, first, words, sizes)
}

/// The same of IPv6 networks, of which it allocates 64 bytes each.
#[unsafe(no_mangle)]
pub extern "C" fn pcidr_ipv6_table_build(
    alloc: Global,
    networks: &[CValue],
    first: &mut [u32],
    words: &mut [u32],
    sizes: &mut CTableSizes,
) -> u32
    ensures { IsBuilt 128 2 ipv6_steps (map ipv6_pair networks.now) first.old words.old first.new words.new sizes.old sizes.new result }
{
    put_table::<Ipv6Halves>(alloc, networks, first, words, sizes)
}

/// 0 where arrays are the table of the IPv4 networks, else the number of the first error: no memory; the steps, or more
/// words than a table may have; too many networks; a network; an entry or a word. It builds the table and compares it as it
/// goes: it takes O(n), and while it runs allocates 24 bytes a network.
#[unsafe(no_mangle)]
pub extern "C" fn pcidr_ipv4_table_check(
    alloc: Global,
    networks: &[CValue],
    first: &[u32],
    words: &[u32],
    steps: u32,
) -> u32
    ensures { IsChecked 32 4 steps (map ipv4_pair networks.now) first.now words.now result }
{
    check_code::<u32>(alloc, networks, first, words, steps)
}

/// The same of IPv6 networks, of which it allocates 64 bytes each.
#[unsafe(no_mangle)]
pub extern "C" fn pcidr_ipv6_table_check(
    alloc: Global,
    networks: &[CValue],
    first: &[u32],
    words: &[u32],
    steps: u32,
) -> u32
    ensures { IsChecked 128 2 steps (map ipv6_pair networks.now) first.now words.now result }
{
    check_code::<Ipv6Halves>(alloc, networks, first, words, steps)
}

/// The row of the longest IPv4 network that an address is in, or `u32::MAX` where it is in none, and of a value that is
/// no IPv4 address. It reads nothing outside of the arrays, whatever they hold, and allocates nothing. Of `table` it
/// reads the steps and the rows alone.
#[unsafe(no_mangle)]
pub extern "C" fn pcidr_ipv4_table_lookup(
    first: &[u32],
    words: &[u32],
    table: &CTable,
    address: &CValue,
) -> u32
    ensures { IsRowFound 32 4 table.now.steps table.now.rows first.now words.now (ipv4_pair address.now) result }
{
    row_in::<u32>(first, words, table.steps, table.rows, address)
}

/// The same of IPv6.
#[unsafe(no_mangle)]
pub extern "C" fn pcidr_ipv6_table_lookup(
    first: &[u32],
    words: &[u32],
    table: &CTable,
    address: &CValue,
) -> u32
    ensures { IsRowFound 128 2 table.now.steps table.now.rows first.now words.now (ipv6_pair address.now) result }
{
    row_in::<Ipv6Halves>(first, words, table.steps, table.rows, address)
}

/// The row of each of many addresses, at its index of `out`: 0, or the number of too little room.
#[unsafe(no_mangle)]
pub extern "C" fn pcidr_ipv4_table_lookup_each(
    first: &[u32],
    words: &[u32],
    table: &CTable,
    asked: &[CValue],
    out: &mut [u32],
) -> u32
    ensures { AreFound 32 4 table.now.steps table.now.rows first.now words.now (map ipv4_pair asked.now) out.old out.new result }
{
    put_rows::<u32>(first, words, table.steps, table.rows, asked, out)
}

/// The same of IPv6.
#[unsafe(no_mangle)]
pub extern "C" fn pcidr_ipv6_table_lookup_each(
    first: &[u32],
    words: &[u32],
    table: &CTable,
    asked: &[CValue],
    out: &mut [u32],
) -> u32
    ensures { AreFound 128 2 table.now.steps table.now.rows first.now words.now (map ipv6_pair asked.now) out.old out.new result }
{
    put_rows::<Ipv6Halves>(first, words, table.steps, table.rows, asked, out)
}
