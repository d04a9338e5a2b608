//! Look-up tables of keys.
ghost use Rattle.std.specs.Prelude.{◌≡◌, ◌^◌, ◌<◌, ◌≤◌, length, IfOk, IfErr};
ghost use Rattle.cidr_lookup.specs.Keys.{key_networks};
ghost use Rattle.cidr_lookup.specs.Tables.{IsLookupTable, IsTableRefused};

use crate::address::Address;
use crate::building::put_table;
use crate::key::Key;
use crate::ranges::ranges_of;
use crate::words::{Stop, Stopped};
use std::alloc::Global;
use std::error::Error;
use std::fmt;

/// The words of a look-up table, for [`find`](crate::find).
#[derive(Drop)]
pub struct LookupTable {
    /// The entries of the blocks of addresses that have the same first bits.
    pub first: Vec<u32>,
    /// The nodes, each behind what it leads to, and the lists.
    pub words: Vec<u32>,
    /// How many steps of six bits there are behind the first bits: 3 to 5 of IPv4, 19 or 20 of IPv6. The last step has two
    /// bits in IPv4, and four in IPv6.
    pub steps: u32,
}

/// Why no table was built: the first of these, but that an allocation may fail before any but the first.
#[derive(Debug, Drop, PartialEq)]
pub enum TableError {
    /// There are more than 2,147,483,647 keys: `more than 2147483647 keys`.
    TooMany,
    /// The key at this index, counted from 0, is no network, or doesn't come after the one before it: the first such
    /// key. `no network, or out of order: key 2`.
    Refused(usize),
    /// The table has more than 1,073,741,823 words: `more than 1073741823 words`.
    TooLarge,
    /// An allocation failed: `out of memory`.
    NoMemory,
}

impl fmt::Display for TableError {
    ghost use Rattle.std.specs.Prelude.{Some};
    ghost use Rattle.cidr_lookup.specs.Messages.{table_message};

    ghost output = { λ e. Some (table_message e) };

    fn fmt<W: fmt::Write>(&self, f: &mut fmt::Formatter<W>) -> fmt::Result {
        match self {
            TableError::TooMany => f.write_str("more than 2147483647 keys"),
            TableError::Refused(index) => { write!(f, "no network, or out of order: key {index}") }
            TableError::TooLarge => f.write_str("more than 1073741823 words"),
            TableError::NoMemory => f.write_str("out of memory"),
        }
    }
}

impl Error for TableError {}

/// The look-up table of keys that ascend by their first addresses and then by their lengths, and of which none repeats. Keys
/// have one table alone. Values stand beside the keys: [`find`](crate::find) gives the index of a key.
///
/// It takes O(n) for n keys, and while it runs 16 bytes a key of IPv4, or 40 of IPv6, besides the table.
///
/// ```
/// let table = build(alloc, keys)?;
/// let first = table.first.as_slice();
/// let words = table.words.as_slice();
/// Ok(find(&first, &words, table.steps, address.to_bits()))
/// ```
pub fn build<A: Address>(alloc: Global, keys: &[Key<A>]) -> Result<LookupTable, TableError>
    ensures table { IfOk result (λ table. IsLookupTable A.width A.padding table.steps (key_networks A.value keys.now) table.first.items table.words.items) }
    ensures steps { IfOk result (λ table. table.steps ≡ A.steps (length keys.now)) }
    ensures few { IfOk result (λ _. length keys.now < 2 ^ 31) }
    ensures entries { IfOk result (λ table. length table.first.items ≤ 2 ^ 20) }
    ensures words { IfOk result (λ table. length table.words.items < 2 ^ 30) }
    ensures refused { IfErr result (IsTableRefused A.width A.padding (A.steps (length keys.now)) (key_networks A.value keys.now)) }
{
    let ranges = ranges_of(alloc, keys)?;
    let steps = A::steps_for(keys.len());
    let blocks = 1 << (A::padded_width() - 6 * steps);
    let Ok(mut first) = Vec::with_capacity(alloc, blocks) else {
        return Err(TableError::NoMemory);
    };
    let mut words = Vec::new(alloc);
    let starts = ranges.starts.as_slice();
    let answers = ranges.answers.as_slice();
    match put_table(keys, starts, answers, &mut first, &mut words, steps) {
        Ok(()) => {
            if words.len() >= 1 << 30 {
                return Err(TableError::TooLarge);
            }
            words.shrink_to_fit();
            Ok(LookupTable {
                first,
                words,
                steps,
            })
        }
        Err(Stopped::Words(Stop::TooMany)) => Err(TableError::TooLarge),
        Err(_) => Err(TableError::NoMemory),
    }
}
