//! Tables of rows, made ready for look-ups.
ghost use Rattle.std.specs.Prelude.{◌≡◌, ℕ, ◌<◌, ◌≤◌, IfErr, IfOk, length, option_copied, slice_index_or};
ghost use Rattle.std.specs.List.Sorted.{IsStrictlySortedBy};
ghost use Rattle.std.specs.Map.{keys_of};
ghost use Rattle.cidr.specs.model.Network.{first_of};
ghost use Rattle.cidr_lookup.specs.Keys.{key_networks};
ghost use Rattle.cidr_table.specs.model.Prefixes.{IsLongestAt, IsLongestMatch, IsLookedUp};
ghost use Rattle.cidr_lookup.specs.Rows.{HaveTooManyWords, IsCountRefused, numbered_rows};
ghost use Rattle.cidr_lookup.specs.Tables.{IsLookupTable};
ghost use Rattle.cidr_lookup.specs.declared.table.TableError.TheVariants.{TooLarge};

use crate::address::Address;
use crate::key::Key;
use crate::keyed::Keyed;
use crate::search::find;
use crate::table::{LookupTable, TableError, build};
use cidr_table::{LpmTable, longest_match};
use std::alloc::{AllocError, Global};
use std::marker::Model;

/// A table of rows that stay as they are, made ready for look-ups, which it owns: its rows, and a look-up table of their
/// networks.
///
/// Take it where addresses are looked up in rows that stay, about as many as there are rows, or more. Where rows change
/// between look-ups, take `lookup` of the table.
#[derive(Drop)]
pub struct ReadyTable<C: Keyed, V> {
    table: LpmTable<C, V>,
    words: LookupTable,
}

impl<C: Keyed, V> Model for ReadyTable<C, V> {
    ghost use Rattle.cidr_table.specs.model.FiniteMap.{StoredRows};
    ghost use Rattle.cidr_lookup.specs.Rows.{numbered_rows};
    ghost use Rattle.cidr_lookup.specs.Tables.{IsLookupTable};

    ghost Value = { StoredRows C V };

    ghost view = { λ t. t.table };

    ghost invariant = { λ t. IsLookupTable C.Number.width C.Number.padding t.words.steps
        (numbered_rows C.bits C.Number.width t.table.rows) t.words.first.items t.words.words.items };
}

impl<C: Keyed, V> ReadyTable<C, V> {
    /// The table, made ready: O(n) for n rows, some 100 ns a row. While it runs it allocates 24 bytes a row of IPv4, or 64 of
    /// IPv6, besides the look-up table.
    ///
    /// The error comes with the table as it was: more than 2,147,483,647 rows; or else more than 1,073,741,823 words of its
    /// look-up table, or that an allocation failed. It is never `Refused`.
    ///
    /// ```
    /// let ready = ReadyTable::new(rt.alloc(), routes).map_err(|refused| refused.1)?;
    /// ready.lookup(&"10.1.2.3".parse()?) // Some((10.1.0.0/16, 3))
    /// ```
    pub fn new(alloc: Global, table: LpmTable<C, V>) -> Result<Self, (LpmTable<C, V>, TableError)>
        ensures ok { IfOk result (λ ready. ready ≡ table) }
        ensures err { IfErr result (λ refused. refused.0 ≡ table) }
        ensures refused { IfErr result (λ refused. IsCountRefused (length table.rows) refused.1) }
        ensures large { IfErr result (λ refused. refused.1 ≡ TooLarge → HaveTooManyWords C.bits C.Number.width C.Number.padding C.Number.steps table.rows) }
    {
        match words_of(alloc, rows_of(&table)) {
            Ok(words) => Ok(ReadyTable { table, words }),
            Err(error) => Err((table, error)),
        }
    }

    /// The index of the row whose key is the longest that contains the look-up key, counted from 0 in the order of the
    /// keys, or `None` where none does: the longest match of a forwarding table (RFC 1812, 5.2.4.3). An address is looked
    /// up as the network of full prefix length.
    ///
    /// For an address it is one look-up in the look-up table, and reads no row. For a shorter network it reads the row that
    /// its first address has, and where that is longer searches the rows, as `lookup` of the table does. It allocates
    /// nothing.
    ///
    /// ```
    /// ready.find(&"10.1.2.3".parse()?) // Some(2)
    /// ready.find(&"10.0.0.0/15".parse()?) // Some(1)
    /// ```
    #[inline(always)]
    pub fn find(&self, asked: &C) -> Option<usize>
        ensures { IsLongestMatch C.bits (C.bits asked.now) (keys_of self.now.rows) result }
    {
        let key = Key::<C::Number>::of(asked);
        let first = self.words.first.as_slice();
        let words = self.words.words.as_slice();
        let index = find(&first, &words, self.words.steps, key.address)?;
        if key.len == C::Number::width() {
            return Some(index);
        }
        self.shorter(asked, index)
    }

    /// The index of the longest match of a network whose first address has another, which may be the same.
    fn shorter(&self, asked: &C, index: usize) -> Option<usize>
        requires { IsLongestAt C.bits (first_of C.Number.width (C.bits asked.now)) (keys_of self.now.rows) index }
        ensures { IsLongestMatch C.bits (C.bits asked.now) (keys_of self.now.rows) result }
    {
        if let Some(row) = self.table.row(index) {
            if row.0.len() <= asked.len() {
                return Some(index);
            }
        }
        longest_match(&mut self.table.probe(), asked)
    }

    /// The row of the longest match: as `find`, and the row is read.
    ///
    /// ```
    /// ready.lookup(&"10.0.0.0/15".parse()?) // Some((10.0.0.0/8, 2))
    /// ```
    #[inline(always)]
    pub fn lookup(&self, asked: &C) -> Option<&(C, V)>
        ensures { IsLookedUp C.bits (C.bits asked.now) self.now.rows (option_copied result) }
    {
        let index = self.find(asked)?;
        self.table.row(index)
    }

    /// The table, for all calls that only read.
    ///
    /// ```
    /// let table = ready.table();
    /// table.len() // 3
    /// ```
    pub fn table(&self) -> &LpmTable<C, V>
        ensures { result.now ≡ self.now }
    {
        &self.table
    }

    /// The look-up table alone. Its words may be written elsewhere: [`find`](crate::find) reads them from whatever is
    /// [`Words`](crate::Words), and gives the index of a row.
    ///
    /// ```
    /// let words = ready.words();
    /// words.first.len() + words.words.len() // 75
    /// ```
    pub fn words(&self) -> &LookupTable
        ensures { IsLookupTable C.Number.width C.Number.padding result.now.steps
            (numbered_rows C.bits C.Number.width self.now.rows) result.now.first.items result.now.words.items }
    {
        &self.words
    }

    /// The table, for changing its rows. The memory beside the rows is freed.
    ///
    /// ```
    /// let mut changing = ready.into_table();
    /// changing.set("10.2.0.0/16".parse()?, 4)?;
    /// ```
    pub fn into_table(self) -> LpmTable<C, V>
        ensures { result ≡ self }
    {
        self.table
    }
}

/// The rows of a table.
fn rows_of<C: Keyed, V>(table: &LpmTable<C, V>) -> &[(C, V)]
    ensures rows { result.now ≡ table.now.rows }
    ensures sorted { IsStrictlySortedBy C.cmp (keys_of result.now) }
{
    table.iter().as_slice()
}

/// The look-up table of rows that ascend.
fn words_of<C: Keyed, V>(alloc: Global, rows: &[(C, V)]) -> Result<LookupTable, TableError>
    requires { IsStrictlySortedBy C.cmp (keys_of rows.now) }
    ensures table { IfOk result (λ table. IsLookupTable C.Number.width C.Number.padding table.steps
        (numbered_rows C.bits C.Number.width rows.now) table.first.items table.words.items) }
    ensures refused { IfErr result (IsCountRefused (length rows.now)) }
    ensures large { IfErr result (λ error. error ≡ TooLarge → HaveTooManyWords C.bits C.Number.width C.Number.padding C.Number.steps rows.now) }
{
    if rows.len() >= 1 << 31 {
        return Err(TableError::TooMany);
    }
    match keys_of_rows(alloc, rows) {
        Ok(keys) => build(alloc, keys.as_slice()),
        Err(AllocError) => Err(TableError::NoMemory),
    }
}

/// The keys of rows.
fn keys_of_rows<C: Keyed, V>(
    alloc: Global,
    rows: &[(C, V)],
) -> Result<Vec<Key<C::Number>>, AllocError>
    ensures networks { IfOk result (λ keys. key_networks C.Number.value keys.items ≡ numbered_rows C.bits C.Number.width rows.now) }
    ensures fit { IfOk result (λ _. (any : C × V) (i : ℕ) → i < length rows.now → length (C.bits (slice_index_or rows.now i any).0) ≤ C.Number.width) }
{
    let mut keys = Vec::with_capacity(alloc, rows.len())?;
    for row in rows {
        keys.push(Key::of(&row.0))?;
    }
    Ok(keys)
}
