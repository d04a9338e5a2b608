//! The table: its rows ascend by their keys.
ghost use Rattle.std.specs.Prelude.{◌≡◌, ◌↔◌, ◌+◌, ◌<◌, ◌≤◌, ◌^◌, [], length, slice_get, option_copied, Contains, IfOk, IfErr, OnOk, OnErr, IsOk, IsTrue};
ghost use Rattle.std.specs.Slice.Iter.{iter_rest};
ghost use Rattle.std.specs.Iterator.Adapters.{IterYieldsInOrder, IterYieldsInReverse};
ghost use Rattle.std.specs.List.Sorted.{IsStrictlySortedBy};
ghost use Rattle.std.specs.Map.{keys_of};
ghost use Rattle.cidr_table.specs.model.FiniteMap.{IsUnder, IsInserted, IsRemoved};
ghost use Rattle.cidr_table.specs.model.Prefixes.{AreInside};
ghost use Rattle.cidr_table.specs.internal.Places.{IsPlace, IsLowerBound, begins_with};

use crate::rows::Rows;
use crate::search::{is_inside, search};
use cidr::NetworkBits;
use std::alloc::{AllocError, Global};
use std::marker::Model;
use std::mem;
use std::slice::Iter;

mod clones;
pub mod cover;
mod debug;
mod from_rows;
pub mod iterators;
mod lends;
pub mod load;
mod lookups;
mod map_calls;
pub mod matches;

/// A finite map from networks to values, for longest-prefix matching. A key with its value is a row.
///
/// The rows are kept in one `Vec`, in the order of the keys, which is that of their bits. `insert` and `remove` of one
/// key shift the rows after it, O(n), so that n inserts in random order take O(n²). Many rows are best given at once,
/// to `from_rows` or, as prefix bytes, to `load`. Beside the rows a table keeps nothing.
#[derive(Drop)]
pub struct LpmTable<C: NetworkBits + Copy, V> {
    rows: Vec<(C, V)>,
}

impl<C: NetworkBits + Copy, V> Model for LpmTable<C, V> {
    ghost use Rattle.std.specs.List.Sorted.{IsStrictlySortedBy};
    ghost use Rattle.std.specs.Map.{keys_of};
    ghost use Rattle.std.specs.Vec.{vec_capacity};
    ghost use Rattle.cidr_table.specs.model.FiniteMap.{StoredRows};

    ghost Value = { StoredRows C V };

    ghost view = { λ t. record { rows = t.rows.items; capacity = vec_capacity t.rows } };

    ghost invariant = { λ t. IsStrictlySortedBy C.cmp (keys_of t.rows.items) };
}

impl<C: NetworkBits + Copy, V> LpmTable<C, V> {
    /// The empty table. It allocates nothing.
    ///
    /// ```
    /// LpmTable::<Ipv4Cidr, u32>::new(rt.alloc()).is_empty() // true
    /// ```
    pub fn new(alloc: Global) -> Self
        ensures rows { result.rows ≡ [] }
        ensures capacity { result.capacity ≡ 0 }
    {
        LpmTable {
            rows: Vec::new(alloc),
        }
    }

    /// The empty table with room for `capacity` rows: up to that number, `insert` allocates nothing. An error where the
    /// allocation fails; a capacity of 0 takes none.
    ///
    /// ```
    /// let mut routes = Routes::with_capacity(rt.alloc(), 3)?;
    /// routes.capacity() // 3
    /// ```
    pub fn with_capacity(alloc: Global, capacity: usize) -> Result<Self, AllocError>
        ensures rows { IfOk result (λ table. table.rows ≡ []) }
        ensures capacity { IfOk result (λ table. table.capacity ≡ capacity) }
        ensures none { capacity ≡ 0 → IsOk result }
    {
        let rows = Vec::with_capacity(alloc, capacity)?;
        Ok(LpmTable { rows })
    }

    /// How many rows the table has room for: up to that number, `insert` allocates nothing.
    ///
    /// ```
    /// let mut routes = Routes::with_capacity(rt.alloc(), 3)?;
    /// routes.capacity() // 3
    /// ```
    pub fn capacity(&self) -> usize
        ensures { result ≡ self.now.capacity }
    {
        self.rows.capacity()
    }

    /// Makes room for `additional` more rows. It allocates nothing where there is that room, and may make more. Where
    /// the allocation fails, nothing changes.
    ///
    /// ```
    /// routes.reserve(1)?;
    /// routes.capacity() > 3 // true
    /// ```
    pub fn reserve(&mut self, additional: usize) -> Result<(), AllocError>
        ensures rows { self.new.rows ≡ self.old.rows }
        ensures ok { OnOk result (length self.new.rows + additional ≤ self.new.capacity) }
        ensures err { OnErr result (self.new.capacity ≡ self.old.capacity) }
        ensures capacity { self.old.capacity ≤ self.new.capacity }
        ensures room { length self.old.rows + additional ≤ self.old.capacity → IsOk result }
    {
        self.rows.reserve(additional)
    }

    /// The index of the key, or that before which it would stand.
    fn find(&self, key: &C) -> Result<usize, usize>
        ensures sorted { IsStrictlySortedBy C.cmp (keys_of self.now.rows) }
        ensures index { IsPlace C.cmp (keys_of self.now.rows) key.now (length self.now.rows) result }
    {
        search(&mut self.probe(), key, self.rows.len())
    }

    /// The rows, which ascend.
    fn ascending(&self) -> &[(C, V)]
        ensures rows { result.now ≡ self.now.rows }
        ensures sorted { IsStrictlySortedBy C.cmp (keys_of result.now) }
    {
        self.rows.as_slice()
    }

    /// The value under exactly this key, or `None`; for the longest key that an address is in, use
    /// [`longest_match`](crate::longest_match). Binary search: O(log n).
    ///
    /// ```
    /// let mut routes = LpmTable::<Ipv4Cidr, u32>::new(rt.alloc());
    /// routes.insert("10.0.0.0/8".parse()?, 1) // Ok(None)
    /// routes.get(&"10.0.0.0/8".parse()?) // Some(1)
    /// routes.get(&"10.0.0.0/9".parse()?) // None
    /// ```
    pub fn get(&self, key: &C) -> Option<&V>
        ensures value { IsUnder self.now.rows key.now (option_copied result) }
        ensures sorted { IsStrictlySortedBy C.cmp (keys_of self.now.rows) }
    {
        match self.find(key) {
            Ok(index) => {
                let row = &self.rows[index];
                Some(&row.1)
            }
            Err(_) => None,
        }
    }

    /// Sets the value under a key and returns the one that was there, or `None` where there was none.
    ///
    /// A new key shifts the rows after it, O(n), some 38 µs among 100,000 rows of 12 bytes and 550 µs among 900,000 (a
    /// vector of Rust takes 12 and 300), and allocates where there is no room for one more row, see `capacity`.
    /// `from_rows` takes many rows at once.
    /// Where an allocation fails, it returns the key and the value as the error and the rows are as they were.
    /// Replacing a value never fails and takes no memory.
    ///
    /// ```
    /// let mut routes = LpmTable::<Ipv4Cidr, u32>::new(rt.alloc());
    /// routes.insert("10.0.0.0/8".parse()?, 1) // Ok(None)
    /// routes.insert("10.0.0.0/8".parse()?, 2) // Ok(Some(1))
    /// ```
    pub fn insert(&mut self, key: C, value: V) -> Result<Option<V>, (C, V)>
        ensures before { IfOk result (λ before. IsUnder self.old.rows key before) }
        ensures ok { OnOk result (IsInserted self.old.rows key value self.new.rows) }
        ensures err { IfErr result (λ pair. pair ≡ (key, value)) }
        ensures unchanged { OnErr result (self.new.rows ≡ self.old.rows) }
        ensures present { Contains (keys_of self.old.rows) key → IsOk result }
        ensures room { length self.old.rows < self.old.capacity → IsOk result }
        ensures kept { Contains (keys_of self.old.rows) key → self.new.capacity ≡ self.old.capacity }
        ensures enough { length self.old.rows < self.old.capacity → self.new.capacity ≡ self.old.capacity }
        ensures capacity { self.old.capacity ≤ self.new.capacity }
        ensures sorted { IsStrictlySortedBy C.cmp (keys_of self.new.rows) }
    {
        match self.find(&key) {
            Ok(index) => {
                let row = &mut self.rows[index];
                Ok(Some(mem::replace(&mut row.1, value)))
            }
            Err(index) => {
                if let Err(refused) = self.rows.insert(index, (key, value)) {
                    return Err(refused.value);
                }
                Ok(None)
            }
        }
    }

    /// Removes a key and returns the value that was under it, or `None` where there was none. It shifts the rows after
    /// the key, O(n), in the time of an `insert`, and frees no memory. `retain` and `remove_inside` remove many at
    /// once.
    ///
    /// ```
    /// let mut routes = LpmTable::<Ipv4Cidr, u32>::new(rt.alloc());
    /// routes.insert("10.0.0.0/8".parse()?, 1) // Ok(None)
    /// routes.remove(&"10.0.0.0/8".parse()?) // Some(1)
    /// routes.remove(&"10.0.0.0/8".parse()?) // None
    /// ```
    pub fn remove(&mut self, key: &C) -> Option<V>
        ensures before { IsUnder self.old.rows key.now result }
        ensures after { IsRemoved self.old.rows key.now self.new.rows }
        ensures capacity { self.new.capacity ≡ self.old.capacity }
        ensures sorted { IsStrictlySortedBy C.cmp (keys_of self.new.rows) }
    {
        match self.find(key) {
            Ok(index) => {
                let (_, value) = self.rows.remove(index);
                Some(value)
            }
            Err(_) => None,
        }
    }

    /// The rows as a probe, for [`longest_match`](crate::longest_match). It borrows the table, copies nothing, and has
    /// made no comparison.
    ///
    /// ```
    /// let mut routes = LpmTable::<Ipv4Cidr, u32>::new(rt.alloc());
    /// routes.insert("0.0.0.0/0".parse()?, 1) // Ok(None)
    /// let mut rows = routes.probe();
    /// longest_match(&mut rows, &"192.0.2.1".parse()?) // Some(0)
    /// ```
    pub fn probe(&self) -> Rows<'_, C, V>
        ensures rows { result.rows ≡ self.now.rows }
        ensures count { result.comparisons ≡ 0 }
        ensures sorted { IsStrictlySortedBy C.cmp (keys_of self.now.rows) }
    {
        Rows::new(self.rows.as_slice())
    }

    /// The number of rows.
    ///
    /// ```
    /// let mut routes = LpmTable::<Ipv4Cidr, u32>::new(rt.alloc());
    /// routes.insert("10.0.0.0/8".parse()?, 1) // Ok(None)
    /// routes.len() // 1
    /// ```
    pub fn len(&self) -> usize
        ensures { result ≡ length self.now.rows }
    {
        self.rows.len()
    }

    /// Whether there are no rows.
    ///
    /// ```
    /// let mut routes = LpmTable::<Ipv4Cidr, u32>::new(rt.alloc());
    /// routes.insert("10.0.0.0/8".parse()?, 1) // Ok(None)
    /// routes.is_empty() // false
    /// ```
    pub fn is_empty(&self) -> bool
        ensures { IsTrue result ↔ (self.now.rows ≡ []) }
    {
        self.rows.is_empty()
    }

    /// The rows in the order of their keys, from both ends: a network comes before those inside it.
    ///
    /// ```
    /// let mut routes = LpmTable::<Ipv4Cidr, u32>::new(rt.alloc());
    /// routes.insert("10.0.0.0/8".parse()?, 1) // Ok(None)
    /// routes.iter().next() // Some((10.0.0.0/8, 1))
    /// ```
    pub fn iter(&self) -> Iter<'_, (C, V)>
        ensures rest { iter_rest result ≡ self.now.rows }
        ensures bound { length (iter_rest result) < 2 ^ 64 }
        ensures runs { IterYieldsInOrder (C × V) }
        ensures runs_back { IterYieldsInReverse (C × V) }
        ensures sorted { IsStrictlySortedBy C.cmp (keys_of self.now.rows) }
    {
        self.rows.iter()
    }

    /// The row at an index, counted from 0 in the order of the keys, or `None` from the number of rows on. The indices
    /// change with each `insert` of a new key and each row that is removed.
    ///
    /// ```
    /// let mut routes = LpmTable::<Ipv4Cidr, u32>::new(rt.alloc());
    /// routes.insert("10.0.0.0/8".parse()?, 1) // Ok(None)
    /// routes.row(0) // Some((10.0.0.0/8, 1))
    /// routes.row(1) // None
    /// ```
    pub fn row(&self, index: usize) -> Option<&(C, V)>
        ensures row { option_copied result ≡ slice_get self.now.rows index }
        ensures sorted { IsStrictlySortedBy C.cmp (keys_of self.now.rows) }
    {
        self.rows.get(index)
    }

    /// The rows whose key is in the outer network, which may be a key itself, in the order of the keys: as they stand
    /// next to each other, part of the table itself. Two binary searches: O(log n).
    ///
    /// ```
    /// let mut routes = LpmTable::<Ipv4Cidr, u32>::new(rt.alloc());
    /// routes.insert("10.0.0.0/8".parse()?, 1) // Ok(None)
    /// routes.insert("10.1.0.0/16".parse()?, 2) // Ok(None)
    /// routes.inside(&"10.0.0.0/9".parse()?) // [(10.1.0.0/16, 2)]
    /// ```
    pub fn inside(&self, outer: &C) -> &[(C, V)]
        ensures rows { AreInside C.bits self.now.rows (C.bits outer.now) result.now }
        ensures sorted { IsStrictlySortedBy C.cmp (keys_of result.now) }
    {
        let rows = self.ascending();
        let from = &rows[lower_bound(rows, outer)..];
        let len = from.partition_point(|row| is_row_inside(row, outer));
        &from[..len]
    }
}

/// How many keys of rows that ascend come before this one.
fn lower_bound<C: NetworkBits, V>(rows: &[(C, V)], key: &C) -> usize
    requires { IsStrictlySortedBy C.cmp (keys_of rows.now) }
    ensures { IsLowerBound C.cmp (keys_of rows.now) key.now (length rows.now) result }
{
    let (Ok(index) | Err(index)) = search(&mut Rows::new(rows), key, rows.len());
    index
}

/// Whether the key of a row is in the outer network.
fn is_row_inside<C: NetworkBits, V>(row: &(C, V), outer: &C) -> bool
    ensures { result ≡ begins_with (C.bits row.now.0) (C.bits outer.now) }
{
    is_inside(&row.0, outer)
}
