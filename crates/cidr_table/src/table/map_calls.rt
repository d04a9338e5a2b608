//! The calls that every map has.
ghost use Rattle.std.specs.Prelude.{◌≡◌, ◌↔◌, ◌+◌, ◌-◌, ◌<◌, ◌≤◌, [], length, slice_get, Contains, IfOk, OnOk, OnErr, IsOk, IsTrue};
ghost use Rattle.std.specs.Option.{option_map};
ghost use Rattle.std.specs.Fn.{CalledAt};
ghost use Rattle.std.specs.List.Retain.{IsFiltered};
ghost use Rattle.std.specs.List.Sorted.{IsStrictlySortedBy};
ghost use Rattle.std.specs.Map.{keys_of};
ghost use Rattle.cidr_table.specs.model.FiniteMap.{IsUnder, IsInserted};
ghost use Rattle.cidr_table.specs.model.Prefixes.{AreOutside};

use crate::table::{LpmTable, is_row_inside};
use cidr::NetworkBits;
use std::alloc::AllocError;

impl<C: NetworkBits + Copy, V> LpmTable<C, V> {
    /// Whether exactly this key is in the table. Binary search: O(log n).
    ///
    /// ```
    /// routes.contains_key(&"10.0.0.0/8".parse()?) // true
    /// ```
    pub fn contains_key(&self, key: &C) -> bool
        ensures { IsTrue result ↔ Contains (keys_of self.now.rows) key.now }
    {
        self.get(key).is_some()
    }

    /// The first row in the order of the keys, or `None` of an empty table.
    ///
    /// ```
    /// routes.first_key_value() // Some((0.0.0.0/0, 1))
    /// ```
    pub fn first_key_value(&self) -> Option<(&C, &V)>
        ensures row { option_map (λ row. (row.0.now, row.1.now)) result ≡ slice_get self.now.rows 0 }
        ensures sorted { IsStrictlySortedBy C.cmp (keys_of self.now.rows) }
    {
        let row = self.row(0)?;
        Some((&row.0, &row.1))
    }

    /// The last row in the order of the keys, or `None` of an empty table.
    ///
    /// ```
    /// routes.last_key_value() // Some((10.1.0.0/16, 3))
    /// ```
    pub fn last_key_value(&self) -> Option<(&C, &V)>
        ensures row { option_map (λ row. (row.0.now, row.1.now)) result
            ≡ slice_get self.now.rows (length self.now.rows - 1) }
        ensures sorted { IsStrictlySortedBy C.cmp (keys_of self.now.rows) }
    {
        let row = self.row(self.len().saturating_sub(1))?;
        Some((&row.0, &row.1))
    }
}

impl<C: NetworkBits + Copy, V: Drop> LpmTable<C, V> {
    /// The same as `insert`, for use with `?`: where the allocation fails, the key and the value are dropped.
    ///
    /// ```
    /// routes.set("10.1.0.0/16".parse()?, 4)? // Some(3)
    /// ```
    pub fn set(&mut self, key: C, value: V) -> Result<Option<V>, AllocError>
        ensures before { IfOk result (λ before. IsUnder self.old.rows key before) }
        ensures ok { OnOk result (IsInserted self.old.rows key value self.new.rows) }
        ensures unchanged { OnErr result (self.new.rows ≡ self.old.rows) }
        ensures present { Contains (keys_of self.old.rows) key → IsOk result }
        ensures room { length self.old.rows < self.old.capacity → IsOk result }
        ensures kept { Contains (keys_of self.old.rows) key → self.new.capacity ≡ self.old.capacity }
        ensures enough { length self.old.rows < self.old.capacity → self.new.capacity ≡ self.old.capacity }
        ensures capacity { self.old.capacity ≤ self.new.capacity }
        ensures sorted { IsStrictlySortedBy C.cmp (keys_of self.new.rows) }
    {
        match self.insert(key, value) {
            Ok(before) => Ok(before),
            Err(_) => Err(AllocError),
        }
    }

    /// Removes all rows. The room for them stays.
    ///
    /// ```
    /// routes.clear();
    /// routes.is_empty() // true
    /// ```
    pub fn clear(&mut self)
        ensures rows { self.new.rows ≡ [] }
        ensures capacity { self.new.capacity ≡ self.old.capacity }
    {
        self.rows.clear();
    }

    /// Removes the rows for which `keep` returns `false`. It is called once with each row, in the order of the keys,
    /// and has to be callable for every row, as a closure with no condition of its own is.
    ///
    /// It takes one pass over the rows, allocates nothing, and the room for the rows stays.
    ///
    /// ```
    /// routes.retain(|row| row.1 != 1);
    /// routes.len() // 0
    /// ```
    pub fn retain<F: FnMut(&(C, V)) -> bool>(&mut self, keep: F)
        requires { F.IsAlwaysCallable keep }
        ensures rows { IsFiltered (CalledAt F.FnMut) keep self.old.rows self.new.rows }
        ensures capacity { self.new.capacity ≡ self.old.capacity }
        ensures sorted { IsStrictlySortedBy C.cmp (keys_of self.new.rows) }
    {
        self.rows.retain(keep);
    }

    /// Removes the rows whose key is in the outer network, which may be a key itself, and returns how many there were.
    ///
    /// It takes one pass over the rows, allocates nothing, and the room for the rows stays.
    ///
    /// ```
    /// routes.remove_inside(&"10.0.0.0/8".parse()?) // 2
    /// ```
    pub fn remove_inside(&mut self, outer: &C) -> usize
        ensures rows { AreOutside C.bits self.old.rows (C.bits outer.now) self.new.rows }
        ensures count { length self.new.rows + result ≡ length self.old.rows }
        ensures capacity { self.new.capacity ≡ self.old.capacity }
        ensures sorted { IsStrictlySortedBy C.cmp (keys_of self.new.rows) }
    {
        let before = self.rows.len();
        self.rows.retain(|row| !is_row_inside(row, outer));
        before - self.rows.len()
    }
}
