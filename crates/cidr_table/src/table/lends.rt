//! References to the values of a table, for writing.
ghost use Rattle.std.specs.Prelude.{◌≡◌, ◌<◌, length, slice_get, Some};
ghost use Rattle.std.specs.Borrow.{sem};
ghost use Rattle.std.specs.Option.{option_copied_mut};
ghost use Rattle.std.specs.List.Sorted.{IsStrictlySortedBy};
ghost use Rattle.std.specs.Map.{keys_of, values_of};
ghost use Rattle.cidr_table.specs.model.FiniteMap.{IsUnder};
ghost use Rattle.cidr_table.specs.model.Prefixes.{IsValueLookedUp};
ghost use Rattle.cidr_table.specs.model.Writing.{CallLeaves, AreWrittenInTurn};

use crate::table::LpmTable;
use cidr::NetworkBits;

impl<C: NetworkBits + Copy, V> LpmTable<C, V> {
    ghost use Rattle.cidr_table.specs.model.Lends.{lends_get, lends_lookup, lends_row};
    ghost use Rattle.cidr_table.specs.internal.LentRows.{lends_at};

    /// The value under exactly this key, for writing, or `None`. Binary search: O(log n). It allocates nothing.
    ///
    /// ```
    /// if let Some(value) = routes.get_mut(&"10.1.0.0/16".parse()?) {
    ///     *value = 3;
    /// }
    /// routes.get(&"10.1.0.0/16".parse()?) // Some(3)
    /// ```
    pub fn get_mut(&mut self, key: &C) -> Option<&mut V>
        ensures* writes_back { sem 𝓛 (lends_get C.row V.row C.NetworkBits self.entry key.now result) }
        ensures value { IsUnder self.old.rows key.now (option_copied_mut result) }
        ensures sorted { IsStrictlySortedBy C.cmp (keys_of self.old.rows) }
    {
        match self.find(key) {
            Ok(index) => Some(self.value_at(index)),
            Err(_) => None,
        }
    }

    /// The value of the row that `lookup` returns, for writing, or `None` where no key contains the look-up key. It
    /// takes as long as `lookup` and `get_mut` together, and allocates nothing.
    ///
    /// ```
    /// if let Some(hits) = routes.lookup_mut(&"10.2.0.1".parse()?) {
    ///     *hits = hits.wrapping_add(7);
    /// }
    /// routes.get(&"10.0.0.0/8".parse()?) // Some(9)
    /// ```
    pub fn lookup_mut(&mut self, asked: &C) -> Option<&mut V>
        ensures* writes_back { sem 𝓛 (lends_lookup C.row V.row C.NetworkBits self.entry (C.bits asked.now) result) }
        ensures value { IsValueLookedUp C.bits (C.bits asked.now) self.old.rows (option_copied_mut result) }
    {
        let key = self.lookup(asked)?.0;
        self.get_mut(&key)
    }

    /// The value of the row at an index, for writing, or `None` from the number of rows on. `row` returns its key.
    ///
    /// Each takes the same time, O(1), so that a loop over the indices may write all values, also where it is to stop
    /// early.
    ///
    /// ```
    /// for index in 0..routes.len() {
    ///     if let Some(hits) = routes.value_mut(index) {
    ///         *hits = hits.wrapping_add(1);
    ///     }
    /// }
    /// ```
    pub fn value_mut(&mut self, index: usize) -> Option<&mut V>
        ensures* writes_back { sem 𝓛 (lends_row C.row V.row C.NetworkBits self.entry index result) }
        ensures value { option_copied_mut result ≡ slice_get (values_of self.old.rows) index }
    {
        if index < self.len() {
            Some(self.value_at(index))
        } else {
            None
        }
    }

    /// Calls `write` once with each key and its value, in the order of the keys: it may write the value. It has to be
    /// callable for every row, as a closure with no condition of its own is. Nothing is allocated.
    ///
    /// ```
    /// routes.for_each_mut(|_, hits| *hits = (*hits).min(7));
    /// routes.get(&"10.0.0.0/8".parse()?) // Some(7)
    /// ```
    pub fn for_each_mut<F: FnMut(&C, &mut V)>(&mut self, write: F)
        requires { F.IsAlwaysCallable write }
        ensures rows { AreWrittenInTurn (CallLeaves F.FnMut.steps) write self.old.rows self.new.rows }
        ensures capacity { self.new.capacity ≡ self.old.capacity }
        ensures sorted { IsStrictlySortedBy C.cmp (keys_of self.new.rows) }
    {
        write_each(&mut self.rows, write);
    }

    /// The value of the row at an index, which there is.
    fn value_at(&mut self, index: usize) -> &mut V
        requires { index < length self.old.rows }
        ensures* writes_back { sem 𝓛 (lends_at C.row V.row C.NetworkBits self.entry index result) }
        ensures value { slice_get (values_of self.old.rows) index ≡ Some result.now }
    {
        let row = &mut self.rows[index];
        &mut row.1
    }
}

/// Calls `write` with each key and its value.
fn write_each<C, V, F: FnMut(&C, &mut V)>(rows: &mut [(C, V)], mut write: F)
    requires { F.IsAlwaysCallable write }
    ensures { AreWrittenInTurn (CallLeaves F.FnMut.steps) write rows.old rows.new }
{
    for index in 0..rows.len() {
        let row = &mut rows[index];
        write(&row.0, &mut row.1);
    }
}
