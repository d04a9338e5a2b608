//! The keys, the values and the rows of a table one by one, and the equality of tables.
ghost use Rattle.std.specs.Prelude.{◌≡◌, ◌<◌, ◌^◌, ◌&&◌, length};
ghost use Rattle.std.specs.Cmp.{on_per, and_per};
ghost use Rattle.std.specs.Cmp.Lexicographic.{pointwise, lists_per};
ghost use Rattle.std.specs.Iterator.{YieldsFirstBy, YieldsLastBy, item_count};
ghost use Rattle.std.specs.Iterator.Adapters.{IterYieldsInOrder, IterYieldsInReverse};
ghost use Rattle.std.specs.List.Sorted.{IsStrictlySortedBy};
ghost use Rattle.std.specs.Map.{keys_of, values_of};
ghost use Rattle.std.specs.Slice.Iter.{iter_rest};

use crate::table::LpmTable;
use cidr::NetworkBits;
use std::alloc::Global;
use std::iter::FusedIterator;
use std::marker::Model;
use std::slice::Iter;
use std::vec;

/// The keys of a table that are left, ascending. The call `keys` makes it.
#[derive(Drop)]
pub struct Keys<'a, C, V> {
    rows: &'a [(C, V)],
}

impl<'a, C, V> Model for Keys<'a, C, V> {
    ghost use Rattle.std.specs.Prelude.{List};
    ghost use Rattle.std.specs.Map.{keys_of};

    ghost Value = { List C };

    ghost view = { λ left. keys_of left.rows.now };
}

impl<'a, C, V> Iterator for Keys<'a, C, V> {
    type Item = &'a C;

    ghost next_gives = { YieldsFirstBy (λ key. key.now) (λ keys. keys) };

    ghost remaining = { item_count (λ keys. keys) };

    fn next(&mut self) -> Option<&'a C> {
        let (row, behind) = self.rows.split_first()?;
        self.rows = behind;
        Some(&row.0)
    }
}

impl<'a, C, V> DoubleEndedIterator for Keys<'a, C, V> {
    ghost next_back_gives = { YieldsLastBy (λ key. key.now) (λ keys. keys) };

    fn next_back(&mut self) -> Option<&'a C> {
        let (row, before) = self.rows.split_last()?;
        self.rows = before;
        Some(&row.0)
    }
}

impl<'a, C, V> FusedIterator for Keys<'a, C, V> {}

/// The values of a table that are left, in the order of their keys. The call `values` makes it.
#[derive(Drop)]
pub struct Values<'a, C, V> {
    rows: &'a [(C, V)],
}

impl<'a, C, V> Model for Values<'a, C, V> {
    ghost use Rattle.std.specs.Prelude.{List};
    ghost use Rattle.std.specs.Map.{values_of};

    ghost Value = { List V };

    ghost view = { λ left. values_of left.rows.now };
}

impl<'a, C, V> Iterator for Values<'a, C, V> {
    type Item = &'a V;

    ghost next_gives = { YieldsFirstBy (λ value. value.now) (λ values. values) };

    ghost remaining = { item_count (λ values. values) };

    fn next(&mut self) -> Option<&'a V> {
        let (row, behind) = self.rows.split_first()?;
        self.rows = behind;
        Some(&row.1)
    }
}

impl<'a, C, V> DoubleEndedIterator for Values<'a, C, V> {
    ghost next_back_gives = { YieldsLastBy (λ value. value.now) (λ values. values) };

    fn next_back(&mut self) -> Option<&'a V> {
        let (row, before) = self.rows.split_last()?;
        self.rows = before;
        Some(&row.1)
    }
}

impl<'a, C, V> FusedIterator for Values<'a, C, V> {}

/// The rows of a table that are left, by value, in the order of their keys. The call `into_iter` of `LpmTable` makes
/// it.
#[derive(Drop)]
pub struct IntoIter<C, V> {
    rows: vec::IntoIter<(C, V), Global>,
}

impl<C, V> Model for IntoIter<C, V> {
    ghost use Rattle.std.specs.Prelude.{List};
    ghost use Rattle.std.specs.Vec.Iter.{into_iter_items};

    ghost Value = { List (C × V) };

    ghost view = { λ left. into_iter_items left.rows };
}

impl<C: Drop, V: Drop> Iterator for IntoIter<C, V> {
    type Item = (C, V);

    ghost next_gives = { YieldsFirstBy (λ row. row) (λ rows. rows) };

    ghost remaining = { item_count (λ rows. rows) };

    fn next(&mut self) -> Option<(C, V)> {
        self.rows.next()
    }
}

impl<C: Drop, V: Drop> DoubleEndedIterator for IntoIter<C, V> {
    ghost next_back_gives = { YieldsLastBy (λ row. row) (λ rows. rows) };

    fn next_back(&mut self) -> Option<(C, V)> {
        self.rows.next_back()
    }
}

impl<C: Drop, V: Drop> ExactSizeIterator for IntoIter<C, V> {
    fn len(&self) -> usize {
        self.rows.len()
    }
}

impl<C: Drop, V: Drop> FusedIterator for IntoIter<C, V> {}

impl<C: NetworkBits + Copy, V> LpmTable<C, V> {
    /// The keys, ascending, from both ends.
    ///
    /// ```
    /// let mut keys = routes.keys();
    /// keys.next_back() // Some(10.1.0.0/16)
    /// ```
    pub fn keys(&self) -> Keys<'_, C, V>
        ensures keys { result ≡ keys_of self.now.rows }
        ensures sorted { IsStrictlySortedBy C.cmp result }
    {
        Keys {
            rows: self.ascending(),
        }
    }

    /// The values in the order of their keys, from both ends.
    ///
    /// ```
    /// let mut values = routes.values();
    /// values.next() // Some(1)
    /// ```
    pub fn values(&self) -> Values<'_, C, V>
        ensures { result ≡ values_of self.now.rows }
    {
        Values {
            rows: self.ascending(),
        }
    }
}

impl<'a, C: NetworkBits + Copy, V> IntoIterator for &'a LpmTable<C, V> {
    type Item = &'a (C, V);

    type IntoIter = Iter<'a, (C, V)>;

    ghost into_iter_gives = { λ table rows. (iter_rest rows ≡ table.now.rows) × (length (iter_rest rows) < 2 ^ 64)
        × IterYieldsInOrder (C × V) × IterYieldsInReverse (C × V)
        × IsStrictlySortedBy C.cmp (keys_of table.now.rows) };

    fn into_iter(self) -> Iter<'a, (C, V)> {
        self.iter()
    }
}

impl<C: NetworkBits + Copy, V: Drop> IntoIterator for LpmTable<C, V> {
    type Item = (C, V);

    type IntoIter = IntoIter<C, V>;

    ghost into_iter_gives = { λ table rows. (rows ≡ table.rows) × (length rows < 2 ^ 64)
        × IsStrictlySortedBy C.cmp (keys_of table.rows) };

    /// The rows by value, in the order of their keys, from both ends. It allocates nothing.
    ///
    /// ```
    /// let mut rows = routes.into_iter();
    /// rows.next_back() // Some((10.0.0.0/8, 2))
    /// rows.len() // 1
    /// ```
    fn into_iter(self) -> IntoIter<C, V> {
        let LpmTable { rows } = self;
        IntoIter {
            rows: rows.into_iter(),
        }
    }
}

/// Two tables are equal if they have the same keys, each with an equal value. O(n).
impl<C: NetworkBits + Copy, V: PartialEq> PartialEq for LpmTable<C, V> {
    ghost eq = { λ one other. pointwise (λ row with. C.eq row.0 with.0 && V.eq row.1 with.1) one.rows other.rows };

    ghost laws = { on_per (λ table. table.rows)
        (lists_per (and_per (on_per (λ row. row.0) C.PartialEq.laws) (on_per (λ row. row.1) V.laws))) };

    fn eq(&self, other: &LpmTable<C, V>) -> bool {
        self.rows == other.rows
    }
}
