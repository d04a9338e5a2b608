//! A table made of rows in any order.
ghost use Rattle.std.specs.Prelude.{◌≡◌, cond};
ghost use Rattle.std.specs.List.Sorted.{IsStrictlySortedBy};
ghost use Rattle.std.specs.Map.{keys_of};
ghost use Rattle.std.specs.Vec.{vec_capacity};
ghost use Rattle.cidr_table.specs.model.LastRows.{AreLastRows};
ghost use Rattle.cidr_table.specs.internal.Sorting.{AreAscending};

use crate::sorting::sort_rows;
use crate::table::LpmTable;
use cidr::NetworkBits;
use std::mem;

impl<C: NetworkBits + Copy, V: Drop> LpmTable<C, V> {
    /// The table of rows in any order. Of rows with equal keys the last one in the `Vec` counts, and the others are
    /// dropped.
    ///
    /// It never fails. The table keeps the `Vec`, so that its capacity is that of the `Vec`. O(n log n) comparisons of
    /// keys, 70 to 130 ns a row of IPv4 for a million of them; n - 1 for keys in ascending order, some 5 ns a row, for
    /// which it allocates nothing. Else it allocates room for as many rows while it sorts; where the allocation fails,
    /// it sorts in place, with O(n log² n) moves of rows.
    ///
    /// ```
    /// let (one, other) = ("10.1.0.0/16".parse()?, "10.0.0.0/8".parse()?);
    /// let rows = vec![in rt.alloc(); (one, 1), (other, 2), (one, 3)].map_err(|_| AllocError)?;
    /// let routes = Routes::from_rows(rows);
    /// routes.len() // 2
    /// routes.iter().last() // Some((10.1.0.0/16, 3))
    /// ```
    pub fn from_rows(mut rows: Vec<(C, V)>) -> Self
        ensures rows { AreLastRows rows.items result.rows }
        ensures whole { IsStrictlySortedBy C.cmp (keys_of rows.items) → result.rows ≡ rows.items }
        ensures capacity { result.capacity ≡ vec_capacity rows }
        ensures sorted { IsStrictlySortedBy C.cmp (keys_of result.rows) }
    {
        sort_rows(&mut rows);
        keep_last(&mut rows);
        LpmTable { rows }
    }
}

/// Leaves of the rows of each key the last one.
fn keep_last<C: NetworkBits + Copy, V: Drop>(rows: &mut Vec<(C, V)>)
    requires { AreAscending C.cmp rows.old.items }
    ensures last { AreLastRows rows.old.items rows.new.items }
    ensures capacity { vec_capacity rows.new ≡ vec_capacity rows.old }
    ensures sorted { IsStrictlySortedBy C.cmp (keys_of rows.new.items) }
{
    rows.dedup_by(
        |row, kept|
            ensures same { result ≡ C.eq row.old.0 kept.old.0 }
            ensures row { row.new ≡ cond result kept.old row.old }
            ensures kept { kept.new ≡ cond result row.old kept.old }
        {
            let same = row.0 == kept.0;
            if same {
                mem::swap(row, kept);
            }
            same
        },
    );
}
