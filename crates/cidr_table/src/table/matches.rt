//! All rows whose key begins the look-up key.
ghost use Rattle.std.specs.Prelude.{◌≡◌, [], ◌∷◌, length, MatchOption};
ghost use Rattle.std.specs.Iterator.{YieldsFirstBy, item_count};
ghost use Rattle.std.specs.List.Sorted.{IsStrictlySortedBy};
ghost use Rattle.std.specs.Map.{keys_of};
ghost use Rattle.cidr_table.specs.model.Prefixes.{AreMatching, AreShortestFirst};
ghost use Rattle.cidr_table.specs.internal.Places.{matching};

use crate::search::{clipped, is_inside};
use crate::table::{LpmTable, lower_bound};
use cidr::{BitString, NetworkBits};
use std::iter::FusedIterator;
use std::marker::Model;

/// The rows of a table whose key begins the look-up key, the shortest key first. The call `matches` makes it.
#[derive(Drop)]
pub struct Matches<'a, C: NetworkBits + Copy, V> {
    /// The rows that were not looked at.
    rows: &'a [(C, V)],
    asked: C,
}

impl<'a, C: NetworkBits + Copy, V> Model for Matches<'a, C, V> {
    ghost use Rattle.std.specs.Prelude.{List};
    ghost use Rattle.std.specs.List.Sorted.{IsStrictlySortedBy};
    ghost use Rattle.std.specs.Map.{keys_of};
    ghost use Rattle.cidr_table.specs.internal.Places.{matching};

    ghost Value = { List (C × V) };

    ghost view = { λ m. matching C.bits (C.bits m.asked) m.rows.now };

    ghost invariant = { λ m. IsStrictlySortedBy C.cmp (keys_of m.rows.now) };
}

impl<C: NetworkBits + Copy, V> LpmTable<C, V> {
    /// The rows whose key contains the look-up key, the shortest key first: routers call them covering or supernet
    /// routes.
    ///
    /// It allocates nothing. Each step takes a search for each set bit of the look-up key at most.
    ///
    /// ```
    /// let mut covering = routes.matches(&"10.2.0.1".parse()?);
    /// covering.next() // Some((0.0.0.0/0, 1))
    /// covering.next() // Some((10.0.0.0/8, 2))
    /// covering.next() // None
    /// ```
    pub fn matches(&self, asked: &C) -> Matches<'_, C, V>
        ensures rows { AreMatching C.bits (C.bits asked.now) self.now.rows result }
        ensures shortest_first { AreShortestFirst C.bits result }
    {
        let rows = self.ascending();
        Matches {
            rows,
            asked: *asked,
        }
    }
}

impl<'a, C: NetworkBits + Copy, V> Iterator for Matches<'a, C, V> {
    type Item = &'a (C, V);

    ghost next_gives = { YieldsFirstBy (λ row. row.now) (λ rows. rows) };

    ghost remaining = { item_count (λ rows. rows) };

    fn next(&mut self) -> Option<&'a (C, V)> {
        let (row, behind) = first_match(self.rows, &self.asked)?;
        self.rows = behind;
        Some(row)
    }
}

impl<'a, C: NetworkBits + Copy, V> FusedIterator for Matches<'a, C, V> {}

/// The first row whose key begins the look-up key, and the rows behind it.
fn first_match<'a, C: NetworkBits + Copy, V>(
    rows: &'a [(C, V)],
    asked: &C,
) -> Option<(&'a (C, V), &'a [(C, V)])>
    requires { IsStrictlySortedBy C.cmp (keys_of rows.now) }
    ensures { MatchOption result (matching C.bits (C.bits asked.now) rows.now ≡ [])
        (λ found. (matching C.bits (C.bits asked.now) rows.now
        ≡ found.0.now ∷ matching C.bits (C.bits asked.now) found.1.now)
        × IsStrictlySortedBy C.cmp (keys_of found.1.now)) }
{
    let mut rest = rows;
    while let Some((row, behind)) = rest.split_first() {
        if is_inside(asked, &row.0) {
            return Some((row, behind));
        }
        if row.0.cmp(asked).is_gt() {
            return None;
        }
        // A key behind this one that begins the look-up key is longer than what this one shares with it.
        let shared = asked.shared_prefix_len(&row.0);
        let next = clipped(asked, shared.saturating_add(1));
        rest = &behind[lower_bound(behind, &next)..];
    }
    None
}
