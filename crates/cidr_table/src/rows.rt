//! The rows of a table as a probe.
ghost use Rattle.std.specs.Prelude.{◌≡◌};
ghost use Rattle.std.specs.Map.{keys_of};

use crate::count::Count;
use crate::probe::Probe;
use std::cmp::Ordering;
use std::marker::Model;

/// The rows of a table as a [`Probe`](crate::Probe), for `longest_match`. The call `probe` of `LpmTable` makes it. The
/// count of the comparisons is for the contracts and takes no memory.
#[derive(Drop)]
pub struct Rows<'a, C, V> {
    rows: &'a [(C, V)],
    count: Count,
}

impl<'a, C, V> Model for Rows<'a, C, V> {
    ghost use Rattle.cidr_table.specs.model.FiniteMap.{ProbedRows};

    ghost Value = { ProbedRows C V };

    ghost view = { λ r. record { rows = r.rows.now; comparisons = r.count.total } };
}

impl<'a, C, V> Rows<'a, C, V> {
    /// A probe that has made no comparison.
    pub(crate) fn new(rows: &'a [(C, V)]) -> Self
        ensures rows { result.rows ≡ rows.now }
        ensures count { result.comparisons ≡ 0 }
    {
        Rows {
            rows,
            count: Count::zero(),
        }
    }
}

impl<'a, C: Ord, V> Probe<C> for Rows<'a, C, V> {
    ghost keys = { λ r. keys_of r.rows };

    ghost count = { λ r. r.comparisons };

    fn len(&self) -> usize {
        self.rows.len()
    }

    fn compare(&mut self, i: usize, key: &C) -> Ordering {
        self.count.tick();
        let row = &self.rows[i];
        row.0.cmp(key)
    }
}
