//! Look-ups in a table, whose contracts speak of rows, so that a caller needs no proof of its own.
ghost use Rattle.std.specs.Prelude.{◌≡◌, List, Option, IfOk, unwrap_or};
ghost use Rattle.cidr_table.specs.model.LastRows.{AreLastRows};
ghost use Rattle.cidr_table.specs.model.Prefixes.{IsLookedUp, AreMatching, AreShortestFirst};

use cidr::NetworkBits;
use cidr_lookup::{Keyed, ReadyTable, TableError};
use cidr_table::LpmTable;
use cidr_table::laws::look_ups::look_ups_have_one_result;
use std::alloc::{AllocError, Global};

/// The row of the longest match, copied.
pub fn matched_row<C: NetworkBits + Copy, V: Copy>(
    routes: &LpmTable<C, V>,
    asked: &C,
) -> Option<(C, V)>
    ensures { IsLookedUp C.bits (C.bits asked.now) routes.now.rows result }
{
    routes.lookup(asked).copied()
}

/// That row, or a default route where no row's network holds the asked one.
pub fn row_or_default<C: NetworkBits + Copy, V: Copy>(
    routes: &LpmTable<C, V>,
    asked: &C,
    default: (C, V),
) -> (C, V)
    ensures { (found : Option (C × V)) × IsLookedUp C.bits (C.bits asked.now) routes.now.rows found
        × (result ≡ unwrap_or found default) }
{
    match routes.lookup(asked) {
        Some(row) => *row,
        None => default,
    }
}

/// The rows of the longest matches of two networks, for which the table is made ready once.
pub fn two_rows<C: Keyed, V: Copy>(
    alloc: Global,
    routes: LpmTable<C, V>,
    one: &C,
    other: &C,
) -> Result<(Option<(C, V)>, Option<(C, V)>), TableError>
    ensures one { IfOk result (λ rows. IsLookedUp C.bits (C.bits one.now) routes.rows rows.0) }
    ensures other { IfOk result (λ rows. IsLookedUp C.bits (C.bits other.now) routes.rows rows.1) }
{
    let ready = match ReadyTable::new(alloc, routes) {
        Ok(ready) => ready,
        Err((_, error)) => return Err(error),
    };
    Ok((ready.lookup(one).copied(), ready.lookup(other).copied()))
}

/// The row of the longest match in a table of rows in any order, of which the last one of each network counts.
pub fn matched_of_rows<C: NetworkBits + Copy, V: Copy + Drop>(
    rows: Vec<(C, V)>,
    asked: &C,
) -> Option<(C, V)>
    ensures { (table : List (C × V)) × AreLastRows rows.items table
        × IsLookedUp C.bits (C.bits asked.now) table result }
{
    LpmTable::from_rows(rows).lookup(asked).copied()
}

/// All rows whose network holds the asked one, the shortest prefix first, copied into a list.
pub fn covering_rows<C: NetworkBits + Copy, V: Copy + Drop>(
    alloc: Global,
    routes: &LpmTable<C, V>,
    asked: &C,
) -> Result<Vec<(C, V)>, AllocError>
    ensures rows { IfOk result (λ rows. AreMatching C.bits (C.bits asked.now) routes.now.rows rows.items) }
    ensures shortest_first { IfOk result (λ rows. AreShortestFirst C.bits rows.items) }
{
    let mut rows = Vec::new(alloc);
    for row in routes.matches(asked) {
        rows.push(*row)?;
    }
    Ok(rows)
}

/// The rows that a table itself returns and that the table made ready returns, which are the same.
pub fn rows_of_both_look_ups<C: Keyed, V: Copy>(
    ready: &ReadyTable<C, V>,
    asked: &C,
) -> (Option<(C, V)>, Option<(C, V)>)
    ensures { result.0 ≡ result.1 }
{
    look_ups_have_one_result::<C, V>();
    let one = ready.table().lookup(asked).copied();
    let other = ready.lookup(asked).copied();
    (one, other)
}
