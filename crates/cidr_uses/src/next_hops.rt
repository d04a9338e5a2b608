//! Next hops by a table made ready, whose values are indices of a list.
ghost use Rattle.std.specs.Prelude.{◌≡◌, ℕ, List, Option, IfErr, IfOk, length, slice_get};
ghost use Rattle.std.specs.Option.{option_and_then};
ghost use Rattle.cidr_lookup.specs.Rows.{IsCountRefused};
ghost use Rattle.cidr_table.specs.model.LastRows.{AreLastRows};
ghost use Rattle.cidr_table.specs.model.Prefixes.{IsValueLookedUp};

use cidr_lookup::{Keyed, ReadyTable, TableError};
use cidr_table::LpmTable;
use std::alloc::Global;

/// The gateway of an address: the value of its longest match is the index of the gateway in a list. `None` where no
/// network has the address, or the list has no such entry.
pub fn gateway<C: Keyed, G: Copy>(
    ready: &ReadyTable<C, u32>,
    gateways: &[G],
    address: &C,
) -> Option<G>
    ensures { (index : Option ℕ) × IsValueLookedUp C.bits (C.bits address.now) ready.now.rows index
        × (result ≡ option_and_then (λ i. slice_get gateways.now i) index) }
{
    let index = value(ready, address)?;
    gateways.get(index as usize).copied()
}

/// The value of the longest match.
fn value<C: Keyed, V: Copy>(ready: &ReadyTable<C, V>, asked: &C) -> Option<V>
    ensures { IsValueLookedUp C.bits (C.bits asked.now) ready.now.rows result }
{
    let row = ready.lookup(asked)?;
    Some(row.1)
}

/// The value of the longest match among rows in any order, of which the last one of each network counts.
pub fn value_of_rows<C: Keyed>(
    alloc: Global,
    rows: Vec<(C, u32)>,
    asked: &C,
) -> Result<Option<u32>, TableError>
    ensures value { IfOk result (λ value. (table : List (C × ℕ)) × AreLastRows rows.items table
        × IsValueLookedUp C.bits (C.bits asked.now) table value) }
    ensures refused { IfErr result (λ error. (table : List (C × ℕ)) × AreLastRows rows.items table × IsCountRefused (length table) error) }
{
    let ready = match ReadyTable::new(alloc, LpmTable::from_rows(rows)) {
        Ok(ready) => ready,
        Err((_, error)) => return Err(error),
    };
    Ok(value(&ready, asked))
}
