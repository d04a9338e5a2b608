//! Smallest tables with the same forwarding whose allocations are refused.
use crate::growths::tables::{Routes, hosts};
use cidr_forwarding::{SmallestTable, forwards_same};
use std::alloc::{AllocError, Global};

/// How many rows there are.
const ROWS: u32 = 34;

/// Whether the smallest table, which may have holes or has the same forwarding, has all rows.
fn is_smallest(alloc: Global, routes: &Routes, has_holes: bool) -> Result<bool, AllocError> {
    if has_holes {
        return Ok(routes.smallest_with_holes(alloc)?.len() == ROWS as usize);
    }
    let smallest = routes.smallest(alloc)?;
    Ok(smallest.len() == ROWS as usize && forwards_same(routes, &smallest))
}

/// Whether both smallest tables are made of a table that has no smaller one, and it stays: addresses one behind the
/// other, each with a value of its own.
pub fn smallest(alloc: Global) -> Result<bool, AllocError> {
    let routes = hosts(alloc, ROWS, 1)?;
    let mut held = true;
    for has_holes in [false, true] {
        held &= match is_smallest(alloc, &routes, has_holes) {
            Ok(same) => same,
            Err(_) => is_smallest(alloc, &routes, has_holes)?,
        };
    }
    Ok(held && routes.len() == ROWS as usize)
}
