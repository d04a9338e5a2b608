//! Copies of a table.
ghost use Rattle.std.specs.Prelude.{IfOk};
ghost use Rattle.cidr_table.specs.model.FiniteMap.{AreCloned};

use crate::table::LpmTable;
use cidr::NetworkBits;
use std::alloc::{AllocError, Global};

impl<C: NetworkBits + Copy, V: Clone + Drop> Clone for LpmTable<C, V> {
    ghost is_clone = { λ table copy. AreCloned V.is_clone table.rows copy.rows };

    /// The same keys with a clone of each value. Fails where an allocation or the clone of a value does.
    fn clone(&self) -> Result<LpmTable<C, V>, AllocError> {
        let rows = clone_rows(self.rows.allocator().clone()?, self.ascending())?;
        Ok(LpmTable { rows })
    }
}

/// The rows with a clone of each value.
fn clone_rows<C: NetworkBits + Copy, V: Clone + Drop>(
    alloc: Global,
    rows: &[(C, V)],
) -> Result<Vec<(C, V)>, AllocError>
    ensures { IfOk result (λ copy. AreCloned V.is_clone rows.now copy.items) }
{
    let mut copy = Vec::with_capacity(alloc, rows.len())?;
    for row in rows {
        let value = row.1.clone()?;
        copy.push((row.0, value))?;
    }
    Ok(copy)
}
