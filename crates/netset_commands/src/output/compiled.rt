//! Tables as files of look-ups.
ghost use Rattle.std.specs.Prelude.{◌≡◌, ◌≤◌, ◌^◌, IfNone, IfOk, IfSome};
ghost use Rattle.cidr.specs.model.Network.{width_of};
ghost use Rattle.netset_commands.specs.Rows.{kept};
ghost use Rattle.netset_commands.specs.Columns.{AreColumns, value_bytes};
ghost use Rattle.netset_commands.specs.Compiled.{IsTableFile, IsTooLarge};

use crate::input::tables::PlainTable;
use cidr::{FamilyCidr, Ipv4Cidr, Ipv6Cidr};
use cidr_files::{FileAddress, FileRows, Ipv4Bytes, Ipv6Bytes, WriteError, written};
use cidr_lists::rows::{Span, value_at_span};
use cidr_lookup::{Key, TableError};
use std::alloc::{AllocError, Global};

/// The rows of one family, as a file has them.
#[derive(Drop)]
struct Columns<W> {
    keys: Vec<Key<W>>,
    /// Where the value of each begins, and last where they end.
    offsets: Vec<u32>,
    values: Vec<u8>,
}

impl<W> Columns<W> {
    /// The same, lent.
    fn rows(&self) -> FileRows<'_, W>
        ensures keys { result.keys.now ≡ self.now.keys.items }
        ensures offsets { result.offsets.now ≡ self.now.offsets.items }
        ensures values { result.values.now ≡ self.now.values.items }
    {
        FileRows {
            keys: self.keys.as_slice(),
            offsets: self.offsets.as_slice(),
            values: self.values.as_slice(),
        }
    }
}

/// The rows of one family, whose values stand among those of all; `None` where these are more bytes than an offset counts.
fn columns_of<W: FileAddress, C: FamilyCidr>(
    alloc: Global,
    rows: &[(C, Span)],
    all: &[u8],
) -> Result<Option<Columns<W>>, AllocError>
    requires { W.width ≡ width_of C.FAMILY }
    ensures made { IfOk result (λ made. IfSome made (AreColumns W.width W.value C.bits all.now rows.now)) }
    ensures large { IfOk result (λ made. IfNone made (2 ^ 32 ≤ value_bytes all.now rows.now)) }
{
    let mut keys = Vec::with_capacity(alloc, rows.len())?;
    let mut offsets = Vec::with_capacity(alloc, rows.len())?;
    let mut values = Vec::new(alloc);
    offsets.push(0)?;
    for row in rows {
        let key = Key::<W>::of(&row.0);
        keys.push(key)?;
        values.extend_from_slice(value_at_span(all, row.1))?;
        let end = values.len();
        if end >= 1 << 32 {
            return Ok(None);
        }
        offsets.push(end as u32)?;
    }
    Ok(Some(Columns {
        keys,
        offsets,
        values,
    }))
}

/// The bytes of a file of look-ups that has the rows of a table; `None` where it is too large for one: where a family has
/// 2^31 rows or more, values of 2^32 bytes or more, or look-ups of 2^30 words or more. The error is that there is no memory.
pub fn compiled(alloc: Global, table: &PlainTable) -> Result<Option<Vec<u8>>, AllocError>
    ensures file { IfOk result (λ file. IfSome file (λ bytes. IsTableFile (kept table.now) bytes.items)) }
    ensures large { IfOk result (λ file. IfNone file (IsTooLarge (kept table.now))) }
{
    let all = table.values.as_slice();
    let made = columns_of::<Ipv4Bytes, Ipv4Cidr>(alloc, table.v4.iter().as_slice(), all)?;
    let Some(ipv4) = made else {
        return Ok(None);
    };
    let others = columns_of::<Ipv6Bytes, Ipv6Cidr>(alloc, table.v6.iter().as_slice(), all)?;
    let Some(ipv6) = others else {
        return Ok(None);
    };
    match written(alloc, &ipv4.rows(), &ipv6.rows()) {
        Ok(bytes) => Ok(Some(bytes)),
        Err(e) => match e {
            WriteError::Values => Ok(None),
            WriteError::Table(e) => match e {
                TableError::NoMemory => Err(AllocError),
                _ => Ok(None),
            },
        },
    }
}
