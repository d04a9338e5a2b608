//! The rows of a table: networks with a value each.
ghost use Rattle.std.specs.Prelude.{◌≡◌, [], IfOk, OnOk};
ghost use Rattle.cidr_lists.specs.Tables.{AreCopies, Pushes, value_at};

use cidr::{IpCidr, Ipv4Cidr, Ipv6Cidr};
use std::alloc::{AllocError, Global};

/// Where a value stands among the bytes of all values.
#[derive(Clone, Copy, Debug, Drop, PartialEq)]
pub struct Span {
    /// The index of its first byte, counted from 0.
    pub start: usize,
    /// How many bytes it has.
    pub len: usize,
}

/// The bytes of a value; of a span that goes beyond all values, those that there are.
pub fn value_at_span(values: &[u8], span: Span) -> &[u8]
    ensures { result.now ≡ value_at values.now span }
{
    let Some((_, behind)) = values.split_at_checked(span.start) else {
        return &[];
    };
    let Some((value, _)) = behind.split_at_checked(span.len) else {
        return behind;
    };
    value
}

/// The networks of each family, each with the span of its value, and the bytes of all values: rows as they come, also
/// several of one network. After an error, which is that there is no memory, what was added isn't told.
#[derive(Drop)]
pub struct RowList {
    /// The rows of IPv4.
    pub v4: Vec<(Ipv4Cidr, Span)>,
    /// The rows of IPv6.
    pub v6: Vec<(Ipv6Cidr, Span)>,
    /// The bytes of all values, one behind the other.
    pub values: Vec<u8>,
}

impl RowList {
    /// No rows. It allocates nothing.
    pub fn new(alloc: Global) -> RowList
        ensures v4 { result.v4.items ≡ [] }
        ensures v6 { result.v6.items ≡ [] }
        ensures values { result.values.items ≡ [] }
    {
        RowList {
            v4: Vec::new(alloc),
            v6: Vec::new(alloc),
            values: Vec::new(alloc),
        }
    }

    /// Adds a network with its value to those of its family.
    pub fn push(&mut self, network: &IpCidr, value: &[u8]) -> Result<(), AllocError>
        ensures { OnOk result (Pushes self.old self.new network.now value.now) }
    {
        let span = Span {
            start: self.values.len(),
            len: value.len(),
        };
        self.values.extend_from_slice(value)?;
        match network {
            IpCidr::V4(network) => self.v4.push((*network, span))?,
            IpCidr::V6(network) => self.v6.push((*network, span))?,
        }
        Ok(())
    }

    /// The same rows in memory of their own. The error is that an allocation fails.
    pub fn copy(&self, alloc: Global) -> Result<RowList, AllocError>
        ensures { IfOk result (λ rows. AreCopies self.now rows) }
    {
        let mut rows = RowList::new(alloc);
        rows.v4.extend_from_slice(self.v4.as_slice())?;
        rows.v6.extend_from_slice(self.v6.as_slice())?;
        rows.values.extend_from_slice(self.values.as_slice())?;
        Ok(rows)
    }
}
