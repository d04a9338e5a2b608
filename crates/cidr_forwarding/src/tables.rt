//! The smallest tables, as calls of a table.
ghost use Rattle.std.specs.Prelude.{◌≡◌, ℕ, ◌≤◌, List, length, IfOk};
ghost use Rattle.std.specs.List.Sorted.{IsStrictlySortedBy};
ghost use Rattle.std.specs.Map.{keys_of};
ghost use Rattle.cidr.specs.either.IpAddress.{TellsEqual};
ghost use Rattle.cidr.specs.model.Network.{HasWidth};
ghost use Rattle.cidr_table.specs.model.CoverAddresses.{IsIpAddressBits};
ghost use Rattle.cidr_forwarding.specs.Forwarding.{in_bits, AreNetworksOf, AreIpRows, ForwardSame, ForwardSameHoled, IsSmallest, IsSmallestHoled};

use crate::plan::{smallest_holed, smallest_rows};
use cidr::NetworkBits;
use cidr_table::LpmTable;
use std::alloc::{AllocError, Global};

/// The smallest tables with the same forwarding as a table, as calls of `LpmTable`. The caller has to prove that `==` of
/// the values tells equality.
pub trait SmallestTable<C: NetworkBits + Copy, V: Copy + Ord + Drop> {
    /// The rows.
    ghost rows: { Self → List (C × V) };

    /// A smallest table with the same forwarding: each address has the same value in both, or in neither one, and no
    /// table of fewer rows has that. No address without a value gets one.
    ///
    /// It goes twice through the rows, in a time that grows with their number and their bits, 110 to 170 ns a row for
    /// tables like those of routers and of GeoIP. Beside the new table and a copy of its rows it takes memory for both
    /// passes, 36 bytes a row where values have four and few networks have many candidates, and frees it. The error is
    /// that an allocation fails; the table stays as it is.
    ///
    /// ```
    /// let smallest = routes.smallest(rt.alloc())?;
    /// smallest // {0.0.0.0/0: 1, 10.0.0.0/8: 2, 192.0.2.0/24: 3}
    /// routes.lookup(&"10.1.2.3".parse()?) // Some((10.1.0.0/16, 2))
    /// smallest.lookup(&"10.1.2.3".parse()?) // Some((10.0.0.0/8, 2))
    /// ```
    fn smallest(&self, alloc: Global) -> Result<LpmTable<C, V>, AllocError>
        requires { TellsEqual V.eq }
        ensures width { IfOk result (λ smallest. (w : ℕ) → w ≤ 129 → AreNetworksOf C.bits w (rows self.now)
            → IsSmallest (HasWidth w) (in_bits C.bits (rows self.now)) (in_bits C.bits smallest.rows)) }
        ensures ip { IfOk result (λ smallest. AreIpRows C.bits (rows self.now)
            → IsSmallest IsIpAddressBits (in_bits C.bits (rows self.now)) (in_bits C.bits smallest.rows)) }
        ensures lookups { IfOk result (λ smallest. (w : ℕ) → w ≤ 129 → AreNetworksOf C.bits w (rows self.now)
            → ForwardSame C.bits (HasWidth w) (rows self.now) smallest.rows) }
        ensures ip_lookups { IfOk result (λ smallest. AreIpRows C.bits (rows self.now)
            → ForwardSame C.bits IsIpAddressBits (rows self.now) smallest.rows) }
        ensures kept { IfOk result (λ smallest. (w : ℕ) → AreNetworksOf C.bits w (rows self.now)
            → AreNetworksOf C.bits w smallest.rows) }
        ensures kept_ip { IfOk result (λ smallest. AreIpRows C.bits (rows self.now)
            → AreIpRows C.bits smallest.rows) }
        ensures fits { IfOk result (λ smallest. length smallest.rows ≤ length (rows self.now)) };

    /// The same, in the same time, where a row may be a hole: with the value `None`, its addresses have no value.
    /// Routers write holes as discard routes. No table of fewer rows and holes has the same forwarding.
    ///
    /// ```
    /// let smallest = routes.smallest_with_holes(rt.alloc())?;
    /// smallest // {10.0.0.0/8: Some(1), 10.224.0.0/11: None}
    /// ```
    fn smallest_with_holes(&self, alloc: Global) -> Result<LpmTable<C, Option<V>>, AllocError>
        requires { TellsEqual V.eq }
        ensures width { IfOk result (λ smallest. (w : ℕ) → w ≤ 129 → AreNetworksOf C.bits w (rows self.now)
            → IsSmallestHoled (HasWidth w) (in_bits C.bits (rows self.now)) (in_bits C.bits smallest.rows)) }
        ensures ip { IfOk result (λ smallest. AreIpRows C.bits (rows self.now)
            → IsSmallestHoled IsIpAddressBits (in_bits C.bits (rows self.now)) (in_bits C.bits smallest.rows)) }
        ensures lookups { IfOk result (λ smallest. (w : ℕ) → w ≤ 129 → AreNetworksOf C.bits w (rows self.now)
            → ForwardSameHoled C.bits (HasWidth w) (rows self.now) smallest.rows) }
        ensures ip_lookups { IfOk result (λ smallest. AreIpRows C.bits (rows self.now)
            → ForwardSameHoled C.bits IsIpAddressBits (rows self.now) smallest.rows) }
        ensures kept { IfOk result (λ smallest. (w : ℕ) → AreNetworksOf C.bits w (rows self.now)
            → AreNetworksOf C.bits w smallest.rows) }
        ensures kept_ip { IfOk result (λ smallest. AreIpRows C.bits (rows self.now)
            → AreIpRows C.bits smallest.rows) }
        ensures fits { IfOk result (λ smallest. length smallest.rows ≤ length (rows self.now)) };
}

impl<C: NetworkBits + Copy, V: Copy + Ord + Drop> SmallestTable<C, V> for LpmTable<C, V> {
    ghost rows = { λ table. table.rows };

    fn smallest(&self, alloc: Global) -> Result<LpmTable<C, V>, AllocError> {
        let rows = smallest_rows(alloc, rows_of(self))?;
        Ok(table_of(rows))
    }

    fn smallest_with_holes(&self, alloc: Global) -> Result<LpmTable<C, Option<V>>, AllocError> {
        let rows = smallest_holed(alloc, rows_of(self))?;
        Ok(table_of(rows))
    }
}

/// The rows of a table.
pub(crate) fn rows_of<C: NetworkBits + Copy, V>(table: &LpmTable<C, V>) -> &[(C, V)]
    ensures rows { result.now ≡ table.now.rows }
    ensures sorted { IsStrictlySortedBy C.cmp (keys_of result.now) }
{
    table.iter().as_slice()
}

/// The table of rows that ascend.
fn table_of<C: NetworkBits + Copy, V: Drop>(rows: Vec<(C, V)>) -> LpmTable<C, V>
    requires { IsStrictlySortedBy C.cmp (keys_of rows.items) }
    ensures { result.rows ≡ rows.items }
{
    LpmTable::from_rows(rows)
}
