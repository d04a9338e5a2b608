//! Route origin validation (RFC 6811).
ghost use Rattle.std.specs.Prelude.{◌≡◌, ◌≢◌, ◌↔◌, ◌++◌, ◌∷◌, [], ℕ, Bool, List, Option, Contains, IfErr, IfOk, Ok, Some, length};
ghost use Rattle.std.specs.Bool.{Decides};
ghost use Rattle.std.specs.List.Sorted.{IsStrictlySortedBy};
ghost use Rattle.std.specs.Map.{keys_of};
ghost use Rattle.cidr.specs.either.IpAddress.{TiesEqual};
ghost use Rattle.cidr.specs.model.Network.{first_of, width_of};
ghost use Rattle.cidr_lookup.specs.Rows.{HaveTooManyWords, IsCountRefused};
ghost use Rattle.cidr_lookup.specs.declared.table.TableError.TheVariants.{TooLarge, NoMemory};
ghost use Rattle.cidr_routes.specs.Links.{AreEnds, IsUpto};
ghost use Rattle.cidr_routes.specs.Origins.{Covers, IsRefused, IsValidity, payload_cmp};
ghost use Rattle.cidr_routes.specs.declared.origins.Payload.{Payload};
ghost use Rattle.cidr_routes.specs.declared.origins.Validity.{Validity};
ghost use Rattle.cidr_routes.specs.declared.origins.Validity.TheVariants.{Valid};

use crate::covering::Covering;
use crate::links::{last_covering, links};
use cidr::{FamilyCidr, NetworkBits};
use cidr_lookup::{Keyed, ReadyTable, TableError};
use cidr_table::LpmTable;
use std::alloc::{AllocError, Global};
use std::marker::Model;

/// A validated ROA payload (VRP, RFC 6811, 2): the AS may announce the network, and those in it up to a prefix length.
#[derive(Debug, Clone, Copy, Drop, PartialEq, Eq, PartialOrd, Ord)]
pub struct Payload<C: NetworkBits + Copy> {
    /// The network.
    pub network: C,
    /// The greatest prefix length in bits that may be announced. Where it is below that of the network, no route matches.
    pub max_length: u8,
    /// The number of the AS. A payload of AS 0 matches no route (RFC 6483, 4).
    pub origin: u32,
}

/// What the payloads say of a route (RFC 6811, 2). Both `InvalidLength` and `InvalidOrigin` are "Invalid" there.
#[derive(Debug, Clone, Copy, Drop, PartialEq, Eq)]
pub enum Validity {
    /// Some payload matches the route.
    Valid,
    /// No payload matches the route, and some of its AS covers it: its prefix is too long.
    InvalidLength,
    /// Some payload covers the route, and none of its AS does.
    InvalidOrigin,
    /// No payload covers the route.
    NotFound,
}

/// Validated ROA payloads of one family, ready for routes.
#[derive(Drop)]
pub struct Payloads<C: Keyed> {
    payloads: Vec<Payload<C>>,
    /// For each payload, how many there are up to the last before it whose network contains its network, or 0.
    above: Vec<usize>,
    /// For each network of a payload, how many payloads there are up to its last.
    ends: ReadyTable<C, usize>,
}

impl<C: Keyed> Model for Payloads<C> {
    ghost use Rattle.std.specs.Prelude.{◌≡◌, List, length};
    ghost use Rattle.std.specs.List.Sorted.{IsStrictlySortedBy};
    ghost use Rattle.cidr_routes.specs.Links.{AreEnds, AreLinked, AreOrdered};
    ghost use Rattle.cidr_routes.specs.Origins.{payload_cmp};
    ghost use Rattle.cidr_routes.specs.declared.origins.Payload.{Payload};

    ghost Value = { List (Payload C) };

    ghost view = { λ p. p.payloads.items };

    ghost invariant = { λ p. IsStrictlySortedBy (payload_cmp C.cmp) p.payloads.items × AreOrdered C.bits p.payloads.items
        × AreLinked C.bits p.payloads.items p.above.items × (length p.above.items ≡ length p.payloads.items)
        × AreEnds p.payloads.items p.ends.rows };
}

impl<C: Keyed> Payloads<C> {
    /// The payloads, which may come in any order and repeat: each is kept once. They are kept in the order of their networks,
    /// those of one network in that of their greatest lengths, and then of the AS.
    ///
    /// It sorts the `Vec` in place, O(n log n), some 80 ns a payload of IPv4, and makes its networks ready for look-ups. While
    /// it runs it allocates 48 bytes a payload of IPv4, or 88 of IPv6, and the look-up table, of which 24 or 40 stay.
    ///
    /// The error is that an allocation failed, or that there are more than 2,147,483,647 networks or 1,073,741,823 words of
    /// their look-up table. It is never `Refused`.
    ///
    /// ```
    /// let payloads = Payloads::new(rt.alloc(), payloads)?;
    /// payloads.as_slice().len() // 2
    /// ```
    pub fn new(alloc: Global, payloads: Vec<Payload<C>>) -> Result<Self, TableError>
        ensures same { IfOk result (λ held. (vrp : Payload C) → Contains held vrp ↔ Contains payloads.items vrp) }
        ensures ascending { IfOk result (λ held. IsStrictlySortedBy (payload_cmp C.cmp) held) }
        ensures refused { IfErr result (IsRefused C.cmp C.bits C.Number.width C.Number.padding C.Number.steps payloads.items) }
    {
        let payloads = ascending(payloads);
        let above = or_no_memory(links(alloc, payloads.as_slice()))?;
        let ends = ready(alloc, or_no_memory(ends_of(alloc, payloads.as_slice()))?)?;
        Ok(Payloads {
            payloads,
            above,
            ends,
        })
    }

    /// The payloads, ascending.
    ///
    /// ```
    /// payloads.as_slice().len() // 2
    /// ```
    pub fn as_slice(&self) -> &[Payload<C>]
        ensures { result.now ≡ self.now }
    {
        self.payloads.as_slice()
    }

    /// What the payloads say of a route, by its network and the AS that it comes from: `None` where that is not one AS, as
    /// where its path ends in a set of AS.
    ///
    /// It takes one look-up of the route's first address, and then a step for each payload that contains that, from the longest
    /// network on, up to the first that matches. It allocates nothing.
    ///
    /// ```
    /// payloads.validity(&"192.0.2.0/24".parse()?, Some(64496)) // Valid
    /// ```
    pub fn validity(&self, route: &C, origin: Option<u32>) -> Validity
        ensures { IsValidity C.bits (C.bits route.now) origin (Contains self.now) result }
    {
        let mut seen = Validity::NotFound;
        let mut covering = self.covering(route);
        while let Some(payload) = covering.next() {
            seen = beside(seen, payload, route, origin);
            if is_valid(seen) {
                return seen;
            }
        }
        seen
    }

    /// The payloads that cover a route, from the longest network to the shortest. It takes one look-up of the route's first
    /// address, and then a step for each payload that contains that. It allocates nothing.
    ///
    /// ```
    /// let mut covering = payloads.covering(&"192.0.2.0/24".parse()?);
    /// covering.next().is_some() // true
    /// ```
    pub fn covering(&self, route: &C) -> Covering<'_, C>
        ensures same { (vrp : Payload C) → Contains result vrp ↔ (Contains self.now vrp × Covers C.bits (C.bits route.now) vrp) }
        ensures descending { IsStrictlySortedBy (λ vrp other. payload_cmp C.cmp other vrp) result }
    {
        let payloads = self.payloads.as_slice();
        let above = self.above.as_slice();
        let upto = self.upto_first_address(route);
        let end = last_covering(payloads, above, route, upto);
        Covering {
            payloads,
            above,
            route: *route,
            end,
        }
    }

    /// How many payloads there are up to the last whose network contains the first address of a route, or 0.
    fn upto_first_address(&self, route: &C) -> usize
        ensures { IsUpto C.bits self.now (first_of (width_of C.FAMILY) (C.bits route.now)) (length self.now) result }
    {
        let address = <C as FamilyCidr>::new_host(route.first_address());
        match self.ends.lookup(&address) {
            Some(row) => row.1,
            None => 0,
        }
    }
}

/// What is said by some payloads and one more, which covers the route.
fn beside<C: FamilyCidr>(
    seen: Validity,
    payload: &Payload<C>,
    route: &C,
    origin: Option<u32>,
) -> Validity
    requires { Covers C.bits (C.bits route.now) payload.now }
    ensures { (before : List (Payload C)) → IsValidity C.bits (C.bits route.now) origin (Contains before) seen
        → IsValidity C.bits (C.bits route.now) origin (Contains (before ++ payload.now ∷ [])) result }
{
    if !is_of_origin(payload.origin, origin) {
        return match seen {
            Validity::NotFound => Validity::InvalidOrigin,
            _ => seen,
        };
    }
    if route.network_length() <= payload.max_length {
        return Validity::Valid;
    }
    match seen {
        Validity::Valid => Validity::Valid,
        _ => Validity::InvalidLength,
    }
}

/// Whether some payload matched.
fn is_valid(seen: Validity) -> bool
    ensures { Decides result (seen ≡ Valid) }
{
    matches!(seen, Validity::Valid)
}

/// Whether a payload of one AS is for the AS of a route.
fn is_of_origin(payload_origin: u32, origin: Option<u32>) -> bool
    ensures { Decides result ((origin ≡ Some payload_origin) × (payload_origin ≢ 0)) }
{
    match origin {
        Some(origin) => origin == payload_origin && origin != 0,
        None => false,
    }
}

/// The values, ascending, each once.
fn ascending<T: Ord + Copy>(mut values: Vec<T>) -> Vec<T>
    requires { TiesEqual T.cmp }
    ensures same { (value : T) → Contains result.items value ↔ Contains values.items value }
    ensures ascending { IsStrictlySortedBy T.cmp result.items }
{
    values.sort_unstable();
    values.dedup();
    values
}

/// For each network how many payloads there are up to its last, where those of one network stand together.
fn ends_of<C: NetworkBits + Copy>(
    alloc: Global,
    payloads: &[Payload<C>],
) -> Result<LpmTable<C, usize>, AllocError>
    ensures ends { IfOk result (λ table. AreEnds payloads.now table.rows) }
    ensures once { IfOk result (λ table. IsStrictlySortedBy C.cmp (keys_of table.rows)) }
{
    let mut rows = Vec::with_capacity(alloc, payloads.len())?;
    for (i, payload) in payloads.iter().enumerate() {
        rows.push((payload.network, i + 1))?;
    }
    Ok(LpmTable::from_rows(rows))
}

/// The table, made ready.
fn ready<C: Keyed>(
    alloc: Global,
    table: LpmTable<C, usize>,
) -> Result<ReadyTable<C, usize>, TableError>
    ensures ok { IfOk result (λ ready. ready ≡ table) }
    ensures refused { IfErr result (IsCountRefused (length table.rows)) }
    ensures large { IfErr result (λ error. error ≡ TooLarge → HaveTooManyWords C.bits C.Number.width C.Number.padding C.Number.steps table.rows) }
{
    match ReadyTable::new(alloc, table) {
        Ok(ready) => Ok(ready),
        Err((_, error)) => Err(error),
    }
}

/// What was made, or that an allocation failed.
fn or_no_memory<T>(made: Result<T, AllocError>) -> Result<T, TableError>
    ensures ok { IfOk result (λ value. made ≡ Ok value) }
    ensures err { IfErr result (λ error. error ≡ NoMemory) }
{
    match made {
        Ok(value) => Ok(value),
        Err(_) => Err(TableError::NoMemory),
    }
}
