//! Routes by the longest prefix, over the public calls of a table only.
ghost use Rattle.std.specs.Prelude.{◌≡◌, ◌≢◌, ◌↔◌, ◌<◌, ◌≤◌, Contains, IfErr, IfOk, IfSome, IsOk, OnErr, OnOk, MatchOption, MatchResult, length};
ghost use Rattle.std.specs.List.Sorted.{IsStrictlySortedBy};
ghost use Rattle.std.specs.Map.{keys_of};
ghost use Rattle.cidr.specs.model.Network.{BeginsWith};
ghost use Rattle.cidr.specs.either.IpAddress.{ip_address_bits};
ghost use Rattle.cidr.specs.either.IpNetwork.{any_bits};
ghost use Rattle.cidr_table.specs.model.FiniteMap.{IsInserted, IsRemoved};
ghost use Rattle.cidr_table.specs.model.Loading.{IsLoadRefused};
ghost use Rattle.cidr_uses.specs.Routing.{IsRoute, HasNoRoute, IsLastListed};

use cidr::{AnyIpCidr, IpAddr, NetworkBits, PrefixBytes};
use cidr_table::{LoadError, LpmTable, longest_match};
use std::alloc::Global;

/// The route of an address or a network: the row with the longest key that it is in, or `None` where it is in none.
pub fn route<C: NetworkBits + Copy, V: Copy>(routes: &LpmTable<C, V>, asked: &C) -> Option<(C, V)>
    ensures { MatchOption result (HasNoRoute C.bits routes.now.rows (C.bits asked.now))
        (λ row. IsRoute C.bits routes.now.rows (C.bits asked.now) row) }
{
    let index = longest_match(&mut routes.probe(), asked)?;
    routes.row(index).copied()
}

/// The value of the route of an address of either family, in a table of networks of both.
pub fn value_at<V: Copy>(routes: &LpmTable<AnyIpCidr, V>, address: IpAddr) -> Option<V>
    ensures { MatchOption result (HasNoRoute any_bits routes.now.rows (ip_address_bits address))
        (λ value. (network : AnyIpCidr) × IsRoute any_bits routes.now.rows (ip_address_bits address) (network, value)) }
{
    let (_, value) = route(routes, &AnyIpCidr::new_host(address))?;
    Some(value)
}

/// The value under a network once it was set, which is that one. The error is the row that there was no memory for.
pub fn set_then_get<C: NetworkBits + Copy, V: Copy + Drop>(
    routes: &mut LpmTable<C, V>,
    network: C,
    value: V,
) -> Result<V, (C, V)>
    ensures got { IfOk result (λ got. got ≡ value) }
    ensures set { OnOk result (IsInserted routes.old.rows network value routes.new.rows) }
    ensures refused { IfErr result (λ row. row ≡ (network, value)) }
    ensures unchanged { OnErr result (routes.new.rows ≡ routes.old.rows) }
    ensures room { length routes.old.rows < routes.old.capacity → IsOk result }
{
    routes.insert(network, value)?;
    match routes.get(&network) {
        Some(got) => Ok(*got),
        None => unreachable!(),
    }
}

/// The route of what is in a network, once that network has a route of its own: that one or a longer one. The error is
/// the route that there was no memory for.
pub fn inner_route<C: NetworkBits + Copy, V: Copy + Drop>(
    routes: &mut LpmTable<C, V>,
    inner: (C, V),
    asked: &C,
) -> Result<(C, V), (C, V)>
    requires { BeginsWith (C.bits asked.now) (C.bits inner.0) }
    ensures route { IfOk result (λ row. IsRoute C.bits routes.new.rows (C.bits asked.now) row) }
    ensures inner { IfOk result (λ row. length (C.bits inner.0) ≤ length (C.bits row.0)) }
    ensures set { OnOk result (IsInserted routes.old.rows inner.0 inner.1 routes.new.rows) }
    ensures refused { IfErr result (λ row. row ≡ inner) }
    ensures unchanged { OnErr result (routes.new.rows ≡ routes.old.rows) }
    ensures room { length routes.old.rows < routes.old.capacity → IsOk result }
{
    routes.insert(inner.0, inner.1)?;
    match route(routes, asked) {
        Some(row) => Ok(row),
        None => unreachable!(),
    }
}

/// The route once a network has none of its own any more.
pub fn route_without<C: NetworkBits + Copy, V: Copy + Drop>(
    routes: &mut LpmTable<C, V>,
    withdrawn: &C,
    asked: &C,
) -> Option<(C, V)>
    ensures route { MatchOption result (HasNoRoute C.bits routes.new.rows (C.bits asked.now))
        (λ row. IsRoute C.bits routes.new.rows (C.bits asked.now) row) }
    ensures withdrawn { IsRemoved routes.old.rows withdrawn.now routes.new.rows }
    ensures other { IfSome result (λ row. row.0 ≢ withdrawn.now) }
{
    let _ = routes.remove(withdrawn);
    route(routes, asked)
}

/// All routes in the order of their networks, as the rows inside the network of no bits.
pub fn all_routes<C: NetworkBits + Copy, V>(routes: &LpmTable<C, V>) -> &[(C, V)]
    ensures rows { (row : C × V) → Contains result.now row ↔ Contains routes.now.rows row }
    ensures sorted { IsStrictlySortedBy C.cmp (keys_of result.now) }
{
    routes.inside(&C::null())
}

/// The index of a network in a list of prefixes, counted from 0, which is the last where it is there more than once.
pub fn index_in<C: PrefixBytes + Copy>(
    alloc: Global,
    list: &[u8],
    network: &C,
) -> Result<Option<usize>, LoadError>
    ensures { MatchResult result (IsLastListed C.bits C.width list.now network.now)
        (IsLoadRefused C.bits C.width list.now) }
{
    let indices = LpmTable::<C, usize>::load(alloc, list)?;
    Ok(indices.get(network).copied())
}
