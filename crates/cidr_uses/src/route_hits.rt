//! Hits counted in the routes of a table, written by its public calls only.
ghost use Rattle.std.specs.Prelude.{◌≡◌, ◌↔◌, ℕ, Contains, IsTrue, MatchOption, EachIndex, slice_index, map, ◌/◌, sum};
ghost use Rattle.std.specs.Map.{keys_of, values_of};
ghost use Rattle.cidr_table.specs.model.FiniteMap.{IsInserted};
ghost use Rattle.cidr_uses.specs.Routing.{HasNoRoute, IsHit};

use cidr::NetworkBits;
use cidr_table::LpmTable;

/// Counts a hit in the route of an address or a network, and returns how many it has now; `None` where it has no route.
/// The number stays at its largest.
pub fn count_hit<C: NetworkBits + Copy>(routes: &mut LpmTable<C, u32>, asked: &C) -> Option<u32>
    ensures hit { MatchOption result (HasNoRoute C.bits routes.old.rows (C.bits asked.now))
        (λ hits. IsHit C.bits routes.old.rows (C.bits asked.now) hits routes.new.rows) }
    ensures none { MatchOption result (routes.new ≡ routes.old) (λ _. routes.new.capacity ≡ routes.old.capacity) }
{
    let hits = routes.lookup_mut(asked)?;
    *hits = hits.saturating_add(1);
    Some(*hits)
}

/// Sets the hits of exactly this network to 0, and returns whether it has a route of its own.
pub fn clear_hits<C: NetworkBits + Copy>(routes: &mut LpmTable<C, u32>, network: &C) -> bool
    ensures found { IsTrue result ↔ Contains (keys_of routes.old.rows) network.now }
    ensures cleared { IsTrue result → IsInserted routes.old.rows network.now 0 routes.new.rows }
{
    match routes.get_mut(network) {
        Some(hits) => {
            *hits = 0;
            true
        }
        None => false,
    }
}

/// Sets the hits of all routes to 0.
pub fn clear_all_hits<C: NetworkBits + Copy>(routes: &mut LpmTable<C, u32>)
    ensures keys { keys_of routes.new.rows ≡ keys_of routes.old.rows }
    ensures cleared { EachIndex (values_of routes.new.rows) (λ k. slice_index (values_of routes.new.rows) k ≡ 0) }
{
    for index in 0..routes.len() {
        if let Some(hits) = routes.value_mut(index) {
            *hits = 0;
        }
    }
}

/// Halves the hits of each route, so that old ones count less.
pub fn halve_all_hits<C: NetworkBits + Copy>(routes: &mut LpmTable<C, u32>)
    ensures { routes.new.rows ≡ map (λ route. (route.0, route.1 / 2)) routes.old.rows }
{
    routes.for_each_mut(|_, hits| *hits /= 2);
}

/// All hits of the routes.
pub fn total_hits<C: NetworkBits + Copy>(routes: LpmTable<C, u32>) -> u128
    ensures { result ≡ sum (values_of routes.rows) }
{
    let mut total = 0;
    for (_, hits) in routes {
        total += u128::from(hits);
    }
    total
}
