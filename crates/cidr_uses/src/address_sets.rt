//! Sets of addresses: what is left of a pool, and laws of sets as callers see them.
ghost use Rattle.std.specs.Prelude.{◌≡◌, ◌+◌, ◌≤◌, [], true, length, map, IfOk, IfSome};
ghost use Rattle.std.specs.Bool.{Decides};
ghost use Rattle.std.specs.Option.{option_map};
ghost use Rattle.cidr_table.specs.model.Cover.{Covers, IsReduced};
ghost use Rattle.cidr_uses.specs.FreeNetworks.{IsFirstAvailable};

use cidr::NetworkBits;
use cidr_sets::laws::{
    equal_sets_are_equal_lists, equal_sets_are_the_same, full_networks_lie_in_one,
    sets_without_addresses_are_empty,
};
use cidr_sets::{NetworkProbe, NetworkSet, PoolNetwork, contains};
use std::alloc::AllocError;

/// The first network of `len` bits of which every address is in the pool and none is used, or `None` where there is
/// none.
pub fn first_available<C: PoolNetwork + Copy>(
    pool: &NetworkSet<C>,
    used: &NetworkSet<C>,
    len: usize,
) -> Result<Option<C>, AllocError>
    ensures { IfOk result (λ first. IsFirstAvailable C.IsNetwork (map C.bits pool.now) (map C.bits used.now) len
        (option_map C.bits first)) }
{
    // the call tells the proof that what is free as a whole lies in one network
    full_networks_lie_in_one();
    let free = pool.difference(used)?;
    Ok(free.first_free(len))
}

/// Whether a set of at most 100,000 networks contains one: 18 comparisons are enough.
pub fn is_blocked<C: NetworkBits, P: NetworkProbe<C>>(blocked: &mut P, network: &C) -> bool
    requires set { IsReduced 129 (map C.bits (P.keys blocked.old)) }
    requires few { length (P.keys blocked.old) ≤ 100000 }
    ensures answer { Decides result (Covers (map C.bits (P.keys blocked.old)) (C.bits network.now)) }
    ensures cost { P.count blocked.new ≤ P.count blocked.old + 18 }
{
    contains(blocked, network)
}

/// What a set has that it has not itself, which is nothing.
pub fn minus_itself<C: NetworkBits + Copy>(set: &NetworkSet<C>) -> Result<NetworkSet<C>, AllocError>
    ensures { IfOk result (λ rest. rest ≡ []) }
{
    sets_without_addresses_are_empty();
    equal_sets_are_the_same::<C>();
    let rest = set.difference(set)?;
    Ok(rest)
}

/// Whether the unions of two sets in either order are equal, which they are.
pub fn unions_are_equal<C: NetworkBits + Copy>(
    set: &NetworkSet<C>,
    other: &NetworkSet<C>,
) -> Result<bool, AllocError>
    ensures { IfOk result (λ same. same ≡ true) }
{
    equal_sets_are_equal_lists();
    equal_sets_are_the_same::<C>();
    let union = set.union(other)?;
    let turned = other.union(set)?;
    Ok(union == turned)
}

/// What the union of two sets has that the second has not, which is what the first has that the second has not: whether
/// both are equal, which they are.
pub fn union_minus_other_is_difference<C: NetworkBits + Copy>(
    set: &NetworkSet<C>,
    other: &NetworkSet<C>,
) -> Result<bool, AllocError>
    ensures { IfOk result (λ same. same ≡ true) }
{
    equal_sets_are_equal_lists();
    equal_sets_are_the_same::<C>();
    let both = set.union(other)?;
    let rest = both.difference(other)?;
    let less = set.difference(other)?;
    Ok(rest == less)
}

/// Whether the first network that a pool has free is in the pool, which it is.
pub fn first_free_is_in_pool<C: PoolNetwork + Copy>(
    pool: &NetworkSet<C>,
    len: usize,
) -> Option<bool>
    ensures { IfSome result (λ within. within ≡ true) }
{
    let network = pool.first_free(len)?;
    Some(pool.contains(&network))
}

/// Adds the first network that a pool has free to those in use; whether they have it then, which they do. `None` where
/// nothing is free.
pub fn used_has_first_free<C: PoolNetwork + Copy>(
    pool: &NetworkSet<C>,
    used: &mut NetworkSet<C>,
    len: usize,
) -> Result<Option<bool>, AllocError>
    ensures { IfOk result (λ told. IfSome told (λ within. within ≡ true)) }
{
    let Some(network) = pool.first_free(len) else {
        return Ok(None);
    };
    used.insert(network)?;
    Ok(Some(used.contains(&network)))
}
