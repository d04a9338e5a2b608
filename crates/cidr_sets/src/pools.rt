//! Free networks of a set: pools.
ghost use Rattle.std.specs.Prelude.{◌≡◌, ℕ, ◌+◌, ◌-◌, ◌≤◌, ◌∷◌, ◌++◌, [], Bool, List, length, map};
ghost use Rattle.std.specs.Bool.{Decides};
ghost use Rattle.std.specs.Option.{option_map};
ghost use Rattle.cidr.specs.model.Network.{FitsWidth, zeros};
ghost use Rattle.cidr_table.specs.model.CoverAddresses.{IsIpNetworkBits};
ghost use Rattle.cidr_table.specs.model.Cover.{IsReduced};
ghost use Rattle.cidr_sets.specs.model.Pools.{IsFirstFree, IsBestFree, IsRoom, TellsSize, HasLessRoom, addresses_of, ip_addresses_of};
ghost use Rattle.cidr_sets.specs.laws.PoolLaws.{plain_room, plain_size, any_room_exact, any_size};

use crate::set::NetworkSet;
use cidr::{AnyIpCidr, BitString, Ipv4Cidr, Ipv6Cidr, NetworkBits};

/// Networks of which it is known how long those inside them can be, for the calls of a set that find free networks.
/// `Ipv4Cidr`, `Ipv6Cidr` and `AnyIpCidr` implement it.
pub trait PoolNetwork: NetworkBits {
    /// Whether a list of bits is that of a network.
    ghost IsNetwork: { List Bool → Type 0 };

    /// How many addresses the network of these bits has.
    ghost addresses: { List Bool → ℕ };

    /// A network inside another one has at most as many bits more as the `room` of that one tells.
    ghost deepest: { (q : Self) → IsRoom IsNetwork (Self.bits q) (Self.room q) };

    /// Of two networks of one bit or more, the one with less `room` has fewer addresses.
    ghost sized: { (p q : Self) → TellsSize addresses (Self.bits p) (Self.room p) (Self.bits q) (Self.room q) };
}

impl PoolNetwork for Ipv4Cidr {
    ghost IsNetwork = { FitsWidth 32 };

    ghost addresses = { addresses_of 32 };

    ghost deepest = { plain_room 32 };

    ghost sized = { plain_size 32 };
}

impl PoolNetwork for Ipv6Cidr {
    ghost IsNetwork = { FitsWidth 128 };

    ghost addresses = { addresses_of 128 };

    ghost deepest = { plain_room 128 };

    ghost sized = { plain_size 128 };
}

impl PoolNetwork for AnyIpCidr {
    ghost IsNetwork = { IsIpNetworkBits };

    ghost addresses = { ip_addresses_of };

    ghost deepest = { any_room_exact };

    ghost sized = { any_size };
}

impl<C: PoolNetwork + Copy> NetworkSet<C> {
    /// The first network of `len` bits all of whose addresses are in the set, or `None` where there is none.
    ///
    /// `len` is the prefix length, and for `AnyIpCidr` one more, as `BitString::len` counts; of one above the width
    /// there is none. It looks at each network of the set once: O(n). The set stays as it is: `remove` takes what is
    /// returned.
    ///
    /// ```
    /// free.as_slice() // [10.0.0.0/24, 10.0.1.64/26, 10.0.2.0/23]
    /// free.first_free(26) // Some(10.0.0.0/26)
    /// ```
    pub fn first_free(&self, len: usize) -> Option<C>
        ensures first { IsFirstFree C.IsNetwork (map C.bits self.now) len (option_map C.bits result) }
        ensures reduced { IsReduced 129 (map C.bits self.now) }
    {
        self.as_slice()
            .iter()
            .find_map(|network| first_subnet(network, len))
    }

    /// The first network of `len` bits in the smallest network of the set that has one, of equally small ones in the
    /// first, or `None` where there is none. So what is large stays whole.
    ///
    /// `len` is the prefix length, and for `AnyIpCidr` one more, as `BitString::len` counts; of one above the width
    /// there is none. The smallest network has the fewest addresses: one of IPv4 has fewer than any of IPv6 with room
    /// for the same prefix length. It looks at each network of the set once: O(n). The set stays as it is: `remove`
    /// takes what is returned.
    ///
    /// ```
    /// free.as_slice() // [10.0.0.0/24, 10.0.1.64/26, 10.0.2.0/23]
    /// free.first_free(26) // Some(10.0.0.0/26)
    /// free.best_free(26) // Some(10.0.1.64/26)
    /// ```
    pub fn best_free(&self, len: usize) -> Option<C>
        ensures best { IsBestFree C.IsNetwork C.addresses (map C.bits self.now) len (option_map C.bits result) }
        ensures reduced { IsReduced 129 (map C.bits self.now) }
    {
        let mut best: Option<(C, C)> = None;
        for network in self.as_slice() {
            if is_smaller(network, &best) {
                if let Some(first) = first_subnet(network, len) {
                    best = Some((*network, first));
                }
            }
        }
        match &best {
            Some((_, first)) => Some(*first),
            None => None,
        }
    }
}

/// Whether a network is smaller than the best so far, if there is one, by the room that each has.
fn is_smaller<C: BitString>(network: &C, best: &Option<(C, C)>) -> bool
    ensures { Decides result (HasLessRoom (option_map (λ pair. C.room pair.0) best.now) (C.room network.now)) }
{
    match best {
        Some((best, _)) => network.room() < best.room(),
        None => true,
    }
}

/// The first network of `len` bits in a network, or `None` where there is none.
///
/// `Any` has room only for what both families have room for, so that its two halves are asked.
fn first_subnet<C: PoolNetwork + Copy>(network: &C, len: usize) -> Option<C>
    ensures { IsFirstFree C.IsNetwork (C.bits network.now ∷ []) len (option_map C.bits result) }
{
    if len < network.len() {
        return None;
    }
    if len <= network.len() + network.room() {
        return Some(lowest(network, len));
    }
    if network.len() > 0 {
        return None;
    }
    match first_in_half(false, len) {
        Some(first) => Some(first),
        None => first_in_half(true, len),
    }
}

/// The first network of `len` bits in the lower or upper half of the network of no bits, or `None` where there is none.
fn first_in_half<C: PoolNetwork + Copy>(upper: bool, len: usize) -> Option<C>
    ensures { IsFirstFree C.IsNetwork ((upper ∷ []) ∷ []) len (option_map C.bits result) }
{
    let mut half = C::null();
    half.append(upper);
    if len > 0 && len <= 1 + half.room() {
        Some(lowest(&half, len))
    } else {
        None
    }
}

/// The first network of `len` bits in a network that has room for it.
fn lowest<C: BitString + Copy>(network: &C, len: usize) -> C
    requires longer { length (C.bits network.now) ≤ len }
    requires room { len ≤ length (C.bits network.now) + C.room network.now }
    ensures { C.bits result ≡ C.bits network.now ++ zeros (len - length (C.bits network.now)) }
{
    let mut lowest = *network;
    while lowest.len() < len {
        lowest.append(false);
    }
    lowest
}
