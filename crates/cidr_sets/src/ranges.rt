//! Ranges of addresses: from a first to a last one.
ghost use Rattle.std.specs.Prelude.{◌≡◌, ◌≢◌, ◌+◌, ◌≤◌, ◌∷◌, [], Bool, true, false, List, length, drop, map, IfOk};
ghost use Rattle.std.specs.Iterator.{YieldsFirstBy, item_count};
ghost use Rattle.std.specs.declared.cmp.Ordering.TheVariants.{Greater};
ghost use Rattle.cidr.specs.model.Bits.{bit_cmp};
ghost use Rattle.cidr.specs.model.Network.{HasWidth, first_of, last_of};
ghost use Rattle.cidr.specs.either.IpAddress.{ip_address_bits};
ghost use Rattle.cidr_table.specs.model.Cover.{Covers, IsReduced};
ghost use Rattle.cidr_table.specs.model.CoverAddresses.{IsIpAddressBits};
ghost use Rattle.cidr_sets.specs.model.Ranges.{AreBeginless, AreComplete, AreRanges, HaveEnds, IsBetween, IsPadded, all_bits, any_first, any_last, touches};
ghost use Rattle.cidr_sets.specs.laws.RangeLaws.{plain_beginless, ip_beginless, plain_complete, ip_complete, plain_ends, any_ends, plain_inside, any_inside, v4_fits, v6_fits};
ghost use Rattle.cidr_sets.specs.model.Sets.{IsSetOf};

use crate::set::NetworkSet;
use crate::spans::write_range;
use cidr::{AnyIpCidr, BitString, IpAddr, Ipv4Addr, Ipv4Cidr, Ipv6Addr, Ipv6Cidr, NetworkBits};
use cidr_table::laws::keys::has_at_most_129_bits;
use std::alloc::{AllocError, Global};
use std::iter::FusedIterator;
use std::marker::Model;

/// Networks and the type of their addresses. `Ipv4Cidr`, `Ipv6Cidr` and `AnyIpCidr` implement it.
pub trait Addressed: NetworkBits {
    /// The addresses: `Ipv4Addr`, `Ipv6Addr` or `IpAddr`.
    type Address: Copy;

    /// Whether a list of bits is that of an address.
    ghost IsAddress: { List Bool → Type 0 };

    /// The bits of an address, in `AnyIpCidr` with the family bit in front.
    ghost address_bits: { Self.Address → List Bool };

    /// No address begins with the bits of another.
    ghost beginless: { AreBeginless IsAddress };

    /// Each list of 129 bits begins with an address.
    ghost complete: { AreComplete IsAddress };

    /// The bits of the first and the last address of a network, by the bits of the network.
    ghost first_bits: { List Bool → List Bool };

    ghost last_bits: { List Bool → List Bool };

    /// They are those of the network, and behind them unset or set ones.
    ghost ends: { (p : List Bool) → length p ≤ 129 → IsPadded false p (first_bits p) × IsPadded true p (last_bits p) };

    /// Both are addresses, where the network has an address.
    ghost addresses: { HaveEnds IsAddress first_bits last_bits };

    /// The network that has only this address.
    ///
    /// ```
    /// Ipv4Cidr::single(Ipv4Addr::new(192, 0, 2, 1)) // 192.0.2.1
    /// ```
    fn single(address: Self::Address) -> Self
        ensures bits { Self.bits result ≡ address_bits address }
        ensures address { IsAddress (address_bits address) }
        ensures long { 32 ≤ length (address_bits address) };

    /// The lowest address of the network; of `Any` that is 0.0.0.0.
    ///
    /// ```
    /// "192.0.2.0/24".parse::<Ipv4Cidr>()?.lowest() // 192.0.2.0
    /// ```
    fn lowest(&self) -> Self::Address
        ensures { address_bits result ≡ first_bits (Self.bits self.now) };

    /// The highest address of the network; of `Any` that is ffff:ffff:ffff:ffff:ffff:ffff:ffff:ffff.
    ///
    /// ```
    /// "192.0.2.0/24".parse::<Ipv4Cidr>()?.highest() // 192.0.2.255
    /// ```
    fn highest(&self) -> Self::Address
        ensures { address_bits result ≡ last_bits (Self.bits self.now) };
}

impl Addressed for Ipv4Cidr {
    type Address = Ipv4Addr;

    ghost IsAddress = { HasWidth 32 };

    ghost address_bits = { λ a. a };

    ghost beginless = { plain_beginless 32 };

    ghost complete = { plain_complete 32 v4_fits };

    ghost first_bits = { first_of 32 };

    ghost last_bits = { last_of 32 };

    ghost ends = { plain_ends 32 v4_fits };

    ghost addresses = { plain_inside 32 };

    fn single(address: Ipv4Addr) -> Ipv4Cidr {
        Ipv4Cidr::new_host(address)
    }

    fn lowest(&self) -> Ipv4Addr {
        self.first_address()
    }

    fn highest(&self) -> Ipv4Addr {
        self.last_address()
    }
}

impl Addressed for Ipv6Cidr {
    type Address = Ipv6Addr;

    ghost IsAddress = { HasWidth 128 };

    ghost address_bits = { λ a. a };

    ghost beginless = { plain_beginless 128 };

    ghost complete = { plain_complete 128 v6_fits };

    ghost first_bits = { first_of 128 };

    ghost last_bits = { last_of 128 };

    ghost ends = { plain_ends 128 v6_fits };

    ghost addresses = { plain_inside 128 };

    fn single(address: Ipv6Addr) -> Ipv6Cidr {
        Ipv6Cidr::new_host(address)
    }

    fn lowest(&self) -> Ipv6Addr {
        self.first_address()
    }

    fn highest(&self) -> Ipv6Addr {
        self.last_address()
    }
}

impl Addressed for AnyIpCidr {
    type Address = IpAddr;

    ghost IsAddress = { IsIpAddressBits };

    ghost address_bits = { ip_address_bits };

    ghost beginless = { ip_beginless };

    ghost complete = { ip_complete };

    ghost first_bits = { any_first };

    ghost last_bits = { any_last };

    ghost ends = { any_ends };

    ghost addresses = { any_inside };

    fn single(address: IpAddr) -> AnyIpCidr {
        AnyIpCidr::new_host(address)
    }

    fn lowest(&self) -> IpAddr {
        match self {
            AnyIpCidr::Any => IpAddr::V4(Ipv4Cidr::null().first_address()),
            AnyIpCidr::V4(network) => IpAddr::V4(network.first_address()),
            AnyIpCidr::V6(network) => IpAddr::V6(network.first_address()),
        }
    }

    fn highest(&self) -> IpAddr {
        match self {
            AnyIpCidr::Any => IpAddr::V6(Ipv6Cidr::null().last_address()),
            AnyIpCidr::V4(network) => IpAddr::V4(network.last_address()),
            AnyIpCidr::V6(network) => IpAddr::V6(network.last_address()),
        }
    }
}

impl<C: Addressed + Copy> NetworkSet<C> {
    /// The set of the addresses from the first to the last, both included, as `first..=last` has them: empty where the
    /// last comes before the first.
    ///
    /// It has at most 62 networks in IPv4 and 254 in IPv6, which bounds its time too. Of `AnyIpCidr`, the addresses of
    /// IPv4 come before those of IPv6. Where an allocation fails, it returns the error.
    ///
    /// ```
    /// let (first, last) = (Ipv4Addr::new(10, 0, 0, 1), Ipv4Addr::new(10, 0, 0, 6));
    /// let set = NetworkSet::<Ipv4Cidr>::from_range(rt.alloc(), first, last)?;
    /// set.as_slice() // [10.0.0.1/32, 10.0.0.2/31, 10.0.0.4/31, 10.0.0.6/32]
    /// ```
    pub fn from_range(
        alloc: Global,
        first: C::Address,
        last: C::Address,
    ) -> Result<Self, AllocError>
        ensures set { IfOk result (λ set.
            IsSetOf 129 (IsBetween (C.address_bits first) (C.address_bits last)) (map C.bits set)) }
        ensures fits { IfOk result (λ set.
            length set + 2 ≤ length (C.address_bits first) + length (C.address_bits last)) }
        ensures addresses { C.IsAddress (C.address_bits first) × C.IsAddress (C.address_bits last) }
    {
        let mut networks = Vec::new(alloc);
        write_range(&mut networks, first, last)?;
        Ok(NetworkSet::of_reduced(networks))
    }

    /// The longest ranges of addresses in the set, ascending. No two touch: between one and the next is an address that
    /// isn't in the set. The set of one range, as `from_range` makes it, has that range alone.
    ///
    /// It allocates nothing, and looks at each network once. Of `AnyIpCidr`, a range can go from 255.255.255.255 on to
    /// ::, which comes next.
    ///
    /// ```
    /// set.ranges().next() // Some(AddressRange { first: 10.0.0.1, last: 10.0.0.6 })
    /// ```
    pub fn ranges(&self) -> Ranges<'_, C>
        ensures ranges { AreRanges 129 (Covers (map C.bits self.now)) result }
        ensures one_range { (first last : List Bool) → C.IsAddress first → C.IsAddress last → bit_cmp first last ≢ Greater
            → IsSetOf 129 (IsBetween first last) (map C.bits self.now) → result ≡ (first, last) ∷ [] }
        ensures reduced { IsReduced 129 (map C.bits self.now) }
    {
        let networks = self.as_slice();
        Ranges { networks }
    }
}

/// Addresses from a first to a last one, both included.
#[derive(Debug, Clone, Copy, Drop, PartialEq, Eq)]
pub struct AddressRange<A: Copy> {
    /// The first address.
    pub first: A,
    /// The last address.
    pub last: A,
}

/// The longest ranges of a set that are left, ascending. The call `ranges` makes it. A step goes through the networks
/// of one range, and allocates nothing.
#[derive(Drop)]
pub struct Ranges<'a, C: Addressed + Copy> {
    networks: &'a [C],
}

impl<'a, C: Addressed + Copy> Model for Ranges<'a, C> {
    ghost use Rattle.std.specs.Prelude.{List, Bool, map};
    ghost use Rattle.cidr_sets.specs.model.Ranges.{joined_ranges};

    ghost Value = { List (List Bool × List Bool) };

    ghost view = { λ left. map (λ r. (C.first_bits r.0, C.last_bits r.1))
        (joined_ranges (map C.bits left.networks.now)) };
}

impl<'a, C: Addressed + Copy> Iterator for Ranges<'a, C> {
    type Item = AddressRange<C::Address>;

    ghost next_gives = { YieldsFirstBy (λ r. (C.address_bits r.first, C.address_bits r.last)) (λ s. s) };

    ghost remaining = { item_count (λ s. s) };

    fn next(&mut self) -> Option<AddressRange<C::Address>> {
        let (first, mut behind) = self.networks.split_first()?;
        let mut last = first;
        while let Some((next, rest)) = behind.split_first() {
            if !touches(last, next) {
                break;
            }
            last = next;
            behind = rest;
        }
        self.networks = behind;
        Some(AddressRange {
            first: first.lowest(),
            last: last.highest(),
        })
    }
}

impl<'a, C: Addressed + Copy> FusedIterator for Ranges<'a, C> {}

/// Whether no address is between two networks, of which the first comes before the other.
fn touches<C: BitString>(network: &C, next: &C) -> bool
    ensures { result ≡ touches (C.bits network.now) (C.bits next.now) }
{
    has_at_most_129_bits(network);
    let shared = network.shared_prefix_len(next);
    if shared >= network.len() || shared >= next.len() {
        return false;
    }
    if network.get(shared) {
        return false;
    }
    all_from(network, shared + 1, true) && all_from(next, shared + 1, false)
}

/// Whether each bit of a network from an index on is `bit`.
pub(crate) fn all_from<C: BitString>(network: &C, from: usize, bit: bool) -> bool
    ensures { result ≡ all_bits bit (drop from (C.bits network.now)) }
{
    (from..network.len()).all(|i| network.get(i) == bit)
}
