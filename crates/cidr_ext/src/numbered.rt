//! Networks and addresses by their number inside a network.
ghost use Rattle.std.specs.Prelude.{◌≡◌, ◌-◌, ◌^◌, ◌<◌, ◌≤◌, ◌⊎◌, length, MatchOption, IfSome};
ghost use Rattle.cidr.specs.model.Host.{host_of};
ghost use Rattle.cidr.specs.model.Network.{BeginsWith, first_of, ones, width_of, zeros};
ghost use Rattle.cidr_ext.specs.model.Inside.{host_mask_of, IsAddressAt, usable_of};
ghost use Rattle.cidr_ext.specs.model.Subnets.{HasExactlySubnets, IsNextNetwork, IsSubnetAt, NoSubnetAt, subnets_of};

use crate::address::AddressExt;
use crate::laws::length_is_within_the_width;
use crate::shifts::greatest;
use crate::subnets::{Subnets, subnet_at};
use cidr::{Address, Cidr, Family, Inet, InetIterator, InetPair};

/// Subnets, neighbours, masks and addresses of networks of the types `Ipv4Cidr`, `Ipv6Cidr` and `IpCidr`.
///
/// The result is of the family of the network. No call allocates, and each takes constant time, whatever the prefix
/// length; indexes are counted from 0.
pub trait CidrExt: Cidr {
    /// Network `index` of prefix length `len` inside this one, counted from 0 in ascending order, or `None` where
    /// there is none: where `len` is below the length of this network or above the width, 32 or 128, or where there
    /// are no more than `index`.
    ///
    /// ```
    /// "2001:db8::/48".parse::<Ipv6Cidr>()?.subnet(64, 255) // Some(2001:db8:0:ff::/64)
    /// ```
    fn subnet(&self, len: u8, index: u128) -> Option<Self>
        ensures value { MatchOption result
            (NoSubnetAt (width_of (Self.family_of self.now)) (Self.prefix self.now) len index)
            (λ inner. (Self.family_of inner ≡ Self.family_of self.now) ×
            IsSubnetAt (Self.prefix self.now) len index (Self.prefix inner)) }
        ensures within { IfSome result
            (λ _. ¬ (NoSubnetAt (width_of (Self.family_of self.now)) (Self.prefix self.now) len index)) };

    /// The networks of prefix length `len` inside this one, ascending, or `None` where `len` is below the length of
    /// this network or above the width, 32 or 128. The network of that length itself is its only one.
    ///
    /// ```
    /// let networks = "192.0.2.0/24".parse::<Ipv4Cidr>()?.subnets(26);
    /// networks.and_then(|networks| networks.last()) // Some(192.0.2.192/26)
    /// "192.0.2.0/24".parse::<Ipv4Cidr>()?.subnets(23).is_none() // true
    /// ```
    fn subnets(&self, len: u8) -> Option<Subnets<Self>>
        ensures value { MatchOption result
            ((len < length (Self.prefix self.now)) ⊎ (width_of (Self.family_of self.now) < len))
            (λ networks. networks ≡ subnets_of (Self.family_of self.now) (Self.prefix self.now) len) }
        ensures exactly { IfSome result
            (HasExactlySubnets (Self.family_of self.now) (Self.prefix self.now) len) }
        ensures within { IfSome result (λ _. (length (Self.prefix self.now) ≤ len) ×
            (len ≤ width_of (Self.family_of self.now))) };

    /// How many addresses the network has, or `None` for ::/0, whose 2^128 are more than a `u128` has room for.
    ///
    /// ```
    /// "2001:db8::/64".parse::<Ipv6Cidr>()?.address_count() // Some(18446744073709551616)
    /// ```
    fn address_count(&self) -> Option<u128>
        ensures { MatchOption result (width_of (Self.family_of self.now) - length (Self.prefix self.now) ≡ 128)
            (λ count. count ≡ 2 ^ (width_of (Self.family_of self.now) - length (Self.prefix self.now))) };

    /// The network of the same length that follows, or `None` for the last one of its length and family.
    ///
    /// ```
    /// "10.255.0.0/16".parse::<Ipv4Cidr>()?.next_network() // Some(11.0.0.0/16)
    /// ```
    fn next_network(&self) -> Option<Self>
        ensures { MatchOption result (Self.prefix self.now ≡ ones (length (Self.prefix self.now)))
            (λ next. (Self.family_of next ≡ Self.family_of self.now) ×
            IsNextNetwork (Self.prefix self.now) (Self.prefix next)) };

    /// The network of the same length that this one follows, or `None` for the first one of its length and family.
    ///
    /// ```
    /// "::/64".parse::<Ipv6Cidr>()?.previous_network() // None
    /// ```
    fn previous_network(&self) -> Option<Self>
        ensures { MatchOption result (Self.prefix self.now ≡ zeros (length (Self.prefix self.now)))
            (λ previous. (Self.family_of previous ≡ Self.family_of self.now) ×
            IsNextNetwork (Self.prefix previous) (Self.prefix self.now)) };

    /// The host mask, the inverse of the mask: as many unset bits as the prefix length says, then set ones.
    ///
    /// ```
    /// "192.0.2.48/28".parse::<Ipv4Cidr>()?.host_mask() // 0.0.0.15
    /// ```
    fn host_mask(&self) -> Self::Address
        ensures value { Self.Address.bits result ≡
            host_mask_of (width_of (Self.family_of self.now)) (Self.prefix self.now) }
        ensures family { Self.Address.family_of result ≡ Self.family_of self.now };

    /// Address `index` of the network, or `None` where the network has no more addresses than that.
    ///
    /// ```
    /// "192.0.2.48/28".parse::<Ipv4Cidr>()?.nth(15) // Some(192.0.2.63)
    /// ```
    fn nth(&self, index: u128) -> Option<Self::Address>
        ensures { MatchOption result (2 ^ (width_of (Self.family_of self.now) - length (Self.prefix self.now)) ≤ index)
            (λ address. (Self.Address.family_of address ≡ Self.family_of self.now) ×
            IsAddressAt (width_of (Self.family_of self.now)) (Self.prefix self.now) index
            (Self.Address.bits address)) };

    /// The index of an address in the network, or `None` where the address is not in it. It is the inverse of `nth`.
    ///
    /// ```
    /// let network = "192.0.2.48/28".parse::<Ipv4Cidr>()?;
    /// network.position(&"192.0.2.63".parse()?) // Some(15)
    /// network.position(&"192.0.2.64".parse()?) // None
    /// ```
    fn position(&self, address: &Self::Address) -> Option<u128>
        ensures { MatchOption result (¬ ((Self.Address.family_of address.now ≡ Self.family_of self.now) ×
            BeginsWith (Self.Address.bits address.now) (Self.prefix self.now)))
            (λ index. (Self.Address.family_of address.now ≡ Self.family_of self.now) ×
            IsAddressAt (width_of (Self.family_of self.now)) (Self.prefix self.now) index
            (Self.Address.bits address.now)) };

    /// The hosts that may have an address of the network, ascending, with its prefix length.
    ///
    /// In IPv4 these are all addresses but the first and the last, the network and the broadcast address (RFC 1122,
    /// 3.2.1.3); of a /31 network they are both (RFC 3021), and of a /32 network the one. In IPv6 they are all, the
    /// subnet-router anycast address (RFC 4291, 2.6.1) among them.
    ///
    /// ```
    /// "192.0.2.48/28".parse::<Ipv4Cidr>()?.usable_hosts().count() // Some(14)
    /// "192.0.2.48/31".parse::<Ipv4Cidr>()?.usable_hosts().count() // Some(2)
    /// ```
    fn usable_hosts(&self) -> InetIterator<Self::Address>
        ensures { result ≡ usable_of (Self.family_of self.now) (Self.prefix self.now) };
}

impl<C: Cidr> CidrExt for C
where
    C::Address: Address<Cidr = C> + AddressExt,
    <C::Address as Address>::Inet: Inet<Address = C::Address>,
    <C::Address as Address>::InetPair: InetPair<Address = C::Address>,
{
    fn subnet(&self, len: u8, index: u128) -> Option<C> {
        subnet_at(self, len, index)
    }

    fn subnets(&self, len: u8) -> Option<Subnets<C>> {
        let more = len.checked_sub(self.network_length())?;
        if len > self.family().len() {
            return None;
        }
        Some(Subnets::_new(*self, len, greatest(more)))
    }

    fn address_count(&self) -> Option<u128> {
        let behind = self.family().len().checked_sub(self.network_length())?;
        1_u128.checked_shl(u32::from(behind))
    }

    fn next_network(&self) -> Option<C> {
        let len = self.network_length();
        let step = self.address_count()?;
        let (host, wraps) = among_all(self).overflowing_add(step);
        if wraps {
            return None;
        }
        C::new(host.address(), len).ok()
    }

    fn previous_network(&self) -> Option<C> {
        let len = self.network_length();
        let step = self.address_count()?;
        let (host, wraps) = among_all(self).overflowing_sub(step);
        if wraps {
            return None;
        }
        C::new(host.address(), len).ok()
    }

    fn host_mask(&self) -> C::Address {
        let zeros = among_all(self).first_address();
        C::new(zeros, self.network_length()).unwrap().last_address()
    }

    fn nth(&self, index: u128) -> Option<C::Address> {
        let (host, wraps) = self.first().overflowing_add(index);
        if wraps { None } else { Some(host.address()) }
    }

    fn position(&self, address: &C::Address) -> Option<u128> {
        length_is_within_the_width(self);
        if !self.contains(address) {
            return None;
        }
        Some(address.to_number() - self.first_address().to_number())
    }

    fn usable_hosts(&self) -> InetIterator<C::Address> {
        let mut hosts = self.iter();
        if self.family() == Family::Ipv4 && self.network_length() < 31 {
            hosts.next();
            hosts.next_back();
        }
        hosts
    }
}

/// The host at the first address of a network, in the network of all addresses of the family.
fn among_all<C: Cidr>(network: &C) -> <C::Address as Address>::Inet
where
    C::Address: Address<Cidr = C>,
    <C::Address as Address>::Inet: Inet<Address = C::Address>,
    ensures family { C.Address.Inet.family_of result ≡ C.family_of network.now }
    ensures host { C.Address.Inet.host result ≡
        host_of (first_of (width_of (C.family_of network.now)) (C.prefix network.now)) 0 }
{
    <C::Address as Address>::Inet::new(network.first_address(), 0).unwrap()
}
