//! Addresses, networks, hosts and pairs of either family, for code that is written once over all of them.
//!
//! The clauses speak of a value by its family and its bits, whose width the family tells.
ghost use Rattle.std.specs.Prelude.{◌≡◌, ◌≤◌, ◌↔◌, List, Bool, length, IsTrue, IfOk, IfSome, option_map};
ghost use Rattle.cidr.specs.model.Views.{seen};
ghost use Rattle.cidr.specs.model.Network.{width_of, first_of, last_of, mask_of, BeginsWith, network_from};
ghost use Rattle.cidr.specs.model.Host.{network_of, first_host, last_host, lone_host, host_from, stepped_up, stepped_down, WrapsUp, WrapsDown, next_of, previous_of};
ghost use Rattle.cidr.specs.model.Pair.{IsPair, first_of_pair, second_of_pair, network_of_pair, pair_of, pair_from, of_one_family};
ghost use Rattle.cidr.specs.model.Walk.{pair_hosts, network_hosts, network_walk, HasExactly};
ghost use Rattle.cidr.specs.either.ByFamily.{IsKnownBy, IsOrderByFamily, IsHostOrderByFamily, ReadsByFamily, PrintsByFamily};
ghost use Rattle.cidr.specs.either.IpAddress.{TellsEqual};
ghost use Rattle.cidr.specs.texts.AddressText.{IsAddressText};
ghost use Rattle.cidr.specs.texts.HostText.{IsHostText};
ghost use Rattle.cidr.specs.texts.NetworkText.{IsNetworkText};
ghost use Rattle.cidr.specs.texts.Printed.{plain_text, plain_host_text};
ghost use Rattle.cidr.specs.texts.PrintedAddress.{address_text};

use crate::addr::error::AddrParseError;
use crate::errors::{InetTupleError, NetworkLengthTooLongError, NetworkParseError};
use crate::family::Family;
use crate::inet_iterator::InetIterator;
use crate::internal_traits::sealed::{PrivCidr, PrivInet, PrivInetPair, PrivUnspecAddress};
use std::fmt::{Debug, Display};
use std::hash::Hash;
use std::str::FromStr;

pub(crate) mod family_cidr;
mod one_family;
pub(crate) mod sealed_types;

/// A type of addresses, and the types of networks, hosts and pairs that go with it: `Ipv4Addr`, `Ipv6Addr` and
/// `IpAddr`.
///
/// No other type implements it, nor the three traits below. A function over them, as one of `C: Cidr`, is written and
/// proved once for both families and for either.
///
/// ```
/// fn lower<A: Address>(one: A, other: A) -> A {
///     if other < one { other } else { one }
/// }
/// ```
///
/// It is called as any function:
///
/// ```
/// lower("10.0.0.2".parse::<IpAddr>()?, "::1".parse()?) // 10.0.0.2
/// ```
pub trait Address: Copy
    + Debug
    + Display
    + FromStr<Err = AddrParseError>
    + Ord
    + Hash
    + PrivUnspecAddress {
    /// The hosts that have such an address.
    type Inet: PrivInet;

    /// The networks of such addresses.
    type Cidr: PrivCidr;

    /// The pairs of such addresses.
    type InetPair: PrivInetPair;

    /// Two are equal exactly where they are the same.
    ghost equal: { TellsEqual Self.eq };

    /// The family and the bits tell the value.
    ghost known: { IsKnownBy Self.family_of Self.bits };

    /// They are ordered by family and then by bits, which is by number.
    ghost ordered: { IsOrderByFamily Self.family_of Self.bits Self.cmp };

    /// A string that parses represents the value, and one that is rejected represents none of the type.
    ghost reads: { ReadsByFamily IsAddressText Self.family_of Self.bits Self.from_str_gives };

    /// The printed string, by the family and the bits.
    ghost prints: { PrintsByFamily address_text Self.family_of Self.bits Self.output };
}

/// A type of networks: `Ipv4Cidr`, `Ipv6Cidr` and `IpCidr`. The calls are those of the types, where each has an
/// example.
///
/// ```
/// fn is_last<C: Cidr>(network: &C, address: C::Address) -> bool {
///     address == network.last_address()
/// }
/// ```
///
/// At a type:
///
/// ```
/// let network = "10.0.0.0/8".parse::<Ipv4Cidr>()?;
/// is_last(&network, "10.255.255.255".parse()?) // true
/// ```
pub trait Cidr: Copy + Debug + Display + FromStr<Err = NetworkParseError> + Ord + Hash + PrivCidr {
    /// The addresses of the networks.
    type Address: Address;

    /// The network of the first `len` bits of an address, of its family.
    ///
    /// Returns `NetworkLengthTooLongError` for a prefix length above the width, 32 or 128, and then `InvalidHostPart`
    /// for an address with a set bit after the first `len`.
    fn new(addr: Self::Address, len: u8) -> Result<Self, NetworkParseError>
        ensures value { seen Self.prefix result ≡
            network_from (Self.Address.family_of addr) (Self.Address.bits addr) len }
        ensures len { IfOk result (λ n. length (Self.prefix n) ≡ len) }
        ensures family { IfOk result (λ n. Self.family_of n ≡ Self.Address.family_of addr) };

    /// The network that has only this address, of full prefix length: /32 in IPv4 and /128 in IPv6.
    fn new_host(addr: Self::Address) -> Self
        ensures value { Self.prefix result ≡ Self.Address.bits addr }
        ensures full { length (Self.prefix result) ≡ width_of (Self.Address.family_of addr) }
        ensures family { Self.family_of result ≡ Self.Address.family_of addr };

    /// The hosts at all addresses of the network, ascending, with its prefix length. None is left out.
    fn iter(&self) -> InetIterator<Self::Address>
        ensures walk { result ≡ network_hosts (Self.family_of self.now) (Self.prefix self.now) }
        ensures exactly { HasExactly (Self.family_of self.now) (Self.prefix self.now)
            (network_walk (Self.family_of self.now) (Self.prefix self.now)) };

    /// The first address, in which no bit after the prefix is set: in IPv4 the network address, up to /30.
    fn first_address(&self) -> Self::Address
        ensures value { Self.Address.bits result ≡
            first_of (width_of (Self.family_of self.now)) (Self.prefix self.now) }
        ensures family { Self.Address.family_of result ≡ Self.family_of self.now };

    /// The host at the first address, with the prefix length of the network.
    fn first(&self) -> <Self::Address as Address>::Inet
        ensures value { Self.Address.Inet.host result ≡
            first_host (width_of (Self.family_of self.now)) (Self.prefix self.now) }
        ensures family { Self.Address.Inet.family_of result ≡ Self.family_of self.now };

    /// The last address, in which all bits after the prefix are set: in IPv4 the broadcast address, up to /30.
    fn last_address(&self) -> Self::Address
        ensures value { Self.Address.bits result ≡ last_of (width_of (Self.family_of self.now)) (Self.prefix self.now) }
        ensures family { Self.Address.family_of result ≡ Self.family_of self.now };

    /// The host at the last address, with the prefix length of the network.
    fn last(&self) -> <Self::Address as Address>::Inet
        ensures value { Self.Address.Inet.host result ≡
            last_host (width_of (Self.family_of self.now)) (Self.prefix self.now) }
        ensures family { Self.Address.Inet.family_of result ≡ Self.family_of self.now };

    /// The prefix length in bits, at most 32 in IPv4 and 128 in IPv6.
    fn network_length(&self) -> u8
        ensures value { result ≡ length (Self.prefix self.now) }
        ensures fits { result ≤ width_of (Self.family_of self.now) };

    /// The family of the network's addresses.
    fn family(&self) -> Family
        ensures { result ≡ Self.family_of self.now };

    /// Whether the network has only one address, that is, whether the prefix length is full: 32 in IPv4 and 128 in
    /// IPv6.
    fn is_host_address(&self) -> bool
        ensures { IsTrue result ↔ (length (Self.prefix self.now) ≡ width_of (Self.family_of self.now)) };

    /// The network mask: as many set bits as the prefix length says, then zeros.
    fn mask(&self) -> Self::Address
        ensures value { Self.Address.bits result ≡ mask_of (width_of (Self.family_of self.now)) (Self.prefix self.now) }
        ensures family { Self.Address.family_of result ≡ Self.family_of self.now };

    /// Whether the address is in the network, that is, of its family and begins with its prefix. An IPv4-mapped IPv6
    /// address is in no IPv4 network.
    fn contains(&self, addr: &Self::Address) -> bool
        ensures { IsTrue result ↔
            ((Self.Address.family_of addr.now ≡ Self.family_of self.now) ×
            BeginsWith (Self.Address.bits addr.now) (Self.prefix self.now)) };

    /// Two are equal exactly where they are the same.
    ghost equal: { TellsEqual Self.eq };

    /// The family and the bits tell the value.
    ghost known: { IsKnownBy Self.family_of Self.prefix };

    /// They are ordered by family and then by bits: a beginning comes first.
    ghost ordered: { IsOrderByFamily Self.family_of Self.prefix Self.cmp };

    /// A string that parses represents the value, and one that is rejected represents none of the type.
    ghost reads: { ReadsByFamily IsNetworkText Self.family_of Self.prefix Self.from_str_gives };

    /// The printed string, by the family and the bits.
    ghost prints: { PrintsByFamily plain_text Self.family_of Self.prefix Self.output };
}

/// A type of hosts: `Ipv4Inet`, `Ipv6Inet` and `IpInet`. The calls are those of the types, where each has an example.
///
/// ```
/// fn is_at_end<I: Inet>(host: I) -> bool {
///     host.next().is_none()
/// }
/// ```
///
/// At a type:
///
/// ```
/// is_at_end("192.0.2.63/28".parse::<IpInet>()?) // true
/// ```
pub trait Inet: Copy + Debug + Display + FromStr<Err = NetworkParseError> + Ord + Hash + PrivInet {
    /// The addresses of the hosts.
    type Address: Address;

    /// The host of an address in the network of its first `len` bits, of its family.
    ///
    /// Returns an error only for a prefix length above the width, 32 or 128.
    fn new(addr: Self::Address, len: u8) -> Result<Self, NetworkLengthTooLongError>
        ensures value { seen Self.host result ≡ host_from (Self.Address.family_of addr) (Self.Address.bits addr) len }
        ensures family { IfOk result (λ h. Self.family_of h ≡ Self.Address.family_of addr) };

    /// The host of full prefix length, whose network has only this address: /32 in IPv4 and /128 in IPv6.
    fn new_host(addr: Self::Address) -> Self
        ensures value { Self.host result ≡ lone_host (width_of (Self.Address.family_of addr)) (Self.Address.bits addr) }
        ensures family { Self.family_of result ≡ Self.Address.family_of addr };

    /// Steps to the next address of the network. From the last one it wraps to the first, and returns true.
    fn increment(&mut self) -> bool
        ensures stepped { Self.host self.new ≡ stepped_up (width_of (Self.family_of self.old)) (Self.host self.old) 1 }
        ensures wraps { IsTrue result ↔ WrapsUp (width_of (Self.family_of self.old)) (Self.host self.old) 1 }
        ensures family { Self.family_of self.new ≡ Self.family_of self.old };

    /// Steps to the previous address of the network. From the first one it wraps to the last, and returns true.
    fn decrement(&mut self) -> bool
        ensures stepped { Self.host self.new ≡ stepped_down (width_of (Self.family_of self.old))
            (Self.host self.old) 1 }
        ensures wraps { IsTrue result ↔ WrapsDown (Self.host self.old) 1 }
        ensures family { Self.family_of self.new ≡ Self.family_of self.old };

    /// The host at the next address of the network, or `None` at the last one.
    fn next(self) -> Option<Self>
        ensures value { option_map Self.host result ≡ next_of (width_of (Self.family_of self)) (Self.host self) }
        ensures back { IfSome result
            (λ next. previous_of (width_of (Self.family_of self)) (Self.host next) ≡ Some (Self.host self)) }
        ensures family { IfSome result (λ next. Self.family_of next ≡ Self.family_of self) };

    /// The host at the previous address of the network, or `None` at the first one.
    fn previous(self) -> Option<Self>
        ensures value { option_map Self.host result ≡ previous_of (width_of (Self.family_of self)) (Self.host self) }
        ensures back { IfSome result
            (λ previous. next_of (width_of (Self.family_of self)) (Self.host previous) ≡ Some (Self.host self)) }
        ensures family { IfSome result (λ previous. Self.family_of previous ≡ Self.family_of self) };

    /// The host `step` addresses further in the network, and whether it wrapped from the last address to the first. Any
    /// step is exact.
    fn overflowing_add(self, step: u128) -> (Self, bool)
        ensures stepped { Self.host result.0 ≡ stepped_up (width_of (Self.family_of self)) (Self.host self) step }
        ensures wraps { IsTrue result.1 ↔ WrapsUp (width_of (Self.family_of self)) (Self.host self) step }
        ensures family { Self.family_of result.0 ≡ Self.family_of self };

    /// The host `step` addresses back in the network, and whether it wrapped from the first address to the last. Any
    /// step is exact.
    fn overflowing_sub(self, step: u128) -> (Self, bool)
        ensures stepped { Self.host result.0 ≡ stepped_down (width_of (Self.family_of self)) (Self.host self) step }
        ensures wraps { IsTrue result.1 ↔ WrapsDown (Self.host self) step }
        ensures family { Self.family_of result.0 ≡ Self.family_of self };

    /// The network that the host is in: the bits after the prefix are unset.
    fn network(&self) -> <Self::Address as Address>::Cidr
        ensures value { Self.Address.Cidr.prefix result ≡ network_of (Self.host self.now) }
        ensures family { Self.Address.Cidr.family_of result ≡ Self.family_of self.now };

    /// The address, without the prefix length.
    fn address(&self) -> Self::Address
        ensures value { Self.Address.bits result ≡ (Self.host self.now).address }
        ensures width { length (Self.Address.bits result) ≡ width_of (Self.family_of self.now) }
        ensures family { Self.Address.family_of result ≡ Self.family_of self.now };

    /// The first address of the network, in which no bit after the prefix is set: in IPv4 the network address, up to
    /// /30.
    fn first_address(&self) -> Self::Address
        ensures value { Self.Address.bits result ≡
            first_of (width_of (Self.family_of self.now)) (network_of (Self.host self.now)) }
        ensures family { Self.Address.family_of result ≡ Self.family_of self.now };

    /// The host at the first address of the network, with the same prefix length.
    fn first(&self) -> Self
        ensures value { Self.host result ≡ first_host (width_of (Self.family_of self.now))
            (network_of (Self.host self.now)) }
        ensures family { Self.family_of result ≡ Self.family_of self.now };

    /// The last address of the network, in which all bits after the prefix are set: in IPv4 the broadcast address, up
    /// to /30.
    fn last_address(&self) -> Self::Address
        ensures value { Self.Address.bits result ≡
            last_of (width_of (Self.family_of self.now)) (network_of (Self.host self.now)) }
        ensures family { Self.Address.family_of result ≡ Self.family_of self.now };

    /// The host at the last address of the network, with the same prefix length.
    fn last(&self) -> Self
        ensures value { Self.host result ≡ last_host (width_of (Self.family_of self.now))
            (network_of (Self.host self.now)) }
        ensures family { Self.family_of result ≡ Self.family_of self.now };

    /// The prefix length in bits, at most 32 in IPv4 and 128 in IPv6.
    fn network_length(&self) -> u8
        ensures value { result ≡ (Self.host self.now).len }
        ensures fits { result ≤ width_of (Self.family_of self.now) };

    /// The family of the host's address.
    fn family(&self) -> Family
        ensures { result ≡ Self.family_of self.now };

    /// Whether the network of the host has only one address, that is, whether the prefix length is full: 32 in IPv4 and
    /// 128 in IPv6.
    fn is_host_address(&self) -> bool
        ensures { IsTrue result ↔ ((Self.host self.now).len ≡ width_of (Self.family_of self.now)) };

    /// The network mask: as many set bits as the prefix length says, then zeros.
    fn mask(&self) -> Self::Address
        ensures value { Self.Address.bits result ≡
            mask_of (width_of (Self.family_of self.now)) (network_of (Self.host self.now)) }
        ensures family { Self.Address.family_of result ≡ Self.family_of self.now };

    /// Whether the address is in the network of the host, that is, of its family and begins with its prefix. An
    /// IPv4-mapped IPv6 address is in no IPv4 network.
    fn contains(&self, addr: &Self::Address) -> bool
        ensures { IsTrue result ↔
            ((Self.Address.family_of addr.now ≡ Self.family_of self.now) ×
            BeginsWith (Self.Address.bits addr.now) (network_of (Self.host self.now))) };

    /// Two are equal exactly where they are the same.
    ghost equal: { TellsEqual Self.eq };

    /// The family and the host tell the value.
    ghost known: { IsKnownBy Self.family_of Self.host };

    /// They are ordered by family and then by address and prefix length.
    ghost ordered: { IsHostOrderByFamily Self.family_of Self.host Self.cmp };

    /// A string that parses represents the value, and one that is rejected represents none of the type.
    ghost reads: { ReadsByFamily IsHostText Self.family_of Self.host Self.from_str_gives };

    /// The printed text, by the family and the host.
    ghost prints: { PrintsByFamily plain_host_text Self.family_of Self.host Self.output };
}

/// A type of pairs, two addresses of one network: `Ipv4InetPair`, `Ipv6InetPair` and `IpInetPair`. The first may be
/// above the second. The calls are those of the types, where each has an example.
///
/// ```
/// fn host_bits<P: InetPair>(pair: &P) -> u8 {
///     pair.family().len().saturating_sub(pair.network_length())
/// }
/// ```
///
/// At a type:
///
/// ```
/// let host = "192.0.2.49/28".parse::<Ipv4Inet>()?;
/// host_bits(&Ipv4InetPair::new(host, host)?) // 4
/// ```
pub trait InetPair: Copy + Debug + Eq + Hash + PrivInetPair {
    /// The addresses of the pairs.
    type Address: Address;

    /// The pair of two hosts. Returns `NotInSharedNetwork` for hosts of different families, of different prefix lengths
    /// or of different networks.
    fn new(
        first: <Self::Address as Address>::Inet,
        second: <Self::Address as Address>::Inet,
    ) -> Result<Self, InetTupleError>
        ensures value { seen Self.pair result ≡
            of_one_family (Self.Address.Inet.family_of first) (Self.Address.Inet.family_of second)
            (pair_of (Self.Address.Inet.host first) (Self.Address.Inet.host second)) }
        ensures family { IfOk result (λ p. Self.family_of p ≡ Self.Address.Inet.family_of first) };

    /// The pair of two addresses in a network of this prefix length.
    ///
    /// Returns `NotInSharedNetwork` for two families, whatever the prefix length; then `NetworkLengthTooLongError` for
    /// a prefix length above the width, 32 or 128; then `NotInSharedNetwork` for addresses whose first `len` bits
    /// differ.
    fn new_from_addresses(
        first: Self::Address,
        second: Self::Address,
        len: u8,
    ) -> Result<Self, InetTupleError>
        ensures value { seen Self.pair result ≡
            of_one_family (Self.Address.family_of first) (Self.Address.family_of second)
            (pair_from (Self.Address.family_of first) (Self.Address.bits first) (Self.Address.bits second) len) }
        ensures family { IfOk result (λ p. Self.family_of p ≡ Self.Address.family_of first) };

    /// The first address, as a host with the prefix length of the pair.
    fn first(&self) -> <Self::Address as Address>::Inet
        ensures value { Self.Address.Inet.host result ≡ first_of_pair (Self.pair self.now) }
        ensures family { Self.Address.Inet.family_of result ≡ Self.family_of self.now }
        ensures pair { IsPair (width_of (Self.family_of self.now)) (Self.pair self.now) };

    /// The second address, as a host with the prefix length of the pair.
    fn second(&self) -> <Self::Address as Address>::Inet
        ensures value { Self.Address.Inet.host result ≡ second_of_pair (Self.pair self.now) }
        ensures family { Self.Address.Inet.family_of result ≡ Self.family_of self.now }
        ensures pair { IsPair (width_of (Self.family_of self.now)) (Self.pair self.now) };

    /// The network that both addresses are in, of the prefix length of the pair.
    fn network(&self) -> <Self::Address as Address>::Cidr
        ensures value { Self.Address.Cidr.prefix result ≡ network_of_pair (Self.pair self.now) }
        ensures family { Self.Address.Cidr.family_of result ≡ Self.family_of self.now };

    /// The prefix length in bits, at most 32 in IPv4 and 128 in IPv6.
    fn network_length(&self) -> u8
        ensures value { result ≡ (Self.pair self.now).len }
        ensures fits { result ≤ width_of (Self.family_of self.now) };

    /// The family of both addresses.
    fn family(&self) -> Family
        ensures { result ≡ Self.family_of self.now };

    /// The hosts from the first address to the second inclusive, ascending, with the prefix length of the pair. There
    /// are none where the first is above the second.
    fn iter(self) -> InetIterator<Self::Address>
        ensures { result ≡ pair_hosts (Self.family_of self) (Self.pair self) };

    /// Two are equal exactly where they are the same.
    ghost equal: { TellsEqual Self.eq };

    /// The family and the pair tell the value.
    ghost known: { IsKnownBy Self.family_of Self.pair };
}
