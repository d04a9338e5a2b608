//! The headline of the library: what its calls on networks promise together, as the contract of one function over the
//! type of networks, and at each of the four types. `specs/Headline.antt` says it.
ghost use Rattle.std.specs.Prelude.{◌≡◌, length, map, option_map};
ghost use Rattle.cidr.specs.bytes.Compact.{network_bytes, ip_network_bytes, any_network_bytes};
ghost use Rattle.cidr.specs.either.IpAddress.{address_family, plain_bits, ip_address_bits};
ghost use Rattle.cidr.specs.either.IpNetwork.{IsAddressBits, network_bits, any_bits, network_family, network_prefix};
ghost use Rattle.cidr.specs.either.IpText.{IsIpNetworkText, IsAnyNetworkText, IsIpRefused, ip_network_text, any_network_text};
ghost use Rattle.cidr.specs.model.Network.{HasWidth};
ghost use Rattle.cidr.specs.model.Views.{in_family};
ghost use Rattle.cidr.specs.texts.AddressText.{address_error};
ghost use Rattle.cidr.specs.texts.NetworkText.{IsNetworkText};
ghost use Rattle.cidr.specs.texts.Printed.{plain_text, forced_text};
ghost use Rattle.cidr.specs.texts.Refusal.{IsRefused};
ghost use Rattle.cidr.specs.declared.family.Family.TheVariants.{Ipv4, Ipv6};
ghost use Rattle.cidr_uses.specs.Headline.{Headline, Walks};

use crate::network_type::NetworkType;
use arrayvec::{ArrayString, ArrayVec};
use cidr::errors::{CompactError, NetworkParseError};
use cidr::laws::walks;
use cidr::{
    Address, AnyIpCidr, Cidr, End, Inet, InetPair, IpAddr, IpCidr, Ipv4Addr, Ipv4Cidr, Ipv6Addr,
    Ipv6Cidr, drive,
};
use std::cmp::Ordering;

/// What the calls return for a string, bytes, two networks of one type and an address.
#[derive(Drop)]
pub struct Calls<N> {
    /// Parsing the string.
    pub parsed: Result<N, NetworkParseError>,
    /// Whether the networks agree.
    pub agree: bool,
    /// The printed string of the first network.
    pub text: ArrayString<43>,
    /// The same with a full length.
    pub long_text: ArrayString<43>,
    /// Its compact bytes.
    pub compact: ArrayVec<u8, 17>,
    /// Reading a network from the bytes.
    pub unpacked: Result<(N, usize), CompactError>,
    /// Whether the first network contains the address.
    pub contains: bool,
    /// Whether it contains the second network.
    pub contains_network: bool,
    /// The order of the networks.
    pub order: Ordering,
}

/// The headline of any type of networks, but for walks: what the calls return for any string, any bytes, any two networks
/// of the type and any address.
pub fn of_type<N: NetworkType>(
    s: &str,
    input: &[u8],
    a: &N,
    b: &N,
    address: &N::IpAddress,
) -> Calls<N>
    ensures { Headline N.represents N.is_rejected N.is_address N.bits N.text N.long_text N.bytes
        s.now input.now a.now b.now (N.address_bits address.now) result }
{
    a.laws();
    Calls {
        parsed: N::parse_network(s),
        agree: a.agrees(b),
        text: a.print(),
        long_text: a.print_with_length(),
        compact: a.pack(),
        unpacked: N::unpack(input),
        contains: a.contains_address(address),
        contains_network: a.contains_network(b),
        order: a.compare(b),
    }
}

/// What any calls at both ends of the walk of a network return.
pub fn walk<C: Cidr>(network: &C, ends: &[End], answers: &mut [Option<C::Address>])
where
    <C::Address as Address>::InetPair: InetPair<Address = C::Address>,
    <C::Address as Address>::Inet: Inet<Address = C::Address>,
    requires { length answers.old ≡ length ends.now }
    ensures { Walks (C.family_of network.now) (C.prefix network.now) ends.now
        (map (option_map (in_family C.Address.family_of C.Address.bits)) answers.new) }
{
    walks::walk_ascends();
    walks::calls_return_items_once();
    walks::calls_return_from_the_ends();
    walks::enough_calls_return_each_item();
    // the call tells the proof that the prefix length is within the width
    let _len = network.network_length();
    let mut left = network.iter().addresses();
    drive(&mut left, ends, answers);
}

/// The headline of any type of networks that iterates, whole: what the calls return for any string, any bytes, any two
/// networks of the type, any address and any ends of the walk of the first.
pub fn of_walked_type<N: NetworkType + Cidr>(
    s: &str,
    input: &[u8],
    a: &N,
    b: &N,
    address: &N::IpAddress,
    ends: &[End],
    answers: &mut [Option<N::Address>],
) -> Calls<N>
where
    <N::Address as Address>::InetPair: InetPair<Address = N::Address>,
    <N::Address as Address>::Inet: Inet<Address = N::Address>,
    requires { length answers.old ≡ length ends.now }
    ensures networks { Headline N.represents N.is_rejected N.is_address N.bits N.text N.long_text N.bytes
        s.now input.now a.now b.now (N.address_bits address.now) result }
    ensures walk { Walks (N.family_of a.now) (N.prefix a.now) ends.now
        (map (option_map (in_family N.Address.family_of N.Address.bits)) answers.new) }
{
    walk(a, ends, answers);
    of_type(s, input, a, b, address)
}

/// The headline of IPv4 networks.
pub fn ipv4(
    s: &str,
    input: &[u8],
    a: &Ipv4Cidr,
    b: &Ipv4Cidr,
    address: &Ipv4Addr,
    ends: &[End],
    answers: &mut [Option<Ipv4Addr>],
) -> Calls<Ipv4Cidr>
    requires { length answers.old ≡ length ends.now }
    ensures networks { Headline (IsNetworkText Ipv4) (IsRefused Ipv4 (address_error Ipv4)) (HasWidth 32) (λ n. n)
        (plain_text Ipv4) (forced_text Ipv4) (network_bytes Ipv4)
        s.now input.now a.now b.now address.now result }
    ensures walk { Walks Ipv4 a.now ends.now (map (option_map (λ a. (Ipv4, a))) answers.new) }
{
    of_walked_type(s, input, a, b, address, ends, answers)
}

/// The headline of IPv6 networks.
pub fn ipv6(
    s: &str,
    input: &[u8],
    a: &Ipv6Cidr,
    b: &Ipv6Cidr,
    address: &Ipv6Addr,
    ends: &[End],
    answers: &mut [Option<Ipv6Addr>],
) -> Calls<Ipv6Cidr>
    requires { length answers.old ≡ length ends.now }
    ensures networks { Headline (IsNetworkText Ipv6) (IsRefused Ipv6 (address_error Ipv6)) (HasWidth 128) (λ n. n)
        (plain_text Ipv6) (forced_text Ipv6) (network_bytes Ipv6)
        s.now input.now a.now b.now address.now result }
    ensures walk { Walks Ipv6 a.now ends.now (map (option_map (λ a. (Ipv6, a))) answers.new) }
{
    of_walked_type(s, input, a, b, address, ends, answers)
}

/// The headline of networks of either family.
pub fn ip(
    s: &str,
    input: &[u8],
    a: &IpCidr,
    b: &IpCidr,
    address: &IpAddr,
    ends: &[End],
    answers: &mut [Option<IpAddr>],
) -> Calls<IpCidr>
    requires { length answers.old ≡ length ends.now }
    ensures networks { Headline IsIpNetworkText IsIpRefused IsAddressBits network_bits (ip_network_text plain_text)
        (ip_network_text forced_text) ip_network_bytes
        s.now input.now a.now b.now (ip_address_bits address.now) result }
    ensures walk { Walks (network_family a.now) (network_prefix a.now) ends.now
        (map (option_map (in_family address_family plain_bits)) answers.new) }
{
    of_walked_type(s, input, a, b, address, ends, answers)
}

/// The headline of networks of either family and `any`, which do not iterate.
pub fn any(
    s: &str,
    input: &[u8],
    a: &AnyIpCidr,
    b: &AnyIpCidr,
    address: &IpAddr,
) -> Calls<AnyIpCidr>
    ensures { Headline IsAnyNetworkText IsIpRefused IsAddressBits any_bits (any_network_text plain_text)
        (any_network_text forced_text) any_network_bytes s.now input.now a.now b.now
        (ip_address_bits address.now) result }
{
    of_type(s, input, a, b, address)
}
