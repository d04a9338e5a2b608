//! A new network has the prefix length of the argument, and that of an address with no prefix length the full one.
ghost use Rattle.std.specs.Prelude.{◌≡◌, ◌+◌, IsTrue, Err, MatchOption, MatchResult, Some};
ghost use Rattle.cidr.specs.model.Network.{network_from};
ghost use Rattle.cidr.specs.either.IpNetwork.{any_length, ip_network_from};
ghost use Rattle.cidr.specs.declared.family.Family.TheVariants.{Ipv4, Ipv6};

use cidr::errors::NetworkParseError;
use cidr::{AnyIpCidr, Cidr, IpAddr, IpCidr, Ipv4Addr, Ipv4Cidr, Ipv6Addr, Ipv6Cidr};

/// Always true: the network of an IPv4 address with no prefix length is a single address.
pub fn ipv4_network_is_alone(address: Ipv4Addr) -> bool
    ensures { IsTrue result }
{
    Ipv4Cidr::new_host(address).is_host_address()
}

/// The same of IPv6.
pub fn ipv6_network_is_alone(address: Ipv6Addr) -> bool
    ensures { IsTrue result }
{
    Ipv6Cidr::new_host(address).is_host_address()
}

/// The same of either family.
pub fn ip_network_is_alone(address: IpAddr) -> bool
    ensures { IsTrue result }
{
    IpCidr::new_host(address).is_host_address()
}

/// The same of either family, by the type that has `any` as well.
pub fn any_network_is_alone(address: IpAddr) -> bool
    ensures { IsTrue result }
{
    AnyIpCidr::new_host(address).is_host_address()
}

/// The same over the trait of networks.
pub fn network_is_alone<C: Cidr>(address: C::Address) -> bool
    ensures { IsTrue result }
{
    C::new_host(address).is_host_address()
}

/// The address itself: it is the first one of its network.
pub fn ipv4_network_first(address: Ipv4Addr) -> Ipv4Addr
    ensures { result ≡ address }
{
    Ipv4Cidr::new_host(address).first_address()
}

/// The same of IPv6.
pub fn ipv6_network_first(address: Ipv6Addr) -> Ipv6Addr
    ensures { result ≡ address }
{
    Ipv6Cidr::new_host(address).first_address()
}

/// The same of either family.
pub fn ip_network_first(address: IpAddr) -> IpAddr
    ensures { result ≡ address }
{
    IpCidr::new_host(address).first_address()
}

/// The same of either family, by the type that has `any` as well.
pub fn any_network_first(address: IpAddr) -> Option<IpAddr>
    ensures { result ≡ Some address }
{
    AnyIpCidr::new_host(address).first_address()
}

/// The same over the trait of networks.
pub fn network_first<C: Cidr>(address: C::Address) -> C::Address
    ensures bits { C.Address.bits result ≡ C.Address.bits address }
    ensures family { C.Address.family_of result ≡ C.Address.family_of address }
{
    C::new_host(address).first_address()
}

/// The prefix length of a new IPv4 network, which is that of the argument, or why there is no such network.
pub fn ipv4_network_length(address: Ipv4Addr, len: u8) -> Result<u8, NetworkParseError>
    ensures { MatchResult result (λ n. n ≡ len) (λ e. network_from Ipv4 address len ≡ Err e) }
{
    Ok(Ipv4Cidr::new(address, len)?.network_length())
}

/// The same of IPv6.
pub fn ipv6_network_length(address: Ipv6Addr, len: u8) -> Result<u8, NetworkParseError>
    ensures { MatchResult result (λ n. n ≡ len) (λ e. network_from Ipv6 address len ≡ Err e) }
{
    Ok(Ipv6Cidr::new(address, len)?.network_length())
}

/// The same of either family.
pub fn ip_network_length(address: IpAddr, len: u8) -> Result<u8, NetworkParseError>
    ensures { MatchResult result (λ n. n ≡ len) (λ e. ip_network_from address len ≡ Err e) }
{
    Ok(IpCidr::new(address, len)?.network_length())
}

/// The same of either family, by the type that has `any` as well.
pub fn any_network_length(address: IpAddr, len: u8) -> Result<Option<u8>, NetworkParseError>
    ensures { MatchResult result (λ n. n ≡ Some len) (λ e. ip_network_from address len ≡ Err e) }
{
    Ok(AnyIpCidr::new(address, len)?.network_length())
}

/// The same over the trait of networks.
pub fn network_length<C: Cidr>(address: C::Address, len: u8) -> Result<u8, NetworkParseError>
    ensures { MatchResult result (λ n. n ≡ len)
        (λ e. network_from (C.Address.family_of address) (C.Address.bits address) len ≡ Err e) }
{
    Ok(C::new(address, len)?.network_length())
}

/// The prefix length of the network that an IPv4 address converts to, which is 32.
pub fn ipv4_from_length(address: Ipv4Addr) -> u8
    ensures { result ≡ 32 }
{
    Ipv4Cidr::from(address).network_length()
}

/// The same of IPv6, which is 128.
pub fn ipv6_from_length(address: Ipv6Addr) -> u8
    ensures { result ≡ 128 }
{
    Ipv6Cidr::from(address).network_length()
}

/// Always true: the network that an address of either family converts to is a single address.
pub fn ip_from_is_alone(address: IpAddr) -> bool
    ensures { IsTrue result }
{
    IpCidr::from(address).is_host_address()
}

/// The same by the type that has `any` as well.
pub fn any_from_is_alone(address: IpAddr) -> bool
    ensures { IsTrue result }
{
    AnyIpCidr::from(address).is_host_address()
}

/// How many bits a network of either family leaves free of 128; of `any`, all.
pub fn any_bits_left(network: &AnyIpCidr) -> u8
    ensures { MatchOption (any_length network.now) (result ≡ 128) (λ len. result + len ≡ 128) }
{
    match network.network_length() {
        Some(len) => 128 - len,
        None => 128,
    }
}
