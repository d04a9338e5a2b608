//! A new host has the prefix length of the argument, and the host of an address with no prefix length the full one.
ghost use Rattle.std.specs.Prelude.{◌≡◌, IsTrue, Err, MatchResult};
ghost use Rattle.cidr.specs.either.IpHost.{ip_host_from};
ghost use Rattle.cidr.specs.model.Host.{host_from};
ghost use Rattle.cidr.specs.declared.family.Family.TheVariants.{Ipv4, Ipv6};

use cidr::errors::NetworkLengthTooLongError;
use cidr::{Inet, IpAddr, IpInet, Ipv4Addr, Ipv4Inet, Ipv6Addr, Ipv6Inet};

/// Always true: the network of the host of an IPv4 address with no prefix length is a single address.
pub fn ipv4_host_is_alone(address: Ipv4Addr) -> bool
    ensures { IsTrue result }
{
    Ipv4Inet::new_host(address).is_host_address()
}

/// The same of IPv6.
pub fn ipv6_host_is_alone(address: Ipv6Addr) -> bool
    ensures { IsTrue result }
{
    Ipv6Inet::new_host(address).is_host_address()
}

/// The same of either family.
pub fn ip_host_is_alone(address: IpAddr) -> bool
    ensures { IsTrue result }
{
    IpInet::new_host(address).is_host_address()
}

/// The same over the trait of hosts.
pub fn host_is_alone<I: Inet>(address: I::Address) -> bool
    ensures { IsTrue result }
{
    I::new_host(address).is_host_address()
}

/// The address itself: it is the first one of the network of its host.
pub fn ipv4_host_first(address: Ipv4Addr) -> Ipv4Addr
    ensures { result ≡ address }
{
    Ipv4Inet::new_host(address).first_address()
}

/// The same of IPv6.
pub fn ipv6_host_first(address: Ipv6Addr) -> Ipv6Addr
    ensures { result ≡ address }
{
    Ipv6Inet::new_host(address).first_address()
}

/// The same of either family.
pub fn ip_host_first(address: IpAddr) -> IpAddr
    ensures { result ≡ address }
{
    IpInet::new_host(address).first_address()
}

/// The same over the trait of hosts.
pub fn host_first<I: Inet>(address: I::Address) -> I::Address
    ensures bits { I.Address.bits result ≡ I.Address.bits address }
    ensures family { I.Address.family_of result ≡ I.Address.family_of address }
{
    let host = I::new_host(address);
    // the call tells the proof how many bits the address has
    host.address();
    host.first_address()
}

/// The prefix length of a new IPv4 host, which is that of the argument, or why there is no such host.
pub fn ipv4_host_length(address: Ipv4Addr, len: u8) -> Result<u8, NetworkLengthTooLongError>
    ensures { MatchResult result (λ n. n ≡ len) (λ e. host_from Ipv4 address len ≡ Err e) }
{
    Ok(Ipv4Inet::new(address, len)?.network_length())
}

/// The same of IPv6.
pub fn ipv6_host_length(address: Ipv6Addr, len: u8) -> Result<u8, NetworkLengthTooLongError>
    ensures { MatchResult result (λ n. n ≡ len) (λ e. host_from Ipv6 address len ≡ Err e) }
{
    Ok(Ipv6Inet::new(address, len)?.network_length())
}

/// The same of either family.
pub fn ip_host_length(address: IpAddr, len: u8) -> Result<u8, NetworkLengthTooLongError>
    ensures { MatchResult result (λ n. n ≡ len) (λ e. ip_host_from address len ≡ Err e) }
{
    Ok(IpInet::new(address, len)?.network_length())
}

/// The same over the trait of hosts.
pub fn host_length<I: Inet>(address: I::Address, len: u8) -> Result<u8, NetworkLengthTooLongError>
    ensures { MatchResult result (λ n. n ≡ len)
        (λ e. host_from (I.Address.family_of address) (I.Address.bits address) len ≡ Err e) }
{
    Ok(I::new(address, len)?.network_length())
}
