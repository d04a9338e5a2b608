//! IPv4 inside IPv6.
ghost use Rattle.std.specs.Prelude.{◌≡◌, MatchOption};
ghost use Rattle.cidr.specs.either.IpAddress.{address_family, plain_bits};
ghost use Rattle.cidr.specs.either.IpNetwork.{network_family, network_prefix};
ghost use Rattle.cidr.specs.declared.family.Family.TheVariants.{Ipv6};
ghost use Rattle.cidr_ext.specs.model.InsideIpv6.{nat64_front, six_to_four_front};
ghost use Rattle.cidr_c.specs.calls.Calls.{IsSought};
ghost use Rattle.cidr_c.specs.model.InsideIpv6.{AreMapped, BeginsIpv6, IsOfMapped, IsSiteOf, IsTranslated};
ghost use Rattle.cidr_c.specs.model.Values.{IsAddressValue, IsHostValue, IsIpNetworkValue, address_in, family_in, ip_network_in};

use crate::codes::NO_VALUE;
use crate::finding::{put_found_address, put_found_network};
use crate::values::{CValue, address_of, ip_network_of};
use cidr::{IpAddr, IpCidr};
use cidr_ext::{Ipv4CidrExt, Ipv6AddrExt, Ipv6CidrExt};

/// The network of the IPv4-mapped addresses of the network of a host, ::ffff:192.0.2.0/120 of 192.0.2.0/24, or none of an
/// IPv6 host.
#[unsafe(no_mangle)]
pub extern "C" fn pcidr_ipv6_mapped_by_value(host: CValue, out: &mut CValue) -> u32
    ensures { IsSought (IsHostValue host) (family_in host ≡ Ipv6) IsIpNetworkValue ip_network_in
        (AreMapped (ip_network_in host)) out.old out.new result }
{
    match ip_network_of(&host) {
        Some(network) => put_found_network(ipv6_mapped(&network), out),
        None => NO_VALUE,
    }
}

/// The IPv4 network of a network of IPv4-mapped addresses, that of a host, or none where it isn't inside ::ffff:0:0/96.
#[unsafe(no_mangle)]
pub extern "C" fn pcidr_ipv4_mapped_by_value(host: CValue, out: &mut CValue) -> u32
    ensures { IsSought (IsHostValue host) (¬ (IsOfMapped (ip_network_in host))) IsIpNetworkValue ip_network_in
        (λ inner. AreMapped inner (ip_network_in host)) out.old out.new result }
{
    match ip_network_of(&host) {
        Some(network) => put_found_network(ipv4_mapped(&network), out),
        None => NO_VALUE,
    }
}

/// The IPv4 address of the site of a 6to4 address, or none outside of 2002::/16.
#[unsafe(no_mangle)]
pub extern "C" fn pcidr_ipv4_6to4_by_value(address: CValue, out: &mut CValue) -> u32
    ensures { IsSought (IsAddressValue address) (¬ (BeginsIpv6 six_to_four_front (address_in address))) IsAddressValue
        address_in (IsSiteOf (address_in address)) out.old out.new result }
{
    match address_of(&address) {
        Some(address) => put_found_address(ipv4_6to4(&address), out),
        None => NO_VALUE,
    }
}

/// The IPv4 address in an address with the well-known prefix of translation, or none outside of 64:ff9b::/96.
#[unsafe(no_mangle)]
pub extern "C" fn pcidr_ipv4_nat64_by_value(address: CValue, out: &mut CValue) -> u32
    ensures { IsSought (IsAddressValue address) (¬ (BeginsIpv6 nat64_front (address_in address))) IsAddressValue
        address_in (IsTranslated (address_in address)) out.old out.new result }
{
    match address_of(&address) {
        Some(address) => put_found_address(ipv4_nat64(&address), out),
        None => NO_VALUE,
    }
}

/// The network of the IPv4-mapped addresses of an IPv4 network.
fn ipv6_mapped(network: &IpCidr) -> Option<IpCidr>
    ensures { MatchOption result (network_family network.now ≡ Ipv6) (AreMapped network.now) }
{
    match network {
        IpCidr::V4(network) => Some(IpCidr::V6(network.to_ipv6_mapped())),
        IpCidr::V6(_) => None,
    }
}

/// The IPv4 network of a network of IPv4-mapped addresses.
fn ipv4_mapped(network: &IpCidr) -> Option<IpCidr>
    ensures { MatchOption result (¬ (IsOfMapped network.now)) (λ inner. AreMapped inner network.now) }
{
    match network {
        IpCidr::V4(_) => None,
        IpCidr::V6(network) => Some(IpCidr::V4(network.to_ipv4_mapped()?)),
    }
}

/// The IPv4 address of the site of a 6to4 address.
fn ipv4_6to4(address: &IpAddr) -> Option<IpAddr>
    ensures { MatchOption result (¬ (BeginsIpv6 six_to_four_front address.now)) (IsSiteOf address.now) }
{
    match address {
        IpAddr::V4(_) => None,
        IpAddr::V6(address) => Some(IpAddr::V4(address.to_ipv4_6to4()?)),
    }
}

/// The IPv4 address in an address of translation.
fn ipv4_nat64(address: &IpAddr) -> Option<IpAddr>
    ensures { MatchOption result (¬ (BeginsIpv6 nat64_front address.now)) (IsTranslated address.now) }
{
    match address {
        IpAddr::V4(_) => None,
        IpAddr::V6(address) => Some(IpAddr::V4(address.to_ipv4_nat64()?)),
    }
}
