//! Networks and addresses around the network of a host.
ghost use Rattle.std.specs.Prelude.{◌≡◌, ◌+◌, ◌-◌, ◌*◌, ◌^◌, ◌<◌, ◌≤◌, ◌⊎◌, [], length, MatchOption};
ghost use Rattle.cidr.specs.model.Network.{BeginsWith, ones, zeros};
ghost use Rattle.cidr.specs.either.IpNetwork.{address_by, any_bits, network_family, network_prefix};
ghost use Rattle.cidr_ext.specs.model.Inside.{IsAddressAt, host_mask_of, usable_of};
ghost use Rattle.cidr_ext.specs.model.Subnets.{IsNextNetwork, IsSubnetAt, NoSubnetAt};
ghost use Rattle.cidr_ext.specs.model.Tree.{AreSiblings, IsHalfOf, IsSpanning, IsSupernet};
ghost use Rattle.cidr_c.specs.calls.Calls.{IsConverted, IsSought, IsYesOrNo};
ghost use Rattle.cidr_c.specs.model.Networks.{AreHalvesSought, IsAddressSought, IsFirstHost, IsLastHost, IsLengthSought, IsNetworkSought, IsNumberSought, IsUsableSought, address_bits_in, address_family_in, usable_in};
ghost use Rattle.cidr_c.specs.model.Values.{IsAddressValue, IsHostValue, IsNetworkValue, address_in, family_in, ip_network_in, network_in, prefix_in, width_in};

use crate::codes::{NO_VALUE, OK};
use crate::finding::{
    joined, put_found_address, put_found_network, put_found_networks, put_number, put_plain,
    yes_or_no,
};
use crate::values::{CValue, address_of, ip_network_of, put_address, put_network, value_network};
use cidr::{IpAddr, IpCidr, Ipv4Addr, Ipv4Cidr};
use cidr_ext::{CidrExt, IpCidrExt, NetworkExt};
use cidr_lookup::Ipv6Halves;

/// The network of prefix length `len` that contains that of a host, or none where `len` is above the length of that.
#[unsafe(no_mangle)]
pub extern "C" fn pcidr_supernet_by_value(host: CValue, len: u8, out: &mut CValue) -> u32
    ensures { IsNetworkSought host (length (prefix_in host) < len) (IsSupernet len (prefix_in host)) out.old out.new result }
{
    match ip_network_of(&host) {
        Some(network) => put_found_network(network.supernet(len), out),
        None => NO_VALUE,
    }
}

/// The network that is twice as large as that of a host and contains it, or none for 0.0.0.0/0 and ::/0.
#[unsafe(no_mangle)]
pub extern "C" fn pcidr_parent_by_value(host: CValue, out: &mut CValue) -> u32
    ensures { IsNetworkSought host (prefix_in host ≡ []) (IsHalfOf (prefix_in host)) out.old out.new result }
{
    match ip_network_of(&host) {
        Some(network) => put_found_network(network.parent(), out),
        None => NO_VALUE,
    }
}

/// Both halves of the network of a host, or none where it has only one address.
#[unsafe(no_mangle)]
pub extern "C" fn pcidr_network_halves_by_value(
    host: CValue,
    lower: &mut CValue,
    upper: &mut CValue,
) -> u32
    ensures { AreHalvesSought host (lower.old, upper.old) (lower.new, upper.new) result }
{
    match ip_network_of(&host) {
        Some(network) => put_found_networks(network.halves(), lower, upper),
        None => NO_VALUE,
    }
}

/// The other half of the parent of the network of a host, or none for 0.0.0.0/0 and ::/0.
#[unsafe(no_mangle)]
pub extern "C" fn pcidr_sibling_by_value(host: CValue, out: &mut CValue) -> u32
    ensures { IsNetworkSought host (prefix_in host ≡ []) (AreSiblings (prefix_in host)) out.old out.new result }
{
    match ip_network_of(&host) {
        Some(network) => put_found_network(network.sibling(), out),
        None => NO_VALUE,
    }
}

/// The network of the same length behind that of a host, or none for the last one of its length and family.
#[unsafe(no_mangle)]
pub extern "C" fn pcidr_next_network_by_value(host: CValue, out: &mut CValue) -> u32
    ensures { IsNetworkSought host (prefix_in host ≡ ones (length (prefix_in host))) (IsNextNetwork (prefix_in host))
        out.old out.new result }
{
    match ip_network_of(&host) {
        Some(network) => put_found_network(network.next_network(), out),
        None => NO_VALUE,
    }
}

/// The network of the same length before that of a host, or none for the first one of its length and family.
#[unsafe(no_mangle)]
pub extern "C" fn pcidr_previous_network_by_value(host: CValue, out: &mut CValue) -> u32
    ensures { IsNetworkSought host (prefix_in host ≡ zeros (length (prefix_in host)))
        (λ previous. IsNextNetwork previous (prefix_in host)) out.old out.new result }
{
    match ip_network_of(&host) {
        Some(network) => put_found_network(network.previous_network(), out),
        None => NO_VALUE,
    }
}

/// The network of prefix length `len` at index high * 2^64 + low inside that of a host, counted from 0, or none where
/// there is none.
#[unsafe(no_mangle)]
pub extern "C" fn pcidr_subnet_by_value(
    host: CValue,
    len: u8,
    high: u64,
    low: u64,
    out: &mut CValue,
) -> u32
    ensures { IsNetworkSought host (NoSubnetAt (width_in host) (prefix_in host) len (high * 2 ^ 64 + low))
        (IsSubnetAt (prefix_in host) len (high * 2 ^ 64 + low)) out.old out.new result }
{
    match ip_network_of(&host) {
        Some(network) => put_found_network(network.subnet(len, joined(high, low)), out),
        None => NO_VALUE,
    }
}

/// The host mask of the network of a host, the inverse of its mask, as an address.
#[unsafe(no_mangle)]
pub extern "C" fn pcidr_host_mask_by_value(host: CValue, out: &mut CValue) -> u32
    ensures { IsConverted (IsHostValue host) IsAddressValue address_in (address_by host_mask_of (ip_network_in host))
        out.old out.new result }
{
    let Some(network) = ip_network_of(&host) else {
        return NO_VALUE;
    };
    put_address(&host_mask(&network), out);
    OK
}

/// The host mask of a network.
fn host_mask(network: &IpCidr) -> IpAddr
    ensures { result ≡ address_by host_mask_of network.now }
{
    match network {
        IpCidr::V4(network) => IpAddr::V4(ipv4_host_mask(network)),
        IpCidr::V6(network) => IpAddr::V6(network.host_mask()),
    }
}

/// The host mask of an IPv4 network, which `cidr_ext` makes in 128 bits.
#[inline(always)]
pub fn ipv4_host_mask(network: &Ipv4Cidr) -> Ipv4Addr
    ensures { result ≡ host_mask_of 32 network.now }
{
    Ipv4Addr::from_bits(u32::MAX - network.mask().to_bits())
}

/// The address at index high * 2^64 + low of the network of a host, counted from 0, or none where the network has no more
/// addresses than that.
#[unsafe(no_mangle)]
pub extern "C" fn pcidr_nth_by_value(host: CValue, high: u64, low: u64, out: &mut CValue) -> u32
    ensures { IsAddressSought host (2 ^ (width_in host - length (prefix_in host)) ≤ high * 2 ^ 64 + low)
        (IsAddressAt (width_in host) (prefix_in host) (high * 2 ^ 64 + low)) out.old out.new result }
{
    match ip_network_of(&host) {
        Some(network) => put_found_address(network.nth(joined(high, low)), out),
        None => NO_VALUE,
    }
}

/// How many addresses the network of a host has, or none for ::/0, whose 2^128 two halves have no room for.
#[unsafe(no_mangle)]
pub extern "C" fn pcidr_address_count(host: &CValue, count: &mut Ipv6Halves) -> u32
    ensures { IsNumberSought (IsHostValue host.now) (width_in host.now - length (prefix_in host.now) ≡ 128)
        (λ number. number ≡ 2 ^ (width_in host.now - length (prefix_in host.now))) count.old count.new result }
{
    match ip_network_of(host) {
        Some(network) => put_number(network.address_count(), count),
        None => NO_VALUE,
    }
}

/// The index of an address in the network of a host, or none where it is not in that: the inverse of `pcidr_nth_by_value`.
#[unsafe(no_mangle)]
pub extern "C" fn pcidr_position(host: &CValue, address: &CValue, index: &mut Ipv6Halves) -> u32
    ensures { IsNumberSought (IsHostValue host.now × IsAddressValue address.now)
        (¬ ((address_family_in address.now ≡ family_in host.now)
        × BeginsWith (address_bits_in address.now) (prefix_in host.now)))
        (λ number. (address_family_in address.now ≡ family_in host.now)
        × IsAddressAt (width_in host.now) (prefix_in host.now) number (address_bits_in address.now))
        index.old index.new result }
{
    match (ip_network_of(host), address_of(address)) {
        (Some(network), Some(address)) => put_number(network.position(&address), index),
        _ => NO_VALUE,
    }
}

/// The first of the addresses that hosts may have of the network of a host: in IPv4 the second one of the network, but of a
/// /31 and a /32 network the first one, as in IPv6.
#[unsafe(no_mangle)]
pub extern "C" fn pcidr_first_usable_by_value(host: CValue, out: &mut CValue) -> u32
    ensures { IsUsableSought IsFirstHost host out.old out.new result }
{
    match ip_network_of(&host) {
        Some(network) => put_found_address(first_usable(&network), out),
        None => NO_VALUE,
    }
}

/// The last of the addresses that hosts may have of the network of a host: in IPv4 the last but one of the network, but of
/// a /31 and a /32 network the last one, as in IPv6.
#[unsafe(no_mangle)]
pub extern "C" fn pcidr_last_usable_by_value(host: CValue, out: &mut CValue) -> u32
    ensures { IsUsableSought IsLastHost host out.old out.new result }
{
    match ip_network_of(&host) {
        Some(network) => put_found_address(last_usable(&network), out),
        None => NO_VALUE,
    }
}

/// The first of the addresses that hosts may have.
fn first_usable(network: &IpCidr) -> Option<IpAddr>
    ensures { MatchOption result (usable_of (network_family network.now) (network_prefix network.now) ≡ [])
        (IsFirstHost (usable_of (network_family network.now) (network_prefix network.now))) }
{
    let mut hosts = network.usable_hosts();
    let host = hosts.next()?;
    Some(host.address())
}

/// The last of them.
fn last_usable(network: &IpCidr) -> Option<IpAddr>
    ensures { MatchOption result (usable_of (network_family network.now) (network_prefix network.now) ≡ [])
        (IsLastHost (usable_of (network_family network.now) (network_prefix network.now))) }
{
    let mut hosts = network.usable_hosts();
    let host = hosts.next_back()?;
    Some(host.address())
}

/// How many addresses hosts may have of the network of a host, or none where they are 2^64 or more.
#[unsafe(no_mangle)]
pub extern "C" fn pcidr_usable_count(host: &CValue, count: &mut usize) -> u32
    ensures { IsLengthSought (IsHostValue host.now) (2 ^ 64 ≤ length (usable_in host.now)) (λ n. n ≡ length (usable_in host.now))
        count.old count.new result }
{
    match ip_network_of(host) {
        Some(network) => put_plain(usable_count(&network), count),
        None => NO_VALUE,
    }
}

/// How many addresses hosts may have.
#[tactic(auto, using(std::proofs::lemmas::Bool::Decides::nat_tests))]
fn usable_count(network: &IpCidr) -> Option<usize>
    ensures { MatchOption result (2 ^ 64 ≤ length (usable_of (network_family network.now) (network_prefix network.now)))
        (λ n. n ≡ length (usable_of (network_family network.now) (network_prefix network.now))) }
{
    network.usable_hosts().count()
}

/// The longest network that contains both of two networks, which may be `any`.
#[unsafe(no_mangle)]
pub extern "C" fn pcidr_spanning(one: &CValue, other: &CValue, out: &mut CValue) -> u32
    ensures { IsSought (IsNetworkValue one.now × IsNetworkValue other.now) ⊥ IsNetworkValue network_in
        (λ span. IsSpanning (any_bits (network_in one.now)) (any_bits (network_in other.now)) (any_bits span))
        out.old out.new result }
{
    match (value_network(one), value_network(other)) {
        (Some(one), Some(other)) => {
            put_network(&one.spanning(&other), out);
            OK
        }
        _ => NO_VALUE,
    }
}

/// 1 where the networks of both hosts are the two halves of one, in either order, and 0 where not.
#[unsafe(no_mangle)]
pub extern "C" fn pcidr_is_sibling_of(one: &CValue, other: &CValue) -> u32
    ensures { IsYesOrNo result (IsHostValue one.now × IsHostValue other.now
        × ((family_in one.now ≡ family_in other.now) × AreSiblings (prefix_in one.now) (prefix_in other.now))) }
{
    match (ip_network_of(one), ip_network_of(other)) {
        (Some(one), Some(other)) => yes_or_no(one.is_sibling_of(&other)),
        _ => 0,
    }
}

/// 1 where both values are networks that have an address in common, and 0 where not.
#[unsafe(no_mangle)]
pub extern "C" fn pcidr_overlaps(one: &CValue, other: &CValue) -> u32
    ensures { IsYesOrNo result (IsNetworkValue one.now × IsNetworkValue other.now
        × (BeginsWith (any_bits (network_in one.now)) (any_bits (network_in other.now))
        ⊎ BeginsWith (any_bits (network_in other.now)) (any_bits (network_in one.now)))) }
{
    match (value_network(one), value_network(other)) {
        (Some(one), Some(other)) => yes_or_no(one.overlaps(&other)),
        _ => 0,
    }
}
