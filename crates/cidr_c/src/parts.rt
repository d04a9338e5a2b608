//! Parts of values, and answers about them.
ghost use Rattle.std.specs.Prelude.{◌≡◌, ◌+◌, ◌*◌, ◌^◌, ◌↔◌};
ghost use Rattle.cidr.specs.model.Bits.{bit_cmp};
ghost use Rattle.cidr.specs.model.Network.{BeginsWith, first_of, last_of, mask_of};
ghost use Rattle.cidr.specs.model.Host.{first_host};
ghost use Rattle.cidr.specs.either.IpHost.{IpWrapsDown, IpWrapsUp, host_address, host_at, host_network, ip_stepped_down, ip_stepped_up};
ghost use Rattle.cidr.specs.either.IpNetwork.{address_by, any_bits, any_of};
ghost use Rattle.cidr_c.specs.calls.Calls.{IsYesOrNo, IsConverted, IsStepped};
ghost use Rattle.cidr_c.specs.model.Orders.{IsCompared, field_order, host_value_order, network_order};
ghost use Rattle.cidr_c.specs.model.Codes.{order_code};
ghost use Rattle.cidr_c.specs.model.Values.{IsAddressValue, IsHostValue, IsNetworkValue, address_in, host_in, host_order, network_in};

use crate::codes::{NO_VALUE, OK, WRAPPED, order_code};
use crate::finding::joined;
use crate::values::{
    CValue, host_of, ipv4_network, ipv6_network, is_ipv4, is_ipv6, put_address, put_host,
    put_network, value_network,
};
use cidr::laws::hosts::order_is_by_family_address_and_length;
use cidr::{AnyIpCidr, BitString, IpInet, NetworkBits};
use cidr_sets::is_inside;
use std::cmp::Ordering;

/// The first address of the network of a host.
#[unsafe(no_mangle)]
pub extern "C" fn pcidr_first_by_value(host: CValue, out: &mut CValue) -> u32
    ensures { IsConverted (IsHostValue host) IsAddressValue address_in
        (address_by first_of (host_network (host_in host))) out.old out.new result }
{
    let Some(host) = host_of(&host) else {
        return NO_VALUE;
    };
    put_address(&host.first_address(), out);
    OK
}

/// The last address of the network of a host.
#[unsafe(no_mangle)]
pub extern "C" fn pcidr_last_by_value(host: CValue, out: &mut CValue) -> u32
    ensures { IsConverted (IsHostValue host) IsAddressValue address_in
        (address_by last_of (host_network (host_in host))) out.old out.new result }
{
    let Some(host) = host_of(&host) else {
        return NO_VALUE;
    };
    put_address(&host.last_address(), out);
    OK
}

/// The mask of the network of a host, as an address.
#[unsafe(no_mangle)]
pub extern "C" fn pcidr_mask_by_value(host: CValue, out: &mut CValue) -> u32
    ensures { IsConverted (IsHostValue host) IsAddressValue address_in
        (address_by mask_of (host_network (host_in host))) out.old out.new result }
{
    let Some(host) = host_of(&host) else {
        return NO_VALUE;
    };
    put_address(&host.mask(), out);
    OK
}

/// The address of a host.
#[unsafe(no_mangle)]
pub extern "C" fn pcidr_address_by_value(host: CValue, out: &mut CValue) -> u32
    ensures { IsConverted (IsHostValue host) IsAddressValue address_in (host_address (host_in host))
        out.old out.new result }
{
    let Some(host) = host_of(&host) else {
        return NO_VALUE;
    };
    put_address(&host.address(), out);
    OK
}

/// The network of a host.
#[unsafe(no_mangle)]
pub extern "C" fn pcidr_network_by_value(host: CValue, out: &mut CValue) -> u32
    ensures { IsConverted (IsHostValue host) IsNetworkValue network_in (any_of (host_network (host_in host)))
        out.old out.new result }
{
    let Some(host) = host_of(&host) else {
        return NO_VALUE;
    };
    put_network(&AnyIpCidr::from(host.network()), out);
    OK
}

/// 1 where the value is a network, as each address is, and 0 where not.
#[unsafe(no_mangle)]
pub extern "C" fn pcidr_check(value: &CValue) -> u32
    ensures { IsYesOrNo result (IsNetworkValue value.now) }
{
    match value_network(value) {
        Some(_) => 1,
        None => 0,
    }
}

/// 1 where both values are networks and every address of the second is in the first, and 0 where not. An address is the
/// network of itself.
#[tactic(auto, using(crate::proofs::Networks::contained))]
#[unsafe(no_mangle)]
pub extern "C" fn pcidr_contains(outer: &CValue, inner: &CValue) -> u32
    ensures { IsYesOrNo result (IsNetworkValue outer.now × IsNetworkValue inner.now
        × BeginsWith (any_bits (network_in inner.now)) (any_bits (network_in outer.now))) }
{
    if is_ipv4(outer) && is_ipv4(inner) {
        if let (Some(outer), Some(inner)) = (ipv4_network(outer), ipv4_network(inner)) {
            return contains(&outer, &inner);
        }
    }
    if is_ipv6(outer) && is_ipv6(inner) {
        if let (Some(outer), Some(inner)) = (ipv6_network(outer), ipv6_network(inner)) {
            return contains(&outer, &inner);
        }
    }
    match (value_network(outer), value_network(inner)) {
        (Some(outer), Some(inner)) => contains(&outer, &inner),
        _ => 0,
    }
}

/// 1 where the first network contains the second, and 0 where not, by their bits.
#[inline(always)]
fn contains<C: BitString>(outer: &C, inner: &C) -> u32
    ensures { IsYesOrNo result (BeginsWith (C.bits inner.now) (C.bits outer.now)) }
{
    u32::from(is_inside(inner, outer))
}

/// How two networks compare, by their bits.
#[inline(always)]
fn compared<C: NetworkBits>(one: &C, other: &C) -> u32
    ensures { result ≡ order_code (bit_cmp (C.bits one.now) (C.bits other.now)) }
{
    order_code(one.cmp(other))
}

/// How two values compare by their fields: by tag, then by the number.
fn compared_fields(one: &CValue, other: &CValue) -> u32
    ensures { result ≡ order_code (field_order one.now other.now) }
{
    let by_number = one.high.cmp(&other.high).then(one.low.cmp(&other.low));
    order_code(one.tag.cmp(&other.tag).then(by_number))
}

/// 0, 1 or 2: the first value comes before the second, is the same, or comes after it. Of networks IPv4 comes before
/// IPv6, and `any` before both; in a family the lower first address comes first, and then the shorter prefix. What is
/// no network comes after all networks, in the order of its fields.
#[tactic(auto, using(crate::proofs::Orders::network_comparisons))]
#[unsafe(no_mangle)]
pub extern "C" fn pcidr_compare(one: &CValue, other: &CValue) -> u32
    ensures { IsCompared IsNetworkValue network_order one.now other.now result }
{
    if is_ipv4(one) && is_ipv4(other) {
        if let (Some(one), Some(other)) = (ipv4_network(one), ipv4_network(other)) {
            return compared(&one, &other);
        }
    }
    if is_ipv6(one) && is_ipv6(other) {
        if let (Some(one), Some(other)) = (ipv6_network(one), ipv6_network(other)) {
            return compared(&one, &other);
        }
    }
    match (value_network(one), value_network(other)) {
        (Some(one), Some(other)) => compared(&one, &other),
        (Some(_), None) => order_code(Ordering::Less),
        (None, Some(_)) => order_code(Ordering::Greater),
        (None, None) => compared_fields(one, other),
    }
}

/// How two hosts compare, by their addresses and then by their prefix lengths.
fn compared_hosts(one: &IpInet, other: &IpInet) -> u32
    ensures { result ≡ order_code (host_order one.now other.now) }
{
    order_is_by_family_address_and_length();
    order_code(one.cmp(other))
}

/// 0, 1 or 2: the first value comes before the second, is the same, or comes after it. Of hosts IPv4 comes before IPv6;
/// in a family the lower address comes first, and then the shorter prefix. What is no host comes after all hosts, in
/// the order of its fields.
#[tactic(auto, using(crate::proofs::Orders::comparisons))]
#[unsafe(no_mangle)]
pub extern "C" fn pcidr_compare_hosts(one: &CValue, other: &CValue) -> u32
    ensures { IsCompared IsHostValue host_value_order one.now other.now result }
{
    match (host_of(one), host_of(other)) {
        (Some(one), Some(other)) => compared_hosts(&one, &other),
        (Some(_), None) => order_code(Ordering::Less),
        (None, Some(_)) => order_code(Ordering::Greater),
        (None, None) => compared_fields(one, other),
    }
}

/// The host so many addresses further in its network, of which the count is high * 2^64 + low. Where that is beyond the
/// last address, it goes on from the first, and the number of `WRAPPED` is returned.
#[unsafe(no_mangle)]
pub extern "C" fn pcidr_step_up_by_value(host: CValue, high: u64, low: u64, out: &mut CValue) -> u32
    ensures { IsStepped (IsHostValue host) (IpWrapsUp (host_in host) (high * 2 ^ 64 + low)) IsHostValue host_in
        (ip_stepped_up (host_in host) (high * 2 ^ 64 + low)) out.old out.new result }
{
    let Some(host) = host_of(&host) else {
        return NO_VALUE;
    };
    let (host, wraps) = host.overflowing_add(joined(high, low));
    put_host(&host, out);
    if wraps { WRAPPED } else { OK }
}

/// The host so many addresses back in its network, as `pcidr_step_up_by_value` goes further.
#[unsafe(no_mangle)]
pub extern "C" fn pcidr_step_down_by_value(
    host: CValue,
    high: u64,
    low: u64,
    out: &mut CValue,
) -> u32
    ensures { IsStepped (IsHostValue host) (IpWrapsDown (host_in host) (high * 2 ^ 64 + low)) IsHostValue host_in
        (ip_stepped_down (host_in host) (high * 2 ^ 64 + low)) out.old out.new result }
{
    let Some(host) = host_of(&host) else {
        return NO_VALUE;
    };
    let (host, wraps) = host.overflowing_sub(joined(high, low));
    put_host(&host, out);
    if wraps { WRAPPED } else { OK }
}

/// The host at a position of the network of a host, counted from 0 at the first address, of which the number is high *
/// 2^64 + low: a walk by position. Beyond the last address it goes on as a step does.
#[unsafe(no_mangle)]
pub extern "C" fn pcidr_at_by_value(host: CValue, high: u64, low: u64, out: &mut CValue) -> u32
    ensures { IsStepped (IsHostValue host)
        (IpWrapsUp (host_at first_host (host_network (host_in host))) (high * 2 ^ 64 + low)) IsHostValue host_in
        (ip_stepped_up (host_at first_host (host_network (host_in host))) (high * 2 ^ 64 + low))
        out.old out.new result }
{
    let Some(host) = host_of(&host) else {
        return NO_VALUE;
    };
    let (host, wraps) = host.first().overflowing_add(joined(high, low));
    put_host(&host, out);
    if wraps { WRAPPED } else { OK }
}
