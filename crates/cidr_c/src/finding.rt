//! What the calls of the libraries find, where C has room for it.
ghost use Rattle.std.specs.Prelude.{◌≡◌, ◌*◌, ◌+◌, ◌^◌, IsTrue};
ghost use Rattle.cidr_c.specs.calls.Batches.{IsListPut};
ghost use Rattle.cidr_c.specs.calls.Calls.{IsAnyValue, IsFoundOrNone, IsYesOrNo};
ghost use Rattle.cidr_c.specs.model.Networks.{AreIpNetworkValues, ip_networks_in};
ghost use Rattle.cidr_c.specs.model.Tables.{ipv6_number};
ghost use Rattle.cidr_c.specs.model.Values.{IsAddressValue, IsIpNetworkValue, IsNetworkValue, address_in, ip_network_in, network_in};

use crate::codes::{NO_ROOM, NONE, OK};
use crate::values::{CValue, put_address, put_ip_network, put_network};
use cidr::{AnyIpCidr, IpAddr, IpCidr};
use cidr_lookup::Ipv6Halves;

/// Makes the value the network, if there is one.
#[inline(always)]
pub fn put_found_network(found: Option<IpCidr>, out: &mut CValue) -> u32
    ensures { IsFoundOrNone IsIpNetworkValue ip_network_in found out.old out.new result }
{
    let Some(network) = found else {
        return NONE;
    };
    put_ip_network(&network, out);
    OK
}

/// Makes two values the two networks, if there are any.
pub fn put_found_networks(
    found: Option<(IpCidr, IpCidr)>,
    first: &mut CValue,
    second: &mut CValue,
) -> u32
    ensures { IsFoundOrNone AreIpNetworkValues ip_networks_in found (first.old, second.old) (first.new, second.new) result }
{
    let Some((one, other)) = found else {
        return NONE;
    };
    put_ip_network(&one, first);
    put_ip_network(&other, second);
    OK
}

/// Makes the value the network, which may be `any`, if there is one.
#[inline(always)]
pub fn put_any_found(found: Option<AnyIpCidr>, out: &mut CValue) -> u32
    ensures { IsFoundOrNone IsNetworkValue network_in found out.old out.new result }
{
    let Some(network) = found else {
        return NONE;
    };
    put_network(&network, out);
    OK
}

/// Makes the value the address, if there is one.
#[inline(always)]
pub fn put_found_address(found: Option<IpAddr>, out: &mut CValue) -> u32
    ensures { IsFoundOrNone IsAddressValue address_in found out.old out.new result }
{
    let Some(address) = found else {
        return NONE;
    };
    put_address(&address, out);
    OK
}

/// Makes two halves the number, if there is one.
pub fn put_number(found: Option<u128>, out: &mut Ipv6Halves) -> u32
    ensures { IsFoundOrNone IsAnyValue ipv6_number found out.old out.new result }
{
    let Some(number) = found else {
        return NONE;
    };
    *out = Ipv6Halves {
        high: (number / (1 << 64)) as u64,
        low: (number % (1 << 64)) as u64,
    };
    OK
}

/// Makes a plain number the one that was found, if there is one.
pub fn put_plain<T: Copy>(found: Option<T>, out: &mut T) -> u32
    ensures { IsFoundOrNone IsAnyValue (λ n. n) found out.old out.new result }
{
    let Some(number) = found else {
        return NONE;
    };
    *out = number;
    OK
}

/// Puts a list to the front of a room, or says how long it is.
pub fn put_list<T: Copy>(list: &[T], out: &mut [T], count: &mut usize) -> u32
    ensures { IsListPut list.now out.old out.new count.new result }
{
    *count = list.len();
    if out.len() < list.len() {
        return NO_ROOM;
    }
    out[..list.len()].copy_from_slice(list);
    OK
}

/// The number of two halves.
#[inline(always)]
pub fn joined(high: u64, low: u64) -> u128
    ensures { result ≡ high * 2 ^ 64 + low }
{
    u128::from(high) * (1 << 64) + u128::from(low)
}

/// 1 for yes and 0 for no.
#[inline(always)]
pub fn yes_or_no(answer: bool) -> u32
    ensures { IsYesOrNo result (IsTrue answer) }
{
    u32::from(answer)
}
