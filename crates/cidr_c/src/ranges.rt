//! Ranges of addresses.
ghost use Rattle.std.specs.Prelude.{◌≡◌, All, map, IfOk};
ghost use Rattle.cidr.specs.either.IpAddress.{ip_address_bits};
ghost use Rattle.cidr.specs.either.IpNetwork.{any_bits};
ghost use Rattle.cidr_table.specs.model.Cover.{Covers};
ghost use Rattle.cidr_sets.specs.model.Ranges.{AreRanges, IsBetween};
ghost use Rattle.cidr_sets.specs.model.Sets.{IsSetOf};
ghost use Rattle.cidr_c.specs.calls.Batches.{AreNetworkValues, IsListInRoom, IsPutInRoom, bits_in};
ghost use Rattle.cidr_c.specs.model.Addresses.{IsRangeValue, range_in};
ghost use Rattle.cidr_c.specs.model.Values.{IsAddressValue, address_in};

use crate::codes::{NO_MEMORY, NO_VALUE};
use crate::finding::put_list;
use crate::sets::{deliver, set_of};
use crate::values::{CValue, address_of, put_address};
use cidr::{AnyIpCidr, IpAddr};
use cidr_sets::{AddressRange, NetworkSet};
use std::alloc::{AllocError, Global};

/// Addresses from a first to a last one, both included.
#[repr(C)]
#[derive(Clone, Copy)]
pub struct CRange {
    /// The first address.
    pub first: CValue,
    /// The last address.
    pub last: CValue,
}

/// The addresses from the first to the last, both included, as a set in a room, of which `count` becomes the number of
/// networks: none where the last comes before the first, and at most 62 in IPv4 and 254 in IPv6; where there is too little
/// room, it becomes how many are needed. IPv4 addresses come before those of IPv6.
#[unsafe(no_mangle)]
pub extern "C" fn pcidr_summarize(
    alloc: Global,
    first: &CValue,
    last: &CValue,
    out: &mut [CValue],
    count: &mut usize,
) -> u32
    ensures { IsPutInRoom (IsAddressValue first.now × IsAddressValue last.now)
        (IsSetOf 129 (IsBetween (ip_address_bits (address_in first.now)) (ip_address_bits (address_in last.now))))
        out.old out.new count.old count.new result }
{
    match (address_of(first), address_of(last)) {
        (Some(first), Some(last)) => {
            deliver(
                NetworkSet::<AnyIpCidr>::from_range(alloc, first, last),
                out,
                count,
            )
        }
        _ => NO_VALUE,
    }
}

/// The longest ranges of the addresses of a list of networks, ascending, in a room, of which `count` becomes the number: between
/// one and the next is an address that is in no network. A range can go from 255.255.255.255 on to ::, which comes next. Where
/// there is too little room, `count` becomes how many are needed.
#[unsafe(no_mangle)]
pub extern "C" fn pcidr_ranges(
    alloc: Global,
    networks: &[CValue],
    out: &mut [CRange],
    count: &mut usize,
) -> u32
    ensures { IsListInRoom (AreNetworkValues networks.now) IsRangeValue range_in (AreRanges 129 (Covers (bits_in networks.now)))
        out.old out.new count.old count.new result }
{
    let set = match set_of(alloc, networks) {
        Ok(set) => set,
        Err(code) => return code,
    };
    match ranges_of(alloc, &set) {
        Ok(ranges) => put_list(ranges.as_slice(), out, count),
        Err(_) => NO_MEMORY,
    }
}

/// The longest ranges of a set.
fn ranges_of(alloc: Global, set: &NetworkSet<AnyIpCidr>) -> Result<Vec<CRange>, AllocError>
    ensures { IfOk result (λ ranges. All IsRangeValue ranges.items
        × AreRanges 129 (Covers (map any_bits set.now)) (map range_in ranges.items)) }
{
    let mut ranges = Vec::new(alloc);
    for range in set.ranges() {
        ranges.push(range_of(&range))?;
    }
    Ok(ranges)
}

/// A range as C has it.
fn range_of(range: &AddressRange<IpAddr>) -> CRange
    ensures is_range { IsRangeValue result }
    ensures ends { range_in result ≡ (ip_address_bits range.now.first, ip_address_bits range.now.last) }
{
    CRange {
        first: address_value(&range.first),
        last: address_value(&range.last),
    }
}

/// An address as C has it.
fn address_value(address: &IpAddr) -> CValue
    ensures is_address { IsAddressValue result }
    ensures address { address_in result ≡ address.now }
{
    let mut value = CValue {
        high: 0,
        low: 0,
        tag: 0,
        zero_17: 0,
        zero_18: 0,
        zero_20: 0,
    };
    put_address(address, &mut value);
    value
}
