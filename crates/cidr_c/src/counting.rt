//! The addresses of a list of networks, those of one family: how many they are, and which has which index. The first error
//! is a value that is no network; no memory may come before it.
ghost use Rattle.std.specs.Prelude.{◌≡◌, ◌⊎◌, ◌+◌, ◌*◌, ◌^◌, map, IfSome, MatchOption, MatchResult, None, Some};
ghost use Rattle.std.specs.Option.{option_map};
ghost use Rattle.cidr.specs.either.IpAddress.{address_family, plain_bits};
ghost use Rattle.cidr.specs.either.IpNetwork.{any_bits};
ghost use Rattle.cidr.specs.model.Network.{width_of};
ghost use Rattle.cidr.specs.declared.family.Family.TheVariants.{Ipv4, Ipv6};
ghost use Rattle.cidr_sets.specs.model.Counts.{IsAtIndex};
ghost use Rattle.cidr_table.specs.model.Cover.{IsReduced};
ghost use Rattle.cidr_c.specs.calls.Batches.{AreNetworkValues, bits_in};
ghost use Rattle.cidr_c.specs.calls.Calls.{IsAnyValue, IsSoughtInMemory};
ghost use Rattle.cidr_c.specs.model.Addresses.{AreFamilyPart, HaveCountIn, IsApartFrom, IsAtIndexIn, IsFamilyPart};
ghost use Rattle.cidr_c.specs.model.Codes.{no_memory, no_value};
ghost use Rattle.cidr_c.specs.model.Tables.{ipv6_number};
ghost use Rattle.cidr_c.specs.model.Values.{IsAddressValue, address_in};

use crate::codes::{NO_MEMORY, NO_VALUE};
use crate::finding::{joined, put_found_address, put_number};
use crate::values::{CValue, value_network};
use cidr::{AnyIpCidr, BitString, FamilyCidr, IpAddr, IpCidr, Ipv4Cidr, Ipv6Cidr};
use cidr_lookup::Ipv6Halves;
use cidr_sets::NetworkSet;
use std::alloc::Global;

/// The part of a network whose addresses are of the family, if there is one: of `any` all of them.
fn part_of<C: FamilyCidr>(network: &AnyIpCidr) -> Option<C>
    ensures { MatchOption result (IsApartFrom C.FAMILY (any_bits network.now))
        (λ own. IsFamilyPart C.FAMILY (any_bits network.now) (C.bits own)) }
{
    match Option::<IpCidr>::from(*network) {
        Some(network) => C::from_ip(network),
        None => Some(C::null()),
    }
}

/// The set of the addresses of a family that some networks have, or the number of the error.
fn family_set<C: FamilyCidr>(alloc: Global, values: &[CValue]) -> Result<NetworkSet<C>, u32>
    ensures { MatchResult result
        (λ set. AreNetworkValues values.now × AreFamilyPart C.FAMILY (bits_in values.now) (map C.bits set))
        (λ code. ((code ≡ no_value) × ¬ (AreNetworkValues values.now)) ⊎ (code ≡ no_memory)) }
{
    let Ok(mut networks) = Vec::with_capacity(alloc, values.len()) else {
        return Err(NO_MEMORY);
    };
    for value in values {
        let Some(network) = value_network(value) else {
            return Err(NO_VALUE);
        };
        if let Some(part) = part_of::<C>(&network) {
            let Ok(()) = networks.push(part) else {
                return Err(NO_MEMORY);
            };
        }
    }
    Ok(NetworkSet::from_vec(networks))
}

/// How many addresses of a family some networks have.
fn counted<C: FamilyCidr>(alloc: Global, networks: &[CValue], count: &mut Ipv6Halves) -> u32
    ensures { IsSoughtInMemory (AreNetworkValues networks.now) (HaveCountIn C.FAMILY (bits_in networks.now) (2 ^ 128))
        IsAnyValue ipv6_number (HaveCountIn C.FAMILY (bits_in networks.now)) count.old count.new result }
{
    match family_set::<C>(alloc, networks) {
        Ok(set) => put_number(set.address_count(), count),
        Err(code) => code,
    }
}

/// The address at an index among those of a family that some networks have.
fn address_at<C: FamilyCidr>(
    alloc: Global,
    networks: &[CValue],
    high: u64,
    low: u64,
    out: &mut CValue,
) -> u32
    ensures { IsSoughtInMemory (AreNetworkValues networks.now)
        (IsAtIndexIn C.FAMILY (bits_in networks.now) (high * 2 ^ 64 + low) None) IsAddressValue address_in
        (λ a. (address_family a ≡ C.FAMILY)
        × IsAtIndexIn C.FAMILY (bits_in networks.now) (high * 2 ^ 64 + low) (Some (plain_bits a)))
        out.old out.new result }
{
    match family_set::<C>(alloc, networks) {
        Ok(set) => put_found_address(nth_of(&set, joined(high, low)), out),
        Err(code) => code,
    }
}

/// The address of a set at an index.
fn nth_of<C: FamilyCidr>(set: &NetworkSet<C>, index: u128) -> Option<IpAddr>
    ensures at { IsAtIndex (width_of C.FAMILY) (map C.bits set.now) index (option_map plain_bits result) }
    ensures family { IfSome result (λ a. address_family a ≡ C.FAMILY) }
{
    match set.nth(index) {
        Some(address) => Some(C::to_ip_address(address)),
        None => None,
    }
}

/// How many IPv4 addresses a list of networks has.
#[unsafe(no_mangle)]
pub extern "C" fn pcidr_count_ipv4(
    alloc: Global,
    networks: &[CValue],
    count: &mut Ipv6Halves,
) -> u32
    ensures { IsSoughtInMemory (AreNetworkValues networks.now) (HaveCountIn Ipv4 (bits_in networks.now) (2 ^ 128))
        IsAnyValue ipv6_number (HaveCountIn Ipv4 (bits_in networks.now)) count.old count.new result }
{
    counted::<Ipv4Cidr>(alloc, networks, count)
}

/// How many IPv6 addresses a list of networks has, or none where it has all, whose 2^128 two halves have no room for.
#[unsafe(no_mangle)]
pub extern "C" fn pcidr_count_ipv6(
    alloc: Global,
    networks: &[CValue],
    count: &mut Ipv6Halves,
) -> u32
    ensures { IsSoughtInMemory (AreNetworkValues networks.now) (HaveCountIn Ipv6 (bits_in networks.now) (2 ^ 128))
        IsAnyValue ipv6_number (HaveCountIn Ipv6 (bits_in networks.now)) count.old count.new result }
{
    counted::<Ipv6Cidr>(alloc, networks, count)
}

/// The IPv4 address at index high * 2^64 + low of those of a list of networks, counted from 0, ascending, or none where there
/// are no more than that.
#[unsafe(no_mangle)]
pub extern "C" fn pcidr_nth_ipv4(
    alloc: Global,
    networks: &[CValue],
    high: u64,
    low: u64,
    out: &mut CValue,
) -> u32
    ensures { IsSoughtInMemory (AreNetworkValues networks.now)
        (IsAtIndexIn Ipv4 (bits_in networks.now) (high * 2 ^ 64 + low) None) IsAddressValue address_in
        (λ a. (address_family a ≡ Ipv4)
        × IsAtIndexIn Ipv4 (bits_in networks.now) (high * 2 ^ 64 + low) (Some (plain_bits a)))
        out.old out.new result }
{
    address_at::<Ipv4Cidr>(alloc, networks, high, low, out)
}

/// The IPv6 address at index high * 2^64 + low of those of a list of networks, as `pcidr_nth_ipv4` has those of IPv4.
#[unsafe(no_mangle)]
pub extern "C" fn pcidr_nth_ipv6(
    alloc: Global,
    networks: &[CValue],
    high: u64,
    low: u64,
    out: &mut CValue,
) -> u32
    ensures { IsSoughtInMemory (AreNetworkValues networks.now)
        (IsAtIndexIn Ipv6 (bits_in networks.now) (high * 2 ^ 64 + low) None) IsAddressValue address_in
        (λ a. (address_family a ≡ Ipv6)
        × IsAtIndexIn Ipv6 (bits_in networks.now) (high * 2 ^ 64 + low) (Some (plain_bits a)))
        out.old out.new result }
{
    address_at::<Ipv6Cidr>(alloc, networks, high, low, out)
}
