//! What holds of addresses and of their strings, each as the contract of a function that does nothing.
ghost use Rattle.std.specs.Prelude.{◌≡◌, ℕ, Bool, List, length};
ghost use Rattle.std.specs.Ordering.{nat_cmp};
ghost use Rattle.cidr.specs.model.Bits.{number, bit_cmp};
ghost use Rattle.cidr.specs.model.Network.{HasWidth, IsHashedApart};
ghost use Rattle.cidr.specs.texts.Ipv4Text.{IsIpv4Text};
ghost use Rattle.cidr.specs.texts.Ipv6Text.{IsIpv6Text};
ghost use Rattle.std.specs.declared.cmp.Ordering.TheVariants.{Less};
ghost use Rattle.cidr.specs.texts.Canonical.{IsCanonicalText};
ghost use Rattle.cidr.specs.texts.PrintedAddress.{ipv6_text};
ghost use Rattle.cidr.specs.either.IpAddress.{ip_address_bits, IsIpAddress, IsIpText, IsOrderOfBits, SpellsOne, TellsEqual, TiesEqual};
ghost use Rattle.cidr.specs.declared.family.Family.TheVariants.{Ipv4, Ipv6};

use crate::addr::ip::IpAddr;
use crate::addr::v4::Ipv4Addr;
use crate::addr::v6::Ipv6Addr;
use crate::family::Family;
use std::hash::Hash;

/// The order of bits is that of the numbers that they write.
pub fn order_is_by_number()
    ensures { (a b : List Bool) → length a ≡ length b → bit_cmp a b ≡ nat_cmp (number a) (number b) }
{}

/// The order of addresses of both families is that of their bits, with the family bit in front.
pub fn order_is_by_family_and_bits()
    ensures { IsOrderOfBits ip_address_bits ⟦<IpAddr as Ord>⟧.cmp }
{}

/// Addresses of one family are equal, and tie in their order, exactly where they are the same.
pub fn equal_addresses_of_one_family_are_the_same()
    ensures ipv4 { TellsEqual ⟦<Ipv4Addr as PartialEq>⟧.eq }
    ensures ipv6 { TellsEqual ⟦<Ipv6Addr as PartialEq>⟧.eq }
    ensures ipv4_cmp { TiesEqual ⟦<Ipv4Addr as Ord>⟧.cmp }
    ensures ipv6_cmp { TiesEqual ⟦<Ipv6Addr as Ord>⟧.cmp }
{}

/// Addresses of either family are equal, and tie in their order, exactly where they are the same.
pub fn equal_addresses_are_the_same()
    ensures eq { TellsEqual ⟦<IpAddr as PartialEq>⟧.eq }
    ensures cmp { TiesEqual ⟦<IpAddr as Ord>⟧.cmp }
{}

/// IPv4 comes before IPv6.
pub fn ipv4_comes_first()
    ensures { ⟦<Family as Ord>⟧.cmp Ipv4 Ipv6 ≡ Less }
{}

/// The printed string of an IPv6 address is its canonical form (RFC 5952), of which it has one.
pub fn printed_ipv6_text_is_canonical()
    ensures canonical { (a : List Bool) → length a ≡ 128 → IsCanonicalText (ipv6_text a) a }
    ensures only { (text : List ℕ) (a : List Bool) → IsCanonicalText text a → text ≡ ipv6_text a }
{}

/// Equal hash inputs come from equal addresses.
pub fn equal_hash_inputs_are_of_equal_addresses()
    ensures ipv4 { IsHashedApart (HasWidth 32) ⟦<Ipv4Addr as Hash>⟧.hash_input }
    ensures ipv6 { IsHashedApart (HasWidth 128) ⟦<Ipv6Addr as Hash>⟧.hash_input }
    ensures ip { IsHashedApart IsIpAddress ⟦<IpAddr as Hash>⟧.hash_input }
{}

/// A string is parsed as one IPv4 address at most.
pub fn ipv4_text_spells_one()
    ensures { SpellsOne IsIpv4Text }
{}

/// A string is parsed as one IPv6 address at most.
pub fn ipv6_text_spells_one()
    ensures { SpellsOne IsIpv6Text }
{}

/// A string is parsed as one address of either family at most: none is an IPv4 string and an IPv6 string.
pub fn ip_text_spells_one()
    ensures { SpellsOne IsIpText }
{}
