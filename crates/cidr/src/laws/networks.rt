//! What holds of networks and of their strings, each as the contract of a function that does nothing.
ghost use Rattle.std.specs.Prelude.{Bool, List};
ghost use Rattle.cidr.specs.model.Network.{BeginsWith, FitsWidth, AreApart, IsConsecutive, IsHashedApart};
ghost use Rattle.cidr.specs.either.IpNetwork.{network_bits, any_bits, IsIpNetwork, IsAnyNetwork};
ghost use Rattle.cidr.specs.either.IpText.{IsIpNetworkText, IsAnyNetworkText};
ghost use Rattle.cidr.specs.either.IpAddress.{IsOrderOfBits, SpellsOne, TellsEqual, TiesEqual};
ghost use Rattle.cidr.specs.texts.NetworkText.{IsNetworkText};
ghost use Rattle.cidr.specs.declared.family.Family.TheVariants.{Ipv4, Ipv6};

use crate::cidr::any::AnyIpCidr;
use crate::cidr::combined::IpCidr;
use crate::cidr::network::{Ipv4Cidr, Ipv6Cidr};
use std::hash::Hash;

/// The order of networks of both families is the lexicographic order of their bits, with the family bit in front.
pub fn order_is_by_family_and_bits()
    ensures { IsOrderOfBits network_bits ⟦<IpCidr as Ord>⟧.cmp }
{}

/// The order of `AnyIpCidr` is that of bits with the family bit in front too: `Any` has no bits and so comes first.
pub fn order_begins_with_any()
    ensures { IsOrderOfBits any_bits ⟦<AnyIpCidr as Ord>⟧.cmp }
{}

/// Networks of one family are equal, and tie in their order, exactly where they are the same.
pub fn equal_networks_of_one_family_are_the_same()
    ensures ipv4 { TellsEqual ⟦<Ipv4Cidr as PartialEq>⟧.eq }
    ensures ipv6 { TellsEqual ⟦<Ipv6Cidr as PartialEq>⟧.eq }
    ensures ipv4_cmp { TiesEqual ⟦<Ipv4Cidr as Ord>⟧.cmp }
    ensures ipv6_cmp { TiesEqual ⟦<Ipv6Cidr as Ord>⟧.cmp }
{}

/// Networks of either family are equal, and tie in their order, exactly where they are the same.
pub fn equal_networks_are_the_same()
    ensures eq { TellsEqual ⟦<IpCidr as PartialEq>⟧.eq }
    ensures cmp { TiesEqual ⟦<IpCidr as Ord>⟧.cmp }
{}

/// Values of `AnyIpCidr` are equal, and tie in their order, exactly where they are the same.
pub fn equal_networks_or_any_are_the_same()
    ensures eq { TellsEqual ⟦<AnyIpCidr as PartialEq>⟧.eq }
    ensures cmp { TiesEqual ⟦<AnyIpCidr as Ord>⟧.cmp }
{}

/// Equal hash inputs come from equal networks.
pub fn equal_hash_inputs_are_of_equal_networks()
    ensures ipv4 { IsHashedApart (FitsWidth 32) ⟦<Ipv4Cidr as Hash>⟧.hash_input }
    ensures ipv6 { IsHashedApart (FitsWidth 128) ⟦<Ipv6Cidr as Hash>⟧.hash_input }
    ensures ip { IsHashedApart IsIpNetwork ⟦<IpCidr as Hash>⟧.hash_input }
    ensures any { IsHashedApart IsAnyNetwork ⟦<AnyIpCidr as Hash>⟧.hash_input }
{}

/// A string is parsed as one network at most.
pub fn network_text_spells_one()
    ensures ipv4 { SpellsOne (IsNetworkText Ipv4) }
    ensures ipv6 { SpellsOne (IsNetworkText Ipv6) }
    ensures ip { SpellsOne IsIpNetworkText }
    ensures any { SpellsOne IsAnyNetworkText }
{}

/// Two networks of which neither contains the other have no address in common.
pub fn networks_are_nested_or_apart()
    ensures { (p q : List Bool) → ¬ (BeginsWith q p) → ¬ (BeginsWith p q) → AreApart p q }
{}

/// The networks inside a network come after it in their order, one after the other: it contains each that lies
/// between itself and one that it contains.
pub fn networks_inside_are_consecutive()
    ensures { (p q : List Bool) → BeginsWith q p → IsConsecutive p q }
{}
