//! What holds of hosts and of their strings, each as the contract of a function that does nothing.
ghost use Rattle.cidr.specs.model.Network.{IsHashedApart};
ghost use Rattle.cidr.specs.model.Host.{IsHost};
ghost use Rattle.cidr.specs.model.Pair.{IsPair};
ghost use Rattle.cidr.specs.either.IpHost.{IsIpHost, IsOrderOfHosts};
ghost use Rattle.cidr.specs.either.IpPair.{IsIpPair};
ghost use Rattle.cidr.specs.either.IpText.{IsIpHostText};
ghost use Rattle.cidr.specs.texts.HostText.{IsHostText};
ghost use Rattle.cidr.specs.either.IpAddress.{SpellsOne, TellsEqual, TiesEqual};
ghost use Rattle.cidr.specs.declared.family.Family.TheVariants.{Ipv4, Ipv6};

use crate::inet::combined::IpInet;
use crate::inet::host::{Ipv4Inet, Ipv6Inet};
use crate::inet_pair::combined::IpInetPair;
use crate::inet_pair::host_pair::{Ipv4InetPair, Ipv6InetPair};
use std::hash::Hash;

/// The order of hosts of both families is by family, then by address, then by length.
pub fn order_is_by_family_address_and_length()
    ensures { IsOrderOfHosts ⟦<IpInet as Ord>⟧.cmp }
{}

/// Hosts of one family are equal, and tie in their order, exactly where they are the same.
pub fn equal_hosts_of_one_family_are_the_same()
    ensures ipv4 { TellsEqual ⟦<Ipv4Inet as PartialEq>⟧.eq }
    ensures ipv6 { TellsEqual ⟦<Ipv6Inet as PartialEq>⟧.eq }
    ensures ipv4_cmp { TiesEqual ⟦<Ipv4Inet as Ord>⟧.cmp }
    ensures ipv6_cmp { TiesEqual ⟦<Ipv6Inet as Ord>⟧.cmp }
{}

/// Hosts of either family are equal, and tie in their order, exactly where they are the same.
pub fn equal_hosts_are_the_same()
    ensures eq { TellsEqual ⟦<IpInet as PartialEq>⟧.eq }
    ensures cmp { TiesEqual ⟦<IpInet as Ord>⟧.cmp }
{}

/// Pairs of one family are equal exactly where they are the same.
pub fn equal_pairs_of_one_family_are_the_same()
    ensures ipv4 { TellsEqual ⟦<Ipv4InetPair as PartialEq>⟧.eq }
    ensures ipv6 { TellsEqual ⟦<Ipv6InetPair as PartialEq>⟧.eq }
{}

/// Pairs of either family are equal exactly where they are the same.
pub fn equal_pairs_are_the_same()
    ensures { TellsEqual ⟦<IpInetPair as PartialEq>⟧.eq }
{}

/// Equal hash inputs come from equal hosts.
pub fn equal_hash_inputs_are_of_equal_hosts()
    ensures ipv4 { IsHashedApart (IsHost 32) ⟦<Ipv4Inet as Hash>⟧.hash_input }
    ensures ipv6 { IsHashedApart (IsHost 128) ⟦<Ipv6Inet as Hash>⟧.hash_input }
    ensures ip { IsHashedApart IsIpHost ⟦<IpInet as Hash>⟧.hash_input }
{}

/// Equal hash inputs come from equal pairs.
pub fn equal_hash_inputs_are_of_equal_pairs()
    ensures ipv4 { IsHashedApart (IsPair 32) ⟦<Ipv4InetPair as Hash>⟧.hash_input }
    ensures ipv6 { IsHashedApart (IsPair 128) ⟦<Ipv6InetPair as Hash>⟧.hash_input }
    ensures ip { IsHashedApart IsIpPair ⟦<IpInetPair as Hash>⟧.hash_input }
{}

/// A string is parsed as one host at most.
pub fn host_text_spells_one()
    ensures ipv4 { SpellsOne (IsHostText Ipv4) }
    ensures ipv6 { SpellsOne (IsHostText Ipv6) }
    ensures ip { SpellsOne IsIpHostText }
{}
