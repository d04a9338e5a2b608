//! What holds of errors, each as the contract of a function that does nothing.
ghost use Rattle.std.specs.Prelude.{ℕ};
ghost use Rattle.cidr.specs.either.IpAddress.{TellsEqual};
ghost use Rattle.cidr.specs.bytes.CompactRefusal.{Only, Both, HasOneError, IsNetworkBytesRefused, IsHostBytesRefused, IsAnyBytesRefused};
ghost use Rattle.cidr.specs.bytes.Prefix.{IsPrefixRefused};
ghost use Rattle.cidr.specs.either.IpText.{IsIpRefused, IsIpHostRefused};
ghost use Rattle.cidr.specs.texts.HostText.{IsHostRefused};
ghost use Rattle.cidr.specs.texts.Messages.{ipv4_error, ipv6_error};
ghost use Rattle.cidr.specs.texts.Refusal.{IsRefused};
ghost use Rattle.cidr.specs.declared.family.Family.TheVariants.{Ipv4, Ipv6};

use crate::addr::error::AddrParseError;
use crate::errors::{
    CompactError, InetTupleError, NetworkLengthTooLongError, NetworkParseError, ParseIntError,
    PrefixBytesError,
};

/// Errors are equal exactly where their kind and their contents are the same.
pub fn equal_errors_are_the_same()
    ensures address { TellsEqual ⟦<AddrParseError as PartialEq>⟧.eq }
    ensures length_text { TellsEqual ⟦<ParseIntError as PartialEq>⟧.eq }
    ensures too_long { TellsEqual ⟦<NetworkLengthTooLongError as PartialEq>⟧.eq }
    ensures network { TellsEqual ⟦<NetworkParseError as PartialEq>⟧.eq }
    ensures pair { TellsEqual ⟦<InetTupleError as PartialEq>⟧.eq }
    ensures compact { TellsEqual ⟦<CompactError as PartialEq>⟧.eq }
    ensures prefix { TellsEqual ⟦<PrefixBytesError as PartialEq>⟧.eq }
{}

/// A string that is rejected as a network or as a host has one error, of each type.
pub fn refused_texts_have_one_error()
    ensures ipv4 { HasOneError (IsRefused Ipv4 ipv4_error) }
    ensures ipv6 { HasOneError (IsRefused Ipv6 ipv6_error) }
    ensures ip { HasOneError IsIpRefused }
    ensures ipv4_host { HasOneError (IsHostRefused Ipv4 ipv4_error) }
    ensures ipv6_host { HasOneError (IsHostRefused Ipv6 ipv6_error) }
    ensures ip_host { HasOneError IsIpHostRefused }
{}

/// Bytes that are not parsed as compact bytes have one error, of each type.
pub fn compact_bytes_have_one_error()
    ensures ipv4 { HasOneError (IsNetworkBytesRefused (Only Ipv4)) }
    ensures ipv6 { HasOneError (IsNetworkBytesRefused (Only Ipv6)) }
    ensures ip { HasOneError (IsNetworkBytesRefused Both) }
    ensures any { HasOneError IsAnyBytesRefused }
    ensures ipv4_host { HasOneError (IsHostBytesRefused (Only Ipv4)) }
    ensures ipv6_host { HasOneError (IsHostBytesRefused (Only Ipv6)) }
    ensures ip_host { HasOneError (IsHostBytesRefused Both) }
{}

/// Bytes that are not parsed as prefix bytes have one error, whatever the width.
pub fn prefix_bytes_have_one_error()
    ensures { (w : ℕ) → HasOneError (IsPrefixRefused w) }
{}
