//! That a clone is the value that it was cloned from and never fails, each as the contract of a function that does
//! nothing.
ghost use Rattle.cidr.specs.either.IpAddress.{ClonesSame, ClonesAlways};

use crate::addr::error::AddrParseError;
use crate::addr::ip::IpAddr;
use crate::addr::v4::Ipv4Addr;
use crate::addr::v6::Ipv6Addr;
use crate::cidr::any::AnyIpCidr;
use crate::cidr::combined::IpCidr;
use crate::cidr::network::{Ipv4Cidr, Ipv6Cidr};
use crate::errors::{
    CompactError, InetTupleError, NetworkLengthTooLongError, NetworkParseError, ParseIntError,
    PrefixBytesError,
};
use crate::family::Family;
use crate::inet::combined::IpInet;
use crate::inet::host::{Ipv4Inet, Ipv6Inet};
use crate::inet_iterator::driving::End;
use crate::inet_iterator::{InetAddressIterator, InetIterator};
use crate::inet_pair::combined::IpInetPair;
use crate::inet_pair::host_pair::{Ipv4InetPair, Ipv6InetPair};
use crate::num::NumberOfAddresses;
use crate::text::with_length::WithLength;

/// A clone of an address, and of a family, is the same.
pub fn address_clones_are_the_same()
    ensures ipv4 { ClonesSame ⟦<Ipv4Addr as Clone>⟧.is_clone }
    ensures ipv6 { ClonesSame ⟦<Ipv6Addr as Clone>⟧.is_clone }
    ensures ip { ClonesSame ⟦<IpAddr as Clone>⟧.is_clone }
    ensures family { ClonesSame ⟦<Family as Clone>⟧.is_clone }
{}

/// A clone of a network, a host or a pair is that value.
pub fn network_clones_are_the_same()
    ensures ipv4 { ClonesSame ⟦<Ipv4Cidr as Clone>⟧.is_clone }
    ensures ipv6 { ClonesSame ⟦<Ipv6Cidr as Clone>⟧.is_clone }
    ensures network { ClonesSame ⟦<IpCidr as Clone>⟧.is_clone }
    ensures any { ClonesSame ⟦<AnyIpCidr as Clone>⟧.is_clone }
    ensures ipv4_host { ClonesSame ⟦<Ipv4Inet as Clone>⟧.is_clone }
    ensures ipv6_host { ClonesSame ⟦<Ipv6Inet as Clone>⟧.is_clone }
    ensures host { ClonesSame ⟦<IpInet as Clone>⟧.is_clone }
    ensures ipv4_pair { ClonesSame ⟦<Ipv4InetPair as Clone>⟧.is_clone }
    ensures ipv6_pair { ClonesSame ⟦<Ipv6InetPair as Clone>⟧.is_clone }
    ensures pair { ClonesSame ⟦<IpInetPair as Clone>⟧.is_clone }
{}

/// A clone of a walk has the same items left; one of an end or of a number of addresses is the same.
pub fn walk_clones_are_the_same()
    ensures ipv4 { ClonesSame ⟦<InetIterator<Ipv4Addr> as Clone>⟧.is_clone }
    ensures ipv6 { ClonesSame ⟦<InetIterator<Ipv6Addr> as Clone>⟧.is_clone }
    ensures ip { ClonesSame ⟦<InetIterator<IpAddr> as Clone>⟧.is_clone }
    ensures ipv4_addresses { ClonesSame ⟦<InetAddressIterator<Ipv4Addr> as Clone>⟧.is_clone }
    ensures ipv6_addresses { ClonesSame ⟦<InetAddressIterator<Ipv6Addr> as Clone>⟧.is_clone }
    ensures ip_addresses { ClonesSame ⟦<InetAddressIterator<IpAddr> as Clone>⟧.is_clone }
    ensures end { ClonesSame ⟦<End as Clone>⟧.is_clone }
    ensures number { ClonesSame ⟦<NumberOfAddresses as Clone>⟧.is_clone }
{}

/// A clone of a value that is printed with its prefix length is that value.
pub fn with_length_clones_are_the_same()
    ensures ipv4 { ClonesSame ⟦<WithLength<Ipv4Cidr> as Clone>⟧.is_clone }
    ensures ipv6 { ClonesSame ⟦<WithLength<Ipv6Cidr> as Clone>⟧.is_clone }
    ensures network { ClonesSame ⟦<WithLength<IpCidr> as Clone>⟧.is_clone }
    ensures any { ClonesSame ⟦<WithLength<AnyIpCidr> as Clone>⟧.is_clone }
    ensures ipv4_host { ClonesSame ⟦<WithLength<Ipv4Inet> as Clone>⟧.is_clone }
    ensures ipv6_host { ClonesSame ⟦<WithLength<Ipv6Inet> as Clone>⟧.is_clone }
    ensures host { ClonesSame ⟦<WithLength<IpInet> as Clone>⟧.is_clone }
    ensures ipv4_pair { ClonesSame ⟦<WithLength<Ipv4InetPair> as Clone>⟧.is_clone }
    ensures ipv6_pair { ClonesSame ⟦<WithLength<Ipv6InetPair> as Clone>⟧.is_clone }
    ensures pair { ClonesSame ⟦<WithLength<IpInetPair> as Clone>⟧.is_clone }
{}

/// A clone of an error is that error.
pub fn error_clones_are_the_same()
    ensures address { ClonesSame ⟦<AddrParseError as Clone>⟧.is_clone }
    ensures length_text { ClonesSame ⟦<ParseIntError as Clone>⟧.is_clone }
    ensures too_long { ClonesSame ⟦<NetworkLengthTooLongError as Clone>⟧.is_clone }
    ensures network { ClonesSame ⟦<NetworkParseError as Clone>⟧.is_clone }
    ensures pair { ClonesSame ⟦<InetTupleError as Clone>⟧.is_clone }
    ensures compact { ClonesSame ⟦<CompactError as Clone>⟧.is_clone }
    ensures prefix { ClonesSame ⟦<PrefixBytesError as Clone>⟧.is_clone }
{}

/// A clone of an address or of a family never fails.
pub fn address_clones_never_fail()
    ensures ipv4 { ClonesAlways ⟦<Ipv4Addr as Clone>⟧.is_infallible }
    ensures ipv6 { ClonesAlways ⟦<Ipv6Addr as Clone>⟧.is_infallible }
    ensures ip { ClonesAlways ⟦<IpAddr as Clone>⟧.is_infallible }
    ensures family { ClonesAlways ⟦<Family as Clone>⟧.is_infallible }
{}

/// A clone of a network, a host or a pair never fails.
pub fn network_clones_never_fail()
    ensures ipv4 { ClonesAlways ⟦<Ipv4Cidr as Clone>⟧.is_infallible }
    ensures ipv6 { ClonesAlways ⟦<Ipv6Cidr as Clone>⟧.is_infallible }
    ensures network { ClonesAlways ⟦<IpCidr as Clone>⟧.is_infallible }
    ensures any { ClonesAlways ⟦<AnyIpCidr as Clone>⟧.is_infallible }
    ensures ipv4_host { ClonesAlways ⟦<Ipv4Inet as Clone>⟧.is_infallible }
    ensures ipv6_host { ClonesAlways ⟦<Ipv6Inet as Clone>⟧.is_infallible }
    ensures host { ClonesAlways ⟦<IpInet as Clone>⟧.is_infallible }
    ensures ipv4_pair { ClonesAlways ⟦<Ipv4InetPair as Clone>⟧.is_infallible }
    ensures ipv6_pair { ClonesAlways ⟦<Ipv6InetPair as Clone>⟧.is_infallible }
    ensures pair { ClonesAlways ⟦<IpInetPair as Clone>⟧.is_infallible }
{}

/// A clone of a walk, an end or a number of addresses never fails.
pub fn walk_clones_never_fail()
    ensures ipv4 { ClonesAlways ⟦<InetIterator<Ipv4Addr> as Clone>⟧.is_infallible }
    ensures ipv6 { ClonesAlways ⟦<InetIterator<Ipv6Addr> as Clone>⟧.is_infallible }
    ensures ip { ClonesAlways ⟦<InetIterator<IpAddr> as Clone>⟧.is_infallible }
    ensures ipv4_addresses { ClonesAlways ⟦<InetAddressIterator<Ipv4Addr> as Clone>⟧.is_infallible }
    ensures ipv6_addresses { ClonesAlways ⟦<InetAddressIterator<Ipv6Addr> as Clone>⟧.is_infallible }
    ensures ip_addresses { ClonesAlways ⟦<InetAddressIterator<IpAddr> as Clone>⟧.is_infallible }
    ensures end { ClonesAlways ⟦<End as Clone>⟧.is_infallible }
    ensures number { ClonesAlways ⟦<NumberOfAddresses as Clone>⟧.is_infallible }
{}

/// A clone of a value that is printed with its prefix length never fails.
pub fn with_length_clones_never_fail()
    ensures ipv4 { ClonesAlways ⟦<WithLength<Ipv4Cidr> as Clone>⟧.is_infallible }
    ensures ipv6 { ClonesAlways ⟦<WithLength<Ipv6Cidr> as Clone>⟧.is_infallible }
    ensures network { ClonesAlways ⟦<WithLength<IpCidr> as Clone>⟧.is_infallible }
    ensures any { ClonesAlways ⟦<WithLength<AnyIpCidr> as Clone>⟧.is_infallible }
    ensures ipv4_host { ClonesAlways ⟦<WithLength<Ipv4Inet> as Clone>⟧.is_infallible }
    ensures ipv6_host { ClonesAlways ⟦<WithLength<Ipv6Inet> as Clone>⟧.is_infallible }
    ensures host { ClonesAlways ⟦<WithLength<IpInet> as Clone>⟧.is_infallible }
    ensures ipv4_pair { ClonesAlways ⟦<WithLength<Ipv4InetPair> as Clone>⟧.is_infallible }
    ensures ipv6_pair { ClonesAlways ⟦<WithLength<Ipv6InetPair> as Clone>⟧.is_infallible }
    ensures pair { ClonesAlways ⟦<WithLength<IpInetPair> as Clone>⟧.is_infallible }
{}

/// A clone of an error never fails.
pub fn error_clones_never_fail()
    ensures address { ClonesAlways ⟦<AddrParseError as Clone>⟧.is_infallible }
    ensures length_text { ClonesAlways ⟦<ParseIntError as Clone>⟧.is_infallible }
    ensures too_long { ClonesAlways ⟦<NetworkLengthTooLongError as Clone>⟧.is_infallible }
    ensures network { ClonesAlways ⟦<NetworkParseError as Clone>⟧.is_infallible }
    ensures pair { ClonesAlways ⟦<InetTupleError as Clone>⟧.is_infallible }
    ensures compact { ClonesAlways ⟦<CompactError as Clone>⟧.is_infallible }
    ensures prefix { ClonesAlways ⟦<PrefixBytesError as Clone>⟧.is_infallible }
{}
