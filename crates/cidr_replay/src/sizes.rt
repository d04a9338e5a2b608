//! How many bytes values take.

use crate::answer::Answer;
use cidr::{
    AnyIpCidr, End, Family, InetAddressIterator, InetIterator, IpAddr, IpCidr, IpInet, IpInetPair,
    Ipv4Addr, Ipv4Cidr, Ipv4Inet, Ipv4InetPair, Ipv6Addr, Ipv6Cidr, Ipv6Inet, Ipv6InetPair,
    WithLength,
};
use std::mem::size_of;

/// Answers how many bytes a value of this type takes.
pub fn answer(name: &str, answer: &mut Answer) -> Option<()> {
    for (known, size) in [
        ("Ipv4Addr", size_of::<Ipv4Addr>()),
        ("Ipv4Cidr", size_of::<Ipv4Cidr>()),
        ("Ipv4Inet", size_of::<Ipv4Inet>()),
        ("Ipv4InetPair", size_of::<Ipv4InetPair>()),
        ("Ipv6Addr", size_of::<Ipv6Addr>()),
        ("Ipv6Cidr", size_of::<Ipv6Cidr>()),
        ("Ipv6Inet", size_of::<Ipv6Inet>()),
        ("Ipv6InetPair", size_of::<Ipv6InetPair>()),
        ("Family", size_of::<Family>()),
        ("IpAddr", size_of::<IpAddr>()),
        ("IpCidr", size_of::<IpCidr>()),
        ("AnyIpCidr", size_of::<AnyIpCidr>()),
        ("IpInet", size_of::<IpInet>()),
        ("IpInetPair", size_of::<IpInetPair>()),
        ("WithLength<IpCidr>", size_of::<WithLength<IpCidr>>()),
        (
            "InetIterator<Ipv4Addr>",
            size_of::<InetIterator<Ipv4Addr>>(),
        ),
        (
            "InetIterator<Ipv6Addr>",
            size_of::<InetIterator<Ipv6Addr>>(),
        ),
        (
            "InetAddressIterator<Ipv6Addr>",
            size_of::<InetAddressIterator<Ipv6Addr>>(),
        ),
        ("End", size_of::<End>()),
    ] {
        if known == name {
            answer.show(&size);
            return Some(());
        }
    }
    None
}
