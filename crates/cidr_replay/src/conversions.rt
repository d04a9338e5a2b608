//! Conversions between types.

use crate::addresses::groups;
use crate::answer::Answer;
use crate::pairs::hosts;
use crate::tokens::Tokens;
use cidr::{
    AnyIpCidr, IpAddr, IpCidr, IpInet, IpInetPair, Ipv4Addr, Ipv4Cidr, Ipv4Inet, Ipv4InetPair,
    Ipv6Addr, Ipv6Cidr, Ipv6Inet, Ipv6InetPair,
};

/// Answers a conversion: the two types stand in the line before the value.
pub fn answer(from: &str, tokens: &mut Tokens<'_>, answer: &mut Answer) -> Option<()> {
    let to = tokens.word()?;
    match from {
        "addr.v4" => from_ipv4(to, tokens.value()?, answer),
        "addr.v6" => from_ipv6(to, tokens.value()?, answer),
        "addr.ip" => from_ip(to, tokens.value()?, answer),
        "cidr.v4" => from_network(to, IpCidr::from(tokens.value::<Ipv4Cidr>()?), answer),
        "cidr.v6" => from_network(to, IpCidr::from(tokens.value::<Ipv6Cidr>()?), answer),
        "cidr.ip" => from_network(to, tokens.value()?, answer),
        "cidr.any" => to_option(tokens.value()?, answer),
        "octets" => from_octets(tokens, answer),
        "pair.v4" | "pair.v6" => from_pair(from, tokens, answer),
        _ => from_others(from, tokens, answer),
    }
}

fn from_ipv4(to: &str, address: Ipv4Addr, answer: &mut Answer) -> Option<()> {
    match to {
        "addr.ip" => answer.show(&IpAddr::from(address)),
        "cidr.v4" => answer.show(&Ipv4Cidr::from(address).with_length()),
        "cidr.ip" => answer.show(&IpCidr::from(address).with_length()),
        "cidr.any" => answer.show(&AnyIpCidr::from(address).with_length()),
        "inet.v4" => answer.show(&Ipv4Inet::from(address).with_length()),
        _ => answer.show(&IpInet::from(address).with_length()),
    }
    Some(())
}

fn from_ipv6(to: &str, address: Ipv6Addr, answer: &mut Answer) -> Option<()> {
    match to {
        "addr.ip" => answer.show(&IpAddr::from(address)),
        "cidr.v6" => answer.show(&Ipv6Cidr::from(address).with_length()),
        "cidr.ip" => answer.show(&IpCidr::from(address).with_length()),
        "cidr.any" => answer.show(&AnyIpCidr::from(address).with_length()),
        "inet.v6" => answer.show(&Ipv6Inet::from(address).with_length()),
        _ => answer.show(&IpInet::from(address).with_length()),
    }
    Some(())
}

fn from_ip(to: &str, address: IpAddr, answer: &mut Answer) -> Option<()> {
    match to {
        "cidr.ip" => answer.show(&IpCidr::from(address).with_length()),
        "cidr.any" => answer.show(&AnyIpCidr::from(address).with_length()),
        _ => answer.show(&IpInet::from(address).with_length()),
    }
    Some(())
}

fn from_network(to: &str, network: IpCidr, answer: &mut Answer) -> Option<()> {
    match to {
        "cidr.ip" => answer.show(&network.with_length()),
        _ => answer.show(&AnyIpCidr::from(network).with_length()),
    }
    Some(())
}

fn to_option(network: AnyIpCidr, answer: &mut Answer) -> Option<()> {
    match Option::<IpCidr>::from(network) {
        Some(network) => answer.show(&network.with_length()),
        None => answer.show(&"none"),
    }
    Some(())
}

fn from_octets(tokens: &mut Tokens<'_>, answer: &mut Answer) -> Option<()> {
    let octets = tokens.bytes()?;
    match <[u8; 4]>::try_from(octets.as_slice()) {
        Ok(four) => answer.show(&Ipv4Addr::from(four)),
        Err(_) => {
            let all = <[u8; 16]>::try_from(octets.as_slice()).ok()?;
            answer.show(&Ipv6Addr::from(all));
        }
    }
    Some(())
}

/// A pair stands as its two addresses and its prefix length.
fn from_pair(from: &str, tokens: &mut Tokens<'_>, answer: &mut Answer) -> Option<()> {
    if from == "pair.v4" {
        let (first, second) = (tokens.value()?, tokens.value()?);
        let pair = Ipv4InetPair::new_from_addresses(first, second, tokens.value()?).ok()?;
        hosts(&IpInetPair::from(pair), answer);
    } else {
        let (first, second) = (tokens.value()?, tokens.value()?);
        let pair = Ipv6InetPair::new_from_addresses(first, second, tokens.value()?).ok()?;
        hosts(&IpInetPair::from(pair), answer);
    }
    Some(())
}

/// From numbers and segments, hosts, and options.
fn from_others(from: &str, tokens: &mut Tokens<'_>, answer: &mut Answer) -> Option<()> {
    match from {
        "u32" => answer.show(&Ipv4Addr::from(tokens.value::<u32>()?)),
        "u128" => answer.show(&Ipv6Addr::from(tokens.value::<u128>()?)),
        "segments" => answer.show(&Ipv6Addr::from(groups(tokens)?)),
        "inet.v4" => answer.show(&IpInet::from(tokens.value::<Ipv4Inet>()?).with_length()),
        "inet.v6" => answer.show(&IpInet::from(tokens.value::<Ipv6Inet>()?).with_length()),
        "option" => {
            let word = tokens.word()?;
            let network = word.parse::<IpCidr>().ok();
            if network.is_none() && word != "none" {
                return None;
            }
            answer.show(&AnyIpCidr::from(network).with_length());
        }
        _ => return None,
    }
    Some(())
}
