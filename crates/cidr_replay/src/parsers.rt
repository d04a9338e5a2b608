//! Operations on the parsers.

use crate::answer::Answer;
use crate::tokens::Tokens;
use crate::{hosts, networks};
use cidr::errors::NetworkParseError;
use cidr::parsers::{
    inet_addr, parse_any_cidr, parse_any_cidr_full, parse_any_cidr_full_ignore_hostbits,
    parse_any_cidr_ignore_hostbits, parse_cidr, parse_cidr_full, parse_cidr_full_ignore_hostbits,
    parse_cidr_ignore_hostbits, parse_inet, parse_inet_full, parse_loose_ip, parse_loose_ipv4,
    parse_short_any_ip_cidr, parse_short_ip_address_as_cidr, parse_short_ip_cidr,
    parse_short_ipv4_address_as_cidr, parse_short_ipv4_cidr,
};
use cidr::{AddrParseError, IpAddr, IpCidr, IpInet, Ipv4Cidr};
use std::cell::Cell;
use std::fmt::Display;
use std::str::FromStr;

/// The parser of addresses that lines call `strict`.
fn strict(text: &str) -> Result<IpAddr, AddrParseError> {
    text.parse()
}

/// The parser of networks that lines call `hrefuse`.
fn no_network(_text: &str) -> Result<IpCidr, NetworkParseError> {
    Err(NetworkParseError::InvalidHostPart)
}

/// The parser of hosts that lines call so.
fn no_host(_text: &str) -> Result<IpInet, NetworkParseError> {
    Err(NetworkParseError::InvalidHostPart)
}

/// Answers the operation on parsers that has this name.
pub fn answer(name: &str, kind: &str, tokens: &mut Tokens<'_>, answer: &mut Answer) -> Option<()> {
    if let Some(text) = tokens.text_behind("strict =") {
        return by_one(name, kind, text, answer);
    }
    if let Some(text) = tokens.text_behind("strict hrefuse =") {
        return by_two(name, kind, text, answer);
    }
    let text = tokens.text()?;
    match kind {
        "v4" => by_none_of_ipv4(name, text, answer),
        _ => by_none(name, text, answer),
    }
}

/// The operations with a parser of addresses.
fn by_one(name: &str, kind: &str, text: &str, answer: &mut Answer) -> Option<()> {
    match (kind, name) {
        ("ip", "parse_cidr") => networks::outcome(parse_cidr(text, strict), answer),
        ("ip", "parse_cidr_ignore_hostbits") => {
            networks::outcome(parse_cidr_ignore_hostbits(text, strict), answer);
        }
        ("ip", "parse_inet") => hosts::outcome(parse_inet(text, strict), answer),
        ("any", "parse_any_cidr") => networks::any_outcome(parse_any_cidr(text, strict), answer),
        ("any", "parse_any_cidr_ignore_hostbits") => {
            networks::any_outcome(parse_any_cidr_ignore_hostbits(text, strict), answer);
        }
        _ => return None,
    }
    Some(())
}

/// The operations with a parser of addresses and one of strings with no slash.
fn by_two(name: &str, kind: &str, text: &str, answer: &mut Answer) -> Option<()> {
    match (kind, name) {
        ("ip", "parse_cidr_full") => {
            networks::outcome(parse_cidr_full(text, strict, no_network), answer);
        }
        ("ip", "parse_cidr_full_ignore_hostbits") => {
            let made = parse_cidr_full_ignore_hostbits(text, strict, no_network);
            networks::outcome(made, answer);
        }
        ("ip", "parse_inet_full") => {
            hosts::outcome(parse_inet_full(text, strict, no_host), answer);
        }
        ("any", "parse_any_cidr_full") => {
            networks::any_outcome(parse_any_cidr_full(text, strict, no_network), answer);
        }
        ("any", "parse_any_cidr_full_ignore_hostbits") => {
            let made = parse_any_cidr_full_ignore_hostbits(text, strict, no_network);
            networks::any_outcome(made, answer);
        }
        _ => return None,
    }
    Some(())
}

/// Appends an address that was parsed, or the error.
fn address<A: Display + Drop>(parsed: Result<A, AddrParseError>, answer: &mut Answer) {
    match parsed {
        Ok(address) => answer.show(&format_args!("ok {address}")),
        Err(e) => answer.error("err AddrParseError", &e),
    }
}

/// The operations on loose and short strings of IPv4.
fn by_none_of_ipv4(name: &str, text: &str, answer: &mut Answer) -> Option<()> {
    match name {
        "inet_addr" => answer.option(&inet_addr(text)),
        "parse_loose_ipv4" => address(parse_loose_ipv4(text), answer),
        "parse_short_ipv4_cidr" => short(parse_short_ipv4_cidr(text), answer),
        _ => short(parse_short_ipv4_address_as_cidr(text), answer),
    }
    Some(())
}

/// Appends a network of IPv4 that was made, or the error.
fn short(made: Result<Ipv4Cidr, NetworkParseError>, answer: &mut Answer) {
    networks::outcome(
        match made {
            Ok(network) => Ok(IpCidr::from(network)),
            Err(e) => Err(e),
        },
        answer,
    );
}

/// The operations on loose and short strings.
fn by_none(name: &str, text: &str, answer: &mut Answer) -> Option<()> {
    match name {
        "parse_loose_ip" => address(parse_loose_ip(text), answer),
        "parse_short_ip_cidr" => networks::outcome(parse_short_ip_cidr(text), answer),
        "parse_short_any_ip_cidr" => networks::any_outcome(parse_short_any_ip_cidr(text), answer),
        "parse_short_ip_address_as_cidr" => {
            networks::outcome(parse_short_ip_address_as_cidr(text), answer);
        }
        _ => return None,
    }
    Some(())
}

/// Parses a string, and counts this call.
fn counted<V: FromStr>(count: &Cell<u32>, text: &str) -> Result<V, V::Err> {
    count.set(count.get().saturating_add(1));
    text.parse()
}

/// Answers how often the parser of this name calls the closure for addresses, and that for strings with no slash.
pub fn calls(name: &str, tokens: &mut Tokens<'_>, answer: &mut Answer) -> Option<()> {
    let text = tokens.text()?;
    let (addresses, networks) = (Cell::new(0_u32), Cell::new(0_u32));
    let address = |part: &str| -> Result<IpAddr, AddrParseError> { counted(&addresses, part) };
    let network = |whole: &str| -> Result<IpCidr, NetworkParseError> { counted(&networks, whole) };
    if name == "parse_cidr" {
        let _read: Result<IpCidr, NetworkParseError> = parse_cidr(text, &address);
        answer.show(&addresses.get());
    } else {
        let _read = parse_any_cidr_full(text, &address, &network);
        answer.show(&addresses.get());
        answer.show(&networks.get());
    }
    Some(())
}
