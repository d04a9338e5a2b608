//! Operations on hosts.

use crate::answer::Answer;
use crate::errors;
use crate::tokens::Tokens;
use cidr::errors::NetworkParseError;
use cidr::{IpAddr, IpInet, Ipv4Inet, Ipv6Inet};

/// Answers the operation on hosts that has this name.
pub fn answer(name: &str, kind: &str, tokens: &mut Tokens<'_>, answer: &mut Answer) -> Option<()> {
    match kind {
        "ip" => of_either_family(name, tokens, answer),
        "v4" => added_narrow(name, tokens, answer),
        "v6" if name == "address_ref" => {
            answer.show(tokens.value::<Ipv6Inet>()?.address_ref());
            Some(())
        }
        _ => None,
    }
}

/// Appends a host that was made, or the error.
pub fn outcome(made: Result<IpInet, NetworkParseError>, answer: &mut Answer) {
    match made {
        Ok(host) => answer.show(&format_args!("ok {}", host.with_length())),
        Err(e) => {
            answer.show(&"err");
            errors::of_network(&e, answer);
        }
    }
}

/// Appends a host of this address and prefix length, or the error.
fn new(address: IpAddr, len: u8, answer: &mut Answer) {
    match IpInet::new(address, len) {
        Ok(host) => answer.show(&format_args!("ok {}", host.with_length())),
        Err(e) => answer.error("err NetworkLengthTooLongError", &e),
    }
}

fn of_either_family(name: &str, tokens: &mut Tokens<'_>, answer: &mut Answer) -> Option<()> {
    match name {
        "new" => new(tokens.value()?, tokens.value()?, answer),
        "new_host" => answer.show(&IpInet::new_host(tokens.value()?).with_length()),
        "parse" => outcome(tokens.text()?.parse::<IpInet>(), answer),
        _ => asked(name, tokens.value()?, tokens, answer)?,
    }
    Some(())
}

fn asked(name: &str, host: IpInet, tokens: &mut Tokens<'_>, answer: &mut Answer) -> Option<()> {
    match name {
        "cmp" => answer.order(host.cmp(&tokens.value()?)),
        "contains" => answer.show(&host.contains(&tokens.value()?)),
        "add" | "overflowing_add" => added(name, host, tokens.value()?, answer)?,
        "sub" | "overflowing_sub" => subtracted(name, host, tokens.value()?, answer)?,
        "increment" | "decrement" | "next" | "previous" => stepped(name, host, answer),
        _ => shown(name, &host, answer)?,
    }
    Some(())
}

fn shown(name: &str, host: &IpInet, answer: &mut Answer) -> Option<()> {
    match name {
        "ends" => {
            answer.show(&host.first().with_length());
            answer.show(&host.last().with_length());
        }
        "is" => {
            answer.show(&host.is_ipv4());
            answer.show(&host.is_ipv6());
        }
        "show" => {
            answer.show(&host.address());
            answer.show(&host.network().with_length());
            answer.show(&host.first_address());
            answer.show(&host.last_address());
            answer.show(&host.mask());
            answer.show(&host.network_length());
            answer.debug(&host.family());
            answer.show(&host.is_host_address());
        }
        "text" => {
            let forced = host.with_length();
            answer.show(&host.to_text().as_str());
            answer.show(host);
            answer.show(&forced.to_text().as_str());
            answer.show(&forced);
        }
        _ => return None,
    }
    Some(())
}

/// The steps to a neighbour.
fn stepped(name: &str, mut host: IpInet, answer: &mut Answer) {
    let neighbour = match name {
        "increment" => {
            answer.show(&host.increment());
            Some(host)
        }
        "decrement" => {
            answer.show(&host.decrement());
            Some(host)
        }
        "next" => host.next(),
        _ => host.previous(),
    };
    match neighbour {
        Some(host) => answer.show(&host.with_length()),
        None => answer.show(&"none"),
    }
}

/// The steps forwards by a number; `+` only where it stays in the network.
fn added(name: &str, host: IpInet, step: u128, answer: &mut Answer) -> Option<()> {
    let start = host;
    let (sum, is_out) = host.overflowing_add(step);
    match name {
        "overflowing_add" => answer.show(&format_args!("{} {is_out}", sum.with_length())),
        _ if is_out => return None,
        _ => answer.show(&(start + step).with_length()),
    }
    Some(())
}

/// The steps backwards by a number; `-` only where it stays in the network.
fn subtracted(name: &str, host: IpInet, step: u128, answer: &mut Answer) -> Option<()> {
    let start = host;
    let (rest, is_out) = host.overflowing_sub(step);
    match name {
        "overflowing_sub" => answer.show(&format_args!("{} {is_out}", rest.with_length())),
        _ if is_out => return None,
        _ => answer.show(&(start - step).with_length()),
    }
    Some(())
}

/// The steps by a number of 32 bits, of hosts of IPv4.
fn added_narrow(name: &str, tokens: &mut Tokens<'_>, answer: &mut Answer) -> Option<()> {
    let host = tokens.value::<Ipv4Inet>()?;
    let step = tokens.value::<u32>()?;
    let (sum, is_above) = host.overflowing_add_u32(step);
    let (rest, is_below) = host.overflowing_sub_u32(step);
    match name {
        "overflowing_add_u32" => answer.show(&format_args!("{} {is_above}", sum.with_length())),
        "overflowing_sub_u32" => answer.show(&format_args!("{} {is_below}", rest.with_length())),
        "add_u32" if !is_above => answer.show(&(host + step).with_length()),
        "sub_u32" if !is_below => answer.show(&(host - step).with_length()),
        _ => return None,
    }
    Some(())
}
