//! Operations on networks and hosts as strings of bits.

use crate::answer::Answer;
use crate::tokens::Tokens;
use cidr::{AnyIpCidr, BitString, Ipv6Inet};

/// Answers the operation of this name on the bits of a network.
pub fn of_network(
    name: &str,
    kind: &str,
    tokens: &mut Tokens<'_>,
    answer: &mut Answer,
) -> Option<()> {
    if kind != "any" {
        return None;
    }
    if name == "null" {
        answer.show(&AnyIpCidr::null().with_length());
        return Some(());
    }
    let mut bits = tokens.value::<AnyIpCidr>()?;
    match name {
        "len" => answer.show(&bits.len()),
        "shared_prefix_len" => answer.show(&bits.shared_prefix_len(&tokens.value()?)),
        "get" => {
            let i = tokens.value::<usize>()?;
            if i >= bits.len() {
                return None;
            }
            answer.show(&bits.get(i));
        }
        _ => {
            changed(name, &mut bits, tokens)?;
            answer.show(&bits.with_length());
        }
    }
    Some(())
}

/// Makes the change of this name; one of a bit that is not there, or for which there is no room, is none.
fn changed(name: &str, bits: &mut AnyIpCidr, tokens: &mut Tokens<'_>) -> Option<()> {
    match name {
        "append" if bits.room() > 0 => bits.append(tokens.value()?),
        "clip" => bits.clip(tokens.value()?),
        _ => {
            let i = tokens.value::<usize>()?;
            if i >= bits.len() {
                return None;
            }
            match name {
                "set" => bits.set(i, tokens.value()?),
                "flip" => bits.flip(i),
                _ => return None,
            }
        }
    }
    Some(())
}

/// Answers the operation of this name on the bits of a host of IPv6.
pub fn of_host(name: &str, kind: &str, tokens: &mut Tokens<'_>, answer: &mut Answer) -> Option<()> {
    if kind != "v6" {
        return None;
    }
    if name == "null" {
        answer.show(&Ipv6Inet::null().with_length());
        return Some(());
    }
    let mut bits = tokens.value::<Ipv6Inet>()?;
    match name {
        "len" => answer.show(&bits.len()),
        "shared_prefix_len" => answer.show(&bits.shared_prefix_len(&tokens.value()?)),
        "get" => {
            let i = tokens.value::<usize>()?;
            if i >= bits.len() {
                return None;
            }
            answer.show(&bits.get(i));
        }
        _ => {
            changed_host(name, &mut bits, tokens)?;
            answer.show(&bits.with_length());
        }
    }
    Some(())
}

/// Makes the change of this name; one of a bit that is not there, or for which there is no room, is none.
fn changed_host(name: &str, bits: &mut Ipv6Inet, tokens: &mut Tokens<'_>) -> Option<()> {
    match name {
        "append" if bits.room() > 0 => bits.append(tokens.value()?),
        "clip" => bits.clip(tokens.value()?),
        _ => {
            let i = tokens.value::<usize>()?;
            if i >= bits.len() {
                return None;
            }
            match name {
                "set" => bits.set(i, tokens.value()?),
                "flip" => bits.flip(i),
                _ => return None,
            }
        }
    }
    Some(())
}
