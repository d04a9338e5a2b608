//! Operations on compact bytes and prefix bytes, and on networks that agree.

use crate::answer::Answer;
use crate::errors;
use crate::tokens::Tokens;
use cidr::canon::agree;
use cidr::errors::NetworkParseError;
use cidr::{AnyIpCidr, IpInet, Ipv6Cidr, PrefixBytes};

/// Answers the operation of this name on compact bytes of networks.
pub fn compact(name: &str, kind: &str, tokens: &mut Tokens<'_>, answer: &mut Answer) -> Option<()> {
    match (kind, name) {
        ("any", "to") => answer.bytes(tokens.value::<AnyIpCidr>()?.to_compact().as_slice()),
        ("any", "from") => match AnyIpCidr::from_compact(tokens.bytes()?.as_slice()) {
            Ok((network, used)) => {
                answer.show(&format_args!("ok {} {used}", network.with_length()));
            }
            Err(e) => {
                answer.show(&"err");
                errors::of_compact(&e, answer);
            }
        },
        _ => return None,
    }
    Some(())
}

/// Answers the operation of this name on compact bytes of hosts.
pub fn host_compact(
    name: &str,
    kind: &str,
    tokens: &mut Tokens<'_>,
    answer: &mut Answer,
) -> Option<()> {
    match (kind, name) {
        ("ip", "to") => answer.bytes(tokens.value::<IpInet>()?.to_compact().as_slice()),
        ("ip", "from") => match IpInet::from_compact(tokens.bytes()?.as_slice()) {
            Ok((host, used)) => answer.show(&format_args!("ok {} {used}", host.with_length())),
            Err(e) => {
                answer.show(&"err");
                errors::of_compact(&e, answer);
            }
        },
        _ => return None,
    }
    Some(())
}

/// Answers the operation of this name on prefix bytes.
pub fn prefix(name: &str, kind: &str, tokens: &mut Tokens<'_>, answer: &mut Answer) -> Option<()> {
    match (kind, name) {
        ("v6", "to") => answer.bytes(tokens.value::<Ipv6Cidr>()?.to_prefix_bytes().as_slice()),
        ("v6", "from") => match Ipv6Cidr::from_prefix_bytes(tokens.bytes()?.as_slice()) {
            Ok((network, used)) => {
                answer.show(&format_args!("ok {} {used}", network.with_length()));
            }
            Err(e) => {
                answer.show(&"err");
                errors::of_prefix(&e, answer);
            }
        },
        _ => return None,
    }
    Some(())
}

/// Answers whether networks agree, or those that strings are parsed as.
pub fn agreement(
    name: &str,
    kind: &str,
    tokens: &mut Tokens<'_>,
    answer: &mut Answer,
) -> Option<()> {
    match (kind, name) {
        ("any", "") => {
            let one = tokens.value::<AnyIpCidr>()?;
            answer.show(&agree(&one, &tokens.value()?));
        }
        ("any", "texts") => {
            let (one, other) = (tokens.word()?, tokens.word()?);
            match texts_agree(one.strip_prefix('=')?, other.strip_prefix('=')?) {
                Ok(are_same) => answer.show(&format_args!("ok {are_same}")),
                Err(e) => {
                    answer.show(&"err");
                    errors::of_network(&e, answer);
                }
            }
        }
        _ => return None,
    }
    Some(())
}

/// Whether the networks that two strings are parsed as agree, or the first error.
fn texts_agree(one: &str, other: &str) -> Result<bool, NetworkParseError> {
    let one = one.parse::<AnyIpCidr>()?;
    let other = other.parse::<AnyIpCidr>()?;
    Ok(agree(&one, &other))
}
