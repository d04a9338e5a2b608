//! Operations on addresses and families.

use crate::answer::Answer;
use crate::tokens::Tokens;
use cidr::{Family, IpAddr, Ipv6Addr};

/// Answers the operation on addresses that has this name.
pub fn answer(name: &str, kind: &str, tokens: &mut Tokens<'_>, answer: &mut Answer) -> Option<()> {
    match kind {
        "v6" => of_ipv6(name, tokens, answer),
        "ip" => of_either_family(name, tokens, answer),
        _ => None,
    }
}

fn of_ipv6(name: &str, tokens: &mut Tokens<'_>, answer: &mut Answer) -> Option<()> {
    match name {
        "new" => {
            let [a, b, c, d, e, f, g, h] = groups(tokens)?;
            answer.show(&Ipv6Addr::new(a, b, c, d, e, f, g, h));
        }
        "from_bits" => answer.show(&Ipv6Addr::from_bits(tokens.value()?)),
        _ => parts_of_ipv6(name, tokens.value()?, answer)?,
    }
    Some(())
}

fn parts_of_ipv6(name: &str, address: Ipv6Addr, answer: &mut Answer) -> Option<()> {
    match name {
        "octets" => answer.bytes(&address.octets()),
        "to_bits" => answer.show(&address.to_bits()),
        "segments" => {
            for group in &address.segments() {
                answer.show(group);
            }
        }
        _ => return None,
    }
    Some(())
}

/// Eight groups of an IPv6 address, in decimal.
pub fn groups(tokens: &mut Tokens<'_>) -> Option<[u16; 8]> {
    let mut groups = [0u16; 8];
    for group in groups.iter_mut() {
        *group = tokens.value()?;
    }
    Some(groups)
}

/// Appends an address that a string is parsed as, or the error.
fn parsed(text: &str, answer: &mut Answer) {
    match text.parse::<IpAddr>() {
        Ok(address) => answer.show(&format_args!("ok {address}")),
        Err(e) => answer.error("err AddrParseError", &e),
    }
}

fn of_either_family(name: &str, tokens: &mut Tokens<'_>, answer: &mut Answer) -> Option<()> {
    if name == "parse" {
        parsed(tokens.text()?, answer);
        return Some(());
    }
    let address = tokens.value::<IpAddr>()?;
    match name {
        "cmp" => answer.order(address.cmp(&tokens.value()?)),
        "text" => {
            answer.show(&address.to_text().as_str());
            answer.show(&address);
            answer.debug(&address);
        }
        "is" => {
            answer.show(&address.is_ipv4());
            answer.show(&address.is_ipv6());
        }
        _ => return None,
    }
    Some(())
}

/// Answers the operation on families that has this name; the second token names one.
pub fn families(
    name: &str,
    kind: &str,
    tokens: &mut Tokens<'_>,
    answer: &mut Answer,
) -> Option<()> {
    let family = family(kind)?;
    match name {
        "cmp" => answer.order(family.cmp(&self::family(tokens.word()?)?)),
        "show" => {
            answer.show(&family.len());
            answer.show(&family.unspecified_address());
            answer.show(&family.loopback_address());
        }
        _ => return None,
    }
    Some(())
}

fn family(name: &str) -> Option<Family> {
    match name {
        "Ipv4" => Some(Family::Ipv4),
        "Ipv6" => Some(Family::Ipv6),
        _ => None,
    }
}
