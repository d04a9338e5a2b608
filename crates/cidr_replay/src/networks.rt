//! Operations on networks.

use crate::answer::Answer;
use crate::errors;
use crate::tokens::Tokens;
use cidr::errors::NetworkParseError;
use cidr::{AnyIpCidr, IpAddr, IpCidr, Ipv6Cidr};

/// Answers the operation on networks that has this name.
pub fn answer(name: &str, kind: &str, tokens: &mut Tokens<'_>, answer: &mut Answer) -> Option<()> {
    match kind {
        "ip" => of_either_family(name, tokens, answer),
        "any" => of_any(name, tokens, answer),
        "v6" if name == "first_address_ref" => {
            answer.show(tokens.value::<Ipv6Cidr>()?.first_address_ref());
            Some(())
        }
        _ => None,
    }
}

/// Appends a network that was made, or the error.
pub fn outcome(made: Result<IpCidr, NetworkParseError>, answer: &mut Answer) {
    match made {
        Ok(network) => answer.show(&format_args!("ok {}", network.with_length())),
        Err(e) => {
            answer.show(&"err");
            errors::of_network(&e, answer);
        }
    }
}

/// Appends a network that was made and may be all addresses, or the error.
pub fn any_outcome(made: Result<AnyIpCidr, NetworkParseError>, answer: &mut Answer) {
    match made {
        Ok(network) => answer.show(&format_args!("ok {}", network.with_length())),
        Err(e) => {
            answer.show(&"err");
            errors::of_network(&e, answer);
        }
    }
}

fn of_either_family(name: &str, tokens: &mut Tokens<'_>, answer: &mut Answer) -> Option<()> {
    match name {
        "new" => {
            let address = tokens.value::<IpAddr>()?;
            outcome(IpCidr::new(address, tokens.value()?), answer);
        }
        "new_host" => {
            answer.show(&IpCidr::new_host(tokens.value::<IpAddr>()?).with_length());
        }
        "parse" => outcome(tokens.text()?.parse::<IpCidr>(), answer),
        _ => asked(name, tokens.value()?, tokens, answer)?,
    }
    Some(())
}

fn asked(name: &str, network: IpCidr, tokens: &mut Tokens<'_>, answer: &mut Answer) -> Option<()> {
    match name {
        "cmp" => answer.order(network.cmp(&tokens.value()?)),
        "contains" => answer.show(&network.contains(&tokens.value()?)),
        "contains_cidr" => answer.show(&network.contains_cidr(&tokens.value()?)),
        _ => shown(name, &network, answer)?,
    }
    Some(())
}

fn shown(name: &str, network: &IpCidr, answer: &mut Answer) -> Option<()> {
    match name {
        "ends" => {
            answer.show(&network.first().with_length());
            answer.show(&network.last().with_length());
        }
        "is" => {
            answer.show(&network.is_ipv4());
            answer.show(&network.is_ipv6());
        }
        "show" => {
            answer.show(&network.first_address());
            answer.show(&network.last_address());
            answer.show(&network.mask());
            answer.show(&network.network_length());
            answer.debug(&network.family());
            answer.show(&network.is_host_address());
        }
        "text" => {
            let forced = network.with_length();
            answer.show(&network.to_text().as_str());
            answer.show(network);
            answer.show(&forced.to_text().as_str());
            answer.show(&forced);
        }
        _ => return None,
    }
    Some(())
}

fn of_any(name: &str, tokens: &mut Tokens<'_>, answer: &mut Answer) -> Option<()> {
    match name {
        "new" => {
            let address = tokens.value::<IpAddr>()?;
            any_outcome(AnyIpCidr::new(address, tokens.value()?), answer);
        }
        "new_host" => {
            answer.show(&AnyIpCidr::new_host(tokens.value::<IpAddr>()?).with_length());
        }
        "parse" => any_outcome(tokens.text()?.parse::<AnyIpCidr>(), answer),
        _ => asked_any(name, tokens.value()?, tokens, answer)?,
    }
    Some(())
}

fn asked_any(
    name: &str,
    network: AnyIpCidr,
    tokens: &mut Tokens<'_>,
    answer: &mut Answer,
) -> Option<()> {
    match name {
        "cmp" => answer.order(network.cmp(&tokens.value()?)),
        "contains" => answer.show(&network.contains(&tokens.value()?)),
        "contains_cidr" => answer.show(&network.contains_cidr(&tokens.value()?)),
        _ => shown_any(name, &network, answer)?,
    }
    Some(())
}

/// What networks that may be all addresses have, or none where there are no ends and no family.
fn shown_any(name: &str, network: &AnyIpCidr, answer: &mut Answer) -> Option<()> {
    match name {
        "ends" => match (network.first(), network.last()) {
            (Some(first), Some(last)) => {
                answer.show(&first.with_length());
                answer.show(&last.with_length());
            }
            _ => answer.show(&"none none"),
        },
        "is" => {
            answer.show(&network.is_any());
            answer.show(&network.is_ipv4());
            answer.show(&network.is_ipv6());
        }
        "show" => {
            answer.option(&network.first_address());
            answer.option(&network.last_address());
            answer.option(&network.mask());
            answer.option(&network.network_length());
            match network.family() {
                Some(family) => answer.debug(&family),
                None => answer.show(&"none"),
            }
            answer.show(&network.is_host_address());
        }
        "text" => {
            let forced = network.with_length();
            answer.show(&network.to_text().as_str());
            answer.show(network);
            answer.show(&forced.to_text().as_str());
            answer.show(&forced);
        }
        _ => return None,
    }
    Some(())
}
