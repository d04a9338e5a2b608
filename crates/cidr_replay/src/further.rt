//! Operations that call the crate `cidr_ext`, and whose results stand as `Debug` prints them.

use crate::answer::Answer;
use crate::tokens::Tokens;
use cidr::{AnyIpCidr, IpAddr, IpCidr, Ipv4Addr, Ipv4Cidr, Ipv6Addr, Ipv6Cidr};
use cidr_ext::{
    AddressExt, AddressReverseName, CidrExt, CidrMaskText, CidrReverseName, Ipv4AddrExt,
    Ipv4CidrExt, Ipv6AddrExt, Ipv6CidrExt, NetworkExt, SpecialAddress,
};

/// Answers the operation of this section that has this name.
pub fn answer(
    section: &str,
    name: &str,
    kind: &str,
    tokens: &mut Tokens<'_>,
    answer: &mut Answer,
) -> Option<()> {
    match (section, kind) {
        ("inside", _) => inside(name, kind, answer),
        ("tree", "any") => tree(name, &tokens.value()?, tokens, answer),
        ("network", "ip") => network(name, &tokens.value()?, tokens, answer),
        ("name" | "mask", "ip") => texts(name, tokens, answer),
        ("address", "ip") => address(name, tokens.value()?, answer),
        ("special", "ip") => special(name, &tokens.value()?, answer),
        _ => None,
    }
}

/// IPv4 addresses and networks inside those of IPv6.
fn inside(name: &str, value: &str, answer: &mut Answer) -> Option<()> {
    match name {
        "address_to_ipv6_mapped" => {
            answer.debug(&value.parse::<Ipv4Addr>().ok()?.to_ipv6_mapped());
        }
        "network_to_ipv6_mapped" => {
            answer.debug(&value.parse::<Ipv4Cidr>().ok()?.to_ipv6_mapped());
        }
        "network_to_ipv4_mapped" => {
            answer.debug(&value.parse::<Ipv6Cidr>().ok()?.to_ipv4_mapped());
        }
        _ => {
            let address = value.parse::<Ipv6Addr>().ok()?;
            answer.debug(&match name {
                "address_to_ipv4_mapped" => address.to_ipv4_mapped(),
                "to_ipv4_6to4" => address.to_ipv4_6to4(),
                _ => address.to_ipv4_nat64(),
            });
        }
    }
    Some(())
}

/// Networks as the nodes of a tree.
fn tree(
    name: &str,
    network: &AnyIpCidr,
    tokens: &mut Tokens<'_>,
    answer: &mut Answer,
) -> Option<()> {
    match name {
        "parent" => answer.debug(&network.parent()),
        "halves" => answer.debug(&network.halves()),
        "sibling" => answer.debug(&network.sibling()),
        "supernet" => answer.debug(&network.supernet(tokens.value()?)),
        "is_sibling_of" => answer.debug(&network.is_sibling_of(&tokens.value()?)),
        "overlaps" => answer.debug(&network.overlaps(&tokens.value()?)),
        _ => answer.debug(&network.spanning(&tokens.value()?)),
    }
    Some(())
}

/// Subnets, neighbours, masks, addresses and reverse names of networks.
fn network(
    name: &str,
    network: &IpCidr,
    tokens: &mut Tokens<'_>,
    answer: &mut Answer,
) -> Option<()> {
    match name {
        "address_count" => answer.debug(&network.address_count()),
        "next_network" => answer.debug(&network.next_network()),
        "previous_network" => answer.debug(&network.previous_network()),
        "host_mask" => answer.debug(&network.host_mask()),
        "reverse_name" => answer.debug(&network.reverse_name()),
        "usable_hosts" => {
            let mut hosts = network.usable_hosts();
            let ends = (hosts.next(), hosts.next_back());
            answer.debug(&(ends, hosts.count()));
        }
        "nth" => answer.debug(&network.nth(tokens.value()?)),
        "position" => answer.debug(&network.position(&tokens.value()?)),
        "subnet" => answer.debug(&network.subnet(tokens.value()?, tokens.value()?)),
        _ => subnets(network, tokens.value()?, tokens.value()?, answer),
    }
    Some(())
}

/// The size hint of the subnets of a length, and what `next`, `next_back`, `nth`, `next` and `next_back` return then.
fn subnets(network: &IpCidr, len: u8, n: u128, answer: &mut Answer) {
    let Some(mut subnets) = network.subnets(len) else {
        return answer.show(&"None");
    };
    let hint = subnets.size_hint();
    let first = (subnets.next(), subnets.next_back(), subnets.nth(n));
    answer.debug(&(hint, first, subnets.next(), subnets.next_back()));
}

/// Names in reverse DNS and masks in strings, which are parsed, and those of networks.
fn texts(name: &str, tokens: &mut Tokens<'_>, answer: &mut Answer) -> Option<()> {
    let word = tokens.word()?;
    match name {
        "to_network" => answer.debug(&IpCidr::from_reverse_name(word)),
        "to_address" => answer.debug(&IpAddr::from_reverse_name(word)),
        "from_mask_text" => answer.debug(&IpCidr::from_mask_text(word)),
        _ => texts_of(name, &word.parse().ok()?, tokens, answer)?,
    }
    Some(())
}

fn texts_of(
    name: &str,
    network: &IpCidr,
    tokens: &mut Tokens<'_>,
    answer: &mut Answer,
) -> Option<()> {
    match name {
        "to_mask_text" => answer.debug(&network.to_mask_text()),
        "to_host_mask_text" => answer.debug(&network.to_host_mask_text()),
        _ => {
            let mut names = Vec::new(tokens.alloc);
            for zone in network.reverse_zones() {
                names.push(zone).ok()?;
            }
            answer.debug(&names);
        }
    }
    Some(())
}

/// The numbers, families, masks and reverse names of addresses.
fn address(name: &str, address: IpAddr, answer: &mut Answer) -> Option<()> {
    match name {
        "to_number" => answer.debug(&address.to_number()),
        "family" => answer.debug(&AddressExt::family(address)),
        "mask_length" => answer.debug(&address.mask_length()),
        "host_mask_length" => answer.debug(&address.host_mask_length()),
        _ => answer.debug(&address.reverse_name()),
    }
    Some(())
}

/// What an address is for.
fn special(name: &str, address: &IpAddr, answer: &mut Answer) -> Option<()> {
    for (known, holds) in [
        ("is_global", address.is_global()),
        ("is_private", address.is_private()),
        ("is_loopback", address.is_loopback()),
        ("is_link_local", address.is_link_local()),
        ("is_multicast", address.is_multicast()),
        ("is_documentation", address.is_documentation()),
        ("is_unspecified", address.is_unspecified()),
    ] {
        if known == name {
            answer.show(&holds);
            return Some(());
        }
    }
    answer.debug(&address.special_entry());
    Some(())
}
