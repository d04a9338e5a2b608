//! What is told of a network, of the addresses in it and of a prefix length.
ghost use Rattle.std.specs.Prelude.{◌≡◌, ◌≤◌, MatchOption, length, ℕ};
ghost use Rattle.cidr.specs.declared.family.Family.TheVariants.{Ipv4, Ipv6};
ghost use Rattle.cidr.specs.either.IpNetwork.{network_family, network_prefix};
ghost use Rattle.cidr.specs.model.Network.{width_of};
ghost use Rattle.cidr_ext.specs.model.Inside.{usable_of};
ghost use Rattle.cidr_ext.specs.texts.MaskText.{IsLengthOfMask};
ghost use Rattle.cidr_lists.specs.Descriptions.{family_masks, family_name, length_lines, mask_line, mask_pair, range_text};

use arrayvec::ArrayString;
use cidr::{BitString, Family, IpCidr, Ipv4Cidr, Ipv6Cidr};
use cidr_ext::{AddressExt, CidrExt};

/// The name of a family: `IPv4` or `IPv6`.
pub fn family_name(family: Family) -> &'static str
    ensures name { result.now ≡ family_name family }
    ensures len { length result.now ≤ 4 }
{
    match family {
        Family::Ipv4 => "IPv4",
        Family::Ipv6 => "IPv6",
    }
}

/// The addresses that hosts may have of a network, which has one at least: `192.0.2.1-192.0.2.254` of `192.0.2.0/24`, or
/// the only one.
pub fn usable_text(network: &IpCidr) -> ArrayString<79>
    ensures { result.bytes ≡ range_text (usable_of (network_family network.now) (network_prefix network.now)) }
{
    let mut hosts = network.usable_hosts();
    let mut text = ArrayString::new();
    let Some(first) = hosts.next() else {
        text.push_str("none");
        return text;
    };
    text.push_str(first.address().to_text().as_str());
    match hosts.next_back() {
        Some(last) => {
            text.push_str("-");
            text.push_str(last.address().to_text().as_str());
            text
        }
        None => text,
    }
}

/// The mask (RFC 4632, 3.1) and the host mask of a network, as a line.
fn mask_pair(network: &IpCidr) -> ArrayString<80>
    ensures { result.bytes ≡ mask_pair (network_family network.now) (length (network_prefix network.now)) }
{
    let mask = network.mask().to_text();
    let host_mask = network.host_mask().to_text();
    let mut text = ArrayString::new();
    text.push_str(mask.as_str());
    text.push_str(" ");
    text.push_str(host_mask.as_str());
    text.push_str("\n");
    text
}

/// The first address, the mask and the host mask of a network, as a line: `192.0.2.0 255.255.255.0 0.0.0.255` of
/// `192.0.2.0/24`.
pub fn mask_line(network: &IpCidr) -> ArrayString<120>
    ensures { result.bytes ≡ mask_line network.now }
{
    let mut text = ArrayString::new();
    text.push_str(network.first_address().to_text().as_str());
    text.push_str(" ");
    text.push_str(mask_pair(network).as_str());
    text
}

/// The prefix length that a mask stands for: that of a network mask, or of a host mask that is none.
pub fn length_of_mask<A: AddressExt>(mask: A) -> Option<u8>
    ensures { MatchOption result
        ((n : ℕ) → ¬ (IsLengthOfMask (width_of (A.family_of mask)) n (A.bits mask)))
        (λ n. IsLengthOfMask (width_of (A.family_of mask)) n (A.bits mask)) }
{
    match mask.mask_length() {
        Some(len) => Some(len),
        None => mask.host_mask_length(),
    }
}

/// The masks of a prefix length in IPv4, as a line, or nothing where it has no such length.
fn ipv4_masks(len: u8) -> ArrayString<80>
    ensures { result.bytes ≡ family_masks Ipv4 len }
{
    match Ipv4Cidr::null().subnet(len, 0) {
        Some(network) => mask_pair(&IpCidr::V4(network)),
        None => ArrayString::new(),
    }
}

/// The same in IPv6.
fn ipv6_masks(len: u8) -> ArrayString<80>
    ensures { result.bytes ≡ family_masks Ipv6 len }
{
    match Ipv6Cidr::null().subnet(len, 0) {
        Some(network) => mask_pair(&IpCidr::V6(network)),
        None => ArrayString::new(),
    }
}

/// The masks of a prefix length in each family that has it, a line each, IPv4 before IPv6: no line of one above 128.
pub fn length_lines(len: u8) -> ArrayString<160>
    ensures { result.bytes ≡ length_lines len }
{
    let mut text = ArrayString::new();
    text.push_str(ipv4_masks(len).as_str());
    text.push_str(ipv6_masks(len).as_str());
    text
}
