//! The name of a network in reverse DNS, written label by label.
ghost use Rattle.std.specs.Prelude.{◌≡◌, ◌+◌, ◌*◌, ◌/◌, ◌%◌, ◌^◌, ◌<◌, ◌≤◌, [], ◌∷◌, ◌++◌, Bool, List, decimal, length, reverse, MatchOption};
ghost use Rattle.cidr.specs.model.Address.{parts_of};
ghost use Rattle.cidr.specs.model.Bits.{number};
ghost use Rattle.cidr.specs.texts.Ipv4Text.{dot};
ghost use Rattle.cidr_ext.specs.texts.Reverse.{domain_of, EndsAtLabel, label_text, label_width, labels_text, longest_label, reverse_text};

use crate::address::AddressExt;
use arrayvec::ArrayString;
use cidr::{Cidr, Family};

/// The name of a network, or `None` where its prefix length doesn't end at a label.
pub(crate) fn name_of<C: Cidr>(network: &C) -> Option<ArrayString<72>>
where
    C::Address: AddressExt,
    ensures { MatchOption result (¬ (EndsAtLabel (C.family_of network.now) (C.prefix network.now)))
        (λ name. (name.bytes ≡ reverse_text (C.family_of network.now) (C.prefix network.now)) ×
        (EndsAtLabel (C.family_of network.now) (C.prefix network.now))) }
{
    let (family, len) = (network.family(), network.network_length());
    let width = label_bits(family);
    if len % width != 0 {
        return None;
    }
    let value = shifted_out(network.first_address().to_number(), family.len() - len);
    let mut name = ArrayString::new();
    push_labels(&mut name, family, value, len / width);
    push_domain(&mut name, family);
    Some(name)
}

/// The number of bits that a label stands for.
pub(crate) fn label_bits(family: Family) -> u8
    ensures value { result ≡ label_width family }
    ensures some { 0 < result }
{
    match family {
        Family::Ipv4 => 8,
        Family::Ipv6 => 4,
    }
}

/// The number without so many of its last bits.
fn shifted_out(value: u128, count: u8) -> u128
    ensures { result ≡ value / 2 ^ count }
{
    if count < 128 { value >> count } else { 0 }
}

/// The number without the bits of its last label, and that label.
fn split_label(family: Family, value: u128) -> (u128, u8)
    ensures rest { result.0 ≡ value / 2 ^ label_width family }
    ensures label { result.1 ≡ value % 2 ^ label_width family }
{
    match family {
        Family::Ipv4 => (value / 256, (value % 256) as u8),
        Family::Ipv6 => (value / 16, (value % 16) as u8),
    }
}

/// Appends the last `count` labels of the number, the last one first, with a dot behind each.
fn push_labels(name: &mut ArrayString<72>, family: Family, value: u128, count: u8)
    requires { length name.old.bytes + longest_label family * count ≤ 72 }
    ensures bytes { (network : List Bool) → length network ≡ label_width family * count → value ≡ number network →
        name.new.bytes ≡ name.old.bytes ++ labels_text family (reverse (parts_of (label_width family) count network)) }
    ensures len { length name.new.bytes ≤ length name.old.bytes + longest_label family * count }
{
    if count > 0 {
        let (rest, label) = split_label(family, value);
        push_label(name, family, label);
        push_labels(name, family, rest, count - 1);
    }
}

/// Appends the label and a dot.
fn push_label(name: &mut ArrayString<72>, family: Family, label: u8)
    requires room { length name.old.bytes + longest_label family ≤ 72 }
    requires fits { label < 2 ^ label_width family }
    ensures bytes { name.new.bytes ≡ name.old.bytes ++ (label_text family label ++ dot ∷ []) }
    ensures len { length name.new.bytes ≤ length name.old.bytes + longest_label family }
{
    match family {
        Family::Ipv4 => push_decimal(name, label),
        Family::Ipv6 => name.push(char::from_digit(u32::from(label), 16).unwrap()),
    }
    name.push('.');
}

/// Appends the number in decimal.
#[tactic(auto, using(cidr::specs::laws::DecimalLaws::decimal_laws))]
fn push_decimal(text: &mut ArrayString<72>, n: u8)
    requires { length text.old.bytes + 3 ≤ 72 }
    ensures bytes { text.new.bytes ≡ text.old.bytes ++ decimal n }
    ensures len { length text.new.bytes ≤ length text.old.bytes + 3 }
{
    if n >= 100 {
        text.push(char::from(b'0' + n / 100));
        text.push(char::from(b'0' + n / 10 % 10));
        text.push(char::from(b'0' + n % 10));
    } else if n >= 10 {
        text.push(char::from(b'0' + n / 10));
        text.push(char::from(b'0' + n % 10));
    } else {
        text.push(char::from(b'0' + n));
    }
}

/// Appends the domain of the names.
fn push_domain(name: &mut ArrayString<72>, family: Family)
    requires { length name.old.bytes + length (domain_of family) ≤ 72 }
    ensures { name.new.bytes ≡ name.old.bytes ++ domain_of family }
{
    name.push_str(domain(family));
}

/// The domain of the names.
pub(crate) fn domain(family: Family) -> &'static str
    ensures { result.now ≡ domain_of family }
{
    match family {
        Family::Ipv4 => "in-addr.arpa",
        Family::Ipv6 => "ip6.arpa",
    }
}
