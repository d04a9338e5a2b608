//! Reading the names of networks in reverse DNS, in one pass over the bytes.
ghost use Rattle.std.specs.Prelude.{◌≡◌, ◌≢◌, ◌↔◌, ◌⊎◌, ◌+◌, ◌*◌, ◌/◌, ◌%◌, ◌^◌, ◌<◌, ◌≤◌, [], ◌∷◌, ◌++◌, ℕ, Bool, List, Some, decimal, length, map, reverse, MatchOption, IfSome};
ghost use Rattle.std.specs.Char.{digit_char, to_ascii_lowercase};
ghost use Rattle.cidr.specs.model.Address.{parts_of};
ghost use Rattle.cidr.specs.model.Bits.{bits, number};
ghost use Rattle.cidr.specs.model.Network.{width_of};
ghost use Rattle.cidr.specs.texts.Ipv4Text.{dot};
ghost use Rattle.cidr.specs.declared.family.Family.TheVariants.{Ipv4, Ipv6};
ghost use Rattle.cidr_ext.specs.texts.Reverse.{domain_of, IsReverseName, label_text, label_width, labels_text};
ghost use Rattle.cidr_ext.specs.internal.LabelReading.{HasLabels, HasName, IsNamedBy, IsWithoutDot, TakesLabel};

use crate::reverse::name::{domain, label_bits};
use cidr::Family;

/// The value of the hexadecimal digit, which may be of either case.
fn hex_value(byte: u8) -> Option<u8>
    ensures { MatchOption result ((n : ℕ) → n < 16 → to_ascii_lowercase byte ≢ digit_char n)
        (λ n. (n < 16) × (to_ascii_lowercase byte ≡ digit_char n)) }
{
    match byte {
        b'0'..=b'9' => Some(byte - b'0'),
        b'a'..=b'f' => Some(byte - b'a' + 10),
        b'A'..=b'F' => Some(byte - b'A' + 10),
        _ => None,
    }
}

/// What follows a dot at the front.
fn take_dot(text: &[u8]) -> Option<&[u8]>
    ensures { MatchOption result ((rest : List ℕ) → text.now ≢ dot ∷ rest) (λ rest. text.now ≡ dot ∷ rest.now) }
{
    match text {
        [b'.', rest @ ..] => Some(rest),
        _ => None,
    }
}

/// The value of the decimal digit at the front, and what follows it.
fn take_digit(text: &[u8]) -> Option<(u8, &[u8])>
    ensures { MatchOption result ((d : ℕ) (rest : List ℕ) → d < 10 → text.now ≢ (48 + d) ∷ rest)
        (λ p. (p.0 < 10) × (text.now ≡ (48 + p.0) ∷ p.1.now)) }
{
    match text {
        [digit @ b'0'..=b'9', rest @ ..] => Some((*digit - b'0', rest)),
        _ => None,
    }
}

/// The octet at the front, in decimal without leading zeros and with a dot behind it, and what follows the dot.
fn take_octet(text: &[u8]) -> Option<(u8, &[u8])>
    ensures { TakesLabel Ipv4 text.now result }
{
    let (first, rest) = take_digit(text)?;
    if let Some(rest) = take_dot(rest) {
        return Some((first, rest));
    }
    if first == 0 {
        return None;
    }
    let (second, rest) = take_digit(rest)?;
    let two = first * 10 + second;
    if let Some(rest) = take_dot(rest) {
        return Some((two, rest));
    }
    let (third, rest) = take_digit(rest)?;
    let three = u16::from(two) * 10 + u16::from(third);
    if three > 255 {
        return None;
    }
    Some((three as u8, take_dot(rest)?))
}

/// The nibble at the front, a hexadecimal digit with a dot behind it, and what follows the dot.
fn take_nibble(text: &[u8]) -> Option<(u8, &[u8])>
    ensures { TakesLabel Ipv6 text.now result }
{
    match text {
        [digit, b'.', rest @ ..] => Some((hex_value(*digit)?, rest)),
        _ => None,
    }
}

/// The label at the front, with a dot behind it, and what follows the dot.
fn take_label(family: Family, text: &[u8]) -> Option<(u8, &[u8])>
    ensures { TakesLabel family text.now result }
{
    match family {
        Family::Ipv4 => take_octet(text),
        Family::Ipv6 => take_nibble(text),
    }
}

/// The number with the bits of this label behind its own.
fn with_label(family: Family, number: u128, label: u8) -> u128
    requires { number * 2 ^ label_width family + label < 2 ^ 128 }
    ensures { result ≡ number * 2 ^ label_width family + label }
{
    match family {
        Family::Ipv4 => number * 256 + u128::from(label),
        Family::Ipv6 => number * 16 + u128::from(label),
    }
}

/// The number that is written by labels with a dot behind each, the last one first, and how many they are. There are
/// no more than `room`.
fn read_labels(family: Family, text: &[u8], room: u8) -> Option<(u128, u8)>
    requires { label_width family * room ≤ 128 }
    ensures found { IfSome result (λ p. (p.1 ≤ room) × (p.0 < 2 ^ (label_width family * p.1)) ×
        HasLabels family p.1 text.now (bits (label_width family * p.1) p.0)) }
    ensures only { (count : ℕ) (network : List Bool) → count ≤ room → HasLabels family count text.now network →
        result ≡ Some (number network, count) }
{
    if text.is_empty() {
        return Some((0, 0));
    }
    let room = room.checked_sub(1)?;
    let (label, rest) = take_label(family, text)?;
    let (number, count) = read_labels(family, rest, room)?;
    Some((with_label(family, number, label), count + 1))
}

/// The string without the dot at its end, if there is one.
fn without_final_dot(text: &[u8]) -> &[u8]
    ensures { IsWithoutDot text.now result.now }
{
    match text.split_last() {
        Some((b'.', front)) => front,
        _ => text,
    }
}

/// What precedes the domain, which may be in upper or lower case.
fn before_domain<'a>(text: &'a [u8], domain: &str) -> Option<&'a [u8]>
    ensures { MatchOption result
        ((front : List ℕ) → map to_ascii_lowercase text.now ≢ front ++ map to_ascii_lowercase domain.now)
        (λ front. map to_ascii_lowercase text.now ≡
        map to_ascii_lowercase front.now ++ map to_ascii_lowercase domain.now) }
{
    let (front, end) = text.split_at(text.len().checked_sub(domain.len())?);
    if end.eq_ignore_ascii_case(domain.as_bytes()) {
        Some(front)
    } else {
        None
    }
}

/// The family, the number of the bits and the prefix length of the network that has these labels.
fn read_family(family: Family, labels: &[u8]) -> Option<(Family, u128, u8)>
    ensures found { IfSome result (λ p. (p.0 ≡ family) × IsNamedBy labels.now p.0 p.1 p.2) }
    ensures only { (network : List Bool) → HasName family labels.now network →
        result ≡ Some (family, number network, length network) }
{
    let width = label_bits(family);
    let (number, count) = read_labels(family, labels, family.len() / width)?;
    Some((family, number, count * width))
}

/// The family, the number of the bits and the prefix length of the network that has this name.
pub(crate) fn read_name(name: &str) -> Option<(Family, u128, u8)>
    ensures found { IfSome result
        (λ p. (p.2 ≤ width_of p.0) × (p.1 < 2 ^ p.2) × IsReverseName p.0 name.now (bits p.2 p.1)) }
    ensures only { (family : Family) (network : List Bool) → IsReverseName family name.now network →
        result ≡ Some (family, number network, length network) }
{
    let name = without_final_dot(name.as_bytes());
    match before_domain(name, domain(Family::Ipv4)) {
        Some(labels) => read_family(Family::Ipv4, labels),
        None => read_family(Family::Ipv6, before_domain(name, domain(Family::Ipv6))?),
    }
}
