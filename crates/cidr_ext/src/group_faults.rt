//! What is wrong with a group of an address, or with its octets.
ghost use Rattle.std.specs.Prelude.{◌≡◌, ◌==◌, length, count_by};
ghost use Rattle.std.specs.List.{list_all, list_any};
ghost use Rattle.std.specs.Str.{all_ascii_digits};
ghost use Rattle.std.specs.Char.{is_ascii_hexdigit};
ghost use Rattle.cidr.specs.texts.Ipv4Text.{dot};
ghost use Rattle.cidr_ext.specs.texts.TextFaults.{before_slash, begins_with_zero, group_test, group_texts, is_above_255, is_byte, is_dotted, is_long, is_number, octet_texts, some_group};

/// What may be wrong with a group.
#[derive(Clone, Copy)]
pub(crate) enum GroupFault {
    LeadingZero,
    NumberAbove255,
    NotFourOctets,
    LongGroup,
}

/// Whether all bytes are decimal digits.
fn has_digits_alone(text: &str) -> bool
    ensures { result ≡ all_ascii_digits text.now }
{
    text.as_bytes().iter().all(|byte| byte.is_ascii_digit())
}

/// Whether a string is one decimal digit or more.
fn is_number(text: &str) -> bool
    ensures { result ≡ is_number text.now }
{
    !text.is_empty() && has_digits_alone(text)
}

/// Whether a byte is in a string.
fn has(text: &str, byte: u8) -> bool
    ensures { result ≡ list_any (is_byte byte) text.now }
{
    text.as_bytes().iter().any(|other| *other == byte)
}

/// Whether each octet of a group is a number.
fn has_numbers_alone(group: &str) -> bool
    ensures { result ≡ list_all is_number (octet_texts group.now) }
{
    group.split('.').all(|octet| is_number(octet))
}

/// Whether a group is decimal numbers joined by dots, or one in an address that has no colon.
fn is_dotted(address: &str, group: &str) -> bool
    ensures { result ≡ is_dotted address.now group.now }
{
    has_numbers_alone(group) && (has(group, b'.') || !has(address, b':'))
}

/// Whether an octet has a zero before other digits.
fn begins_with_zero(octet: &str) -> bool
    ensures { result ≡ begins_with_zero octet.now }
{
    let digits = octet.as_bytes();
    digits.len() > 1 && digits[0] == b'0'
}

/// Whether an octet is a number above 255.
fn is_above_255(octet: &str) -> bool
    ensures { result ≡ is_above_255 octet.now }
{
    is_number(octet) && octet.parse::<u8>().is_err()
}

/// Whether an octet of a group has a zero before other digits.
fn has_leading_zero(group: &str) -> bool
    ensures { result ≡ list_any begins_with_zero (octet_texts group.now) }
{
    group.split('.').any(|octet| begins_with_zero(octet))
}

/// Whether an octet of a group is a number above 255.
fn has_large_number(group: &str) -> bool
    ensures { result ≡ list_any is_above_255 (octet_texts group.now) }
{
    group.split('.').any(|octet| is_above_255(octet))
}

/// How many dots a group has.
fn dot_count(group: &str) -> usize
    ensures { result ≡ count_by (is_byte dot) group.now }
{
    group
        .as_bytes()
        .iter()
        .filter(|byte| **byte == b'.')
        .count()
}

/// Whether a group has four octets.
fn has_four_octets(group: &str) -> bool
    ensures { result ≡ (length (octet_texts group.now) == 4) }
{
    dot_count(group) == 3
}

/// Whether all bytes are hexadecimal digits.
fn has_hex_digits_alone(text: &str) -> bool
    ensures { result ≡ list_all is_ascii_hexdigit text.now }
{
    text.as_bytes().iter().all(|byte| byte.is_ascii_hexdigit())
}

/// Whether a group of an address with colons has more than four hexadecimal digits.
fn is_long(address: &str, group: &str) -> bool
    ensures { result ≡ is_long address.now group.now }
{
    has(address, b':') && group.len() > 4 && has_hex_digits_alone(group)
}

/// Whether a group of an address has the fault.
fn group_has(fault: GroupFault, address: &str, group: &str) -> bool
    ensures { result ≡ group_test fault address.now group.now }
{
    match fault {
        GroupFault::LeadingZero => is_dotted(address, group) && has_leading_zero(group),
        GroupFault::NumberAbove255 => is_dotted(address, group) && has_large_number(group),
        GroupFault::NotFourOctets => is_dotted(address, group) && !has_four_octets(group),
        GroupFault::LongGroup => is_long(address, group),
    }
}

/// Whether a group of an address has the fault.
fn address_has(fault: GroupFault, address: &str) -> bool
    ensures { result ≡ list_any (group_test fault address.now) (group_texts address.now) }
{
    address
        .split(':')
        .any(|group| group_has(fault, address, group))
}

/// What stands before the first slash.
fn before_slash(text: &str) -> &str
    ensures { result.now ≡ before_slash text.now }
{
    match text.split_once('/') {
        Some((front, _)) => front,
        None => text,
    }
}

/// Whether a group of an address of a string has the fault.
pub(crate) fn some_group_has(fault: GroupFault, text: &str) -> bool
    ensures { result ≡ some_group (group_test fault) text.now }
{
    let addresses = before_slash(text);
    addresses
        .split('-')
        .any(|address| address_has(fault, address))
}
