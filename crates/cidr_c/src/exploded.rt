//! Addresses and hosts as strings with all hexadecimal digits.
ghost use Rattle.std.specs.Prelude.{◌≡◌, ◌+◌, ◌*◌, ◌-◌, ◌/◌, ◌%◌, ◌≤◌, [], ◌∷◌, ◌++◌, decimal, length, map};
ghost use Rattle.std.specs.Char.{digit_char};
ghost use Rattle.std.specs.List.{join_with_byte};
ghost use Rattle.arrayvec.specs.ArrayVec.{array_vec_len};
ghost use Rattle.cidr.specs.either.IpAddress.{address_family, plain_bits};
ghost use Rattle.cidr.specs.either.IpText.{ip_host_text};
ghost use Rattle.cidr.specs.texts.Ipv6Text.{colon};
ghost use Rattle.cidr.specs.texts.Printed.{length_text};
ghost use Rattle.cidr.specs.declared.family.Family.TheVariants.{Ipv6};
ghost use Rattle.cidr_c.specs.calls.Calls.{IsPrintedInto, IsUnprinted};
ghost use Rattle.cidr_c.specs.model.Networks.{address_bits_in, address_family_in};
ghost use Rattle.cidr_c.specs.model.Texts.{exploded_host_text, exploded_text, group_digits};
ghost use Rattle.cidr_c.specs.model.Values.{IsAddressValue, IsHostValue, host_in};

use crate::labels::two_labels;
use crate::printing::{print, print_bytes};
use crate::values::{CValue, address_of, host_of};
use arrayvec::ArrayVec;
use cidr::{IpAddr, IpInet, Ipv6Addr, Ipv6Inet};
use cidr_io::decimal::decimal_text;

/// Writes an address as a string, in IPv6 with all digits, and returns its length, at most 39; 0 where the value is no
/// address.
#[unsafe(no_mangle)]
pub extern "C" fn pcidr_print_exploded_address(address: &CValue, out: &mut [u8]) -> usize
    ensures address { IsAddressValue address.now → IsPrintedInto
        (exploded_text (address_family_in address.now) (address_bits_in address.now)) out.old out.new result }
    ensures other { ¬ (IsAddressValue address.now) → IsUnprinted out.old out.new result }
{
    match address_of(address) {
        Some(address) => print_address(&address, out),
        None => 0,
    }
}

/// Writes a host as a string, in IPv6 with all digits, with its prefix length also where that is full, and returns its
/// length, at most 43; 0 where the value is no host.
#[unsafe(no_mangle)]
pub extern "C" fn pcidr_print_exploded_host(host: &CValue, out: &mut [u8]) -> usize
    ensures host { IsHostValue host.now →
        IsPrintedInto (ip_host_text exploded_host_text (host_in host.now)) out.old out.new result }
    ensures other { ¬ (IsHostValue host.now) → IsUnprinted out.old out.new result }
{
    match host_of(host) {
        Some(host) => print_host(&host, out),
        None => 0,
    }
}

/// Writes an address, in IPv6 with all digits.
fn print_address(address: &IpAddr, out: &mut [u8]) -> usize
    ensures { IsPrintedInto (exploded_text (address_family address.now) (plain_bits address.now)) out.old out.new result }
{
    match address {
        IpAddr::V4(address) => print(address.to_text().as_str(), out),
        IpAddr::V6(address) => print_ipv6_address(address, out),
    }
}

/// Writes a host with its prefix length, in IPv6 with all digits.
fn print_host(host: &IpInet, out: &mut [u8]) -> usize
    ensures { IsPrintedInto (ip_host_text exploded_host_text host.now) out.old out.new result }
{
    match host {
        IpInet::V4(host) => print(host.with_length().to_text().as_str(), out),
        IpInet::V6(host) => print_ipv6_host(host, out),
    }
}

/// Writes an IPv6 address with all digits. The string stays where it was made.
fn print_ipv6_address(address: &Ipv6Addr, out: &mut [u8]) -> usize
    ensures { IsPrintedInto (exploded_text Ipv6 address.now) out.old out.new result }
{
    let mut text = ArrayVec::new();
    push_groups(&mut text, &address.segments());
    print_bytes(text.as_slice(), out)
}

/// Writes an IPv6 host with all digits, and its prefix length.
fn print_ipv6_host(host: &Ipv6Inet, out: &mut [u8]) -> usize
    ensures { IsPrintedInto (exploded_host_text Ipv6 host.now) out.old out.new result }
{
    let mut text = ArrayVec::new();
    push_groups(&mut text, &host.address().segments());
    text.push(b'/');
    push_decimal(&mut text, host.network_length());
    print_bytes(text.as_slice(), out)
}

/// Appends groups with all digits, with colons between them.
#[tactic(auto, using(crate::proofs::GroupDigits::group_laws))]
fn push_groups(text: &mut ArrayVec<u8, 43>, groups: &[u16])
    requires { array_vec_len text.old + (5 * length groups.now - 1) ≤ 43 }
    ensures bytes { text.new.items ≡ text.old.items ++ join_with_byte colon (map group_digits groups.now) }
    ensures len { array_vec_len text.new ≡ array_vec_len text.old + (5 * length groups.now - 1) }
{
    if let [first, rest @ ..] = groups {
        push_group(text, *first);
        for group in rest {
            text.push(b':');
            push_group(text, *group);
        }
    }
}

/// Appends the four digits of a group.
#[inline(always)]
fn push_group(text: &mut ArrayVec<u8, 43>, group: u16)
    requires { array_vec_len text.old + 4 ≤ 43 }
    ensures bytes { text.new.items ≡ text.old.items ++ group_digits group }
    ensures len { array_vec_len text.new ≡ array_vec_len text.old + 4 }
{
    push_octet(text, (group / 0x100) as u8);
    push_octet(text, (group % 0x100) as u8);
}

/// Appends the two digits of an octet, which are its labels in reverse DNS the other way round.
#[inline(always)]
fn push_octet(text: &mut ArrayVec<u8, 43>, octet: u8)
    requires { array_vec_len text.old + 2 ≤ 43 }
    ensures bytes { text.new.items ≡ text.old.items ++ digit_char (octet / 16) ∷ digit_char (octet % 16) ∷ [] }
    ensures len { array_vec_len text.new ≡ array_vec_len text.old + 2 }
{
    let labels = two_labels(octet).as_bytes();
    text.push(labels[2]);
    text.push(labels[0]);
}

/// Appends the number in decimal.
fn push_decimal(text: &mut ArrayVec<u8, 43>, n: u8)
    requires { array_vec_len text.old + 3 ≤ 43 }
    ensures { text.new.items ≡ text.old.items ++ decimal n }
{
    let digits = decimal_text(u128::from(n));
    let Ok(()) = text.try_extend_from_slice(digits.as_str().as_bytes()) else {
        unreachable!()
    };
}
