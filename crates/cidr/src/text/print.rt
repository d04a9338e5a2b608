//! Printing an address with its prefix length, as networks and hosts do, and pairs in parentheses.
ghost use Rattle.std.specs.Prelude.{◌≡◌, ◌+◌, ◌≤◌, ◌++◌, length};
ghost use Rattle.cidr.specs.model.Host.{host_of};
ghost use Rattle.cidr.specs.model.Network.{width_of};
ghost use Rattle.cidr.specs.texts.Printed.{length_text, plain_host_text, forced_host_text, longest_text, in_parentheses, IsAppended};

use crate::addr::decimal::push_decimal;
use crate::internal_traits::address_bits::AddressText;
use arrayvec::ArrayString;
use std::fmt;

/// Appends a slash and the prefix length.
#[inline(always)]
#[tactic(auto, using(crate::proofs::NetworkPrinting::slash_laws))]
fn push_length(text: &mut ArrayString<43>, n: u8)
    requires { length text.old.bytes + 4 ≤ 43 }
    ensures bytes { text.new.bytes ≡ text.old.bytes ++ length_text n }
{
    text.push('/');
    push_decimal(text, n);
}

/// The address and its prefix length.
#[inline(always)]
#[tactic(auto, using(crate::proofs::NetworkPrinting::longest_laws))]
pub(crate) fn forced<A: AddressText>(address: A, len: u8) -> ArrayString<43>
    requires { len ≤ width_of A.FAMILY }
    ensures text { result.bytes ≡ forced_host_text A.FAMILY (host_of (A.bits address) len) }
    ensures len { length result.bytes ≤ longest_text A.FAMILY }
{
    let mut text = ArrayString::new();
    address.push_to(&mut text);
    push_length(&mut text, len);
    text
}

/// The address, and its prefix length unless that is full.
#[inline(always)]
#[tactic(auto, using(crate::proofs::NetworkPrinting::longest_laws))]
pub(crate) fn plain<A: AddressText>(address: A, len: u8) -> ArrayString<43>
    requires { len ≤ width_of A.FAMILY }
    ensures text { result.bytes ≡ plain_host_text A.FAMILY (host_of (A.bits address) len) }
    ensures len { length result.bytes ≤ longest_text A.FAMILY }
{
    let mut text = ArrayString::new();
    address.push_to(&mut text);
    if len != A::FAMILY.len() {
        push_length(&mut text, len);
    }
    text
}

/// Two strings in parentheses, with a comma and a space between them.
pub(crate) fn parenthesized(first: &str, second: &str) -> ArrayString<90>
    requires first { length first.now ≤ 43 }
    requires second { length second.now ≤ 43 }
    ensures text { result.bytes ≡ in_parentheses first.now second.now }
    ensures len { length result.bytes ≡ length first.now + length second.now + 4 }
{
    let mut text = ArrayString::new();
    text.push('(');
    text.push_str(first);
    text.push_str(", ");
    text.push_str(second);
    text.push(')');
    text
}

/// Appends a string where there is room for it.
#[inline(always)]
pub(crate) fn append<const CAP: usize>(text: &mut ArrayString<CAP>, printed: &str) -> fmt::Result
    ensures { IsAppended CAP printed.now text.old.bytes text.new.bytes result }
{
    if CAP - text.len() < printed.len() {
        return Err(fmt::Error);
    }
    text.push_str(printed);
    Ok(())
}
