//! What is wrong with a string that is no network and no address.
ghost use Rattle.std.specs.Prelude.{◌≡◌};
ghost use Rattle.std.specs.Bool.{Decides};
ghost use Rattle.cidr_lists.specs.Wrong.{HasAddressBehind, HasMoreBehind, IsAddress, IsAnything, IsHost, IsRange, IsSpacedAddress, IsWrong, StandAround, begins_with_mark, is_of_length, wrong_message};

use arrayvec::ArrayString;
use cidr::{IpAddr, IpInet};
use cidr_ext::{TextFault, text_fault};

/// What is wrong with a string that is no network and no address, in the order in which it is looked for.
#[derive(Clone, Copy, Debug)]
pub enum Wrong {
    /// It begins with a byte order mark, U+FEFF: `a byte order mark in front`.
    ByteOrderMark,
    /// What `text_fault` of `cidr_ext` finds.
    Text(TextFault),
    /// An address stands behind the first slash, and is no mask: `no contiguous mask of its family`.
    NoMask,
    /// Two addresses have a hyphen between them: `a range of addresses`.
    Range,
    /// A network or an address stands before a space or a tab: `more than a network or an address`.
    MoreBehind,
    /// Where masks are read, a mask of a host with set bits is a network mask of no bit as well as a host mask of all:
    /// `/0 by a network mask, 10.0.0.1 by a wildcard`.
    EitherMask(IpInet),
}

impl Wrong {
    /// The message, of at most 99 bytes. Nothing is allocated.
    pub fn to_text(&self) -> ArrayString<99>
        ensures { result.bytes ≡ wrong_message self.now }
    {
        let mut text = ArrayString::new();
        match self {
            Wrong::ByteOrderMark => text.push_str("a byte order mark in front"),
            Wrong::Text(fault) => text.push_str(fault.to_text().as_str()),
            Wrong::NoMask => text.push_str("no contiguous mask of its family"),
            Wrong::Range => text.push_str("a range of addresses"),
            Wrong::MoreBehind => text.push_str("more than a network or an address"),
            Wrong::EitherMask(host) => {
                text.push_str("/0 by a network mask, ");
                text.push_str(host.address().to_text().as_str());
                text.push_str(" by a wildcard");
            }
        }
        text
    }

    /// Whether it is wrong of a prefix length, which an address has not.
    pub fn is_of_length(&self) -> bool
        ensures { result ≡ is_of_length self.now }
    {
        match self {
            Wrong::Text(TextFault::MaskForLength | TextFault::HostBits(_)) => true,
            Wrong::NoMask | Wrong::EitherMask(_) => true,
            _ => false,
        }
    }
}

/// Whether a string begins with U+FEFF.
fn begins_with_mark(bytes: &[u8]) -> bool
    ensures { result ≡ begins_with_mark bytes.now }
{
    match bytes {
        [a, b, c, ..] => *a == 0xef && (*b == 0xbb && *c == 0xbf),
        _ => false,
    }
}

/// Whether a string is an address.
fn is_address(text: &str) -> bool
    ensures { Decides result (IsAddress text.now) }
{
    text.parse::<IpAddr>().is_ok()
}

/// The same without white space at both ends.
fn is_spaced_address(text: &str) -> bool
    ensures { Decides result (IsSpacedAddress text.now) }
{
    is_address(text.trim_ascii())
}

/// Whether a string is a network or a host.
fn is_host(text: &str) -> bool
    ensures { Decides result (IsHost text.now) }
{
    text.parse::<IpInet>().is_ok()
}

/// Whether an address stands behind the first slash.
fn has_address_behind(text: &str) -> bool
    ensures { Decides result (HasAddressBehind text.now) }
{
    match text.split_once('/') {
        Some((_front, back)) => is_address(back),
        None => false,
    }
}

/// Whether an address stands behind the first space.
pub(crate) fn has_spaced_address(text: &str) -> bool
    ensures { Decides result (StandAround 32 IsAnything IsAddress text.now) }
{
    match text.split_once(' ') {
        Some((_front, back)) => is_address(back),
        None => false,
    }
}

/// Whether two strings are.
fn are_spaced_addresses(front: &str, back: &str) -> bool
    ensures { Decides result (IsSpacedAddress front.now × IsSpacedAddress back.now) }
{
    if !is_spaced_address(front) {
        return false;
    }
    is_spaced_address(back)
}

/// Whether a string is a range.
fn is_range(text: &str) -> bool
    ensures { Decides result (IsRange text.now) }
{
    match text.split_once('-') {
        Some((front, back)) => are_spaced_addresses(front, back),
        None => false,
    }
}

/// Whether a network or an address stands before the first space.
fn has_more_behind_space(text: &str) -> bool
    ensures { Decides result (StandAround 32 IsHost IsAnything text.now) }
{
    match text.split_once(' ') {
        Some((front, _back)) => is_host(front),
        None => false,
    }
}

/// Whether a network or an address stands before the first tab.
fn has_more_behind_tab(text: &str) -> bool
    ensures { Decides result (StandAround 9 IsHost IsAnything text.now) }
{
    match text.split_once('\t') {
        Some((front, _back)) => is_host(front),
        None => false,
    }
}

/// Whether a network or an address stands before the first space or the first tab.
fn has_more_behind(text: &str) -> bool
    ensures { Decides result (HasMoreBehind text.now) }
{
    if has_more_behind_space(text) {
        return true;
    }
    has_more_behind_tab(text)
}

/// What is wrong with a string that is no network and no address: the first of `Wrong` that holds, but for
/// `EitherMask`; `None` where none does. It costs a few passes over the string, and allocates nothing.
pub fn wrong_with(text: &str) -> Option<Wrong>
    ensures { IsWrong text.now result }
{
    if begins_with_mark(text.as_bytes()) {
        return Some(Wrong::ByteOrderMark);
    }
    if let Some(fault) = text_fault(text) {
        return Some(Wrong::Text(fault));
    }
    if has_address_behind(text) {
        return Some(Wrong::NoMask);
    }
    if is_range(text) {
        return Some(Wrong::Range);
    }
    if has_more_behind(text) {
        return Some(Wrong::MoreBehind);
    }
    None
}
