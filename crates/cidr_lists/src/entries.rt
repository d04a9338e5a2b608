//! The lines of lists that have a network or a host.
ghost use Rattle.std.specs.Prelude.{◌≡◌, ◌<◌, ◌++◌, ◌↔◌, true, IsTrue, List, Some, length, slice_get, ℕ};
ghost use Rattle.std.specs.Bool.{Decides};
ghost use Rattle.cidr.specs.either.IpText.{IsIpHostText, ip_host_text};
ghost use Rattle.cidr.specs.texts.HostText.{IsHostText};
ghost use Rattle.cidr.specs.texts.Printed.{length_text, plain_host_text};
ghost use Rattle.cidr.specs.declared.family.Family.TheVariants.{Ipv4};
ghost use Rattle.cidr_lists.specs.Entries.{ReadsEntry};

use crate::errors::{BadText, LineError};
use crate::lines::without_comment;
use cidr::{IpInet, Ipv4Inet};
use cidr_io::shown::byte_excerpt;

/// Where a line stands.
#[derive(Clone, Copy, Debug)]
pub struct Place<'a> {
    /// The name of the file.
    pub file: &'a str,
    /// The number of the line, from 1 on.
    pub number: u64,
}

/// A line that has a network or a host.
#[derive(Clone, Copy, Debug)]
pub struct Entry<'a> {
    /// Where the line stands.
    pub place: Place<'a>,
    /// The host; a network is the host at its first address.
    pub host: IpInet,
    /// Whether the field is what is printed of the host, without a full prefix length.
    pub is_canonical: bool,
}

/// The line at an index, counted from 0. The caller has to prove that there is one.
pub fn entry_at<'e, 'a>(entries: &'e [Entry<'a>], index: usize) -> &'e Entry<'a>
    requires { index < length entries.now }
    ensures { slice_get entries.now index ≡ Some result.now }
{
    &entries[index]
}

/// Whether a string ends in a slash and this prefix length.
fn ends_in_length(text: &[u8], len: u8) -> bool
    requires { len < 100 }
    ensures { Decides result ((front : List ℕ) × (text.now ≡ front ++ length_text len)) }
{
    if len < 10 {
        return text.ends_with(&[b'/', b'0' + len]);
    }
    text.ends_with(&[b'/', b'0' + len / 10, b'0' + len % 10])
}

/// Whether a string that represents the host is what is printed of it. An IPv4 address has one string, so that the
/// prefix length decides.
fn is_plain_ipv4(text: &str, host: &Ipv4Inet) -> bool
    requires { IsHostText Ipv4 text.now host.now }
    ensures { IsTrue result ↔ (text.now ≡ plain_host_text Ipv4 host.now) }
{
    let len = host.network_length();
    if len < 32 {
        return ends_in_length(text.as_bytes(), len);
    }
    let Some((_front, _back)) = text.split_once('/') else {
        return true;
    };
    false
}

/// Whether a string that represents the host is what is printed of it.
fn is_plain(text: &str, host: &IpInet) -> bool
    requires { IsIpHostText text.now host.now }
    ensures { IsTrue result ↔ (text.now ≡ ip_host_text plain_host_text host.now) }
{
    match host {
        IpInet::V4(host) => is_plain_ipv4(text, host),
        IpInet::V6(_) => text == host.to_text().as_str(),
    }
}

/// The entry that a line has: what stands before its comment, without white space at both ends, as a network or a host.
/// `None` for a line that is blank or a comment alone. A range is in error here.
///
/// The errors are `NotUtf8`, and then `NoNetwork` with the first error of parsing a host. A line of more than 1 MiB is
/// for the caller to find.
pub fn entry_of<'a>(place: Place<'a>, line: &[u8]) -> Result<Option<Entry<'a>>, LineError>
    ensures { ReadsEntry place.entry.file.now place.entry.number line.now result }
{
    let field = without_comment(line).trim_ascii();
    if field.is_empty() {
        return Ok(None);
    }
    let Ok(text) = str::from_utf8(field) else {
        return Err(LineError::NotUtf8(byte_excerpt(field)));
    };
    match text.parse::<IpInet>() {
        Ok(host) => Ok(Some(Entry {
            place,
            host,
            is_canonical: is_plain(text, &host),
        })),
        Err(e) => Err(LineError::NoNetwork(BadText::new(text), e)),
    }
}
