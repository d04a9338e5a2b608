//! The forms of lists: lines of networks, or the files of the Internet registries.
ghost use Rattle.std.specs.Prelude.{◌≡◌, ◌⊎◌, ◌+◌, ◌<◌, ◌^◌, List, MatchOption, MatchResult, ℕ};
ghost use Rattle.std.specs.Bool.{Decides};
ghost use Rattle.cidr.specs.either.IpAddress.{IsIpText};
ghost use Rattle.cidr.specs.model.Bits.{number};
ghost use Rattle.cidr_lists.specs.Lists.{bits_in};
ghost use Rattle.cidr_lists.specs.Reading.{IsBlock, IsLastBy, ReadsBy};
ghost use Rattle.cidr_lists.specs.Records.{EndsAt, HasBadFields, IsBadCount, IsBadDelegation, IsCount, IsDelegated, IsNoDelegation, IsRecord, IsRecordContent, IsType, is_version, record_column};

use crate::columns::{Column, Separator, address_in, field_at, is_no_row};
use crate::errors::LineError;
use crate::forms::network_with;
use crate::lines::{Content, HostBits, content_of};
use cidr::{Family, IpAddr, Ipv4Addr};
use cidr_io::shown::byte_excerpt;

/// How the lines of a list say networks.
#[derive(Clone, Copy, Debug, Drop, PartialEq)]
pub enum ListForm {
    /// Each is a network, an address or a range, read in this way.
    Networks(HostBits),
    /// Each is a record of the files in which the Internet registries (RIR) publish what they have delegated, as
    /// `ripencc|DE|ipv4|192.0.2.0|768|20200101|allocated`: a first address, and for IPv4 how many there are, or for IPv6 the
    /// prefix length. Records of autonomous systems, of what is available or reserved, and summaries say nothing.
    Rir,
}

impl ListForm {
    /// How networks are read that stand in rows of a table or in rules, beside lists of this form.
    pub fn host_bits(self) -> HostBits
        ensures { result ≡ bits_in self }
    {
        match self {
            ListForm::Networks(host_bits) => host_bits,
            ListForm::Rir => HostBits::Refused,
        }
    }
}

/// The field of a record at an index, counted from 0.
fn record_column(place: u64) -> Column
    ensures { result ≡ record_column place }
{
    Column {
        place,
        separator: Separator::Byte(b'|'),
    }
}

/// What a record is of.
#[derive(Clone, Copy)]
pub(crate) enum RecordType {
    /// Addresses of a family.
    Addresses(Family),
    /// Numbers of autonomous systems.
    AsNumbers,
}

/// The type that a field says, in letters of either case.
fn type_of(field: &[u8]) -> Option<RecordType>
    ensures { MatchOption result ((one : RecordType) → ¬ (IsType field.now one)) (IsType field.now) }
{
    if field.eq_ignore_ascii_case(b"ipv4") {
        return Some(RecordType::Addresses(Family::Ipv4));
    }
    if field.eq_ignore_ascii_case(b"ipv6") {
        return Some(RecordType::Addresses(Family::Ipv6));
    }
    if field.eq_ignore_ascii_case(b"asn") {
        return Some(RecordType::AsNumbers);
    }
    None
}

/// Whether a field begins with a digit, as a version does, which the first line has in place of a registry.
fn is_version(registry: &[u8]) -> bool
    ensures { result ≡ is_version registry.now }
{
    match registry {
        [] => false,
        [first, ..] => 48 <= *first && *first <= 57,
    }
}

/// Whether a record of a first address and a status delegates nothing.
fn is_no_delegation(start: &[u8], status: &[u8]) -> bool
    ensures { Decides result (IsNoDelegation start.now status.now) }
{
    start == b"*".as_slice()
        || status.eq_ignore_ascii_case(b"available")
        || status.eq_ignore_ascii_case(b"reserved")
}

/// The last of so many addresses from a first one on, if there are so many.
fn last_of(first: Ipv4Addr, count: u64) -> Option<Ipv4Addr>
    ensures { MatchOption result ((count ≡ 0) ⊎ (2 ^ 32 < number first + count)) (EndsAt first count) }
{
    let number = u64::from(first.to_bits());
    if count == 0 || count > (1 << 32) - number {
        None
    } else {
        Some(Ipv4Addr::from_bits((number + count - 1) as u32))
    }
}

/// The last of as many addresses from a first one on as a string says, if it is a number of these.
fn last_by(first: Ipv4Addr, count: &str) -> Option<Ipv4Addr>
    ensures { MatchOption result ((n : ℕ) → IsCount count.now n → (n ≡ 0) ⊎ (2 ^ 32 < number first + n)) (IsLastBy first count.now) }
{
    match count.parse::<u64>() {
        Ok(count) => last_of(first, count),
        Err(_) => None,
    }
}

/// The addresses from a first one on, of which there are as many as the value says.
fn block_of(first: Ipv4Addr, value: &[u8]) -> Result<Content, LineError>
    ensures { MatchResult result (IsBlock first value.now) (IsBadCount first value.now) }
{
    let Ok(count) = str::from_utf8(value) else {
        return Err(LineError::NotUtf8(byte_excerpt(value)));
    };
    match last_by(first, count) {
        Some(last) => Ok(Content::Ipv4Range(first, last)),
        None => Err(LineError::NoCount(byte_excerpt(value))),
    }
}

/// What a record of a family, a first address, whose field this is, and a value says.
fn addresses_from(
    family: Family,
    first: IpAddr,
    start: &[u8],
    value: &[u8],
) -> Result<Content, LineError>
    ensures { IsIpText start.now first → MatchResult result (IsDelegated family start.now value.now) (IsBadDelegation family start.now value.now) }
{
    match (family, first) {
        (Family::Ipv4, IpAddr::V4(first)) => block_of(first, value),
        (Family::Ipv6, IpAddr::V6(_)) => match network_with(HostBits::Refused, &first, value) {
            Ok(network) => Ok(Content::Network(network)),
            Err(e) => Err(e),
        },
        (Family::Ipv4, IpAddr::V6(_)) | (Family::Ipv6, IpAddr::V4(_)) => {
            Err(LineError::OtherType(byte_excerpt(start)))
        }
    }
}

/// What a record of addresses of a family says, by the fields of the first one and of the value.
fn delegation(family: Family, start: &[u8], value: &[u8]) -> Result<Content, LineError>
    ensures { MatchResult result (IsDelegated family start.now value.now) (IsBadDelegation family start.now value.now) }
{
    match address_in(start) {
        Ok(first) => addresses_from(family, first, start, value),
        Err(e) => Err(e),
    }
}

/// What a record of these fields says.
fn fields_say(
    registry: &[u8],
    kind: &[u8],
    start: &[u8],
    value: &[u8],
    status: &[u8],
) -> Result<Content, LineError>
    ensures { (line : List ℕ) → IsRecord line registry.now kind.now start.now value.now status.now
        → MatchResult result (IsRecordContent line) (HasBadFields line) }
{
    if is_version(registry) {
        return Ok(Content::Blank);
    }
    match type_of(kind) {
        None => Err(LineError::NoType(byte_excerpt(kind))),
        Some(RecordType::AsNumbers) => Ok(Content::Blank),
        Some(RecordType::Addresses(family)) => {
            if is_no_delegation(start, status) {
                return Ok(Content::Blank);
            }
            delegation(family, start, value)
        }
    }
}

/// What a record says: nothing of a line that is blank or a comment, which begins with `#` or `;`, of the first line, whose
/// first field is a version, and of a record that is not of addresses, a summary, `available` or `reserved`.
///
/// The errors are `NoField` of a line whose fifth field is missing or empty; `NoType`; `NotUtf8` or `NoAddress` of the first
/// address, or `OtherType` of one that is not of the type;
/// `NotUtf8` or `NoCount` of the value of an IPv4 address; and those of a prefix length, as `row_of` has them for `RowLayout::Pfx2as`.
fn record_content(line: &[u8]) -> Result<Content, LineError>
    ensures { MatchResult result (IsRecordContent line.now) (HasBadFields line.now) }
{
    if is_no_row(Separator::Byte(b'|'), line.trim_ascii()) {
        return Ok(Content::Blank);
    }
    let value = field_at(record_column(4), line);
    if value.is_empty() {
        return Err(LineError::NoField);
    }
    let registry = field_at(record_column(0), line);
    let kind = field_at(record_column(2), line);
    let start = field_at(record_column(3), line);
    let status = field_at(record_column(6), line);
    fields_say(registry, kind, start, value, status)
}

/// What a line of a list of this form says. The errors are those of `content_of`; of a record they are `NoField` where the
/// fifth field is missing or empty, and `NoType`; of one of addresses `NotUtf8`, `NoAddress` or `OtherType` of the first address, then `NotUtf8` or
/// `NoCount` of their number, or of a prefix length `NoLength`, `NotUtf8` or `NoNetwork`. A line of more than 1 MiB is for the caller to find. It takes time in
/// the length of the line and allocates nothing.
pub fn content_in(form: ListForm, line: &[u8]) -> Result<Content, LineError>
    ensures { ReadsBy form line.now result }
{
    match form {
        ListForm::Networks(host_bits) => content_of(host_bits, line),
        ListForm::Rir => record_content(line),
    }
}
