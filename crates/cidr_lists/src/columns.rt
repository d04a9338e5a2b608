//! The fields of a line.
ghost use Rattle.std.specs.Prelude.{◌≡◌, ◌≤◌, ◌==◌, [], length, IsUtf8, MatchOption, MatchResult};
ghost use Rattle.std.specs.Bool.{Decides};
ghost use Rattle.std.specs.Char.{is_ascii_whitespace};
ghost use Rattle.std.specs.List.{before_first, position_or_len};
ghost use Rattle.std.specs.Str.{IsTrimAscii};
ghost use Rattle.cidr.specs.either.IpAddress.{IsIpText};
ghost use Rattle.cidr_lists.specs.Lists.{IsField, IsFirstField, IsNetworkBy};
ghost use Rattle.cidr_lists.specs.Fields.{AreFirstAndRest, HasFields, HasNoFields, IsFieldOf, IsNoAddressField, IsNoNetworkField, IsSplit, ReadsAddress, begin_of, begins_comment, behind_field, field_at, separates};

use crate::errors::{BadText, LineError};
use crate::lines::{HostBits, is_comment_sign, read_network, without_comment};
use crate::masks::bad_network;
use cidr::{IpAddr, IpCidr};
use cidr_io::shown::byte_excerpt;

/// What stands before the first ASCII white space, behind white space at the front: of ` 192.0.2.1 eth0` it is
/// `192.0.2.1`. A comment sign in it is a byte like any other. Of white space alone it is empty.
pub fn first_field(bytes: &[u8]) -> &[u8]
    ensures field { IsFirstField bytes.now result.now }
    ensures within { length result.now ≤ length bytes.now }
{
    let rest = bytes.trim_ascii_start();
    &rest[..len_to_white_space(rest)]
}

/// What parts the fields of a line.
#[derive(Clone, Copy, Debug, Drop, PartialEq)]
pub enum Separator {
    /// ASCII white space, however much stands between two fields. In front of the first field it parts nothing.
    WhiteSpace,
    /// This byte, so that two of them have an empty field between them.
    Byte(u8),
}

/// Which field of each line is read.
#[derive(Clone, Copy, Debug, Drop, PartialEq)]
pub struct Column {
    /// Its index, counted from 0.
    pub place: u64,
    /// What parts it from others.
    pub separator: Separator,
}

/// Whether a byte parts fields.
fn separates(separator: Separator, byte: u8) -> bool
    ensures { result ≡ separates separator byte }
{
    match separator {
        Separator::WhiteSpace => byte.is_ascii_whitespace(),
        Separator::Byte(other) => byte == other,
    }
}

/// A line from where its fields begin on.
fn begin_of(separator: Separator, line: &[u8]) -> &[u8]
    ensures { result.now ≡ begin_of separator line.now }
{
    match separator {
        Separator::WhiteSpace => line.trim_ascii_start(),
        Separator::Byte(_) => line,
    }
}

/// How many bytes stand before the first white space.
pub(crate) fn len_to_white_space(line: &[u8]) -> usize
    ensures first { result ≡ position_or_len is_ascii_whitespace line.now }
    ensures fits { result ≤ length line.now }
{
    line.iter()
        .position(|byte| byte.is_ascii_whitespace())
        .unwrap_or(line.len())
}

/// How many bytes stand before the first one that is this byte.
fn len_to_byte(separator: u8, line: &[u8]) -> usize
    ensures first { result ≡ position_or_len (λ byte. byte == separator) line.now }
    ensures fits { result ≤ length line.now }
{
    line.iter()
        .position(|byte| *byte == separator)
        .unwrap_or(line.len())
}

/// How many bytes stand before the first that parts fields.
fn field_len(separator: Separator, line: &[u8]) -> usize
    ensures first { result ≡ position_or_len (separates separator) line.now }
    ensures fits { result ≤ length line.now }
{
    match separator {
        Separator::WhiteSpace => len_to_white_space(line),
        Separator::Byte(separator) => len_to_byte(separator, line),
    }
}

/// The first field, and what stands behind it and the byte that ends it.
fn fields_in(separator: Separator, line: &[u8]) -> (&[u8], &[u8])
    ensures field { result.0.now ≡ field_at separator 0 line.now }
    ensures behind { result.1.now ≡ behind_field separator line.now }
{
    let rest = begin_of(separator, line);
    let (field, behind) = rest.split_at(field_len(separator, rest));
    match behind.split_first() {
        Some((_, rest)) => (field, rest),
        None => (field, &[]),
    }
}

/// What stands behind the first field.
fn behind_field(separator: Separator, line: &[u8]) -> &[u8]
    ensures { result.now ≡ behind_field separator line.now }
{
    fields_in(separator, line).1
}

/// The first field.
fn field_in(separator: Separator, line: &[u8]) -> &[u8]
    ensures { result.now ≡ field_at separator 0 line.now }
{
    fields_in(separator, line).0
}

/// A line from the field of a column on; nothing of a line of fewer fields.
fn rest_at(column: Column, line: &[u8]) -> &[u8]
    ensures { field_at column.separator 0 result.now ≡ field_at column.separator column.place line.now }
{
    let mut rest = line;
    for place in 0..column.place {
        if rest.is_empty() {
            return rest;
        }
        rest = behind_field(column.separator, rest);
    }
    rest
}

/// The field of a column, without white space at both ends; empty in a line of fewer fields. With `Separator::Byte(b',')`
/// the field at index 1 of `a, 192.0.2.1 ,b` is `192.0.2.1`. A comment sign is a byte like any other.
pub fn field_at(column: Column, line: &[u8]) -> &[u8]
    ensures { IsFieldOf column line.now result.now }
{
    let field = field_in(column.separator, rest_at(column, line));
    match column.separator {
        Separator::WhiteSpace => field,
        Separator::Byte(_) => field.trim_ascii(),
    }
}

/// The first field of a string, and what stands behind it.
pub(crate) fn parts_of(field: &[u8]) -> (&[u8], &[u8])
    ensures { AreFirstAndRest field.now result.0.now result.1.now }
{
    let first = first_field(field);
    let (_, rest) = field.split_at(first.len());
    (first, rest.trim_ascii())
}

/// The first field of a line without its comment, and what stands behind it, without white space at both ends: of
/// `192.0.2.1 eth0 # ours` these are `192.0.2.1` and `eth0`. `None` for a line that is blank or a comment alone.
pub fn split_line(line: &[u8]) -> Option<(&[u8], &[u8])>
    ensures { MatchOption result (IsField line.now []) (λ parts. IsSplit line.now parts.0.now parts.1.now) }
{
    let field = without_comment(line).trim_ascii();
    if field.is_empty() {
        return None;
    }
    let parts = parts_of(field);
    Some(parts)
}

/// Whether a byte begins a comment: `#` or `;`, unless it parts fields.
fn begins_comment(separator: Separator, byte: u8) -> bool
    ensures { result ≡ begins_comment separator byte }
{
    is_comment_sign(byte) && !separates(separator, byte)
}

/// Whether a line without white space at both ends is empty or a comment.
pub(crate) fn is_no_row(separator: Separator, text: &[u8]) -> bool
    ensures { Decides result (before_first (begins_comment separator) text.now ≡ []) }
{
    match text {
        [] => true,
        [first, ..] => begins_comment(separator, *first),
    }
}

/// The first field of a row of a table, and the rest of the line, both without white space at both ends; the rest may be
/// empty. `None` for a line that is blank or a comment. Only a whole line is a comment here, so that the rest may have
/// `#` and `;`: of `10.0.0.0/8 west # 2` it is `west # 2`, and with `Separator::Byte(b',')` it is `AS1,west` of
/// `10.0.0.0/8,AS1,west`.
pub fn split_row(separator: Separator, line: &[u8]) -> Option<(&[u8], &[u8])>
    ensures { MatchOption result (HasNoFields separator line.now) (λ parts. HasFields separator line.now
        × IsTrimAscii (field_at separator 0 line.now) parts.0.now × IsTrimAscii (behind_field separator line.now) parts.1.now) }
{
    if is_no_row(separator, line.trim_ascii()) {
        return None;
    }
    let (first, rest) = fields_in(separator, line);
    Some((first.trim_ascii(), rest.trim_ascii()))
}

/// The network that a field is, as `lines::read_network` reads it; a range is none, nor is a field with white space at an
/// end. The errors are `NotUtf8`, and then `NoNetwork` with the first error of parsing it.
pub fn network_in(host_bits: HostBits, field: &[u8]) -> Result<IpCidr, LineError>
    ensures { MatchResult result (IsNetworkBy host_bits field.now) (IsNoNetworkField host_bits field.now) }
{
    let Ok(text) = str::from_utf8(field) else {
        return Err(LineError::NotUtf8(byte_excerpt(field)));
    };
    match read_network(host_bits, text) {
        Ok(network) => Ok(network),
        Err(e) => Err(LineError::NoNetwork(bad_network(host_bits, text), e)),
    }
}

/// The address that a field is; one with white space at an end or a prefix length is none. The errors are `NotUtf8`, and
/// then `NoAddress`.
pub fn address_in(field: &[u8]) -> Result<IpAddr, LineError>
    ensures { MatchResult result (IsIpText field.now) (IsNoAddressField field.now) }
{
    let Ok(text) = str::from_utf8(field) else {
        return Err(LineError::NotUtf8(byte_excerpt(field)));
    };
    match text.parse::<IpAddr>() {
        Ok(address) => Ok(address),
        Err(e) => Err(LineError::NoAddress(BadText::new(text), e)),
    }
}

/// The address that a whole line or field is, without white space and comments.
pub(crate) fn whole_address(line: &[u8]) -> Option<IpAddr>
    ensures { MatchOption result (IsUtf8 line.now → (a : IpAddr) → ¬ (IsIpText line.now a)) (λ a. IsUtf8 line.now × IsIpText line.now a) }
{
    let Ok(text) = str::from_utf8(line) else {
        return None;
    };
    match text.parse::<IpAddr>() {
        Ok(address) => Some(address),
        Err(_) => None,
    }
}

/// The address that the first field of a line is; `None` for a line that is blank or a comment alone. The errors are
/// `NotUtf8` of the field, and then `NoAddress`. A line of more than 1 MiB is for the caller to find.
pub fn address_of(line: &[u8]) -> Result<Option<IpAddr>, LineError>
    ensures { ReadsAddress line.now result }
{
    // most lines are an address and nothing else, and this is the shortest way to it
    if !line.is_empty() {
        if let Some(address) = whole_address(line) {
            return Ok(Some(address));
        }
    }
    let Some((first, _)) = split_line(line) else {
        return Ok(None);
    };
    match address_in(first) {
        Ok(address) => Ok(Some(address)),
        Err(e) => Err(e),
    }
}
