//! The metadata: where they begin, and what they say of the search tree.
ghost use Rattle.std.specs.Prelude.{◌≡◌, ◌+◌, ◌*◌, ◌≤◌, ◌==◌, ◌||◌, ℕ, length, IfOk, IfSome, IsTrue, None};
ghost use Rattle.cidr_mmdb.specs.Metadata.{HasMarker, IsLastMarker, address_width_of, end_at, end_of_all, end_with, is_named, is_unsigned, layout_of, number_named, record_size_of, unsigned_at, value_of};

use crate::errors::MetadataError;
use crate::fields::field;
use crate::kinds::{Field, Kind};
use crate::leaves::{leaf_end, name as name_at};
use crate::numbers::{four, three, two};
use crate::records::RecordSize;

/// The bytes before the metadata.
const MARKER: &[u8] = b"\xab\xcd\xefMaxMind.com";

/// How many bytes from the end the metadata begin at most, with their marker.
const NEAR: usize = 131_072;

/// How deep the metadata are at most.
const DEPTH: u32 = 512;

/// What the metadata say of the search tree.
#[derive(Clone, Copy, Debug, PartialEq, Eq)]
pub(crate) struct Layout {
    /// How many nodes it has.
    pub node_count: u32,
    /// How large a record is.
    pub record_size: RecordSize,
    /// How many bits of an address it has: 32 or 128.
    pub width: u32,
}

/// Where the last marker begins, if that is in the last 128 KiB.
pub(crate) fn last_marker(bytes: &[u8]) -> Option<usize>
    ensures found { IfSome result (IsLastMarker bytes.now) }
    ensures none { result ≡ None → (k : ℕ) → length bytes.now ≤ k + 131072 → HasMarker bytes.now k → ⊥ }
{
    if bytes.len() < 14 {
        return None;
    }
    let mut end = bytes.len() - 13;
    while end > 0 {
        let at = end - 1;
        if at + NEAR < bytes.len() {
            return None;
        }
        if &bytes[at..at + 14] == MARKER {
            return Some(at);
        }
        end = at;
    }
    None
}

/// What the metadata say of the search tree.
pub(crate) fn tree_layout(section: &[u8]) -> Result<Layout, MetadataError>
    ensures value { result ≡ layout_of section.now }
    ensures family { IfOk result (λ layout. layout.width ≤ 128) }
    ensures version { IfOk result (λ layout. IsTrue ((layout.width == 32) || (layout.width == 128))) }
{
    let Some(node_count) = number_named(section, b"node_count") else {
        return Err(MetadataError::NoNodeCount);
    };
    let Some(record_size) = record_size(section) else {
        return Err(MetadataError::NoRecordSize);
    };
    let Some(width) = address_width(section) else {
        return Err(MetadataError::NoIpVersion);
    };
    Ok(Layout {
        node_count,
        record_size,
        width,
    })
}

/// How large a record is.
fn record_size(section: &[u8]) -> Option<RecordSize>
    ensures { result ≡ record_size_of section.now }
{
    match number_named(section, b"record_size")? {
        24 => Some(RecordSize::Bits24),
        28 => Some(RecordSize::Bits28),
        32 => Some(RecordSize::Bits32),
        _ => None,
    }
}

/// How many bits an address has in the tree.
fn address_width(section: &[u8]) -> Option<u32>
    ensures value { result ≡ address_width_of section.now }
    ensures family { IfSome result (λ width. width ≤ 128) }
    ensures version { IfSome result (λ width. IsTrue ((width == 32) || (width == 128))) }
{
    match number_named(section, b"ip_version")? {
        4 => Some(32),
        6 => Some(128),
        _ => None,
    }
}

/// The number under a name of the map that the metadata are.
#[tactic(auto, unfolding(crate::specs::Metadata::number_named))]
fn number_named(section: &[u8], name: &[u8]) -> Option<u32>
    ensures { result ≡ number_named section.now name.now }
{
    let map = field(section, 0)?;
    match map.kind {
        Kind::Map => {
            let at = value_of(section, name, map.size, map.payload)?;
            unsigned(section, at)
        }
        _ => None,
    }
}

/// The unsigned number at a place, of at most four bytes.
#[tactic(auto, unfolding(crate::specs::Metadata::unsigned_at))]
fn unsigned(section: &[u8], at: usize) -> Option<u32>
    ensures { result ≡ unsigned_at section.now at }
{
    let field = field(section, at)?;
    if !is_unsigned(field.kind) {
        return None;
    }
    leaf_end(section, field)?;
    match field.size {
        0 => Some(0),
        1 => Some(u32::from(section[field.payload])),
        2 => Some(two(section, field.payload)),
        3 => Some(three(section, field.payload)),
        4 => Some(four(section, field.payload)),
        _ => None,
    }
}

/// Whether a type is one of unsigned numbers of at most 64 bits.
fn is_unsigned(kind: Kind) -> bool
    ensures { result ≡ is_unsigned kind }
{
    match kind {
        Kind::Uint16 => true,
        Kind::Uint32 => true,
        Kind::Uint64 => true,
        _ => false,
    }
}

/// Where the value of a name begins: the first of so many pairs that has the name counts.
fn value_of(section: &[u8], name: &[u8], pairs: u32, at: usize) -> Option<usize>
    ensures { result ≡ value_of section.now name.now pairs at }
{
    let mut left = pairs;
    let mut place = at;
    while left > 0 {
        let (string, value) = name_at(section, place)?;
        if is_named(section, string, name) {
            return Some(value);
        }
        place = end(section, value, DEPTH)?;
        left -= 1;
    }
    None
}

/// Whether a string is this name.
fn is_named(section: &[u8], string: Field, name: &[u8]) -> bool
    ensures { result ≡ is_named section.now string name.now }
{
    let size = string.size as usize;
    if string.payload > section.len() {
        return false;
    }
    if size > section.len() - string.payload {
        return false;
    }
    &section[string.payload..string.payload + size] == name
}

/// Where the field at a place ends with all that is in it, at most so deep. A pointer is not followed.
#[tactic(auto, unfolding(crate::specs::Metadata::end_at))]
#[cycle(end)]
fn end(section: &[u8], at: usize, depth: u32) -> Option<usize>
    ensures { result ≡ end_at section.now depth at }
{
    if depth == 0 {
        return None;
    }
    let field = field(section, at)?;
    end_with(section, field, depth - 1)
}

/// Where a field ends with all that is in it.
#[tactic(auto, unfolding(crate::specs::Metadata::end_at))]
#[cycle(end)]
fn end_with(section: &[u8], field: Field, depth: u32) -> Option<usize>
    ensures { result ≡ end_with section.now (end_at section.now depth) field field.kind }
{
    match field.kind {
        Kind::Pointer => Some(field.payload),
        Kind::Map => end_of_all(section, field.payload, 2 * field.size as usize, depth),
        Kind::Array => end_of_all(section, field.payload, field.size as usize, depth),
        _ => leaf_end(section, field),
    }
}

/// Where so many fields end that stand one behind the other.
#[tactic(auto, unfolding(crate::specs::Metadata::end_at))]
#[cycle(end)]
fn end_of_all(section: &[u8], at: usize, count: usize, depth: u32) -> Option<usize>
    ensures { result ≡ end_of_all (end_at section.now depth) count at }
{
    let mut place = at;
    let mut left = count;
    while left > 0 {
        place = end(section, place, depth)?;
        left -= 1;
    }
    Some(place)
}
