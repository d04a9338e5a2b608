//! Fields with no field in them, and the names of maps.
ghost use Rattle.std.specs.Prelude.{◌≡◌, ◌+◌, ◌<◌, ◌≤◌, ◌^◌, length, IfSome, true};
ghost use Rattle.cidr_mmdb.specs.Fields.{bytes_of, is_pointer, is_sized, leaf_end, name_at, string_end};

use crate::fields::{field, target};
use crate::kinds::{Field, Kind};

/// Whether a field of a type with no field in it may have this size.
fn is_sized(kind: Kind, size: u32) -> bool
    ensures { result ≡ is_sized kind size }
{
    match kind {
        Kind::Utf8String => true,
        Kind::Bytes => true,
        Kind::Double => size == 8,
        Kind::Float => size == 4,
        Kind::Boolean => size < 2,
        Kind::Uint16 => size < 3,
        Kind::Uint32 => size < 5,
        Kind::Int32 => size < 5,
        Kind::Uint64 => size < 9,
        Kind::Uint128 => size < 17,
        Kind::Pointer => false,
        Kind::Map => false,
        Kind::Array => false,
    }
}

/// How many bytes its payload has.
fn bytes_of(field: Field) -> usize
    ensures value { result ≡ bytes_of field.kind field.size }
    ensures few { result < 2 ^ 32 }
{
    match field.kind {
        Kind::Boolean => 0,
        _ => field.size as usize,
    }
}

/// Where a field with no field in it ends.
#[tactic(auto, unfolding(crate::specs::Fields::leaf_end))]
pub(crate) fn leaf_end(section: &[u8], field: Field) -> Option<usize>
    ensures value { result ≡ leaf_end section.now field }
    ensures within { IfSome result (λ end. end ≤ length section.now) }
    ensures place { IfSome result (λ end. end ≡ field.payload + bytes_of field.kind field.size) }
    ensures sized { IfSome result (λ end. is_sized field.kind field.size ≡ true) }
{
    if !is_sized(field.kind, field.size) {
        return None;
    }
    let bytes = bytes_of(field);
    if field.payload > section.len() {
        return None;
    }
    if bytes > section.len() - field.payload {
        return None;
    }
    Some(field.payload + bytes)
}

/// Where a string ends.
fn string_end(section: &[u8], field: Field) -> Option<usize>
    ensures value { result ≡ string_end section.now field }
    ensures within { IfSome result (λ end. field.payload + field.size ≤ length section.now) }
{
    match field.kind {
        Kind::Utf8String => leaf_end(section, field),
        _ => None,
    }
}

/// The name at a place, and where its field ends.
#[tactic(auto, unfolding(crate::specs::Fields::name_at))]
pub(crate) fn name(section: &[u8], at: usize) -> Option<(Field, usize)>
    ensures value { result ≡ name_at section.now at }
    ensures within { IfSome result (λ name. name.0.payload + name.0.size ≤ length section.now) }
{
    let first = field(section, at)?;
    if is_pointer(first.kind) {
        let string = target(section, first)?;
        string_end(section, string)?;
        return Some((string, first.payload));
    }
    let end = string_end(section, first)?;
    Some((first, end))
}

/// Whether a field is a pointer.
pub(crate) fn is_pointer(kind: Kind) -> bool
    ensures { result ≡ is_pointer kind }
{
    match kind {
        Kind::Pointer => true,
        _ => false,
    }
}
