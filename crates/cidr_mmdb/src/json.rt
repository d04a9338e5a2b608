//! Values as JSON.
ghost use Rattle.std.specs.Prelude.{◌≡◌, ◌+◌, ◌*◌, ◌≤◌, ◌<◌, ℕ, ◌++◌, length, true, IfErr, IfOk, OnOk, IsErrOf, Some};
ghost use Rattle.cidr_mmdb.specs.Fields.{bytes_of, is_sized};
ghost use Rattle.cidr_mmdb.specs.Json.{IsUnwritten, behind, closing, enclosed, ended, item_at, json_at, leaf_text, listed, opening, separator, text_with};
ghost use Rattle.cidr_mmdb.specs.Writing.{Ends};
ghost use Rattle.cidr_mmdb.specs.declared.errors.JsonError.TheVariants.{Malformed, TooLong};

use crate::errors::JsonError;
use crate::fields::{field, target};
use crate::kinds::{Field, Kind};
use crate::leaf_texts::{push_leaf, push_string};
use crate::leaves::{is_pointer, leaf_end, name};
use std::alloc::Global;

/// How deep a value is at most.
const DEPTH: u32 = 512;

/// The value at a place of a data section, as JSON of at most `limit` bytes: what [`Database::json`](crate::Database::json) gives, for a
/// caller that keeps the parts of a file as numbers.
///
/// ```
/// let data = open(&bytes)?.data;
/// text_at(rt.alloc(), data, 0, 1000)?.len() // 16
/// ```
pub fn text_at(
    alloc: Global,
    section: &[u8],
    place: usize,
    limit: usize,
) -> Result<Vec<u8>, JsonError>
    ensures text { IfOk result (λ text. (end : ℕ) × (json_at section.now 512 place ≡ Some (text.items, end))) }
    ensures within { IfOk result (λ text. length text.items ≤ limit) }
    ensures none { IfErr result (IsUnwritten limit (json_at section.now 512 place)) }
{
    let mut out = Vec::new(alloc);
    match value(section, place, DEPTH, limit, &mut out) {
        Ok(_) => Ok(out),
        Err(e) => Err(e),
    }
}

/// Writes the value at a place, at most so deep, and tells where its field ends.
#[tactic(auto, unfolding(crate::specs::Json::json_at))]
#[cycle(value)]
pub(crate) fn value(
    section: &[u8],
    at: usize,
    depth: u32,
    limit: usize,
    out: &mut Vec<u8>,
) -> Result<usize, JsonError>
    ensures read { Ends result limit out.new.items (behind out.old.items (json_at section.now depth at)) }
    ensures most { length out.old.items ≤ limit → OnOk result (length out.new.items ≤ limit) }
{
    if depth == 0 {
        return Err(JsonError::Malformed);
    }
    let Some(field) = field(section, at) else {
        return Err(JsonError::Malformed);
    };
    text_with(section, field, depth - 1, limit, out)
}

/// Writes the value of a field.
#[tactic(auto, unfolding(crate::specs::Json::json_at))]
#[cycle(value)]
fn text_with(
    section: &[u8],
    field: Field,
    depth: u32,
    limit: usize,
    out: &mut Vec<u8>,
) -> Result<usize, JsonError>
    ensures read { Ends result limit out.new.items (behind out.old.items (text_with section.now (json_at section.now depth) field field.kind)) }
    ensures most { length out.old.items ≤ limit → OnOk result (length out.new.items ≤ limit) }
{
    match field.kind {
        Kind::Pointer => {
            let Some(there) = target(section, field) else {
                return Err(JsonError::Malformed);
            };
            if is_pointer(there.kind) {
                return Err(JsonError::Malformed);
            }
            match value(section, field.size as usize, depth, limit, out) {
                Ok(_) => Ok(field.payload),
                Err(e) => Err(e),
            }
        }
        Kind::Map => collection(section, field, true, depth, limit, out),
        Kind::Array => collection(section, field, false, depth, limit, out),
        _ => {
            let Some(end) = leaf_end(section, field) else {
                return Err(JsonError::Malformed);
            };
            leaf(section, field, end, limit, out)
        }
    }
}

/// Writes a map, whose items have names, or an array.
#[tactic(auto, unfolding(crate::specs::Json::json_at))]
#[cycle(value)]
fn collection(
    section: &[u8],
    field: Field,
    named: bool,
    depth: u32,
    limit: usize,
    out: &mut Vec<u8>,
) -> Result<usize, JsonError>
    ensures read { Ends result limit out.new.items (behind out.old.items (enclosed named (listed (item_at section.now (json_at section.now depth) named) true field.size field.payload))) }
    ensures most { length out.old.items ≤ limit → OnOk result (length out.new.items ≤ limit) }
{
    add(opening(named), limit, out)?;
    let end = items(section, field.payload, field.size, named, depth, limit, out)?;
    add(closing(named), limit, out)?;
    Ok(end)
}

/// Writes so many items, one behind the other, with commas between.
#[tactic(auto, unfolding(crate::specs::Json::json_at))]
#[cycle(value)]
fn items(
    section: &[u8],
    at: usize,
    count: u32,
    named: bool,
    depth: u32,
    limit: usize,
    out: &mut Vec<u8>,
) -> Result<usize, JsonError>
    ensures read { Ends result limit out.new.items (behind out.old.items (listed (item_at section.now (json_at section.now depth) named) true count at)) }
    ensures most { length out.old.items ≤ limit → OnOk result (length out.new.items ≤ limit) }
{
    let mut end = at;
    let mut first = true;
    let mut left = count;
    while left > 0 {
        match item(section, end, named, first, depth, limit, out) {
            Ok(next) => {
                end = next;
            }
            Err(e) => {
                return Err(e);
            }
        }
        first = false;
        left -= 1;
    }
    Ok(end)
}

/// Writes an item, behind a comma unless it is the first.
#[tactic(auto, unfolding(crate::specs::Json::json_at))]
#[cycle(value)]
fn item(
    section: &[u8],
    at: usize,
    named: bool,
    first: bool,
    depth: u32,
    limit: usize,
    out: &mut Vec<u8>,
) -> Result<usize, JsonError>
    ensures read { Ends result limit out.new.items (behind out.old.items (behind (separator first) (item_at section.now (json_at section.now depth) named at))) }
    ensures most { length out.old.items ≤ limit → OnOk result (length out.new.items ≤ limit) }
{
    add(comma(first), limit, out)?;
    if named {
        return member(section, at, depth, limit, out);
    }
    value(section, at, depth, limit, out)
}

/// Writes a name and a value.
#[tactic(auto, unfolding(crate::specs::Json::json_at))]
#[cycle(value)]
fn member(
    section: &[u8],
    at: usize,
    depth: u32,
    limit: usize,
    out: &mut Vec<u8>,
) -> Result<usize, JsonError>
    ensures read { Ends result limit out.new.items (behind out.old.items (item_at section.now (json_at section.now depth) true at)) }
    ensures most { length out.old.items ≤ limit → OnOk result (length out.new.items ≤ limit) }
{
    let Some((string, place)) = name(section, at) else {
        return Err(JsonError::Malformed);
    };
    push_string(
        &section[string.payload..string.payload + string.size as usize],
        out,
    )?;
    add(b":", limit, out)?;
    value(section, place, depth, limit, out)
}

/// Writes a field with no field in it, whose end is known.
fn leaf(
    section: &[u8],
    field: Field,
    end: usize,
    limit: usize,
    out: &mut Vec<u8>,
) -> Result<usize, JsonError>
    requires within { end ≤ length section.now }
    requires place { end ≡ field.payload + bytes_of field.kind field.size }
    requires sized { is_sized field.kind field.size ≡ true }
    ensures read { Ends result limit out.new.items (behind out.old.items (ended end (leaf_text section.now field field.kind))) }
    ensures most { OnOk result (length out.new.items ≤ limit) }
{
    push_leaf(section, field, end, out)?;
    if out.len() > limit {
        return Err(JsonError::TooLong);
    }
    Ok(end)
}

/// Appends bytes, if there is room.
fn add(bytes: &[u8], limit: usize, out: &mut Vec<u8>) -> Result<(), JsonError>
    ensures added { OnOk result (out.new.items ≡ out.old.items ++ bytes.now) }
    ensures most { OnOk result (length out.new.items ≤ limit) }
    ensures full { IsErrOf result TooLong → limit < length out.old.items + length bytes.now }
    ensures whole { ¬ (IsErrOf result Malformed) }
{
    if out.extend_from_slice(bytes).is_err() {
        return Err(JsonError::NoMemory);
    }
    if out.len() > limit {
        return Err(JsonError::TooLong);
    }
    Ok(())
}

/// What a map or an array begins with.
fn opening(named: bool) -> &'static [u8]
    ensures { result.now ≡ opening named }
{
    if named { b"{" } else { b"[" }
}

/// What it ends with.
fn closing(named: bool) -> &'static [u8]
    ensures { result.now ≡ closing named }
{
    if named { b"}" } else { b"]" }
}

/// What stands before an item.
fn comma(first: bool) -> &'static [u8]
    ensures { result.now ≡ separator first }
{
    if first { b"" } else { b"," }
}
