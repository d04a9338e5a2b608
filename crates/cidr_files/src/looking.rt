//! Look-ups in the parts of a table.
ghost use Rattle.std.specs.Prelude.{◌≡◌, ◌↔◌, ℕ, ◌+◌, ◌^◌, ◌<◌, ◌≤◌, length, slice_index_or, slice_range, Contains, Some, None, IfSome, IsTrue};
ghost use Rattle.cidr.specs.model.Bits.{bits};
ghost use Rattle.cidr.specs.model.Network.{BeginsWith};
ghost use Rattle.cidr_table.specs.model.Prefixes.{IsLongestMatch};
ghost use Rattle.cidr_lookup.specs.Keys.{prefix_bits};
ghost use Rattle.cidr_files.specs.Layout.{words};
ghost use Rattle.cidr_files.specs.Tables.{AreLookUps, AreOffsets, stored_networks, offsets_in, part_at, parts_in, value_in};

use crate::address::FileAddress;
use crate::layout::FileTable;

/// What a look-up finds: a row, and where its value lies among the values.
#[derive(Clone, Copy)]
pub struct Found {
    /// The index of the row, counted from 0.
    pub row: usize,
    /// Where its value begins, in bytes from 0 on.
    pub from: u32,
    /// Where it ends: the first byte behind it.
    pub to: u32,
}

/// The row of the longest network that an address is in, and its value; `None` where it is in none: the longest match of a
/// forwarding table (RFC 1812, 5.2.4.3).
///
/// Whatever the bytes are, it reads nothing outside of them, and the row, counted from 0, is one of them. It is the
/// longest match, and the value that of its row, in parts that [`check`](crate::check) accepted.
///
/// It takes one step for each six bits that are needed to tell the match, as `find` of `cidr_lookup`, and allocates nothing.
///
/// ```
/// let (_row, name) = lookup(&table.ipv4, address.to_bits().to_le_bytes())?;
/// ```
pub fn lookup<'a, W: FileAddress>(part: &FileTable<'a>, address: W) -> Option<(usize, &'a [u8])>
    ensures within { IfSome result (λ found. found.0 < length (stored_networks W.numbers (parts_in part.now))) }
    ensures longest { IfSome result (λ found. AreLookUps W.width W.padding W.numbers (parts_in part.now) part.now.steps
        → IsLongestMatch (prefix_bits W.width) (bits W.width (W.value address)) (stored_networks W.numbers (parts_in part.now)) (Some found.0)) }
    ensures none { result ≡ None → AreLookUps W.width W.padding W.numbers (parts_in part.now) part.now.steps
        → IsLongestMatch (prefix_bits W.width) (bits W.width (W.value address)) (stored_networks W.numbers (parts_in part.now)) None }
    ensures value { IfSome result (λ found.
        AreOffsets (offsets_in (parts_in part.now)) (length (stored_networks W.numbers (parts_in part.now))) (length (part_at (parts_in part.now) 5))
        → found.1.now ≡ value_in (parts_in part.now) found.0) }
{
    let found = find(part, address)?;
    Some((
        found.row,
        &part.values[found.from as usize..found.to as usize],
    ))
}

/// What [`lookup`] finds, in its time, with the place of the value among the values in place of its bytes. In parts that
/// are no table the place is inside of the values, too.
#[inline(always)]
pub fn find<W: FileAddress>(part: &FileTable<'_>, address: W) -> Option<Found>
    ensures within { IfSome result (λ found. found.row < length (stored_networks W.numbers (parts_in part.now))) }
    ensures longest { IfSome result (λ found. AreLookUps W.width W.padding W.numbers (parts_in part.now) part.now.steps
        → IsLongestMatch (prefix_bits W.width) (bits W.width (W.value address)) (stored_networks W.numbers (parts_in part.now)) (Some found.row)) }
    ensures none { result ≡ None → AreLookUps W.width W.padding W.numbers (parts_in part.now) part.now.steps
        → IsLongestMatch (prefix_bits W.width) (bits W.width (W.value address)) (stored_networks W.numbers (parts_in part.now)) None }
    ensures ordered { IfSome result (λ found. found.from ≤ found.to) }
    ensures inside { IfSome result (λ found. found.to ≤ length (part_at (parts_in part.now) 5)) }
    ensures value { IfSome result (λ found.
        AreOffsets (offsets_in (parts_in part.now)) (length (stored_networks W.numbers (parts_in part.now))) (length (part_at (parts_in part.now) 5))
        → slice_range (part_at (parts_in part.now) 5) found.from found.to ≡ value_in (parts_in part.now) found.row) }
{
    let row = longest_row(part, address)?;
    let (from, to) = place_of(part, row);
    Some(Found { row, from, to })
}

/// Whether an address is in one of the networks, in parts that [`check`](crate::check) accepted; in others the answer
/// may be wrong, and nothing outside of them is read. In the time of [`lookup`], without the offsets and the values.
///
/// ```
/// has(&table.ipv6, Ipv6Bytes::of(address.to_bits()))
/// ```
pub fn has<W: FileAddress>(part: &FileTable<'_>, address: W) -> bool
    ensures { AreLookUps W.width W.padding W.numbers (parts_in part.now) part.now.steps
        → (IsTrue result ↔ ((network : ℕ × ℕ) × Contains (stored_networks W.numbers (parts_in part.now)) network
        × BeginsWith (bits W.width (W.value address)) (prefix_bits W.width network))) }
{
    match longest_row(part, address) {
        Some(_) => true,
        None => false,
    }
}

/// The row of the longest network that an address is in.
#[inline(always)]
fn longest_row<W: FileAddress>(part: &FileTable<'_>, address: W) -> Option<usize>
    ensures within { IfSome result (λ row. row < length (stored_networks W.numbers (parts_in part.now))) }
    ensures short { IfSome result (λ row. row < 2 ^ 63) }
    ensures longest { AreLookUps W.width W.padding W.numbers (parts_in part.now) part.now.steps
        → IsLongestMatch (prefix_bits W.width) (bits W.width (W.value address)) (stored_networks W.numbers (parts_in part.now)) result }
{
    let (first, _) = part.first.as_chunks::<4>();
    let (words, _) = part.words.as_chunks::<4>();
    let addresses = W::addresses(part.addresses);
    let row = cidr_lookup::find(&first, &words, part.steps, address)?;
    if row >= addresses.len().min(part.lengths.len()) {
        return None;
    }
    Some(row)
}

/// Where the value of a row begins and ends, or twice 0 where the offsets are wrong.
#[inline(always)]
fn place_of(part: &FileTable<'_>, row: usize) -> (u32, u32)
    requires { row < 2 ^ 63 }
    ensures ordered { result.0 ≤ result.1 }
    ensures inside { result.1 ≤ length (part_at (parts_in part.now) 5) }
    ensures value { (rows : ℕ) → row < rows → AreOffsets (offsets_in (parts_in part.now)) rows (length (part_at (parts_in part.now) 5))
        → slice_range (part_at (parts_in part.now) 5) result.0 result.1 ≡ value_in (parts_in part.now) row }
{
    let (offsets, _) = part.offsets.as_chunks::<4>();
    if row + 1 >= offsets.len() {
        return (0, 0);
    }
    let from = u32::from_le_bytes(offsets[row]);
    let to = u32::from_le_bytes(offsets[row + 1]);
    if from > to || to as usize > part.values.len() {
        return (0, 0);
    }
    (from, to)
}
