//! Files of look-up tables, written.
ghost use Rattle.std.specs.Prelude.{◌≡◌, ◌+◌, ◌-◌, ◌^◌, ◌<◌, ◌≤◌, ◌⊎◌, drop, length, map, take, IfOk};
ghost use Rattle.cidr_c.specs.model.Codes.{no_room};
ghost use Rattle.cidr_c.specs.calls.Writing.{AreValueOffsets, IsFileWritten, IsSetWritten, ipv4_rows};

use crate::codes::{NO_MEMORY, NO_ROOM, NO_VALUE, OK, TOO_MANY, VALUES};
use crate::tables::keys_in;
use crate::values::{CValue, is_ipv4};
use cidr_files::{FileRows, Ipv4Bytes, Ipv6Bytes, WriteError, are_offsets, written};
use cidr_lookup::{TableError, first_refused};
use std::alloc::{AllocError, Global};

/// Writes the file of networks and their values: 0, and `count` becomes how many bytes stand in the front of `out`. The
/// value of row i is what `values` has from offset i up to the next one. Else the number of the first error: too many
/// networks, or words of their look-ups; the values; a network, and `count` becomes its index; the room, and `count` becomes how much is enough; of
/// memory at any place before. An error leaves `out` as it was.
///
/// It takes O(n), and a pass over the bytes, and allocates them and as much again.
#[unsafe(no_mangle)]
pub extern "C" fn pcidr_file_write(
    alloc: Global,
    networks: &[CValue],
    offsets: &[u32],
    values: &[u8],
    out: &mut [u8],
    count: &mut usize,
) -> u32
    ensures { IsFileWritten networks.now offsets.now values.now out.old out.new count.old count.new result }
{
    if networks.len() >= 1 << 31 {
        return TOO_MANY;
    }
    if values.len() >= 1 << 32 {
        return VALUES;
    }
    if !are_offsets(&offsets, networks.len(), values.len()) {
        return VALUES;
    }
    put_file(alloc, networks, offsets, values, out, count)
}

/// Writes the file of a set: the same with empty values.
#[unsafe(no_mangle)]
pub extern "C" fn pcidr_set_write(
    alloc: Global,
    networks: &[CValue],
    out: &mut [u8],
    count: &mut usize,
) -> u32
    ensures { IsSetWritten networks.now out.old out.new count.old count.new result }
{
    if networks.len() >= 1 << 31 {
        return TOO_MANY;
    }
    let Ok(offsets) = vec![in alloc; 0; networks.len() + 1] else {
        return NO_MEMORY;
    };
    pcidr_file_write(alloc, networks, offsets.as_slice(), &[], out, count)
}

/// Writes the file of networks whose values lie one behind the other.
fn put_file(
    alloc: Global,
    networks: &[CValue],
    offsets: &[u32],
    values: &[u8],
    out: &mut [u8],
    count: &mut usize,
) -> u32
    requires few { length networks.now < 2 ^ 31 }
    requires many { length offsets.now ≡ length networks.now + 1 }
    requires values { AreValueOffsets networks.now offsets.now values.now }
    ensures { IsFileWritten networks.now offsets.now values.now out.old out.new count.old count.new result }
{
    let split = ipv4_rows(networks);
    let Ok(ipv4) = keys_in::<Ipv4Bytes>(alloc, &networks[..split]) else {
        return NO_MEMORY;
    };
    let Ok(ipv6) = keys_in::<Ipv6Bytes>(alloc, &networks[split..]) else {
        return NO_MEMORY;
    };
    let ipv4_keys = ipv4.as_slice();
    let ipv6_keys = ipv6.as_slice();
    if let Some(place) = first_refused(ipv4_keys) {
        *count = place;
        return NO_VALUE;
    }
    if let Some(place) = first_refused(ipv6_keys) {
        *count = split + place;
        return NO_VALUE;
    }
    let from = offsets[split];
    let (front, back) = parted(values, from);
    let Ok(moved) = moved(alloc, &offsets[split..], from) else {
        return NO_MEMORY;
    };
    let ipv4_table = FileRows {
        keys: ipv4_keys,
        offsets: &offsets[..split + 1],
        values: front,
    };
    let ipv6_table = FileRows {
        keys: ipv6_keys,
        offsets: moved.as_slice(),
        values: back,
    };
    match written(alloc, &ipv4_table, &ipv6_table) {
        Ok(bytes) => put_bytes(bytes.as_slice(), out, count),
        Err(WriteError::Table(TableError::TooLarge)) => TOO_MANY,
        Err(_) => NO_MEMORY,
    }
}

/// The bytes before a place, and those from it on.
fn parted(bytes: &[u8], place: u32) -> (&[u8], &[u8])
    requires { place ≤ length bytes.now }
    ensures front { result.0.now ≡ take place bytes.now }
    ensures back { result.1.now ≡ drop place bytes.now }
{
    (&bytes[..place as usize], &bytes[place as usize..])
}

/// How many values there are before the first that is no IPv4 value.
fn ipv4_rows(networks: &[CValue]) -> usize
    ensures rows { result ≡ ipv4_rows networks.now }
    ensures within { result ≤ length networks.now }
{
    networks
        .iter()
        .position(|value| !is_ipv4(value))
        .unwrap_or(networks.len())
}

/// Offsets, counted from one of them.
fn moved(alloc: Global, offsets: &[u32], from: u32) -> Result<Vec<u32>, AllocError>
    ensures { IfOk result (λ moved. moved.items ≡ map (λ offset. offset - from) offsets.now) }
{
    offsets
        .iter()
        .map(|offset| offset.saturating_sub(from))
        .collect(alloc)
}

/// Writes bytes into the front of a room that has enough, and says how many they are.
pub fn put_bytes(bytes: &[u8], out: &mut [u8], count: &mut usize) -> u32
    ensures written { result ≡ 0 → take (length bytes.now) out.new ≡ bytes.now }
    ensures behind { result ≡ 0 → drop (length bytes.now) out.new ≡ drop (length bytes.now) out.old }
    ensures fits { result ≡ 0 → length bytes.now ≤ length out.old }
    ensures room { result ≡ no_room → (length out.old < length bytes.now) × (out.new ≡ out.old) }
    ensures codes { (result ≡ 0) ⊎ (result ≡ no_room) }
    ensures count { count.new ≡ length bytes.now }
{
    *count = bytes.len();
    if out.len() < bytes.len() {
        return NO_ROOM;
    }
    out[..bytes.len()].copy_from_slice(bytes);
    OK
}
