//! Look-ups of many networks at once.
ghost use Rattle.std.specs.Prelude.{◌≡◌, ◌⊎◌, map, IfOk, MatchResult};
ghost use Rattle.cidr.specs.either.IpNetwork.{any_bits};
ghost use Rattle.cidr_table.specs.model.Cover.{IsFull};
ghost use Rattle.cidr_table.specs.model.Loading.{placed};
ghost use Rattle.cidr_c.specs.calls.Batches.{AreNetworkValues};
ghost use Rattle.cidr_c.specs.calls.Calls.{IsYesOrNo};
ghost use Rattle.cidr_c.specs.model.Codes.{no_memory, no_value};
ghost use Rattle.cidr_c.specs.calls.Lookups.{AreContained, AreIndexed, AreLongestIndexes};
ghost use Rattle.cidr_c.specs.model.Values.{network_in};

use crate::batches::networks_of;
use crate::codes::{NO_MEMORY, NO_ROOM, NO_VALUE, OK};
use crate::nested::{longest_in, nested_rows};
use crate::sets::set_of;
use crate::values::{CValue, value_network};
use cidr::AnyIpCidr;
use cidr_sets::NetworkSet;
use cidr_table::LpmTable;
use std::alloc::{AllocError, Global};

/// For each asked network 1, where it lies in the others together, and 0 where not, at its index of `out`: 0, or the
/// number of the first error, of one of the others, of the room, or of an asked network; of memory at any place before.
///
/// It allocates, and puts the others in order: O(n log n) at each call.
#[unsafe(no_mangle)]
pub extern "C" fn pcidr_contains_each(
    alloc: Global,
    networks: &[CValue],
    asked: &[CValue],
    out: &mut [u8],
) -> u32
    ensures { AreContained networks.now asked.now out.old out.new result }
{
    let set = match set_of(alloc, networks) {
        Ok(set) => set,
        Err(code) => return code,
    };
    if out.len() < asked.len() {
        return NO_ROOM;
    }
    for i in 0..asked.len() {
        let Some(network) = value_network(&asked[i]) else {
            return NO_VALUE;
        };
        out[i] = held(&set, &network);
    }
    OK
}

/// 1 where the set has all addresses of the network, and 0 where not.
fn held(set: &NetworkSet<AnyIpCidr>, network: &AnyIpCidr) -> u8
    ensures { IsYesOrNo result (IsFull 129 (map any_bits set.now) (any_bits network.now)) }
{
    if set.contains(network) { 1 } else { 0 }
}

/// For each asked network the index of the longest network that it is in, or `usize::MAX` where it is in none. The
/// networks may be in any order; of one that repeats the last index counts. Errors as of `pcidr_contains_each`.
///
/// It allocates, and puts the networks in order: O(n log n) at each call, and then O(log n) for each asked one, and a step for each
/// network around what stands before it.
#[unsafe(no_mangle)]
pub extern "C" fn pcidr_longest_match_each(
    alloc: Global,
    networks: &[CValue],
    asked: &[CValue],
    out: &mut [usize],
) -> u32
    ensures { AreLongestIndexes networks.now asked.now out.old out.new result }
{
    let nested = match nested_rows(alloc, networks) {
        Ok(nested) => nested,
        Err(code) => return code,
    };
    if out.len() < asked.len() {
        return NO_ROOM;
    }
    for i in 0..asked.len() {
        let Some(network) = value_network(&asked[i]) else {
            return NO_VALUE;
        };
        out[i] = longest_in(&nested, &network);
    }
    OK
}

/// The table of networks, each with its last index, or the number of the error.
pub fn table_of(alloc: Global, values: &[CValue]) -> Result<LpmTable<AnyIpCidr, usize>, u32>
    ensures { MatchResult result
        (λ table. AreNetworkValues values.now × AreIndexed (map network_in values.now) table.rows)
        (λ code. ((code ≡ no_value) × ¬ (AreNetworkValues values.now)) ⊎ (code ≡ no_memory)) }
{
    let rows = indexed_rows(alloc, values)?;
    Ok(LpmTable::from_rows(rows))
}

/// The networks that values are, each with its index, or the number of the error.
pub fn indexed_rows(alloc: Global, values: &[CValue]) -> Result<Vec<(AnyIpCidr, usize)>, u32>
    ensures { MatchResult result
        (λ rows. AreNetworkValues values.now × (rows.items ≡ placed 0 (map network_in values.now)))
        (λ code. ((code ≡ no_value) × ¬ (AreNetworkValues values.now)) ⊎ (code ≡ no_memory)) }
{
    let networks = networks_of(alloc, values)?;
    match with_indexes(alloc, networks.as_slice()) {
        Ok(rows) => Ok(rows),
        Err(_) => Err(NO_MEMORY),
    }
}

/// Networks, each with its index.
fn with_indexes(
    alloc: Global,
    networks: &[AnyIpCidr],
) -> Result<Vec<(AnyIpCidr, usize)>, AllocError>
    ensures { IfOk result (λ rows. rows.items ≡ placed 0 networks.now) }
{
    let mut rows = Vec::with_capacity(alloc, networks.len())?;
    for i in 0..networks.len() {
        rows.push((networks[i], i))?;
    }
    Ok(rows)
}
