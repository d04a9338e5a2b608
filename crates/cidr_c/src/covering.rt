//! The networks of a list that contain a network, and those that lie in it. The first error is a value that is no network, of
//! the list or the asked one, and then too little room; no memory may come before either. After an error the room is as it was.
ghost use Rattle.std.specs.Prelude.{◌↔◌, ◌≡◌, ◌⊎◌, ℕ, Bool, Contains, List, MatchResult};
ghost use Rattle.std.specs.Bool.{Decides};
ghost use Rattle.std.specs.List.Sorted.{IsStrictlyIncreasing};
ghost use Rattle.cidr.specs.either.IpNetwork.{any_bits};
ghost use Rattle.cidr_c.specs.calls.Batches.{AreNetworkValues};
ghost use Rattle.cidr_c.specs.calls.Lookups.{AreRelatedPut, ContainsAsked, IsRelatedAt, LiesInAsked};
ghost use Rattle.cidr_c.specs.model.Codes.{no_memory, no_value};

use crate::codes::{NO_MEMORY, NO_VALUE};
use crate::finding::put_list;
use crate::values::{CValue, value_network};
use cidr::AnyIpCidr;
use std::alloc::Global;

/// How a network may lie to the asked one.
trait Relation {
    /// What holds of the bits of both.
    ghost Holds: { List Bool → List Bool → Type 0 };

    /// Whether it holds.
    fn holds(network: &AnyIpCidr, asked: &AnyIpCidr) -> bool
        ensures { Decides result (Holds (any_bits network.now) (any_bits asked.now)) };
}

/// The network contains the asked one.
struct Covering;

impl Relation for Covering {
    ghost Holds = { ContainsAsked };

    fn holds(network: &AnyIpCidr, asked: &AnyIpCidr) -> bool {
        network.contains_cidr(asked)
    }
}

/// The network lies in the asked one.
struct Covered;

impl Relation for Covered {
    ghost Holds = { LiesInAsked };

    fn holds(network: &AnyIpCidr, asked: &AnyIpCidr) -> bool {
        asked.contains_cidr(network)
    }
}

/// The indexes of the networks of which a relation holds, or the number of the error.
fn indexes_of<R: Relation>(
    alloc: Global,
    networks: &[CValue],
    asked: &AnyIpCidr,
) -> Result<Vec<usize>, u32>
    ensures { MatchResult result
        (λ indexes. AreNetworkValues networks.now
        × ((i : ℕ) → Contains indexes.items i ↔ IsRelatedAt R.Holds networks.now (any_bits asked.now) i)
        × IsStrictlyIncreasing indexes.items)
        (λ code. ((code ≡ no_value) × ¬ (AreNetworkValues networks.now)) ⊎ (code ≡ no_memory)) }
{
    let mut indexes = Vec::new(alloc);
    for i in 0..networks.len() {
        let Some(network) = value_network(&networks[i]) else {
            return Err(NO_VALUE);
        };
        if R::holds(&network, asked) {
            let Ok(()) = indexes.push(i) else {
                return Err(NO_MEMORY);
            };
        }
    }
    Ok(indexes)
}

/// Puts the indexes of the networks of which a relation holds into a room.
fn related<R: Relation>(
    alloc: Global,
    networks: &[CValue],
    asked: &CValue,
    out: &mut [usize],
    count: &mut usize,
) -> u32
    ensures { AreRelatedPut R.Holds networks.now asked.now out.old out.new count.old count.new result }
{
    let Some(asked) = value_network(asked) else {
        return NO_VALUE;
    };
    match indexes_of::<R>(alloc, networks, &asked) {
        Ok(indexes) => put_list(indexes.as_slice(), out, count),
        Err(code) => code,
    }
}

/// The indexes of the networks of a list that contain a network, or an address: the first `count` of `out`, ascending, and so
/// the shortest network first where the list is in the order of `pcidr_compare`; where there is too little room, `count` becomes
/// how many they are.
#[unsafe(no_mangle)]
pub extern "C" fn pcidr_covering(
    alloc: Global,
    networks: &[CValue],
    asked: &CValue,
    out: &mut [usize],
    count: &mut usize,
) -> u32
    ensures { AreRelatedPut ContainsAsked networks.now asked.now out.old out.new count.old count.new result }
{
    related::<Covering>(alloc, networks, asked, out, count)
}

/// The indexes of the networks of a list that lie in a network, which may be one of them: the first `count` of `out`,
/// ascending; where there is too little room, `count` becomes how many they are.
#[unsafe(no_mangle)]
pub extern "C" fn pcidr_covered(
    alloc: Global,
    networks: &[CValue],
    asked: &CValue,
    out: &mut [usize],
    count: &mut usize,
) -> u32
    ensures { AreRelatedPut LiesInAsked networks.now asked.now out.old out.new count.old count.new result }
{
    related::<Covered>(alloc, networks, asked, out, count)
}
