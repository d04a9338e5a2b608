//! Sets beside sets.
ghost use Rattle.cidr.specs.either.IpNetwork.{any_bits};
ghost use Rattle.cidr_sets.specs.model.Sets.{AreDisjoint, IsComplement, IsSubset};
ghost use Rattle.cidr_c.specs.calls.Batches.{AreBothNetworks, AreNetworkValues, IsAnswered, IsPutInRoom, bits_in};
ghost use Rattle.cidr_c.specs.model.Values.{IsNetworkValue, network_in};

use crate::codes::{NO_VALUE, OK};
use crate::finding::yes_or_no;
use crate::sets::{both_of, deliver, set_of};
use crate::values::{CValue, value_network};
use std::alloc::Global;

/// The addresses of a network that a list of networks has not, as a set in a room, of which `count` becomes the number of
/// networks; where there is too little room, it becomes how many are needed.
#[unsafe(no_mangle)]
pub extern "C" fn pcidr_complement(
    alloc: Global,
    networks: &[CValue],
    within: &CValue,
    out: &mut [CValue],
    count: &mut usize,
) -> u32
    ensures { IsPutInRoom (AreNetworkValues networks.now × IsNetworkValue within.now)
        (IsComplement 129 (any_bits (network_in within.now)) (bits_in networks.now))
        out.old out.new count.old count.new result }
{
    let set = match set_of(alloc, networks) {
        Ok(set) => set,
        Err(code) => return code,
    };
    match value_network(within) {
        Some(within) => deliver(set.complement_in(&within), out, count),
        None => NO_VALUE,
    }
}

/// Whether the second of two lists of networks has all addresses of the first: 0, and 1 or 0 in `answer`; or the number of the
/// error.
#[unsafe(no_mangle)]
pub extern "C" fn pcidr_is_subset(
    alloc: Global,
    these: &[CValue],
    those: &[CValue],
    answer: &mut u32,
) -> u32
    ensures { IsAnswered (AreBothNetworks these.now those.now) (IsSubset 129 (bits_in these.now) (bits_in those.now))
        answer.old answer.new result }
{
    match both_of(alloc, these, those) {
        Ok((these, those)) => {
            *answer = yes_or_no(these.is_subset(&those));
            OK
        }
        Err(code) => code,
    }
}

/// Whether no address is in both of two lists of networks: 0, and 1 or 0 in `answer`; or the number of the error.
#[unsafe(no_mangle)]
pub extern "C" fn pcidr_is_disjoint(
    alloc: Global,
    these: &[CValue],
    those: &[CValue],
    answer: &mut u32,
) -> u32
    ensures { IsAnswered (AreBothNetworks these.now those.now) (AreDisjoint 129 (bits_in these.now) (bits_in those.now))
        answer.old answer.new result }
{
    match both_of(alloc, these, those) {
        Ok((these, those)) => {
            *answer = yes_or_no(these.is_disjoint(&those));
            OK
        }
        Err(code) => code,
    }
}
