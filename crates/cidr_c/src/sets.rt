//! Sets of addresses as lists of networks, in memory of the caller. Of two lists, the first error is a value that is no
//! network, and then too little room; no memory may come before either. After an error the room is as it was.
ghost use Rattle.std.specs.Prelude.{Bool, IfOk, List, map, take};
ghost use Rattle.cidr.specs.either.IpNetwork.{any_bits};
ghost use Rattle.cidr_table.specs.model.Cover.{Covers};
ghost use Rattle.cidr_sets.specs.model.Sets.{IsDifference, IsIntersection, IsSetOf, IsSymmetricDifference, IsUnion};
ghost use Rattle.cidr_c.specs.laws.Combining.{IsOfAddresses, difference_of, intersection_of, symmetric_difference_of, union_of};
ghost use Rattle.cidr_c.specs.calls.Batches.{AreBothNetworks, AreSetsRead, IsDelivered, IsLeft, IsPutInRoom, IsSetRead, bits_in};

use crate::batches::{networks_of, put};
use crate::codes::{NO_MEMORY, NO_ROOM, OK};
use crate::values::CValue;
use cidr::AnyIpCidr;
use cidr_sets::NetworkSet;
use std::alloc::{AllocError, Global};

/// The set of the addresses of some networks, or the number of the error.
pub fn set_of(alloc: Global, values: &[CValue]) -> Result<NetworkSet<AnyIpCidr>, u32>
    ensures { IsSetRead values.now result }
{
    let networks = networks_of(alloc, values)?;
    match NetworkSet::from_networks(alloc, networks.as_slice()) {
        Ok(set) => Ok(set),
        Err(_) => Err(NO_MEMORY),
    }
}

/// Replaces networks, in any order, by the shortest list of networks with the same addresses, ascending: the first
/// `count` of the slice. What is behind them stays as it was. 0, or the number of an error, and all is as it was.
///
/// It allocates, and puts the networks in order: O(n log n).
#[unsafe(no_mangle)]
pub extern "C" fn pcidr_cover(alloc: Global, networks: &mut [CValue], count: &mut usize) -> u32
    ensures { IsLeft (IsSetOf 129 (Covers (bits_in networks.old))) networks.old networks.new count.old count.new result }
{
    match set_of(alloc, networks) {
        Ok(set) => {
            put(set.as_slice(), networks);
            *count = set.len();
            OK
        }
        Err(code) => code,
    }
}

/// The networks of two lists as sets, or the number of the error.
pub fn both_of(
    alloc: Global,
    these: &[CValue],
    those: &[CValue],
) -> Result<(NetworkSet<AnyIpCidr>, NetworkSet<AnyIpCidr>), u32>
    ensures { AreSetsRead these.now those.now result }
{
    Ok((set_of(alloc, these)?, set_of(alloc, those)?))
}

/// Puts a set into a room, or says how much room it needs.
pub fn deliver(
    set: Result<NetworkSet<AnyIpCidr>, AllocError>,
    out: &mut [CValue],
    count: &mut usize,
) -> u32
    ensures { IsDelivered set out.old out.new count.old count.new result }
{
    let Ok(set) = set else {
        return NO_MEMORY;
    };
    *count = set.len();
    if set.len() > out.len() {
        return NO_ROOM;
    }
    put(set.as_slice(), out);
    OK
}

/// A set that is made of two.
trait Combination {
    /// What holds of the two and of the set, as lists of networks.
    ghost Combines: { List (List Bool) → List (List Bool) → List (List Bool) → Type 0 };

    /// It hangs on their addresses alone.
    ghost of_addresses: { IsOfAddresses Combines };

    /// The set.
    fn of(
        these: &NetworkSet<AnyIpCidr>,
        those: &NetworkSet<AnyIpCidr>,
    ) -> Result<NetworkSet<AnyIpCidr>, AllocError>
        ensures { IfOk result (λ set.
            Combines (map any_bits these.now) (map any_bits those.now) (map any_bits set)) };
}

/// The addresses that one of two has, or both.
struct Union;

impl Combination for Union {
    ghost Combines = { IsUnion 129 };

    ghost of_addresses = { union_of };

    fn of(
        these: &NetworkSet<AnyIpCidr>,
        those: &NetworkSet<AnyIpCidr>,
    ) -> Result<NetworkSet<AnyIpCidr>, AllocError> {
        these.union(those)
    }
}

/// The addresses that both have.
struct Intersection;

impl Combination for Intersection {
    ghost Combines = { IsIntersection 129 };

    ghost of_addresses = { intersection_of };

    fn of(
        these: &NetworkSet<AnyIpCidr>,
        those: &NetworkSet<AnyIpCidr>,
    ) -> Result<NetworkSet<AnyIpCidr>, AllocError> {
        these.intersection(those)
    }
}

/// The addresses that the first has and the second has not.
struct Difference;

impl Combination for Difference {
    ghost Combines = { IsDifference 129 };

    ghost of_addresses = { difference_of };

    fn of(
        these: &NetworkSet<AnyIpCidr>,
        those: &NetworkSet<AnyIpCidr>,
    ) -> Result<NetworkSet<AnyIpCidr>, AllocError> {
        these.difference(those)
    }
}

/// The addresses that exactly one has.
struct SymmetricDifference;

impl Combination for SymmetricDifference {
    ghost Combines = { IsSymmetricDifference 129 };

    ghost of_addresses = { symmetric_difference_of };

    fn of(
        these: &NetworkSet<AnyIpCidr>,
        those: &NetworkSet<AnyIpCidr>,
    ) -> Result<NetworkSet<AnyIpCidr>, AllocError> {
        these.symmetric_difference(those)
    }
}

/// Puts what is made of two lists of networks into a room.
fn combined<K: Combination>(
    alloc: Global,
    these: &[CValue],
    those: &[CValue],
    out: &mut [CValue],
    count: &mut usize,
) -> u32
    ensures { IsPutInRoom (AreBothNetworks these.now those.now) (K.Combines (bits_in these.now) (bits_in those.now))
        out.old out.new count.old count.new result }
{
    match both_of(alloc, these, those) {
        Ok((these, those)) => deliver(K::of(&these, &those), out, count),
        Err(code) => code,
    }
}

/// The networks of the front of a room, and others, as sets, or the number of the error.
fn both_in(
    alloc: Global,
    room: &[CValue],
    count: usize,
    others: &[CValue],
) -> Result<(NetworkSet<AnyIpCidr>, NetworkSet<AnyIpCidr>), u32>
    ensures { AreSetsRead (take count room.now) others.now result }
{
    both_of(alloc, &room[..count.min(room.len())], others)
}

/// Puts what is made of the networks of the front of a room, and others, into that room.
fn combined_in_place<K: Combination>(
    alloc: Global,
    networks: &mut [CValue],
    count: &mut usize,
    others: &[CValue],
) -> u32
    ensures { IsPutInRoom (AreBothNetworks (take count.old networks.old) others.now)
        (K.Combines (bits_in (take count.old networks.old)) (bits_in others.now))
        networks.old networks.new count.old count.new result }
{
    match both_in(alloc, networks, *count, others) {
        Ok((these, those)) => deliver(K::of(&these, &those), networks, count),
        Err(code) => code,
    }
}

/// The addresses that one of two lists of networks has, or both, as a set in a room, of which `count` becomes the
/// number of networks; where there is too little room, it becomes how many are needed.
#[unsafe(no_mangle)]
pub extern "C" fn pcidr_union(
    alloc: Global,
    these: &[CValue],
    those: &[CValue],
    out: &mut [CValue],
    count: &mut usize,
) -> u32
    ensures { IsPutInRoom (AreBothNetworks these.now those.now) (IsUnion 129 (bits_in these.now) (bits_in those.now))
        out.old out.new count.old count.new result }
{
    combined::<Union>(alloc, these, those, out, count)
}

/// The addresses that both of two lists of networks have, as a set in a room, of which `count` becomes the number of
/// networks; where there is too little room, it becomes how many are needed.
#[unsafe(no_mangle)]
pub extern "C" fn pcidr_intersection(
    alloc: Global,
    these: &[CValue],
    those: &[CValue],
    out: &mut [CValue],
    count: &mut usize,
) -> u32
    ensures { IsPutInRoom (AreBothNetworks these.now those.now) (IsIntersection 129 (bits_in these.now) (bits_in those.now))
        out.old out.new count.old count.new result }
{
    combined::<Intersection>(alloc, these, those, out, count)
}

/// The addresses that the first of two lists of networks has and the second has not, as a set in a room, of which
/// `count` becomes the number of networks; where there is too little room, it becomes how many are needed.
#[unsafe(no_mangle)]
pub extern "C" fn pcidr_difference(
    alloc: Global,
    these: &[CValue],
    those: &[CValue],
    out: &mut [CValue],
    count: &mut usize,
) -> u32
    ensures { IsPutInRoom (AreBothNetworks these.now those.now) (IsDifference 129 (bits_in these.now) (bits_in those.now))
        out.old out.new count.old count.new result }
{
    combined::<Difference>(alloc, these, those, out, count)
}

/// The addresses that exactly one of two lists of networks has, as a set in a room, of which `count` becomes the number
/// of networks; where there is too little room, it becomes how many are needed.
#[unsafe(no_mangle)]
pub extern "C" fn pcidr_symmetric_difference(
    alloc: Global,
    these: &[CValue],
    those: &[CValue],
    out: &mut [CValue],
    count: &mut usize,
) -> u32
    ensures { IsPutInRoom (AreBothNetworks these.now those.now) (IsSymmetricDifference 129 (bits_in these.now) (bits_in those.now))
        out.old out.new count.old count.new result }
{
    combined::<SymmetricDifference>(alloc, these, those, out, count)
}

/// Of the set that the first `count` networks of a room are, adds the addresses that the others have: the set that is
/// left stands at the front of the room, and `count` becomes its number of networks; where there is too little room, it
/// becomes how many are needed.
#[unsafe(no_mangle)]
pub extern "C" fn pcidr_union_in_place(
    alloc: Global,
    networks: &mut [CValue],
    count: &mut usize,
    others: &[CValue],
) -> u32
    ensures { IsPutInRoom (AreBothNetworks (take count.old networks.old) others.now)
        (IsUnion 129 (bits_in (take count.old networks.old)) (bits_in others.now))
        networks.old networks.new count.old count.new result }
{
    combined_in_place::<Union>(alloc, networks, count, others)
}

/// Of the set that the first `count` networks of a room are, keeps the addresses that the others have too: the set that
/// is left stands at the front of the room, and `count` becomes its number of networks; where there is too little room,
/// it becomes how many are needed.
#[unsafe(no_mangle)]
pub extern "C" fn pcidr_intersection_in_place(
    alloc: Global,
    networks: &mut [CValue],
    count: &mut usize,
    others: &[CValue],
) -> u32
    ensures { IsPutInRoom (AreBothNetworks (take count.old networks.old) others.now)
        (IsIntersection 129 (bits_in (take count.old networks.old)) (bits_in others.now))
        networks.old networks.new count.old count.new result }
{
    combined_in_place::<Intersection>(alloc, networks, count, others)
}

/// Of the set that the first `count` networks of a room are, takes out the addresses that the others have: the set that
/// is left stands at the front of the room, and `count` becomes its number of networks; where there is too little room,
/// it becomes how many are needed.
#[unsafe(no_mangle)]
pub extern "C" fn pcidr_difference_in_place(
    alloc: Global,
    networks: &mut [CValue],
    count: &mut usize,
    others: &[CValue],
) -> u32
    ensures { IsPutInRoom (AreBothNetworks (take count.old networks.old) others.now)
        (IsDifference 129 (bits_in (take count.old networks.old)) (bits_in others.now))
        networks.old networks.new count.old count.new result }
{
    combined_in_place::<Difference>(alloc, networks, count, others)
}
