//! Sets of addresses whose allocations are refused.
use crate::growths::{Blocks, are_blocks, block};
use cidr::{Ipv4Addr, Ipv4Cidr};
use cidr_sets::NetworkSet;
use std::alloc::{AllocError, Global};

/// A set of IPv4 addresses.
type Set = NetworkSet<Ipv4Cidr>;

/// The numbers of the first addresses of 10.0.0.0/8, of its upper half, and of the network behind it.
const TEN: u32 = 0x0a00_0000;

const UPPER: u32 = 0x0a80_0000;

const ELEVEN: u32 = 0x0b00_0000;

/// What is made of two sets.
#[derive(Clone, Copy)]
enum Operation {
    Union,
    Intersection,
    Difference,
    SymmetricDifference,
    /// Of the first set, in 10.0.0.0/7.
    Complement,
}

/// What each makes of 10.0.0.0/8 and of 10.0.0.0/9 with 11.0.0.0/8.
static MADE: [(Operation, Blocks); 5] = [
    (Operation::Union, &[(TEN, 7)]),
    (Operation::Intersection, &[(TEN, 9)]),
    (Operation::Difference, &[(UPPER, 9)]),
    (Operation::SymmetricDifference, &[(UPPER, 9), (ELEVEN, 8)]),
    (Operation::Complement, &[(ELEVEN, 8)]),
];

/// The set of some networks.
fn set_of(alloc: Global, networks: &[Ipv4Cidr]) -> Result<Set, AllocError> {
    match Set::from_networks(alloc, networks) {
        Ok(set) => Ok(set),
        Err(_) => Set::from_networks(alloc, networks),
    }
}

fn made(operation: Operation, these: &Set, those: &Set) -> Result<Set, AllocError> {
    match operation {
        Operation::Union => these.union(those),
        Operation::Intersection => these.intersection(those),
        Operation::Difference => these.difference(those),
        Operation::SymmetricDifference => these.symmetric_difference(those),
        Operation::Complement => these.complement_in(&block(TEN, 7)),
    }
}

/// Whether the set is as it is to be that is made of two, once more where it is refused.
fn is_made(
    operation: Operation,
    these: &Set,
    those: &Set,
    wanted: Blocks,
) -> Result<bool, AllocError> {
    match made(operation, these, those) {
        Ok(set) => Ok(are_blocks(set.as_slice(), wanted)),
        Err(_) => Ok(are_blocks(made(operation, these, those)?.as_slice(), wanted)),
    }
}

/// Whether the sets are as they are to be that are made of two, and these stay.
pub fn algebra(alloc: Global) -> Result<bool, AllocError> {
    let these = set_of(alloc, &[block(TEN, 8)])?;
    let those = set_of(alloc, &[block(TEN, 9), block(ELEVEN, 8)])?;
    let mut held = true;
    for (operation, wanted) in &MADE {
        held &= is_made(*operation, &these, &those, wanted)?;
    }
    Ok(
        held && are_blocks(these.as_slice(), &[(TEN, 8)])
            && are_blocks(those.as_slice(), &[(TEN, 9), (ELEVEN, 8)]),
    )
}

/// Every second network of /24, by its number.
fn second(i: u32) -> Ipv4Cidr {
    block(i << 9, 24)
}

/// Adds a network, once more where that is refused; whether it left the set then.
fn insert_twice(set: &mut Set, network: Ipv4Cidr) -> Result<bool, AllocError> {
    let len = set.len();
    if set.insert(network).is_ok() {
        return Ok(true);
    }
    let same = set.len() == len && !set.contains(&network);
    set.insert(network)?;
    Ok(same)
}

/// Takes a network out, once more where that is refused; whether it left the set then.
fn remove_twice(set: &mut Set, network: &Ipv4Cidr) -> Result<bool, AllocError> {
    let len = set.len();
    if set.remove(network).is_ok() {
        return Ok(true);
    }
    let same = set.len() == len && set.contains(network);
    set.remove(network)?;
    Ok(same)
}

/// Whether 20 networks are added and taken out, and a refused call leaves the set.
pub fn changes(alloc: Global) -> Result<bool, AllocError> {
    let mut set = Set::new(alloc);
    let mut held = true;
    for i in 0..20_u32 {
        held &= insert_twice(&mut set, second(i))?;
    }
    held &= set.len() == 20;
    for i in 0..20_u32 {
        held &= remove_twice(&mut set, &second(i))?;
    }
    Ok(held && set.is_empty())
}

/// Whether a network of 64 addresses is taken out of one of 2^24, and a refused call leaves the set.
pub fn part(alloc: Global) -> Result<bool, AllocError> {
    let mut set = set_of(alloc, &[block(TEN, 8)])?;
    let part = block(TEN + 64, 26);
    let held = remove_twice(&mut set, &part)?;
    Ok(held && set.len() == 18 && !set.overlaps(&part))
}

/// Whether networks that take the place of others need no memory: the other half of one, and one around another.
pub fn joins(alloc: Global) -> Result<bool, AllocError> {
    let mut set = set_of(alloc, &[block(TEN, 9), block(ELEVEN, 9)])?;
    let held = set.insert(block(UPPER, 9)).is_ok() && set.insert(block(ELEVEN, 8)).is_ok();
    Ok(held && are_blocks(set.as_slice(), &[(TEN, 7)]))
}

/// Whether a range is a set of four networks.
pub fn range(alloc: Global) -> Result<bool, AllocError> {
    let (first, last) = (Ipv4Addr::from_bits(TEN + 1), Ipv4Addr::from_bits(TEN + 6));
    let set = match Set::from_range(alloc, first, last) {
        Ok(set) => set,
        Err(_) => Set::from_range(alloc, first, last)?,
    };
    let wanted: Blocks = &[(TEN + 1, 32), (TEN + 2, 31), (TEN + 4, 31), (TEN + 6, 32)];
    Ok(are_blocks(set.as_slice(), wanted))
}
