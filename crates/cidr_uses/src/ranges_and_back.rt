//! Sets and their ranges: a range as a set and back, and a set as its ranges and back.
ghost use Rattle.std.specs.Prelude.{◌≡◌, ◌≢◌, ◌∷◌, [], Bool, List, map, IfOk};
ghost use Rattle.std.specs.declared.cmp.Ordering.TheVariants.{Greater};
ghost use Rattle.cidr.specs.model.Bits.{bit_cmp};

use cidr_sets::laws::{equal_sets_are_the_same, sets_are_their_ranges};
use cidr_sets::{AddressRange, Addressed, NetworkSet};
use std::alloc::{AllocError, Global};

/// The ranges of the set of the addresses from a first to a last one, which isn't before it: that range alone.
pub fn range_and_back<C: Addressed + Copy>(
    alloc: Global,
    first: C::Address,
    last: C::Address,
) -> Result<Vec<AddressRange<C::Address>>, AllocError>
    requires { bit_cmp (C.address_bits first) (C.address_bits last) ≢ Greater }
    ensures { IfOk result (λ ranges.
        map {B = List Bool × List Bool} (λ r. (C.address_bits r.first, C.address_bits r.last)) ranges.items
        ≡ (C.address_bits first, C.address_bits last) ∷ []) }
{
    let set = NetworkSet::<C>::from_range(alloc, first, last)?;
    let mut ranges = Vec::new(alloc);
    for range in set.ranges() {
        ranges.push(range)?;
    }
    Ok(ranges)
}

/// The set of the addresses in the ranges of a set: that set again.
pub fn set_and_back<C: Addressed + Copy>(
    alloc: Global,
    set: &NetworkSet<C>,
) -> Result<NetworkSet<C>, AllocError>
    ensures { IfOk result (λ again. again ≡ set.now) }
{
    // the calls tell the proof that a set is its ranges, and which sets are equal
    sets_are_their_ranges();
    equal_sets_are_the_same::<C>();
    let mut again = NetworkSet::new(alloc);
    for range in set.ranges() {
        let part = NetworkSet::<C>::from_range(alloc, range.first, range.last)?;
        again = again.union(&part)?;
    }
    Ok(again)
}
