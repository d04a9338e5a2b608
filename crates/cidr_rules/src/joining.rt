//! Regions that are joined to fewer.
ghost use Rattle.std.specs.Prelude.{◌≡◌, true, OnOk, position};
ghost use Rattle.cidr_rules.specs.Packets.{ranges_of};
ghost use Rattle.cidr_rules.specs.Regions.{are_full, join};
ghost use Rattle.cidr_rules.specs.Parts.{AreSeparate, IsJoined, boxes_of};

use crate::fields::FieldValue;
use crate::regions::Region;
use std::alloc::AllocError;

/// The index of the first region that is one region together with another.
fn first_joining<A: FieldValue>(regions: &[Region<A>], region: &Region<A>) -> Option<usize>
    ensures { result ≡ position (λ r. join (ranges_of A.number r) (ranges_of A.number region.now)) regions.now }
{
    regions.iter().position(|one| one.joins(region))
}

/// Appends a region, joined with those that are one region together with it.
pub(crate) fn push_joined<A: FieldValue>(
    regions: &mut Vec<Region<A>>,
    region: &Region<A>,
) -> Result<(), AllocError>
    requires regions { AreSeparate (boxes_of A.number regions.old.items) }
    requires region { are_full (ranges_of A.number region.now) ≡ true }
    ensures { OnOk result (IsJoined (ranges_of A.number region.now) (boxes_of A.number regions.old.items)
        (boxes_of A.number regions.new.items)) }
{
    let mut whole = *region;
    loop {
        let found = first_joining(regions, &whole);
        match found {
            Some(i) => {
                let part = regions.remove(i);
                whole = part.hull(&whole);
            }
            None => {
                regions.push(whole)?;
                return Ok(());
            }
        }
    }
}
