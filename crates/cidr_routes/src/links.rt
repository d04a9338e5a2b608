//! From a payload to the last one before it whose network contains its network.
ghost use Rattle.std.specs.Prelude.{◌≡◌, ◌≤◌, length, IfOk};
ghost use Rattle.cidr_routes.specs.Links.{AreLinked, AreNested, AreOrdered, IsUpto};

use crate::origins::Payload;
use cidr::NetworkBits;
use cidr_table::is_inside;
use std::alloc::{AllocError, Global};

/// Of the first `end` payloads, how many there are up to the last whose network contains this one, or 0.
///
/// From a payload whose network doesn't, it goes on to the last before it whose network contains that: those between are
/// passed over, since where one of them had this network, it would have that one too.
pub fn last_covering<C: NetworkBits + Copy>(
    payloads: &[Payload<C>],
    above: &[usize],
    network: &C,
    end: usize,
) -> usize
    requires within { end ≤ length payloads.now }
    requires known { end ≤ length above.now }
    requires linked { AreLinked C.bits payloads.now above.now }
    requires nested { AreNested C.bits payloads.now (C.bits network.now) end }
    ensures { IsUpto C.bits payloads.now (C.bits network.now) end result }
{
    let mut left = end;
    while left > 0 {
        if is_inside(network, &payloads[left - 1].network) {
            return left;
        }
        left = above[left - 1];
    }
    0
}

/// For each payload, how many there are up to the last before it whose network contains its network, or 0.
pub fn links<C: NetworkBits + Copy>(
    alloc: Global,
    payloads: &[Payload<C>],
) -> Result<Vec<usize>, AllocError>
    requires { AreOrdered C.bits payloads.now }
    ensures len { IfOk result (λ above. length above.items ≡ length payloads.now) }
    ensures linked { IfOk result (λ above. AreLinked C.bits payloads.now above.items) }
{
    let mut above = Vec::with_capacity(alloc, payloads.len())?;
    for (i, payload) in payloads.iter().enumerate() {
        let count = last_covering(payloads, above.as_slice(), &payload.network, i);
        above.push(count)?;
    }
    Ok(above)
}
