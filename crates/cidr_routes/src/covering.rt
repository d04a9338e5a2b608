//! The payloads that cover a route.
ghost use Rattle.std.specs.Iterator.{YieldsFirstBy, item_count};

use crate::origins::Payload;
use cidr::NetworkBits;
use std::iter::FusedIterator;
use std::marker::Model;

/// The payloads that cover a route, from the longest network to the shortest. The call `covering` makes it.
#[derive(Drop)]
pub struct Covering<'a, C: NetworkBits + Copy> {
    pub(crate) payloads: &'a [Payload<C>],
    /// For each payload, how many there are up to the last before it whose network contains its network.
    pub(crate) above: &'a [usize],
    pub(crate) route: C,
    /// How many payloads there are up to the next.
    pub(crate) end: usize,
}

impl<'a, C: NetworkBits + Copy> Model for Covering<'a, C> {
    ghost use Rattle.std.specs.Prelude.{◌≡◌, ◌≤◌, List, length};
    ghost use Rattle.cidr_routes.specs.Links.{AreLinked, AreOrdered, CoversLast, covered};
    ghost use Rattle.cidr_routes.specs.declared.origins.Payload.{Payload};

    ghost Value = { List (Payload C) };

    ghost view = { λ c. covered C.bits c.payloads.now (C.bits c.route) c.end };

    ghost invariant = { λ c. AreOrdered C.bits c.payloads.now × AreLinked C.bits c.payloads.now c.above.now
        × (length c.above.now ≡ length c.payloads.now) × (c.end ≤ length c.payloads.now)
        × CoversLast C.bits c.payloads.now (C.bits c.route) c.end };
}

impl<'a, C: NetworkBits + Copy> Iterator for Covering<'a, C> {
    type Item = &'a Payload<C>;

    ghost next_gives = { YieldsFirstBy (λ payload. payload.now) (λ payloads. payloads) };

    ghost remaining = { item_count (λ payloads. payloads) };

    fn next(&mut self) -> Option<&'a Payload<C>> {
        if self.end == 0 {
            return None;
        }
        let place = self.end - 1;
        self.end = self.above[place];
        Some(&self.payloads[place])
    }
}

impl<'a, C: NetworkBits + Copy> FusedIterator for Covering<'a, C> {}
