//! Look-ups in the search tree.
ghost use Rattle.std.specs.Prelude.{◌≡◌, ◌≤◌, ◌==◌, ◌||◌, IsTrue};

use crate::found::Found;
use crate::looking::Answer;
use crate::trees::{Tree, Walk};
use cidr::FamilyCidr;

/// What look-ups read of a file.
#[derive(Clone, Copy)]
pub(crate) struct Search<'a> {
    /// The search tree.
    pub tree: Tree<'a>,
    /// How many bits an address has in the tree.
    pub width: u32,
    /// How many bytes the data section has.
    pub size: usize,
    /// Where a walk by an IPv4 address begins.
    pub start: u32,
    ghost family: { width ≤ 128 },
    ghost version: { IsTrue ((width == 32) || (width == 128)) },
}

impl<'a> Search<'a> {
    ghost use Rattle.std.specs.Prelude.{◌≡◌, ◌≤◌, ◌<◌, ◌-◌, ◌^◌, take};
    ghost use Rattle.cidr.specs.model.Bits.{number};
    ghost use Rattle.cidr.specs.model.Network.{width_of};
    ghost use Rattle.cidr_mmdb.specs.Databases.{said_by};
    ghost use Rattle.cidr_mmdb.specs.LookUps.{looked_in};
    ghost use Rattle.cidr_mmdb.specs.Starts.{start_in};
    ghost use Rattle.cidr_mmdb.specs.Trees.{record_at, walk};

    /// What is found for an address, where walks by IPv4 addresses begin behind the bits before them.
    pub(crate) fn answer<C: FamilyCidr>(&self, address: C::Address) -> Answer<C>
        ensures found { self.now.start ≡ start_in self.now.tree.record_size self.now.tree.bytes.now self.now.tree.node_count self.now.width
            → result.found ≡ (looked_in self.now.tree.record_size self.now.tree.bytes.now self.now.tree.node_count self.now.width self.now.size (width_of C.FAMILY) (number (C.Address.bits address))).0 }
        ensures network { self.now.start ≡ start_in self.now.tree.record_size self.now.tree.bytes.now self.now.tree.node_count self.now.width
            → C.bits result.network ≡ take (looked_in self.now.tree.record_size self.now.tree.bytes.now self.now.tree.node_count self.now.width self.now.size (width_of C.FAMILY) (number (C.Address.bits address))).1 (C.Address.bits address) }
    {
        let mut network = C::new_host(address);
        let width = u32::from(C::FAMILY.len());
        if width > self.width {
            network.clip(0);
            return Answer {
                network,
                found: Found::Nothing,
            };
        }
        let walk = self.walk(C::to_number(address), width);
        network.clip(width.saturating_sub(walk.left) as usize);
        Answer {
            network,
            found: self.found(walk.record),
        }
    }

    /// The walk by an address of so many bits; that by one of IPv4 begins behind the bits before it, so that no more bits are left than it
    /// has.
    fn walk(&self, address: u128, width: u32) -> Walk
        requires within { width ≤ self.now.width }
        requires fits { address < 2 ^ width }
        ensures record { self.now.start ≡ start_in self.now.tree.record_size self.now.tree.bytes.now self.now.tree.node_count self.now.width
            → result.record ≡ (walk (record_at self.now.tree.record_size self.now.tree.bytes.now) self.now.tree.node_count address 0 self.now.width).0 }
        ensures left { self.now.start ≡ start_in self.now.tree.record_size self.now.tree.bytes.now self.now.tree.node_count self.now.width
            → width - result.left ≡ width - (walk (record_at self.now.tree.record_size self.now.tree.bytes.now) self.now.tree.node_count address 0 self.now.width).1 }
    {
        if width == 32 {
            return self.tree.walk(self.start, address, 32);
        }
        self.tree.walk(0, address, self.width)
    }

    /// What a record says.
    pub(crate) fn found(&self, at: u32) -> Found
        ensures { result ≡ said_by self.now.tree.node_count self.now.size at }
    {
        if at < self.tree.node_count {
            return Found::Broken;
        }
        if at == self.tree.node_count {
            return Found::Nothing;
        }
        let past = (at - self.tree.node_count) as usize;
        if past < 16 {
            return Found::Broken;
        }
        if past - 16 >= self.size {
            return Found::Broken;
        }
        Found::Value(past - 16)
    }
}
