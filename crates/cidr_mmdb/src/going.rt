//! Going from one network of the search tree to the next.

use crate::found::Found;
use crate::networks::{last_number, network_of};
use crate::rows::Row;
use crate::searching::Search;
use crate::trees::Walk;
use cidr::{FamilyCidr, IpCidr, Ipv4Cidr, Ipv6Cidr};

impl<'a> Search<'a> {
    ghost use Rattle.std.specs.Prelude.{◌≡◌, ◌≤◌, ◌<◌, ◌^◌, MatchOption};
    ghost use Rattle.cidr_mmdb.specs.LookUps.{looked_in};
    ghost use Rattle.cidr_mmdb.specs.Rows.{IsNextRow, IsPassed, IsRowAt, begin_behind, number_behind};
    ghost use Rattle.cidr_mmdb.specs.Trees.{record_at, walk};

    /// The next network behind one for which anything is found, behind at most so many with nothing.
    pub(crate) fn next_row(&self, after: Option<IpCidr>, most: u32) -> Option<Row>
        ensures { MatchOption result
            (IsPassed (looked_in self.now.tree.record_size self.now.tree.bytes.now self.now.tree.node_count self.now.width self.now.size) self.now.width (begin_behind after) (2 ^ self.now.width))
            (IsNextRow (looked_in self.now.tree.record_size self.now.tree.bytes.now self.now.tree.node_count self.now.width self.now.size) self.now.width (begin_behind after) most) }
    {
        let mut from = self.behind(after)?;
        let mut left = most;
        while left > 0 {
            let walk = self.tree.walk(0, from, self.width);
            match self.found(walk.record) {
                Found::Nothing => {}
                _ => {
                    return Some(self.row(from, walk));
                }
            }
            let Some(next) = self.number_behind(from, walk.left) else {
                return None;
            };
            from = next;
            left -= 1;
        }
        let walk = self.tree.walk(0, from, self.width);
        Some(self.row(from, walk))
    }

    /// The number of the first address behind a network, or of the first of all, if it is in the tree.
    fn behind(&self, after: Option<IpCidr>) -> Option<u128>
        ensures { MatchOption result (2 ^ self.now.width ≤ begin_behind after) (λ n. (n ≡ begin_behind after) × (n < 2 ^ self.now.width)) }
    {
        match after {
            None => Some(0),
            Some(network) => self.within(last_number(&network).checked_add(1)?),
        }
    }

    /// The number of the first address behind a network by its last so many bits, if it is in the tree.
    fn number_behind(&self, n: u128, left: u32) -> Option<u128>
        requires within { n < 2 ^ self.now.width }
        requires few { left ≤ 128 }
        ensures { MatchOption result (2 ^ self.now.width ≤ number_behind n left) (λ next. (next ≡ number_behind n left) × (next < 2 ^ self.now.width)) }
    {
        if left == 128 {
            return None;
        }
        let step: u128 = 1 << left;
        self.within((n / step * step).checked_add(step)?)
    }

    /// A number, if an address of the tree has it.
    fn within(&self, n: u128) -> Option<u128>
        ensures { MatchOption result (2 ^ self.now.width ≤ n) (λ same. (same ≡ n) × (n < 2 ^ self.now.width)) }
    {
        if self.width == 32 && n >= 1 << 32 {
            return None;
        }
        Some(n)
    }

    /// The network of an address of the tree, by its walk.
    fn row(&self, n: u128, end: Walk) -> Row
        requires within { n < 2 ^ self.now.width }
        requires few { end.left ≤ self.now.width }
        requires record { end.record ≡ (walk (record_at self.now.tree.record_size self.now.tree.bytes.now) self.now.tree.node_count n 0 self.now.width).0 }
        requires left { end.left ≡ (walk (record_at self.now.tree.record_size self.now.tree.bytes.now) self.now.tree.node_count n 0 self.now.width).1 }
        ensures { IsRowAt (looked_in self.now.tree.record_size self.now.tree.bytes.now self.now.tree.node_count self.now.width self.now.size) self.now.width n result }
    {
        let network = if self.width == 32 || (n < 1 << 32 && end.left <= 32) {
            network_of::<Ipv4Cidr>(n, end.left)
        } else {
            network_of::<Ipv6Cidr>(n, end.left)
        };
        Row {
            network,
            found: self.found(end.record),
        }
    }
}
