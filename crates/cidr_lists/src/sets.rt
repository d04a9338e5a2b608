//! The addresses of lists as sets, and sets put together.
ghost use Rattle.std.specs.Prelude.{◌≡◌, ◌↔◌, [], IfOk, IsTrue, ◌∷◌, map};
ghost use Rattle.cidr.specs.declared.family.Family.{Family};
ghost use Rattle.cidr_table.specs.model.Cover.{Covers};
ghost use Rattle.cidr_sets.specs.model.Sets.{IsSetOf};
ghost use Rattle.cidr_lists.specs.Reading.{listed};
ghost use Rattle.cidr_lists.specs.Sets.{networks_of, Combined, Steps, IsInSets, IsFreeOf};
ghost use Rattle.std.specs.Bool.{Decides};
ghost use Rattle.cidr_lists.specs.Within.{IsWithin, LiesIn};
ghost use Rattle.cidr_lists.specs.Lists.{line_networks};

use crate::laws::sets_are_reduced;
use crate::lists::Lists;
use cidr::{BitString, IpCidr, Ipv4Cidr, Ipv6Cidr, NetworkBits};
use cidr_sets::NetworkSet;
use std::alloc::{AllocError, Global};

/// How addresses are written, for a caller that writes them.
#[derive(Clone, Copy, Debug, Drop, PartialEq)]
pub enum Form {
    /// As the shortest list of networks.
    Networks,
    /// As the longest ranges.
    Ranges,
    /// As their number.
    Counts,
}

/// What a further list does to the addresses of those before.
#[derive(Clone, Copy, Debug, Drop, PartialEq)]
pub enum Step {
    /// Its own are added.
    Union,
    /// Its own are taken away.
    Difference,
    /// Only its own stay.
    Intersection,
}

/// A set of addresses of each family.
#[derive(Drop)]
pub struct Sets {
    /// That of IPv4.
    pub v4: NetworkSet<Ipv4Cidr>,
    /// That of IPv6.
    pub v6: NetworkSet<Ipv6Cidr>,
}

/// Two sets of one family put together.
fn stepped<C: NetworkBits + Copy>(
    step: Step,
    these: &NetworkSet<C>,
    those: &NetworkSet<C>,
) -> Result<NetworkSet<C>, AllocError>
    ensures { IfOk result (λ set. IsSetOf 129
        (λ a. Steps step (Covers (map C.bits these.now) a) (Covers (map C.bits those.now) a)) (map C.bits set)) }
{
    match step {
        Step::Union => these.union(those),
        Step::Difference => these.difference(those),
        Step::Intersection => these.intersection(those),
    }
}

impl Sets {
    /// The addresses of the networks of lists. It never fails: it sorts them in their own memory, O(n log n).
    pub fn of_lists(lists: Lists) -> Sets
        ensures { (family : Family) → IsSetOf 129 (Covers (listed lists family)) (networks_of result family) }
    {
        let Lists { v4, v6 } = lists;
        Sets {
            v4: NetworkSet::from_vec(v4),
            v6: NetworkSet::from_vec(v6),
        }
    }

    /// The addresses of a network. The error is that there is no memory.
    pub fn of_network(alloc: Global, network: &IpCidr) -> Result<Sets, AllocError>
        ensures { IfOk result (λ sets. (family : Family)
            → IsSetOf 129 (Covers (line_networks family (network.now ∷ []))) (networks_of sets family)) }
    {
        let mut lists = Lists::new(alloc);
        lists.push(network)?;
        Ok(Sets::of_lists(lists))
    }

    /// Whether the sets have no address of either family.
    pub fn is_empty(&self) -> bool
        ensures { IsTrue result ↔ ((family : Family) → networks_of self.now family ≡ []) }
    {
        self.v4.is_empty() && self.v6.is_empty()
    }

    /// Whether the sets have all addresses of a network. Binary search: O(log n).
    pub fn contains(&self, network: &IpCidr) -> bool
        ensures { Decides result (IsWithin (IsInSets self.now) network.now) }
    {
        match network {
            IpCidr::V4(network) => self.v4.contains(network),
            IpCidr::V6(network) => self.v6.contains(network),
        }
    }

    /// Whether a network is given and the sets have all its addresses: `false` for `None`.
    pub fn have(&self, network: &Option<IpCidr>) -> bool
        ensures { Decides result (LiesIn (IsInSets self.now) network.now) }
    {
        match network {
            Some(network) => self.contains(network),
            None => false,
        }
    }

    /// The first network of a prefix length that has only addresses of the sets, of IPv4 before IPv6, or `None` where
    /// there is none. A length above 32 is one of IPv6. It looks at each network at most once: O(n).
    pub fn first_free(&self, len: u8) -> Option<IpCidr>
        ensures { IsFreeOf (networks_of self.now) len result }
    {
        if let Some(network) = self.v4.first_free(usize::from(len)) {
            return Some(IpCidr::V4(network));
        }
        match self.v6.first_free(usize::from(len)) {
            Some(network) => Some(IpCidr::V6(network)),
            None => None,
        }
    }

    /// The sets of each family put together, as the calls of `NetworkSet` do, in their time and memory. The error is
    /// that there is no memory, and both stay as they were.
    pub fn stepped(&self, step: Step, other: &Sets) -> Result<Sets, AllocError>
        ensures { IfOk result (λ sets. (family : Family)
            → IsSetOf 129 (λ a. Steps step (IsInSets self.now family a) (IsInSets other.now family a))
            (networks_of sets family)) }
    {
        Ok(Sets {
            v4: stepped(step, &self.v4, &other.v4)?,
            v6: stepped(step, &self.v6, &other.v6)?,
        })
    }

    /// The addresses of each family that the sets have not: where there are none, all of that family. It takes the time
    /// and memory of `complement_in` of `NetworkSet`. The error is that there is no memory.
    pub fn complement(&self) -> Result<Sets, AllocError>
        ensures { IfOk result (λ sets. (family : Family)
            → IsSetOf 129 (λ a. ¬ (IsInSets self.now family a)) (networks_of sets family)) }
    {
        Ok(Sets {
            v4: self.v4.complement_in(&Ipv4Cidr::null())?,
            v6: self.v6.complement_in(&Ipv6Cidr::null())?,
        })
    }
}

/// Sets put together, from the first one on: each of the others in turn with what came of those before, in the time and
/// memory of each step. The error is that there is no memory.
pub fn combined(step: Step, first: Sets, others: &[Sets]) -> Result<Sets, AllocError>
    ensures { IfOk result (λ sets. (family : Family)
        → IsSetOf 129 (λ a. Combined IsInSets step (IsInSets first family a) others.now family a)
        (networks_of sets family)) }
{
    sets_are_reduced(&first);
    let mut all = first;
    for other in others {
        all = all.stepped(step, other)?;
    }
    Ok(all)
}
