//! Union, intersection and difference.
ghost use Rattle.std.specs.Prelude.{◌≡◌, ◌↔◌, ◌⊎◌, ℕ, ◌+◌, ◌-◌, ◌*◌, ◌≤◌, ◌<◌, ◌++◌, ◌∷◌, [], Bool, List, length, map, Contains, IfOk, OnOk, IsTrue, true, false};
ghost use Rattle.std.specs.Bool.{Decides};
ghost use Rattle.cidr.specs.model.Network.{BeginsWith};
ghost use Rattle.std.specs.declared.cmp.Ordering.TheVariants.{Less};
ghost use Rattle.cidr.specs.model.Bits.{bit_cmp};
ghost use Rattle.cidr_table.specs.model.Cover.{AreNetworks, Covers, IsReduced};
ghost use Rattle.cidr_sets.specs.internal.Steps.{Ascend, IsDifferenceStep, IsSkipped};
ghost use Rattle.cidr_sets.specs.model.Searches.{IsFirstInside};
ghost use Rattle.std.specs.Option.{option_map};
ghost use Rattle.std.specs.Vec.{vec_capacity};
ghost use Rattle.cidr_sets.specs.model.Sets.{IsUnion, IsIntersection, IsDifference, IsSymmetricDifference, IsComplement, Meets, IsSubset, AreDisjoint};

use crate::lookup::{covers, upto};
use crate::merging::{write_merged, write_shared};
use crate::rests::{write_complement, write_rests};
use crate::set::{NetworkSet, joined};
use cidr::NetworkBits;
use cidr_table::is_inside;
use cidr_table::laws::keys::has_at_most_129_bits;
use std::alloc::{AllocError, Global};

impl<C: NetworkBits + Copy> NetworkSet<C> {
    /// The addresses that one of two sets has, or both. Both stay as they were.
    ///
    /// It goes through both once, O(n), 10 to 25 ns a network of IPv4, and allocates room for as many networks as both
    /// have together. The union of many sets is made at once by `from_networks`. Where an allocation fails, it returns
    /// the error.
    ///
    /// ```
    /// half.union(&other)?.as_slice() // [10.128.0.0/9, 192.0.2.0/24]
    /// ```
    pub fn union(&self, other: &NetworkSet<C>) -> Result<NetworkSet<C>, AllocError>
        ensures set { IfOk result (λ set. IsUnion 129 (map C.bits self.now) (map C.bits other.now) (map C.bits set)) }
        ensures fits { IfOk result (λ set. length set ≤ length self.now + length other.now) }
    {
        let (these, those) = (self.as_slice(), other.as_slice());
        let mut networks = with_room(self.networks.allocator().clone()?, these, those)?;
        write_merged(&mut networks, these, those);
        Ok(joined(networks))
    }

    /// The addresses that both of two sets have. Both stay as they were.
    ///
    /// It goes through both once, O(n), and allocates room for as many networks as both have together; the result has
    /// one less at most, if they have any. Where an allocation fails, it returns the error.
    ///
    /// ```
    /// set.intersection(&half)?.as_slice() // [10.128.0.0/9]
    /// ```
    pub fn intersection(&self, other: &NetworkSet<C>) -> Result<NetworkSet<C>, AllocError>
        ensures set { IfOk result (λ set.
            IsIntersection 129 (map C.bits self.now) (map C.bits other.now) (map C.bits set)) }
        ensures fits { IfOk result (λ set. length set ≤ length self.now + length other.now - 1) }
    {
        let (these, those) = (self.as_slice(), other.as_slice());
        let mut networks = with_room(self.networks.allocator().clone()?, these, those)?;
        write_shared(&mut networks, these, those);
        Ok(NetworkSet { networks })
    }

    /// The addresses of this set that the other has not. Both stay as they were.
    ///
    /// It goes through both once. The result has at most as many networks as this set, and for each network of the
    /// other as many more as the longest of these has bits; its memory grows as it is written. Where an allocation
    /// fails, it returns the error.
    ///
    /// ```
    /// set.difference(&half)?.as_slice() // [10.0.0.0/9]
    /// ```
    pub fn difference(&self, other: &NetworkSet<C>) -> Result<NetworkSet<C>, AllocError>
        ensures set { IfOk result (λ set.
            IsDifference 129 (map C.bits self.now) (map C.bits other.now) (map C.bits set)) }
        ensures fits { IfOk result (λ set. (w : ℕ) → AreNetworks w (map C.bits other.now)
            → length set ≤ length self.now + w * length other.now) }
    {
        let mut rest = Vec::new(self.networks.allocator().clone()?);
        write_rests(&mut rest, self.as_slice(), other.as_slice())?;
        Ok(NetworkSet { networks: rest })
    }

    /// Whether the set has all addresses of some networks, which may come in any order. Binary search for each, up to
    /// the first that isn't in the set: O(k log n) for k networks.
    ///
    /// ```
    /// set.contains_all(&["10.0.0.0/24".parse()?, "10.1.0.0/24".parse()?]) // true
    /// ```
    pub fn contains_all(&self, networks: &[C]) -> bool
        ensures { IsTrue result ↔ IsSubset 129 (map C.bits networks.now) (map C.bits self.now) }
    {
        networks.iter().all(|network| self.contains(network))
    }

    /// Whether the set has an address of a network. Two binary searches at most: O(log n).
    ///
    /// ```
    /// half.overlaps(&"10.0.0.0/8".parse()?) // true
    /// half.overlaps(&"10.0.0.0/9".parse()?) // false
    /// ```
    pub fn overlaps(&self, network: &C) -> bool
        ensures { IsTrue result ↔ Meets 129 (map C.bits self.now) (C.bits network.now) }
    {
        meets(self.as_slice(), network)
    }

    /// Whether the other set has all addresses of this one. Binary search in the other for each network of this one, up
    /// to the first that isn't in it: O(m log n) for m and n networks.
    ///
    /// ```
    /// half.is_subset(&set) // true
    /// ```
    pub fn is_subset(&self, other: &NetworkSet<C>) -> bool
        ensures { IsTrue result ↔ IsSubset 129 (map C.bits self.now) (map C.bits other.now) }
    {
        other.contains_all(self.as_slice())
    }

    /// The addresses that exactly one of two sets has. Both stay as they were.
    ///
    /// It makes the difference each way and the union of both, in the time and memory of these. Where an allocation
    /// fails, it returns the error.
    ///
    /// ```
    /// set.symmetric_difference(&half)?.as_slice() // [10.0.0.0/9]
    /// ```
    pub fn symmetric_difference(&self, other: &NetworkSet<C>) -> Result<NetworkSet<C>, AllocError>
        ensures { IfOk result (λ set.
            IsSymmetricDifference 129 (map C.bits self.now) (map C.bits other.now) (map C.bits set)) }
    {
        let these = self.difference(other)?;
        let those = other.difference(self)?;
        these.union(&those)
    }

    /// The addresses of a network that the set has not. The set stays as it was.
    ///
    /// It goes through the set once: O(n). The result has at most one network, and for each network of the set as many
    /// more as the longest of these has bits; its memory grows as it is written. Where an allocation fails, it returns
    /// the error.
    ///
    /// ```
    /// half.complement_in(&"10.0.0.0/8".parse()?)?.as_slice() // [10.0.0.0/9]
    /// ```
    pub fn complement_in(&self, network: &C) -> Result<NetworkSet<C>, AllocError>
        ensures set { IfOk result (λ set.
            IsComplement 129 (C.bits network.now) (map C.bits self.now) (map C.bits set)) }
        ensures fits { IfOk result (λ set. (w : ℕ) → AreNetworks w (map C.bits self.now)
            → length set ≤ w * length self.now + 1) }
    {
        let mut rest = Vec::new(self.networks.allocator().clone()?);
        write_complement(&mut rest, network, self.as_slice())?;
        Ok(NetworkSet { networks: rest })
    }

    /// Whether no address is in both sets. Binary searches in the other for each network of this one, up to the first
    /// that has an address in it: O(m log n) for m and n networks.
    ///
    /// ```
    /// set.is_disjoint(&half) // false
    /// ```
    pub fn is_disjoint(&self, other: &NetworkSet<C>) -> bool
        ensures { IsTrue result ↔ AreDisjoint 129 (map C.bits self.now) (map C.bits other.now) }
    {
        !self
            .as_slice()
            .iter()
            .any(|network| other.overlaps(network))
    }
}

/// An empty list with room for the networks of two.
fn with_room<C>(alloc: Global, these: &[C], those: &[C]) -> Result<Vec<C>, AllocError>
    ensures none { IfOk result (λ networks. networks.items ≡ []) }
    ensures room { IfOk result (λ networks. length these.now + length those.now ≤ vec_capacity networks) }
{
    let room = these.len().checked_add(those.len()).ok_or(AllocError)?;
    Vec::with_capacity(alloc, room)
}

/// The first of the networks that lie in one that none of them contains.
fn first_inside<C: NetworkBits + Copy>(networks: &[C], outer: &C) -> Option<C>
    requires reduced { IsReduced 129 (map C.bits networks.now) }
    requires apart { ¬ (Covers (map C.bits networks.now) (C.bits outer.now)) }
    ensures { IsFirstInside (map C.bits networks.now) (C.bits outer.now) (option_map C.bits result) }
{
    let index = upto(networks, outer);
    if index < networks.len() && is_inside(&networks[index], outer) {
        Some(networks[index])
    } else {
        None
    }
}

/// Whether one of the networks has an address in common with this one.
fn meets<C: NetworkBits + Copy>(networks: &[C], network: &C) -> bool
    requires { IsReduced 129 (map C.bits networks.now) }
    ensures { Decides result (Meets 129 (map C.bits networks.now) (C.bits network.now)) }
{
    has_at_most_129_bits(network);
    covers(networks, network) || first_inside(networks, network).is_some()
}
