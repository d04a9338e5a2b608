//! The set: its networks are in normal form.
ghost use Rattle.std.specs.Prelude.{◌≡◌, ◌↔◌, ◌<◌, ◌≤◌, ◌^◌, [], length, map, IfOk, IsTrue};
ghost use Rattle.std.specs.Slice.Iter.{iter_rest};
ghost use Rattle.std.specs.Iterator.Adapters.{IterYieldsInOrder, IterYieldsInReverse};
ghost use Rattle.cidr_table.specs.model.Cover.{Covers, IsFull};
ghost use Rattle.cidr_table.specs.model.Cover.{IsReduced};
ghost use Rattle.cidr_sets.specs.model.Sets.{IsSetOf};
ghost use Rattle.cidr_sets.specs.internal.Steps.{Ascend};

use crate::probe::{Networks, contains};
use cidr::NetworkBits;
use cidr_table::laws::keys::has_at_most_129_bits;
use cidr_table::least_cover_in_place;
use std::alloc::{AllocError, Global};
use std::marker::Model;
use std::slice::Iter;

mod algebra;
mod compared;
mod counted;
mod debug;
mod edits;

/// A set of addresses: the shortest list of networks that has exactly these, ascending.
///
/// No network of the list contains another, and no two are the halves of one. Two sets have the same addresses exactly
/// if their lists are equal. Of `AnyIpCidr`, a set has addresses of both families. It keeps nothing but its networks.
/// Sets are ordered as their lists are: by the first network that differs, and a beginning of another list comes first.
#[derive(Drop)]
pub struct NetworkSet<C: NetworkBits + Copy> {
    networks: Vec<C>,
}

impl<C: NetworkBits + Copy> Model for NetworkSet<C> {
    ghost use Rattle.std.specs.Prelude.{List, map};
    ghost use Rattle.cidr_table.specs.model.Cover.{IsReduced};

    ghost Value = { List C };

    ghost view = { λ s. s.networks.items };

    ghost invariant = { λ s. IsReduced 129 (map C.bits s.networks.items) };
}

impl<C: NetworkBits + Copy> NetworkSet<C> {
    /// The empty set. It allocates nothing.
    ///
    /// ```
    /// NetworkSet::<Ipv4Cidr>::new(rt.alloc()).is_empty() // true
    /// ```
    pub fn new(alloc: Global) -> Self
        ensures { result ≡ [] }
    {
        NetworkSet {
            networks: Vec::new(alloc),
        }
    }

    /// The set of the addresses of some networks, which may come in any order, overlap and repeat.
    ///
    /// It allocates room for as many networks as there are, once, and sorts them: O(n log n), some 70 ns for each of a
    /// million of IPv4, and 15 to 20 where they ascend. Of many lists or sets, take the networks one behind the other:
    /// that of 16 takes 0.3 to 0.7 of the time of 15 unions in turn. Where the allocation fails, it returns the error.
    ///
    /// ```
    /// let lower: Ipv4Cidr = "10.0.0.0/9".parse()?;
    /// let upper: Ipv4Cidr = "10.128.0.0/9".parse()?;
    /// let set = NetworkSet::from_networks(rt.alloc(), &[upper, lower])?;
    /// set.as_slice() // [10.0.0.0/8]
    /// ```
    pub fn from_networks(alloc: Global, networks: &[C]) -> Result<Self, AllocError>
        ensures set { IfOk result (λ set. IsSetOf 129 (Covers (map C.bits networks.now)) (map C.bits set)) }
        ensures fits { IfOk result (λ set. length set ≤ length networks.now) }
    {
        let copies = Vec::from_slice(alloc, networks)?;
        Ok(reduced(copies))
    }

    /// The set of the addresses of the networks of a `Vec`, which may come in any order, overlap and repeat.
    ///
    /// It never fails and allocates nothing: the set keeps the `Vec`, with all of its room. It sorts the networks in
    /// place, O(n log n).
    ///
    /// ```
    /// let lower: Ipv4Cidr = "10.0.0.0/9".parse()?;
    /// let upper: Ipv4Cidr = "10.128.0.0/9".parse()?;
    /// let networks = vec![in rt.alloc(); upper, lower].map_err(|_| AllocError)?;
    /// NetworkSet::from_vec(networks).as_slice() // [10.0.0.0/8]
    /// ```
    pub fn from_vec(networks: Vec<C>) -> Self
        ensures set { IsSetOf 129 (Covers (map C.bits networks.items)) (map C.bits result) }
        ensures fits { length result ≤ length networks.items }
    {
        reduced(networks)
    }

    /// The set of networks in normal form.
    pub(crate) fn of_reduced(networks: Vec<C>) -> Self
        requires { IsReduced 129 (map C.bits networks.items) }
        ensures { result ≡ networks.items }
    {
        NetworkSet { networks }
    }

    /// Whether the set has all addresses of a network. An address is asked for as the network of full prefix length.
    ///
    /// It is [`contains`](crate::contains) over `probe`: one binary search and a look at one neighbour. Where the number
    /// of networks has d binary digits, it makes at most d + 1 comparisons.
    ///
    /// ```
    /// set.contains(&"10.0.0.0/8".parse()?) // true
    /// set.contains(&Ipv4Cidr::new_host(Ipv4Addr::new(11, 0, 0, 1))) // false
    /// ```
    pub fn contains(&self, network: &C) -> bool
        ensures addresses { IsTrue result ↔ IsFull 129 (map C.bits self.now) (C.bits network.now) }
        ensures networks { IsTrue result ↔ Covers (map C.bits self.now) (C.bits network.now) }
        ensures reduced { IsReduced 129 (map C.bits self.now) }
    {
        has_at_most_129_bits(network);
        contains(&mut self.probe(), network)
    }

    /// The networks of the set as a probe, for [`contains`](crate::contains). It borrows the set, copies nothing, and has
    /// made no comparison.
    ///
    /// ```
    /// let mut networks = set.probe();
    /// contains(&mut networks, &"10.1.0.0/16".parse()?) // true
    /// ```
    pub fn probe(&self) -> Networks<'_, C>
        ensures networks { result.networks ≡ self.now }
        ensures count { result.comparisons ≡ 0 }
        ensures reduced { IsReduced 129 (map C.bits self.now) }
    {
        Networks::new(self.networks.as_slice())
    }

    /// The networks of the set, ascending.
    ///
    /// ```
    /// set.as_slice() // [10.0.0.0/8]
    /// ```
    pub fn as_slice(&self) -> &[C]
        ensures networks { result.now ≡ self.now }
        ensures reduced { IsReduced 129 (map C.bits self.now) }
    {
        self.networks.as_slice()
    }

    /// The networks of the set, ascending, from both ends.
    ///
    /// ```
    /// set.iter().next() // Some(10.0.0.0/8)
    /// ```
    pub fn iter(&self) -> Iter<'_, C>
        ensures rest { iter_rest result ≡ self.now }
        ensures bound { length (iter_rest result) < 2 ^ 64 }
        ensures runs { IterYieldsInOrder C }
        ensures runs_back { IterYieldsInReverse C }
        ensures reduced { IsReduced 129 (map C.bits self.now) }
    {
        self.networks.iter()
    }

    /// The number of networks, which isn't that of the addresses.
    ///
    /// ```
    /// set.len() // 1
    /// ```
    pub fn len(&self) -> usize
        ensures { result ≡ length self.now }
    {
        self.networks.len()
    }

    /// Whether the set has no address.
    ///
    /// ```
    /// NetworkSet::<Ipv4Cidr>::new(rt.alloc()).is_empty() // true
    /// ```
    pub fn is_empty(&self) -> bool
        ensures { IsTrue result ↔ (self.now ≡ []) }
    {
        self.networks.is_empty()
    }
}

/// The set of the addresses of some networks.
pub(crate) fn reduced<C: NetworkBits + Copy>(mut networks: Vec<C>) -> NetworkSet<C>
    ensures set { IsSetOf 129 (Covers (map C.bits networks.items)) (map C.bits result) }
    ensures fits { length result ≤ length networks.items }
{
    networks.sort_unstable();
    networks.dedup();
    joined(networks)
}

/// The set of the addresses of networks that ascend.
pub(crate) fn joined<C: NetworkBits + Copy>(mut networks: Vec<C>) -> NetworkSet<C>
    requires { Ascend (map C.bits networks.items) }
    ensures set { IsSetOf 129 (Covers (map C.bits networks.items)) (map C.bits result) }
    ensures fits { length result ≤ length networks.items }
{
    let count = least_cover_in_place(networks.as_mut_slice());
    networks.truncate(count);
    NetworkSet { networks }
}
