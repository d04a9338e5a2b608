//! Adding a network and taking one out, in the memory of the set.
ghost use Rattle.std.specs.Prelude.{◌≡◌, ◌<◌, ◌∷◌, [], Bool, List, length, map, IsOk, OnOk, OnErr};
ghost use Rattle.cidr_table.specs.model.Cover.{Covers, IsReduced};
ghost use Rattle.cidr_sets.specs.model.Sets.{IsUnion, IsDifference};

use crate::lookup::{covers, upto};
use crate::neighbours::{inside_of, joined_with};
use crate::replacing::{cut, put, replace};
use crate::rests::write_rest;
use crate::set::NetworkSet;
use cidr::NetworkBits;
use cidr_table::laws::keys::has_at_most_129_bits;
use std::alloc::AllocError;

impl<C: NetworkBits + Copy> NetworkSet<C> {
    /// Adds the addresses of a network. Where an allocation fails, the set stays as it was.
    ///
    /// Networks that lie in it are dropped, and with the other half of it, it becomes one network, as far up as it goes.
    /// It takes two binary searches, a look at each network that goes, and one move of the networks behind: O(n), of
    /// IPv4 some 7 µs among 100,000 and 200 µs among a million. It allocates nothing where the set has all its
    /// addresses, or where a network goes. `insert_all` adds many at once.
    ///
    /// ```
    /// let mut pool = NetworkSet::new(rt.alloc());
    /// pool.insert("10.0.0.0/8".parse::<Ipv4Cidr>()?)?;
    /// pool.as_slice() // [10.0.0.0/8]
    /// ```
    pub fn insert(&mut self, network: C) -> Result<(), AllocError>
        ensures ok { OnOk result (IsUnion 129 (map C.bits self.old) (C.bits network ∷ []) (map C.bits self.new)) }
        ensures err { OnErr result (self.new ≡ self.old) }
        ensures held { Covers (map C.bits self.old) (C.bits network) → IsOk result }
        ensures grows { OnErr result ((set : List (List Bool))
            → IsUnion 129 (map C.bits self.old) (C.bits network ∷ []) set → length self.old < length set) }
    {
        has_at_most_129_bits(&network);
        if covers(self.as_slice(), &network) {
            return Ok(());
        }
        let (whole, start, end) = joined_with(self.as_slice(), &network);
        put(&mut self.networks, start, end, whole)
    }

    /// Removes the addresses of a network. Where an allocation fails, the set stays as it was.
    ///
    /// Networks that lie in it are dropped, and one that contains it is halved, as often as the network has bits more:
    /// O(w) for addresses of w bits. It takes two binary searches, a look at each network that goes, and one move of
    /// the networks behind: O(n), in about the time of `insert`. It allocates only where a network contains it.
    /// `remove_all` removes many at once.
    ///
    /// ```
    /// pool.remove(&"10.64.0.0/10".parse()?)?;
    /// pool.as_slice() // [10.0.0.0/10, 10.128.0.0/9]
    /// ```
    pub fn remove(&mut self, network: &C) -> Result<(), AllocError>
        ensures ok { OnOk result
            (IsDifference 129 (map C.bits self.old) (C.bits network.now ∷ []) (map C.bits self.new)) }
        ensures err { OnErr result (self.new ≡ self.old) }
        ensures apart { ¬ (Covers (map C.bits self.old) (C.bits network.now)) → IsOk result }
    {
        has_at_most_129_bits(network);
        if covers(self.as_slice(), network) {
            return split(&mut self.networks, network);
        }
        let (start, end) = inside_of(self.as_slice(), network);
        cut(&mut self.networks, start, end);
        Ok(())
    }

    /// Adds the addresses of some networks, which may come in any order, overlap and repeat. Where an allocation fails,
    /// the set stays as it was.
    ///
    /// It sorts a copy of the networks and makes one union: O(n + k log k) for k networks and a set of n, where k calls of
    /// `insert` move the set k times.
    ///
    /// ```
    /// let mut pool = NetworkSet::<Ipv4Cidr>::new(rt.alloc());
    /// pool.insert_all(&["10.128.0.0/9".parse()?, "10.0.0.0/9".parse()?])?;
    /// pool.as_slice() // [10.0.0.0/8]
    /// ```
    pub fn insert_all(&mut self, networks: &[C]) -> Result<(), AllocError>
        ensures ok { OnOk result (IsUnion 129 (map C.bits self.old) (map C.bits networks.now) (map C.bits self.new)) }
        ensures err { OnErr result (self.new ≡ self.old) }
    {
        let added = NetworkSet::from_networks(self.networks.allocator().clone()?, networks)?;
        let set = self.union(&added)?;
        *self = set;
        Ok(())
    }

    /// Removes the addresses of some networks, which may come in any order, overlap and repeat. Where an allocation
    /// fails, the set stays as it was.
    ///
    /// It sorts a copy of the networks and makes one difference, as `insert_all` makes a union.
    ///
    /// ```
    /// pool.remove_all(&["10.128.0.0/10".parse()?, "10.192.0.0/10".parse()?])?;
    /// pool.as_slice() // [10.0.0.0/9]
    /// ```
    pub fn remove_all(&mut self, networks: &[C]) -> Result<(), AllocError>
        ensures ok { OnOk result
            (IsDifference 129 (map C.bits self.old) (map C.bits networks.now) (map C.bits self.new)) }
        ensures err { OnErr result (self.new ≡ self.old) }
    {
        let removed = NetworkSet::from_networks(self.networks.allocator().clone()?, networks)?;
        let set = self.difference(&removed)?;
        *self = set;
        Ok(())
    }
}

/// Puts what is left of the network that contains another in its place.
fn split<C: NetworkBits + Copy>(networks: &mut Vec<C>, network: &C) -> Result<(), AllocError>
    requires reduced { IsReduced 129 (map C.bits networks.old.items) }
    requires covered { Covers (map C.bits networks.old.items) (C.bits network.now) }
    ensures ok { OnOk result
        (IsDifference 129 (map C.bits networks.old.items) (C.bits network.now ∷ []) (map C.bits networks.new.items)) }
    ensures err { OnErr result (networks.new.items ≡ networks.old.items) }
{
    has_at_most_129_bits(network);
    let end = upto(networks.as_slice(), network);
    let outer = networks[end - 1];
    let alloc = networks.allocator().clone()?;
    let mut single = Vec::new(alloc);
    single.push(*network)?;
    let mut rests = Vec::new(alloc);
    write_rest(&mut rests, &outer, single.as_slice())?;
    replace(networks, end - 1, end, rests.as_slice())
}
