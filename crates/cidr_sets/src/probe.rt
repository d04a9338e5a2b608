//! The look-up in a set, whose comparisons are counted.
ghost use Rattle.std.specs.Prelude.{◌≡◌, ℕ, ◌+◌, ◌^◌, ◌<◌, ◌≤◌, length, map, slice_index_or};
ghost use Rattle.std.specs.Bool.{Decides};
ghost use Rattle.cidr.specs.model.Network.{BeginsWith};
ghost use Rattle.cidr_table.specs.model.Cover.{Covers, IsReduced};

use crate::search::index;
use cidr::{BitString, NetworkBits};
use cidr_table::{Count, Probe, is_inside};
use std::cmp::Ordering;
use std::marker::Model;

/// The one way to the networks of a set, for `contains`: the `Probe` of a table, which also tells whether a network
/// contains another. Both are comparisons, which are counted for the contracts and take no memory.
pub trait NetworkProbe<C: NetworkBits>: Probe<C> {
    /// Whether the network at index `i`, counted from 0, contains this one. The caller has to prove that `i` is below
    /// the number of networks.
    ///
    /// ```
    /// if 0 < networks.len() {
    ///     networks.contains_at(0, &"11.0.0.0/8".parse()?) // false
    /// }
    /// ```
    fn contains_at(&mut self, i: usize, network: &C) -> bool
        requires { i < length (Self.keys self.old) }
        ensures answer { let outer = slice_index_or (Self.keys self.old) i network.now in
            Decides result (BeginsWith (C.bits network.now) (C.bits outer)) }
        ensures keys { Self.keys self.new ≡ Self.keys self.old }
        ensures count { Self.count self.new ≡ Self.count self.old + 1 };
}

/// The networks of a set as a [`NetworkProbe`](crate::NetworkProbe). The call `probe` of `NetworkSet` makes it. The count
/// of the comparisons is for the contracts and takes no memory.
#[derive(Drop)]
pub struct Networks<'a, C> {
    networks: &'a [C],
    count: Count,
}

impl<'a, C> Model for Networks<'a, C> {
    ghost use Rattle.cidr_sets.specs.model.Searches.{ProbedNetworks};

    ghost Value = { ProbedNetworks C };

    ghost view = { λ p. record { networks = p.networks.now; comparisons = p.count.total } };
}

impl<'a, C> Networks<'a, C> {
    /// A probe that has made no comparison.
    pub(crate) fn new(networks: &'a [C]) -> Self
        ensures networks { result.networks ≡ networks.now }
        ensures count { result.comparisons ≡ 0 }
    {
        Networks {
            networks,
            count: Count::zero(),
        }
    }
}

impl<'a, C: Ord> Probe<C> for Networks<'a, C> {
    ghost keys = { λ p. p.networks };

    ghost count = { λ p. p.comparisons };

    fn len(&self) -> usize {
        self.networks.len()
    }

    fn compare(&mut self, i: usize, key: &C) -> Ordering {
        self.count.tick();
        self.networks[i].cmp(key)
    }
}

impl<'a, C: NetworkBits> NetworkProbe<C> for Networks<'a, C> {
    fn contains_at(&mut self, i: usize, network: &C) -> bool {
        self.count.tick();
        is_inside(network, &self.networks[i])
    }
}

/// Whether one of the networks of a set contains this one, so that all its addresses are in the set. The caller has to
/// prove that the networks are those of a set, as `probe` gives them: ascending, none in another, and no two the halves
/// of one.
///
/// One binary search and a look at one neighbour: of n networks, where n has d binary digits, it makes at most d + 1
/// comparisons, 18 of 100,000 networks.
///
/// ```
/// let mut networks = set.probe();
/// contains(&mut networks, &"10.1.0.0/16".parse()?) // true
/// ```
pub fn contains<C: NetworkBits, P: NetworkProbe<C>>(networks: &mut P, network: &C) -> bool
    requires { IsReduced 129 (map C.bits (P.keys networks.old)) }
    ensures answer { Decides result (Covers (map C.bits (P.keys networks.old)) (C.bits network.now)) }
    ensures keys { P.keys networks.new ≡ P.keys networks.old }
    ensures cost { (d : ℕ) → length (P.keys networks.old) < 2 ^ d
        → P.count networks.new ≤ P.count networks.old + (d + 1) }
{
    let index = index(networks, network);
    index > 0 && networks.contains_at(index - 1, network)
}
