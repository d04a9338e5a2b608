//! The networks of a set that lie in one, and those beside it that make up a whole with it.
ghost use Rattle.std.specs.Prelude.{◌≡◌, ◌+◌, ◌-◌, ◌<◌, ◌≤◌, ◌++◌, ◌∷◌, [], length, map, take, drop, slice_index_or, IfSome, MatchOption};
ghost use Rattle.std.specs.Bool.{Decides};
ghost use Rattle.cidr.specs.model.Network.{BeginsWith};
ghost use Rattle.cidr_table.specs.model.Cover.{Covers, IsReduced, parent};
ghost use Rattle.cidr_sets.specs.internal.Edits.{IsAlone, IsBeside, IsHalf, IsParted};
ghost use Rattle.cidr_sets.specs.model.Sets.{IsUnion};

use crate::lookup::upto;
use cidr::{BitString, NetworkBits};
use cidr_table::is_inside;
use cidr_table::laws::keys::has_at_most_129_bits;

/// Whether there is a network at an index, and it lies in another.
fn is_inside_at<C: BitString>(networks: &[C], at: usize, outer: &C) -> bool
    ensures { Decides result ((at < length networks.now)
        × BeginsWith (C.bits (slice_index_or networks.now at outer.now)) (C.bits outer.now)) }
{
    at < networks.len() && is_inside(&networks[at], outer)
}

/// Where the networks stand that lie in one, which none of them contains: from the first index to before the second.
///
/// One binary search, and a look at each network that lies in it.
pub(crate) fn inside_of<C: NetworkBits>(networks: &[C], outer: &C) -> (usize, usize)
    requires reduced { IsReduced 129 (map C.bits networks.now) }
    requires apart { ¬ (Covers (map C.bits networks.now) (C.bits outer.now)) }
    ensures order { result.0 ≤ result.1 }
    ensures within { result.1 ≤ length networks.now }
    ensures parted { IsParted (map C.bits networks.now) (C.bits outer.now)
        (map C.bits (take result.0 networks.now)) (map C.bits (drop result.1 networks.now)) }
{
    let start = upto(networks, outer);
    let mut end = start;
    while is_inside_at(networks, end, outer) {
        end += 1;
    }
    (start, end)
}

/// Whether a network is one of the two halves of another.
fn is_half<C: BitString>(network: &C, parent: &C) -> bool
    ensures { Decides result (IsHalf (C.bits network.now) (C.bits parent.now)) }
{
    is_inside(network, parent) && network.len() == parent.len() + 1
}

/// Whether there is a network at an index, and it is a half of another.
fn is_half_at<C: BitString>(networks: &[C], at: usize, parent: &C) -> bool
    ensures { Decides result ((at < length networks.now)
        × IsHalf (C.bits (slice_index_or networks.now at parent.now)) (C.bits parent.now)) }
{
    at < networks.len() && is_half(&networks[at], parent)
}

/// Whether there is a network before an index, and it is a half of another.
fn is_half_before<C: BitString>(networks: &[C], start: usize, parent: &C) -> bool
    requires { start ≤ length networks.now }
    ensures { Decides result ((0 < start)
        × IsHalf (C.bits (slice_index_or networks.now (start - 1) parent.now)) (C.bits parent.now)) }
{
    start > 0 && is_half(&networks[start - 1], parent)
}

/// Of a network that stands in place of those from `start` to before `end`: both indices with the other half of its
/// parent, if that is the network before them or behind them.
fn other_half<C: BitString + Copy>(
    networks: &[C],
    start: usize,
    end: usize,
    network: &C,
) -> Option<(usize, usize)>
    requires order { start ≤ end }
    requires within { end ≤ length networks.now }
    ensures order { IfSome result (λ beside. beside.0 ≤ beside.1) }
    ensures within { IfSome result (λ beside. beside.1 ≤ length networks.now) }
    ensures beside { MatchOption result
        (IsAlone (C.bits network.now) (map C.bits (take start networks.now)) (map C.bits (drop end networks.now)))
        (λ beside. (0 < length (C.bits network.now)) × IsBeside (parent (C.bits network.now))
        (map C.bits (take start networks.now)) (map C.bits (drop end networks.now))
        (map C.bits (take beside.0 networks.now)) (map C.bits (drop beside.1 networks.now))) }
{
    let len = network.len();
    if len == 0 {
        return None;
    }
    let mut parent = *network;
    parent.clip(len - 1);
    if is_half_before(networks, start, &parent) {
        return Some((start - 1, end));
    }
    if is_half_at(networks, end, &parent) {
        return Some((start, end + 1));
    }
    None
}

/// The network that takes the place of those from the first index to before the second, where the addresses of one are
/// added that none contains: with the other half of it, as far up as both halves are there.
pub(crate) fn joined_with<C: NetworkBits + Copy>(networks: &[C], network: &C) -> (C, usize, usize)
    requires reduced { IsReduced 129 (map C.bits networks.now) }
    requires apart { ¬ (Covers (map C.bits networks.now) (C.bits network.now)) }
    ensures order { result.1 ≤ result.2 }
    ensures within { result.2 ≤ length networks.now }
    ensures set { IsUnion 129 (map C.bits networks.now) (C.bits network.now ∷ [])
        (map C.bits (take result.1 networks.now) ++ C.bits result.0 ∷ [] ++ map C.bits (drop result.2 networks.now)) }
{
    has_at_most_129_bits(network);
    let (mut start, mut end) = inside_of(networks, network);
    let mut whole = *network;
    while let Some((from, to)) = other_half(networks, start, end, &whole) {
        let len = whole.len();
        whole.clip(len - 1);
        start = from;
        end = to;
    }
    (whole, start, end)
}
