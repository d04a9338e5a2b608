//! Searches in networks that ascend.
ghost use Rattle.std.specs.Prelude.{◌≡◌, ℕ, ◌<◌, ◌≤◌, ◌+◌, ◌^◌, length, map};
ghost use Rattle.cidr_table.specs.model.Cover.{IsReduced};
ghost use Rattle.cidr_sets.specs.model.Searches.{IsUpto};

use cidr::NetworkBits;
use cidr_table::Probe;

/// How many networks come before this one or are the same. Binary search: it makes at most as many comparisons as the
/// number of networks has binary digits.
pub fn index<C: NetworkBits, P: Probe<C>>(networks: &mut P, network: &C) -> usize
    requires { IsReduced 129 (map C.bits (P.keys networks.old)) }
    ensures index { IsUpto (map C.bits (P.keys networks.old)) (C.bits network.now) result }
    ensures keys { P.keys networks.new ≡ P.keys networks.old }
    ensures cost { (d : ℕ) → length (P.keys networks.old) < 2 ^ d → P.count networks.new ≤ P.count networks.old + d }
{
    let mut low = 0;
    let mut left = networks.len();
    while left > 0 {
        let half = left / 2;
        let order = networks.compare(low + half, network);
        if order.is_le() {
            low += left - half;
        }
        left = half;
    }
    low
}
