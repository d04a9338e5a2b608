//! Equality and order of sets, which are those of their lists.
ghost use Rattle.std.specs.Cmp.Lexicographic.{pointwise, slice_cmp, slice_partial_cmp, lists_equiv, lists_agrees, lists_total, lists_ties, lists_po, lists_per};

use crate::set::NetworkSet;
use cidr::NetworkBits;
use std::cmp::Ordering;

impl<C: NetworkBits + Copy> PartialEq for NetworkSet<C> {
    ghost eq = { pointwise C.eq };

    ghost laws = { lists_per C.PartialEq.laws };

    /// Whether two sets have the same addresses. It compares their networks one by one: O(n).
    fn eq(&self, other: &Self) -> bool {
        self.as_slice() == other.as_slice()
    }
}

impl<C: NetworkBits + Copy> Eq for NetworkSet<C> {
    ghost laws = { lists_equiv C.Eq.laws };
}

impl<C: NetworkBits + Copy> PartialOrd for NetworkSet<C> {
    ghost partial_cmp = { slice_partial_cmp C.partial_cmp };

    ghost laws = { lists_po C.PartialOrd.laws };

    fn partial_cmp(&self, other: &Self) -> Option<Ordering> {
        self.as_slice().partial_cmp(other.as_slice())
    }
}

impl<C: NetworkBits + Copy> Ord for NetworkSet<C> {
    ghost cmp = { slice_cmp C.cmp };

    ghost total = { lists_total C.total };

    ghost matches_partial_cmp = { lists_agrees C.matches_partial_cmp };

    ghost matches_eq = { lists_ties C.cmp C.matches_eq };

    /// By their first networks that differ; a set that has the first networks of another and no more comes before it.
    fn cmp(&self, other: &Self) -> Ordering {
        self.as_slice().cmp(other.as_slice())
    }
}
