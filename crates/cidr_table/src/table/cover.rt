//! The shortest list of networks that holds the same addresses as the keys of a table.
ghost use Rattle.std.specs.Prelude.{◌≡◌, ◌≤◌, Bool, List, length, take, drop, map};
ghost use Rattle.std.specs.Bool.{Decides};
ghost use Rattle.std.specs.List.Sorted.{IsStrictlySortedBy};
ghost use Rattle.std.specs.Map.{keys_of};
ghost use Rattle.std.specs.declared.cmp.Ordering.TheVariants.{Less};
ghost use Rattle.cidr.specs.model.Bits.{bit_cmp};
ghost use Rattle.cidr_table.specs.model.Cover.{Covers, IsLeastCover};
ghost use Rattle.cidr_table.specs.internal.CoverStack.{AreHalvesInOrder, AreBefore, IsReduced, IsPushed};

use crate::laws::keys::has_at_most_129_bits;
use crate::search::is_inside;
use crate::table::LpmTable;
use cidr::{BitString, NetworkBits};

impl<C: NetworkBits + Copy, V> LpmTable<C, V> {
    /// Writes the minimal aggregate of the keys to the first elements of `out`, ascending, and returns how many there
    /// are: the shortest list of networks that has the same addresses as the keys (aggregation, RFC 4632, 4). The
    /// proofs call it the least cover.
    ///
    /// A key inside another is left out, and the two halves of a network become that network, as far up as it goes. Of
    /// `AnyIpCidr`, 0.0.0.0/0 and ::/0 become `Any`. The values play no part.
    ///
    /// The caller has to prove that `out` has at least as many elements as there are rows. The contract leaves open
    /// what is in `out` after the list. It takes one pass over the rows and allocates nothing.
    ///
    /// ```
    /// let mut routes = LpmTable::<Ipv4Cidr, u32>::new(rt.alloc());
    /// routes.insert("10.0.0.0/9".parse()?, 1) // Ok(None)
    /// routes.insert("10.128.0.0/9".parse()?, 2) // Ok(None)
    /// let mut networks = ["0.0.0.0/0".parse::<Ipv4Cidr>()?; 2];
    /// if routes.len() <= 2 {
    ///     routes.least_cover(&mut networks) // 1
    /// }
    /// networks.first() // Some(10.0.0.0/8)
    /// ```
    pub fn least_cover(&self, out: &mut [C]) -> usize
        requires room { length self.now.rows ≤ length out.old }
        ensures fits { result ≤ length self.now.rows }
        ensures cover { IsLeastCover 129 (map C.bits (keys_of self.now.rows)) (map C.bits (take result out.new)) }
    {
        least_cover(self.rows.as_slice(), out)
    }
}

/// Writes the minimal aggregate of networks to the first elements of their own slice, ascending, and returns how many
/// there are: the shortest list of networks that has the same addresses (aggregation, RFC 4632, 4).
///
/// The caller has to prove that the networks ascend with no repeats, as after `sort_unstable` and `dedup`. The contract
/// leaves open what is in the slice after the list. It takes one pass over the networks and allocates nothing.
///
/// ```
/// let mut networks: [Ipv4Cidr; 2] = ["10.0.0.0/9".parse()?, "10.128.0.0/9".parse()?];
/// least_cover_in_place(&mut networks) // 1
/// networks.first() // Some(10.0.0.0/8)
/// ```
pub fn least_cover_in_place<C: NetworkBits + Copy>(networks: &mut [C]) -> usize
    requires { IsStrictlySortedBy C.cmp networks.old }
    ensures fits { result ≤ length networks.old }
    ensures cover { IsLeastCover 129 (map C.bits networks.old) (map C.bits (take result networks.new)) }
{
    let mut n = 0;
    for i in 0..networks.len() {
        let key = networks[i];
        has_at_most_129_bits(&key);
        if !is_covered(networks, n, &key) {
            networks[n] = key;
            n = merge(networks, n + 1);
        }
    }
    n
}

/// The least cover of the keys of rows that ascend by them.
///
/// The networks so far stand in `out` as a stack: a key inside the last one is skipped, any other is pushed, and while
/// the last two are the halves of one network, that replaces them. So there are no more merges than keys.
fn least_cover<C: NetworkBits + Copy, V>(rows: &[(C, V)], out: &mut [C]) -> usize
    requires sorted { IsStrictlySortedBy C.cmp (keys_of rows.now) }
    requires room { length rows.now ≤ length out.old }
    ensures fits { result ≤ length rows.now }
    ensures cover { IsLeastCover 129 (map C.bits (keys_of rows.now)) (map C.bits (take result out.new)) }
{
    let mut n = 0;
    for row in rows {
        let key = &row.0;
        has_at_most_129_bits(key);
        if !is_covered(out, n, key) {
            out[n] = *key;
            n = merge(out, n + 1);
        }
    }
    n
}

/// Whether one of the first `count` networks holds a key that is behind them all: if any, it is the last.
fn is_covered<C: NetworkBits>(out: &[C], count: usize, key: &C) -> bool
    requires within { count ≤ length out.now }
    requires reduced { IsReduced 129 (map C.bits (take count out.now)) }
    requires before { AreBefore (map C.bits (take count out.now)) (C.bits key.now) }
    ensures { Decides result (Covers (map C.bits (take count out.now)) (C.bits key.now)) }
{
    count > 0 && is_inside(key, &out[count - 1])
}

/// Replaces the last two networks by one while they are its halves, and returns how many are left.
fn merge<C: BitString>(out: &mut [C], count: usize) -> usize
    requires within { count ≤ length out.old }
    requires pushed { IsPushed 129 (map C.bits (take count out.old)) }
    ensures fewer { result ≤ count }
    ensures cover { IsLeastCover 129 (map C.bits (take count out.old)) (map C.bits (take result out.new)) }
    ensures before { (k : List Bool) → AreBefore (map C.bits (take count out.old)) k
        → AreBefore (map C.bits (take result out.new)) k }
    ensures rest { drop count out.new ≡ drop count out.old }
{
    let mut n = count;
    while n >= 2 && are_halves(&out[n - 2], &out[n - 1]) {
        let len = out[n - 2].len();
        out[n - 2].clip(len - 1);
        n -= 1;
    }
    n
}

/// Whether a network and a later one are the halves of one network.
fn are_halves<C: BitString>(lower: &C, upper: &C) -> bool
    requires { bit_cmp (C.bits lower.now) (C.bits upper.now) ≡ Less }
    ensures { Decides result (AreHalvesInOrder (C.bits lower.now) (C.bits upper.now)) }
{
    lower.len() == upper.len() && lower.shared_prefix_len(upper) + 1 == lower.len()
}
