//! Sets in memory that the caller brings: nothing here allocates.
//!
//! The caller has to prove that the networks of each set are in normal form, as `as_slice` of a set has them:
//! ascending, none in another, and no two the halves of one. So are those that are written. `from_networks` takes any.
ghost use Rattle.std.specs.Prelude.{◌≡◌, ◌+◌, ◌-◌, ◌*◌, ◌≤◌, ◌<◌, ℕ, Bool, List, length, take, map, IfSome, IfNone};
ghost use Rattle.std.specs.List.{dedup};
ghost use Rattle.cidr_table.specs.model.Cover.{AreNetworks, Covers, IsReduced};
ghost use Rattle.cidr_sets.specs.model.Sets.{IsSetOf, IsUnion, IsIntersection, IsDifference, IsComplement};
ghost use Rattle.cidr_sets.specs.model.Ranges.{IsBetween};
ghost use Rattle.cidr_sets.specs.internal.Steps.{Ascend, IsMerge};

use crate::merging::{write_merged, write_shared};
use crate::ranges::Addressed;
use crate::rests::{write_complement, write_rests};
use crate::spans::write_range;
use crate::writing::Filled;
use cidr::NetworkBits;
use cidr_table::least_cover_in_place;

/// Writes the networks of the addresses that one of two sets has, or both, to the first elements of `out`, and returns
/// how many they are.
///
/// The caller has to prove that `out` has room for as many networks as both sets have together, and that these are in
/// normal form. The contract leaves open what is in `out` after the networks. It goes through both sets once.
///
/// ```
/// let these = ["10.0.0.0/9".parse::<Ipv4Cidr>()?];
/// let those = ["10.128.0.0/9".parse()?, "192.0.2.0/24".parse()?];
/// let mut out = [Ipv4Cidr::null(); 3];
/// slices::union(&these, &those, &mut out) // 2
/// &out[..2] // [10.0.0.0/8, 192.0.2.0/24]
/// ```
pub fn union<C: NetworkBits + Copy>(these: &[C], those: &[C], out: &mut [C]) -> usize
    requires these { IsReduced 129 (map C.bits these.now) }
    requires those { IsReduced 129 (map C.bits those.now) }
    requires room { length these.now + length those.now ≤ length out.old }
    ensures fits { result ≤ length these.now + length those.now }
    ensures set { IsUnion 129 (map C.bits these.now) (map C.bits those.now) (map C.bits (take result out.new)) }
{
    let count = merge(these, those, out);
    least_cover_in_place(&mut out[..count])
}

/// Writes the networks of the addresses that both of two sets have to the first elements of `out`, and returns how many
/// they are.
///
/// The caller has to prove that `out` has room for one network less than both sets have together, and that these are in
/// normal form. The contract leaves open what is in `out` after the networks. It goes through both sets once, in at
/// most as many steps as both have networks.
///
/// ```
/// let these = ["10.0.0.0/8".parse::<Ipv4Cidr>()?];
/// let those = ["10.1.0.0/16".parse()?, "192.0.2.0/24".parse()?];
/// let mut out = [Ipv4Cidr::null(); 2];
/// slices::intersection(&these, &those, &mut out) // 1
/// &out[..1] // [10.1.0.0/16]
/// ```
pub fn intersection<C: NetworkBits + Copy>(these: &[C], those: &[C], out: &mut [C]) -> usize
    requires these { IsReduced 129 (map C.bits these.now) }
    requires those { IsReduced 129 (map C.bits those.now) }
    requires room { length these.now + length those.now ≤ length out.old + 1 }
    ensures fits { result ≤ length these.now + length those.now - 1 }
    ensures set { IsIntersection 129 (map C.bits these.now) (map C.bits those.now) (map C.bits (take result out.new)) }
{
    let mut filled = Filled::new(out);
    write_shared(&mut filled, these, those);
    filled.count()
}

/// Writes the networks of the addresses that the first of two sets has and the other has not to the first elements of
/// `out`, and returns how many they are; `None` exactly where `out` is too short for them.
///
/// The caller has to prove that both sets are in normal form. It goes through both once, and joins nothing: what is
/// left of a set is in normal form as it is written. Each network of the other set adds at most as many networks as the
/// longest of these has bits. The contract leaves open what is in `out` after the networks, and after `None` in all of
/// it.
///
/// ```
/// let set = NetworkSet::from_networks(rt.alloc(), &["10.0.0.0/8".parse::<Ipv4Cidr>()?])?;
/// let part = NetworkSet::from_networks(rt.alloc(), &["10.64.0.0/10".parse()?])?;
/// let mut out = [Ipv4Cidr::null(); 2];
/// slices::difference(set.as_slice(), part.as_slice(), &mut out) // Some(2)
/// out // [10.0.0.0/10, 10.128.0.0/9]
/// slices::difference(set.as_slice(), part.as_slice(), &mut out[..1]) // None
/// ```
pub fn difference<C: NetworkBits + Copy>(these: &[C], those: &[C], out: &mut [C]) -> Option<usize>
    requires these { IsReduced 129 (map C.bits these.now) }
    requires those { IsReduced 129 (map C.bits those.now) }
    ensures set { IfSome result (λ count.
        IsDifference 129 (map C.bits these.now) (map C.bits those.now) (map C.bits (take count out.new))) }
    ensures fits { IfSome result (λ count. (w : ℕ) → AreNetworks w (map C.bits those.now)
        → count ≤ length these.now + w * length those.now) }
    ensures within { IfSome result (λ count. count ≤ length out.old) }
    ensures short { IfNone result ((set : List (List Bool))
        → IsDifference 129 (map C.bits these.now) (map C.bits those.now) set → length out.old < length set) }
{
    let mut filled = Filled::new(out);
    write_rests(&mut filled, these, those).ok()?;
    Some(filled.count())
}

/// Writes the networks of the addresses of a network that a set has not to the first elements of `out`, and returns how
/// many they are; `None` exactly where `out` is too short for them.
///
/// The caller has to prove that the set is in normal form. It goes through it once. Each network of the set adds at
/// most as many networks as the longest of these has bits. The contract leaves open what is in `out` after the
/// networks, and after `None` in all of it.
///
/// ```
/// let part = NetworkSet::from_networks(rt.alloc(), &["10.64.0.0/10".parse()?])?;
/// let mut out = [Ipv4Cidr::null(); 2];
/// slices::complement_in(&"10.0.0.0/8".parse()?, part.as_slice(), &mut out) // Some(2)
/// out // [10.0.0.0/10, 10.128.0.0/9]
/// ```
pub fn complement_in<C: NetworkBits + Copy>(
    network: &C,
    networks: &[C],
    out: &mut [C],
) -> Option<usize>
    requires { IsReduced 129 (map C.bits networks.now) }
    ensures set { IfSome result (λ count.
        IsComplement 129 (C.bits network.now) (map C.bits networks.now) (map C.bits (take count out.new))) }
    ensures fits { IfSome result (λ count. (w : ℕ) → AreNetworks w (map C.bits networks.now)
        → count ≤ w * length networks.now + 1) }
    ensures within { IfSome result (λ count. count ≤ length out.old) }
    ensures short { IfNone result ((set : List (List Bool))
        → IsComplement 129 (C.bits network.now) (map C.bits networks.now) set → length out.old < length set) }
{
    let mut filled = Filled::new(out);
    write_complement(&mut filled, network, networks).ok()?;
    Some(filled.count())
}

/// Writes the networks of the addresses from the first to the last, both included, to the first elements of `out`, and
/// returns how many they are: none where the last comes before the first, and at most 62 in IPv4 and 254 in IPv6. `None`
/// exactly where `out` is too short for them.
///
/// Of `AnyIpCidr`, the addresses of IPv4 come before those of IPv6. It halves at most two networks of each length. The
/// contract leaves open what is in `out` after the networks, and after `None` in all of it.
///
/// ```
/// let (first, last) = (Ipv4Addr::new(10, 0, 0, 1), Ipv4Addr::new(10, 0, 0, 6));
/// let mut out = [Ipv4Cidr::null(); 4];
/// slices::from_range(first, last, &mut out) // Some(4)
/// out // [10.0.0.1/32, 10.0.0.2/31, 10.0.0.4/31, 10.0.0.6/32]
/// ```
pub fn from_range<C: Addressed + Copy>(
    first: C::Address,
    last: C::Address,
    out: &mut [C],
) -> Option<usize>
    ensures set { IfSome result (λ count. IsSetOf 129 (IsBetween (C.address_bits first) (C.address_bits last))
        (map C.bits (take count out.new))) }
    ensures fits { IfSome result (λ count.
        count + 2 ≤ length (C.address_bits first) + length (C.address_bits last)) }
    ensures within { IfSome result (λ count. count ≤ length out.old) }
    ensures short { IfNone result ((set : List (List Bool))
        → IsSetOf 129 (IsBetween (C.address_bits first) (C.address_bits last)) set → length out.old < length set) }
{
    let mut filled = Filled::new(out);
    write_range(&mut filled, first, last).ok()?;
    Some(filled.count())
}

/// Makes a slice of networks, which may come in any order, overlap and repeat, the set of their addresses: it stands in
/// the first elements, and the call returns how many they are.
///
/// It sorts the slice in place: O(n log n). The contract leaves open what is in it after the set.
///
/// ```
/// let mut networks: [Ipv4Cidr; 2] = ["10.128.0.0/9".parse()?, "10.0.0.0/9".parse()?];
/// slices::from_networks(&mut networks) // 1
/// networks.first() // Some(10.0.0.0/8)
/// ```
pub fn from_networks<C: NetworkBits + Copy>(networks: &mut [C]) -> usize
    ensures set { IsSetOf 129 (Covers (map C.bits networks.old)) (map C.bits (take result networks.new)) }
    ensures fits { result ≤ length networks.old }
{
    networks.sort_unstable();
    let count = keep_distinct(networks);
    least_cover_in_place(&mut networks[..count])
}

/// Moves the first of each run of equal elements to the front, and returns how many they are.
fn keep_distinct<C: PartialEq + Copy>(elements: &mut [C]) -> usize
    ensures kept { take result elements.new ≡ dedup C.eq elements.old }
    ensures fits { result ≤ length elements.old }
{
    let mut kept = 0;
    for i in 0..elements.len() {
        let element = elements[i];
        if kept == 0 || element != elements[kept - 1] {
            elements[kept] = element;
            kept += 1;
        }
    }
    kept
}

/// Writes the networks of both lists, ascending, and each once.
fn merge<C: NetworkBits + Copy>(these: &[C], those: &[C], out: &mut [C]) -> usize
    requires these { Ascend (map C.bits these.now) }
    requires those { Ascend (map C.bits those.now) }
    requires room { length these.now + length those.now ≤ length out.old }
    ensures fits { result ≤ length these.now + length those.now }
    ensures within { length out.new ≡ length out.old }
    ensures merge { IsMerge (map C.bits these.now) (map C.bits those.now) (map C.bits (take result out.new)) }
{
    let mut filled = Filled::new(out);
    write_merged(&mut filled, these, those);
    filled.count()
}
