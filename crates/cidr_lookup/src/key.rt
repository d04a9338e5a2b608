//! Networks, as an array has them.
ghost use Rattle.std.specs.Prelude.{◌≡◌, ◌↔◌, ◌-◌, ◌^◌, ◌<◌, ◌≤◌, IsTrue, length};
ghost use Rattle.cidr.specs.model.Bits.{number};
ghost use Rattle.cidr.specs.model.Network.{first_of, width_of};
ghost use Rattle.cidr_lookup.specs.Keys.{IsFirstRefused, IsNetwork, Precedes, key_networks};
ghost use Rattle.cidr_lookup.specs.Passing.{IsNext, last_number_in};

use crate::address::Address;
use cidr::FamilyCidr;

/// A network, as it lies in an array: its first address and its prefix length, in 8 bytes for IPv4 and 24 for IPv6. Any
/// two numbers are a `Key`: `is_network` tells which are a network.
#[derive(Clone, Copy)]
#[repr(C)]
pub struct Key<A> {
    /// The first address.
    pub address: A,
    /// The prefix length: of a network at most 32 or 128.
    pub len: u32,
}

impl<A: Address> Key<A> {
    /// The key of a network. The caller has to prove that the addresses of its family have as many bits: `u32` is for IPv4,
    /// and [`Ipv6Halves`](crate::Ipv6Halves) is for IPv6.
    ///
    /// ```
    /// Key::<u32>::of(&"10.0.0.0/8".parse::<Ipv4Cidr>()?).address // 167772160
    /// ```
    #[inline(always)]
    pub fn of<C: FamilyCidr>(network: &C) -> Key<A>
        requires { A.width ≡ width_of C.FAMILY }
        ensures address { A.value result.address ≡ number (first_of A.width (C.bits network.now)) }
        ensures len { result.len ≡ length (C.bits network.now) }
        ensures fits { result.len ≤ A.width }
    {
        let first = C::to_number(network.first_address());
        Key {
            address: A::of(first),
            len: u32::from(network.network_length()),
        }
    }

    /// Whether it is a network: its length is at most the width, 32 or 128, and no bit after the prefix is set.
    /// 10.0.0.1/8 is none.
    pub fn is_network(&self) -> bool
        ensures { IsTrue result ↔ IsNetwork A.width (A.value self.now.address, self.now.len) }
    {
        let width = A::width();
        if self.len > width {
            return false;
        }
        self.address.number() & ones(width - self.len) == 0
    }

    /// Whether it comes before the other: its first address is less, or that is the same and its length is. So
    /// 10.0.0.0/8 comes before 10.0.0.0/9, and this before 10.1.0.0/16.
    pub fn precedes(&self, other: &Key<A>) -> bool
        ensures { IsTrue result ↔ Precedes (A.value self.now.address, self.now.len) (A.value other.now.address, other.now.len) }
    {
        let first = self.address.number();
        let next = other.address.number();
        first < next || first == next && self.len < other.len
    }

    /// The number of its last address.
    pub(crate) fn last(&self) -> u128
        requires { IsNetwork A.width (A.value self.now.address, self.now.len) }
        ensures { result ≡ last_number_in A.width (A.value self.now.address, self.now.len) }
    {
        self.address.number() + ones(A::width() - self.len)
    }
}

/// The index of the first key, counted from 0, that is no network or doesn't come after the one before it, or `None`
/// where all are networks in their order. One pass over the keys: O(n).
pub fn first_refused<A: Address>(keys: &[Key<A>]) -> Option<usize>
    ensures { IsFirstRefused A.width (key_networks A.value keys.now) result }
{
    (0..keys.len()).find(|&index| !is_next(keys, index))
}

/// Whether a key is a network and comes after the one before it.
fn is_next<A: Address>(keys: &[Key<A>], index: usize) -> bool
    requires { index < length keys.now }
    ensures { IsTrue result ↔ IsNext A.width (key_networks A.value keys.now) index }
{
    keys[index].is_network() && (index == 0 || keys[index - 1].precedes(&keys[index]))
}

/// The number whose last bits, so many, are set and no other.
pub(crate) fn ones(bits: u32) -> u128
    requires { bits ≤ 128 }
    ensures { result ≡ 2 ^ bits - 1 }
{
    if bits == 0 {
        return 0;
    }
    u128::MAX >> (128 - bits)
}
