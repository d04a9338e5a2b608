//! Networks and hosts as strings of bits.
ghost use Rattle.std.specs.Prelude.{◌≡◌, ℕ, ◌+◌, ◌-◌, ◌<◌, ◌≤◌, ◌++◌, ◌∷◌, [], List, Bool, Some, length, set, take, slice_get};
ghost use Rattle.cidr.specs.model.Bits.{bit_cmp};
ghost use Rattle.cidr.specs.model.BitString.{IsSharedLength, inverted};

mod any;
mod host;
mod network;

/// A string of bits: those that the addresses of a network begin with, the most significant first. Networks and hosts
/// of one family and `AnyIpCidr` implement it.
///
/// The string of a network or host of one family is as long as its prefix length. That of `AnyIpCidr` has the family
/// bit in front, which is set for IPv6, so that it has one bit more; `Any` has none. What becomes of the bits of a host
/// after its prefix stands in the contracts of its calls.
///
/// A function over it that makes values or lets them go asks for `Copy` beside it, which each of these types is: its bound
/// is `B: BitString + Copy`.
pub trait BitString {
    /// The bits.
    ghost bits: { Self → List Bool };

    /// How many more bits can be appended, whichever they are.
    ghost room: { Self → ℕ };

    /// The number of bits: the prefix length, and in `AnyIpCidr` one more, so that there are 129 at most.
    ///
    /// ```
    /// "192.168.0.0/16".parse::<Ipv4Cidr>()?.len() // 16
    /// "192.168.0.0/16".parse::<AnyIpCidr>()?.len() // 17
    /// ```
    fn len(&self) -> usize
        ensures value { result ≡ length (bits self.now) }
        ensures fits { result ≤ 129 };

    /// How many more bits can be appended, whichever they are: as many as the prefix length is below 32 or 128.
    ///
    /// ```
    /// "192.168.0.0/16".parse::<Ipv4Cidr>()?.room() // 16
    /// ```
    ///
    /// `Any` has room for 33, the family bit and the 32 bits of IPv4; after the family bit of IPv6 there is room for
    /// 128.
    fn room(&self) -> usize
        ensures value { result ≡ room self.now }
        ensures fits { result + length (bits self.now) ≤ 129 };

    /// Bit `i`, counted from 0. The caller has to prove that `i` is below the length.
    ///
    /// ```
    /// let network = Ipv4Cidr::new(Ipv4Addr::new(192, 168, 0, 0), 16)?;
    /// network.get(2) // false
    /// ```
    fn get(&self, i: usize) -> bool
        requires { i < length (bits self.now) }
        ensures { slice_get (bits self.now) i ≡ Some result };

    /// Sets bit `i` to `b`. The caller has to prove that `i` is below the length.
    ///
    /// The other bits stay, but for the family bit of `AnyIpCidr`: setting that leaves no more than the family.
    ///
    /// ```
    /// let mut network = Ipv4Cidr::new(Ipv4Addr::new(192, 168, 0, 0), 16)?;
    /// network.set(2, true);
    /// network // 224.168.0.0/16
    /// ```
    fn set(&mut self, i: usize, b: bool)
        requires { i < length (bits self.old) }
        ensures bits { take (i + 1) (bits self.new) ≡ take i (bits self.old) ++ b ∷ [] }
        ensures rest { 0 < i → bits self.new ≡ set (bits self.old) i b }
        ensures len { length (bits self.new) ≤ length (bits self.old) }
        ensures room { 0 < i → room self.new ≡ room self.old }
        ensures left { 0 < room self.old → 0 < room self.new };

    /// Inverts bit `i`. The caller has to prove that `i` is below the length. What becomes of the others is as for
    /// `set`.
    ///
    /// ```
    /// let mut network = Ipv4Cidr::new(Ipv4Addr::new(192, 168, 0, 0), 16)?;
    /// network.flip(15);
    /// network // 192.169.0.0/16
    /// ```
    fn flip(&mut self, i: usize)
        requires { i < length (bits self.old) }
        ensures bits { take (i + 1) (bits self.new) ≡ take i (bits self.old) ++ inverted i (bits self.old) ∷ [] }
        ensures rest { 0 < i → bits self.new ≡ set (bits self.old) i (inverted i (bits self.old)) }
        ensures len { length (bits self.new) ≤ length (bits self.old) }
        ensures room { 0 < i → room self.new ≡ room self.old }
        ensures left { 0 < room self.old → 0 < room self.new };

    /// Leaves the first `k` bits. A shorter string stays as it is.
    ///
    /// ```
    /// let mut network = "192.168.0.0/16".parse::<Ipv4Cidr>()?;
    /// network.clip(2);
    /// network // 192.0.0.0/2
    /// ```
    fn clip(&mut self, k: usize)
        ensures bits { bits self.new ≡ take k (bits self.old) }
        ensures room { 0 < k → room self.new ≡ room self.old + (length (bits self.old) - k) }
        ensures left { k < length (bits self.old) → 0 < room self.new };

    /// Appends a bit: a network becomes its lower half (`false`) or its upper half (`true`). The caller has to prove
    /// that there is room: that the prefix length is not full, 32 or 128. It uses up one bit of the room.
    ///
    /// ```
    /// let mut network = "10.1.0.0/16".parse::<Ipv4Cidr>()?;
    /// network.clip(8);
    /// if network.len() < 9 {
    ///     network.append(true);
    /// }
    /// network // 10.128.0.0/9
    /// ```
    fn append(&mut self, b: bool)
        requires { 0 < room self.old }
        ensures bits { bits self.new ≡ bits self.old ++ b ∷ [] }
        ensures room { room self.old ≤ room self.new + 1 };

    /// The value of no bits: 0.0.0.0/0, ::/0 or `Any`.
    ///
    /// ```
    /// Ipv6Cidr::null() // ::/0
    /// ```
    fn null() -> Self
        ensures bits { bits result ≡ [] }
        ensures room { 32 ≤ room result };

    /// The length of the longest string that both begin with.
    ///
    /// ```
    /// let network = "192.0.2.0/24".parse::<Ipv4Cidr>()?;
    /// network.shared_prefix_len(&"192.0.3.0/25".parse()?) // 23
    /// ```
    fn shared_prefix_len(&self, other: &Self) -> usize
        ensures { IsSharedLength (bits self.now) (bits other.now) result };
}

/// Networks, whose order is the lexicographic order of their bits: a beginning comes first, and at the first difference
/// the unset bit. `Ipv4Cidr`, `Ipv6Cidr` and `AnyIpCidr` implement it.
///
/// This is all that a table of networks needs of its keys. Hosts are ordered by address and then by prefix length, so
/// that they do not implement it.
pub trait NetworkBits: BitString + Ord {
    /// The order is that of the bits.
    ghost ordered: { (a b : Self) → Self.Ord.cmp a b ≡ bit_cmp (Self.bits a) (Self.bits b) };

    /// Networks of the same bits are the same.
    ghost determined: { (a b : Self) → Self.bits a ≡ Self.bits b → a ≡ b };
}

/// Index `i` of a string of `len` bits, as the bits of an address are counted.
fn place(i: usize, len: u8) -> u8
    requires { i < len }
    ensures { result ≡ i }
{
    i as u8
}
