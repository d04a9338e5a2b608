//! The networks of one family.
//!
//! Their walk, `iter`, stands beside, in `v4` and `v6`; their compact bytes in `compact::one_family`, their prefix
//! bytes in `prefix_bytes`, and the bits that they are a string of in `bits::network`.
ghost use Rattle.std.specs.Prelude.{◌≡◌, ◌↔◌, ◌≤◌, length, IsTrue, IsFalse, IfOk, Some, refl};
ghost use Rattle.std.specs.Cmp.{partial_equiv_from_equiv};
ghost use Rattle.std.specs.Ordering.{as_partial_cmp};
ghost use Rattle.cidr.specs.model.Bits.{bit_cmp, bit_eq};
ghost use Rattle.cidr.specs.laws.BitLaws.{bit_eq_equiv, bit_eq_ties, bit_cmp_total, bit_cmp_po, same_image};
ghost use Rattle.cidr.specs.texts.NetworkText.{IsNetworkText};
ghost use Rattle.cidr.specs.model.Network.{width_of};

use crate::addr::v4::Ipv4Addr;
use crate::addr::v6::Ipv6Addr;
use crate::errors::{NetworkLengthTooLongError, NetworkParseError};
use crate::family::Family;
use crate::inet::host::{Host, Ipv4Inet, Ipv6Inet};
use crate::inet_iterator::InetIterator;
use crate::inet_pair::host_pair::HostPair;
use crate::internal_traits::address_bits::{AddressBits, AddressText};
use crate::text::print::{append, forced, plain};
use crate::text::read::{cut_at_last_slash, read_length};
use crate::text::with_length::WithLength;
use crate::traits::Cidr;
use arrayvec::ArrayString;
use std::alloc::AllocError;
use std::cmp::Ordering;
use std::fmt;
use std::hash::{Hash, Hasher};
use std::marker::Model;
use std::str::FromStr;

/// A network of one family: all addresses that begin with the same bits, the prefix. `Ipv4Cidr` and `Ipv6Cidr` are its
/// two types.
///
/// 192.0.2.48/28 has the addresses from 192.0.2.48 to 192.0.2.63. The prefix length is at most 32 in IPv4 and 128 in
/// IPv6, and no bit of the first address after the prefix is set. It is parsed from an address, a slash and the prefix
/// length (RFC 4632, 3.1; RFC 4291, 2.3); an address with no slash is the network of full prefix length. The prefix
/// length is decimal, and may have a plus and zeros before it, as in the crate `cidr`: /+8 and /08 are /8. White space
/// and a mask in place of the prefix length are errors; their order is that of `NetworkParseError`.
///
/// Networks are ordered by first address and then by prefix length, shortest first.
///
/// ```
/// "192.0.2.48/28".parse::<Ipv4Cidr>()? // 192.0.2.48/28
/// "192.0.2.50/28".parse::<Ipv4Cidr>() // Err(host part of address was not zero)
/// let network = "10.0.0.0/8".parse::<Ipv4Cidr>()?;
/// network < "10.0.0.0/9".parse()? // true
/// ```
pub struct Network<A: AddressBits> {
    address: A,
    len: u8,
}

/// An IPv4 network, as 192.0.2.48/28: the prefix length is at most 32.
pub type Ipv4Cidr = Network<Ipv4Addr>;

/// An IPv6 network, as 2001:db8::/32: the prefix length is at most 128.
pub type Ipv6Cidr = Network<Ipv6Addr>;

impl<A: AddressBits> Model for Network<A> {
    ghost use Rattle.std.specs.Prelude.{List, Bool, take, length};
    ghost use Rattle.std.proofs.Common.{ap, ◌∙◌};
    ghost use Rattle.cidr.specs.model.Network.{width_of, first_of, IsFirstAddress};
    ghost use Rattle.cidr.specs.laws.NetworkLaws.{first_of-take, length-take-within};

    ghost Value = { List Bool };

    ghost view = { λ c. take c.len (A.bits c.address) };

    ghost invariant = { λ c. IsFirstAddress (width_of A.FAMILY) c.len (A.bits c.address) };

    ghost inverse = { λ p. record { address = A.of_bits (first_of (width_of A.FAMILY) p); len = length p } };

    ghost inverse_ok = { λ c h i. record {
      address =
          (ap A.of_bits (first_of-take (width_of A.FAMILY) c.len
          (A.bits c.address) h.0 h.1 h.2) ∙ A.restored c.address) i;
      len = length-take-within (width_of A.FAMILY) c.len (A.bits c.address) h.0 h.1 i;
    } };
}

impl<A: AddressBits> Clone for Network<A> {
    ghost is_clone = { λ network copy. copy ≡ network };

    ghost is_infallible = { λ _. Unit {0} };

    fn clone(&self) -> Result<Network<A>, AllocError> {
        Ok(*self)
    }
}

impl<A: AddressBits> Copy for Network<A> {}

impl<A: AddressBits> Network<A> {
    ghost use Rattle.cidr.specs.model.Network.{first_of, last_of, mask_of, BeginsWith, HasWidth, HoldsAll, AreApart, IsConsecutive, IsFirstAddress, network_from};
    ghost use Rattle.std.specs.Prelude.{take};
    ghost use Rattle.cidr.specs.model.Host.{first_host, last_host};
    ghost use Rattle.cidr.specs.model.Walk.{network_pair, network_walk, HasExactly};

    /// The network of the first `len` bits of an address.
    ///
    /// Returns `NetworkLengthTooLongError` for a prefix length above the width, 32 or 128, and then `InvalidHostPart`
    /// for an address with a set bit after the first `len`.
    ///
    /// ```
    /// Ipv4Cidr::new(Ipv4Addr::new(192, 0, 2, 48), 28)? // 192.0.2.48/28
    /// Ipv4Cidr::new(Ipv4Addr::new(192, 0, 2, 48), 27) // Err(host part of address was not zero)
    /// ```
    #[tactic(auto, using(crate::specs::laws::BitLaws::same_laws, crate::specs::laws::NetworkLaws::taken_laws))]
    pub fn new(addr: A, len: u8) -> Result<Network<A>, NetworkParseError>
        ensures value { result ≡ network_from A.FAMILY (A.bits addr) len }
        ensures len { IfOk result (λ n. length n ≡ len) }
    {
        if len > A::FAMILY.len() {
            let too_long = NetworkLengthTooLongError::new(len as usize, A::FAMILY);
            return Err(NetworkParseError::from(too_long));
        }
        if !addr.is_first_in(len) {
            return Err(NetworkParseError::InvalidHostPart);
        }
        // the call tells the proof how many bits the address has
        addr.has_width();
        Ok(Network { address: addr, len })
    }

    /// The network that has only this address, of full prefix length: /32 in IPv4 and /128 in IPv6. It is printed
    /// without the prefix length.
    ///
    /// ```
    /// Ipv4Cidr::new_host(Ipv4Addr::new(192, 0, 2, 1)) // 192.0.2.1
    /// Ipv6Cidr::new_host(Ipv6Addr::from_bits(1)) // ::1
    /// ```
    #[tactic(auto, using(crate::proofs::NetworkNumbers::whole_laws))]
    pub fn new_host(addr: A) -> Network<A>
        ensures value { result ≡ A.bits addr }
        ensures full { length result ≡ width_of A.FAMILY }
    {
        // the call tells the proof how many bits the address has
        addr.has_width();
        Network {
            address: addr,
            len: A::FAMILY.len(),
        }
    }

    /// The network of this first address and prefix length, which are known to belong together.
    pub(crate) fn new_unchecked(addr: A, len: u8) -> Network<A>
        requires { IsFirstAddress (width_of A.FAMILY) len (A.bits addr) }
        ensures { result ≡ take len (A.bits addr) }
    {
        Network { address: addr, len }
    }

    /// The network of this length that holds the address.
    #[tactic(auto, using(crate::specs::laws::NetworkLaws::first_in_laws))]
    pub(crate) fn holding(addr: A, len: u8) -> Network<A>
        requires { len ≤ width_of A.FAMILY }
        ensures { result ≡ take len (A.bits addr) }
    {
        // the call tells the proof how many bits the address has
        addr.has_width();
        Network {
            address: addr.first_in(len),
            len,
        }
    }

    /// The first address, in which no bit after the prefix is set: in IPv4 the network address, up to /30.
    ///
    /// ```
    /// "192.0.2.48/28".parse::<Ipv4Cidr>()?.first_address() // 192.0.2.48
    /// ```
    pub fn first_address(&self) -> A
        ensures { A.bits result ≡ first_of (width_of A.FAMILY) self.now }
    {
        self.address
    }

    /// The first address, by reference.
    ///
    /// ```
    /// "10.0.0.0/8".parse::<Ipv4Cidr>()?.first_address_ref() // 10.0.0.0
    /// ```
    pub fn first_address_ref(&self) -> &A
        ensures { A.bits result.now ≡ first_of (width_of A.FAMILY) self.now }
    {
        &self.address
    }

    /// The last address, in which all bits after the prefix are set: in IPv4 the broadcast address, up to /30.
    ///
    /// ```
    /// "192.0.2.48/28".parse::<Ipv4Cidr>()?.last_address() // 192.0.2.63
    /// "2001:db8::/120".parse::<Ipv6Cidr>()?.last_address() // 2001:db8::ff
    /// ```
    pub fn last_address(&self) -> A
        ensures { A.bits result ≡ last_of (width_of A.FAMILY) self.now }
    {
        self.address.last_in(self.len)
    }

    /// The host at the first address, with the prefix length of the network.
    ///
    /// ```
    /// "192.0.2.48/28".parse::<Ipv4Cidr>()?.first() // 192.0.2.48/28
    /// ```
    pub fn first(&self) -> Host<A>
        ensures { result ≡ first_host (width_of A.FAMILY) self.now }
    {
        Host::new_unchecked(self.first_address(), self.network_length())
    }

    /// The host at the last address, with the prefix length of the network.
    ///
    /// ```
    /// "192.0.2.48/28".parse::<Ipv4Cidr>()?.last() // 192.0.2.63/28
    /// ```
    pub fn last(&self) -> Host<A>
        ensures { result ≡ last_host (width_of A.FAMILY) self.now }
    {
        Host::new_unchecked(self.last_address(), self.network_length())
    }

    /// The pair of the first and the last address. Its walk has exactly the addresses of the network.
    #[tactic(auto, using(crate::proofs::NetworkWalks::network_walk_laws))]
    pub(crate) fn ends(&self) -> HostPair<A>
        ensures value { result ≡ network_pair (width_of A.FAMILY) self.now }
        ensures exactly { HasExactly A.FAMILY self.now (network_walk A.FAMILY self.now) }
    {
        HostPair::new_unchecked(
            self.first_address(),
            self.last_address(),
            self.network_length(),
        )
    }

    /// The prefix length in bits, at most 32 in IPv4 and 128 in IPv6.
    ///
    /// ```
    /// "10.0.0.0/8".parse::<Ipv4Cidr>()?.network_length() // 8
    /// ```
    pub fn network_length(&self) -> u8
        ensures value { result ≡ length self.now }
        ensures fits { result ≤ width_of A.FAMILY }
    {
        self.len
    }

    /// The family of its addresses, which its type tells.
    ///
    /// ```
    /// "192.0.2.48/28".parse::<Ipv4Cidr>()?.family() // Ipv4
    /// ```
    pub fn family(&self) -> Family
        ensures { result ≡ A.FAMILY }
    {
        A::FAMILY
    }

    /// Whether the network has only one address, that is, whether the prefix length is full: 32 in IPv4 and 128 in
    /// IPv6.
    ///
    /// ```
    /// "10.0.0.1".parse::<Ipv4Cidr>()?.is_host_address() // true
    /// "::/127".parse::<Ipv6Cidr>()?.is_host_address() // false
    /// ```
    pub fn is_host_address(&self) -> bool
        ensures { IsTrue result ↔ (length self.now ≡ width_of A.FAMILY) }
    {
        self.len == A::FAMILY.len()
    }

    /// The network mask: as many set bits as the prefix length says, then zeros.
    ///
    /// ```
    /// "192.0.2.48/28".parse::<Ipv4Cidr>()?.mask() // 255.255.255.240
    /// "2001:db8::/32".parse::<Ipv6Cidr>()?.mask() // ffff:ffff::
    /// ```
    #[tactic(auto, using(crate::specs::laws::NetworkLaws::taken_laws))]
    pub fn mask(&self) -> A
        ensures { A.bits result ≡ mask_of (width_of A.FAMILY) self.now }
    {
        A::mask_of(self.len)
    }

    /// Whether the address is in the network, that is, begins with its prefix. The first and the last address are in
    /// it.
    ///
    /// An IPv6 network that holds IPv4-mapped addresses, as ::ffff:0:0/96, has no IPv4 address: the argument has to be
    /// of the network's own family, and nothing is mapped.
    ///
    /// ```
    /// let network = "192.0.2.48/28".parse::<Ipv4Cidr>()?;
    /// network.contains(&Ipv4Addr::new(192, 0, 2, 63)) // true
    /// network.contains(&Ipv4Addr::new(192, 0, 2, 64)) // false
    /// ```
    pub fn contains(&self, addr: &A) -> bool
        ensures { IsTrue result ↔ BeginsWith (A.bits addr.now) self.now }
    {
        self.address.shares(*addr, self.len)
    }

    /// Whether every address of the other network is in this one. Each network contains itself.
    ///
    /// Two networks of which neither contains the other have no address in common, and in their order those inside a
    /// network follow it one after the other: [`laws::networks`](crate::laws::networks) says both.
    ///
    /// ```
    /// let network = "10.0.0.0/8".parse::<Ipv4Cidr>()?;
    /// network.contains_cidr(&"10.1.0.0/16".parse()?) // true
    /// network.contains_cidr(&"8.0.0.0/6".parse()?) // false
    /// ```
    #[tactic(auto, using(crate::proofs::Holding::holding_laws))]
    pub fn contains_cidr(&self, other: &Network<A>) -> bool
        ensures begins { IsTrue result ↔ BeginsWith other.now self.now }
        ensures holds { IsTrue result ↔ HoldsAll (HasWidth (width_of A.FAMILY)) self.now other.now }
        ensures apart { IsFalse result → ¬ (BeginsWith self.now other.now) → AreApart self.now other.now }
        ensures consecutive { IsTrue result → IsConsecutive self.now other.now }
    {
        // both are made, so that no branch hangs on the lengths
        let begins = self.contains(&other.address);
        self.len <= other.len && begins
    }

    /// The network, to be printed with its prefix length also where that is full.
    ///
    /// ```
    /// "192.0.2.1".parse::<Ipv4Cidr>()?.with_length() // 192.0.2.1/32
    /// ```
    pub fn with_length(&self) -> WithLength<Network<A>>
        ensures { result ≡ self.now }
    {
        WithLength::new(*self)
    }
}

impl<A: AddressText> Network<A> {
    ghost use Rattle.cidr.specs.texts.Printed.{plain_text, longest_text, IsAppended};

    /// The printed string, without a full prefix length, in an `ArrayString`, so that nothing is allocated. It has at
    /// most 18 bytes in IPv4 and 43 in IPv6. Parsing it gives the same network.
    ///
    /// ```
    /// "192.0.2.1/32".parse::<Ipv4Cidr>()?.to_text() // 192.0.2.1
    /// "2001:DB8:0::/32".parse::<Ipv6Cidr>()?.to_text() // 2001:db8::/32
    /// ```
    #[tactic(auto, using(crate::proofs::NetworkPrinting::network_text_laws))]
    pub fn to_text(&self) -> ArrayString<43>
        ensures text { result.bytes ≡ plain_text A.FAMILY self.now }
        ensures len { length result.bytes ≤ longest_text A.FAMILY }
        ensures spells { IsNetworkText A.FAMILY result.bytes self.now }
    {
        plain(self.first_address(), self.network_length())
    }

    /// Appends the printed string, as `to_text` gives it, to one that the caller has. Where there is no room for the whole
    /// of it, it fails, and the string is as it was.
    ///
    /// ```
    /// let mut text = ArrayString::<43>::new();
    /// "192.0.2.48/28".parse::<Ipv4Cidr>()?.write_to(&mut text)?;
    /// text // 192.0.2.48/28
    /// ```
    pub fn write_to<const CAP: usize>(&self, text: &mut ArrayString<CAP>) -> fmt::Result
        ensures written { IsAppended CAP (plain_text A.FAMILY self.now) text.old.bytes text.new.bytes result }
        ensures len { length (plain_text A.FAMILY self.now) ≤ longest_text A.FAMILY }
    {
        append(text, self.to_text().as_str())
    }
}

impl<A: AddressText> WithLength<Network<A>> {
    ghost use Rattle.cidr.specs.texts.Printed.{forced_text, longest_text};

    /// The printed string, with the prefix length also where that is full: at most 18 bytes in IPv4 and 43 in IPv6.
    /// Parsing it gives the same network.
    ///
    /// ```
    /// "::1".parse::<Ipv6Cidr>()?.with_length().to_text() // ::1/128
    /// ```
    #[tactic(auto, using(crate::proofs::NetworkPrinting::network_text_laws))]
    pub fn to_text(&self) -> ArrayString<43>
        ensures text { result.bytes ≡ forced_text A.FAMILY self.now }
        ensures len { length result.bytes ≤ longest_text A.FAMILY }
        ensures spells { IsNetworkText A.FAMILY result.bytes self.now }
    {
        let network = self.get();
        forced(network.first_address(), network.network_length())
    }
}

impl<A: AddressBits> PartialEq for Network<A> {
    ghost eq = { bit_eq };

    ghost laws = { partial_equiv_from_equiv bit_eq_equiv };

    #[tactic(auto, using(crate::proofs::OrderLaws::order_laws))]
    fn eq(&self, other: &Network<A>) -> bool {
        self.address == other.address && self.len == other.len
    }
}

impl<A: AddressBits> Eq for Network<A> {
    ghost laws = { bit_eq_equiv };
}

impl<A: AddressBits> PartialOrd for Network<A> {
    ghost partial_cmp = { as_partial_cmp bit_cmp };

    ghost laws = { bit_cmp_po };

    fn partial_cmp(&self, other: &Network<A>) -> Option<Ordering> {
        Some(self.cmp(other))
    }
}

impl<A: AddressBits> Ord for Network<A> {
    ghost cmp = { bit_cmp };

    ghost total = { bit_cmp_total };

    ghost matches_partial_cmp = { λ _ _. refl };

    ghost matches_eq = { bit_eq_ties };

    #[tactic(auto, using(crate::proofs::OrderLaws::order_laws))]
    fn cmp(&self, other: &Network<A>) -> Ordering {
        self.address.order(self.len, other.address, other.len)
    }
}

impl<A: AddressBits> Hash for Network<A> {
    ghost use Rattle.cidr.specs.model.Network.{network_hash};

    ghost hash_input = { network_hash A.FAMILY };

    ghost respects_eq = { same_image (network_hash A.FAMILY) };

    #[tactic(auto, using(crate::proofs::OrderLaws::order_laws))]
    fn hash<H: Hasher>(&self, state: &mut H) {
        self.address.hash(state);
        self.len.hash(state);
    }
}

impl<A: AddressBits> From<A> for Network<A> {
    ghost from_gives = { λ a n. (n ≡ A.bits a) × (length n ≡ width_of A.FAMILY) };

    fn from(address: A) -> Network<A> {
        Network::new_host(address)
    }
}

impl<A: AddressText> FromStr for Network<A> {
    ghost use Rattle.cidr.specs.texts.Refusal.{ReadsNetwork};

    type Err = NetworkParseError;

    ghost from_str_gives = { ReadsNetwork A.FAMILY };

    fn from_str(s: &str) -> Result<Network<A>, NetworkParseError> {
        let Some((front, back)) = cut_at_last_slash(s) else {
            return Ok(Network::new_host(A::read(s)?));
        };
        let address = A::read(front)?;
        let len = read_length(back)?;
        Network::new(address, len)
    }
}

impl<A: AddressText> fmt::Display for Network<A> {
    ghost use Rattle.cidr.specs.texts.Printed.{plain_text};

    ghost output = { λ p. Some (plain_text A.FAMILY p) };

    fn fmt<W: fmt::Write>(&self, f: &mut fmt::Formatter<W>) -> fmt::Result {
        f.write_str(self.to_text().as_str())
    }
}

impl<A: AddressText> fmt::Display for WithLength<Network<A>> {
    ghost use Rattle.cidr.specs.texts.Printed.{forced_text};

    ghost output = { λ p. Some (forced_text A.FAMILY p) };

    fn fmt<W: fmt::Write>(&self, f: &mut fmt::Formatter<W>) -> fmt::Result {
        f.write_str(self.to_text().as_str())
    }
}

impl<A: AddressText> fmt::Debug for Network<A> {
    ghost use Rattle.cidr.specs.texts.Printed.{forced_text};

    ghost debug_output = { λ p. Some (forced_text A.FAMILY p) };

    fn fmt<W: fmt::Write>(&self, f: &mut fmt::Formatter<W>) -> fmt::Result {
        fmt::Display::fmt(&self.with_length(), f)
    }
}

#[tactic(auto, using(crate::proofs::Views::view_laws))]
impl Cidr for Ipv4Cidr {
    ghost use Rattle.cidr.specs.laws.BitLaws.{bit_eq_Decides};
    ghost use Rattle.cidr.specs.laws.TraitLaws.{reads_network};
    ghost use Rattle.cidr.specs.declared.family.Family.TheVariants.{Ipv4};

    type Address = Ipv4Addr;

    fn new(addr: Ipv4Addr, len: u8) -> Result<Ipv4Cidr, NetworkParseError> {
        Ipv4Cidr::new(addr, len)
    }

    fn new_host(addr: Ipv4Addr) -> Ipv4Cidr {
        Ipv4Cidr::new_host(addr)
    }

    fn iter(&self) -> InetIterator<Ipv4Addr> {
        self.iter()
    }

    fn first_address(&self) -> Ipv4Addr {
        self.first_address()
    }

    fn first(&self) -> Ipv4Inet {
        self.first()
    }

    fn last_address(&self) -> Ipv4Addr {
        self.last_address()
    }

    fn last(&self) -> Ipv4Inet {
        self.last()
    }

    fn network_length(&self) -> u8 {
        self.network_length()
    }

    fn family(&self) -> Family {
        self.family()
    }

    fn is_host_address(&self) -> bool {
        self.is_host_address()
    }

    fn mask(&self) -> Ipv4Addr {
        self.mask()
    }

    fn contains(&self, addr: &Ipv4Addr) -> bool {
        self.contains(addr)
    }

    ghost equal = { bit_eq_Decides };

    ghost known = { λ _ _ _ h. h };

    ghost ordered = { λ _ _. refl };

    ghost reads = { reads_network Ipv4 };

    ghost prints = { λ _. refl };
}

#[tactic(auto, using(crate::proofs::Views::view_laws))]
impl Cidr for Ipv6Cidr {
    ghost use Rattle.cidr.specs.laws.BitLaws.{bit_eq_Decides};
    ghost use Rattle.cidr.specs.laws.TraitLaws.{reads_network};
    ghost use Rattle.cidr.specs.declared.family.Family.TheVariants.{Ipv6};

    type Address = Ipv6Addr;

    fn new(addr: Ipv6Addr, len: u8) -> Result<Ipv6Cidr, NetworkParseError> {
        Ipv6Cidr::new(addr, len)
    }

    fn new_host(addr: Ipv6Addr) -> Ipv6Cidr {
        Ipv6Cidr::new_host(addr)
    }

    fn iter(&self) -> InetIterator<Ipv6Addr> {
        self.iter()
    }

    fn first_address(&self) -> Ipv6Addr {
        self.first_address()
    }

    fn first(&self) -> Ipv6Inet {
        self.first()
    }

    fn last_address(&self) -> Ipv6Addr {
        self.last_address()
    }

    fn last(&self) -> Ipv6Inet {
        self.last()
    }

    fn network_length(&self) -> u8 {
        self.network_length()
    }

    fn family(&self) -> Family {
        self.family()
    }

    fn is_host_address(&self) -> bool {
        self.is_host_address()
    }

    fn mask(&self) -> Ipv6Addr {
        self.mask()
    }

    fn contains(&self, addr: &Ipv6Addr) -> bool {
        self.contains(addr)
    }

    ghost equal = { bit_eq_Decides };

    ghost known = { λ _ _ _ h. h };

    ghost ordered = { λ _ _. refl };

    ghost reads = { reads_network Ipv6 };

    ghost prints = { λ _. refl };
}
