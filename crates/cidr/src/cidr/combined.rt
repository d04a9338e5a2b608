//! The network of either family.
//!
//! Its compact bytes stand in `compact::either_family`.
ghost use Rattle.std.specs.Prelude.{◌≡◌, ◌↔◌, ◌≤◌, length, IsTrue, IsFalse, IfOk, Some};
ghost use Rattle.cidr.specs.either.IpNetwork.{network_family, network_prefix, network_bits, IsLone};
ghost use Rattle.cidr.specs.either.IpText.{IsIpNetworkText, ip_network_text};
ghost use Rattle.cidr.specs.declared.cidr.combined.IpCidr.TheVariants.{V4, V6};

use crate::addr::ip::IpAddr;
use crate::addr::v4::Ipv4Addr;
use crate::addr::v6::Ipv6Addr;
use crate::cidr::network::{Ipv4Cidr, Ipv6Cidr};
use crate::errors::NetworkParseError;
use crate::family::Family;
use crate::inet::combined::IpInet;
use crate::inet_iterator::InetIterator;
use crate::inet_pair::combined::IpInetPair;
use crate::text::print::append;
use crate::text::read::{cut_at_last_slash, read_length};
use crate::text::with_length::WithLength;
use crate::traits::Cidr;
use arrayvec::ArrayString;
use std::fmt;
use std::str::FromStr;

/// An IPv4 or an IPv6 network.
///
/// A string is parsed in the form of the family of its address, and no string is of both. The errors are those of that
/// family; where the address is of neither, the error is the `AddrParseError` of `IpAddr`. All IPv4 networks come
/// before all IPv6 networks, and those of one family are ordered by first address and then by prefix length.
///
/// ```
/// "2001:db8::/32".parse::<IpCidr>()? // 2001:db8::/32
/// ```
#[derive(Clone, Copy, Debug, PartialEq, Eq, PartialOrd, Ord, Hash)]
pub enum IpCidr {
    V4(Ipv4Cidr),
    V6(Ipv6Cidr),
}

impl IpCidr {
    ghost use Rattle.cidr.specs.either.IpNetwork.{address_by, lone_network, ip_network_from, IsAddressBits};
    ghost use Rattle.cidr.specs.either.IpHost.{host_at};
    ghost use Rattle.cidr.specs.model.Host.{first_host, last_host};
    ghost use Rattle.cidr.specs.either.IpAddress.{ip_address_bits};
    ghost use Rattle.cidr.specs.model.Network.{width_of, first_of, last_of, mask_of, BeginsWith, HoldsAll, AreApart, IsConsecutive};
    ghost use Rattle.cidr.specs.texts.Printed.{plain_text, IsAppended};
    ghost use Rattle.cidr.specs.model.Walk.{network_hosts, network_walk, HasExactly};
    ghost use Rattle.cidr.specs.declared.family.Family.TheVariants.{Ipv4, Ipv6};

    /// The network of the first `len` bits of an address, of its family.
    ///
    /// Returns `NetworkLengthTooLongError` for a prefix length above the width, 32 or 128, and then `InvalidHostPart`
    /// for an address with a set bit after the first `len`.
    ///
    /// ```
    /// IpCidr::new("2001:db8::".parse()?, 32)? // 2001:db8::/32
    /// IpCidr::new("192.0.2.48".parse()?, 27) // Err(host part of address was not zero)
    /// ```
    pub fn new(addr: IpAddr, len: u8) -> Result<IpCidr, NetworkParseError>
        ensures value { result ≡ ip_network_from addr len }
        ensures len { IfOk result (λ n. length (network_prefix n) ≡ len) }
    {
        match addr {
            IpAddr::V4(addr) => Ok(IpCidr::V4(Ipv4Cidr::new(addr, len)?)),
            IpAddr::V6(addr) => Ok(IpCidr::V6(Ipv6Cidr::new(addr, len)?)),
        }
    }

    /// The network that has only this address, of full prefix length: /32 in IPv4 and /128 in IPv6.
    ///
    /// ```
    /// IpCidr::new_host("192.0.2.1".parse()?) // 192.0.2.1
    /// ```
    pub fn new_host(addr: IpAddr) -> IpCidr
        ensures value { result ≡ lone_network addr }
        ensures full { IsLone result }
    {
        match addr {
            IpAddr::V4(addr) => IpCidr::V4(Ipv4Cidr::new_host(addr)),
            IpAddr::V6(addr) => IpCidr::V6(Ipv6Cidr::new_host(addr)),
        }
    }

    /// The first address, in which no bit after the prefix is set: in IPv4 the network address, up to /30.
    ///
    /// ```
    /// "192.0.2.48/28".parse::<IpCidr>()?.first_address() // 192.0.2.48
    /// ```
    pub fn first_address(&self) -> IpAddr
        ensures { result ≡ address_by first_of self.now }
    {
        match self {
            IpCidr::V4(network) => IpAddr::V4(network.first_address()),
            IpCidr::V6(network) => IpAddr::V6(network.first_address()),
        }
    }

    /// The last address, in which all bits after the prefix are set: in IPv4 the broadcast address, up to /30.
    ///
    /// ```
    /// "192.0.2.48/28".parse::<IpCidr>()?.last_address() // 192.0.2.63
    /// ```
    pub fn last_address(&self) -> IpAddr
        ensures { result ≡ address_by last_of self.now }
    {
        match self {
            IpCidr::V4(network) => IpAddr::V4(network.last_address()),
            IpCidr::V6(network) => IpAddr::V6(network.last_address()),
        }
    }

    /// The host at the first address, with the prefix length of the network.
    ///
    /// ```
    /// "192.0.2.48/28".parse::<IpCidr>()?.first() // 192.0.2.48/28
    /// ```
    pub fn first(&self) -> IpInet
        ensures { result ≡ host_at first_host self.now }
    {
        match self {
            IpCidr::V4(network) => IpInet::V4(network.first()),
            IpCidr::V6(network) => IpInet::V6(network.first()),
        }
    }

    /// The host at the last address, with the prefix length of the network.
    ///
    /// ```
    /// "192.0.2.48/28".parse::<IpCidr>()?.last() // 192.0.2.63/28
    /// ```
    pub fn last(&self) -> IpInet
        ensures { result ≡ host_at last_host self.now }
    {
        match self {
            IpCidr::V4(network) => IpInet::V4(network.last()),
            IpCidr::V6(network) => IpInet::V6(network.last()),
        }
    }

    /// The hosts at all addresses of the network, ascending, with its prefix length. None is left out: the network
    /// address and the broadcast address are among them.
    ///
    /// ```
    /// "10.0.0.0/30".parse::<IpCidr>()?.iter().next_back() // Some(V4(10.0.0.3/30))
    /// ```
    pub fn iter(&self) -> InetIterator<IpAddr>
        ensures walk { result ≡ network_hosts (network_family self.now) (network_prefix self.now) }
        ensures exactly { HasExactly (network_family self.now) (network_prefix self.now)
            (network_walk (network_family self.now) (network_prefix self.now)) }
    {
        match self {
            IpCidr::V4(network) => InetIterator::_new(IpInetPair::V4(network.ends())),
            IpCidr::V6(network) => InetIterator::_new(IpInetPair::V6(network.ends())),
        }
    }

    /// The prefix length in bits, at most 32 in IPv4 and 128 in IPv6.
    ///
    /// ```
    /// "2001:db8::/32".parse::<IpCidr>()?.network_length() // 32
    /// ```
    pub fn network_length(&self) -> u8
        ensures value { result ≡ length (network_prefix self.now) }
        ensures fits { result ≤ width_of (network_family self.now) }
    {
        match self {
            IpCidr::V4(network) => network.network_length(),
            IpCidr::V6(network) => network.network_length(),
        }
    }

    /// The family of its addresses.
    ///
    /// ```
    /// "2001:db8::/32".parse::<IpCidr>()?.family() // Ipv6
    /// ```
    pub fn family(&self) -> Family
        ensures { result ≡ network_family self.now }
    {
        match self {
            IpCidr::V4(_) => Family::Ipv4,
            IpCidr::V6(_) => Family::Ipv6,
        }
    }

    /// Whether the network has only one address, that is, whether the prefix length is full: 32 in IPv4 and 128 in
    /// IPv6.
    ///
    /// ```
    /// "2001:db8::/32".parse::<IpCidr>()?.is_host_address() // false
    /// "::1/128".parse::<IpCidr>()?.is_host_address() // true
    /// ```
    pub fn is_host_address(&self) -> bool
        ensures { IsTrue result ↔ IsLone self.now }
    {
        match self {
            IpCidr::V4(network) => network.is_host_address(),
            IpCidr::V6(network) => network.is_host_address(),
        }
    }

    /// The network mask: as many set bits as the prefix length says, then zeros.
    ///
    /// ```
    /// "2001:db8::/32".parse::<IpCidr>()?.mask() // ffff:ffff::
    /// ```
    pub fn mask(&self) -> IpAddr
        ensures { result ≡ address_by mask_of self.now }
    {
        match self {
            IpCidr::V4(network) => IpAddr::V4(network.mask()),
            IpCidr::V6(network) => IpAddr::V6(network.mask()),
        }
    }

    /// Whether the address is in the network, that is, of its family and begins with its prefix.
    ///
    /// No network contains an address of the other family: an IPv4 address is in no IPv6 network, and an IPv4-mapped
    /// IPv6 address is in no IPv4 network, as in Go's `netip.Prefix.Contains`.
    ///
    /// ```
    /// let network = "::ffff:0:0/96".parse::<IpCidr>()?;
    /// network.contains(&"::ffff:192.0.2.1".parse()?) // true
    /// network.contains(&"192.0.2.1".parse()?) // false
    /// ```
    pub fn contains(&self, addr: &IpAddr) -> bool
        ensures { IsTrue result ↔ BeginsWith (ip_address_bits addr.now) (network_bits self.now) }
    {
        match (self, addr) {
            (IpCidr::V4(network), IpAddr::V4(addr)) => network.contains(addr),
            (IpCidr::V6(network), IpAddr::V6(addr)) => network.contains(addr),
            _ => false,
        }
    }

    /// Whether every address of the other network is in this one, which is never so for two families: ::/0 does not
    /// contain 192.0.2.0/24. Each network contains itself.
    ///
    /// ```
    /// let network = "2001:db8::/32".parse::<IpCidr>()?;
    /// network.contains_cidr(&"2001:db8:1::/48".parse()?) // true
    /// ```
    #[tactic(auto, using(crate::proofs::EitherHolding::holding_laws))]
    pub fn contains_cidr(&self, other: &IpCidr) -> bool
        ensures begins { IsTrue result ↔ BeginsWith (network_bits other.now) (network_bits self.now) }
        ensures holds { IsTrue result ↔ HoldsAll IsAddressBits (network_bits self.now) (network_bits other.now) }
        ensures apart { IsFalse result → ¬ (BeginsWith (network_bits self.now) (network_bits other.now)) →
            AreApart (network_bits self.now) (network_bits other.now) }
        ensures consecutive { IsTrue result → IsConsecutive (network_bits self.now) (network_bits other.now) }
    {
        // the call tells the proof that the length is within the width
        let _fits = other.network_length();
        match (self, other) {
            (IpCidr::V4(network), IpCidr::V4(other)) => network.contains_cidr(other),
            (IpCidr::V6(network), IpCidr::V6(other)) => network.contains_cidr(other),
            _ => false,
        }
    }

    /// Whether this is an IPv4 network.
    ///
    /// ```
    /// "192.0.2.48/28".parse::<IpCidr>()?.is_ipv4() // true
    /// ```
    pub fn is_ipv4(&self) -> bool
        ensures { IsTrue result ↔ (network_family self.now ≡ Ipv4) }
    {
        matches!(self, IpCidr::V4(_))
    }

    /// Whether this is an IPv6 network, also where it holds only IPv4-mapped addresses.
    ///
    /// ```
    /// "::ffff:0:0/96".parse::<IpCidr>()?.is_ipv6() // true
    /// ```
    pub fn is_ipv6(&self) -> bool
        ensures { IsTrue result ↔ (network_family self.now ≡ Ipv6) }
    {
        matches!(self, IpCidr::V6(_))
    }

    /// The printed string, without a full prefix length, in an `ArrayString`, so that nothing is allocated. It has at
    /// most 18 bytes in IPv4 and 43 in IPv6. Parsing it gives the same network.
    ///
    /// ```
    /// "192.0.2.1/32".parse::<IpCidr>()?.to_text() // 192.0.2.1
    /// ```
    pub fn to_text(&self) -> ArrayString<43>
        ensures text { result.bytes ≡ ip_network_text plain_text self.now }
        ensures len { length result.bytes ≤ 43 }
        ensures spells { IsIpNetworkText result.bytes self.now }
    {
        match self {
            IpCidr::V4(network) => network.to_text(),
            IpCidr::V6(network) => network.to_text(),
        }
    }

    /// Appends the printed string, as `to_text` gives it, to one that the caller has. Where there is no room for the whole
    /// of it, it fails, and the string is as it was.
    ///
    /// ```
    /// let mut text = ArrayString::<43>::new();
    /// "192.0.2.1/32".parse::<IpCidr>()?.write_to(&mut text)?;
    /// text // 192.0.2.1
    /// ```
    pub fn write_to<const CAP: usize>(&self, text: &mut ArrayString<CAP>) -> fmt::Result
        ensures written { IsAppended CAP (ip_network_text plain_text self.now) text.old.bytes text.new.bytes result }
        ensures len { length (ip_network_text plain_text self.now) ≤ 43 }
    {
        append(text, self.to_text().as_str())
    }

    /// The network, to be printed with its prefix length also where that is full.
    ///
    /// ```
    /// "192.0.2.1".parse::<IpCidr>()?.with_length() // 192.0.2.1/32
    /// ```
    pub fn with_length(&self) -> WithLength<IpCidr>
        ensures { result ≡ self.now }
    {
        WithLength::new(*self)
    }
}

impl WithLength<IpCidr> {
    ghost use Rattle.cidr.specs.texts.Printed.{forced_text};

    /// The printed string, with the prefix length also where that is full: at most 18 bytes in IPv4 and 43 in IPv6.
    /// Parsing it gives the same network.
    ///
    /// ```
    /// "::1".parse::<IpCidr>()?.with_length().to_text() // ::1/128
    /// ```
    pub fn to_text(&self) -> ArrayString<43>
        ensures text { result.bytes ≡ ip_network_text forced_text self.now }
        ensures len { length result.bytes ≤ 43 }
        ensures spells { IsIpNetworkText result.bytes self.now }
    {
        match self.get() {
            IpCidr::V4(network) => network.with_length().to_text(),
            IpCidr::V6(network) => network.with_length().to_text(),
        }
    }
}

impl IntoIterator for IpCidr {
    ghost use Rattle.cidr.specs.model.Walk.{network_hosts, network_walk, HasExactly};

    type Item = IpInet;

    type IntoIter = InetIterator<IpAddr>;

    ghost into_iter_gives = { λ n it. (it ≡ network_hosts (network_family n) (network_prefix n)) ×
        HasExactly (network_family n) (network_prefix n) (network_walk (network_family n) (network_prefix n)) };

    fn into_iter(self) -> InetIterator<IpAddr> {
        self.iter()
    }
}

impl From<Ipv4Cidr> for IpCidr {
    ghost from_gives = { λ p n. n ≡ V4 p };

    fn from(network: Ipv4Cidr) -> IpCidr {
        IpCidr::V4(network)
    }
}

impl From<Ipv6Cidr> for IpCidr {
    ghost from_gives = { λ p n. n ≡ V6 p };

    fn from(network: Ipv6Cidr) -> IpCidr {
        IpCidr::V6(network)
    }
}

impl From<Ipv4Addr> for IpCidr {
    ghost from_gives = { λ a n. (n ≡ V4 a) × IsLone n };

    fn from(address: Ipv4Addr) -> IpCidr {
        IpCidr::V4(Ipv4Cidr::new_host(address))
    }
}

impl From<Ipv6Addr> for IpCidr {
    ghost from_gives = { λ a n. (n ≡ V6 a) × IsLone n };

    fn from(address: Ipv6Addr) -> IpCidr {
        IpCidr::V6(Ipv6Cidr::new_host(address))
    }
}

impl From<IpAddr> for IpCidr {
    ghost use Rattle.cidr.specs.either.IpNetwork.{lone_network};

    ghost from_gives = { λ a n. (n ≡ lone_network a) × IsLone n };

    fn from(address: IpAddr) -> IpCidr {
        IpCidr::new_host(address)
    }
}

impl FromStr for IpCidr {
    ghost use Rattle.cidr.specs.either.IpText.{ReadsIpNetwork};

    type Err = NetworkParseError;

    ghost from_str_gives = { ReadsIpNetwork };

    fn from_str(s: &str) -> Result<IpCidr, NetworkParseError> {
        let Some((front, back)) = cut_at_last_slash(s) else {
            return Ok(IpCidr::new_host(s.parse::<IpAddr>()?));
        };
        let address = front.parse::<IpAddr>()?;
        let len = read_length(back)?;
        IpCidr::new(address, len)
    }
}

impl fmt::Display for IpCidr {
    ghost use Rattle.cidr.specs.texts.Printed.{plain_text};

    ghost output = { λ n. Some (ip_network_text plain_text n) };

    fn fmt<W: fmt::Write>(&self, f: &mut fmt::Formatter<W>) -> fmt::Result {
        f.write_str(self.to_text().as_str())
    }
}

impl fmt::Display for WithLength<IpCidr> {
    ghost use Rattle.cidr.specs.texts.Printed.{forced_text};

    ghost output = { λ n. Some (ip_network_text forced_text n) };

    fn fmt<W: fmt::Write>(&self, f: &mut fmt::Formatter<W>) -> fmt::Result {
        f.write_str(self.to_text().as_str())
    }
}

impl Cidr for IpCidr {
    ghost use Rattle.std.specs.Prelude.{refl};
    ghost use Rattle.cidr.specs.model.Bits.{bit_eq};
    ghost use Rattle.cidr.specs.laws.EqualLaws.{bits_told, told_in};
    ghost use Rattle.cidr.specs.laws.TraitLaws.{apart_from_six, apart_from_four, network_v4, network_v6, ip_network_known, reads_ip_network, prints_ip_network};
    ghost use Rattle.cidr.specs.declared.cidr.combined.IpCidr.TheVariants as network;

    type Address = IpAddr;

    fn new(addr: IpAddr, len: u8) -> Result<IpCidr, NetworkParseError> {
        IpCidr::new(addr, len)
    }

    fn new_host(addr: IpAddr) -> IpCidr {
        IpCidr::new_host(addr)
    }

    fn iter(&self) -> InetIterator<IpAddr> {
        self.iter()
    }

    fn first_address(&self) -> IpAddr {
        self.first_address()
    }

    fn first(&self) -> IpInet {
        self.first()
    }

    fn last_address(&self) -> IpAddr {
        self.last_address()
    }

    fn last(&self) -> IpInet {
        self.last()
    }

    fn network_length(&self) -> u8 {
        self.network_length()
    }

    fn family(&self) -> Family {
        self.family()
    }

    fn is_host_address(&self) -> bool {
        self.is_host_address()
    }

    fn mask(&self) -> IpAddr {
        self.mask()
    }

    fn contains(&self, addr: &IpAddr) -> bool {
        self.contains(addr)
    }

    ghost equal = { elim [
      | network.V4 a ↦ elim [
        | network.V4 b ↦ told_in network.V4 network_v4 bit_eq bits_told a b
        | network.V6 b ↦ apart_from_six network_family (network.V4 a) (network.V6 b) refl refl
      ]
      | network.V6 a ↦ elim [
        | network.V4 b ↦ apart_from_four network_family (network.V4 b) (network.V6 a) refl refl
        | network.V6 b ↦ told_in network.V6 network_v6 bit_eq bits_told a b
      ]
    ] };

    ghost known = { ip_network_known };

    ghost ordered = { elim [
      | network.V4 a ↦ elim [ network.V4 b ↦ refl | network.V6 b ↦ refl ]
      | network.V6 a ↦ elim [ network.V4 b ↦ refl | network.V6 b ↦ refl ]
    ] };

    ghost reads = { reads_ip_network };

    ghost prints = { prints_ip_network };
}
