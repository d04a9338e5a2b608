//! The network of either family, or every address.
//!
//! Its compact bytes stand in `compact::either_family`, the bits that it is a string of in `bits::any`, and its
//! `from_str` in `parsers::any`.
ghost use Rattle.std.specs.Prelude.{◌≡◌, ◌↔◌, ◌≤◌, length, codes, IsTrue, IsFalse, IfOk, IfSome, Some, option_map};
ghost use Rattle.cidr.specs.either.IpNetwork.{specific, any_of, any_or, any_length, IsLoneNetwork};
ghost use Rattle.cidr.specs.either.IpText.{IsAnyNetworkText, any_network_text};
ghost use Rattle.cidr.specs.model.Views.{seen};
ghost use Rattle.cidr.specs.declared.cidr.any.AnyIpCidr.TheVariants as any_network;

use crate::addr::ip::IpAddr;
use crate::addr::v4::Ipv4Addr;
use crate::addr::v6::Ipv6Addr;
use crate::cidr::combined::IpCidr;
use crate::cidr::network::{Ipv4Cidr, Ipv6Cidr};
use crate::errors::NetworkParseError;
use crate::family::Family;
use crate::inet::combined::IpInet;
use crate::text::print::append;
use crate::text::with_length::WithLength;
use arrayvec::ArrayString;
use std::fmt;

/// An IPv4 or an IPv6 network, or every address of both families.
///
/// It is the type of an entry of an access list that may say `any`. Any other string is parsed as that of `IpCidr` is,
/// with its errors. `Any` comes first in the order, then the IPv4 networks, then the IPv6 networks. `Any` has no
/// family, no prefix length and no first address: the calls that return one of these return `None`.
///
/// ```
/// "any".parse::<AnyIpCidr>()? // any
/// "any".parse::<AnyIpCidr>()? < "0.0.0.0/0".parse()? // true
/// ```
#[derive(Clone, Copy, Debug, PartialEq, Eq, PartialOrd, Ord, Hash)]
pub enum AnyIpCidr {
    /// Every address of both families. It is parsed from and printed as `any`, in lower case only.
    Any,
    V4(Ipv4Cidr),
    V6(Ipv6Cidr),
}

impl AnyIpCidr {
    ghost use Rattle.cidr.specs.either.IpNetwork.{network_family, network_prefix, any_bits, address_by, lone_network, ip_network_from, IsAddressBits, IsAnyNetwork};
    ghost use Rattle.cidr.specs.either.IpHost.{host_at};
    ghost use Rattle.cidr.specs.model.Host.{first_host, last_host};
    ghost use Rattle.cidr.specs.either.IpAddress.{ip_address_bits};
    ghost use Rattle.cidr.specs.model.Network.{first_of, last_of, mask_of, BeginsWith, HoldsAll, AreApart, IsConsecutive};
    ghost use Rattle.cidr.specs.texts.Printed.{plain_text, IsAppended};
    ghost use Rattle.cidr.specs.declared.family.Family.TheVariants.{Ipv4, Ipv6};

    /// The network of the first `len` bits of an address, of its family.
    ///
    /// Returns `NetworkLengthTooLongError` for a prefix length above the width, 32 or 128, and then `InvalidHostPart`
    /// for an address with a set bit after the first `len`.
    ///
    /// ```
    /// AnyIpCidr::new("10.0.0.0".parse()?, 8)? // 10.0.0.0/8
    /// ```
    pub fn new(addr: IpAddr, len: u8) -> Result<AnyIpCidr, NetworkParseError>
        ensures value { result ≡ seen any_of (ip_network_from addr len) }
        ensures len { IfOk result (λ n. any_length n ≡ Some len) }
    {
        Ok(AnyIpCidr::from(IpCidr::new(addr, len)?))
    }

    /// The network that has only this address, of full prefix length: /32 in IPv4 and /128 in IPv6.
    ///
    /// ```
    /// AnyIpCidr::new_host("192.0.2.1".parse()?) // 192.0.2.1
    /// ```
    pub fn new_host(addr: IpAddr) -> AnyIpCidr
        ensures value { result ≡ any_of (lone_network addr) }
        ensures full { IsLoneNetwork result }
    {
        AnyIpCidr::from(IpCidr::new_host(addr))
    }

    /// The network of one family, or `None` for `Any`.
    fn network(&self) -> Option<IpCidr>
        ensures { result ≡ specific self.now }
    {
        match self {
            AnyIpCidr::Any => None,
            AnyIpCidr::V4(network) => Some(IpCidr::V4(*network)),
            AnyIpCidr::V6(network) => Some(IpCidr::V6(*network)),
        }
    }

    /// The first address, in which no bit after the prefix is set, or `None` for `Any`.
    ///
    /// ```
    /// "10.0.0.0/8".parse::<AnyIpCidr>()?.first_address() // Some(10.0.0.0)
    /// AnyIpCidr::Any.first_address() // None
    /// ```
    pub fn first_address(&self) -> Option<IpAddr>
        ensures { result ≡ option_map (address_by first_of) (specific self.now) }
    {
        match self.network() {
            None => None,
            Some(network) => Some(network.first_address()),
        }
    }

    /// The last address, in which all bits after the prefix are set, or `None` for `Any`.
    ///
    /// ```
    /// "10.0.0.0/8".parse::<AnyIpCidr>()?.last_address() // Some(10.255.255.255)
    /// ```
    pub fn last_address(&self) -> Option<IpAddr>
        ensures { result ≡ option_map (address_by last_of) (specific self.now) }
    {
        match self.network() {
            None => None,
            Some(network) => Some(network.last_address()),
        }
    }

    /// The host at the first address, with the prefix length of the network, or `None` for `Any`.
    ///
    /// ```
    /// "10.0.0.0/8".parse::<AnyIpCidr>()?.first() // Some(V4(10.0.0.0/8))
    /// ```
    pub fn first(&self) -> Option<IpInet>
        ensures { result ≡ option_map (host_at first_host) (specific self.now) }
    {
        match self.network() {
            None => None,
            Some(network) => Some(network.first()),
        }
    }

    /// The host at the last address, with the prefix length of the network, or `None` for `Any`.
    ///
    /// ```
    /// "10.0.0.0/8".parse::<AnyIpCidr>()?.last() // Some(V4(10.255.255.255/8))
    /// ```
    pub fn last(&self) -> Option<IpInet>
        ensures { result ≡ option_map (host_at last_host) (specific self.now) }
    {
        match self.network() {
            None => None,
            Some(network) => Some(network.last()),
        }
    }

    /// The prefix length in bits, at most 32 in IPv4 and 128 in IPv6, or `None` for `Any`.
    ///
    /// ```
    /// "10.0.0.0/8".parse::<AnyIpCidr>()?.network_length() // Some(8)
    /// ```
    pub fn network_length(&self) -> Option<u8>
        ensures value { result ≡ any_length self.now }
        ensures fits { IfSome result (λ len. len ≤ 128) }
        ensures within { IsAnyNetwork self.now }
    {
        match self.network() {
            None => None,
            Some(network) => Some(network.network_length()),
        }
    }

    /// The family of its addresses, or `None` for `Any`, which has addresses of both.
    ///
    /// ```
    /// "10.0.0.0/8".parse::<AnyIpCidr>()?.family() // Some(Ipv4)
    /// ```
    pub fn family(&self) -> Option<Family>
        ensures { result ≡ option_map network_family (specific self.now) }
    {
        match self.network() {
            None => None,
            Some(network) => Some(network.family()),
        }
    }

    /// Whether the network has only one address, that is, whether the prefix length is full. `Any` has more.
    ///
    /// ```
    /// "2001:db8::1".parse::<AnyIpCidr>()?.is_host_address() // true
    /// AnyIpCidr::Any.is_host_address() // false
    /// ```
    pub fn is_host_address(&self) -> bool
        ensures { IsTrue result ↔ IsLoneNetwork self.now }
    {
        match self.network() {
            None => false,
            Some(network) => network.is_host_address(),
        }
    }

    /// The network mask, as many set bits as the prefix length says and then zeros, or `None` for `Any`.
    ///
    /// ```
    /// "10.0.0.0/8".parse::<AnyIpCidr>()?.mask() // Some(255.0.0.0)
    /// ```
    pub fn mask(&self) -> Option<IpAddr>
        ensures { result ≡ option_map (address_by mask_of) (specific self.now) }
    {
        match self.network() {
            None => None,
            Some(network) => Some(network.mask()),
        }
    }

    /// Whether the address is in the network. `Any` contains every address.
    ///
    /// No other network contains an address of the other family: an IPv4-mapped IPv6 address is in no IPv4 network.
    ///
    /// ```
    /// AnyIpCidr::Any.contains(&"2001:db8::1".parse()?) // true
    /// let network = "0.0.0.0/0".parse::<AnyIpCidr>()?;
    /// network.contains(&"::ffff:192.0.2.1".parse()?) // false
    /// ```
    pub fn contains(&self, addr: &IpAddr) -> bool
        ensures { IsTrue result ↔ BeginsWith (ip_address_bits addr.now) (any_bits self.now) }
    {
        match (self, addr) {
            (AnyIpCidr::Any, _) => true,
            (AnyIpCidr::V4(network), IpAddr::V4(addr)) => network.contains(addr),
            (AnyIpCidr::V6(network), IpAddr::V6(addr)) => network.contains(addr),
            _ => false,
        }
    }

    /// Whether every address of the other network is in this one. `Any` contains every network and itself, and no other
    /// network contains `Any`.
    ///
    /// ```
    /// AnyIpCidr::Any.contains_cidr(&"::/0".parse()?) // true
    /// ```
    #[tactic(auto, using(crate::proofs::EitherHolding::holding_laws))]
    pub fn contains_cidr(&self, other: &AnyIpCidr) -> bool
        ensures begins { IsTrue result ↔ BeginsWith (any_bits other.now) (any_bits self.now) }
        ensures holds { IsTrue result ↔ HoldsAll IsAddressBits (any_bits self.now) (any_bits other.now) }
        ensures apart { IsFalse result → ¬ (BeginsWith (any_bits self.now) (any_bits other.now)) →
            AreApart (any_bits self.now) (any_bits other.now) }
        ensures consecutive { IsTrue result → IsConsecutive (any_bits self.now) (any_bits other.now) }
    {
        match (self.network(), other.network()) {
            (None, _) => true,
            (Some(_), None) => false,
            (Some(network), Some(other)) => network.contains_cidr(&other),
        }
    }

    /// Whether this is `Any`. The networks 0.0.0.0/0 and ::/0 are not.
    ///
    /// ```
    /// "any".parse::<AnyIpCidr>()?.is_any() // true
    /// "0.0.0.0/0".parse::<AnyIpCidr>()?.is_any() // false
    /// ```
    pub fn is_any(&self) -> bool
        ensures { IsTrue result ↔ (self.now ≡ any_network.Any) }
    {
        matches!(self, AnyIpCidr::Any)
    }

    /// Whether this is an IPv4 network, which `Any` is not.
    ///
    /// ```
    /// "0.0.0.0/0".parse::<AnyIpCidr>()?.is_ipv4() // true
    /// ```
    pub fn is_ipv4(&self) -> bool
        ensures { IsTrue result ↔ (option_map network_family (specific self.now) ≡ Some Ipv4) }
    {
        matches!(self, AnyIpCidr::V4(_))
    }

    /// Whether this is an IPv6 network, which `Any` is not.
    ///
    /// ```
    /// "::/0".parse::<AnyIpCidr>()?.is_ipv6() // true
    /// ```
    pub fn is_ipv6(&self) -> bool
        ensures { IsTrue result ↔ (option_map network_family (specific self.now) ≡ Some Ipv6) }
    {
        matches!(self, AnyIpCidr::V6(_))
    }

    /// The printed string, in an `ArrayString`, so that nothing is allocated: `any`, or the network without a full
    /// prefix length. It has at most 43 bytes. Parsing it gives the same value.
    ///
    /// ```
    /// AnyIpCidr::Any.to_text() // any
    /// ```
    pub fn to_text(&self) -> ArrayString<43>
        ensures text { result.bytes ≡ any_network_text plain_text self.now }
        ensures len { length result.bytes ≤ 43 }
        ensures spells { IsAnyNetworkText result.bytes self.now }
    {
        match self.network() {
            None => any_text(),
            Some(network) => network.to_text(),
        }
    }

    /// Appends the printed string, as `to_text` gives it, to one that the caller has. Where there is no room for the whole
    /// of it, it fails, and the string is as it was.
    ///
    /// ```
    /// let mut text = ArrayString::<43>::new();
    /// AnyIpCidr::Any.write_to(&mut text)?;
    /// text // any
    /// ```
    pub fn write_to<const CAP: usize>(&self, text: &mut ArrayString<CAP>) -> fmt::Result
        ensures written { IsAppended CAP (any_network_text plain_text self.now) text.old.bytes text.new.bytes result }
        ensures len { length (any_network_text plain_text self.now) ≤ 43 }
    {
        append(text, self.to_text().as_str())
    }

    /// The network, to be printed with its prefix length also where that is full. `Any` stays `any`.
    ///
    /// ```
    /// "192.0.2.1".parse::<AnyIpCidr>()?.with_length() // 192.0.2.1/32
    /// ```
    pub fn with_length(&self) -> WithLength<AnyIpCidr>
        ensures { result ≡ self.now }
    {
        WithLength::new(*self)
    }
}

/// The string of `Any`.
fn any_text() -> ArrayString<43>
    ensures text { result.bytes ≡ codes "any" }
    ensures len { length result.bytes ≤ 43 }
{
    let mut text = ArrayString::new();
    text.push_str("any");
    text
}

impl WithLength<AnyIpCidr> {
    ghost use Rattle.cidr.specs.texts.Printed.{forced_text};

    /// The printed string, `any` or the network with its prefix length: at most 43 bytes. Parsing it gives the same
    /// value.
    ///
    /// ```
    /// "::1".parse::<AnyIpCidr>()?.with_length().to_text() // ::1/128
    /// ```
    pub fn to_text(&self) -> ArrayString<43>
        ensures text { result.bytes ≡ any_network_text forced_text self.now }
        ensures len { length result.bytes ≤ 43 }
        ensures spells { IsAnyNetworkText result.bytes self.now }
    {
        match self.get().network() {
            None => any_text(),
            Some(network) => network.with_length().to_text(),
        }
    }
}

impl From<Option<IpCidr>> for AnyIpCidr {
    ghost from_gives = { λ o n. n ≡ any_or o };

    fn from(network: Option<IpCidr>) -> AnyIpCidr {
        match network {
            None => AnyIpCidr::Any,
            Some(network) => AnyIpCidr::from(network),
        }
    }
}

impl From<IpCidr> for AnyIpCidr {
    ghost from_gives = { λ p n. n ≡ any_of p };

    fn from(network: IpCidr) -> AnyIpCidr {
        match network {
            IpCidr::V4(network) => AnyIpCidr::V4(network),
            IpCidr::V6(network) => AnyIpCidr::V6(network),
        }
    }
}

impl From<Ipv4Cidr> for AnyIpCidr {
    ghost from_gives = { λ p n. n ≡ any_network.V4 p };

    fn from(network: Ipv4Cidr) -> AnyIpCidr {
        AnyIpCidr::V4(network)
    }
}

impl From<Ipv6Cidr> for AnyIpCidr {
    ghost from_gives = { λ p n. n ≡ any_network.V6 p };

    fn from(network: Ipv6Cidr) -> AnyIpCidr {
        AnyIpCidr::V6(network)
    }
}

impl From<Ipv4Addr> for AnyIpCidr {
    ghost from_gives = { λ a n. (n ≡ any_network.V4 a) × IsLoneNetwork n };

    fn from(address: Ipv4Addr) -> AnyIpCidr {
        AnyIpCidr::V4(Ipv4Cidr::new_host(address))
    }
}

impl From<Ipv6Addr> for AnyIpCidr {
    ghost from_gives = { λ a n. (n ≡ any_network.V6 a) × IsLoneNetwork n };

    fn from(address: Ipv6Addr) -> AnyIpCidr {
        AnyIpCidr::V6(Ipv6Cidr::new_host(address))
    }
}

impl From<IpAddr> for AnyIpCidr {
    ghost use Rattle.cidr.specs.either.IpNetwork.{lone_network};

    ghost from_gives = { λ a n. (n ≡ any_of (lone_network a)) × IsLoneNetwork n };

    fn from(address: IpAddr) -> AnyIpCidr {
        AnyIpCidr::new_host(address)
    }
}

impl From<AnyIpCidr> for Option<IpCidr> {
    ghost from_gives = { λ n o. o ≡ specific n };

    fn from(network: AnyIpCidr) -> Option<IpCidr> {
        network.network()
    }
}

impl fmt::Display for AnyIpCidr {
    ghost use Rattle.cidr.specs.texts.Printed.{plain_text};

    ghost output = { λ n. Some (any_network_text plain_text n) };

    fn fmt<W: fmt::Write>(&self, f: &mut fmt::Formatter<W>) -> fmt::Result {
        f.write_str(self.to_text().as_str())
    }
}

impl fmt::Display for WithLength<AnyIpCidr> {
    ghost use Rattle.cidr.specs.texts.Printed.{forced_text};

    ghost output = { λ n. Some (any_network_text forced_text n) };

    fn fmt<W: fmt::Write>(&self, f: &mut fmt::Formatter<W>) -> fmt::Result {
        f.write_str(self.to_text().as_str())
    }
}
