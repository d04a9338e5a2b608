//! The pair of addresses of either family.
ghost use Rattle.std.specs.Prelude.{◌≡◌, ◌≤◌, ◌↔◌, length, IfOk, IsTrue, Some};
ghost use Rattle.cidr.specs.either.IpPair.{pair_family, pair_parts, ip_pair_text};
ghost use Rattle.cidr.specs.texts.Printed.{plain_host_text, forced_host_text};
ghost use Rattle.cidr.specs.declared.inet_pair.combined.IpInetPair.TheVariants.{V4, V6};

use crate::addr::ip::IpAddr;
use crate::cidr::combined::IpCidr;
use crate::errors::InetTupleError;
use crate::family::Family;
use crate::inet::combined::IpInet;
use crate::inet_iterator::InetIterator;
use crate::inet_pair::host_pair::{Ipv4InetPair, Ipv6InetPair};
use crate::text::with_length::WithLength;
use crate::traits::InetPair;
use arrayvec::ArrayString;
use std::fmt;

/// Two addresses of one IPv4 or IPv6 network, and the prefix length of that network.
///
/// It is a range of addresses, from the first to the second inclusive. The first may be above the second; the range has
/// no address then. It is printed and not parsed, and has no order.
///
/// ```
/// let host = "2001:db8::1/127".parse::<IpInet>()?;
/// IpInetPair::new(host.first(), host)? // (2001:db8::/127, 2001:db8::1/127)
/// ```
#[derive(Clone, Copy, Debug, PartialEq, Eq, Hash)]
pub enum IpInetPair {
    V4(Ipv4InetPair),
    V6(Ipv6InetPair),
}

impl IpInetPair {
    ghost use Rattle.cidr.specs.either.IpHost.{host_family, host_parts};
    ghost use Rattle.cidr.specs.either.IpPair.{pair_host, pair_network};
    ghost use Rattle.cidr.specs.either.IpAddress.{address_family, plain_bits};
    ghost use Rattle.cidr.specs.model.Network.{width_of};
    ghost use Rattle.cidr.specs.model.Pair.{IsPair, first_of_pair, second_of_pair, pair_of, pair_from, of_one_family};
    ghost use Rattle.cidr.specs.model.Views.{seen};
    ghost use Rattle.cidr.specs.model.Walk.{pair_hosts};
    ghost use Rattle.cidr.specs.declared.family.Family.TheVariants.{Ipv4, Ipv6};

    /// The pair of two hosts. Returns `NotInSharedNetwork` for hosts of different families, of different prefix lengths
    /// or of different networks.
    ///
    /// ```
    /// let (first, second) = ("10.0.0.1/8".parse()?, "10.0.0.3/8".parse()?);
    /// IpInetPair::new(first, second)? // (10.0.0.1/8, 10.0.0.3/8)
    /// ```
    pub fn new(first: IpInet, second: IpInet) -> Result<IpInetPair, InetTupleError>
        ensures value { seen pair_parts result ≡
            of_one_family (host_family first) (host_family second) (pair_of (host_parts first) (host_parts second)) }
        ensures family { IfOk result (λ pair. pair_family pair ≡ host_family first) }
    {
        match (&first, &second) {
            (IpInet::V4(first), IpInet::V4(second)) => {
                Ok(IpInetPair::V4(Ipv4InetPair::new(*first, *second)?))
            }
            (IpInet::V6(first), IpInet::V6(second)) => {
                Ok(IpInetPair::V6(Ipv6InetPair::new(*first, *second)?))
            }
            _ => Err(InetTupleError::NotInSharedNetwork),
        }
    }

    /// The pair of two addresses in a network of this prefix length.
    ///
    /// Returns `NotInSharedNetwork` for two families, whatever the prefix length; then `NetworkLengthTooLongError` for
    /// a prefix length above the width, 32 or 128; then `NotInSharedNetwork` for addresses whose first `len` bits
    /// differ.
    ///
    /// ```
    /// let (first, second) = ("192.0.2.1".parse()?, "2001:db8::1".parse()?);
    /// IpInetPair::new_from_addresses(first, second, 0) // Err(addresses not in shared network)
    /// ```
    pub fn new_from_addresses(
        first: IpAddr,
        second: IpAddr,
        len: u8,
    ) -> Result<IpInetPair, InetTupleError>
        ensures value { seen pair_parts result ≡
            of_one_family (address_family first) (address_family second)
            (pair_from (address_family first) (plain_bits first) (plain_bits second) len) }
        ensures family { IfOk result (λ pair. pair_family pair ≡ address_family first) }
    {
        match (&first, &second) {
            (IpAddr::V4(first), IpAddr::V4(second)) => Ok(IpInetPair::V4(
                Ipv4InetPair::new_from_addresses(*first, *second, len)?,
            )),
            (IpAddr::V6(first), IpAddr::V6(second)) => Ok(IpInetPair::V6(
                Ipv6InetPair::new_from_addresses(*first, *second, len)?,
            )),
            (IpAddr::V4(_), IpAddr::V6(_)) | (IpAddr::V6(_), IpAddr::V4(_)) => {
                Err(InetTupleError::NotInSharedNetwork)
            }
        }
    }

    /// The first address, as a host with the prefix length of the pair.
    ///
    /// ```
    /// let host = "192.0.2.49/28".parse::<IpInet>()?;
    /// IpInetPair::new(host, host.last())?.first() // 192.0.2.49/28
    /// ```
    pub fn first(&self) -> IpInet
        ensures value { result ≡ pair_host first_of_pair self.now }
        ensures pair { IsPair (width_of (pair_family self.now)) (pair_parts self.now) }
    {
        match self {
            IpInetPair::V4(pair) => IpInet::V4(pair.first()),
            IpInetPair::V6(pair) => IpInet::V6(pair.first()),
        }
    }

    /// The second address, as a host with the prefix length of the pair.
    ///
    /// ```
    /// let host = "192.0.2.49/28".parse::<IpInet>()?;
    /// IpInetPair::new(host, host.last())?.second() // 192.0.2.63/28
    /// ```
    pub fn second(&self) -> IpInet
        ensures value { result ≡ pair_host second_of_pair self.now }
        ensures pair { IsPair (width_of (pair_family self.now)) (pair_parts self.now) }
    {
        match self {
            IpInetPair::V4(pair) => IpInet::V4(pair.second()),
            IpInetPair::V6(pair) => IpInet::V6(pair.second()),
        }
    }

    /// The network that both addresses are in, of the prefix length of the pair. It may have more addresses than the
    /// pair.
    ///
    /// ```
    /// let host = "192.0.2.49/28".parse::<IpInet>()?;
    /// IpInetPair::new(host, host)?.network() // 192.0.2.48/28
    /// ```
    pub fn network(&self) -> IpCidr
        ensures { result ≡ pair_network self.now }
    {
        match self {
            IpInetPair::V4(pair) => IpCidr::V4(pair.network()),
            IpInetPair::V6(pair) => IpCidr::V6(pair.network()),
        }
    }

    /// The prefix length in bits, at most 32 in IPv4 and 128 in IPv6.
    ///
    /// ```
    /// let host = "192.0.2.49/28".parse::<IpInet>()?;
    /// IpInetPair::new(host, host)?.network_length() // 28
    /// ```
    pub fn network_length(&self) -> u8
        ensures value { result ≡ (pair_parts self.now).len }
        ensures fits { result ≤ width_of (pair_family self.now) }
    {
        match self {
            IpInetPair::V4(pair) => pair.network_length(),
            IpInetPair::V6(pair) => pair.network_length(),
        }
    }

    /// The family of both addresses.
    ///
    /// ```
    /// let host = "192.0.2.49/28".parse::<IpInet>()?;
    /// IpInetPair::new(host, host)?.family() // Ipv4
    /// ```
    pub fn family(&self) -> Family
        ensures { result ≡ pair_family self.now }
    {
        match self {
            IpInetPair::V4(_) => Family::Ipv4,
            IpInetPair::V6(_) => Family::Ipv6,
        }
    }

    /// Whether this is a pair of IPv4 addresses.
    ///
    /// ```
    /// let host = "192.0.2.49/28".parse::<IpInet>()?;
    /// IpInetPair::new(host, host)?.is_ipv4() // true
    /// ```
    pub fn is_ipv4(&self) -> bool
        ensures { IsTrue result ↔ (pair_family self.now ≡ Ipv4) }
    {
        matches!(self, IpInetPair::V4(_))
    }

    /// Whether this is a pair of IPv6 addresses.
    ///
    /// ```
    /// let host = "192.0.2.49/28".parse::<IpInet>()?;
    /// IpInetPair::new(host, host)?.is_ipv6() // false
    /// ```
    pub fn is_ipv6(&self) -> bool
        ensures { IsTrue result ↔ (pair_family self.now ≡ Ipv6) }
    {
        matches!(self, IpInetPair::V6(_))
    }

    /// The hosts from the first address to the second inclusive, ascending, with the prefix length of the pair. There
    /// are none where the first is above the second.
    ///
    /// ```
    /// let host = "192.0.2.49/28".parse::<IpInet>()?;
    /// IpInetPair::new(host, host.last())?.iter().count() // Some(15)
    /// ```
    pub fn iter(self) -> InetIterator<IpAddr>
        ensures { result ≡ pair_hosts (pair_family self) (pair_parts self) }
    {
        InetIterator::_new(self)
    }

    /// The printed string, both hosts in parentheses and without a full prefix length, in an `ArrayString`, so that
    /// nothing is allocated. It has at most 90 bytes.
    ///
    /// ```
    /// let host = "192.0.2.1".parse::<IpInet>()?;
    /// IpInetPair::new(host, host)?.to_text() // (192.0.2.1, 192.0.2.1)
    /// ```
    pub fn to_text(&self) -> ArrayString<90>
        ensures text { result.bytes ≡ ip_pair_text plain_host_text self.now }
        ensures len { length result.bytes ≤ 90 }
    {
        match self {
            IpInetPair::V4(pair) => pair.to_text(),
            IpInetPair::V6(pair) => pair.to_text(),
        }
    }

    /// The pair, to be printed with its prefix lengths also where they are full.
    ///
    /// ```
    /// let host = "192.0.2.1".parse::<IpInet>()?;
    /// IpInetPair::new(host, host)?.with_length() // (192.0.2.1/32, 192.0.2.1/32)
    /// ```
    pub fn with_length(&self) -> WithLength<IpInetPair>
        ensures { result ≡ self.now }
    {
        WithLength::new(*self)
    }
}

impl WithLength<IpInetPair> {
    /// The printed string, with the prefix lengths also where they are full: at most 90 bytes.
    ///
    /// ```
    /// let host = "::1".parse::<IpInet>()?;
    /// let pair = IpInetPair::new(host, host)?;
    /// pair.with_length().to_text() // (::1/128, ::1/128)
    /// ```
    pub fn to_text(&self) -> ArrayString<90>
        ensures text { result.bytes ≡ ip_pair_text forced_host_text self.now }
        ensures len { length result.bytes ≤ 90 }
    {
        match self.get() {
            IpInetPair::V4(pair) => pair.with_length().to_text(),
            IpInetPair::V6(pair) => pair.with_length().to_text(),
        }
    }
}

impl IntoIterator for IpInetPair {
    ghost use Rattle.cidr.specs.model.Walk.{pair_hosts};

    type Item = IpInet;

    type IntoIter = InetIterator<IpAddr>;

    ghost into_iter_gives = { λ p it. it ≡ pair_hosts (pair_family p) (pair_parts p) };

    fn into_iter(self) -> InetIterator<IpAddr> {
        self.iter()
    }
}

impl From<Ipv4InetPair> for IpInetPair {
    ghost from_gives = { λ p pair. pair ≡ V4 p };

    fn from(pair: Ipv4InetPair) -> IpInetPair {
        IpInetPair::V4(pair)
    }
}

impl From<Ipv6InetPair> for IpInetPair {
    ghost from_gives = { λ p pair. pair ≡ V6 p };

    fn from(pair: Ipv6InetPair) -> IpInetPair {
        IpInetPair::V6(pair)
    }
}

impl fmt::Display for IpInetPair {
    ghost output = { λ p. Some (ip_pair_text plain_host_text p) };

    fn fmt<W: fmt::Write>(&self, f: &mut fmt::Formatter<W>) -> fmt::Result {
        f.write_str(self.to_text().as_str())
    }
}

impl fmt::Display for WithLength<IpInetPair> {
    ghost output = { λ p. Some (ip_pair_text forced_host_text p) };

    fn fmt<W: fmt::Write>(&self, f: &mut fmt::Formatter<W>) -> fmt::Result {
        f.write_str(self.to_text().as_str())
    }
}

impl InetPair for IpInetPair {
    ghost use Rattle.std.specs.Prelude.{refl};
    ghost use Rattle.cidr.specs.model.Pair.{pair_eq};
    ghost use Rattle.cidr.specs.laws.EqualLaws.{pairs_told, told_in};
    ghost use Rattle.cidr.specs.laws.TraitLaws.{apart_from_six, apart_from_four, pair_v4, pair_v6, ip_pair_known};
    ghost use Rattle.cidr.specs.declared.inet_pair.combined.IpInetPair.TheVariants as pair;

    type Address = IpAddr;

    fn new(first: IpInet, second: IpInet) -> Result<IpInetPair, InetTupleError> {
        IpInetPair::new(first, second)
    }

    fn new_from_addresses(
        first: IpAddr,
        second: IpAddr,
        len: u8,
    ) -> Result<IpInetPair, InetTupleError> {
        IpInetPair::new_from_addresses(first, second, len)
    }

    fn first(&self) -> IpInet {
        self.first()
    }

    fn second(&self) -> IpInet {
        self.second()
    }

    fn network(&self) -> IpCidr {
        self.network()
    }

    fn network_length(&self) -> u8 {
        self.network_length()
    }

    fn family(&self) -> Family {
        self.family()
    }

    fn iter(self) -> InetIterator<IpAddr> {
        self.iter()
    }

    ghost equal = { elim [
      | pair.V4 a ↦ elim [
        | pair.V4 b ↦ told_in pair.V4 pair_v4 pair_eq pairs_told a b
        | pair.V6 b ↦ apart_from_six pair_family (pair.V4 a) (pair.V6 b) refl refl
      ]
      | pair.V6 a ↦ elim [
        | pair.V4 b ↦ apart_from_four pair_family (pair.V4 b) (pair.V6 a) refl refl
        | pair.V6 b ↦ told_in pair.V6 pair_v6 pair_eq pairs_told a b
      ]
    ] };

    ghost known = { ip_pair_known };
}
