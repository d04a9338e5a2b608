//! The address of either family.
ghost use Rattle.std.specs.Prelude.{◌≡◌, ◌↔◌, ◌≤◌, length, IsTrue, Some};
ghost use Rattle.cidr.specs.texts.AddressText.{Reads};
ghost use Rattle.cidr.specs.either.IpAddress.{address_family, IsIpText};
ghost use Rattle.cidr.specs.texts.Printed.{IsAppended};
ghost use Rattle.cidr.specs.texts.PrintedAddress.{ip_text};
ghost use Rattle.cidr.specs.texts.Messages.{ip_error};
ghost use Rattle.cidr.specs.declared.addr.ip.IpAddr.TheVariants.{V4, V6};
ghost use Rattle.cidr.specs.declared.family.Family.TheVariants.{Ipv4, Ipv6};

use crate::addr::error::AddrParseError;
use crate::addr::v4::Ipv4Addr;
use crate::addr::v6::Ipv6Addr;
use crate::cidr::combined::IpCidr;
use crate::inet::combined::IpInet;
use crate::inet_pair::combined::IpInetPair;
use crate::traits::Address;
use arrayvec::ArrayString;
use std::fmt;
use std::str::FromStr;

/// An IPv4 or an IPv6 address.
///
/// It parses an IPv4 string as `V4` and an IPv6 string as `V6`; no string is both. All IPv4 addresses come before all
/// IPv6 addresses, and those of one family are ordered by number. The IPv4-mapped address ::ffff:192.0.2.1 is an IPv6
/// address and not equal to 192.0.2.1.
///
/// ```
/// "192.0.2.1".parse::<IpAddr>()? // 192.0.2.1
/// let mapped = "::ffff:192.0.2.1".parse::<IpAddr>()?;
/// mapped == "192.0.2.1".parse()? // false
/// ```
#[derive(Clone, Copy, PartialEq, Eq, PartialOrd, Ord, Hash)]
pub enum IpAddr {
    V4(Ipv4Addr),
    V6(Ipv6Addr),
}

impl IpAddr {
    /// Whether this is an IPv4 address. An IPv4-mapped IPv6 address is none.
    ///
    /// ```
    /// "192.0.2.1".parse::<IpAddr>()?.is_ipv4() // true
    /// "::ffff:192.0.2.1".parse::<IpAddr>()?.is_ipv4() // false
    /// ```
    pub fn is_ipv4(&self) -> bool
        ensures { IsTrue result ↔ (address_family self.now ≡ Ipv4) }
    {
        matches!(self, IpAddr::V4(_))
    }

    /// Whether this is an IPv6 address, IPv4-mapped or not.
    ///
    /// ```
    /// "2001:db8::1".parse::<IpAddr>()?.is_ipv6() // true
    /// ```
    pub fn is_ipv6(&self) -> bool
        ensures { IsTrue result ↔ (address_family self.now ≡ Ipv6) }
    {
        matches!(self, IpAddr::V6(_))
    }

    /// The printed string, as the address of its family prints, in an `ArrayString`, so that nothing is allocated: at
    /// most 15 bytes in IPv4 and 39 in IPv6. Parsing it gives the same address.
    ///
    /// ```
    /// "2001:DB8::1".parse::<IpAddr>()?.to_text() // 2001:db8::1
    /// ```
    pub fn to_text(&self) -> ArrayString<39>
        ensures text { result.bytes ≡ ip_text self.now }
        ensures len { length result.bytes ≤ 39 }
        ensures spells { IsIpText result.bytes self.now }
    {
        match self {
            IpAddr::V4(address) => address.to_text(),
            IpAddr::V6(address) => address.to_text(),
        }
    }

    /// Appends the printed string, as `to_text` gives it, to one that the caller has. Where there is no room for the whole
    /// of it, it fails, and the string is as it was.
    ///
    /// ```
    /// let mut text = ArrayString::<39>::new();
    /// "2001:DB8::1".parse::<IpAddr>()?.write_to(&mut text)?;
    /// text // 2001:db8::1
    /// ```
    pub fn write_to<const CAP: usize>(&self, text: &mut ArrayString<CAP>) -> fmt::Result
        ensures written { IsAppended CAP (ip_text self.now) text.old.bytes text.new.bytes result }
        ensures len { length (ip_text self.now) ≤ 39 }
    {
        match self {
            IpAddr::V4(address) => address.write_to(text),
            IpAddr::V6(address) => address.write_to(text),
        }
    }
}

impl From<Ipv4Addr> for IpAddr {
    ghost from_gives = { λ a ip. ip ≡ V4 a };

    fn from(address: Ipv4Addr) -> IpAddr {
        IpAddr::V4(address)
    }
}

impl From<Ipv6Addr> for IpAddr {
    ghost from_gives = { λ a ip. ip ≡ V6 a };

    fn from(address: Ipv6Addr) -> IpAddr {
        IpAddr::V6(address)
    }
}

impl FromStr for IpAddr {
    type Err = AddrParseError;

    ghost from_str_gives = { Reads IsIpText ip_error };

    fn from_str(s: &str) -> Result<IpAddr, AddrParseError> {
        match s.parse::<Ipv4Addr>() {
            Ok(address) => Ok(IpAddr::V4(address)),
            Err(_) => match s.parse::<Ipv6Addr>() {
                Ok(address) => Ok(IpAddr::V6(address)),
                Err(_) => Err(AddrParseError::ip()),
            },
        }
    }
}

impl fmt::Display for IpAddr {
    ghost output = { λ a. Some (ip_text a) };

    fn fmt<W: fmt::Write>(&self, f: &mut fmt::Formatter<W>) -> fmt::Result {
        f.write_str(self.to_text().as_str())
    }
}

impl fmt::Debug for IpAddr {
    ghost debug_output = { λ a. Some (ip_text a) };

    fn fmt<W: fmt::Write>(&self, f: &mut fmt::Formatter<W>) -> fmt::Result {
        fmt::Display::fmt(self, f)
    }
}

impl Address for IpAddr {
    ghost use Rattle.std.specs.Prelude.{refl};
    ghost use Rattle.cidr.specs.model.Bits.{bit_eq};
    ghost use Rattle.cidr.specs.laws.EqualLaws.{bits_told, told_in};
    ghost use Rattle.cidr.specs.laws.TraitLaws.{apart_from_six, apart_from_four, address_v4, address_v6, ip_address_known, reads_ip_address, prints_ip_address};
    ghost use Rattle.cidr.specs.declared.addr.ip.IpAddr.TheVariants as address;

    type Inet = IpInet;

    type Cidr = IpCidr;

    type InetPair = IpInetPair;

    ghost equal = { elim [
      | address.V4 a ↦ elim [
        | address.V4 b ↦ told_in address.V4 address_v4 bit_eq bits_told a b
        | address.V6 b ↦ apart_from_six address_family (address.V4 a) (address.V6 b) refl refl
      ]
      | address.V6 a ↦ elim [
        | address.V4 b ↦ apart_from_four address_family (address.V4 b) (address.V6 a) refl refl
        | address.V6 b ↦ told_in address.V6 address_v6 bit_eq bits_told a b
      ]
    ] };

    ghost known = { ip_address_known };

    ghost ordered = { elim [
      | address.V4 a ↦ elim [ address.V4 b ↦ refl | address.V6 b ↦ refl ]
      | address.V6 a ↦ elim [ address.V4 b ↦ refl | address.V6 b ↦ refl ]
    ] };

    ghost reads = { reads_ip_address };

    ghost prints = { prints_ip_address };
}
