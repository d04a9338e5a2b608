//! The host of either family.
//!
//! Its compact bytes stand in `compact::either_family`.
ghost use Rattle.std.specs.Prelude.{◌≡◌, ◌+◌, ◌-◌, ◌<◌, ◌≤◌, ◌↔◌, length, IsTrue, IfSome, Some};
ghost use Rattle.cidr.specs.either.IpHost.{host_family, host_parts, host_by, lone_ip_host};
ghost use Rattle.cidr.specs.either.IpText.{IsIpHostText, ip_host_text};
ghost use Rattle.cidr.specs.model.Host.{host_part, host_count, with_host_part};
ghost use Rattle.cidr.specs.model.Network.{width_of};
ghost use Rattle.cidr.specs.texts.Printed.{plain_host_text, forced_host_text, IsAppended};
ghost use Rattle.cidr.specs.declared.inet.combined.IpInet.TheVariants.{V4, V6};

use crate::addr::ip::IpAddr;
use crate::addr::v4::Ipv4Addr;
use crate::addr::v6::Ipv6Addr;
use crate::cidr::combined::IpCidr;
use crate::errors::{NetworkLengthTooLongError, NetworkParseError};
use crate::family::Family;
use crate::inet::host::{Ipv4Inet, Ipv6Inet};
use crate::text::print::append;
use crate::text::read::{cut_at_last_slash, read_length};
use crate::text::with_length::WithLength;
use crate::traits::Inet;
use arrayvec::ArrayString;
use std::fmt;
use std::ops::{Add, Sub};
use std::str::FromStr;

/// An IPv4 or an IPv6 host: an address in its network.
///
/// All IPv4 hosts come before all IPv6 hosts, and those of one family are ordered by address and then by prefix length.
/// A string is parsed as that of `IpCidr` is, but that a set bit after the prefix is no error. Steps stay in the
/// network.
///
/// ```
/// "2001:db8::5/32".parse::<IpInet>()? // 2001:db8::5/32
/// ```
#[derive(Clone, Copy, Debug, PartialEq, Eq, PartialOrd, Ord, Hash)]
pub enum IpInet {
    V4(Ipv4Inet),
    V6(Ipv6Inet),
}

impl IpInet {
    ghost use Rattle.cidr.specs.either.IpNetwork.{address_by, network_bits};
    ghost use Rattle.cidr.specs.either.IpHost.{IsIpHost, IpWrapsUp, IpWrapsDown, ip_stepped_up, ip_stepped_down, neighbour_by, host_address, host_network, host_at, ip_host_from};
    ghost use Rattle.cidr.specs.model.Host.{first_host, last_host, next_of, previous_of};
    ghost use Rattle.cidr.specs.either.IpAddress.{ip_address_bits};
    ghost use Rattle.cidr.specs.model.Network.{first_of, last_of, mask_of, BeginsWith};
    ghost use Rattle.cidr.specs.declared.family.Family.TheVariants.{Ipv4, Ipv6};

    /// The host of an address in the network of its first `len` bits, of its family.
    ///
    /// Returns an error only for a prefix length above the width, 32 or 128.
    ///
    /// ```
    /// IpInet::new("2001:db8::5".parse()?, 32)? // 2001:db8::5/32
    /// IpInet::new("192.0.2.50".parse()?, 33).is_err() // true
    /// ```
    pub fn new(addr: IpAddr, len: u8) -> Result<IpInet, NetworkLengthTooLongError>
        ensures { result ≡ ip_host_from addr len }
    {
        match addr {
            IpAddr::V4(addr) => Ok(IpInet::V4(Ipv4Inet::new(addr, len)?)),
            IpAddr::V6(addr) => Ok(IpInet::V6(Ipv6Inet::new(addr, len)?)),
        }
    }

    /// The host of full prefix length, whose network has only this address: /32 in IPv4 and /128 in IPv6.
    ///
    /// ```
    /// IpInet::new_host("192.0.2.1".parse()?) // 192.0.2.1
    /// ```
    pub fn new_host(addr: IpAddr) -> IpInet
        ensures { result ≡ lone_ip_host addr }
    {
        match addr {
            IpAddr::V4(addr) => IpInet::V4(Ipv4Inet::new_host(addr)),
            IpAddr::V6(addr) => IpInet::V6(Ipv6Inet::new_host(addr)),
        }
    }

    /// Steps to the next address of the network. From the last one it wraps to the first, and returns true.
    ///
    /// ```
    /// let mut host = "192.0.2.63/28".parse::<IpInet>()?;
    /// host.increment() // true
    /// host // 192.0.2.48/28
    /// ```
    pub fn increment(&mut self) -> bool
        ensures stepped { self.new ≡ ip_stepped_up self.old 1 }
        ensures wraps { IsTrue result ↔ IpWrapsUp self.old 1 }
    {
        match self {
            IpInet::V4(host) => host.increment(),
            IpInet::V6(host) => host.increment(),
        }
    }

    /// Steps to the previous address of the network. From the first one it wraps to the last, and returns true.
    ///
    /// ```
    /// let mut host = "2001:db8::/112".parse::<IpInet>()?;
    /// host.decrement() // true
    /// host // 2001:db8::ffff/112
    /// ```
    pub fn decrement(&mut self) -> bool
        ensures stepped { self.new ≡ ip_stepped_down self.old 1 }
        ensures wraps { IsTrue result ↔ IpWrapsDown self.old 1 }
    {
        match self {
            IpInet::V4(host) => host.decrement(),
            IpInet::V6(host) => host.decrement(),
        }
    }

    /// The host at the next address of the network, or `None` at the last one. It takes and returns a value, and is not
    /// `Iterator::next`.
    ///
    /// ```
    /// "192.0.2.62/28".parse::<IpInet>()?.next() // Some(V4(192.0.2.63/28))
    /// "192.0.2.63/28".parse::<IpInet>()?.next() // None
    /// ```
    pub fn next(self) -> Option<IpInet>
        ensures host { result ≡ neighbour_by next_of self }
        ensures back { IfSome result (λ next. neighbour_by previous_of next ≡ Some self) }
    {
        match self {
            IpInet::V4(host) => Some(IpInet::V4(host.next()?)),
            IpInet::V6(host) => Some(IpInet::V6(host.next()?)),
        }
    }

    /// The host at the previous address of the network, or `None` at the first one.
    ///
    /// ```
    /// "2001:db8::5/32".parse::<IpInet>()?.previous() // Some(V6(2001:db8::4/32))
    /// ```
    pub fn previous(self) -> Option<IpInet>
        ensures host { result ≡ neighbour_by previous_of self }
        ensures back { IfSome result (λ previous. neighbour_by next_of previous ≡ Some self) }
    {
        match self {
            IpInet::V4(host) => Some(IpInet::V4(host.previous()?)),
            IpInet::V6(host) => Some(IpInet::V6(host.previous()?)),
        }
    }

    /// The host `step` addresses further in the network, and whether it wrapped from the last address to the first.
    ///
    /// Any step is exact, also one above the number of addresses, and takes constant time. Where it does not wrap, `+`
    /// returns the same host.
    ///
    /// ```
    /// let host = "192.0.2.50/28".parse::<IpInet>()?;
    /// host.overflowing_add(14) // (V4(192.0.2.48/28), true)
    /// ```
    pub fn overflowing_add(self, step: u128) -> (IpInet, bool)
        ensures stepped { result.0 ≡ ip_stepped_up self step }
        ensures wraps { IsTrue result.1 ↔ IpWrapsUp self step }
        ensures back { ip_stepped_down result.0 step ≡ self }
        ensures host { IsIpHost self }
    {
        match self {
            IpInet::V4(host) => {
                let (stepped, wraps) = host.overflowing_add(step);
                (IpInet::V4(stepped), wraps)
            }
            IpInet::V6(host) => {
                let (stepped, wraps) = host.overflowing_add(step);
                (IpInet::V6(stepped), wraps)
            }
        }
    }

    /// The host `step` addresses back in the network, and whether it wrapped from the first address to the last.
    ///
    /// Any step is exact, also one above the number of addresses, and takes constant time. Where it does not wrap, `-`
    /// returns the same host.
    ///
    /// ```
    /// "10.0.0.7/29".parse::<IpInet>()?.overflowing_sub(8) // (V4(10.0.0.7/29), true)
    /// ```
    pub fn overflowing_sub(self, step: u128) -> (IpInet, bool)
        ensures stepped { result.0 ≡ ip_stepped_down self step }
        ensures wraps { IsTrue result.1 ↔ IpWrapsDown self step }
        ensures back { ip_stepped_up result.0 step ≡ self }
        ensures host { IsIpHost self }
    {
        match self {
            IpInet::V4(host) => {
                let (stepped, wraps) = host.overflowing_sub(step);
                (IpInet::V4(stepped), wraps)
            }
            IpInet::V6(host) => {
                let (stepped, wraps) = host.overflowing_sub(step);
                (IpInet::V6(stepped), wraps)
            }
        }
    }

    /// The network that the host is in: the bits after the prefix are unset.
    ///
    /// ```
    /// "2001:db8::5/32".parse::<IpInet>()?.network() // 2001:db8::/32
    /// ```
    pub fn network(&self) -> IpCidr
        ensures { result ≡ host_network self.now }
    {
        match self {
            IpInet::V4(host) => IpCidr::V4(host.network()),
            IpInet::V6(host) => IpCidr::V6(host.network()),
        }
    }

    /// The address, without the prefix length.
    ///
    /// ```
    /// "2001:db8::5/32".parse::<IpInet>()?.address() // 2001:db8::5
    /// ```
    pub fn address(&self) -> IpAddr
        ensures value { result ≡ host_address self.now }
        ensures width { length (host_parts self.now).address ≡ width_of (host_family self.now) }
    {
        match self {
            IpInet::V4(host) => IpAddr::V4(host.address()),
            IpInet::V6(host) => IpAddr::V6(host.address()),
        }
    }

    /// The first address of the network, in which no bit after the prefix is set: in IPv4 the network address, up to
    /// /30.
    ///
    /// ```
    /// "192.0.2.50/28".parse::<IpInet>()?.first_address() // 192.0.2.48
    /// ```
    pub fn first_address(&self) -> IpAddr
        ensures { result ≡ address_by first_of (host_network self.now) }
    {
        match self {
            IpInet::V4(host) => IpAddr::V4(host.first_address()),
            IpInet::V6(host) => IpAddr::V6(host.first_address()),
        }
    }

    /// The last address of the network, in which all bits after the prefix are set: in IPv4 the broadcast address, up
    /// to /30.
    ///
    /// ```
    /// "192.0.2.50/28".parse::<IpInet>()?.last_address() // 192.0.2.63
    /// ```
    pub fn last_address(&self) -> IpAddr
        ensures { result ≡ address_by last_of (host_network self.now) }
    {
        match self {
            IpInet::V4(host) => IpAddr::V4(host.last_address()),
            IpInet::V6(host) => IpAddr::V6(host.last_address()),
        }
    }

    /// The host at the first address of the network, with the same prefix length.
    ///
    /// ```
    /// "10.4.3.2/8".parse::<IpInet>()?.first() // 10.0.0.0/8
    /// ```
    pub fn first(&self) -> IpInet
        ensures { result ≡ host_at first_host (host_network self.now) }
    {
        match self {
            IpInet::V4(host) => IpInet::V4(host.first()),
            IpInet::V6(host) => IpInet::V6(host.first()),
        }
    }

    /// The host at the last address of the network, with the same prefix length.
    ///
    /// ```
    /// "10.4.3.2/8".parse::<IpInet>()?.last() // 10.255.255.255/8
    /// ```
    pub fn last(&self) -> IpInet
        ensures { result ≡ host_at last_host (host_network self.now) }
    {
        match self {
            IpInet::V4(host) => IpInet::V4(host.last()),
            IpInet::V6(host) => IpInet::V6(host.last()),
        }
    }

    /// The prefix length in bits, at most 32 in IPv4 and 128 in IPv6.
    ///
    /// ```
    /// "2001:db8::5/32".parse::<IpInet>()?.network_length() // 32
    /// ```
    pub fn network_length(&self) -> u8
        ensures value { result ≡ (host_parts self.now).len }
        ensures fits { result ≤ width_of (host_family self.now) }
    {
        match self {
            IpInet::V4(host) => host.network_length(),
            IpInet::V6(host) => host.network_length(),
        }
    }

    /// The family of the address.
    ///
    /// ```
    /// "2001:db8::5/32".parse::<IpInet>()?.family() // Ipv6
    /// ```
    pub fn family(&self) -> Family
        ensures { result ≡ host_family self.now }
    {
        match self {
            IpInet::V4(_) => Family::Ipv4,
            IpInet::V6(_) => Family::Ipv6,
        }
    }

    /// Whether the network of the host has only one address, that is, whether the prefix length is full: 32 in IPv4 and
    /// 128 in IPv6.
    ///
    /// ```
    /// "192.0.2.50".parse::<IpInet>()?.is_host_address() // true
    /// ```
    pub fn is_host_address(&self) -> bool
        ensures { IsTrue result ↔ ((host_parts self.now).len ≡ width_of (host_family self.now)) }
    {
        match self {
            IpInet::V4(host) => host.is_host_address(),
            IpInet::V6(host) => host.is_host_address(),
        }
    }

    /// The network mask: as many set bits as the prefix length says, then zeros.
    ///
    /// ```
    /// "192.0.2.50/28".parse::<IpInet>()?.mask() // 255.255.255.240
    /// ```
    pub fn mask(&self) -> IpAddr
        ensures { result ≡ address_by mask_of (host_network self.now) }
    {
        match self {
            IpInet::V4(host) => IpAddr::V4(host.mask()),
            IpInet::V6(host) => IpAddr::V6(host.mask()),
        }
    }

    /// Whether the address is in the network of the host, that is, of its family and begins with its prefix.
    ///
    /// No network contains an address of the other family: an IPv4-mapped IPv6 address is in no IPv4 network.
    ///
    /// ```
    /// let host = "192.0.2.50/28".parse::<IpInet>()?;
    /// host.contains(&"192.0.2.63".parse()?) // true
    /// host.contains(&"::ffff:192.0.2.63".parse()?) // false
    /// ```
    pub fn contains(&self, addr: &IpAddr) -> bool
        ensures { IsTrue result ↔ BeginsWith (ip_address_bits addr.now) (network_bits (host_network self.now)) }
    {
        match (self, addr) {
            (IpInet::V4(host), IpAddr::V4(addr)) => host.contains(addr),
            (IpInet::V6(host), IpAddr::V6(addr)) => host.contains(addr),
            _ => false,
        }
    }

    /// Whether this is an IPv4 host.
    ///
    /// ```
    /// "192.0.2.50/28".parse::<IpInet>()?.is_ipv4() // true
    /// ```
    pub fn is_ipv4(&self) -> bool
        ensures { IsTrue result ↔ (host_family self.now ≡ Ipv4) }
    {
        matches!(self, IpInet::V4(_))
    }

    /// Whether this is an IPv6 host, also where its address is IPv4-mapped.
    ///
    /// ```
    /// "::ffff:192.0.2.50/124".parse::<IpInet>()?.is_ipv6() // true
    /// ```
    pub fn is_ipv6(&self) -> bool
        ensures { IsTrue result ↔ (host_family self.now ≡ Ipv6) }
    {
        matches!(self, IpInet::V6(_))
    }

    /// The printed string, with all bits of the address and without a full prefix length, in an `ArrayString`, so that
    /// nothing is allocated. It has at most 18 bytes in IPv4 and 43 in IPv6. Parsing it gives the same host.
    ///
    /// ```
    /// "10.4.3.2/8".parse::<IpInet>()?.to_text() // 10.4.3.2/8
    /// ```
    pub fn to_text(&self) -> ArrayString<43>
        ensures text { result.bytes ≡ ip_host_text plain_host_text self.now }
        ensures len { length result.bytes ≤ 43 }
        ensures spells { IsIpHostText result.bytes self.now }
    {
        match self {
            IpInet::V4(host) => host.to_text(),
            IpInet::V6(host) => host.to_text(),
        }
    }

    /// Appends the printed string, as `to_text` gives it, to one that the caller has. Where there is no room for the whole
    /// of it, it fails, and the string is as it was.
    ///
    /// ```
    /// let mut text = ArrayString::<43>::new();
    /// "10.4.3.2/8".parse::<IpInet>()?.write_to(&mut text)?;
    /// text // 10.4.3.2/8
    /// ```
    pub fn write_to<const CAP: usize>(&self, text: &mut ArrayString<CAP>) -> fmt::Result
        ensures written { IsAppended CAP (ip_host_text plain_host_text self.now) text.old.bytes text.new.bytes result }
        ensures len { length (ip_host_text plain_host_text self.now) ≤ 43 }
    {
        append(text, self.to_text().as_str())
    }

    /// The host, to be printed with its prefix length also where that is full.
    ///
    /// ```
    /// "10.0.0.1".parse::<IpInet>()?.with_length() // 10.0.0.1/32
    /// ```
    pub fn with_length(&self) -> WithLength<IpInet>
        ensures { result ≡ self.now }
    {
        WithLength::new(*self)
    }
}

impl WithLength<IpInet> {
    /// The printed string, with the prefix length also where that is full: at most 18 bytes in IPv4 and 43 in IPv6.
    /// Parsing it gives the same host.
    ///
    /// ```
    /// "::1".parse::<IpInet>()?.with_length().to_text() // ::1/128
    /// ```
    pub fn to_text(&self) -> ArrayString<43>
        ensures text { result.bytes ≡ ip_host_text forced_host_text self.now }
        ensures len { length result.bytes ≤ 43 }
        ensures spells { IsIpHostText result.bytes self.now }
    {
        match self.get() {
            IpInet::V4(host) => host.with_length().to_text(),
            IpInet::V6(host) => host.with_length().to_text(),
        }
    }
}

impl From<Ipv4Inet> for IpInet {
    ghost from_gives = { λ h host. host ≡ V4 h };

    fn from(host: Ipv4Inet) -> IpInet {
        IpInet::V4(host)
    }
}

impl From<Ipv6Inet> for IpInet {
    ghost from_gives = { λ h host. host ≡ V6 h };

    fn from(host: Ipv6Inet) -> IpInet {
        IpInet::V6(host)
    }
}

impl From<Ipv4Addr> for IpInet {
    ghost use Rattle.cidr.specs.model.Host.{lone_host};

    ghost from_gives = { λ a host. host ≡ V4 (lone_host 32 a) };

    fn from(address: Ipv4Addr) -> IpInet {
        IpInet::V4(Ipv4Inet::new_host(address))
    }
}

impl From<Ipv6Addr> for IpInet {
    ghost use Rattle.cidr.specs.model.Host.{lone_host};

    ghost from_gives = { λ a host. host ≡ V6 (lone_host 128 a) };

    fn from(address: Ipv6Addr) -> IpInet {
        IpInet::V6(Ipv6Inet::new_host(address))
    }
}

impl From<IpAddr> for IpInet {
    ghost from_gives = { λ a host. host ≡ lone_ip_host a };

    fn from(address: IpAddr) -> IpInet {
        IpInet::new_host(address)
    }
}

impl FromStr for IpInet {
    ghost use Rattle.cidr.specs.either.IpText.{ReadsIpHost};

    type Err = NetworkParseError;

    ghost from_str_gives = { ReadsIpHost };

    fn from_str(s: &str) -> Result<IpInet, NetworkParseError> {
        let Some((front, back)) = cut_at_last_slash(s) else {
            return Ok(IpInet::new_host(s.parse::<IpAddr>()?));
        };
        let address = front.parse::<IpAddr>()?;
        let len = read_length(back)?;
        Ok(IpInet::new(address, len)?)
    }
}

impl fmt::Display for IpInet {
    ghost output = { λ h. Some (ip_host_text plain_host_text h) };

    fn fmt<W: fmt::Write>(&self, f: &mut fmt::Formatter<W>) -> fmt::Result {
        f.write_str(self.to_text().as_str())
    }
}

impl fmt::Display for WithLength<IpInet> {
    ghost output = { λ h. Some (ip_host_text forced_host_text h) };

    fn fmt<W: fmt::Write>(&self, f: &mut fmt::Formatter<W>) -> fmt::Result {
        f.write_str(self.to_text().as_str())
    }
}

/// The host `step` addresses further in the network, as `overflowing_add` returns it. The caller has to prove that the
/// step does not wrap; `overflowing_add` and `next` tell whether it does.
impl Add<u128> for IpInet {
    type Output = IpInet;

    ghost can_add = { λ h s. host_part (host_parts h) + s < host_count (width_of (host_family h)) (host_parts h) };

    ghost add_gives = { λ h s r. r ≡ host_by (λ w host. with_host_part w host (host_part host + s)) h };

    fn add(self, step: u128) -> IpInet {
        match self {
            IpInet::V4(host) => IpInet::V4(host + step),
            IpInet::V6(host) => IpInet::V6(host + step),
        }
    }
}

/// The host `step` addresses back in the network, as `overflowing_sub` returns it. The caller has to prove that the
/// step does not wrap; `overflowing_sub` and `previous` tell whether it does.
impl Sub<u128> for IpInet {
    type Output = IpInet;

    ghost can_sub = { λ h s. s ≤ host_part (host_parts h) };

    ghost sub_gives = { λ h s r. r ≡ host_by (λ w host. with_host_part w host (host_part host - s)) h };

    fn sub(self, step: u128) -> IpInet {
        match self {
            IpInet::V4(host) => IpInet::V4(host - step),
            IpInet::V6(host) => IpInet::V6(host - step),
        }
    }
}

impl Inet for IpInet {
    ghost use Rattle.std.specs.Prelude.{refl};
    ghost use Rattle.cidr.specs.model.Host.{host_eq};
    ghost use Rattle.cidr.specs.laws.EqualLaws.{hosts_told, told_in};
    ghost use Rattle.cidr.specs.laws.TraitLaws.{apart_from_six, apart_from_four, host_v4, host_v6, ip_host_known, reads_ip_host, prints_ip_host};
    ghost use Rattle.cidr.specs.declared.inet.combined.IpInet.TheVariants as host;

    type Address = IpAddr;

    fn new(addr: IpAddr, len: u8) -> Result<IpInet, NetworkLengthTooLongError> {
        IpInet::new(addr, len)
    }

    fn new_host(addr: IpAddr) -> IpInet {
        IpInet::new_host(addr)
    }

    fn increment(&mut self) -> bool {
        self.increment()
    }

    fn decrement(&mut self) -> bool {
        self.decrement()
    }

    fn next(self) -> Option<IpInet> {
        self.next()
    }

    fn previous(self) -> Option<IpInet> {
        self.previous()
    }

    fn overflowing_add(self, step: u128) -> (IpInet, bool) {
        self.overflowing_add(step)
    }

    fn overflowing_sub(self, step: u128) -> (IpInet, bool) {
        self.overflowing_sub(step)
    }

    fn network(&self) -> IpCidr {
        self.network()
    }

    fn address(&self) -> IpAddr {
        self.address()
    }

    fn first_address(&self) -> IpAddr {
        self.first_address()
    }

    fn first(&self) -> IpInet {
        self.first()
    }

    fn last_address(&self) -> IpAddr {
        self.last_address()
    }

    fn last(&self) -> IpInet {
        self.last()
    }

    fn network_length(&self) -> u8 {
        self.network_length()
    }

    fn family(&self) -> Family {
        self.family()
    }

    fn is_host_address(&self) -> bool {
        self.is_host_address()
    }

    fn mask(&self) -> IpAddr {
        self.mask()
    }

    fn contains(&self, addr: &IpAddr) -> bool {
        self.contains(addr)
    }

    ghost equal = { elim [
      | host.V4 a ↦ elim [
        | host.V4 b ↦ told_in host.V4 host_v4 host_eq hosts_told a b
        | host.V6 b ↦ apart_from_six host_family (host.V4 a) (host.V6 b) refl refl
      ]
      | host.V6 a ↦ elim [
        | host.V4 b ↦ apart_from_four host_family (host.V4 b) (host.V6 a) refl refl
        | host.V6 b ↦ told_in host.V6 host_v6 host_eq hosts_told a b
      ]
    ] };

    ghost known = { ip_host_known };

    ghost ordered = { elim [
      | host.V4 a ↦ elim [ host.V4 b ↦ refl | host.V6 b ↦ refl ]
      | host.V6 a ↦ elim [ host.V4 b ↦ refl | host.V6 b ↦ refl ]
    ] };

    ghost reads = { reads_ip_host };

    ghost prints = { prints_ip_host };
}
