//! Networks of one family, for code that is written once over both.
ghost use Rattle.std.specs.Prelude.{◌≡◌, ◌^◌, ◌<◌, ◌≤◌, length, MatchOption};
ghost use Rattle.cidr.specs.either.IpAddress.{address_family, plain_bits};
ghost use Rattle.cidr.specs.either.IpNetwork.{network_family, network_prefix};
ghost use Rattle.cidr.specs.model.Bits.{bits, number};
ghost use Rattle.cidr.specs.model.Network.{first_of, last_of, width_of};
ghost use Rattle.cidr.specs.texts.Printed.{forced_text, longest_text, plain_text};
ghost use Rattle.cidr.specs.texts.PrintedAddress.{address_text};
ghost use Rattle.cidr.specs.declared.family.Family.{Family};
ghost use Rattle.cidr.specs.declared.family.Family.TheVariants.{Ipv4, Ipv6};

use crate::addr::ip::IpAddr;
use crate::addr::v4::Ipv4Addr;
use crate::addr::v6::Ipv6Addr;
use crate::bits::NetworkBits;
use crate::cidr::combined::IpCidr;
use crate::cidr::network::{Ipv4Cidr, Ipv6Cidr};
use crate::family::Family;
use crate::internal_traits::sealed::PrivCidr;
use crate::traits::Address;
use arrayvec::ArrayString;

/// A type of networks of one family: `Ipv4Cidr` and `Ipv6Cidr`, and no other implements it.
///
/// A function of `C: FamilyCidr` is written and proved once for both. Its clauses speak of a network by its bits, as
/// `NetworkBits` has them, and by the family of the type; whatever holds for `IpCidr` too is written over `Cidr`.
///
/// ```
/// fn size<C: FamilyCidr>(network: &C) -> u128 {
///     let (first, last) = network.ends();
///     (last - first).saturating_add(1)
/// }
/// ```
///
/// At a type:
///
/// ```
/// size(&"192.0.2.0/24".parse::<Ipv4Cidr>()?) // 256
/// ```
pub trait FamilyCidr: NetworkBits + Copy + PrivCidr {
    /// The addresses of the networks.
    type Address: Address;

    /// The family of all networks of the type, which tells how many bits an address has: 32 or 128.
    ghost FAMILY: { Family };

    /// The family of all networks of the type. `FAMILY.len()` is their width: 32 or 128.
    ///
    /// ```
    /// <Ipv6Cidr as FamilyCidr>::FAMILY.len() // 128
    /// ```
    const FAMILY: Family;

    /// The network that has only this address, of full prefix length.
    fn new_host(address: Self::Address) -> Self
        ensures bits { Self.bits result ≡ Self.Address.bits address }
        ensures full { length (Self.bits result) ≡ width_of FAMILY };

    /// The prefix length in bits, at most 32 in IPv4 and 128 in IPv6.
    fn network_length(&self) -> u8
        ensures value { result ≡ length (Self.bits self.now) }
        ensures fits { result ≤ width_of FAMILY };

    /// The first address, in which no bit after the prefix is set.
    fn first_address(&self) -> Self::Address
        ensures { Self.Address.bits result ≡ first_of (width_of FAMILY) (Self.bits self.now) };

    /// The last address, in which all bits after the prefix are set.
    fn last_address(&self) -> Self::Address
        ensures { Self.Address.bits result ≡ last_of (width_of FAMILY) (Self.bits self.now) };

    /// The numbers of the first and the last address, as `to_number` has them.
    ///
    /// ```
    /// "192.0.2.0/24".parse::<Ipv4Cidr>()?.ends() // (3221225984, 3221226239)
    /// ```
    fn ends(&self) -> (u128, u128)
        ensures first { result.0 ≡ number (first_of (width_of FAMILY) (Self.bits self.now)) }
        ensures last { result.1 ≡ number (last_of (width_of FAMILY) (Self.bits self.now)) }
        ensures fits { length (Self.bits self.now) ≤ width_of FAMILY };

    /// The number of an address, whose most significant bits are those of the first octet.
    ///
    /// ```
    /// Ipv4Cidr::to_number(Ipv4Addr::new(192, 0, 2, 1)) // 3221225985
    /// ```
    fn to_number(address: Self::Address) -> u128
        ensures value { result ≡ number (Self.Address.bits address) }
        ensures width { length (Self.Address.bits address) ≡ width_of FAMILY };

    /// The address with this number. The caller has to prove that it is below 2^32 in IPv4, or below 2^128 in IPv6, as
    /// each `u128` is.
    ///
    /// ```
    /// Ipv4Cidr::from_number(3221225985) // 192.0.2.1
    /// ```
    fn from_number(value: u128) -> Self::Address
        requires { value < 2 ^ width_of FAMILY }
        ensures { Self.Address.bits result ≡ bits (width_of FAMILY) value };

    /// The printed string, without a full prefix length: at most 18 bytes in IPv4 and 43 in IPv6.
    fn to_text(&self) -> ArrayString<43>
        ensures text { result.bytes ≡ plain_text FAMILY (Self.bits self.now) }
        ensures len { length result.bytes ≤ longest_text FAMILY };

    /// The printed string, with the prefix length also where that is full: at most 18 bytes in IPv4 and 43 in IPv6.
    ///
    /// ```
    /// "192.0.2.1".parse::<Ipv4Cidr>()?.to_text_with_length() // 192.0.2.1/32
    /// ```
    fn to_text_with_length(&self) -> ArrayString<43>
        ensures text { result.bytes ≡ forced_text FAMILY (Self.bits self.now) }
        ensures len { length result.bytes ≤ longest_text FAMILY };

    /// The printed string of an address: at most 15 bytes in IPv4 and 39 in IPv6 (RFC 5952).
    ///
    /// ```
    /// Ipv4Cidr::address_text(&Ipv4Addr::new(192, 0, 2, 1)) // 192.0.2.1
    /// ```
    fn address_text(address: &Self::Address) -> ArrayString<39>
        ensures { result.bytes ≡ address_text FAMILY (Self.Address.bits address.now) };

    /// The same network as one of either family.
    ///
    /// ```
    /// "192.0.2.0/24".parse::<Ipv4Cidr>()?.to_ip() // 192.0.2.0/24
    /// ```
    fn to_ip(&self) -> IpCidr
        ensures family { network_family result ≡ FAMILY }
        ensures prefix { network_prefix result ≡ Self.bits self.now }
        ensures fits { length (Self.bits self.now) ≤ width_of FAMILY };

    /// A network of either family as one of this, or `None` where it is of the other.
    ///
    /// ```
    /// Ipv4Cidr::from_ip("192.0.2.0/24".parse()?) // Some(192.0.2.0/24)
    /// Ipv6Cidr::from_ip("192.0.2.0/24".parse()?) // None
    /// ```
    fn from_ip(network: IpCidr) -> Option<Self>
        ensures { MatchOption result (¬ (network_family network ≡ FAMILY))
            (λ own. (network_family network ≡ FAMILY) × (Self.bits own ≡ network_prefix network)
            × (length (Self.bits own) ≤ width_of FAMILY)) };

    /// The same address as one of either family.
    ///
    /// ```
    /// Ipv4Cidr::to_ip_address(Ipv4Addr::new(192, 0, 2, 1)) // 192.0.2.1
    /// ```
    fn to_ip_address(address: Self::Address) -> IpAddr
        ensures bits { plain_bits result ≡ Self.Address.bits address }
        ensures family { address_family result ≡ FAMILY };
}

impl FamilyCidr for Ipv4Cidr {
    type Address = Ipv4Addr;

    ghost FAMILY = { Ipv4 };

    const FAMILY: Family = Family::Ipv4;

    fn new_host(address: Ipv4Addr) -> Ipv4Cidr {
        Ipv4Cidr::new_host(address)
    }

    fn network_length(&self) -> u8 {
        self.network_length()
    }

    fn first_address(&self) -> Ipv4Addr {
        self.first_address()
    }

    fn last_address(&self) -> Ipv4Addr {
        self.last_address()
    }

    #[inline(always)]
    fn ends(&self) -> (u128, u128) {
        // the call tells the proof that the prefix length fits
        self.network_length();
        let first = self.first_address().to_bits();
        let last = self.last_address().to_bits();
        (u128::from(first), u128::from(last))
    }

    #[inline(always)]
    fn to_number(address: Ipv4Addr) -> u128 {
        u128::from(address.to_bits())
    }

    #[inline(always)]
    fn from_number(value: u128) -> Ipv4Addr {
        Ipv4Addr::from_bits(value as u32)
    }

    fn to_text(&self) -> ArrayString<43> {
        self.to_text()
    }

    fn to_text_with_length(&self) -> ArrayString<43> {
        self.with_length().to_text()
    }

    fn address_text(address: &Ipv4Addr) -> ArrayString<39> {
        address.to_text()
    }

    fn to_ip(&self) -> IpCidr {
        // the call tells the proof that the prefix length fits
        self.network_length();
        IpCidr::V4(*self)
    }

    fn from_ip(network: IpCidr) -> Option<Ipv4Cidr> {
        match network {
            IpCidr::V4(network) => {
                // the call tells the proof that the prefix length fits
                network.network_length();
                Some(network)
            }
            IpCidr::V6(_) => None,
        }
    }

    fn to_ip_address(address: Ipv4Addr) -> IpAddr {
        IpAddr::V4(address)
    }
}

impl FamilyCidr for Ipv6Cidr {
    type Address = Ipv6Addr;

    ghost FAMILY = { Ipv6 };

    const FAMILY: Family = Family::Ipv6;

    fn new_host(address: Ipv6Addr) -> Ipv6Cidr {
        Ipv6Cidr::new_host(address)
    }

    fn network_length(&self) -> u8 {
        self.network_length()
    }

    fn first_address(&self) -> Ipv6Addr {
        self.first_address()
    }

    fn last_address(&self) -> Ipv6Addr {
        self.last_address()
    }

    #[inline(always)]
    fn ends(&self) -> (u128, u128) {
        // the call tells the proof that the prefix length fits
        self.network_length();
        let first = self.first_address().to_bits();
        let last = self.last_address().to_bits();
        (first, last)
    }

    #[inline(always)]
    fn to_number(address: Ipv6Addr) -> u128 {
        address.to_bits()
    }

    #[inline(always)]
    fn from_number(value: u128) -> Ipv6Addr {
        Ipv6Addr::from_bits(value)
    }

    fn to_text(&self) -> ArrayString<43> {
        self.to_text()
    }

    fn to_text_with_length(&self) -> ArrayString<43> {
        self.with_length().to_text()
    }

    fn address_text(address: &Ipv6Addr) -> ArrayString<39> {
        address.to_text()
    }

    fn to_ip(&self) -> IpCidr {
        // the call tells the proof that the prefix length fits
        self.network_length();
        IpCidr::V6(*self)
    }

    fn from_ip(network: IpCidr) -> Option<Ipv6Cidr> {
        match network {
            IpCidr::V6(network) => {
                // the call tells the proof that the prefix length fits
                network.network_length();
                Some(network)
            }
            IpCidr::V4(_) => None,
        }
    }

    fn to_ip_address(address: Ipv6Addr) -> IpAddr {
        IpAddr::V6(address)
    }
}
