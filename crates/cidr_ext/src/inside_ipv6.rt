//! IPv4 addresses and networks inside those of IPv6.
ghost use Rattle.std.specs.Prelude.{◌≡◌, ◌^◌, ◌<◌, ◌≤◌, ◌++◌, length, MatchOption};
ghost use Rattle.cidr.specs.model.Bits.{bits};
ghost use Rattle.cidr.specs.model.Network.{BeginsWith};
ghost use Rattle.cidr_ext.specs.model.InsideIpv6.{IsIpv4Behind, mapped_front, nat64_front, six_to_four_front};

use cidr::{Address, Cidr, Ipv4Addr, Ipv4Cidr, Ipv6Addr, Ipv6Cidr};

/// Calls on `Ipv4Addr`.
pub trait Ipv4AddrExt: Address {
    /// The IPv4-mapped IPv6 address (RFC 4291, 2.5.5.2): ::ffff:0:0/96, and then the address.
    ///
    /// ```
    /// Ipv4Addr::new(192, 0, 2, 1).to_ipv6_mapped() // ::ffff:192.0.2.1
    /// ```
    fn to_ipv6_mapped(&self) -> Ipv6Addr
        ensures { result ≡ mapped_front ++ Self.bits self.now };
}

/// Calls on `Ipv6Addr`.
pub trait Ipv6AddrExt: Address {
    /// The IPv4 address of an IPv4-mapped address (RFC 4291, 2.5.5.2), or `None` for any other one.
    ///
    /// ```
    /// "::ffff:192.0.2.1".parse::<Ipv6Addr>()?.to_ipv4_mapped() // Some(192.0.2.1)
    /// "::192.0.2.1".parse::<Ipv6Addr>()?.to_ipv4_mapped() // None
    /// ```
    fn to_ipv4_mapped(&self) -> Option<Ipv4Addr>
        ensures { MatchOption result (¬ (BeginsWith (Self.bits self.now) mapped_front))
            (λ inner. Self.bits self.now ≡ mapped_front ++ inner) };

    /// The IPv4 address of the site of a 6to4 address (RFC 3056, 2), the 32 bits behind 2002::/16, or `None` for an
    /// address outside of 2002::/16.
    ///
    /// ```
    /// "2002:c000:201::1".parse::<Ipv6Addr>()?.to_ipv4_6to4() // Some(192.0.2.1)
    /// ```
    fn to_ipv4_6to4(&self) -> Option<Ipv4Addr>
        ensures { MatchOption result (¬ (BeginsWith (Self.bits self.now) six_to_four_front))
            (IsIpv4Behind six_to_four_front (Self.bits self.now)) };

    /// The IPv4 address that stands in an address with the well-known prefix of translation (NAT64), 64:ff9b::/96
    /// (RFC 6052, 2.1), or `None` for any other one. Prefixes of an operator's own are not known.
    ///
    /// ```
    /// "64:ff9b::192.0.2.33".parse::<Ipv6Addr>()?.to_ipv4_nat64() // Some(192.0.2.33)
    /// ```
    fn to_ipv4_nat64(&self) -> Option<Ipv4Addr>
        ensures { MatchOption result (¬ (BeginsWith (Self.bits self.now) nat64_front))
            (λ inner. Self.bits self.now ≡ nat64_front ++ inner) };
}

/// Calls on `Ipv4Cidr`.
pub trait Ipv4CidrExt: Cidr {
    /// The network of the IPv4-mapped addresses (RFC 4291, 2.5.5.2) of the network, whose prefix length is larger by
    /// 96.
    ///
    /// ```
    /// "192.0.2.0/24".parse::<Ipv4Cidr>()?.to_ipv6_mapped() // ::ffff:192.0.2.0/120
    /// ```
    fn to_ipv6_mapped(&self) -> Ipv6Cidr
        ensures { result ≡ mapped_front ++ Self.prefix self.now };
}

/// Calls on `Ipv6Cidr`.
pub trait Ipv6CidrExt: Cidr {
    /// The IPv4 network of a network of IPv4-mapped addresses (RFC 4291, 2.5.5.2), whose prefix length is smaller by
    /// 96, or `None` for a network that isn't inside ::ffff:0:0/96.
    ///
    /// ```
    /// "::ffff:192.0.2.0/120".parse::<Ipv6Cidr>()?.to_ipv4_mapped() // Some(192.0.2.0/24)
    /// "::/0".parse::<Ipv6Cidr>()?.to_ipv4_mapped() // None
    /// ```
    fn to_ipv4_mapped(&self) -> Option<Ipv4Cidr>
        ensures { MatchOption result (¬ (BeginsWith (Self.prefix self.now) mapped_front))
            (λ inner. Self.prefix self.now ≡ mapped_front ++ inner) };
}

impl Ipv4AddrExt for Ipv4Addr {
    fn to_ipv6_mapped(&self) -> Ipv6Addr {
        Ipv6Addr::from_bits(0xffff_0000_0000 + u128::from(self.to_bits()))
    }
}

impl Ipv6AddrExt for Ipv6Addr {
    fn to_ipv4_mapped(&self) -> Option<Ipv4Addr> {
        ipv4_behind(*self, 0xffff, 96)
    }

    fn to_ipv4_6to4(&self) -> Option<Ipv4Addr> {
        ipv4_behind(*self, 0x2002, 16)
    }

    fn to_ipv4_nat64(&self) -> Option<Ipv4Addr> {
        ipv4_behind(*self, 0x0064_ff9b_0000_0000_0000_0000, 96)
    }
}

impl Ipv4CidrExt for Ipv4Cidr {
    fn to_ipv6_mapped(&self) -> Ipv6Cidr {
        let first = self.first_address().to_ipv6_mapped();
        Ipv6Cidr::new(first, 96 + self.network_length()).unwrap()
    }
}

impl Ipv6CidrExt for Ipv6Cidr {
    #[tactic(auto, using(crate::proofs::InsideIpv6::mapped_laws))]
    fn to_ipv4_mapped(&self) -> Option<Ipv4Cidr> {
        let len = self.network_length().checked_sub(96)?;
        let first = self.first_address().to_ipv4_mapped()?;
        Ipv4Cidr::new(first, len).ok()
    }
}

/// The 32 bits behind the first `len` bits of an IPv6 address, where these are `front`.
fn ipv4_behind(address: Ipv6Addr, front: u128, len: u8) -> Option<Ipv4Addr>
    requires within { (0 < len) × (len ≤ 96) }
    requires fits { front < 2 ^ len }
    ensures found { MatchOption result (¬ (BeginsWith address (bits len front)))
        (IsIpv4Behind (bits len front) address) }
    ensures width { length address ≡ 128 }
{
    let number = address.to_bits();
    if number >> (128 - len) == front {
        let inner = (number >> (96 - len)) % (1 << 32);
        Some(Ipv4Addr::from_bits(inner as u32))
    } else {
        None
    }
}
