//! Addresses as numbers.
ghost use Rattle.std.specs.Prelude.{◌≡◌, ◌-◌, ◌<◌, ◌≤◌, ℕ, length, MatchOption};
ghost use Rattle.cidr_ext.specs.model.Inside.{IsHostMaskOf, IsMaskOf};
ghost use Rattle.cidr.specs.model.Bits.{number};
ghost use Rattle.cidr.specs.model.Network.{width_of};

use crate::shifts::{count_of_ones, greatest};
use cidr::{Address, Family, IpAddr, Ipv4Addr, Ipv6Addr};

/// Numbers and masks of addresses of the types `Ipv4Addr`, `Ipv6Addr` and `IpAddr`. No call allocates, and each takes
/// constant time.
pub trait AddressExt: Address {
    /// The address as a number, whose most significant bits are those of the first octet: below 2^32 in IPv4.
    ///
    /// ```
    /// "192.0.2.1".parse::<IpAddr>()?.to_number() // 3221225985
    /// ```
    fn to_number(self) -> u128
        ensures value { result ≡ number (Self.bits self) }
        ensures width { length (Self.bits self) ≡ width_of (Self.family_of self) };

    /// The family of the address.
    ///
    /// ```
    /// Ipv4Addr::new(192, 0, 2, 1).family() // Ipv4
    /// ```
    fn family(self) -> Family
        ensures { result ≡ Self.family_of self };

    /// The prefix length of a network mask, from 0 to the width, 32 or 128, or `None` where the address is none: where
    /// a set bit follows an unset one.
    ///
    /// ```
    /// Ipv4Addr::new(255, 255, 255, 240).mask_length() // Some(28)
    /// Ipv4Addr::new(255, 0, 255, 0).mask_length() // None
    /// ```
    fn mask_length(self) -> Option<u8>
        ensures { MatchOption result
            ((n : ℕ) → ¬ (IsMaskOf (width_of (Self.family_of self)) n (Self.bits self)))
            (λ n. IsMaskOf (width_of (Self.family_of self)) n (Self.bits self)) }
    {
        let width = self.family().len();
        prefix_length(width, count_of_ones(greatest(width) - self.to_number()))
    }

    /// The prefix length of a host mask, the inverse of a network mask, or `None` where the address is none: where an
    /// unset bit follows a set one. Of 0.0.0.0 it is 32, of 255.255.255.255 it is 0.
    ///
    /// ```
    /// Ipv4Addr::new(0, 0, 0, 15).host_mask_length() // Some(28)
    /// ```
    fn host_mask_length(self) -> Option<u8>
        ensures { MatchOption result
            ((n : ℕ) → ¬ (IsHostMaskOf (width_of (Self.family_of self)) n (Self.bits self)))
            (λ n. IsHostMaskOf (width_of (Self.family_of self)) n (Self.bits self)) }
    {
        let width = self.family().len();
        prefix_length(width, count_of_ones(self.to_number()))
    }
}

impl AddressExt for Ipv4Addr {
    fn to_number(self) -> u128 {
        u128::from(self.to_bits())
    }

    fn family(self) -> Family {
        Family::Ipv4
    }
}

impl AddressExt for Ipv6Addr {
    fn to_number(self) -> u128 {
        self.to_bits()
    }

    fn family(self) -> Family {
        Family::Ipv6
    }
}

impl AddressExt for IpAddr {
    fn to_number(self) -> u128 {
        match self {
            IpAddr::V4(address) => address.to_number(),
            IpAddr::V6(address) => address.to_number(),
        }
    }

    fn family(self) -> Family {
        match self {
            IpAddr::V4(_) => Family::Ipv4,
            IpAddr::V6(_) => Family::Ipv6,
        }
    }
}

/// The prefix length of a mask with so many bits for hosts.
fn prefix_length(width: u8, host_bits: Option<u8>) -> Option<u8>
    ensures { MatchOption host_bits (result ≡ None)
        (λ k. MatchOption result (width < k) (λ n. (k ≤ width) × (n ≡ width - k))) }
{
    match host_bits {
        Some(host_bits) => width.checked_sub(host_bits),
        None => None,
    }
}
