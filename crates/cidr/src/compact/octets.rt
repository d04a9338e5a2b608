//! The compact bytes of an address with a prefix length.
ghost use Rattle.std.specs.Prelude.{◌≡◌, ◌≤◌};
ghost use Rattle.cidr.specs.bytes.Compact.{host_bytes};
ghost use Rattle.cidr.specs.internal.Fronts.{TakesHost};
ghost use Rattle.cidr.specs.model.Host.{host_of};
ghost use Rattle.cidr.specs.model.Network.{width_of};
ghost use Rattle.cidr.specs.model.Views.{seen};

use crate::addr::v4::Ipv4Addr;
use crate::addr::v6::Ipv6Addr;
use crate::compact::front::{Front, read_front};
use crate::errors::CompactError;
use crate::family::Family;
use crate::internal_traits::address_bits::AddressBits;
use arrayvec::ArrayVec;

/// An address that is written as a tag and octets.
pub trait AddressOctets: AddressBits {
    /// The compact bytes of this address with a prefix length.
    fn compact(self, len: u8) -> ArrayVec<u8, 17>
        requires { len ≤ width_of Self.FAMILY }
        ensures { result.items ≡ host_bytes Self.FAMILY (host_of (Self.bits self) len) };

    /// The address and the prefix length that compact bytes begin with, if they are of this family.
    fn take_compact(bytes: &[u8]) -> Result<(Self, u8), CompactError>
        ensures { TakesHost Self.FAMILY bytes.now (seen (λ p. (Self.bits p.0, p.1)) result) };
}

impl AddressOctets for Ipv4Addr {
    fn compact(self, len: u8) -> ArrayVec<u8, 17> {
        let [a, b, c, d] = self.octets();
        let mut bytes = ArrayVec::from([len, a, b, c, d, 0, 0, 0, 0, 0, 0, 0, 0, 0, 0, 0, 0]);
        bytes.truncate(5);
        bytes
    }

    fn take_compact(bytes: &[u8]) -> Result<(Ipv4Addr, u8), CompactError> {
        match read_front(bytes)? {
            Front::V4(address, len) => Ok((address, len)),
            Front::V6(_, _) => Err(CompactError::InvalidFamily(Family::Ipv6)),
            Front::Any => Err(CompactError::InvalidAny),
        }
    }
}

impl AddressOctets for Ipv6Addr {
    fn compact(self, len: u8) -> ArrayVec<u8, 17> {
        let [a, b, c, d, e, f, g, h, i, j, k, l, m, n, o, p] = self.octets();
        ArrayVec::from([0x40 + len, a, b, c, d, e, f, g, h, i, j, k, l, m, n, o, p])
    }

    fn take_compact(bytes: &[u8]) -> Result<(Ipv6Addr, u8), CompactError> {
        match read_front(bytes)? {
            Front::V6(address, len) => Ok((address, len)),
            Front::V4(_, _) => Err(CompactError::InvalidFamily(Family::Ipv4)),
            Front::Any => Err(CompactError::InvalidAny),
        }
    }
}
