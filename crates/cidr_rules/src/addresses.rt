//! Addresses as the values of fields, and networks as ranges of addresses.
ghost use Rattle.std.specs.Prelude.{◌≡◌, ◌↔◌, List, Bool, true, length};
ghost use Rattle.cidr.specs.model.Bits as written;
ghost use Rattle.cidr.specs.model.Network.{BeginsWith, width_of};
ghost use Rattle.cidr_rules.specs.Packets.{is_between, range_of};

use crate::fields::{FieldValue, Range};
use cidr::{FamilyCidr, Ipv4Addr, Ipv4Cidr, Ipv6Addr, Ipv6Cidr};

impl FieldValue for Ipv4Addr {
    ghost number = { written.number };

    fn is_upto(self, other: Ipv4Addr) -> bool {
        self.to_bits() <= other.to_bits()
    }

    fn next(self, greater: Ipv4Addr) -> Ipv4Addr {
        // the call tells the proof that there is a next number
        greater.to_bits();
        let value = self.to_bits();
        Ipv4Addr::from_bits(value + 1)
    }

    fn previous(self, _less: Ipv4Addr) -> Ipv4Addr {
        let value = self.to_bits();
        Ipv4Addr::from_bits(value - 1)
    }
}

impl FieldValue for Ipv6Addr {
    ghost number = { written.number };

    fn is_upto(self, other: Ipv6Addr) -> bool {
        self.to_bits() <= other.to_bits()
    }

    fn next(self, greater: Ipv6Addr) -> Ipv6Addr {
        // the call tells the proof that there is a next number
        greater.to_bits();
        let value = self.to_bits();
        Ipv6Addr::from_bits(value + 1)
    }

    fn previous(self, _less: Ipv6Addr) -> Ipv6Addr {
        let value = self.to_bits();
        Ipv6Addr::from_bits(value - 1)
    }
}

/// Networks whose addresses are fields of packets: `Ipv4Cidr` and `Ipv6Cidr`.
pub trait Endpoint: FamilyCidr {
    /// The addresses: `Ipv4Addr` or `Ipv6Addr`.
    type Value: FieldValue;

    /// The addresses of the network.
    ///
    /// ```
    /// "192.0.2.0/24".parse::<Ipv4Cidr>()?.addresses().last // 192.0.2.255
    /// ```
    fn addresses(&self) -> Range<Self::Value>
        ensures { (a : List Bool) → length a ≡ width_of Self.FAMILY
            → (is_between (range_of Self.Value.number result) (written.number a) ≡ true) ↔ BeginsWith a (Self.bits self.now) };
}

impl Endpoint for Ipv4Cidr {
    type Value = Ipv4Addr;

    fn addresses(&self) -> Range<Ipv4Addr> {
        // the call tells the proof that the prefix length fits
        self.network_length();
        Range {
            first: self.first_address(),
            last: self.last_address(),
        }
    }
}

impl Endpoint for Ipv6Cidr {
    type Value = Ipv6Addr;

    fn addresses(&self) -> Range<Ipv6Addr> {
        // the call tells the proof that the prefix length fits
        self.network_length();
        Range {
            first: self.first_address(),
            last: self.last_address(),
        }
    }
}
