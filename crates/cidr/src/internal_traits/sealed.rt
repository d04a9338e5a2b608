//! What the four traits of addresses, networks, hosts and pairs stand on: each value by its family and its bits.
//!
//! No other crate can name these traits, so that no other type implements the four.
ghost use Rattle.std.specs.Prelude.{◌≡◌, ◌≤◌, ◌↔◌, List, Bool, false, length, IsTrue};
ghost use Rattle.cidr.specs.model.Host.{Host};
ghost use Rattle.cidr.specs.model.Pair.{Pair};
ghost use Rattle.cidr.specs.model.Counted.{number_of};
ghost use Rattle.cidr.specs.model.Walk.{pair_walk, LosesFirst, LosesLast};
ghost use Rattle.cidr.specs.declared.family.Family.{Family};

use crate::num::NumberOfAddresses;

/// Tells which functions work on the numbers of IPv4 addresses.
pub struct Ipv4AddrTools {}

/// Tells which functions work on the numbers of IPv6 addresses.
pub struct Ipv6AddrTools {}

/// Tells which functions work on the addresses of either family.
pub struct IpAddrTools {}

/// An address.
pub trait PrivUnspecAddress {
    type _Tools;

    /// The family.
    ghost family_of: { Self → Family };

    /// The 32 or 128 bits, most significant first.
    ghost bits: { Self → List Bool };
}

/// A network.
pub trait PrivCidr {
    /// The family.
    ghost family_of: { Self → Family };

    /// The bits that its addresses begin with.
    ghost prefix: { Self → List Bool };
}

/// A host.
pub trait PrivInet {
    /// The family.
    ghost family_of: { Self → Family };

    /// The address and the length.
    ghost host: { Self → Host };
}

/// A pair, and its walk from the first address to the second.
pub trait PrivInetPair: Drop {
    /// The family.
    ghost family_of: { Self → Family };

    /// The two addresses and the length.
    ghost pair: { Self → Pair };

    /// How many addresses the walk has.
    fn _covered_addresses(&self) -> NumberOfAddresses
        ensures { number_of result ≡ length (pair_walk (family_of self.now) (pair self.now)) };

    /// Drops the first address of a walk of two or more. Else it returns false and changes nothing.
    fn _inc_first(&mut self) -> bool
        ensures more { IsTrue result ↔ (2 ≤ length (pair_walk (family_of self.old) (pair self.old))) }
        ensures walk { LosesFirst result (pair_walk (family_of self.old) (pair self.old))
            (pair_walk (family_of self.new) (pair self.new)) }
        ensures kept { (family_of self.new ≡ family_of self.old) × ((pair self.new).second ≡ (pair self.old).second) ×
            ((pair self.new).len ≡ (pair self.old).len) }
        ensures unchanged { (result ≡ false) → self.new ≡ self.old };

    /// Drops the last address of a walk of two or more. Else it returns false and changes nothing.
    fn _dec_second(&mut self) -> bool
        ensures more { IsTrue result ↔ (2 ≤ length (pair_walk (family_of self.old) (pair self.old))) }
        ensures walk { LosesLast result (pair_walk (family_of self.old) (pair self.old))
            (pair_walk (family_of self.new) (pair self.new)) }
        ensures kept { (family_of self.new ≡ family_of self.old) × ((pair self.new).first ≡ (pair self.old).first) ×
            ((pair self.new).len ≡ (pair self.old).len) }
        ensures unchanged { (result ≡ false) → self.new ≡ self.old };
}
