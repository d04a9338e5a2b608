//! The networks of all addresses of a family.
ghost use Rattle.std.specs.Prelude.{◌≡◌, ◌≢◌, [], Bool, List, length, refl, MatchOption};
ghost use Rattle.cidr.specs.model.Network.{width_of};
ghost use Rattle.cidr_ext.specs.laws.Families.{ip_addresses};

use cidr::{BitString, Cidr, Family, IpCidr, Ipv4Cidr, Ipv6Cidr};

/// A type of networks and the families that it has networks of.
pub trait WholeFamily: Cidr {
    /// The network of all addresses of the family, or `None` where no network and no address is of that family.
    fn all_of(family: Family) -> Option<Self>
        ensures { MatchOption result (((network : Self) → Self.family_of network ≢ family) ×
            ((address : Self.Address) → Self.Address.family_of address ≢ family))
            (λ all. (Self.family_of all ≡ family) × (Self.prefix all ≡ [])) };

    /// Each list of as many bits as the addresses of a network have is an address of its family.
    ghost addresses: { (network : Self) (bits : List Bool) → length bits ≡ width_of (Self.family_of network) →
        (address : Self.Address) × (Self.Address.family_of address ≡ Self.family_of network) ×
        (Self.Address.bits address ≡ bits) };
}

impl WholeFamily for Ipv4Cidr {
    ghost addresses = { λ network bits size. (bits, refl, refl) };

    fn all_of(family: Family) -> Option<Ipv4Cidr> {
        match family {
            Family::Ipv4 => Some(Ipv4Cidr::null()),
            Family::Ipv6 => None,
        }
    }
}

impl WholeFamily for Ipv6Cidr {
    ghost addresses = { λ network bits size. (bits, refl, refl) };

    fn all_of(family: Family) -> Option<Ipv6Cidr> {
        match family {
            Family::Ipv4 => None,
            Family::Ipv6 => Some(Ipv6Cidr::null()),
        }
    }
}

impl WholeFamily for IpCidr {
    ghost addresses = { ip_addresses };

    fn all_of(family: Family) -> Option<IpCidr> {
        Some(match family {
            Family::Ipv4 => IpCidr::V4(Ipv4Cidr::null()),
            Family::Ipv6 => IpCidr::V6(Ipv6Cidr::null()),
        })
    }
}
