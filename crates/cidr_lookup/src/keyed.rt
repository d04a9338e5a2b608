//! Networks as keys.
ghost use Rattle.std.specs.Prelude.{◌≡◌, refl};
ghost use Rattle.cidr.specs.model.Network.{width_of};

use crate::address::Address;
use crate::halves::Ipv6Halves;
use cidr::{FamilyCidr, Ipv4Cidr, Ipv6Cidr};

/// A network of one family, whose [`Key`](crate::Key) a look-up table has: `Ipv4Cidr` and `Ipv6Cidr`.
pub trait Keyed: FamilyCidr {
    /// The numbers of its addresses.
    type Number: Address;

    /// They have as many bits as the addresses.
    ghost wide: { Self.Number.width ≡ width_of Self.FAMILY };
}

impl Keyed for Ipv4Cidr {
    type Number = u32;

    ghost wide = { refl };
}

impl Keyed for Ipv6Cidr {
    type Number = Ipv6Halves;

    ghost wide = { refl };
}
