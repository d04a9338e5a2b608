//! Names in reverse DNS that read back, and the networks that a network is cut into.
ghost use Rattle.std.specs.Prelude.{◌≡◌, ◌<◌, ◌⊎◌, ◌∷◌, All, length, IfNone, IfSome, Some};
ghost use Rattle.std.specs.declared.cmp.Ordering.TheVariants.{Less};
ghost use Rattle.cidr.specs.model.Bits.{bit_cmp};
ghost use Rattle.cidr.specs.declared.family.Family.TheVariants.{Ipv4};
ghost use Rattle.cidr_ext.specs.model.Subnets.{HasExactlySubnets};
ghost use Rattle.cidr_uses.specs.Parts.{IsPartition};

use cidr::{Ipv4Addr, Ipv4Cidr};
use cidr_ext::laws::{printed_address_name_is_read, printed_name_is_read, subnets_ascend};
use cidr_ext::{AddressExt, AddressReverseName, CidrExt, CidrReverseName, Subnets};

/// The network that the reverse name of a network is read as, which is that network. `None` for a network that has no
/// name of its own.
pub fn network_named(network: &Ipv4Cidr) -> Option<Option<Ipv4Cidr>>
    ensures { IfSome result (λ again. again ≡ Some network.now) }
{
    printed_name_is_read();
    network.network_length();
    let name = network.reverse_name()?;
    Some(Ipv4Cidr::from_reverse_name(name.as_str()))
}

/// The address that the reverse name of an address is read as, which is that address.
pub fn address_named(address: Ipv4Addr) -> Option<Ipv4Addr>
    ensures { result ≡ Some address }
{
    printed_address_name_is_read();
    address.to_number();
    let name = address.reverse_name();
    Ipv4Addr::from_reverse_name(name.as_str())
}

/// The networks of one length that a network is cut into: each of its addresses is in exactly one of them.
pub fn parts(network: &Ipv4Cidr, len: u8) -> Option<Subnets<Ipv4Cidr>>
    ensures { IfSome result (λ parts. IsPartition 32 network.now parts) }
{
    network.subnets(len)
}

/// The lowest of the networks of one length that a network is cut into, and the others, each of which is above it: so
/// none is given twice. `None` where no network of this length lies in the network.
pub fn lowest_part(network: &Ipv4Cidr, len: u8) -> Option<(Ipv4Cidr, Subnets<Ipv4Cidr>)>
    ensures all { IfSome result (λ cut. HasExactlySubnets Ipv4 network.now len ((Ipv4, cut.0) ∷ cut.1)) }
    ensures above { IfSome result (λ cut. All (λ part. bit_cmp cut.0 part.1 ≡ Less) cut.1) }
    ensures none { IfNone result ((len < length network.now) ⊎ (32 < len)) }
{
    // the call tells the proof that the networks ascend
    subnets_ascend();
    let mut parts = network.subnets(len)?;
    let lowest = parts.next()?;
    Some((lowest, parts))
}
