//! The network of an address, as it is printed.
ghost use Rattle.std.specs.Prelude.{◌≡◌, ◌≤◌, length, take};
ghost use Rattle.cidr.specs.either.IpAddress.{address_family, plain_bits};
ghost use Rattle.cidr.specs.model.Network.{width_of};
ghost use Rattle.cidr.specs.texts.Printed.{plain_text};

use arrayvec::ArrayString;
use cidr::{BitString, FamilyCidr, IpAddr, Ipv4Cidr, Ipv6Cidr};

/// The network of the first `len` bits of an address; of the address itself where `len` is above its width.
pub(crate) fn network_around<C: FamilyCidr>(address: C::Address, len: u8) -> C
    ensures bits { C.bits result ≡ take len (C.Address.bits address) }
    ensures wide { length (C.Address.bits address) ≡ width_of C.FAMILY }
{
    let mut network = C::new_host(address);
    network.clip(usize::from(len));
    network
}

/// The network of the first `len` bits of an address, as it is printed, without a full prefix length; of the address
/// itself where `len` is above its width.
pub fn block_text(address: &IpAddr, len: u8) -> ArrayString<43>
    ensures bytes { result.bytes ≡ plain_text (address_family address.now) (take len (plain_bits address.now)) }
    ensures len { length result.bytes ≤ 43 }
    ensures wide { length (plain_bits address.now) ≡ width_of (address_family address.now) }
{
    match address {
        IpAddr::V4(address) => network_around::<Ipv4Cidr>(*address, len).to_text(),
        IpAddr::V6(address) => network_around::<Ipv6Cidr>(*address, len).to_text(),
    }
}
