//! Networks by the numbers of their addresses.
ghost use Rattle.std.specs.Prelude.{◌≡◌, ◌<◌, ◌-◌, ◌^◌, take};
ghost use Rattle.cidr.specs.either.IpNetwork.{network_family, network_prefix};
ghost use Rattle.cidr.specs.model.Bits.{bits, number};
ghost use Rattle.cidr.specs.model.Network.{last_of, width_of};

use cidr::{FamilyCidr, IpCidr};

/// The network of the address with a number, without its last so many bits.
pub(crate) fn network_of<C: FamilyCidr>(n: u128, left: u32) -> IpCidr
    requires { n < 2 ^ width_of C.FAMILY }
    ensures family { network_family result ≡ C.FAMILY }
    ensures prefix { network_prefix result ≡ take (width_of C.FAMILY - left) (bits (width_of C.FAMILY) n) }
{
    let mut network = C::new_host(C::from_number(n));
    network.clip(u32::from(C::FAMILY.len()).saturating_sub(left) as usize);
    network.to_ip()
}

/// The number of the last address of a network.
pub(crate) fn last_number(network: &IpCidr) -> u128
    ensures { result ≡ number (last_of (width_of (network_family network.now)) (network_prefix network.now)) }
{
    match network {
        IpCidr::V4(network) => network.ends().1,
        IpCidr::V6(network) => network.ends().1,
    }
}
