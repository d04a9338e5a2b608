//! Networks of either family, or every address, as strings of bits.
ghost use Rattle.std.specs.Prelude.{◌≡◌, ◌+◌, ◌-◌, ◌<◌, ◌∷◌, [], length, take, refl};
ghost use Rattle.cidr.specs.either.IpNetwork.{any_bits, any_room};
ghost use Rattle.cidr.specs.laws.StringLaws.{any_determined};
ghost use Rattle.cidr.specs.declared.cidr.any.AnyIpCidr.TheVariants.{Any, V4, V6};
ghost use Rattle.cidr.specs.model.BitString.{any_with_bit, inverted};
ghost use Rattle.cidr.specs.model.Network.{width_of};

use crate::bits::network::shared_length;
use crate::bits::{BitString, NetworkBits};
use crate::cidr::any::AnyIpCidr;
use crate::cidr::network::{Ipv4Cidr, Ipv6Cidr, Network};
use crate::internal_traits::single_bits::SingleBits;

/// The network of all addresses of the family that a bit names: ::/0 for a set one.
fn of_family(ipv6: bool) -> AnyIpCidr
    ensures { any_bits result ≡ ipv6 ∷ [] }
{
    if ipv6 {
        AnyIpCidr::V6(Ipv6Cidr::null())
    } else {
        AnyIpCidr::V4(Ipv4Cidr::null())
    }
}

/// Leaves the first `k` bits of a network, of which the family bit in front is one.
fn clip_behind_family<A: SingleBits>(network: &mut Network<A>, k: usize)
    requires { 0 < k }
    ensures bits { network.new ≡ take (k - 1) network.old }
    ensures room { width_of A.FAMILY - length network.new ≡
        width_of A.FAMILY - length network.old + (length network.old + 1 - k) }
    ensures left { k < length network.old + 1 → 0 < width_of A.FAMILY - length network.new }
{
    // the call tells the proof that the prefix length fits
    network.network_length();
    network.clip(k - 1);
}

impl BitString for AnyIpCidr {
    ghost bits = { any_bits };

    ghost room = { any_room };

    fn len(&self) -> usize {
        match self {
            AnyIpCidr::Any => 0,
            AnyIpCidr::V4(network) => usize::from(network.network_length()) + 1,
            AnyIpCidr::V6(network) => usize::from(network.network_length()) + 1,
        }
    }

    fn room(&self) -> usize {
        match self {
            AnyIpCidr::Any => 33,
            AnyIpCidr::V4(network) => usize::from(32 - network.network_length()),
            AnyIpCidr::V6(network) => usize::from(128 - network.network_length()),
        }
    }

    fn get(&self, i: usize) -> bool {
        match self {
            AnyIpCidr::Any => false,
            AnyIpCidr::V4(network) => i > 0 && network.get(i - 1),
            AnyIpCidr::V6(network) => i == 0 || network.get(i - 1),
        }
    }

    fn set(&mut self, i: usize, b: bool)
        requires { i < length (any_bits self.old) }
        ensures { any_bits self.new ≡ any_with_bit i b (any_bits self.old) }
    {
        if i == 0 {
            *self = of_family(b);
            return;
        }
        match self {
            AnyIpCidr::Any => {}
            AnyIpCidr::V4(network) => network.set(i - 1, b),
            AnyIpCidr::V6(network) => network.set(i - 1, b),
        }
    }

    fn flip(&mut self, i: usize)
        requires { i < length (any_bits self.old) }
        ensures { any_bits self.new ≡ any_with_bit i (inverted i (any_bits self.old)) (any_bits self.old) }
    {
        if i == 0 {
            let ipv6 = self.get(i);
            *self = of_family(!ipv6);
            return;
        }
        match self {
            AnyIpCidr::Any => {}
            AnyIpCidr::V4(network) => network.flip(i - 1),
            AnyIpCidr::V6(network) => network.flip(i - 1),
        }
    }

    fn clip(&mut self, k: usize) {
        if k == 0 {
            *self = AnyIpCidr::Any;
            return;
        }
        match self {
            AnyIpCidr::Any => {}
            AnyIpCidr::V4(network) => clip_behind_family(network, k),
            AnyIpCidr::V6(network) => clip_behind_family(network, k),
        }
    }

    fn append(&mut self, b: bool) {
        match self {
            AnyIpCidr::Any => *self = of_family(b),
            AnyIpCidr::V4(network) => network.append(b),
            AnyIpCidr::V6(network) => network.append(b),
        }
    }

    fn null() -> AnyIpCidr {
        AnyIpCidr::Any
    }

    #[tactic(auto, using(crate::proofs::SharedLength::shared_laws))]
    fn shared_prefix_len(&self, other: &AnyIpCidr) -> usize {
        let shared = match (self, other) {
            (AnyIpCidr::V4(one), AnyIpCidr::V4(other)) => shared_length(one, other),
            (AnyIpCidr::V6(one), AnyIpCidr::V6(other)) => shared_length(one, other),
            _ => return 0,
        };
        usize::from(shared) + 1
    }
}

impl NetworkBits for AnyIpCidr {
    ghost ordered = { elim [
      | Any ↦ elim [ Any ↦ refl | V4 q ↦ refl | V6 q ↦ refl ]
      | V4 p ↦ elim [ Any ↦ refl | V4 q ↦ refl | V6 q ↦ refl ]
      | V6 p ↦ elim [ Any ↦ refl | V4 q ↦ refl | V6 q ↦ refl ]
    ] };

    ghost determined = { any_determined };
}
