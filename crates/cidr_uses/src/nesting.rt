//! Networks are nested or disjoint, and those inside a network follow each other.
ghost use Rattle.std.specs.Prelude.{◌≢◌, ◌↔◌, IsTrue, IsFalse, Bool, List};
ghost use Rattle.std.specs.declared.cmp.Ordering.TheVariants.{Greater};
ghost use Rattle.cidr.specs.model.Bits.{bit_cmp};
ghost use Rattle.cidr.specs.model.Network.{BeginsWith};
ghost use Rattle.cidr.specs.either.IpNetwork.{network_bits, any_bits};

use cidr::laws::networks;
use cidr::{AnyIpCidr, IpCidr};

/// Whether the second network lies in the first one. If neither lies in the other, they have no address in common.
pub fn apart_any(a: &AnyIpCidr, b: &AnyIpCidr) -> bool
    ensures inside { IsTrue result ↔ BeginsWith (any_bits b.now) (any_bits a.now) }
    ensures apart { IsFalse result → ¬ (BeginsWith (any_bits a.now) (any_bits b.now)) →
        (x : List Bool) → BeginsWith x (any_bits a.now) → ¬ (BeginsWith x (any_bits b.now)) }
{
    networks::networks_are_nested_or_apart();
    a.contains_cidr(b)
}

/// Always true: what stands in the order between a network and one inside it lies inside it, too.
pub fn inside_ip(a: &IpCidr, b: &IpCidr, last: &IpCidr) -> bool
    requires holds { BeginsWith (network_bits last.now) (network_bits a.now) }
    requires from { bit_cmp (network_bits a.now) (network_bits b.now) ≢ Greater }
    requires to { bit_cmp (network_bits b.now) (network_bits last.now) ≢ Greater }
    ensures { IsTrue result }
{
    networks::networks_inside_are_consecutive();
    a.contains_cidr(b)
}
