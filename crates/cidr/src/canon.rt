//! Whether two networks agree: by value, order, address set, printed string and compact bytes alike.
ghost use Rattle.std.specs.Prelude.{◌↔◌, ℕ, List, Bool, IsTrue, IsFalse};
ghost use Rattle.cidr.specs.bytes.Agreement.{AllAgree, NoneAgrees, TellsNetwork};

use crate::cidr::any::AnyIpCidr;
use crate::cidr::combined::IpCidr;
use crate::cidr::network::Network;
use crate::compact::octets::AddressOctets;
use crate::internal_traits::address_bits::AddressText;
use crate::laws::networks::{equal_networks_are_the_same, equal_networks_or_any_are_the_same};

/// A network type of which each of these tells the value: the order, the addresses of a network, its printed string and
/// its compact bytes. `Ipv4Cidr`, `Ipv6Cidr`, `IpCidr` and `AnyIpCidr` implement it.
pub trait Canonical: Ord {
    /// Holds of every value of the type.
    ghost is_network: { Self → Type 0 };

    /// The addresses of a network, by their bits; of either family with the family bit in front.
    ghost holds: { Self → List Bool → Type 0 };

    /// The printed string.
    ghost text: { Self → List ℕ };

    /// The compact bytes.
    ghost bytes: { Self → List ℕ };

    /// The laws: every value of the type is a network, and each of the four tells which one it is.
    ///
    /// It does nothing when it runs, and is called for what it promises, as by `agree` for both of its networks. The
    /// laws are those of a call, since only a call tells that the prefix length of a value is within the width.
    fn each_tells_the_network(&self)
        ensures network { is_network self.now }
        ensures tells { TellsNetwork holds text bytes Self.cmp is_network };
}

/// Whether two networks of one type agree. It is `==`, with a contract that says more.
///
/// True says that their values, address sets, printed strings and compact bytes are the same and that `cmp` returns
/// `Equal`; false says that none of the five holds.
///
/// ```
/// let network = "10.0.0.0/8".parse::<Ipv4Cidr>()?;
/// agree(&network, &"10.0.0.0/08".parse()?) // true
/// agree(&network, &"10.0.0.0/9".parse()?) // false
/// ```
pub fn agree<N: Canonical>(a: &N, b: &N) -> bool
    ensures all { IsTrue result ↔ AllAgree N.holds N.text N.bytes N.cmp a.now b.now }
    ensures none { IsFalse result ↔ NoneAgrees N.holds N.text N.bytes N.cmp a.now b.now }
{
    a.each_tells_the_network();
    b.each_tells_the_network();
    a.cmp(b).is_eq()
}

impl<A: AddressOctets + AddressText> Canonical for Network<A> {
    ghost use Rattle.cidr.specs.bytes.Agreement.{IsAddressOf};
    ghost use Rattle.cidr.specs.bytes.Compact.{network_bytes};
    ghost use Rattle.cidr.specs.model.Network.{width_of, FitsWidth};
    ghost use Rattle.cidr.specs.texts.Printed.{plain_text};

    ghost is_network = { FitsWidth (width_of A.FAMILY) };

    ghost holds = { IsAddressOf A.FAMILY };

    ghost text = { plain_text A.FAMILY };

    ghost bytes = { network_bytes A.FAMILY };

    fn each_tells_the_network(&self) {
        // the call tells the proof that the prefix length is within the width
        let _len = self.network_length();
    }
}

impl Canonical for IpCidr {
    ghost use Rattle.cidr.specs.bytes.Agreement.{IsIpAddressOf};
    ghost use Rattle.cidr.specs.bytes.Compact.{ip_network_bytes};
    ghost use Rattle.cidr.specs.either.IpNetwork.{IsIpNetwork};
    ghost use Rattle.cidr.specs.either.IpText.{ip_network_text};
    ghost use Rattle.cidr.specs.texts.Printed.{plain_text};

    ghost is_network = { IsIpNetwork };

    ghost holds = { IsIpAddressOf };

    ghost text = { ip_network_text plain_text };

    ghost bytes = { ip_network_bytes };

    fn each_tells_the_network(&self) {
        let _len = self.network_length();
        equal_networks_are_the_same();
    }
}

impl Canonical for AnyIpCidr {
    ghost use Rattle.cidr.specs.bytes.Agreement.{IsAnyAddressOf};
    ghost use Rattle.cidr.specs.bytes.Compact.{any_network_bytes};
    ghost use Rattle.cidr.specs.either.IpNetwork.{IsAnyNetwork};
    ghost use Rattle.cidr.specs.either.IpText.{any_network_text};
    ghost use Rattle.cidr.specs.texts.Printed.{plain_text};

    ghost is_network = { IsAnyNetwork };

    ghost holds = { IsAnyAddressOf };

    ghost text = { any_network_text plain_text };

    ghost bytes = { any_network_bytes };

    fn each_tells_the_network(&self) {
        equal_networks_or_any_are_the_same();
        let _len = match self {
            AnyIpCidr::Any => 0,
            AnyIpCidr::V4(network) => network.network_length(),
            AnyIpCidr::V6(network) => network.network_length(),
        };
    }
}
