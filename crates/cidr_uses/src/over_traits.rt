//! What holds of addresses, networks, hosts and pairs over the four traits alone, and so of both families at once.
ghost use Rattle.std.specs.Prelude.{◌≡◌, ◌↔◌, IfOk, IsTrue, MatchOption};
ghost use Rattle.std.specs.String.{string_bytes};
ghost use Rattle.std.specs.declared.cmp.Ordering.TheVariants.{Less};
ghost use Rattle.cidr.specs.either.ByFamily.{family_bits};
ghost use Rattle.cidr.specs.model.Bits.{bit_cmp};
ghost use Rattle.cidr.specs.texts.NetworkText.{IsNetworkText};
ghost use Rattle.cidr.specs.texts.Printed.{plain_text};

use cidr::{Address, Cidr, Inet, InetPair};
use std::alloc::{AllocError, Global};
use std::cmp::Ordering;

/// Always true: the network of an address alone is equal to the network that is made of that address again.
pub fn lone_networks_are_equal<C: Cidr>(address: C::Address) -> bool
    ensures { IsTrue result }
{
    C::new_host(address) == C::new_host(address)
}

/// Whether one address comes before the other: by family, IPv4 first, and then by bits.
pub fn comes_before<A: Address>(one: A, other: A) -> bool
    ensures { IsTrue result ↔ (bit_cmp (family_bits (A.family_of one) (A.bits one))
        (family_bits (A.family_of other) (A.bits other)) ≡ Less) }
{
    one.cmp(&other) == Ordering::Less
}

/// The network that a string represents, or `None` where it represents none of the type.
pub fn network_of_text<C: Cidr>(s: &str) -> Option<C>
    ensures { MatchOption result ((n : C) → ¬ (IsNetworkText (C.family_of n) s.now (C.prefix n)))
        (λ n. IsNetworkText (C.family_of n) s.now (C.prefix n)) }
{
    s.parse::<C>().ok()
}

/// What is printed of a network, as a string of its own.
pub fn text_of_network<C: Cidr>(alloc: Global, network: C) -> Result<String, AllocError>
    ensures { IfOk result (λ text. string_bytes text ≡ plain_text (C.family_of network) (C.prefix network)) }
{
    format!(in alloc; "{network}")
}

/// Always true: from the next host the step back leads to the host again.
pub fn steps_back<I: Inet>(host: I) -> bool
    ensures { IsTrue result }
{
    match host.next() {
        Some(next) => next.previous() == Some(host),
        None => true,
    }
}

/// Whether two pairs have the same addresses and the same prefix length, of one family.
pub fn pairs_are_equal<P: InetPair>(one: P, other: P) -> bool
    ensures { IsTrue result ↔ ((P.family_of one ≡ P.family_of other) × (P.pair one ≡ P.pair other)) }
{
    one == other
}
