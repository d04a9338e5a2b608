//! Bytes that begin with the prefix bytes of a network are read as that network and exactly their own count, over the
//! trait only.
ghost use Rattle.std.specs.Prelude.{◌≡◌, ◌++◌, ℕ, List, length, Ok};
ghost use Rattle.cidr.specs.bytes.Prefix.{prefix_bytes};

use cidr::errors::PrefixBytesError;
use cidr::{Ipv6Cidr, PrefixBytes};

/// Reads a network from bytes that begin with its own.
pub fn network<C: PrefixBytes>(network: &C, input: &[u8]) -> Result<(C, usize), PrefixBytesError>
    requires { (rest : List ℕ) × (input.now ≡ prefix_bytes (C.bits network.now) ++ rest) }
    ensures { result ≡ Ok (network.now, length (prefix_bytes (C.bits network.now))) }
{
    // the call tells the proof that the bytes are those of the network
    let _bytes = network.to_prefix_bytes();
    C::from_prefix_bytes(input)
}

/// What holds over the trait holds of IPv6.
pub fn ipv6_network(own: &Ipv6Cidr, input: &[u8]) -> Result<(Ipv6Cidr, usize), PrefixBytesError>
    requires { (rest : List ℕ) × (input.now ≡ prefix_bytes own.now ++ rest) }
    ensures { result ≡ Ok (own.now, length (prefix_bytes own.now)) }
{
    network(own, input)
}
