//! Bytes that begin with the compact bytes of a value are read as that value and exactly their own count.
ghost use Rattle.std.specs.Prelude.{◌≡◌, ◌++◌, ℕ, List, length, Ok, IsTrue};
ghost use Rattle.cidr.specs.bytes.Compact.{network_bytes, host_bytes, ip_network_bytes, ip_host_bytes, any_network_bytes};
ghost use Rattle.cidr.specs.declared.family.Family.TheVariants.{Ipv4, Ipv6};

use cidr::canon::agree;
use cidr::errors::CompactError;
use cidr::{AnyIpCidr, IpCidr, IpInet, Ipv4Cidr, Ipv4Inet, Ipv6Cidr, Ipv6Inet};

/// Reads an IPv4 network from bytes that begin with its own.
pub fn ipv4_network(network: &Ipv4Cidr, input: &[u8]) -> Result<(Ipv4Cidr, usize), CompactError>
    requires { (rest : List ℕ) × (input.now ≡ network_bytes Ipv4 network.now ++ rest) }
    ensures { result ≡ Ok (network.now, length (network_bytes Ipv4 network.now)) }
{
    // the call tells the proof that this is a value of the type
    let _bytes = network.to_compact();
    Ipv4Cidr::from_compact(input)
}

/// Reads an IPv6 network from bytes that begin with its own.
pub fn ipv6_network(network: &Ipv6Cidr, input: &[u8]) -> Result<(Ipv6Cidr, usize), CompactError>
    requires { (rest : List ℕ) × (input.now ≡ network_bytes Ipv6 network.now ++ rest) }
    ensures { result ≡ Ok (network.now, length (network_bytes Ipv6 network.now)) }
{
    // the call tells the proof that this is a value of the type
    let _bytes = network.to_compact();
    Ipv6Cidr::from_compact(input)
}

/// Reads a network of either family from bytes that begin with its own.
pub fn ip_network(network: &IpCidr, input: &[u8]) -> Result<(IpCidr, usize), CompactError>
    requires { (rest : List ℕ) × (input.now ≡ ip_network_bytes network.now ++ rest) }
    ensures { result ≡ Ok (network.now, length (ip_network_bytes network.now)) }
{
    // the call tells the proof that this is a value of the type
    let _bytes = network.to_compact();
    IpCidr::from_compact(input)
}

/// Reads a network of either family, or `any` from bytes that begin with its own.
pub fn any_network(network: &AnyIpCidr, input: &[u8]) -> Result<(AnyIpCidr, usize), CompactError>
    requires { (rest : List ℕ) × (input.now ≡ any_network_bytes network.now ++ rest) }
    ensures { result ≡ Ok (network.now, length (any_network_bytes network.now)) }
{
    // the call tells the proof that this is a value of the type
    let _bytes = network.to_compact();
    AnyIpCidr::from_compact(input)
}

/// Reads an IPv4 host from bytes that begin with its own.
pub fn ipv4_host(host: &Ipv4Inet, input: &[u8]) -> Result<(Ipv4Inet, usize), CompactError>
    requires { (rest : List ℕ) × (input.now ≡ host_bytes Ipv4 host.now ++ rest) }
    ensures { result ≡ Ok (host.now, length (host_bytes Ipv4 host.now)) }
{
    // the call tells the proof that this is a value of the type
    let _bytes = host.to_compact();
    Ipv4Inet::from_compact(input)
}

/// Reads an IPv6 host from bytes that begin with its own.
pub fn ipv6_host(host: &Ipv6Inet, input: &[u8]) -> Result<(Ipv6Inet, usize), CompactError>
    requires { (rest : List ℕ) × (input.now ≡ host_bytes Ipv6 host.now ++ rest) }
    ensures { result ≡ Ok (host.now, length (host_bytes Ipv6 host.now)) }
{
    // the call tells the proof that this is a value of the type
    let _bytes = host.to_compact();
    Ipv6Inet::from_compact(input)
}

/// Reads a host of either family from bytes that begin with its own.
pub fn ip_host(host: &IpInet, input: &[u8]) -> Result<(IpInet, usize), CompactError>
    requires { (rest : List ℕ) × (input.now ≡ ip_host_bytes host.now ++ rest) }
    ensures { result ≡ Ok (host.now, length (ip_host_bytes host.now)) }
{
    // the call tells the proof that this is a value of the type
    let _bytes = host.to_compact();
    IpInet::from_compact(input)
}

/// Networks with the same compact bytes agree.
pub fn same_bytes(a: &AnyIpCidr, b: &AnyIpCidr) -> bool
    requires { any_network_bytes a.now ≡ any_network_bytes b.now }
    ensures { IsTrue result }
{
    let same = a.to_compact().as_slice() == b.to_compact().as_slice();
    same && agree(a, b)
}
