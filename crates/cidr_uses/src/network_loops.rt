//! A network is itself what a loop goes over: `into_iter` gives exactly its addresses, as `iter` does.
ghost use Rattle.std.specs.Prelude.{◌≡◌};
ghost use Rattle.cidr.specs.either.IpNetwork.{network_family, network_prefix};
ghost use Rattle.cidr.specs.model.Walk.{network_hosts, network_walk, HasExactly};
ghost use Rattle.cidr.specs.declared.family.Family.TheVariants.{Ipv4, Ipv6};

use cidr::{InetIterator, IpAddr, IpCidr, Ipv4Addr, Ipv4Cidr, Ipv6Addr, Ipv6Cidr};

/// The hosts of an IPv4 network, whose addresses are exactly those that begin with its bits.
pub fn ipv4(network: Ipv4Cidr) -> InetIterator<Ipv4Addr>
    ensures hosts { result ≡ network_hosts Ipv4 network }
    ensures exactly { HasExactly Ipv4 network (network_walk Ipv4 network) }
{
    network.into_iter()
}

/// The same of IPv6.
pub fn ipv6(network: Ipv6Cidr) -> InetIterator<Ipv6Addr>
    ensures hosts { result ≡ network_hosts Ipv6 network }
    ensures exactly { HasExactly Ipv6 network (network_walk Ipv6 network) }
{
    network.into_iter()
}

/// The same of either family.
pub fn ip(network: IpCidr) -> InetIterator<IpAddr>
    ensures hosts { result ≡ network_hosts (network_family network) (network_prefix network) }
    ensures exactly { HasExactly (network_family network) (network_prefix network)
        (network_walk (network_family network) (network_prefix network)) }
{
    network.into_iter()
}
