//! What calls of the types promise at one family, from what the types of both families promise in general: 11 calls of
//! networks at IPv4, and 13 of hosts and pairs at IPv6.
ghost use Rattle.std.specs.Prelude.{◌≡◌, ◌≤◌, ◌↔◌, length, IsTrue};
ghost use Rattle.cidr.specs.model.Host.{next_of, previous_of, stepped_up, stepped_down, WrapsUp, WrapsDown, network_of, host_from, lone_host};
ghost use Rattle.cidr.specs.model.Network.{network_from, HoldsAll, HasWidth, BeginsWith, first_of, last_of, mask_of};
ghost use Rattle.cidr.specs.model.Pair.{pair_of, pair_from, network_of_pair};
ghost use Rattle.cidr.specs.model.Walk.{network_hosts, network_walk, HasExactly};
ghost use Rattle.cidr.specs.texts.NetworkText.{IsNetworkText};
ghost use Rattle.cidr.specs.texts.HostText.{IsHostText, ReadsHost};
ghost use Rattle.cidr.specs.texts.Printed.{plain_text, forced_text, plain_host_text, pair_text};
ghost use Rattle.cidr.specs.texts.Refusal.{ReadsNetwork};
ghost use Rattle.cidr.specs.declared.family.Family.TheVariants.{Ipv4, Ipv6};

use arrayvec::ArrayString;
use cidr::errors::{InetTupleError, NetworkLengthTooLongError, NetworkParseError};
use cidr::{
    InetIterator, Ipv4Addr, Ipv4Cidr, Ipv6Addr, Ipv6Cidr, Ipv6Inet, Ipv6InetPair, WithLength,
};

/// The network of an address and a length.
pub fn network(address: Ipv4Addr, len: u8) -> Result<Ipv4Cidr, NetworkParseError>
    ensures { result ≡ network_from Ipv4 address len }
{
    Ipv4Cidr::new(address, len)
}

/// The network of one address.
pub fn lone_network(address: Ipv4Addr) -> Ipv4Cidr
    ensures { result ≡ address }
{
    Ipv4Cidr::new_host(address)
}

/// The network that a string is parsed as.
pub fn read_network(text: &str) -> Result<Ipv4Cidr, NetworkParseError>
    ensures { ReadsNetwork Ipv4 text.now result }
{
    text.parse::<Ipv4Cidr>()
}

/// The printed string of a network, which is parsed as it.
pub fn network_text(network: &Ipv4Cidr) -> ArrayString<43>
    ensures text { result.bytes ≡ plain_text Ipv4 network.now }
    ensures len { length result.bytes ≤ 18 }
    ensures spells { IsNetworkText Ipv4 result.bytes network.now }
{
    network.to_text()
}

/// The same with the length.
pub fn forced_network_text(network: &WithLength<Ipv4Cidr>) -> ArrayString<43>
    ensures text { result.bytes ≡ forced_text Ipv4 network.now }
    ensures len { length result.bytes ≤ 18 }
    ensures spells { IsNetworkText Ipv4 result.bytes network.now }
{
    network.to_text()
}

/// The first address.
pub fn first_address(network: &Ipv4Cidr) -> Ipv4Addr
    ensures { result ≡ first_of 32 network.now }
{
    network.first_address()
}

/// The last address.
pub fn last_address(network: &Ipv4Cidr) -> Ipv4Addr
    ensures { result ≡ last_of 32 network.now }
{
    network.last_address()
}

/// The mask.
pub fn mask(network: &Ipv4Cidr) -> Ipv4Addr
    ensures { result ≡ mask_of 32 network.now }
{
    network.mask()
}

/// Whether an address is in a network.
pub fn contains(network: &Ipv4Cidr, address: &Ipv4Addr) -> bool
    ensures { IsTrue result ↔ BeginsWith address.now network.now }
{
    network.contains(address)
}

/// Whether a network holds another.
pub fn contains_cidr(network: &Ipv4Cidr, other: &Ipv4Cidr) -> bool
    ensures begins { IsTrue result ↔ BeginsWith other.now network.now }
    ensures holds { IsTrue result ↔ HoldsAll (HasWidth 32) network.now other.now }
{
    network.contains_cidr(other)
}

/// The walk over a network.
pub fn walk(network: &Ipv4Cidr) -> InetIterator<Ipv4Addr>
    ensures walk { result ≡ network_hosts Ipv4 network.now }
    ensures exactly { HasExactly Ipv4 network.now (network_walk Ipv4 network.now) }
{
    network.iter()
}

/// The host of an address and a length.
pub fn host(address: Ipv6Addr, len: u8) -> Result<Ipv6Inet, NetworkLengthTooLongError>
    ensures { result ≡ host_from Ipv6 address len }
{
    Ipv6Inet::new(address, len)
}

/// The host of one address.
pub fn lone_host_of(address: Ipv6Addr) -> Ipv6Inet
    ensures { result ≡ lone_host 128 address }
{
    Ipv6Inet::new_host(address)
}

/// The host that a string is parsed as.
pub fn read_host(text: &str) -> Result<Ipv6Inet, NetworkParseError>
    ensures { ReadsHost Ipv6 text.now result }
{
    text.parse::<Ipv6Inet>()
}

/// The printed string of a host, which is parsed as it.
pub fn host_text(host: &Ipv6Inet) -> ArrayString<43>
    ensures text { result.bytes ≡ plain_host_text Ipv6 host.now }
    ensures len { length result.bytes ≤ 43 }
    ensures spells { IsHostText Ipv6 result.bytes host.now }
{
    host.to_text()
}

/// The network of a host.
pub fn network_of_host(host: &Ipv6Inet) -> Ipv6Cidr
    ensures { result ≡ network_of host.now }
{
    host.network()
}

/// The next host.
pub fn next(host: Ipv6Inet) -> Option<Ipv6Inet>
    ensures { result ≡ next_of 128 host }
{
    host.next()
}

/// The host before.
pub fn previous(host: Ipv6Inet) -> Option<Ipv6Inet>
    ensures { result ≡ previous_of 128 host }
{
    host.previous()
}

/// Steps of any size, and whether they wrapped.
pub fn step_up(host: Ipv6Inet, step: u128) -> (Ipv6Inet, bool)
    ensures stepped { result.0 ≡ stepped_up 128 host step }
    ensures wraps { IsTrue result.1 ↔ WrapsUp 128 host step }
{
    host.overflowing_add(step)
}

/// The same in the other direction.
pub fn step_down(host: Ipv6Inet, step: u128) -> (Ipv6Inet, bool)
    ensures stepped { result.0 ≡ stepped_down 128 host step }
    ensures wraps { IsTrue result.1 ↔ WrapsDown host step }
{
    host.overflowing_sub(step)
}

/// The pair of two hosts.
pub fn pair(first: Ipv6Inet, second: Ipv6Inet) -> Result<Ipv6InetPair, InetTupleError>
    ensures { result ≡ pair_of first second }
{
    Ipv6InetPair::new(first, second)
}

/// The pair of two addresses and a length.
pub fn pair_of_addresses(
    first: Ipv6Addr,
    second: Ipv6Addr,
    len: u8,
) -> Result<Ipv6InetPair, InetTupleError>
    ensures { result ≡ pair_from Ipv6 first second len }
{
    Ipv6InetPair::new_from_addresses(first, second, len)
}

/// The network of a pair.
pub fn network_of_both(pair: &Ipv6InetPair) -> Ipv6Cidr
    ensures { result ≡ network_of_pair pair.now }
{
    pair.network()
}

/// The printed string of a pair.
pub fn text_of_pair(pair: &Ipv6InetPair) -> ArrayString<90>
    ensures text { result.bytes ≡ pair_text (plain_host_text Ipv6) pair.now }
    ensures len { length result.bytes ≤ 90 }
{
    pair.to_text()
}
