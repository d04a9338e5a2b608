//! What follows where several promises of the library are taken together.
ghost use Rattle.std.specs.Prelude.{◌≡◌, ◌≢◌, ◌↔◌, ◌<◌, ◌⊎◌, IsTrue, MatchResult, Some, length};
ghost use Rattle.std.specs.List.{slice_get};
ghost use Rattle.std.specs.List.Sorted.{IsStrictlySortedBy};
ghost use Rattle.cidr.specs.bytes.Compact.{ip_network_bytes};
ghost use Rattle.cidr.specs.declared.cidr.combined.IpCidr.{IpCidr};
ghost use Rattle.cidr.specs.declared.family.Family.TheVariants.{Ipv4};
ghost use Rattle.cidr.specs.either.IpText.{IsIpRefused};
ghost use Rattle.cidr.specs.texts.Messages.{ipv4_error};
ghost use Rattle.cidr.specs.texts.Refusal.{IsRefused};
ghost use Rattle.cidr_uses.specs.Consequences.{AreCompared, IsWalkOfText};

use cidr::canon::agree;
use cidr::errors::NetworkParseError;
use cidr::laws::networks;
use cidr::{AnyIpCidr, InetAddressIterator, IpCidr, Ipv4Addr, Ipv4Cidr, Ipv6Cidr};

/// Whether two strings are of networks with the same addresses: those are printed alike, and no others are.
pub fn same_addresses(first: &str, second: &str) -> Result<bool, NetworkParseError>
    ensures { MatchResult result (AreCompared first.now second.now)
        (λ e. IsIpRefused first.now e ⊎ IsIpRefused second.now e) }
{
    let one = match first.parse::<AnyIpCidr>() {
        Ok(network) => network,
        Err(e) => return Err(e),
    };
    let other = match second.parse::<AnyIpCidr>() {
        Ok(network) => network,
        Err(e) => return Err(e),
    };
    // the call tells the proof that all or none of their values, strings and addresses are the same
    let _same = agree(&one, &other);
    Ok(one.to_text().as_str() == other.to_text().as_str())
}

/// Always true: two networks at different indexes of a list in strict order have different compact bytes.
pub fn bytes_differ(networks: &[IpCidr], i: usize, j: usize) -> bool
    requires sorted { IsStrictlySortedBy ⟦<IpCidr as Ord>⟧.cmp networks.now }
    requires order { i < j }
    requires within { j < length networks.now }
    ensures value { IsTrue result }
    ensures bytes { (one other : IpCidr) → slice_get networks.now i ≡ Some one → slice_get networks.now j ≡ Some other →
        ip_network_bytes one ≢ ip_network_bytes other }
{
    let (one, other) = (networks[i], networks[j]);
    // the call tells the proof that all or none of their order, bytes and addresses are the same
    let _same = agree(&one, &other);
    one.to_compact().as_slice() != other.to_compact().as_slice()
}

/// The walk over the addresses of a string's network: exactly those that `contains` returns true for.
pub fn walk_of_text(text: &str) -> Result<InetAddressIterator<Ipv4Addr>, NetworkParseError>
    ensures { MatchResult result (IsWalkOfText Ipv4 text.now) (IsRefused Ipv4 ipv4_error text.now) }
{
    match text.parse::<Ipv4Cidr>() {
        Ok(network) => Ok(network.iter().addresses()),
        Err(e) => Err(e),
    }
}

/// `==` of two networks of IPv4 is true exactly where they are the same.
pub fn equal_ipv4(a: &Ipv4Cidr, b: &Ipv4Cidr) -> bool
    ensures { IsTrue result ↔ (a.now ≡ b.now) }
{
    networks::equal_networks_of_one_family_are_the_same();
    a == b
}

/// The same of IPv6.
pub fn equal_ipv6(a: &Ipv6Cidr, b: &Ipv6Cidr) -> bool
    ensures { IsTrue result ↔ (a.now ≡ b.now) }
{
    networks::equal_networks_of_one_family_are_the_same();
    a == b
}
