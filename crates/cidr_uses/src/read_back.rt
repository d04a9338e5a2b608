//! A printed host, parsed, is the same host. Of networks `headline` says it.
ghost use Rattle.std.specs.Prelude.{◌≡◌, Ok};

use cidr::errors::NetworkParseError;
use cidr::laws::hosts;
use cidr::{IpInet, Ipv4Inet, Ipv6Inet};

/// Parses the printed string of an IPv4 host.
pub fn ipv4_host(host: &Ipv4Inet) -> Result<Ipv4Inet, NetworkParseError>
    ensures { result ≡ Ok host.now }
{
    hosts::host_text_spells_one();
    host.to_text().as_str().parse::<Ipv4Inet>()
}

/// The same, printed with its prefix length.
pub fn ipv4_host_with_length(host: &Ipv4Inet) -> Result<Ipv4Inet, NetworkParseError>
    ensures { result ≡ Ok host.now }
{
    hosts::host_text_spells_one();
    host.with_length().to_text().as_str().parse::<Ipv4Inet>()
}

/// Parses the printed string of an IPv6 host.
pub fn ipv6_host(host: &Ipv6Inet) -> Result<Ipv6Inet, NetworkParseError>
    ensures { result ≡ Ok host.now }
{
    hosts::host_text_spells_one();
    host.to_text().as_str().parse::<Ipv6Inet>()
}

/// The same, printed with its prefix length.
pub fn ipv6_host_with_length(host: &Ipv6Inet) -> Result<Ipv6Inet, NetworkParseError>
    ensures { result ≡ Ok host.now }
{
    hosts::host_text_spells_one();
    host.with_length().to_text().as_str().parse::<Ipv6Inet>()
}

/// Parses the printed string of a host of either family.
pub fn ip_host(host: &IpInet) -> Result<IpInet, NetworkParseError>
    ensures { result ≡ Ok host.now }
{
    hosts::host_text_spells_one();
    host.to_text().as_str().parse::<IpInet>()
}

/// The same, printed with its prefix length.
pub fn ip_host_with_length(host: &IpInet) -> Result<IpInet, NetworkParseError>
    ensures { result ≡ Ok host.now }
{
    hosts::host_text_spells_one();
    host.with_length().to_text().as_str().parse::<IpInet>()
}
