//! Around the strict parsers of addresses, the parsers around closures are `FromStr` of networks and hosts.
ghost use Rattle.cidr.specs.either.IpText.{ReadsAnyNetwork, ReadsIpHost, ReadsIpNetwork};
ghost use Rattle.cidr.specs.texts.HostText.{ReadsHost};
ghost use Rattle.cidr.specs.texts.Refusal.{ReadsNetwork};
ghost use Rattle.cidr.specs.declared.family.Family.TheVariants.{Ipv4, Ipv6};

use cidr::errors::NetworkParseError;
use cidr::laws::parsers::{
    parsing_around_strict_ip_is_strict, parsing_around_strict_ipv4_is_strict,
    parsing_around_strict_ipv6_is_strict,
};
use cidr::parsers::{parse_any_cidr, parse_cidr, parse_inet};
use cidr::{
    AnyIpCidr, IpAddr, IpCidr, IpInet, Ipv4Addr, Ipv4Cidr, Ipv4Inet, Ipv6Addr, Ipv6Cidr, Ipv6Inet,
};
use std::str::FromStr;

/// The network of an IPv4 string, or its first error, as `Ipv4Cidr::from_str` returns them.
pub fn ipv4_network(s: &str) -> Result<Ipv4Cidr, NetworkParseError>
    ensures { ReadsNetwork Ipv4 s.now result }
{
    let parser = Ipv4Addr::from_str;
    parsing_around_strict_ipv4_is_strict(&parser);
    parse_cidr(s, parser)
}

/// The same of IPv6.
pub fn ipv6_network(s: &str) -> Result<Ipv6Cidr, NetworkParseError>
    ensures { ReadsNetwork Ipv6 s.now result }
{
    let parser = Ipv6Addr::from_str;
    parsing_around_strict_ipv6_is_strict(&parser);
    parse_cidr(s, parser)
}

/// The same of either family.
pub fn ip_network(s: &str) -> Result<IpCidr, NetworkParseError>
    ensures { ReadsIpNetwork s.now result }
{
    let parser = IpAddr::from_str;
    parsing_around_strict_ip_is_strict(&parser);
    parse_cidr(s, parser)
}

/// The same of either family, or `any`.
pub fn any_network(s: &str) -> Result<AnyIpCidr, NetworkParseError>
    ensures { ReadsAnyNetwork s.now result }
{
    let parser = IpAddr::from_str;
    parsing_around_strict_ip_is_strict(&parser);
    parse_any_cidr(s, parser)
}

/// The host of an IPv4 string, or its first error, as `Ipv4Inet::from_str` returns them.
pub fn ipv4_host(s: &str) -> Result<Ipv4Inet, NetworkParseError>
    ensures { ReadsHost Ipv4 s.now result }
{
    let parser = Ipv4Addr::from_str;
    parsing_around_strict_ipv4_is_strict(&parser);
    parse_inet(s, parser)
}

/// The same of IPv6.
pub fn ipv6_host(s: &str) -> Result<Ipv6Inet, NetworkParseError>
    ensures { ReadsHost Ipv6 s.now result }
{
    let parser = Ipv6Addr::from_str;
    parsing_around_strict_ipv6_is_strict(&parser);
    parse_inet(s, parser)
}

/// The same of either family.
pub fn ip_host(s: &str) -> Result<IpInet, NetworkParseError>
    ensures { ReadsIpHost s.now result }
{
    let parser = IpAddr::from_str;
    parsing_around_strict_ip_is_strict(&parser);
    parse_inet(s, parser)
}
