//! The parsers for `AnyIpCidr`: the string `any` comes first, and every other is parsed as a network of either family.
ghost use Rattle.std.specs.Prelude.{◌≡◌, ◌↔◌, codes, IsTrue};
ghost use Rattle.std.specs.Fn.{FnReturnsAt, FnOnceReturnsAt};
ghost use Rattle.cidr.specs.model.Views.{in_family, seen};
ghost use Rattle.cidr.specs.either.IpAddress.{address_family, plain_bits};
ghost use Rattle.cidr.specs.either.IpNetwork.{network_family, network_prefix, any_of};
ghost use Rattle.cidr.specs.either.IpText.{ReadsAny};
ghost use Rattle.cidr.specs.texts.Parsing.{MadeBy, MadeAlone, ReadsAround, ReadsWhole, strict_network, holding_network};

use crate::addr::error::AddrParseError;
use crate::addr::ip::IpAddr;
use crate::cidr::any::AnyIpCidr;
use crate::cidr::combined::IpCidr;
use crate::errors::NetworkParseError;
use crate::parsers::ignore_hostbits::{
    parse_cidr_full_ignore_hostbits, parse_cidr_ignore_hostbits,
};
use crate::parsers::networks::{parse_cidr, parse_cidr_full};
use std::str::FromStr;

/// `Any` for the string `any`, for which no parser is called. For every other string the result of `parse_cidr_full`.
///
/// ```
/// let short = |s: &str| parse_short_ip_cidr(s);
/// let network = parse_any_cidr_full("10.7", IpAddr::from_str, short)?;
/// network // 10.7.0.0/16
/// ```
pub fn parse_any_cidr_full<AP, HP>(
    s: &str,
    address_parser: AP,
    host_parser: HP,
) -> Result<AnyIpCidr, NetworkParseError>
where
    AP: FnOnce(&str) -> Result<IpAddr, AddrParseError>,
    HP: FnOnce(&str) -> Result<IpCidr, NetworkParseError>,
    requires address { AP.IsAlwaysCallable address_parser }
    requires host { HP.IsAlwaysCallable host_parser }
    ensures { ReadsAny (ReadsAround (FnOnceReturnsAt AP.FnOnce address_parser)
        (MadeBy (in_family address_family plain_bits) (in_family network_family network_prefix) strict_network)
        (FnOnceReturnsAt HP.FnOnce host_parser)) s.now result }
{
    if is_any(s) {
        return Ok(AnyIpCidr::Any);
    }
    any_of(parse_cidr_full(s, address_parser, host_parser))
}

/// `Any` for the string `any`, for which `address_parser` is not called. For every other string the result of
/// `parse_cidr`.
///
/// ```
/// parse_any_cidr("any", IpAddr::from_str)? // any
/// parse_any_cidr("::1", IpAddr::from_str)? // ::1
/// ```
pub fn parse_any_cidr<AP>(s: &str, address_parser: AP) -> Result<AnyIpCidr, NetworkParseError>
where
    AP: Fn(&str) -> Result<IpAddr, AddrParseError>,
    requires { AP.IsAlwaysCallable address_parser }
    ensures { ReadsAny (ReadsAround (FnReturnsAt AP.Fn address_parser)
        (MadeBy (in_family address_family plain_bits) (in_family network_family network_prefix) strict_network)
        (ReadsWhole (FnReturnsAt AP.Fn address_parser)
        (MadeAlone (in_family address_family plain_bits) (in_family network_family network_prefix) (λ a. a))))
        s.now result }
{
    if is_any(s) {
        return Ok(AnyIpCidr::Any);
    }
    any_of(parse_cidr(s, address_parser))
}

/// `Any` for the string `any`, for which no parser is called. For every other string the result of
/// `parse_cidr_full_ignore_hostbits`.
///
/// ```
/// let short = |s: &str| parse_short_ip_cidr(s);
/// let network = parse_any_cidr_full_ignore_hostbits("10.0.0.7/8", IpAddr::from_str, short)?;
/// network // 10.0.0.0/8
/// ```
pub fn parse_any_cidr_full_ignore_hostbits<AP, HP>(
    s: &str,
    address_parser: AP,
    host_parser: HP,
) -> Result<AnyIpCidr, NetworkParseError>
where
    AP: FnOnce(&str) -> Result<IpAddr, AddrParseError>,
    HP: FnOnce(&str) -> Result<IpCidr, NetworkParseError>,
    requires address { AP.IsAlwaysCallable address_parser }
    requires host { HP.IsAlwaysCallable host_parser }
    ensures { ReadsAny (ReadsAround (FnOnceReturnsAt AP.FnOnce address_parser)
        (MadeBy (in_family address_family plain_bits) (in_family network_family network_prefix) holding_network)
        (FnOnceReturnsAt HP.FnOnce host_parser)) s.now result }
{
    if is_any(s) {
        return Ok(AnyIpCidr::Any);
    }
    any_of(parse_cidr_full_ignore_hostbits(s, address_parser, host_parser))
}

/// `Any` for the string `any`, for which `address_parser` is not called. For every other string the result of
/// `parse_cidr_ignore_hostbits`.
///
/// ```
/// let network = parse_any_cidr_ignore_hostbits("127.0.0.1/8", IpAddr::from_str)?;
/// network // 127.0.0.0/8
/// ```
pub fn parse_any_cidr_ignore_hostbits<AP>(
    s: &str,
    address_parser: AP,
) -> Result<AnyIpCidr, NetworkParseError>
where
    AP: Fn(&str) -> Result<IpAddr, AddrParseError>,
    requires { AP.IsAlwaysCallable address_parser }
    ensures { ReadsAny (ReadsAround (FnReturnsAt AP.Fn address_parser)
        (MadeBy (in_family address_family plain_bits) (in_family network_family network_prefix) holding_network)
        (ReadsWhole (FnReturnsAt AP.Fn address_parser)
        (MadeAlone (in_family address_family plain_bits) (in_family network_family network_prefix) (λ a. a))))
        s.now result }
{
    if is_any(s) {
        return Ok(AnyIpCidr::Any);
    }
    any_of(parse_cidr_ignore_hostbits(s, address_parser))
}

/// Whether the text is `any`.
fn is_any(s: &str) -> bool
    ensures { IsTrue result ↔ (s.now ≡ codes "any") }
{
    s == "any"
}

/// The network of either family as one that may be `Any`.
fn any_of(network: Result<IpCidr, NetworkParseError>) -> Result<AnyIpCidr, NetworkParseError>
    ensures { result ≡ seen any_of network }
{
    match network {
        Ok(network) => Ok(AnyIpCidr::from(network)),
        Err(e) => Err(e),
    }
}

impl FromStr for AnyIpCidr {
    ghost use Rattle.cidr.specs.either.IpText.{ReadsAnyNetwork};

    type Err = NetworkParseError;

    ghost from_str_gives = { ReadsAnyNetwork };

    fn from_str(s: &str) -> Result<AnyIpCidr, NetworkParseError> {
        parse_any_cidr(s, IpAddr::from_str)
    }
}
