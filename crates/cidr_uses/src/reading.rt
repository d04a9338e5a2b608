//! What the results of parsing one string have to do with each other.
ghost use Rattle.std.specs.Prelude.{◌↔◌, Bool, List, IsTrue, MatchResult};
ghost use Rattle.cidr.specs.declared.family.Family.TheVariants.{Ipv4};
ghost use Rattle.cidr.specs.texts.AddressText.{IsAddressText, Reads};
ghost use Rattle.cidr.specs.texts.Messages.{ipv4_error};
ghost use Rattle.cidr.specs.texts.NetworkText.{IsNetworkText};
ghost use Rattle.cidr_uses.specs.Reading.{IsNoted, IsOtherError};

use cidr::errors::NetworkParseError;
use cidr::laws::addresses::ipv4_text_spells_one;
use cidr::laws::errors::equal_errors_are_the_same;
use cidr::laws::parsers::{
    ignoring_host_bits_accepts_them, last_cut_is_one, parsing_around_strict_ipv4_is_strict,
};
use cidr::parsers::{parse_cidr, parse_cidr_ignore_hostbits};
use cidr::{AddrParseError, Ipv4Addr, Ipv4Cidr};

/// Whether a string is an IPv4 network: where parsing it returns an error, it is none.
pub fn is_network(s: &str) -> bool
    ensures { IsTrue result ↔ ((n : List Bool) × IsNetworkText Ipv4 s.now n) }
{
    s.parse::<Ipv4Cidr>().is_ok()
}

/// The network of a string, and whether a bit after its prefix was set, which is then ignored: of 10.0.0.7/8 it is
/// 10.0.0.0/8 and `true`. Never returns the error `InvalidHostPart`.
pub fn network_and_note(s: &str) -> Result<(Ipv4Cidr, bool), NetworkParseError>
    ensures { MatchResult result (λ x. IsNoted s.now x.0 x.1) (IsOtherError s.now) }
{
    let parser = |t: &str| -> Result<Ipv4Addr, AddrParseError>
        ensures { Reads (IsAddressText Ipv4) ipv4_error t.now result }
    { t.parse::<Ipv4Addr>() };
    parsing_around_strict_ipv4_is_strict(&parser);
    equal_errors_are_the_same();
    match parse_cidr::<Ipv4Cidr, _>(s, parser) {
        Ok(network) => Ok((network, false)),
        Err(e) if e == NetworkParseError::InvalidHostPart => {
            ipv4_text_spells_one();
            last_cut_is_one();
            ignoring_host_bits_accepts_them();
            Ok((parse_cidr_ignore_hostbits(s, parser)?, true))
        }
        Err(e) => Err(e),
    }
}
