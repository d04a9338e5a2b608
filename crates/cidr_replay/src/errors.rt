//! Errors, and operations on them.

use crate::answer::Answer;
use crate::tokens::Tokens;
use cidr::errors::{CompactError, InetTupleError, NetworkParseError, PrefixBytesError};
use cidr::{AnyIpCidr, IpAddr, IpCidr, IpInet, Ipv4Cidr, Ipv6Cidr};

/// Appends the error of a network.
pub fn of_network(error: &NetworkParseError, answer: &mut Answer) {
    let kind = match error {
        NetworkParseError::InvalidHostPart => "InvalidHostPart",
        NetworkParseError::AddrParseError(_) => "AddrParseError",
        NetworkParseError::NetworkLengthParseError(_) => "NetworkLengthParseError",
        NetworkParseError::NetworkLengthTooLongError(_) => "NetworkLengthTooLongError",
    };
    answer.error(kind, error);
}

/// Appends the error of compact bytes.
pub fn of_compact(error: &CompactError, answer: &mut Answer) {
    let kind = match error {
        CompactError::Truncated => "Truncated",
        CompactError::InvalidTag => "InvalidTag",
        CompactError::InvalidAny => "InvalidAny",
        CompactError::InvalidFamily(_) => "InvalidFamily",
        CompactError::InvalidHostPart => "InvalidHostPart",
    };
    answer.error(kind, error);
}

/// Appends the error of prefix bytes.
pub fn of_prefix(error: &PrefixBytesError, answer: &mut Answer) {
    let kind = match error {
        PrefixBytesError::LengthTooLong => "LengthTooLong",
        PrefixBytesError::Truncated => "Truncated",
    };
    answer.error(kind, error);
}

/// Answers the operation on errors that has this name.
pub fn answer(name: &str, kind: &str, tokens: &mut Tokens<'_>, answer: &mut Answer) -> Option<()> {
    match name {
        "eq" => {
            let one = network_error(kind, tokens.word()?)?;
            let other = network_error(tokens.word()?, tokens.word()?)?;
            answer.show(&(one == other));
        }
        _ if kind != "ip" => return None,
        "from_address" => {
            let error = tokens.text()?.parse::<IpAddr>().err()?;
            of_network(&NetworkParseError::from(error), answer);
        }
        "from_length" => {
            let error = IpInet::new(tokens.value()?, tokens.value()?).err()?;
            of_network(&NetworkParseError::from(error.clone().ok()?), answer);
            answer.error("NetworkLengthTooLongError", &InetTupleError::from(error));
        }
        _ => return None,
    }
    Some(())
}

/// The error of a string behind `=` that is no network of this type.
fn network_error(kind: &str, word: &str) -> Option<NetworkParseError> {
    let text = word.strip_prefix('=')?;
    match kind {
        "v4" => text.parse::<Ipv4Cidr>().err(),
        "v6" => text.parse::<Ipv6Cidr>().err(),
        "ip" => text.parse::<IpCidr>().err(),
        _ => text.parse::<AnyIpCidr>().err(),
    }
}
