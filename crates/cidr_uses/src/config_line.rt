//! A line of a configuration: `allow 10.0.0.0/8`, `allow 2001:db8::/32` or `allow any`.
ghost use Rattle.std.specs.Prelude.{◌≡◌, IfOk};
ghost use Rattle.std.specs.String.{string_bytes};
ghost use Rattle.cidr_uses.specs.ConfigLine.{ReadsConfigLine, config_line_message};

use cidr::AnyIpCidr;
use cidr::errors::NetworkParseError;
use std::alloc::{AllocError, Global};
use std::error::Error;
use std::fmt;

/// Why a line allows no network.
#[derive(Debug, Drop)]
pub enum LineError {
    /// The line does not begin with `allow` and a blank.
    NotAllow,
    /// What follows `allow` and a blank is no network.
    Network(NetworkParseError),
}

impl fmt::Display for LineError {
    ghost use Rattle.std.specs.Prelude.{Some};
    ghost use Rattle.cidr_uses.specs.ConfigLine.{config_line_message};

    ghost output = { λ e. Some (config_line_message e) };

    fn fmt<W: fmt::Write>(&self, f: &mut fmt::Formatter<W>) -> fmt::Result {
        match self {
            LineError::NotAllow => f.write_str("expected `allow NETWORK`"),
            LineError::Network(e) => write!(f, "allow: {e}"),
        }
    }
}

impl Error for LineError {}

impl From<NetworkParseError> for LineError {
    ghost use Rattle.std.specs.Prelude.{◌≡◌};
    ghost use Rattle.cidr_uses.specs.declared.config_line.LineError.TheVariants as line_error;

    ghost from_gives = { λ e line. line ≡ line_error.Network e };

    fn from(e: NetworkParseError) -> LineError {
        LineError::Network(e)
    }
}

/// The network that a line allows. Nothing may stand after the network, and one blank before it.
///
/// Returns an error for a line that does not begin with `allow` and a blank, and then for a string after that which is
/// no network, with the error of parsing the network: `allow 10.0.0.1/8` has a host part that is not zero.
pub fn allowed_network(line: &str) -> Result<AnyIpCidr, LineError>
    ensures { ReadsConfigLine line.now result }
{
    match line.strip_prefix("allow ") {
        None => Err(LineError::NotAllow),
        Some(text) => Ok(text.parse::<AnyIpCidr>()?),
    }
}

/// The message of an error, as a string of its own.
pub fn message(alloc: Global, error: &LineError) -> Result<String, AllocError>
    ensures { IfOk result (λ text. string_bytes text ≡ config_line_message error.now) }
{
    format!(in alloc; "{error}")
}
