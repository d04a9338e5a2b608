//! The error of an address string.
ghost use Rattle.std.specs.Prelude.{◌≡◌, Some};

use crate::family::Family;
use arrayvec::ArrayString;
use std::error::Error;
use std::fmt;
use std::marker::Model;

/// The string is no address of the type that was parsed: `Ipv4Addr`, `Ipv6Addr` or `IpAddr`.
///
/// Its message, also under `{:?}`, names the family: `invalid IPv4 address syntax`, `invalid IPv6 address syntax` or
/// `invalid IP address syntax`. Two such errors are equal if the same type was parsed; the string is not kept.
///
/// ```
/// "192.0.2".parse::<Ipv4Addr>() // Err(invalid IPv4 address syntax)
/// "192.0.2".parse::<IpAddr>() // Err(invalid IP address syntax)
/// ```
#[derive(Clone, Drop, PartialEq, Eq)]
pub struct AddrParseError {
    /// The family that was parsed; `None` where either was.
    family: Option<Family>,
}

impl Model for AddrParseError {
    ghost use Rattle.cidr.specs.model.Errors.{AddressError};

    ghost Value = { AddressError };

    ghost view = { λ e. e.family };

    ghost inverse = { λ family. record { family = family } };
}

impl AddrParseError {
    ghost use Rattle.cidr.specs.texts.Messages.{ipv4_error, ipv6_error, ip_error, address_message};

    pub(crate) fn ipv4() -> AddrParseError
        ensures { result ≡ ipv4_error }
    {
        AddrParseError {
            family: Some(Family::Ipv4),
        }
    }

    pub(crate) fn ipv6() -> AddrParseError
        ensures { result ≡ ipv6_error }
    {
        AddrParseError {
            family: Some(Family::Ipv6),
        }
    }

    pub(crate) fn ip() -> AddrParseError
        ensures { result ≡ ip_error }
    {
        AddrParseError { family: None }
    }

    /// The message, as it is printed, in an `ArrayString`, so that nothing is allocated. It has at most 27 bytes.
    ///
    /// ```
    /// let parsed = "::1%1".parse::<Ipv6Addr>();
    /// parsed.map_err(|e| e.to_text()) // Err("invalid IPv6 address syntax")
    /// ```
    pub fn to_text(&self) -> ArrayString<27>
        ensures { result.bytes ≡ address_message self.now }
    {
        let mut text = ArrayString::new();
        text.push_str(match self.family {
            Some(Family::Ipv4) => "invalid IPv4 address syntax",
            Some(Family::Ipv6) => "invalid IPv6 address syntax",
            None => "invalid IP address syntax",
        });
        text
    }
}

impl fmt::Display for AddrParseError {
    ghost use Rattle.cidr.specs.texts.Messages.{address_message};

    ghost output = { λ e. Some (address_message e) };

    fn fmt<W: fmt::Write>(&self, f: &mut fmt::Formatter<W>) -> fmt::Result {
        f.write_str(self.to_text().as_str())
    }
}

impl fmt::Debug for AddrParseError {
    ghost use Rattle.cidr.specs.texts.Messages.{address_message};

    ghost debug_output = { λ e. Some (address_message e) };

    fn fmt<W: fmt::Write>(&self, f: &mut fmt::Formatter<W>) -> fmt::Result {
        fmt::Display::fmt(self, f)
    }
}

impl Error for AddrParseError {}
