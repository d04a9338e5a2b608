//! The errors of networks, hosts and pairs, of their strings, and of compact and prefix bytes.
ghost use Rattle.std.specs.Prelude.{◌≡◌, ◌≤◌, length, Some};
ghost use Rattle.cidr.specs.texts.Messages.{limit_message};

use crate::addr::decimal::decimal_text;
use crate::addr::error::AddrParseError;
use crate::family::Family;
use arrayvec::ArrayString;
use std::error::Error;
use std::fmt;
use std::marker::Model;

const INVALID_LENGTH_TEXT: &str = "invalid length text";

/// What follows the last slash is no prefix length: an optional `+` and decimal digits of a value up to 255.
///
/// Its message is `invalid length text`, also under `{:?}`.
///
/// ```
/// "::/64x".parse::<Ipv6Cidr>() // Err(couldn't parse length in network: invalid length text)
/// ```
#[derive(Clone, Drop, PartialEq, Eq)]
pub struct ParseIntError {}

impl fmt::Display for ParseIntError {
    ghost use Rattle.cidr.specs.texts.Messages.{length_message};

    ghost output = { λ _. Some length_message };

    fn fmt<W: fmt::Write>(&self, f: &mut fmt::Formatter<W>) -> fmt::Result {
        f.write_str(INVALID_LENGTH_TEXT)
    }
}

impl fmt::Debug for ParseIntError {
    ghost use Rattle.cidr.specs.texts.Messages.{length_message};

    ghost debug_output = { λ _. Some length_message };

    fn fmt<W: fmt::Write>(&self, f: &mut fmt::Formatter<W>) -> fmt::Result {
        fmt::Display::fmt(self, f)
    }
}

impl Error for ParseIntError {}

/// The prefix length is above the width of the family, 32 or 128.
///
/// Its message names both, also under `{:?}`: `Network length 33 is too long for Ipv4 (maximum: 32)`.
///
/// ```
/// let made = Ipv4Inet::new(Ipv4Addr::new(10, 4, 3, 2), 33);
/// made // Err(Network length 33 is too long for Ipv4 (maximum: 32))
/// ```
#[derive(Clone, Drop, PartialEq, Eq, Hash)]
pub struct NetworkLengthTooLongError {
    len: usize,
    family: Family,
}

impl Model for NetworkLengthTooLongError {
    ghost use Rattle.cidr.specs.model.Errors.{LengthError};

    ghost Value = { LengthError };

    ghost view = { λ e. (e.len, e.family) };

    ghost inverse = { λ e. record { len = e.0; family = e.1 } };
}

impl NetworkLengthTooLongError {
    ghost use Rattle.cidr.specs.model.Network.{too_long};
    ghost use Rattle.cidr.specs.texts.Messages.{too_long_message};

    pub(crate) fn new(len: usize, family: Family) -> NetworkLengthTooLongError
        ensures { result ≡ too_long len family }
    {
        NetworkLengthTooLongError { len, family }
    }

    /// The message, with room for the 20 digits that a `usize` may have.
    fn to_text(&self) -> ArrayString<71>
        ensures { result.bytes ≡ too_long_message self.now }
    {
        let mut text = ArrayString::new();
        text.push_str("Network length ");
        text.push_str(decimal_text(self.len).as_str());
        text.push_str(limit_text(self.family));
        text
    }
}

/// What stands after the length.
fn limit_text(family: Family) -> &'static str
    ensures text { result.now ≡ limit_message family }
    ensures len { length result.now ≤ 36 }
{
    match family {
        Family::Ipv4 => " is too long for Ipv4 (maximum: 32)",
        Family::Ipv6 => " is too long for Ipv6 (maximum: 128)",
    }
}

impl fmt::Display for NetworkLengthTooLongError {
    ghost use Rattle.cidr.specs.texts.Messages.{too_long_message};

    ghost output = { λ e. Some (too_long_message e) };

    fn fmt<W: fmt::Write>(&self, f: &mut fmt::Formatter<W>) -> fmt::Result {
        f.write_str(self.to_text().as_str())
    }
}

impl fmt::Debug for NetworkLengthTooLongError {
    ghost use Rattle.cidr.specs.texts.Messages.{too_long_message};

    ghost debug_output = { λ e. Some (too_long_message e) };

    fn fmt<W: fmt::Write>(&self, f: &mut fmt::Formatter<W>) -> fmt::Result {
        fmt::Display::fmt(self, f)
    }
}

impl Error for NetworkLengthTooLongError {}

/// Why a network cannot be made, or a string is not parsed as a network or a host.
///
/// Parsing returns the first of these errors: the address, the string of the prefix length, a prefix length above the
/// width, a set bit after the prefix. Parsing a host never returns the last.
///
/// ```
/// "10.0.0.1/8".parse::<Ipv4Cidr>() // Err(host part of address was not zero)
/// "10.0.0.1".parse::<Ipv4Cidr>() // Ok(10.0.0.1/32)
/// ```
#[derive(Clone, Drop, PartialEq)]
pub enum NetworkParseError {
    /// A bit after the prefix is set: `host part of address was not zero`.
    InvalidHostPart,
    /// What precedes the last slash, or the whole string where there is no slash, is no address.
    AddrParseError(AddrParseError),
    /// What follows the last slash is no prefix length.
    NetworkLengthParseError(ParseIntError),
    /// The prefix length is above the width of the family.
    NetworkLengthTooLongError(NetworkLengthTooLongError),
}

impl NetworkParseError {
    ghost use Rattle.cidr.specs.texts.Messages.{parse_message};

    /// The message, as it is printed, in an `ArrayString`, so that nothing is allocated. It has at most 99 bytes.
    ///
    /// ```
    /// let parsed = "10.0.0.1/8".parse::<Ipv4Cidr>();
    /// parsed.map_err(|e| e.to_text()) // Err("host part of address was not zero")
    /// ```
    pub fn to_text(&self) -> ArrayString<99>
        ensures { result.bytes ≡ parse_message self.now }
    {
        let mut text = ArrayString::new();
        match self {
            NetworkParseError::InvalidHostPart => text.push_str(
                "host part of address was not zero",
            ),
            NetworkParseError::AddrParseError(e) => {
                text.push_str("couldn't parse address in network: ");
                text.push_str(e.to_text().as_str());
            }
            NetworkParseError::NetworkLengthParseError(_) => {
                text.push_str("couldn't parse length in network: ");
                text.push_str(INVALID_LENGTH_TEXT);
            }
            NetworkParseError::NetworkLengthTooLongError(e) => {
                text.push_str("invalid length for network: ");
                text.push_str(e.to_text().as_str());
            }
        }
        text
    }
}

impl fmt::Display for NetworkParseError {
    ghost use Rattle.cidr.specs.texts.Messages.{parse_message};

    ghost output = { λ e. Some (parse_message e) };

    fn fmt<W: fmt::Write>(&self, f: &mut fmt::Formatter<W>) -> fmt::Result {
        f.write_str(self.to_text().as_str())
    }
}

impl fmt::Debug for NetworkParseError {
    ghost use Rattle.cidr.specs.texts.Messages.{parse_message};

    ghost debug_output = { λ e. Some (parse_message e) };

    fn fmt<W: fmt::Write>(&self, f: &mut fmt::Formatter<W>) -> fmt::Result {
        fmt::Display::fmt(self, f)
    }
}

impl Error for NetworkParseError {}

impl From<AddrParseError> for NetworkParseError {
    ghost use Rattle.cidr.specs.declared.errors.NetworkParseError.TheVariants as parse_error;

    ghost from_gives = { λ a e. e ≡ parse_error.AddrParseError a };

    fn from(e: AddrParseError) -> NetworkParseError {
        NetworkParseError::AddrParseError(e)
    }
}

impl From<NetworkLengthTooLongError> for NetworkParseError {
    ghost use Rattle.cidr.specs.declared.errors.NetworkParseError.TheVariants as parse_error;

    ghost from_gives = { λ a e. e ≡ parse_error.NetworkLengthTooLongError a };

    fn from(e: NetworkLengthTooLongError) -> NetworkParseError {
        NetworkParseError::NetworkLengthTooLongError(e)
    }
}

/// Why two hosts, or two addresses and a prefix length, are no pair.
///
/// ```
/// let (one, other) = ("10.0.0.1/8".parse()?, "11.0.0.1/8".parse()?);
/// Ipv4InetPair::new(one, other) // Err(addresses not in shared network)
/// ```
#[derive(Clone, Drop, PartialEq)]
pub enum InetTupleError {
    /// The families differ, the prefix lengths of two hosts differ, or the two are in different networks: `addresses
    /// not in shared network`.
    NotInSharedNetwork,
    /// The prefix length is above the width of the family.
    NetworkLengthTooLongError(NetworkLengthTooLongError),
}

impl fmt::Display for InetTupleError {
    ghost use Rattle.cidr.specs.texts.Messages.{pair_message};

    ghost output = { λ e. Some (pair_message e) };

    fn fmt<W: fmt::Write>(&self, f: &mut fmt::Formatter<W>) -> fmt::Result {
        match self {
            InetTupleError::NotInSharedNetwork => f.write_str("addresses not in shared network"),
            InetTupleError::NetworkLengthTooLongError(e) => {
                write!(f, "invalid length for network: {e}")
            }
        }
    }
}

impl fmt::Debug for InetTupleError {
    ghost use Rattle.cidr.specs.texts.Messages.{pair_message};

    ghost debug_output = { λ e. Some (pair_message e) };

    fn fmt<W: fmt::Write>(&self, f: &mut fmt::Formatter<W>) -> fmt::Result {
        fmt::Display::fmt(self, f)
    }
}

impl Error for InetTupleError {}

impl From<NetworkLengthTooLongError> for InetTupleError {
    ghost use Rattle.cidr.specs.declared.errors.InetTupleError.TheVariants as pair_error;

    ghost from_gives = { λ a e. e ≡ pair_error.NetworkLengthTooLongError a };

    fn from(e: NetworkLengthTooLongError) -> InetTupleError {
        InetTupleError::NetworkLengthTooLongError(e)
    }
}

/// Why bytes are not parsed as compact bytes.
///
/// Parsing returns the first of these that applies: no byte at all (`Truncated`), `InvalidTag`, too few octets
/// (`Truncated`), `InvalidAny`, `InvalidFamily`, `InvalidHostPart`.
#[derive(Clone, Drop, PartialEq, Eq)]
pub enum CompactError {
    /// There is no byte, or there are fewer octets than the tag says: `compact bytes end too early`.
    Truncated,
    /// The tag is that of no prefix length in either family, and not that of `any`: `invalid tag`.
    InvalidTag,
    /// The tag is that of `any`, which only `AnyIpCidr` has: ``invalid value: `any` ``.
    InvalidAny,
    /// The tag is of this family, and the type is of the other one: ``invalid type: `Ipv4Addr` `` or ``invalid type:
    /// `Ipv6Addr` ``.
    InvalidFamily(Family),
    /// A bit after the prefix is set, and the type is a network: `host part of address was not zero`.
    InvalidHostPart,
}

impl CompactError {
    ghost use Rattle.cidr.specs.texts.Messages.{compact_message};

    /// The message, as it is printed, in an `ArrayString`, so that nothing is allocated. It has at most 33 bytes.
    ///
    /// ```
    /// let parsed = Ipv4Cidr::from_compact(&[64]);
    /// parsed.map_err(|e| e.to_text()) // Err("compact bytes end too early")
    /// ```
    pub fn to_text(&self) -> ArrayString<33>
        ensures { result.bytes ≡ compact_message self.now }
    {
        let mut text = ArrayString::new();
        text.push_str(match self {
            CompactError::Truncated => "compact bytes end too early",
            CompactError::InvalidTag => "invalid tag",
            CompactError::InvalidAny => "invalid value: `any`",
            CompactError::InvalidFamily(Family::Ipv4) => "invalid type: `Ipv4Addr`",
            CompactError::InvalidFamily(Family::Ipv6) => "invalid type: `Ipv6Addr`",
            CompactError::InvalidHostPart => "host part of address was not zero",
        });
        text
    }
}

impl fmt::Display for CompactError {
    ghost use Rattle.cidr.specs.texts.Messages.{compact_message};

    ghost output = { λ e. Some (compact_message e) };

    fn fmt<W: fmt::Write>(&self, f: &mut fmt::Formatter<W>) -> fmt::Result {
        f.write_str(self.to_text().as_str())
    }
}

impl fmt::Debug for CompactError {
    ghost use Rattle.cidr.specs.texts.Messages.{compact_message};

    ghost debug_output = { λ e. Some (compact_message e) };

    fn fmt<W: fmt::Write>(&self, f: &mut fmt::Formatter<W>) -> fmt::Result {
        fmt::Display::fmt(self, f)
    }
}

impl Error for CompactError {}

/// Why bytes are not parsed as prefix bytes.
///
/// Parsing returns the first of these that applies: no byte at all (`Truncated`), `LengthTooLong`, too few octets
/// (`Truncated`).
#[derive(Clone, Drop, PartialEq, Eq)]
pub enum PrefixBytesError {
    /// The prefix length is above the width of the family, 32 or 128: `prefix length is too long`.
    LengthTooLong,
    /// There is no byte, or there are fewer octets than hold the prefix: `prefix bytes end too early`.
    Truncated,
}

impl PrefixBytesError {
    ghost use Rattle.cidr.specs.texts.Messages.{prefix_message};

    /// The message, as it is printed, in an `ArrayString`, so that nothing is allocated. It has at most 26 bytes.
    ///
    /// ```
    /// let parsed = Ipv4Cidr::from_prefix_bytes(&[33]);
    /// parsed.map_err(|e| e.to_text()) // Err("prefix length is too long")
    /// ```
    pub fn to_text(&self) -> ArrayString<26>
        ensures { result.bytes ≡ prefix_message self.now }
    {
        let mut text = ArrayString::new();
        text.push_str(match self {
            PrefixBytesError::LengthTooLong => "prefix length is too long",
            PrefixBytesError::Truncated => "prefix bytes end too early",
        });
        text
    }
}

impl fmt::Display for PrefixBytesError {
    ghost use Rattle.cidr.specs.texts.Messages.{prefix_message};

    ghost output = { λ e. Some (prefix_message e) };

    fn fmt<W: fmt::Write>(&self, f: &mut fmt::Formatter<W>) -> fmt::Result {
        f.write_str(self.to_text().as_str())
    }
}

impl fmt::Debug for PrefixBytesError {
    ghost use Rattle.cidr.specs.texts.Messages.{prefix_message};

    ghost debug_output = { λ e. Some (prefix_message e) };

    fn fmt<W: fmt::Write>(&self, f: &mut fmt::Formatter<W>) -> fmt::Result {
        fmt::Display::fmt(self, f)
    }
}

impl Error for PrefixBytesError {}
