//! Prefix bytes: the prefix length in one octet, and the fewest octets that hold the prefix.
ghost use Rattle.std.specs.Prelude.{◌≡◌, ◌≤◌, ℕ, length};
ghost use Rattle.cidr.specs.bytes.Prefix.{octets_for, prefix_bytes, SpellsPrefix, ReadsPrefix};
ghost use Rattle.cidr.specs.model.Network.{width_of};
ghost use Rattle.cidr.specs.model.Views.{seen};

use crate::bits::NetworkBits;
use crate::cidr::network::Network;
use crate::errors::PrefixBytesError;
use crate::prefix_bytes::octets::PrefixOctets;
use arrayvec::ArrayVec;

mod octets;

/// Networks of one family that are written as routing protocols write prefixes: BGP-4 (RFC 4271, 4.3) and its
/// multiprotocol extensions (RFC 4760, 5).
///
/// The prefix length in bits comes first, in one octet, and then as many octets as hold the prefix, the first bits
/// first; 0.0.0.0/0 has no octet but the length. The family isn't written, so that networks of either family have no
/// such bytes.
pub trait PrefixBytes: NetworkBits {
    /// The number of bits of an address, which no prefix length passes.
    ghost width: { ℕ };

    /// The prefix bytes, at most 5 in IPv4 and 17 in IPv6. The bits of the last octet after the prefix are zero.
    ///
    /// `from_prefix_bytes` parses them, with anything after them, as this network and exactly their number.
    ///
    /// ```
    /// "10.0.0.0/8".parse::<Ipv4Cidr>()?.to_prefix_bytes() // [8, 10]
    /// "2001::/16".parse::<Ipv6Cidr>()?.to_prefix_bytes() // [16, 32, 1]
    /// ```
    fn to_prefix_bytes(&self) -> ArrayVec<u8, 17>
        ensures bytes { result.items ≡ prefix_bytes (Self.bits self.now) }
        ensures spells { SpellsPrefix width result.items (Self.bits self.now) };

    /// The network whose prefix bytes come first, and how many they are. The bytes after them are ignored, and so are
    /// the bits of the last octet after the prefix (RFC 4271, 4.3: their value is irrelevant).
    ///
    /// Where no network's bytes come first, it returns the first error of: no byte (`Truncated`), `LengthTooLong`, too
    /// few octets (`Truncated`).
    ///
    /// ```
    /// Ipv4Cidr::from_prefix_bytes(&[9, 10, 255, 8]) // Ok((10.128.0.0/9, 3))
    /// Ipv4Cidr::from_prefix_bytes(&[33]) // Err(prefix length is too long)
    /// Ipv6Cidr::from_prefix_bytes(&[128, 0]) // Err(prefix bytes end too early)
    /// ```
    fn from_prefix_bytes(bytes: &[u8]) -> Result<(Self, usize), PrefixBytesError>
        ensures { ReadsPrefix width bytes.now (seen (λ read. (Self.bits read.0, read.1)) result) };
}

/// The number of octets that hold a prefix of this length.
fn octets_for(len: u8) -> usize
    ensures { result ≡ octets_for len }
{
    usize::from(len).div_ceil(8)
}

impl<A: PrefixOctets> PrefixBytes for Network<A> {
    ghost width = { width_of A.FAMILY };

    fn to_prefix_bytes(&self) -> ArrayVec<u8, 17> {
        let len = self.network_length();
        let mut bytes = ArrayVec::new();
        bytes.push(len);
        self.first_address()
            .push_octets(octets_for(len), &mut bytes);
        bytes
    }

    fn from_prefix_bytes(bytes: &[u8]) -> Result<(Network<A>, usize), PrefixBytesError> {
        let [len, octets @ ..] = bytes else {
            return Err(PrefixBytesError::Truncated);
        };
        if *len > A::FAMILY.len() {
            return Err(PrefixBytesError::LengthTooLong);
        }
        let count = octets_for(*len);
        if octets.len() < count {
            return Err(PrefixBytesError::Truncated);
        }
        // the network of the first `len` bits, whatever octets follow
        let address = A::of_octets(octets);
        Ok((Network::holding(address, *len), 1 + count))
    }
}
