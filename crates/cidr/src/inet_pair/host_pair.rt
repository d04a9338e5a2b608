//! The pairs of addresses of one family.
//!
//! Their walk, `iter`, stands beside, in `v4` and `v6`.
ghost use Rattle.std.specs.Prelude.{◌≡◌, ◌+◌, ◌*◌, ◌≤◌, length, Some};
ghost use Rattle.std.specs.Cmp.{partial_equiv_from_equiv};
ghost use Rattle.cidr.specs.model.Network.{width_of};
ghost use Rattle.cidr.specs.model.Pair.{IsPair, pair_eq};
ghost use Rattle.cidr.specs.laws.PairLaws.{pair_eq_equiv, same_pair_image};
ghost use Rattle.cidr.specs.texts.Printed.{pair_text};

use crate::addr::v4::Ipv4Addr;
use crate::addr::v6::Ipv6Addr;
use crate::cidr::network::{Ipv4Cidr, Ipv6Cidr, Network};
use crate::errors::{InetTupleError, NetworkLengthTooLongError};
use crate::family::Family;
use crate::inet::host::{Host, Ipv4Inet, Ipv6Inet};
use crate::inet_iterator::InetIterator;
use crate::internal_traits::address_bits::{AddressBits, AddressText};
use crate::text::print::{forced, parenthesized, plain};
use crate::text::with_length::WithLength;
use crate::traits::InetPair;
use arrayvec::ArrayString;
use std::alloc::AllocError;
use std::fmt;
use std::hash::{Hash, Hasher};
use std::marker::Model;

/// Two addresses of one network, and the prefix length of that network. `Ipv4InetPair` and `Ipv6InetPair` are its two
/// types.
///
/// It is a range of addresses, from the first to the second inclusive. The first may be above the second; the range has
/// no address then. The prefix length is at most 32 in IPv4 and 128 in IPv6. It is printed and not parsed, and has no
/// order.
///
/// ```
/// let host = "192.0.2.49/28".parse::<Ipv4Inet>()?;
/// Ipv4InetPair::new(host, host.last())? // (192.0.2.49/28, 192.0.2.63/28)
/// ```
pub struct HostPair<A: AddressBits> {
    first: A,
    second: A,
    len: u8,
}

/// Two IPv4 addresses of one network, as (192.0.2.49/28, 192.0.2.51/28).
pub type Ipv4InetPair = HostPair<Ipv4Addr>;

/// Two IPv6 addresses of one network, as (2001:db8::1/32, 2001:db8::5/32).
pub type Ipv6InetPair = HostPair<Ipv6Addr>;

impl<A: AddressBits> Model for HostPair<A> {
    ghost use Rattle.cidr.specs.model.Network.{width_of};
    ghost use Rattle.cidr.specs.model.Pair.{Pair, IsPair};

    ghost Value = { Pair };

    ghost view = { λ p. record { first = A.bits p.first; second = A.bits p.second; len = p.len } };

    ghost invariant = { λ p. IsPair (width_of A.FAMILY)
        (record { first = A.bits p.first; second = A.bits p.second; len = p.len }) };

    ghost inverse = { λ p. record { first = A.of_bits p.first; second = A.of_bits p.second; len = p.len } };

    ghost inverse_ok = { λ p _ i.
        record { first = A.restored p.first i; second = A.restored p.second i; len = p.len } };
}

impl<A: AddressBits> Clone for HostPair<A> {
    ghost is_clone = { λ pair copy. copy ≡ pair };

    ghost is_infallible = { λ _. Unit {0} };

    fn clone(&self) -> Result<HostPair<A>, AllocError> {
        Ok(*self)
    }
}

impl<A: AddressBits> Copy for HostPair<A> {}

impl<A: AddressBits> HostPair<A> {
    ghost use Rattle.cidr.specs.model.Pair.{first_of_pair, second_of_pair, network_of_pair, shared_pair, pair_of, pair_from};

    /// The pair of two hosts. Returns `NotInSharedNetwork` for hosts of different prefix lengths or of different
    /// networks.
    ///
    /// ```
    /// let (first, second) = ("10.0.0.1/8".parse()?, "10.0.0.3/8".parse()?);
    /// Ipv4InetPair::new(first, second)? // (10.0.0.1/8, 10.0.0.3/8)
    /// ```
    pub fn new(first: Host<A>, second: Host<A>) -> Result<HostPair<A>, InetTupleError>
        ensures { result ≡ pair_of first second }
    {
        if first.network_length() != second.network_length() {
            return Err(InetTupleError::NotInSharedNetwork);
        }
        HostPair::sharing(first.address(), second.address(), first.network_length())
    }

    /// The pair of two addresses in a network of this prefix length.
    ///
    /// Returns `NetworkLengthTooLongError` for a prefix length above the width, 32 or 128, and then
    /// `NotInSharedNetwork` for addresses whose first `len` bits differ.
    ///
    /// ```
    /// let (first, last) = ("192.0.2.1".parse()?, "192.0.2.129".parse()?);
    /// Ipv4InetPair::new_from_addresses(first, last, 24)? // (192.0.2.1/24, 192.0.2.129/24)
    /// Ipv4InetPair::new_from_addresses(first, last, 25) // Err(addresses not in shared network)
    /// ```
    pub fn new_from_addresses(first: A, second: A, len: u8) -> Result<HostPair<A>, InetTupleError>
        ensures { result ≡ pair_from A.FAMILY (A.bits first) (A.bits second) len }
    {
        if len > A::FAMILY.len() {
            return Err(InetTupleError::NetworkLengthTooLongError(NetworkLengthTooLongError::new(
                len as usize,
                A::FAMILY,
            )));
        }
        HostPair::sharing(first, second, len)
    }

    /// The pair, if both addresses begin with the same `len` bits.
    #[tactic(auto, using(crate::specs::laws::BitLaws::same_laws))]
    fn sharing(first: A, second: A, len: u8) -> Result<HostPair<A>, InetTupleError>
        requires { len ≤ width_of A.FAMILY }
        ensures { result ≡ shared_pair (A.bits first) (A.bits second) len }
    {
        if !first.shares(second, len) {
            return Err(InetTupleError::NotInSharedNetwork);
        }
        // the calls tell the proof how many bits the addresses have
        first.has_width();
        second.has_width();
        Ok(HostPair { first, second, len })
    }

    /// The pair of two addresses that are known to be in one network of this prefix length.
    pub(crate) fn new_unchecked(first: A, second: A, len: u8) -> HostPair<A>
        requires { IsPair (width_of A.FAMILY) (record { first = A.bits first; second = A.bits second; len = len }) }
        ensures { result ≡ record { first = A.bits first; second = A.bits second; len = len } }
    {
        HostPair { first, second, len }
    }

    /// The two addresses.
    pub(crate) fn addresses(&self) -> (A, A)
        ensures first { A.bits result.0 ≡ self.now.first }
        ensures second { A.bits result.1 ≡ self.now.second }
        ensures pair { IsPair (width_of A.FAMILY) self.now }
    {
        (self.first, self.second)
    }

    /// The first address, as a host with the prefix length of the pair.
    ///
    /// ```
    /// let host = "192.0.2.49/28".parse::<Ipv4Inet>()?;
    /// Ipv4InetPair::new(host, host.last())?.first() // 192.0.2.49/28
    /// ```
    pub fn first(&self) -> Host<A>
        ensures value { result ≡ first_of_pair self.now }
        ensures pair { IsPair (width_of A.FAMILY) self.now }
    {
        Host::new_unchecked(self.first, self.len)
    }

    /// The second address, as a host with the prefix length of the pair.
    ///
    /// ```
    /// let host = "192.0.2.49/28".parse::<Ipv4Inet>()?;
    /// Ipv4InetPair::new(host, host.last())?.second() // 192.0.2.63/28
    /// ```
    pub fn second(&self) -> Host<A>
        ensures value { result ≡ second_of_pair self.now }
        ensures pair { IsPair (width_of A.FAMILY) self.now }
    {
        Host::new_unchecked(self.second, self.len)
    }

    /// The network that both addresses are in, of the prefix length of the pair. It may have more addresses than the
    /// pair.
    ///
    /// ```
    /// let host = "192.0.2.49/28".parse::<Ipv4Inet>()?;
    /// Ipv4InetPair::new(host, host)?.network() // 192.0.2.48/28
    /// ```
    pub fn network(&self) -> Network<A>
        ensures { result ≡ network_of_pair self.now }
    {
        self.first().network()
    }

    /// The prefix length in bits, at most 32 in IPv4 and 128 in IPv6.
    ///
    /// ```
    /// let host = "192.0.2.49/28".parse::<Ipv4Inet>()?;
    /// Ipv4InetPair::new(host, host)?.network_length() // 28
    /// ```
    pub fn network_length(&self) -> u8
        ensures value { result ≡ self.now.len }
        ensures fits { result ≤ width_of A.FAMILY }
    {
        self.len
    }

    /// The family of both addresses, which its type tells.
    ///
    /// ```
    /// let host = "192.0.2.49/28".parse::<Ipv4Inet>()?;
    /// Ipv4InetPair::new(host, host)?.family() // Ipv4
    /// ```
    pub fn family(&self) -> Family
        ensures { result ≡ A.FAMILY }
    {
        A::FAMILY
    }

    /// The pair, to be printed with its prefix lengths also where they are full.
    ///
    /// ```
    /// let host = "192.0.2.1".parse::<Ipv4Inet>()?;
    /// Ipv4InetPair::new(host, host)?.with_length() // (192.0.2.1/32, 192.0.2.1/32)
    /// ```
    pub fn with_length(&self) -> WithLength<HostPair<A>>
        ensures { result ≡ self.now }
    {
        WithLength::new(*self)
    }
}

impl<A: AddressText> HostPair<A> {
    ghost use Rattle.cidr.specs.texts.Printed.{plain_host_text, longest_text};

    /// The printed string, both hosts in parentheses and without a full prefix length, in an `ArrayString`, so that
    /// nothing is allocated. It has at most 40 bytes in IPv4 and 90 in IPv6.
    ///
    /// ```
    /// let host = "192.0.2.1".parse::<Ipv4Inet>()?;
    /// Ipv4InetPair::new(host, host)?.to_text() // (192.0.2.1, 192.0.2.1)
    /// ```
    #[tactic(auto, using(crate::proofs::NetworkPrinting::longest_laws))]
    pub fn to_text(&self) -> ArrayString<90>
        ensures text { result.bytes ≡ pair_text (plain_host_text A.FAMILY) self.now }
        ensures len { length result.bytes ≤ 2 * longest_text A.FAMILY + 4 }
    {
        let first = plain(self.first, self.len);
        let second = plain(self.second, self.len);
        parenthesized(first.as_str(), second.as_str())
    }
}

impl<A: AddressText> WithLength<HostPair<A>> {
    ghost use Rattle.cidr.specs.texts.Printed.{forced_host_text, longest_text};

    /// The printed string, with the prefix lengths also where they are full: at most 40 bytes in IPv4 and 90 in IPv6.
    ///
    /// ```
    /// let host = "::1".parse::<Ipv6Inet>()?;
    /// let pair = Ipv6InetPair::new(host, host)?;
    /// pair.with_length().to_text() // (::1/128, ::1/128)
    /// ```
    #[tactic(auto, using(crate::proofs::NetworkPrinting::longest_laws))]
    pub fn to_text(&self) -> ArrayString<90>
        ensures text { result.bytes ≡ pair_text (forced_host_text A.FAMILY) self.now }
        ensures len { length result.bytes ≤ 2 * longest_text A.FAMILY + 4 }
    {
        let pair = self.get();
        let first = forced(pair.first, pair.len);
        let second = forced(pair.second, pair.len);
        parenthesized(first.as_str(), second.as_str())
    }
}

impl<A: AddressBits> PartialEq for HostPair<A> {
    ghost eq = { pair_eq };

    ghost laws = { partial_equiv_from_equiv pair_eq_equiv };

    fn eq(&self, other: &HostPair<A>) -> bool {
        self.first == other.first && self.second == other.second && self.len == other.len
    }
}

impl<A: AddressBits> Eq for HostPair<A> {
    ghost laws = { pair_eq_equiv };
}

impl<A: AddressBits> Hash for HostPair<A> {
    ghost use Rattle.cidr.specs.model.Pair.{pair_hash};

    ghost hash_input = { pair_hash A.FAMILY };

    ghost respects_eq = { same_pair_image (pair_hash A.FAMILY) };

    fn hash<H: Hasher>(&self, state: &mut H) {
        self.first.hash(state);
        self.second.hash(state);
        self.len.hash(state);
    }
}

impl<A: AddressText> fmt::Display for HostPair<A> {
    ghost use Rattle.cidr.specs.texts.Printed.{plain_host_text};

    ghost output = { λ p. Some (pair_text (plain_host_text A.FAMILY) p) };

    fn fmt<W: fmt::Write>(&self, f: &mut fmt::Formatter<W>) -> fmt::Result {
        f.write_str(self.to_text().as_str())
    }
}

impl<A: AddressText> fmt::Display for WithLength<HostPair<A>> {
    ghost use Rattle.cidr.specs.texts.Printed.{forced_host_text};

    ghost output = { λ p. Some (pair_text (forced_host_text A.FAMILY) p) };

    fn fmt<W: fmt::Write>(&self, f: &mut fmt::Formatter<W>) -> fmt::Result {
        f.write_str(self.to_text().as_str())
    }
}

impl<A: AddressText> fmt::Debug for HostPair<A> {
    fn fmt<W: fmt::Write>(&self, f: &mut fmt::Formatter<W>) -> fmt::Result {
        let name = match A::FAMILY {
            Family::Ipv4 => "Ipv4InetPair",
            Family::Ipv6 => "Ipv6InetPair",
        };
        f.debug_struct(name)
            .field("first", &self.first)
            .field("second", &self.second)
            .field("len", &self.len)
            .finish()
    }
}

#[tactic(auto, using(crate::proofs::Views::view_laws))]
impl InetPair for Ipv4InetPair {
    ghost use Rattle.cidr.specs.laws.EqualLaws.{pair_eq_Decides};

    type Address = Ipv4Addr;

    fn new(first: Ipv4Inet, second: Ipv4Inet) -> Result<Ipv4InetPair, InetTupleError> {
        Ipv4InetPair::new(first, second)
    }

    fn new_from_addresses(
        first: Ipv4Addr,
        second: Ipv4Addr,
        len: u8,
    ) -> Result<Ipv4InetPair, InetTupleError> {
        Ipv4InetPair::new_from_addresses(first, second, len)
    }

    fn first(&self) -> Ipv4Inet {
        self.first()
    }

    fn second(&self) -> Ipv4Inet {
        self.second()
    }

    fn network(&self) -> Ipv4Cidr {
        self.network()
    }

    fn network_length(&self) -> u8 {
        self.network_length()
    }

    fn family(&self) -> Family {
        self.family()
    }

    fn iter(self) -> InetIterator<Ipv4Addr> {
        self.iter()
    }

    ghost equal = { pair_eq_Decides };

    ghost known = { λ _ _ _ h. h };
}

#[tactic(auto, using(crate::proofs::Views::view_laws))]
impl InetPair for Ipv6InetPair {
    ghost use Rattle.cidr.specs.laws.EqualLaws.{pair_eq_Decides};

    type Address = Ipv6Addr;

    fn new(first: Ipv6Inet, second: Ipv6Inet) -> Result<Ipv6InetPair, InetTupleError> {
        Ipv6InetPair::new(first, second)
    }

    fn new_from_addresses(
        first: Ipv6Addr,
        second: Ipv6Addr,
        len: u8,
    ) -> Result<Ipv6InetPair, InetTupleError> {
        Ipv6InetPair::new_from_addresses(first, second, len)
    }

    fn first(&self) -> Ipv6Inet {
        self.first()
    }

    fn second(&self) -> Ipv6Inet {
        self.second()
    }

    fn network(&self) -> Ipv6Cidr {
        self.network()
    }

    fn network_length(&self) -> u8 {
        self.network_length()
    }

    fn family(&self) -> Family {
        self.family()
    }

    fn iter(self) -> InetIterator<Ipv6Addr> {
        self.iter()
    }

    ghost equal = { pair_eq_Decides };

    ghost known = { λ _ _ _ h. h };
}
