//! The hosts of one family.
//!
//! The steps of IPv4 hosts that are a `u32` stand beside, in `v4`; the compact bytes in `compact::one_family`, and the
//! bits of a host's network as a string in `bits::host`.
ghost use Rattle.std.specs.Prelude.{◌≡◌, ◌+◌, ◌-◌, ◌<◌, ◌≤◌, ◌↔◌, length, IsTrue, IfSome, Some, refl};
ghost use Rattle.std.specs.Cmp.{partial_equiv_from_equiv};
ghost use Rattle.std.specs.Ordering.{as_partial_cmp};
ghost use Rattle.cidr.specs.model.Network.{width_of};
ghost use Rattle.cidr.specs.model.Host.{IsHost, host_cmp, host_eq, host_part, host_count, with_host_part};
ghost use Rattle.cidr.specs.laws.HostLaws.{host_cmp_total, host_cmp_po, host_eq_equiv, host_eq_ties, same_host_image};

use crate::addr::v4::Ipv4Addr;
use crate::addr::v6::Ipv6Addr;
use crate::cidr::network::Network;
use crate::errors::{NetworkLengthTooLongError, NetworkParseError};
use crate::family::Family;
use crate::internal_traits::address_bits::{AddressBits, AddressText};
use crate::text::print::{append, forced, plain};
use crate::text::read::{cut_at_last_slash, read_length};
use crate::text::with_length::WithLength;
use arrayvec::ArrayString;
use std::alloc::AllocError;
use std::cmp::Ordering;
use std::fmt;
use std::hash::{Hash, Hasher};
use std::marker::Model;
use std::ops::{Add, Sub};
use std::str::FromStr;

/// A host of one family: an address in its network, as 192.0.2.50/28 or 2001:db8::5/32. `Ipv4Inet` and `Ipv6Inet` are
/// its two types; PostgreSQL's type `inet` is alike.
///
/// It keeps all bits of the address, and its prefix length, at most 32 in IPv4 and 128 in IPv6, says which network it
/// is in. Steps stay in the network: they change the bits after the prefix only. Hosts are ordered by address and then
/// by prefix length. A string is parsed as that of a network is, but that a set bit after the prefix is no error; with
/// no slash it is a host of full prefix length.
///
/// ```
/// "192.0.2.50/28".parse::<Ipv4Inet>()? // 192.0.2.50/28
/// "192.0.2.50/33".parse::<Ipv4Inet>().is_err() // true
/// ```
pub struct Host<A: AddressBits> {
    address: A,
    len: u8,
}

/// An IPv4 host, as 192.0.2.50/28: the prefix length is at most 32.
pub type Ipv4Inet = Host<Ipv4Addr>;

/// An IPv6 host, as 2001:db8::5/32: the prefix length is at most 128.
pub type Ipv6Inet = Host<Ipv6Addr>;

impl<A: AddressBits> Model for Host<A> {
    ghost use Rattle.cidr.specs.model.Host.{Host, IsHost};
    ghost use Rattle.cidr.specs.model.Network.{width_of};

    ghost Value = { Host };

    ghost view = { λ h. record { address = A.bits h.address; len = h.len } };

    ghost invariant = { λ h. IsHost (width_of A.FAMILY) (record { address = A.bits h.address; len = h.len }) };

    ghost inverse = { λ h. record { address = A.of_bits h.address; len = h.len } };

    ghost inverse_ok = { λ h _ i. record { address = A.restored h.address i; len = h.len } };
}

impl<A: AddressBits> Clone for Host<A> {
    ghost is_clone = { λ host copy. copy ≡ host };

    ghost is_infallible = { λ _. Unit {0} };

    fn clone(&self) -> Result<Host<A>, AllocError> {
        Ok(*self)
    }
}

impl<A: AddressBits> Copy for Host<A> {}

impl<A: AddressBits> Host<A> {
    ghost use Rattle.cidr.specs.model.Network.{first_of, last_of, mask_of, BeginsWith};
    ghost use Rattle.cidr.specs.model.Host.{network_of, first_host, last_host, lone_host, host_from, stepped_up, WrapsUp, stepped_down, WrapsDown, next_of, previous_of};

    /// The host of an address in the network of its first `len` bits.
    ///
    /// Returns an error only for a prefix length above the width, 32 or 128.
    ///
    /// ```
    /// Ipv4Inet::new(Ipv4Addr::new(192, 0, 2, 50), 28)? // 192.0.2.50/28
    /// Ipv6Inet::new(Ipv6Addr::from_bits(1), 129).is_err() // true
    /// ```
    pub fn new(addr: A, len: u8) -> Result<Host<A>, NetworkLengthTooLongError>
        ensures { result ≡ host_from A.FAMILY (A.bits addr) len }
    {
        if len > A::FAMILY.len() {
            return Err(NetworkLengthTooLongError::new(len as usize, A::FAMILY));
        }
        Ok(Host::new_unchecked(addr, len))
    }

    /// The host of an address and a prefix length that is known to be within the width.
    pub(crate) fn new_unchecked(addr: A, len: u8) -> Host<A>
        requires { len ≤ width_of A.FAMILY }
        ensures { result ≡ record { address = A.bits addr; len = len } }
    {
        // the call tells the proof how many bits the address has
        addr.has_width();
        Host { address: addr, len }
    }

    /// The host of full prefix length, whose network has only this address: /32 in IPv4 and /128 in IPv6. It is printed
    /// without the prefix length.
    ///
    /// ```
    /// Ipv4Inet::new_host(Ipv4Addr::new(192, 0, 2, 1)) // 192.0.2.1
    /// Ipv6Inet::new_host(Ipv6Addr::from_bits(1)) // ::1
    /// ```
    pub fn new_host(addr: A) -> Host<A>
        ensures { result ≡ lone_host (width_of A.FAMILY) (A.bits addr) }
    {
        Host::new_unchecked(addr, A::FAMILY.len())
    }

    /// Steps to the next address of the network. From the last one it wraps to the first, and returns true.
    ///
    /// ```
    /// let mut host = "192.0.2.63/28".parse::<Ipv4Inet>()?;
    /// host.increment() // true
    /// host // 192.0.2.48/28
    /// ```
    pub fn increment(&mut self) -> bool
        ensures stepped { self.new ≡ stepped_up (width_of A.FAMILY) self.old 1 }
        ensures wraps { IsTrue result ↔ WrapsUp (width_of A.FAMILY) self.old 1 }
    {
        let (next, wraps) = self.overflowing_add(1);
        *self = next;
        wraps
    }

    /// Steps to the previous address of the network. From the first one it wraps to the last, and returns true.
    ///
    /// ```
    /// let mut host = "2001:db8::/112".parse::<Ipv6Inet>()?;
    /// host.decrement() // true
    /// host // 2001:db8::ffff/112
    /// ```
    pub fn decrement(&mut self) -> bool
        ensures stepped { self.new ≡ stepped_down (width_of A.FAMILY) self.old 1 }
        ensures wraps { IsTrue result ↔ WrapsDown self.old 1 }
    {
        let (previous, wraps) = self.overflowing_sub(1);
        *self = previous;
        wraps
    }

    /// The host at the next address of the network, or `None` at the last one. It takes and returns a value, and is not
    /// `Iterator::next`.
    ///
    /// ```
    /// "192.0.2.62/28".parse::<Ipv4Inet>()?.next() // Some(192.0.2.63/28)
    /// "192.0.2.63/28".parse::<Ipv4Inet>()?.next() // None
    /// ```
    #[tactic(auto, using(crate::proofs::HostSteps::neighbour_laws))]
    pub fn next(self) -> Option<Host<A>>
        ensures host { result ≡ next_of (width_of A.FAMILY) self }
        ensures back { IfSome result (λ next. previous_of (width_of A.FAMILY) next ≡ Some self) }
    {
        let (stepped, wraps) = self.overflowing_add(1);
        if wraps { None } else { Some(stepped) }
    }

    /// The host at the previous address of the network, or `None` at the first one.
    ///
    /// ```
    /// "192.0.2.49/28".parse::<Ipv4Inet>()?.previous() // Some(192.0.2.48/28)
    /// "192.0.2.48/28".parse::<Ipv4Inet>()?.previous() // None
    /// ```
    #[tactic(auto, using(crate::proofs::HostSteps::neighbour_laws))]
    pub fn previous(self) -> Option<Host<A>>
        ensures host { result ≡ previous_of (width_of A.FAMILY) self }
        ensures back { IfSome result (λ previous. next_of (width_of A.FAMILY) previous ≡ Some self) }
    {
        let (stepped, wraps) = self.overflowing_sub(1);
        if wraps { None } else { Some(stepped) }
    }

    /// The host `step` addresses further in the network, and whether it wrapped from the last address to the first.
    ///
    /// Any step is exact, also one above the number of addresses, and takes constant time. Where it does not wrap, `+`
    /// returns the same host.
    ///
    /// ```
    /// let host = "192.0.2.50/28".parse::<Ipv4Inet>()?;
    /// host.overflowing_add(5) // (192.0.2.55/28, false)
    /// host.overflowing_add(14) // (192.0.2.48/28, true)
    /// ```
    #[tactic(auto, using(crate::proofs::HostSteps::undone_laws))]
    pub fn overflowing_add(self, step: u128) -> (Host<A>, bool)
        ensures stepped { result.0 ≡ stepped_up (width_of A.FAMILY) self step }
        ensures wraps { IsTrue result.1 ↔ WrapsUp (width_of A.FAMILY) self step }
        ensures back { stepped_down (width_of A.FAMILY) result.0 step ≡ self }
        ensures host { IsHost (width_of A.FAMILY) self }
    {
        let (stepped, wraps) = self.address.step_up(self.len, step);
        (Host::new_unchecked(stepped, self.len), wraps)
    }

    /// The host `step` addresses back in the network, and whether it wrapped from the first address to the last.
    ///
    /// Any step is exact, also one above the number of addresses, and takes constant time. Where it does not wrap, `-`
    /// returns the same host.
    ///
    /// ```
    /// let host = "10.0.0.7/29".parse::<Ipv4Inet>()?;
    /// host.overflowing_sub(7) // (10.0.0.0/29, false)
    /// host.overflowing_sub(8) // (10.0.0.7/29, true)
    /// ```
    #[tactic(auto, using(crate::proofs::HostSteps::undone_laws))]
    pub fn overflowing_sub(self, step: u128) -> (Host<A>, bool)
        ensures stepped { result.0 ≡ stepped_down (width_of A.FAMILY) self step }
        ensures wraps { IsTrue result.1 ↔ WrapsDown self step }
        ensures back { stepped_up (width_of A.FAMILY) result.0 step ≡ self }
        ensures host { IsHost (width_of A.FAMILY) self }
    {
        let (stepped, wraps) = self.address.step_down(self.len, step);
        (Host::new_unchecked(stepped, self.len), wraps)
    }

    /// The network that the host is in: the bits after the prefix are unset.
    ///
    /// ```
    /// "192.0.2.50/28".parse::<Ipv4Inet>()?.network() // 192.0.2.48/28
    /// ```
    pub fn network(&self) -> Network<A>
        ensures { result ≡ network_of self.now }
    {
        Network::holding(self.address, self.len)
    }

    /// The address, without the prefix length.
    ///
    /// ```
    /// "192.0.2.50/28".parse::<Ipv4Inet>()?.address() // 192.0.2.50
    /// ```
    pub fn address(&self) -> A
        ensures value { A.bits result ≡ self.now.address }
        ensures width { length (A.bits result) ≡ width_of A.FAMILY }
    {
        self.address
    }

    /// The address, by reference.
    ///
    /// ```
    /// "192.0.2.50/28".parse::<Ipv4Inet>()?.address_ref() // 192.0.2.50
    /// ```
    pub fn address_ref(&self) -> &A
        ensures { A.bits result.now ≡ self.now.address }
    {
        &self.address
    }

    /// The first address of the network, in which no bit after the prefix is set: in IPv4 the network address, up to
    /// /30.
    ///
    /// ```
    /// "192.0.2.50/28".parse::<Ipv4Inet>()?.first_address() // 192.0.2.48
    /// ```
    pub fn first_address(&self) -> A
        ensures { A.bits result ≡ first_of (width_of A.FAMILY) (network_of self.now) }
    {
        self.address.first_in(self.len)
    }

    /// The last address of the network, in which all bits after the prefix are set: in IPv4 the broadcast address, up
    /// to /30.
    ///
    /// ```
    /// "192.0.2.50/28".parse::<Ipv4Inet>()?.last_address() // 192.0.2.63
    /// ```
    pub fn last_address(&self) -> A
        ensures { A.bits result ≡ last_of (width_of A.FAMILY) (network_of self.now) }
    {
        self.address.last_in(self.len)
    }

    /// The host at the first address of the network, with the same prefix length.
    ///
    /// ```
    /// "10.4.3.2/8".parse::<Ipv4Inet>()?.first() // 10.0.0.0/8
    /// ```
    pub fn first(&self) -> Host<A>
        ensures { result ≡ first_host (width_of A.FAMILY) (network_of self.now) }
    {
        Host::new_unchecked(self.first_address(), self.len)
    }

    /// The host at the last address of the network, with the same prefix length.
    ///
    /// ```
    /// "10.4.3.2/8".parse::<Ipv4Inet>()?.last() // 10.255.255.255/8
    /// ```
    pub fn last(&self) -> Host<A>
        ensures { result ≡ last_host (width_of A.FAMILY) (network_of self.now) }
    {
        Host::new_unchecked(self.last_address(), self.len)
    }

    /// The prefix length in bits, at most 32 in IPv4 and 128 in IPv6.
    ///
    /// ```
    /// "::5/32".parse::<Ipv6Inet>()?.network_length() // 32
    /// ```
    pub fn network_length(&self) -> u8
        ensures value { result ≡ self.now.len }
        ensures fits { result ≤ width_of A.FAMILY }
    {
        self.len
    }

    /// The family of the address, which its type tells.
    ///
    /// ```
    /// "2001:db8::5/32".parse::<Ipv6Inet>()?.family() // Ipv6
    /// ```
    pub fn family(&self) -> Family
        ensures { result ≡ A.FAMILY }
    {
        A::FAMILY
    }

    /// Whether the network of the host has only one address, that is, whether the prefix length is full: 32 in IPv4 and
    /// 128 in IPv6.
    ///
    /// ```
    /// "192.0.2.50".parse::<Ipv4Inet>()?.is_host_address() // true
    /// "10.4.3.2/8".parse::<Ipv4Inet>()?.is_host_address() // false
    /// ```
    pub fn is_host_address(&self) -> bool
        ensures { IsTrue result ↔ (self.now.len ≡ width_of A.FAMILY) }
    {
        self.len == A::FAMILY.len()
    }

    /// The network mask: as many set bits as the prefix length says, then zeros.
    ///
    /// ```
    /// "192.0.2.50/28".parse::<Ipv4Inet>()?.mask() // 255.255.255.240
    /// ```
    #[tactic(auto, using(crate::specs::laws::NetworkLaws::taken_laws))]
    pub fn mask(&self) -> A
        ensures { A.bits result ≡ mask_of (width_of A.FAMILY) (network_of self.now) }
    {
        A::mask_of(self.len)
    }

    /// Whether the address is in the network of the host, that is, begins with its prefix. Nothing is mapped: an IPv6
    /// host contains no IPv4 address.
    ///
    /// ```
    /// let host = "192.0.2.50/28".parse::<Ipv4Inet>()?;
    /// host.contains(&Ipv4Addr::new(192, 0, 2, 63)) // true
    /// host.contains(&Ipv4Addr::new(192, 0, 2, 64)) // false
    /// ```
    pub fn contains(&self, addr: &A) -> bool
        ensures { IsTrue result ↔ BeginsWith (A.bits addr.now) (network_of self.now) }
    {
        self.address.shares(*addr, self.len)
    }

    /// The host, to be printed with its prefix length also where that is full.
    ///
    /// ```
    /// "10.0.0.1".parse::<Ipv4Inet>()?.with_length() // 10.0.0.1/32
    /// ```
    pub fn with_length(&self) -> WithLength<Host<A>>
        ensures { result ≡ self.now }
    {
        WithLength::new(*self)
    }
}

impl<A: AddressText> Host<A> {
    ghost use Rattle.cidr.specs.texts.HostText.{IsHostText};
    ghost use Rattle.cidr.specs.texts.Printed.{plain_host_text, longest_text, IsAppended};

    /// The printed string, with all bits of the address and without a full prefix length, in an `ArrayString`, so that
    /// nothing is allocated. It has at most 18 bytes in IPv4 and 43 in IPv6. Parsing it gives the same host.
    ///
    /// ```
    /// "2001:DB8::5/32".parse::<Ipv6Inet>()?.to_text() // 2001:db8::5/32
    /// ```
    #[tactic(auto, using(crate::proofs::NetworkPrinting::host_text_laws))]
    pub fn to_text(&self) -> ArrayString<43>
        ensures text { result.bytes ≡ plain_host_text A.FAMILY self.now }
        ensures len { length result.bytes ≤ longest_text A.FAMILY }
        ensures spells { IsHostText A.FAMILY result.bytes self.now }
    {
        plain(self.address, self.len)
    }

    /// Appends the printed string, as `to_text` gives it, to one that the caller has. Where there is no room for the whole
    /// of it, it fails, and the string is as it was.
    ///
    /// ```
    /// let mut text = ArrayString::<43>::new();
    /// "10.4.3.2/8".parse::<Ipv4Inet>()?.write_to(&mut text)?;
    /// text // 10.4.3.2/8
    /// ```
    pub fn write_to<const CAP: usize>(&self, text: &mut ArrayString<CAP>) -> fmt::Result
        ensures written { IsAppended CAP (plain_host_text A.FAMILY self.now) text.old.bytes text.new.bytes result }
        ensures len { length (plain_host_text A.FAMILY self.now) ≤ longest_text A.FAMILY }
    {
        append(text, self.to_text().as_str())
    }
}

impl<A: AddressText> WithLength<Host<A>> {
    ghost use Rattle.cidr.specs.texts.HostText.{IsHostText};
    ghost use Rattle.cidr.specs.texts.Printed.{forced_host_text, longest_text};

    /// The printed string, with the prefix length also where that is full: at most 18 bytes in IPv4 and 43 in IPv6.
    /// Parsing it gives the same host.
    ///
    /// ```
    /// "::1".parse::<Ipv6Inet>()?.with_length().to_text() // ::1/128
    /// ```
    #[tactic(auto, using(crate::proofs::NetworkPrinting::host_text_laws))]
    pub fn to_text(&self) -> ArrayString<43>
        ensures text { result.bytes ≡ forced_host_text A.FAMILY self.now }
        ensures len { length result.bytes ≤ longest_text A.FAMILY }
        ensures spells { IsHostText A.FAMILY result.bytes self.now }
    {
        let host = self.get();
        forced(host.address(), host.network_length())
    }
}

impl<A: AddressBits> PartialEq for Host<A> {
    ghost eq = { host_eq };

    ghost laws = { partial_equiv_from_equiv host_eq_equiv };

    fn eq(&self, other: &Host<A>) -> bool {
        self.address == other.address && self.len == other.len
    }
}

impl<A: AddressBits> Eq for Host<A> {
    ghost laws = { host_eq_equiv };
}

impl<A: AddressBits> PartialOrd for Host<A> {
    ghost partial_cmp = { as_partial_cmp host_cmp };

    ghost laws = { host_cmp_po };

    fn partial_cmp(&self, other: &Host<A>) -> Option<Ordering> {
        Some(self.cmp(other))
    }
}

impl<A: AddressBits> Ord for Host<A> {
    ghost cmp = { host_cmp };

    ghost total = { host_cmp_total };

    ghost matches_partial_cmp = { λ _ _. refl };

    ghost matches_eq = { host_eq_ties };

    fn cmp(&self, other: &Host<A>) -> Ordering {
        self.address.order(self.len, other.address, other.len)
    }
}

impl<A: AddressBits> Hash for Host<A> {
    ghost use Rattle.cidr.specs.model.Host.{host_hash};

    ghost hash_input = { host_hash A.FAMILY };

    ghost respects_eq = { same_host_image (host_hash A.FAMILY) };

    fn hash<H: Hasher>(&self, state: &mut H) {
        self.address.hash(state);
        self.len.hash(state);
    }
}

impl<A: AddressBits> From<A> for Host<A> {
    ghost use Rattle.cidr.specs.model.Host.{lone_host};

    ghost from_gives = { λ a h. h ≡ lone_host (width_of A.FAMILY) (A.bits a) };

    fn from(address: A) -> Host<A> {
        Host::new_host(address)
    }
}

impl<A: AddressText> FromStr for Host<A> {
    ghost use Rattle.cidr.specs.texts.HostText.{ReadsHost};

    type Err = NetworkParseError;

    ghost from_str_gives = { ReadsHost A.FAMILY };

    fn from_str(s: &str) -> Result<Host<A>, NetworkParseError> {
        let Some((front, back)) = cut_at_last_slash(s) else {
            return Ok(Host::new_host(A::read(s)?));
        };
        let address = A::read(front)?;
        let len = read_length(back)?;
        Ok(Host::new(address, len)?)
    }
}

impl<A: AddressText> fmt::Display for Host<A> {
    ghost use Rattle.cidr.specs.texts.Printed.{plain_host_text};

    ghost output = { λ h. Some (plain_host_text A.FAMILY h) };

    fn fmt<W: fmt::Write>(&self, f: &mut fmt::Formatter<W>) -> fmt::Result {
        f.write_str(self.to_text().as_str())
    }
}

impl<A: AddressText> fmt::Display for WithLength<Host<A>> {
    ghost use Rattle.cidr.specs.texts.Printed.{forced_host_text};

    ghost output = { λ h. Some (forced_host_text A.FAMILY h) };

    fn fmt<W: fmt::Write>(&self, f: &mut fmt::Formatter<W>) -> fmt::Result {
        f.write_str(self.to_text().as_str())
    }
}

impl<A: AddressText> fmt::Debug for Host<A> {
    ghost use Rattle.cidr.specs.texts.Printed.{forced_host_text};

    ghost debug_output = { λ h. Some (forced_host_text A.FAMILY h) };

    fn fmt<W: fmt::Write>(&self, f: &mut fmt::Formatter<W>) -> fmt::Result {
        fmt::Display::fmt(&self.with_length(), f)
    }
}

/// The host `step` addresses further in the network, as `overflowing_add` returns it. The caller has to prove that the
/// step does not wrap; `overflowing_add` and `next` tell whether it does.
impl<A: AddressBits> Add<u128> for Host<A> {
    type Output = Host<A>;

    ghost can_add = { λ h s. host_part h + s < host_count (width_of A.FAMILY) h };

    ghost add_gives = { λ h s r. r ≡ with_host_part (width_of A.FAMILY) h (host_part h + s) };

    #[tactic(auto, using(crate::proofs::HostSteps::stay_laws))]
    fn add(self, step: u128) -> Host<A> {
        self.overflowing_add(step).0
    }
}

/// The host `step` addresses back in the network, as `overflowing_sub` returns it. The caller has to prove that the
/// step does not wrap; `overflowing_sub` and `previous` tell whether it does.
impl<A: AddressBits> Sub<u128> for Host<A> {
    type Output = Host<A>;

    ghost can_sub = { λ h s. s ≤ host_part h };

    ghost sub_gives = { λ h s r. r ≡ with_host_part (width_of A.FAMILY) h (host_part h - s) };

    #[tactic(auto, using(crate::proofs::HostSteps::stay_laws))]
    fn sub(self, step: u128) -> Host<A> {
        self.overflowing_sub(step).0
    }
}
