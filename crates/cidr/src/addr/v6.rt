//! The IPv6 address.
ghost use Rattle.std.specs.Prelude.{◌≡◌, ◌+◌, ◌*◌, ◌/◌, ◌%◌, ◌^◌, ◌<◌, ◌≤◌, [], ◌∷◌, ◌++◌, List, ℕ, length, take, bytes_eq, refl, Some};
ghost use Rattle.std.specs.Ordering.{as_partial_cmp};
ghost use Rattle.std.specs.Cmp.{partial_equiv_from_equiv};
ghost use Rattle.std.specs.Hash as fed;
ghost use Rattle.cidr.specs.model.Bits.{bits, number, bit_cmp, bit_eq};
ghost use Rattle.cidr.specs.laws.BitLaws.{bit_eq_equiv, bit_eq_ties, bit_cmp_total, bit_cmp_po, same_image};
ghost use Rattle.cidr.specs.model.Address.{parts_of, octet_bits, group_bits, groups_of};
ghost use Rattle.cidr.specs.texts.AddressText.{Reads};
ghost use Rattle.cidr.specs.texts.Ipv6Text.{IsIpv6Text};
ghost use Rattle.cidr.specs.texts.Canonical.{IsCanonicalText, mapped_groups};
ghost use Rattle.cidr.specs.texts.PrintedAddress.{ipv6_text};
ghost use Rattle.cidr.specs.texts.Printed.{IsAppended};

use crate::addr::error::AddrParseError;
use crate::addr::print_v6::push_hex_groups;
use crate::addr::read_v6::read_ipv6;
use crate::addr::v4::Ipv4Addr;
use crate::arithmetic::halves::Halves;
use crate::cidr::network::Ipv6Cidr;
use crate::inet::host::Ipv6Inet;
use crate::inet_pair::host_pair::Ipv6InetPair;
use crate::text::print::append;
use crate::traits::Address;
use arrayvec::ArrayString;
use std::cmp::Ordering;
use std::fmt;
use std::hash::{Hash, Hasher};
use std::marker::Model;
use std::str::FromStr;

/// An IPv6 address of 128 bits.
///
/// It is parsed from each string that RFC 4291, 2.2 allows, in either case, and printed as RFC 5952 has it. A zone, as
/// in fe80::1%1, and brackets are an error. Addresses are ordered by number. An IPv4-mapped address, as
/// ::ffff:192.0.2.1, stays an IPv6 address.
///
/// ```
/// "2001:DB8:0:0:0:0:0:1".parse::<Ipv6Addr>()? // 2001:db8::1
/// "fe80::1%1".parse::<Ipv6Addr>() // Err(invalid IPv6 address syntax)
/// ```
#[derive(Clone, Copy)]
pub struct Ipv6Addr {
    upper: u64,
    lower: u64,
}

impl Model for Ipv6Addr {
    ghost use Rattle.std.specs.Prelude.{List, Bool, ◌/◌, ◌%◌, ◌^◌, ◌<◌};
    ghost use Rattle.cidr.specs.model.Bits.{bits, number};
    ghost use Rattle.cidr.specs.internal.Halves.{joined};
    ghost use Rattle.cidr.specs.laws.HalfLaws.{upper-bits, lower-bits};

    ghost Value = { List Bool };

    ghost view = { λ a. bits 128 (joined a.upper a.lower) };

    ghost invariant = { λ a. (a.upper < 2 ^ 64) × (a.lower < 2 ^ 64) };

    ghost inverse = { λ p. record { upper = number p / 2 ^ 64; lower = number p % 2 ^ 64 } };

    ghost inverse_ok = { λ a fit i. record {
      upper = upper-bits a.upper a.lower fit.0 fit.1 i;
      lower = lower-bits a.upper a.lower fit.0 fit.1 i;
    } };
}

impl Ipv6Addr {
    /// The address with these eight groups of 16 bits, most significant first.
    ///
    /// ```
    /// Ipv6Addr::new(0x2001, 0xdb8, 0, 0, 0, 0, 0, 1) // 2001:db8::1
    /// ```
    #[tactic(auto, using(crate::proofs::GroupLaws::group_laws))]
    pub fn new(a: u16, b: u16, c: u16, d: u16, e: u16, f: u16, g: u16, h: u16) -> Ipv6Addr
        ensures { result ≡ group_bits (a ∷ b ∷ c ∷ d ∷ e ∷ f ∷ g ∷ h ∷ []) }
    {
        Ipv6Addr {
            upper: half_of(a, b, c, d),
            lower: half_of(e, f, g, h),
        }
    }

    /// The eight groups of 16 bits, most significant first.
    ///
    /// ```
    /// Ipv6Addr::from_bits(65536).segments() // [0, 0, 0, 0, 0, 0, 1, 0]
    /// ```
    #[tactic(auto, using(crate::proofs::GroupLaws::group_laws))]
    pub fn segments(&self) -> [u16; 8]
        ensures value { result ≡ groups_of self.now }
        ensures width { length self.now ≡ 128 }
    {
        [
            group_at(self.upper, 48),
            group_at(self.upper, 32),
            group_at(self.upper, 16),
            group_at(self.upper, 0),
            group_at(self.lower, 48),
            group_at(self.lower, 32),
            group_at(self.lower, 16),
            group_at(self.lower, 0),
        ]
    }

    /// The sixteen octets, most significant first: the address in network byte order.
    ///
    /// ```
    /// Ipv6Addr::from_bits(258).octets() // [0, 0, 0, 0, 0, 0, 0, 0, 0, 0, 0, 0, 0, 0, 1, 2]
    /// ```
    #[tactic(auto, using(crate::proofs::OctetRows::sixteen_laws))]
    pub fn octets(&self) -> [u8; 16]
        ensures value { result ≡ parts_of 8 16 self.now }
        ensures width { length self.now ≡ 128 }
    {
        self.to_bits().to_be_bytes()
    }

    /// The address with this number, whose most significant bits are those of the first group.
    ///
    /// ```
    /// Ipv6Addr::from_bits(1) // ::1
    /// ```
    pub fn from_bits(value: u128) -> Ipv6Addr
        ensures { result ≡ bits 128 value }
    {
        Ipv6Addr::from_halves(Halves::split(value))
    }

    /// The address as a number, whose most significant bits are those of the first group.
    ///
    /// ```
    /// "::1:0".parse::<Ipv6Addr>()?.to_bits() // 65536
    /// ```
    #[tactic(auto, using(crate::specs::laws::BitLaws::bit_laws))]
    pub fn to_bits(self) -> u128
        ensures value { result ≡ number self }
        ensures width { length self ≡ 128 }
    {
        self.halves().join()
    }

    /// The address with this number, in halves.
    #[tactic(auto, using(crate::proofs::HalfBits::half_laws))]
    pub(crate) fn from_halves(value: Halves) -> Ipv6Addr
        ensures { result ≡ bits 128 value }
    {
        Ipv6Addr {
            upper: value.upper(),
            lower: value.lower(),
        }
    }

    /// The address as a number, in halves.
    #[tactic(auto, using(crate::proofs::HalfBits::half_laws))]
    pub(crate) fn halves(self) -> Halves
        ensures value { result ≡ number self }
        ensures width { length self ≡ 128 }
    {
        Halves::new(self.upper, self.lower)
    }

    /// Whether this is an IPv4-mapped address: five groups of zeros, one of ones, and two more.
    #[tactic(auto, using(crate::proofs::MappedAddresses::mapped_laws))]
    fn is_mapped(&self) -> bool
        ensures value { result ≡ bytes_eq (take 6 (groups_of self.now)) mapped_groups }
        ensures width { length self.now ≡ 128 }
    {
        self.upper == 0 && self.lower >> 32 == 0xffff
    }

    /// Appends the printed string.
    #[inline(always)]
    pub(crate) fn push_to<const CAP: usize>(&self, text: &mut ArrayString<CAP>)
        requires { length text.old.bytes + 39 ≤ CAP }
        ensures bytes { text.new.bytes ≡ text.old.bytes ++ ipv6_text self.now }
        ensures len { length text.new.bytes ≤ length text.old.bytes + 39 }
        ensures width { length self.now ≡ 128 }
    {
        if self.is_mapped() {
            text.push_str("::ffff:");
            Ipv4Addr::from_bits((self.halves().lower() & 0xffff_ffff) as u32).push_to(text);
        } else {
            push_hex_groups(text, &self.segments());
        }
    }

    /// The printed string, in an `ArrayString`, so that nothing is allocated. It has at most 39 bytes. Parsing it gives
    /// the same address.
    ///
    /// It is the one canonical form of RFC 5952: lower case, no leading zeros, the longest run of two or more zero
    /// groups as `::`, of equally long runs the first one, and an IPv4-mapped address with its last 32 bits as an IPv4
    /// address.
    ///
    /// ```
    /// "2001:db8:0:0:1:0:0:1".parse::<Ipv6Addr>()?.to_text() // 2001:db8::1:0:0:1
    /// "::FFFF:C000:201".parse::<Ipv6Addr>()?.to_text() // ::ffff:192.0.2.1
    /// ```
    #[tactic(auto, using(crate::proofs::Ipv6Printing::ipv6_text_laws))]
    pub fn to_text(&self) -> ArrayString<39>
        ensures text { result.bytes ≡ ipv6_text self.now }
        ensures len { length result.bytes ≤ 39 }
        ensures canonical { IsCanonicalText result.bytes self.now }
        ensures only { (text : List ℕ) → IsCanonicalText text self.now → text ≡ result.bytes }
        ensures spells { IsIpv6Text result.bytes self.now }
    {
        let mut text = ArrayString::new();
        self.push_to(&mut text);
        text
    }

    /// Appends the printed string, as `to_text` gives it, to one that the caller has. Where there is no room for the whole
    /// of it, it fails, and the string is as it was.
    ///
    /// ```
    /// let mut text = ArrayString::<39>::new();
    /// "2001:DB8::1".parse::<Ipv6Addr>()?.write_to(&mut text)?;
    /// text // 2001:db8::1
    /// ```
    pub fn write_to<const CAP: usize>(&self, text: &mut ArrayString<CAP>) -> fmt::Result
        ensures written { IsAppended CAP (ipv6_text self.now) text.old.bytes text.new.bytes result }
        ensures len { length (ipv6_text self.now) ≤ 39 }
    {
        if CAP - text.len() < 39 {
            return append(text, self.to_text().as_str());
        }
        self.push_to(text);
        Ok(())
    }
}

/// The half that four groups write.
fn half_of(a: u16, b: u16, c: u16, d: u16) -> u64
    ensures { result ≡ ((a * 65536 + b) * 65536 + c) * 65536 + d }
{
    let two = u64::from(a) * 65536 + u64::from(b);
    let three = two * 65536 + u64::from(c);
    three * 65536 + u64::from(d)
}

/// The group of a half that so many bits follow.
#[tactic(auto, using(crate::proofs::GroupLaws::group_mask))]
fn group_at(half: u64, shift: u8) -> u16
    requires { shift < 64 }
    ensures { result ≡ half / 2 ^ shift % 65536 }
{
    (half >> shift & 0xffff) as u16
}

impl From<u128> for Ipv6Addr {
    ghost from_gives = { λ n a. a ≡ bits 128 n };

    fn from(value: u128) -> Ipv6Addr {
        Ipv6Addr::from_bits(value)
    }
}

impl From<[u8; 16]> for Ipv6Addr {
    ghost from_gives = { λ octets a. a ≡ octet_bits octets };

    fn from(octets: [u8; 16]) -> Ipv6Addr {
        Ipv6Addr::from_bits(u128::from_be_bytes(octets))
    }
}

impl From<[u16; 8]> for Ipv6Addr {
    ghost from_gives = { λ groups a. a ≡ group_bits groups };

    fn from(groups: [u16; 8]) -> Ipv6Addr {
        let [a, b, c, d, e, f, g, h] = groups;
        Ipv6Addr::new(a, b, c, d, e, f, g, h)
    }
}

impl PartialEq for Ipv6Addr {
    ghost eq = { bit_eq };

    ghost laws = { partial_equiv_from_equiv bit_eq_equiv };

    #[tactic(auto, using(crate::proofs::HalfBits::half_laws))]
    fn eq(&self, other: &Ipv6Addr) -> bool {
        self.upper == other.upper && self.lower == other.lower
    }
}

impl Eq for Ipv6Addr {
    ghost laws = { bit_eq_equiv };
}

impl PartialOrd for Ipv6Addr {
    ghost partial_cmp = { as_partial_cmp bit_cmp };

    ghost laws = { bit_cmp_po };

    fn partial_cmp(&self, other: &Ipv6Addr) -> Option<Ordering> {
        Some(self.cmp(other))
    }
}

impl Ord for Ipv6Addr {
    ghost cmp = { bit_cmp };

    ghost total = { bit_cmp_total };

    ghost matches_partial_cmp = { λ _ _. refl };

    ghost matches_eq = { bit_eq_ties };

    #[tactic(auto, using(crate::proofs::HalfBits::half_laws))]
    fn cmp(&self, other: &Ipv6Addr) -> Ordering {
        match self.upper.cmp(&other.upper) {
            Ordering::Equal => self.lower.cmp(&other.lower),
            unlike => unlike,
        }
    }
}

impl Hash for Ipv6Addr {
    ghost hash_input = { λ p. fed.u128 (number p) };

    ghost respects_eq = { same_image (λ p. fed.u128 (number p)) };

    #[tactic(auto, using(crate::specs::laws::BitLaws::bit_laws))]
    fn hash<H: Hasher>(&self, state: &mut H) {
        self.to_bits().hash(state);
    }
}

impl FromStr for Ipv6Addr {
    ghost use Rattle.cidr.specs.texts.Messages.{ipv6_error};

    type Err = AddrParseError;

    ghost from_str_gives = { Reads IsIpv6Text ipv6_error };

    fn from_str(s: &str) -> Result<Ipv6Addr, AddrParseError> {
        match read_ipv6(s.as_bytes()) {
            Some(value) => Ok(Ipv6Addr::from_bits(value)),
            None => Err(AddrParseError::ipv6()),
        }
    }
}

impl fmt::Display for Ipv6Addr {
    ghost output = { λ a. Some (ipv6_text a) };

    fn fmt<W: fmt::Write>(&self, f: &mut fmt::Formatter<W>) -> fmt::Result {
        f.write_str(self.to_text().as_str())
    }
}

impl fmt::Debug for Ipv6Addr {
    ghost debug_output = { λ a. Some (ipv6_text a) };

    fn fmt<W: fmt::Write>(&self, f: &mut fmt::Formatter<W>) -> fmt::Result {
        fmt::Display::fmt(self, f)
    }
}

impl Address for Ipv6Addr {
    ghost use Rattle.cidr.specs.laws.BitLaws.{bit_eq_Decides};
    ghost use Rattle.cidr.specs.laws.TraitLaws.{reads_address};
    ghost use Rattle.cidr.specs.declared.family.Family.TheVariants.{Ipv6};

    type Inet = Ipv6Inet;

    type Cidr = Ipv6Cidr;

    type InetPair = Ipv6InetPair;

    ghost equal = { bit_eq_Decides };

    ghost known = { λ _ _ _ h. h };

    ghost ordered = { λ _ _. refl };

    ghost reads = { reads_address Ipv6 };

    ghost prints = { λ _. refl };
}
