//! The IPv4 address.
ghost use Rattle.std.specs.Prelude.{◌≡◌, ◌+◌, ◌≤◌, [], ◌∷◌, ◌++◌, length, refl, Some};
ghost use Rattle.std.specs.Ordering.{as_partial_cmp};
ghost use Rattle.std.specs.Cmp.{partial_equiv_from_equiv};
ghost use Rattle.std.specs.Hash as fed;
ghost use Rattle.cidr.specs.model.Bits.{bits, number, bit_cmp, bit_eq};
ghost use Rattle.cidr.specs.laws.BitLaws.{bit_eq_equiv, bit_eq_ties, bit_cmp_total, bit_cmp_po, same_image};
ghost use Rattle.cidr.specs.model.Address.{octet_bits, octets_of};
ghost use Rattle.cidr.specs.texts.Ipv4Text.{IsIpv4Text};
ghost use Rattle.cidr.specs.texts.AddressText.{Reads};
ghost use Rattle.cidr.specs.texts.PrintedAddress.{ipv4_text};
ghost use Rattle.cidr.specs.texts.Printed.{IsAppended};

use crate::addr::decimal::{push_decimal, push_decimal_dot};
use crate::addr::error::AddrParseError;
use crate::addr::read_v4::read_ipv4;
use crate::cidr::network::Ipv4Cidr;
use crate::inet::host::Ipv4Inet;
use crate::inet_pair::host_pair::Ipv4InetPair;
use crate::text::print::append;
use crate::traits::Address;
use arrayvec::ArrayString;
use std::cmp::Ordering;
use std::fmt;
use std::hash::{Hash, Hasher};
use std::marker::Model;
use std::str::FromStr;

/// An IPv4 address of 32 bits.
///
/// It is parsed from and printed as four decimal octets with dots between them (`IPv4address` of RFC 3986, 3.2.2). An
/// octet with a leading zero is an error, since some systems take it as octal; [`parsers`](crate::parsers) has looser
/// parsers. Addresses are ordered by number.
///
/// ```
/// "192.0.2.1".parse::<Ipv4Addr>()? // 192.0.2.1
/// "192.0.2.01".parse::<Ipv4Addr>() // Err(invalid IPv4 address syntax)
/// ```
#[derive(Clone, Copy)]
pub struct Ipv4Addr {
    raw: u32,
}

impl Model for Ipv4Addr {
    ghost use Rattle.std.specs.Prelude.{List, Bool, ◌^◌, ◌<◌};
    ghost use Rattle.cidr.specs.model.Bits.{bits, number};
    ghost use Rattle.cidr.specs.laws.BitLaws.{number-bits};

    ghost Value = { List Bool };

    ghost view = { λ a. bits 32 a.raw };

    ghost invariant = { λ a. a.raw < 2 ^ 32 };

    ghost inverse = { λ p. record { raw = number p } };

    ghost inverse_ok = { λ a h i. record { raw = number-bits 32 a.raw h i } };
}

impl Ipv4Addr {
    /// The address with these four octets, most significant first.
    ///
    /// ```
    /// Ipv4Addr::new(192, 0, 2, 1) // 192.0.2.1
    /// ```
    #[tactic(auto, using(crate::proofs::OctetLaws::octet_laws))]
    pub fn new(a: u8, b: u8, c: u8, d: u8) -> Ipv4Addr
        ensures { result ≡ octet_bits (a ∷ b ∷ c ∷ d ∷ []) }
    {
        Ipv4Addr {
            raw: u32::from_be_bytes([a, b, c, d]),
        }
    }

    /// The four octets, most significant first: the address in network byte order.
    ///
    /// ```
    /// Ipv4Addr::new(192, 0, 2, 1).octets() // [192, 0, 2, 1]
    /// ```
    #[tactic(auto, using(crate::proofs::OctetLaws::octet_laws))]
    pub fn octets(&self) -> [u8; 4]
        ensures value { result ≡ octets_of self.now }
        ensures width { length self.now ≡ 32 }
    {
        self.raw.to_be_bytes()
    }

    /// The address with this number, whose most significant bits are those of the first octet.
    ///
    /// ```
    /// Ipv4Addr::from_bits(0xc0000201) // 192.0.2.1
    /// Ipv4Addr::from_bits(256) // 0.0.1.0
    /// ```
    pub fn from_bits(value: u32) -> Ipv4Addr
        ensures { result ≡ bits 32 value }
    {
        Ipv4Addr { raw: value }
    }

    /// The address as a number, whose most significant bits are those of the first octet.
    ///
    /// ```
    /// Ipv4Addr::new(192, 0, 2, 1).to_bits() // 3221225985
    /// ```
    #[tactic(auto, using(crate::specs::laws::BitLaws::bit_laws))]
    pub fn to_bits(self) -> u32
        ensures value { result ≡ number self }
        ensures width { length self ≡ 32 }
    {
        self.raw
    }

    /// Appends the printed string.
    #[inline(always)]
    pub(crate) fn push_to<const CAP: usize>(&self, text: &mut ArrayString<CAP>)
        requires { length text.old.bytes + 15 ≤ CAP }
        ensures bytes { text.new.bytes ≡ text.old.bytes ++ ipv4_text self.now }
        ensures len { length text.new.bytes ≤ length text.old.bytes + 15 }
        ensures width { length self.now ≡ 32 }
    {
        let [a, b, c, d] = self.octets();
        push_decimal_dot(text, a);
        push_decimal_dot(text, b);
        push_decimal_dot(text, c);
        push_decimal(text, d);
    }

    /// The printed string, four decimal octets, in an `ArrayString`, so that nothing is allocated. It has at most 15
    /// bytes. Parsing it gives the same address.
    ///
    /// ```
    /// Ipv4Addr::new(192, 0, 2, 1).to_text() // 192.0.2.1
    /// ```
    #[tactic(auto, using(crate::proofs::Ipv4Printing::ipv4_text_laws))]
    pub fn to_text(&self) -> ArrayString<39>
        ensures text { result.bytes ≡ ipv4_text self.now }
        ensures len { length result.bytes ≤ 15 }
        ensures spells { IsIpv4Text result.bytes self.now }
    {
        let mut text = ArrayString::new();
        self.push_to(&mut text);
        text
    }

    /// Appends the printed string, as `to_text` gives it, to one that the caller has. Where there is no room for the whole
    /// of it, it fails, and the string is as it was.
    ///
    /// ```
    /// let mut text = ArrayString::<15>::new();
    /// Ipv4Addr::new(192, 0, 2, 1).write_to(&mut text)?;
    /// text // 192.0.2.1
    /// ```
    pub fn write_to<const CAP: usize>(&self, text: &mut ArrayString<CAP>) -> fmt::Result
        ensures written { IsAppended CAP (ipv4_text self.now) text.old.bytes text.new.bytes result }
        ensures len { length (ipv4_text self.now) ≤ 15 }
    {
        if CAP - text.len() < 15 {
            return append(text, self.to_text().as_str());
        }
        self.push_to(text);
        Ok(())
    }
}

impl From<u32> for Ipv4Addr {
    ghost from_gives = { λ n a. a ≡ bits 32 n };

    fn from(value: u32) -> Ipv4Addr {
        Ipv4Addr::from_bits(value)
    }
}

impl From<[u8; 4]> for Ipv4Addr {
    ghost from_gives = { λ octets a. a ≡ octet_bits octets };

    fn from(octets: [u8; 4]) -> Ipv4Addr {
        let [a, b, c, d] = octets;
        Ipv4Addr::new(a, b, c, d)
    }
}

impl PartialEq for Ipv4Addr {
    ghost eq = { bit_eq };

    ghost laws = { partial_equiv_from_equiv bit_eq_equiv };

    #[tactic(auto, using(crate::specs::laws::BitLaws::bit_laws))]
    fn eq(&self, other: &Ipv4Addr) -> bool {
        self.raw == other.raw
    }
}

impl Eq for Ipv4Addr {
    ghost laws = { bit_eq_equiv };
}

impl PartialOrd for Ipv4Addr {
    ghost partial_cmp = { as_partial_cmp bit_cmp };

    ghost laws = { bit_cmp_po };

    fn partial_cmp(&self, other: &Ipv4Addr) -> Option<Ordering> {
        Some(self.cmp(other))
    }
}

impl Ord for Ipv4Addr {
    ghost cmp = { bit_cmp };

    ghost total = { bit_cmp_total };

    ghost matches_partial_cmp = { λ _ _. refl };

    ghost matches_eq = { bit_eq_ties };

    #[tactic(auto, using(crate::specs::laws::BitLaws::bit_laws))]
    fn cmp(&self, other: &Ipv4Addr) -> Ordering {
        self.raw.cmp(&other.raw)
    }
}

impl Hash for Ipv4Addr {
    ghost hash_input = { λ p. fed.u32 (number p) };

    ghost respects_eq = { same_image (λ p. fed.u32 (number p)) };

    #[tactic(auto, using(crate::specs::laws::BitLaws::bit_laws))]
    fn hash<H: Hasher>(&self, state: &mut H) {
        self.raw.hash(state);
    }
}

impl FromStr for Ipv4Addr {
    ghost use Rattle.cidr.specs.texts.Messages.{ipv4_error};

    type Err = AddrParseError;

    ghost from_str_gives = { Reads IsIpv4Text ipv4_error };

    fn from_str(s: &str) -> Result<Ipv4Addr, AddrParseError> {
        match read_ipv4(s.as_bytes()) {
            Some(octets) => Ok(Ipv4Addr::from(octets)),
            None => Err(AddrParseError::ipv4()),
        }
    }
}

impl fmt::Display for Ipv4Addr {
    ghost output = { λ a. Some (ipv4_text a) };

    fn fmt<W: fmt::Write>(&self, f: &mut fmt::Formatter<W>) -> fmt::Result {
        f.write_str(self.to_text().as_str())
    }
}

impl fmt::Debug for Ipv4Addr {
    ghost debug_output = { λ a. Some (ipv4_text a) };

    fn fmt<W: fmt::Write>(&self, f: &mut fmt::Formatter<W>) -> fmt::Result {
        fmt::Display::fmt(self, f)
    }
}

impl Address for Ipv4Addr {
    ghost use Rattle.cidr.specs.laws.BitLaws.{bit_eq_Decides};
    ghost use Rattle.cidr.specs.laws.TraitLaws.{reads_address};
    ghost use Rattle.cidr.specs.declared.family.Family.TheVariants.{Ipv4};

    type Inet = Ipv4Inet;

    type Cidr = Ipv4Cidr;

    type InetPair = Ipv4InetPair;

    ghost equal = { bit_eq_Decides };

    ghost known = { λ _ _ _ h. h };

    ghost ordered = { λ _ _. refl };

    ghost reads = { reads_address Ipv4 };

    ghost prints = { λ _. refl };
}
