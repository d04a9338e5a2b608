//! Networks as strings with a mask in place of the prefix length.
ghost use Rattle.std.specs.Prelude.{◌≡◌, ◌+◌, ◌<◌, ◌≤◌, ◌∷◌, ◌++◌, ℕ, List, Ok, Some, length, MatchOption};
ghost use Rattle.cidr.specs.model.Network.{width_of};
ghost use Rattle.cidr.specs.texts.AddressText.{IsAddressText};
ghost use Rattle.cidr.specs.texts.NetworkText.{slash};
ghost use Rattle.cidr.specs.texts.PrintedAddress.{address_text, longest_address};
ghost use Rattle.cidr.specs.texts.Refusal.{CutsAtLastSlash, Lacks};
ghost use Rattle.cidr_ext.specs.texts.MaskText.{host_mask_text, IsLengthOfMask, IsMaskText, mask_text, ReadsMaskText};

use crate::address::AddressExt;
use crate::families::WholeFamily;
use crate::laws::{address_has_its_width, length_is_within_the_width};
use crate::numbered::CidrExt;
use arrayvec::ArrayString;
use cidr::{Address, Cidr, Family, IpAddr, Ipv4Addr, Ipv6Addr};
use std::error::Error;
use std::fmt;

/// Networks as strings with a mask in place of the prefix length, for `Ipv4Cidr`, `Ipv6Cidr` and `IpCidr`.
///
/// A network mask has as many set bits as the prefix length says, then zeros (RFC 4632, 3.1); a host mask, which access
/// lists of routers have, is its inverse. Nothing is allocated.
pub trait CidrMaskText: Cidr {
    /// The first address, a slash and the network mask: at most 31 bytes in IPv4 and 79 in IPv6.
    ///
    /// ```
    /// "192.0.2.0/24".parse::<Ipv4Cidr>()?.to_mask_text() // 192.0.2.0/255.255.255.0
    /// "2001:db8::/32".parse::<Ipv6Cidr>()?.to_mask_text() // 2001:db8::/ffff:ffff::
    /// ```
    fn to_mask_text(&self) -> ArrayString<79>
        ensures text { result.bytes ≡ mask_text (Self.family_of self.now) (Self.prefix self.now) }
        ensures read { IsMaskText (Self.family_of self.now) result.bytes (Self.prefix self.now) };

    /// The first address, a slash and the host mask: at most 31 bytes in IPv4 and 79 in IPv6.
    ///
    /// `from_mask_text` returns the network again, but for the shortest and the longest prefix length, whose host masks
    /// are the network masks of each other.
    ///
    /// ```
    /// "192.0.2.0/24".parse::<Ipv4Cidr>()?.to_host_mask_text() // 192.0.2.0/0.0.0.255
    /// ```
    fn to_host_mask_text(&self) -> ArrayString<79>
        ensures text { result.bytes ≡ host_mask_text (Self.family_of self.now) (Self.prefix self.now) }
        ensures read { 0 < length (Self.prefix self.now) →
            length (Self.prefix self.now) < width_of (Self.family_of self.now) →
            IsMaskText (Self.family_of self.now) result.bytes (Self.prefix self.now) };

    /// The network that a string with a network mask or a host mask represents, as Python's `ipaddress` parses it in
    /// IPv4. Address and mask are parsed as addresses of the family are; a prefix length is no mask, and an address
    /// alone no network. It takes time in the length of the string.
    ///
    /// A mask that could be either is a network mask: 0.0.0.0 is that of /0, and 255.255.255.255 that of /32. The
    /// errors, of which the first one is returned, are in the order of `MaskParseError`.
    ///
    /// ```
    /// Ipv4Cidr::from_mask_text("192.0.2.0/255.255.255.0") // Ok(192.0.2.0/24)
    /// Ipv4Cidr::from_mask_text("192.0.2.0/0.0.0.255") // Ok(192.0.2.0/24)
    /// Ipv4Cidr::from_mask_text("192.0.2.0/255.0.255.0") // Err(mask is not contiguous)
    /// Ipv4Cidr::from_mask_text("192.0.2.1/0.0.0.255") // Err(host part of address was not zero)
    /// ```
    fn from_mask_text(text: &str) -> Result<Self, MaskParseError>
        ensures read { ReadsMaskText Self.family_of Self.prefix Self.Address.family_of Self.Address.bits
            text.now result }
        ensures only { (network : Self) → IsMaskText (Self.family_of network) text.now (Self.prefix network) →
            result ≡ Ok network };
}

/// Why a string is not parsed as a network with a mask: the first of these.
#[derive(Clone, Copy, PartialEq, Eq)]
pub enum MaskParseError {
    /// There is no slash: `no slash before a mask`.
    NoSlash,
    /// What precedes the last slash is no address: `invalid address`.
    InvalidAddress,
    /// What follows it is no address of the same family: `invalid mask`.
    InvalidMask,
    /// It is neither a network mask nor a host mask: its set bits are not all at the front, and not all at the end, as
    /// of 255.0.255.0 and of 0.255.0.0. `mask is not contiguous`.
    NonContiguousMask,
    /// A bit after the prefix is set: `host part of address was not zero`.
    InvalidHostPart,
}

impl MaskParseError {
    ghost use Rattle.cidr_ext.specs.texts.MaskMessages.{mask_message};

    /// The message, as stated at each variant.
    ///
    /// ```
    /// MaskParseError::NoSlash.as_str() // no slash before a mask
    /// ```
    pub fn as_str(&self) -> &'static str
        ensures { result.now ≡ mask_message self.now }
    {
        match self {
            MaskParseError::NoSlash => "no slash before a mask",
            MaskParseError::InvalidAddress => "invalid address",
            MaskParseError::InvalidMask => "invalid mask",
            MaskParseError::NonContiguousMask => "mask is not contiguous",
            MaskParseError::InvalidHostPart => "host part of address was not zero",
        }
    }
}

impl fmt::Display for MaskParseError {
    ghost use Rattle.cidr_ext.specs.texts.MaskMessages.{mask_message};

    ghost output = { λ e. Some (mask_message e) };

    fn fmt<W: fmt::Write>(&self, f: &mut fmt::Formatter<W>) -> fmt::Result {
        f.write_str(self.as_str())
    }
}

impl fmt::Debug for MaskParseError {
    ghost use Rattle.cidr_ext.specs.texts.MaskMessages.{mask_message};

    ghost debug_output = { λ e. Some (mask_message e) };

    fn fmt<W: fmt::Write>(&self, f: &mut fmt::Formatter<W>) -> fmt::Result {
        fmt::Display::fmt(self, f)
    }
}

impl Error for MaskParseError {}

impl<C: WholeFamily + CidrExt> CidrMaskText for C
where
    C::Address: AddressExt + PrintedAddress,
{
    fn to_mask_text(&self) -> ArrayString<79> {
        length_is_within_the_width(self);
        with_mask(self.first_address(), self.mask())
    }

    fn to_host_mask_text(&self) -> ArrayString<79> {
        length_is_within_the_width(self);
        with_mask(self.first_address(), self.host_mask())
    }

    fn from_mask_text(text: &str) -> Result<C, MaskParseError> {
        match cut_at_last_slash(text) {
            Some((front, back)) => read_parts(front, back),
            None => Err(MaskParseError::NoSlash),
        }
    }
}

/// A type of addresses that can be appended to a string.
pub trait PrintedAddress: Address {
    /// Appends the address as it is printed.
    fn append_to(self, text: &mut ArrayString<79>)
        requires { length text.old.bytes + longest_address (Self.family_of self) ≤ 79 }
        ensures bytes { text.new.bytes ≡ text.old.bytes ++ address_text (Self.family_of self) (Self.bits self) }
        ensures len { length text.new.bytes ≤ length text.old.bytes + longest_address (Self.family_of self) };
}

impl PrintedAddress for Ipv4Addr {
    fn append_to(self, text: &mut ArrayString<79>) {
        text.push_str(self.to_text().as_str());
    }
}

impl PrintedAddress for Ipv6Addr {
    fn append_to(self, text: &mut ArrayString<79>) {
        text.push_str(self.to_text().as_str());
    }
}

impl PrintedAddress for IpAddr {
    fn append_to(self, text: &mut ArrayString<79>) {
        match self {
            IpAddr::V4(address) => address.append_to(text),
            IpAddr::V6(address) => address.append_to(text),
        }
    }
}

/// Both addresses with a slash between them.
#[tactic(auto, using(crate::proofs::MaskTexts::joined_laws))]
fn with_mask<A: PrintedAddress>(address: A, mask: A) -> ArrayString<79>
    ensures { result.bytes ≡ address_text (A.family_of address) (A.bits address) ++
        slash ∷ address_text (A.family_of mask) (A.bits mask) }
{
    let mut text = ArrayString::new();
    address.append_to(&mut text);
    text.push('/');
    mask.append_to(&mut text);
    text
}

/// What precedes the last slash and what follows it, if there is one.
fn cut_at_last_slash(text: &str) -> Option<(&str, &str)>
    ensures { MatchOption result (Lacks slash text.now) (λ parts. CutsAtLastSlash text.now parts.0.now parts.1.now) }
{
    text.rsplit_once('/')
}

/// The prefix length of a network mask, or of a host mask that is none.
pub(crate) fn length_of_mask<A: AddressExt>(mask: A) -> Option<u8>
    ensures { MatchOption result
        ((n : ℕ) → ¬ (IsLengthOfMask (width_of (A.family_of mask)) n (A.bits mask)))
        (λ n. IsLengthOfMask (width_of (A.family_of mask)) n (A.bits mask)) }
{
    match mask.mask_length() {
        Some(len) => Some(len),
        None => mask.host_mask_length(),
    }
}

/// The address of the type that a string represents.
fn parsed<A: Address>(text: &str) -> Option<A>
    ensures { MatchOption result ((a : A) → ¬ (IsAddressText (A.family_of a) text.now (A.bits a)))
        (λ a. IsAddressText (A.family_of a) text.now (A.bits a)) }
{
    text.parse::<A>().ok()
}

/// The address of the type and of this family that a string represents.
fn parsed_in<A: AddressExt>(family: Family, text: &str) -> Option<A>
    ensures { MatchOption result
        ((a : A) → A.family_of a ≡ family → ¬ (IsAddressText family text.now (A.bits a)))
        (λ a. (A.family_of a ≡ family) × IsAddressText family text.now (A.bits a)) }
{
    let address = parsed::<A>(text)?;
    if address.family() == family {
        Some(address)
    } else {
        None
    }
}

/// The network of an address and a mask.
fn read_parts<C: WholeFamily>(front: &str, back: &str) -> Result<C, MaskParseError>
where
    C::Address: AddressExt,
    ensures read { (text : List ℕ) → CutsAtLastSlash text front.now back.now →
        ReadsMaskText C.family_of C.prefix C.Address.family_of C.Address.bits text result }
    ensures only { (text : List ℕ) (network : C) → CutsAtLastSlash text front.now back.now →
        IsMaskText (C.family_of network) text (C.prefix network) → result ≡ Ok network }
{
    let Some(address) = parsed::<C::Address>(front) else {
        return Err(MaskParseError::InvalidAddress);
    };
    let Some(mask) = parsed_in::<C::Address>(address.family(), back) else {
        return Err(MaskParseError::InvalidMask);
    };
    let Some(len) = length_of_mask(mask) else {
        return Err(MaskParseError::NonContiguousMask);
    };
    address_has_its_width(address);
    C::new(address, len)
        .ok()
        .ok_or(MaskParseError::InvalidHostPart)
}
