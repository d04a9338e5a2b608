//! The traits of addresses: what networks, hosts and pairs of one family are written over.
ghost use Rattle.std.specs.Prelude.{◌≡◌, ◌↔◌, ◌+◌, ◌-◌, ◌≤◌, ◌++◌, Bool, List, length, take, drop, IsTrue, refl};
ghost use Rattle.std.specs.Ordering.{nat_cmp, ordering_then, is_lt};
ghost use Rattle.cidr.specs.model.Views.{seen};
ghost use Rattle.cidr.specs.model.Bits.{bit_cmp, bit_eq};
ghost use Rattle.cidr.specs.model.Counted.{number_of};
ghost use Rattle.cidr.specs.model.Host.{host_of, stepped_up, stepped_down, WrapsUp, WrapsDown};
ghost use Rattle.cidr.specs.model.Network.{width_of, zeros, ones, first_of, last_of, address_hash};
ghost use Rattle.cidr.specs.model.Walk.{walk_between};
ghost use Rattle.cidr.specs.texts.AddressText.{IsAddressText, address_error, Reads};
ghost use Rattle.cidr.specs.texts.PrintedAddress.{address_text, longest_address};
ghost use Rattle.cidr.specs.declared.family.Family.{Family};
ghost use Rattle.cidr.specs.declared.family.Family.TheVariants.{Ipv4, Ipv6};

use crate::addr::error::AddrParseError;
use crate::addr::v4::Ipv4Addr;
use crate::addr::v6::Ipv6Addr;
use crate::arithmetic::halves::Halves;
use crate::arithmetic::{
    first_number, host_mask, host_part, last_number, order, same_first_bits, step_down, step_up,
};
use crate::family::Family;
use crate::num::NumberOfAddresses;
use arrayvec::ArrayString;
use std::cmp::Ordering;
use std::fmt::Debug;
use std::hash::Hash;

/// An address of one family, by its bits.
///
/// No other crate can name this trait, so that there are two families. Its clauses speak of lists of bits alone;
/// numbers and masks are found in the two implementations.
pub trait AddressBits: Copy + Ord + Hash {
    /// The family, which fixes the width, the strings and the error of a string.
    ghost FAMILY: { Family };

    /// The bits, most significant first.
    ghost bits: { Self → List Bool };

    /// The address that has these bits.
    ghost of_bits: { List Bool → Self };

    /// It has the bits that it was made of.
    ghost restored: { (a : Self) → of_bits (bits a) ≡ a };

    /// The family.
    const FAMILY: Family;

    /// Does nothing. An address has as many bits as the width says.
    fn has_width(self)
        ensures { length (bits self) ≡ width_of FAMILY };

    /// The first address of its network of this length.
    fn first_in(self, len: u8) -> Self
        requires { len ≤ width_of FAMILY }
        ensures { bits result ≡ first_of (width_of FAMILY) (take len (bits self)) };

    /// The last address of its network of this length.
    fn last_in(self, len: u8) -> Self
        requires { len ≤ width_of FAMILY }
        ensures { bits result ≡ last_of (width_of FAMILY) (take len (bits self)) };

    /// As many ones as the length says, then zeros.
    fn mask_of(len: u8) -> Self
        requires { len ≤ width_of FAMILY }
        ensures { bits result ≡ ones len ++ zeros (width_of FAMILY - len) };

    /// Whether it is the first address of its network of this length: all bits from `len` on are zero.
    fn is_first_in(self, len: u8) -> bool
        requires { len ≤ width_of FAMILY }
        ensures { result ≡ bit_eq (drop len (bits self)) (zeros (width_of FAMILY - len)) };

    /// Whether both have the same first `len` bits.
    fn shares(self, other: Self, len: u8) -> bool
        requires { len ≤ width_of FAMILY }
        ensures { result ≡ bit_eq (take len (bits self)) (take len (bits other)) };

    /// The address `step` further in its network of this length, going round, and whether it went round.
    fn step_up(self, len: u8, step: u128) -> (Self, bool)
        requires { len ≤ width_of FAMILY }
        ensures value { bits result.0 ≡ (stepped_up (width_of FAMILY) (host_of (bits self) len) step).address }
        ensures wraps { IsTrue result.1 ↔ WrapsUp (width_of FAMILY) (host_of (bits self) len) step };

    /// The address `step` before in its network of this length, going round, and whether it went round.
    fn step_down(self, len: u8, step: u128) -> (Self, bool)
        requires { len ≤ width_of FAMILY }
        ensures value { bits result.0 ≡ (stepped_down (width_of FAMILY) (host_of (bits self) len) step).address }
        ensures wraps { IsTrue result.1 ↔ WrapsDown (host_of (bits self) len) step };

    /// The order of two addresses, and where they are the same, that of their lengths.
    fn order(self, len: u8, other: Self, other_len: u8) -> Ordering
        ensures { result ≡ ordering_then (bit_cmp (bits self) (bits other)) (nat_cmp len other_len) };

    /// Whether it comes before the other.
    fn is_below(self, other: Self) -> bool
        ensures { result ≡ is_lt (bit_cmp (bits self) (bits other)) };

    /// How many addresses there are from this one to the last, inclusive.
    fn count_to(self, last: Self) -> NumberOfAddresses
        ensures { number_of result ≡ length (walk_between (width_of FAMILY) (bits self) (bits last)) };

    /// The order is the lexicographic order of the bits.
    ghost ordered: { (a b : Self) → Self.Ord.cmp a b ≡ bit_cmp (bits a) (bits b) };

    /// Equal addresses have equal bits.
    ghost same: { (a b : Self) → Self.eq a b ≡ bit_eq (bits a) (bits b) };

    /// What is hashed is a function of the bits.
    ghost hashes: { (a : Self) → Self.hash_input a ≡ address_hash FAMILY (bits a) };
}

/// The strings of such an address.
pub trait AddressText: AddressBits + Debug {
    /// The address that a string is parsed as.
    fn read(text: &str) -> Result<Self, AddrParseError>
        ensures { Reads (IsAddressText Self.FAMILY) (address_error Self.FAMILY) text.now (seen Self.bits result) };

    /// Appends the printed string.
    fn push_to(&self, text: &mut ArrayString<43>)
        requires { length text.old.bytes + 39 ≤ 43 }
        ensures bytes { text.new.bytes ≡ text.old.bytes ++ address_text Self.FAMILY (Self.bits self.now) }
        ensures len { length text.new.bytes ≤ length text.old.bytes + longest_address Self.FAMILY };
}

impl AddressBits for Ipv4Addr {
    ghost FAMILY = { Ipv4 };

    ghost bits = { λ a. a };

    ghost of_bits = { λ p. p };

    ghost restored = { λ _. refl };

    const FAMILY: Family = Family::Ipv4;

    fn has_width(self) {
        let _bits = self.to_bits();
    }

    #[tactic(auto, using(crate::proofs::HostNumbers::host_number_laws))]
    fn first_in(self, len: u8) -> Ipv4Addr {
        Ipv4Addr::from_bits(first_number(self.to_bits(), len))
    }

    #[tactic(auto, using(crate::proofs::HostNumbers::host_number_laws))]
    fn last_in(self, len: u8) -> Ipv4Addr {
        Ipv4Addr::from_bits(last_number(self.to_bits(), len))
    }

    #[tactic(auto, using(crate::proofs::NetworkNumbers::number_test_laws))]
    fn mask_of(len: u8) -> Ipv4Addr {
        Ipv4Addr::from_bits(u32::MAX - host_mask(len))
    }

    #[tactic(auto, using(crate::proofs::NetworkNumbers::number_test_laws))]
    fn is_first_in(self, len: u8) -> bool {
        host_part(self.to_bits(), len) == 0
    }

    #[tactic(auto, using(crate::proofs::PairNumbers::shared_laws))]
    fn shares(self, other: Ipv4Addr, len: u8) -> bool {
        same_first_bits(self.to_bits(), other.to_bits(), len)
    }

    #[tactic(auto, using(crate::proofs::HostNumbers::host_number_laws))]
    fn step_up(self, len: u8, step: u128) -> (Ipv4Addr, bool) {
        let (stepped, wraps) = step_up(self.to_bits(), len, step);
        (Ipv4Addr::from_bits(stepped), wraps)
    }

    #[tactic(auto, using(crate::proofs::HostNumbers::host_number_laws))]
    fn step_down(self, len: u8, step: u128) -> (Ipv4Addr, bool) {
        let (stepped, wraps) = step_down(self.to_bits(), len, step);
        (Ipv4Addr::from_bits(stepped), wraps)
    }

    #[tactic(auto, using(crate::specs::laws::BitLaws::number_order_laws))]
    fn order(self, len: u8, other: Ipv4Addr, other_len: u8) -> Ordering {
        order(self.to_bits(), len, other.to_bits(), other_len)
    }

    #[tactic(auto, using(crate::proofs::PairNumbers::below_laws))]
    fn is_below(self, other: Ipv4Addr) -> bool {
        self.to_bits() < other.to_bits()
    }

    #[tactic(auto, using(crate::proofs::PairNumbers::walk_count_laws))]
    fn count_to(self, last: Ipv4Addr) -> NumberOfAddresses {
        NumberOfAddresses::between(
            Halves::new(0, u64::from(self.to_bits())),
            Halves::new(0, u64::from(last.to_bits())),
        )
    }

    ghost ordered = { λ _ _. refl };

    ghost same = { λ _ _. refl };

    ghost hashes = { λ _. refl };
}

impl AddressText for Ipv4Addr {
    #[tactic(auto, using(crate::proofs::Views::view_laws))]
    fn read(text: &str) -> Result<Ipv4Addr, AddrParseError> {
        text.parse()
    }

    #[inline(always)]
    fn push_to(&self, text: &mut ArrayString<43>) {
        self.push_to(text);
    }
}

impl AddressBits for Ipv6Addr {
    ghost FAMILY = { Ipv6 };

    ghost bits = { λ a. a };

    ghost of_bits = { λ p. p };

    ghost restored = { λ _. refl };

    const FAMILY: Family = Family::Ipv6;

    fn has_width(self) {
        let _bits = self.to_bits();
    }

    #[tactic(auto, using(crate::proofs::HostNumbers::host_number_laws))]
    fn first_in(self, len: u8) -> Ipv6Addr {
        Ipv6Addr::from_halves(self.halves().first_number(len))
    }

    #[tactic(auto, using(crate::proofs::HostNumbers::host_number_laws))]
    fn last_in(self, len: u8) -> Ipv6Addr {
        Ipv6Addr::from_halves(self.halves().last_number(len))
    }

    #[tactic(auto, using(crate::proofs::NetworkNumbers::number_test_laws))]
    fn mask_of(len: u8) -> Ipv6Addr {
        Ipv6Addr::from_halves(Halves::network_mask(len))
    }

    #[tactic(auto, using(crate::proofs::NetworkNumbers::number_test_laws))]
    fn is_first_in(self, len: u8) -> bool {
        self.halves().host_part(len).is_zero()
    }

    #[tactic(auto, using(crate::proofs::PairNumbers::shared_laws))]
    fn shares(self, other: Ipv6Addr, len: u8) -> bool {
        self.halves().same_first_bits(other.halves(), len)
    }

    #[tactic(auto, using(crate::proofs::HostNumbers::host_number_laws))]
    fn step_up(self, len: u8, step: u128) -> (Ipv6Addr, bool) {
        let (stepped, wraps) = self.halves().step_up(len, step);
        (Ipv6Addr::from_halves(stepped), wraps)
    }

    #[tactic(auto, using(crate::proofs::HostNumbers::host_number_laws))]
    fn step_down(self, len: u8, step: u128) -> (Ipv6Addr, bool) {
        let (stepped, wraps) = self.halves().step_down(len, step);
        (Ipv6Addr::from_halves(stepped), wraps)
    }

    #[tactic(auto, using(crate::specs::laws::BitLaws::number_order_laws))]
    fn order(self, len: u8, other: Ipv6Addr, other_len: u8) -> Ordering {
        self.halves().order(len, other.halves(), other_len)
    }

    #[tactic(auto, using(crate::proofs::PairNumbers::below_laws))]
    fn is_below(self, other: Ipv6Addr) -> bool {
        self.halves().is_below(other.halves())
    }

    #[tactic(auto, using(crate::proofs::PairNumbers::walk_count_laws))]
    fn count_to(self, last: Ipv6Addr) -> NumberOfAddresses {
        NumberOfAddresses::between(self.halves(), last.halves())
    }

    ghost ordered = { λ _ _. refl };

    ghost same = { λ _ _. refl };

    ghost hashes = { λ _. refl };
}

impl AddressText for Ipv6Addr {
    #[tactic(auto, using(crate::proofs::Views::view_laws))]
    fn read(text: &str) -> Result<Ipv6Addr, AddrParseError> {
        text.parse()
    }

    #[inline(always)]
    fn push_to(&self, text: &mut ArrayString<43>) {
        self.push_to(text);
    }
}
