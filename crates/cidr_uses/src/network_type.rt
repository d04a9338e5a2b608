//! A type of networks and the calls that the headline speaks of, for a function that is written once over the four types.
ghost use Rattle.std.specs.Prelude.{◌≡◌, ◌↔◌, ℕ, List, Bool, Ok, IsTrue, IsFalse, MatchResult};
ghost use Rattle.cidr.specs.bytes.Agreement.{AllAgree, NoneAgrees};
ghost use Rattle.cidr.specs.bytes.Compact.{AreFirst};
ghost use Rattle.cidr.specs.either.IpAddress.{SpellsOne};
ghost use Rattle.cidr.specs.model.Bits.{bit_cmp};
ghost use Rattle.cidr.specs.model.Network.{BeginsWith, HoldsAll};
ghost use Rattle.cidr.specs.declared.errors.NetworkParseError.{NetworkParseError};

use arrayvec::{ArrayString, ArrayVec};
use cidr::canon::agree;
use cidr::errors::{CompactError, NetworkParseError};
use cidr::laws::networks;
use cidr::{AnyIpCidr, IpAddr, IpCidr, Ipv4Addr, Ipv4Cidr, Ipv6Addr, Ipv6Cidr};
use std::cmp::Ordering;

/// A type of networks: `Ipv4Cidr`, `Ipv6Cidr`, `IpCidr` and `AnyIpCidr`. Each method is one call of the type, and its
/// contract is that of the call.
pub trait NetworkType: Copy {
    /// The addresses that a network may contain.
    type IpAddress;

    /// What every value of the type is.
    ghost is_network: { Self → Type 0 };

    /// The string represents the network.
    ghost represents: { List ℕ → Self → Type 0 };

    /// The first error of a string that represents none.
    ghost is_rejected: { List ℕ → NetworkParseError → Type 0 };

    /// These are the bits of an address, of either family with the family bit in front.
    ghost is_address: { List Bool → Type 0 };

    /// The bits of an address.
    ghost address_bits: { Self.IpAddress → List Bool };

    /// The bits that the addresses of a network begin with.
    ghost bits: { Self → List Bool };

    /// The printed string.
    ghost text: { Self → List ℕ };

    /// The printed string with a full length.
    ghost long_text: { Self → List ℕ };

    /// The compact bytes.
    ghost bytes: { Self → List ℕ };

    /// `parse`.
    fn parse_network(s: &str) -> Result<Self, NetworkParseError>
        ensures { MatchResult result (represents s.now)
            (λ e. is_rejected s.now e × ((n : Self) → ¬ (represents s.now n))) };

    /// `to_text`.
    fn print(&self) -> ArrayString<43>
        ensures text { result.bytes ≡ text self.now }
        ensures represents { represents result.bytes self.now };

    /// `to_text` of `with_length`.
    fn print_with_length(&self) -> ArrayString<43>
        ensures text { result.bytes ≡ long_text self.now }
        ensures represents { represents result.bytes self.now };

    /// `to_compact`.
    fn pack(&self) -> ArrayVec<u8, 17>
        ensures { result.items ≡ bytes self.now };

    /// `from_compact`.
    fn unpack(input: &[u8]) -> Result<(Self, usize), CompactError>
        ensures { (n : Self) (k : ℕ) → (result ≡ Ok (n, k)) ↔ (is_network n × AreFirst k input.now (bytes n)) };

    /// `agree`.
    fn agrees(&self, other: &Self) -> bool
        ensures all { IsTrue result ↔ AllAgree (λ n x. is_address x × BeginsWith x (bits n)) text bytes
            (λ m n. bit_cmp (bits m) (bits n)) self.now other.now }
        ensures none { IsFalse result ↔ NoneAgrees (λ n x. is_address x × BeginsWith x (bits n)) text bytes
            (λ m n. bit_cmp (bits m) (bits n)) self.now other.now };

    /// `contains`.
    fn contains_address(&self, address: &Self::IpAddress) -> bool
        ensures { IsTrue result ↔
            (is_address (address_bits address.now) × BeginsWith (address_bits address.now) (bits self.now)) };

    /// `contains_cidr`.
    fn contains_network(&self, other: &Self) -> bool
        ensures begins { IsTrue result ↔ BeginsWith (bits other.now) (bits self.now) }
        ensures holds { IsTrue result ↔ HoldsAll is_address (bits self.now) (bits other.now) };

    /// `cmp`.
    fn compare(&self, other: &Self) -> Ordering
        ensures { result ≡ bit_cmp (bits self.now) (bits other.now) };

    /// Does nothing: each value of the type is a network, and a string represents one at most.
    fn laws(&self)
        ensures network { is_network self.now }
        ensures one { SpellsOne represents };
}

impl NetworkType for Ipv4Cidr {
    ghost use Rattle.cidr.specs.bytes.Compact.{network_bytes};
    ghost use Rattle.cidr.specs.model.Network.{FitsWidth, HasWidth};
    ghost use Rattle.cidr.specs.texts.NetworkText.{IsNetworkText};
    ghost use Rattle.cidr.specs.texts.AddressText.{address_error};
    ghost use Rattle.cidr.specs.texts.Printed.{plain_text, forced_text};
    ghost use Rattle.cidr.specs.texts.Refusal.{IsRefused};
    ghost use Rattle.cidr.specs.declared.family.Family.TheVariants.{Ipv4};

    type IpAddress = Ipv4Addr;

    ghost is_network = { FitsWidth 32 };

    ghost represents = { IsNetworkText Ipv4 };

    ghost is_rejected = { IsRefused Ipv4 (address_error Ipv4) };

    ghost is_address = { HasWidth 32 };

    ghost address_bits = { λ a. a };

    ghost bits = { λ n. n };

    ghost text = { plain_text Ipv4 };

    ghost long_text = { forced_text Ipv4 };

    ghost bytes = { network_bytes Ipv4 };

    fn parse_network(s: &str) -> Result<Ipv4Cidr, NetworkParseError> {
        s.parse::<Ipv4Cidr>()
    }

    fn print(&self) -> ArrayString<43> {
        self.to_text()
    }

    fn print_with_length(&self) -> ArrayString<43> {
        self.with_length().to_text()
    }

    fn pack(&self) -> ArrayVec<u8, 17> {
        self.to_compact()
    }

    fn unpack(input: &[u8]) -> Result<(Ipv4Cidr, usize), CompactError> {
        Ipv4Cidr::from_compact(input)
    }

    fn agrees(&self, other: &Ipv4Cidr) -> bool {
        agree(self, other)
    }

    fn contains_address(&self, address: &Ipv4Addr) -> bool {
        // the call tells the proof how many bits the address has
        let _host = Ipv4Cidr::new_host(*address);
        self.contains(address)
    }

    fn contains_network(&self, other: &Ipv4Cidr) -> bool {
        self.contains_cidr(other)
    }

    fn compare(&self, other: &Ipv4Cidr) -> Ordering {
        self.cmp(other)
    }

    fn laws(&self) {
        // the call tells the proof that the prefix length is within the width
        let _len = self.network_length();
        networks::network_text_spells_one();
    }
}

impl NetworkType for Ipv6Cidr {
    ghost use Rattle.cidr.specs.bytes.Compact.{network_bytes};
    ghost use Rattle.cidr.specs.model.Network.{FitsWidth, HasWidth};
    ghost use Rattle.cidr.specs.texts.NetworkText.{IsNetworkText};
    ghost use Rattle.cidr.specs.texts.AddressText.{address_error};
    ghost use Rattle.cidr.specs.texts.Printed.{plain_text, forced_text};
    ghost use Rattle.cidr.specs.texts.Refusal.{IsRefused};
    ghost use Rattle.cidr.specs.declared.family.Family.TheVariants.{Ipv6};

    type IpAddress = Ipv6Addr;

    ghost is_network = { FitsWidth 128 };

    ghost represents = { IsNetworkText Ipv6 };

    ghost is_rejected = { IsRefused Ipv6 (address_error Ipv6) };

    ghost is_address = { HasWidth 128 };

    ghost address_bits = { λ a. a };

    ghost bits = { λ n. n };

    ghost text = { plain_text Ipv6 };

    ghost long_text = { forced_text Ipv6 };

    ghost bytes = { network_bytes Ipv6 };

    fn parse_network(s: &str) -> Result<Ipv6Cidr, NetworkParseError> {
        s.parse::<Ipv6Cidr>()
    }

    fn print(&self) -> ArrayString<43> {
        self.to_text()
    }

    fn print_with_length(&self) -> ArrayString<43> {
        self.with_length().to_text()
    }

    fn pack(&self) -> ArrayVec<u8, 17> {
        self.to_compact()
    }

    fn unpack(input: &[u8]) -> Result<(Ipv6Cidr, usize), CompactError> {
        Ipv6Cidr::from_compact(input)
    }

    fn agrees(&self, other: &Ipv6Cidr) -> bool {
        agree(self, other)
    }

    fn contains_address(&self, address: &Ipv6Addr) -> bool {
        // the call tells the proof how many bits the address has
        let _host = Ipv6Cidr::new_host(*address);
        self.contains(address)
    }

    fn contains_network(&self, other: &Ipv6Cidr) -> bool {
        self.contains_cidr(other)
    }

    fn compare(&self, other: &Ipv6Cidr) -> Ordering {
        self.cmp(other)
    }

    fn laws(&self) {
        // the call tells the proof that the prefix length is within the width
        let _len = self.network_length();
        networks::network_text_spells_one();
    }
}

impl NetworkType for IpCidr {
    ghost use Rattle.cidr.specs.bytes.Compact.{ip_network_bytes};
    ghost use Rattle.cidr.specs.either.IpAddress.{ip_address_bits};
    ghost use Rattle.cidr.specs.either.IpNetwork.{network_bits, IsIpNetwork, IsAddressBits};
    ghost use Rattle.cidr.specs.either.IpText.{IsIpNetworkText, IsIpRefused, ip_network_text};
    ghost use Rattle.cidr.specs.texts.Printed.{plain_text, forced_text};

    type IpAddress = IpAddr;

    ghost is_network = { IsIpNetwork };

    ghost represents = { IsIpNetworkText };

    ghost is_rejected = { IsIpRefused };

    ghost is_address = { IsAddressBits };

    ghost address_bits = { ip_address_bits };

    ghost bits = { network_bits };

    ghost text = { ip_network_text plain_text };

    ghost long_text = { ip_network_text forced_text };

    ghost bytes = { ip_network_bytes };

    fn parse_network(s: &str) -> Result<IpCidr, NetworkParseError> {
        s.parse::<IpCidr>()
    }

    fn print(&self) -> ArrayString<43> {
        self.to_text()
    }

    fn print_with_length(&self) -> ArrayString<43> {
        self.with_length().to_text()
    }

    fn pack(&self) -> ArrayVec<u8, 17> {
        self.to_compact()
    }

    fn unpack(input: &[u8]) -> Result<(IpCidr, usize), CompactError> {
        IpCidr::from_compact(input)
    }

    fn agrees(&self, other: &IpCidr) -> bool {
        networks::order_is_by_family_and_bits();
        agree(self, other)
    }

    fn contains_address(&self, address: &IpAddr) -> bool {
        // the call tells the proof how many bits the address has
        let _host = IpCidr::new_host(*address);
        self.contains(address)
    }

    fn contains_network(&self, other: &IpCidr) -> bool {
        self.contains_cidr(other)
    }

    fn compare(&self, other: &IpCidr) -> Ordering {
        networks::order_is_by_family_and_bits();
        self.cmp(other)
    }

    fn laws(&self) {
        // the call tells the proof that the prefix length is within the width
        let _len = self.network_length();
        networks::network_text_spells_one();
    }
}

impl NetworkType for AnyIpCidr {
    ghost use Rattle.cidr.specs.bytes.Compact.{any_network_bytes};
    ghost use Rattle.cidr.specs.either.IpAddress.{ip_address_bits};
    ghost use Rattle.cidr.specs.either.IpNetwork.{any_bits, IsAnyNetwork, IsAddressBits};
    ghost use Rattle.cidr.specs.either.IpText.{IsAnyNetworkText, IsIpRefused, any_network_text};
    ghost use Rattle.cidr.specs.texts.Printed.{plain_text, forced_text};

    type IpAddress = IpAddr;

    ghost is_network = { IsAnyNetwork };

    ghost represents = { IsAnyNetworkText };

    ghost is_rejected = { IsIpRefused };

    ghost is_address = { IsAddressBits };

    ghost address_bits = { ip_address_bits };

    ghost bits = { any_bits };

    ghost text = { any_network_text plain_text };

    ghost long_text = { any_network_text forced_text };

    ghost bytes = { any_network_bytes };

    fn parse_network(s: &str) -> Result<AnyIpCidr, NetworkParseError> {
        s.parse::<AnyIpCidr>()
    }

    fn print(&self) -> ArrayString<43> {
        self.to_text()
    }

    fn print_with_length(&self) -> ArrayString<43> {
        self.with_length().to_text()
    }

    fn pack(&self) -> ArrayVec<u8, 17> {
        self.to_compact()
    }

    fn unpack(input: &[u8]) -> Result<(AnyIpCidr, usize), CompactError> {
        AnyIpCidr::from_compact(input)
    }

    fn agrees(&self, other: &AnyIpCidr) -> bool {
        networks::order_begins_with_any();
        agree(self, other)
    }

    fn contains_address(&self, address: &IpAddr) -> bool {
        // the call tells the proof how many bits the address has
        let _host = IpCidr::new_host(*address);
        self.contains(address)
    }

    fn contains_network(&self, other: &AnyIpCidr) -> bool {
        self.contains_cidr(other)
    }

    fn compare(&self, other: &AnyIpCidr) -> Ordering {
        networks::order_begins_with_any();
        self.cmp(other)
    }

    fn laws(&self) {
        // the calls tell the proof that the prefix length is within the width
        let _len = match self {
            AnyIpCidr::Any => 0,
            AnyIpCidr::V4(network) => network.network_length(),
            AnyIpCidr::V6(network) => network.network_length(),
        };
        networks::network_text_spells_one();
    }
}
