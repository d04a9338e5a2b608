//! What holds between the parsers of one string, each as the contract of a function that does nothing.
ghost use Rattle.std.specs.Prelude.{◌≡◌, ℕ, Bool, List, Result};
ghost use Rattle.std.specs.Fn.{FnReturnsAt};
ghost use Rattle.cidr.specs.either.IpAddress.{IsIpText, address_family, plain_bits};
ghost use Rattle.cidr.specs.either.IpHost.{host_family, host_parts};
ghost use Rattle.cidr.specs.either.IpNetwork.{network_family, network_prefix};
ghost use Rattle.cidr.specs.either.IpText.{ReadsIpNetwork, ReadsAnyNetwork, ReadsIpHost};
ghost use Rattle.cidr.specs.model.Host.{Host};
ghost use Rattle.cidr.specs.model.Views.{in_family};
ghost use Rattle.cidr.specs.texts.AddressText.{IsAddressText, Reads, address_error};
ghost use Rattle.cidr.specs.texts.HostText.{ReadsHost};
ghost use Rattle.cidr.specs.texts.Messages.{ip_error};
ghost use Rattle.cidr.specs.texts.NetworkText.{slash};
ghost use Rattle.cidr.specs.texts.Parsing.{ReadsSlashed, MadeBy, MendsHostPart, strict_network, holding_network, made_host, lone_made};
ghost use Rattle.cidr.specs.texts.Refusal.{Lacks, CutsAtLastSlash, ReadsNetwork};
ghost use Rattle.cidr.specs.texts.Results.{HasOneResult, ParsesAround, ReadsAlso};
ghost use Rattle.cidr.specs.declared.family.Family.TheVariants.{Ipv4, Ipv6};
ghost use Rattle.cidr.specs.model.Errors.{AddressError};
ghost use Rattle.cidr.specs.declared.errors.NetworkParseError.{NetworkParseError};
ghost use Rattle.cidr.specs.declared.family.Family.{Family};

use crate::addr::error::AddrParseError;
use crate::addr::ip::IpAddr;
use crate::addr::v4::Ipv4Addr;
use crate::addr::v6::Ipv6Addr;

/// Of a string with a slash, for the same address parsed before it: a parser that ignores host bits returns the network
/// of the strict one, accepts besides exactly what that rejects with `InvalidHostPart`, and returns its other errors.
pub fn ignoring_host_bits_accepts_them()
    ensures { (returned : Result (Family × List Bool) AddressError) (back : List ℕ)
        (strict mended : Result (Family × List Bool) NetworkParseError) →
        ReadsSlashed (MadeBy (λ a. a) (λ n. n) strict_network) returned back strict →
        ReadsSlashed (MadeBy (λ a. a) (λ n. n) holding_network) returned back mended → MendsHostPart strict mended }
{}

/// A text is cut at its last slash in one way, and only where it has a slash.
pub fn last_cut_is_one()
    ensures one { (text front back other rest : List ℕ) → CutsAtLastSlash text front back →
        CutsAtLastSlash text other rest → (front ≡ other) × (back ≡ rest) }
    ensures slash { (text front back : List ℕ) → CutsAtLastSlash text front back → ¬ (Lacks slash text) }
{}

/// Reading a text as a network or as a host gives one result, of each type.
pub fn reading_gives_one_result()
    ensures ipv4 { HasOneResult (ReadsNetwork Ipv4) }
    ensures ipv6 { HasOneResult (ReadsNetwork Ipv6) }
    ensures ip { HasOneResult ReadsIpNetwork }
    ensures any { HasOneResult ReadsAnyNetwork }
    ensures ipv4_host { HasOneResult (ReadsHost Ipv4) }
    ensures ipv6_host { HasOneResult (ReadsHost Ipv6) }
    ensures ip_host { HasOneResult ReadsIpHost }
{}

/// Around a strict reader of addresses of IPv4, as their `from_str`, `parse_cidr` and `parse_inet` read as the
/// `from_str` of networks and hosts does.
pub fn parsing_around_strict_ipv4_is_strict<AP>(parser: &AP)
where
    AP: Fn(&str) -> Result<Ipv4Addr, AddrParseError>,
    ensures network { ReadsAlso (FnReturnsAt AP.Fn parser.now) (Reads (IsAddressText Ipv4) (address_error Ipv4)) →
        ReadsAlso (ParsesAround (FnReturnsAt AP.Fn parser.now) (in_family (λ _. Ipv4) (λ a. a))
        (in_family (λ _. Ipv4) (λ n. n)) strict_network (λ a. a)) (ReadsNetwork Ipv4) }
    ensures host { ReadsAlso (FnReturnsAt AP.Fn parser.now) (Reads (IsAddressText Ipv4) (address_error Ipv4)) →
        ReadsAlso (ParsesAround (FnReturnsAt AP.Fn parser.now) (in_family (λ _. Ipv4) (λ a. a))
        (in_family (λ _. Ipv4) (λ h. h)) made_host lone_made) (ReadsHost Ipv4) }
{}

/// Around a strict reader of addresses of IPv6, as their `from_str`, `parse_cidr` and `parse_inet` read as the
/// `from_str` of networks and hosts does.
pub fn parsing_around_strict_ipv6_is_strict<AP>(parser: &AP)
where
    AP: Fn(&str) -> Result<Ipv6Addr, AddrParseError>,
    ensures network { ReadsAlso (FnReturnsAt AP.Fn parser.now) (Reads (IsAddressText Ipv6) (address_error Ipv6)) →
        ReadsAlso (ParsesAround (FnReturnsAt AP.Fn parser.now) (in_family (λ _. Ipv6) (λ a. a))
        (in_family (λ _. Ipv6) (λ n. n)) strict_network (λ a. a)) (ReadsNetwork Ipv6) }
    ensures host { ReadsAlso (FnReturnsAt AP.Fn parser.now) (Reads (IsAddressText Ipv6) (address_error Ipv6)) →
        ReadsAlso (ParsesAround (FnReturnsAt AP.Fn parser.now) (in_family (λ _. Ipv6) (λ a. a))
        (in_family (λ _. Ipv6) (λ h. h)) made_host lone_made) (ReadsHost Ipv6) }
{}

/// Around a strict reader of addresses of either family, as their `from_str`, `parse_cidr` and `parse_inet` read as the
/// `from_str` of networks and hosts does.
pub fn parsing_around_strict_ip_is_strict<AP>(parser: &AP)
where
    AP: Fn(&str) -> Result<IpAddr, AddrParseError>,
    ensures network { ReadsAlso (FnReturnsAt AP.Fn parser.now) (Reads IsIpText ip_error) →
        ReadsAlso (ParsesAround (FnReturnsAt AP.Fn parser.now) (in_family address_family plain_bits)
        (in_family network_family network_prefix) strict_network (λ a. a)) ReadsIpNetwork }
    ensures host { ReadsAlso (FnReturnsAt AP.Fn parser.now) (Reads IsIpText ip_error) →
        ReadsAlso (ParsesAround (FnReturnsAt AP.Fn parser.now) (in_family address_family plain_bits)
        (in_family host_family host_parts) made_host lone_made) ReadsIpHost }
{}
