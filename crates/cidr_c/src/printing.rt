//! Values as strings and as compact bytes.
ghost use Rattle.std.specs.Prelude.{◌≡◌};
ghost use Rattle.cidr.specs.bytes.Compact.{any_network_bytes, ip_host_bytes};
ghost use Rattle.cidr.specs.either.IpText.{any_network_text, ip_host_text};
ghost use Rattle.cidr.specs.texts.Printed.{forced_host_text, forced_text, plain_host_text, plain_text};
ghost use Rattle.cidr.specs.texts.PrintedAddress.{ip_text};
ghost use Rattle.cidr_c.specs.calls.Calls.{IsPrintedInto, IsUnprinted, IsWrittenInto};
ghost use Rattle.cidr_c.specs.model.Codes.{message};
ghost use Rattle.cidr_c.specs.model.Values.{IsAddressValue, IsHostValue, IsNetworkValue, address_in, host_in, network_in};

use crate::codes::message;
use crate::values::{CValue, address_of, host_of, value_network};

/// Writes a string with a 0 behind, if there is room for both, and returns its length.
pub fn print(text: &str, out: &mut [u8]) -> usize
    ensures { IsPrintedInto text.now out.old out.new result }
{
    print_bytes(text.as_bytes(), out)
}

/// Writes the bytes of a string with a 0 behind, if there is room for both, and returns how many they are.
pub fn print_bytes(bytes: &[u8], out: &mut [u8]) -> usize
    ensures { IsPrintedInto bytes.now out.old out.new result }
{
    if bytes.len() < out.len() {
        out[..bytes.len()].copy_from_slice(bytes);
        out[bytes.len()] = 0;
    }
    bytes.len()
}

/// Writes bytes, if there is room for them, and returns how many they are.
fn write(bytes: &[u8], out: &mut [u8]) -> usize
    ensures { IsWrittenInto bytes.now out.old out.new result }
{
    if bytes.len() <= out.len() {
        out[..bytes.len()].copy_from_slice(bytes);
    }
    bytes.len()
}

/// Writes an address as a string, and returns its length, at most 39; 0 where the value is no address.
#[unsafe(no_mangle)]
pub extern "C" fn pcidr_print_address(address: &CValue, out: &mut [u8]) -> usize
    ensures address { IsAddressValue address.now → IsPrintedInto (ip_text (address_in address.now))
        out.old out.new result }
    ensures other { ¬ (IsAddressValue address.now) → IsUnprinted out.old out.new result }
{
    match address_of(address) {
        Some(address) => print(address.to_text().as_str(), out),
        None => 0,
    }
}

/// Writes a host as a string, without a full prefix length, and returns its length, at most 43; 0 where the value is no
/// host.
#[unsafe(no_mangle)]
pub extern "C" fn pcidr_print_host(host: &CValue, out: &mut [u8]) -> usize
    ensures host { IsHostValue host.now →
        IsPrintedInto (ip_host_text plain_host_text (host_in host.now)) out.old out.new result }
    ensures other { ¬ (IsHostValue host.now) → IsUnprinted out.old out.new result }
{
    match host_of(host) {
        Some(host) => print(host.to_text().as_str(), out),
        None => 0,
    }
}

/// Writes a host as a string, with its prefix length also where that is full, and returns its length, at most 43; 0
/// where the value is no host.
#[unsafe(no_mangle)]
pub extern "C" fn pcidr_print_host_with_length(host: &CValue, out: &mut [u8]) -> usize
    ensures host { IsHostValue host.now →
        IsPrintedInto (ip_host_text forced_host_text (host_in host.now)) out.old out.new result }
    ensures other { ¬ (IsHostValue host.now) → IsUnprinted out.old out.new result }
{
    match host_of(host) {
        Some(host) => print(host.with_length().to_text().as_str(), out),
        None => 0,
    }
}

/// Writes a network as a string, without a full prefix length, and returns its length, at most 43; 0 where the value is
/// no network.
#[unsafe(no_mangle)]
pub extern "C" fn pcidr_print_network(network: &CValue, out: &mut [u8]) -> usize
    ensures network { IsNetworkValue network.now →
        IsPrintedInto (any_network_text plain_text (network_in network.now)) out.old out.new result }
    ensures other { ¬ (IsNetworkValue network.now) → IsUnprinted out.old out.new result }
{
    match value_network(network) {
        Some(network) => print(network.to_text().as_str(), out),
        None => 0,
    }
}

/// Writes a network as a string, with its prefix length also where that is full, and returns its length, at most 43; 0
/// where the value is no network.
#[unsafe(no_mangle)]
pub extern "C" fn pcidr_print_network_with_length(network: &CValue, out: &mut [u8]) -> usize
    ensures network { IsNetworkValue network.now →
        IsPrintedInto (any_network_text forced_text (network_in network.now)) out.old out.new result }
    ensures other { ¬ (IsNetworkValue network.now) → IsUnprinted out.old out.new result }
{
    match value_network(network) {
        Some(network) => print(network.with_length().to_text().as_str(), out),
        None => 0,
    }
}

/// Writes the compact bytes of a network, and returns how many they are: 1, 5 or 17; 0 where the value is no network.
#[unsafe(no_mangle)]
pub extern "C" fn pcidr_network_to_bytes(network: &CValue, out: &mut [u8]) -> usize
    ensures network { IsNetworkValue network.now →
        IsWrittenInto (any_network_bytes (network_in network.now)) out.old out.new result }
    ensures other { ¬ (IsNetworkValue network.now) → IsUnprinted out.old out.new result }
{
    match value_network(network) {
        Some(network) => write(network.to_compact().as_slice(), out),
        None => 0,
    }
}

/// Writes the compact bytes of a host, and returns how many they are: 5 or 17; 0 where the value is no host.
#[unsafe(no_mangle)]
pub extern "C" fn pcidr_host_to_bytes(host: &CValue, out: &mut [u8]) -> usize
    ensures host { IsHostValue host.now → IsWrittenInto (ip_host_bytes (host_in host.now)) out.old out.new result }
    ensures other { ¬ (IsHostValue host.now) → IsUnprinted out.old out.new result }
{
    match host_of(host) {
        Some(host) => write(host.to_compact().as_slice(), out),
        None => 0,
    }
}

/// Writes the message of an error, and returns its length, at most 60; 0 for a number that is none.
#[unsafe(no_mangle)]
pub extern "C" fn pcidr_message(code: u32, out: &mut [u8]) -> usize
    ensures { IsPrintedInto (message code) out.old out.new result }
{
    print(message(code), out)
}

/// The version: 65536 for the major one, 256 for the minor one, and the patch.
#[unsafe(no_mangle)]
pub extern "C" fn pcidr_version() -> u32
    ensures { result ≡ 1024 }
{
    0x400
}
