//! Strings into values.
ghost use Rattle.cidr.specs.either.IpAddress.{IsIpText};
ghost use Rattle.cidr.specs.either.IpText.{ReadsAny, ReadsAnyNetwork, ReadsIpHost, ReadsIpNetwork};
ghost use Rattle.cidr.specs.texts.AddressText.{Reads};
ghost use Rattle.cidr.specs.texts.LooseText.{IsLooseIpText};
ghost use Rattle.cidr.specs.texts.Messages.{ip_error};
ghost use Rattle.cidr.specs.texts.ShortText.{IsShortIpText, ReadsShort};
ghost use Rattle.cidr.specs.declared.errors.NetworkParseError.TheVariants as parse_error;
ghost use Rattle.cidr_c.specs.calls.Calls.{IsRead};
ghost use Rattle.cidr_c.specs.model.Codes.{address_code, parse_code};
ghost use Rattle.cidr_c.specs.model.Values.{IsAddressValue, IsHostValue, IsNetworkValue, address_in, host_in, network_in};

use crate::codes::{NOT_ADDRESS, NOT_UTF8, OK, parse_code};
use crate::values::{CValue, put_address, put_host, put_network};
use cidr::parsers::{parse_loose_ip, parse_short_any_ip_cidr};
use cidr::{AnyIpCidr, IpAddr, IpInet};
use std::str::FromStr;

/// Reads an address: 0 and the address in `out`, or the number of the error.
#[unsafe(no_mangle)]
pub extern "C" fn pcidr_read_address(text: &[u8], out: &mut CValue) -> u32
    ensures { IsRead (Reads IsIpText ip_error) address_code IsAddressValue address_in text.now out.old out.new result }
{
    let Ok(text) = str::from_utf8(text) else {
        return NOT_UTF8;
    };
    match IpAddr::from_str(text) {
        Ok(address) => {
            put_address(&address, out);
            OK
        }
        Err(_) => NOT_ADDRESS,
    }
}

/// Reads an address as `pcidr_read_address` does, and also what `inet_addr` takes: up to four numbers with dots, each
/// decimal, octal or hexadecimal, of which the last fills the octets that are missing.
#[unsafe(no_mangle)]
pub extern "C" fn pcidr_read_loose_address(text: &[u8], out: &mut CValue) -> u32
    ensures { IsRead (Reads IsLooseIpText ip_error) address_code IsAddressValue address_in text.now
        out.old out.new result }
{
    let Ok(text) = str::from_utf8(text) else {
        return NOT_UTF8;
    };
    match parse_loose_ip(text) {
        Ok(address) => {
            put_address(&address, out);
            OK
        }
        Err(_) => NOT_ADDRESS,
    }
}

/// Reads a host, an address with or without a prefix length: 0 and the host in `out`, or the number of the first error.
#[unsafe(no_mangle)]
pub extern "C" fn pcidr_read_host(text: &[u8], out: &mut CValue) -> u32
    ensures { IsRead ReadsIpHost parse_code IsHostValue host_in text.now out.old out.new result }
{
    let Ok(text) = str::from_utf8(text) else {
        return NOT_UTF8;
    };
    match IpInet::from_str(text) {
        Ok(host) => {
            put_host(&host, out);
            OK
        }
        Err(e) => parse_code(&e),
    }
}

/// Reads a network, or `any`: 0 and the network in `out`, or the number of the first error.
#[unsafe(no_mangle)]
pub extern "C" fn pcidr_read_network(text: &[u8], out: &mut CValue) -> u32
    ensures { IsRead ReadsAnyNetwork parse_code IsNetworkValue network_in text.now out.old out.new result }
{
    let Ok(text) = str::from_utf8(text) else {
        return NOT_UTF8;
    };
    match AnyIpCidr::from_str(text) {
        Ok(network) => {
            put_network(&network, out);
            OK
        }
        Err(e) => parse_code(&e),
    }
}

/// Reads a network as `pcidr_read_network` does, but takes one to four octets without a slash as the network of so many
/// whole octets: 10.7 is 10.7.0.0/16.
#[unsafe(no_mangle)]
pub extern "C" fn pcidr_read_short_network(text: &[u8], out: &mut CValue) -> u32
    ensures { IsRead (ReadsAny (ReadsShort (Reads IsShortIpText (parse_error.AddrParseError ip_error)) ReadsIpNetwork))
        parse_code IsNetworkValue network_in text.now out.old out.new result }
{
    let Ok(text) = str::from_utf8(text) else {
        return NOT_UTF8;
    };
    match parse_short_any_ip_cidr(text) {
        Ok(network) => {
            put_network(&network, out);
            OK
        }
        Err(e) => parse_code(&e),
    }
}
