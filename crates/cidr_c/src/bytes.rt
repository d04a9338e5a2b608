//! Compact bytes into values.
ghost use Rattle.cidr.specs.bytes.Compact.{ReadsCompact, any_network_bytes, ip_host_bytes};
ghost use Rattle.cidr.specs.bytes.CompactRefusal.{Both, IsAnyBytesRefused, IsHostBytesRefused};
ghost use Rattle.cidr.specs.either.IpHost.{IsIpHost};
ghost use Rattle.cidr.specs.either.IpNetwork.{IsAnyNetwork};
ghost use Rattle.cidr_c.specs.calls.Calls.{IsReadBytes};
ghost use Rattle.cidr_c.specs.model.Values.{IsHostValue, IsNetworkValue, host_in, network_in};

use crate::codes::{OK, compact_code};
use crate::values::{CValue, put_host, put_network};
use cidr::{AnyIpCidr, IpInet};

/// Reads the network whose compact bytes come first, and how many they are: 0 and both, or the number of the first
/// error.
#[unsafe(no_mangle)]
pub extern "C" fn pcidr_network_from_bytes(bytes: &[u8], out: &mut CValue, used: &mut usize) -> u32
    ensures { IsReadBytes (ReadsCompact IsAnyNetwork any_network_bytes IsAnyBytesRefused) IsNetworkValue network_in
        bytes.now out.old out.new used.old used.new result }
{
    match AnyIpCidr::from_compact(bytes) {
        Ok((network, count)) => {
            put_network(&network, out);
            *used = count;
            OK
        }
        Err(e) => compact_code(&e),
    }
}

/// Reads the host whose compact bytes come first, and how many they are: 0 and both, or the number of the first error.
#[unsafe(no_mangle)]
pub extern "C" fn pcidr_host_from_bytes(bytes: &[u8], out: &mut CValue, used: &mut usize) -> u32
    ensures { IsReadBytes (ReadsCompact IsIpHost ip_host_bytes (IsHostBytesRefused Both)) IsHostValue host_in
        bytes.now out.old out.new used.old used.new result }
{
    match IpInet::from_compact(bytes) {
        Ok((host, count)) => {
            put_host(&host, out);
            *used = count;
            OK
        }
        Err(e) => compact_code(&e),
    }
}
