//! Values as they cross between C and the library.
ghost use Rattle.std.specs.Prelude.{◌≡◌, ◌<◌, ◌≤◌, ◌^◌, ◌↔◌, IsTrue, MatchOption};
ghost use Rattle.cidr.specs.model.Bits.{bits};
ghost use Rattle.cidr.specs.declared.cidr.any.AnyIpCidr.TheVariants.{V4, V6};
ghost use Rattle.cidr.specs.declared.inet.combined.IpInet.TheVariants as host;
ghost use Rattle.cidr_c.specs.model.Values.{IsLow, IsAddressValue, IsHostValue, IsIpNetworkValue, IsNetworkValue, address_in, host_in, ip_network_in, network_in, number_in};

use cidr::{
    AnyIpCidr, BitString, IpAddr, IpCidr, IpInet, Ipv4Addr, Ipv4Cidr, Ipv4Inet, Ipv6Addr, Ipv6Cidr,
    Ipv6Inet,
};

/// The tag of the first IPv6 prefix length.
const IPV6: u8 = 64;

/// The tag of `Any`.
const ANY: u8 = 255;

/// An address, a host or a network, as C has it: the number of the address in two halves, and a tag, which is that of
/// the compact bytes.
///
/// The tag is the prefix length in IPv4, 0 to 32, and 64 more than it in IPv6, 64 to 192. 255 with both halves zero is
/// `any`. In IPv4 the number is in the lower half. An address is a value of full prefix length.
#[repr(C)]
#[derive(Clone, Copy)]
pub struct CValue {
    /// The upper half: in IPv6 the first 64 bits, else 0.
    pub high: u64,
    /// The lower half: in IPv4 the 32 bits.
    pub low: u64,
    /// The prefix length and the family.
    pub tag: u8,
    /// The byte behind the tag, zero in what is written, as are the two after it and the last four, so that a caller may read
    /// a word. What is read may have any bytes there.
    pub zero_17: u8,
    /// The two bytes after that.
    pub zero_18: u16,
    /// The last four bytes.
    pub zero_20: u32,
}

/// The IPv4 address of the lower half.
#[inline(always)]
fn ipv4_in(value: &CValue) -> Option<Ipv4Addr>
    ensures { MatchOption result (¬ (IsLow value.now)) (λ a. IsLow value.now × (a ≡ bits 32 value.now.low)) }
{
    if value.high != 0 || value.low >= 1 << 32 {
        return None;
    }
    Some(Ipv4Addr::from_bits(value.low as u32))
}

/// The IPv6 address of both halves.
fn ipv6_in(value: &CValue) -> Ipv6Addr
    ensures { result ≡ bits 128 (number_in value.now) }
{
    Ipv6Addr::from_bits(u128::from(value.high) * (1 << 64) + u128::from(value.low))
}

/// Whether the tag is below those of IPv6.
#[inline(always)]
pub fn is_ipv4(value: &CValue) -> bool
    ensures { IsTrue result ↔ (value.now.tag < 64) }
{
    value.tag < IPV6
}

/// Whether the tag is one of those from the first of IPv6 on, but not that of `Any`.
#[inline(always)]
pub fn is_ipv6(value: &CValue) -> bool
    ensures { IsTrue result ↔ ((64 ≤ value.now.tag) × (value.now.tag < 255)) }
{
    value.tag >= IPV6 && value.tag < ANY
}

/// The IPv4 network that a value with the tag of an IPv4 prefix length is, if it is one.
#[inline(always)]
pub fn ipv4_network(value: &CValue) -> Option<Ipv4Cidr>
    ensures { value.now.tag < 64 → MatchOption result (¬ (IsNetworkValue value.now))
        (λ network. IsNetworkValue value.now × (V4 network ≡ network_in value.now)) }
{
    if value.tag > 32 {
        return None;
    }
    let address = ipv4_in(value)?;
    match Ipv4Cidr::new(address, value.tag) {
        Ok(network) => Some(network),
        Err(_) => None,
    }
}

/// The IPv6 network that a value with the tag of an IPv6 prefix length is, if it is one.
#[inline(always)]
pub fn ipv6_network(value: &CValue) -> Option<Ipv6Cidr>
    ensures { 64 ≤ value.now.tag → value.now.tag < 255 → MatchOption result (¬ (IsNetworkValue value.now))
        (λ network. IsNetworkValue value.now × (V6 network ≡ network_in value.now)) }
{
    if value.tag < IPV6 {
        return None;
    }
    match Ipv6Cidr::new(ipv6_in(value), value.tag - IPV6) {
        Ok(network) => Some(network),
        Err(_) => None,
    }
}

/// The network that a value is, if it is one.
#[inline(always)]
pub fn value_network(value: &CValue) -> Option<AnyIpCidr>
    ensures { MatchOption result (¬ (IsNetworkValue value.now))
        (λ network. IsNetworkValue value.now × (network ≡ network_in value.now)) }
{
    if value.tag == ANY {
        if value.high != 0 || value.low != 0 {
            return None;
        }
        return Some(AnyIpCidr::Any);
    }
    if value.tag < IPV6 {
        let network = ipv4_network(value)?;
        return Some(AnyIpCidr::V4(network));
    }
    let network = ipv6_network(value)?;
    Some(AnyIpCidr::V6(network))
}

/// The network that a value is in, of which the bits after the prefix do not count.
pub fn network_at(value: &CValue) -> AnyIpCidr
    ensures { result ≡ network_in value.now }
{
    if value.tag == ANY {
        return AnyIpCidr::Any;
    }
    if value.tag < IPV6 {
        let mut network = Ipv4Cidr::new_host(Ipv4Addr::from_bits((value.low % (1 << 32)) as u32));
        network.clip(usize::from(value.tag));
        return AnyIpCidr::V4(network);
    }
    let mut network = Ipv6Cidr::new_host(ipv6_in(value));
    network.clip(usize::from(value.tag - IPV6));
    AnyIpCidr::V6(network)
}

/// The IPv4 host that a value with the tag of an IPv4 prefix length is, if it is one.
#[inline(always)]
pub fn ipv4_host(value: &CValue) -> Option<Ipv4Inet>
    ensures { value.now.tag < 64 → MatchOption result (¬ (IsHostValue value.now))
        (λ inet. IsHostValue value.now × (host.V4 inet ≡ host_in value.now)) }
{
    if value.tag > 32 {
        return None;
    }
    let address = ipv4_in(value)?;
    match Ipv4Inet::new(address, value.tag) {
        Ok(host) => Some(host),
        Err(_) => None,
    }
}

/// The IPv6 host that a value with the tag of an IPv6 prefix length is, if it is one.
#[inline(always)]
pub fn ipv6_host(value: &CValue) -> Option<Ipv6Inet>
    ensures { 64 ≤ value.now.tag → MatchOption result (¬ (IsHostValue value.now))
        (λ inet. IsHostValue value.now × (host.V6 inet ≡ host_in value.now)) }
{
    if value.tag < IPV6 {
        return None;
    }
    match Ipv6Inet::new(ipv6_in(value), value.tag - IPV6) {
        Ok(host) => Some(host),
        Err(_) => None,
    }
}

/// The host that a value is, if it is one.
#[inline(always)]
pub fn host_of(value: &CValue) -> Option<IpInet>
    ensures { MatchOption result (¬ (IsHostValue value.now))
        (λ host. IsHostValue value.now × (host ≡ host_in value.now)) }
{
    if is_ipv4(value) {
        let host = ipv4_host(value)?;
        return Some(IpInet::V4(host));
    }
    let host = ipv6_host(value)?;
    Some(IpInet::V6(host))
}

/// The network that a host is in, if the value is a host.
#[inline(always)]
pub fn ip_network_of(value: &CValue) -> Option<IpCidr>
    ensures { MatchOption result (¬ (IsHostValue value.now))
        (λ network. IsHostValue value.now × (network ≡ ip_network_in value.now)) }
{
    let host = host_of(value)?;
    Some(host.network())
}

/// The network of one family that a value is, if it is one, as all networks but `any` are.
#[inline(always)]
#[tactic(auto, using(crate::proofs::Networks::family_laws))]
pub fn one_family_of(value: &CValue) -> Option<IpCidr>
    ensures { MatchOption result (¬ (IsIpNetworkValue value.now))
        (λ network. IsIpNetworkValue value.now × (network ≡ ip_network_in value.now)) }
{
    if is_ipv4(value) {
        let network = ipv4_network(value)?;
        return Some(IpCidr::V4(network));
    }
    if is_ipv6(value) {
        let network = ipv6_network(value)?;
        return Some(IpCidr::V6(network));
    }
    None
}

/// The address that a value is, if it is one.
pub fn address_of(value: &CValue) -> Option<IpAddr>
    ensures { MatchOption result (¬ (IsAddressValue value.now))
        (λ address. IsAddressValue value.now × (address ≡ address_in value.now)) }
{
    if value.tag == 32 {
        let address = ipv4_in(value)?;
        return Some(IpAddr::V4(address));
    }
    if value.tag == 192 {
        return Some(IpAddr::V6(ipv6_in(value)));
    }
    None
}

/// Writes the tag, and zeros behind it.
#[inline(always)]
fn put_tag(tag: u8, out: &mut CValue)
    ensures high { out.new.high ≡ out.old.high }
    ensures low { out.new.low ≡ out.old.low }
    ensures tag { out.new.tag ≡ tag }
{
    out.tag = tag;
    out.zero_17 = 0;
    out.zero_18 = 0;
    out.zero_20 = 0;
}

/// Makes the value an IPv4 address with a tag.
#[inline(always)]
#[tactic(auto, using(crate::proofs::Bits::number_laws))]
fn put_ipv4(address: Ipv4Addr, tag: u8, out: &mut CValue)
    ensures high { out.new.high ≡ 0 }
    ensures low { out.new.low < 2 ^ 32 }
    ensures bits { bits 32 out.new.low ≡ address }
    ensures tag { out.new.tag ≡ tag }
{
    out.high = 0;
    out.low = u64::from(address.to_bits());
    put_tag(tag, out);
}

/// The same for an IPv6 address.
#[inline(always)]
#[tactic(auto, using(crate::proofs::Bits::number_laws))]
fn put_ipv6(address: Ipv6Addr, tag: u8, out: &mut CValue)
    ensures bits { bits 128 (number_in out.new) ≡ address }
    ensures tag { out.new.tag ≡ tag }
{
    let bits = address.to_bits();
    out.high = (bits / (1 << 64)) as u64;
    out.low = (bits % (1 << 64)) as u64;
    put_tag(tag, out);
}

/// Makes the value a network.
#[inline(always)]
pub fn put_network(network: &AnyIpCidr, out: &mut CValue)
    ensures is_network { IsNetworkValue out.new }
    ensures network { network_in out.new ≡ network.now }
{
    match network {
        AnyIpCidr::Any => {
            out.high = 0;
            out.low = 0;
            put_tag(ANY, out);
        }
        AnyIpCidr::V4(network) => put_ipv4(network.first_address(), network.network_length(), out),
        AnyIpCidr::V6(network) => {
            put_ipv6(
                network.first_address(),
                network.network_length() + IPV6,
                out,
            )
        }
    }
}

/// Makes the value a network of one family.
#[inline(always)]
pub fn put_ip_network(network: &IpCidr, out: &mut CValue)
    ensures is_network { IsIpNetworkValue out.new }
    ensures network { ip_network_in out.new ≡ network.now }
{
    match network {
        IpCidr::V4(network) => put_ipv4(network.first_address(), network.network_length(), out),
        IpCidr::V6(network) => {
            put_ipv6(
                network.first_address(),
                network.network_length() + IPV6,
                out,
            )
        }
    }
}

/// Makes the value a host.
#[inline(always)]
pub fn put_host(host: &IpInet, out: &mut CValue)
    ensures is_host { IsHostValue out.new }
    ensures host { host_in out.new ≡ host.now }
{
    match host {
        IpInet::V4(host) => put_ipv4(host.address(), host.network_length(), out),
        IpInet::V6(host) => put_ipv6(host.address(), host.network_length() + IPV6, out),
    }
}

/// Makes the value an address.
#[inline(always)]
pub fn put_address(address: &IpAddr, out: &mut CValue)
    ensures is_address { IsAddressValue out.new }
    ensures address { address_in out.new ≡ address.now }
{
    match address {
        IpAddr::V4(address) => put_ipv4(*address, 32, out),
        IpAddr::V6(address) => put_ipv6(*address, 192, out),
    }
}
