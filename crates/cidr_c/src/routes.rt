//! Origins of routes, and prefix lists.
ghost use Rattle.std.specs.Prelude.{◌≡◌, ◌++◌, ◌∷◌, [], List, Contains, map};
ghost use Rattle.std.specs.Bool.{Decides};
ghost use Rattle.cidr.specs.model.Network.{BeginsWith};
ghost use Rattle.cidr.specs.either.IpNetwork.{any_bits};
ghost use Rattle.cidr.specs.declared.cidr.any.AnyIpCidr.{AnyIpCidr as Network};
ghost use Rattle.cidr_sets.specs.declared.access.Action.TheVariants.{Permit};
ghost use Rattle.cidr_routes.specs.Origins.{Covers, IsOfOrigin, IsValidity};
ghost use Rattle.cidr_routes.specs.PrefixLists.{IsPermitted, Matches};
ghost use Rattle.cidr_routes.specs.declared.origins.Payload.{Payload};
ghost use Rattle.cidr_c.specs.calls.Calls.{IsYesOrNo};
ghost use Rattle.cidr_c.specs.model.Routes.{ArePayloads, ArePrefixRows, TellsValidity, origin_in, payload_in, row_action, row_in, validity_code};
ghost use Rattle.cidr_c.specs.model.Values.{IsNetworkValue, network_in};

use crate::finding::yes_or_no;
use crate::values::{CValue, value_network};
use cidr::{AnyIpCidr, BitString};
use cidr_routes::Validity;
use cidr_sets::access::Action;

/// A validated ROA payload.
#[repr(C)]
#[derive(Clone, Copy)]
pub struct CPayload {
    /// The network.
    pub network: CValue,
    /// The number of the AS.
    pub origin: u32,
    /// The greatest prefix length that may be announced.
    pub max_length: u32,
}

/// A row of a prefix list.
#[repr(C)]
#[derive(Clone, Copy)]
pub struct CPrefixRow {
    /// It is about networks in this one.
    pub network: CValue,
    /// 1 permits them, and any other number denies them.
    pub action: u32,
    /// The least prefix length of these.
    pub low: u16,
    /// The greatest.
    pub high: u16,
}

/// The AS that a number stands for, if it is one.
fn origin_of(origin: u64) -> Option<u32>
    ensures { result ≡ origin_in origin }
{
    if origin < 1 << 32 {
        Some(origin as u32)
    } else {
        None
    }
}

/// The number of an answer.
fn validity_code(validity: Validity) -> u32
    ensures { result ≡ validity_code validity }
{
    match validity {
        Validity::Valid => 1,
        Validity::InvalidLength => 2,
        Validity::InvalidOrigin => 3,
        Validity::NotFound => 4,
    }
}

/// Whether the network of a value contains another one.
fn contains(value: &CValue, network: &AnyIpCidr) -> bool
    requires { IsNetworkValue value.now }
    ensures { Decides result (BeginsWith (any_bits network.now) (any_bits (network_in value.now))) }
{
    match value_network(value) {
        Some(outer) => outer.contains_cidr(network),
        None => false,
    }
}

/// Whether a payload is for the AS of a route.
fn is_of_origin(payload: &CPayload, origin: Option<u32>) -> bool
    ensures { Decides result (IsOfOrigin any_bits [] origin (payload_in payload.now)) }
{
    match origin {
        Some(origin) => origin == payload.origin && origin != 0,
        None => false,
    }
}

/// What some payloads and one more say of a route.
fn beside(seen: Validity, payload: &CPayload, route: &AnyIpCidr, origin: Option<u32>) -> Validity
    requires { IsNetworkValue payload.now.network }
    ensures { (before : List (Payload Network)) → IsValidity any_bits (any_bits route.now) origin (Contains before) seen
        → IsValidity any_bits (any_bits route.now) origin (Contains (before ++ payload_in payload.now ∷ [])) result }
{
    if !contains(&payload.network, route) {
        return seen;
    }
    if !is_of_origin(payload, origin) {
        return match seen {
            Validity::NotFound => Validity::InvalidOrigin,
            _ => seen,
        };
    }
    if route.len() as u64 <= u64::from(payload.max_length) + 1 {
        return Validity::Valid;
    }
    match seen {
        Validity::Valid => Validity::Valid,
        _ => Validity::InvalidLength,
    }
}

/// What payloads say of a route.
fn validity_of(payloads: &[CPayload], route: &AnyIpCidr, origin: Option<u32>) -> Validity
    requires { ArePayloads payloads.now }
    ensures { IsValidity any_bits (any_bits route.now) origin (Contains (map payload_in payloads.now)) result }
{
    let mut seen = Validity::NotFound;
    for payload in payloads {
        seen = beside(seen, payload, route, origin);
    }
    seen
}

/// Whether each payload is for a network.
fn are_payloads(payloads: &[CPayload]) -> bool
    ensures { Decides result (ArePayloads payloads.now) }
{
    payloads
        .iter()
        .all(|payload| value_network(&payload.network).is_some())
}

/// What payloads say of a route by RFC 6811: 1 where one of them matches it, 2 where its prefix is too long for those of its AS, 3
/// where those that cover it are of others, and 4 where none covers it; 0 where a value is no network. A number of an AS from 2^32
/// on stands for none. It goes through the payloads twice, and allocates nothing.
#[unsafe(no_mangle)]
pub extern "C" fn pcidr_validity(payloads: &[CPayload], route: &CValue, origin: u64) -> u32
    ensures { TellsValidity payloads.now route.now origin result }
{
    let Some(route) = value_network(route) else {
        return 0;
    };
    if are_payloads(payloads) {
        validity_code(validity_of(payloads, &route, origin_of(origin)))
    } else {
        0
    }
}

/// What a row does.
fn row_action(row: &CPrefixRow) -> Action
    ensures { result ≡ row_action row.now }
{
    if row.action == 1 {
        Action::Permit
    } else {
        Action::Deny
    }
}

/// Whether a row permits the networks that it is about.
fn is_permit(row: &CPrefixRow) -> bool
    ensures { Decides result (row_action row.now ≡ Permit) }
{
    match row_action(row) {
        Action::Permit => true,
        Action::Deny => false,
    }
}

/// Whether a row is about a network.
fn is_about(row: &CPrefixRow, network: &AnyIpCidr) -> bool
    requires { IsNetworkValue row.now.network }
    ensures { Decides result (Matches any_bits (row_in row.now) (any_bits network.now)) }
{
    let len = network.len() as u64;
    u64::from(row.low) + 1 <= len
        && len <= u64::from(row.high) + 1
        && contains(&row.network, network)
}

/// Whether each row has a network.
fn are_prefix_rows(rows: &[CPrefixRow]) -> bool
    ensures { Decides result (ArePrefixRows rows.now) }
{
    rows.iter().all(|row| value_network(&row.network).is_some())
}

/// Whether the first row that is about a network permits it.
fn is_permitted(rows: &[CPrefixRow], network: &AnyIpCidr) -> bool
    requires { ArePrefixRows rows.now }
    ensures { Decides result (IsPermitted any_bits (map row_in rows.now) (any_bits network.now)) }
{
    for row in rows {
        if is_about(row, network) {
            return is_permit(row);
        }
    }
    false
}

/// 1 where all values are networks and the first row of the prefix list that is about the network permits it, and 0 where not. It goes
/// through the rows twice at most, and allocates nothing.
#[unsafe(no_mangle)]
pub extern "C" fn pcidr_list_permits(rows: &[CPrefixRow], network: &CValue) -> u32
    ensures { IsYesOrNo result (ArePrefixRows rows.now × IsNetworkValue network.now
        × IsPermitted any_bits (map row_in rows.now) (any_bits (network_in network.now))) }
{
    let Some(network) = value_network(network) else {
        return 0;
    };
    if are_prefix_rows(rows) {
        yes_or_no(is_permitted(rows, &network))
    } else {
        0
    }
}
