//! Prefix lists: rows in order, each of which permits or denies networks.
ghost use Rattle.std.specs.Prelude.{◌≡◌, ◌↔◌, ◌⊎◌, ◌-◌, ℕ, ◌<◌, ◌≤◌, List, Bool, false, Contains, IfOk, MatchOption, OnOk, [], length, take, map};
ghost use Rattle.std.specs.Bool.{Decides};
ghost use Rattle.cidr.specs.model.Network.{width_of};
ghost use Rattle.cidr_sets.specs.model.Sets.{IsSetOf, IsDifference};
ghost use Rattle.cidr_sets.specs.declared.access.Action.TheVariants.{Permit};
ghost use Rattle.cidr_routes.specs.declared.lists.Row.{Row};
ghost use Rattle.cidr_routes.specs.Lengths.{IsOfLength, has_length, rules_of};
ghost use Rattle.cidr_routes.specs.PrefixLists.{Matches, IsPermitted, PermitSame, IsOneSided};

pub use crate::joined::permitted;
pub use crate::shadows::shadowed;
use cidr::{FamilyCidr, NetworkBits};
use cidr_sets::access::{self, Action, Rule};
use cidr_sets::{NetworkSet, is_inside};
use std::alloc::{AllocError, Global};

/// A row of a prefix list: `permit 10.0.0.0/8 ge 16 le 24`.
#[derive(Debug, Clone, Copy, Drop)]
pub struct Row<C: NetworkBits + Copy> {
    /// What the row does with the networks that it is about, where no earlier row is about them.
    pub action: Action,
    /// It is about networks in this one.
    pub network: C,
    /// The least prefix length of these in bits: after `ge`, and without it that of the network.
    pub low: u8,
    /// The greatest: after `le`, and without it the full one after `ge`, else that of the network.
    pub high: u8,
}

/// Whether a prefix list permits a network: the first row that is about it decides, and none means no.
///
/// It goes through the rows up to the one that decides, O(n), and takes no memory.
///
/// ```
/// permits(&rows, &"10.1.0.0/16".parse()?) // true
/// permits(&rows, &"10.0.0.0/8".parse()?) // false
/// ```
pub fn permits<C: FamilyCidr>(rows: &[Row<C>], network: &C) -> bool
    ensures { Decides result (IsPermitted C.bits rows.now (C.bits network.now)) }
{
    for row in rows {
        if row_matches(row, network) {
            return is_permit(row.action);
        }
    }
    false
}

/// Whether an action permits.
fn is_permit(action: Action) -> bool
    ensures { Decides result (action ≡ Permit) }
{
    match action {
        Action::Permit => true,
        Action::Deny => false,
    }
}

/// Whether a row is about a network.
fn row_matches<C: FamilyCidr>(row: &Row<C>, network: &C) -> bool
    ensures { Decides result (Matches C.bits row.now (C.bits network.now)) }
{
    let len = network.network_length();
    row.low <= len && len <= row.high && is_inside(network, &row.network)
}

/// Whether a row is about networks of this length.
pub(crate) fn has_length<C: FamilyCidr>(row: &Row<C>, len: u8) -> bool
    ensures { Decides result (IsOfLength C.bits len row.now) }
{
    row.network.network_length() <= len && row.low <= len && len <= row.high
}

/// The rows about networks of this length, as rules about their addresses.
pub(crate) fn rules_of_length<C: FamilyCidr>(
    alloc: Global,
    rows: &[Row<C>],
    len: u8,
) -> Result<Vec<Rule<C>>, AllocError>
    ensures { IfOk result (λ rules. rules.items ≡ rules_of C.bits len rows.now) }
{
    let mut rules = Vec::new(alloc);
    for row in rows {
        if has_length(row, len) {
            rules.push(Rule {
                action: row.action,
                network: row.network,
            })?;
        }
    }
    Ok(rules)
}

/// The networks of one length that a prefix list permits, as the set of their addresses.
pub(crate) fn permitted_of_length<C: FamilyCidr>(
    alloc: Global,
    rows: &[Row<C>],
    len: u8,
) -> Result<NetworkSet<C>, AllocError>
    requires { len ≤ 129 }
    ensures { IfOk result (λ set. IsSetOf 129 (λ a. IsPermitted C.bits rows.now (take len a)) (map C.bits set)) }
{
    let rules = rules_of_length(alloc, rows, len)?;
    let set = access::permitted(alloc, rules.as_slice())?;
    Ok(set)
}

/// Whether a row is about networks of this length and not of one bit less, or the other way round.
pub(crate) fn is_changed<C: FamilyCidr>(rows: &[Row<C>], len: u8) -> bool
    ensures some { result ≡ false → 0 < len }
    ensures same { result ≡ false → rules_of C.bits len rows.now ≡ rules_of C.bits (len - 1) rows.now }
    ensures each { result ≡ false → (row : Row C) → Contains rows.now row → has_length C.bits len row ≡ has_length C.bits (len - 1) row }
{
    if len == 0 {
        return true;
    }
    for row in rows {
        let here = has_length(row, len);
        let before = has_length(row, len - 1);
        if !is_same(here, before) {
            return true;
        }
    }
    false
}

/// Whether both are true or both false.
fn is_same(one: bool, other: bool) -> bool
    ensures { Decides result (one ≡ other) }
{
    one == other
}

/// Networks of one length that one of two prefix lists permits, and the other doesn't.
#[derive(Debug, Clone, Copy, Drop)]
pub struct OneSided<C: NetworkBits + Copy> {
    /// All networks of the length in this one.
    pub network: C,
    /// Their prefix length in bits.
    pub len: u8,
    /// Whether it is the first list that permits them, and else the second.
    pub by_first: bool,
}

/// Whether two prefix lists permit the same networks: `None` if so, and else some that one of them permits alone, of the
/// least prefix length.
///
/// For each prefix length at which a row begins or ends it makes the sets of both, as `access::permitted` does: O(n log n) for
/// n rows each time. Where an allocation fails, it returns the error.
///
/// ```
/// difference(rt.alloc(), &rows, &others)? // Some(OneSided { network: 10.0.0.0/15, len: 16, by_first: true })
/// ```
pub fn difference<C: FamilyCidr>(
    alloc: Global,
    these: &[Row<C>],
    those: &[Row<C>],
) -> Result<Option<OneSided<C>>, AllocError>
    ensures { IfOk result (λ found. MatchOption found (PermitSame C.bits (width_of C.FAMILY) these.now those.now)
        (λ d. IsOneSided C.bits (width_of C.FAMILY) these.now those.now (C.bits d.network) d.len d.by_first)) }
{
    let full = full_length::<C>();
    for len in 0..full + 1 {
        match difference_at(alloc, these, those, len)? {
            Some(found) => {
                return Ok(Some(found));
            }
            None => (),
        }
    }
    Ok(None)
}

/// The full prefix length.
pub(crate) fn full_length<C: FamilyCidr>() -> u8
    ensures value { result ≡ width_of C.FAMILY }
    ensures fits { result ≤ 128 }
{
    C::FAMILY.len()
}

/// The same of the networks of one length, where the shorter ones are the same.
fn difference_at<C: FamilyCidr>(
    alloc: Global,
    these: &[Row<C>],
    those: &[Row<C>],
    len: u8,
) -> Result<Option<OneSided<C>>, AllocError>
    requires { len ≤ width_of C.FAMILY }
    ensures { IfOk result (λ found. MatchOption found
        (((p : List Bool) → length p < len → IsPermitted C.bits these.now p ↔ IsPermitted C.bits those.now p)
        → (p : List Bool) → length p ≡ len → IsPermitted C.bits these.now p ↔ IsPermitted C.bits those.now p)
        (λ d. IsOneSided C.bits (width_of C.FAMILY) these.now those.now (C.bits d.network) d.len d.by_first)) }
{
    if !are_changed(these, those, len) {
        return Ok(None);
    }
    let set = permitted_of_length(alloc, these, len)?;
    let other = permitted_of_length(alloc, those, len)?;
    let network = first_alone(&set, &other)?;
    match network {
        Some(network) => {
            return Ok(Some(OneSided {
                network,
                len,
                by_first: true,
            }));
        }
        None => (),
    }
    let network = first_alone(&other, &set)?;
    match network {
        Some(network) => Ok(Some(OneSided {
            network,
            len,
            by_first: false,
        })),
        None => Ok(None),
    }
}

/// Whether a row of one of the lists is about networks of this length and not of one bit less, or the other way round.
fn are_changed<C: FamilyCidr>(these: &[Row<C>], those: &[Row<C>], len: u8) -> bool
    ensures some { result ≡ false → 0 < len }
    ensures these { result ≡ false → rules_of C.bits len these.now ≡ rules_of C.bits (len - 1) these.now }
    ensures those { result ≡ false → rules_of C.bits len those.now ≡ rules_of C.bits (len - 1) those.now }
{
    is_changed(these, len) || is_changed(those, len)
}

/// The first network of the addresses that only the first set has.
fn first_alone<C: FamilyCidr>(
    set: &NetworkSet<C>,
    other: &NetworkSet<C>,
) -> Result<Option<C>, AllocError>
    ensures { IfOk result (λ found. (alone : List (List Bool)) × IsDifference 129 (map C.bits set.now) (map C.bits other.now) alone
        × MatchOption found (alone ≡ []) (λ network. Contains alone (C.bits network))) }
{
    let alone = set.difference(other)?;
    Ok(alone.as_slice().first().copied())
}
