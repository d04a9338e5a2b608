//! The networks of one prefix length inside a network, one by one.
ghost use Rattle.std.specs.Prelude.{◌≡◌, ◌≤◌, ◌<◌, ◌-◌, ◌+◌, ◌^◌, ◌∷◌, [], length, drop, IfSome, MatchOption};
ghost use Rattle.std.specs.Iterator.{YieldsFirstBy, YieldsLastBy, item_count, UpTo, at_most};
ghost use Rattle.std.specs.Iterator.SizeHint.{IsExactHint, IsWithinCount};
ghost use Rattle.cidr.specs.model.Network.{width_of};
ghost use Rattle.cidr.specs.model.Views.{in_family};
ghost use Rattle.cidr_ext.specs.model.Subnets.{index_count, IsSubnetAt, NoSubnetAt, subnets_of};

use crate::address::AddressExt;
use crate::shifts::{fits, shifted};
use cidr::{Address, Cidr, Inet, InetPair};
use std::iter::FusedIterator;
use std::marker::Model;

/// The networks of one prefix length inside a network that are left, ascending. The call `subnets` makes it.
///
/// `next` takes the lowest of them and `next_back` the highest, in constant time, and `nth` skips any number of them in
/// constant time. Once either has returned `None`, both return `None` from then on. It does not allocate.
///
/// ```
/// if let Some(mut networks) = "192.0.2.0/24".parse::<Ipv4Cidr>()?.subnets(26) {
///     networks.next() // Some(192.0.2.0/26)
///     networks.next_back() // Some(192.0.2.192/26)
///     networks.nth(1) // Some(192.0.2.128/26)
///     networks.next() // None
/// }
/// ```
#[derive(Drop)]
pub struct Subnets<C: Cidr> {
    network: C,
    len: u8,
    /// The indexes of the first and the last one that are left.
    ends: Option<(u128, u128)>,
}

impl<C: Cidr> Model for Subnets<C> {
    ghost use Rattle.std.specs.Prelude.{List, Bool, IfSome, ◌≤◌, ◌<◌, ◌-◌, ◌^◌, length};
    ghost use Rattle.cidr.specs.model.Network.{width_of};
    ghost use Rattle.cidr.specs.declared.family.Family.{Family};
    ghost use Rattle.cidr_ext.specs.model.Subnets.{subnets_left};

    ghost Value = { List (Family × List Bool) };

    ghost view = { λ s. subnets_left (C.family_of s.network) (C.prefix s.network) s.len s.ends };

    ghost invariant = { λ s. (length (C.prefix s.network) ≤ s.len) × (s.len ≤ width_of (C.family_of s.network)) ×
        IfSome s.ends (λ ends. (ends.0 ≤ ends.1) × (ends.1 < 2 ^ (s.len - length (C.prefix s.network)))) };
}

impl<C: Cidr> Subnets<C> {
    /// All up to the index `last`.
    pub(crate) fn _new(network: C, len: u8, last: u128) -> Subnets<C>
        requires within { (length (C.prefix network) ≤ len) × (len ≤ width_of (C.family_of network)) }
        requires all { last ≡ 2 ^ (len - length (C.prefix network)) - 1 }
        ensures { result ≡ subnets_of (C.family_of network) (C.prefix network) len }
    {
        Subnets {
            network,
            len,
            ends: Some((0, last)),
        }
    }
}

impl<C: Cidr> Iterator for Subnets<C>
where
    C::Address: Address<Cidr = C> + AddressExt,
    <C::Address as Address>::Inet: Inet<Address = C::Address>,
    <C::Address as Address>::InetPair: InetPair<Address = C::Address>,
{
    type Item = C;

    ghost next_gives = { YieldsFirstBy (in_family C.family_of C.prefix) (λ s. s) };

    ghost remaining = { item_count (λ s. s) };

    fn next(&mut self) -> Option<C> {
        let (first, last) = self.ends?;
        self.ends = if first < last {
            Some((first + 1, last))
        } else {
            None
        };
        subnet_at(&self.network, self.len, first)
    }

    fn size_hint(&self) -> (usize, Option<usize>)
        ensures lower { IsWithinCount result.0 (at_most (length self.now)) }
        ensures upper { IfSome result.1 (UpTo (at_most (length self.now))) }
        ensures exact { IsExactHint result (length self.now) }
    {
        hint(self.ends)
    }
}

impl<C: Cidr> DoubleEndedIterator for Subnets<C>
where
    C::Address: Address<Cidr = C> + AddressExt,
    <C::Address as Address>::Inet: Inet<Address = C::Address>,
    <C::Address as Address>::InetPair: InetPair<Address = C::Address>,
{
    ghost next_back_gives = { YieldsLastBy (in_family C.family_of C.prefix) (λ s. s) };

    fn next_back(&mut self) -> Option<C> {
        let (first, last) = self.ends?;
        self.ends = if first < last {
            Some((first, last - 1))
        } else {
            None
        };
        subnet_at(&self.network, self.len, last)
    }
}

impl<C: Cidr> FusedIterator for Subnets<C>
where
    C::Address: Address<Cidr = C> + AddressExt,
    <C::Address as Address>::Inet: Inet<Address = C::Address>,
    <C::Address as Address>::InetPair: InetPair<Address = C::Address>,
{}

impl<C: Cidr> Subnets<C>
where
    C::Address: Address<Cidr = C> + AddressExt,
    <C::Address as Address>::Inet: Inet<Address = C::Address>,
    <C::Address as Address>::InetPair: InetPair<Address = C::Address>,
{
    /// Skips `n` networks and takes the next one, in constant time, or returns `None` and leaves none where there are
    /// no more than `n`.
    ///
    /// ```
    /// if let Some(mut networks) = "192.0.2.0/24".parse::<Ipv4Cidr>()?.subnets(26) {
    ///     networks.nth(2) // Some(192.0.2.128/26)
    ///     networks.nth(1) // None
    /// }
    /// ```
    pub fn nth(&mut self, n: u128) -> Option<C>
        ensures { MatchOption result ((length self.old ≤ n) × (self.new ≡ []))
            (λ network. drop n self.old ≡ in_family C.family_of C.prefix network ∷ self.new) }
    {
        self.skip_front(n);
        self.next()
    }

    /// Drops the first `n`.
    fn skip_front(&mut self, n: u128)
        ensures { self.new ≡ drop n self.old }
    {
        self.ends = match self.ends {
            Some((first, last)) if n <= last - first => Some((first + n, last)),
            _ => None,
        };
    }
}

/// Network `index` of prefix length `len` inside a network, counted from 0 in ascending order, or `None` where there is
/// none.
pub(crate) fn subnet_at<C: Cidr>(network: &C, len: u8, index: u128) -> Option<C>
where
    C::Address: Address<Cidr = C>,
    <C::Address as Address>::Inet: Inet<Address = C::Address>,
    ensures value { MatchOption result
        (NoSubnetAt (width_of (C.family_of network.now)) (C.prefix network.now) len index)
        (λ inner. (C.family_of inner ≡ C.family_of network.now) ×
        IsSubnetAt (C.prefix network.now) len index (C.prefix inner)) }
    ensures within { IfSome result
        (λ _. ¬ (NoSubnetAt (width_of (C.family_of network.now)) (C.prefix network.now) len index)) }
{
    let more = len.checked_sub(network.network_length())?;
    let behind = network.family().len().checked_sub(len)?;
    if !fits(index, more) {
        return None;
    }
    let (host, _) = network.first().overflowing_add(shifted(index, behind));
    C::new(host.address(), len).ok()
}

/// Both bounds on how many indexes there are from the first to the last.
fn hint(ends: Option<(u128, u128)>) -> (usize, Option<usize>)
    requires { IfSome ends (λ e. e.0 ≤ e.1) }
    ensures { IsExactHint result (index_count ends) }
{
    match ends {
        Some((first, last)) => match usize::try_from(last - first) {
            Ok(more) if more < usize::MAX => (more + 1, Some(more + 1)),
            _ => (usize::MAX, None),
        },
        None => (0, Some(0)),
    }
}
