//! The walk over the addresses of a network or a pair, as hosts and as addresses.
ghost use Rattle.std.specs.Prelude.{◌≡◌, ◌-◌, ◌++◌, ◌∷◌, [], length, drop, take, IfSome, MatchOption};
ghost use Rattle.std.specs.Iterator.{YieldsFirstBy, YieldsLastBy, item_count, UpTo, at_most};
ghost use Rattle.std.specs.Iterator.SizeHint.{IsWithinCount};
ghost use Rattle.cidr.specs.model.Views.{in_family};
ghost use Rattle.cidr.specs.model.Walk.{pair_hosts, addresses_of, count_of, bounds_of};

use crate::internal_traits::sealed::PrivInetPair;
use crate::num::NumberOfAddresses;
use crate::traits::{Address, Inet, InetPair};
use std::alloc::AllocError;
use std::fmt;
use std::iter::FusedIterator;
use std::marker::Model;

pub(crate) mod driving;

/// An iterator over the hosts of a network or a pair that are left, ascending. The calls `iter` of networks and pairs
/// make it.
///
/// `next` takes the lowest of them and `next_back` the highest, in constant time. Once either has returned `None`, both
/// return `None` from then on. It does not allocate. `nth`, `last` and the like take a step for each host that they
/// pass: for the number of addresses use `count`, which takes none.
///
/// ```
/// let mut hosts = "192.0.2.48/31".parse::<Ipv4Cidr>()?.iter();
/// hosts.next_back() // Some(192.0.2.49/31)
/// hosts.next() // Some(192.0.2.48/31)
/// hosts.next() // None
/// ```
#[derive(Drop)]
pub struct InetIterator<A: Address> {
    state: Option<A::InetPair>,
}

impl<A: Address> Model for InetIterator<A> {
    ghost use Rattle.std.specs.Prelude.{List, IfSome, ◌<◌, length};
    ghost use Rattle.cidr.specs.model.Host.{Host};
    ghost use Rattle.cidr.specs.model.Walk.{pair_walk, hosts_left};
    ghost use Rattle.cidr.specs.declared.family.Family.{Family};

    ghost Value = { List (Family × Host) };

    ghost view = { λ it. hosts_left A.InetPair.family_of A.InetPair.pair it.state };

    ghost invariant = { λ it. IfSome it.state
        (λ p. 0 < length (pair_walk (A.InetPair.family_of p) (A.InetPair.pair p))) };
}

impl<A: Address> InetIterator<A> {
    /// The walk of a pair.
    pub(crate) fn _new(pair: A::InetPair) -> InetIterator<A>
        ensures { result ≡ pair_hosts (A.InetPair.family_of pair) (A.InetPair.pair pair) }
    {
        let is_empty = pair._covered_addresses() == NumberOfAddresses::Count(0);
        let state = if is_empty { None } else { Some(pair) };
        InetIterator { state }
    }

    /// Both bounds on how many are left.
    fn bounds(&self) -> (usize, Option<usize>)
        ensures { result ≡ bounds_of (length self.now) }
    {
        let left = match &self.state {
            Some(pair) => pair._covered_addresses(),
            None => NumberOfAddresses::Count(0),
        };
        left.size_hint()
    }

    /// How many are left, or `None` where that is 2^64 or more. It takes no step, unlike `Iterator::count`.
    ///
    /// ```
    /// "10.0.0.0/8".parse::<Ipv4Cidr>()?.iter().count() // Some(16777216)
    /// "2001:db8::/64".parse::<Ipv6Cidr>()?.iter().count() // None
    /// ```
    pub fn count(self) -> Option<usize>
        ensures { result ≡ count_of (length self) }
    {
        self.bounds().1
    }
}

impl<A: Address> InetIterator<A>
where
    A::InetPair: InetPair<Address = A>,
    A::Inet: Inet<Address = A>,
{
    /// What is left of the hosts, as addresses without the prefix length.
    ///
    /// ```
    /// let network = "192.0.2.48/30".parse::<Ipv4Cidr>()?;
    /// network.iter().addresses().next() // Some(192.0.2.48)
    /// ```
    pub fn addresses(self) -> InetAddressIterator<A>
        ensures { result ≡ addresses_of self }
    {
        InetAddressIterator { inner: self }
    }

    /// The lowest host that is left.
    fn lowest(&self) -> Option<A::Inet>
        ensures { MatchOption result (self.now ≡ [])
            (λ host. self.now ≡ in_family A.Inet.family_of A.Inet.host host ∷ drop 1 self.now) }
    {
        Some(self.state.as_ref()?.first())
    }

    /// The highest host that is left.
    fn highest(&self) -> Option<A::Inet>
        ensures { MatchOption result (self.now ≡ []) (λ host.
            self.now ≡ take (length self.now - 1) self.now ++ in_family A.Inet.family_of A.Inet.host host ∷ []) }
    {
        Some(self.state.as_ref()?.second())
    }

    /// Drops the lowest host that is left.
    fn drop_lowest(&mut self)
        ensures { self.new ≡ drop 1 self.old }
    {
        if let Some(pair) = &mut self.state {
            let has_more = pair._inc_first();
            if !has_more {
                self.state = None;
            }
        }
    }

    /// Drops the highest host that is left.
    fn drop_highest(&mut self)
        ensures { self.new ≡ take (length self.old - 1) self.old }
    {
        if let Some(pair) = &mut self.state {
            let has_more = pair._dec_second();
            if !has_more {
                self.state = None;
            }
        }
    }
}

impl<A: Address> Clone for InetIterator<A>
where
    A::InetPair: InetPair<Address = A>,
{
    ghost is_clone = { λ it copy. copy ≡ it };

    ghost is_infallible = { λ _. Unit {0} };

    fn clone(&self) -> Result<InetIterator<A>, AllocError> {
        let state = self.state;
        Ok(InetIterator { state })
    }
}

impl<A: Address> Iterator for InetIterator<A>
where
    A::InetPair: InetPair<Address = A>,
    A::Inet: Inet<Address = A>,
{
    type Item = A::Inet;

    ghost next_gives = { YieldsFirstBy (in_family A.Inet.family_of A.Inet.host) (λ it. it) };

    ghost remaining = { item_count (λ it. it) };

    fn next(&mut self) -> Option<A::Inet> {
        let host = self.lowest();
        self.drop_lowest();
        host
    }

    fn size_hint(&self) -> (usize, Option<usize>)
        ensures lower { IsWithinCount result.0 (at_most (length self.now)) }
        ensures upper { IfSome result.1 (UpTo (at_most (length self.now))) }
        ensures bounds { result ≡ bounds_of (length self.now) }
    {
        self.bounds()
    }
}

impl<A: Address> DoubleEndedIterator for InetIterator<A>
where
    A::InetPair: InetPair<Address = A>,
    A::Inet: Inet<Address = A>,
{
    ghost next_back_gives = { YieldsLastBy (in_family A.Inet.family_of A.Inet.host) (λ it. it) };

    fn next_back(&mut self) -> Option<A::Inet> {
        let host = self.highest();
        self.drop_highest();
        host
    }
}

impl<A: Address> FusedIterator for InetIterator<A>
where
    A::InetPair: InetPair<Address = A>,
    A::Inet: Inet<Address = A>,
{}

impl<A: Address> fmt::Debug for InetIterator<A>
where
    A::InetPair: fmt::Debug,
{
    fn fmt<W: fmt::Write>(&self, f: &mut fmt::Formatter<W>) -> fmt::Result {
        f.debug_struct("InetIterator")
            .field("state", &self.state)
            .finish()
    }
}

/// An iterator over the addresses of a network or a pair that are left, ascending. The call `addresses` of
/// `InetIterator` makes it.
///
/// `next` takes the lowest of them and `next_back` the highest, in constant time and without allocating. Once either
/// has returned `None`, both return `None` from then on.
///
/// ```
/// let network = "192.0.2.48/30".parse::<Ipv4Cidr>()?;
/// network.iter().addresses().next_back() // Some(192.0.2.51)
/// ```
#[derive(Drop)]
pub struct InetAddressIterator<A: Address> {
    inner: InetIterator<A>,
}

impl<A: Address> Model for InetAddressIterator<A> {
    ghost use Rattle.std.specs.Prelude.{List, Bool};
    ghost use Rattle.cidr.specs.model.Walk.{addresses_of};
    ghost use Rattle.cidr.specs.declared.family.Family.{Family};

    ghost Value = { List (Family × List Bool) };

    ghost view = { λ it. addresses_of it.inner };
}

impl<A: Address> InetAddressIterator<A> {
    /// How many are left, or `None` where that is 2^64 or more. It takes no step, unlike `Iterator::count`.
    ///
    /// ```
    /// let network = "192.0.2.48/28".parse::<Ipv4Cidr>()?;
    /// network.iter().addresses().count() // Some(16)
    /// ```
    pub fn count(self) -> Option<usize>
        ensures { result ≡ count_of (length self) }
    {
        self.inner.count()
    }
}

impl<A: Address> Clone for InetAddressIterator<A>
where
    A::InetPair: InetPair<Address = A>,
{
    ghost is_clone = { λ it copy. copy ≡ it };

    ghost is_infallible = { λ _. Unit {0} };

    fn clone(&self) -> Result<InetAddressIterator<A>, AllocError> {
        Ok(InetAddressIterator {
            inner: self.inner.clone()?,
        })
    }
}

impl<A: Address> Iterator for InetAddressIterator<A>
where
    A::InetPair: InetPair<Address = A>,
    A::Inet: Inet<Address = A>,
{
    type Item = A;

    ghost next_gives = { YieldsFirstBy (in_family A.family_of A.bits) (λ it. it) };

    ghost remaining = { item_count (λ it. it) };

    fn next(&mut self) -> Option<A> {
        // the address is taken before the step, so that no host is kept over it
        let address = self.inner.lowest()?.address();
        self.inner.drop_lowest();
        Some(address)
    }

    fn size_hint(&self) -> (usize, Option<usize>)
        ensures lower { IsWithinCount result.0 (at_most (length self.now)) }
        ensures upper { IfSome result.1 (UpTo (at_most (length self.now))) }
        ensures bounds { result ≡ bounds_of (length self.now) }
    {
        self.inner.size_hint()
    }
}

impl<A: Address> DoubleEndedIterator for InetAddressIterator<A>
where
    A::InetPair: InetPair<Address = A>,
    A::Inet: Inet<Address = A>,
{
    ghost next_back_gives = { YieldsLastBy (in_family A.family_of A.bits) (λ it. it) };

    fn next_back(&mut self) -> Option<A> {
        // the address is taken before the step, so that no host is kept over it
        let address = self.inner.highest()?.address();
        self.inner.drop_highest();
        Some(address)
    }
}

impl<A: Address> FusedIterator for InetAddressIterator<A>
where
    A::InetPair: InetPair<Address = A>,
    A::Inet: Inet<Address = A>,
{}

impl<A: Address> fmt::Debug for InetAddressIterator<A>
where
    A::InetPair: fmt::Debug,
{
    fn fmt<W: fmt::Write>(&self, f: &mut fmt::Formatter<W>) -> fmt::Result {
        f.debug_struct("InetAddressIterator")
            .field("inner", &self.inner)
            .finish()
    }
}
