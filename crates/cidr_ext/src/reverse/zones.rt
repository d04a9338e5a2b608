//! The names in reverse DNS of the zones of a network.
ghost use Rattle.std.specs.Prelude.{◌≡◌, ◌≤◌, length, IfSome};
ghost use Rattle.std.specs.Iterator.{YieldsFirstBy, YieldsLastBy, item_count, UpTo, at_most};
ghost use Rattle.std.specs.Iterator.SizeHint.{IsExactHint, IsWithinCount};
ghost use Rattle.cidr.specs.model.Network.{width_of};
ghost use Rattle.cidr_ext.specs.texts.Zones.{EndAtLabel, IsZoneLength, names_of};

use crate::address::AddressExt;
use crate::reverse::name::name_of;
use crate::subnets::Subnets;
use arrayvec::ArrayString;
use cidr::{Address, Cidr, Family, Inet, InetPair};
use std::iter::FusedIterator;
use std::marker::Model;

/// The names of the zones of a network that are left, ascending. The call `reverse_zones` makes it.
///
/// `next` takes the lowest of them and `next_back` the highest, in constant time. Once either has returned `None`, both
/// return `None` from then on. It does not allocate.
#[derive(Drop)]
pub struct ReverseZones<C: Cidr> {
    networks: Subnets<C>,
}

impl<C: Cidr> Model for ReverseZones<C> {
    ghost use Rattle.std.specs.Prelude.{List, ℕ};
    ghost use Rattle.cidr_ext.specs.texts.Zones.{EndAtLabel, names_of};

    ghost Value = { List (List ℕ) };

    ghost view = { λ s. names_of s.networks };

    ghost invariant = { λ s. EndAtLabel s.networks };
}

impl<C: Cidr> ReverseZones<C> {
    /// The names of these networks.
    pub(crate) fn _new(networks: Subnets<C>) -> ReverseZones<C>
        requires { EndAtLabel networks }
        ensures { result ≡ names_of networks }
    {
        ReverseZones { networks }
    }
}

impl<C: Cidr> Iterator for ReverseZones<C>
where
    C::Address: Address<Cidr = C> + AddressExt,
    <C::Address as Address>::Inet: Inet<Address = C::Address>,
    <C::Address as Address>::InetPair: InetPair<Address = C::Address>,
{
    type Item = ArrayString<72>;

    ghost next_gives = { YieldsFirstBy (λ name. name.bytes) (λ s. s) };

    ghost remaining = { item_count (λ s. s) };

    fn next(&mut self) -> Option<ArrayString<72>> {
        name_of(&self.networks.next()?)
    }

    fn size_hint(&self) -> (usize, Option<usize>)
        ensures lower { IsWithinCount result.0 (at_most (length self.now)) }
        ensures upper { IfSome result.1 (UpTo (at_most (length self.now))) }
        ensures exact { IsExactHint result (length self.now) }
    {
        self.networks.size_hint()
    }
}

impl<C: Cidr> DoubleEndedIterator for ReverseZones<C>
where
    C::Address: Address<Cidr = C> + AddressExt,
    <C::Address as Address>::Inet: Inet<Address = C::Address>,
    <C::Address as Address>::InetPair: InetPair<Address = C::Address>,
{
    ghost next_back_gives = { YieldsLastBy (λ name. name.bytes) (λ s. s) };

    fn next_back(&mut self) -> Option<ArrayString<72>> {
        name_of(&self.networks.next_back()?)
    }
}

impl<C: Cidr> FusedIterator for ReverseZones<C>
where
    C::Address: Address<Cidr = C> + AddressExt,
    <C::Address as Address>::Inet: Inet<Address = C::Address>,
    <C::Address as Address>::InetPair: InetPair<Address = C::Address>,
{}

/// The least prefix length from this one on that ends at a label.
pub(crate) fn zone_length(family: Family, len: u8) -> u8
    requires { len ≤ width_of family }
    ensures zone { IsZoneLength family len result }
    ensures fits { result ≤ width_of family }
{
    match family {
        Family::Ipv4 => (len + 7) / 8 * 8,
        Family::Ipv6 => (len + 3) / 4 * 4,
    }
}
