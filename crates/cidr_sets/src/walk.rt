//! Addresses of sets, one by one.
ghost use Rattle.std.specs.Prelude.{◌≡◌, map};
ghost use Rattle.std.specs.Iterator.{YieldsFirstBy, YieldsLastBy, item_count};
ghost use Rattle.cidr.specs.model.Network.{width_of};
ghost use Rattle.cidr_sets.specs.internal.AddressLists.{left_of};
ghost use Rattle.cidr_sets.specs.model.Counts.{AreAddresses};

use cidr::FamilyCidr;
use std::iter::FusedIterator;
use std::marker::Model;

/// The addresses of a set that are left, ascending. The call `addresses` of `NetworkSet` makes it.
///
/// `next` takes the lowest of them and `next_back` the highest, in constant time. Once either has returned `None`, both
/// return `None` from then on. It does not allocate.
///
/// ```
/// let mut addresses = blocks.addresses();
/// addresses.next() // Some(192.0.2.0)
/// addresses.next_back() // Some(192.0.2.255)
/// addresses.next_back() // Some(192.0.2.254)
/// ```
#[derive(Drop)]
pub struct SetAddresses<'a, C: FamilyCidr> {
    /// The numbers of the first and the last address that are left of a network at the front.
    front: Option<(u128, u128)>,
    networks: &'a [C],
    /// The same of a network at the back.
    back: Option<(u128, u128)>,
}

impl<'a, C: FamilyCidr> Model for SetAddresses<'a, C> {
    ghost use Rattle.std.specs.Prelude.{List, Bool, map};
    ghost use Rattle.cidr.specs.model.Network.{width_of};
    ghost use Rattle.cidr_sets.specs.internal.AddressLists.{AreEndNumbers, left_of};

    ghost Value = { List (List Bool) };

    ghost view = { λ it. left_of (width_of C.FAMILY) it.front (map C.bits it.networks.now) it.back };

    ghost invariant = { λ it. AreEndNumbers (width_of C.FAMILY) it.front × AreEndNumbers (width_of C.FAMILY) it.back };
}

impl<'a, C: FamilyCidr> SetAddresses<'a, C> {
    /// All addresses of some networks.
    pub(crate) fn _new(networks: &'a [C]) -> SetAddresses<'a, C>
        ensures { result ≡ left_of (width_of C.FAMILY) None (map C.bits networks.now) None }
    {
        SetAddresses {
            front: None,
            networks,
            back: None,
        }
    }
}

impl<'a, C: FamilyCidr> Iterator for SetAddresses<'a, C> {
    type Item = C::Address;

    ghost next_gives = { YieldsFirstBy C.Address.bits (λ it. it) };

    ghost remaining = { item_count (λ it. it) };

    fn next(&mut self) -> Option<C::Address> {
        let (first, last) = match self.front {
            Some(ends) => ends,
            None => match self.networks.split_first() {
                Some((network, behind)) => {
                    self.networks = behind;
                    network.ends()
                }
                None => self.back.take()?,
            },
        };
        self.front = if first < last {
            Some((first + 1, last))
        } else {
            None
        };
        Some(C::from_number(first))
    }
}

impl<'a, C: FamilyCidr> DoubleEndedIterator for SetAddresses<'a, C> {
    ghost next_back_gives = { YieldsLastBy C.Address.bits (λ it. it) };

    fn next_back(&mut self) -> Option<C::Address> {
        let (first, last) = match self.back {
            Some(ends) => ends,
            None => match self.networks.split_last() {
                Some((network, before)) => {
                    self.networks = before;
                    network.ends()
                }
                None => self.front.take()?,
            },
        };
        self.back = if first < last {
            Some((first, last - 1))
        } else {
            None
        };
        Some(C::from_number(last))
    }
}

impl<'a, C: FamilyCidr> FusedIterator for SetAddresses<'a, C> {}
