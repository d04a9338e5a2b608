//! How many addresses a set has, and which has which index.
ghost use Rattle.std.specs.Prelude.{◌≡◌, ◌^◌, Bool, List, map, MatchOption, Some};
ghost use Rattle.std.specs.Option.{option_map};
ghost use Rattle.cidr.specs.model.Network.{width_of};
ghost use Rattle.cidr_table.specs.model.Cover.{Covers};
ghost use Rattle.cidr_sets.specs.model.Counts.{AreAddresses, HaveCount, IsAtIndex};

use crate::set::NetworkSet;
use crate::walk::SetAddresses;
use cidr::FamilyCidr;

impl<C: FamilyCidr> NetworkSet<C> {
    /// How many addresses the set has, or `None` for all of IPv6, whose 2^128 are more than a `u128` has room for.
    ///
    /// It looks at each network of the set once: O(n).
    ///
    /// ```
    /// blocks.as_slice() // [192.0.2.0/28, 192.0.2.128/25]
    /// blocks.address_count() // Some(144)
    /// ```
    pub fn address_count(&self) -> Option<u128>
        ensures { MatchOption result
            (HaveCount (width_of C.FAMILY) (map C.bits self.now) (2 ^ 128))
            (HaveCount (width_of C.FAMILY) (map C.bits self.now)) }
    {
        let mut count: u128 = 0;
        for network in self.as_slice() {
            let (first, last) = network.ends();
            // no overflow, since no more than `last` addresses come before the last one
            count = (count + (last - first)).checked_add(1)?;
        }
        Some(count)
    }

    /// The address at an index, from 0 on in ascending order, or `None` where the set has no more addresses than that.
    ///
    /// It looks at each network of the set once at most: O(n).
    ///
    /// ```
    /// blocks.nth(15) // Some(192.0.2.15)
    /// blocks.nth(16) // Some(192.0.2.128)
    /// blocks.nth(144) // None
    /// ```
    pub fn nth(&self, index: u128) -> Option<C::Address>
        ensures { IsAtIndex (width_of C.FAMILY) (map C.bits self.now) index (option_map C.Address.bits result) }
    {
        let mut left = index;
        for network in self.as_slice() {
            let (first, last) = network.ends();
            if left <= last - first {
                return Some(C::from_number(first + left));
            }
            left -= last - first + 1;
        }
        None
    }

    /// The index of an address, or `None` where the address is not in the set. It is the inverse of `nth`.
    ///
    /// It looks at each network of the set once at most: O(n).
    ///
    /// ```
    /// blocks.position("192.0.2.128".parse()?) // Some(16)
    /// blocks.position("192.0.2.16".parse()?) // None
    /// ```
    pub fn position(&self, address: C::Address) -> Option<u128>
        ensures { MatchOption result (¬ (Covers (map C.bits self.now) (C.Address.bits address)))
            (λ index. IsAtIndex (width_of C.FAMILY) (map C.bits self.now) index (Some (C.Address.bits address))) }
    {
        let number = C::to_number(address);
        let mut before: u128 = 0;
        for network in self.as_slice() {
            let (first, last) = network.ends();
            if number < first {
                return None;
            }
            if number <= last {
                return Some(before + (number - first));
            }
            before += last - first + 1;
        }
        None
    }

    /// The addresses of the set, ascending, from both ends. It allocates nothing, and each step takes constant time.
    ///
    /// ```
    /// blocks.addresses().next() // Some(192.0.2.0)
    /// ```
    pub fn addresses(&self) -> SetAddresses<'_, C>
        ensures { AreAddresses (width_of C.FAMILY) (map C.bits self.now) result }
    {
        SetAddresses::_new(self.as_slice())
    }
}
