//! The hosts of one family by the trait of hosts, once over both families.
ghost use Rattle.std.specs.Prelude.{◌≡◌, refl};
ghost use Rattle.cidr.specs.laws.EqualLaws.{host_eq_Decides};
ghost use Rattle.cidr.specs.laws.TraitLaws.{ordered_hosts, reads_host};

use crate::addr::v4::Ipv4Addr;
use crate::addr::v6::Ipv6Addr;
use crate::cidr::network::Network;
use crate::errors::NetworkLengthTooLongError;
use crate::family::Family;
use crate::inet::host::Host;
use crate::internal_traits::address_bits::AddressText;
use crate::traits::{Address, Inet};

/// An address of one family, which its two traits know by the same family and the same bits.
pub trait OneFamily: AddressText + Address<Inet = Host<Self>, Cidr = Network<Self>> {
    /// The family is that of the type.
    ghost is_family: { (a : Self) → Self.PrivUnspecAddress.family_of a ≡ Self.AddressBits.FAMILY };

    /// The bits are those of the address.
    ghost has_bits: { (a : Self) → Self.PrivUnspecAddress.bits a ≡ Self.AddressBits.bits a };
}

impl OneFamily for Ipv4Addr {
    ghost is_family = { λ _. refl };

    ghost has_bits = { λ _. refl };
}

impl OneFamily for Ipv6Addr {
    ghost is_family = { λ _. refl };

    ghost has_bits = { λ _. refl };
}

#[tactic(auto, using(crate::proofs::Views::view_laws))]
impl<A: OneFamily> Inet for Host<A> {
    type Address = A;

    fn new(addr: A, len: u8) -> Result<Host<A>, NetworkLengthTooLongError> {
        Host::new(addr, len)
    }

    fn new_host(addr: A) -> Host<A> {
        Host::new_host(addr)
    }

    fn increment(&mut self) -> bool {
        self.increment()
    }

    fn decrement(&mut self) -> bool {
        self.decrement()
    }

    fn next(self) -> Option<Host<A>> {
        self.next()
    }

    fn previous(self) -> Option<Host<A>> {
        self.previous()
    }

    fn overflowing_add(self, step: u128) -> (Host<A>, bool) {
        self.overflowing_add(step)
    }

    fn overflowing_sub(self, step: u128) -> (Host<A>, bool) {
        self.overflowing_sub(step)
    }

    fn network(&self) -> Network<A> {
        self.network()
    }

    fn address(&self) -> A {
        self.address()
    }

    fn first_address(&self) -> A {
        self.first_address()
    }

    fn first(&self) -> Host<A> {
        self.first()
    }

    fn last_address(&self) -> A {
        self.last_address()
    }

    fn last(&self) -> Host<A> {
        self.last()
    }

    fn network_length(&self) -> u8 {
        self.network_length()
    }

    fn family(&self) -> Family {
        self.family()
    }

    fn is_host_address(&self) -> bool {
        self.is_host_address()
    }

    fn mask(&self) -> A {
        self.mask()
    }

    fn contains(&self, addr: &A) -> bool {
        self.contains(addr)
    }

    ghost equal = { host_eq_Decides };

    ghost known = { λ _ _ _ h. h };

    ghost ordered = { ordered_hosts A.FAMILY };

    ghost reads = { reads_host A.FAMILY };

    ghost prints = { λ _. refl };
}
