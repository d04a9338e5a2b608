//! Hosts of one family as strings of bits: those of their networks.
ghost use Rattle.std.specs.Prelude.{◌≡◌, ◌+◌, ◌-◌, ◌<◌, ◌≤◌, ◌++◌, ◌∷◌, [], length, set, take};
ghost use Rattle.cidr.specs.model.BitString.{host_with_bit, host_clipped, host_longer, inverted};
ghost use Rattle.cidr.specs.model.Host.{network_of};
ghost use Rattle.cidr.specs.model.Network.{width_of, zeros};

use crate::bits::{BitString, place};
use crate::inet::host::Host;
use crate::internal_traits::single_bits::SingleBits;
use std::cmp::min;

impl<A: SingleBits> BitString for Host<A> {
    ghost bits = { network_of };

    ghost room = { λ host. width_of A.FAMILY - host.len };

    #[tactic(auto, using(crate::specs::laws::NetworkLaws::taken_laws))]
    fn len(&self) -> usize {
        // the call tells the proof how many bits the address has
        self.address().has_width();
        usize::from(self.network_length())
    }

    #[tactic(auto, using(crate::specs::laws::NetworkLaws::taken_laws, crate::proofs::StringBits::width_laws))]
    fn room(&self) -> usize {
        // the call tells the proof how many bits the address has
        self.address().has_width();
        usize::from(A::FAMILY.len() - self.network_length())
    }

    fn get(&self, i: usize) -> bool {
        self.address().bit(place(i, self.network_length()))
    }

    fn set(&mut self, i: usize, b: bool)
        requires { i < length (network_of self.old) }
        ensures bits { network_of self.new ≡ set (network_of self.old) i b }
        ensures host { self.new ≡ host_with_bit i b self.old }
    {
        let len = self.network_length();
        *self = Host::new_unchecked(self.address().with_bit(place(i, len), b), len);
    }

    fn flip(&mut self, i: usize)
        requires { i < length (network_of self.old) }
        ensures bits { network_of self.new ≡ set (network_of self.old) i (inverted i (network_of self.old)) }
        ensures host { self.new ≡ host_with_bit i (inverted i self.old.address) self.old }
    {
        let len = self.network_length();
        *self = Host::new_unchecked(self.address().with_flipped_bit(place(i, len)), len);
    }

    fn clip(&mut self, k: usize)
        ensures bits { network_of self.new ≡ take k (network_of self.old) }
        ensures room { 0 < k → width_of A.FAMILY - self.new.len ≡
            width_of A.FAMILY - self.old.len + (length (network_of self.old) - k) }
        ensures left { k < length (network_of self.old) → 0 < width_of A.FAMILY - self.new.len }
        ensures host { self.new ≡ host_clipped (width_of A.FAMILY) k self.old }
    {
        let (address, len) = (self.address(), self.network_length());
        let width = A::FAMILY.len();
        if k < usize::from(width) {
            let k = place(k, width);
            *self = Host::new_unchecked(address.first_in(k), min(len, k));
        }
    }

    fn append(&mut self, b: bool)
        requires { 0 < width_of A.FAMILY - self.old.len }
        ensures bits { network_of self.new ≡ network_of self.old ++ b ∷ [] }
        ensures room { width_of A.FAMILY - self.old.len ≤ width_of A.FAMILY - self.new.len + 1 }
        ensures host { self.new ≡ host_longer b self.old }
    {
        let (address, len) = (self.address(), self.network_length());
        *self = Host::new_unchecked(address.with_bit(len, b), len + 1);
    }

    fn null() -> Host<A>
        ensures { result ≡ record { address = zeros (width_of A.FAMILY); len = 0 } }
    {
        Host::new_unchecked(A::mask_of(0), 0)
    }

    fn shared_prefix_len(&self, other: &Host<A>) -> usize {
        // the lengths first, which need no branch
        let shorter = min(self.network_length(), other.network_length());
        usize::from(min(shorter, self.address().shared_len(other.address())))
    }
}
