//! Networks of one family as strings of bits.
ghost use Rattle.std.specs.Prelude.{◌≡◌, ◌+◌, ◌-◌, ◌<◌, ◌≤◌, ◌++◌, ◌∷◌, [], Some, length, take, set, slice_get, refl};
ghost use Rattle.cidr.specs.model.BitString.{IsSharedLength, inverted};
ghost use Rattle.cidr.specs.model.Network.{width_of};

use crate::bits::{BitString, NetworkBits, place};
use crate::cidr::network::Network;
use crate::internal_traits::single_bits::SingleBits;
use std::cmp::min;

/// How many bits both networks begin with.
pub(crate) fn shared_length<A: SingleBits>(one: &Network<A>, other: &Network<A>) -> u8
    ensures { IsSharedLength one.now other.now result }
{
    // the lengths first, which need no branch
    let shorter = min(one.network_length(), other.network_length());
    min(
        shorter,
        one.first_address().shared_len(other.first_address()),
    )
}

impl<A: SingleBits> BitString for Network<A> {
    ghost bits = { λ n. n };

    ghost room = { λ n. width_of A.FAMILY - length n };

    fn len(&self) -> usize {
        usize::from(self.network_length())
    }

    #[tactic(auto, using(crate::proofs::StringBits::width_laws))]
    fn room(&self) -> usize {
        usize::from(A::FAMILY.len() - self.network_length())
    }

    fn get(&self, i: usize) -> bool {
        self.first_address().bit(place(i, self.network_length()))
    }

    fn set(&mut self, i: usize, b: bool)
        requires { i < length self.old }
        ensures { self.new ≡ set self.old i b }
    {
        let len = self.network_length();
        *self = Network::new_unchecked(self.first_address().with_bit(place(i, len), b), len);
    }

    fn flip(&mut self, i: usize)
        requires { i < length self.old }
        ensures { self.new ≡ set self.old i (inverted i self.old) }
    {
        let len = self.network_length();
        let flipped = self.first_address().with_flipped_bit(place(i, len));
        *self = Network::new_unchecked(flipped, len);
    }

    fn clip(&mut self, k: usize) {
        let len = self.network_length();
        if k < usize::from(len) {
            *self = Network::holding(self.first_address(), place(k, len));
        }
    }

    fn append(&mut self, b: bool) {
        let len = self.network_length();
        *self = Network::new_unchecked(self.first_address().with_bit(len, b), len + 1);
    }

    fn null() -> Network<A> {
        Network::holding(A::mask_of(0), 0)
    }

    fn shared_prefix_len(&self, other: &Network<A>) -> usize {
        usize::from(shared_length(self, other))
    }
}

impl<A: SingleBits> NetworkBits for Network<A> {
    ghost ordered = { λ _ _. refl };

    ghost determined = { λ _ _ h. h };
}
