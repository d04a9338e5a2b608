//! Strings of bits, over the trait only: what `room` says.
ghost use Rattle.std.specs.Prelude.{◌≡◌, ◌<◌, ◌++◌, ◌∷◌, [], MatchOption, length};

use cidr::{BitString, Ipv6Cidr};

/// The network or host of two more bits: of 10.0.0.0/8, `true` and `false` it is 10.128.0.0/10. `None` where there is
/// no room for both.
pub fn two_bits_more<C: BitString + Copy>(outer: C, first: bool, second: bool) -> Option<C>
    ensures { MatchOption result (C.room outer < 2)
        (λ inner. C.bits inner ≡ C.bits outer ++ first ∷ second ∷ []) }
{
    if outer.room() < 2 {
        return None;
    }
    let mut inner = outer;
    inner.append(first);
    inner.append(second);
    Some(inner)
}

/// One of the four IPv6 networks of two more bits: what holds over the trait holds of IPv6.
pub fn ipv6_quarter(outer: Ipv6Cidr, first: bool, second: bool) -> Option<Ipv6Cidr>
    ensures { MatchOption result (126 < length outer) (λ inner. inner ≡ outer ++ first ∷ second ∷ []) }
{
    two_bits_more(outer, first, second)
}
