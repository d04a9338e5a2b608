//! Networks as the nodes of a tree of prefixes, over the traits of bit strings only.
ghost use Rattle.std.specs.Prelude.{◌≡◌, ◌↔◌, ◌-◌, ◌<◌, ◌++◌, ◌∷◌, [], IsTrue, MatchOption, false, length, take, true};
ghost use Rattle.cidr.specs.model.BitString.{inverted};
ghost use Rattle.cidr.specs.model.Network.{BeginsWith};

use cidr::{Ipv4Cidr, NetworkBits};

/// The network that is twice as large, or `None` where the network has no bits.
pub fn parent<C: NetworkBits + Copy>(network: C) -> Option<C>
    ensures { MatchOption result (C.bits network ≡ [])
        (λ parent. C.bits parent ≡ take (length (C.bits network) - 1) (C.bits network)) }
{
    let len = network.len();
    if len == 0 {
        return None;
    }
    let mut parent = network;
    parent.clip(len - 1);
    Some(parent)
}

/// The other half of the parent, or `None` where the network has no bits: that of 10.0.0.0/9 is 10.128.0.0/9.
pub fn sibling<C: NetworkBits + Copy>(network: C) -> Option<C>
    ensures { let p = C.bits network in let last = length p - 1 in
        MatchOption result (p ≡ []) (λ other. C.bits other ≡ take last p ++ inverted last p ∷ []) }
{
    let len = network.len();
    if len == 0 {
        return None;
    }
    let mut other = network;
    other.flip(len - 1);
    Some(other)
}

/// Both halves of a network that is no single address: of 10.0.0.0/8 they are 10.0.0.0/9 and 10.128.0.0/9.
pub fn halves<C: NetworkBits + Copy>(network: C) -> (C, C)
    requires { 0 < C.room network }
    ensures lower { C.bits result.0 ≡ C.bits network ++ false ∷ [] }
    ensures upper { C.bits result.1 ≡ C.bits network ++ true ∷ [] }
{
    let (mut lower, mut upper) = (network, network);
    lower.append(false);
    upper.append(true);
    (lower, upper)
}

/// Whether the bits of the outer network begin those of the inner one.
pub fn holds<C: NetworkBits>(outer: &C, inner: &C) -> bool
    ensures { IsTrue result ↔ BeginsWith (C.bits inner.now) (C.bits outer.now) }
{
    outer.shared_prefix_len(inner) == outer.len()
}

/// The same network twice as large: what holds over the trait holds of IPv4.
pub fn ipv4_parent(network: Ipv4Cidr) -> Option<Ipv4Cidr>
    ensures { MatchOption result (network ≡ []) (λ parent. parent ≡ take (length network - 1) network) }
{
    parent(network)
}
