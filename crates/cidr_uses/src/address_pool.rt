//! A pool of addresses: each address of a network is given once, the lowest first.
ghost use Rattle.std.specs.Prelude.{◌≡◌, ◌≤◌, [], ◌∷◌, length, IfSome, IfNone, MatchOption};
ghost use Rattle.std.specs.declared.cmp.Ordering.TheVariants.{Less};
ghost use Rattle.cidr.specs.model.Bits.{bit_cmp};
ghost use Rattle.cidr.specs.model.Network.{BeginsWith};
ghost use Rattle.cidr.specs.model.Walk.{network_walk, HasExactly};
ghost use Rattle.cidr.specs.declared.family.Family.TheVariants.{Ipv4};
ghost use Rattle.cidr_uses.specs.AddressPool.{IsBelowAll};

use cidr::laws::walks::walk_ascends;
use cidr::{InetAddressIterator, Ipv4Addr, Ipv4Cidr};
use std::marker::Model;

/// The addresses of an IPv4 network that are free.
#[derive(Drop)]
pub struct AddressPool {
    network: Ipv4Cidr,
    free: InetAddressIterator<Ipv4Addr>,
}

impl Model for AddressPool {
    ghost use Rattle.cidr_uses.specs.AddressPool.{Pool, pool_of, IsPool};

    ghost Value = { Pool };

    ghost view = { λ p. pool_of p.network p.free };

    ghost invariant = { λ p. IsPool (pool_of p.network p.free) };
}

impl AddressPool {
    /// The pool of all addresses of a network, the first and the last among them: that of 192.0.2.0/30 gives
    /// 192.0.2.0, 192.0.2.1, 192.0.2.2 and 192.0.2.3.
    pub fn new(network: Ipv4Cidr) -> AddressPool
        ensures network { result.network ≡ network }
        ensures free { result.free ≡ network_walk Ipv4 network }
        ensures exactly { HasExactly Ipv4 network result.free }
    {
        // the calls tell the proof that the walk ascends
        network.network_length();
        walk_ascends();
        AddressPool {
            network,
            free: network.iter().addresses(),
        }
    }

    /// The network.
    pub fn network(&self) -> Ipv4Cidr
        ensures { result ≡ self.now.network }
    {
        self.network
    }

    /// Gives the lowest free address, or `None` where all are given. No later call gives it again, since every
    /// address that is left is above it.
    pub fn take(&mut self) -> Option<Ipv4Addr>
        ensures given { MatchOption result ((self.old.free ≡ []) × (self.new.free ≡ []))
            (λ a. self.old.free ≡ a ∷ self.new.free) }
        ensures within { IfSome result (λ a. BeginsWith a self.old.network) }
        ensures once { IfSome result (λ a. IsBelowAll a self.new.free) }
        ensures network { self.new.network ≡ self.old.network }
    {
        self.free.next()
    }
}

/// Two addresses of a network, the second above the first, or `None` where the network has only one address.
pub fn two_addresses(network: Ipv4Cidr) -> Option<(Ipv4Addr, Ipv4Addr)>
    ensures first { IfSome result (λ p. BeginsWith p.0 network) }
    ensures second { IfSome result (λ p. BeginsWith p.1 network) }
    ensures above { IfSome result (λ p. bit_cmp p.0 p.1 ≡ Less) }
    ensures one { IfNone result (length (network_walk Ipv4 network) ≤ 1) }
{
    let mut pool = AddressPool::new(network);
    let first = pool.take()?;
    let second = pool.take()?;
    Some((first, second))
}
