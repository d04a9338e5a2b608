//! The look-ups of a set in a slice of its networks.
ghost use Rattle.std.specs.Prelude.{◌≤◌, length, map};
ghost use Rattle.std.specs.Bool.{Decides};
ghost use Rattle.cidr_table.specs.model.Cover.{Covers, IsReduced};
ghost use Rattle.cidr_sets.specs.model.Searches.{IsUpto};

use crate::probe::{Networks, contains};
use crate::search::index;
use cidr::NetworkBits;

/// How many networks come before this one or are the same, by `index`.
pub fn upto<C: NetworkBits>(networks: &[C], network: &C) -> usize
    requires { IsReduced 129 (map C.bits networks.now) }
    ensures index { IsUpto (map C.bits networks.now) (C.bits network.now) result }
    ensures within { result ≤ length networks.now }
{
    index(&mut Networks::new(networks), network)
}

/// Whether one of the networks contains this one, by `contains`.
pub fn covers<C: NetworkBits>(networks: &[C], network: &C) -> bool
    requires { IsReduced 129 (map C.bits networks.now) }
    ensures { Decides result (Covers (map C.bits networks.now) (C.bits network.now)) }
{
    contains(&mut Networks::new(networks), network)
}
