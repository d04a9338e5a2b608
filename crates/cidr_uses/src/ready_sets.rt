//! Sets made ready for look-ups: what is asked of one is known of the set itself.
ghost use Rattle.std.specs.Prelude.{IfErr, IfOk, IsTrue, length, map};
ghost use Rattle.std.specs.Bool.{Decides};
ghost use Rattle.std.specs.List.{All};
ghost use Rattle.cidr_lookup.specs.Rows.{IsCountRefused};
ghost use Rattle.cidr_table.specs.model.Cover.{Covers};

use cidr_lookup::{Keyed, ReadySet, TableError};
use cidr_sets::NetworkSet;
use std::alloc::Global;

/// Whether a set has all addresses of each of some networks, for which it is made ready once.
pub fn has_each<C: Keyed>(
    alloc: Global,
    set: &NetworkSet<C>,
    asked: &[C],
) -> Result<bool, TableError>
    ensures each { IfOk result (λ each.
        Decides each (All (λ network. Covers (map C.bits set.now) (C.bits network)) asked.now)) }
    ensures refused { IfErr result (IsCountRefused (length set.now)) }
{
    let ready = ReadySet::new(alloc, set.as_slice())?;
    Ok(are_in(&ready, asked))
}

/// Whether a set made ready has each of some networks.
fn are_in<C: Keyed>(ready: &ReadySet<C>, asked: &[C]) -> bool
    ensures { Decides result (All (λ network. Covers (map C.bits ready.now) (C.bits network)) asked.now) }
{
    asked.iter().all(|network| ready.contains(network))
}

/// Whether a set and the set made ready say the same of a network, which they do.
pub fn both_say_the_same<C: Keyed>(
    alloc: Global,
    set: &NetworkSet<C>,
    network: &C,
) -> Result<bool, TableError>
    ensures { IfOk result (λ same. IsTrue same) }
{
    let ready = ReadySet::new(alloc, set.as_slice())?;
    Ok(ready.contains(network) == set.contains(network))
}
