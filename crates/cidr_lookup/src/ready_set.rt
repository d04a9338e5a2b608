//! Lists of networks, made ready for look-ups.
ghost use Rattle.std.specs.Prelude.{◌≡◌, ◌↔◌, List, Bool, length, map, IfErr, IfOk, IsTrue};
ghost use Rattle.cidr_table.specs.model.Cover.{Covers};
ghost use Rattle.cidr_table.specs.model.LastRows.{AreLastRows};
ghost use Rattle.cidr_lookup.specs.Rows.{HaveTooManyWords, IsCountRefused};
ghost use Rattle.cidr_lookup.specs.declared.table.TableError.TheVariants.{TooLarge};

use crate::keyed::Keyed;
use crate::ready::ReadyTable;
use crate::table::TableError;
use cidr_table::LpmTable;
use std::alloc::{AllocError, Global};
use std::marker::Model;

/// Networks made ready for look-ups: whether an address is in one of them is one look-up, as in a
/// [`ReadyTable`](crate::ReadyTable). It keeps the networks, each once, beside its look-up table.
///
/// Take it where a set, or a list of networks, stays as it is and many addresses are asked for: of a `NetworkSet` of
/// `cidr_sets` those of `as_slice`. Where networks come and go, take `contains` of the set, which is a binary search.
#[derive(Drop)]
pub struct ReadySet<C: Keyed> {
    ready: ReadyTable<C, ()>,
}

impl<C: Keyed> Model for ReadySet<C> {
    ghost use Rattle.std.specs.Prelude.{List};
    ghost use Rattle.std.specs.Map.{keys_of};

    ghost Value = { List C };

    ghost view = { λ s. keys_of s.ready.rows };

    ghost invariant = { λ _. Unit {0} };
}

impl<C: Keyed> ReadySet<C> {
    /// Networks in any order, made ready: they are copied and, where they don't ascend, sorted; then in the time and memory
    /// of [`ReadyTable::new`](crate::ReadyTable::new).
    ///
    /// The error is that there are more than 2,147,483,647 networks; or else more than 1,073,741,823 words of the look-up
    /// table, or that an allocation failed. It is never `Refused`.
    ///
    /// ```
    /// let ready = ReadySet::new(rt.alloc(), &blocked)?;
    /// ready.contains(&"10.1.2.3".parse()?) // true
    /// ready.contains(&"10.0.0.0/7".parse()?) // false
    /// ```
    pub fn new(alloc: Global, networks: &[C]) -> Result<Self, TableError>
        ensures ok { IfOk result (λ ready. (a : List Bool) → Covers (map C.bits ready) a ↔ Covers (map C.bits networks.now) a) }
        ensures refused { IfErr result (IsCountRefused (length networks.now)) }
        ensures large { IfErr result (λ error. error ≡ TooLarge → (rows : List (C × Unit {0}))
            × AreLastRows (map (λ (network : C). (network, tt)) networks.now) rows
            × HaveTooManyWords C.bits C.Number.width C.Number.padding C.Number.steps rows) }
    {
        if networks.len() >= 1 << 31 {
            return Err(TableError::TooMany);
        }
        let Ok(rows) = rows_without_values(alloc, networks) else {
            return Err(TableError::NoMemory);
        };
        match ReadyTable::new(alloc, LpmTable::from_rows(rows)) {
            Ok(ready) => Ok(ReadySet { ready }),
            Err((_, TableError::TooLarge)) => Err(TableError::TooLarge),
            // there are no more rows than networks
            Err(_) => Err(TableError::NoMemory),
        }
    }

    /// Whether one of the networks has all addresses of this one. An address is asked for as the network of full prefix
    /// length. It takes the time of [`ReadyTable::find`](crate::ReadyTable::find).
    #[inline(always)]
    pub fn contains(&self, network: &C) -> bool
        ensures { IsTrue result ↔ Covers (map C.bits self.now) (C.bits network.now) }
    {
        self.ready.find(network).is_some()
    }
}

/// A row of each network.
fn rows_without_values<C: Copy>(alloc: Global, networks: &[C]) -> Result<Vec<(C, ())>, AllocError>
    ensures { IfOk result (λ rows. rows.items ≡ map (λ (network : C). (network, tt)) networks.now) }
{
    let mut rows = Vec::with_capacity(alloc, networks.len())?;
    for network in networks {
        rows.push((*network, ()))?;
    }
    Ok(rows)
}
