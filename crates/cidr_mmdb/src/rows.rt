//! The networks of the search tree, in order.
ghost use Rattle.std.specs.Prelude.{◌^◌, MatchOption};
ghost use Rattle.cidr_mmdb.specs.LookUps.{looked_up};
ghost use Rattle.cidr_mmdb.specs.PartNumbers.{AreParts};
ghost use Rattle.cidr_mmdb.specs.Rows.{IsNextRow, IsPassed, begin_behind};
ghost use Rattle.cidr_mmdb.specs.declared.database.Database.{Database};

use crate::database::Database;
use crate::found::Found;
use crate::parts::Parts;
use cidr::IpCidr;

/// A network of the search tree.
#[derive(Clone, Copy, Debug, PartialEq, Eq)]
pub struct Row {
    /// The network. In a tree of IPv6 those at or below ::/96 are of IPv4.
    pub network: IpCidr,
    /// What a look-up finds for each of its addresses.
    pub found: Found,
}

/// The next network behind one, or the first of all, for which anything is found: a value, or that the tree is broken there. `None` where
/// there is none. It looks at `most` networks with nothing at the most, and then returns the next whatever it has; where that is nothing,
/// a call behind it goes on.
///
/// So calls give each network of the tree once, in order of their addresses, those of aliases of IPv4 too. A tree whose nodes are shared
/// or go round in a circle has up to 2^128 of them.
///
/// It takes as many steps as addresses have bits, for each of `most + 1` networks at the most, and allocates nothing.
///
/// ```
/// next_row(&database, None, 1000).map(|row| row.found) // Some(Value(0))
/// next_row(&database, Some("0.0.0.0/1".parse()?), 1000) // None
/// ```
pub fn next_row(database: &Database<'_>, after: Option<IpCidr>, most: u32) -> Option<Row>
    ensures { MatchOption result (IsPassed (looked_up database.now) database.now.width (begin_behind after) (2 ^ database.now.width))
        (IsNextRow (looked_up database.now) database.now.width (begin_behind after) most) }
{
    database.search().next_row(after, most)
}

/// The same in the bytes of a file whose parts are kept as numbers. Whatever bytes and numbers are given, it reads nothing outside of the
/// bytes; with those of no file, what it finds says nothing.
///
/// ```
/// let parts = open(&bytes)?.parts();
/// next_row_in(&bytes, &parts, None, 1000).map(|row| row.found) // Some(Value(0))
/// ```
pub fn next_row_in(bytes: &[u8], parts: &Parts, after: Option<IpCidr>, most: u32) -> Option<Row>
    ensures { (database : Database) → AreParts bytes.now parts.now database → MatchOption result (IsPassed (looked_up database) database.width (begin_behind after) (2 ^ database.width))
        (IsNextRow (looked_up database) database.width (begin_behind after) most) }
{
    parts.search(bytes)?.next_row(after, most)
}
