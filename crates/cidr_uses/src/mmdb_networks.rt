//! The addresses of the network that a MaxMind DB file tells of an address have one answer.
ghost use Rattle.std.specs.Prelude.{IsTrue, take};
ghost use Rattle.cidr.specs.model.Bits.{number};
ghost use Rattle.cidr.specs.model.Network.{BeginsWith, width_of};
ghost use Rattle.cidr_mmdb.specs.LookUps.{looked_up};

use cidr::FamilyCidr;
use cidr_mmdb::laws::one_answer;
use cidr_mmdb::{Database, lookup};

/// Always true: what a file has for an address it has for each address of the network that it tells, so that a cache of
/// networks gives the answers of the file.
pub fn has_one_answer<C: FamilyCidr>(
    database: &Database<'_>,
    address: C::Address,
    other: C::Address,
) -> bool
    requires { BeginsWith (C.Address.bits other) (take (looked_up database.now (width_of C.FAMILY) (number (C.Address.bits address))).1 (C.Address.bits address)) }
    ensures { IsTrue result }
{
    one_answer();
    C::to_number(address);
    C::to_number(other);
    let answer = lookup::<C>(database, address);
    lookup::<C>(database, other).found == answer.found
}
