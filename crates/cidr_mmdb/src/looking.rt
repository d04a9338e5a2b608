//! Looking an address up.
ghost use Rattle.std.specs.Prelude.{◌≡◌, take};
ghost use Rattle.cidr.specs.model.Bits.{number};
ghost use Rattle.cidr.specs.model.Network.{width_of};
ghost use Rattle.cidr_mmdb.specs.LookUps.{looked_up};
ghost use Rattle.cidr_mmdb.specs.PartNumbers.{AreParts};
ghost use Rattle.cidr_mmdb.specs.declared.database.Database.{Database};

use crate::database::Database;
use crate::found::Found;
use crate::parts::Parts;
use cidr::FamilyCidr;

/// What a file has for an address.
#[derive(Debug, Clone, Copy, Drop)]
pub struct Answer<C: FamilyCidr> {
    /// The network that the search tree has the address in: what is found holds for all its addresses.
    pub network: C,
    /// What is found.
    pub found: Found,
}

/// What a file has for an address. An IPv4 address in a tree of IPv6 is one below ::/96 (IPv4 addresses in an IPv6 tree); where the walk
/// ends before all of these 96 bits are read, the network is 0.0.0.0/0. In a tree of IPv4 there is nothing for an IPv6 address, of
/// ::/0.
///
/// It takes a step for each bit of the address that it reads, at most 32 of IPv4 and 128 of IPv6, and allocates nothing.
///
/// ```
/// let answer = lookup::<Ipv4Cidr>(&database, "10.1.2.3".parse()?);
/// answer.network // 0.0.0.0/1
/// answer.found // Value(0)
/// ```
pub fn lookup<C: FamilyCidr>(database: &Database<'_>, address: C::Address) -> Answer<C>
    ensures found { result.found ≡ (looked_up database.now (width_of C.FAMILY) (number (C.Address.bits address))).0 }
    ensures network { C.bits result.network ≡ take (looked_up database.now (width_of C.FAMILY) (number (C.Address.bits address))).1 (C.Address.bits address) }
{
    database.search().answer::<C>(address)
}

/// The same in the bytes of a file whose parts are kept as numbers. Whatever bytes and numbers are given, it reads nothing outside of the
/// bytes; with those of no file, what it finds says nothing.
///
/// ```
/// let parts = open(&bytes)?.parts();
/// lookup_in::<Ipv4Cidr>(&bytes, &parts, "10.1.2.3".parse()?).found // Value(0)
/// ```
pub fn lookup_in<C: FamilyCidr>(bytes: &[u8], parts: &Parts, address: C::Address) -> Answer<C>
    ensures found { (database : Database) → AreParts bytes.now parts.now database → result.found ≡ (looked_up database (width_of C.FAMILY) (number (C.Address.bits address))).0 }
    ensures network { (database : Database) → AreParts bytes.now parts.now database → C.bits result.network ≡ take (looked_up database (width_of C.FAMILY) (number (C.Address.bits address))).1 (C.Address.bits address) }
{
    let Some(search) = parts.search(bytes) else {
        let mut network = C::new_host(address);
        network.clip(0);
        return Answer {
            network,
            found: Found::Nothing,
        };
    };
    search.answer::<C>(address)
}
