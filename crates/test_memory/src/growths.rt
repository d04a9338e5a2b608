//! Calls that may be refused memory. One that is refused leaves all as it was and is made once more, so that the lines
//! are the same whichever allocation is refused. `.ci/no_memory` refuses each of them in turn.

mod forwarding;
mod loading;
mod ready;
mod rules;
mod sets;
mod tables;

use cidr::{Ipv4Addr, Ipv4Cidr};
use std::alloc::AllocError;
use std::io;

/// The IPv4 network at a number, whose bits behind the prefix are zeros.
fn block(first: u32, len: u8) -> Ipv4Cidr {
    let address = Ipv4Addr::from_bits(first);
    match Ipv4Cidr::new(address, len) {
        Ok(network) => network,
        Err(_) => Ipv4Cidr::new_host(address),
    }
}

/// Numbers of first addresses, and prefix lengths.
type Blocks = &'static [(u32, u8)];

/// Whether these are the blocks.
fn are_blocks(networks: &[Ipv4Cidr], wanted: Blocks) -> bool {
    let mut same = networks.len() == wanted.len();
    for (network, (first, len)) in networks.iter().zip(wanted) {
        same &= *network == block(*first, *len);
    }
    same
}

/// What is printed of calls of which each is to succeed in the end, and to return what is wanted.
fn outcome(held: Result<bool, AllocError>) -> &'static str {
    match held {
        Ok(true) => "as wanted",
        Ok(false) => "NOT AS WANTED",
        Err(AllocError) => "REFUSED TWICE",
    }
}

/// Prints, a line each, what these calls return.
pub fn write(rt: &HostRuntime) -> io::Result<()> {
    let rows = [
        ("insert", tables::insert(rt.alloc())),
        ("capacity and reserve", tables::reserve(rt.alloc())),
        ("clone", tables::clone(rt.alloc())),
        ("from_rows", tables::from_rows(rt.alloc())),
        ("load", loading::load(rt.alloc())),
        ("load of many prefixes", loading::load_many(rt.alloc())),
        ("sets of two sets", sets::algebra(rt.alloc())),
        ("insert and remove of a set", sets::changes(rt.alloc())),
        ("remove of a part", sets::part(rt.alloc())),
        ("insert in place of others", sets::joins(rt.alloc())),
        ("from_range", sets::range(rt.alloc())),
        ("access lists", rules::access_lists(rt.alloc())),
        ("smallest tables", forwarding::smallest(rt.alloc())),
        ("a table made ready", ready::table(rt.alloc())),
        ("networks made ready", ready::set(rt.alloc())),
    ];
    for (call, held) in rows {
        println!(rt; "{call}: {}", outcome(held))?;
    }
    Ok(())
}
