//! Prints, a line each, what calls return that may be refused memory. `.ci/no_memory` refuses each of their allocations in
//! turn.
#![tactic(auto)]

mod growths;

use std::io;

fn main(rt: HostRuntime) -> io::Result<()> {
    growths::write(&rt)
}
