//! A program over the crate `cidr`: it answers questions about IP networks.
#![tactic(auto)]

mod commands;
mod errors;
mod laws;
mod program;
mod report;
mod run;
#[cfg(test)]
mod tests;
mod walks;

use cidr_io::arguments::SystemArguments;
use cidr_io::memory::Heap;
use cidr_io::sink::Tracked;
use program::program;
use std::process::ExitCode;

fn main(rt: HostRuntime) -> ExitCode {
    let (mut out, mut err) = (Tracked::new(rt.stdout()), Tracked::new(rt.stderr()));
    let mut memory = Heap::new(rt.alloc());
    ExitCode::from(program(
        &mut memory,
        &SystemArguments { system: &rt },
        &mut out,
        &mut err,
    ))
}
