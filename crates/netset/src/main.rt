//! A program for lists of networks.
#![tactic(auto)]

use cidr_io::arguments::SystemArguments;
use cidr_io::memory::Heap;
use cidr_io::sink::Tracked;
use netset_commands::input::files::System;
use netset_commands::output::folder::Beside;
use netset_commands::output::terminal::{Erasing, Progress};
use netset_commands::program::program;
use std::io::IsTerminal;
use std::process::ExitCode;

fn main(rt: HostRuntime) -> ExitCode {
    // answers on the same terminal would stand beside what is shown
    let shows = rt.stderr().is_terminal() && !rt.stdout().is_terminal();
    let progress = Progress::new(&rt, shows);
    let mut out = Tracked::new(Erasing {
        out: rt.stdout(),
        progress: &progress,
    });
    let mut err = Tracked::new(Erasing {
        out: rt.stderr(),
        progress: &progress,
    });
    let sources = System {
        runtime: &rt,
        progress: &progress,
    };
    let mut folder = Beside {
        runtime: &rt,
        refused: None,
    };
    let arguments = SystemArguments { system: &rt };
    let mut memory = Heap::new(rt.alloc());
    ExitCode::from(program(
        &mut memory,
        &arguments,
        &sources,
        &mut folder,
        &mut out,
        &mut err,
    ))
}
