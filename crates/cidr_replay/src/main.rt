//! Replays operations on the crates `cidr`, `cidr_table`, `cidr_sets` and `cidr_ext`, as the kit builds them: it reads one
//! a line and writes an answer line for each.
//!
//! `rust/replay/README.md` has the format, and which lines this program knows. Of a line that is none it says so.
#![tactic(auto)]

mod addresses;
mod answer;
mod bits;
mod bytes;
mod conversions;
mod errors;
mod further;
mod hosts;
mod networks;
mod operations;
mod pairs;
mod parsers;
mod sets;
mod sizes;
mod tables;
mod tokens;

use answer::Answer;
use operations::respond;
use std::io;
use std::io::{BufRead, BufReader, BufWriter, Write};

/// Writes one answer line for each line of standard input, in order.
fn main(rt: HostRuntime) -> io::Result<()> {
    let alloc = rt.alloc();
    let mut reader = BufReader::new(alloc, rt.reader())?;
    let mut writer = BufWriter::new(alloc, io::writer(&rt))?;
    let mut line = Vec::new(alloc);
    let mut answer = Answer::new(alloc);
    for _ in 0..u64::MAX {
        line.clear();
        if reader.read_until(b'\n', &mut line)? == 0 {
            break;
        }
        answer.begin();
        if respond(alloc, line.as_slice(), &mut answer).is_none() {
            answer.begin();
            answer.show(&"unsupported");
        }
        writer.write_all(answer.line()?)?;
    }
    writer.flush()
}
