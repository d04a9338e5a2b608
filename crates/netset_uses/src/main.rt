//! Whole runs of `netset` over texts in memory, by the public calls of `netset_commands` and proved from their
//! contracts alone: what a run is given tells what it prints.
//!
//! The program makes each of them, and reads a list and prints it; `stdout`, beside `src`, has what is wanted, worked
//! out by hand.
#![tactic(auto)]

mod runs;
mod texts;

use cidr_lists::errors::{LineError, ListError};
use cidr_lists::lines::HostBits;
use cidr_lists::sets::{Form, Sets};
use runs::{
    Finished, acl, acl_for_nft, compared, differences, look, look_as_json, look_by_second,
    match_second, merge, merge_good, merge_twice, same_values, shadowed,
};
use std::alloc::{AllocError, Global};
use std::io;
use std::io::Write;

/// Prints what a run has done: its exit status, and then what it has written to standard output and standard error.
fn tell(rt: &HostRuntime, name: &str, run: Option<Finished>) -> io::Result<()> {
    let Some(run) = run else {
        return println!(rt; "{name}: no memory");
    };
    println!(rt; "{name}: status {}", run.status)?;
    let mut out = rt.stdout();
    out.write_all(run.out.as_slice())?;
    out.write_all(run.err.as_slice())
}

/// Makes each run on lists.
fn tell_lists(rt: &HostRuntime) -> io::Result<()> {
    let alloc = rt.alloc();
    let halves = b"10.128.0.0/9\r\n \t10.0.0.0/9 ; lower\r\n\r\n# nothing";
    tell(rt, "merge", merge(alloc, halves))?;
    let wrong = b"10.0.0.0/8\n10.0.0.1/8\nx\n";
    tell(rt, "merge, a line in error", merge(alloc, wrong))?;
    let some = b"10.128.0.0/9\n10.0.0.1/8\n\nx\n10.0.0.0/9\n::1";
    tell(rt, "merge --skip-bad", merge_good(alloc, some))?;
    let table = b"192.0.2.0/24 the office\n192.0.2.64/26  room #5\n";
    let asked = b"192.0.2.70\n192.0.2.7\n198.51.100.1\n";
    tell(rt, "look", look(alloc, table, asked))?;
    let sites = b"the office,192.0.2.0/24,x\n room #5 , 192.0.2.64/26\n";
    tell(
        rt,
        "look --table-fields",
        look_by_second(alloc, sites, asked),
    )?;
    tell(rt, "look --format json", look_as_json(alloc, table, asked))?;
    let records = b"# time,source\n1, 10.0.0.1 \n2,11.0.0.1\n3,10.2.0.0/16,10.0.0.1";
    tell(rt, "match", match_second(alloc, b"10.0.0.0/8\n", records))?;
    tell(
        rt,
        "diff --format json",
        differences(alloc, b"10.0.0.1\n", b"::1\n"),
    )?;
    let west = b"10.0.0.0/8 west\n10.0.0.0/9 west\n::/0\n";
    let halves = b"10.0.0.0/9 west\n10.128.0.0/9  west\n::/0\n";
    tell(rt, "same", same_values(alloc, west, halves))
}

/// Makes each run on rules.
fn tell_rules(rt: &HostRuntime) -> io::Result<()> {
    let alloc = rt.alloc();
    let rules =
        b"# office\r\ndeny 10.1.0.0/16\npermit 10.0.0.0/15 ; all\npermit 10.1.2.0/24\npermit ::1";
    tell(rt, "acl", acl(alloc, rules))?;
    tell(rt, "acl --shadowed", shadowed(alloc, rules))?;
    let same = b"permit 10.0.0.0/16\npermit ::1\n";
    tell(rt, "acl --diff", compared(alloc, rules, same))?;
    let rules = b"deny 10.1.0.0/16\npermit 10.0.0.0/15\n";
    tell(rt, "acl --format nft", acl_for_nft(alloc, rules))
}

/// Whether a list that is merged is the same merged again.
fn is_same_merged_twice(alloc: Global, list: &[u8]) -> bool {
    match merge_twice(alloc, list) {
        Some((first, second)) => first.as_slice() == second.as_slice(),
        None => false,
    }
}

/// The sets of the addresses of a list, in each form.
fn forms(alloc: Global, sets: &Sets) -> Result<Vec<Vec<u8>>, AllocError> {
    let mut texts = Vec::new(alloc);
    for form in [Form::Networks, Form::Ranges, Form::Counts] {
        texts.push(sets.to_text(alloc, form)?)?;
    }
    Ok(texts)
}

/// Reads a list and prints it in each form.
fn tell_sets(rt: &HostRuntime, list: &[u8]) -> io::Result<()> {
    match Sets::of_text(rt.alloc(), HostBits::Refused, list) {
        Ok(sets) => {
            for text in forms(rt.alloc(), &sets)?.as_slice() {
                rt.stdout().write_all(text.as_slice())?;
            }
            Ok(())
        }
        Err(ListError::Line(number, LineError::Reversed(_))) => {
            println!(rt; "line {number} is a range whose ends are reversed")
        }
        Err(_) => println!(rt; "another error"),
    }
}

fn main(rt: HostRuntime) -> io::Result<()> {
    let list = b"192.0.2.0/25  # ours\r\n\n192.0.2.128-192.0.2.255\n2001:DB8:0::/32";
    tell_sets(&rt, list)?;
    tell_sets(&rt, b"10.0.0.0/8\n\n10.0.0.1-10.0.0.0\nx\n")?;
    let is_same = is_same_merged_twice(rt.alloc(), list);
    println!(&rt; "merged twice, the same: {is_same}")?;
    tell_lists(&rt)?;
    tell_rules(&rt)
}
