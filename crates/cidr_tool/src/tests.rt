//! Runs of the program over writers in memory. `runs/check.sh` has those of the built program.
mod writers;

use crate::errors::ToolError;
use crate::report::report;
use crate::run::run;
use cidr_io::sink::Sink;
use std::io::ErrorKind;
use std::process::Abort;
use std::test::Fail;
use writers::{Trouble, plain, troubled};

/// Arguments of each command, and the answer.
const ANSWERS: [(&[&str], &str); 8] = [
    (
        &["show", "192.0.2.48/28"],
        "network 192.0.2.48/28\nfirst 192.0.2.48\nlast 192.0.2.63\nmask 255.255.255.240\nlength 28\nfamily Ipv4\n",
    ),
    (&["show", "any"], "network any\n"),
    (&["in", "10.0.0.0/8", "11.0.0.0"], "no\n"),
    (&["cmp", "any", "0.0.0.0/0"], "less\n"),
    (
        &["walk", "1.2.3.0/30", "fbb"],
        "1.2.3.0\n1.2.3.3\n1.2.3.2\n",
    ),
    (&["walk", "1.2.3.0/30", ""], ""),
    (&["bytes", "192.0.2.0/24"], "18c0000200\n"),
    (&["loose", "127.1"], "127.0.0.1\n"),
];

#[test]
fn a_slow_writer_gets_the_whole_answer(rt: HostRuntime) -> Result<(), Fail> {
    for (arguments, answer) in ANSWERS {
        let mut slow = troubled(rt.alloc(), 1, 0, Trouble::Zero);
        assert_eq!(rt; run(arguments, &mut slow), Ok(()));
        let slow = slow.into_inner();
        assert_eq!(rt; slow.bytes.as_slice(), answer.as_bytes());
        assert_eq!(rt; slow.calls, answer.len() + 1, "the last call is the flush");
    }
    Ok(())
}

/// Runs these arguments twice on a writer that takes a byte a call and has its trouble at one. The first run ends
/// there, and the second writes nothing.
fn try_trouble(
    rt: &(impl Abort + AllocGlobal),
    arguments: &[&str],
    answer: &str,
    at: usize,
    trouble: Trouble,
) -> Result<(), Fail> {
    let mut out = troubled(rt.alloc(), 1, at, trouble);
    assert_eq!(rt; run(arguments, &mut out), Err(ToolError::Output));
    assert!(rt; out.failed());
    assert_eq!(rt; run(arguments, &mut out), Err(ToolError::Output));
    let written = out.into_inner();
    assert_eq!(rt; written.calls, at, "no call after the trouble");
    assert_eq!(rt; written.bytes.len().saturating_add(1), at);
    assert!(rt; answer.as_bytes().starts_with(written.bytes.as_slice()));
    Ok(())
}

#[test]
fn a_failed_writer_gets_nothing_more(rt: HostRuntime) -> Result<(), Fail> {
    for (arguments, answer) in ANSWERS {
        // the last call is the flush
        for at in 1..answer.len().saturating_add(2) {
            for kind in [ErrorKind::Other, ErrorKind::Interrupted] {
                try_trouble(&rt, arguments, answer, at, Trouble::Error(kind))?;
            }
        }
        for at in 1..answer.len().saturating_add(1) {
            try_trouble(&rt, arguments, answer, at, Trouble::Zero)?;
        }
    }
    Ok(())
}

#[test]
fn each_answer_is_one_write_and_a_flush(rt: HostRuntime) -> Result<(), Fail> {
    for (arguments, answer) in ANSWERS {
        let mut out = plain(rt.alloc());
        assert_eq!(rt; run(arguments, &mut out), Ok(()));
        let calls = if answer.is_empty() { 1 } else { 2 };
        assert_eq!(rt; out.into_inner().calls, calls);
    }
    Ok(())
}

#[test]
fn each_line_of_an_error_is_one_write_and_a_flush(rt: HostRuntime) -> Result<(), Fail> {
    let rows: [&[&str]; 4] = [
        &[],
        &["show", "x"],
        &["show", "::/129"],
        &["in", "any", "x"],
    ];
    for arguments in rows {
        let mut out = plain(rt.alloc());
        let mut err = plain(rt.alloc());
        let answer = run(arguments, &mut out);
        let status = report(&answer, &mut err);
        assert!(rt; status == 1 || status == 2);
        assert_eq!(rt; out.into_inner().calls, 0);
        assert_eq!(rt; err.into_inner().calls, 2);
    }
    Ok(())
}
