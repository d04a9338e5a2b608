//! Texts of networks, one a line.
ghost use Rattle.std.specs.Prelude.{◌≡◌, ◌+◌, ◌≤◌, ◌++◌, ◌∷◌, [], drop, length, take, IfSome, MatchOption};
ghost use Rattle.cidr_c.specs.calls.Lines.{AreLinesPrinted, AreLinesRead, IsFirstLine, IsLineRead};

use crate::codes::{NO_ROOM, NO_VALUE, OK};
use crate::reading::pcidr_read_network;
use crate::values::{CValue, value_network};
use cidr_io::lines::feed_in;

/// Reads networks, one a line, into the front of a room, and says how many lines that were: 0 at the end of the text,
/// else the number of the error of the line that comes next, or that the room is full.
///
/// Lines are separated by line feeds, so that the last one has none behind it.
#[unsafe(no_mangle)]
pub extern "C" fn pcidr_read_lines(text: &[u8], out: &mut [CValue], count: &mut usize) -> u32
    ensures { AreLinesRead text.now out.old out.new count.new result }
{
    let mut n = 0;
    let mut rest = text;
    let mut more = true;
    while more {
        let (line, behind, has_more) = first_line(rest);
        let code = read_into(line, out, n);
        if code != OK {
            *count = n;
            return code;
        }
        n += 1;
        rest = behind;
        more = has_more;
    }
    *count = n;
    OK
}

/// The first line of a text, what is behind its line feed, and whether it has one.
fn first_line(text: &[u8]) -> (&[u8], &[u8], bool)
    ensures { IsFirstLine text.now result.0.now result.1.now result.2 }
{
    match feed_in(text) {
        Some(place) => (&text[..place], &text[place + 1..], true),
        None => (text, &[], false),
    }
}

/// Reads a network into a place of a room, if it has that place.
fn read_into(line: &[u8], out: &mut [CValue], place: usize) -> u32
    ensures { IsLineRead line.now place out.old out.new result }
{
    if place >= out.len() {
        return NO_ROOM;
    }
    pcidr_read_network(line, &mut out[place])
}

/// Prints networks, one a line and each with a line feed behind it: 0, and `count` becomes how many bytes these are.
/// Else the number of the first value's error: it is no network, or there is too little room for its line; then `count`
/// is as it was, and what `out` has isn't told.
#[unsafe(no_mangle)]
pub extern "C" fn pcidr_print_lines(networks: &[CValue], out: &mut [u8], count: &mut usize) -> u32
    ensures { AreLinesPrinted networks.now out.old out.new count.old count.new result }
{
    let mut end = 0;
    for value in networks {
        let Some(network) = value_network(value) else {
            return NO_VALUE;
        };
        match print_line(network.to_text().as_str(), out, end) {
            Some(next) => end = next,
            None => return NO_ROOM,
        }
    }
    *count = end;
    OK
}

/// Writes a string and a line feed from a place on, if there is room for both, and returns where they end.
fn print_line(text: &str, out: &mut [u8], at: usize) -> Option<usize>
    requires { at ≤ length out.old }
    ensures line { MatchOption result (out.new ≡ out.old) (λ end. (end ≤ length out.new)
        × (take end out.new ≡ take at out.old ++ (text.now ++ 10 ∷ []))) }
    ensures room { MatchOption result (length out.old ≤ at + length text.now) (λ end. end ≡ at + length text.now + 1) }
    ensures behind { IfSome result (λ end. drop end out.new ≡ drop end out.old) }
    ensures size { length out.new ≡ length out.old }
{
    let bytes = text.as_bytes();
    if out.len() - at <= bytes.len() {
        return None;
    }
    let end = at + bytes.len();
    out[at..end].copy_from_slice(bytes);
    out[end] = b'\n';
    Some(end + 1)
}
