//! Printing the groups of an IPv6 address into a string of a fixed capacity.
ghost use Rattle.std.specs.Prelude.{◌≡◌, ◌+◌, ◌*◌, ◌-◌, ◌<◌, ◌≤◌, ◌==◌, ◌++◌, length, map};
ghost use Rattle.std.specs.Net.Text.{hex, groups_text, longest_zero_run, hex_groups_text};
ghost use Rattle.cidr.specs.model.Bits.{number};

use crate::addr::hex::{hex_digit, hex_pair};
use arrayvec::ArrayString;

/// Appends the group in hexadecimal, without leading zeros.
#[inline(always)]
#[tactic(auto, using(crate::proofs::HexPrinting::hex_laws))]
fn push_hex<const CAP: usize>(text: &mut ArrayString<CAP>, group: u16)
    requires { length text.old.bytes + 4 ≤ CAP }
    ensures bytes { text.new.bytes ≡ text.old.bytes ++ hex group }
    ensures len { length text.new.bytes ≤ length text.old.bytes + 4 }
{
    let high = (group / 0x100) as u8;
    let low = (group % 0x100) as u8;
    if group >= 0x1000 {
        text.push_str(hex_pair(high));
        text.push_str(hex_pair(low));
    } else if group >= 0x100 {
        text.push_str(hex_digit(high));
        text.push_str(hex_pair(low));
    } else if group >= 0x10 {
        text.push_str(hex_pair(low));
    } else {
        text.push_str(hex_digit(low));
    }
}

/// Appends the groups with colons between them.
#[inline(always)]
#[tactic(auto, using(crate::proofs::HexPrinting::group_text_laws))]
fn push_groups<const CAP: usize>(text: &mut ArrayString<CAP>, groups: &[u16])
    requires { length text.old.bytes + (5 * length groups.now - 1) ≤ CAP }
    ensures bytes { text.new.bytes ≡ text.old.bytes ++ groups_text groups.now }
    ensures len { length text.new.bytes ≤ length text.old.bytes + (5 * length groups.now - 1) }
{
    if let [first, rest @ ..] = groups {
        push_hex(text, *first);
        for group in rest {
            text.push(':');
            push_hex(text, *group);
        }
    }
}

/// The longest run of zeros among eight groups, for each number with a bit that is set for each zero, the highest one
/// for the first group. The first hexadecimal digit is where the run starts, the second its length. A table has no
/// branch to mispredict.
static RUNS: [u8; 256] = *b"\
    \x00\x71\x61\x62\x51\x51\x52\x53\x41\x41\x41\x62\x42\x42\x43\x44\
    \x31\x31\x31\x62\x31\x31\x52\x53\x32\x32\x32\x32\x33\x33\x34\x35\
    \x21\x21\x21\x62\x21\x21\x52\x53\x21\x21\x21\x62\x42\x42\x43\x44\
    \x22\x22\x22\x22\x22\x22\x22\x53\x23\x23\x23\x23\x24\x24\x25\x26\
    \x11\x11\x11\x62\x11\x11\x52\x53\x11\x11\x11\x62\x42\x42\x43\x44\
    \x11\x11\x11\x62\x11\x11\x52\x53\x32\x32\x32\x32\x33\x33\x34\x35\
    \x12\x12\x12\x12\x12\x12\x12\x53\x12\x12\x12\x12\x12\x12\x43\x44\
    \x13\x13\x13\x13\x13\x13\x13\x13\x14\x14\x14\x14\x15\x15\x16\x17\
    \x01\x01\x01\x62\x01\x01\x52\x53\x01\x01\x01\x62\x42\x42\x43\x44\
    \x01\x01\x01\x62\x01\x01\x52\x53\x32\x32\x32\x32\x33\x33\x34\x35\
    \x01\x01\x01\x62\x01\x01\x52\x53\x01\x01\x01\x62\x42\x42\x43\x44\
    \x22\x22\x22\x22\x22\x22\x22\x53\x23\x23\x23\x23\x24\x24\x25\x26\
    \x02\x02\x02\x02\x02\x02\x02\x53\x02\x02\x02\x02\x02\x02\x43\x44\
    \x02\x02\x02\x02\x02\x02\x02\x53\x02\x02\x02\x02\x33\x33\x34\x35\
    \x03\x03\x03\x03\x03\x03\x03\x03\x03\x03\x03\x03\x03\x03\x03\x44\
    \x04\x04\x04\x04\x04\x04\x04\x04\x05\x05\x05\x05\x06\x06\x07\x08";

/// Which of the groups are zeros, as a number with a bit for each group, the highest for the first.
#[inline(always)]
#[tactic(auto, using(crate::proofs::ZeroRuns::place_laws))]
fn zero_places(groups: &[u16]) -> usize
    requires { length groups.now ≡ 8 }
    ensures value { result ≡ number (map (λ g. g == 0) groups.now) }
    ensures fits { result < 256 }
{
    let mut places = 0;
    for group in groups {
        places = 2 * places + if *group == 0 { 1 } else { 0 };
    }
    places
}

/// The start and the length of the longest run of zeros, the first one of that length.
#[inline(always)]
#[tactic(auto, using(crate::proofs::ZeroRuns::run_laws))]
fn longest_run(groups: &[u16]) -> (usize, usize)
    requires { length groups.now ≡ 8 }
    ensures value { result ≡ longest_zero_run groups.now }
    ensures fits { result.0 + result.1 ≤ length groups.now }
{
    let run = RUNS[zero_places(groups)];
    (usize::from(run / 16), usize::from(run % 16))
}

/// Appends eight groups, the longest run of two zeros or more as `::`.
#[inline(always)]
#[tactic(auto, unfolding(std::specs::Net::Text::hex_groups_text))]
pub(crate) fn push_hex_groups<const CAP: usize>(text: &mut ArrayString<CAP>, groups: &[u16])
    requires eight { length groups.now ≡ 8 }
    requires room { length text.old.bytes + 39 ≤ CAP }
    ensures bytes { text.new.bytes ≡ text.old.bytes ++ hex_groups_text groups.now }
    ensures len { length text.new.bytes ≤ length text.old.bytes + 39 }
{
    let (start, len) = longest_run(groups);
    if len > 1 {
        push_groups(text, &groups[..start]);
        text.push_str("::");
        push_groups(text, &groups[start + len..]);
    } else {
        push_groups(text, groups);
    }
}
