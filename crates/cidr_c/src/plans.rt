//! The rows of an address plan: a network, an address or a range a line, with a name behind it.
ghost use Rattle.std.specs.Prelude.{◌≡◌, ◌^◌, ◌<◌, ◌≤◌, List, [], ◌∷◌, length, take, MatchResult, IfOk, OnOk};
ghost use Rattle.std.specs.Bool.{Decides};
ghost use Rattle.std.specs.List.{position_or_len};
ghost use Rattle.cidr.specs.declared.cidr.combined.IpCidr.{IpCidr as Network};
ghost use Rattle.cidr_lists.specs.Lists.{AreContentNetworks, is_line_feed};
ghost use Rattle.cidr_lists.specs.Reading.{listed};
ghost use Rattle.cidr_c.specs.calls.Lists.{host_bits_by};
ghost use Rattle.cidr_c.specs.calls.Plans.{AddsLine, AddsRows, AreOfPlan, IsAddressText, IsBadRow, IsFrontPut, IsPlanRead, IsPlanRow, IsRowMessage, IsRowRead, ip_networks, plan_row, word_end};

use crate::codes::{NO_MEMORY, NO_ROOM, OK, line_code};
use crate::lists::host_bits_by;
use crate::plan_words::{name_at, said_end, word_end};
use crate::printing::print;
use crate::values::{CValue, put_ip_network};
use cidr::{IpAddr, IpCidr};
use cidr_io::lines::{feed_in, is_too_long};
use cidr_io::shown::byte_excerpt;
use cidr_lists::errors::LineError;
use cidr_lists::lines::{Content, HostBits, content_of, without_comment};
use cidr_lists::lists::Lists;
use std::alloc::{AllocError, Global};

/// A row of a plan. Of a range each network of the shortest list of its addresses has one.
#[repr(C)]
#[derive(Clone, Copy)]
pub struct CPlanRow {
    /// The network.
    pub network: CValue,
    /// The number of the line, from 1 on.
    pub line: u64,
    /// Where the name begins in the text, in bytes.
    pub name: usize,
    /// How many bytes the name has.
    pub name_len: usize,
}

/// A line of a plan that is in error.
#[repr(C)]
#[derive(Clone, Copy)]
pub struct CPlanFault {
    /// The number of the line, from 1 on.
    pub line: u64,
    /// Where the line begins in the text, in bytes.
    pub text: usize,
    /// How many bytes the line has.
    pub text_len: usize,
    /// The number of the error.
    pub code: u32,
    /// The last four bytes, which are zero.
    pub zero: u32,
}

/// Whether a string is an address.
fn is_address(bytes: &[u8]) -> bool
    ensures { Decides result (IsAddressText bytes.now) }
{
    let Ok(text) = str::from_utf8(bytes) else {
        return false;
    };
    text.parse::<IpAddr>().is_ok()
}

/// Whether behind the address that a row says another one stands.
fn has_two_addresses(said: &[u8], name: &[u8]) -> bool
    ensures { Decides result (IsAddressText said.now × IsAddressText (take (word_end name.now) name.now)) }
{
    is_address(&name[..word_end(name)]) && is_address(said)
}

/// What a line says of networks, and where its name begins in it and how many bytes that has.
fn row_in(host_bits: HostBits, line: &[u8]) -> Result<(Content, (usize, usize)), LineError>
    ensures row { MatchResult result (λ row. IsRowRead host_bits line.now row.0 row.1) (IsBadRow host_bits line.now) }
    ensures near { IfOk result (λ row. row.1.0 ≤ 2097152) }
{
    if is_too_long(line) {
        return Err(LineError::TooLong);
    }
    let row = without_comment(line).trim_ascii();
    let said = &row[..said_end(row)];
    let content = match content_of(host_bits, said) {
        Ok(content) => content,
        Err(e) => return Err(e),
    };
    let at = name_at(row);
    let name = &row[at..];
    if has_two_addresses(said, name) {
        return Err(LineError::RangeRow(byte_excerpt(said)));
    }
    let indent = line.len() - line.trim_ascii_start().len();
    Ok((content, (indent + at, name.len())))
}

/// A row as C has it.
fn row_of(network: &IpCidr, place: (u64, (usize, usize))) -> CPlanRow
    ensures is_row { IsPlanRow result }
    ensures row { plan_row result ≡ (network.now, place) }
{
    let (line, (name, name_len)) = place;
    let mut row = CPlanRow {
        network: CValue {
            high: 0,
            low: 0,
            tag: 0,
            zero_17: 0,
            zero_18: 0,
            zero_20: 0,
        },
        line,
        name,
        name_len,
    };
    put_ip_network(network, &mut row.network);
    row
}

/// Adds a row.
fn push_row(
    rows: &mut Vec<CPlanRow>,
    network: &IpCidr,
    place: (u64, (usize, usize)),
) -> Result<(), AllocError>
    ensures { OnOk result (AddsRows rows.old.items rows.new.items (network.now ∷ []) place) }
{
    rows.push(row_of(network, place))?;
    Ok(())
}

/// Adds a row for each network of lists, those of IPv4 first.
fn push_lists(
    rows: &mut Vec<CPlanRow>,
    lists: &Lists,
    place: (u64, (usize, usize)),
) -> Result<(), AllocError>
    ensures { OnOk result (AddsRows rows.old.items rows.new.items (ip_networks (listed lists.now)) place) }
{
    for network in lists.v4.as_slice() {
        push_row(rows, &IpCidr::V4(*network), place)?;
    }
    for other in lists.v6.as_slice() {
        push_row(rows, &IpCidr::V6(*other), place)?;
    }
    Ok(())
}

/// Adds a row for each network of what a line says.
fn push_content(
    alloc: Global,
    rows: &mut Vec<CPlanRow>,
    content: &Content,
    place: (u64, (usize, usize)),
) -> Result<(), AllocError>
    ensures { OnOk result ((networks : List Network) × AreContentNetworks content.now networks
        × AddsRows rows.old.items rows.new.items networks place) }
{
    // most lines say one network, for which nothing else is allocated
    if let Content::Network(network) = content {
        push_row(rows, network, place)?;
        return Ok(());
    }
    let mut lists = Lists::new(alloc);
    lists.push_content(alloc, content)?;
    push_lists(rows, &lists, place)?;
    Ok(())
}

/// Adds what a line of this number tells, which begins at this byte of the text.
fn push_line(
    alloc: Global,
    host_bits: HostBits,
    line: &[u8],
    number: u64,
    at: usize,
    rows: &mut Vec<CPlanRow>,
    faults: &mut Vec<CPlanFault>,
) -> Result<(), AllocError>
    requires { at < 2 ^ 63 }
    ensures { OnOk result (AddsLine host_bits number at line.now rows.old.items rows.new.items faults.old.items faults.new.items) }
{
    match row_in(host_bits, line) {
        Ok((content, name)) => {
            push_content(alloc, rows, &content, (number, (at + name.0, name.1)))?;
            Ok(())
        }
        Err(e) => {
            faults.push(CPlanFault {
                line: number,
                text: at,
                text_len: line.len(),
                code: line_code(&e),
                zero: 0,
            })?;
            Ok(())
        }
    }
}

/// How many bytes the first line has, without its line feed.
fn line_len(text: &[u8]) -> usize
    ensures first { result ≡ position_or_len is_line_feed text.now }
    ensures fits { result ≤ length text.now }
{
    feed_in(text).unwrap_or(text.len())
}

/// The rows of a text, and its lines in error.
fn read(
    alloc: Global,
    host_bits: HostBits,
    text: &[u8],
) -> Result<(Vec<CPlanRow>, Vec<CPlanFault>), AllocError>
    ensures { IfOk result (λ read. AreOfPlan host_bits text.now read.0.items read.1.items) }
{
    let mut rows = Vec::new(alloc);
    let mut faults = Vec::new(alloc);
    let mut rest = text;
    let mut number = 1;
    let mut at = 0;
    loop {
        let (line, behind) = rest.split_at(line_len(rest));
        push_line(alloc, host_bits, line, number, at, &mut rows, &mut faults)?;
        let Some((_, next)) = behind.split_first() else {
            return Ok((rows, faults));
        };
        at += line.len() + 1;
        number += 1;
        rest = next;
    }
}

/// Puts as much of a list to the front of a room as there is room for, and tells how long the list is.
fn put_front<T: Copy>(list: &[T], out: &mut [T], count: &mut usize)
    ensures { IsFrontPut list.now out.old out.new count.new }
{
    *count = list.len();
    if out.len() < list.len() {
        let len = out.len();
        out.copy_from_slice(&list[..len]);
    } else {
        out[..list.len()].copy_from_slice(list);
    }
}

/// Reads the rows of an address plan: a network, an address or a range a line, as `pcidr_read_list` reads it, with a name
/// behind it. As many rows as there is room for stand in `rows`, in the order of the lines, and as many lines in error in
/// `faults`; `count` and `wrong` become how many there are. 0, or the number of too little room for either; or that of no
/// memory, and all is as it was.
///
/// White space or a comma stands before the name, which goes on to a comment or the end of the line. Where the first hyphen of a
/// line is in its first word or next behind it, the line says a range. An address with another one behind it is in error, since
/// that may be a mask or the end of a range. It takes time in the length of the text.
#[unsafe(no_mangle)]
pub extern "C" fn pcidr_read_plan(
    alloc: Global,
    text: &[u8],
    host_bits: u32,
    rows: &mut [CPlanRow],
    count: &mut usize,
    faults: &mut [CPlanFault],
    wrong: &mut usize,
) -> u32
    ensures { IsPlanRead (host_bits_by host_bits) text.now rows.old rows.new count.old count.new faults.old faults.new
        wrong.old wrong.new result }
{
    let Ok((all, bad)) = read(alloc, host_bits_by(host_bits), text) else {
        return NO_MEMORY;
    };
    put_front(all.as_slice(), rows, count);
    put_front(bad.as_slice(), faults, wrong);
    if rows.len() < all.len() || faults.len() < bad.len() {
        return NO_ROOM;
    }
    OK
}

/// Writes the message of a line of a plan that is in error, and returns the number of the error; 0 for one that is in none,
/// and writes nothing.
#[unsafe(no_mangle)]
pub extern "C" fn pcidr_plan_message(line: &[u8], host_bits: u32, message: &mut [u8]) -> u32
    ensures { IsRowMessage (host_bits_by host_bits) line.now message.old message.new result }
{
    match row_in(host_bits_by(host_bits), line) {
        Ok(_) => OK,
        Err(e) => {
            print(e.message().as_str(), message);
            line_code(&e)
        }
    }
}
