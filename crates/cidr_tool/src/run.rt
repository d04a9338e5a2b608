//! Answering the commands.
ghost use Rattle.std.specs.Prelude.{◌≡◌, ◌≤◌, ◌<◌, ◌+◌, ◌++◌, length, map, decimal, codes, if◌then◌else◌};
ghost use Rattle.cidr.specs.model.Bits.{bit_cmp};
ghost use Rattle.cidr.specs.either.IpNetwork.{any_bits};
ghost use Rattle.cidr.specs.texts.PrintedAddress.{ip_text};
ghost use Rattle.cidr_tool.specs.Answer.{Answers, AnswersRequest, Show, Holds, Compare, Walk, Bytes, Loose, named_line, show_text, ip_show_text, order_text, show_family, hex_byte, hex_text};

use crate::commands::{Command, command_of};
use crate::errors::ToolError;
use crate::walks::{Ends, write_walk};
use arrayvec::ArrayString;
use cidr::parsers::parse_loose_ip;
use cidr::{AnyIpCidr, Family, IpAddr, IpCidr};
use cidr_io::decimal::decimal_text;
use cidr_io::shown::hex_digit;
use cidr_io::sink::Sink;
use cidr_io::writing::write_text;
use std::cmp::Ordering;

/// The most bytes of an answer to `show`: 44 of names and line feeds, 43 of the network, three addresses of 39, a
/// length of 3 and a family of 4.
const MOST_SHOWN: usize = 211;

/// An answer to `show`.
type Shown = ArrayString<MOST_SHOWN>;

/// Appends a line: a name and its value.
fn push_line(text: &mut Shown, name: &str, value: &str)
    requires { length text.old.bytes + (length name.now + (length value.now + 1)) ≤ 211 }
    ensures line { text.new.bytes ≡ text.old.bytes ++ named_line name.now value.now }
    ensures len { length text.new.bytes ≡ length text.old.bytes + (length name.now + (length value.now + 1)) }
{
    text.push_str(name);
    text.push_str(value);
    text.push_str("\n");
}

/// What there is to say of a network of either family.
fn shown_network(text: &str, network: &IpCidr) -> Shown
    requires { length text.now ≤ 43 }
    ensures { result.bytes ≡ ip_show_text text.now network.now }
{
    let mut shown = Shown::new();
    push_line(&mut shown, "network ", text);
    push_line(
        &mut shown,
        "first ",
        network.first_address().to_text().as_str(),
    );
    push_line(
        &mut shown,
        "last ",
        network.last_address().to_text().as_str(),
    );
    push_line(&mut shown, "mask ", network.mask().to_text().as_str());
    push_line(
        &mut shown,
        "length ",
        decimal_text(u128::from(network.network_length())).as_str(),
    );
    push_line(&mut shown, "family ", variant_name(network.family()));
    shown
}

/// The name of the variant of a family.
fn variant_name(family: Family) -> &'static str
    ensures name { result.now ≡ show_family family }
    ensures len { length result.now ≡ 4 }
{
    match family {
        Family::Ipv4 => "Ipv4",
        Family::Ipv6 => "Ipv6",
    }
}

/// What there is to say of a network.
fn shown(network: &AnyIpCidr) -> Shown
    ensures { result.bytes ≡ show_text network.now }
{
    let text = network.to_text();
    if let Some(specific) = Option::<IpCidr>::from(*network) {
        return shown_network(text.as_str(), &specific);
    }
    let mut shown = Shown::new();
    push_line(&mut shown, "network ", text.as_str());
    shown
}

/// The command `show`.
fn show<S: Sink>(net: &str, out: &mut S) -> Result<(), ToolError>
    ensures { AnswersRequest (Show net.now) (S.state out.old) (S.state out.new) result }
{
    let network = net.parse::<AnyIpCidr>()?;
    Ok(write_text(out, shown(&network).as_str())?)
}

/// The command `in`.
fn holds<S: Sink>(net: &str, text: &str, out: &mut S) -> Result<(), ToolError>
    ensures { AnswersRequest (Holds net.now text.now) (S.state out.old) (S.state out.new) result }
{
    let holder = net.parse::<AnyIpCidr>()?;
    let address = text.parse::<IpAddr>()?;
    Ok(write_text(out, yes_or_no(holder.contains(&address)))?)
}

/// The line that answers a question of yes or no.
fn yes_or_no(answer: bool) -> &'static str
    ensures { result.now ≡ (if answer then codes "yes\n" else codes "no\n") }
{
    if answer { "yes\n" } else { "no\n" }
}

/// The command `cmp`.
fn compare<S: Sink>(left: &str, right: &str, out: &mut S) -> Result<(), ToolError>
    ensures { AnswersRequest (Compare left.now right.now) (S.state out.old) (S.state out.new) result }
{
    let first = left.parse::<AnyIpCidr>()?;
    let second = right.parse::<AnyIpCidr>()?;
    Ok(write_text(out, order_name(order_of(&first, &second)))?)
}

/// The order of two networks, which is that of their bits.
fn order_of(left: &AnyIpCidr, right: &AnyIpCidr) -> Ordering
    ensures { result ≡ bit_cmp (any_bits left.now) (any_bits right.now) }
{
    left.cmp(right)
}

/// The line that names an order.
fn order_name(order: Ordering) -> &'static str
    ensures { result.now ≡ order_text order }
{
    match order {
        Ordering::Less => "less\n",
        Ordering::Equal => "equal\n",
        Ordering::Greater => "greater\n",
    }
}

/// The command `walk`.
fn walk<S: Sink>(net: &str, ends: &Ends, out: &mut S) -> Result<(), ToolError>
    ensures { AnswersRequest (Walk net.now ends.now) (S.state out.old) (S.state out.new) result }
{
    let network = net.parse::<IpCidr>()?;
    write_walk(&network, ends.as_slice(), out)
}

/// Two digits for each of 17 compact bytes, and a line feed.
const MOST_HEX: usize = 35;

/// Appends the two digits of a byte.
fn push_byte(line: &mut ArrayString<MOST_HEX>, byte: u8)
    requires { length line.old.bytes + 2 ≤ 35 }
    ensures { line.new.bytes ≡ line.old.bytes ++ hex_byte byte }
{
    line.push(hex_digit(byte / 16));
    line.push(hex_digit(byte % 16));
}

/// The line of bytes in hexadecimal.
fn hex_line(bytes: &[u8]) -> ArrayString<MOST_HEX>
    requires { length bytes.now ≤ 17 }
    ensures { result.bytes ≡ hex_text bytes.now ++ codes "\n" }
{
    let mut line = ArrayString::new();
    for byte in bytes {
        push_byte(&mut line, *byte);
    }
    line.push('\n');
    line
}

/// The command `bytes`.
fn bytes<S: Sink>(net: &str, out: &mut S) -> Result<(), ToolError>
    ensures { AnswersRequest (Bytes net.now) (S.state out.old) (S.state out.new) result }
{
    let value = net.parse::<AnyIpCidr>()?;
    Ok(write_text(out, hex_line(value.to_compact().as_slice()).as_str())?)
}

/// The longest string of an address, and a line feed.
const MOST_LINE: usize = 40;

/// The line of an address.
fn address_line(address: &IpAddr) -> ArrayString<MOST_LINE>
    ensures { result.bytes ≡ ip_text address.now ++ codes "\n" }
{
    let mut line = ArrayString::new();
    line.push_str(address.to_text().as_str());
    line.push_str("\n");
    line
}

/// The command `loose`.
fn loose<S: Sink>(text: &str, out: &mut S) -> Result<(), ToolError>
    ensures { AnswersRequest (Loose text.now) (S.state out.old) (S.state out.new) result }
{
    let address = parse_loose_ip(text)?;
    Ok(write_text(out, address_line(&address).as_str())?)
}

/// Answers the program's arguments, which come without its name.
///
/// Whether they are a command is found first, then the first argument that is rejected, and only then is anything
/// written.
pub fn run<S: Sink>(words: &[&str], out: &mut S) -> Result<(), ToolError>
    ensures { Answers (map (λ w. w.now) words.now) (S.state out.old) (S.state out.new) result }
{
    let Some(command) = command_of(words) else {
        return Err(ToolError::Usage);
    };
    match &command {
        Command::Show(net) => show(net, out),
        Command::Holds(net, address) => holds(net, address, out),
        Command::Compare(left, right) => compare(left, right, out),
        Command::Walk(net, ends) => walk(net, ends, out),
        Command::Bytes(net) => bytes(net, out),
        Command::Loose(text) => loose(text, out),
    }
}
