//! The command `walk`: the ends that letters name, and the lines that answer them.
ghost use Rattle.std.specs.Prelude.{◌≡◌, ◌≤◌, ◌+◌, ◌++◌, List, length, map, option_map, MatchOption};
ghost use Rattle.std.specs.List.{flat_map};
ghost use Rattle.cidr.specs.either.IpAddress.{address_family, plain_bits};
ghost use Rattle.cidr.specs.model.Views.{in_family};
ghost use Rattle.cidr_tool.specs.Walking.{NamesEnds, letter, most_ends, answer_line, walk_text};
ghost use Rattle.cidr_tool.specs.Writing.{IsAnswerWritten};
ghost use Rattle.cidr.specs.declared.inet_iterator.driving.End.{End as AnEnd};

use crate::errors::ToolError;
use arrayvec::ArrayString;
use cidr::{End, IpAddr, IpCidr, drive};
use cidr_io::sink::Sink;
use cidr_io::writing::write_text;
use std::marker::Model;

/// The most ends that an argument names.
const MOST_ENDS: usize = 256;

/// The lines of as many answers as there can be, of which the longest has 39 bytes and a line feed.
type WalkLines = ArrayString<10240>;

/// Ends of a walk, in order.
#[derive(Drop)]
pub struct Ends {
    places: [End; MOST_ENDS],
    count: usize,
}

impl Model for Ends {
    ghost use Rattle.std.specs.Prelude.{List, take, ◌≤◌};
    ghost use Rattle.cidr.specs.declared.inet_iterator.driving.End.{End as AnEnd};

    ghost Value = { List AnEnd };

    ghost view = { λ e. take e.count e.places };

    ghost invariant = { λ e. e.count ≤ 256 };
}

impl Ends {
    /// The ends that the string names, letter by letter: `f` is the front and `b` the back.
    pub fn named_by(text: &str) -> Option<Ends>
        ensures { MatchOption result ((ends : List AnEnd) → ¬ (NamesEnds text.now ends)) (NamesEnds text.now) }
    {
        let letters = text.as_bytes();
        if letters.len() > MOST_ENDS {
            return None;
        }
        let mut places = [End::Front; MOST_ENDS];
        for (i, letter) in letters.iter().enumerate() {
            places[i] = end_of(*letter)?;
        }
        Some(Ends {
            places,
            count: letters.len(),
        })
    }

    /// The ends as a slice.
    pub fn as_slice(&self) -> &[End]
        ensures value { result.now ≡ self.now }
        ensures within { length result.now ≤ most_ends }
    {
        &self.places[..self.count]
    }
}

/// The end that a letter names.
fn end_of(code: u8) -> Option<End>
    ensures { MatchOption result ((end : AnEnd) → ¬ (code ≡ letter end)) (λ end. code ≡ letter end) }
{
    match code {
        b'f' => Some(End::Front),
        b'b' => Some(End::Back),
        _ => None,
    }
}

/// The line that answers one call.
fn push_line(lines: &mut WalkLines, answer: &Option<IpAddr>)
    requires { length lines.old.bytes + 40 ≤ 10240 }
    ensures line { lines.new.bytes ≡ lines.old.bytes ++ answer_line
        (option_map (in_family address_family plain_bits) answer.now) }
    ensures len { length lines.new.bytes ≤ length lines.old.bytes + 40 }
{
    match answer {
        Some(address) => lines.push_str(address.to_text().as_str()),
        None => lines.push_str("none"),
    }
    lines.push_str("\n");
}

/// The lines that answer the calls.
fn lines_of(answers: &[Option<IpAddr>]) -> WalkLines
    requires { length answers.now ≤ most_ends }
    ensures { result.bytes ≡ flat_map answer_line (map (option_map (in_family address_family plain_bits)) answers.now) }
{
    let mut lines = WalkLines::new();
    for answer in answers {
        push_line(&mut lines, answer);
    }
    lines
}

/// Writes the lines that answer calls at these ends of the walk over the network's addresses.
pub fn write_walk<S: Sink>(network: &IpCidr, ends: &[End], out: &mut S) -> Result<(), ToolError>
    requires { length ends.now ≤ most_ends }
    ensures { IsAnswerWritten (S.state out.old) (S.state out.new) (walk_text network.now ends.now) result }
{
    let mut places = [None; MOST_ENDS];
    let answers = &mut places[..ends.len()];
    let mut walk = network.iter().addresses();
    drive(&mut walk, ends, answers);
    let lines = lines_of(answers);
    Ok(write_text(out, lines.as_str())?)
}
