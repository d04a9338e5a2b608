//! The networks that a second list adds to a first one, and those that it lacks.
ghost use Rattle.std.specs.Prelude.{◌≡◌};
ghost use Rattle.std.specs.Iterator.{YieldsFirst, item_count};
ghost use Rattle.cidr_lists.specs.Changes.{adds_first, change_layout, change_layout_in, merged, sign_text};
ghost use Rattle.cidr_lists.specs.declared.formats.LineFormat.TheVariants.{Json};

use crate::formats::{LineFormat, Notation, object_end};
use cidr::{Family, NetworkBits};
use std::marker::Model;

/// Whether a network is added or lacking.
#[derive(Clone, Copy, Debug, Drop, PartialEq)]
pub enum Sign {
    /// The second list adds it.
    Plus,
    /// The second list lacks it.
    Minus,
}

/// The sign in front of a network: `+` or `-`.
pub fn sign_text(sign: Sign) -> &'static str
    ensures { result.now ≡ sign_text sign }
{
    match sign {
        Sign::Plus => "+",
        Sign::Minus => "-",
    }
}

/// How a change is written as a line.
#[derive(Clone, Copy, Debug)]
pub struct ChangeLayout<'a> {
    /// In front of its sign.
    pub before: &'a str,
    /// Between the sign and the network.
    pub between: &'a str,
    /// How the network is written.
    pub notation: Notation,
    /// Behind the network.
    pub behind: &'a str,
}

/// An object of JSON.
fn json(family: Family) -> ChangeLayout<'static>
    ensures { change_layout_in result ≡ change_layout Json family }
{
    ChangeLayout {
        before: "{\"change\":\"",
        between: "\",\"network\":\"",
        notation: Notation::Members,
        behind: object_end(family),
    }
}

/// How a change of a network of a family is written as a line: `+192.0.2.0/24`, or
/// `{"change":"+","network":"192.0.2.0/24","first":"192.0.2.0","last":"192.0.2.255","length":24,"family":"IPv4"}`.
pub fn change_layout(format: LineFormat, family: Family) -> ChangeLayout<'static>
    ensures { change_layout_in result ≡ change_layout format family }
{
    match format {
        LineFormat::Plain => ChangeLayout {
            before: "",
            between: "",
            notation: Notation::Plain,
            behind: "",
        },
        LineFormat::Json => json(family),
    }
}

/// Whether the first of the networks of two lists is an added one.
fn adds_first<C: NetworkBits>(added: &[C], lacking: &[C]) -> bool
    ensures { result ≡ adds_first C.bits added.now lacking.now }
{
    let Some((plus, _)) = added.split_first() else {
        return false;
    };
    let Some((minus, _)) = lacking.split_first() else {
        return true;
    };
    plus.cmp(minus).is_lt()
}

/// The networks of two lists that are left, each with its sign, ascending where both lists are: each call of `next`
/// takes the first of both. It allocates nothing.
#[derive(Drop)]
pub struct Changes<'a, C: NetworkBits + Copy> {
    /// What the second list adds: what its set has and the first one's has not.
    pub added: &'a [C],
    /// What the second list lacks: what the first one's set has and its own has not.
    pub lacking: &'a [C],
}

impl<'a, C: NetworkBits + Copy> Model for Changes<'a, C> {
    ghost use Rattle.std.specs.Prelude.{List};
    ghost use Rattle.cidr_lists.specs.Changes.{merged};
    ghost use Rattle.cidr_lists.specs.declared.changes.Sign.{Sign};

    ghost Value = { List (Sign × C) };

    ghost view = { λ left. merged C.bits left.added.now left.lacking.now };
}

impl<'a, C: NetworkBits + Copy> Iterator for Changes<'a, C> {
    type Item = (Sign, C);

    ghost next_gives = { YieldsFirst (λ s. s) };

    ghost remaining = { item_count (λ s. s) };

    fn next(&mut self) -> Option<(Sign, C)> {
        if adds_first(self.added, self.lacking) {
            let (network, rest) = self.added.split_first()?;
            self.added = rest;
            return Some((Sign::Plus, *network));
        }
        let (network, rest) = self.lacking.split_first()?;
        self.lacking = rest;
        Some((Sign::Minus, *network))
    }
}
