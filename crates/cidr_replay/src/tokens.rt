//! The tokens of a line, and the values that they write.

use std::alloc::Global;
use std::str::FromStr;

/// The tokens that are left of a line; one space stands between two of them.
#[derive(Drop)]
pub struct Tokens<'a> {
    /// Where the values of a line get their memory.
    pub alloc: Global,
    /// The others.
    pub rest: Option<&'a str>,
}

impl<'a> Tokens<'a> {
    /// The next token as it stands.
    pub fn word(&mut self) -> Option<&'a str> {
        let rest = self.rest?;
        match rest.split_once(' ') {
            Some((word, others)) => {
                self.rest = Some(others);
                Some(word)
            }
            None => {
                self.rest = None;
                Some(rest)
            }
        }
    }

    /// A number, an address, a network or a host, read by its own `FromStr`.
    pub fn value<V: FromStr>(&mut self) -> Option<V>
    where
        V::Err: Drop,
    {
        self.word()?.parse::<V>().ok()
    }

    /// A string behind `=` in which nothing is escaped.
    pub fn text(&mut self) -> Option<&'a str> {
        self.text_behind("=")
    }

    /// What is left behind these characters, where it is a string in which nothing is escaped.
    pub fn text_behind(&mut self, front: &str) -> Option<&'a str> {
        let text = self.rest?.strip_prefix(front)?;
        self.rest = None;
        if text.contains('%') { None } else { Some(text) }
    }

    /// Bytes behind `x`, two hexadecimal digits each.
    pub fn bytes(&mut self) -> Option<Vec<u8>> {
        let mut bytes = Vec::new(self.alloc);
        for pair in self.word()?.strip_prefix('x')?.as_bytes().chunks(2) {
            bytes.push(byte_of(pair)?).ok()?;
        }
        Some(bytes)
    }
}

/// The byte of two digits.
fn byte_of(digits: &[u8]) -> Option<u8> {
    let [high, low] = digits else {
        return None;
    };
    let (high, low) = (
        char::from(*high).to_digit(16)?,
        char::from(*low).to_digit(16)?,
    );
    Some((high * 16 + low) as u8)
}
