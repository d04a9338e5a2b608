//! The answer to a line, token by token.

use std::alloc::{AllocError, Global};
use std::cmp::Ordering;
use std::fmt::{Debug, Display};

/// An answer line that is being written; its memory serves the next line too.
#[derive(Drop)]
pub struct Answer {
    /// A space before each token.
    line: String,
    /// The string of the token that is being escaped.
    unescaped: String,
    /// Whether there was no memory for all of it.
    is_cut: bool,
}

impl Answer {
    /// An empty line.
    pub fn new(alloc: Global) -> Answer {
        Answer {
            line: String::new(alloc),
            unescaped: String::new(alloc),
            is_cut: false,
        }
    }

    /// Begins anew.
    pub fn begin(&mut self) {
        self.line.clear();
    }

    /// The whole line, which is ended, or an error where there was no memory for it.
    pub fn line(&mut self) -> Result<&[u8], AllocError> {
        self.more(&'\n');
        if self.is_cut {
            return Err(AllocError);
        }
        let line = self.line.as_bytes();
        Ok(line.get(1..).unwrap_or(line))
    }

    /// Appends to the last token what `Display` prints.
    pub fn more<D: Display>(&mut self, value: &D) {
        self.is_cut |= write!(self.line, "{value}").is_err();
    }

    /// Appends a token or tokens, what `Display` prints.
    pub fn show<D: Display>(&mut self, value: &D) {
        self.is_cut |= write!(self.line, " {value}").is_err();
    }

    /// Appends what `Debug` prints, with its spaces.
    pub fn debug<D: Debug>(&mut self, value: &D) {
        self.is_cut |= write!(self.line, " {value:?}").is_err();
    }

    /// Appends what `Display` prints of a value, or `none`.
    pub fn option<D: Display>(&mut self, value: &Option<D>) {
        match value {
            Some(value) => self.show(value),
            None => self.show(&"none"),
        }
    }

    /// Appends an order.
    pub fn order(&mut self, order: Ordering) {
        self.show(&match order {
            Ordering::Less => "less",
            Ordering::Equal => "equal",
            Ordering::Greater => "greater",
        });
    }

    /// Appends bytes: `x`, and two hexadecimal digits for each.
    pub fn bytes(&mut self, bytes: &[u8]) {
        self.show(&'x');
        for byte in bytes {
            self.more(&format_args!("{byte:02x}"));
        }
    }

    /// Appends a string, what `Display` prints: `=`, and the string with its blanks and the like escaped.
    pub fn text<D: Display>(&mut self, value: &D) {
        self.show(&'=');
        self.unescaped.clear();
        self.is_cut |= write!(self.unescaped, "{value}").is_err();
        for byte in self.unescaped.as_bytes() {
            self.is_cut |= if *byte != b'%' && byte.is_ascii_graphic() {
                self.line.push(char::from(*byte)).is_err()
            } else {
                write!(self.line, "%{byte:02X}").is_err()
            };
        }
    }

    /// Appends an error: its kind, and its message as a string.
    pub fn error<D: Display>(&mut self, kind: &str, error: &D) {
        self.show(&kind);
        self.text(error);
    }
}
