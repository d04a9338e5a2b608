//! Arguments and files in memory, which tell their bytes.
ghost use Rattle.std.specs.Prelude.{◌≡◌, Some, map};
ghost use Rattle.std.specs.Str.{bytes_eq};
ghost use Rattle.netset_uses.specs.Texts.{contents_of, reasons_of};

use cidr_io::arguments::Arguments;
use netset_commands::errors::Reason;
use netset_commands::input::files::Files;
use std::env::FillError;

/// Words as the arguments of a run.
#[derive(Clone, Copy)]
pub struct Words<'a> {
    pub words: &'a [&'a str],
}

impl Arguments for Words<'_> {
    ghost told = { λ w. Some (map (λ word. word.now) w.words.now) };

    fn copy_to(&self, place: usize, buf: &mut [u8]) -> Result<usize, FillError> {
        let Some(word) = self.words.get(place) else {
            return Err(FillError::NotPresent);
        };
        let bytes = word.as_bytes();
        if buf.len() < bytes.len() {
            return Err(FillError::TooLong);
        }
        buf[..bytes.len()].copy_from_slice(bytes);
        Ok(bytes.len())
    }
}

/// A file: its name and its bytes.
#[derive(Drop)]
pub struct TextFile<'a> {
    pub name: &'a str,
    pub bytes: &'a [u8],
}

impl TextFile<'_> {
    /// Whether this is its name.
    fn has_name(&self, name: &str) -> bool
        ensures { result ≡ bytes_eq self.now.name.now name.now }
    {
        self.name == name
    }
}

/// Files in memory. Of two of one name the first counts. The name `-` is that of the standard input.
#[derive(Clone, Copy)]
pub struct TextFiles<'a> {
    pub files: &'a [TextFile<'a>],
}

impl<'a> Files for TextFiles<'a> {
    type Reader = &'a [u8];

    ghost contents = { λ f. contents_of f.files.now };

    ghost reasons = { λ f. reasons_of f.files.now };

    fn open(&self, name: &str) -> Result<&'a [u8], Reason> {
        let files = self.files;
        for file in files {
            if file.has_name(name) {
                return Ok(file.bytes);
            }
        }
        Err(Reason::NotFound)
    }
}
