//! Files that begin with a header, whose first line says nothing.
ghost use Rattle.std.specs.Prelude.{◌≡◌, ◌≤◌, ◌==◌, length};
ghost use Rattle.std.specs.List.{position_or_len};
ghost use Rattle.cidr_lists.specs.Lists.{is_line_feed};
ghost use Rattle.netset_commands.specs.Program.{below_header, headed};
ghost use Rattle.netset_commands.specs.Table.{texts};

use crate::commands::matching::has;
use crate::errors::Reason;
use crate::input::files::Files;
use cidr_io::lines::feed_in;
use cidr_io::source::Source;

/// How many bytes stand before the first line feed.
fn len_to_feed(bytes: &[u8]) -> usize
    ensures first { result ≡ position_or_len is_line_feed bytes.now }
    ensures fits { result ≤ length bytes.now }
{
    feed_in(bytes).unwrap_or(bytes.len())
}

/// Makes spaces of the bytes before the first line feed, or of all, and tells whether there is none.
fn blank(bytes: &mut [u8]) -> bool
    ensures blanks { bytes.new ≡ below_header bytes.old }
    ensures all { result ≡ (position_or_len is_line_feed bytes.old == length bytes.old) }
{
    let end = len_to_feed(bytes);
    bytes[..end].fill(b' ');
    end == bytes.len()
}

/// A source whose first line, as far as it was not read yet, is given as spaces.
#[derive(Drop)]
pub struct HeadedReader<S: Source + Drop> {
    source: S,
    in_header: bool,
}

impl<S: Source + Drop> Source for HeadedReader<S> {
    ghost use Rattle.netset_commands.specs.Opened.{headed_left};

    ghost left = { headed_left S.left };

    fn read_some(&mut self, buf: &mut [u8]) -> Option<usize> {
        let count = self.source.read_some(buf)?;
        if self.in_header {
            self.in_header = blank(&mut buf[..count]);
        }
        Some(count)
    }
}

/// Files, of which those of these names begin with a header.
#[derive(Clone, Copy)]
pub struct Headed<'f, F: Files> {
    pub files: &'f F,
    pub tables: &'f [&'f str],
}

impl<F: Files> Files for Headed<'_, F> {
    type Reader = HeadedReader<F::Reader>;

    ghost contents = { λ h. headed (texts h.tables.now) (F.contents h.files.now) };

    ghost reasons = { λ h. F.reasons h.files.now };

    fn open(&self, name: &str) -> Result<Self::Reader, Reason> {
        let source = self.files.open(name)?;
        Ok(HeadedReader {
            source,
            in_header: has(self.tables, name),
        })
    }
}
