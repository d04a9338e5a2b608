//! What is written in a file.
ghost use Rattle.std.specs.Prelude.{◌≡◌, ◌^◌, ◌<◌, length};
ghost use Rattle.cidr_files.specs.Contents.{counts_of};

use crate::layout::Counts;
use cidr_lookup::Key;

/// The rows of a table: networks, and a value for each.
#[derive(Drop)]
pub struct FileRows<'a, W> {
    /// The networks, by first address and then by length.
    pub keys: &'a [Key<W>],
    /// Where the value of each begins among the values, in bytes from 0 on, and last where they end: one more than
    /// keys.
    pub offsets: &'a [u32],
    /// The values, one behind the other.
    pub values: &'a [u8],
}

/// A table: its rows, and the look-up table of their networks.
#[derive(Drop)]
pub struct Contents<'a, W> {
    /// The rows.
    pub rows: &'a FileRows<'a, W>,
    /// The entries of the blocks of addresses, as `build` of `cidr_lookup` returns them.
    pub first: &'a [u32],
    /// The words of nodes and lists, from the same.
    pub words: &'a [u32],
    /// How many steps there are behind the first bits.
    pub steps: u32,
}

/// Their counts.
pub(crate) fn counts_of<W>(contents: &Contents<'_, W>) -> Counts
    requires rows { length contents.now.rows.now.keys.now < 2 ^ 32 }
    requires entries { length contents.now.first.now < 2 ^ 32 }
    requires words { length contents.now.words.now < 2 ^ 32 }
    requires values { length contents.now.rows.now.values.now < 2 ^ 32 }
    ensures { result ≡ counts_of contents.now }
{
    Counts {
        rows: contents.rows.keys.len() as u32,
        entries: contents.first.len() as u32,
        words: contents.words.len() as u32,
        steps: contents.steps,
        values: contents.rows.values.len() as u32,
    }
}
