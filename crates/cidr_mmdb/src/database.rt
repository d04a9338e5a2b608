//! A file that is open.
ghost use Rattle.std.specs.Prelude.{◌≡◌, ◌≤◌, ◌==◌, ◌||◌, IsTrue};
ghost use Rattle.cidr_mmdb.specs.Starts.{start_in};

use crate::errors::JsonError;
use crate::json::text_at;
use crate::parts::Parts;
use crate::searching::Search;
use crate::trees::Tree;
use std::alloc::Global;

/// The parts of a file. [`open`](crate::open) finds them in its bytes.
#[derive(Clone, Copy)]
pub struct Database<'a> {
    /// The search tree.
    pub tree: Tree<'a>,
    /// How many bits an address has in the tree: 32 where `ip_version` is 4, and 128 where it is 6.
    pub width: u32,
    /// The data section.
    pub data: &'a [u8],
    /// The metadata: a map, as the first field of these bytes.
    pub metadata: &'a [u8],
    /// The record behind the first 96 bits of ::/96 in a tree of IPv6, and else the root: where a walk by an IPv4 address begins.
    pub(crate) ipv4_start: u32,
    ghost family: { width ≤ 128 },
    ghost version: { IsTrue ((width == 32) || (width == 128)) },
    ghost start: { ipv4_start ≡ start_in tree.record_size tree.bytes.now tree.node_count width },
}

impl<'a> Database<'a> {
    ghost use Rattle.std.specs.Prelude.{◌≡◌, ◌≤◌, ℕ, List, length, IfErr, IfOk, Some};
    ghost use Rattle.cidr_mmdb.specs.Databases.{IsOpened};
    ghost use Rattle.cidr_mmdb.specs.Json.{IsUnwritten, json_at};
    ghost use Rattle.cidr_mmdb.specs.PartNumbers.{AreParts};

    /// The value at a place of the data section as JSON, as [`lookup`](crate::lookup) found it, of at most `limit` bytes.
    ///
    /// It takes O(n) for n bytes of text, and memory for these and for one string more.
    ///
    /// ```
    /// let text = database.json(rt.alloc(), 0, 1000)?; // {"country":"NL"}
    /// text.len() // 16
    /// ```
    pub fn json(&self, alloc: Global, place: usize, limit: usize) -> Result<Vec<u8>, JsonError>
        ensures text { IfOk result (λ text. (end : ℕ) × (json_at self.now.data.now 512 place ≡ Some (text.items, end))) }
        ensures within { IfOk result (λ text. length text.items ≤ limit) }
        ensures none { IfErr result (IsUnwritten limit (json_at self.now.data.now 512 place)) }
    {
        text_at(alloc, self.data, place, limit)
    }

    /// The metadata as JSON, of at most `limit` bytes.
    ///
    /// ```
    /// database.metadata_json(rt.alloc(), 1000)?.len() // 48
    /// ```
    pub fn metadata_json(&self, alloc: Global, limit: usize) -> Result<Vec<u8>, JsonError>
        ensures text { IfOk result (λ text. (end : ℕ) × (json_at self.now.metadata.now 512 0 ≡ Some (text.items, end))) }
        ensures within { IfOk result (λ text. length text.items ≤ limit) }
        ensures none { IfErr result (IsUnwritten limit (json_at self.now.metadata.now 512 0)) }
    {
        text_at(alloc, self.metadata, 0, limit)
    }

    /// What [`open`](crate::open) found, as numbers.
    ///
    /// ```
    /// database.parts().node_count // 1
    /// ```
    pub fn parts(&self) -> Parts
        ensures { (bytes : List ℕ) → IsOpened bytes self.now → AreParts bytes result self.now }
    {
        Parts {
            node_count: self.tree.node_count,
            record_size: self.tree.record_size,
            width: self.width,
            ipv4_start: self.ipv4_start,
            data_len: self.data.len(),
        }
    }

    /// What look-ups read.
    pub(crate) fn search(&self) -> Search<'a>
        ensures tree { result.tree ≡ self.now.tree }
        ensures width { result.width ≡ self.now.width }
        ensures size { result.size ≡ length self.now.data.now }
        ensures start { result.start ≡ self.now.ipv4_start }
    {
        Search {
            tree: self.tree,
            width: self.width,
            size: self.data.len(),
            start: self.ipv4_start,
        }
    }
}
