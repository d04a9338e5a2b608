//! The parts of a file as numbers.

use crate::records::{RecordSize, node_bytes};
use crate::searching::Search;
use crate::trees::Tree;

/// What [`open`](crate::open) found in the bytes of a file, as numbers that stand beside these bytes, for a caller that can't keep a
/// [`Database`](crate::Database). [`Database::parts`](crate::Database::parts) gives them.
#[derive(Clone, Copy, Debug, PartialEq, Eq)]
pub struct Parts {
    /// How many nodes the search tree has.
    pub node_count: u32,
    /// How large a record is.
    pub record_size: RecordSize,
    /// How many bits an address has in the tree: 32 or 128.
    pub width: u32,
    /// The record at which look-ups of IPv4 addresses begin.
    pub ipv4_start: u32,
    /// How many bytes the data section has.
    pub data_len: usize,
}

impl Parts {
    ghost use Rattle.std.specs.Prelude.{◌≡◌, ◌*◌, take, IfSome, IsSome, IsSomeAnd};
    ghost use Rattle.cidr_mmdb.specs.PartNumbers.{AreParts};
    ghost use Rattle.cidr_mmdb.specs.Trees.{node_bytes};
    ghost use Rattle.cidr_mmdb.specs.declared.database.Database.{Database};

    /// The data section of a file of these parts, and the metadata, if its bytes have them.
    ///
    /// ```
    /// database.parts().sections(&bytes).map(|both| both.0.len()) // Some(12)
    /// ```
    pub fn sections<'a>(&self, bytes: &'a [u8]) -> Option<(&'a [u8], &'a [u8])>
        ensures data { (database : Database) → AreParts bytes.now self.now database → IsSomeAnd result (λ both. both.0.now ≡ database.data.now) }
        ensures metadata { (database : Database) → AreParts bytes.now self.now database → IsSomeAnd result (λ both. both.1.now ≡ database.metadata.now) }
    {
        let begin = self.node_count as usize * node_bytes(self.record_size) + 16;
        let end = begin.saturating_add(self.data_len);
        if end.saturating_add(14) > bytes.len() {
            return None;
        }
        Some((&bytes[begin..end], &bytes[end + 14..]))
    }

    /// What look-ups read in the bytes of a file of these parts, if they have it.
    pub(crate) fn search<'a>(&self, bytes: &'a [u8]) -> Option<Search<'a>>
        ensures tree { IfSome result (λ search. search.tree.bytes.now ≡ take (self.now.node_count * node_bytes self.now.record_size) bytes.now) }
        ensures node_count { IfSome result (λ search. search.tree.node_count ≡ self.now.node_count) }
        ensures record_size { IfSome result (λ search. search.tree.record_size ≡ self.now.record_size) }
        ensures width { IfSome result (λ search. search.width ≡ self.now.width) }
        ensures size { IfSome result (λ search. search.size ≡ self.now.data_len) }
        ensures start { IfSome result (λ search. search.start ≡ self.now.ipv4_start) }
        ensures some { (database : Database) → AreParts bytes.now self.now database → IsSome result }
    {
        let size = self.node_count as usize * node_bytes(self.record_size);
        if size > bytes.len() {
            return None;
        }
        if self.width != 32 && self.width != 128 {
            return None;
        }
        let tree = Tree {
            bytes: &bytes[..size],
            node_count: self.node_count,
            record_size: self.record_size,
        };
        Some(Search {
            tree,
            width: self.width,
            size: self.data_len,
            start: self.ipv4_start,
        })
    }
}
