//! The longest match of an address, by words of 32 bits that an array or a file may hold.
//!
//! [`build`] writes the look-up table of keys, which is unique, and [`find`] reads it, from whatever is [`Words`]. [`check`]
//! says whether words from elsewhere are the table of keys.
//!
//! ```
//! let table = build(alloc, keys)?;
//! let first = table.first.as_slice();
//! let words = table.words.as_slice();
//! Ok(find(&first, &words, table.steps, address.to_bits()))
//! ```
#![tactic(auto)]

mod address;
mod building;
mod bytes;
mod checking;
mod halves;
mod key;
mod keyed;
mod list;
mod node;
mod pass;
mod ranges;
mod ready;
mod ready_set;
mod search;
mod table;
mod words;

pub use address::Address;
pub use checking::{WordsFault, check};
pub use halves::Ipv6Halves;
pub use key::{Key, first_refused};
pub use keyed::Keyed;
pub use ready::ReadyTable;
pub use ready_set::ReadySet;
pub use search::find;
pub use table::{LookupTable, TableError, build};
pub use words::Words;
