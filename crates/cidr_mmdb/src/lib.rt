//! The MaxMind DB file format 2.0, read: which value a file has for an address, as JSON, proved for any bytes.
//!
//! [`open`] finds the parts of a file in its bytes. [`lookup`] gives the network that an address is in, and the place of its
//! value in the data section, and [`Database::json`] the value there.
#![tactic(auto)]

mod database;
mod errors;
mod fields;
mod found;
mod going;
mod json;
mod kinds;
pub mod laws;
mod leaf_texts;
mod leaves;
mod looking;
mod metadata;
mod networks;
mod numbers;
mod numerals;
mod opening;
mod parts;
mod records;
mod rows;
mod searching;
mod trees;

pub use database::Database;
pub use errors::{JsonError, MetadataError, OpenError};
pub use found::Found;
pub use json::text_at;
pub use kinds::{Field, Kind};
pub use looking::{Answer, lookup, lookup_in};
pub use opening::open;
pub use parts::Parts;
pub use records::RecordSize;
pub use rows::{Row, next_row, next_row_in};
pub use trees::Tree;
