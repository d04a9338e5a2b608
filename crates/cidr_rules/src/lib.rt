//! Access lists of five fields, proved: which packets they permit, which of their rules decide nothing, and how two differ.
#![tactic(auto)]

mod addresses;
mod comparing;
mod entries;
mod errors;
mod fields;
mod joining;
mod parts;
mod regions;
mod rules;
mod search;
mod shadows;

pub use addresses::Endpoint;
pub use comparing::{Difference, differences, differing_packet};
pub use entries::{Entry, Traffic, Transport};
pub use errors::RulesError;
pub use fields::{FieldValue, Range};
pub use regions::{Packet, Region};
pub use rules::{Action, Rule, decides, permits};
pub use shadows::{pruned, redundant, shadowed};
