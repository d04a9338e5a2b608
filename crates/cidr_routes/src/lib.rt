//! Questions about routes, proved: whether the origin of a route is valid, and what a prefix list permits.
//!
//! A route is a network: an `Ipv4Cidr` or an `Ipv6Cidr`. [`Payloads`] tells what RFC 6811 tells of a route and the AS that it
//! comes from. [`lists`] tells which networks a prefix list permits.
#![tactic(auto)]

mod covering;
mod joined;
pub mod laws;
mod links;
pub mod lists;
mod origins;
mod shadows;

pub use covering::Covering;
pub use origins::{Payload, Payloads, Validity};
