//! Sets of addresses, proved: union, intersection and difference of sets that are lists of networks.
//!
//! The networks are of one type of `cidr` that implements `NetworkBits`: `Ipv4Cidr`, `Ipv6Cidr` or `AnyIpCidr`, of
//! which a set has addresses of both families. [`NetworkSet`] keeps them in a `Vec`, [`slices`] has some of its calls
//! in memory of the caller, and [`access`] tells what an access list permits.
//!
//! A look-up in n networks takes one or two binary searches, O(log n), and no memory. What counts addresses or finds
//! free networks looks at each network, O(n). `union`, `intersection` and `difference` go through both sets once, and
//! allocate room for their result. `insert` and `remove` move the networks behind, O(n). A call that returns
//! `AllocError` has changed nothing.
#![tactic(auto)]

pub mod access;
mod decisions;
pub mod laws;
mod lookup;
mod merging;
mod neighbours;
mod pools;
mod probe;
mod ranges;
mod replacing;
mod rests;
mod search;
mod set;
pub mod slices;
mod spans;
mod walk;
mod writing;

pub use cidr_table::is_inside;
pub use pools::PoolNetwork;
pub use probe::{NetworkProbe, Networks, contains};
pub use ranges::{AddressRange, Addressed, Ranges};
pub use set::NetworkSet;
pub use walk::SetAddresses;
