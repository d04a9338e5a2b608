//! A longest-prefix table, proved: networks with a value each, and the longest of them that an address is in.
//!
//! The keys are networks of one type of `cidr` that implements `NetworkBits`: `Ipv4Cidr`, `Ipv6Cidr` or `AnyIpCidr`.
//! The table is a map from them to values, kept in the order of the keys. A key with its value is a row, and a row has
//! an index, from 0 on in that order.
//!
//! `IpCidr` is no key, as networks of both families would have the same bits: `AnyIpCidr::from` makes of one, or of an
//! address, a key of a table of both, here one with 10.0.0.0/8:
//!
//! ```
//! let network = "10.1.0.0/16".parse::<IpCidr>()?;
//! routes.lookup(&AnyIpCidr::from(network)) // Some((V4(10.0.0.0/8), 1))
//! ```
//!
//! A table is filled by `set`, or by `insert`:
//!
//! ```
//! let mut routes = Routes::new(rt.alloc());
//! routes.set("0.0.0.0/0".parse()?, Ipv4Addr::new(192, 0, 2, 1))?;
//! routes.set("10.0.0.0/8".parse()?, Ipv4Addr::new(192, 0, 2, 2))?;
//! next_hop(&routes, Ipv4Addr::new(10, 1, 2, 3)) // Some(192.0.2.2)
//! next_hop(&routes, Ipv4Addr::new(198, 51, 100, 1)) // Some(192.0.2.1)
//! ```
//!
//! `Routes` is `LpmTable<Ipv4Cidr, Ipv4Addr>`, and `next_hop` looks an address up by the network of that address alone:
//!
//! ```
//! fn next_hop(routes: &Routes, address: Ipv4Addr) -> Option<Ipv4Addr> {
//!     let index = longest_match(&mut routes.probe(), &Ipv4Cidr::new_host(address))?;
//!     let (_network, next_hop) = routes.row(index)?;
//!     Some(*next_hop)
//! }
//! ```
//!
//! `insert` returns the value that the key had before, and `get` and `remove` what the key has:
//!
//! ```
//! routes.insert("10.0.0.0/8".parse()?, Ipv4Addr::new(192, 0, 2, 3)) // Ok(Some(192.0.2.2))
//! routes.get(&"10.0.0.0/8".parse()?) // Some(192.0.2.3)
//! routes.remove(&"0.0.0.0/0".parse()?) // Some(192.0.2.1)
//! ```
//!
//! `insert` and `set` of a new key without room, `with_capacity`, `reserve`, `clone`, `load` and, of rows that don't
//! ascend, `from_rows` allocate, and no other call does. Where an allocation fails, `insert` returns the key and the
//! value as its error and leaves the rows as they were, `load` returns `NoMemory`, and `from_rows` does without.
//! `insert` and `remove` move the rows behind the key, O(n); `from_rows` and `load` sort many rows once.
//!
//! `load` takes prefix bytes, one network after the other, and keeps the index of each as its value. `inside` has the
//! rows whose key is in a network, and `least_cover` the shortest list of networks with the addresses of all keys:
//!
//! ```
//! let bytes = [9, 10, 0, 9, 10, 128, 24, 192, 0, 2];
//! let table = LpmTable::<Ipv4Cidr, usize>::load(rt.alloc(), &bytes)?;
//! ```
//!
//! ```
//! table.inside(&"10.0.0.0/8".parse()?) // [(10.0.0.0/9, 0), (10.128.0.0/9, 1)]
//!
//! let mut networks = ["0.0.0.0/0".parse::<Ipv4Cidr>()?; 3];
//! if table.len() <= networks.len() {
//!     let count = table.least_cover(&mut networks);
//!     &networks[..count] // [10.0.0.0/8, 192.0.2.0/24]
//! }
//! ```
//!
//! Bytes that are no table give the index of the first network that is rejected, and why:
//!
//! ```
//! match LpmTable::<Ipv4Cidr, usize>::load(rt.alloc(), &[8, 10, 40]) {
//!     Ok(table) => println!(rt; "{} rows", table.len())?,
//!     Err(error) => println!(rt; "{error}")?,
//! }
//! ```
//!
//! which prints
//!
//! ```text
//! prefix 1: prefix length is too long
//! ```
//!
//! `lookup` returns the row of the longest key that begins the bits of an address or a network, and `matches` all rows
//! whose key does, the shortest key first. Who looks up many addresses in rows that stay as they are makes a table of
//! one family ready once, by the `ReadyTable` of `cidr_lookup`.
//!
//! `get_mut`, `lookup_mut` and `value_mut` return a reference to a value, for writing in its row, and `for_each_mut`
//! calls a closure with each: no key changes, and nothing is allocated.
//!
//! `longest_match` is a function over any `Probe`, which counts the comparisons with keys by a `Count`. With n the number
//! of rows and d that of the binary digits of n, it makes at most `(len + 1) * d` of them, where `len` is the number of
//! bits that are looked up.
#![tactic(auto)]

mod count;
pub mod laws;
mod lookup;
mod probe;
mod rows;
mod search;
mod sorting;
mod table;

pub use count::Count;
pub use lookup::longest_match;
pub use probe::Probe;
pub use rows::Rows;
pub use search::is_inside;
pub use table::LpmTable;
pub use table::cover::least_cover_in_place;
pub use table::iterators::{IntoIter, Keys, Values};
pub use table::load::LoadError;
pub use table::matches::Matches;
