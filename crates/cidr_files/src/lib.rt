//! Look-up tables in files: the longest match of an address, with its value, out of bytes that are read or mapped.
//!
//! A file has a table of IPv4 networks and one of IPv6 networks, each row with a value of any bytes. [`open`] reads the
//! header and cuts the bytes into parts, [`check`] says whether these are a table, and [`lookup`] reads some of their
//! bytes. [`written`] makes the bytes of a file. README.md describes them.
#![tactic(auto)]

mod address;
mod building;
mod checking;
mod contents;
mod faults;
mod layout;
mod looking;
mod opening;
mod writing;

pub use address::{FileAddress, Ipv4Bytes, Ipv6Bytes};
pub use building::written;
pub use checking::{are_offsets, check, checked};
pub use contents::{Contents, FileRows};
pub use faults::{FileFault, TableFault, WriteError};
pub use layout::{Counts, FileTable, FileTables};
pub use looking::{Found, find, has, lookup};
pub use opening::{counts, open};
pub use writing::file_of;
