//! Calls on networks and addresses beyond those of the crate `cidr`, proved from its public contracts.
//!
//! They are traits, which a `use` brings in. `NetworkExt` has networks as the nodes of a tree (`parent`, `halves`,
//! `sibling`, `supernet`, `overlaps`, `spanning`), `IpCidrExt` the same for `IpCidr`, `CidrExt` what is counted
//! (`subnets`, `next_network`, `host_mask`, `nth`, `position`, `usable_hosts`), `AddressExt` numbers and masks of
//! addresses, `CidrMaskText` masks in strings, `CidrReverseName` and `AddressReverseName` names in reverse DNS, and
//! `SpecialAddress` what addresses are for (`special_entry`, `is_global`, `is_private`). `Ipv4AddrExt`, `Ipv4CidrExt`,
//! `Ipv6AddrExt` and `Ipv6CidrExt` have IPv4 inside IPv6. The function `text_fault` tells what is wrong with a string
//! that is no network and no address.
//!
//! ```
//! let network = "2001:db8::/48".parse::<Ipv6Cidr>()?;
//! network.subnet(64, 255) // Some(2001:db8:0:ff::/64)
//! network.sibling() // Some(2001:db8:1::/48)
//! ```
//!
//! No call allocates. What can fail returns `None`, and its contract says exactly where; a string with a mask that does
//! not parse is a `MaskParseError`.
#![tactic(auto)]

mod address;
mod either_family;
mod families;
mod group_faults;
mod inside_ipv6;
pub mod laws;
mod mask_text;
mod network;
mod numbered;
mod registry;
mod reverse;
mod shifts;
mod special;
mod subnets;
mod text_faults;

pub use address::AddressExt;
pub use either_family::IpCidrExt;
pub use inside_ipv6::{Ipv4AddrExt, Ipv4CidrExt, Ipv6AddrExt, Ipv6CidrExt};
pub use mask_text::{CidrMaskText, MaskParseError};
pub use network::NetworkExt;
pub use numbered::CidrExt;
pub use registry::{IPV4_ENTRIES, IPV6_ENTRIES, Purpose, SpecialEntry};
pub use reverse::zones::ReverseZones;
pub use reverse::{AddressReverseName, CidrReverseName};
pub use special::SpecialAddress;
pub use subnets::Subnets;
pub use text_faults::{TextFault, text_fault};
