//! What a table of `cidr_table` forwards: whether two tables forward the same, and the smallest table that does.
//!
//! A table forwards an address to the value of the longest network that it is in. [`forwards_same`] tells whether two
//! tables give each address the same value, and [`SmallestTable`] has the calls of `LpmTable` that make a table of the
//! fewest rows with the same forwarding, as routers want it (FIB compression): no list of rows with that forwarding is
//! shorter, whatever its order and its networks (Draves, King, Venkatachary and Zill, "Constructing Optimal IP Routing
//! Tables", INFOCOM 1999).
//!
//! ```
//! routes.set("192.0.2.0/25".parse()?, 3)?;
//! routes.set("192.0.2.128/25".parse()?, 3)?;
//! let smallest = routes.smallest(rt.alloc())?;
//! smallest // {0.0.0.0/0: 1, 10.0.0.0/8: 2, 192.0.2.0/24: 3}
//! ```
//!
//! The keys are networks of any type that a table may have. The values are `Copy`, and for the smallest tables they have
//! an order; `==` has to tell equality, which is so for numbers, addresses, and each enum or struct of such fields that
//! derives its comparisons. Values that cannot be copied are kept in a list, and the table has their indices.
//!
//! Only the calls of `SmallestTable` allocate. Their one error is that there is no memory.
#![tactic(auto)]

mod candidates;
mod differing;
mod halves;
mod laws;
mod plan;
mod same;
mod tables;

pub use differing::{Answers, differences};
pub use same::forwards_same;
pub use tables::SmallestTable;
