//! A list of networks made shorter, which answers of a whole network at once whether the list has all its addresses.
ghost use Rattle.std.specs.Prelude.{◌↔◌, ◌≤◌, IsTrue, length, map};
ghost use Rattle.std.specs.List.{Any};
ghost use Rattle.std.specs.Map.{keys_of};
ghost use Rattle.cidr.specs.model.Network.{BeginsWith};
ghost use Rattle.cidr_table.specs.model.Cover.{IsFull};

use crate::prefix_tree::holds;
use cidr::NetworkBits;
use cidr_table::LpmTable;
use cidr_table::laws::covers::{cover_is_exact, cover_is_refined_by_others};

/// Whether the keys of the table together have every address of the network: 10.0.0.0/9 and 10.128.0.0/9 have those of
/// 10.0.0.0/8, which lies in neither.
///
/// The caller has to prove that `shorter` has as many elements as the table has rows.
pub fn has_all<C: NetworkBits + Copy, V>(
    table: &LpmTable<C, V>,
    shorter: &mut [C],
    network: &C,
) -> bool
    requires room { length table.now.rows ≤ length shorter.old }
    ensures { IsTrue result ↔ IsFull 129 (map C.bits (keys_of table.now.rows)) (C.bits network.now) }
{
    // the calls tell the proof that the shorter list has the same addresses, and which networks lie in one of it
    cover_is_exact();
    cover_is_refined_by_others();
    let _len = network.len();
    let count = table.least_cover(shorter);
    lies_in_one(&shorter[..count], network)
}

/// Whether one of the networks has every address of another one.
fn lies_in_one<C: NetworkBits>(networks: &[C], network: &C) -> bool
    ensures { IsTrue result ↔ Any (λ outer. BeginsWith (C.bits network.now) (C.bits outer)) networks.now }
{
    networks.iter().any(|outer| holds(outer, network))
}
