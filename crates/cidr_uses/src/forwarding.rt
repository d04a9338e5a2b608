//! A table and the smallest one with the same forwarding; tables with no difference.
ghost use Rattle.std.specs.Prelude.{ℕ, ◌≤◌, ◌≢◌, Bool, List, Option, IfOk, IsTrue};
ghost use Rattle.cidr.specs.either.IpAddress.{TellsEqual};
ghost use Rattle.cidr.specs.model.Network.{HasWidth};
ghost use Rattle.cidr_forwarding.specs.Differences.{AreAnswers};
ghost use Rattle.cidr_forwarding.specs.Forwarding.{in_bits, AreNetworksOf, AreIpRows};

use cidr::NetworkBits;
use cidr_forwarding::{SmallestTable, differences, forwards_same};
use cidr_table::LpmTable;
use std::alloc::{AllocError, Global};

/// Whether a table and its smallest one forward the same, which they do.
pub fn agrees_with_smallest<C: NetworkBits + Copy, V: Copy + Ord + Drop>(
    alloc: Global,
    table: &LpmTable<C, V>,
) -> Result<bool, AllocError>
    requires { TellsEqual V.eq }
    ensures width { IfOk result (λ same. (w : ℕ) → w ≤ 129 → AreNetworksOf C.bits w table.now.rows → IsTrue same) }
    ensures ip { IfOk result (λ same. AreIpRows C.bits table.now.rows → IsTrue same) }
{
    let smallest = table.smallest(alloc)?;
    Ok(forwards_same(table, &smallest))
}

/// Whether two tables have no differences; then no address has two answers that differ.
pub fn are_alike<C: NetworkBits + Copy, V: Copy + Eq>(
    alloc: Global,
    one: &LpmTable<C, V>,
    other: &LpmTable<C, V>,
) -> Result<bool, AllocError>
    requires { TellsEqual V.eq }
    ensures { IfOk result (λ alike. IsTrue alike → (w : ℕ) → w ≤ 129 → AreNetworksOf C.bits w one.now.rows → AreNetworksOf C.bits w other.now.rows
        → (a : List Bool) → HasWidth w a → (answers : Option V × Option V)
        → AreAnswers (in_bits C.bits one.now.rows) (in_bits C.bits other.now.rows) a answers → ¬ (answers.0 ≢ answers.1)) }
{
    let listed = differences(alloc, one, other)?;
    Ok(listed.is_empty())
}
