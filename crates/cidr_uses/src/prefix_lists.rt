//! Prefix lists without rows that decide nothing, and what they permit as rows.
ghost use Rattle.std.specs.Prelude.{ℕ, IfOk, IsTrue, MatchOption};
ghost use Rattle.cidr.specs.model.Network.{width_of};
ghost use Rattle.cidr_routes.specs.PrefixLists.{IsShadowed, PermitSame};

use cidr::FamilyCidr;
use cidr_routes::laws::shadowed_rows_change_nothing;
use cidr_routes::lists::{Row, permits, permitted, shadowed};
use std::alloc::{AllocError, Global};

/// Always true: a prefix list and the rows of what it permits do the same with a network.
pub fn permitted_rows_agree<C: FamilyCidr>(
    alloc: Global,
    rows: &[Row<C>],
    network: &C,
) -> Result<bool, AllocError>
    ensures { IfOk result (λ same. IsTrue same) }
{
    // the call tells the proof how long the network is at most
    network.network_length();
    let out = permitted(alloc, rows)?;
    Ok(permits(out.as_slice(), network) == permits(rows, network))
}

/// A prefix list that permits the same networks, and of which each row decides some: as long as a row decides nothing, the
/// first such row is taken out.
pub fn without_shadowed<C: FamilyCidr>(
    alloc: Global,
    mut rows: Vec<Row<C>>,
) -> Result<Vec<Row<C>>, AllocError>
    ensures same { IfOk result (λ out. PermitSame C.bits (width_of C.FAMILY) out.items rows.items) }
    ensures none { IfOk result (λ out. (i : ℕ) → ¬ (IsShadowed C.bits (width_of C.FAMILY) out.items i)) }
{
    // the call tells the proof that such a row changes nothing
    shadowed_rows_change_nothing::<C>();
    loop {
        let found = first_shadowed(alloc, rows.as_slice())?;
        match found {
            Some(index) => {
                rows.remove(index);
            }
            None => return Ok(rows),
        }
    }
}

/// The index of the first row that decides nothing, if there is one.
fn first_shadowed<C: FamilyCidr>(
    alloc: Global,
    rows: &[Row<C>],
) -> Result<Option<usize>, AllocError>
    ensures { IfOk result (λ found. MatchOption found ((i : ℕ) → ¬ (IsShadowed C.bits (width_of C.FAMILY) rows.now i))
        (IsShadowed C.bits (width_of C.FAMILY) rows.now)) }
{
    let out = shadowed(alloc, rows)?;
    match out.first() {
        Some(index) => Ok(Some(*index)),
        None => Ok(None),
    }
}
