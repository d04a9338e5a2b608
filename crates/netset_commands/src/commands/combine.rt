//! Sets put together.
ghost use Rattle.std.specs.Prelude.{IfOk, ◌∷◌};
ghost use Rattle.cidr.specs.declared.family.Family.{Family};
ghost use Rattle.cidr_sets.specs.model.Sets.{IsSetOf};
ghost use Rattle.netset_commands.specs.Combining.{IsMade};
ghost use Rattle.cidr_lists.specs.Sets.{IsInSets, networks_of};

use crate::commands::operations::{Operation, step_of, turns};
use crate::input::several::Several;
use cidr_lists::sets::{Sets, combined};
use std::alloc::AllocError;

/// What an operation makes of sets.
pub fn combination(operation: Operation, several: Several) -> Result<Sets, AllocError>
    ensures { IfOk result (λ sets. (family : Family)
        → IsSetOf 129 (IsMade IsInSets operation (several.first ∷ several.others.items) family)
        (networks_of sets family)) }
{
    let Several { first, others } = several;
    let all = combined(step_of(operation), first, others.as_slice())?;
    if turns(operation) {
        let rest = all.complement()?;
        return Ok(rest);
    }
    Ok(all)
}
