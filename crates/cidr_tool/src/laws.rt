//! A law, as the contract of a function that does nothing. After a call, a caller's proof has it.
ghost use Rattle.cidr.specs.either.IpAddress.{TellsEqual};

use crate::errors::{Fault, ToolError};

/// Errors are equal exactly where their kind and their contents are the same.
pub fn equal_errors_are_the_same()
    ensures fault { TellsEqual ⟦<Fault as PartialEq>⟧.eq }
    ensures tool { TellsEqual ⟦<ToolError as PartialEq>⟧.eq }
{
    cidr::laws::errors::equal_errors_are_the_same();
}
