//! What holds of loading, as the contract of a function that does nothing.
ghost use Rattle.cidr.specs.either.IpAddress.{TellsEqual};

use crate::table::load::LoadError;

/// Errors of loading are equal exactly where their kind and their contents are the same.
pub fn equal_load_errors_are_the_same()
    ensures { TellsEqual ⟦<LoadError as PartialEq>⟧.eq }
{}
