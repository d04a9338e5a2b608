//! What is made of lists.
ghost use Rattle.std.specs.Prelude.{◌≡◌};
ghost use Rattle.netset_commands.specs.Combining.{form_of, step_of, turns};

use cidr_lists::sets::{Form, Step};

/// What is made of the addresses of lists.
#[derive(Clone, Copy, Drop, PartialEq)]
pub enum Operation {
    /// The addresses of all lists.
    Merge,
    /// Those of the first list that no other has.
    Minus,
    /// Those that each list has.
    And,
    /// Those of each family that no list has.
    Not,
    /// The addresses of all lists, as ranges.
    Ranges,
    /// The number of the addresses of all lists.
    Count,
}

/// Whether it has the addresses that are not there after all steps.
pub fn turns(operation: Operation) -> bool
    ensures { result ≡ turns operation }
{
    operation == Operation::Not
}

/// How it writes the addresses.
pub fn form_of(operation: Operation) -> Form
    ensures { result ≡ form_of operation }
{
    match operation {
        Operation::Ranges => Form::Ranges,
        Operation::Count => Form::Counts,
        _ => Form::Networks,
    }
}

/// What each list after the first does.
pub fn step_of(operation: Operation) -> Step
    ensures { result ≡ step_of operation }
{
    match operation {
        Operation::Merge | Operation::Not | Operation::Ranges | Operation::Count => Step::Union,
        Operation::Minus => Step::Difference,
        Operation::And => Step::Intersection,
    }
}
