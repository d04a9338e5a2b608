//! What holds of walks, each as the contract of a function that does nothing.
ghost use Rattle.std.specs.Prelude.{◌≡◌, ◌≤◌, ◌↔◌, ℕ, Bool, List, length};
ghost use Rattle.std.specs.List.{Contains};
ghost use Rattle.cidr.specs.model.Walk.{walk_between, IsAscending, LiesBetween, answers_to};
ghost use Rattle.cidr.specs.model.Calls.{HasOnce, GivesOnly, GivesOnce, GivesInward, GivesEach};
ghost use Rattle.cidr.specs.declared.family.Family.{Family};
ghost use Rattle.cidr.specs.declared.inet_iterator.driving.End.{End};

/// A walk ascends, and so has each address once.
pub fn walk_ascends()
    ensures { (w : ℕ) (first second : List Bool) → length first ≡
        w → length second ≡ w → IsAscending (walk_between w first second) }
{}

/// A walk has exactly the addresses from the first to the second, in the order of addresses.
pub fn walk_is_between()
    ensures { (w : ℕ) (first second a : List Bool) → length first ≡ w →
        length second ≡ w → Contains (walk_between w first second) a ↔
        LiesBetween w first second a }
{}

/// Whatever calls are made at both ends of a walk, only items of it are returned.
pub fn calls_return_only_items()
    ensures { (items : List (Family × List Bool)) (ends : List End) → GivesOnly items (answers_to items ends) }
{}

/// Whatever calls are made at both ends of a walk, no item is returned twice.
pub fn calls_return_items_once()
    ensures { (items : List (Family × List Bool)) (ends : List End) → HasOnce items →
        GivesOnce (answers_to items ends) }
{}

/// Whatever calls are made at both ends of a walk, what one at the front returns stands before all that later calls
/// return, and what one at the back stands after it.
pub fn calls_return_from_the_ends()
    ensures { (items : List (Family × List Bool)) (ends : List End) → GivesInward items ends (answers_to items ends) }
{}

/// After as many calls as there are items, at whichever ends, each item has been returned.
pub fn enough_calls_return_each_item()
    ensures { (items : List (Family × List Bool)) (ends : List End) → length items ≤ length ends →
        GivesEach items (answers_to items ends) }
{}
