//! What holds of look-ups, as the contract of a function that does nothing.
ghost use Rattle.std.specs.Prelude.{◌≡◌, Bool, List, Option};
ghost use Rattle.std.specs.List.Sorted.{IsStrictlySortedBy};
ghost use Rattle.std.specs.Map.{keys_of};
ghost use Rattle.cidr_table.specs.model.Prefixes.{IsLookedUp};

use cidr::NetworkBits;

/// Of rows that ascend, a look-up key has one result: whatever calls look it up return the same row.
pub fn look_ups_have_one_result<C: NetworkBits, V>()
    ensures { (rows : List (C × V)) (asked : List Bool) (one other : Option (C × V)) → IsStrictlySortedBy C.cmp (keys_of rows)
        → IsLookedUp C.bits asked rows one → IsLookedUp C.bits asked rows other → one ≡ other }
{}
