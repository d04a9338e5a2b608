//! Laws, each as the contract of a function that does nothing. After a call, a caller's proof has the law; a program
//! that runs needs none of these.
ghost use Rattle.std.specs.Prelude.{◌≡◌, ◌+◌, ◌++◌, ℕ, Bool, List, Option, Contains, drop, take};
ghost use Rattle.cidr_routes.specs.Origins.{IsValidity};
ghost use Rattle.cidr_routes.specs.PrefixLists.{IsShadowed, PermitSame};
ghost use Rattle.cidr_routes.specs.declared.lists.Row.{Row};
ghost use Rattle.cidr_routes.specs.declared.origins.Payload.{Payload};
ghost use Rattle.cidr_routes.specs.declared.origins.Validity.{Validity};

use cidr::NetworkBits;

/// One answer fits what some payloads say of a route, and no other.
pub fn one_validity_fits<C: NetworkBits + Copy>()
    ensures { (vrps : List (Payload C)) (route : List Bool) (origin : Option ℕ) (one other : Validity)
        → IsValidity C.bits route origin (Contains vrps) one → IsValidity C.bits route origin (Contains vrps) other → one ≡ other }
{}

/// Without a row that decides nothing, a prefix list permits the same networks.
pub fn shadowed_rows_change_nothing<C: NetworkBits + Copy>()
    ensures { (w : ℕ) (rows : List (Row C)) (i : ℕ) → IsShadowed C.bits w rows i
        → PermitSame C.bits w (take i rows ++ drop (i + 1) rows) rows }
{}
