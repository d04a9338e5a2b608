//! A route that is valid stays valid where payloads are added.
ghost use Rattle.std.specs.Prelude.{◌≡◌, Contains, IsTrue};
ghost use Rattle.std.specs.Bool.{Decides};
ghost use Rattle.cidr_routes.specs.declared.origins.Payload.{Payload};
ghost use Rattle.cidr_routes.specs.declared.origins.Validity.TheVariants.{Valid};

use cidr_lookup::Keyed;
use cidr_routes::laws::one_validity_fits;
use cidr_routes::{Payloads, Validity};

/// Always true: where a route is valid by some payloads, it is valid by these and more.
pub fn stays_valid<C: Keyed>(
    payloads: &Payloads<C>,
    more: &Payloads<C>,
    route: &C,
    origin: Option<u32>,
) -> bool
    requires { (vrp : Payload C) → Contains payloads.now vrp → Contains more.now vrp }
    ensures { IsTrue result }
{
    one_validity_fits::<C>();
    let after = more.validity(route, origin);
    match payloads.validity(route, origin) {
        Validity::Valid => is_valid(after),
        _ => true,
    }
}

/// Whether an answer is that the route is valid.
fn is_valid(answer: Validity) -> bool
    ensures { Decides result (answer ≡ Valid) }
{
    matches!(answer, Validity::Valid)
}
