//! Many networks at once.
ghost use Rattle.std.specs.Prelude.{◌≡◌, ◌⊎◌, ◌≤◌, drop, length, map, take, MatchResult};
ghost use Rattle.cidr_c.specs.calls.Batches.{AreNetworkValues};
ghost use Rattle.cidr_c.specs.model.Codes.{no_memory, no_value};
ghost use Rattle.cidr_c.specs.model.Values.{network_in};

use crate::codes::{NO_MEMORY, NO_VALUE};
use crate::values::{CValue, put_network, value_network};
use cidr::AnyIpCidr;
use std::alloc::Global;

/// The networks that values are, or the number of the error.
pub fn networks_of(alloc: Global, values: &[CValue]) -> Result<Vec<AnyIpCidr>, u32>
    ensures { MatchResult result
        (λ networks. AreNetworkValues values.now × (networks.items ≡ map network_in values.now))
        (λ code. ((code ≡ no_value) × ¬ (AreNetworkValues values.now)) ⊎ (code ≡ no_memory)) }
{
    let Ok(mut networks) = Vec::with_capacity(alloc, values.len()) else {
        return Err(NO_MEMORY);
    };
    for value in values {
        let Some(network) = value_network(value) else {
            return Err(NO_VALUE);
        };
        let Ok(()) = networks.push(network) else {
            return Err(NO_MEMORY);
        };
    }
    Ok(networks)
}

/// Puts networks to the front of a room for values.
pub fn put(networks: &[AnyIpCidr], out: &mut [CValue])
    requires { length networks.now ≤ length out.old }
    ensures networks { AreNetworkValues (take (length networks.now) out.new) }
    ensures values { map network_in (take (length networks.now) out.new) ≡ networks.now }
    ensures behind { drop (length networks.now) out.new ≡ drop (length networks.now) out.old }
{
    for i in 0..networks.len() {
        put_network(&networks[i], &mut out[i]);
    }
}
