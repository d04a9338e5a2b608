//! Steps that are a `u32`, which only IPv4 hosts have.
ghost use Rattle.std.specs.Prelude.{◌≡◌, ◌+◌, ◌-◌, ◌<◌, ◌≤◌, ◌↔◌, IsTrue};
ghost use Rattle.cidr.specs.model.Host.{IsHost, host_part, host_count, with_host_part, stepped_up, stepped_down, WrapsUp, WrapsDown};

use crate::inet::host::Ipv4Inet;
use std::ops::{Add, Sub};

impl Ipv4Inet {
    /// What `overflowing_add` returns, for a step that is a `u32`: the host `step` addresses further, and whether it
    /// wrapped.
    ///
    /// ```
    /// let host = "192.0.2.62/28".parse::<Ipv4Inet>()?;
    /// host.overflowing_add_u32(2) // (192.0.2.48/28, true)
    /// ```
    pub fn overflowing_add_u32(self, step: u32) -> (Ipv4Inet, bool)
        ensures stepped { result.0 ≡ stepped_up 32 self step }
        ensures wraps { IsTrue result.1 ↔ WrapsUp 32 self step }
        ensures host { IsHost 32 self }
    {
        self.overflowing_add(u128::from(step))
    }

    /// What `overflowing_sub` returns, for a step that is a `u32`: the host `step` addresses back, and whether it
    /// wrapped.
    ///
    /// ```
    /// let host = "192.0.2.62/28".parse::<Ipv4Inet>()?;
    /// host.overflowing_sub_u32(2) // (192.0.2.60/28, false)
    /// ```
    pub fn overflowing_sub_u32(self, step: u32) -> (Ipv4Inet, bool)
        ensures stepped { result.0 ≡ stepped_down 32 self step }
        ensures wraps { IsTrue result.1 ↔ WrapsDown self step }
        ensures host { IsHost 32 self }
    {
        self.overflowing_sub(u128::from(step))
    }
}

/// The host `step` addresses further in the network, as `overflowing_add_u32` returns it. The caller has to prove that
/// the step does not wrap; `overflowing_add_u32` and `next` tell whether it does.
impl Add<u32> for Ipv4Inet {
    type Output = Ipv4Inet;

    ghost can_add = { λ h s. host_part h + s < host_count 32 h };

    ghost add_gives = { λ h s r. r ≡ with_host_part 32 h (host_part h + s) };

    #[tactic(auto, using(crate::proofs::HostSteps::stay_laws))]
    fn add(self, step: u32) -> Ipv4Inet {
        self.overflowing_add_u32(step).0
    }
}

/// The host `step` addresses back in the network, as `overflowing_sub_u32` returns it. The caller has to prove that the
/// step does not wrap; `overflowing_sub_u32` and `previous` tell whether it does.
impl Sub<u32> for Ipv4Inet {
    type Output = Ipv4Inet;

    ghost can_sub = { λ h s. s ≤ host_part h };

    ghost sub_gives = { λ h s r. r ≡ with_host_part 32 h (host_part h - s) };

    #[tactic(auto, using(crate::proofs::HostSteps::stay_laws))]
    fn sub(self, step: u32) -> Ipv4Inet {
        self.overflowing_sub_u32(step).0
    }
}
