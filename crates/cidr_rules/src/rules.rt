//! Access lists: rules in order, each of which permits or denies the packets of a region.
ghost use Rattle.std.specs.Prelude.{◌≡◌, ◌≢◌};
ghost use Rattle.cidr_rules.specs.Packets.{fields_of};
ghost use Rattle.cidr_rules.specs.Lists.{decided, is_permit, is_permitted};

use crate::fields::FieldValue;
use crate::regions::{Packet, Region};

/// What a rule does with its packets.
#[derive(Debug, Clone, Copy, Drop, PartialEq, Eq)]
pub enum Action {
    /// The packets are permitted.
    Permit,
    /// The packets are denied.
    Deny,
}

/// A rule of an access list.
#[derive(Debug, Clone, Copy, Drop)]
pub struct Rule<A: FieldValue> {
    /// What the rule does with a packet of its region that no earlier rule has.
    pub action: Action,
    /// The packets that the rule is about.
    pub region: Region<A>,
}

/// The index of the rule that decides a packet, counted from 0: the first that has it. A packet that no rule has is denied.
///
/// It goes through the rules up to the one that decides, O(n), and takes no memory.
///
/// ```
/// decides(&rules, &packet) // Some(0)
/// ```
pub fn decides<A: FieldValue>(rules: &[Rule<A>], packet: &Packet<A>) -> Option<usize>
    ensures { result ≡ decided A.number rules.now (fields_of A.number packet.now) }
{
    rules.iter().position(|rule| rule.region.contains(packet))
}

/// Whether a packet is permitted: by the first rule that has it. A packet that no rule has is denied.
///
/// It goes through the rules up to the one that decides, O(n), and takes no memory.
///
/// ```
/// permits(&rules, &packet) // true
/// ```
pub fn permits<A: FieldValue>(rules: &[Rule<A>], packet: &Packet<A>) -> bool
    ensures { result ≡ is_permitted A.number rules.now (fields_of A.number packet.now) }
{
    for rule in rules {
        if rule.region.contains(packet) {
            return is_permit(rule.action);
        }
    }
    false
}

/// Whether the packets of a rule are permitted.
pub(crate) fn is_permit(action: Action) -> bool
    ensures { result ≡ is_permit action }
{
    match action {
        Action::Permit => true,
        Action::Deny => false,
    }
}
