//! Laws, each as the contract of a function that does nothing. After a call, a caller's proof has the law; a program
//! that runs needs none of these.
ghost use Rattle.std.specs.Prelude.{◌≡◌, ◌↔◌, ◌<◌, ◌≤◌, [], ℕ, Bool, List, Some, length, map};
ghost use Rattle.std.specs.Cmp.Lexicographic.{pointwise};
ghost use Rattle.std.specs.List.{slice_get};
ghost use Rattle.cidr.specs.either.IpAddress.{TellsEqual};
ghost use Rattle.cidr.specs.model.Network.{BeginsWith};
ghost use Rattle.cidr_table.specs.model.Cover.{AreNetworks, Covers, CoverSame, IsFull};
ghost use Rattle.cidr_table.specs.model.Cover.{IsReduced};
ghost use Rattle.cidr_table.specs.model.CoverAddresses.{AreIpNetworks, IsIpAddressBits};
ghost use Rattle.cidr_sets.specs.model.Counts.{AreAddresses};
ghost use Rattle.cidr_sets.specs.model.FirstRules.{IsDeciding, IsFirstRule, IsPermitted, IsShadowed};
ghost use Rattle.cidr_sets.specs.model.Ranges.{AreRanges, IsInSome};
ghost use Rattle.cidr_sets.specs.model.Sets.{IsSetOf};
ghost use Rattle.cidr_sets.specs.declared.access.Action.{Action};

use cidr::NetworkBits;

/// Sets of the same addresses are the same lists of networks.
pub fn equal_sets_are_equal_lists()
    ensures { (w : ℕ) (these those : List (List Bool)) → IsReduced w these → IsReduced w those
        → CoverSame w these those → these ≡ those }
{}

/// Sets are `==` exactly if they are the same list of networks, and lists of networks of the same bits are the same.
pub fn equal_sets_are_the_same<C: NetworkBits + Copy>()
    ensures eq { TellsEqual (pointwise C.eq) }
    ensures bits { (these those : List C) → map C.bits these ≡ map C.bits those → these ≡ those }
{}

/// A set without addresses has no networks.
pub fn sets_without_addresses_are_empty()
    ensures { (w : ℕ) (set : List (List Bool)) → IsReduced w set
        → ((a : List Bool) → length a ≡ w → ¬ (Covers set a)) → set ≡ [] }
{}

/// A set has all addresses of a network exactly if one of its networks contains it.
pub fn full_networks_lie_in_one()
    ensures { (w : ℕ) (set : List (List Bool)) (p : List Bool) → IsReduced w set → length p ≤ w
        → IsFull w set p ↔ Covers set p }
{}

/// The set of the addresses that are in some range of a set, as its call `ranges` gives them, is that set again.
pub fn sets_are_their_ranges()
    ensures { (w : ℕ) (set again : List (List Bool)) (ranges : List (List Bool × List Bool)) → IsReduced w set
        → AreRanges w (Covers set) ranges → IsSetOf w (IsInSome ranges) again → again ≡ set }
{}

/// Networks have one list of addresses, so that the calls of a set that tell of it by its count, by an index or one by
/// one tell of the same list.
pub fn addresses_are_one_list()
    ensures { (w : ℕ) (networks these those : List (List Bool)) → AreAddresses w networks these
        → AreAddresses w networks those → these ≡ those }
{}

/// The set of what an access list permits, as [`permitted`](crate::access::permitted) gives it by lists of 129 bits,
/// has an address exactly if the first rule whose network contains the address permits it: an address of `v` bits, as
/// 32 in IPv4 and 128 in IPv6, by `width`, and one of either family by `ip`.
pub fn permitted_sets_decide_addresses()
    ensures width { (w v : ℕ) (networks set : List (List Bool)) (actions : List Action) → v ≤ w
        → AreNetworks v networks → IsSetOf w (IsPermitted networks actions) set
        → IsSetOf v (IsPermitted networks actions) set }
    ensures ip { (networks set : List (List Bool)) (actions : List Action) → AreIpNetworks networks
        → IsSetOf 129 (IsPermitted networks actions) set
        → (a : List Bool) → IsIpAddressBits a → Covers set a ↔ IsPermitted networks actions a }
{}

/// Each address of a rule's network is decided by some rule, and where no address reaches the rule, only by earlier
/// ones.
pub fn shadowed_rules_are_decided_earlier()
    ensures some { (networks : List (List Bool)) (i : ℕ) (p a : List Bool) → slice_get networks i ≡ Some p
        → BeginsWith a p → (j : ℕ) × IsFirstRule networks a j }
    ensures earlier { (w : ℕ) (networks : List (List Bool)) (i j : ℕ) (p : List Bool) → slice_get networks i ≡ Some p
        → IsShadowed w networks i → IsDeciding w networks p j → j < i }
{}

/// Two access lists permit the same addresses exactly if their sets, as [`permitted`](crate::access::permitted) returns
/// them, are equal.
pub fn equal_sets_permit_the_same()
    ensures { (w : ℕ) (these those : List (List Bool)) (actions others : List Action) (set other : List (List Bool))
        → IsSetOf w (IsPermitted these actions) set → IsSetOf w (IsPermitted those others) other
        → (set ≡ other) ↔ ((a : List Bool) → length a ≡ w → IsPermitted these actions a ↔ IsPermitted those others a) }
{}
