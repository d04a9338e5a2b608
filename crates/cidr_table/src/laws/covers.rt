//! What holds of the least cover (the minimal aggregate) of some networks, the keys, each as the contract of a
//! function that does nothing.
//!
//! The laws are on lists of bits alone. At 129 bits they are those of each family and of both: that to cover the same
//! long lists is to hold the same addresses is `covers_are_address_sets`.
ghost use Rattle.std.specs.Prelude.{◌≡◌, ◌≤◌, ◌↔◌, ℕ, Bool, List, length};
ghost use Rattle.std.specs.List.{Contains};
ghost use Rattle.cidr.specs.model.Network.{BeginsWith};
ghost use Rattle.cidr_table.specs.model.Cover.{IsLeastCover, CoverSame, AreNetworks, IsRefinement};
ghost use Rattle.cidr_table.specs.model.CoverAddresses.{AreIpNetworks, HoldSameIp};

/// Every list of networks has a least cover.
pub fn cover_exists()
    ensures { (w : ℕ) (keys : List (List Bool)) → (cover : List (List Bool)) × IsLeastCover w keys cover }
{}

/// A list of networks has one least cover at most.
pub fn cover_is_unique()
    ensures { (w : ℕ) (keys cover other : List (List Bool)) → IsLeastCover w keys cover → IsLeastCover w keys other
        → cover ≡ other }
{}

/// The least cover covers exactly what the keys cover.
pub fn cover_is_exact()
    ensures { (w : ℕ) (keys cover : List (List Bool)) → IsLeastCover w keys cover → CoverSame w keys cover }
{}

/// Each network of a list that covers the same lies in exactly one network of the cover, and each of these has at
/// least one of the list in it.
pub fn cover_is_refined_by_others()
    ensures { (w : ℕ) (keys cover networks : List (List Bool)) → IsLeastCover w keys cover → AreNetworks w networks
        → CoverSame w keys networks → IsRefinement cover networks }
{}

/// No list that covers the same is shorter than the least cover.
pub fn cover_is_shortest()
    ensures { (w : ℕ) (keys cover networks : List (List Bool)) → IsLeastCover w keys cover → AreNetworks w networks
        → CoverSame w keys networks → length cover ≤ length networks }
{}

/// Each network of the cover holds a key, so that it is one of the keys' type: no longer, and of no other family.
pub fn cover_is_of_the_keys_type()
    ensures holds { (w : ℕ) (keys cover : List (List Bool)) → IsLeastCover w keys cover → (p : List Bool)
        → Contains cover p → (key : List Bool) × Contains keys key × BeginsWith key p }
    ensures width { (w v : ℕ) (keys cover : List (List Bool)) → IsLeastCover w keys cover → AreNetworks v keys
        → AreNetworks v cover }
    ensures ip { (w : ℕ) (keys cover : List (List Bool)) → IsLeastCover w keys cover → AreIpNetworks keys
        → AreIpNetworks cover }
{}

/// Networks of addresses of `v` bits cover the same long lists exactly if they hold the same addresses, and so do
/// networks of both families.
pub fn covers_are_address_sets()
    ensures width { (w v : ℕ) (these those : List (List Bool)) → v ≤ w → AreNetworks v these → AreNetworks v those
        → CoverSame w these those ↔ CoverSame v these those }
    ensures ip { (these those : List (List Bool)) → AreIpNetworks these → AreIpNetworks those
        → CoverSame 129 these those ↔ HoldSameIp these those }
{}
