//! What holds of the calls together, as the contract of a function that does nothing.
ghost use Rattle.std.specs.Prelude.{◌≡◌, ◌⊎◌, ◌<◌, ℕ, Bool, List, length, take};
ghost use Rattle.std.specs.declared.cmp.Ordering.TheVariants.{Less};
ghost use Rattle.cidr.specs.either.IpNetwork.{any_bits};
ghost use Rattle.cidr_lookup.specs.Tables.{ipv4_steps, ipv6_steps};
ghost use Rattle.cidr_c.specs.calls.Lookups.{ContainsAsked};
ghost use Rattle.cidr_c.specs.model.Codes.{no_memory};
ghost use Rattle.cidr_c.specs.model.Orders.{IsCompared, IsTotal, host_value_order, network_order};
ghost use Rattle.cidr_c.specs.model.Tables.{IsBuilt, IsChecked};
ghost use Rattle.cidr_c.specs.model.Values.{IsHostValue, IsNetworkValue, network_in};
ghost use Rattle.cidr_c.specs.declared.tables.CTableSizes.{CTableSizes};
ghost use Rattle.cidr_c.specs.declared.values.CValue.{CValue};

/// What `pcidr_compare` and `pcidr_compare_hosts` return is a total order of all values, whatever their fields are.
#[tactic(auto, using(crate::proofs::Orders::networks_total, crate::proofs::Orders::hosts_total))]
fn comparing_is_a_total_order()
    ensures networks { IsTotal (IsCompared IsNetworkValue network_order) }
    ensures hosts { IsTotal (IsCompared IsHostValue host_value_order) }
{}

/// Of two networks that contain a third one, that which comes first in the order of `pcidr_compare` is the shorter one.
fn covering_networks_come_shortest_first()
    ensures { (one other : CValue) (asked : List Bool) → network_order one other ≡ Less
        → ContainsAsked (any_bits (network_in one)) asked → ContainsAsked (any_bits (network_in other)) asked
        → length (any_bits (network_in one)) < length (any_bits (network_in other)) }
{}

/// A table that was built is accepted, where it is checked with the same networks and there is memory for that.
fn built_tables_are_accepted()
    ensures ipv4 { (networks : List (ℕ × ℕ)) (first words first_new words_new : List ℕ) (sizes sizes_new : CTableSizes) (code : ℕ)
        → IsBuilt 32 4 ipv4_steps networks first words first_new words_new sizes sizes_new 0
        → IsChecked 32 4 sizes_new.steps networks (take sizes_new.first first_new) (take sizes_new.words words_new) code
        → (code ≡ 0) ⊎ (code ≡ no_memory) }
    ensures ipv6 { (networks : List (ℕ × ℕ)) (first words first_new words_new : List ℕ) (sizes sizes_new : CTableSizes) (code : ℕ)
        → IsBuilt 128 2 ipv6_steps networks first words first_new words_new sizes sizes_new 0
        → IsChecked 128 2 sizes_new.steps networks (take sizes_new.first first_new) (take sizes_new.words words_new) code
        → (code ≡ 0) ⊎ (code ≡ no_memory) }
{}
