//! Parts of small programs, written by the public calls of `cidr`, `cidr_table`, `cidr_forwarding`, `cidr_lookup`,
//! `cidr_routes`, `cidr_mmdb`, `cidr_rules`, `cidr_sets` and `cidr_ext` only and proved from their public contracts only.
#![tactic(auto)]

pub mod access_list;
pub mod address_line;
pub mod address_plan;
pub mod address_pool;
pub mod address_sets;
pub mod aggregate;
pub mod at_one_family;
pub mod compact;
pub mod config_line;
pub mod consequences;
pub mod filter_rules;
pub mod forwarding;
pub mod headline;
pub mod host_lengths;
pub mod look_ups;
pub mod lookup_tables;
pub mod mmdb_networks;
pub mod names_and_subnets;
pub mod nesting;
pub mod network_lengths;
pub mod network_loops;
pub mod network_type;
pub mod next_hops;
pub mod over_traits;
pub mod prefix_bytes;
pub mod prefix_lists;
pub mod prefix_tree;
pub mod ranges_and_back;
pub mod read_back;
pub mod reading;
pub mod ready_sets;
pub mod route_hits;
pub mod route_origins;
pub mod routing_table;
pub mod strict_parsers;
pub mod strings;
pub mod walk_calls;
