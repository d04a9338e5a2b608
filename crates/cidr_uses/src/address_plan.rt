//! An address plan: a site cut into networks of /64, each named in reverse DNS.
ghost use Rattle.std.specs.Prelude.{◌≡◌, ◌<◌, ◌≤◌, length, map, IfOk, MatchOption};
ghost use Rattle.cidr.specs.declared.family.Family.TheVariants.{Ipv6};
ghost use Rattle.cidr_ext.specs.texts.Reverse.{reverse_text};
ghost use Rattle.cidr_ext.specs.model.Subnets.{subnets_of, IsSubnetAt, NoSubnetAt};
ghost use Rattle.cidr_ext.specs.texts.Zones.{names_of};

use arrayvec::ArrayString;
use cidr::Ipv6Cidr;
use cidr_ext::{CidrExt, CidrReverseName};
use std::alloc::{AllocError, Global};

/// Number `index` of the /64 networks of a site with its name in reverse DNS, or `None` where the site has no such
/// network.
pub fn lan(site: &Ipv6Cidr, index: u128) -> Option<(Ipv6Cidr, ArrayString<72>)>
    ensures { MatchOption result (NoSubnetAt 128 site.now 64 index)
        (λ lan. ¬ (NoSubnetAt 128 site.now 64 index) × IsSubnetAt site.now 64 index lan.0
        × (lan.1.bytes ≡ reverse_text Ipv6 lan.0)) }
{
    let lan = site.subnet(64, index)?;
    Some((lan, lan.reverse_name()?))
}

/// The names of all /64 networks of a site, in the order of the networks, or `None` where the site is smaller than
/// that.
pub fn lan_names(alloc: Global, site: &Ipv6Cidr) -> Result<Option<Vec<ArrayString<72>>>, AllocError>
    ensures { IfOk result (λ names. MatchOption names (64 < length site.now)
        (λ names. (length site.now ≤ 64)
        × (map (λ name. name.bytes) names.items ≡ names_of (subnets_of Ipv6 site.now 64)))) }
{
    let Some(lans) = site.subnets(64) else {
        return Ok(None);
    };
    let mut names = Vec::new(alloc);
    for lan in lans {
        names.push(lan.reverse_name().unwrap())?;
    }
    Ok(Some(names))
}
