//! The walk of an IPv6 pair.
ghost use Rattle.std.specs.Prelude.{◌≡◌};
ghost use Rattle.cidr.specs.declared.family.Family.TheVariants.{Ipv6};

use crate::addr::v6::Ipv6Addr;
use crate::inet::host::Ipv6Inet;
use crate::inet_iterator::InetIterator;
use crate::inet_pair::host_pair::Ipv6InetPair;

impl Ipv6InetPair {
    ghost use Rattle.cidr.specs.model.Walk.{pair_hosts};

    /// The hosts from the first address to the second inclusive, ascending, with the prefix length of the pair. There
    /// are none where the first is above the second.
    ///
    /// ```
    /// let host = "2001:db8::5/120".parse::<Ipv6Inet>()?;
    /// let pair = Ipv6InetPair::new(host.first(), host)?;
    /// pair.iter().count() // Some(6)
    /// ```
    pub fn iter(self) -> InetIterator<Ipv6Addr>
        ensures { result ≡ pair_hosts Ipv6 self }
    {
        InetIterator::_new(self)
    }
}

impl IntoIterator for Ipv6InetPair {
    ghost use Rattle.cidr.specs.model.Walk.{pair_hosts};

    type Item = Ipv6Inet;

    type IntoIter = InetIterator<Ipv6Addr>;

    ghost into_iter_gives = { λ p it. it ≡ pair_hosts Ipv6 p };

    fn into_iter(self) -> InetIterator<Ipv6Addr> {
        self.iter()
    }
}
