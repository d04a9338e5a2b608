//! The walk of an IPv4 pair.
ghost use Rattle.std.specs.Prelude.{◌≡◌};
ghost use Rattle.cidr.specs.declared.family.Family.TheVariants.{Ipv4};

use crate::addr::v4::Ipv4Addr;
use crate::inet::host::Ipv4Inet;
use crate::inet_iterator::InetIterator;
use crate::inet_pair::host_pair::Ipv4InetPair;

impl Ipv4InetPair {
    ghost use Rattle.cidr.specs.model.Walk.{pair_hosts};

    /// The hosts from the first address to the second inclusive, ascending, with the prefix length of the pair. There
    /// are none where the first is above the second.
    ///
    /// ```
    /// let host = "192.0.2.49/28".parse::<Ipv4Inet>()?;
    /// let pair = Ipv4InetPair::new(host, host.last())?;
    /// pair.iter().next() // Some(192.0.2.49/28)
    /// pair.iter().count() // Some(15)
    /// ```
    pub fn iter(self) -> InetIterator<Ipv4Addr>
        ensures { result ≡ pair_hosts Ipv4 self }
    {
        InetIterator::_new(self)
    }
}

impl IntoIterator for Ipv4InetPair {
    ghost use Rattle.cidr.specs.model.Walk.{pair_hosts};

    type Item = Ipv4Inet;

    type IntoIter = InetIterator<Ipv4Addr>;

    ghost into_iter_gives = { λ p it. it ≡ pair_hosts Ipv4 p };

    fn into_iter(self) -> InetIterator<Ipv4Addr> {
        self.iter()
    }
}
