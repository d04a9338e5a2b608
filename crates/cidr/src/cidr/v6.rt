//! The walk over an IPv6 network.
ghost use Rattle.std.specs.Prelude.{◌≡◌};
ghost use Rattle.cidr.specs.declared.family.Family.TheVariants.{Ipv6};

use crate::addr::v6::Ipv6Addr;
use crate::cidr::network::Ipv6Cidr;
use crate::inet::host::Ipv6Inet;
use crate::inet_iterator::InetIterator;

impl Ipv6Cidr {
    ghost use Rattle.cidr.specs.model.Walk.{network_hosts, network_walk, HasExactly};

    /// The hosts at all addresses of the network, ascending, with its prefix length. None is left out.
    ///
    /// ```
    /// let mut hosts = "2001:db8::/126".parse::<Ipv6Cidr>()?.iter();
    /// hosts.next() // Some(2001:db8::/126)
    /// hosts.next_back() // Some(2001:db8::3/126)
    /// ```
    pub fn iter(&self) -> InetIterator<Ipv6Addr>
        ensures walk { result ≡ network_hosts Ipv6 self.now }
        ensures exactly { HasExactly Ipv6 self.now (network_walk Ipv6 self.now) }
    {
        InetIterator::_new(self.ends())
    }
}

impl IntoIterator for Ipv6Cidr {
    ghost use Rattle.cidr.specs.model.Walk.{network_hosts, network_walk, HasExactly};

    type Item = Ipv6Inet;

    type IntoIter = InetIterator<Ipv6Addr>;

    ghost into_iter_gives = { λ p it. (it ≡ network_hosts Ipv6 p) × HasExactly Ipv6 p (network_walk Ipv6 p) };

    fn into_iter(self) -> InetIterator<Ipv6Addr> {
        self.iter()
    }
}
