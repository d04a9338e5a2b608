//! The walk over an IPv4 network.
ghost use Rattle.std.specs.Prelude.{◌≡◌};
ghost use Rattle.cidr.specs.declared.family.Family.TheVariants.{Ipv4};

use crate::addr::v4::Ipv4Addr;
use crate::cidr::network::Ipv4Cidr;
use crate::inet::host::Ipv4Inet;
use crate::inet_iterator::InetIterator;

impl Ipv4Cidr {
    ghost use Rattle.cidr.specs.model.Walk.{network_hosts, network_walk, HasExactly};

    /// The hosts at all addresses of the network, ascending, with its prefix length. None is left out: the network
    /// address and the broadcast address are among them.
    ///
    /// ```
    /// let mut hosts = "192.0.2.48/30".parse::<Ipv4Cidr>()?.iter();
    /// hosts.next() // Some(192.0.2.48/30)
    /// hosts.next_back() // Some(192.0.2.51/30)
    /// ```
    pub fn iter(&self) -> InetIterator<Ipv4Addr>
        ensures walk { result ≡ network_hosts Ipv4 self.now }
        ensures exactly { HasExactly Ipv4 self.now (network_walk Ipv4 self.now) }
    {
        InetIterator::_new(self.ends())
    }
}

impl IntoIterator for Ipv4Cidr {
    ghost use Rattle.cidr.specs.model.Walk.{network_hosts, network_walk, HasExactly};

    type Item = Ipv4Inet;

    type IntoIter = InetIterator<Ipv4Addr>;

    ghost into_iter_gives = { λ p it. (it ≡ network_hosts Ipv4 p) × HasExactly Ipv4 p (network_walk Ipv4 p) };

    fn into_iter(self) -> InetIterator<Ipv4Addr> {
        self.iter()
    }
}
