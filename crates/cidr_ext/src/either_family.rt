//! Networks of either family as the nodes of two trees of prefixes.
ghost use Rattle.std.specs.Prelude.{◌≡◌, ◌≢◌, ◌↔◌, ◌<◌, ◌⊎◌, ◌++◌, ◌∷◌, [], IsTrue, MatchOption, false, length, true};
ghost use Rattle.cidr.specs.model.Network.{BeginsWith, width_of};
ghost use Rattle.cidr_ext.specs.model.Tree.{AreSiblings, IsHalfOf, IsSpanning, IsSupernet};

use crate::laws::length_is_within_the_width;
use crate::network::NetworkExt;
use cidr::{Cidr, IpCidr};

/// The calls of `NetworkExt` on `IpCidr`, in which each family has a tree of its own: 0.0.0.0/0 and ::/0 have no
/// parent, and no network contains both.
///
/// The result is of the family of the network. No call allocates, and each takes constant time.
pub trait IpCidrExt: Cidr {
    /// The network that is twice as large and contains this one, or `None` for 0.0.0.0/0 and ::/0.
    ///
    /// ```
    /// "10.128.0.0/9".parse::<IpCidr>()?.parent() // Some(V4(10.0.0.0/8))
    /// ```
    fn parent(&self) -> Option<Self>
        ensures { MatchOption result (Self.prefix self.now ≡ [])
            (λ parent. (Self.family_of parent ≡ Self.family_of self.now) ×
            IsHalfOf (Self.prefix self.now) (Self.prefix parent)) };

    /// The network of prefix length `len` that contains this one, or `None` where `len` is above the length of this
    /// one.
    ///
    /// ```
    /// "2001:db8::/48".parse::<IpCidr>()?.supernet(32) // Some(V6(2001:db8::/32))
    /// ```
    fn supernet(&self, len: u8) -> Option<Self>
        ensures { MatchOption result (length (Self.prefix self.now) < len)
            (λ wider. (Self.family_of wider ≡ Self.family_of self.now) ×
            IsSupernet len (Self.prefix self.now) (Self.prefix wider)) };

    /// Both halves of the network, the lower one first, or `None` for a network of full prefix length, 32 or 128.
    ///
    /// ```
    /// "10.0.0.0/8".parse::<IpCidr>()?.halves() // Some((V4(10.0.0.0/9), V4(10.128.0.0/9)))
    /// ```
    fn halves(&self) -> Option<(Self, Self)>
        ensures { MatchOption result (length (Self.prefix self.now) ≡ width_of (Self.family_of self.now))
            (λ halves. ((Self.family_of halves.0 ≡ Self.family_of self.now) ×
            (Self.prefix halves.0 ≡ Self.prefix self.now ++ false ∷ [])) ×
            ((Self.family_of halves.1 ≡ Self.family_of self.now) ×
            (Self.prefix halves.1 ≡ Self.prefix self.now ++ true ∷ []))) };

    /// The other half of the parent, or `None` for 0.0.0.0/0 and ::/0.
    ///
    /// ```
    /// "10.0.0.0/9".parse::<IpCidr>()?.sibling() // Some(V4(10.128.0.0/9))
    /// ```
    fn sibling(&self) -> Option<Self>
        ensures { MatchOption result (Self.prefix self.now ≡ [])
            (λ other. (Self.family_of other ≡ Self.family_of self.now) ×
            AreSiblings (Self.prefix self.now) (Self.prefix other)) };

    /// Whether the two networks are the halves of one, in either order. No network is its own sibling.
    ///
    /// ```
    /// let network = "10.0.0.0/9".parse::<IpCidr>()?;
    /// network.is_sibling_of(&"10.128.0.0/9".parse()?) // true
    /// ```
    fn is_sibling_of(&self, other: &Self) -> bool
        ensures { IsTrue result ↔ ((Self.family_of self.now ≡ Self.family_of other.now) ×
            AreSiblings (Self.prefix self.now) (Self.prefix other.now)) };

    /// Whether the two networks have an address in common, which is where one of them contains the other.
    ///
    /// ```
    /// let network = "192.0.2.0/24".parse::<IpCidr>()?;
    /// network.overlaps(&"192.0.0.0/16".parse()?) // true
    /// network.overlaps(&"::/0".parse()?) // false
    /// ```
    fn overlaps(&self, other: &Self) -> bool
        ensures { IsTrue result ↔ ((Self.family_of self.now ≡ Self.family_of other.now) ×
            (BeginsWith (Self.prefix self.now) (Self.prefix other.now) ⊎
            BeginsWith (Self.prefix other.now) (Self.prefix self.now))) };

    /// The longest network that contains both, or `None` for two families.
    ///
    /// ```
    /// let network = "192.0.2.0/24".parse::<IpCidr>()?;
    /// network.spanning(&"192.0.3.0/25".parse()?) // Some(V4(192.0.2.0/23))
    /// network.spanning(&"2001:db8::/32".parse()?) // None
    /// ```
    fn spanning(&self, other: &Self) -> Option<Self>
        ensures { MatchOption result (Self.family_of self.now ≢ Self.family_of other.now)
            (λ span. (Self.family_of span ≡ Self.family_of self.now) ×
            (Self.family_of span ≡ Self.family_of other.now) ×
            IsSpanning (Self.prefix self.now) (Self.prefix other.now) (Self.prefix span)) };
}

impl IpCidrExt for IpCidr {
    fn parent(&self) -> Option<IpCidr> {
        match self {
            IpCidr::V4(network) => Some(IpCidr::V4(network.parent()?)),
            IpCidr::V6(network) => Some(IpCidr::V6(network.parent()?)),
        }
    }

    fn supernet(&self, len: u8) -> Option<IpCidr> {
        match self {
            IpCidr::V4(network) => Some(IpCidr::V4(network.supernet(usize::from(len))?)),
            IpCidr::V6(network) => Some(IpCidr::V6(network.supernet(usize::from(len))?)),
        }
    }

    fn halves(&self) -> Option<(IpCidr, IpCidr)> {
        length_is_within_the_width(self);
        match self {
            IpCidr::V4(network) => {
                let (lower, upper) = network.halves()?;
                Some((IpCidr::V4(lower), IpCidr::V4(upper)))
            }
            IpCidr::V6(network) => {
                let (lower, upper) = network.halves()?;
                Some((IpCidr::V6(lower), IpCidr::V6(upper)))
            }
        }
    }

    fn sibling(&self) -> Option<IpCidr> {
        match self {
            IpCidr::V4(network) => Some(IpCidr::V4(network.sibling()?)),
            IpCidr::V6(network) => Some(IpCidr::V6(network.sibling()?)),
        }
    }

    fn is_sibling_of(&self, other: &IpCidr) -> bool {
        match (self, other) {
            (IpCidr::V4(network), IpCidr::V4(other)) => network.is_sibling_of(other),
            (IpCidr::V6(network), IpCidr::V6(other)) => network.is_sibling_of(other),
            _ => false,
        }
    }

    fn overlaps(&self, other: &IpCidr) -> bool {
        match (self, other) {
            (IpCidr::V4(network), IpCidr::V4(other)) => network.overlaps(other),
            (IpCidr::V6(network), IpCidr::V6(other)) => network.overlaps(other),
            _ => false,
        }
    }

    fn spanning(&self, other: &IpCidr) -> Option<IpCidr> {
        match (self, other) {
            (IpCidr::V4(network), IpCidr::V4(other)) => Some(IpCidr::V4(network.spanning(other))),
            (IpCidr::V6(network), IpCidr::V6(other)) => Some(IpCidr::V6(network.spanning(other))),
            _ => None,
        }
    }
}
