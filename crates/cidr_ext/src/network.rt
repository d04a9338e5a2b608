//! Networks as the nodes of a tree of prefixes.
ghost use Rattle.std.specs.Prelude.{◌≡◌, ◌↔◌, ◌-◌, ◌<◌, ◌≤◌, ◌⊎◌, ◌++◌, ◌∷◌, [], IsTrue, MatchOption, false, length, true, ℕ};
ghost use Rattle.cidr.specs.model.Network.{BeginsWith};
ghost use Rattle.cidr_ext.specs.model.Tree.{AreSiblings, HaveCommon, IsHalfOf, IsSpanning, IsSupernet};

use cidr::NetworkBits;

/// Networks as the nodes of a binary tree, for `Ipv4Cidr`, `Ipv6Cidr` and `AnyIpCidr`.
///
/// A prefix length counts the bits as `len` of `BitString` does: in `AnyIpCidr` the family bit is one of them, so that
/// `Any` is the parent of 0.0.0.0/0 and of ::/0. No call allocates, and each takes constant time.
pub trait NetworkExt: NetworkBits + Copy {
    /// The network that is twice as large and contains this one, or `None` for the network of no bits.
    ///
    /// ```
    /// "10.128.0.0/9".parse::<Ipv4Cidr>()?.parent() // Some(10.0.0.0/8)
    /// "::/0".parse::<Ipv6Cidr>()?.parent() // None
    /// ```
    fn parent(&self) -> Option<Self>
        ensures { MatchOption result (Self.bits self.now ≡ [])
            (λ parent. IsHalfOf (Self.bits self.now) (Self.bits parent)) };

    /// The network of prefix length `len` that contains this one, or `None` where `len` is above the length of this
    /// one.
    ///
    /// ```
    /// let network = "10.128.0.0/9".parse::<Ipv4Cidr>()?;
    /// network.supernet(6) // Some(8.0.0.0/6)
    /// network.supernet(10) // None
    /// ```
    fn supernet(&self, len: usize) -> Option<Self>
        ensures { MatchOption result (length (Self.bits self.now) < len)
            (λ wider. IsSupernet len (Self.bits self.now) (Self.bits wider)) };

    /// Both halves of the network, the lower one first, or `None` for a network of full prefix length, which has only
    /// one address.
    ///
    /// ```
    /// "10.0.0.0/8".parse::<Ipv4Cidr>()?.halves() // Some((10.0.0.0/9, 10.128.0.0/9))
    /// ```
    fn halves(&self) -> Option<(Self, Self)>
        ensures { MatchOption result (Self.room self.now ≡ 0)
            (λ halves. (Self.bits halves.0 ≡ Self.bits self.now ++ false ∷ []) ×
            (Self.bits halves.1 ≡ Self.bits self.now ++ true ∷ [])) };

    /// The other half of the parent, or `None` for the network of no bits.
    ///
    /// ```
    /// "10.0.0.0/9".parse::<Ipv4Cidr>()?.sibling() // Some(10.128.0.0/9)
    /// ```
    fn sibling(&self) -> Option<Self>
        ensures { MatchOption result (Self.bits self.now ≡ [])
            (λ other. AreSiblings (Self.bits self.now) (Self.bits other)) };

    /// Whether the two networks are the halves of one, in either order. No network is its own sibling.
    ///
    /// ```
    /// let network = "10.0.0.0/9".parse::<Ipv4Cidr>()?;
    /// network.is_sibling_of(&"10.128.0.0/9".parse()?) // true
    /// network.is_sibling_of(&"11.0.0.0/9".parse()?) // false
    /// ```
    fn is_sibling_of(&self, other: &Self) -> bool
        ensures { IsTrue result ↔ AreSiblings (Self.bits self.now) (Self.bits other.now) };

    /// Whether the two networks have an address in common, which is where one of them contains the other.
    ///
    /// ```
    /// let network = "192.0.2.0/24".parse::<Ipv4Cidr>()?;
    /// network.overlaps(&"192.0.0.0/16".parse()?) // true
    /// network.overlaps(&"192.0.3.0/24".parse()?) // false
    /// ```
    fn overlaps(&self, other: &Self) -> bool
        ensures nested { IsTrue result ↔ (BeginsWith (Self.bits self.now) (Self.bits other.now) ⊎
            BeginsWith (Self.bits other.now) (Self.bits self.now)) }
        ensures common { (w : ℕ) → length (Self.bits self.now) ≤ w → length (Self.bits other.now) ≤ w →
            (IsTrue result ↔ HaveCommon w (Self.bits self.now) (Self.bits other.now)) };

    /// The longest network that contains both, that is, the one with the fewest addresses.
    ///
    /// ```
    /// let network = "192.0.2.0/24".parse::<Ipv4Cidr>()?;
    /// network.spanning(&"192.0.3.0/25".parse()?) // 192.0.2.0/23
    /// ```
    fn spanning(&self, other: &Self) -> Self
        ensures { IsSpanning (Self.bits self.now) (Self.bits other.now) (Self.bits result) };
}

impl<C: NetworkBits + Copy> NetworkExt for C {
    fn parent(&self) -> Option<C> {
        self.supernet(self.len().checked_sub(1)?)
    }

    fn supernet(&self, len: usize) -> Option<C> {
        if self.len() < len {
            return None;
        }
        let mut wider = *self;
        wider.clip(len);
        Some(wider)
    }

    fn halves(&self) -> Option<(C, C)> {
        if self.room() == 0 {
            return None;
        }
        let (mut lower, mut upper) = (*self, *self);
        lower.append(false);
        upper.append(true);
        Some((lower, upper))
    }

    fn sibling(&self) -> Option<C> {
        let last = self.len().checked_sub(1)?;
        let mut other = *self;
        other.flip(last);
        Some(other)
    }

    fn is_sibling_of(&self, other: &C) -> bool {
        match self.sibling() {
            Some(sibling) => sibling == *other,
            None => false,
        }
    }

    fn overlaps(&self, other: &C) -> bool {
        let shared = self.shared_prefix_len(other);
        shared == self.len() || shared == other.len()
    }

    fn spanning(&self, other: &C) -> C {
        let mut span = *self;
        span.clip(self.shared_prefix_len(other));
        span
    }
}
