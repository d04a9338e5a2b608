//! Addresses for special purposes.
ghost use Rattle.std.specs.Prelude.{◌≡◌, ◌↔◌, ◌<◌, ◌≤◌, ◌⊎◌, IsTrue, MatchOption, true};
ghost use Rattle.cidr.specs.model.Network.{width_of, BeginsWith};
ghost use Rattle.cidr_ext.specs.internal.Entries.{are_entries, has_block, IsOneLongest};
ghost use Rattle.cidr_ext.specs.model.Special.{HasNoEntry, HasPurpose, IsEntryOf, IsGlobal, entries_of, multicast_of};

use crate::address::AddressExt;
use crate::registry::{IPV4_ENTRIES, IPV6_ENTRIES, Purpose, SpecialEntry};
use cidr::Family;

/// What an address is for, by the IANA IPv4 and IPv6 Special-Purpose Address Registries (RFC 6890), as of May 2025.
///
/// The registries are [`IPV4_ENTRIES`](crate::IPV4_ENTRIES) and [`IPV6_ENTRIES`](crate::IPV6_ENTRIES). A block may be
/// inside another, and the longest one that contains the address is its entry: 192.0.0.9 is a globally reachable
/// anycast address, although 192.0.0.0/24 around it is not globally reachable. An IPv4-mapped address is `Ipv4Mapped`,
/// whatever its IPv4 address is for. A look-up compares the address with each entry of the registry, 26 of IPv4 and 25
/// of IPv6, and allocates nothing.
pub trait SpecialAddress: AddressExt {
    /// The longest entry of the registry whose block contains the address, or `None` for an address of no special
    /// purpose.
    ///
    /// ```
    /// let entry = "192.0.0.9".parse::<IpAddr>()?.special_entry();
    /// entry.map(|entry| entry.purpose) // Some(PortControlAnycast)
    /// entry.map(|entry| entry.rfc) // Some(7723)
    /// "8.8.8.8".parse::<IpAddr>()?.special_entry().is_none() // true
    /// ```
    fn special_entry(self) -> Option<&'static SpecialEntry>
        ensures { MatchOption result (HasNoEntry (Self.family_of self) (Self.bits self))
            (λ entry. IsEntryOf (Self.family_of self) (Self.bits self) entry.now) }
    {
        let family = self.family();
        longest_match(entries(family), family.len(), self.to_number())
    }

    /// Whether the entry of the address has this purpose.
    ///
    /// ```
    /// let address = "198.19.0.1".parse::<IpAddr>()?;
    /// address.has_purpose(Purpose::Benchmarking) // true
    /// ```
    fn has_purpose(self, purpose: Purpose) -> bool
        ensures { IsTrue result ↔ HasPurpose purpose (Self.family_of self) (Self.bits self) }
    {
        match self.special_entry() {
            Some(entry) => entry.purpose == purpose,
            None => false,
        }
    }

    /// Whether the address is globally reachable by the registry: it has no entry, or one with "True" in this column.
    /// "N/A", as for 6to4 and Teredo, is not enough.
    ///
    /// It says nothing of whether the address is allocated, and is true for multicast addresses too.
    ///
    /// ```
    /// "8.8.8.8".parse::<IpAddr>()?.is_global() // true
    /// "100.64.0.1".parse::<IpAddr>()?.is_global() // false
    /// "64:ff9b::8.8.8.8".parse::<IpAddr>()?.is_global() // true
    /// "64:ff9b:1::8.8.8.8".parse::<IpAddr>()?.is_global() // false
    /// ```
    fn is_global(self) -> bool
        ensures { IsTrue result ↔ IsGlobal (Self.family_of self) (Self.bits self) }
    {
        match self.special_entry() {
            Some(entry) => entry.globally_reachable.unwrap_or(false),
            None => true,
        }
    }

    /// Whether the address is private: in 10.0.0.0/8, 172.16.0.0/12 or 192.168.0.0/16 (RFC 1918), or unique-local, in
    /// fc00::/7 (RFC 4193).
    ///
    /// ```
    /// "172.31.255.255".parse::<IpAddr>()?.is_private() // true
    /// "fd00::1".parse::<IpAddr>()?.is_private() // true
    /// "100.64.0.1".parse::<IpAddr>()?.is_private() // false
    /// ```
    fn is_private(self) -> bool
        ensures { IsTrue result ↔ (HasPurpose Purpose.PrivateUse (Self.family_of self) (Self.bits self) ⊎
            HasPurpose Purpose.UniqueLocal (Self.family_of self) (Self.bits self)) }
    {
        self.has_purpose(Purpose::PrivateUse) || self.has_purpose(Purpose::UniqueLocal)
    }

    /// Whether the address is for loopback: in 127.0.0.0/8 (RFC 1122, 3.2.1.3), or ::1 (RFC 4291, 2.5.3).
    ///
    /// ```
    /// "127.1.2.3".parse::<IpAddr>()?.is_loopback() // true
    /// ```
    fn is_loopback(self) -> bool
        ensures { IsTrue result ↔ HasPurpose Purpose.Loopback (Self.family_of self) (Self.bits self) }
    {
        self.has_purpose(Purpose::Loopback)
    }

    /// Whether the address is a unicast address of one link: in 169.254.0.0/16 (RFC 3927), or in fe80::/10 (RFC 4291,
    /// 2.5.6).
    ///
    /// ```
    /// "fe80::1".parse::<IpAddr>()?.is_link_local() // true
    /// ```
    fn is_link_local(self) -> bool
        ensures { IsTrue result ↔ HasPurpose Purpose.LinkLocal (Self.family_of self) (Self.bits self) }
    {
        self.has_purpose(Purpose::LinkLocal)
    }

    /// Whether the address is for documentation: in 192.0.2.0/24, 198.51.100.0/24 or 203.0.113.0/24 (RFC 5737), in
    /// 2001:db8::/32 (RFC 3849) or in 3fff::/20 (RFC 9637).
    ///
    /// ```
    /// "3fff::1".parse::<IpAddr>()?.is_documentation() // true
    /// ```
    fn is_documentation(self) -> bool
        ensures { IsTrue result ↔ HasPurpose Purpose.Documentation (Self.family_of self) (Self.bits self) }
    {
        self.has_purpose(Purpose::Documentation)
    }

    /// Whether the address is unspecified: 0.0.0.0 (RFC 1122, 3.2.1.3), or :: (RFC 4291, 2.5.2).
    ///
    /// ```
    /// "::".parse::<IpAddr>()?.is_unspecified() // true
    /// "0.0.0.1".parse::<IpAddr>()?.is_unspecified() // false
    /// ```
    fn is_unspecified(self) -> bool
        ensures { IsTrue result ↔ (HasPurpose Purpose.ThisHost (Self.family_of self) (Self.bits self) ⊎
            HasPurpose Purpose.Unspecified (Self.family_of self) (Self.bits self)) }
    {
        self.has_purpose(Purpose::ThisHost) || self.has_purpose(Purpose::Unspecified)
    }

    /// Whether the address is a multicast address: in 224.0.0.0/4 (RFC 5771), or in ff00::/8 (RFC 4291, 2.7). These are
    /// not in the registries, and it looks at the first bits alone.
    ///
    /// ```
    /// "239.255.255.255".parse::<IpAddr>()?.is_multicast() // true
    /// "240.0.0.0".parse::<IpAddr>()?.is_multicast() // false
    /// "ff02::1".parse::<IpAddr>()?.is_multicast() // true
    /// ```
    fn is_multicast(self) -> bool
        ensures { IsTrue result ↔ BeginsWith (Self.bits self) (multicast_of (Self.family_of self)) }
    {
        match self.family() {
            Family::Ipv4 => self.to_number() >> 28 == 0b1110,
            Family::Ipv6 => self.to_number() >> 120 == 0xff,
        }
    }
}

impl<A: AddressExt> SpecialAddress for A {}

impl SpecialEntry {
    /// Whether the block contains the address with this number.
    #[tactic(auto, unfolding(crate::specs::internal::Entries::has_block))]
    fn contains(&self, width: u8, number: u128) -> bool
        requires { width ≤ 128 }
        ensures { result ≡ has_block width number self.now }
    {
        let rest = u32::from(width.saturating_sub(self.len));
        number.checked_shr(rest) == self.first.checked_shr(rest)
    }

    /// Whether the block is smaller than that of another entry, or there is no other.
    fn is_longer(&self, other: Option<&SpecialEntry>) -> bool
        ensures { MatchOption other.entry (IsTrue result) (λ other. IsTrue result ↔ other.now.len < self.now.len) }
    {
        match other {
            Some(other) => other.len < self.len,
            None => true,
        }
    }
}

/// The registry of a family.
fn entries(family: Family) -> &'static [SpecialEntry]
    ensures all { result.now ≡ entries_of family }
    ensures distinct { are_entries (width_of family) result.now ≡ true }
{
    match family {
        Family::Ipv4 => &IPV4_ENTRIES,
        Family::Ipv6 => &IPV6_ENTRIES,
    }
}

/// The entry with the longest block that contains the address with this number.
fn longest_match(
    entries: &'static [SpecialEntry],
    width: u8,
    number: u128,
) -> Option<&'static SpecialEntry>
    requires { width ≤ 128 }
    ensures { IsOneLongest (has_block width number) entries.now result }
{
    let mut longest: Option<&'static SpecialEntry> = None;
    for entry in entries {
        if entry.contains(width, number) && entry.is_longer(longest) {
            longest = Some(entry);
        }
    }
    longest
}
