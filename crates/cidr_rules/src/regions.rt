//! Packets, and regions of packets: a range for each field.
ghost use Rattle.std.specs.Prelude.{◌≡◌, ◌<◌, ℕ, List, map, slice_set};
ghost use Rattle.cidr_rules.specs.Packets.{fields_of, is_in, range_of, ranges_of};
ghost use Rattle.cidr_rules.specs.Regions.{are_close, are_full, are_within, differing, hulls_of, join, meet, range_at, shared_of};

use crate::fields::{FieldValue, Range};

/// The fields of a packet that rules look at.
#[derive(Debug, Clone, Copy, Drop)]
pub struct Packet<A: FieldValue> {
    /// The address that the packet comes from.
    pub source: A,
    /// The address that it goes to.
    pub destination: A,
    /// The number of its protocol: 6 is TCP, and 17 UDP.
    pub protocol: u8,
    /// The port that it comes from. Where the protocol has no ports, this number plays no part.
    pub source_port: u16,
    /// The port that it goes to.
    pub destination_port: u16,
}

/// The packets whose fields are in ranges.
#[derive(Debug, Clone, Copy, Drop)]
pub struct Region<A: FieldValue> {
    /// The addresses that the packets come from.
    pub source: Range<A>,
    /// The addresses that they go to.
    pub destination: Range<A>,
    /// The numbers of their protocols.
    pub protocol: Range<u8>,
    /// The ports that they come from.
    pub source_port: Range<u16>,
    /// The ports that they go to.
    pub destination_port: Range<u16>,
}

impl<A: FieldValue> Region<A> {
    /// Whether a packet is in the region.
    ///
    /// ```
    /// rules[0].region.contains(&packet) // true
    /// ```
    #[tactic(auto, unfolding(crate::specs::Packets::is_in))]
    pub fn contains(&self, packet: &Packet<A>) -> bool
        ensures { result ≡ is_in (ranges_of A.number self.now) (fields_of A.number packet.now) }
    {
        self.source.contains(packet.source)
            && self.destination.contains(packet.destination)
            && self.protocol.contains(packet.protocol)
            && self.source_port.contains(packet.source_port)
            && self.destination_port.contains(packet.destination_port)
    }

    /// Whether the region has a packet.
    #[tactic(auto, unfolding(crate::specs::Regions::are_full))]
    pub(crate) fn has_packet(&self) -> bool
        ensures { result ≡ are_full (ranges_of A.number self.now) }
    {
        self.source.has_value()
            && self.destination.has_value()
            && self.protocol.has_value()
            && self.source_port.has_value()
            && self.destination_port.has_value()
    }

    /// Whether in no field one of two regions is below the other.
    #[tactic(auto, unfolding(crate::specs::Regions::meet))]
    pub(crate) fn meets(&self, other: &Region<A>) -> bool
        ensures { result ≡ meet (ranges_of A.number self.now) (ranges_of A.number other.now) }
    {
        self.source.meets(&other.source)
            && self.destination.meets(&other.destination)
            && self.protocol.meets(&other.protocol)
            && self.source_port.meets(&other.source_port)
            && self.destination_port.meets(&other.destination_port)
    }

    /// Whether in each field the region begins and ends within another.
    #[tactic(auto, unfolding(crate::specs::Regions::are_within))]
    pub(crate) fn is_within(&self, other: &Region<A>) -> bool
        ensures { result ≡ are_within (ranges_of A.number self.now) (ranges_of A.number other.now) }
    {
        self.source.is_within(&other.source)
            && self.destination.is_within(&other.destination)
            && self.protocol.is_within(&other.protocol)
            && self.source_port.is_within(&other.source_port)
            && self.destination_port.is_within(&other.destination_port)
    }

    /// The packets of both regions.
    #[tactic(auto, unfolding(crate::specs::Regions::shared_of))]
    pub(crate) fn shared(&self, other: &Region<A>) -> Region<A>
        ensures { ranges_of A.number result ≡ shared_of (ranges_of A.number self.now) (ranges_of A.number other.now) }
    {
        Region {
            source: self.source.common(&other.source),
            destination: self.destination.common(&other.destination),
            protocol: self.protocol.common(&other.protocol),
            source_port: self.source_port.common(&other.source_port),
            destination_port: self.destination_port.common(&other.destination_port),
        }
    }

    /// Whether in each field the ranges of two regions are the same, or one begins right behind the other.
    #[tactic(auto, unfolding(crate::specs::Regions::are_close))]
    fn is_close(&self, other: &Region<A>) -> bool
        ensures { result ≡ are_close (ranges_of A.number self.now) (ranges_of A.number other.now) }
    {
        self.source.is_close(&other.source)
            && self.destination.is_close(&other.destination)
            && self.protocol.is_close(&other.protocol)
            && self.source_port.is_close(&other.source_port)
            && self.destination_port.is_close(&other.destination_port)
    }

    /// In how many fields their ranges differ.
    #[tactic(auto, unfolding(crate::specs::Regions::differing))]
    fn differing(&self, other: &Region<A>) -> u8
        ensures { result ≡ differing (ranges_of A.number self.now) (ranges_of A.number other.now) }
    {
        self.source.differing(&other.source)
            + (self.destination.differing(&other.destination)
                + (self.protocol.differing(&other.protocol)
                    + (self.source_port.differing(&other.source_port)
                        + self.destination_port.differing(&other.destination_port))))
    }

    /// Whether two regions, which have no packet in common, are together one region.
    pub(crate) fn joins(&self, other: &Region<A>) -> bool
        ensures { result ≡ join (ranges_of A.number self.now) (ranges_of A.number other.now) }
    {
        self.is_close(other) && self.differing(other) == 1
    }

    /// The least region that has the packets of both.
    #[tactic(auto, unfolding(crate::specs::Regions::hulls_of))]
    pub(crate) fn hull(&self, other: &Region<A>) -> Region<A>
        ensures { ranges_of A.number result ≡ hulls_of (ranges_of A.number self.now) (ranges_of A.number other.now) }
    {
        Region {
            source: self.source.hull(&other.source),
            destination: self.destination.hull(&other.destination),
            protocol: self.protocol.hull(&other.protocol),
            source_port: self.source_port.hull(&other.source_port),
            destination_port: self.destination_port.hull(&other.destination_port),
        }
    }

    /// The packet of the least values, which is in the region if any is.
    pub(crate) fn first_packet(&self) -> Packet<A>
        ensures { fields_of A.number result ≡ map (λ r. r.first) (ranges_of A.number self.now) }
    {
        Packet {
            source: self.source.first,
            destination: self.destination.first,
            protocol: self.protocol.first,
            source_port: self.source_port.first,
            destination_port: self.destination_port.first,
        }
    }
}

/// A field of regions.
pub(crate) trait Field<A: FieldValue> {
    /// The values of the field.
    type Value: FieldValue;

    /// Its place in the list of fields, counted from 0.
    ghost index: { ℕ };

    /// The range of the field.
    fn range(region: &Region<A>) -> Range<Self::Value>
        ensures value { range_of Self.Value.number result ≡ range_at (ranges_of A.number region.now) index }
        ensures index { index < 5 };

    /// The region with this range of the field.
    fn with_range(region: &Region<A>, range: Range<Self::Value>) -> Region<A>
        ensures { ranges_of A.number result ≡ slice_set (ranges_of A.number region.now) index (range_of Self.Value.number range) };
}

pub(crate) struct Source;

impl<A: FieldValue> Field<A> for Source {
    type Value = A;

    ghost index = { 0 };

    fn range(region: &Region<A>) -> Range<A> {
        region.source
    }

    fn with_range(region: &Region<A>, range: Range<A>) -> Region<A>
        ensures { ranges_of A.number result ≡ slice_set (ranges_of A.number region.now) 0 (range_of A.number range) }
    {
        Region {
            source: range,
            ..*region
        }
    }
}

pub(crate) struct Destination;

impl<A: FieldValue> Field<A> for Destination {
    type Value = A;

    ghost index = { 1 };

    fn range(region: &Region<A>) -> Range<A> {
        region.destination
    }

    fn with_range(region: &Region<A>, range: Range<A>) -> Region<A>
        ensures { ranges_of A.number result ≡ slice_set (ranges_of A.number region.now) 1 (range_of A.number range) }
    {
        Region {
            destination: range,
            ..*region
        }
    }
}

pub(crate) struct Protocol;

impl<A: FieldValue> Field<A> for Protocol {
    type Value = u8;

    ghost index = { 2 };

    fn range(region: &Region<A>) -> Range<u8> {
        region.protocol
    }

    fn with_range(region: &Region<A>, range: Range<u8>) -> Region<A>
        ensures { ranges_of A.number result ≡ slice_set (ranges_of A.number region.now) 2 range }
    {
        Region {
            protocol: range,
            ..*region
        }
    }
}

pub(crate) struct SourcePort;

impl<A: FieldValue> Field<A> for SourcePort {
    type Value = u16;

    ghost index = { 3 };

    fn range(region: &Region<A>) -> Range<u16> {
        region.source_port
    }

    fn with_range(region: &Region<A>, range: Range<u16>) -> Region<A>
        ensures { ranges_of A.number result ≡ slice_set (ranges_of A.number region.now) 3 range }
    {
        Region {
            source_port: range,
            ..*region
        }
    }
}

pub(crate) struct DestinationPort;

impl<A: FieldValue> Field<A> for DestinationPort {
    type Value = u16;

    ghost index = { 4 };

    fn range(region: &Region<A>) -> Range<u16> {
        region.destination_port
    }

    fn with_range(region: &Region<A>, range: Range<u16>) -> Region<A>
        ensures { ranges_of A.number result ≡ slice_set (ranges_of A.number region.now) 4 range }
    {
        Region {
            destination_port: range,
            ..*region
        }
    }
}
