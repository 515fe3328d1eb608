//! The effect of a leg on the bindings.

ghost use Rattle.std.specs.Prelude.{◌≡◌};
ghost use Rattle.napt_sequential.specs.CountedTranslators as lookups;

use crate::packed_timed_row::PackedTimedRow;
use napt_table::TimedRow;
use napt_wire::{Cause, Endpoint, Kind, Packet, Protocol, Way};

/// The effect of a leg on the bindings of its external address.
#[derive(Clone, Copy, Debug, PartialEq, Eq)]
pub enum Passage {
    /// There is no such leg, or its packet is an ICMP error, which uses no binding.
    Nothing,
    /// The leg made a binding for the source of the packet, and the packet went out through it.
    Made(PackedTimedRow),
    /// The packet went out through the existing binding of its source.
    Out(PackedTimedRow),
    /// The packet came in through the binding of its destination.
    In(PackedTimedRow),
    /// The packet was dropped.
    Dropped(DroppedPacket),
}

/// A packet, not an ICMP error, that a leg dropped.
#[derive(Clone, Copy, Debug, PartialEq, Eq)]
pub struct DroppedPacket {
    pub protocol: Protocol,
    /// The source address of the packet.
    pub host: u32,
    pub cause: Cause,
}

/// The effects of one input's legs. The time at which a binding expires is that after the leg.
#[derive(Clone, Copy, Debug, PartialEq, Eq)]
pub struct Trace {
    /// The time of the legs, in ns.
    pub now: u64,
    pub first: Passage,
    /// The effect of the second leg, which only a hairpin has (RFC 4787, REQ-9).
    pub second: Passage,
}

/// The protocol and the endpoints of a packet before a leg changes it.
#[derive(Clone, Copy)]
pub(crate) struct PacketTuple {
    /// The protocol, or `None` for an ICMP error.
    pub(crate) protocol: Option<Protocol>,
    pub(crate) source: Endpoint,
    pub(crate) destination: Endpoint,
}

impl PacketTuple {
    ghost use Rattle.napt_sequential.specs.CountedTranslators.{seen_of};

    pub(crate) fn from_packet(packet: &Packet) -> PacketTuple
        ensures { result ≡ seen_of packet.now }
    {
        let protocol = match packet.kind() {
            Kind::Udp => Some(Protocol::Udp),
            Kind::Tcp(_) => Some(Protocol::Tcp),
            Kind::Echo => Some(Protocol::Icmp),
            Kind::ErrorOf(_) => None,
        };
        PacketTuple {
            protocol,
            source: packet.source(),
            destination: packet.destination(),
        }
    }
}

/// Returns the passage in direction `way` through the binding found, or `Nothing` without one.
/// `made` is true if the leg of an outgoing packet made the binding.
pub(crate) fn passage_through(way: Way, made: bool, found: Option<TimedRow>) -> Passage
    ensures { result ≡ lookups.passage_through way made found }
{
    let Some(row) = found else {
        return Passage::Nothing;
    };
    let through = PackedTimedRow::from_row(row);
    match way {
        Way::Outgoing if made => Passage::Made(through),
        Way::Outgoing => Passage::Out(through),
        Way::Incoming => Passage::In(through),
    }
}
