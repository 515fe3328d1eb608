//! Packets in the style of tcpdump.

use crate::digits::{add_address, add_endpoint, add_number};
use napt_account::Party;
use napt_commands::{destination_of, source_of};
use napt_records::protocol_name;
use napt_wire::{Endpoint, Flags, Kind, Packet, Side};
use std::alloc::{AllocError, Global};

/// Appends a packet, such as `udp 10.0.0.2:5000 > 198.51.100.7:3000`.
pub fn add_packet(text: &mut String, packet: &Packet) -> Result<(), AllocError> {
    let (source, destination) = (packet.source(), packet.destination());
    match packet.kind() {
        Kind::Udp => add_ends(text, "udp ", source, destination),
        Kind::Tcp(flags) => {
            add_ends(text, "tcp ", source, destination)?;
            add_flags(text, flags)
        }
        Kind::Echo => {
            let begin = if is_reply(packet.bytes()) {
                "icmp echo reply "
            } else {
                "icmp echo request "
            };
            add_hosts(text, begin, source.address, destination.address)?;
            text.push_str(" id ")?;
            add_number(text, u64::from(source.number.max(destination.number)))
        }
        Kind::ErrorOf(inner) => {
            add_hosts(text, "icmp error ", source.address, destination.address)?;
            text.push_str(" about ")?;
            text.push_str(protocol_name(inner.protocol))?;
            add_ends(text, " ", inner.source, inner.destination)
        }
    }
}

/// Appends `first` and the addresses of a packet.
fn add_hosts(
    text: &mut String,
    first: &str,
    source: u32,
    destination: u32,
) -> Result<(), AllocError> {
    text.push_str(first)?;
    add_address(text, source)?;
    text.push_str(" > ")?;
    add_address(text, destination)
}

/// Appends `first` and the endpoints of a packet.
fn add_ends(
    text: &mut String,
    first: &str,
    source: Endpoint,
    destination: Endpoint,
) -> Result<(), AllocError> {
    text.push_str(first)?;
    add_endpoint(text, source)?;
    text.push_str(" > ")?;
    add_endpoint(text, destination)
}

/// Returns whether an echo message is a reply, by its ICMP type (RFC 792), the first byte after the
/// IP header.
fn is_reply(bytes: &[u8]) -> bool {
    match bytes.first() {
        Some(first) => bytes.get((*first & 15) as usize * 4) == Some(&0),
        None => false,
    }
}

/// Appends a space and the flags in brackets as tcpdump prints them, such as `[S.]` and `[.]`.
fn add_flags(text: &mut String, flags: Flags) -> Result<(), AllocError> {
    text.push_str(" [")?;
    text.push_str(if flags.fin { "F" } else { "" })?;
    text.push_str(if flags.syn { "S" } else { "" })?;
    text.push_str(if flags.rst { "R" } else { "" })?;
    text.push_str(if flags.ack { ".]" } else { "]" })
}

/// Reads the packet that arrived with these bytes, if they are a packet.
fn arrival(alloc: Global, side: Side, bytes: &[u8]) -> Result<Option<Packet>, AllocError> {
    let copy = Vec::from_slice(alloc, bytes)?;
    Ok(Packet::read(side, copy).ok())
}

/// Appends the packet that arrived with these bytes, or the fields in bytes that are no packet.
pub fn add_arrival(
    alloc: Global,
    text: &mut String,
    side: Side,
    bytes: &[u8],
) -> Result<(), AllocError> {
    match arrival(alloc, side, bytes)? {
        Some(packet) => add_packet(text, &packet),
        None => add_unread(text, bytes),
    }
}

/// Appends the fields that can be read from bytes that are not a packet.
fn add_unread(text: &mut String, bytes: &[u8]) -> Result<(), AllocError> {
    if is_arp(bytes) {
        text.push_str("arp, ")?;
    } else {
        match (
            ip_version(bytes),
            source_of(bytes),
            destination_of(bytes),
            bytes.get(9),
        ) {
            (4, Some(from), Some(to), Some(protocol)) => {
                add_hosts(text, "ip ", from, to)?;
                text.push_str(" protocol ")?;
                add_number(text, u64::from(*protocol))?;
                text.push_str(", ")?;
            }
            (6, _, _, _) => text.push_str("ipv6, ")?,
            _ => {}
        }
    }
    add_number(text, bytes.len() as u64)?;
    text.push_str(" bytes")
}

/// Returns whether bytes without an Ethernet header are ARP for IPv4 over Ethernet (RFC 826):
/// hardware type 1, protocol type 0x0800, and address lengths 6 and 4.
fn is_arp(bytes: &[u8]) -> bool {
    bytes.starts_with(&[0, 1, 8, 0, 6, 4])
}

/// Returns the version in an IP header, or 0 if there are no bytes.
fn ip_version(bytes: &[u8]) -> u8 {
    bytes.first().map_or(0, |byte| *byte >> 4)
}

/// Returns whether a host or endpoint is one of a packet. An ICMP error also has those of the
/// packet that it quotes, and the identifier of a query belongs to both ends.
pub fn is_end_of(party: Party, packet: &Packet) -> bool {
    let (source, destination) = (packet.source(), packet.destination());
    match packet.kind() {
        Kind::Echo => {
            let number = source.number.max(destination.number);
            let has = |end: Endpoint| party.has(Endpoint { number, ..end });
            has(source) || has(destination)
        }
        Kind::ErrorOf(inner) => {
            is_host(party, source.address)
                || is_host(party, destination.address)
                || party.has(inner.source)
                || party.has(inner.destination)
        }
        Kind::Udp | Kind::Tcp(_) => party.has(source) || party.has(destination),
    }
}

/// Returns whether the party is the whole host with this address.
fn is_host(party: Party, address: u32) -> bool {
    party.number.is_none() && party.address == address
}

/// Returns whether a host or endpoint is one of the packet that arrived with these bytes. Bytes
/// that are not a packet have only addresses.
pub fn is_end_of_arrival(
    party: Party,
    alloc: Global,
    side: Side,
    bytes: &[u8],
) -> Result<bool, AllocError> {
    if party.number.is_none() {
        return Ok(has_address(bytes, party.address));
    }
    match arrival(alloc, side, bytes)? {
        Some(packet) => Ok(is_end_of(party, &packet)),
        None => Ok(false),
    }
}

/// Returns whether an address is a source or destination of a datagram.
fn has_address(bytes: &[u8], address: u32) -> bool {
    source_of(bytes) == Some(address) || destination_of(bytes) == Some(address)
}
