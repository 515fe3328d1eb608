//! Sends packets out through a table.

use crate::play::is_number;
use crate::refused::CallResult;
use napt_config::Config;
use napt_table::{Row, Table};
use napt_wire::{Endpoint, Flags, Protocol};
use std::alloc::{AllocError, Global};

const SECOND: u64 = 1_000_000_000;

/// The external address 203.0.113.1.
const EXTERNAL: u32 = 0xCB00_7101;

/// The table's address, and a filter with which flows can be observed.
const CONFIGURATION: &str =
    "pool = [\"203.0.113.1\"]\ninside = [\"10.0.0.0/8\"]\nfilter = \"address-port\"\n";

/// The number of packets.
const PACKETS: u16 = 60;

/// The kinds of packets.
#[derive(Clone, Copy)]
pub(crate) enum TableCall {
    /// Each packet is the first of its host.
    Bindings,
    /// Each packet except the first of its protocol has a binding, and is sent to another remote.
    Flows,
    /// Each packet is sent 400 s after the last one of its protocol and host, whose binding has
    /// ended. Others are live.
    Ends,
}

/// A packet that is sent, at a time in ns.
#[derive(Clone, Copy)]
struct TablePacket {
    now: u64,
    protocol: Protocol,
    inside: Endpoint,
    remote: Endpoint,
    flags: Flags,
}

/// Returns the packet of a kind at an index, from 10.0.0.0:5000 and up, of each protocol in turn.
fn packet_of(kind: TableCall, place: u16) -> TablePacket {
    let round = place / 3;
    let protocol = match place % 3 {
        0 => Protocol::Udp,
        1 => Protocol::Tcp,
        _ => Protocol::Icmp,
    };
    let (host, remote, seconds) = match kind {
        TableCall::Bindings => (round, 0, u64::from(place)),
        TableCall::Flows => (0, round, u64::from(place)),
        TableCall::Ends => (round % 4, 0, 100 * u64::from(round) + u64::from(place % 3)),
    };
    TablePacket {
        now: seconds.saturating_mul(SECOND),
        protocol,
        inside: Endpoint {
            address: 0x0A00_0000 + u32::from(host),
            number: host.saturating_add(5000),
        },
        remote: Endpoint {
            address: 0xC633_6400 + u32::from(remote),
            number: 53,
        },
        flags: Flags {
            fin: false,
            syn: true,
            rst: false,
            ack: false,
        },
    }
}

/// Sends the packet. Returns the external number, or `None` if it is refused or not allowed.
fn send(alloc: Global, table: &mut Table, packet: TablePacket) -> Result<Option<u16>, AllocError> {
    let TablePacket {
        now,
        protocol,
        inside,
        remote,
        flags,
    } = packet;
    if now < table.at() || !is_number(protocol, inside.number) {
        return Ok(None);
    }
    let answer = table.outbound(alloc, now, protocol, inside, remote, flags)?;
    Ok(answer.ok())
}

/// Returns whether an answer comes in to the external number that the inside endpoint
/// has.
fn is_answered(table: &mut Table, packet: TablePacket) -> bool {
    if packet.now < table.at() {
        return false;
    }
    let (number, remote) = (packet.inside.number, packet.remote);
    let flags = Flags {
        ack: true,
        ..packet.flags
    };
    table
        .inbound(packet.now, packet.protocol, number, remote, flags)
        .is_ok()
}

/// Returns the rows at each of the times.
fn rows_at(alloc: Global, table: &Table, times: &[u64]) -> Result<Vec<Row>, AllocError> {
    let mut all = Vec::new(alloc);
    for time in times {
        if table.at() <= *time {
            all.append(&mut table.bindings(alloc, *time)?)?;
        }
    }
    Ok(all)
}

/// Sends the packet, and checks the table if it is refused.
fn step(alloc: Global, table: &mut Table, packet: TablePacket) -> Result<(), CallResult> {
    let at = table.at();
    let lasts = match packet.protocol {
        Protocol::Icmp => 60,
        Protocol::Tcp => 240,
        Protocol::Udp => 300,
    };
    // The times of the packet before it, of the packet, and of the end of the former's binding.
    let times = [at, packet.now, at.saturating_add(lasts * SECOND)];
    let before = rows_at(alloc, table, &times)?;
    match send(alloc, table, packet) {
        Ok(Some(number)) if number == packet.inside.number => Ok(()),
        Ok(_) => Err(CallResult::Wrong("another answer")),
        Err(_) => {
            let after = rows_at(alloc, table, &times).map_err(|_| CallResult::After)?;
            if before.as_slice() != after.as_slice() {
                return Err(CallResult::Wrong("the list is changed"));
            }
            Err(sent_again(alloc, table, packet))
        }
    }
}

/// Returns the end after a refused packet: no answer comes in until it is sent again and passes.
fn sent_again(alloc: Global, table: &mut Table, packet: TablePacket) -> CallResult {
    if is_answered(table, packet) {
        return CallResult::Wrong("a refused packet is answered");
    }
    match send(alloc, table, packet) {
        Ok(Some(number)) if number == packet.inside.number && is_answered(table, packet) => {
            CallResult::Memory
        }
        _ => CallResult::Wrong("it does not pass when it is sent again"),
    }
}

/// Sends all packets of the kind.
pub(crate) fn ended(alloc: Global, kind: TableCall) -> Result<(), CallResult> {
    let config = Config::read(alloc, CONFIGURATION.as_bytes()).map_err(|_| CallResult::Before)?;
    let table = Table::new(alloc, EXTERNAL, &config)?;
    // The table is in a box, since a function that owns a table takes minutes to prove.
    let mut table = Box::new(alloc, table).map_err(|_| CallResult::Before)?;
    for place in 0..PACKETS {
        step(alloc, &mut table, packet_of(kind, place))?;
    }
    Ok(())
}
