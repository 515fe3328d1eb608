//! Sends and receives packets through one binding.

ghost use Rattle.std.specs.Prelude.{◌≡◌, true, OnOk, OnErr};
ghost use Rattle.napt_rules.specs.Filtering as filtering;
ghost use Rattle.napt_rules.specs.Life as life;
ghost use Rattle.napt_rules.specs.Marks as marks;
ghost use Rattle.napt_rules.specs.Steps as steps;
ghost use Rattle.napt_rules.specs.FlowUpdates as traffic;
ghost use Rattle.napt_binding.specs.{Inbounds.{binding_after_inbound, inbound_answer}, Slots.NoneUsedAfter};

use crate::TableBinding;
use crate::idle_timers::IdleTimers;
use crate::lifetime::purge_flows;
use crate::session::{NO_MARKS, marked};
use napt_config::{Filter, MappingRefresh};
use napt_rules::{Flow, InboundPacket, InboundRules, OutboundPacket};
use napt_wire::{Cause, Endpoint, Flags, Protocol, Way};
use std::alloc::{AllocError, Global};

/// Returns a flow of the remote that begins at `now` (ns), without marks.
pub(crate) fn fresh_flow(remote: Endpoint, now: u64) -> Flow
    ensures { result ≡ record { remote = remote; marks = marks.no_marks; last = now } }
{
    Flow {
        remote,
        marks: NO_MARKS,
        last: now,
    }
}

/// Returns whether the flow is of the remote endpoint.
pub(crate) fn is_flow_of(flow: &Flow, remote: Endpoint) -> bool
    ensures { result ≡ traffic.is_flow_of remote flow.now }
{
    flow.remote == remote
}

/// Returns the flow, used at `now` (ns) and, for TCP, with the marks of the segment added.
pub(crate) fn used(flow: Flow, protocol: Protocol, way: Way, flags: Flags, now: u64) -> Flow
    ensures { result ≡ traffic.flow_after protocol way flags now flow }
{
    let marks = match protocol {
        Protocol::Tcp => marked(flow.marks, way, flags),
        Protocol::Icmp | Protocol::Udp => flow.marks,
    };
    Flow {
        remote: flow.remote,
        marks,
        last: now,
    }
}

/// Returns whether the remote may send in through the binding (RFC 4787, REQ-8).
fn permits(binding: &TableBinding, inbound: InboundRules, remote: Endpoint) -> bool
    ensures { result ≡ filtering.permits inbound binding.now remote }
{
    if binding.row.is_fixed() {
        return true;
    }
    match inbound.filter {
        Filter::Independent => true,
        Filter::Address => binding.flows.has_address(remote.address),
        Filter::AddressPort => binding.flows.has_remote(remote),
    }
}

/// Sends a packet of the binding's protocol out through the binding. A redirect does not change.
/// Expired flows may remain and have no effect. No flow may have been used after the packet's
/// time. Fails only if memory for a new flow is refused; the binding is then unchanged.
pub fn send(
    binding: &mut TableBinding,
    alloc: Global,
    timers: IdleTimers,
    packet: OutboundPacket,
) -> Result<(), AllocError>
    requires { NoneUsedAfter binding.old.flows packet.now }
    ensures ok { OnOk result (life.with_live_flows timers packet.now binding.new
        ≡ steps.binding_after_out packet (life.with_live_flows timers packet.now binding.old)) }
    ensures live { OnOk result (life.is_live timers packet.now binding.new ≡ true) }
    ensures found { OnOk result (binding.new.row ≡ binding.old.row) }
    ensures err { OnErr result (binding.new ≡ binding.old) }
{
    if binding.row.is_fixed() {
        return Ok(());
    }
    let protocol = binding.row.protocol();
    let flows = &mut binding.flows;
    flows.use_flow(alloc, timers, OutboundPacket { protocol, ..packet })?;
    binding.last = packet.now;
    Ok(())
}

/// Returns whether incoming packets refresh the binding (RFC 4787, REQ-6).
fn is_refreshed(binding: &TableBinding, refresh: MappingRefresh) -> bool
    ensures { result ≡ traffic.refreshes refresh binding.now.row }
{
    match (refresh, binding.row.protocol()) {
        (MappingRefresh::Both, Protocol::Udp) => !binding.row.is_fixed(),
        _ => false,
    }
}

/// Records a packet that the binding lets in.
fn receive(binding: &mut TableBinding, inbound: InboundRules, packet: InboundPacket)
    requires { NoneUsedAfter binding.old.flows packet.now }
    ensures { binding.new ≡ steps.binding_after_in inbound packet binding.old }
{
    if let Protocol::Tcp = binding.row.protocol() {
        let flows = &mut binding.flows;
        flows.refresh_flow(packet.now, packet.remote, packet.flags);
    } else if is_refreshed(binding, inbound.refresh) {
        binding.last = packet.now;
    }
}

/// Receives a packet of the binding's protocol through the binding, and removes expired flows.
/// Returns the inside endpoint, or `Cause::Filtered` if the filter refuses the remote (RFC 4787,
/// REQ-8). No flow may have been used after the packet's time. Allocates no memory.
pub fn purge_and_receive(
    binding: &mut TableBinding,
    timers: IdleTimers,
    inbound: InboundRules,
    packet: InboundPacket,
) -> Result<Endpoint, Cause>
    requires { NoneUsedAfter binding.old.flows packet.now }
    ensures answer { result ≡ inbound_answer inbound packet
        (life.with_live_flows timers packet.now binding.old) }
    ensures left { binding.new ≡ binding_after_inbound inbound packet
        (life.with_live_flows timers packet.now binding.old) }
{
    purge_flows(binding, timers, packet.now);
    if !permits(binding, inbound, packet.remote) {
        return Err(Cause::Filtered);
    }
    receive(binding, inbound, packet);
    Ok(binding.row.inside())
}
