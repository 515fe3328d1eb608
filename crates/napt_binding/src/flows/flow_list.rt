//! A list of few flows.

ghost use Rattle.std.specs.Prelude.{◌≡◌, ◌==◌, ◌≤◌, ◌<◌, ◌^◌, ℕ, Bool, true, false, length, position, filter, vec_len, vec_capacity, OnOk, OnErr};
ghost use Rattle.std.specs.List.{list_any};
ghost use Rattle.napt_rules.specs.Prelude.{change_first};
ghost use Rattle.napt_rules.specs.Life as life;
ghost use Rattle.napt_binding.specs.{StandingFlows.standing_flow_of, Ends.last_end, FlowStores.{most_listed, is_full}, Slots.AreDistinct};
ghost use Rattle.napt_binding.specs.OutboundFlows as packets;
ghost use Rattle.napt_rules.specs.FlowUpdates as traffic;

use crate::idle_timers::IdleTimers;
use crate::lifetime::{flow_end, flow_moment, is_live_flow, is_standing};
use crate::outbound::{flow_after, new_flow};
use crate::traffic::{is_flow_of, used};
use napt_rules::{Flow, OutboundPacket};
use napt_wire::{Endpoint, Flags, Protocol, Way};
use std::alloc::AllocError;

/// Returns the last time (ns) at which a flow lives, at most 2^64 - 1. One must live at `now`.
pub(super) fn last_moment_of(flows: &[Flow], timers: IdleTimers, now: u64) -> u64
    requires live { list_any (life.is_live_flow timers now) flows.now ≡ true }
    ensures later { now ≤ result }
    ensures lives { (t : ℕ) → t ≤ result → list_any (life.is_live_flow timers t) flows.now ≡ true }
    ensures far { (t : ℕ) → t < 2 ^ 64 → list_any (life.is_live_flow timers t) flows.now ≡ true →
        t ≤ result }
{
    let mut last = now;
    for flow in flows {
        last = last.max(flow_moment(flow, timers));
    }
    last
}

/// Returns the end of the last of these flows, in ns, or 0 if there is none.
pub(super) fn last_end(flows: &[Flow], timers: IdleTimers) -> u128
    ensures { result ≡ last_end timers flows.now }
{
    let mut last = 0;
    for flow in flows {
        last = flow_end(flow, timers).max(last);
    }
    last
}

pub(super) fn flow_place(flows: &[Flow], remote: Endpoint) -> Option<usize>
    ensures { result ≡ position (traffic.is_flow_of remote) flows.now }
{
    flows.iter().position(|flow| is_flow_of(flow, remote))
}

pub(super) fn standing_place(
    flows: &[Flow],
    timers: IdleTimers,
    sent: OutboundPacket,
) -> Option<usize>
    ensures { result
        ≡ position (standing_flow_of timers sent.now sent.protocol sent.remote) flows.now }
{
    flows.iter().position(|flow| is_standing(flow, timers, sent.now, sent.protocol)
        && is_flow_of(flow, sent.remote))
}

/// Returns the number of flows that stand when the packet goes out.
pub(super) fn count_standing(flows: &[Flow], timers: IdleTimers, sent: OutboundPacket) -> usize
    ensures { result ≡ length (packets.standing_at timers sent flows.now) }
{
    flows
        .iter()
        .filter(|flow| is_standing(flow, timers, sent.now, sent.protocol))
        .count()
}

/// Removes the TCP flows that have expired at `now` (ns).
pub(super) fn retain_live(flows: &mut Vec<Flow>, timers: IdleTimers, now: u64)
    ensures flows { flows.new.items ≡ filter (life.is_live_flow timers now) flows.old.items }
    ensures capacity { vec_capacity flows.new ≡ vec_capacity flows.old }
    ensures bound { vec_len flows.new ≤ vec_len flows.old }
{
    flows.retain(|flow| is_live_flow(flow, timers, now));
}

/// Removes the flows that have expired at `now` (ns), if the protocol is TCP.
pub(super) fn retain_standing(
    flows: &mut Vec<Flow>,
    timers: IdleTimers,
    now: u64,
    protocol: Protocol,
)
    ensures flows { flows.new.items ≡ life.live_flows timers now protocol flows.old.items }
    ensures capacity { vec_capacity flows.new ≡ vec_capacity flows.old }
    ensures bound { vec_len flows.new ≤ vec_len flows.old }
{
    if let Protocol::Tcp = protocol {
        retain_live(flows, timers, now);
    }
}

/// Uses the flow of the packet's remote. If none is live, removes expired ones and begins one.
pub(super) fn use_flow(
    flows: &mut Vec<Flow>,
    timers: IdleTimers,
    sent: OutboundPacket,
) -> Result<(), AllocError>
    requires distinct { AreDistinct flows.old.items }
    requires bound { length flows.old.items ≤ most_listed }
    requires room { is_full timers sent flows.old.items ≡ false }
    ensures distinct { AreDistinct flows.new.items }
    ensures bound { length flows.new.items ≤ most_listed }
    ensures ok { OnOk result (packets.standing_at timers sent flows.new.items
        ≡ packets.flows_after_outbound sent (packets.standing_at timers sent flows.old.items)) }
    ensures live { OnOk result
        (list_any (life.is_live_flow timers sent.now) flows.new.items ≡ true) }
    ensures err { OnErr result (flows.new.items ≡ flows.old.items) }
{
    timers.are_within_limits();
    if let Some(i) = standing_place(flows, timers, sent) {
        flows[i] = flow_after(sent, flows[i]);
        return Ok(());
    }
    flows.reserve(1)?;
    retain_standing(flows, timers, sent.now, sent.protocol);
    flows.push_reserved(new_flow(sent));
    Ok(())
}

/// Records that an incoming segment used the remote's flow, if there is one, at `now` (ns).
pub(super) fn refresh_flow(flows: &mut [Flow], now: u64, remote: Endpoint, flags: Flags)
    requires distinct { AreDistinct flows.old }
    ensures distinct { AreDistinct flows.new }
    ensures bound { length flows.new ≡ length flows.old }
    ensures flows { flows.new ≡ change_first (traffic.is_flow_of remote)
        (traffic.flow_after Protocol.Tcp Way.Incoming flags now) flows.old }
{
    if let Some(i) = flow_place(flows, remote) {
        flows[i] = used(flows[i], Protocol::Tcp, Way::Incoming, flags, now);
    }
}
