//! Converts a binding of a state to one of a table, and back.

ghost use Rattle.std.specs.{Prelude.{◌≡◌, true, cond, Some, None, IfOk}, List.list_any};
ghost use Rattle.napt_rules.specs.Life as life;
ghost use Rattle.napt_binding.specs.Slots.{AreDistinct};

use crate::TableBinding;
use crate::flows::{Flows, live_flows};
use crate::idle_timers::IdleTimers;
use crate::lifetime::{is_live_flow, is_recent};
use crate::packed_row::PackedRow;
use napt_rules::{Flow, StateBinding};
use napt_wire::Protocol;
use std::alloc::{AllocError, Global};

/// Returns whether one of these TCP flows is live at `now` (ns).
fn has_live(flows: &[Flow], timers: IdleTimers, now: u64) -> bool
    ensures { result ≡ list_any (life.is_live_flow timers now) flows.now }
{
    flows.iter().any(|flow| is_live_flow(flow, timers, now))
}

/// Returns whether a binding of a state is live at `now` (ns).
fn is_live(binding: &StateBinding, timers: IdleTimers, now: u64) -> bool
    ensures { result ≡ life.is_live timers now binding.now }
{
    if binding.row.fixed {
        return true;
    }
    match binding.row.protocol {
        Protocol::Icmp => is_recent(now, binding.last, timers.seconds.icmp),
        Protocol::Udp => is_recent(now, binding.last, timers.seconds.udp),
        Protocol::Tcp => has_live(&binding.flows, timers, now),
    }
}

/// Returns the binding, without its expired flows, if it is live at `now` (ns). Fails only if
/// memory is refused.
pub fn from_state(
    alloc: Global,
    binding: &StateBinding,
    timers: IdleTimers,
    now: u64,
) -> Result<Option<TableBinding>, AllocError>
    requires { life.is_live timers now binding.now ≡ true →
        AreDistinct (life.with_live_flows timers now binding.now).flows }
    ensures { IfOk result (λ found. found ≡ cond (life.is_live timers now binding.now)
        (Some (life.with_live_flows timers now binding.now)) None) }
{
    if !is_live(binding, timers, now) {
        return Ok(None);
    }
    let flows = live_flows(alloc, &binding.flows, timers, now, binding.row.protocol)?;
    Ok(Some(TableBinding {
        row: PackedRow::new(binding.row),
        last: binding.last,
        flows: Flows::from_flows(alloc, &flows)?,
    }))
}

/// Returns the binding of a state without the flows that have expired at `now` (ns). Fails only if
/// memory is refused.
pub fn to_state(
    alloc: Global,
    binding: &TableBinding,
    timers: IdleTimers,
    now: u64,
) -> Result<StateBinding, AllocError>
    ensures binding { IfOk result (λ made. made ≡ life.with_live_flows timers now binding.now) }
    ensures distinct { IfOk result (λ made. AreDistinct made.flows) }
{
    let row = binding.row.row();
    Ok(StateBinding {
        row,
        last: binding.last,
        flows: binding.flows.live(alloc, timers, now, row.protocol)?,
    })
}
