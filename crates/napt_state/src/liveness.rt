//! Checks which bindings and flows of a state are live (RFC 4787, REQ-5; RFC 5382, REQ-5).
ghost use Rattle.std.specs.{Prelude.{◌≡◌, ◌||◌, not}, List.list_any};
ghost use Rattle.napt_rules.specs.Bindings.{is_tcp};
ghost use Rattle.napt_rules.specs.Life as life;

use napt_binding::{IdleTimers, is_live_flow, is_recent};
use napt_config::Config;
use napt_rules::{Flow, StateBinding};
use napt_wire::Protocol;

/// Returns whether one of these TCP flows is live at a time, in ns.
fn has_live(flows: &[Flow], timers: IdleTimers, now: u64) -> bool
    ensures { result ≡ list_any (life.is_live_flow timers now) flows.now }
{
    flows.iter().any(|flow| is_live_flow(flow, timers, now))
}

/// Returns whether a binding of a state is live at a time, in ns.
pub(crate) fn is_live(binding: &StateBinding, config: &Config, now: u64) -> bool
    ensures { result ≡ life.is_live config.now.timers now binding.now }
{
    if binding.row.fixed {
        return true;
    }
    let idle = config.timers();
    let timers = IdleTimers::from_config(config);
    match binding.row.protocol {
        Protocol::Icmp => is_recent(now, binding.last, idle.icmp),
        Protocol::Udp => is_recent(now, binding.last, idle.udp),
        Protocol::Tcp => has_live(&binding.flows, timers, now),
    }
}

/// Returns whether a flow stands at a time, in ns: a TCP flow if it is live, any other always.
pub(crate) fn is_standing(flow: &Flow, protocol: Protocol, config: &Config, now: u64) -> bool
    ensures { result ≡ (not (is_tcp protocol) || life.is_live_flow config.now.timers now flow.now) }
{
    match protocol {
        Protocol::Tcp => is_live_flow(flow, IdleTimers::from_config(config), now),
        Protocol::Icmp | Protocol::Udp => true,
    }
}
