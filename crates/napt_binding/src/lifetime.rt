//! The lifetimes of bindings and flows (RFC 4787, REQ-5; RFC 5382, REQ-5).

ghost use Rattle.std.specs.{Prelude.{◌≡◌, ◌≤◌, ◌<◌, ◌+◌, ◌*◌, ◌^◌, ℕ, true, false, filter}, List.list_any};
ghost use Rattle.napt_rules.specs.Life as life;
ghost use Rattle.napt_binding.specs.{StandingFlows.is_standing, Ends.{least_timer, end_after, end_of}};
ghost use Rattle.napt_rules.specs.Marks as marks;

use crate::TableBinding;
use crate::idle_timers::IdleTimers;
use crate::session::idle;
use napt_rules::Flow;
use napt_wire::Protocol;

/// The number of nanoseconds in a second.
pub(crate) const SECOND: u64 = 1_000_000_000;

/// Returns whether `last` is less than `seconds` seconds before `now`; both times are in ns.
pub fn is_recent(now: u64, last: u64, seconds: u64) -> bool
    requires { seconds ≤ 1_000_000_000 }
    ensures { result ≡ life.is_recent now last seconds }
{
    now.saturating_sub(last) < seconds * SECOND
}

/// Returns the last time (ns) less than `seconds` seconds after `last` (ns), at most `u64::MAX`.
pub(crate) fn last_moment(last: u64, seconds: u64) -> u64
    requires some { 0 < seconds }
    requires few { seconds ≤ 1_000_000_000 }
    ensures from { last ≤ result }
    ensures near { result < last + seconds * life.ns_per_second }
    ensures lives { (t : ℕ) → t ≤ result → life.is_recent t last seconds ≡ true }
    ensures far { (t : ℕ) → t < 2 ^ 64 → life.is_recent t last seconds ≡ true → t ≤ result }
{
    last.saturating_add(seconds * SECOND - 1)
}

/// Returns the time that is `seconds` seconds after `last`, in ns.
pub(crate) fn end_after(last: u64, seconds: u64) -> u128
    requires { seconds ≤ 1_000_000_000 }
    ensures { result ≡ end_after last seconds }
{
    u128::from(last) + u128::from(seconds) * u128::from(SECOND)
}

/// Returns the first time (ns) at which a TCP flow is not live, if it is not used again.
pub(crate) fn flow_end(flow: &Flow, timers: IdleTimers) -> u128
    ensures { result ≡ end_after flow.now.last (marks.idle timers flow.now.marks) }
{
    end_after(flow.last, idle(flow.marks, timers))
}

/// Returns the last time (ns) at which a TCP flow is live, at most `u64::MAX`.
pub(crate) fn flow_moment(flow: &Flow, timers: IdleTimers) -> u64
    ensures lives { (t : ℕ) → t ≤ result → life.is_live_flow timers t flow.now ≡ true }
    ensures far { (t : ℕ) → t < 2 ^ 64 → life.is_live_flow timers t flow.now ≡ true →
        t ≤ result }
{
    last_moment(flow.last, idle(flow.marks, timers))
}

/// Returns whether a TCP flow is live at `now` (ns).
pub fn is_live_flow(flow: &Flow, timers: IdleTimers, now: u64) -> bool
    ensures { result ≡ life.is_live_flow timers now flow.now }
{
    is_recent(now, flow.last, idle(flow.marks, timers))
}

/// Returns whether a flow stands at `now` (ns): a TCP flow if it is live, any other flow always.
pub(crate) fn is_standing(flow: &Flow, timers: IdleTimers, now: u64, protocol: Protocol) -> bool
    ensures { result ≡ is_standing timers now protocol flow.now }
{
    match protocol {
        Protocol::Tcp => is_live_flow(flow, timers, now),
        Protocol::Icmp | Protocol::Udp => true,
    }
}

/// Returns whether a binding is live at `now` (ns): whether it is a redirect, or was used less than
/// its timer ago, or for TCP, one of its flows was used less than the timer of the flow ago (RFC
/// 4787 REQ-5 and REQ-6; RFC 5508 REQ-2; RFC 5382 REQ-5).
#[inline(always)]
pub fn is_live(binding: &TableBinding, timers: IdleTimers, now: u64) -> bool
    ensures { result ≡ life.is_live timers now binding.now }
{
    if binding.row.is_fixed() {
        return true;
    }
    match binding.row.protocol() {
        Protocol::Icmp => is_recent(now, binding.last, timers.seconds.icmp),
        Protocol::Udp => is_recent(now, binding.last, timers.seconds.udp),
        Protocol::Tcp => binding.flows.has_live(timers, now),
    }
}

/// Returns the end of the binding if no packet goes through it: the first time, in ns, at which it
/// is not live. Returns `None` for a redirect, which never ends.
pub fn end_of(binding: &TableBinding, timers: IdleTimers) -> Option<u128>
    ensures { result ≡ end_of timers binding.now }
{
    if binding.row.is_fixed() {
        return None;
    }
    let end = match binding.row.protocol() {
        Protocol::Icmp => end_after(binding.last, timers.seconds.icmp),
        Protocol::Udp => end_after(binding.last, timers.seconds.udp),
        Protocol::Tcp => binding.flows.last_end(timers),
    };
    Some(end)
}

/// Returns the last time (ns), at or after `now`, at which the binding is certain to be live
/// whatever packets come. The binding must be live at `now`. For a redirect, returns `now`.
pub fn live_until(binding: &TableBinding, timers: IdleTimers, now: u64) -> u64
    requires live { life.is_live timers now binding.now ≡ true }
    ensures later { now ≤ result }
    ensures near { result < now + least_timer binding.now.row.protocol timers * life.ns_per_second }
    ensures lives { (t : ℕ) → t ≤ result → life.is_live timers t binding.now ≡ true }
    ensures far { binding.now.row.fixed ≡ false → (t : ℕ) → t < 2 ^ 64 →
        t < now + least_timer binding.now.row.protocol timers * life.ns_per_second →
        life.is_live timers t binding.now ≡ true → t ≤ result }
{
    if binding.row.is_fixed() {
        return now;
    }
    match binding.row.protocol() {
        Protocol::Icmp => {
            last_moment(binding.last, timers.seconds.icmp)
                .min(last_moment(now, timers.seconds.icmp))
                .max(now)
        }
        Protocol::Udp => {
            last_moment(binding.last, timers.seconds.udp)
                .min(last_moment(now, timers.seconds.udp))
                .max(now)
        }
        Protocol::Tcp => {
            let least = timers.seconds.established.min(timers.seconds.transitory);
            binding
                .flows
                .last_moment(timers, now)
                .min(last_moment(now, least))
        }
    }
}

/// Removes the flows of a TCP binding that have expired at `now` (ns).
pub(crate) fn purge_flows(binding: &mut TableBinding, timers: IdleTimers, now: u64)
    ensures { binding.new ≡ life.with_live_flows timers now binding.old }
{
    if let Protocol::Tcp = binding.row.protocol() {
        binding.flows.retain_live(timers, now);
    }
}
