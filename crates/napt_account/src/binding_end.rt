//! Computes when the log entry of a state's binding ends under a configuration.

ghost use Rattle.std.specs.Prelude.{◌≡◌, IfOk};
ghost use Rattle.napt_binding.specs.Ends as ends;
ghost use Rattle.napt_rules.specs.Marks as rules;
ghost use Rattle.napt_account.specs.LogStarts as starts;
ghost use Rattle.napt_account.specs.Redirects as lookups;

use crate::account::Account;
use crate::live_rows::redirects;
use crate::log::LogEntry;
use napt_config::{Config, Timers};
use napt_rules::{Flow, SessionMarks, StateBinding};
use napt_table::Row;
use napt_wire::Protocol;
use std::alloc::{AllocError, Global};
use std::collections::HashSet;

/// The number of nanoseconds in a second.
const SECOND: u64 = 1_000_000_000;

/// The protocol and both endpoints of a binding.
#[derive(Clone, Copy, PartialEq, Eq, Hash)]
pub(crate) struct BindingKey {
    protocol: Protocol,
    inside: u32,
    inside_number: u16,
    external: u32,
    external_number: u16,
}

/// The redirects of a configuration.
#[derive(Drop)]
pub(crate) struct Redirects {
    keys: HashSet<BindingKey>,
}

fn binding_key(row: Row) -> BindingKey
    ensures { result ≡ lookups.binding_key row }
{
    BindingKey {
        protocol: row.protocol,
        inside: row.inside.address,
        inside_number: row.inside.number,
        external: row.external.address,
        external_number: row.external.number,
    }
}

impl Redirects {
    ghost use Rattle.napt_rules.specs.declared.Row.{Row as Bound};

    /// Returns the redirects of a configuration. Fails only if memory is refused.
    pub(crate) fn from_config(alloc: Global, config: &Config) -> Result<Redirects, AllocError>
        ensures { IfOk result (λ redirects. (row : Bound) →
            lookups.is_among redirects row ≡ starts.has_redirect config.now row) }
    {
        let all = redirects(alloc, config)?;
        let mut keys = HashSet::new(alloc);
        for timed in &all {
            keys.insert(binding_key(timed.row))?;
        }
        Ok(Redirects { keys })
    }

    /// Returns whether a redirect has the protocol and both endpoints of a row.
    fn has(&self, row: Row) -> bool
        ensures { result ≡ lookups.is_among self.now row }
    {
        self.keys.contains(&binding_key(row))
    }
}

/// Returns the entry of a state's binding from its account.
pub(crate) fn resumed_entry(
    redirects: &Redirects,
    timers: Timers,
    clock: u64,
    binding: &StateBinding,
    account: Account,
) -> LogEntry
    ensures { result ≡ lookups.entry_among redirects.now timers clock binding.now account }
{
    let end = resumed_end(redirects, timers, clock, binding);
    account.to_entry(binding.row, end)
}

/// Returns the end (ns) of the entry of a state's binding under a configuration, or `None` if it
/// never ends. A redirect that the configuration does not have ends at the clock.
fn resumed_end(
    redirects: &Redirects,
    timers: Timers,
    clock: u64,
    binding: &StateBinding,
) -> Option<u128>
    ensures { result ≡ lookups.end_among redirects.now timers clock binding.now }
{
    if !binding.row.fixed {
        return Some(dynamic_end(timers, binding));
    }
    if redirects.has(binding.row) {
        None
    } else {
        Some(u128::from(clock))
    }
}

/// Returns the end of a binding that is not a redirect, in ns.
pub(crate) fn dynamic_end(timers: Timers, binding: &StateBinding) -> u128
    ensures { result ≡ ends.end_by_protocol binding.now.row.protocol timers binding.now }
{
    match binding.row.protocol {
        Protocol::Icmp => end_after(binding.last, timers.icmp),
        Protocol::Udp => end_after(binding.last, timers.udp),
        Protocol::Tcp => last_end(timers, &binding.flows),
    }
}

/// Returns the end of the last of these TCP flows, in ns, or 0 if there is none.
fn last_end(timers: Timers, flows: &[Flow]) -> u128
    ensures { result ≡ ends.last_end timers flows.now }
{
    let mut last = 0;
    for flow in flows {
        last = flow_end(timers, flow).max(last);
    }
    last
}

/// Returns the first time, in ns, at which a TCP flow is not live, if it is not used again.
fn flow_end(timers: Timers, flow: &Flow) -> u128
    ensures { result ≡ ends.end_after flow.now.last (rules.idle timers flow.now.marks) }
{
    end_after(flow.last, idle(timers, flow.marks))
}

/// Returns the time that is `seconds` seconds after `last`, in ns.
fn end_after(last: u64, seconds: u64) -> u128
    ensures { result ≡ ends.end_after last seconds }
{
    u128::from(last) + u128::from(seconds) * u128::from(SECOND)
}

/// Returns how long a flow with these marks may be idle, in seconds.
fn idle(timers: Timers, marks: SessionMarks) -> u64
    ensures { result ≡ rules.idle timers marks }
{
    let is_closing = marks.reset || (marks.fin_out && marks.fin_in);
    if marks.syn_out && marks.syn_in && !is_closing {
        timers.established
    } else {
        timers.transitory
    }
}
