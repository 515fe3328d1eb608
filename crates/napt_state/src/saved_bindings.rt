//! The bindings of a state that is saved.

ghost use Rattle.std.specs.Prelude.{◌≡◌, ◌≤◌, ◌-◌, ◌^◌, IfOk, IfSome, length, min};
ghost use Rattle.napt_account.specs.LogStarts.{account_in, is_account};
ghost use Rattle.napt_binding.specs.Ends.{end_after, end_by_protocol, last_end};
ghost use Rattle.napt_rules.specs.Marks as seconds;
ghost use Rattle.napt_state.specs.Saved as saved;
ghost use Rattle.napt_state.specs.StateText as texts;
ghost use Rattle.napt_state.specs.declared.saved_bindings.SavedBinding.TheVariants as bindings;

use crate::endpoints::{EndpointKey, external_key};
use crate::line::{LogEnd, LogPosition};
use crate::liveness::is_live;
use crate::state_contents::StateFileContents;
use napt_account::{Account, OpenLog, SavedLogState};
use napt_binding::{IdleTimers, is_recent};
use napt_config::{Config, Timers};
use napt_rules::{Flow, Row, SessionMarks, State, StateBinding};
use napt_wire::{Endpoint, Protocol};
use std::alloc::{AllocError, Global};
use std::collections::{HashMap, HashSet};

const NANOSECONDS_A_SECOND: u64 = 1_000_000_000;

const NO_MARKS: SessionMarks = SessionMarks {
    syn_out: false,
    syn_in: false,
    fin_out: false,
    fin_in: false,
    reset: false,
};

/// A binding of a state that is saved.
#[derive(Drop)]
pub enum SavedBinding {
    /// A live binding, and the account of its entry in the log, if any.
    Live(StateBinding, Option<Account>),
    /// The row of a binding that has ended, and its end, in ns. Its external number is held.
    Ended(Row, u64),
}

impl SavedBinding {
    pub(crate) fn flow_count(&self) -> u64
        ensures { result ≡ length (texts.saved_flows self.now) }
    {
        match self {
            SavedBinding::Live(binding, _) => binding.flows.len() as u64,
            SavedBinding::Ended(..) => 0,
        }
    }
}

impl StateFileContents {
    /// Returns the contents that a run saves: its state and, if it has a log, the accounts of the
    /// bindings and the end of the log's text. Takes linear time. Fails only if memory is refused.
    pub fn from_state(
        alloc: Global,
        config: &Config,
        state: State,
        log: Option<(SavedLogState, LogEnd)>,
    ) -> Result<StateFileContents, AllocError>
        ensures { IfOk result (λ made. made ≡ saved.contents_of config.now state log) }
    {
        let State { clock, list } = state;
        let (position, accounts) = position_of(alloc, log);
        let mut bindings = Vec::with_capacity(alloc, list.len())?;
        for binding in list {
            let account = account_in(&accounts, bindings.len());
            bindings.push(saved_binding(config, clock, binding, account))?;
        }
        Ok(StateFileContents {
            clock,
            log: position,
            bindings,
        })
    }

    /// Sets the account of each binding from its entry in a log of which no file is known, and
    /// returns whether each entry is that of a binding. Fails only if memory is refused.
    pub(crate) fn assign_accounts(
        &mut self,
        alloc: Global,
        log: &OpenLog,
    ) -> Result<bool, AllocError> {
        let mut accounts: HashMap<EndpointKey, Account> = HashMap::new(alloc);
        for numbered in &log.entries {
            let key = external_key(&numbered.entry.binding);
            accounts.insert(key, Account::from_entry(numbered))?;
        }
        self.log = Some(LogPosition {
            made: log.made,
            end: LogEnd::default(),
        });
        let mut joined = 0_usize;
        for saved in &mut self.bindings {
            if let SavedBinding::Live(binding, account) = saved {
                *account = accounts.get(&external_key(&binding.row)).copied();
                joined = joined.saturating_add(usize::from(account.is_some()));
            }
        }
        Ok(joined == log.entries.len())
    }
}

/// Returns the number of entries of a log, if there is one, the end of its text, and its accounts.
fn position_of(
    alloc: Global,
    log: Option<(SavedLogState, LogEnd)>,
) -> (Option<LogPosition>, Vec<Option<Account>>)
    ensures position { result.0 ≡ saved.position_of log }
    ensures accounts { result.1.items ≡ saved.accounts_of log }
{
    match log {
        Some((SavedLogState { made, accounts }, end)) => {
            (Some(LogPosition { made, end }), accounts)
        }
        None => (None, Vec::new(alloc)),
    }
}

/// Returns the account of the binding at a place.
fn account_in(accounts: &[Option<Account>], place: usize) -> Option<Account>
    ensures { result ≡ account_in accounts.now place }
{
    match accounts.get(place) {
        Some(account) => *account,
        None => None,
    }
}

/// Returns a binding of a state as it is saved at its clock, in ns, with the account of its entry.
fn saved_binding(
    config: &Config,
    clock: u64,
    binding: StateBinding,
    account: Option<Account>,
) -> SavedBinding
    ensures { result ≡ saved.saved_binding config.now.timers clock binding account }
{
    IdleTimers::from_config(config).are_within_limits();
    if is_live(&binding, config, clock) {
        SavedBinding::Live(binding, account)
    } else {
        SavedBinding::Ended(binding.row, end_of(&binding, config))
    }
}

/// Returns the end, in ns, of a binding that is not a redirect, at most `u64::MAX`.
fn end_of(binding: &StateBinding, config: &Config) -> u64
    ensures { result ≡ min (end_by_protocol binding.now.row.protocol config.now.timers binding.now)
        (2 ^ 64 - 1) }
{
    let idle = config.timers();
    match binding.row.protocol {
        Protocol::Icmp => end_after(binding.last, idle.icmp),
        Protocol::Udp => end_after(binding.last, idle.udp),
        Protocol::Tcp => last_end(&binding.flows, config),
    }
}

/// Returns the end of the last TCP flow, in ns, or 0 if there is none; at most `u64::MAX`.
fn last_end(flows: &[Flow], config: &Config) -> u64
    ensures { result ≡ min (last_end config.now.timers flows.now) (2 ^ 64 - 1) }
{
    let mut end = 0;
    let mut left = flows.len();
    while left > 0 {
        left -= 1;
        let flow = &flows[left];
        end = end.max(flow_end(flow, config));
    }
    end
}

/// Returns the end of a TCP flow, in ns; at most `u64::MAX`.
fn flow_end(flow: &Flow, config: &Config) -> u64
    ensures { result ≡ min (end_after flow.now.last
        (seconds.idle config.now.timers flow.now.marks)) (2 ^ 64 - 1) }
{
    end_after(flow.last, idle_seconds(config.timers(), flow.marks))
}

/// Returns how long, in seconds, a TCP flow with these marks may be idle.
fn idle_seconds(idle: Timers, marks: SessionMarks) -> u64
    ensures { result ≡ seconds.idle idle marks }
{
    let is_closing = marks.reset || marks.fin_out && marks.fin_in;
    if marks.syn_out && marks.syn_in && !is_closing {
        idle.established
    } else {
        idle.transitory
    }
}

/// Returns the time that is this many seconds after another, in ns; at most `u64::MAX`.
fn end_after(last: u64, seconds: u64) -> u64
    requires { seconds ≤ 1_000_000_000 }
    ensures { result ≡ min (end_after last seconds) (2 ^ 64 - 1) }
{
    last.saturating_add(seconds * NANOSECONDS_A_SECOND)
}

/// Returns a binding that ends at a time, in ns, under the timers of a configuration, so that its
/// number is held from then on; a TCP binding has one flow. Returns `None` for a redirect, or if it
/// would be live at the clock since its end is less than its timer. Fails only if memory is
/// refused.
pub(crate) fn ended_binding(
    alloc: Global,
    row: Row,
    end: u64,
    config: &Config,
    clock: u64,
) -> Result<Option<StateBinding>, AllocError>
    ensures { IfOk result (λ made. saved.taken_if made
        ≡ saved.taken_binding config.now.timers clock (bindings.Ended row end)) }
{
    let seconds = timer_of(row.protocol, config);
    let last = end.saturating_sub(seconds * NANOSECONDS_A_SECOND);
    if row.fixed || is_recent(clock, last, seconds) {
        return Ok(None);
    }
    let flows = one_flow(alloc, row.protocol, last)?;
    Ok(Some(StateBinding { row, last, flows }))
}

/// Returns the timer of a binding, in seconds; for TCP, that of a flow that is not established.
fn timer_of(protocol: Protocol, config: &Config) -> u64
    ensures is { result ≡ saved.timer_of protocol config.now.timers }
    ensures few { result ≤ 1_000_000_000 }
{
    let idle = config.timers();
    match protocol {
        Protocol::Icmp => idle.icmp,
        Protocol::Tcp => idle.transitory,
        Protocol::Udp => idle.udp,
    }
}

/// Returns, for TCP, one flow that was last used at a time (ns), and otherwise no flow. Fails only
/// if memory is refused.
fn one_flow(alloc: Global, protocol: Protocol, last: u64) -> Result<Vec<Flow>, AllocError>
    ensures { IfOk result (λ flows. flows.items ≡ saved.one_flow protocol last) }
{
    let mut flows = Vec::new(alloc);
    if let Protocol::Tcp = protocol {
        let remote = Endpoint {
            address: 0,
            number: 0,
        };
        flows.push(Flow {
            remote,
            last,
            marks: NO_MARKS,
        })?;
    }
    Ok(flows)
}

/// The largest number of entries, and of packets of one entry, that a state can have.
const MOST_SAVED: u64 = 1 << 61;

/// Returns the number of entries of a log, or 0 if there is no log.
pub(crate) fn made_so_far(log: Option<LogPosition>) -> u64
    ensures { result ≡ saved.made_so_far log }
{
    match log {
        Some(log) => log.made,
        None => 0,
    }
}

/// Returns whether the accounts are those of a log. This requires that their numbers are distinct
/// and at most the number of entries, that their bindings were made by the clock, and that their
/// counts of packets are small enough to be saved. Further, no two bindings share an external
/// endpoint, and no held one ends after the clock. Fails only if memory is refused.
pub(crate) fn has_accounts(alloc: Global, contents: &StateFileContents) -> Result<bool, AllocError>
    ensures { IfOk result (λ has. has ≡ saved.has_accounts contents.now) }
{
    let made = made_so_far(contents.log);
    if made > MOST_SAVED {
        return Ok(false);
    }
    let mut numbers: HashSet<u64> = HashSet::new(alloc);
    let mut endpoints: HashSet<EndpointKey> = HashSet::new(alloc);
    for binding in &contents.bindings {
        let (binding, account) = match binding {
            SavedBinding::Live(binding, account) => (binding, *account),
            SavedBinding::Ended(_, end) => {
                if contents.clock < *end {
                    return Ok(false);
                }
                continue;
            }
        };
        let Some(account) = account else {
            continue;
        };
        let key = external_key(&binding.row);
        if !is_within(account, made, contents.clock)
            || numbers.contains(&account.number)
            || endpoints.contains(&key)
        {
            return Ok(false);
        }
        numbers.insert(account.number)?;
        endpoints.insert(key)?;
    }
    Ok(true)
}

/// Returns whether the number of an account is in 1..=`made`, the binding was made by `clock`, and
/// the counts of packets are small enough to be saved.
fn is_within(account: Account, made: u64, clock: u64) -> bool
    ensures { result ≡ is_account made clock account }
{
    (0 < account.number && account.number <= made)
        && (account.made <= clock && (account.sent <= MOST_SAVED && account.received <= MOST_SAVED))
}
