//! Creates the log with which a run starts, from the redirects or from a state.

ghost use Rattle.std.specs.Prelude.{◌≡◌, ◌+◌, ◌≤◌, ◌^◌, not, [], map, filter, length, true, false, IfOk};
ghost use Rattle.napt_rules.specs.Prelude.{TakesState, initial_state};
ghost use Rattle.napt_account.specs.Log.{begun_after, numbered_from, unused_entry};
ghost use Rattle.napt_account.specs.LogParts.{LogDelta, is_open};
ghost use Rattle.napt_account.specs.LogStarts as starts;
ghost use Rattle.napt_account.specs.OpenEntries.{AreKeyed};

use crate::account::SavedLogState;
use crate::binding_end::{Redirects, resumed_entry};
use crate::live_rows::live_rows;
use crate::log::{Entry, LogEntry, is_before};
use crate::log_builder::LogBuilder;
use crate::open_entries::{EntryKey, external_key};
use crate::open_log::OpenLog;
use napt_config::Config;
use napt_laws::{runs_go_on, saved_runs_go_on, taken_states_are_kept};
use napt_rules::State;
use napt_table::TimedRow;
use std::alloc::{AllocError, Global};
use std::collections::HashSet;

/// A log that continues from a state, and the entries that end or begin there.
#[derive(Drop)]
pub struct LogFromState<'a> {
    pub log: LogBuilder<'a>,
    /// The log as it was saved: one entry for each account, sorted by number.
    pub before: OpenLog,
    /// The entries that end at the clock of the state, sorted by number.
    pub ended: Vec<LogEntry>,
    /// The entries that begin at the clock, for live bindings that had none, sorted by number.
    pub made: Vec<LogEntry>,
}

impl<'a> LogBuilder<'a> {
    /// Returns the log of a new run before its first input, with an entry for each redirect. Fails
    /// only if memory is refused.
    pub fn from_config(alloc: Global, config: &'a Config) -> Result<LogBuilder<'a>, AllocError>
        ensures { IfOk result (λ builder. builder ≡ record {
          rules = config.now;
          clock = 0;
          log = begun_after 0 config.now (initial_state config.now);
          taken = 0;
          is_stopped = false;
        }) }
    {
        started_logs_go_on();
        let state = State {
            clock: 0,
            list: Vec::new(alloc),
        };
        let saved = SavedLogState::none(alloc);
        let started = LogBuilder::resume(alloc, config, &state, &saved)?;
        Ok(started.log)
    }

    /// Returns the log at a state before the first input. The entries of its bindings continue,
    /// each with the end under the configuration. A live binding without an entry gets one that
    /// begins at the clock. An entry ends at the clock if its binding has ended under the timers,
    /// or is a redirect that the configuration does not have. Fails only if memory is refused.
    pub fn resume(
        alloc: Global,
        config: &'a Config,
        state: &State,
        saved: &SavedLogState,
    ) -> Result<LogFromState<'a>, AllocError>
        requires saved { starts.is_saved_log_state state.now saved.now ≡ true }
        requires taken { TakesState config.now state.now }
        ensures log { IfOk result (λ from. from.log ≡ record {
          rules = config.now;
          clock = state.now.clock;
          log = starts.log_started config.now state.now saved.now;
          taken = 0;
          is_stopped = false;
        }) }
        ensures first { IfOk result (λ from. (let first : LogDelta =
            record { ended = from.ended.items; made = from.made.items; refused = [] } in
            first ≡ starts.started_part config.now state.now saved.now)) }
        ensures before { IfOk result (λ from.
            from.before ≡ starts.log_before config.now state.now saved.now) }
    {
        // Only the contract of this call is used: the rules of a configuration are valid.
        let _pool = config.pool();
        let all = resumed_entries(alloc, config, state, saved)?;
        let continued = open_among(alloc, &all, state.clock)?;
        let mut entries = by_number(continued)?;
        let gone = ended_among(alloc, &all, state.clock)?;
        let gone = by_number(gone)?;
        let ended = all_ended_at(alloc, &gone, state.clock)?;
        let live = live_rows(alloc, config, state)?;
        let made = new_entries(alloc, &entries, &live, saved.made, state.clock)?;
        entries.extend_from_slice(&made)?;
        let begun = OpenLog {
            made: saved.made + made.len() as u64,
            entries,
        };
        let log = LogBuilder::begin(alloc, config, state.clock, &begun)?;
        let before = OpenLog {
            made: saved.made,
            entries: by_number(all)?,
        };
        Ok(LogFromState {
            log,
            before,
            ended,
            made,
        })
    }
}

/// Returns the entries of a state's bindings, with the ends of these under a configuration.
fn resumed_entries(
    alloc: Global,
    config: &Config,
    state: &State,
    saved: &SavedLogState,
) -> Result<Vec<LogEntry>, AllocError>
    ensures { IfOk result (λ all.
        all.items ≡ starts.resumed_entries config.now state.now saved.now) }
{
    let redirects = Redirects::from_config(alloc, config)?;
    let timers = config.timers();
    let mut all = Vec::new(alloc);
    for place in 0..state.list.len() {
        if let Some(account) = saved.account(place) {
            let binding = &state.list[place];
            all.push(resumed_entry(&redirects, timers, state.clock, binding, account))?;
        }
    }
    Ok(all)
}

/// Returns the entries that have not ended by a time, in ns.
fn open_among(alloc: Global, all: &[LogEntry], now: u64) -> Result<Vec<LogEntry>, AllocError>
    ensures { IfOk result (λ found. found.items ≡ filter (is_open now) all.now) }
{
    all.iter()
        .filter(|numbered| is_before(now, numbered.entry.end))
        .copied()
        .collect(alloc)
}

/// Returns the entries that have ended by a time, in ns.
fn ended_among(alloc: Global, all: &[LogEntry], now: u64) -> Result<Vec<LogEntry>, AllocError>
    ensures { IfOk result (λ found.
        found.items ≡ filter (λ numbered. not (is_open now numbered)) all.now) }
{
    all.iter()
        .filter(|numbered| !is_before(now, numbered.entry.end))
        .copied()
        .collect(alloc)
}

/// Returns the entries, whose numbers are distinct, sorted by number.
fn by_number(entries: Vec<LogEntry>) -> Result<Vec<LogEntry>, AllocError>
    requires { starts.NumbersDiffer entries.items }
    ensures { IfOk result (λ sorted. sorted.items ≡ starts.in_order_of_number entries.items) }
{
    let mut sorted = entries;
    sorted.sort_by_key(|numbered| numbered.number)?;
    Ok(sorted)
}

/// Returns the entries with `now`, in ns, as their end.
fn all_ended_at(alloc: Global, entries: &[LogEntry], now: u64) -> Result<Vec<LogEntry>, AllocError>
    ensures { IfOk result (λ ended. ended.items ≡ map (starts.entry_ended_at now) entries.now) }
{
    entries
        .iter()
        .map(|numbered| entry_ended_at(*numbered, now))
        .collect(alloc)
}

/// Returns the entry with `now`, in ns, as its end.
fn entry_ended_at(numbered: LogEntry, now: u64) -> LogEntry
    ensures { result ≡ starts.entry_ended_at now numbered }
{
    let mut ended = numbered;
    ended.entry.end = Some(u128::from(now));
    ended
}

/// Returns new entries, numbered from `made` + 1 and made at a time in ns, for the rows whose
/// external endpoint no open entry has. No two rows share an external endpoint.
fn new_entries(
    alloc: Global,
    entries: &[LogEntry],
    live: &[TimedRow],
    made: u64,
    clock: u64,
) -> Result<Vec<LogEntry>, AllocError>
    requires made { made ≤ 2 ^ 61 }
    requires apart { AreKeyed (map (λ timed. timed.row) live.now) }
    ensures begun { IfOk result (λ begun. begun.items ≡ numbered_from (made + 1)
        (map (λ timed. unused_entry timed.row clock timed.end)
        (filter (λ timed. not (starts.has_entry entries.now timed)) live.now))) }
    ensures few { IfOk result (λ _. length live.now ≤ 2 ^ 50) }
{
    let mut endpoints: HashSet<EntryKey> = HashSet::new(alloc);
    for numbered in entries {
        endpoints.insert(external_key(numbered.entry.binding))?;
    }
    let mut begun = Vec::new(alloc);
    let mut number = made;
    for timed in live {
        if endpoints.contains(&external_key(timed.row)) {
            continue;
        }
        number += 1;
        begun.push(LogEntry {
            number,
            entry: Entry::unused(*timed, clock),
        })?;
    }
    Ok(begun)
}

/// Law: a log starts with an entry for each live binding, with its row and its end. In a new run
/// these are the redirects. At the state after a run they are its open entries, unchanged.
pub fn started_logs_go_on()
    ensures states { starts.StartedLogsAreOfTheirStates }
    ensures anew { starts.StartedLogsBeginAnew }
    ensures saved { starts.SavedLogsAreTakenUp }
{
    runs_go_on();
    saved_runs_go_on();
    taken_states_are_kept();
}
