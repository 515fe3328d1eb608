//! The log of a run: which host had which external endpoint at which times (RFC 6888, section 4).

ghost use Rattle.std.specs.{Prelude.{◌≡◌, ◌+◌, ◌<◌, ◌^◌, List, map, IfOk}, List.Sorted.IsPermutation};
ghost use Rattle.napt_config.specs.Rules.{pair_of};
ghost use Rattle.napt_rules.specs.Prelude.{Arrival, Rules, redirect_binding, row};
ghost use Rattle.napt_account.specs.{Log.{is_shortage, log_of, unnumbered}, Attribution.{LogNamesTheHolders, LogListsTheLiving}, HeldNumbers.HeldNumbersHaveOneHolder, EndedEntries.EndedEntriesStay, WholeLogs.PartsAreTheLog, Effects.{EffectsAreTheLog, EffectsCome}, ResumedLogRuns.{LogsAreOfTheirStates, LogsGoOn, SavedLogsGoOn}};
ghost use Rattle.napt_binding.specs.Ends.{EndsAreFirst, is_before};

use napt_config::{Config, Redirect};
use napt_laws::{runs_go_on, saved_runs_go_on, taken_states_are_kept};
use napt_table::{Row, TimedRow};
use napt_wire::{Cause, Endpoint, Protocol, Way, packets_carry_numbers};
use std::alloc::{AllocError, Global};

/// A binding of a run, from its making until its end, with times in ns.
#[derive(Clone, Copy, Debug, PartialEq, Eq)]
pub struct Entry {
    /// The protocol and both endpoints of the binding, and whether it is a redirect.
    pub binding: Row,
    /// The time when the binding was made; 0 for a redirect, which exists before the first packet.
    pub made: u64,
    /// The first time at which the binding is not live, if no packet follows the last input. It may
    /// exceed 64 bits. `None` for a redirect, which never ends.
    pub end: Option<u128>,
    /// The number of packets that went out through the binding, without ICMP errors.
    pub sent: u64,
    /// The number of packets that came in through the binding, without ICMP errors.
    pub received: u64,
    /// The time when a packet last went through the binding, in either direction; 0 if none has.
    pub last: u64,
    /// The time when a packet last went out through the binding; 0 if none has.
    pub last_sent: u64,
}

impl Entry {
    ghost use Rattle.napt_account.specs.Log.{counted, made_by, unused_entry};

    /// Returns the entry of a binding that is made at `made` (ns), before a packet goes through it.
    pub(crate) fn unused(timed: TimedRow, made: u64) -> Entry
        ensures { result ≡ unused_entry timed.row made timed.end }
    {
        Entry {
            binding: timed.row,
            made,
            end: timed.end,
            sent: 0,
            received: 0,
            last: made,
            last_sent: made,
        }
    }

    /// Returns the entry of a binding that a packet made, and went out through, at `now`, in ns.
    pub(crate) fn from_packet(now: u64, timed: TimedRow) -> Entry
        ensures { result ≡ made_by now timed }
    {
        let mut entry = Entry::unused(timed, now);
        entry.count(Way::Outgoing, now, timed.end);
        entry
    }

    /// Counts a packet that went through the binding at `now`, and sets the end, both in ns.
    #[inline(always)]
    pub(crate) fn count(&mut self, way: Way, now: u64, end: Option<u128>)
        requires { (self.old.sent + 1 < 2 ^ 64) × (self.old.received + 1 < 2 ^ 64) }
        ensures { self.new ≡ counted way now end self.old }
    {
        self.end = end;
        self.last = now;
        match way {
            Way::Outgoing => {
                self.sent += 1;
                self.last_sent = now;
            }
            Way::Incoming => self.received += 1,
        }
    }
}

/// Returns the binding of a redirect of the configuration.
pub fn redirected(config: &Config, redirect: Redirect) -> Row
    ensures { result ≡ row (redirect_binding (pair_of config.now) redirect) }
{
    let protocol = if redirect.tcp {
        Protocol::Tcp
    } else {
        Protocol::Udp
    };
    Row {
        protocol,
        inside: Endpoint {
            address: redirect.address,
            number: redirect.port,
        },
        external: Endpoint {
            address: config.pair(redirect.address),
            number: redirect.external,
        },
        fixed: true,
    }
}

/// Returns whether a time, in ns, is before an end.
pub(crate) fn is_before(now: u64, end: Option<u128>) -> bool
    ensures { result ≡ is_before now end }
{
    match end {
        Some(end) => u128::from(now) < end,
        None => true,
    }
}

/// An entry of the log, with its number.
#[derive(Clone, Copy, Debug, PartialEq, Eq)]
pub struct LogEntry {
    /// The number, from 1, in the order of making.
    pub number: u64,
    pub entry: Entry,
}

/// Returns whether a cause says that no binding could be made.
pub(crate) fn is_shortage(cause: Cause) -> bool
    ensures { result ≡ is_shortage cause }
{
    matches!(cause, Cause::OverQuota | Cause::NoPort)
}

/// An outgoing packet for which no binding could be made: its host has reached its quota, or each
/// candidate number is in use (RFC 8158: quota exceeded, ports exhausted).
#[derive(Clone, Copy, Debug, PartialEq, Eq)]
pub struct Shortage {
    /// The time when the packet arrived, in ns.
    pub at: u64,
    /// `OverQuota` or `NoPort`.
    pub cause: Cause,
    pub protocol: Protocol,
    /// The address of the inside host that sent it.
    pub host: u32,
}

/// Returns all entries of a run's log, given in any order, in the order in which their bindings
/// were made. Fails only if memory is refused.
pub fn in_order_of_making(alloc: Global, numbered: Vec<LogEntry>) -> Result<Vec<Entry>, AllocError>
    ensures { (rules : Rules) (inputs : List Arrival) →
        IsPermutation numbered.items (log_of rules inputs).entries →
        IfOk result (λ made. made.items ≡ unnumbered (log_of rules inputs)) }
{
    let mut numbered = numbered;
    numbered.sort_by_key(|one| one.number)?;
    let entries = without_numbers(alloc, &numbered)?;
    Ok(entries)
}

fn without_numbers(alloc: Global, numbered: &[LogEntry]) -> Result<Vec<Entry>, AllocError>
    ensures { IfOk result (λ made. made.items ≡ map (λ one. one.entry) numbered.now) }
{
    numbered.iter().map(|one| one.entry).collect(alloc)
}

/// Law: the log of a run follows from the effects of its inputs, and each of these effects is
/// possible when its input arrives.
pub fn effects_are_the_log()
    ensures log { EffectsAreTheLog }
    ensures come { EffectsCome }
{
    runs_go_on();
    taken_states_are_kept();
}

/// Law: at each time of a run, a host had an external endpoint if and only if the log of the whole
/// run names the host for it. The run may start from a state and its log.
pub fn log_attributes()
    ensures ends { EndsAreFirst }
    ensures names { LogNamesTheHolders }
    ensures lists { LogListsTheLiving }
{
    runs_go_on();
    taken_states_are_kept();
}

/// Law: if two entries of one protocol and external endpoint have different inside endpoints, the
/// later one was made at least the hold after the end of the earlier one (RFC 6888, REQ-8). If the
/// run starts from a state, the earlier one may be a binding whose number the state holds.
pub fn held_numbers_have_one_holder()
    ensures ends { EndsAreFirst }
    ensures held { HeldNumbersHaveOneHolder }
{
    packets_carry_numbers();
    runs_go_on();
    taken_states_are_kept();
}

/// Law: an entry whose end is not after the time of the next input is final: the log of each longer
/// run has it, unchanged, at its index. It can therefore be written then, and its memory freed.
pub fn ended_entries_stay()
    ensures { EndedEntriesStay }
{}

/// Law: a run that starts from a state, with the open entries of the log there, adds to the log
/// with each input what the run over all inputs adds, and ends with the same open entries. This
/// also holds if the state was saved and read. The open entries at the end are those of the
/// bindings that are live in the last state.
pub fn logs_go_on()
    ensures go_on { LogsGoOn }
    ensures saved { SavedLogsGoOn }
    ensures keep { LogsAreOfTheirStates }
{
    runs_go_on();
    saved_runs_go_on();
    taken_states_are_kept();
}

/// Law: the parts that the inputs of a run add make up its log. The entries that end in a part, and
/// those that are open at the end, are the entries of the log, each once and with its number. The
/// bindings made in the parts, after the first ones, are those of the log in its order, each with
/// its number and the time when it was made. The refused packets are its shortages, in its order.
pub fn parts_are_the_log()
    ensures { PartsAreTheLog }
{}
