//! The bindings of a saved log, from its rows. `napt_log_text` reads each row.

ghost use Rattle.std.specs.Prelude.{◌≡◌, ◌≤◌, ◌++◌, ◌∷◌, [], ℕ, IfOk, IfSome, List, None, OnOk, Option, Some, map, true};
ghost use Rattle.napt_account.specs.declared.log.LogEntry.{LogEntry as Listed};
ghost use Rattle.napt_log_text.specs.LogRows as rows;
ghost use Rattle.napt_log_text.specs.declared.event.LogEvent.{LogEvent as Told};
ghost use Rattle.napt_log_text.specs.declared.event.LogEvent.TheVariants.{Made, Ended, Living};
ghost use Rattle.napt_attribution.specs.SavedLogs as logs;
ghost use Rattle.napt_attribution.specs.declared.requests.HolderRequest.{HolderRequest as Asked};

use crate::kept_entries::KeptEntries;
use crate::log_times::LogTimes;
use crate::requests::HolderRequest;
use crate::row_fault::{RowFault, invalid_row};
use napt_account::Entry;
use napt_log_text::{LogField, LogRow};
use napt_rules::Row;
use napt_wire::{Endpoint, Protocol};
use std::alloc::{AllocError, Global};
use std::collections::BTreeMap;

/// The bindings of a saved log that requests ask about.
#[derive(Drop)]
pub struct SavedBindings {
    /// Their entries in the order in which they were made, without counts and last uses.
    pub entries: Vec<Entry>,
    /// The time from which on, and until `last`, the log contains every binding, in ns.
    pub first: u64,
    pub last: u64,
}

/// A protocol and an external address and number.
type ExternalEnd = (Protocol, u32, u16);

/// The bindings in the rows so far.
#[derive(Drop)]
pub struct SavedRows {
    kept: KeptEntries,
    /// The numbers of the entries without an end that the piece has neither repeated nor ended, by
    /// their external endpoints.
    unrepeated: BTreeMap<ExternalEnd, u64>,
    /// The number of the last binding.
    made: u64,
    times: LogTimes,
}

const NO_TIME: &str = "observationTimeNanoseconds: expected a number";

const NO_BINDING: &str = "binding: no row above makes it, or it has ended";

impl SavedRows {
    /// Returns the value before the first row.
    pub fn new(alloc: Global, asked: &[HolderRequest]) -> Result<SavedRows, AllocError>
        ensures { IfOk result (λ rows. logs.RowsTrackEvents asked.now rows []) }
    {
        Ok(SavedRows {
            kept: KeptEntries::new(alloc, asked)?,
            unrepeated: BTreeMap::new(alloc),
            made: 0,
            times: LogTimes::new(),
        })
    }

    /// Begins a later piece. After the names, it must repeat or end each entry without an end.
    pub fn begin_piece(&mut self, has_names: bool) -> Result<(), RowFault> {
        self.unrepeated.clear();
        if !has_names {
            return Ok(());
        }
        for (number, entry) in self.kept.unended() {
            // Two entries have one external endpoint, so the end of the first one is missing.
            if let Some(first) = self.unrepeated.insert(end_of(&entry.binding), *number)? {
                return Err(RowFault::NotRepeated(first));
            }
        }
        Ok(())
    }

    /// Ends a piece, all of whose rows were read.
    pub fn end_piece(&self) -> Result<(), RowFault> {
        match self.unrepeated.values().min() {
            Some(number) => Err(RowFault::NotRepeated(*number)),
            None => Ok(()),
        }
    }

    /// Returns the bindings that requests ask about.
    pub fn into_bindings(self, alloc: Global) -> Result<SavedBindings, AllocError>
        ensures { (asked : List Asked) (events : List Told) →
            logs.RowsTrackEvents asked self events →
            IfOk result (λ saved. saved.entries.items
            ≡ logs.asked_entries asked (logs.entries_in events)) }
    {
        let SavedRows { kept, times, .. } = self;
        let (first, last) = times.covered_span();
        Ok(SavedBindings {
            entries: kept.into_entries(alloc)?,
            first,
            last,
        })
    }

    /// Records a row about the gateway: the log covers the time until then.
    pub fn note_gateway(&mut self, row: &LogRow) {
        self.times.note_gateway(row.time);
    }

    /// Adds a row after the names. Returns the binding that it makes, if it makes one.
    pub fn take(&mut self, row: &LogRow) -> Result<Option<Row>, RowFault>
        ensures { (asked : List Asked) (events : List Told) (event : Told) →
            logs.RowsTrackEvents asked self.old events → row.now ≡ rows.saved_row event →
            OnOk result (logs.EventFollows (logs.entries_in events) event
            × logs.RowsTrackEvents asked self.new (events ++ event ∷ [])) }
    {
        match row.event {
            LogField::Number(8) => {
                let binding = self.add_made(row)?;
                return Ok(Some(binding));
            }
            LogField::Number(9) => self.end(row)?,
            LogField::Number(event) if is_refusal(event) => {
                self.times.time_of_other(row.time)?;
            }
            LogField::Empty => self.add_living(row)?,
            _ => return Err(invalid_row("natEvent: expected 8, 9, 12, 13 or nothing")),
        }
        Ok(None)
    }

    /// Begins the entry of a binding, unless the piece repeats it. An entry of the same external
    /// endpoint ends then, since no row ends it if a log begins new entries in a new file.
    fn add_made(&mut self, row: &LogRow) -> Result<Row, RowFault>
        ensures { (asked : List Asked) (events : List Told) (listed : Listed) →
            logs.RowsTrackEvents asked self.old events → row.now ≡ rows.saved_row (Made listed) →
            OnOk result (logs.EventFollows (logs.entries_in events) (Made listed)
            × logs.RowsTrackEvents asked self.new (events ++ Made listed ∷ [])) }
    {
        let binding = binding_of(row)?;
        let replaced = self.unrepeated.remove(&end_of(&binding));
        if replaced.is_some() && self.is_open_since(row, binding) {
            return Ok(binding);
        }
        let made = self.times.made(row.time, binding.fixed)?;
        self.close_replaced(replaced, made)?;
        let number = self.times.number_after(self.made, row.number)?;
        self.kept.insert(number, unused_entry(binding, made))?;
        self.made = number;
        Ok(binding)
    }

    /// Ends the entry that another replaces, if there is one.
    fn close_replaced(&mut self, replaced: Option<u64>, made: u64) -> Result<(), RowFault>
        ensures { replaced ≡ None → self.new ≡ self.old }
    {
        if let Some(number) = replaced {
            self.kept.close(number, u128::from(made))?;
        }
        Ok(())
    }

    /// Returns whether the binding of a row has an entry without an end, made at the row's time.
    fn is_open_since(&self, row: &LogRow, binding: Row) -> bool {
        match self.open_entry(row.number, binding) {
            Some((_, made)) => row.time == LogField::Number(u128::from(made)),
            None => false,
        }
    }

    /// Ends the entry of a binding at the time of the row.
    fn end(&mut self, row: &LogRow) -> Result<(), RowFault>
        ensures { (asked : List Asked) (events : List Told) (listed : Listed) →
            logs.RowsTrackEvents asked self.old events → row.now ≡ rows.saved_row (Ended listed) →
            OnOk result (logs.EventFollows (logs.entries_in events) (Ended listed)
            × logs.RowsTrackEvents asked self.new (events ++ Ended listed ∷ [])) }
    {
        let binding = binding_of(row)?;
        let at = self.times.time_of_other(row.time)?;
        self.end_at(row.number, binding, u128::from(at))
    }

    /// Adds a binding that is live at the end of the log, with the time at which it ends if no
    /// packet arrives. A redirect does not end.
    fn add_living(&mut self, row: &LogRow) -> Result<(), RowFault>
        ensures { (asked : List Asked) (events : List Told) (listed : Listed) →
            logs.RowsTrackEvents asked self.old events → row.now ≡ rows.saved_row (Living listed) →
            OnOk result (logs.EventFollows (logs.entries_in events) (Living listed)
            × logs.RowsTrackEvents asked self.new (events ++ Living listed ∷ [])) }
    {
        let binding = binding_of(row)?;
        match row.time {
            LogField::Number(end) if !binding.fixed => self.end_at(row.number, binding, end),
            LogField::Empty if binding.fixed => match self.open_entry(row.number, binding) {
                Some(_) => Ok(()),
                None => Err(invalid_row(NO_BINDING)),
            },
            LogField::Number(_) => Err(invalid_row(NO_BINDING)),
            _ => Err(invalid_row(NO_TIME)),
        }
    }

    /// Ends the entry of a binding.
    fn end_at(&mut self, number: LogField, binding: Row, end: u128) -> Result<(), RowFault>
        ensures { (asked : List Asked) (entries : List Listed) (listed : Listed) →
            logs.RowsTrackEntries asked self.old entries → number ≡ LogField.Number listed.number →
            binding ≡ listed.entry.binding → OnOk result (logs.HasOpenEntry entries listed
            × logs.RowsTrackEntries asked self.new
            (map (logs.entry_with_end listed.number (Some end)) entries)
            × (self.new.made ≡ self.old.made)) }
    {
        let Some((number, _)) = self.open_entry(number, binding) else {
            return Err(invalid_row(NO_BINDING));
        };
        self.unrepeated.remove(&end_of(&binding));
        self.kept.close(number, end)?;
        Ok(())
    }

    /// Returns the number of a binding's entry and its time, if a row made it and none ended it.
    fn open_entry(&self, number: LogField, binding: Row) -> Option<(u64, u64)>
        ensures { (asked : List Asked) (entries : List Listed) (listed : Listed) →
            logs.RowsTrackEntries asked self.now entries → number ≡ LogField.Number listed.number →
            binding ≡ listed.entry.binding →
            IfSome result (λ found. (found.0 ≡ listed.number) × logs.HasOpenEntry entries listed) }
    {
        let LogField::Number(number) = number else {
            return None;
        };
        let Ok(number) = u64::try_from(number) else {
            return None;
        };
        let entry = self.kept.get(number)?;
        if entry.binding == binding {
            Some((number, entry.made))
        } else {
            None
        }
    }
}

/// Returns whether a number is the natEvent of a packet that got no binding (RFC 8158): ports
/// exhausted, or quota exceeded.
fn is_refusal(event: u128) -> bool
    ensures { result ≡ true → 12 ≤ event }
{
    event == 12 || event == 13
}

/// Returns the binding of a row.
fn binding_of(row: &LogRow) -> Result<Row, RowFault>
    ensures { (time event : Option ℕ) (listed : Listed) →
        row.now ≡ rows.binding_row time event listed →
        IfOk result (λ binding. binding ≡ listed.entry.binding) }
{
    match row.binding() {
        Ok(binding) => Ok(binding),
        Err(why) => Err(invalid_row(why)),
    }
}

/// Returns the entry of a binding that was made at a time, without an end and counts.
fn unused_entry(binding: Row, made: u64) -> Entry
    ensures { result ≡ logs.unused binding made }
{
    Entry {
        binding,
        made,
        end: None,
        sent: 0,
        received: 0,
        last: made,
        last_sent: made,
    }
}

/// Returns the protocol and the external endpoint of a binding.
fn end_of(binding: &Row) -> ExternalEnd {
    let Endpoint { address, number } = binding.external;
    (binding.protocol, address, number)
}
