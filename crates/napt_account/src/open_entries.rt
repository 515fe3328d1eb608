//! The entries of the log whose bindings have not ended.

ghost use Rattle.std.specs.Prelude.{◌≡◌, ◌+◌, ◌<◌, ◌≤◌, ◌^◌, ◌++◌, ◌&&◌, ◌||◌, not, ℕ, [], ◌∷◌, List, true, false, cond, length, map, set, filter, Some, None, Ok, OnOk, IfOk, IfSome, IfNone, unwrap_or};
ghost use Rattle.std.specs.{List.Sorted.{IsPermutation, IsSortedByKey}, Option.is_some};
ghost use Rattle.napt_rules.specs.Prelude.{Each};
ghost use Rattle.napt_binding.specs.Ends.{is_before};
ghost use Rattle.napt_account.specs.{BindingTallies.{leg_use, open_of, use_found}, Effects.CanCome, Log.{after_leg, with_entry, with_use}, LogParts.{IsNumbered, NumbersAscend, kept_at, ends_within, in_order_of_end, is_open, living_at}};
ghost use Rattle.napt_account.specs.OpenEntries as keys;

use crate::binding_tally::{BindingTally, LogNote, NO_USE, found_note};
use crate::log::{Entry, LogEntry, is_before};
use crate::open_log::OpenLog;
use napt_sequential::Passage;
use napt_table::{Row, TimedRow};
use napt_wire::{Protocol, Way};
use std::alloc::{AllocError, Global};
use std::collections::{BTreeSet, HashMap};

/// An external endpoint and its protocol.
#[derive(Clone, Copy, PartialEq, Eq, PartialOrd, Ord, Hash)]
pub(crate) struct EntryKey {
    address: u32,
    number: u16,
    protocol: Protocol,
}

/// The end of a binding and the number of its entry. Keys are ordered by end, and equal ends by
/// number; a key without an end comes last.
#[derive(Clone, Copy, PartialEq, Eq, PartialOrd, Ord, Drop)]
pub(crate) struct EndKey {
    /// `true` if the binding never ends; then `end` is 0.
    is_endless: bool,
    /// The end, in ns.
    end: u128,
    /// The number, from 1.
    number: u64,
}

/// An entry whose binding has not ended.
#[derive(Clone, Copy)]
pub(crate) struct OpenEntry {
    pub(crate) numbered: LogEntry,
    /// The next time (ns) to check the entry, at most its end, or `None` if that exceeds 64 bits.
    due: Option<u64>,
}

/// The next time, in ns, at which the entry of an endpoint is checked.
#[derive(Clone, Copy, PartialEq, Eq, PartialOrd, Ord)]
pub(crate) struct DueEntry {
    at: u64,
    key: EntryKey,
}

/// The entries of the bindings that have not ended, found by their external endpoints. A packet
/// that moves the end of its binding does not change the queue: the entry is queued again when due.
#[derive(Drop)]
pub(crate) struct OpenEntries {
    by_external: HashMap<EntryKey, OpenEntry>,
    /// One element for each entry that has a time at which it is checked.
    queue: BTreeSet<DueEntry>,
    /// The number of entries of the log.
    made: u64,
}

pub(crate) fn external_key(row: Row) -> EntryKey
    ensures key { result ≡ keys.entry_key row }
    ensures numbered { keys.IsNumberedRow row }
{
    EntryKey {
        address: row.external.address,
        number: row.external.number,
        protocol: row.protocol,
    }
}

fn end_key(numbered: LogEntry) -> EndKey
    ensures { result ≡ keys.end_key numbered }
{
    match numbered.entry.end {
        Some(end) => EndKey {
            is_endless: false,
            end,
            number: numbered.number,
        },
        None => EndKey {
            is_endless: true,
            end: 0,
            number: numbered.number,
        },
    }
}

/// Returns the next time, in ns, to check an entry: its time `was` in the queue, or an earlier end.
fn due_by(was: Option<u64>, end: Option<u128>) -> Option<u64>
    ensures early { (time : ℕ) → time < unwrap_or result (2 ^ 64) → is_before time end ≡ true }
    ensures first { was ≡ None → (time : ℕ) → is_before time end ≡ true →
        is_before time result ≡ true }
{
    let Some(end) = end else { return was };
    match was {
        Some(was) if u128::from(was) <= end => Some(was),
        _ => u64::try_from(end).ok(),
    }
}

/// Sorts entries by end, and equal ends by number.
#[inline(always)]
pub(crate) fn sort_by_end(entries: &mut Vec<LogEntry>)
    ensures moved { IsPermutation entries.old.items entries.new.items }
    ensures sorted { IsSortedByKey keys.end_key keys.end_cmp entries.new.items }
{
    if entries.is_empty() {
        return;
    }
    entries.sort_unstable_by_key(|numbered| end_key(*numbered));
}

impl OpenEntries {
    ghost use Rattle.std.specs.HashMap.{IsUnique};
    ghost use Rattle.napt_account.specs.OpenEntries.{open_at, entry_at, due_at, is_queued, entry_is_at, due_within, external_eq, IsIndexed, IsIndexedExcept, OpenEntriesShow};
    ghost use Rattle.napt_account.specs.Log.{LogModel};
    ghost use Rattle.napt_account.specs.declared.log.LogEntry.{LogEntry as Numbered};
    ghost use Rattle.napt_account.specs.declared.open_entries.DueEntry.{DueEntry as Place};
    ghost use Rattle.napt_account.specs.declared.open_entries.EntryKey.{EntryKey as Endpoint};

    /// Returns an empty set of open entries, for a log that has `made` entries.
    fn new(alloc: Global, made: u64) -> OpenEntries
        ensures open { (x : Endpoint) → open_at result x ≡ None }
        ensures queue { (d : Place) → is_queued result d ≡ false }
        ensures made { result.made ≡ made }
    {
        OpenEntries {
            by_external: HashMap::new(alloc),
            queue: BTreeSet::new(alloc),
            made,
        }
    }

    /// Returns the open entries of an open log.
    pub(crate) fn from_entries(alloc: Global, log: &OpenLog) -> Result<OpenEntries, AllocError>
        ensures { (now most : ℕ) → kept_at now log.now ≡ log.now → IsNumbered log.now →
            NumbersAscend 1 log.now.entries →
            Each (λ n. (n.entry.sent ≤ most) × (n.entry.received ≤ most)) log.now.entries →
            keys.AreKeyed (map (λ n. n.entry.binding) log.now.entries) →
            IfOk result (OpenEntriesShow now most log.now) }
    {
        let mut all = OpenEntries::new(alloc, log.made);
        for numbered in &log.entries {
            all.set(*numbered, None)?;
        }
        Ok(all)
    }

    /// Returns the open log: the entries that have not ended.
    pub(crate) fn to_open_log(&self, alloc: Global) -> Result<OpenLog, AllocError>
        ensures { (now most : ℕ) (log : LogModel) → OpenEntriesShow now most log self.now →
            IfOk result (λ left. left ≡ kept_at now log) }
    {
        let mut entries = self.copied(alloc)?;
        entries.sort_unstable_by_key(|numbered| numbered.number);
        Ok(OpenLog {
            made: self.made,
            entries,
        })
    }

    /// Adds an entry and returns its number. No other entry has its external endpoint.
    #[inline(never)]
    fn insert(&mut self, entry: Entry) -> Result<u64, AllocError>
        requires { self.old.made + 1 < 2 ^ 64 }
        ensures number { IfOk result (λ number. number ≡ self.old.made + 1) }
        ensures shows { (now most : ℕ) (log : LogModel) → OpenEntriesShow now most log self.old →
            open_at self.old (keys.entry_key entry.binding) ≡ None →
            is_before now entry.end ≡ true → entry.sent ≤ most → entry.received ≤ most →
            OnOk result (OpenEntriesShow now most (with_entry entry log) self.new) }
    {
        let number = self.made + 1;
        self.made = number;
        self.set(LogEntry { number, entry }, None)?;
        Ok(number)
    }

    /// Sets the entry of an endpoint, which is queued at `was`, in ns, or not queued.
    fn set(&mut self, numbered: LogEntry, was: Option<u64>) -> Result<(), AllocError>
        ensures made { self.new.made ≡ self.old.made }
        ensures entry { OnOk result ((x : Endpoint) → entry_at self.new x
            ≡ cond (external_eq (keys.entry_key numbered.entry.binding) x) (Some numbered)
            (entry_at self.old x)) }
        ensures indexed { IsIndexedExcept (keys.entry_key numbered.entry.binding) was self.old →
            OnOk result (IsIndexed self.new) }
        ensures within { (now : ℕ) → is_open now numbered ≡ true → was ≡ None →
            OnOk result (due_within now self.new ≡ due_within now self.old) }
    {
        let key = external_key(numbered.entry.binding);
        let due = due_by(was, numbered.entry.end);
        self.queue_at(key, was, due)?;
        self.by_external.insert(key, OpenEntry { numbered, due })?;
        Ok(())
    }

    /// Moves an endpoint from one time in the queue to another.
    #[inline(always)]
    fn queue_at(
        &mut self,
        key: EntryKey,
        was: Option<u64>,
        due: Option<u64>,
    ) -> Result<(), AllocError>
        ensures open { (x : Endpoint) → open_at self.new x ≡ open_at self.old x }
        ensures made { self.new.made ≡ self.old.made }
        ensures queued { OnOk result ((d : Place) →
            (external_eq key d.key ≡ true → is_queued self.old d ≡ entry_is_at was d.at) →
            is_queued self.new d ≡ cond (external_eq key d.key) (entry_is_at due d.at)
            (is_queued self.old d)) }
        ensures within { (now : ℕ) → is_before now due ≡ true → was ≡ None →
            OnOk result (due_within now self.new ≡ due_within now self.old) }
    {
        if was == due {
            return Ok(());
        }
        self.leave_queue(key, was);
        self.enter_queue(key, due)
    }

    /// Removes an endpoint from the queue, where it is at `was`, in ns, if that is a time.
    fn leave_queue(&mut self, key: EntryKey, was: Option<u64>)
        ensures open { (x : Endpoint) → open_at self.new x ≡ open_at self.old x }
        ensures made { self.new.made ≡ self.old.made }
        ensures queued { (d : Place) → is_queued self.new d
            ≡ (not (external_eq key d.key && entry_is_at was d.at) && is_queued self.old d) }
        ensures within { was ≡ None → (now : ℕ) →
            due_within now self.new ≡ due_within now self.old }
    {
        if let Some(at) = was {
            self.queue.remove(&DueEntry { at, key });
        }
    }

    /// Inserts an endpoint into the queue at `due`, in ns, if that is a time.
    fn enter_queue(&mut self, key: EntryKey, due: Option<u64>) -> Result<(), AllocError>
        ensures open { (x : Endpoint) → open_at self.new x ≡ open_at self.old x }
        ensures made { self.new.made ≡ self.old.made }
        ensures queued { OnOk result ((d : Place) → is_queued self.new d
            ≡ ((external_eq key d.key && entry_is_at due d.at) || is_queued self.old d)) }
        ensures within { (now : ℕ) → is_before now due ≡ true →
            OnOk result (due_within now self.new ≡ due_within now self.old) }
    {
        if let Some(at) = due {
            self.queue.insert(DueEntry { at, key })?;
        }
        Ok(())
    }

    /// Returns the open entry of a row's external endpoint, if there is one.
    pub(crate) fn find(&self, row: Row) -> Option<OpenEntry>
        ensures { result ≡ open_at self.now (keys.entry_key row) }
    {
        self.by_external.get(&external_key(row)).copied()
    }

    /// Returns whether a leg can have this effect at `now`, in ns.
    #[inline(always)]
    pub(crate) fn can_come(&self, now: u64, effect: Passage) -> bool
        ensures yes { (most : ℕ) (log : LogModel) → OpenEntriesShow now most log self.now → result ≡ true →
            CanCome now log effect }
        ensures no { (most : ℕ) (log : LogModel) → OpenEntriesShow now most log self.now → result ≡ false →
            ¬ CanCome now log effect }
    {
        match effect {
            Passage::Nothing | Passage::Dropped(_) => true,
            Passage::Made(through) => {
                let timed = through.timed();
                is_before(now, timed.end) && self.find(timed.row).is_none()
            }
            Passage::Out(through) | Passage::In(through) => is_before(now, through.timed().end),
        }
    }

    /// Counts a packet that went through the binding of a row, and sets the end of its entry, if it
    /// has one. Returns the use of the binding.
    #[inline(always)]
    fn count(&mut self, way: Way, now: u64, timed: TimedRow) -> Result<BindingTally, AllocError>
        requires { (most : ℕ) × (log : LogModel) × OpenEntriesShow now most log self.old
            × (most + 1 < 2 ^ 64) }
        ensures shows { (most : ℕ) (log : LogModel) → OpenEntriesShow now most log self.old →
            is_before now timed.end ≡ true →
            OnOk result (OpenEntriesShow now (most + 1) (with_use way now timed log) self.new) }
        ensures uses { (most : ℕ) (log : LogModel) → OpenEntriesShow now most log self.old →
            IfOk result (λ used. used ≡ use_found way (open_of now timed.row log)) }
    {
        let key = external_key(timed.row);
        let Some(open) = self.by_external.get_mut(&key) else {
            return Ok(NO_USE);
        };
        let used = BindingTally::through(
            way,
            found_note(&open.numbered.entry),
            open.numbered.number,
        );
        let was = open.due;
        let due = due_by(was, timed.end);
        open.due = due;
        open.numbered.entry.count(way, now, timed.end);
        self.queue_at(key, was, due)?;
        Ok(used)
    }

    /// Removes and returns the first endpoint in the queue, if its time is at most `now`, in ns.
    #[inline(always)]
    fn take_due(&mut self, now: u64) -> Option<EntryKey>
        ensures open { (x : Endpoint) → open_at self.new x ≡ open_at self.old x }
        ensures made { self.new.made ≡ self.old.made }
        ensures within { IfSome result (λ key.
            due_within now self.new + 1 ≡ due_within now self.old) }
        ensures indexed { IsIndexed self.old →
            IfSome result (λ key. IsIndexedExcept key None self.new) }
        ensures none { IsIndexed self.old → IfNone result (IsIndexed self.new ×
            ((x : Endpoint) (l : Numbered) → entry_at self.new x ≡ Some l →
            is_open now l ≡ true)) }
    {
        let Some(first) = self.queue.first() else {
            return None;
        };
        if now < first.at {
            return None;
        }
        let Some(due) = self.queue.pop_first() else {
            return None;
        };
        Some(due.key)
    }

    /// Checks the entry of an endpoint that is not queued. Removes and returns it if its binding
    /// has ended by `now`, in ns, or else queues it at its end.
    #[inline(never)]
    fn end_or_queue(&mut self, key: EntryKey, now: u64) -> Result<Option<LogEntry>, AllocError>
        ensures made { self.new.made ≡ self.old.made }
        ensures indexed { IsIndexedExcept key None self.old → OnOk result (IsIndexed self.new) }
        ensures taken { IfOk result (λ taken. IfSome taken (λ l.
            (entry_at self.old key ≡ Some l) × (is_open now l ≡ false))) }
        ensures left { IsIndexedExcept key None self.old → IfOk result (λ taken. (x : Endpoint) →
            entry_at self.new x ≡ cond (is_some taken && external_eq key x) None
            (entry_at self.old x)) }
        ensures within { OnOk result (due_within now self.new ≡ due_within now self.old) }
    {
        let Some(open) = self.by_external.get(&key).copied() else {
            return Ok(None);
        };
        if is_before(now, open.numbered.entry.end) {
            self.set(open.numbered, None)?;
            return Ok(None);
        }
        self.by_external.remove(&key);
        Ok(Some(open.numbered))
    }

    /// Removes and returns the entries of the bindings that have ended by `now`, in ns.
    #[inline(always)]
    pub(crate) fn take_ended(
        &mut self,
        alloc: Global,
        now: u64,
    ) -> Result<Vec<LogEntry>, AllocError>
        ensures ended { (was most : ℕ) (log : LogModel) → OpenEntriesShow was most log self.old →
            IfOk result (λ ended. ended.items
            ≡ in_order_of_end (filter (ends_within was now) log.entries)) }
        ensures shows { (was most : ℕ) (log : LogModel) → OpenEntriesShow was most log self.old →
            was ≤ now → OnOk result (OpenEntriesShow now most log self.new) }
    {
        let mut ended = Vec::new(alloc);
        while let Some(key) = self.take_due(now) {
            if let Some(numbered) = self.end_or_queue(key, now)? {
                ended.push(numbered)?;
            }
        }
        sort_by_end(&mut ended);
        Ok(ended)
    }

    /// Returns the entries with their numbers, by end, and equal ends by number.
    pub(crate) fn list(&self, alloc: Global) -> Result<Vec<LogEntry>, AllocError>
        ensures { (now most : ℕ) (log : LogModel) → OpenEntriesShow now most log self.now →
            IfOk result (λ all. all.items ≡ living_at now log) }
    {
        let mut all = self.copied(alloc)?;
        sort_by_end(&mut all);
        Ok(all)
    }

    /// Returns a copy of the entries, in no particular order.
    fn copied(&self, alloc: Global) -> Result<Vec<LogEntry>, AllocError>
        ensures kept { IfOk result (λ all. all.items ≡ keys.all_entries self.now) }
        ensures unique { IsUnique external_eq self.now.by_external }
    {
        self.by_external
            .values()
            .map(|open| open.numbered)
            .collect(alloc)
    }

    /// Records the effect of one leg at `now`, in ns, and returns its use of a binding.
    #[inline(always)]
    pub(crate) fn record_leg(
        &mut self,
        now: u64,
        effect: Passage,
    ) -> Result<BindingTally, AllocError>
        requires { (most : ℕ) × (log : LogModel) × OpenEntriesShow now most log self.old
            × (most + 1 < 2 ^ 64) × (log.made + 1 < 2 ^ 64) }
        ensures shows { (most : ℕ) (log : LogModel) → OpenEntriesShow now most log self.old →
            CanCome now log effect →
            OnOk result (OpenEntriesShow now (most + 1) (after_leg now effect log) self.new) }
        ensures uses { (most : ℕ) (log : LogModel) → OpenEntriesShow now most log self.old →
            IfOk result (λ used. used ≡ leg_use now effect log) }
    {
        match effect {
            Passage::Nothing | Passage::Dropped(_) => Ok(NO_USE),
            Passage::Made(through) => {
                let number = self.insert(Entry::from_packet(now, through.timed()))?;
                Ok(BindingTally::through(Way::Outgoing, LogNote::Made, number))
            }
            Passage::Out(through) => self.count(Way::Outgoing, now, through.timed()),
            Passage::In(through) => self.count(Way::Incoming, now, through.timed()),
        }
    }
}
