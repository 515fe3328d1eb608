//! The stored bindings of one external address, of all protocols.
//!
//! A binding that has expired is stored as long as it is held. No look-up finds it, and once its
//! hold time is over, it is removed before a new binding gets a number.
//!
//! The queue has an entry for each binding, with a time until which the binding is certain to be
//! live. A packet that refreshes the binding does not move the entry: when that time has come, the
//! binding is checked and, if it is still live or held, queued again.

ghost use Rattle.std.specs.{Prelude.{◌≡◌, ℕ, ◌+◌, ◌*◌, ◌^◌, ◌≤◌, ◌<◌, All, true, false, Some, None, OnOk, IfOk}, Option.{option_map, is_some}};
ghost use Rattle.napt_rules.specs.Prelude.{Binding, ns_per_second, is_live, hold_ago};
ghost use Rattle.napt_binding.specs.Ends.{least_timer};
ghost use Rattle.napt_table.specs.{HeldLists.HeldIsPurgedLater, BindingIndexes.{KeepsSeen, held_binding as held_at_key}, Bindings.{AreDue, AreDueExcept, entries_due}};

use crate::TimedRow;
use crate::bindings::binding_index::BindingIndex;
use crate::bindings::keys::ExternalNumberKey;
use napt_binding::{IdleTimers, end_of, is_live, live_until};
use napt_collections::Due;
use napt_rules::{AssignmentRules, InboundPacket, InboundRules, Row, StateBinding};
use napt_wire::{Cause, Endpoint, Protocol};
use std::alloc::{AllocError, Global};
use std::marker::Model;

mod binding_index;
mod binding_places;
mod keys;
mod numbers_in_use;
mod sending;

/// The bindings of one external address. Contracts see the stored bindings, the timers, the time of
/// the last packet, and the queue.
#[derive(Drop)]
pub(crate) struct Bindings {
    timers: IdleTimers,
    /// The time of the last packet, in ns; before the first packet, that at which the table began.
    at: u64,
    held: BindingIndex,
    /// One entry for each binding that is not fixed, with a time until which it is certain to be
    /// live.
    due: Due<ExternalNumberKey>,
}

impl Model for Bindings {
    ghost use Rattle.napt_table.specs.Bindings.{BindingsModel, AreDue};

    ghost Value = { BindingsModel };

    ghost view = { λ bindings. record {
      timers = bindings.timers;
      at = bindings.at;
      held = bindings.held;
      due = bindings.due;
    } };

    ghost invariant = { λ bindings. AreDue bindings.timers bindings.at bindings.held bindings.due.entries };
}

/// Removes a binding that is not queued if its hold time is over at `at` (ns), and otherwise queues
/// it.
fn requeue_or_remove(
    held: &mut BindingIndex,
    due: &mut Due<ExternalNumberKey>,
    timers: IdleTimers,
    at: u64,
    key: ExternalNumberKey,
)
    requires due { AreDueExcept timers at key held.old due.old.entries }
    requires room { 0 < due.old.room }
    ensures due { AreDue timers at held.new due.new.entries }
    ensures keeps { KeepsSeen timers (hold_ago timers at) held.old held.new }
    ensures come_up { entries_due (hold_ago timers at) due.new.entries
        ≤ entries_due (hold_ago timers at) due.old.entries }
    // A queued entry is not due before its binding may have ended.
    ensures far { (b : Binding) (t : ℕ) → held_at_key held.old key ≡ Some b → b.row.fixed ≡ false →
        t < 2 ^ 64 → t < hold_ago timers at + least_timer b.row.protocol timers * ns_per_second →
        is_live timers t b ≡ true → entries_due t due.new.entries ≤ entries_due t due.old.entries }
    ensures room { 0 < held.old.room → 0 < held.new.room }
    ensures queue { due.old.room ≤ due.new.room + 1 }
{
    let Some(binding) = held.get(key) else {
        return;
    };
    if binding.row.is_fixed() {
        return;
    }
    let ago = timers.hold_ago(at);
    if is_live(binding, timers, ago) {
        due.push(live_until(binding, timers, ago), key);
    } else {
        held.remove(key);
    }
}

impl Bindings {
    ghost use Rattle.napt_table.specs.HeldLists.{seen_binding};
    ghost use Rattle.napt_table.specs.TimedRows.{timed_row};
    ghost use Rattle.napt_table.specs.declared.bindings.keys.ExternalNumberKey.{ExternalNumberKey as Key};
    ghost use Rattle.napt_table.specs.BindingIndexes.{held_binding, held_at, IsSamePlace, IsNamed};
    ghost use Rattle.napt_table.specs.Bindings.{BindingsHaveRoom, IsPurged, IsLiveNumberOf, ReceivePost};

    /// Creates an empty set of bindings, at a time in ns. Fails only if memory is refused.
    pub(crate) fn new(
        alloc: Global,
        address: u32,
        timers: IdleTimers,
        assignment: AssignmentRules,
        at: u64,
    ) -> Result<Bindings, AllocError>
        ensures timers { IfOk result (λ bindings. bindings.timers ≡ timers) }
        ensures at { IfOk result (λ bindings. bindings.at ≡ at) }
        ensures address { IfOk result (λ bindings. bindings.held.address ≡ address) }
        ensures assignment { IfOk result (λ bindings. bindings.held.assignment ≡ assignment) }
        ensures none { IfOk result (λ bindings. (key : Key) →
            held_binding bindings.held key ≡ None) }
    {
        Ok(Bindings {
            timers,
            at,
            held: BindingIndex::new(alloc, address, assignment)?,
            due: Due::new(alloc),
        })
    }

    /// Law: each binding has its key's protocol and number, and the address. Does nothing when run.
    pub(crate) fn keep_names(&self)
        ensures { IsNamed self.now.held }
    {
        self.held.keep_names();
    }

    /// Returns the time of the last packet, in ns.
    pub(crate) fn at(&self) -> u64
        ensures { result ≡ self.now.at }
    {
        self.at
    }

    pub(crate) fn timers(&self) -> IdleTimers
        ensures { result ≡ self.now.timers }
    {
        self.timers
    }

    /// Returns the external address, in host order.
    pub(crate) fn address(&self) -> u32
        ensures { result ≡ self.now.held.address }
    {
        self.held.address()
    }

    /// Returns the number of stored bindings.
    pub(crate) fn size(&self) -> u64 {
        self.held.size()
    }

    /// Returns the inside endpoint of the live binding with the number at `now` (ns).
    pub(crate) fn inside_of(&self, now: u64, protocol: Protocol, number: u16) -> Option<Endpoint>
        ensures { result ≡ option_map (λ b. b.row.inside)
            (seen_binding self.now.timers now (held_at self.now.held protocol number)) }
    {
        match self.held.get(ExternalNumberKey { number, protocol }) {
            Some(binding) if is_live(binding, self.timers, now) => Some(binding.row.inside()),
            _ => None,
        }
    }

    /// Returns the external number of the inside endpoint's live binding at `now` (ns).
    pub(crate) fn number_of(&self, now: u64, protocol: Protocol, inside: Endpoint) -> Option<u16>
        ensures { IsLiveNumberOf now self.now protocol inside result }
    {
        let number = self.held.number_of(protocol, inside)?;
        match self.held.get(ExternalNumberKey { number, protocol }) {
            Some(binding) if is_live(binding, self.timers, now) => Some(number),
            _ => None,
        }
    }

    /// Returns the live binding with the number at `now` (ns), and the time at which it expires.
    pub(crate) fn timed(&self, now: u64, protocol: Protocol, number: u16) -> Option<TimedRow>
        ensures { result ≡ option_map (timed_row self.now.timers)
            (seen_binding self.now.timers now (held_at self.now.held protocol number)) }
    {
        self.timers.are_within_limits();
        match self.held.find(ExternalNumberKey { number, protocol }) {
            Some((_, binding)) if is_live(binding, self.timers, now) => Some(TimedRow {
                row: binding.row.row(),
                end: end_of(binding, self.timers),
            }),
            _ => None,
        }
    }

    /// Receives a packet. Returns the inside endpoint of the live binding with its number. Fails
    /// with `NoBinding` if there is none, or with `Filtered` if the filter refuses the remote.
    /// Allocates no memory.
    pub(crate) fn receive(
        &mut self,
        inbound: InboundRules,
        packet: InboundPacket,
    ) -> Result<Endpoint, Cause>
        requires later { self.old.at ≤ packet.now }
        ensures timers { self.new.timers ≡ self.old.timers }
        ensures place { IsSamePlace self.old.held self.new.held }
        ensures at { self.new.at ≡ packet.now }
        ensures receives { ReceivePost inbound packet self.old self.new result }
    {
        let timers = self.timers;
        timers.are_within_limits();
        self.held.keep_names();
        self.at = packet.now;
        let held = &mut self.held;
        held.receive(timers, inbound, packet)
    }

    /// Queues the binding of the first due entry again, or removes it. Returns whether one was due.
    fn purge_first(&mut self) -> bool
        ensures timers { self.new.timers ≡ self.old.timers }
        ensures at { self.new.at ≡ self.old.at }
        ensures keeps { KeepsSeen self.old.timers (hold_ago self.old.timers self.old.at)
            self.old.held self.new.held }
        ensures room { BindingsHaveRoom self.old → BindingsHaveRoom self.new }
        ensures fewer { result ≡ true →
            entries_due (hold_ago self.old.timers self.old.at) self.new.due.entries
            < entries_due (hold_ago self.old.timers self.old.at) self.old.due.entries }
        ensures none { result ≡ false → All (λ e. hold_ago self.old.timers self.old.at ≤ e.0)
            self.new.due.entries }
        ensures due { AreDue self.new.timers self.new.at self.new.held self.new.due.entries }
    {
        let (timers, at) = (self.timers, self.at);
        let ago = timers.hold_ago(at);
        match self.due.peek() {
            Some((until, _)) if until < ago => {}
            _ => return false,
        }
        let due = &mut self.due;
        let Some((_, key)) = due.pop() else {
            return false;
        };
        requeue_or_remove(&mut self.held, &mut self.due, timers, at, key);
        true
    }

    /// Removes the bindings whose hold time is over.
    fn purge(&mut self)
        ensures { IsPurged self.old.at self.old self.new }
    {
        while self.purge_first() {}
    }

    /// Sets the time to `now` (ns) and removes the bindings whose hold time is then over.
    fn purge_at(&mut self, now: u64)
        requires later { self.old.at ≤ now }
        ensures { IsPurged now self.old self.new }
    {
        self.at = now;
        self.purge();
    }
}

impl Bindings {
    ghost use Rattle.napt_collections.specs.BitSets.{IsFirstAbsent};
    ghost use Rattle.napt_table.specs.HeldLists.{seen_binding};
    ghost use Rattle.napt_table.specs.BindingIndexes.{held_at};
    ghost use Rattle.napt_table.specs.Bindings.{IsPurged};

    /// Returns the least number from 1 on that no live or held binding has at `now` (ns). Before
    /// that, sets the time to `now`, and removes the bindings whose hold is over.
    pub(crate) fn free_number(&mut self, now: u64, protocol: Protocol) -> Option<u16>
        requires later { self.old.at ≤ now }
        ensures purged { IsPurged now self.old self.new }
        ensures spare { IsFirstAbsent (λ n.
            is_some (seen_binding self.old.timers (hold_ago self.old.timers now)
            (held_at self.old.held protocol n)))
            1 (2 ^ 16) result }
    {
        self.purge_at(now);
        self.held.least_free(protocol)
    }
}

impl Bindings {
    ghost use Rattle.std.specs.{List.IsDistinct, Map.{keys_of, values_of}};
    ghost use Rattle.napt_rules.specs.Prelude.{live_and_held};
    ghost use Rattle.napt_binding.specs.Slots.{AreDistinct};
    ghost use Rattle.napt_table.specs.{BindingIndexes.AreUsedUpTo, Keys.key_eq, HeldRows.{held_rows, AreListable}};

    /// Returns the rows of the bindings that are live at `now` (ns), in no order.
    pub(crate) fn rows(&self, alloc: Global, now: u64) -> Result<Vec<Row>, AllocError>
        ensures rows { IfOk result (λ made. made.items
            ≡ held_rows self.now.timers now self.now.held) }
        ensures read { OnOk result (AreListable self.now.timers now self.now.held) }
    {
        self.held.rows(alloc, self.timers, now)
    }

    /// Returns the bindings that are live or held at `now` (ns), for a saved state, in no order.
    pub(crate) fn state_bindings(
        &self,
        alloc: Global,
        now: u64,
    ) -> Result<Vec<StateBinding>, AllocError>
        ensures bindings { IfOk result (λ made. made.items
            ≡ live_and_held self.now.timers now (values_of self.now.held.entries)) }
        ensures distinct { IfOk result (λ made. All (λ b. AreDistinct b.flows) made.items) }
        ensures unique { OnOk result (IsDistinct key_eq (keys_of self.now.held.entries)) }
        ensures used { AreUsedUpTo self.now.at self.now.held }
    {
        let ago = self.timers.hold_ago(now);
        self.held.state_bindings(alloc, self.timers, ago)
    }
}

/// Law: as time passes, the stored bindings that are live remain those of the purged list.
pub(crate) fn held_is_purged_later()
    ensures { HeldIsPurgedLater }
{}
