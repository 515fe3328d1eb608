//! The flows of a binding in slots, and in rows by their last use.

ghost use Rattle.std.specs.Prelude.{◌≡◌, ◌≢◌, ◌<◌, ◌≤◌, ◌+◌, ◌++◌, ◌^◌, ℕ, [], ◌∷◌, Some, None, true, false, nat_lt, length, slice_get, slice_set, filter, OnOk, IfOk, IfSome, IfNone};
ghost use Rattle.std.specs.List.{list_any};
ghost use Rattle.napt_rules.specs.declared.Flow.{Flow};
ghost use Rattle.napt_rules.specs.Life as life;
ghost use Rattle.napt_binding.specs.{Ends.last_end, Slots.{standing_flows, IsInSlot, NoneUsedAfter, EachOfRow, IsFirstUsed, IsLatest, is_recent_time}};
ghost use Rattle.napt_binding.specs.Slots as slots;

use crate::idle_timers::IdleTimers;
use crate::lifetime::{end_after, is_recent, last_moment};
use crate::session::is_established;
use napt_collections::{Links, link_before, unlink};
use napt_rules::Flow;
use std::alloc::{AllocError, Global};
use std::marker::Model;

/// The row of the established flows, which begins after node 0 and ends before node 1.
const ESTABLISHED: u32 = 0;

/// The row of the other flows, which begins after node 1 and ends before node 2.
const OTHERS: u32 = 1;

/// The number of nodes that belong to no slot: the ends of the rows.
const ENDS: usize = 3;

/// A slot for each flow, oldest first. The slot of a removed flow is empty. Contracts see the slots
/// and the number of further ones that fit without growth (`room`).
///
/// The flows of a row are linked in the order of last use. As times never decrease, a used flow
/// moves to the end of its row: a call reads only it, its neighbours and the ends of rows.
#[derive(Drop)]
pub(crate) struct FlowSlots {
    flows: Vec<Option<Flow>>,
    /// The links of the ends of the rows, and then those of the slots.
    links: Vec<Links>,
}

impl Model for FlowSlots {
    ghost use Rattle.napt_binding.specs.SlotsModels.{FlowSlotsModel};

    ghost Value = { FlowSlotsModel };

    ghost use Rattle.napt_binding.specs.TimedLinks.{shown_flow, AreLinksTimed};

    ghost view = { shown_flow };

    ghost invariant = { λ it. AreLinksTimed it.flows.items it.links.items };
}

/// Returns the row of the flow.
fn row_of(flow: Flow) -> u32
    ensures { result ≡ slots.row_of flow }
{
    if is_established(flow.marks) {
        ESTABLISHED
    } else {
        OTHERS
    }
}

/// Returns whether there is a time `latest` (ns) less than `seconds` seconds before `now` (ns).
fn is_some_recent(latest: Option<u64>, now: u64, seconds: u64) -> bool
    requires { seconds ≤ 1_000_000_000 }
    ensures { result ≡ is_recent_time now seconds latest }
{
    match latest {
        Some(time) => is_recent(now, time, seconds),
        None => false,
    }
}

/// Returns the last time (ns) less than `seconds` seconds after `latest`, if there is one: at least
/// `now`, and at most `u64::MAX`.
fn last_moment_of(latest: Option<u64>, now: u64, seconds: u64) -> u64
    requires some { 0 < seconds }
    requires few { seconds ≤ 1_000_000_000 }
    ensures later { now ≤ result }
    ensures lives { (t : ℕ) → now < t → t ≤ result → is_recent_time t seconds latest ≡ true }
    ensures far { (t : ℕ) → t < 2 ^ 64 → is_recent_time t seconds latest ≡ true → t ≤ result }
{
    match latest {
        Some(time) => last_moment(time, seconds).max(now),
        None => now,
    }
}

/// Returns the time `seconds` seconds after `latest`, in ns, or 0 if there is none.
fn end_of_time(latest: Option<u64>, seconds: u64) -> u128
    requires some { 0 < seconds }
    requires few { seconds ≤ 1_000_000_000 }
    ensures { (t : ℕ) → is_recent_time t seconds latest ≡ nat_lt t result }
{
    match latest {
        Some(time) => end_after(time, seconds),
        None => 0,
    }
}

impl FlowSlots {
    /// Creates an empty list of slots, with the ends of the rows. Fails only if memory is refused.
    pub(crate) fn new(alloc: Global) -> Result<FlowSlots, AllocError>
        ensures { IfOk result (λ made. made.slots ≡ []) }
    {
        let mut links = Vec::new(alloc);
        links.push(Links {
            before: 0,
            after: 1,
        })?;
        links.push(Links {
            before: 0,
            after: 2,
        })?;
        links.push(Links {
            before: 1,
            after: 2,
        })?;
        Ok(FlowSlots {
            flows: Vec::new(alloc),
            links,
        })
    }

    /// Returns the number of slots.
    pub(crate) fn len(&self) -> usize
        ensures { result ≡ length self.now.slots }
    {
        self.flows.len()
    }

    /// Returns the flow in the slot, if there is one.
    pub(crate) fn get(&self, place: usize) -> Option<Flow>
        ensures stands { IfSome result (λ flow. IsInSlot self.now.slots place flow) }
        ensures found { (flow : Flow) → IsInSlot self.now.slots place flow → result ≡ Some flow }
    {
        *self.flows.get(place)?
    }

    /// Makes room for one more slot. Fails only if memory is refused or there are 2^32 - 4 slots.
    pub(crate) fn reserve(&mut self) -> Result<(), AllocError>
        ensures slots { self.new.slots ≡ self.old.slots }
        ensures room { OnOk result (0 < self.new.room) }
    {
        if self.links.len() >= u32::MAX as usize {
            return Err(AllocError);
        }
        self.flows.reserve(1)?;
        self.links.reserve(1)
    }

    /// Appends a slot with the flow, for which there must be room, and returns its place.
    pub(crate) fn insert(&mut self, flow: Flow) -> usize
        requires room { 0 < self.old.room }
        requires rising { NoneUsedAfter (standing_flows self.old.slots) flow.last }
        ensures place { result ≡ length self.old.slots }
        ensures fits { result + 1 < 2 ^ 64 }
        ensures slots { self.new.slots ≡ self.old.slots ++ Some flow ∷ [] }
    {
        let place = self.flows.len();
        self.flows.push_reserved(Some(flow));
        self.links.push_reserved(Links {
            before: 0,
            after: 0,
        });
        link_before(&mut self.links, (place + ENDS) as u32, row_of(flow) + 1);
        place
    }

    /// Empties a slot.
    pub(crate) fn clear(&mut self, place: usize)
        requires { place < length self.old.slots }
        ensures slots { self.new.slots ≡ slice_set self.old.slots place None }
        ensures room { self.new.room ≡ self.old.room }
    {
        if self.flows[place].is_none() {
            return;
        }
        unlink(&mut self.links, (place + ENDS) as u32);
        self.flows[place] = None;
    }

    /// Puts a flow into an empty slot.
    fn fill(&mut self, place: usize, flow: Flow)
        requires empty { slice_get self.old.slots place ≡ Some None }
        requires rising { NoneUsedAfter (standing_flows self.old.slots) flow.last }
        ensures slots { self.new.slots ≡ slice_set self.old.slots place (Some flow) }
        ensures room { self.new.room ≡ self.old.room }
    {
        link_before(&mut self.links, (place + ENDS) as u32, row_of(flow) + 1);
        self.flows[place] = Some(flow);
    }

    /// Replaces the flow in a slot.
    pub(crate) fn change(&mut self, place: usize, flow: Flow)
        requires within { place < length self.old.slots }
        requires rising { NoneUsedAfter (standing_flows self.old.slots) flow.last }
        ensures slots { self.new.slots ≡ slice_set self.old.slots place (Some flow) }
        ensures room { self.new.room ≡ self.old.room }
    {
        self.clear(place);
        self.fill(place, flow);
    }

    /// Returns the flow at a node, with its place, or `None` at an end of a row.
    fn flow_at(&self, node: u32) -> Option<(usize, Flow)>
        ensures some { IfSome result (λ found. IsInSlot self.now.slots found.0 found.1
            × (found.0 + 3 ≡ node)) }
        ensures none { IfNone result ((place : ℕ) (flow : Flow) →
            IsInSlot self.now.slots place flow → place + 3 ≢ node) }
    {
        let place = (node as usize).checked_sub(ENDS)?;
        Some((place, self.get(place)?))
    }

    /// Returns the flow of the row that was last used longest ago, with its place.
    fn first_used(&self, row: u32) -> Option<(usize, Flow)>
        requires { row < 2 }
        ensures { IsFirstUsed row self.now.slots result }
    {
        self.flow_at(self.links[row as usize].after)
    }

    /// Returns the latest use (ns) of a flow of the row, or `None` if the row has no flow.
    fn latest(&self, row: u32) -> Option<u64>
        requires { row < 2 }
        ensures { IsLatest row self.now.slots result }
    {
        Some(self.flow_at(self.links[row as usize + 1].before)?.1.last)
    }

    /// Returns the place of a flow of the row that was not used in the last `seconds` seconds.
    fn expired_place_in_row(&self, row: u32, now: u64, seconds: u64) -> Option<usize>
        requires row { row < 2 }
        requires few { seconds ≤ 1_000_000_000 }
        ensures some { IfSome result (λ place. (flow : Flow) × IsInSlot self.now.slots place flow
            × (slots.row_of flow ≡ row) × (life.is_recent now flow.last seconds ≡ false)) }
        ensures none { IfNone result (EachOfRow row self.now.slots
            (λ flow. life.is_recent now flow.last seconds ≡ true)) }
    {
        let (place, flow) = self.first_used(row)?;
        if is_recent(now, flow.last, seconds) {
            None
        } else {
            Some(place)
        }
    }

    /// Returns the place of an expired TCP flow, if there is one. Reads at most two flows.
    pub(crate) fn expired_place(&self, timers: IdleTimers, now: u64) -> Option<usize>
        ensures some { IfSome result (λ place. (flow : Flow) × IsInSlot self.now.slots place flow
            × (life.is_live_flow timers now flow ≡ false)) }
        ensures none { IfNone result ((place : ℕ) (flow : Flow) →
            IsInSlot self.now.slots place flow →
            life.is_live_flow timers now flow ≡ true) }
    {
        match self.expired_place_in_row(ESTABLISHED, now, timers.seconds.established) {
            Some(place) => Some(place),
            None => self.expired_place_in_row(OTHERS, now, timers.seconds.transitory),
        }
    }

    /// Returns whether one of the TCP flows is live at `now` (ns). Reads at most two flows.
    pub(crate) fn has_live(&self, timers: IdleTimers, now: u64) -> bool
        ensures { result ≡ list_any (life.is_live_flow timers now) (standing_flows self.now.slots) }
    {
        is_some_recent(self.latest(ESTABLISHED), now, timers.seconds.established)
            || is_some_recent(self.latest(OTHERS), now, timers.seconds.transitory)
    }

    /// Returns the last time (ns) at which one of the TCP flows is live, at most `u64::MAX`. One
    /// must be live at `now`. Reads at most two flows.
    pub(crate) fn last_moment(&self, timers: IdleTimers, now: u64) -> u64
        requires live { list_any (life.is_live_flow timers now) (standing_flows self.now.slots)
            ≡ true }
        ensures later { now ≤ result }
        ensures lives { (t : ℕ) → t ≤ result → list_any (life.is_live_flow timers t)
            (standing_flows self.now.slots) ≡ true }
        ensures far { (t : ℕ) → t < 2 ^ 64 → list_any (life.is_live_flow timers t)
            (standing_flows self.now.slots) ≡ true → t ≤ result }
    {
        let established = last_moment_of(self.latest(ESTABLISHED), now, timers.seconds.established);
        established.max(last_moment_of(self.latest(OTHERS), now, timers.seconds.transitory))
    }

    /// Returns the end of the last TCP flow, in ns, or 0 without one. Reads at most two flows.
    pub(crate) fn last_end(&self, timers: IdleTimers) -> u128
        ensures { result ≡ last_end timers (standing_flows self.now.slots) }
    {
        let established = end_of_time(self.latest(ESTABLISHED), timers.seconds.established);
        established.max(end_of_time(self.latest(OTHERS), timers.seconds.transitory))
    }
}
