//! Many flows, found by maps. All are visited only to remove expired ones and empty slots.

ghost use Rattle.std.specs.Prelude.{◌≡◌, ◌==◌, ◌≤◌, ◌<◌, ◌++◌, ◌^◌, ℕ, Bool, true, false, None, Some, [], ◌∷◌, length, filter, slice_set, OnOk, OnErr, IfOk, IfSome};
ghost use Rattle.std.specs.List.{list_any};
ghost use Rattle.napt_rules.specs.{declared.Flow.Flow, Prelude.change_first};
ghost use Rattle.napt_rules.specs.Life as life;
ghost use Rattle.napt_binding.specs.{StandingFlows.standing_flow_of, Ends.last_end, Slots.{standing_flows, IsInSlot, AreDistinct, AreByLastUse, NoneUsedAfter}};
ghost use Rattle.napt_binding.specs.OutboundFlows as packets;
ghost use Rattle.napt_rules.specs.FlowUpdates as traffic;

use super::slots::FlowSlots;
use crate::address_counts::AddressCounts;
use crate::idle_timers::IdleTimers;
use crate::lifetime::is_standing;
use crate::outbound::{flow_after, new_flow};
use crate::traffic::used;
use napt_rules::{Flow, OutboundPacket};
use napt_wire::{Endpoint, Flags, Protocol, Way};
use std::alloc::{AllocError, Global};
use std::collections::HashMap;

/// The largest number of slots with which empty ones are not removed.
const SPARSE: usize = 64;

/// The flows of a binding that has many.
#[derive(Drop)]
pub(crate) struct FlowMaps {
    slots: FlowSlots,
    /// The slot of the flow of a remote address and number.
    places: HashMap<(u32, u16), usize>,
    addresses: AddressCounts,
}

/// Returns the flows with their places, in ascending order of their last use.
fn by_last_use(alloc: Global, flows: &[Flow]) -> Result<Vec<(usize, Flow)>, AllocError>
    ensures { IfOk result (λ entries. AreByLastUse flows.now entries.items) }
{
    let mut entries = Vec::new(alloc);
    for place in 0..flows.len() {
        entries.push((place, flows[place]))?;
    }
    entries.sort_unstable_by_key(|entry| entry.1.last);
    Ok(entries)
}

impl FlowMaps {
    ghost use Rattle.napt_binding.specs.FlowMapInvariants.{FlowMapsInvariant, FlowMapsHaveRoom, place_of_remote};

    /// Creates maps without flows.
    fn new(alloc: Global) -> Result<FlowMaps, AllocError>
        ensures many { IfOk result FlowMapsInvariant }
        ensures none { IfOk result (λ many. many.slots.slots ≡ []) }
    {
        Ok(FlowMaps {
            slots: FlowSlots::new(alloc)?,
            places: HashMap::new(alloc),
            addresses: AddressCounts::new(alloc),
        })
    }

    /// Makes room for one more flow.
    fn reserve(&mut self) -> Result<(), AllocError>
        requires { FlowMapsInvariant self.old }
        ensures many { FlowMapsInvariant self.new }
        ensures slots { self.new.slots.slots ≡ self.old.slots.slots }
        ensures room { OnOk result (FlowMapsHaveRoom self.new) }
    {
        self.places.reserve(1)?;
        let slots = &mut self.slots;
        slots.reserve()?;
        let addresses = &mut self.addresses;
        addresses.reserve()
    }

    /// Appends a flow of a remote that has none.
    fn insert(&mut self, flow: Flow)
        requires many { FlowMapsInvariant self.old }
        requires room { FlowMapsHaveRoom self.old }
        requires absent { place_of_remote self.old flow.remote ≡ None }
        requires rising { NoneUsedAfter (standing_flows self.old.slots.slots) flow.last }
        ensures many { FlowMapsInvariant self.new }
        ensures slots { self.new.slots.slots ≡ self.old.slots.slots ++ Some flow ∷ [] }
    {
        let slots = &mut self.slots;
        let place = slots.insert(flow);
        let remote = flow.remote;
        match self.places.insert((remote.address, remote.number), place) {
            Ok(_) => {}
            Err(_) => unreachable!(),
        }
        let addresses = &mut self.addresses;
        addresses.increment(remote.address);
    }

    /// Removes the flow in the slot.
    fn remove(&mut self, place: usize)
        requires many { FlowMapsInvariant self.old }
        requires stands { (flow : Flow) × IsInSlot self.old.slots.slots place flow }
        ensures many { FlowMapsInvariant self.new }
        ensures slots { self.new.slots.slots ≡ slice_set self.old.slots.slots place None }
        ensures room { FlowMapsHaveRoom self.old → FlowMapsHaveRoom self.new }
    {
        let Some(flow) = self.slots.get(place) else {
            return;
        };
        let slots = &mut self.slots;
        slots.clear(place);
        let remote = flow.remote;
        self.places.remove(&(remote.address, remote.number));
        let addresses = &mut self.addresses;
        addresses.decrement(remote.address);
    }

    /// Replaces the flow in the slot by one of the same remote.
    fn change(&mut self, place: usize, flow: Flow)
        requires many { FlowMapsInvariant self.old }
        requires stands { (was : Flow) × IsInSlot self.old.slots.slots place was
            × (was.remote ≡ flow.remote) }
        requires rising { NoneUsedAfter (standing_flows self.old.slots.slots) flow.last }
        ensures many { FlowMapsInvariant self.new }
        ensures slots { self.new.slots.slots ≡ slice_set self.old.slots.slots place (Some flow) }
    {
        let slots = &mut self.slots;
        slots.change(place, flow);
    }

    /// Removes an expired TCP flow, and returns whether there was one.
    fn remove_expired(&mut self, timers: IdleTimers, now: u64) -> bool
        requires many { FlowMapsInvariant self.old }
        ensures many { FlowMapsInvariant self.new }
        ensures kept { filter (life.is_live_flow timers now) (standing_flows self.new.slots.slots)
            ≡ filter (life.is_live_flow timers now) (standing_flows self.old.slots.slots) }
        ensures room { FlowMapsHaveRoom self.old → FlowMapsHaveRoom self.new }
        ensures fewer { result ≡ true → length (standing_flows self.new.slots.slots)
            < length (standing_flows self.old.slots.slots) }
        ensures as_long { length self.new.slots.slots ≡ length self.old.slots.slots }
        ensures none { result ≡ false → standing_flows self.new.slots.slots
            ≡ filter (life.is_live_flow timers now) (standing_flows self.old.slots.slots) }
    {
        let Some(place) = self.slots.expired_place(timers, now) else {
            return false;
        };
        self.remove(place);
        true
    }

    /// Removes the TCP flows that have expired at `now` (ns).
    pub(super) fn retain_live(&mut self, timers: IdleTimers, now: u64)
        requires many { FlowMapsInvariant self.old }
        ensures many { FlowMapsInvariant self.new }
        ensures flows { standing_flows self.new.slots.slots ≡ filter (life.is_live_flow timers now)
            (standing_flows self.old.slots.slots) }
        ensures room { FlowMapsHaveRoom self.old → FlowMapsHaveRoom self.new }
        ensures as_long { length self.new.slots.slots ≡ length self.old.slots.slots }
    {
        while self.remove_expired(timers, now) {}
    }

    /// Removes the flows that have expired at `now` (ns), if the protocol is TCP.
    fn retain_standing(&mut self, timers: IdleTimers, now: u64, protocol: Protocol)
        requires many { FlowMapsInvariant self.old }
        ensures many { FlowMapsInvariant self.new }
        ensures flows { standing_flows self.new.slots.slots ≡ life.live_flows timers now protocol
            (standing_flows self.old.slots.slots) }
        ensures room { FlowMapsHaveRoom self.old → FlowMapsHaveRoom self.new }
        ensures as_long { length self.new.slots.slots ≡ length self.old.slots.slots }
    {
        if let Protocol::Tcp = protocol {
            self.retain_live(timers, now);
        }
    }

    /// Returns the slot of the remote's flow, if there is one.
    fn place_of(&self, remote: Endpoint) -> Option<usize>
        ensures { result ≡ place_of_remote self.now remote }
    {
        Some(*self.places.get(&(remote.address, remote.number))?)
    }

    /// Returns whether one of the TCP flows is live at `now` (ns).
    pub(super) fn has_live(&self, timers: IdleTimers, now: u64) -> bool
        ensures { result ≡ list_any (life.is_live_flow timers now)
            (standing_flows self.now.slots.slots) }
    {
        self.slots.has_live(timers, now)
    }

    /// Returns the last time (ns) at which a TCP flow lives, at most 2^64 - 1. One must at `now`.
    pub(super) fn last_moment(&self, timers: IdleTimers, now: u64) -> u64
        requires live { list_any (life.is_live_flow timers now)
            (standing_flows self.now.slots.slots)
            ≡ true }
        ensures later { now ≤ result }
        ensures lives { (t : ℕ) → t ≤ result → list_any (life.is_live_flow timers t)
            (standing_flows self.now.slots.slots) ≡ true }
        ensures far { (t : ℕ) → t < 2 ^ 64 → list_any (life.is_live_flow timers t)
            (standing_flows self.now.slots.slots) ≡ true → t ≤ result }
    {
        self.slots.last_moment(timers, now)
    }

    /// Returns the end of the last of these TCP flows, in ns, or 0 if there is none.
    pub(super) fn last_end(&self, timers: IdleTimers) -> u128
        ensures { result ≡ last_end timers (standing_flows self.now.slots.slots) }
    {
        self.slots.last_end(timers)
    }

    /// Returns whether a flow's remote has the address.
    pub(super) fn has_address(&self, address: u32) -> bool
        requires { FlowMapsInvariant self.now }
        ensures { result ≡ list_any (λ flow. flow.remote.address == address)
            (standing_flows self.now.slots.slots) }
    {
        self.addresses.has(address)
    }

    /// Returns whether there is a flow of the remote.
    pub(super) fn has_remote(&self, remote: Endpoint) -> bool
        requires { FlowMapsInvariant self.now }
        ensures { result ≡ list_any (traffic.is_flow_of remote)
            (standing_flows self.now.slots.slots) }
    {
        self.place_of(remote).is_some()
    }
}

impl FlowMaps {
    ghost use Rattle.napt_binding.specs.FlowMapInvariants.{FlowMapsInvariant, FlowMapsHaveRoom, is_sparse, most_slots, place_of_remote};

    /// Creates the maps of these flows, no two of which are of one remote.
    ///
    /// Each flow is inserted as if it had never been used. Then the flows get their last uses, in
    /// ascending order, so that no use is before the latest.
    pub(super) fn from_flows(alloc: Global, flows: &[Flow]) -> Result<FlowMaps, AllocError>
        requires { AreDistinct flows.now }
        ensures many { IfOk result FlowMapsInvariant }
        ensures flows { IfOk result (λ many. standing_flows many.slots.slots ≡ flows.now) }
        ensures none_empty { IfOk result (λ many. length many.slots.slots ≡ length flows.now) }
    {
        let mut many = FlowMaps::new(alloc)?;
        for flow in flows {
            many.reserve()?;
            many.insert(Flow { last: 0, ..*flow });
        }
        let entries = by_last_use(alloc, flows)?;
        for entry in &entries {
            let (place, flow) = *entry;
            many.change(place, flow);
        }
        Ok(many)
    }

    /// Returns a copy of the flows, oldest first.
    pub(super) fn flows(&self, alloc: Global) -> Result<Vec<Flow>, AllocError>
        requires { FlowMapsInvariant self.now }
        ensures flows { IfOk result (λ made. made.items ≡ standing_flows self.now.slots.slots) }
        ensures distinct { IfOk result (λ made. AreDistinct made.items) }
    {
        let mut flows = Vec::new(alloc);
        for place in 0..self.slots.len() {
            if let Some(flow) = self.slots.get(place) {
                flows.push(flow)?;
            }
        }
        Ok(flows)
    }

    /// Returns the same flows, without empty slots.
    fn compacted(&self, alloc: Global) -> Result<FlowMaps, AllocError>
        requires { FlowMapsInvariant self.now }
        ensures many { IfOk result FlowMapsInvariant }
        ensures flows { IfOk result (λ many. standing_flows many.slots.slots
            ≡ standing_flows self.now.slots.slots) }
        ensures none_empty { IfOk result (λ many. length many.slots.slots
            ≡ length (standing_flows self.now.slots.slots)) }
    {
        let flows = self.flows(alloc)?;
        FlowMaps::from_flows(alloc, &flows)
    }

    /// Returns whether there are more than `SPARSE` slots, and fewer than half of them have a flow.
    fn is_sparse(&self) -> bool
        requires { FlowMapsInvariant self.now }
        ensures { result ≡ is_sparse self.now.slots.slots }
    {
        let slots = self.slots.len();
        SPARSE < slots && self.places.len() < slots / 2
    }

    /// Makes room for one more flow, and removes the empty slots if `is_sparse` returns true.
    fn make_room(&mut self, alloc: Global) -> Result<(), AllocError>
        requires { FlowMapsInvariant self.old }
        ensures many { FlowMapsInvariant self.new }
        ensures flows { standing_flows self.new.slots.slots ≡ standing_flows self.old.slots.slots }
        ensures room { OnOk result (FlowMapsHaveRoom self.new) }
        ensures dense { OnOk result (length self.new.slots.slots
            < most_slots (length (standing_flows self.old.slots.slots))) }
        ensures err { OnErr result (self.new.slots.slots ≡ self.old.slots.slots) }
    {
        if self.is_sparse() {
            let mut many = self.compacted(alloc)?;
            many.reserve()?;
            *self = many;
            return Ok(());
        }
        self.reserve()
    }

    /// Uses the flow of the packet's remote if it stands, and returns whether it does.
    fn use_standing(&mut self, timers: IdleTimers, sent: OutboundPacket) -> bool
        requires many { FlowMapsInvariant self.old }
        requires rising { NoneUsedAfter (standing_flows self.old.slots.slots) sent.now }
        ensures many { FlowMapsInvariant self.new }
        ensures used { result ≡ true →
            packets.standing_at timers sent (standing_flows self.new.slots.slots)
            ≡ packets.flows_after_outbound sent
            (packets.standing_at timers sent (standing_flows self.old.slots.slots)) }
        ensures live { result ≡ true →
            list_any (life.is_live_flow timers sent.now) (standing_flows self.new.slots.slots)
            ≡ true }
        ensures same { result ≡ false → self.new.slots.slots ≡ self.old.slots.slots }
        ensures as_long { length self.new.slots.slots ≡ length self.old.slots.slots }
        ensures none { result ≡ false →
            list_any (standing_flow_of timers sent.now sent.protocol sent.remote)
            (standing_flows self.old.slots.slots) ≡ false }
    {
        timers.are_within_limits();
        let Some(place) = self.place_of(sent.remote) else {
            return false;
        };
        let Some(flow) = self.slots.get(place) else {
            return false;
        };
        if !is_standing(&flow, timers, sent.now, sent.protocol) {
            return false;
        }
        self.change(place, flow_after(sent, flow));
        true
    }

    /// Uses the packet's flow, or begins it if none is live. Changes no flow if memory is refused.
    pub(super) fn use_flow(
        &mut self,
        alloc: Global,
        timers: IdleTimers,
        sent: OutboundPacket,
    ) -> Result<(), AllocError>
        requires many { FlowMapsInvariant self.old }
        requires rising { NoneUsedAfter (standing_flows self.old.slots.slots) sent.now }
        ensures many { FlowMapsInvariant self.new }
        ensures ok { OnOk result (packets.standing_at timers sent
            (standing_flows self.new.slots.slots)
            ≡ packets.flows_after_outbound sent
            (packets.standing_at timers sent (standing_flows self.old.slots.slots))) }
        ensures live { OnOk result
            (list_any (life.is_live_flow timers sent.now) (standing_flows self.new.slots.slots)
            ≡ true) }
        ensures err { OnErr result (standing_flows self.new.slots.slots
            ≡ standing_flows self.old.slots.slots) }
        ensures grown { length self.old.slots.slots < length self.new.slots.slots →
            length self.new.slots.slots ≤ most_slots (length (standing_flows self.old.slots.slots)) }
    {
        timers.are_within_limits();
        if self.use_standing(timers, sent) {
            return Ok(());
        }
        self.make_room(alloc)?;
        self.retain_standing(timers, sent.now, sent.protocol);
        self.insert(new_flow(sent));
        Ok(())
    }

    /// Records that an incoming segment used the remote's flow, if there is one, at `now` (ns).
    pub(super) fn refresh_flow(&mut self, now: u64, remote: Endpoint, flags: Flags)
        requires many { FlowMapsInvariant self.old }
        requires rising { NoneUsedAfter (standing_flows self.old.slots.slots) now }
        ensures many { FlowMapsInvariant self.new }
        ensures flows { standing_flows self.new.slots.slots
            ≡ change_first (traffic.is_flow_of remote)
            (traffic.flow_after Protocol.Tcp Way.Incoming flags now)
            (standing_flows self.old.slots.slots) }
    {
        let Some(place) = self.place_of(remote) else {
            return;
        };
        let Some(flow) = self.slots.get(place) else {
            return;
        };
        self.change(place, used(flow, Protocol::Tcp, Way::Incoming, flags, now));
    }
}
