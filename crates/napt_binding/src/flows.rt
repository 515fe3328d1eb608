//! The flows of one binding.
//!
//! No call reads more than a few of them, except to remove expired flows and empty slots.

ghost use Rattle.std.specs.{Prelude.{◌≡◌, ◌==◌, ◌≤◌, ◌<◌, ◌^◌, ◌||◌, ℕ, Bool, true, false, filter, OnOk, OnErr, IfOk, [], ◌∷◌}, List.list_any};
ghost use Rattle.napt_binding.specs.{Ends.last_end, FlowStores.{flows_of, FlowStoreInvariant}, Slots.{AreDistinct, NoneUsedAfter, standing_flows}, FlowMapInvariants.FlowMapsInvariant};
ghost use Rattle.napt_rules.specs.Life as life;
ghost use Rattle.napt_binding.specs.FlowStores as storage;
ghost use Rattle.napt_rules.specs.Prelude.{change_first};
ghost use Rattle.napt_binding.specs.OutboundFlows as packets;
ghost use Rattle.napt_rules.specs.FlowUpdates as traffic;

mod flow_list;
mod flow_maps;
mod slots;

use crate::idle_timers::IdleTimers;
use crate::lifetime::{flow_end, flow_moment, is_live_flow, is_standing};
use crate::outbound::{flow_after, new_flow};
use crate::traffic::{is_flow_of, used};
use flow_maps::FlowMaps;
use napt_rules::{Flow, OutboundPacket};
use napt_wire::{Endpoint, Flags, Protocol, Way};
use std::alloc::{AllocError, Global};
use std::marker::Model;

/// The maximum number of flows that are stored without maps, and searched one by one.
const FEW: usize = 8;

/// The store of the flows. Most bindings have one flow, which takes no memory of its own.
#[derive(Drop)]
enum FlowStore {
    Empty,
    One(Flow),
    Listed(Vec<Flow>),
    Mapped(Box<FlowMaps>),
}

/// The flows of one binding, oldest first. No two have the same remote endpoint. Contracts see a
/// list.
#[derive(Drop)]
pub struct Flows {
    kept: FlowStore,
}

impl Model for Flows {
    ghost use Rattle.std.specs.Prelude.{List};
    ghost use Rattle.napt_rules.specs.declared.Flow.{Flow};

    ghost Value = { List Flow };

    ghost use Rattle.napt_binding.specs.FlowStores.{flows_of, FlowStoreInvariant};

    ghost view = { λ flows. flows_of flows.kept };

    ghost invariant = { λ flows. FlowStoreInvariant flows.kept };
}

/// Returns whether the packet begins a flow that needs maps, because `FEW` or more flows stand.
fn is_full(flows: &[Flow], timers: IdleTimers, sent: OutboundPacket) -> bool
    ensures { result ≡ storage.is_full timers sent flows.now }
{
    if flows.len() < FEW {
        return false;
    }
    FEW <= flow_list::count_standing(flows, timers, sent)
        && flow_list::standing_place(flows, timers, sent).is_none()
}

/// Returns the store after a packet goes out: one flow, if the old one is the packet's or expired.
fn one_after_outbound(
    alloc: Global,
    timers: IdleTimers,
    sent: OutboundPacket,
    flow: Flow,
) -> Result<FlowStore, AllocError>
    ensures kept { IfOk result FlowStoreInvariant }
    ensures flows { IfOk result (λ kept. packets.standing_at timers sent (flows_of kept)
        ≡ packets.flows_after_outbound sent (packets.standing_at timers sent (flow ∷ []))) }
    ensures live { IfOk result (λ kept.
        list_any (life.is_live_flow timers sent.now) (flows_of kept) ≡ true) }
    ensures maps { IfOk result (λ kept. storage.has_maps kept ≡ false) }
{
    timers.are_within_limits();
    if !is_standing(&flow, timers, sent.now, sent.protocol) {
        return Ok(FlowStore::One(new_flow(sent)));
    }
    if is_flow_of(&flow, sent.remote) {
        return Ok(FlowStore::One(flow_after(sent, flow)));
    }
    let mut flows = Vec::new(alloc);
    flows.push(flow)?;
    flows.push(new_flow(sent))?;
    Ok(FlowStore::Listed(flows))
}

/// Moves these flows, no two of one remote, to maps, and uses that of the packet's remote. Not
/// inlined, since a function pays at its entry for all its locals.
#[inline(never)]
fn with_maps(
    alloc: Global,
    timers: IdleTimers,
    sent: OutboundPacket,
    flows: &[Flow],
) -> Result<FlowStore, AllocError>
    requires distinct { AreDistinct flows.now }
    requires rising { NoneUsedAfter flows.now sent.now }
    ensures kept { IfOk result FlowStoreInvariant }
    ensures flows { IfOk result (λ kept. packets.standing_at timers sent (flows_of kept)
        ≡ packets.flows_after_outbound sent (packets.standing_at timers sent flows.now)) }
    ensures live { IfOk result (λ kept.
        list_any (life.is_live_flow timers sent.now) (flows_of kept) ≡ true) }
    ensures maps { IfOk result (λ kept. storage.has_maps kept ≡ true) }
{
    let mut many = FlowMaps::from_flows(alloc, flows)?;
    many.use_flow(alloc, timers, sent)?;
    Ok(FlowStore::Mapped(Box::new(alloc, many)?))
}

/// Uses the flow of the packet's remote, or begins one if none is live. Changes nothing if memory
/// is refused. A list of flows is moved to maps if and only if it is full.
fn use_flow_in_store(
    kept: &mut FlowStore,
    alloc: Global,
    timers: IdleTimers,
    sent: OutboundPacket,
) -> Result<(), AllocError>
    requires kept { FlowStoreInvariant kept.old }
    requires rising { NoneUsedAfter (flows_of kept.old) sent.now }
    ensures kept { FlowStoreInvariant kept.new }
    ensures ok { OnOk result (packets.standing_at timers sent (flows_of kept.new)
        ≡ packets.flows_after_outbound sent (packets.standing_at timers sent (flows_of kept.old))) }
    ensures live { OnOk result
        (list_any (life.is_live_flow timers sent.now) (flows_of kept.new) ≡ true) }
    ensures err { OnErr result (flows_of kept.new ≡ flows_of kept.old) }
    ensures maps { OnOk result (storage.has_maps kept.new
        ≡ (storage.has_maps kept.old || storage.are_full timers sent kept.old)) }
{
    timers.are_within_limits();
    match kept {
        FlowStore::Empty => {
            *kept = FlowStore::One(new_flow(sent));
            return Ok(());
        }
        FlowStore::One(flow) => {
            *kept = one_after_outbound(alloc, timers, sent, *flow)?;
            return Ok(());
        }
        FlowStore::Listed(flows) => {
            if !is_full(flows, timers, sent) {
                return flow_list::use_flow(flows, timers, sent);
            }
            *kept = with_maps(alloc, timers, sent, flows)?;
            return Ok(());
        }
        FlowStore::Mapped(many) => return many.use_flow(alloc, timers, sent),
    }
}

/// Returns a copy of the flows of a protocol that live at `now` (ns).
pub(crate) fn live_flows(
    alloc: Global,
    flows: &[Flow],
    timers: IdleTimers,
    now: u64,
    protocol: Protocol,
) -> Result<Vec<Flow>, AllocError>
    ensures { IfOk result (λ made. made.items ≡ life.live_flows timers now protocol flows.now) }
{
    let mut flows = flows.to_vec(alloc)?;
    flow_list::retain_standing(&mut flows, timers, now, protocol);
    Ok(flows)
}

impl Flows {
    /// Creates an empty list of flows, without allocating.
    pub fn new(_alloc: Global) -> Flows
        ensures { result ≡ [] }
    {
        Flows {
            kept: FlowStore::Empty,
        }
    }

    /// Creates the flows from a list, oldest first, one of each remote. Fails only if memory is
    /// refused.
    pub fn from_flows(alloc: Global, flows: &[Flow]) -> Result<Flows, AllocError>
        requires { AreDistinct flows.now }
        ensures { IfOk result (λ made. made ≡ flows.now) }
    {
        let kept = match flows.len() {
            0 => FlowStore::Empty,
            1 => FlowStore::One(flows[0]),
            few if few <= FEW => FlowStore::Listed(flows.to_vec(alloc)?),
            _ => FlowStore::Mapped(Box::new(alloc, FlowMaps::from_flows(alloc, flows)?)?),
        };
        Ok(Flows { kept })
    }

    /// Returns a copy of the flows, oldest first.
    fn copied(&self, alloc: Global) -> Result<Vec<Flow>, AllocError>
        ensures flows { IfOk result (λ made. made.items ≡ self.now) }
        ensures distinct { IfOk result (λ made. AreDistinct made.items) }
    {
        match &self.kept {
            FlowStore::Empty => Ok(Vec::new(alloc)),
            FlowStore::One(flow) => [*flow].to_vec(alloc),
            FlowStore::Listed(flows) => flows.to_vec(alloc),
            FlowStore::Mapped(many) => many.flows(alloc),
        }
    }

    /// Copies the flows of a protocol live at `now` (ns), in order. Fails only if memory is
    /// refused.
    #[tactic(auto, using(crate::proofs::DistinctFlows::distinct_live))]
    pub fn live(
        &self,
        alloc: Global,
        timers: IdleTimers,
        now: u64,
        protocol: Protocol,
    ) -> Result<Vec<Flow>, AllocError>
        ensures flows { IfOk result (λ made. made.items
            ≡ life.live_flows timers now protocol self.now) }
        ensures distinct { IfOk result (λ made. AreDistinct made.items) }
    {
        let mut flows = self.copied(alloc)?;
        flow_list::retain_standing(&mut flows, timers, now, protocol);
        Ok(flows)
    }

    /// Creates the flows of a binding whose first packet goes out. Never allocates or fails.
    pub fn from_packet(
        _alloc: Global,
        timers: IdleTimers,
        sent: OutboundPacket,
    ) -> Result<Flows, AllocError>
        ensures { IfOk result (λ flows. packets.standing_at timers sent flows
            ≡ packets.flows_after_outbound sent []) }
    {
        timers.are_within_limits();
        Ok(Flows {
            kept: FlowStore::One(new_flow(sent)),
        })
    }

    /// Returns the last time (ns) at which a TCP flow is live, or 2^64 - 1 if that is earlier. At
    /// least one flow must be live at `now`.
    pub(crate) fn last_moment(&self, timers: IdleTimers, now: u64) -> u64
        requires live { list_any (life.is_live_flow timers now) self.now ≡ true }
        ensures later { now ≤ result }
        ensures lives { (t : ℕ) → t ≤ result → list_any (life.is_live_flow timers t) self.now
            ≡ true }
        ensures far { (t : ℕ) → t < 2 ^ 64 → list_any (life.is_live_flow timers t) self.now
            ≡ true → t ≤ result }
    {
        match &self.kept {
            FlowStore::Empty => now,
            FlowStore::One(flow) => flow_moment(flow, timers).max(now),
            FlowStore::Listed(flows) => flow_list::last_moment_of(flows, timers, now),
            FlowStore::Mapped(many) => many.last_moment(timers, now),
        }
    }

    /// Returns the end of the last of these TCP flows, in ns, or 0 if there is none.
    pub(crate) fn last_end(&self, timers: IdleTimers) -> u128
        ensures { result ≡ last_end timers self.now }
    {
        match &self.kept {
            FlowStore::Empty => 0,
            FlowStore::One(flow) => flow_end(flow, timers),
            FlowStore::Listed(flows) => flow_list::last_end(flows, timers),
            FlowStore::Mapped(many) => many.last_end(timers),
        }
    }

    /// Returns whether one of these TCP flows is live at `now` (ns).
    pub(crate) fn has_live(&self, timers: IdleTimers, now: u64) -> bool
        ensures { result ≡ list_any (life.is_live_flow timers now) self.now }
    {
        match &self.kept {
            FlowStore::Empty => false,
            FlowStore::One(flow) => is_live_flow(flow, timers, now),
            FlowStore::Listed(flows) => flows.iter().any(|flow| is_live_flow(flow, timers, now)),
            FlowStore::Mapped(many) => many.has_live(timers, now),
        }
    }

    /// Removes the TCP flows that have expired at `now` (ns).
    pub(crate) fn retain_live(&mut self, timers: IdleTimers, now: u64)
        ensures { self.new ≡ filter (life.is_live_flow timers now) self.old }
    {
        match &mut self.kept {
            FlowStore::Empty => {}
            FlowStore::One(flow) => {
                if !is_live_flow(flow, timers, now) {
                    self.kept = FlowStore::Empty;
                }
            }
            FlowStore::Listed(flows) => flow_list::retain_live(flows, timers, now),
            FlowStore::Mapped(many) => return many.retain_live(timers, now),
        }
    }

    /// Returns whether a flow's remote has the address.
    pub(crate) fn has_address(&self, address: u32) -> bool
        ensures { result ≡ list_any (λ flow. flow.remote.address == address) self.now }
    {
        match &self.kept {
            FlowStore::Empty => false,
            FlowStore::One(flow) => flow.remote.address == address,
            FlowStore::Listed(flows) => flows.iter().any(|flow| flow.remote.address == address),
            FlowStore::Mapped(many) => many.has_address(address),
        }
    }

    /// Returns whether there is a flow of the remote.
    pub(crate) fn has_remote(&self, remote: Endpoint) -> bool
        ensures { result ≡ list_any (traffic.is_flow_of remote) self.now }
    {
        match &self.kept {
            FlowStore::Empty => false,
            FlowStore::One(flow) => is_flow_of(flow, remote),
            FlowStore::Listed(flows) => flows.iter().any(|flow| is_flow_of(flow, remote)),
            FlowStore::Mapped(many) => many.has_remote(remote),
        }
    }

    /// Uses the packet's flow, or begins it if none is live. Changes nothing if memory is refused.
    pub(crate) fn use_flow(
        &mut self,
        alloc: Global,
        timers: IdleTimers,
        sent: OutboundPacket,
    ) -> Result<(), AllocError>
        requires { NoneUsedAfter self.old sent.now }
        ensures ok { OnOk result (packets.standing_at timers sent self.new
            ≡ packets.flows_after_outbound sent (packets.standing_at timers sent self.old)) }
        ensures live { OnOk result (list_any (life.is_live_flow timers sent.now) self.new ≡ true) }
        ensures err { OnErr result (self.new ≡ self.old) }
    {
        use_flow_in_store(&mut self.kept, alloc, timers, sent)
    }

    /// Records that an incoming segment used the remote's flow, if there is one, at `now` (ns).
    pub(crate) fn refresh_flow(&mut self, now: u64, remote: Endpoint, flags: Flags)
        requires { NoneUsedAfter self.old now }
        ensures { self.new ≡ change_first (traffic.is_flow_of remote)
            (traffic.flow_after Protocol.Tcp Way.Incoming flags now) self.old }
    {
        match &mut self.kept {
            FlowStore::Empty => {}
            FlowStore::One(flow) => {
                if is_flow_of(flow, remote) {
                    *flow = used(*flow, Protocol::Tcp, Way::Incoming, flags, now);
                }
            }
            FlowStore::Listed(flows) => flow_list::refresh_flow(flows, now, remote, flags),
            FlowStore::Mapped(many) => return many.refresh_flow(now, remote, flags),
        }
    }
}
