//! The stored bindings of one external address: the live ones, and those that have ended but have
//! not been removed yet.

ghost use Rattle.std.specs.Prelude.{◌≡◌, ◌<◌, ◌^◌, not, Some, None, Ok, Err, OnOk, OnErr, IfOk, IfSome, All, cond, find, slice_get};
ghost use Rattle.std.specs.Option.{option_copied, option_map, is_some};
ghost use Rattle.napt_config.specs.Rules.{IsPortBlock};
ghost use Rattle.napt_wire.specs.declared.Cause.TheVariants.{NoBinding};
ghost use Rattle.napt_binding.specs.Inbounds.{inbound_answer, binding_after_inbound};

use crate::bindings::binding_places::BindingPlaces;
use crate::bindings::keys::{ExternalNumberKey, InsideKey, inside_key, key_of};
use crate::bindings::numbers_in_use::NumbersInUse;
use crate::host_counts::HostCounts;
use indexmap::IndexMap;
use napt_binding::{Flows, IdleTimers, TableBinding, is_live, purge_and_receive, send, to_state};
use napt_config::PortBlock;
use napt_rules::{AssignmentRules, InboundPacket, InboundRules, OutboundPacket, Row, StateBinding};
use napt_wire::{Cause, Endpoint, Protocol};
use std::alloc::{AllocError, Global};
use std::collections::HashMap;
use std::marker::Model;

/// The stored bindings, found by external number or by inside endpoint. Contracts see them by the
/// key of their number, the address, the rules for assigning numbers, and the room for more.
#[derive(Drop)]
pub(crate) struct BindingIndex {
    /// The external address, in host order.
    address: u32,
    assignment: AssignmentRules,
    by_number: IndexMap<ExternalNumberKey, TableBinding>,
    /// Hints at the index of a number's binding in `by_number`.
    places: BindingPlaces,
    /// The external number of each inside endpoint that has a binding.
    by_inside: HashMap<InsideKey, u16>,
    /// The external numbers of the stored bindings.
    numbers: NumbersInUse,
    /// The number of bindings of each inside host, counted only under a quota.
    hosts: HostCounts,
}

impl Model for BindingIndex {
    ghost use Rattle.napt_table.specs.BindingIndexes.{BindingIndexModel};

    ghost Value = { BindingIndexModel };

    ghost use Rattle.napt_table.specs.HeldModels.{holdings_of, IsHeld};

    ghost view = { holdings_of };

    ghost invariant = { IsHeld };
}

impl BindingIndex {
    ghost use Rattle.napt_collections.specs.BitSets.{IsFirstAbsent};
    ghost use Rattle.napt_rules.specs.Prelude.{Binding, candidates, reaches_quota};
    ghost use Rattle.napt_table.specs.Keys.{key_eq, key_of};
    ghost use Rattle.napt_table.specs.declared.bindings.keys.ExternalNumberKey.{ExternalNumberKey as Key};
    ghost use Rattle.napt_table.specs.BindingIndexes.{held_binding, held_at, count_all, IsNumberOf, IsNamed, HasNoInside, IsSamePlace, HoldsSame};

    /// Creates an index without bindings. Fails only if the memory for the numbers in use is
    /// refused.
    pub(crate) fn new(
        alloc: Global,
        address: u32,
        assignment: AssignmentRules,
    ) -> Result<BindingIndex, AllocError>
        ensures address { IfOk result (λ all. all.address ≡ address) }
        ensures assignment { IfOk result (λ all. all.assignment ≡ assignment) }
        ensures none { IfOk result (λ all. (key : Key) → held_binding all key ≡ None) }
    {
        Ok(BindingIndex {
            address,
            assignment,
            by_number: IndexMap::new(alloc),
            places: BindingPlaces::new(alloc),
            by_inside: HashMap::new(alloc),
            numbers: NumbersInUse::new(alloc)?,
            hosts: HostCounts::new(alloc, assignment.quota.is_some()),
        })
    }

    /// Law: each binding has its key's protocol and number, and the address. Does nothing when run.
    pub(crate) fn keep_names(&self)
        ensures { IsNamed self.now }
    {
        let _ = &self.address;
    }

    /// Returns the external address, in host order.
    pub(crate) fn address(&self) -> u32
        ensures { result ≡ self.now.address }
    {
        self.address
    }

    /// Returns the number of stored bindings.
    pub(crate) fn size(&self) -> u64 {
        self.by_number.len() as u64
    }

    /// Returns the binding with this protocol and number, if there is one.
    pub(crate) fn get(&self, key: ExternalNumberKey) -> Option<&TableBinding>
        ensures { option_copied result ≡ held_binding self.now key }
    {
        self.by_number.get(&key)
    }

    /// Returns the binding with this key and its index, found by the hint or else by a look-up.
    #[inline(always)]
    pub(crate) fn find(&self, key: ExternalNumberKey) -> Option<(usize, &TableBinding)>
        ensures value { option_map (λ found. found.1.now) result ≡ held_binding self.now key }
        ensures entry { IfSome result (λ found.
            slice_get self.now.entries found.0 ≡ Some (key, found.1.now)) }
    {
        let place = self.places.noted(key);
        match self.by_number.get_index(place) {
            Some((_, binding)) if key_of(binding) == key => Some((place, binding)),
            _ => match self.by_number.get_full(&key) {
                Some((place, _, binding)) => Some((place, binding)),
                None => None,
            },
        }
    }

    /// Returns the external number of the inside endpoint's binding, if there is one.
    pub(crate) fn number_of(&self, protocol: Protocol, inside: Endpoint) -> Option<u16>
        ensures { IsNumberOf self.now protocol inside result }
    {
        match self.by_inside.get(&inside_key(protocol, inside)) {
            Some(number) => Some(*number),
            None => None,
        }
    }

    /// Returns the first candidate for an inside endpoint, of a host with this block or without
    /// one, that no stored binding has, or `None` if each is in use.
    pub(crate) fn choose(
        &self,
        block: Option<PortBlock>,
        protocol: Protocol,
        inside: Endpoint,
    ) -> Option<u16>
        requires { IfSome block IsPortBlock }
        ensures { result ≡ find (λ n. not (is_some (held_at self.now protocol n)))
            (candidates self.now.assignment.choosing block protocol inside) }
    {
        self.numbers
            .choose(self.assignment.choosing, block, protocol, inside)
    }

    /// Returns the least number of the protocol from 1 on that no binding has, if there is one.
    pub(crate) fn least_free(&self, protocol: Protocol) -> Option<u16>
        ensures { IsFirstAbsent (λ n. is_some (held_at self.now protocol n)) 1 (2 ^ 16) result }
    {
        self.numbers.least_free(protocol)
    }

    /// Returns whether the host has as many bindings as the quota allows.
    pub(crate) fn is_at_quota(&self, host: u32) -> bool
        ensures { result ≡ reaches_quota self.now.assignment.quota (count_all self.now host) }
    {
        let Some(quota) = self.assignment.quota else {
            return false;
        };
        let count = self.hosts.count(host);
        usize::from(quota) <= count
    }

    /// Reserves memory for one more binding of the protocol. Fails only if memory is refused.
    pub(crate) fn reserve(&mut self, protocol: Protocol) -> Result<(), AllocError>
        ensures same { HoldsSame self.old self.new }
        ensures room { OnOk result (0 < self.new.room) }
    {
        let places = &mut self.places;
        places.reserve(protocol)?;
        self.by_number.reserve(1)?;
        let hosts = &mut self.hosts;
        hosts.reserve()?;
        self.by_inside.reserve(1)?;
        Ok(())
    }

    /// Stores a binding. There must be room for it, and its endpoints must be free.
    pub(crate) fn insert(&mut self, binding: TableBinding)
        requires room { 0 < self.old.room }
        requires at { binding.row.external.address ≡ self.old.address }
        requires free { held_binding self.old (key_of binding) ≡ None }
        requires absent { HasNoInside self.old binding.row.protocol binding.row.inside }
        ensures place { IsSamePlace self.old self.new }
        ensures held { (key : Key) → held_binding self.new key ≡ cond (key_eq (key_of binding) key)
            (Some binding) (held_binding self.old key) }
    {
        let key = key_of(&binding);
        let inside = inside_key(binding.row.protocol(), binding.row.inside());
        let hosts = &mut self.hosts;
        hosts.increment(&binding);
        match self.by_inside.insert(inside, key.number) {
            Ok(_) => {}
            Err(_) => unreachable!(),
        }
        let place = self.by_number.len();
        match self.by_number.insert(key, binding) {
            Ok(_) => {}
            Err(_) => unreachable!(),
        }
        let places = &mut self.places;
        places.note(&self.by_number, place);
        let numbers = &mut self.numbers;
        numbers.insert(key);
    }

    /// Removes the binding with this protocol and number, if there is one.
    pub(crate) fn remove(&mut self, key: ExternalNumberKey)
        ensures place { IsSamePlace self.old self.new }
        ensures held { (other : Key) → held_binding self.new other ≡ cond (key_eq key other) None
            (held_binding self.old other) }
        ensures room { 0 < self.old.room → 0 < self.new.room }
    {
        let Some((place, _, binding)) = self.by_number.swap_remove_full(&key) else {
            return;
        };
        let places = &mut self.places;
        places.note(&self.by_number, place);
        self.by_inside
            .remove(&inside_key(binding.row.protocol(), binding.row.inside()));
        let hosts = &mut self.hosts;
        hosts.decrement(&binding);
        let numbers = &mut self.numbers;
        numbers.remove(key);
    }
}

impl BindingIndex {
    ghost use Rattle.napt_rules.specs.Prelude.{Binding};
    ghost use Rattle.napt_table.specs.HeldLists.{seen_binding};
    ghost use Rattle.napt_table.specs.Keys.{external_key};
    ghost use Rattle.napt_table.specs.BindingIndexes.{held_binding, held_at, AreUsedUpTo, HoldsSame, ChangesOne, SendKnownPost};

    /// Sends a packet out through its inside endpoint's live binding, if there is one, and returns
    /// its number. Fails only if memory is refused; the stored bindings are then unchanged.
    pub(crate) fn send(
        &mut self,
        alloc: Global,
        timers: IdleTimers,
        packet: OutboundPacket,
    ) -> Result<Option<u16>, AllocError>
        requires { AreUsedUpTo packet.now self.old }
        ensures went { IfOk result (SendKnownPost timers packet self.old self.new) }
        ensures refused { OnErr result (HoldsSame self.old self.new) }
    {
        let protocol = packet.protocol;
        let number = match self.by_inside.get(&inside_key(protocol, packet.inside)) {
            Some(number) => *number,
            None => return Ok(None),
        };
        let Some((place, binding)) = self.find(ExternalNumberKey { number, protocol }) else {
            return Ok(None);
        };
        if !is_live(binding, timers, packet.now) {
            return Ok(None);
        }
        let Some(binding) = self.by_number.get_index_mut(place) else {
            return Ok(None);
        };
        send(binding, alloc, timers, packet)?;
        Ok(Some(number))
    }

    /// Replaces the time of last use (ns) and the flows of the binding with this key. Its endpoints
    /// stay the same.
    pub(crate) fn renew(&mut self, key: ExternalNumberKey, last: u64, flows: Flows)
        ensures one { ChangesOne key self.old self.new }
        ensures left { (b : Binding) → held_binding self.old key ≡ Some b →
            held_binding self.new key ≡ Some (record b { last = last; flows = flows }) }
    {
        let Some((place, _)) = self.find(key) else {
            return;
        };
        let Some(binding) = self.by_number.get_index_mut(place) else {
            return;
        };
        binding.last = last;
        binding.flows = flows;
    }

    /// Receives a packet. Returns the inside endpoint of the live binding with its number. Fails
    /// with `NoBinding` if there is none, or with `Filtered` if the filter refuses the remote.
    /// Allocates no memory.
    pub(crate) fn receive(
        &mut self,
        timers: IdleTimers,
        inbound: InboundRules,
        packet: InboundPacket,
    ) -> Result<Endpoint, Cause>
        requires { AreUsedUpTo packet.now self.old }
        ensures one { ChangesOne (external_key packet.protocol packet.number) self.old self.new }
        ensures absent { seen_binding timers packet.now
            (held_at self.old packet.protocol packet.number)
            ≡ None →
            (result ≡ Err NoBinding) × (held_at self.new packet.protocol packet.number
            ≡ held_at self.old packet.protocol packet.number) }
        ensures found { (b : Binding) →
            seen_binding timers packet.now (held_at self.old packet.protocol packet.number)
            ≡ Some b →
            (result ≡ inbound_answer inbound packet b)
            × (held_at self.new packet.protocol packet.number
            ≡ Some (binding_after_inbound inbound packet b)) }
    {
        let key = ExternalNumberKey {
            number: packet.number,
            protocol: packet.protocol,
        };
        let Some((place, binding)) = self.find(key) else {
            return Err(Cause::NoBinding);
        };
        if !is_live(binding, timers, packet.now) {
            return Err(Cause::NoBinding);
        }
        let Some(binding) = self.by_number.get_index_mut(place) else {
            return Err(Cause::NoBinding);
        };
        purge_and_receive(binding, timers, inbound, packet)
    }
}

impl BindingIndex {
    ghost use Rattle.std.specs.{List.IsDistinct, Map.{keys_of, values_of}};
    ghost use Rattle.napt_rules.specs.Prelude.{purge};
    ghost use Rattle.napt_binding.specs.Slots.{AreDistinct};
    ghost use Rattle.napt_table.specs.{Keys.key_eq, HeldRows.{held_rows, AreListable}};

    /// Returns the rows of the bindings that are live at `now` (ns), in no order.
    pub(crate) fn rows(
        &self,
        alloc: Global,
        timers: IdleTimers,
        now: u64,
    ) -> Result<Vec<Row>, AllocError>
        ensures rows { IfOk result (λ made. made.items ≡ held_rows timers now self.now) }
        ensures read { OnOk result (AreListable timers now self.now) }
    {
        let mut made = Vec::new(alloc);
        let held = self.by_number.as_slice();
        for binding in held.values() {
            if is_live(binding, timers, now) {
                made.push(binding.row.row())?;
            }
        }
        Ok(made)
    }

    /// Returns the bindings that are live at `ago` (ns), as a saved state has them, in no order.
    pub(crate) fn state_bindings(
        &self,
        alloc: Global,
        timers: IdleTimers,
        ago: u64,
    ) -> Result<Vec<StateBinding>, AllocError>
        ensures bindings { IfOk result (λ made. made.items
            ≡ purge timers ago (values_of self.now.entries)) }
        ensures distinct { IfOk result (λ made. All (λ b. AreDistinct b.flows) made.items) }
        ensures unique { OnOk result (IsDistinct key_eq (keys_of self.now.entries)) }
    {
        let mut made = Vec::new(alloc);
        let held = self.by_number.as_slice();
        for binding in held.values() {
            if is_live(binding, timers, ago) {
                made.push(to_state(alloc, binding, timers, ago)?)?;
            }
        }
        Ok(made)
    }
}
