//! New bindings, and packets that go out through bindings.

ghost use Rattle.std.specs.{Prelude.{◌≡◌, ◌≤◌, true, false, Some, None, Ok, OnOk, OnErr, IfOk, IfSome, cond}, Option.is_some};
ghost use Rattle.napt_config.specs.Rules.{IsPortBlock};

use crate::bindings::Bindings;
use crate::bindings::keys::{ExternalNumberKey, key_of};
use napt_binding::{Flows, PackedRow, TableBinding, live_until};
use napt_rules::{OutboundPacket, Row};
use napt_wire::{Cause, Endpoint, Protocol};
use std::alloc::{AllocError, Global};

impl Bindings {
    ghost use Rattle.napt_rules.specs.Prelude.{is_live};
    ghost use Rattle.napt_table.specs.Keys.{key_eq, key_of};
    ghost use Rattle.napt_table.specs.declared.bindings.keys.ExternalNumberKey.{ExternalNumberKey as Key};
    ghost use Rattle.napt_table.specs.BindingIndexes.{held_binding, IsSamePlace, HasNoInside, IsUsedBy};
    ghost use Rattle.napt_table.specs.Bindings.{BindingsHaveRoom, BindingsUnchanged};

    /// Reserves memory for one more binding of the protocol. Fails only if memory is refused.
    fn make_room(&mut self, protocol: Protocol) -> Result<(), AllocError>
        ensures same { BindingsUnchanged self.old self.new }
        ensures room { OnOk result (BindingsHaveRoom self.new) }
    {
        let held = &mut self.held;
        held.reserve(protocol)?;
        let due = &mut self.due;
        due.reserve()
    }

    /// Stores and queues a binding live at `from` (ns). There must be room, and free endpoints.
    fn insert(&mut self, binding: TableBinding, from: u64)
        requires room { BindingsHaveRoom self.old }
        requires from { from ≤ self.old.at }
        requires live { is_live self.old.timers from binding ≡ true }
        requires loose { binding.row.fixed ≡ false }
        requires at { binding.row.external.address ≡ self.old.held.address }
        requires free { held_binding self.old.held (key_of binding) ≡ None }
        requires absent { HasNoInside self.old.held binding.row.protocol binding.row.inside }
        requires used { IsUsedBy self.old.at binding }
        ensures timers { self.new.timers ≡ self.old.timers }
        ensures at { self.new.at ≡ self.old.at }
        ensures place { IsSamePlace self.old.held self.new.held }
        ensures held { (key : Key) → held_binding self.new.held key
            ≡ cond (key_eq (key_of binding) key)
            (Some binding) (held_binding self.old.held key) }
    {
        let key = key_of(&binding);
        let end = live_until(&binding, self.timers, from);
        let held = &mut self.held;
        held.insert(binding);
        let due = &mut self.due;
        due.push(end, key);
    }
}

impl Bindings {
    ghost use Rattle.std.specs.Prelude.{[]};
    ghost use Rattle.napt_wire.specs.declared.Way.TheVariants.{Outgoing as WayOut};
    ghost use Rattle.napt_rules.specs.Prelude.{Binding, change_first, is_live, hold_ago, live_flows, is_flow_of, flow_after, with_flow};
    ghost use Rattle.napt_table.specs.HeldLists.{seen_binding};
    ghost use Rattle.napt_table.specs.Keys.{key_eq, key_of};
    ghost use Rattle.napt_table.specs.declared.bindings.keys.ExternalNumberKey.{ExternalNumberKey as Key};
    ghost use Rattle.napt_table.specs.BindingIndexes.{held_binding, held_at, HasInside, IsSamePlace, HasNoInside, HoldsSame, IsUsedBy, SendKnownPost};
    ghost use Rattle.napt_table.specs.Bindings.{BindingsHaveRoom, BindingsUnchanged, NewBindingOk, RenewedBindingOk, FindsLiveBinding, SendPost, SendsKnown};

    /// Stores a binding that is live or held and whose endpoints are free. A redirect never expires
    /// and is not queued. Fails only if memory is refused; no stored binding then changes.
    pub(crate) fn add(&mut self, binding: TableBinding) -> Result<(), AllocError>
        requires live { is_live self.old.timers (hold_ago self.old.timers self.old.at) binding
            ≡ true }
        requires at { binding.row.external.address ≡ self.old.held.address }
        requires free { held_binding self.old.held (key_of binding) ≡ None }
        requires absent { HasNoInside self.old.held binding.row.protocol binding.row.inside }
        requires used { IsUsedBy self.old.at binding }
        ensures timers { self.new.timers ≡ self.old.timers }
        ensures at { self.new.at ≡ self.old.at }
        ensures place { IsSamePlace self.old.held self.new.held }
        ensures held { OnOk result ((key : Key) → held_binding self.new.held key
            ≡ cond (key_eq (key_of binding) key) (Some binding) (held_binding self.old.held key)) }
        ensures refused { OnErr result (HoldsSame self.old.held self.new.held) }
    {
        self.make_room(binding.row.protocol())?;
        if binding.row.is_fixed() {
            let held = &mut self.held;
            held.insert(binding);
            return Ok(());
        }
        let ago = self.timers.hold_ago(self.at);
        self.insert(binding, ago);
        Ok(())
    }

    /// Sends a packet out through its inside endpoint's live binding, if there is one. Returns its
    /// number, and sets the time. Fails only if memory is refused; no binding then changes.
    #[inline(always)]
    fn send_held(
        &mut self,
        alloc: Global,
        packet: OutboundPacket,
    ) -> Result<Option<u16>, AllocError>
        requires later { self.old.at ≤ packet.now }
        ensures timers { self.new.timers ≡ self.old.timers }
        ensures at { IfOk result (λ found.
            self.new.at ≡ cond (is_some found) packet.now self.old.at) }
        ensures went { IfOk result (SendKnownPost self.old.timers packet self.old.held
            self.new.held) }
        ensures refused { OnErr result (BindingsUnchanged self.old self.new) }
    {
        let timers = self.timers;
        timers.are_within_limits();
        let held = &mut self.held;
        let Some(number) = held.send(alloc, timers, packet)? else {
            return Ok(None);
        };
        self.at = packet.now;
        Ok(Some(number))
    }

    /// Sends a packet out through its inside endpoint's live binding, if there is one. Returns its
    /// number. If there is none, or memory is refused, no binding changes.
    pub(crate) fn send_known(
        &mut self,
        alloc: Global,
        packet: OutboundPacket,
    ) -> Result<Option<u16>, AllocError>
        requires later { self.old.at ≤ packet.now }
        ensures timers { self.new.timers ≡ self.old.timers }
        ensures known { IfOk result (λ found. IfSome found (λ number.
            SendsKnown packet self.old self.new number)) }
        ensures unknown { result ≡ Ok None →
            BindingsUnchanged self.old self.new × FindsLiveBinding false packet self.old }
        ensures refused { OnErr result (BindingsUnchanged self.old self.new) }
    {
        self.timers.are_within_limits();
        self.keep_names();
        self.send_held(alloc, packet)
    }

    /// Reserves memory for a new binding of the packet, and returns its flows. No binding changes.
    fn prepare(&mut self, alloc: Global, packet: OutboundPacket) -> Result<Flows, AllocError>
        ensures same { BindingsUnchanged self.old self.new }
        ensures room { OnOk result (BindingsHaveRoom self.new) }
        ensures flows { IfOk result (λ flows.
            live_flows self.old.timers packet.now packet.protocol flows ≡
            change_first (is_flow_of packet.remote)
            (flow_after packet.protocol WayOut packet.flags packet.now)
            (with_flow packet.remote packet.now [])) }
    {
        self.make_room(packet.protocol)?;
        Flows::from_packet(alloc, self.timers, packet)
    }

    /// Makes a binding for the packet, with these flows. Returns its external number, or `NoPort`
    /// if no number is free. Allocates no memory.
    fn insert_new(&mut self, packet: OutboundPacket, flows: Flows) -> Result<u16, Cause>
        requires room { BindingsHaveRoom self.old }
        requires at { self.old.at ≡ packet.now }
        requires live { (key : Key) (b : Binding) → held_binding self.old.held key ≡ Some b →
            is_live self.old.timers (hold_ago self.old.timers packet.now) b ≡ true }
        requires absent { HasNoInside self.old.held packet.protocol packet.inside }
        requires block { IfSome packet.block IsPortBlock }
        requires flows { live_flows self.old.timers packet.now packet.protocol flows ≡
            change_first (is_flow_of packet.remote)
            (flow_after packet.protocol WayOut packet.flags packet.now)
            (with_flow packet.remote packet.now []) }
        ensures timers { self.new.timers ≡ self.old.timers }
        ensures at { self.new.at ≡ self.old.at }
        ensures place { IsSamePlace self.old.held self.new.held }
        ensures begins { NewBindingOk packet self.old self.new result }
    {
        self.timers.are_within_limits();
        let chosen = self
            .held
            .choose(packet.block, packet.protocol, packet.inside);
        let Some(number) = chosen else {
            return Err(Cause::NoPort);
        };
        let binding = TableBinding {
            row: PackedRow::new(Row {
                protocol: packet.protocol,
                inside: packet.inside,
                external: Endpoint {
                    address: self.held.address(),
                    number,
                },
                fixed: false,
            }),
            last: packet.now,
            flows,
        };
        self.insert(binding, packet.now);
        Ok(number)
    }

    /// Makes the packet's held binding live again, with these flows and its former number.
    fn renew(&mut self, packet: OutboundPacket, number: u16, flows: Flows)
        requires at { self.old.at ≡ packet.now }
        requires its { HasInside self.old.held packet.protocol packet.inside number }
        requires unseen { seen_binding self.old.timers packet.now
            (held_at self.old.held packet.protocol number) ≡ None }
        requires flows { live_flows self.old.timers packet.now packet.protocol flows ≡
            change_first (is_flow_of packet.remote)
            (flow_after packet.protocol WayOut packet.flags packet.now)
            (with_flow packet.remote packet.now []) }
        ensures timers { self.new.timers ≡ self.old.timers }
        ensures at { self.new.at ≡ self.old.at }
        ensures place { IsSamePlace self.old.held self.new.held }
        ensures renews { RenewedBindingOk packet self.old self.new number }
    {
        self.timers.are_within_limits();
        self.held.keep_names();
        let protocol = packet.protocol;
        let held = &mut self.held;
        held.renew(ExternalNumberKey { number, protocol }, packet.now, flows);
    }

    /// Sends a packet out, and returns the number of its binding: the live one, or else the held
    /// one, or else a new one. A new binding is refused with `OverQuota` or `NoPort`. Fails only if
    /// memory is refused; no binding then changes.
    #[inline(never)]
    pub(crate) fn send(
        &mut self,
        alloc: Global,
        packet: OutboundPacket,
    ) -> Result<Result<u16, Cause>, AllocError>
        requires later { self.old.at ≤ packet.now }
        requires block { IfSome packet.block IsPortBlock }
        ensures timers { self.new.timers ≡ self.old.timers }
        ensures place { IsSamePlace self.old.held self.new.held }
        ensures at { OnOk result (self.new.at ≡ packet.now) }
        ensures sends { IfOk result (SendPost packet self.old self.new) }
        ensures refused { OnErr result (BindingsUnchanged self.old self.new) }
    {
        self.timers.are_within_limits();
        self.keep_names();
        if let Some(number) = self.send_held(alloc, packet)? {
            return Ok(Ok(number));
        }
        let flows = self.prepare(alloc, packet)?;
        self.purge_at(packet.now);
        self.keep_names();
        if let Some(number) = self.held.number_of(packet.protocol, packet.inside) {
            self.renew(packet, number, flows);
            return Ok(Ok(number));
        }
        if self.held.is_at_quota(packet.inside.address) {
            return Ok(Err(Cause::OverQuota));
        }
        Ok(self.insert_new(packet, flows))
    }
}
