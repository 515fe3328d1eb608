//! The bindings with which a table begins.

ghost use Rattle.std.specs.Prelude.{◌≡◌, ◌≤◌, ◌++◌, ◌∷◌, [], map, true, OnOk, IfOk};
ghost use Rattle.napt_config.specs.Rules.{RulesInvariant};
ghost use Rattle.napt_rules.specs.Prelude.{redirect_protocol, redirect_binding, hold_ago, is_live, row, AreBindingsApart, Each, AreFlowsOwn};
ghost use Rattle.napt_rules.specs.Prelude as rules;

use crate::bindings::Bindings;
use http_server::Log;
use napt_binding::{Flows, IdleTimers, PackedRow, TableBinding, from_state, inbound_rules};
use napt_config::{Config, Redirect};
use napt_rules::{AssignmentRules, InboundRules, Row, State, StateBinding};
use napt_wire::{Endpoint, Protocol};
use std::alloc::{AllocError, Global};
use std::marker::Model;

/// A table before its first packet. Contracts see it as a table.
#[derive(Drop)]
pub(crate) struct TableBuilder {
    pub(crate) inbound: InboundRules,
    /// The bindings in order. They take no memory: only proofs read them.
    pub(crate) list: Log<u64, TableBinding>,
    pub(crate) bindings: Bindings,
}

impl Model for TableBuilder {
    ghost use Rattle.napt_table.specs.Tables.{TableModel};

    ghost Value = { TableModel };

    ghost use Rattle.napt_table.specs.Beginnings.{builder_model, list_of, AreHeld};

    ghost view = { builder_model };

    ghost invariant = { λ it. AreHeld it.bindings.held.address it.bindings.held (list_of it) };
}

/// Returns the configuration's rules for assigning numbers.
fn assignment_rules(config: &Config) -> AssignmentRules
    ensures assignment { result ≡ rules.assignment_rules config.now }
    ensures kept { RulesInvariant config.now }
{
    AssignmentRules {
        quota: config.quota(),
        choosing: config.choosing(),
    }
}

/// Returns the protocol of a redirect.
fn protocol_of(tcp: bool) -> Protocol
    ensures { result ≡ redirect_protocol tcp }
{
    if tcp { Protocol::Tcp } else { Protocol::Udp }
}

/// Returns the binding of a redirect at the address.
fn redirected(alloc: Global, redirect: &Redirect, address: u32) -> TableBinding
    ensures { result ≡ redirect_binding (λ host. address) redirect.now }
{
    TableBinding {
        row: PackedRow::new(Row {
            protocol: protocol_of(redirect.tcp),
            inside: Endpoint {
                address: redirect.address,
                number: redirect.port,
            },
            external: Endpoint {
                address,
                number: redirect.external,
            },
            fixed: true,
        }),
        last: 0,
        flows: Flows::new(alloc),
    }
}

impl TableBuilder {
    ghost use Rattle.napt_table.specs.Tables.{initial_table, resumed_table};
    ghost use Rattle.napt_table.specs.BindingIndexes.{IsUsedBy};
    ghost use Rattle.napt_table.specs.Beginnings.{state_bindings_at};

    /// Creates a builder without bindings, at a time in ns. Fails only if memory is refused.
    fn new(
        alloc: Global,
        address: u32,
        config: &Config,
        at: u64,
    ) -> Result<TableBuilder, AllocError>
        ensures shown { IfOk result (λ it.
            it ≡ record (initial_table config.now address) { list = []; at = at }) }
        ensures rules { OnOk result (RulesInvariant config.now) }
    {
        let assignment = assignment_rules(config);
        let timers = IdleTimers::from_config(config);
        Ok(TableBuilder {
            inbound: inbound_rules(config),
            list: Log::new(),
            bindings: Bindings::new(alloc, address, timers, assignment, at)?,
        })
    }

    /// Appends a binding of this address that is live or held and shares no endpoint with another.
    fn add(&mut self, binding: TableBinding) -> Result<(), AllocError>
        requires live { is_live self.old.timers (hold_ago self.old.timers self.old.at) binding
            ≡ true }
        requires at { binding.row.external.address ≡ self.old.address }
        requires apart { AreBindingsApart (map row (self.old.list ++ binding ∷ [])) }
        requires used { IsUsedBy self.old.at binding }
        ensures { OnOk result (self.new
            ≡ record self.old { list = self.old.list ++ binding ∷ [] }) }
    {
        self.bindings.keep_names();
        let list = self.list.and(&0, &binding);
        let bindings = &mut self.bindings;
        bindings.add(binding)?;
        self.list = list;
        Ok(())
    }

    /// Appends a state's binding if it is at this address, is not a redirect, and is live or held.
    fn restore(&mut self, alloc: Global, binding: &StateBinding) -> Result<(), AllocError>
        requires apart { AreBindingsApart (map row (self.old.list
            ++ state_bindings_at self.old.timers self.old.at self.old.address (binding.now ∷ []))) }
        requires last { Each (λ b. b.last ≤ self.old.at)
            (state_bindings_at self.old.timers self.old.at self.old.address (binding.now ∷ [])) }
        requires flows { Each (λ b. AreFlowsOwn self.old.at b.flows)
            (state_bindings_at self.old.timers self.old.at self.old.address (binding.now ∷ [])) }
        ensures { OnOk result (self.new ≡ record self.old {
          list =
              self.old.list
              ++ state_bindings_at self.old.timers self.old.at self.old.address (binding.now ∷ []);
        }) }
    {
        if binding.row.fixed || binding.row.external.address != self.bindings.address() {
            return Ok(());
        }
        let timers = self.bindings.timers();
        let ago = timers.hold_ago(self.bindings.at());
        match from_state(alloc, binding, timers, ago)? {
            Some(binding) => self.add(binding),
            None => Ok(()),
        }
    }

    /// Creates a builder with the configuration's redirects at the address, at a time in ns.
    pub(crate) fn redirects(
        alloc: Global,
        address: u32,
        config: &Config,
        at: u64,
    ) -> Result<TableBuilder, AllocError>
        ensures shown { IfOk result (λ it. it
            ≡ record (initial_table config.now address) { at = at }) }
        ensures rules { OnOk result (RulesInvariant config.now) }
    {
        let mut beginning = TableBuilder::new(alloc, address, config, at)?;
        for redirect in config.redirects() {
            if config.pair(redirect.address) == address {
                beginning.add(redirected(alloc, redirect, address))?;
            }
        }
        Ok(beginning)
    }

    /// Creates a builder with the configuration's redirects at the address, and then the state's
    /// other bindings there that are live or held at its clock.
    pub(crate) fn from_state(
        alloc: Global,
        address: u32,
        config: &Config,
        state: &State,
    ) -> Result<TableBuilder, AllocError>
        requires { rules.TakesState config.now state.now }
        ensures shown { IfOk result (λ it. it ≡ resumed_table config.now address state.now) }
        ensures rules { OnOk result (RulesInvariant config.now) }
    {
        let mut beginning = TableBuilder::redirects(alloc, address, config, state.clock)?;
        for binding in &state.list {
            beginning.restore(alloc, binding)?;
        }
        Ok(beginning)
    }
}
