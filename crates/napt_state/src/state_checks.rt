//! Checks whether the bindings of a state fit a configuration.
ghost use Rattle.std.specs.{Prelude.{◌≡◌, not, List, nat_lt, IfOk, OnOk}, List.list_any};
ghost use Rattle.napt_rules.specs.{Bindings.Binding as Bound, Opening.opening};
ghost use Rattle.napt_rules.specs.Life as life;
ghost use Rattle.napt_rules.specs.Misfits as taking;
ghost use Rattle.napt_state.specs.EndedMisfits as ending;
ghost use Rattle.napt_state.specs.StateReaders.{AreEndpointsOf};

use crate::endpoints::Endpoints;
use crate::liveness::{is_live, is_standing};
use napt_account::redirected;
use napt_binding::IdleTimers;
use napt_config::Config;
use napt_rules::{Flow, Misfit, Row, State, StateBinding};
use napt_wire::{Endpoint, Protocol};
use std::alloc::{AllocError, Global};
use std::collections::HashSet;

/// Returns the endpoints of the configuration's redirects.
fn redirect_endpoints(alloc: Global, config: &Config) -> Result<Endpoints, AllocError>
    ensures { IfOk result (AreEndpointsOf (opening config.now)) }
{
    let redirects = config.redirects();
    let mut endpoints = Endpoints::new(alloc);
    let mut left = redirects.len();
    while left > 0 {
        left -= 1;
        endpoints.insert(&redirected(config, redirects[left]))?;
    }
    Ok(endpoints)
}

/// Returns whether a number is valid for the protocol: a UDP or TCP port is not 0.
fn is_number(protocol: Protocol, number: u16) -> bool
    ensures { result ≡ taking.is_number protocol number }
{
    match protocol {
        Protocol::Icmp => true,
        Protocol::Tcp | Protocol::Udp => 0 < number,
    }
}

/// Returns whether a row's numbers are valid and its external one is in its host's block, if any.
fn is_numbered(config: &Config, row: &Row) -> bool
    ensures { result ≡ taking.is_numbered config.now row.now }
{
    let number = row.external.number;
    let is_its_number = match config.block_of(row.inside.address) {
        Some(block) => block.first <= number && number - block.first < block.size,
        None => true,
    };
    is_number(row.protocol, row.inside.number) && is_number(row.protocol, number) && is_its_number
}

/// Returns whether one of the flows was used after the clock, in ns.
fn has_later(clock: u64, flows: &[Flow]) -> bool
    ensures { result ≡ list_any (λ flow. nat_lt clock flow.last) flows.now }
{
    flows.iter().any(|flow| clock < flow.last)
}

/// Returns whether the binding, or one of its flows, was used after the clock, in ns.
fn is_used_after(config: &Config, clock: u64, binding: &StateBinding) -> bool
    ensures { result ≡ taking.is_used_after clock (life.with_live_flows config.now.timers
        (life.hold_ago config.now.timers clock) binding.now) }
{
    IdleTimers::from_config(config).are_within_limits();
    clock < binding.last || has_later(clock, &binding.flows)
}

/// Returns whether two flows that stand at a time (ns) share a remote. Fails only if memory is
/// refused.
fn flows_share(
    alloc: Global,
    config: &Config,
    flows: &[Flow],
    protocol: Protocol,
    now: u64,
) -> Result<bool, AllocError>
    ensures { IfOk result (λ share.
        share ≡ taking.flows_share (life.live_flows config.now.timers now protocol flows.now)) }
{
    if flows.len() < 2 {
        return Ok(false);
    }
    let mut remotes: HashSet<(u32, u16)> = HashSet::new(alloc);
    let mut left = flows.len();
    while left > 0 {
        left -= 1;
        let flow = flows[left];
        if is_standing(&flow, protocol, config, now) {
            let remote = flow.remote;
            if !remotes.insert((remote.address, remote.number))? {
                return Ok(true);
            }
        }
    }
    Ok(false)
}

/// Returns the time one hold before the clock, in ns. What was live then is live or held at the
/// clock.
fn hold_ago(config: &Config, clock: u64) -> u64
    ensures { result ≡ life.hold_ago config.now.timers clock }
{
    IdleTimers::from_config(config).hold_ago(clock)
}

/// Returns the first reason why a binding does not fit, if any, given the endpoints of the others.
fn misfit_of(
    alloc: Global,
    config: &Config,
    clock: u64,
    binding: &StateBinding,
    redirects: &Endpoints,
    behind: &Endpoints,
) -> Result<Option<Misfit>, AllocError>
    ensures { (rest : List Bound) → AreEndpointsOf (opening config.now) redirects.now →
        AreEndpointsOf rest behind.now →
        IfOk result (λ misfit. misfit ≡ taking.misfit_of config.now clock
        (life.with_live_flows config.now.timers (life.hold_ago config.now.timers clock) binding.now)
        rest) }
{
    let row = &binding.row;
    let host = row.inside.address;
    Ok(if !config.is_inside(host) {
        Some(Misfit::NotInside)
    } else if row.external.address != config.pair(host) {
        Some(Misfit::NotPaired)
    } else if !is_numbered(config, row) {
        Some(Misfit::BadNumber)
    } else if is_used_after(config, clock, binding) {
        Some(Misfit::UsedLater)
    } else if flows_share(
        alloc,
        config,
        &binding.flows,
        row.protocol,
        hold_ago(config, clock),
    )? {
        Some(Misfit::FlowsShareRemote)
    } else if redirects.clash(row) {
        Some(Misfit::Redirected)
    } else if behind.clash(row) {
        Some(Misfit::EndpointShared)
    } else {
        None
    })
}

/// Returns the binding with the reason why it does not fit, or else the misfit found after it.
fn misfit_or(
    binding: &StateBinding,
    misfit: Option<Misfit>,
    found: Option<(Row, Misfit)>,
) -> Option<(Row, Misfit)>
    ensures { result ≡ taking.misfit_or binding.now.row misfit found }
{
    match misfit {
        Some(misfit) => Some((binding.row, misfit)),
        None => found,
    }
}

/// Returns the first misfit of a state and its reason, if any. Fails only if memory is refused.
pub fn first_misfit(
    alloc: Global,
    config: &Config,
    state: &State,
) -> Result<Option<(Row, Misfit)>, AllocError>
    ensures { IfOk result (λ found. found ≡ taking.misfit config.now state.now) }
{
    first_misfit_in(alloc, config, state.clock, &state.list)
}

/// Returns the first of these bindings that continues at a clock, in ns, but does not fit, and why.
fn first_misfit_in(
    alloc: Global,
    config: &Config,
    clock: u64,
    list: &[StateBinding],
) -> Result<Option<(Row, Misfit)>, AllocError>
    ensures { IfOk result (λ found. found ≡ taking.misfit config.now
        (record { clock = clock; list = list.now })) }
{
    let held = hold_ago(config, clock);
    let redirects = redirect_endpoints(alloc, config)?;
    let mut behind = Endpoints::new(alloc);
    let mut found = None;
    let mut left = list.len();
    while left > 0 {
        left -= 1;
        let binding = &list[left];
        if goes_on(binding, config, held) {
            let misfit = misfit_of(alloc, config, clock, binding, &redirects, &behind)?;
            found = misfit_or(binding, misfit, found);
            behind.insert(&binding.row)?;
        }
    }
    Ok(found)
}

/// Returns whether a binding is not a redirect and is live at a time, in ns.
fn goes_on(binding: &StateBinding, config: &Config, now: u64) -> bool
    ensures { result ≡ ending.goes_on config.now.timers now binding.now }
{
    !binding.row.fixed && is_live(binding, config, now)
}

/// Ends the misfits of a state, each judged by the fitting bindings after it, and returns their
/// number. No other binding changes. Takes linear time. Fails only if memory is refused.
pub(crate) fn end_misfits(
    alloc: Global,
    config: &Config,
    state: &mut State,
) -> Result<u64, AllocError>
    ensures state { OnOk result (state.new ≡ ending.without_misfits config.now state.old) }
    ensures many { IfOk result (λ many. many ≡ ending.misfit_count config.now state.old) }
{
    end_misfits_in(alloc, config, state.clock, &mut state.list)
}

/// Ends each binding that continues at a clock, in ns, but does not fit; returns their number.
fn end_misfits_in(
    alloc: Global,
    config: &Config,
    clock: u64,
    list: &mut Vec<StateBinding>,
) -> Result<u64, AllocError>
    ensures list { OnOk result (list.new.items
        ≡ ending.ended_misfits config.now clock list.old.items) }
    ensures many { IfOk result (λ many. many
        ≡ ending.misfits_in config.now clock list.old.items) }
{
    let redirects = redirect_endpoints(alloc, config)?;
    let mut behind = Endpoints::new(alloc);
    let mut many = 0_u64;
    let mut left = list.len();
    while left > 0 {
        left -= 1;
        let binding = &mut list[left];
        if why_ended(alloc, config, clock, binding, &redirects, &behind)?.is_some() {
            let Some(more) = many.checked_add(1) else {
                return Err(AllocError);
            };
            many = more;
            end_long_ago(binding);
        } else if goes_on(binding, config, hold_ago(config, clock)) {
            behind.insert(&binding.row)?;
        }
    }
    Ok(many)
}

/// Returns why a binding ends, given the endpoints of the redirects and of the fitting bindings
/// after it, or `None` if it fits or does not continue.
fn why_ended(
    alloc: Global,
    config: &Config,
    clock: u64,
    binding: &StateBinding,
    redirects: &Endpoints,
    behind: &Endpoints,
) -> Result<Option<Misfit>, AllocError>
    ensures { (rest : List Bound) → AreEndpointsOf (opening config.now) redirects.now →
        AreEndpointsOf rest behind.now →
        IfOk result (λ why. why ≡ ending.why_ended config.now clock binding.now rest) }
{
    if goes_on(binding, config, hold_ago(config, clock)) {
        misfit_of(alloc, config, clock, binding, redirects, behind)
    } else {
        Ok(None)
    }
}

/// Changes a binding so that it ended long ago.
fn end_long_ago(binding: &mut StateBinding)
    ensures { binding.new ≡ ending.ended_long_ago binding.old }
{
    binding.last = 0;
    binding.flows.clear();
}
