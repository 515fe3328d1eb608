//! The bindings of a state that are live under a configuration, with their ends.

ghost use Rattle.std.specs.Prelude.{◌≡◌, [], ◌∷◌, map, filter, not, true, false, IfOk, OnOk, option_to_list};
ghost use Rattle.napt_rules.specs.Prelude.{TakesState, flows_share, is_live, opening, purge, with_redirects, with_live_flows};
ghost use Rattle.napt_config.specs.Rules.{RulesInvariant};
ghost use Rattle.napt_table.specs.TimedRows.{timed_row};

use crate::log::redirected;
use napt_binding::{IdleTimers, end_of, from_state};
use napt_config::Config;
use napt_rules::{State, StateBinding};
use napt_table::TimedRow;
use std::alloc::{AllocError, Global};

/// Returns the bindings that are live at the clock of a state under a configuration: first its
/// redirects, then the other bindings of the state.
pub(crate) fn live_rows(
    alloc: Global,
    config: &Config,
    state: &State,
) -> Result<Vec<TimedRow>, AllocError>
    requires { TakesState config.now state.now }
    ensures { IfOk result (λ live. live.items ≡ map (timed_row config.now.timers)
        (purge config.now.timers state.now.clock (with_redirects config.now state.now).list)) }
{
    let timers = IdleTimers::from_config(config);
    let mut live = redirects(alloc, config)?;
    for binding in &state.list {
        if let Some(timed) = live_row(alloc, binding, timers, state.clock)? {
            live.push(timed)?;
        }
    }
    Ok(live)
}

/// Returns the redirects of a configuration, which have no end.
pub(crate) fn redirects(alloc: Global, config: &Config) -> Result<Vec<TimedRow>, AllocError>
    ensures all { IfOk result (λ made. made.items
        ≡ map (timed_row config.now.timers) (opening config.now)) }
    ensures kept { OnOk result (RulesInvariant config.now) }
{
    let mut made = Vec::new(alloc);
    for redirect in config.redirects() {
        made.push(TimedRow {
            row: redirected(config, *redirect),
            end: None,
        })?;
    }
    Ok(made)
}

/// Returns the row and the end of a binding if it is not a redirect and is live at `now`, in ns.
fn live_row(
    alloc: Global,
    binding: &StateBinding,
    timers: IdleTimers,
    now: u64,
) -> Result<Option<TimedRow>, AllocError>
    requires { binding.now.row.fixed ≡ false → is_live timers now binding.now ≡ true →
        flows_share (with_live_flows timers now binding.now).flows ≡ false }
    ensures { IfOk result (λ made. option_to_list made ≡ map (timed_row timers)
        (purge timers now (filter (λ b. not b.row.fixed) (binding.now ∷ [])))) }
{
    if binding.row.fixed {
        return Ok(None);
    }
    let Some(binding) = from_state(alloc, binding, timers, now)? else {
        return Ok(None);
    };
    Ok(Some(TimedRow {
        row: binding.row.row(),
        end: end_of(&binding, timers),
    }))
}
