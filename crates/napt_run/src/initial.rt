//! The state before any input.
ghost use Rattle.std.specs.Prelude.{◌≡◌, List, ℕ};
ghost use Rattle.napt_config.specs.Rules.{Rules};
ghost use Rattle.napt_rules.specs.Prelude.{TakesState};
ghost use Rattle.napt_run.specs.{Captures.{texts, texts_from}, LogOrigins.BeginsLogsAnew, Origins.{initial_origin, resumed_origin}};

use napt_account::started_logs_go_on;
use napt_rules::State;
use std::alloc::Global;

/// Returns the state before any input, which has no bindings, at time 0. A run from there begins
/// with the redirects of its configuration.
pub fn initial_state(alloc: Global) -> State
    ensures taken { (rules : Rules) → TakesState rules result }
    ensures opens { (rules : Rules) → resumed_origin rules result ≡ initial_origin rules }
    ensures texts { (rules : Rules) (inside outside : List ℕ) →
        texts_from (resumed_origin rules result) inside outside ≡ texts rules inside outside }
    // The log of a run from there is that of a run over all of its inputs.
    ensures log { BeginsLogsAnew result }
{
    started_logs_go_on();
    State {
        clock: 0,
        list: Vec::new(alloc),
    }
}
