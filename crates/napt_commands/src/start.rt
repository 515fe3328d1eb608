//! The start of a run.

ghost use Rattle.std.specs.Prelude.{◌≡◌, [], false, true, IfOk};
ghost use Rattle.napt_rules.specs.Prelude.{TakesState, with_redirects};
ghost use Rattle.napt_account.specs.LogStarts.{is_saved_log_state, log_started};
ghost use Rattle.napt_commands.specs.PlainRuns.{plain_from};

use crate::plain_run::PlainRun;
use napt_account::{LoggedRun, RunFromState, SavedLogState};
use napt_config::Config;
use napt_rules::State;
use std::alloc::{AllocError, Global};
use std::marker::Model;

/// A configuration, and the state from which a run under it starts, with the accounts of a log that
/// the state contains. A new run starts from a state without bindings.
#[derive(Drop)]
pub struct RunStart<'a> {
    config: &'a Config,
    state: State,
    saved: SavedLogState,
}

impl<'a> Model for RunStart<'a> {
    ghost use Rattle.napt_commands.specs.Starts.{CanStart, RunStartModel};

    ghost Value = { RunStartModel };

    ghost view = { λ it. record {
      rules = it.config.now;
      state = it.state;
      saved = it.saved;
    } };

    ghost invariant = { λ it. CanStart (record {
      rules = it.config.now;
      state = it.state;
      saved = it.saved;
    }) };
}

impl<'a> RunStart<'a> {
    /// Returns the start of a run from a state that the configuration accepts, with its saved log.
    pub fn new(config: &'a Config, state: State, saved: SavedLogState) -> RunStart<'a>
        requires taken { TakesState config.now state }
        requires saved { is_saved_log_state state saved ≡ true }
        ensures { result ≡ record { rules = config.now; state = state; saved = saved } }
    {
        RunStart {
            config,
            state,
            saved,
        }
    }

    /// Returns the configuration of the run.
    pub fn config(&self) -> &'a Config
        ensures { result.now ≡ self.now.rules }
    {
        self.config
    }

    /// Returns the clock of the state, in ns.
    pub fn clock(&self) -> u64
        ensures { result ≡ self.now.state.clock }
    {
        self.state.clock
    }

    /// Returns whether the log begins new entries for bindings that have no accounts in the state.
    pub fn begins_entries(&self) -> bool {
        self.saved.lacks_all(self.config, &self.state)
    }

    /// Begins the run with its log. Fails only if memory is refused.
    pub fn logged_run(&self, alloc: Global) -> Result<RunFromState<'a>, AllocError>
        ensures { IfOk result (λ from. from.run ≡ record {
          rules = self.now.rules;
          state = with_redirects self.now.rules self.now.state;
          log = log_started self.now.rules self.now.state self.now.saved;
          inputs = [];
          is_stopped = false;
        }) }
    {
        LoggedRun::resume(alloc, self.config, &self.state, &self.saved)
    }

    /// Begins the run without a log. Fails only if memory is refused.
    pub fn plain_run(&self, alloc: Global) -> Result<PlainRun<'a>, AllocError>
        ensures { IfOk result (λ run. run ≡ plain_from self.now) }
    {
        PlainRun::resume(alloc, self.config, &self.state)
    }
}
