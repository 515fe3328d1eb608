//! A run of which only the outcomes are needed.

ghost use Rattle.std.specs.Prelude.{◌≡◌, ◌++◌, [], ◌∷◌, OnOk, IfOk, false};
ghost use Rattle.napt_rules.specs.Prelude.{TakesState, with_redirects};
ghost use Rattle.napt_commands.specs.PlainRuns.{IsOutcome};

use http_server::Log;
use napt_config::Config;
use napt_rules::State;
use napt_sequential::{Input, Outcome, RunFault, SequentialRun};
use std::alloc::{AllocError, Global};
use std::marker::Model;

/// A run under a configuration after some packets. It has bindings, but no log.
#[derive(Drop)]
pub struct PlainRun<'a> {
    config: &'a Config,
    run: SequentialRun,
    /// The state from which the run continues. It takes no memory, since only proofs read it.
    begun: Log<u64, State>,
    /// The packets so far. They take no memory, since only proofs read them.
    past: Log<u64, Input>,
    /// Whether a step failed. All later steps then fail too.
    is_stopped: bool,
}

impl<'a> Model for PlainRun<'a> {
    ghost use Rattle.std.specs.Prelude.{◌≡◌, List, false};
    ghost use Rattle.napt_account.specs.{LogBuilders.{taken_in}, LoggedRuns.{state_begun}};
    ghost use Rattle.napt_commands.specs.PlainRuns.{PlainRunModel};
    ghost use Rattle.napt_sequential.specs.SequentialRuns.{SequentialRunInvariant};

    ghost Value = { PlainRunModel };

    ghost view = { λ it. record {
      rules = it.config.now;
      state = state_begun it.config.now it.begun.items;
      inputs = taken_in it.past.items;
      is_stopped = it.is_stopped;
    } };

    ghost invariant = { λ it. it.is_stopped ≡ false
        → SequentialRunInvariant it.config.now (state_begun it.config.now it.begun.items)
        (taken_in it.past.items) it.run };
}

impl<'a> PlainRun<'a> {
    /// Begins the run from a state, before its first packet. Fails only if memory is refused.
    pub fn resume(
        alloc: Global,
        config: &'a Config,
        state: &State,
    ) -> Result<PlainRun<'a>, AllocError>
        requires { TakesState config.now state.now }
        ensures { IfOk result (λ run. run ≡ record {
          rules = config.now;
          state = with_redirects config.now state.now;
          inputs = [];
          is_stopped = false;
        }) }
    {
        let run = SequentialRun::resume(alloc, config, state)?;
        Ok(PlainRun {
            config,
            run,
            begun: Log::new().and(&0, state),
            past: Log::new(),
            is_stopped: false,
        })
    }

    /// Returns the configuration of the run.
    pub fn config(&self) -> &'a Config
        ensures { result.now ≡ self.now.rules }
    {
        self.config
    }

    /// Passes the next packet through the run, and returns the last outcome of the sequential run
    /// over all packets so far. After a fault, each later step fails with `RunFault::Memory`.
    pub fn step(&mut self, alloc: Global, input: &Input) -> Result<Outcome, RunFault>
        ensures tells { self.old.is_stopped ≡ false →
            IfOk result (IsOutcome self.old input.now) }
        ensures goes { self.old.is_stopped ≡ false → OnOk result (self.new
            ≡ record self.old { inputs = self.old.inputs ++ input.now ∷ [] }) }
    {
        if self.is_stopped {
            return Err(RunFault::Memory);
        }
        match self.run.step(alloc, self.config, input) {
            Ok(stepped) => {
                self.past = self.past.and(&0, input);
                Ok(stepped.outcome)
            }
            Err(fault) => {
                self.is_stopped = true;
                Err(fault)
            }
        }
    }
}
