//! A run with its log, which handles one input at a time.

ghost use Rattle.std.specs.Prelude.{◌≡◌, ◌↔◌, ◌+◌, ◌^◌, ◌≤◌, ◌++◌, [], ◌∷◌, length, OnOk, Err, IfErr, IfOk, false, true};
ghost use Rattle.napt_rules.specs.Sequential as model;
ghost use Rattle.napt_rules.specs.Prelude.{TakesState, initial_state, last_clock, with_redirects};
ghost use Rattle.napt_account.specs.{Log.{begun_after, log_on}, LogParts.{LogDelta, living_at}, LoggedRuns.{IsStepFault, LoggedStepPost}};
ghost use Rattle.napt_account.specs.LogStarts.{is_saved_log_state, log_before, log_started, started_part};

use crate::account::SavedLogState;
use crate::log::{LogEntry, effects_are_the_log};
use crate::log_builder::{InputPart, LogBuilder};
use crate::log_start::started_logs_go_on;
use crate::open_log::OpenLog;
use http_server::Log;
use napt_config::Config;
use napt_rules::State;
use napt_sequential::{Input, Outcome, RunFault, SequentialRun};
use napt_table::Row;
use std::alloc::{AllocError, Global};
use std::marker::Model;

/// A run on one thread under a configuration, and its log. Contracts see all its inputs, but only
/// the bindings that have not ended, and their entries, are in memory.
#[derive(Drop)]
pub struct LoggedRun<'a> {
    run: SequentialRun,
    log: LogBuilder<'a>,
    /// The state from which it starts. It takes no memory: only proofs read it.
    begun: Log<u64, State>,
    /// The part of a log in that state. It takes no memory: only proofs read it.
    saved: Log<u64, SavedLogState>,
    /// The inputs so far. They take no memory: only proofs read them.
    past: Log<u64, Input>,
    /// `true` if a step failed. All later steps then fail too.
    is_stopped: bool,
}

/// A run that starts from a state, and the changes of its log at the start (`LogFromState`).
#[derive(Drop)]
pub struct RunFromState<'a> {
    pub run: LoggedRun<'a>,
    /// The log as it was saved.
    pub before: OpenLog,
    pub ended: Vec<LogEntry>,
    pub made: Vec<LogEntry>,
}

/// The result of an input of a run: its outcome, and the part that it adds to the log.
#[derive(Drop)]
pub struct LogStep {
    pub outcome: Outcome,
    pub part: InputPart,
}

impl<'a> Model for LoggedRun<'a> {
    ghost use Rattle.std.specs.Prelude.{◌≡◌, false};
    ghost use Rattle.napt_account.specs.{LogBuilders.taken_in, LoggedRuns.{IsLoggedRun, LoggedRunModel, log_begun, state_begun}};

    ghost Value = { LoggedRunModel };

    ghost view = { λ it. record {
      rules = it.log.rules;
      state = state_begun it.log.rules it.begun.items;
      log = log_begun it.log.rules it.begun.items it.saved.items;
      inputs = taken_in it.past.items;
      is_stopped = it.is_stopped;
    } };

    ghost invariant = { λ it. it.is_stopped ≡ false →
        IsLoggedRun (state_begun it.log.rules it.begun.items)
        (log_begun it.log.rules it.begun.items it.saved.items) (taken_in it.past.items)
        it.run it.log };
}

impl<'a> LoggedRun<'a> {
    /// Returns a new run, whose log has the redirects. Fails only if memory is refused.
    pub fn from_config(alloc: Global, config: &'a Config) -> Result<LoggedRun<'a>, AllocError>
        ensures { IfOk result (λ run. run ≡ record {
          rules = config.now;
          state = initial_state config.now;
          log = begun_after 0 config.now (initial_state config.now);
          inputs = [];
          is_stopped = false;
        }) }
    {
        started_logs_go_on();
        let state = State {
            clock: 0,
            list: Vec::new(alloc),
        };
        let saved = SavedLogState::none(alloc);
        let resumed = LoggedRun::resume(alloc, config, &state, &saved)?;
        Ok(resumed.run)
    }

    /// Returns a run from a state, with the log that the state contains (`LogBuilder::resume`).
    /// Fails only if memory is refused.
    pub fn resume(
        alloc: Global,
        config: &'a Config,
        state: &State,
        saved: &SavedLogState,
    ) -> Result<RunFromState<'a>, AllocError>
        requires saved { is_saved_log_state state.now saved.now ≡ true }
        requires taken { TakesState config.now state.now }
        ensures run { IfOk result (λ from. from.run ≡ record {
          rules = config.now;
          state = with_redirects config.now state.now;
          log = log_started config.now state.now saved.now;
          inputs = [];
          is_stopped = false;
        }) }
        ensures first { IfOk result (λ from. (let first : LogDelta =
            record { ended = from.ended.items; made = from.made.items; refused = [] } in
            first ≡ started_part config.now state.now saved.now)) }
        ensures before { IfOk result (λ from.
            from.before ≡ log_before config.now state.now saved.now) }
    {
        started_logs_go_on();
        effects_are_the_log();
        let run = SequentialRun::resume(alloc, config, state)?;
        let resumed = LogBuilder::resume(alloc, config, state, saved)?;
        Ok(RunFromState {
            run: LoggedRun {
                run,
                log: resumed.log,
                begun: Log::new().and(&0, state),
                saved: Log::new().and(&0, saved),
                past: Log::new(),
                is_stopped: false,
            },
            before: resumed.before,
            ended: resumed.ended,
            made: resumed.made,
        })
    }

    /// Returns the configuration of the run.
    pub fn config(&self) -> &'a Config
        ensures { result.now ≡ self.now.rules }
    {
        self.log.config()
    }

    /// Returns the entries that have not ended by the latest clock, sorted by end and then by
    /// number. Redirects never end and come last. Fails only if memory is refused.
    pub fn living(&self, alloc: Global) -> Result<Vec<LogEntry>, AllocError>
        ensures { self.now.is_stopped ≡ false → IfOk result (λ all. all.items
            ≡ living_at (last_clock self.now.state.clock self.now.inputs)
            (log_on self.now.rules self.now.state self.now.log self.now.inputs)) }
    {
        self.log.living(alloc)
    }

    /// Returns the bindings that are live at the latest clock, by address in pool order, then by
    /// protocol (ICMP, TCP, UDP) and external number. Fails only if memory is refused.
    pub fn bindings(&self, alloc: Global) -> Result<Vec<Row>, AllocError>
        ensures { self.now.is_stopped ≡ false → IfOk result (λ made.
            made.items ≡ (model.run_result_from self.now.rules self.now.state
            self.now.inputs).bindings) }
    {
        self.run.bindings(alloc)
    }

    /// Handles the next input at the latest clock so far, including its own. Returns its outcome
    /// and its part of the log. After a fault, each later step fails with `RunFault::Memory`.
    ///
    /// Fails with `RunFault::TooMany` exactly if there were 4,294,967,295 inputs before and no step
    /// failed, with `Memory` only if memory is refused or a step failed, and never with `Pool`.
    pub fn step(&mut self, alloc: Global, input: &Input) -> Result<LogStep, RunFault>
        ensures tells { self.old.is_stopped ≡ false →
            IfOk result (LoggedStepPost self.old input.now) }
        ensures goes { self.old.is_stopped ≡ false → OnOk result (self.new
            ≡ record self.old { inputs = self.old.inputs ++ input.now ∷ [] }) }
        ensures err { self.old.is_stopped ≡ false →
            IfErr result (IsStepFault (self.old.inputs ++ input.now ∷ [])) }
        ensures too_many { self.old.is_stopped ≡ false →
            (result ≡ Err RunFault.TooMany) ↔ (2 ^ 32 ≤ length self.old.inputs + 1) }
    {
        effects_are_the_log();
        if self.is_stopped {
            return Err(RunFault::Memory);
        }
        // This is reset at the end, if nothing fails.
        self.is_stopped = true;
        let config = self.log.config();
        let stepped = self.run.step(alloc, config, input)?;
        let part = self.log.enter(alloc, stepped.trace)?;
        self.past = self.past.and(&0, input);
        self.is_stopped = false;
        Ok(LogStep {
            outcome: stepped.outcome,
            part,
        })
    }
}
