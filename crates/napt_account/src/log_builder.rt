//! Builds the log of a run from the effects of its inputs.

ghost use Rattle.std.specs.Prelude.{◌≡◌, ◌==◌, ◌+◌, ◌^◌, ◌<◌, OnOk, IfErr, IfOk, Some, None, cond, false};
ghost use Rattle.napt_account.specs.{BindingTallies.use_of, Log.after_input, LogParts.{kept_at, living_at, part_between}};
ghost use Rattle.napt_account.specs.LogBuilders.{IsBuilderFault, IsStart, part_in};

use crate::binding_tally::BindingTally;
use crate::log::{LogEntry, Shortage};
use crate::open_entries::OpenEntries;
use crate::open_log::OpenLog;
use http_server::Log;
use napt_config::Config;
use napt_pool::PoolFault;
use napt_sequential::{RunFault, Trace};
use std::alloc::{AllocError, Global};
use std::marker::Model;

/// The largest number of inputs of a log, 2^62 - 1, so that its counts fit 64 bits.
const MOST_LOGGED_INPUTS: u64 = 4_611_686_018_427_387_903;

/// A log under a configuration, built from the effects of a run's inputs, one after another.
/// Contracts see the whole log, but only the entries that have not ended are in memory.
#[derive(Drop)]
pub struct LogBuilder<'a> {
    config: &'a Config,
    /// The number of inputs so far.
    taken: u64,
    /// The time of the last input, in ns; before the first input, the time at which the log began.
    clock: u64,
    entries: OpenEntries,
    /// The log at its beginning. It takes no memory: only proofs read it.
    begun: Log<u64, OpenLog>,
    /// The effects of the inputs. They take no memory: only proofs read them.
    past: Log<u64, Trace>,
    /// `true` if an input was refused. All later inputs are then refused too.
    is_stopped: bool,
}

/// The part that an input adds to the log.
#[derive(Drop)]
pub struct InputPart {
    /// The bindings that the input used.
    pub used: BindingTally,
    /// The final entries of the bindings that ended since the time of the input before, sorted by
    /// end and then by number.
    pub ended: Vec<LogEntry>,
    /// The entry, after the packet, of the binding that it made: at most one.
    pub made: Vec<LogEntry>,
    /// The shortage, if no binding could be made for the packet: at most one.
    pub refused: Vec<Shortage>,
}

impl<'a> Model for LogBuilder<'a> {
    ghost use Rattle.std.specs.Prelude.{◌≡◌, false};
    ghost use Rattle.napt_account.specs.LogBuilders.{IsBuilt, LogBuilderModel, built};

    ghost Value = { LogBuilderModel };

    ghost view = { λ it. record {
      rules = it.config.now;
      clock = it.clock;
      log = built it.begun.items it.past.items;
      taken = it.taken;
      is_stopped = it.is_stopped;
    } };

    ghost invariant = { λ it. it.is_stopped ≡ false → IsBuilt (record {
      rules = it.config.now;
      clock = it.clock;
      log = built it.begun.items it.past.items;
      taken = it.taken;
      is_stopped = it.is_stopped;
    }) it.entries };
}

impl<'a> LogBuilder<'a> {
    /// Returns the log at a time, in ns, before the first input. Fails only if memory is refused.
    pub(crate) fn begin(
        alloc: Global,
        config: &'a Config,
        clock: u64,
        log: &OpenLog,
    ) -> Result<LogBuilder<'a>, AllocError>
        requires { IsStart clock log.now }
        ensures { IfOk result (λ builder. builder ≡ record {
          rules = config.now;
          clock = clock;
          log = log.now;
          taken = 0;
          is_stopped = false;
        }) }
    {
        let entries = OpenEntries::from_entries(alloc, log)?;
        Ok(LogBuilder {
            config,
            taken: 0,
            clock,
            entries,
            begun: Log::new().and(&0, log),
            past: Log::new(),
            is_stopped: false,
        })
    }

    /// Returns the configuration of the log.
    pub fn config(&self) -> &'a Config
        ensures { result.now ≡ self.now.rules }
    {
        self.config
    }

    /// Returns the time of the last input, in ns, or `None` before the first.
    #[inline(always)]
    pub fn last(&self) -> Option<u64>
        ensures { result ≡ cond (self.now.taken == 0) None (Some self.now.clock) }
    {
        if self.taken == 0 {
            None
        } else {
            Some(self.clock)
        }
    }

    /// Returns the entries that have not ended by the time of the last input, sorted by end and
    /// then by number. Redirects never end and come last. Fails only if memory is refused.
    pub fn living(&self, alloc: Global) -> Result<Vec<LogEntry>, AllocError>
        ensures { self.now.is_stopped ≡ false → IfOk result (λ all.
            all.items ≡ living_at self.now.clock self.now.log) }
    {
        let living = self.entries.list(alloc)?;
        Ok(living)
    }

    /// Returns the open entries of the log, to be saved. Fails only if memory is refused.
    pub fn to_open_log(&self, alloc: Global) -> Result<OpenLog, AllocError>
        ensures { self.now.is_stopped ≡ false → IfOk result (λ left. left
            ≡ kept_at self.now.clock self.now.log) }
    {
        self.entries.to_open_log(alloc)
    }

    /// Records the effects of the next input, and returns the part that they add to the log. After
    /// a fault, each later call returns `RunFault::Memory`.
    ///
    /// Fails with `RunFault::TooMany` exactly if there were 2^62 - 1 inputs before, with `Pool` if
    /// no run has these effects next, and otherwise with `Memory` only if memory is refused.
    #[inline(always)]
    pub fn enter(&mut self, alloc: Global, effects: Trace) -> Result<InputPart, RunFault>
        ensures tells { self.old.is_stopped ≡ false → IfOk result (λ part. part_in part
            ≡ part_between self.old.clock effects.now self.old.log
            (after_input self.old.log effects)) }
        ensures uses { self.old.is_stopped ≡ false → IfOk result (λ part. part.used
            ≡ use_of self.old.log effects) }
        ensures goes { self.old.is_stopped ≡ false → OnOk result (self.new
            ≡ record self.old {
              clock = effects.now;
              log = after_input self.old.log effects;
              taken = self.old.taken + 1;
            }) }
        ensures few { self.old.is_stopped ≡ false →
            OnOk result (self.old.taken + 1 < 2 ^ 62) }
        ensures err { self.old.is_stopped ≡ false → IfErr result (IsBuilderFault self.old effects) }
    {
        if self.is_stopped {
            return Err(RunFault::Memory);
        }
        // This is reset at the end, if nothing fails.
        self.is_stopped = true;
        if self.taken >= MOST_LOGGED_INPUTS {
            return Err(RunFault::TooMany);
        }
        if effects.now < self.clock {
            return Err(RunFault::Pool(PoolFault::Ring));
        }
        let ended = self.entries.take_ended(alloc, effects.now)?;
        let Some(legs) = self.entries.enter(alloc, effects)? else {
            return Err(RunFault::Pool(PoolFault::Ring));
        };
        self.taken += 1;
        self.clock = effects.now;
        self.past = self.past.and(&0, &effects);
        self.is_stopped = false;
        Ok(InputPart {
            used: legs.used,
            ended,
            made: legs.made,
            refused: legs.refused,
        })
    }
}
