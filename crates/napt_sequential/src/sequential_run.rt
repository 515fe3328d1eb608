//! A sequential run that gets one input at a time.

ghost use Rattle.std.specs.Prelude.{◌≡◌, ◌↔◌, ◌+◌, ◌^◌, ◌<◌, ◌≤◌, ◌++◌, [], ◌∷◌, List, length, IfOk, IfErr, OnOk, Err};
ghost use Rattle.napt_config.specs.Rules.{Rules, RulesInvariant};
ghost use Rattle.napt_rules.specs.Prelude.{Arrival, TakesState, with_redirects, IsStateInOrder};
ghost use Rattle.napt_rules.specs.Sequential.{State};
ghost use Rattle.napt_rules.specs.Sequential as model;
ghost use Rattle.napt_sequential.specs.Faults.{IsOneThreadFault};

use crate::counted_translator::CountedTranslator;
use crate::outcome::StepResult;
use crate::run::{begin, bindings, legs, resume, state_bindings, step};
use crate::{Input, MOST_INPUTS, RunFault};
use napt_config::Config;
use napt_rules::{Row, State};
use std::alloc::{AllocError, Global};

/// A run on one thread after some inputs. It has the translators of all external addresses and
/// stores no inputs, so its memory is that of the bindings.
#[derive(Drop)]
pub struct SequentialRun {
    /// The number of inputs so far.
    many: u64,
    /// The latest clock so far, in ns. Before the first input it is that of the starting state.
    clock: u64,
    /// The translators, in the order of the pool.
    translators: Vec<CountedTranslator>,
}

impl SequentialRun {
    ghost use Rattle.napt_sequential.specs.SequentialRuns.{IsRunFromOpening, SequentialRunInvariant, StepPost};

    /// Returns a run before its first input, with the redirects. Fails only if memory is refused.
    pub fn from_config(alloc: Global, config: &Config) -> Result<SequentialRun, AllocError>
        ensures kept { RulesInvariant config.now }
        ensures begun { IfOk result (IsRunFromOpening config.now []) }
    {
        let translators = begin(alloc, config)?;
        Ok(SequentialRun {
            many: 0,
            clock: 0,
            translators,
        })
    }

    /// Returns a run from a state, before its first input, which has number 0. It has the redirects
    /// and then the state's bindings live or held at its clock. Fails only if memory is refused.
    pub fn resume(
        alloc: Global,
        config: &Config,
        state: &State,
    ) -> Result<SequentialRun, AllocError>
        requires { TakesState config.now state.now }
        ensures kept { RulesInvariant config.now }
        ensures begun { IfOk result (SequentialRunInvariant config.now
            (with_redirects config.now state.now) []) }
    {
        let translators = resume(alloc, config, state)?;
        Ok(SequentialRun {
            many: 0,
            clock: state.clock,
            translators,
        })
    }

    /// Translates the next input at the latest clock so far, including its own. Returns its outcome
    /// and the effects of its legs, which are the last ones of the run over all inputs so far. The
    /// bytes of the input are copied once. After a fault, the run must not continue.
    ///
    /// Fails with `RunFault::TooMany` exactly if there were `MOST_INPUTS` inputs before, with
    /// `RunFault::Memory` only if memory is refused, and never with `RunFault::Pool`.
    pub fn step(
        &mut self,
        alloc: Global,
        config: &Config,
        input: &Input,
    ) -> Result<StepResult, RunFault>
        requires { (state : State) × ((before : List Arrival)
            × SequentialRunInvariant config.now state before self.old) }
        ensures tells { (state : State) (before : List Arrival) →
            SequentialRunInvariant config.now state before self.old →
            IfOk result (StepPost config.now state before input.now) }
        ensures stands { (state : State) (before : List Arrival) →
            SequentialRunInvariant config.now state before self.old →
            OnOk result (SequentialRunInvariant config.now state (before ++ input.now ∷ [])
            self.new) }
        ensures too_many { (state : State) (before : List Arrival) →
            SequentialRunInvariant config.now state before self.old →
            (result ≡ Err RunFault.TooMany) ↔ (2 ^ 32 ≤ length before + 1) }
        ensures never_pool { IfErr result IsOneThreadFault }
    {
        // Only the contract of this call is used: the rules of a configuration are valid.
        let _pool = config.pool();
        if self.many >= MOST_INPUTS as u64 {
            return Err(RunFault::TooMany);
        }
        Ok(self.advance(alloc, config, input)?)
    }

    /// Translates the next input, which is one of at most `MOST_INPUTS`.
    pub(crate) fn advance(
        &mut self,
        alloc: Global,
        config: &Config,
        input: &Input,
    ) -> Result<StepResult, AllocError>
        requires keeps { RulesInvariant config.now }
        requires few { (state : State) × ((before : List Arrival)
            × SequentialRunInvariant config.now state before self.old ×
            (length before + 1 < 2 ^ 32)) }
        ensures tells { (state : State) (before : List Arrival) →
            SequentialRunInvariant config.now state before self.old →
            IfOk result (StepPost config.now state before input.now) }
        ensures stands { (state : State) (before : List Arrival) →
            SequentialRunInvariant config.now state before self.old →
            OnOk result (SequentialRunInvariant config.now state (before ++ input.now ∷ [])
            self.new) }
    {
        let now = self.clock.max(input.clock);
        let stepped = step(alloc, config, &mut self.translators, self.many, now, input)?;
        self.many += 1;
        self.clock = now;
        Ok(stepped)
    }

    /// Returns the bindings that are live at the latest clock, by external address in pool order,
    /// then by protocol (ICMP, TCP, UDP) and external number. Fails only if memory is refused.
    pub fn bindings(&self, alloc: Global) -> Result<Vec<Row>, AllocError>
        ensures { (rules : Rules) (state : State) (inputs : List Arrival) →
            SequentialRunInvariant rules state inputs self.now →
            IfOk result (λ made. made.items ≡ (model.run_result_from rules state inputs).bindings) }
    {
        bindings(alloc, &self.translators, self.clock)
    }

    /// Returns the number of legs at each address, in pool order. Fails only if memory is refused.
    pub fn legs(&self, alloc: Global) -> Result<Vec<u64>, AllocError>
        ensures { (rules : Rules) (state : State) (inputs : List Arrival) →
            SequentialRunInvariant rules state inputs self.now →
            IfOk result (λ made. made.items ≡ (model.run_result_from rules state inputs).legs) }
    {
        legs(alloc, &self.translators)
    }

    /// Returns the state after the run, from which another run can start: the bindings live or held
    /// at the latest clock, in the order of `bindings`. Fails only if memory is refused.
    pub fn final_state(&self, alloc: Global) -> Result<State, AllocError>
        ensures { (rules : Rules) (state : State) (inputs : List Arrival) →
            SequentialRunInvariant rules state inputs self.now →
            IfOk result (IsStateInOrder rules (model.next_state rules state inputs)) }
    {
        let list = state_bindings(alloc, &self.translators, self.clock)?;
        Ok(State {
            clock: self.clock,
            list,
        })
    }
}
