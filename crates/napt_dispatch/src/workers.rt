//! Runs over workers on threads of their own.

ghost use Rattle.std.specs.Prelude.{◌≡◌, ◌↔◌, ◌^◌, ◌≤◌, [], length, map, flat_map, replicate, vec_len, AllPairs, IfOk, IfErr, IfSome, OnOk, Ok, Err, is_some, true, false};
ghost use Rattle.napt_config.specs.Rules.{RulesInvariant};
ghost use Rattle.napt_pool.specs.{Histories.{after, replies, ArePrefixesOf}, Pools.{initial_machines, accepted_items, taken_answers, zip_with}};
ghost use Rattle.napt_rules.specs.Sequential as model;
ghost use Rattle.napt_dispatch.specs.{Dispatch.{first_fault, started_from, rows_after, IsDispatchFault, IsFaultUnder}, RunsThrough.{RunThroughPost, IsStoppedUnder}};
ghost use Rattle.napt_sequential.specs.Faults.{is_run_gate_fault};
ghost use Rattle.napt_rules.specs.Prelude.{AreRowsApart, TakesState, with_redirects};

use crate::Worker;
use crate::dispatcher::{DispatchEnd, DispatchResult, dispatch, dispatch_to};
use crate::faults::PassFault;
use crate::inputs::last_clock;
use crate::outcome_sink::OutcomeSink;
use napt_config::Config;
use napt_pool::{Ended, Gate, Machine, Pool, PoolFault};
use napt_rules::State;
use napt_sequential::{
    Input, InputSource, LegTrace, MOST_INPUTS, NoTrace, Run, RunFault, runs_are_sound,
};
use napt_table::Row;
use napt_translate::Translator;
use std::alloc::{AllocError, Global};
use std::marker::PhantomData;
use std::sync::{Arc, Wait};
use std::thread::Threads;

/// Returns a worker for each external address, in pool order, with the state's bindings.
fn workers<P: LegTrace>(
    alloc: Global,
    config: &Config,
    state: &State,
) -> Result<Vec<Worker<P>>, AllocError>
    requires { TakesState config.now state.now }
    ensures kept { RulesInvariant config.now }
    ensures made { IfOk result (λ made. made.items ≡ started_from config.now
        (with_redirects config.now state.now) (length config.now.pool)) }
    ensures many { IfOk result (λ made. vec_len made ≡ length config.now.pool) }
{
    let many = config.pool().len() as u32;
    let mut made = Vec::new(alloc);
    for index in 0..many {
        let translator = Translator::from_state(alloc, index, config.copy(alloc)?, state)?;
        made.push(Worker {
            translator,
            trace: PhantomData,
        })?;
    }
    Ok(made)
}

/// Returns the bindings that are live at `now`, in ns, in the order of the external addresses.
fn bindings<P: LegTrace>(
    alloc: Global,
    ended: &[Ended<Worker<P>>],
    now: u64,
) -> Result<Vec<Row>, AllocError>
    ensures { IfOk result (λ made. made.items ≡ flat_map (λ e. rows_after now e.machine)
        ended.now) }
{
    let mut made = Vec::new(alloc);
    for worker in ended {
        let rows = worker.machine.bindings(alloc, now)?;
        made.extend_from_slice(&rows)?;
    }
    Ok(made)
}

/// Starts a worker with the state's bindings on a thread of its own for each external address.
fn start<
    P: LegTrace,
    R: Threads + Wait + Copy + Send + 'static,
    G: Gate + Send + Sync + Drop + 'static,
>(
    rt: &R,
    alloc: Global,
    config: &Config,
    state: &State,
    gate: Arc<G>,
) -> Result<Pool<Worker<P>, G>, RunFault>
    requires { TakesState config.now state.now }
    ensures started { IfOk result (λ pool. initial_machines pool ≡ started_from config.now
        (with_redirects config.now state.now) (length config.now.pool)) }
    ensures unoffered { IfOk result (λ pool. accepted_items pool
        ≡ replicate (length config.now.pool) []) }
    ensures untaken { IfOk result (λ pool. taken_answers pool
        ≡ replicate (length config.now.pool) []) }
    ensures fault { IfErr result (IsFaultUnder G.is_open) }
{
    let machines = workers::<P>(alloc, config, state)?;
    Ok(Pool::start(rt, alloc, machines, config.ring(), gate)?)
}

/// Combines the results of dispatching and closing. A fault of dispatching takes precedence.
fn first_fault<P: LegTrace, D: Drop>(
    dispatched: Result<D, RunFault>,
    closed: Result<Vec<Ended<Worker<P>>>, PoolFault>,
) -> Result<(D, Vec<Ended<Worker<P>>>), RunFault>
    ensures { result ≡ first_fault dispatched closed }
{
    let dispatched = dispatched?;
    Ok((dispatched, closed?))
}

/// Closes the pool, even if dispatching failed, and returns the result of dispatching and the ended
/// workers. A fault of dispatching takes precedence over one of the pool.
fn close<P: LegTrace, R: Threads, G: Gate, D: Drop>(
    rt: &R,
    alloc: Global,
    pool: Pool<Worker<P>, G>,
    dispatched: Result<D, RunFault>,
) -> Result<(D, Vec<Ended<Worker<P>>>), RunFault>
    ensures given { IfOk result (λ both. dispatched ≡ Ok both.0) }
    ensures machines { IfOk result (λ both. map (λ e. e.machine) both.1.items
        ≡ zip_with (after ⟦<Worker<P> as Machine>⟧) (initial_machines pool) (accepted_items pool)) }
    ensures taken { ArePrefixesOf (taken_answers pool) (zip_with (replies ⟦<Worker<P> as Machine>⟧)
        (initial_machines pool) (accepted_items pool)) }
    ensures settled { map length (taken_answers pool) ≡ map length (accepted_items pool) →
        OnOk result (taken_answers pool ≡ zip_with (replies ⟦<Worker<P> as Machine>⟧)
        (initial_machines pool) (accepted_items pool)) }
    ensures first { IfErr dispatched (λ fault. result ≡ Err fault) }
    ensures fault { IfErr dispatched (IsDispatchFault G.is_open) →
        IfErr result (IsFaultUnder G.is_open) }
{
    let closed = pool.close(rt, alloc);
    first_fault(dispatched, closed)
}

/// Runs the inputs with a worker thread for each external address. Returns exactly the result of
/// `run_plain`, whatever the gate, ring size and schedule. A worker asks the gate before each leg.
///
/// Fails with `RunFault::TooMany` exactly if there are more than 4,294,967,295 inputs, and with
/// `RunFault::Pool` if a worker stopped or did not start, but never with `GateShut` for a gate
/// that is always open. The workers are closed and joined before an error is returned.
pub fn run_workers<
    R: Threads + Wait + Copy + Send + 'static,
    G: Gate + Send + Sync + Drop + 'static,
>(rt: &R, alloc: Global, config: &Config, inputs: &[Input], gate: Arc<G>) -> Result<Run, RunFault>
    ensures run { IfOk result (λ run. run ≡ model.run_result config.now inputs.now) }
    ensures too_many { (result ≡ Err RunFault.TooMany) ↔ (2 ^ 32 ≤ length inputs.now) }
    ensures one_each { IfOk result (λ run. length run.outcomes ≡ length inputs.now) }
    ensures apart { IfOk result (λ run. AllPairs AreRowsApart run.bindings) }
    ensures gate { G.is_open ≡ true → IfErr result (λ fault. is_run_gate_fault fault ≡ false) }
{
    runs_are_sound();
    // Only the contract of this call is used: a configuration's rules are valid.
    let _pool = config.pool();
    if inputs.len() > MOST_INPUTS {
        return Err(RunFault::TooMany);
    }
    let nothing = State {
        clock: 0,
        list: Vec::new(alloc),
    };
    let mut pool = start::<NoTrace, _, _>(rt, alloc, config, &nothing, gate)?;
    let dispatched = dispatch(rt, alloc, &mut pool, config, inputs);
    let ((outcomes, legs), ended) = close(rt, alloc, pool, dispatched)?;
    let bindings = bindings(alloc, &ended, last_clock(inputs))?;
    Ok(Run {
        outcomes,
        bindings,
        legs,
    })
}

/// The result of a run, apart from the outcomes of its inputs.
#[derive(Drop)]
pub struct RunSummary {
    /// The bindings that are live at the last clock, in the order of `Run`.
    pub bindings: Vec<Row>,
    /// The number of legs at each external address, in the order of the pool.
    pub legs: Vec<u64>,
    /// The translators after the run, in the order of the pool.
    pub translators: Vec<Translator>,
    /// The last clock, in ns.
    pub clock: u64,
}

impl RunSummary {
    ghost use Rattle.napt_config.specs.Rules.{Rules};
    ghost use Rattle.napt_rules.specs.Prelude.{IsStateInOrder, State};
    ghost use Rattle.napt_dispatch.specs.RunsThrough.{LeavesState};

    /// Returns the state after the run, or `None` unless `is_saved`: the bindings live or held at
    /// the last clock, by address in pool order, protocol and number. Fails only if memory is
    /// refused.
    pub fn into_state_if(self, is_saved: bool, alloc: Global) -> Result<Option<State>, AllocError>
        ensures saved { IfOk result (λ state. is_some state ≡ is_saved) }
        ensures state { (rules : Rules) (state : State) → LeavesState rules state self →
            IfOk result (λ left. IfSome left (IsStateInOrder rules state)) }
    {
        if !is_saved {
            return Ok(None);
        }
        let mut list = Vec::new(alloc);
        for translator in &self.translators {
            list.append(&mut translator.state_bindings(alloc, self.clock)?)?;
        }
        Ok(Some(State {
            clock: self.clock,
            list,
        }))
    }
}

/// Returns the translators of the workers.
fn translators<P: LegTrace>(
    alloc: Global,
    ended: Vec<Ended<Worker<P>>>,
) -> Result<Vec<Translator>, AllocError>
    ensures { IfOk result (λ made. made.items ≡ map (λ e. e.machine) ended.items) }
{
    let mut made = Vec::with_capacity(alloc, ended.len())?;
    for worker in ended {
        made.push(worker.machine.into_translator())?;
    }
    Ok(made)
}

/// Returns the result of a run with these ended workers; `clock` is the last clock, in ns.
fn result_of<P: LegTrace>(
    alloc: Global,
    ended: Vec<Ended<Worker<P>>>,
    legs: Vec<u64>,
    clock: u64,
) -> Result<RunSummary, AllocError>
    ensures bindings { IfOk result (λ passed. passed.bindings.items
        ≡ flat_map (λ e. rows_after clock e.machine) ended.items) }
    ensures translators { IfOk result (λ passed. passed.translators.items
        ≡ map (λ e. e.machine) ended.items) }
    ensures legs { IfOk result (λ passed. passed.legs.items ≡ legs.items) }
    ensures clock { IfOk result (λ passed. passed.clock ≡ clock) }
{
    let bindings = bindings(alloc, &ended, clock)?;
    Ok(RunSummary {
        bindings,
        legs,
        translators: translators(alloc, ended)?,
        clock,
    })
}

/// Runs the inputs that `arrivals` supplies until their end or a fault, as `run_workers` does. The
/// run starts from a state that the configuration accepts: with the configuration's redirects, and
/// then the other bindings of the state. Outcomes are written to `departures` in input order, each
/// once it is known. At most 131,072 inputs and 65,536 legs are stored at a time.
///
/// Before a device is read, at the end, and if the source fails, every outcome so far is written
/// and flushed. The workers are joined before an error is returned. A fault of the run takes
/// precedence over a fault of the sink, and a fault of the sink over a fault of the source. After a
/// fault of the run or the sink, the written outcomes are the first ones of the run over the inputs
/// that were read.
pub fn run_through<
    R: Threads + Wait + Copy + Send + 'static,
    G: Gate + Send + Sync + Drop + 'static,
    A: InputSource,
    D: OutcomeSink,
>(
    rt: &R,
    alloc: Global,
    config: &Config,
    state: &State,
    arrivals: &mut A,
    departures: &mut D,
    gate: Arc<G>,
) -> Result<RunSummary, PassFault<A::Fault, D::Fault>>
    requires { TakesState config.now state.now }
    ensures passes { RunThroughPost D.Trace.tells config.now (with_redirects config.now state.now)
        A.hands A.ends
        D.takes D.fails D.is_settled arrivals.old departures.old arrivals.new departures.new result }
    ensures fault { IfErr result (IsStoppedUnder G.is_open) }
{
    let mut pool = start::<D::Trace, _, _>(rt, alloc, config, state, gate)?;
    let dispatched = dispatch_to(
        rt,
        alloc,
        &mut pool,
        config,
        state.clock,
        arrivals,
        departures,
    );
    let (dispatched, ended) = close(rt, alloc, pool, dispatched)?;
    let DispatchResult {
        legs,
        clock,
        ending,
    } = dispatched;
    match ending {
        DispatchEnd::Whole => match result_of(alloc, ended, legs, clock) {
            Ok(passed) => Ok(passed),
            Err(_) => Err(PassFault::Run(RunFault::Memory)),
        },
        DispatchEnd::Arrival(fault) => Err(PassFault::Arrival(fault)),
        DispatchEnd::Departure(fault) => Err(PassFault::Departure(fault)),
    }
}
