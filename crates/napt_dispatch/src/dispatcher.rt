//! The dispatcher offers the legs of all inputs to the workers and takes their answers.
//!
//! Each worker has a queue of the legs that are not offered yet, in input order. An outgoing packet
//! to an external address has a second leg at that address's worker if the first leg's answer ends
//! with `End::Onward` (RFC 4787, REQ-9). As soon as the input is read, a placeholder for the second
//! leg enters that worker's queue. Only the entries that follow it there wait for that answer.
ghost use Rattle.std.specs.Prelude.{◌≡◌, ◌<◌, ◌^◌, [], length, map, replicate, IfOk, IfErr, OnOk, OnErr};
ghost use Rattle.napt_pool.specs.{Pools.{initial_machines, accepted_items, taken_answers, zip_with}, Histories.replies};
ghost use Rattle.napt_rules.specs.Prelude.{State, initial_state};
ghost use Rattle.napt_dispatch.specs.{Dispatch.{started_translators, IsDispatchFault, IsDispatchedFrom}, RunsThrough.{DispatchPost, DispatchErr}, WorkerQueues.unused_queue};

mod buffer_pool;
mod input_progress;
mod offering;
mod pending_leg;
mod placing;
mod reading;
mod run_progress;
mod taking;
mod vector_pool;
mod worker_queue;
mod worker_queues;

use crate::Worker;
use crate::faults::DispatchFault;
use crate::inputs::copies;
use crate::outcome_list::OutcomeList;
use crate::outcome_sink::OutcomeSink;
use napt_config::Config;
use napt_pool::{Gate, Machine, Pool};
use napt_sequential::{Input, InputSource, LegTrace, NoTrace, Outcome, RunFault};
use reading::EndOfInputs;
use run_progress::RunProgress;
use std::alloc::{AllocError, Global};
use std::sync::Wait;
use vector_pool::VectorPool;
use worker_queues::WorkerQueues;

/// The number of held legs at which a message is due, unless the ring is small. A power of two.
const BATCH: usize = 32;

/// The dispatcher's state: the queues of each worker and the progress of each input.
#[derive(Drop)]
pub(crate) struct Dispatcher<P> {
    alloc: Global,
    /// The clock of the state from which the run starts, in ns.
    clock: u64,
    /// One less than the number of held legs at which a message is due. Its bits are all ones.
    mask: usize,
    queues: WorkerQueues,
    progress: RunProgress<P>,
    vectors: VectorPool<P>,
}

impl<P: LegTrace> Dispatcher<P> {
    /// Returns a dispatcher without inputs. `ring` is a ring's size in legs; `clock` is in ns.
    fn new(
        alloc: Global,
        workers: u32,
        ring: usize,
        clock: u64,
    ) -> Result<Dispatcher<P>, AllocError>
        requires { 0 < workers }
        ensures clock { IfOk result (λ d. d.clock ≡ clock) }
        ensures queues { IfOk result (λ d. d.queues ≡ replicate workers unused_queue) }
        ensures left { IfOk result (λ d. d.progress.left ≡ []) }
        ensures under_way { IfOk result (λ d. d.progress.under_way ≡ []) }
    {
        Ok(Dispatcher {
            alloc,
            clock,
            mask: mask_of(ring),
            queues: WorkerQueues::new(alloc, workers)?,
            progress: RunProgress::new(alloc),
            vectors: VectorPool::new(alloc),
        })
    }
}

/// Runs the inputs over a pool of workers. Returns each input's outcome and each worker's number of
/// legs. Fails if a worker stopped or memory is refused; the pool can then only be closed.
///
/// If `close` then confirms that the answers are those of the workers, the outcomes, the numbers
/// and the legs are those of the sequential run.
pub fn dispatch<R: Wait, G: Gate>(
    rt: &R,
    alloc: Global,
    pool: &mut Pool<Worker<NoTrace>, G>,
    config: &Config,
    inputs: &[Input],
) -> Result<(Vec<Outcome>, Vec<u64>), RunFault>
    requires few { length inputs.now < 2 ^ 32 }
    requires started { initial_machines pool.old
        ≡ started_translators config.now (length config.now.pool) }
    requires unoffered { accepted_items pool.old ≡ replicate (length config.now.pool) [] }
    requires untaken { taken_answers pool.old ≡ replicate (length config.now.pool) [] }
    ensures starts { initial_machines pool.new ≡ initial_machines pool.old }
    ensures settled { OnOk result (map length (taken_answers pool.new)
        ≡ map length (accepted_items pool.new)) }
    ensures run { IfOk result (λ done. taken_answers pool.new
        ≡ zip_with (replies ⟦<Worker<NoTrace> as Machine>⟧) (initial_machines pool.new)
        (accepted_items pool.new) →
        IsDispatchedFrom config.now (initial_state config.now) inputs.now (accepted_items pool.new)
        done.0.items
        done.1.items) }
    ensures fault { IfErr result (IsDispatchFault G.is_open) }
{
    let mut collected = OutcomeList::with_capacity(alloc, inputs.len())?;
    let mut inputs = copies(alloc, inputs)?;
    let done = dispatch_to(rt, alloc, pool, config, 0, &mut inputs, &mut collected)?;
    match done.ending {
        DispatchEnd::Whole => Ok((collected.outcomes, done.legs)),
        DispatchEnd::Arrival(none) => match none {},
        DispatchEnd::Departure(_) => Err(RunFault::Memory),
    }
}

/// The end of dispatching.
#[derive(Drop)]
pub(crate) enum DispatchEnd<A, D> {
    /// The inputs ended, and every outcome was written.
    Whole,
    /// The input source failed, and the outcome of every input before the fault was written.
    Arrival(A),
    /// The outcome sink failed.
    Departure(D),
}

/// The result of dispatching.
#[derive(Drop)]
pub(crate) struct DispatchResult<A, D> {
    /// The number of legs offered to each worker. Empty if the outcome sink failed.
    pub(crate) legs: Vec<u64>,
    /// The greatest clock of the starting state and of the inputs, in ns; 0 if the sink failed.
    pub(crate) clock: u64,
    pub(crate) ending: DispatchEnd<A, D>,
}

/// Dispatches the inputs until their end or a fault, from a state with this clock, in ns. Writes
/// the outcomes in input order, and flushes them at the end and before a device is read.
pub(crate) fn dispatch_to<R: Wait, G: Gate, A: InputSource, D: OutcomeSink>(
    rt: &R,
    alloc: Global,
    pool: &mut Pool<Worker<D::Trace>, G>,
    config: &Config,
    clock: u64,
    arrivals: &mut A,
    departures: &mut D,
) -> Result<DispatchResult<A::Fault, D::Fault>, RunFault>
    requires workers { length (initial_machines pool.old) ≡ length config.now.pool }
    requires unoffered { accepted_items pool.old ≡ replicate (length config.now.pool) [] }
    requires untaken { taken_answers pool.old ≡ replicate (length config.now.pool) [] }
    ensures starts { initial_machines pool.new ≡ initial_machines pool.old }
    ensures ends { IfOk result (λ done. (start : State) → start.clock ≡ clock →
        DispatchPost D.Trace.tells config.now start A.hands A.ends D.takes D.fails D.is_settled
        arrivals.old departures.old pool.new arrivals.new departures.new done done.ending) }
    ensures halts { OnErr result ((start : State) → start.clock ≡ clock →
        DispatchErr D.Trace.tells config.now start A.hands A.ends D.takes D.fails D.is_settled
        arrivals.old departures.old pool.new arrivals.new departures.new) }
    ensures fault { IfErr result (IsDispatchFault G.is_open) }
{
    let workers = config.pool().len() as u32;
    let mut dispatcher = Dispatcher::<D::Trace>::new(alloc, workers, config.ring(), clock)?;
    match dispatcher.pass_all(rt, pool, config, arrivals, departures) {
        Ok(EndOfInputs { clock, fault }) => Ok(DispatchResult {
            legs: dispatcher.queues.counts(alloc)?,
            clock,
            ending: DispatchEnd::from_result(fault),
        }),
        Err(DispatchFault::Departure(fault)) => Ok(DispatchResult {
            legs: Vec::new(alloc),
            clock: 0,
            ending: DispatchEnd::Departure(fault),
        }),
        Err(DispatchFault::Run(fault)) => Err(fault),
    }
}

impl<A, D> DispatchEnd<A, D> {
    ghost use Rattle.std.specs.Prelude.{◌≡◌, MatchOption};
    ghost use Rattle.napt_dispatch.specs.declared.dispatcher.DispatchEnd.TheVariants.{Whole, Arrival};

    /// Returns the ending of a run whose inputs ended, or whose input source failed with `fault`.
    fn from_result(fault: Option<A>) -> DispatchEnd<A, D>
        ensures { MatchOption fault (result ≡ Whole) (λ fault. result ≡ Arrival fault) }
    {
        match fault {
            None => DispatchEnd::Whole,
            Some(fault) => DispatchEnd::Arrival(fault),
        }
    }
}

/// Returns one less than the number of held legs at which a message is due: 32, or if that is less,
/// the greatest power of two that is at most a quarter of `ring`, or 1 if `ring` is below 8.
fn mask_of(ring: usize) -> usize {
    match ring / 4 {
        0 | 1 => 0,
        2 | 3 => 1,
        4..=7 => 3,
        8..=15 => 7,
        16..=31 => 15,
        _ => BATCH - 1,
    }
}
