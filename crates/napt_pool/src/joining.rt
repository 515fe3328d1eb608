//! Closing and joining all workers of a pool.

ghost use Rattle.std.specs.Prelude.{◌≡◌, ◌≤◌, ◌<◌, ◌^◌, vec_len, vec_capacity, [], map, IfOk, IfErr};
ghost use Rattle.napt_pool.specs.Faults.{IsLeastFault};
ghost use Rattle.napt_pool.specs.Workers.{machine_of, thread_state_of, accepted_of, taken_of, heard_of, closing_machine, closing_thread_state, closing_accepted, closing_taken, closing_heard, AreEnds, AreWorkersJoined};

use crate::close_buffers::CloseBuffers;
use crate::closing::{ClosingWorker, Ended};
use crate::fault::{PoolFault, WorkerFault};
use crate::gate::Gate;
use crate::machine::Machine;
use crate::worker::WorkerHandle;
use std::thread::Threads;

/// The reason why a worker could not be started, and the ends of the workers started before it.
#[derive(Drop)]
pub(crate) struct StartFailure<M: Machine> {
    pub(crate) fault: PoolFault,
    // The number of workers that were started.
    pub(crate) started: usize,
    pub(crate) ends: Vec<Result<Ended<M>, WorkerFault>>,
}

/// Closes and joins the workers started so far, because the next one could not be started.
pub(crate) fn close_started<M: Machine, G: Gate, R: Threads>(
    rt: &R,
    fault: PoolFault,
    workers: Vec<WorkerHandle<M, G>>,
    buffers: CloseBuffers<M, G>,
) -> StartFailure<M>
    requires room { vec_len workers ≤ buffers.count }
    ensures fault { result.fault ≡ fault }
    ensures started { result.started ≡ vec_len workers }
    ensures joined { AreWorkersJoined G M.Machine G.is_open (map machine_of workers.items)
        result.ends.items }
{
    let CloseBuffers {
        count: _,
        closing,
        ends,
        ended: _,
    } = buffers;
    let started = workers.len();
    let closing = close_all(workers, closing);
    StartFailure {
        fault,
        started,
        ends: join_all(rt, closing, ends),
    }
}

/// Sends Close to each worker.
pub(crate) fn close_all<M: Machine, G: Gate>(
    workers: Vec<WorkerHandle<M, G>>,
    into: Vec<ClosingWorker<M, G>>,
) -> Vec<ClosingWorker<M, G>>
    requires empty { into.items ≡ [] }
    requires room { vec_len workers ≤ vec_capacity into }
    ensures machines { map closing_machine result.items ≡ map machine_of workers.items }
    ensures accepted { map closing_accepted result.items ≡ map accepted_of workers.items }
    ensures taken { map closing_taken result.items ≡ map taken_of workers.items }
    ensures heard { map closing_heard result.items ≡ map heard_of workers.items }
    ensures thread_states { map closing_thread_state result.items
        ≡ map thread_state_of workers.items }
    ensures len { vec_len result ≡ vec_len workers }
{
    let mut into = into;
    for worker in workers {
        into.push_reserved(worker.close());
    }
    into
}

/// Joins each worker, in order, and returns its end.
pub(crate) fn join_all<M: Machine, G: Gate, R: Threads>(
    rt: &R,
    workers: Vec<ClosingWorker<M, G>>,
    into: Vec<Result<Ended<M>, WorkerFault>>,
) -> Vec<Result<Ended<M>, WorkerFault>>
    requires empty { into.items ≡ [] }
    requires room { vec_len workers ≤ vec_capacity into }
    ensures ends { AreEnds M.Machine G.is_open workers.items result.items }
    ensures len { vec_len result ≡ vec_len workers }
{
    let mut into = into;
    for worker in workers {
        into.push_reserved(worker.join(rt));
    }
    into
}

/// Returns the ends of all workers or, if any stopped, the fault of the one with the smallest
/// number.
pub(crate) fn all_ended<M: Machine>(
    ends: Vec<Result<Ended<M>, WorkerFault>>,
    into: Vec<Ended<M>>,
) -> Result<Vec<Ended<M>>, PoolFault>
    requires empty { into.items ≡ [] }
    requires room { vec_len ends ≤ vec_capacity into }
    requires count { vec_len ends < 2 ^ 32 }
    ensures ended { IfOk result (λ v. map Ok v.items ≡ ends.items) }
    ensures least { IfErr result (λ fault. IsLeastFault ends.items fault) }
{
    let mut into = into;
    let mut number = 0u32;
    for end in ends {
        match end {
            Ok(ended) => {
                into.push_reserved(ended);
                number += 1;
            }
            Err(stop) => return Err(stop.of_worker(number)),
        }
    }
    Ok(into)
}
