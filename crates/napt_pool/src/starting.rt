//! Starting all workers of a pool.

ghost use Rattle.std.specs.Prelude.{◌≡◌, ◌≤◌, vec_len, IfOk, IfErr};
ghost use Rattle.napt_pool.specs.{Faults.IsStartFault, Workers.{AreWorkersNew, AreWorkersGivenUp}};

use crate::close_buffers::CloseBuffers;
use crate::fault::PoolFault;
use crate::gate::Gate;
use crate::joining::{StartFailure, close_started};
use crate::machine::Machine;
use crate::worker::WorkerHandle;
use std::alloc::Global;
use std::sync::{Arc, Wait};
use std::thread::Threads;

/// Starts a worker for each machine. If one fails to start, closes and joins those before it.
pub(crate) fn start_all<
    M: Machine,
    G: Gate + Send + Sync + Drop + 'static,
    R: Threads + Wait + Copy + Send + 'static,
>(
    rt: &R,
    alloc: Global,
    machines: Vec<M>,
    capacity: usize,
    gate: Arc<G>,
    buffers: CloseBuffers<M, G>,
) -> Result<(Vec<WorkerHandle<M, G>>, CloseBuffers<M, G>), StartFailure<M>>
where
    M: 'static,
    M::Item: 'static,
    M::Answer: 'static,
    requires capacity { (1 ≤ capacity) × (capacity ≤ 4096) }
    requires count { vec_len machines ≤ 16 }
    requires room { vec_len machines ≤ buffers.count }
    ensures started { IfOk result (λ made. AreWorkersNew machines capacity made.0) }
    ensures buffers { IfOk result (λ made. made.1 ≡ buffers) }
    ensures refused { IfErr result (λ gone. IsStartFault gone.fault) }
    ensures joined { IfErr result (λ gone. AreWorkersGivenUp G M.Machine G.is_open machines.items
        gone.started gone.ends.items) }
{
    let Ok(mut workers) = Vec::with_capacity(alloc, machines.len()) else {
        return Err(close_started(rt, PoolFault::Memory, Vec::new(alloc), buffers));
    };
    let mut number = 0u32;
    for machine in machines {
        let worker = match WorkerHandle::start(rt, alloc, machine, capacity, &gate, number) {
            Ok(worker) => worker,
            Err(fault) => return Err(close_started(rt, fault, workers, buffers)),
        };
        workers.push_reserved(worker);
        number += 1;
    }
    Ok((workers, buffers))
}
