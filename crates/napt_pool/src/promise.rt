//! Starting the thread of a worker, and the promise of how it ends.

ghost use Rattle.std.specs.Prelude.{◌≡◌, [], IfOk, IfErr};
ghost use Rattle.rtrb.specs.Ring.{sent, received};
ghost use Rattle.napt_pool.specs.{Faults.IsStartFault, ThreadStates.HasRun};

use crate::fault::PoolFault;
use crate::gate::Gate;
use crate::machine::Machine;
use crate::thread_state::{ThreadEnd, ThreadState};
use std::alloc::Global;
use std::marker::PhantomData;
use std::snapshot::Snapshot;
use std::sync::{Arc, Wait};
use std::thread;
use std::thread::{Promise, PromisedHandle, Threads};

/// The promise of a worker's thread: its end follows from the state in which it began.
#[derive(Drop)]
pub(crate) struct ThreadPromise<M: Machine, G: Gate> {
    pub(crate) initial: Snapshot<ThreadState<M, G>>,
    gate: PhantomData<G>,
}

impl<M: Machine, G: Gate> Promise<ThreadEnd<M, G>> for ThreadPromise<M, G> {
    ghost kept_by = { λ promise thread_end. HasRun M.Machine G.is_open promise.initial.value thread_end };
}

impl<M: Machine, G: Gate + Send + Sync + Drop + 'static> ThreadState<M, G> {
    /// Starts a thread that begins in this state.
    pub(crate) fn spawn<R: Threads + Wait + Copy + Send + 'static>(
        self,
        rt: &R,
        alloc: Global,
        gate: &Arc<G>,
        number: u32,
    ) -> Result<PromisedHandle<ThreadEnd<M, G>, ThreadPromise<M, G>>, PoolFault>
    where
        M: 'static,
        M::Item: 'static,
        M::Answer: 'static,
        requires { (received self.items ≡ []) × (sent self.answers ≡ []) }
        ensures initial { IfOk result (λ thread. thread.promise.initial.value ≡ self) }
        ensures refused { IfErr result IsStartFault }
    {
        let Ok(gate) = Arc::try_clone(gate) else {
            return Err(PoolFault::Memory);
        };
        let state = self;
        let promise = ThreadPromise {
            initial: Snapshot::of(&state),
            gate: PhantomData,
        };
        let thread_rt = *rt;
        let spawned = thread::spawn_with(
            rt,
            promise,
            move || -> ThreadEnd<M, G>
                requires { (received state.items ≡ []) × (sent state.answers ≡ []) }
                ensures { HasRun M.Machine G.is_open state result }
            { state.run(&thread_rt, alloc, &*gate, number) },
        );
        match spawned {
            Ok(thread) => Ok(thread),
            Err(_) => Err(PoolFault::NoThread),
        }
    }
}
