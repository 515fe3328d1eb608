//! A pool for tests, whose calls check the preconditions.

ghost use Rattle.std.specs.Prelude.{◌≡◌, length};
ghost use Rattle.napt_pool.specs.Pools.{initial_machines};

use super::MOST_LOOKS;
use crate::calls::TestRuntime;
use napt_pool::{Batch, Ended, Gate, Machine, OfferRefused, Pool, PoolFault, TakenAnswers};
use std::sync::Arc;
use std::thread;

/// A pool that stops a test which violates a precondition: without workers, or for a worker that
/// does not exist. Its calls have no clauses, so that the proof of a test is short. The test checks
/// their results when it runs.
pub(crate) struct CheckedPool<R, M: Machine, G: Gate> {
    rt: R,
    pool: Pool<M, G>,
    workers: u32,
    ghost many: { length (initial_machines pool) ≡ workers },
}

/// Returns the answer that a call takes, or `None` if it does not come for a long time.
macro_rules! soon {
    ($taken:expr) => {{
        for _ in 0..MOST_LOOKS {
            if let Some(taken) = $taken? {
                return Ok(Some(taken));
            }
            thread::yield_now();
        }
        Ok(None)
    }};
}

impl<R: TestRuntime, M: Machine, G: Gate> CheckedPool<R, M, G> {
    pub(crate) fn offer(&mut self, w: u32, item: M::Item) -> Result<(), OfferRefused<M::Item>> {
        assert!(self.rt; w < self.workers);
        self.pool.offer(self.rt.alloc(), w, item)
    }

    /// Offers an item, which is accepted.
    pub(crate) fn give(&mut self, w: u32, item: M::Item) {
        let offered = self.offer(w, item).is_ok();
        assert!(self.rt; offered, "the item of worker {w}");
    }

    pub(crate) fn offer_all(
        &mut self,
        w: u32,
        batch: Batch<M::Item, M::Answer>,
    ) -> Result<(), OfferRefused<Batch<M::Item, M::Answer>>> {
        assert!(self.rt; w < self.workers);
        self.pool.offer_all(self.rt.alloc(), w, batch)
    }

    /// Offers a batch, which is accepted.
    pub(crate) fn give_all(&mut self, w: u32, batch: Batch<M::Item, M::Answer>) {
        let offered = self.offer_all(w, batch).is_ok();
        assert!(self.rt; offered, "the batch of worker {w}");
    }

    pub(crate) fn take(&mut self, w: u32) -> Result<Option<M::Answer>, PoolFault> {
        assert!(self.rt; w < self.workers);
        self.pool.take(&self.rt, self.rt.alloc(), w)
    }

    /// Takes until worker `w` has an answer or reports why it stopped.
    pub(crate) fn take_soon(&mut self, w: u32) -> Result<Option<M::Answer>, PoolFault> {
        soon!(self.take(w))
    }

    pub(crate) fn take_all(&mut self, w: u32) -> TakenOr<M> {
        assert!(self.rt; w < self.workers);
        self.pool.take_all(&self.rt, self.rt.alloc(), w)
    }

    /// Takes until worker `w` has answers or reports why it stopped.
    pub(crate) fn take_all_soon(&mut self, w: u32) -> TakenOr<M> {
        soon!(self.take_all(w))
    }

    pub(crate) fn close(self) -> Result<Vec<Ended<M>>, PoolFault> {
        let CheckedPool {
            rt,
            pool,
            workers: _,
        } = self;
        pool.close(&rt, rt.alloc())
    }

    /// Closes a pool without a fault.
    pub(crate) fn closed(self) -> Vec<Ended<M>> {
        let rt = self.rt;
        self.close().ok().expect(&rt, "close")
    }

    /// Checks that worker `w` reports a fault, and that closing the pool does, too.
    pub(crate) fn assert_stopped(mut self, w: u32, fault: PoolFault) {
        let told = self.take_soon(w).err();
        assert_eq!(self.rt; told, Some(fault));
        self.assert_close_tells(fault);
    }

    /// Closes a pool with this fault.
    pub(crate) fn assert_close_tells(self, fault: PoolFault) {
        let rt = self.rt;
        assert_eq!(rt; self.close().err(), Some(fault));
    }
}

/// The result of `take_all`.
type TakenOr<M> = Result<
    Option<TakenAnswers<<M as Machine>::Item, <M as Machine>::Answer>>,
    PoolFault,
>;

impl<R: TestRuntime, M: Machine, G: Gate + Send + Sync + Drop + 'static> CheckedPool<R, M, G> {
    /// Starts a thread for each of 1 to 16 machines, with rings for 1 to 4,096 items.
    pub(crate) fn start(
        rt: &R,
        machines: Vec<M>,
        capacity: usize,
        gate: Arc<G>,
    ) -> Result<CheckedPool<R, M, G>, PoolFault>
    where
        M: 'static,
        M::Item: 'static,
        M::Answer: 'static,
    {
        let (rt, many) = (*rt, machines.len());
        assert!(rt; 1 <= many && many <= 16);
        assert!(rt; 1 <= capacity && capacity <= 4096);
        let pool = Pool::start(&rt, rt.alloc(), machines, capacity, gate)?;
        let workers = many as u32;
        Ok(CheckedPool { rt, pool, workers })
    }
}
