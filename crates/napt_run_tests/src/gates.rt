//! A gate that delays workers, and counts their requests and steps.

use napt_pool::Gate;
use std::alloc::{AllocError, Global};
use std::sync::Arc;
use std::sync::atomic::{AtomicU64, Ordering};
use std::thread;

/// The greatest number of looks for another worker's step, and of requests for one leg.
pub(crate) const MOST_REQUESTS: u64 = 1_000_000;

/// The workers that a gate delays, and the events that it counts.
#[derive(Clone, Copy)]
pub(crate) enum GateMode {
    /// It delays no worker.
    Open,
    /// It delays worker 0 at the first thousand requests, and counts all requests of that worker.
    Slow,
    /// It delays two workers at their first legs until it has seen both there, and counts these.
    Meeting,
    /// It delays worker 0 at its first leg, until worker 2 has begun its own.
    AfterThird,
    /// It delays no worker, and shows the turn that worker 0 requests.
    Shown,
    /// It delays this worker at this turn forever, and counts its requests for it.
    Shut(u32, u64),
    /// It delays worker 0 until worker 1's last refusal, and counts the requests of worker 1.
    SecondFirst,
}

#[derive(Drop)]
pub(crate) struct Hold {
    way: GateMode,
    count: AtomicU64,
    first: AtomicU64,
    second: AtomicU64,
}

impl Hold {
    pub(crate) fn new(alloc: Global, way: GateMode) -> Result<Arc<Hold>, AllocError> {
        let [count, first, second] = [AtomicU64::new(0), AtomicU64::new(0), AtomicU64::new(0)];
        let hold = Hold {
            way,
            count,
            first,
            second,
        };
        Ok(Arc::new(alloc, hold)?)
    }

    /// Returns the count.
    pub(crate) fn count(&self) -> u64 {
        self.count.load(Ordering::SeqCst)
    }

    /// Adds one to the count, and returns the count before.
    fn counted(&self) -> u64 {
        self.count.fetch_add(1, Ordering::SeqCst)
    }

    /// Waits a while until the other worker has reached its first leg, too.
    fn meet(&self, worker: u32) {
        let (own, other) = if worker == 0 {
            (&self.first, &self.second)
        } else {
            (&self.second, &self.first)
        };
        own.store(1, Ordering::SeqCst);
        if is_soon(other, 1) {
            self.counted();
        }
    }

    /// Waits for a limited time until worker 0 requests a turn.
    pub(crate) fn wait_for(&self, turn: u64) {
        is_soon(&self.first, turn);
    }

    /// Returns whether worker 2 has begun its first leg, if worker 0 requests its own.
    fn is_after_third(&self, worker: u32, turn: u64) -> bool {
        if worker == 2 && turn == 0 {
            self.first.store(1, Ordering::SeqCst);
        }
        if worker != 0 || turn != 0 || self.first.load(Ordering::SeqCst) == 1 {
            return true;
        }
        thread::yield_now();
        false
    }
}

/// Waits for a limited time until a count is at least this great, and returns whether it is.
fn is_soon(count: &AtomicU64, least: u64) -> bool {
    for _ in 0..MOST_REQUESTS {
        if count.load(Ordering::SeqCst) >= least {
            return true;
        }
        thread::yield_now();
    }
    false
}

impl Gate for Hold {
    ghost use Rattle.std.specs.Prelude.{false};

    ghost is_open = { false };

    fn enter(&self, worker: u32, turn: u64) -> bool {
        match self.way {
            GateMode::Open => true,
            GateMode::Slow => worker != 0 || self.counted() >= 1000,
            GateMode::Meeting => {
                if turn == 0 {
                    self.meet(worker);
                }
                true
            }
            GateMode::AfterThird => self.is_after_third(worker, turn),
            GateMode::Shown => {
                if worker == 0 {
                    self.first.store(turn, Ordering::SeqCst);
                }
                true
            }
            GateMode::Shut(shut, at) => {
                let is_shut = worker == shut && turn == at;
                if is_shut {
                    self.counted();
                }
                !is_shut
            }
            GateMode::SecondFirst => {
                if worker == 1 {
                    self.counted();
                } else {
                    is_soon(&self.count, MOST_REQUESTS);
                    thread::yield_now();
                }
                false
            }
        }
    }
}
