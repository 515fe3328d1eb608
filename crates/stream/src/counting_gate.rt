//! The gate of a run, which counts the bindings.

use napt_pool::Gate;
use std::alloc::{AllocError, Global};
use std::sync::atomic::{AtomicU64, Ordering};

/// A count on its own cache lines, so that workers do not slow each other down.
#[derive(Drop)]
struct GateCount {
    many: AtomicU64,
    _rest: [u64; 15],
}

/// A gate that is always open, and counts the bindings of all workers.
#[derive(Drop)]
pub struct CountingGate {
    /// The number of bindings of each worker.
    counts: Vec<GateCount>,
}

impl CountingGate {
    /// Returns a gate for `workers` workers. Fails only if memory is refused.
    pub fn new(alloc: Global, workers: usize) -> Result<CountingGate, AllocError> {
        let mut counts = Vec::with_capacity(alloc, workers)?;
        for _ in 0..workers {
            counts.push(GateCount {
                many: AtomicU64::new(0),
                _rest: [0; 15],
            })?;
        }
        Ok(CountingGate { counts })
    }

    /// Returns the number of bindings of all workers, each after its latest packet.
    pub fn bindings(&self) -> u64 {
        let mut many = 0u64;
        for count in &self.counts {
            many = many.saturating_add(count.many.load(Ordering::SeqCst));
        }
        many
    }
}

impl Gate for CountingGate {
    ghost use Rattle.std.specs.Prelude.{true};

    ghost is_open = { true };

    fn enter(&self, _worker: u32, _turn: u64) -> bool {
        true
    }

    fn observe(&self, worker: u32, size: u64) {
        if let Some(count) = self.counts.get(worker as usize) {
            if count.many.load(Ordering::SeqCst) != size {
                count.many.store(size, Ordering::SeqCst);
            }
        }
    }
}
