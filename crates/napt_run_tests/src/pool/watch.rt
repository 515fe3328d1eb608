//! The means to observe the threads of a pool: a gate, and machines that count their steps.

use super::MOST_LOOKS;
use napt_pool::{Gate, Machine};
use std::alloc::{AllocError, Global};
use std::sync::Arc;
use std::sync::atomic::{AtomicU64, Ordering};
use std::thread;

/// The answers of a gate.
#[derive(Clone, Copy)]
pub(crate) enum GateAnswer {
    /// It always opens.
    Yes,
    /// It refuses one worker.
    NoTo(u32),
    /// It refuses the first request for each turn.
    NoFirst,
    /// It refuses all turns from this one on.
    NoFrom(u64),
}

/// Returns a count so far.
pub(crate) fn so_far(count: &AtomicU64) -> u64 {
    count.load(Ordering::SeqCst)
}

/// A gate, and the counts of a pool.
#[derive(Drop)]
pub(crate) struct Watch {
    says: GateAnswer,
    /// Whether each step waits a while for all other machines to begin a step of the same number.
    is_barrier: bool,
    /// The number of steps that each machine has begun.
    steps: Vec<AtomicU64>,
    /// The number of steps that saw all machines in a step of the same number.
    pub(crate) met: AtomicU64,
    /// The numbers of requests to the gate, and of those that were wrong: for another turn than
    /// that of the worker's next step, or with another size.
    pub(crate) asks: AtomicU64,
    pub(crate) strange: AtomicU64,
    /// The number of sizes shown to the gate. The size of a machine is the number of its steps.
    pub(crate) shown: AtomicU64,
    /// The number of machines that were dropped.
    pub(crate) drops: AtomicU64,
}

impl Watch {
    /// Returns the watch over `count` machines.
    pub(crate) fn new(
        alloc: Global,
        count: usize,
        says: GateAnswer,
        is_barrier: bool,
    ) -> Result<Arc<Watch>, AllocError> {
        let mut steps = Vec::new(alloc);
        for _ in 0..count {
            steps.push(AtomicU64::new(0))?;
        }
        let watch = Watch {
            says,
            is_barrier,
            steps,
            met: AtomicU64::new(0),
            asks: AtomicU64::new(0),
            strange: AtomicU64::new(0),
            shown: AtomicU64::new(0),
            drops: AtomicU64::new(0),
        };
        Ok(Arc::new(alloc, watch)?)
    }

    /// Returns whether each machine has begun this many steps.
    fn have_begun(&self, count: u64) -> bool {
        self.steps.iter().all(|steps| so_far(steps) >= count)
    }

    /// Waits a while until each machine has begun this many steps, and returns whether it has.
    pub(crate) fn is_met(&self, count: u64) -> bool {
        for _ in 0..MOST_LOOKS {
            if self.have_begun(count) {
                return true;
            }
            thread::yield_now();
        }
        false
    }

    /// Begins a step of a machine.
    fn begin(&self, place: usize) {
        if let Some(steps) = self.steps.get(place) {
            let before = steps.fetch_add(1, Ordering::SeqCst);
            if self.is_barrier && self.is_met(before.saturating_add(1)) {
                self.met.fetch_add(1, Ordering::SeqCst);
            }
        }
    }

    /// Returns the number of steps that a machine has begun.
    pub(crate) fn begun(&self, place: usize) -> Option<u64> {
        self.steps.get(place).map(so_far)
    }
}

impl Gate for Watch {
    ghost use Rattle.std.specs.Prelude.{false};

    ghost is_open = { false };

    fn enter(&self, worker: u32, turn: u64) -> bool {
        if self.begun(worker as usize) != Some(turn) {
            self.strange.fetch_add(1, Ordering::SeqCst);
        }
        let asks = self.asks.fetch_add(1, Ordering::SeqCst);
        match self.says {
            GateAnswer::Yes => true,
            GateAnswer::NoTo(shut) => worker != shut,
            GateAnswer::NoFirst => asks % 2 == 1,
            GateAnswer::NoFrom(first) => turn < first,
        }
    }

    fn observe(&self, _worker: u32, size: u64) {
        let before = self.shown.fetch_add(1, Ordering::SeqCst);
        if size != before.saturating_add(1) {
            self.strange.fetch_add(1, Ordering::SeqCst);
        }
    }
}

/// The item that each machine refuses, as it does without memory.
pub(crate) const REFUSED: u64 = 99;

/// Answers each item with itself, or refuses it as if there were no memory. Its steps and its drop
/// are counted, and its size is the number of its steps.
pub(crate) struct Echo {
    place: usize,
    refuses: bool,
    watch: Arc<Watch>,
}

impl Drop for Echo {
    fn drop(self) {
        self.watch.drops.fetch_add(1, Ordering::SeqCst);
        let Echo {
            place: _,
            refuses: _,
            watch: _,
        } = self;
    }
}

impl Machine for Echo {
    type Item = u64;

    type Answer = u64;

    ghost stepped = { λ echo _. echo };

    ghost reply = { λ _ item. item };

    fn step(&mut self, _alloc: Global, item: u64) -> Result<u64, AllocError> {
        self.watch.begin(self.place);
        if self.refuses || item == REFUSED {
            return Err(AllocError);
        }
        Ok(item)
    }

    fn size(&self) -> u64 {
        self.watch.begun(self.place).unwrap_or(0)
    }
}

impl Echo {
    /// Returns a machine for each of these values, which say whether it refuses its items.
    pub(crate) fn several(
        alloc: Global,
        watch: &Arc<Watch>,
        refuse: &[bool],
    ) -> Result<Vec<Echo>, AllocError> {
        let mut all = Vec::new(alloc);
        for (place, refuses) in refuse.iter().enumerate() {
            all.push(Echo {
                place,
                refuses: *refuses,
                watch: Arc::try_clone(watch)?,
            })?;
        }
        Ok(all)
    }
}
