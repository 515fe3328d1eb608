//! A pool of the vectors of answered batches, which later batches reuse.

ghost use Rattle.std.specs.Prelude.{◌≡◌, []};

use napt_pool::AnsweredBatch;
use napt_sequential::{LegTrace, TracedAnswer};
use napt_translate::Leg;
use std::alloc::Global;

/// A pool of the vectors of answered batches. A batch that uses them needs no allocation.
#[derive(Drop)]
pub(crate) struct VectorPool<P> {
    alloc: Global,
    free: Vec<AnsweredBatch<Leg, TracedAnswer<P>>>,
}

impl<P: LegTrace> VectorPool<P> {
    /// Returns an empty pool.
    pub(crate) fn new(alloc: Global) -> VectorPool<P> {
        VectorPool {
            alloc,
            free: Vec::new(alloc),
        }
    }

    /// Adds the vectors of a batch. They are freed if memory is refused.
    pub(crate) fn recycle(&mut self, answered: AnsweredBatch<Leg, TracedAnswer<P>>) {
        let _ = self.free.push(answered);
    }

    /// Removes and returns the newest vectors, or returns new ones. Both are empty.
    pub(crate) fn take(&mut self) -> AnsweredBatch<Leg, TracedAnswer<P>>
        ensures { result.spent.items ≡ [] }
    {
        match self.free.pop() {
            Some(mut answered) => {
                answered.answers.clear();
                answered.spent.clear();
                answered
            }
            None => AnsweredBatch {
                answers: Vec::new(self.alloc),
                spent: Vec::new(self.alloc),
            },
        }
    }
}
