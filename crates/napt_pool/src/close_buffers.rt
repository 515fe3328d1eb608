//! The buffers that closing a pool fills.

ghost use Rattle.std.specs.Prelude.{◌≡◌, ◌≤◌, [], vec_capacity, IfOk};

use crate::closing::{ClosingWorker, Ended};
use crate::fault::WorkerFault;
use crate::gate::Gate;
use crate::machine::Machine;
use std::alloc::{AllocError, Global};

/// Buffers for closing `count` workers, so that closing them does not allocate.
#[derive(Drop)]
pub(crate) struct CloseBuffers<M: Machine, G: Gate> {
    pub(crate) count: usize,
    pub(crate) closing: Vec<ClosingWorker<M, G>>,
    pub(crate) ends: Vec<Result<Ended<M>, WorkerFault>>,
    pub(crate) ended: Vec<Ended<M>>,
    ghost empty: { (closing.items ≡ []) × (ends.items ≡ []) × (ended.items ≡ []) },
    ghost fits: { (count ≤ vec_capacity closing) × (count ≤ vec_capacity ends) × (count ≤ vec_capacity ended) },
}

impl<M: Machine, G: Gate> CloseBuffers<M, G> {
    pub(crate) fn new(alloc: Global, count: usize) -> Result<CloseBuffers<M, G>, AllocError>
        ensures { IfOk result (λ buffers. buffers.count ≡ count) }
    {
        Ok(CloseBuffers {
            count,
            closing: Vec::with_capacity(alloc, count)?,
            ends: Vec::with_capacity(alloc, count)?,
            ended: Vec::with_capacity(alloc, count)?,
        })
    }
}
