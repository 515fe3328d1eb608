//! A pool of packet buffers, which later inputs reuse.

ghost use Rattle.std.specs.Prelude.{◌≡◌, ◌⊎◌, ◌<◌, ◌≤◌, ◌∷◌, ◌++◌, [], length, vec_capacity, MatchOption};

use std::alloc::Global;
use std::marker::Model;

/// The largest number of buffers in the pool.
const MOST_SPARES: usize = 16_384;

/// The largest capacity of a buffer in the pool, in bytes.
const MOST_ROOM: usize = 1_536;

/// A pool of at most 16,384 buffers of at most 1,536 bytes each. An input that uses one needs no
/// allocation. Contracts see the list of buffers, the oldest first.
#[derive(Drop)]
pub(crate) struct BufferPool {
    alloc: Global,
    vectors: Vec<Vec<u8>>,
}

impl Model for BufferPool {
    ghost use Rattle.std.specs.Prelude.{◌≤◌, ℕ, List, Vec, All, length, vec_capacity};
    ghost use Rattle.std.specs.declared.alloc.Global.{Global};
    ghost use Rattle.napt_dispatch.specs.declared.dispatcher.buffer_pool.TheConstants.{MOST_SPARES, MOST_ROOM};

    ghost Value = { List (Vec ℕ Global) };

    ghost view = { λ all. all.vectors.items };

    ghost invariant = { λ all. (length all.vectors.items ≤ MOST_SPARES)
        × All (λ v. vec_capacity v ≤ MOST_ROOM) all.vectors.items };
}

impl BufferPool {
    /// Returns an empty pool.
    pub(crate) fn new(alloc: Global) -> BufferPool
        ensures { result ≡ [] }
    {
        BufferPool {
            alloc,
            vectors: Vec::new(alloc),
        }
    }

    /// Adds a buffer, if there is one. It is freed if it does not fit or if memory is refused.
    pub(crate) fn recycle(&mut self, vector: Option<Vec<u8>>)
        ensures { MatchOption vector (self.new ≡ self.old) (λ v. (self.new ≡ self.old)
            ⊎ ((self.new ≡ self.old ++ v ∷ []) × (length self.old < MOST_SPARES)
            × (vec_capacity v ≤ MOST_ROOM))) }
    {
        let Some(vector) = vector else {
            return;
        };
        if self.vectors.len() < MOST_SPARES && vector.capacity() <= MOST_ROOM {
            let _ = self.vectors.push(vector);
        }
    }

    /// Removes and returns the newest buffer, or returns a new, empty one if the pool is empty.
    pub(crate) fn take(&mut self) -> Vec<u8>
        ensures { (self.old ≡ self.new ++ result ∷ [])
            ⊎ ((self.old ≡ []) × (self.new ≡ []) × (result.items ≡ [])) }
    {
        match self.vectors.pop() {
            Some(vector) => vector,
            None => Vec::new(self.alloc),
        }
    }
}
