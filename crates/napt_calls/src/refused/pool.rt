//! Starts, fills and closes a pool.

ghost use Rattle.std.specs.Prelude.{◌≡◌, ◌<◌, IfOk, length, vec_len};
ghost use Rattle.napt_pool.specs.Pools.{initial_machines};

use crate::refused::remainders::{Counts, GateCounter, counted, looked_at};
use crate::refused::{CallResult, System};
use napt_pool::{Ended, Gate, Machine, Pool, PoolFault};
use std::alloc::{AllocError, Global};
use std::sync::Arc;
use std::sync::atomic::Ordering;

/// The number of workers.
const WORKERS: u32 = 3;

/// Answers each item with itself, and takes memory for each step. Counts the machines.
struct Echo {
    counts: Arc<Counts>,
}

impl Drop for Echo {
    fn drop(self) {
        self.counts.dropped.fetch_add(1, Ordering::SeqCst);
        let Echo { counts: _ } = self;
    }
}

impl Machine for Echo {
    type Item = u64;

    type Answer = u64;

    ghost stepped = { λ echo _. echo };

    ghost reply = { λ _ item. item };

    fn step(&mut self, alloc: Global, item: u64) -> Result<u64, AllocError> {
        let mut room = Vec::new(alloc);
        room.push(item)?;
        Ok(item)
    }
}

/// Returns the machines of the pool.
fn machines(alloc: Global, counts: &Arc<Counts>) -> Result<Vec<Echo>, AllocError>
    ensures { IfOk result (λ v. vec_len v ≡ 3) }
{
    let mut all = Vec::new(alloc);
    for _ in 0..WORKERS {
        let theirs = Arc::try_clone(counts)?;
        counts.made.fetch_add(1, Ordering::SeqCst);
        all.push(Echo { counts: theirs })?;
    }
    Ok(all)
}

/// Offers a worker as many items as it can accept, and returns whether it accepted them.
fn fill<G: Gate>(alloc: Global, pool: &mut Pool<Echo, G>, w: u32) -> bool
    requires { w < length (initial_machines pool.old) }
    ensures { length (initial_machines pool.new) ≡ length (initial_machines pool.old) }
{
    let first = pool.offer(alloc, w, 7).is_ok();
    let second = pool.offer(alloc, w, 8).is_ok();
    first && second
}

/// Returns whether each worker returned the answers to its items.
fn are_whole(ended: &[Ended<Echo>]) -> bool {
    for end in ended {
        if end.answers.as_slice() != [7, 8].as_slice() {
            return false;
        }
    }
    ended.len() == WORKERS as usize
}

/// Returns the end of the call after a fault of the pool.
fn end_of(fault: PoolFault) -> CallResult {
    match fault {
        PoolFault::Memory => CallResult::Memory,
        PoolFault::NoThread => CallResult::NoThread,
        _ => CallResult::Wrong("another fault"),
    }
}

/// Starts a pool, fills it and closes it.
fn filled_and_closed(
    rt: &impl System,
    counts: &Arc<Counts>,
    gate: Arc<GateCounter>,
) -> Result<(), CallResult> {
    let alloc = rt.alloc();
    let machines = machines(alloc, counts)?;
    let mut pool = Pool::start(rt, alloc, machines, 2, gate).map_err(end_of)?;
    let first = fill(alloc, &mut pool, 0);
    let second = fill(alloc, &mut pool, 1);
    let third = fill(alloc, &mut pool, 2);
    match pool.close(rt, alloc) {
        Ok(ended) if first && second && third && are_whole(&ended) => Ok(()),
        Ok(_) => Err(CallResult::Wrong("other answers")),
        Err(fault) => Err(end_of(fault)),
    }
}

pub(crate) fn ended(rt: &impl System) -> Result<(), CallResult> {
    let (counts, gate) = counted(rt.alloc())?;
    let came = filled_and_closed(rt, &counts, gate);
    looked_at(rt, &counts, came)
}
