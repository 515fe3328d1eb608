//! The remainders of workers: machines, threads, and requests to their gate.

use crate::refused::CallResult;
use napt_pool::{Backoff, Gate};
use std::alloc::{AllocError, Global};
use std::rt::Files;
use std::sync::atomic::{AtomicU64, Ordering};
use std::sync::{Arc, Wait};
use std::{fs, io};

/// The greatest number of times that the program checks whether a thread has ended.
const MOST_LOOKS: u32 = 10_000;

/// The counts of machines and of the gate.
#[derive(Drop)]
pub(crate) struct Counts {
    pub(crate) made: AtomicU64,
    pub(crate) dropped: AtomicU64,
    asks: AtomicU64,
}

/// A gate that is always open, and counts its requests.
#[derive(Drop)]
pub(crate) struct GateCounter {
    counts: Arc<Counts>,
}

impl Gate for GateCounter {
    ghost use Rattle.std.specs.Prelude.{true};

    ghost is_open = { true };

    fn enter(&self, _worker: u32, _turn: u64) -> bool {
        self.counts.asks.fetch_add(1, Ordering::SeqCst);
        true
    }
}

/// Returns new counts, and a gate that counts in them.
pub(crate) fn counted(alloc: Global) -> Result<(Arc<Counts>, Arc<GateCounter>), AllocError> {
    let counts = Counts {
        made: AtomicU64::new(0),
        dropped: AtomicU64::new(0),
        asks: AtomicU64::new(0),
    };
    let counts = Arc::new(alloc, counts)?;
    let asked = GateCounter {
        counts: Arc::try_clone(&counts)?,
    };
    Ok((counts, Arc::new(alloc, asked)?))
}

/// Returns whether this program has one thread, by the system's count.
fn is_alone<R: Files + AllocGlobal>(rt: &R) -> io::Result<bool> {
    let status = fs::read_to_string(rt, "/proc/self/status")?;
    Ok(status.as_str().contains("\nThreads:\t1\n"))
}

/// Waits until this program has one thread, and returns whether that happened.
fn is_soon_alone<R: Files + AllocGlobal + Wait>(rt: &R) -> io::Result<bool> {
    let mut backoff = Backoff::new();
    for _ in 0..MOST_LOOKS {
        if is_alone(rt)? {
            return Ok(true);
        }
        backoff.pause(rt);
    }
    Ok(false)
}

/// Returns the end of the call, if nothing is left: each machine has been dropped, only the first
/// thread runs, and the gate gets no more requests.
pub(crate) fn looked_at<R: Files + AllocGlobal + Wait, T: Drop>(
    rt: &R,
    counts: &Counts,
    came: Result<T, CallResult>,
) -> Result<T, CallResult> {
    let asks = counts.asks.load(Ordering::SeqCst);
    if counts.made.load(Ordering::SeqCst) != counts.dropped.load(Ordering::SeqCst) {
        return Err(CallResult::Wrong("a machine is left"));
    }
    match is_soon_alone(rt) {
        Err(_) => Err(CallResult::After),
        Ok(false) => Err(CallResult::Wrong("a thread is left")),
        Ok(true) if counts.asks.load(Ordering::SeqCst) != asks => {
            Err(CallResult::Wrong("the gate is asked"))
        }
        Ok(true) => came,
    }
}
