//! A wait ends when its condition is true, after any time, and sleeps only if that takes long.

use napt_pool::Backoff;
use std::rt::Files;
use std::sync::Arc;
use std::sync::atomic::{AtomicBool, Ordering};
use std::test::Fail;
use std::{fs, thread};

/// The pauses of a wait go from immediate looks over yields to sleeps.
#[test]
fn waits_for_a_thread(rt: HostRuntime) -> Result<(), Fail> {
    let alloc = rt.alloc();
    let raised = Arc::new(alloc, AtomicBool::new(false))?;
    let theirs = Arc::try_clone(&raised)?;
    let mut before = Backoff::new();
    for _ in 0..60 {
        before.pause(&rt);
    }
    let child = thread::spawn(&rt, move || theirs.store(true, Ordering::SeqCst))?;
    let mut backoff = Backoff::default();
    for _ in rt.forever() {
        if raised.load(Ordering::SeqCst) {
            break;
        }
        backoff.pause(&rt);
    }
    child.join(&rt);
    Ok(())
}

/// Returns how often this thread has slept, as Linux counts it. Yielding is not sleeping.
fn sleeps<R: Files + AllocGlobal>(rt: &R) -> Result<u64, Fail> {
    let status = fs::read_to_string(rt, "/proc/thread-self/status")?;
    for line in status.lines() {
        if let Some(count) = line.strip_prefix("voluntary_ctxt_switches:") {
            return Ok(count.trim().parse::<u64>()?);
        }
    }
    Err("no count of sleeps".into())
}

/// The first 512 pauses of a wait are not sleeps, and each later one is. Other sleeps are few.
#[test]
fn sleeps_after_its_looks(rt: HostRuntime) -> Result<(), Fail> {
    let mut backoff = Backoff::new();
    let begun = sleeps(&rt)?;
    for _ in 0..512 {
        backoff.pause(&rt);
    }
    let looked = sleeps(&rt)?;
    for _ in 0..512 {
        backoff.pause(&rt);
    }
    let slept = sleeps(&rt)?;
    assert!(rt; looked.saturating_sub(begun) < 128, "{begun} {looked}");
    assert!(rt; slept.saturating_sub(looked) >= 384, "{looked} {slept}");
    Ok(())
}
