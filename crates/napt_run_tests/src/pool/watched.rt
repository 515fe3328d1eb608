//! The actions of threads: they step together and without a request, ask the gate before each step,
//! stop, and drop machines.

use super::batches::batch;
use super::checked::CheckedPool;
use super::watch::{Echo, GateAnswer, Watch, so_far};
use crate::calls::TestRuntime;
use napt_pool::{OpenGate, PoolFault};
use std::sync::Arc;
use std::test::Fail;

/// A pool of machines, some of which refuse their items, and its watch.
pub(super) struct Watched<R> {
    pub(super) pool: CheckedPool<R, Echo, Watch>,
    pub(super) watch: Arc<Watch>,
}

/// Starts a pool with rings for four items. If memory or a thread is refused, it drops each machine before it returns.
/// Here nothing is refused; `tests/refused_calls` refuses each growth in turn, in a program of its own.
pub(super) fn make_watched<R: TestRuntime>(
    rt: &R,
    refuse: &[bool],
    says: GateAnswer,
) -> Result<Watched<R>, Fail> {
    let alloc = rt.alloc();
    let watch = Watch::new(alloc, refuse.len(), says, false)?;
    let machines = Echo::several(alloc, &watch, refuse)?;
    let started = CheckedPool::start(rt, machines, 4, Arc::try_clone(&watch)?);
    assert!(rt; started.is_ok() || so_far(&watch.drops) == refuse.len() as u64);
    let pool = started?;
    Ok(Watched { pool, watch })
}

/// Each worker takes three items, under any gate, and each step sees all workers in the same step.
fn step_together(rt: &impl TestRuntime, workers: u32, refuse: &[bool]) -> Result<(), Fail> {
    let alloc = rt.alloc();
    let watch = Watch::new(alloc, refuse.len(), GateAnswer::Yes, true)?;
    let machines = Echo::several(alloc, &watch, refuse)?;
    let mut pool = CheckedPool::start(rt, machines, 64, Arc::new(alloc, OpenGate)?)?;
    for item in 0..3 {
        for w in 0..workers {
            pool.give(w, item);
        }
    }
    pool.closed();
    assert_eq!(rt; so_far(&watch.met), 3 * u64::from(workers));
    Ok(())
}

#[test]
fn steps_meet(rt: HostRuntime) -> Result<(), Fail> {
    step_together(&rt, 2, &[false; 2])?;
    step_together(&rt, 16, &[false; 16])
}

/// A worker steps on an item before its answer is requested.
#[test]
fn steps_unasked(rt: HostRuntime) -> Result<(), Fail> {
    let Watched { mut pool, watch } = make_watched(&rt, &[false], GateAnswer::Yes)?;
    pool.give(0, 5);
    let is_seen = watch.is_met(1);
    pool.closed();
    assert!(rt; is_seen);
    Ok(())
}

/// One worker takes four items in order, one by one or two in a message. It asks the gate once for each, with the
/// number of steps that it has made, and shows it the size of its machine after each step.
fn take_turns(
    rt: &impl TestRuntime,
    says: GateAnswer,
    are_batches: bool,
    asks: u64,
) -> Result<(), Fail> {
    let alloc = rt.alloc();
    let (first, second) = (batch(rt, alloc, &[7, 8])?, batch(rt, alloc, &[9, 10])?);
    let Watched { mut pool, watch } = make_watched(rt, &[false], says)?;
    if are_batches {
        pool.give_all(0, first);
        pool.give_all(0, second);
    } else {
        for item in 7..11 {
            pool.give(0, item);
        }
    }
    let ended = pool.closed();
    assert_eq!(rt; ended.len(), 1);
    assert_eq!(rt; ended[0].answers.as_slice(), [7, 8, 9, 10].as_slice());
    let shown = (so_far(&watch.shown), so_far(&watch.strange));
    assert_eq!(rt; (so_far(&watch.asks), shown), (asks, (4, 0)));
    Ok(())
}

/// The gate is asked before each step, also in a batch, and again after a refusal.
#[test]
fn gate_is_asked_before_each_step(rt: HostRuntime) -> Result<(), Fail> {
    for are_batches in [false, true] {
        take_turns(&rt, GateAnswer::Yes, are_batches, 4)?;
        take_turns(&rt, GateAnswer::NoFirst, are_batches, 8)?;
    }
    Ok(())
}

#[test]
fn shut_gate_is_asked_a_million_times(rt: HostRuntime) -> Result<(), Fail> {
    let Watched { mut pool, watch } = make_watched(&rt, &[false; 2], GateAnswer::NoTo(1))?;
    pool.give(1, 5);
    pool.give(1, 6);
    pool.assert_stopped(1, PoolFault::GateShut(1));
    assert_eq!(rt; so_far(&watch.asks), 1_000_000);
    Ok(())
}

#[test]
fn least_fault_is_told(rt: HostRuntime) -> Result<(), Fail> {
    let all = [
        (1, [false, false, true], PoolFault::GateShut(1)),
        (2, [false, true, false], PoolFault::Memory),
        (0, [false, true, true], PoolFault::GateShut(0)),
    ];
    for (worker, refuse, fault) in all {
        let Watched { mut pool, watch } = make_watched(&rt, &refuse, GateAnswer::NoTo(worker))?;
        for w in [2, 1, 0] {
            pool.give(w, 5);
        }
        pool.assert_close_tells(fault);
        assert_eq!(rt; so_far(&watch.drops), 3);
    }
    Ok(())
}

#[test]
fn refused_memory_is_told(rt: HostRuntime) -> Result<(), Fail> {
    let Watched { mut pool, watch: _ } = make_watched(&rt, &[true, false, false], GateAnswer::Yes)?;
    pool.give(0, 5);
    pool.give(1, 6);
    assert!(rt; pool.take_soon(1) == Ok(Some(6)));
    pool.assert_stopped(0, PoolFault::Memory);
    Ok(())
}

/// No memory is refused to `close`, and it drops no machine.
#[test]
fn machines_are_dropped(rt: HostRuntime) -> Result<(), Fail> {
    let Watched { mut pool, watch } = make_watched(&rt, &[false; 3], GateAnswer::Yes)?;
    pool.give(0, 5);
    let ended = pool.closed();
    assert_eq!(rt; so_far(&watch.drops), 0);
    assert_eq!(rt; ended.len(), 3);
    assert_eq!(rt; ended[0].answers.as_slice(), [5].as_slice());
    drop(ended);
    assert_eq!(rt; so_far(&watch.drops), 3);
    Ok(())
}
