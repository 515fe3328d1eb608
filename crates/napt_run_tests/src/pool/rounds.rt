//! Pools that are filled and emptied.

ghost use Rattle.std.specs.Prelude.{◌≡◌, [], ◌∷◌, map, IfOk};

use super::checked::CheckedPool;
use super::keeper::Keeper;
use crate::calls::TestRuntime;
use napt_pool::{Ended, OfferRefused, OpenGate, Pool, PoolFault};
use std::alloc::Global;
use std::sync::{Arc, Wait};
use std::test::Fail;
use std::thread::Threads;

/// Offers two items to one worker. Under every schedule, its machine has retained both, in order.
fn two_kept<R: Threads + Wait + Copy + Send + 'static>(
    rt: &R,
    alloc: Global,
    a: u64,
    b: u64,
) -> Result<Vec<Ended<Keeper>>, PoolFault>
    ensures kept { IfOk result (λ v. map (λ e. e.machine) v.items ≡ (a ∷ b ∷ []) ∷ []) }
    ensures answers { IfOk result (λ v. map (λ e. e.answers.items) v.items ≡ (0 ∷ 1 ∷ []) ∷ []) }
{
    let mut machines = Vec::new(alloc);
    if machines.push(Keeper::new(alloc)).is_err() {
        return Err(PoolFault::Memory);
    }
    let Ok(gate) = Arc::new(alloc, OpenGate) else {
        return Err(PoolFault::Memory);
    };
    let mut pool = Pool::start(rt, alloc, machines, 4, gate)?;
    let first = pool.offer(alloc, 0, a).is_ok();
    let second = pool.offer(alloc, 0, b).is_ok();
    let ended = pool.close(rt, alloc)?;
    if first && second {
        Ok(ended)
    } else {
        Err(PoolFault::Ring)
    }
}

#[test]
fn machines_and_answers_come_back(rt: HostRuntime) -> Result<(), Fail> {
    let ended = two_kept(&rt, rt.alloc(), 7, 8).ok().expect(&rt, "kept");
    assert_eq!(rt; ended.len(), 1);
    assert_eq!(rt; ended[0].machine.items.as_slice(), [7, 8].as_slice());
    assert_eq!(rt; ended[0].answers.as_slice(), [0, 1].as_slice());
    Ok(())
}

/// A pool of keepers.
pub(super) type Keepers<R> = CheckedPool<R, Keeper, OpenGate>;

/// Starts a pool of keepers, if nothing is refused.
pub(super) fn keepers<R: TestRuntime>(
    rt: &R,
    workers: u32,
    capacity: u16,
) -> Result<Keepers<R>, Fail> {
    let alloc = rt.alloc();
    let mut machines = Vec::new(alloc);
    for _ in 0..workers {
        machines.push(Keeper::new(alloc))?;
    }
    let gate = Arc::new(alloc, OpenGate)?;
    Ok(CheckedPool::start(rt, machines, usize::from(capacity), gate)?)
}

#[test]
fn answer_comes(rt: HostRuntime) -> Result<(), Fail> {
    let mut pool = keepers(&rt, 2, 1)?;
    assert!(rt; pool.take(1) == Ok(None));
    pool.give(1, 40);
    assert!(rt; matches!(pool.offer(1, 41), Err(OfferRefused::Full(41))));
    assert!(rt; pool.take_soon(1) == Ok(Some(0)));
    assert!(rt; pool.take(1) == Ok(None));
    pool.closed();
    Ok(())
}

/// Returns how many items worker `w` accepts until it is full, or `None` if it fails otherwise.
fn fill(pool: &mut Keepers<impl TestRuntime>, w: u32) -> Option<u64> {
    for count in 0..10_000 {
        match pool.offer(w, count) {
            Ok(()) => {}
            Err(OfferRefused::Full(_)) => return Some(count),
            Err(_) => return None,
        }
    }
    None
}

/// Returns whether worker `w` answers with `count` numbers from `base` on, and then has no more.
fn empties(pool: &mut Keepers<impl TestRuntime>, w: u32, count: u64, base: u64) -> bool {
    for k in 0..count {
        if pool.take_soon(w) != Ok(Some(base.saturating_add(k))) {
            return false;
        }
    }
    pool.take(w) == Ok(None)
}

/// Fills all workers and then empties them, three times.
fn three_rounds(rt: &impl TestRuntime, workers: u32, capacity: u16) -> Result<(), Fail> {
    let mut pool = keepers(rt, workers, capacity)?;
    let count = u64::from(capacity);
    for k in 0..3 {
        for w in 0..workers {
            assert!(rt; fill(&mut pool, w) == Some(count), "worker {w}");
        }
        for w in 0..workers {
            assert!(rt; empties(&mut pool, w, count, k * count), "worker {w}");
        }
    }
    let ended = pool.closed();
    assert_eq!(rt; ended.len(), workers as usize);
    for end in &ended {
        assert_eq!(rt; end.machine.items.len() as u64, 3 * count);
        assert!(rt; end.answers.is_empty());
    }
    Ok(())
}

#[test]
fn ring_rounds(rt: HostRuntime) -> Result<(), Fail> {
    for capacity in [1, 64, 4096] {
        for workers in [1, 2, 16] {
            three_rounds(&rt, workers, capacity)?;
        }
    }
    Ok(())
}

/// A pool of one worker is filled and closed at once: its item ring has room for Close in addition
/// to all items. Usually all items are in the ring when it is closed.
#[test]
fn full_pool_closes(rt: HostRuntime) -> Result<(), Fail> {
    for capacity in [1u16, 2, 64] {
        for _ in 0..50 {
            let mut pool = keepers(&rt, 1, capacity)?;
            assert!(rt; fill(&mut pool, 0) == Some(u64::from(capacity)));
            let ended = pool.closed();
            assert_eq!(rt; ended.len(), 1);
            assert_eq!(rt; ended[0].answers.len(), usize::from(capacity));
        }
    }
    Ok(())
}
