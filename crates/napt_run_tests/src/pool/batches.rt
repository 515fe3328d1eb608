//! Many items in one message are answered in order, alone or together, and a worker asks the gate
//! and stops among them as among items that are sent alone.

use super::checked::CheckedPool;
use super::rounds::{Keepers, keepers};
use super::watch::{Echo, GateAnswer, REFUSED, Watch, so_far};
use super::watched::{Watched, make_watched};
use crate::calls::TestRuntime;
use napt_pool::{AnsweredBatch, Batch, OfferRefused, PoolFault, TakenAnswers};
use std::alloc::{AllocError, Global};
use std::process::Abort;
use std::test::Fail;

/// Returns a message of these items.
pub(super) fn batch(
    rt: &impl Abort,
    alloc: Global,
    items: &[u64],
) -> Result<Batch<u64, u64>, AllocError> {
    let items = items.to_vec(alloc)?;
    let room = Vec::with_capacity(alloc, items.len())?;
    assert!(rt; items.len() <= room.capacity());
    Ok(Batch::new(items, room))
}

/// Returns a batch of `count` numbers from `from` on.
fn numbers(rt: &impl TestRuntime, from: u64, count: u64) -> Result<Batch<u64, u64>, AllocError> {
    let mut items = Vec::new(rt.alloc());
    for k in 0..count {
        items.push(from.saturating_add(k))?;
    }
    batch(rt, rt.alloc(), &items)
}

/// Takes the answers to the next batch together.
fn together(rt: &impl Abort, pool: &mut Keepers<impl TestRuntime>) -> AnsweredBatch<u64, u64> {
    match pool.take_all_soon(0) {
        Ok(Some(TakenAnswers::All(answered))) => Some(answered),
        _ => None,
    }
    .expect(rt, "the answers of a batch")
}

/// Takes the next answer alone.
fn alone(pool: &mut Keepers<impl TestRuntime>) -> Option<u64> {
    match pool.take_all_soon(0) {
        Ok(Some(TakenAnswers::One(answer))) => Some(answer),
        _ => None,
    }
}

/// Checks that the one worker of a pool has retained these items, and that these answers remain.
fn assert_ended<R: TestRuntime>(rt: &R, pool: Keepers<R>, items: &[u64], answers: &[u64]) {
    let ended = pool.closed();
    assert_eq!(rt; ended.len(), 1);
    assert_eq!(rt; ended[0].machine.items.as_slice(), items);
    assert_eq!(rt; ended[0].answers.as_slice(), answers);
}

#[test]
fn batches_and_items_are_answered_in_order(rt: HostRuntime) -> Result<(), Fail> {
    let alloc = rt.alloc();
    let first = batch(&rt, alloc, &[40, 41, 42, 43])?;
    let second = batch(&rt, alloc, &[45, 46])?;
    let mut pool = keepers(&rt, 1, 7)?;
    pool.give_all(0, first);
    pool.give(0, 44);
    pool.give_all(0, second);
    assert!(rt; matches!(pool.offer(0, 47), Err(OfferRefused::Full(47))));
    // One answer of the first batch alone, and then the rest of it.
    assert!(rt; pool.take_soon(0) == Ok(Some(0)));
    for count in 1..5 {
        assert_eq!(rt; alone(&mut pool), Some(count));
    }
    let AnsweredBatch { answers, spent } = together(&rt, &mut pool);
    assert_eq!(rt; answers.as_slice(), [5, 6].as_slice());
    assert!(rt; spent.is_empty() && spent.capacity() >= 2);
    assert!(rt; matches!(pool.take_all(0), Ok(None)));
    assert_ended(&rt, pool, &[40, 41, 42, 43, 44, 45, 46], &[]);
    Ok(())
}

/// `close` returns what `take` left of a batch before what is in the ring.
#[test]
fn close_hands_back_the_rest_of_a_batch(rt: HostRuntime) -> Result<(), Fail> {
    let first = batch(&rt, rt.alloc(), &[7, 8, 9])?;
    let second = batch(&rt, rt.alloc(), &[10, 11])?;
    let mut pool = keepers(&rt, 1, 5)?;
    pool.give_all(0, first);
    pool.give_all(0, second);
    assert!(rt; pool.take_soon(0) == Ok(Some(0)));
    assert_ended(&rt, pool, &[7, 8, 9, 10, 11], &[1, 2, 3, 4]);
    Ok(())
}

/// A batch is accepted whole or not at all, and one without items takes no slot of a ring.
#[test]
fn batch_that_does_not_fit_comes_back(rt: HostRuntime) -> Result<(), Fail> {
    let two = batch(&rt, rt.alloc(), &[8, 9])?;
    let mut none = Vec::new(rt.alloc());
    for _ in 0..20 {
        none.push(batch(&rt, rt.alloc(), &[])?)?;
    }
    let mut pool = keepers(&rt, 1, 2)?;
    for empty in none {
        pool.give_all(0, empty);
    }
    pool.give(0, 7);
    let Err(OfferRefused::Full(two)) = pool.offer_all(0, two) else {
        pool.closed();
        return Err("a batch too large was accepted".into());
    };
    assert!(rt; pool.take_soon(0) == Ok(Some(0)));
    pool.give_all(0, two);
    assert_ended(&rt, pool, &[7, 8, 9], &[1, 2]);
    Ok(())
}

/// Offers a batch, and takes its answers as they come.
fn round<R: TestRuntime>(rt: &R, pool: &mut Keepers<R>, from: u64, count: u64) {
    let more = numbers(rt, from, count).ok().expect(rt, "a batch");
    pool.give_all(0, more);
    let answered = together(rt, pool);
    assert_eq!(rt; answered.answers.len() as u64, count);
    for (k, answer) in answered.answers.iter().enumerate() {
        assert_eq!(rt; *answer, from.saturating_add(k as u64));
    }
}

/// Batches of each size up to that of the ring, one after another: no slot of a ring is lost.
#[test]
fn batch_rounds(rt: HostRuntime) -> Result<(), Fail> {
    for capacity in [1u16, 2, 64] {
        let mut pool = keepers(&rt, 1, capacity)?;
        let mut from = 0u64;
        for _ in 0..8 {
            for count in 1..=u64::from(capacity) {
                round(&rt, &mut pool, from, count);
                from = from.saturating_add(count);
            }
        }
        let ended = pool.closed();
        assert_eq!(rt; ended.len(), 1);
        assert_eq!(rt; ended[0].machine.items.len() as u64, from);
        assert!(rt; ended[0].answers.is_empty());
    }
    Ok(())
}

/// Takes the answers 0, 1, .. of a worker that stops for a cause, and returns their number.
fn until_stopped(
    pool: &mut CheckedPool<impl TestRuntime, Echo, Watch>,
    cause: PoolFault,
) -> Option<u64> {
    for count in 0..100 {
        match pool.take_soon(0) {
            Ok(Some(answer)) if answer == count => {}
            Err(fault) if fault == cause => return Some(count),
            _ => return None,
        }
    }
    None
}

/// The gate is shut at a step of a batch: the earlier answers come, and then the fault.
#[test]
fn gate_is_shut_in_a_batch(rt: HostRuntime) -> Result<(), Fail> {
    for shut in 0..4u64 {
        let four = numbers(&rt, 0, 4)?;
        let Watched { mut pool, watch } = make_watched(&rt, &[false], GateAnswer::NoFrom(shut))?;
        pool.give_all(0, four);
        let count = until_stopped(&mut pool, PoolFault::GateShut(0));
        let begun = watch.begun(0);
        pool.assert_close_tells(PoolFault::GateShut(0));
        assert_eq!(rt; (count, begun), (Some(shut), Some(shut)));
        assert_eq!(rt; so_far(&watch.asks), 1_000_000 + shut);
    }
    Ok(())
}

/// The gate is shut to the first item: the one slot of the ring is for the notice of the stop.
#[test]
fn gate_is_shut_to_a_batch(rt: HostRuntime) -> Result<(), Fail> {
    let alloc = rt.alloc();
    let one = batch(&rt, alloc, &[7])?;
    let watch = Watch::new(alloc, 1, GateAnswer::NoFrom(0), false)?;
    let machines = Echo::several(alloc, &watch, &[false])?;
    let mut pool = CheckedPool::start(&rt, machines, 1, watch)?;
    pool.give_all(0, one);
    pool.assert_stopped(0, PoolFault::GateShut(0));
    Ok(())
}

/// Memory is refused to the third step of a batch.
#[test]
fn memory_is_refused_in_a_batch(rt: HostRuntime) -> Result<(), Fail> {
    let four = batch(&rt, rt.alloc(), &[0, 1, REFUSED, 3])?;
    let Watched { mut pool, watch: _ } = make_watched(&rt, &[false], GateAnswer::Yes)?;
    pool.give_all(0, four);
    let count = until_stopped(&mut pool, PoolFault::Memory);
    pool.assert_close_tells(PoolFault::Memory);
    assert_eq!(rt; count, Some(2));
    Ok(())
}
