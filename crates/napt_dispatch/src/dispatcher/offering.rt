//! Offers legs to the workers, many in one message.

ghost use Rattle.std.specs.Prelude.{◌≡◌, ◌⊎◌, ◌+◌, ◌<◌, ◌≤◌, ◌++◌, true, length, slice_set, vec_len, IfOk, IfErr, OnOk, OnErr, MatchBool};
ghost use Rattle.napt_pool.specs.Pools.{initial_machines, accepted_items, taken_answers, capacity_of};
ghost use Rattle.napt_dispatch.specs.{Dispatch.{of_worker, IsDispatchFault}, WorkerQueues.queue_of};
ghost use Rattle.napt_dispatch.specs.DispatcherInvariants.{waits_behind, IsSizedFor, ContinuesOr, ReadyLegsPost, HasOffered, HasOfferedAll, OffersOnlyTo};

use crate::Worker;
use crate::dispatcher::Dispatcher;
use crate::faults::ImpossibleAnswer;
use napt_pool::{AnsweredBatch, Batch, Gate, OfferRefused, Pool};
use napt_sequential::{LegTrace, RunFault, TracedAnswer};
use napt_translate::Leg;
use std::alloc::{AllocError, Global};

impl<P: LegTrace> Dispatcher<P> {
    /// Moves the first held leg of worker `w` to the end of its next message, or removes a
    /// placeholder whose input has no second leg. Returns `false` if neither is possible.
    fn ready_next(&mut self, w: u32) -> Result<bool, AllocError>
        requires { w < length self.old.queues }
        ensures many { OnOk result (length self.new.queues ≡ length self.old.queues) }
        ensures readies { OnOk result (ReadyLegsPost P.tells w self.old self.new) }
        ensures went { IfOk result (λ went. MatchBool went
            (length (queue_of self.new.queues w).held < length (queue_of self.old.queues w).held)
            (waits_behind self.new w ≡ true)) }
    {
        let front = self.queues.front(w);
        if self.waits(front) {
            return Ok(false);
        }
        let second = self.second_leg(front);
        self.queues.ready_first(w, second)?;
        Ok(true)
    }

    /// Moves held legs of worker `w` to the end of its next message, up to the first placeholder
    /// that still waits, or until the message has `most` legs.
    fn ready_all(&mut self, w: u32, most: usize) -> Result<(), AllocError>
        requires { w < length self.old.queues }
        ensures many { OnOk result (length self.new.queues ≡ length self.old.queues) }
        ensures readies { OnOk result (ReadyLegsPost P.tells w self.old self.new) }
        ensures all { OnOk result ((waits_behind self.new w ≡ true)
            ⊎ (most ≤ length (queue_of self.new.queues w).ready)) }
    {
        self.queues.ready_legs(w, most)?;
        while self.queues.ready_count(w) < most {
            if !self.ready_next(w)? {
                return Ok(());
            }
            self.queues.ready_legs(w, most)?;
        }
        Ok(())
    }

    /// Offers legs to worker `w` in one message: as many as its ring has room for, up to the first
    /// placeholder that still waits.
    pub(super) fn offer_held<G: Gate>(
        &mut self,
        pool: &mut Pool<Worker<P>, G>,
        w: u32,
    ) -> Result<(), RunFault>
        requires place { w < length (initial_machines pool.old) }
        requires sized { IsSizedFor pool.old self.old }
        ensures state { ContinuesOr P.tells G.is_open pool.old self.old pool.new self.new result }
        ensures alone { OnOk result (OffersOnlyTo w pool.old self.old pool.new self.new) }
        ensures offered { OnOk result (HasOffered pool.new self.new w) }
    {
        let most = pool.room(w);
        self.ready_all(w, most)?;
        let count = self.queues.ready_count(w).min(most);
        if count == 0 {
            return Ok(());
        }
        let AnsweredBatch { answers, spent } = self.vectors.take();
        let legs = self.queues.offer_ready(w, count, spent)?;
        send(self.alloc, pool, w, legs, answers)?;
        Ok(())
    }

    /// Offers to each worker the legs that it can be offered now.
    pub(super) fn offer_all<G: Gate>(
        &mut self,
        pool: &mut Pool<Worker<P>, G>,
    ) -> Result<(), RunFault>
        requires sized { IsSizedFor pool.old self.old }
        ensures state { ContinuesOr P.tells G.is_open pool.old self.old pool.new self.new result }
        ensures offered { OnOk result (HasOfferedAll pool.new self.new) }
    {
        let workers = self.queues.count();
        for w in 0..workers {
            self.offer_held(pool, w)?;
        }
        Ok(())
    }
}

/// Offers legs to worker `w` in one message, which has room for an answer to each.
fn send<P: LegTrace, G: Gate>(
    alloc: Global,
    pool: &mut Pool<Worker<P>, G>,
    w: u32,
    legs: Vec<Leg>,
    room: Vec<TracedAnswer<P>>,
) -> Result<(), RunFault>
    requires place { w < length (initial_machines pool.old) }
    requires fits { length (of_worker (accepted_items pool.old) w) + vec_len legs
        ≤ length (of_worker (taken_answers pool.old) w) + capacity_of pool.old }
    ensures starts { initial_machines pool.new ≡ initial_machines pool.old }
    ensures capacity { capacity_of pool.new ≡ capacity_of pool.old }
    ensures takes { taken_answers pool.new ≡ taken_answers pool.old }
    ensures accepted { OnOk result (accepted_items pool.new ≡ slice_set (accepted_items pool.old) w
        (of_worker (accepted_items pool.old) w ++ legs.items)) }
    ensures refused { OnErr result (accepted_items pool.new ≡ accepted_items pool.old) }
    ensures fault { IfErr result (IsDispatchFault G.is_open) }
{
    let mut room = room;
    if room.capacity() < legs.len() {
        room = Vec::with_capacity(alloc, legs.len())?;
    }
    match pool.offer_all(alloc, w, Batch::new(legs, room)) {
        Ok(()) => Ok(()),
        Err(OfferRefused::Full(_)) => unreachable!(),
        Err(OfferRefused::Memory(_)) => Err(RunFault::Memory),
        Err(OfferRefused::Ring(_)) => Err(RunFault::from(ImpossibleAnswer)),
    }
}
