//! The queues of all workers.

ghost use Rattle.std.specs.Prelude.{◌≡◌, ◌↔◌, ◌+◌, ◌<◌, ◌≤◌, ℕ, Bool, [], ◌∷◌, length, replicate, take, true, vec_len, IfOk, IfErr, OnOk, MatchOption};
ghost use Rattle.napt_dispatch.specs.{Dispatch.IsDispatchFault, DispatcherInvariants.MovesLegsAt};
ghost use Rattle.napt_dispatch.specs.WorkerQueues.{QueuesHoldMore, AnswersAt, held_legs_count, counts_in, front_of, held_count, only_at, queue_of, queue_readied, unused_queue, with_offers, with_queue};

use crate::dispatcher::pending_leg::{AwaitedLeg, PendingLeg, QueueHead};
use crate::dispatcher::worker_queue::WorkerQueue;
use napt_sequential::RunFault;
use napt_translate::Leg;
use std::alloc::{AllocError, Global};
use std::marker::Model;

/// The largest total of held legs and placeholders. No input is read unless two more would fit.
const MOST_HELD: u64 = 65_536;

/// The queues of 1 to 4,294,967,295 workers, which contain at most 65,536 legs and placeholders
/// in total. Contracts see the list of queues, in the order of the workers.
#[derive(Drop)]
pub(crate) struct WorkerQueues {
    queues: Vec<WorkerQueue>,
    /// The number of legs and placeholders that are held in all queues.
    many: u64,
}

impl Model for WorkerQueues {
    ghost use Rattle.std.specs.Prelude.{List};
    ghost use Rattle.napt_dispatch.specs.WorkerQueues.{WorkerQueueModel, AreQueuesCounted};

    ghost Value = { List WorkerQueueModel };

    ghost view = { λ all. all.queues.items };

    ghost invariant = { λ all. AreQueuesCounted all.many all.queues.items };
}

impl WorkerQueues {
    /// Returns empty queues for `workers` workers.
    pub(crate) fn new(alloc: Global, workers: u32) -> Result<WorkerQueues, AllocError>
        requires { 0 < workers }
        ensures { IfOk result (λ all. all ≡ replicate workers unused_queue) }
    {
        let mut queues = Vec::with_capacity(alloc, workers as usize)?;
        for _ in 0..workers {
            queues.push(WorkerQueue::new(alloc))?;
        }
        Ok(WorkerQueues { queues, many: 0 })
    }

    /// Returns the number of workers.
    pub(crate) fn count(&self) -> u32
        ensures count { result ≡ length self.now }
        ensures some { 0 < result }
    {
        self.queues.len() as u32
    }

    /// Returns whether there is room for two more legs or placeholders.
    pub(crate) fn has_room(&self) -> bool
        ensures { (result ≡ true) ↔ (held_count self.now + 2 ≤ 65536) }
    {
        self.many + 2 <= MOST_HELD
    }

    /// Appends a leg or a placeholder to the queue of worker `w`.
    #[inline(always)]
    pub(crate) fn push(&mut self, w: u32, held: PendingLeg) -> Result<(), AllocError>
        requires place { w < length self.old }
        requires room { held_count self.old < 65536 }
        ensures many { length self.new ≡ length self.old }
        ensures holds { OnOk result (QueuesHoldMore (only_at w (held ∷ [])) self.old self.new) }
        ensures counted { OnOk result (held_count self.new ≡ held_count self.old + 1) }
    {
        let queue = &mut self.queues[w as usize];
        queue.push(held)?;
        self.many += 1;
        Ok(())
    }

    /// Returns the kind of the first entry after the legs of the next message of worker `w`.
    pub(crate) fn front(&self, w: u32) -> QueueHead
        requires { w < length self.now }
        ensures { result ≡ front_of (queue_of self.now w).held }
    {
        self.queues[w as usize].front()
    }

    /// Moves the first held leg of worker `w` to the end of its next message. Replaces a
    /// placeholder by `second`, if there is one, or removes it.
    pub(crate) fn ready_first(&mut self, w: u32, second: Option<Leg>) -> Result<(), AllocError>
        requires { w < length self.old }
        ensures many { length self.new ≡ length self.old }
        ensures readied { OnOk result (self.new ≡ with_queue w (queue_readied second) self.old) }
    {
        let queue = &mut self.queues[w as usize];
        let before = queue.held_count();
        let done = queue.ready_first(second);
        self.many -= (before - queue.held_count()) as u64;
        done
    }

    /// Moves held legs of worker `w` to the end of its next message, up to the first placeholder or
    /// until the message has `most` legs.
    pub(crate) fn ready_legs(&mut self, w: u32, most: usize) -> Result<(), AllocError>
        requires { w < length self.old }
        ensures many { length self.new ≡ length self.old }
        ensures moves { MovesLegsAt w self.old self.new }
    {
        let queue = &mut self.queues[w as usize];
        queue.ready_legs(most)
    }

    /// Returns the number of legs of the next message of worker `w`.
    pub(crate) fn ready_count(&self, w: u32) -> usize
        requires { w < length self.now }
        ensures { result ≡ length (queue_of self.now w).ready }
    {
        self.queues[w as usize].ready_count()
    }

    /// Removes and returns the first `count` legs of worker `w`'s next message, and records them as
    /// offered and owed. If these are all legs, returns their vector and replaces it by `none`.
    pub(crate) fn offer_ready(
        &mut self,
        w: u32,
        count: usize,
        none: Vec<Leg>,
    ) -> Result<Vec<Leg>, RunFault>
        requires place { w < length self.old }
        requires count { count ≤ length (queue_of self.old w).ready }
        requires none { none.items ≡ [] }
        ensures many { length self.new ≡ length self.old }
        ensures offers { IfOk result (λ legs. self.new
            ≡ with_queue w (with_offers legs.items) self.old) }
        ensures first { IfOk result (λ legs. legs.items ≡ take count (queue_of self.old w).ready) }
        ensures len { IfOk result (λ legs. vec_len legs ≡ count) }
        ensures fault { (open_gate : Bool) → IfErr result (IsDispatchFault open_gate) }
    {
        let queue = &mut self.queues[w as usize];
        let legs = queue.offer_ready(count, none)?;
        self.many -= count as u64;
        Ok(legs)
    }

    /// Returns the number of legs and placeholders that are held for worker `w`.
    pub(crate) fn held_count(&self, w: u32) -> usize
        requires { w < length self.now }
        ensures { result ≡ held_legs_count (queue_of self.now w) }
    {
        self.queues[w as usize].held_count()
    }

    /// Returns whether nothing is held for any worker.
    pub(crate) fn none_held(&self) -> bool
        ensures { (result ≡ true) ↔ ((w : ℕ) → held_legs_count (queue_of self.now w) ≡ 0) }
    {
        self.many == 0
    }

    /// Removes and returns the oldest leg that worker `w` has not answered yet, if there is one.
    #[inline(always)]
    pub(crate) fn note_answer(&mut self, w: u32) -> Option<AwaitedLeg>
        requires { w < length self.old }
        ensures many { length self.new ≡ length self.old }
        ensures first { MatchOption result ((queue_of self.old w).owed ≡ [])
            (λ owed. AnswersAt w owed self.old self.new) }
    {
        let queue = &mut self.queues[w as usize];
        queue.note_answer()
    }

    /// Returns the number of legs that worker `w` has not answered yet.
    pub(crate) fn owed_count(&self, w: u32) -> usize
        requires { w < length self.now }
        ensures { result ≡ length (queue_of self.now w).owed }
    {
        self.queues[w as usize].owed_count()
    }

    /// Returns whether every worker has answered every leg offered to it.
    pub(crate) fn none_owed(&self) -> bool
        ensures { (result ≡ true) ↔ ((w : ℕ) → (queue_of self.now w).owed ≡ []) }
    {
        none_owed(&self.queues)
    }

    /// Returns the number of legs offered to each worker.
    pub(crate) fn counts(&self, alloc: Global) -> Result<Vec<u64>, AllocError>
        ensures { IfOk result (λ counts. counts.items ≡ counts_in self.now) }
    {
        counts_of(alloc, &self.queues)
    }
}

/// Returns whether every leg of every queue has been answered.
fn none_owed(queues: &[WorkerQueue]) -> bool
    ensures { (result ≡ true) ↔ ((w : ℕ) → (queue_of queues.now w).owed ≡ []) }
{
    for queue in queues {
        if queue.owed_count() > 0 {
            return false;
        }
    }
    true
}

/// Returns, for each queue, the number of legs offered to its worker.
fn counts_of(alloc: Global, queues: &[WorkerQueue]) -> Result<Vec<u64>, AllocError>
    ensures { IfOk result (λ counts. counts.items ≡ counts_in queues.now) }
{
    let mut counts = Vec::with_capacity(alloc, queues.len())?;
    for queue in queues {
        counts.push(queue.offered())?;
    }
    Ok(counts)
}
