//! The queues of one worker.

ghost use Rattle.std.specs.Prelude.{◌≡◌, ◌+◌, ◌≤◌, ◌∷◌, ◌++◌, Bool, List, [], length, map, take, drop, vec_len, IfOk, IfErr, OnOk, OnErr, MatchOption};
ghost use Rattle.napt_rules.specs.Prelude.{LegAct};
ghost use Rattle.napt_dispatch.specs.{Dispatch.IsDispatchFault, DispatcherInvariants.{MovesLegs, turned_legs}};
ghost use Rattle.napt_dispatch.specs.WorkerQueues.{HoldPost, held_legs_count, front_of, owed_of, queue_readied, unused_queue, with_offers};

use crate::dispatcher::pending_leg::{AwaitedLeg, PendingLeg, QueueHead};
use crate::faults::ImpossibleAnswer;
use napt_sequential::RunFault;
use napt_translate::Leg;
use std::alloc::{AllocError, Global};
use std::collections::VecDeque;
use std::marker::Model;
use std::mem;

/// The largest number of legs that enter the next message directly. Further ones enter a queue.
const MOST_READY: usize = 64;

/// The queues of one worker. Contracts see a `WorkerQueueModel`.
#[derive(Drop)]
pub(crate) struct WorkerQueue {
    /// The number of legs offered to the worker.
    offered: u64,
    /// The legs that the worker has not answered yet, oldest first.
    owed: VecDeque<AwaitedLeg>,
    /// The legs of the next message, oldest first. None of them has been offered.
    ready: Vec<Leg>,
    /// The legs and placeholders that follow those of the next message, oldest first.
    held: VecDeque<PendingLeg>,
}

impl Model for WorkerQueue {
    ghost use Rattle.napt_dispatch.specs.WorkerQueues.{WorkerQueueModel};

    ghost Value = { WorkerQueueModel };

    ghost view = { λ queue. record {
      offered = queue.offered;
      owed = queue.owed.items;
      ready = queue.ready.items;
      held = queue.held.items;
    } };
}

impl WorkerQueue {
    /// Returns empty queues, as they are before the first offer.
    pub(crate) fn new(alloc: Global) -> WorkerQueue
        ensures { result ≡ unused_queue }
    {
        WorkerQueue {
            offered: 0,
            owed: VecDeque::new(alloc),
            ready: Vec::new(alloc),
            held: VecDeque::new(alloc),
        }
    }

    /// Returns the number of legs offered.
    pub(crate) fn offered(&self) -> u64
        ensures { result ≡ self.now.offered }
    {
        self.offered
    }

    /// Appends a leg or a placeholder. A leg enters the next message directly if the queue after
    /// that message is empty and the message has fewer than 64 legs.
    #[inline(always)]
    pub(crate) fn push(&mut self, held: PendingLeg) -> Result<(), AllocError>
        ensures ok { OnOk result (HoldPost (held ∷ []) self.old self.new) }
        ensures err { OnErr result (self.new ≡ self.old) }
    {
        match held {
            PendingLeg::Ready(leg) => {
                if self.held.len() > 0 || self.ready.len() >= MOST_READY {
                    return self.push_second(PendingLeg::Ready(leg));
                }
                self.ready.push(leg)?;
                Ok(())
            }
            PendingLeg::Place(number) => self.push_second(PendingLeg::Place(number)),
        }
    }

    /// Appends a leg or a placeholder to the queue that follows the next message.
    #[inline(never)]
    fn push_second(&mut self, held: PendingLeg) -> Result<(), AllocError>
        ensures ok { OnOk result (self.new
            ≡ record self.old { held = self.old.held ++ held ∷ [] }) }
        ensures err { OnErr result (self.new ≡ self.old) }
    {
        self.held.push_back(held)?;
        Ok(())
    }

    /// Returns the kind of the first entry after the legs of the next message.
    pub(crate) fn front(&self) -> QueueHead
        ensures { result ≡ front_of self.now.held }
    {
        match self.held.front() {
            None => QueueHead::Nothing,
            Some(PendingLeg::Ready(_)) => QueueHead::FirstLeg,
            Some(PendingLeg::Place(number)) => QueueHead::FirstPlace(*number),
        }
    }

    /// Moves the first held leg into the next message, or `second` if a placeholder is first.
    pub(crate) fn ready_first(&mut self, second: Option<Leg>) -> Result<(), AllocError>
        ensures readied { OnOk result (self.new ≡ queue_readied second self.old) }
        ensures fewer { held_legs_count self.new ≤ held_legs_count self.old }
    {
        let leg = match self.held.pop_front() {
            None => None,
            Some(PendingLeg::Ready(leg)) => Some(leg),
            Some(PendingLeg::Place(_)) => second,
        };
        if let Some(leg) = leg {
            self.ready.push(leg)?;
        }
        Ok(())
    }

    /// Moves held legs to the end of the next message, up to the first placeholder or until the
    /// message has `most` legs.
    pub(crate) fn ready_legs(&mut self, most: usize) -> Result<(), AllocError>
        ensures { MovesLegs self.old self.new }
    {
        move_legs(&mut self.held, &mut self.ready, most)
    }

    /// Returns the number of legs of the next message.
    pub(crate) fn ready_count(&self) -> usize
        ensures { result ≡ length self.now.ready }
    {
        self.ready.len()
    }

    /// Returns the number of legs and placeholders that are not offered yet.
    pub(crate) fn held_count(&self) -> usize
        ensures { result ≡ held_legs_count self.now }
    {
        self.ready.len() + self.held.len()
    }

    /// Removes and returns the first `count` legs of the next message, and records them as offered
    /// and owed. If these are all legs, returns their vector and replaces it by `none`.
    pub(crate) fn offer_ready(&mut self, count: usize, none: Vec<Leg>) -> Result<Vec<Leg>, RunFault>
        requires count { count ≤ length self.old.ready }
        requires none { none.items ≡ [] }
        ensures offers { IfOk result (λ legs. self.new ≡ with_offers legs.items self.old) }
        ensures first { IfOk result (λ legs. legs.items ≡ take count self.old.ready) }
        ensures len { IfOk result (λ legs. vec_len legs ≡ count) }
        ensures kept { OnErr result (held_legs_count self.new ≡ held_legs_count self.old) }
        ensures fault { (open_gate : Bool) → IfErr result (IsDispatchFault open_gate) }
    {
        let Some(offered) = self.offered.checked_add(count as u64) else {
            return Err(RunFault::from(ImpossibleAnswer));
        };
        let Ok(()) = note_owed(&mut self.owed, &self.ready.as_slice()[..count]) else {
            return Err(RunFault::Memory);
        };
        match take_first(&mut self.ready, count, none) {
            Ok(legs) => {
                self.offered = offered;
                Ok(legs)
            }
            Err(_) => Err(RunFault::Memory),
        }
    }

    /// Removes and returns the oldest leg that is not answered yet, if there is one.
    pub(crate) fn note_answer(&mut self) -> Option<AwaitedLeg>
        ensures first { MatchOption result (self.old.owed ≡ [])
            (λ owed. self.old.owed ≡ owed ∷ self.new.owed) }
        ensures else_same { self.new ≡ record self.old { owed = self.new.owed } }
    {
        self.owed.pop_front()
    }

    /// Returns the number of legs that are not answered yet.
    pub(crate) fn owed_count(&self) -> usize
        ensures { result ≡ length self.now.owed }
    {
        self.owed.len()
    }
}

/// Appends legs to those that are not answered yet.
fn note_owed(owed: &mut VecDeque<AwaitedLeg>, legs: &[Leg]) -> Result<(), AllocError>
    ensures { OnOk result (owed.new.items ≡ owed.old.items ++ map owed_of legs.now) }
{
    for leg in legs {
        owed.push_back(AwaitedLeg {
            way: leg.way,
            now: leg.now,
        })?;
    }
    Ok(())
}

/// Moves legs from `held` to the end of `ready`, up to a placeholder or until `most` are ready.
fn move_legs(
    held: &mut VecDeque<PendingLeg>,
    ready: &mut Vec<Leg>,
    most: usize,
) -> Result<(), AllocError>
    ensures legs { (acts : List LegAct) → turned_legs acts ready.new.items held.new.items
        ≡ turned_legs acts ready.old.items held.old.items }
    ensures count { length ready.new.items + length held.new.items
        ≡ length ready.old.items + length held.old.items }
    ensures shorter { length held.new.items ≤ length held.old.items }
{
    while ready.len() < most {
        let Some(PendingLeg::Ready(_)) = held.front() else {
            return Ok(());
        };
        ready.reserve(1)?;
        let Some(PendingLeg::Ready(leg)) = held.pop_front() else {
            unreachable!();
        };
        ready.push_reserved(leg);
    }
    Ok(())
}

/// Removes and returns the first `count` legs. If these are all legs, returns their vector and
/// replaces it by `none`.
fn take_first(legs: &mut Vec<Leg>, count: usize, none: Vec<Leg>) -> Result<Vec<Leg>, AllocError>
    requires count { count ≤ vec_len legs.old }
    requires none { none.items ≡ [] }
    ensures first { IfOk result (λ first. first.items ≡ take count legs.old.items) }
    ensures rest { OnOk result (legs.new.items ≡ drop count legs.old.items) }
    ensures len { IfOk result (λ first. vec_len first ≡ count) }
    ensures err { OnErr result (legs.new ≡ legs.old) }
{
    if count == legs.len() {
        return Ok(mem::replace(legs, none));
    }
    let rest = legs.split_off(count)?;
    Ok(mem::replace(legs, rest))
}
