//! Takes the answers of the workers and writes the outcomes.

ghost use Rattle.std.specs.Prelude.{◌≡◌, ◌↔◌, ◌+◌, ◌⊎◌, ◌^◌, ◌<◌, [], length, true, IfOk, IfSome, OnOk};
ghost use Rattle.napt_pool.specs.Pools.{initial_machines};
ghost use Rattle.napt_dispatch.specs.{RunsThrough.OutcomesLeaveUnlessFault, WorkerQueues.owed_count};
ghost use Rattle.napt_dispatch.specs.DispatcherInvariants.{IsSizedFor, ContinuesOr, NoteAnswersPost, HasTaken, HasOffered, HasOfferedAll, DispatcherHasRoom, HasReached, DispatcherIsDone};

use crate::Worker;
use crate::dispatcher::Dispatcher;
use crate::faults::{DispatchFault, ImpossibleAnswer};
use crate::outcome_sink::OutcomeSink;
use napt_pool::{AnsweredBatch, Backoff, Gate, Pool, TakenAnswers};
use napt_sequential::{LegTrace, RunFault, TracedAnswer};
use napt_translate::Leg;
use std::sync::Wait;

/// The condition under which a dispatcher stops taking answers.
#[derive(Clone, Copy)]
pub(super) enum StopCondition {
    /// One more input may be read.
    Room,
    /// Nothing is held, and every worker has answered every leg.
    Done,
}

impl<P: LegTrace> Dispatcher<P> {
    /// Records answers of worker `w` in their order, and removes them from `answers`.
    fn note_each(
        &mut self,
        w: u32,
        answers: &mut Vec<TracedAnswer<P>>,
    ) -> Result<(), ImpossibleAnswer>
        requires { w < length self.old.queues }
        ensures many { OnOk result (length self.new.queues ≡ length self.old.queues) }
        ensures noted { OnOk result (NoteAnswersPost P.tells w answers.old.items self.old self.new) }
        ensures fewer { OnOk result (owed_count self.new.queues + length answers.old.items
            ≡ owed_count self.old.queues) }
    {
        for answer in answers.drain(..) {
            self.note(w, answer)?;
        }
        Ok(())
    }

    /// Records the answers of one batch of worker `w`. Returns whether there were any.
    fn note_all(
        &mut self,
        w: u32,
        answered: AnsweredBatch<Leg, TracedAnswer<P>>,
    ) -> Result<bool, ImpossibleAnswer>
        requires { w < length self.old.queues }
        ensures many { OnOk result (length self.new.queues ≡ length self.old.queues) }
        ensures noted { OnOk result (NoteAnswersPost P.tells w answered.answers.items self.old
            self.new) }
        ensures told { IfOk result (HasTaken self.old self.new) }
    {
        let mut answered = answered;
        if answered.answers.is_empty() {
            return Ok(false);
        }
        self.note_each(w, &mut answered.answers)?;
        self.vectors.recycle(answered);
        Ok(true)
    }

    /// Takes and records the next answers of worker `w`. Returns whether there were any.
    fn take_reply<R: Wait, G: Gate>(
        &mut self,
        rt: &R,
        pool: &mut Pool<Worker<P>, G>,
        w: u32,
    ) -> Result<bool, RunFault>
        requires place { w < length (initial_machines pool.old) }
        requires sized { IsSizedFor pool.old self.old }
        ensures state { ContinuesOr P.tells G.is_open pool.old self.old pool.new self.new result }
        ensures told { IfOk result (HasTaken self.old self.new) }
    {
        match pool.take_all(rt, self.alloc, w)? {
            None => Ok(false),
            Some(TakenAnswers::One(answer)) => {
                self.note(w, answer)?;
                Ok(true)
            }
            Some(TakenAnswers::All(answered)) => Ok(self.note_all(w, answered)?),
        }
    }

    /// Takes and records all available answers of worker `w`. Returns whether there were any.
    fn take_available<R: Wait, G: Gate>(
        &mut self,
        rt: &R,
        pool: &mut Pool<Worker<P>, G>,
        w: u32,
    ) -> Result<bool, RunFault>
        requires place { w < length (initial_machines pool.old) }
        requires sized { IsSizedFor pool.old self.old }
        ensures state { ContinuesOr P.tells G.is_open pool.old self.old pool.new self.new result }
        ensures told { IfOk result (HasTaken self.old self.new) }
    {
        let many = self.queues.owed_count(w);
        let mut any = false;
        for _ in 0..many {
            if !self.take_reply(rt, pool, w)? {
                return Ok(any);
            }
            any = true;
        }
        Ok(any)
    }

    /// Takes and records all available answers of all workers. Returns whether there were any.
    fn take_all_available<R: Wait, G: Gate>(
        &mut self,
        rt: &R,
        pool: &mut Pool<Worker<P>, G>,
    ) -> Result<bool, RunFault>
        requires sized { IsSizedFor pool.old self.old }
        ensures state { ContinuesOr P.tells G.is_open pool.old self.old pool.new self.new result }
        ensures told { IfOk result (HasTaken self.old self.new) }
    {
        let mut any = false;
        let workers = self.queues.count();
        for w in 0..workers {
            if self.take_available(rt, pool, w)? {
                any = true;
            }
        }
        Ok(any)
    }

    /// Waits for an answer and takes all that are available. Every leg that could be offered must
    /// have been offered. Fails if no worker owes an answer.
    fn wait_and_take<R: Wait, G: Gate>(
        &mut self,
        rt: &R,
        pool: &mut Pool<Worker<P>, G>,
    ) -> Result<(), RunFault>
        requires sized { IsSizedFor pool.old self.old }
        requires offered { HasOfferedAll pool.old self.old }
        ensures state { ContinuesOr P.tells G.is_open pool.old self.old pool.new self.new result }
        ensures some { OnOk result (HasTaken self.old self.new true) }
    {
        if self.queues.none_owed() {
            return Err(RunFault::from(ImpossibleAnswer));
        }
        let mut backoff = Backoff::new();
        for _ in rt.forever() {
            if self.take_all_available(rt, pool)? {
                return Ok(());
            }
            backoff.pause(rt);
        }
        unreachable!()
    }

    /// Offers the legs that can be offered, takes answers, waiting until there is one, and offers
    /// the legs that can then be offered.
    fn advance<R: Wait, G: Gate>(
        &mut self,
        rt: &R,
        pool: &mut Pool<Worker<P>, G>,
    ) -> Result<(), RunFault>
        requires sized { IsSizedFor pool.old self.old }
        ensures state { ContinuesOr P.tells G.is_open pool.old self.old pool.new self.new result }
        ensures offered { OnOk result (HasOfferedAll pool.new self.new) }
    {
        self.offer_all(pool)?;
        self.wait_and_take(rt, pool)?;
        self.offer_all(pool)
    }

    /// Writes the outcomes that are ready, in input order. Only the contract uses `pool`.
    fn hand_over<G: Gate, D: OutcomeSink<Trace = P>>(
        &mut self,
        pool: &Pool<Worker<P>, G>,
        departures: &mut D,
    ) -> Result<(), DispatchFault<D::Fault>>
        requires sized { IsSizedFor pool.now self.old }
        ensures { OutcomesLeaveUnlessFault P.tells G.is_open D.takes D.fails
            pool.now self.old departures.old pool.now self.new departures.new result }
    {
        match self.progress.hand_over(departures) {
            Ok(()) => Ok(()),
            Err(fault) => Err(DispatchFault::Departure(fault)),
        }
    }

    /// Returns whether there is room for one more input and for two more legs or placeholders.
    pub(super) fn has_room(&self) -> bool
        ensures { (result ≡ true) ↔ DispatcherHasRoom self.now }
    {
        self.queues.has_room() && self.progress.has_room()
    }

    /// Returns whether a stop condition holds.
    fn has_reached(&self, until: StopCondition) -> bool
        ensures { (result ≡ true) ↔ HasReached until self.now }
    {
        match until {
            StopCondition::Room => self.has_room(),
            StopCondition::Done => self.is_done(),
        }
    }

    /// Takes answers, offers legs and writes outcomes until a stop condition holds.
    pub(super) fn advance_until<R: Wait, G: Gate, D: OutcomeSink<Trace = P>>(
        &mut self,
        rt: &R,
        pool: &mut Pool<Worker<P>, G>,
        departures: &mut D,
        until: StopCondition,
    ) -> Result<(), DispatchFault<D::Fault>>
        requires sized { IsSizedFor pool.old self.old }
        ensures state { OutcomesLeaveUnlessFault P.tells G.is_open D.takes D.fails
            pool.old self.old departures.old pool.new self.new departures.new result }
        ensures reached { OnOk result (HasReached until self.new) }
    {
        for _ in rt.forever() {
            self.hand_over(pool, departures)?;
            if self.has_reached(until) {
                return Ok(());
            }
            self.advance(rt, pool)?;
        }
        unreachable!()
    }

    /// Continues until every outcome has been written, and flushes the sink.
    pub(super) fn settle<R: Wait, G: Gate, D: OutcomeSink<Trace = P>>(
        &mut self,
        rt: &R,
        pool: &mut Pool<Worker<P>, G>,
        departures: &mut D,
    ) -> Result<(), DispatchFault<D::Fault>>
        requires sized { IsSizedFor pool.old self.old }
        ensures state { OutcomesLeaveUnlessFault P.tells G.is_open D.takes D.fails
            pool.old self.old departures.old pool.new self.new departures.new result }
        ensures done { OnOk result (DispatcherIsDone self.new) }
        ensures left { OnOk result (self.new.progress.under_way ≡ []) }
        ensures few { OnOk result (length self.new.progress.left < 2 ^ 64) }
        ensures room { OnOk result (DispatcherHasRoom self.new) }
        ensures settled { OnOk result (D.is_settled departures.new) }
    {
        self.advance_until(rt, pool, departures, StopCondition::Done)?;
        self.check_left()?;
        match departures.settle() {
            Ok(()) => Ok(()),
            Err(fault) => Err(DispatchFault::Departure(fault)),
        }
    }

    /// Takes the available answers of worker `w`, and offers it the legs that can then be offered.
    /// If a placeholder waited for one of the answers, offers legs to all workers.
    #[inline(never)]
    pub(super) fn take_and_offer<R: Wait, G: Gate>(
        &mut self,
        rt: &R,
        pool: &mut Pool<Worker<P>, G>,
        w: u32,
    ) -> Result<(), RunFault>
        requires place { w < length (initial_machines pool.old) }
        requires sized { IsSizedFor pool.old self.old }
        ensures state { ContinuesOr P.tells G.is_open pool.old self.old pool.new self.new result }
        ensures offered { OnOk result (HasOffered pool.new self.new w) }
    {
        self.take_available(rt, pool, w)?;
        if self.progress.take_freed() {
            return self.offer_all(pool);
        }
        self.offer_held(pool, w)
    }
}
