//! Reads the inputs in their order.

ghost use Rattle.std.specs.Prelude.{◌≡◌, ◌<◌, ◌≤◌, ◌/◌, ◌%◌, ◌==◌, cond, true, [], length, Some, None, IfErr, IfSome, OnOk, MatchResult};
ghost use Rattle.napt_config.specs.Rules.{RulesInvariant};
ghost use Rattle.napt_pool.specs.Pools.{initial_machines};
ghost use Rattle.napt_sequential.specs.Inputs.{NextInputPost};
ghost use Rattle.napt_dispatch.specs.RunsThrough.{OutcomesLeaveUnlessFault, ReadInputPost, RunThroughStart, ReadsToEnd, ReadsAll, ReadsHalted};
ghost use Rattle.napt_dispatch.specs.DispatcherInvariants.{IsSizedFor, ContinuesOr, DispatcherHasRoom, DispatcherHalts};

use crate::Worker;
use crate::dispatcher::Dispatcher;
use crate::dispatcher::taking::StopCondition;
use crate::faults::DispatchFault;
use crate::outcome_sink::OutcomeSink;
use napt_config::Config;
use napt_pool::{Gate, Pool};
use napt_sequential::{Input, InputSource, LegTrace, RunFault, way_from};
use std::sync::Wait;

/// The number of inputs after which the answers of the next worker, in turn, are checked. A check
/// may fetch a cache line that another processor wrote, so rarer checks cost less.
const LOOK_EACH: u64 = 64;

impl<P: LegTrace> Dispatcher<P> {
    /// Returns `place` if it is a worker whose queued legs are now due as a message.
    #[inline(always)]
    fn due(&self, place: Option<u32>) -> Option<u32>
        requires { IfSome place (λ w. w < length self.now.queues) }
        ensures { IfSome result (λ w. w < length self.now.queues) }
    {
        let w = place?;
        if self.queues.held_count(w) & self.mask > 0 {
            return None;
        }
        Some(w)
    }

    /// Takes answers from worker `place`, if it is one, and offers it legs.
    #[inline(always)]
    fn take_and_offer_if_some<R: Wait, G: Gate>(
        &mut self,
        rt: &R,
        pool: &mut Pool<Worker<P>, G>,
        worker: Option<u32>,
    ) -> Result<(), RunFault>
        requires place { IfSome worker (λ w. w < length (initial_machines pool.old)) }
        requires sized { IsSizedFor pool.old self.old }
        ensures { ContinuesOr P.tells G.is_open pool.old self.old pool.new self.new result }
    {
        match worker {
            None => Ok(()),
            Some(w) => self.take_and_offer(rt, pool, w),
        }
    }

    /// Reads an input at `now`, in ns. Then takes answers from its worker and offers it legs, if a
    /// message for it is due. Finally, takes answers from the worker whose turn it is, if any, and
    /// offers it legs.
    #[inline(always)]
    fn serve<R: Wait, G: Gate>(
        &mut self,
        rt: &R,
        pool: &mut Pool<Worker<P>, G>,
        config: &Config,
        now: u64,
        input: Input,
    ) -> Result<(), RunFault>
        requires keeps { RulesInvariant config.now }
        requires count { length (initial_machines pool.old) ≡ length config.now.pool }
        requires sized { IsSizedFor pool.old self.old }
        requires room { DispatcherHasRoom self.old }
        ensures serves { OnOk result (ReadInputPost P.tells config.now now input pool.old self.old
            pool.new self.new) }
        ensures fault { IfErr result (DispatcherHalts G.is_open pool.old pool.new) }
    {
        let number = self.progress.expect(input.time, way_from(input.side))?;
        let place = self.admit(config, number, now, input)?;
        let due = self.due(place);
        self.take_and_offer_if_some(rt, pool, due)?;
        let turn = turn_after(number, self.queues.count());
        self.take_and_offer_if_some(rt, pool, turn)?;
        Ok(())
    }

    /// Makes room for one more input. Before a device is read, writes and flushes every outcome.
    #[inline(always)]
    fn make_ready<R: Wait, G: Gate, D: OutcomeSink<Trace = P>>(
        &mut self,
        rt: &R,
        pool: &mut Pool<Worker<P>, G>,
        departures: &mut D,
        asks_device: bool,
    ) -> Result<(), DispatchFault<D::Fault>>
        requires sized { IsSizedFor pool.old self.old }
        ensures state { OutcomesLeaveUnlessFault P.tells G.is_open D.takes D.fails
            pool.old self.old departures.old pool.new self.new departures.new result }
        ensures room { OnOk result (DispatcherHasRoom self.new) }
        ensures left { asks_device ≡ true → OnOk result ((self.new.progress.under_way ≡ [])
            × D.is_settled departures.new) }
    {
        if asks_device {
            return self.settle(rt, pool, departures);
        }
        if !self.progress.take_outcome_flag() && self.has_room() {
            return Ok(());
        }
        self.advance_until(rt, pool, departures, StopCondition::Room)
    }

    /// Returns the next input, which may use a pooled buffer. A device is read only if every
    /// outcome has been written and flushed; `_departures` is passed for that clause alone.
    #[inline(always)]
    fn next_input<A: InputSource, D: OutcomeSink<Trace = P>>(
        &mut self,
        arrivals: &mut A,
        _departures: &D,
    ) -> Result<Option<Input>, A::Fault>
        requires settled { A.asks arrivals.old → (self.old.progress.under_way ≡ [])
            × D.is_settled _departures.now }
        ensures same { self.new ≡ self.old }
        ensures hands { NextInputPost A.hands A.ends arrivals.old result arrivals.new }
    {
        let spare = self.progress.spare();
        arrivals.next(spare)
    }

    /// Reads the inputs until their end or a fault, taking answers in between. Moves their bytes.
    fn read_all<R: Wait, G: Gate, A: InputSource, D: OutcomeSink<Trace = P>>(
        &mut self,
        rt: &R,
        pool: &mut Pool<Worker<P>, G>,
        config: &Config,
        arrivals: &mut A,
        departures: &mut D,
    ) -> Result<EndOfInputs<A::Fault>, DispatchFault<D::Fault>>
        requires { RunThroughStart config.now pool.old self.old }
        ensures { MatchResult result
            (ReadsToEnd P.tells config.now A.hands A.ends D.takes D.fails D.is_settled pool.old
            self.old arrivals.old departures.old pool.new self.new arrivals.new departures.new)
            (ReadsHalted P.tells config.now A.hands A.ends D.takes D.fails D.is_settled pool.old
            self.old arrivals.old departures.old pool.new self.new arrivals.new departures.new
            G.is_open) }
    {
        let mut clock = self.clock;
        for _ in rt.forever() {
            let asks_device = arrivals.asks_device();
            self.make_ready(rt, pool, departures, asks_device)?;
            match self.next_input(arrivals, departures) {
                Ok(Some(input)) => {
                    clock = clock.max(input.clock);
                    self.serve(rt, pool, config, clock, input)?;
                }
                Ok(None) => return Ok(EndOfInputs::new(clock, None)),
                Err(fault) => return Ok(EndOfInputs::new(clock, Some(fault))),
            }
        }
        unreachable!()
    }

    /// Reads the inputs until their end or a fault, and writes and flushes every outcome.
    pub(super) fn pass_all<R: Wait, G: Gate, A: InputSource, D: OutcomeSink<Trace = P>>(
        &mut self,
        rt: &R,
        pool: &mut Pool<Worker<P>, G>,
        config: &Config,
        arrivals: &mut A,
        departures: &mut D,
    ) -> Result<EndOfInputs<A::Fault>, DispatchFault<D::Fault>>
        requires { RunThroughStart config.now pool.old self.old }
        ensures { MatchResult result
            (ReadsAll P.tells config.now A.hands A.ends D.takes D.fails D.is_settled pool.old
            self.old arrivals.old departures.old pool.new self.new arrivals.new departures.new)
            (ReadsHalted P.tells config.now A.hands A.ends D.takes D.fails D.is_settled pool.old
            self.old arrivals.old departures.old pool.new self.new arrivals.new departures.new
            G.is_open) }
    {
        let end = self.read_all(rt, pool, config, arrivals, departures)?;
        self.settle(rt, pool, departures)?;
        Ok(end)
    }
}

/// The end of reading the inputs.
#[derive(Drop)]
pub(crate) struct EndOfInputs<F> {
    /// The greatest clock of the starting state and of the inputs, in ns.
    pub(crate) clock: u64,
    /// The fault of the input source, if it failed.
    pub(crate) fault: Option<F>,
}

impl<F> EndOfInputs<F> {
    ghost use Rattle.std.specs.Prelude.{◌≡◌};

    fn new(clock: u64, fault: Option<F>) -> EndOfInputs<F>
        ensures { (result.clock ≡ clock) × (result.fault ≡ fault) }
    {
        EndOfInputs { clock, fault }
    }
}

/// Returns the worker, if any, whose answers are to be checked after the input `number`.
#[inline(always)]
fn turn_after(number: u64, count: u32) -> Option<u32>
    requires { 0 < count }
    ensures turn { result ≡ cond (number % 64 == 0) (Some (number / 64 % count)) None }
    ensures place { IfSome result (λ w. w < count) }
{
    if number % LOOK_EACH > 0 {
        return None;
    }
    Some((number / LOOK_EACH % count as u64) as u32)
}
