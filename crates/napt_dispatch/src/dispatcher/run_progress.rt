//! The progress of the inputs that were read.

ghost use Rattle.std.specs.Prelude.{◌≡◌, ◌↔◌, ◌⊎◌, ◌+◌, ◌^◌, ◌<◌, ◌≤◌, Bool, [], length, slice_get, true, false, IfOk, IfErr, IfSome, OnOk, OnErr, MatchOption, MatchResult};
ghost use Rattle.napt_sequential.specs.declared.{fault.RunFault.TheVariants.Memory, passage.Passage.TheVariants.Nothing as NoPassage};
ghost use Rattle.napt_dispatch.specs.Dispatch.{IsDispatchFault};
ghost use Rattle.napt_dispatch.specs.RunProgresses.{progress_in, marks_in, progress_expecting, is_unknown, FirstIsComplete, ProgressIsWritten, InputIsMarked, FirstInputLeaves};
ghost use Rattle.napt_dispatch.specs.{RunsThrough.{HandOverOk, HandOverErr}, DispatcherInvariants.{IsSecondLegOf, AnswersTo}};

use crate::dispatcher::buffer_pool::BufferPool;
use crate::dispatcher::input_progress::{InputProgress, OpenInput};
use crate::faults::ImpossibleAnswer;
use crate::outcome_sink::{InputResult, OutcomeSink};
use http_server::Log;
use napt_sequential::{LegTrace, RunFault};
use napt_translate::Leg;
use napt_wire::Way;
use std::alloc::Global;
use std::collections::VecDeque;
use std::marker::Model;
use std::mem;

/// The largest number of open inputs. No input is read while there are this many.
const WINDOW: usize = 131_072;

/// The progress of at most 131,072 open inputs: those that were read and whose outcomes have not
/// been written. Only the number of the others is stored. Contracts also see their results.
#[derive(Drop)]
pub(crate) struct RunProgress<P> {
    /// The number of outcomes handed to the sink, and so the number of the first open input.
    first: u64,
    under_way: VecDeque<OpenInput<P>>,
    /// The results handed to the sink. It takes no memory: only proofs read it.
    past: Log<u64, InputResult<P>>,
    /// The buffers of packets that have been written, for later inputs.
    spares: BufferPool,
    /// `true` if an input for whose second leg a placeholder is held made progress.
    is_freed: bool,
    /// `true` if an outcome may have become ready to be written.
    may_have_outcome: bool,
}

impl<P> Model for RunProgress<P> {
    ghost use Rattle.std.specs.Prelude.{◌≡◌, ◌+◌, ◌<◌, ◌≤◌, ◌^◌, length};
    ghost use Rattle.napt_dispatch.specs.RunProgresses.{RunProgressModel};

    ghost Value = { RunProgressModel P };

    ghost view = { λ all. record {
      left = all.past.items;
      under_way = all.under_way.items;
    } };

    ghost invariant = { λ all. (all.first ≡ length all.past.items)
        × ((length all.under_way.items ≤ 131072)
        × (all.first + length all.under_way.items < 2 ^ 64)) };
}

impl<P: LegTrace> RunProgress<P> {
    /// Returns the progress before the first input.
    pub(crate) fn new(alloc: Global) -> RunProgress<P>
        ensures left { result.left ≡ [] }
        ensures under_way { result.under_way ≡ [] }
    {
        RunProgress {
            first: 0,
            under_way: VecDeque::new(alloc),
            past: Log::new(),
            spares: BufferPool::new(alloc),
            is_freed: false,
            may_have_outcome: false,
        }
    }

    /// Returns whether one more input may be read.
    pub(crate) fn has_room(&self) -> bool
        ensures { (result ≡ true) ↔ (length self.now.under_way < 131072) }
    {
        self.under_way.len() < WINDOW
    }

    /// Adds the buffer of a packet that has been written to the pool, if there is one.
    fn store_spare(&mut self, vector: Option<Vec<u8>>)
        ensures { self.new ≡ self.old }
    {
        self.spares.recycle(vector);
    }

    /// Returns a buffer for a later input.
    pub(crate) fn spare(&mut self) -> Vec<u8>
        ensures { self.new ≡ self.old }
    {
        self.spares.take()
    }

    /// Returns whether the outcome of every input that was read has been written.
    pub(crate) fn is_empty(&self) -> bool
        ensures none { (result ≡ true) ↔ (self.now.under_way ≡ []) }
        ensures few { length self.now.left < 2 ^ 64 }
    {
        self.under_way.is_empty()
    }

    /// Opens the next input, which arrived at `time`, in ns, and whose first leg goes `way`.
    /// Returns its number, below `u64::MAX`. Fails if memory is refused, or after 2^64 - 1 inputs.
    #[inline(always)]
    pub(crate) fn expect(&mut self, time: u64, way: Way) -> Result<u64, RunFault>
        requires { length self.old.under_way < 131072 }
        ensures number { IfOk result (λ number. number ≡ length (progress_in self.old)) }
        ensures expecting { OnOk result (self.new ≡ progress_expecting time way self.old) }
        ensures unchanged { OnErr result (self.new ≡ self.old) }
        ensures fault { (open_gate : Bool) → IfErr result (IsDispatchFault open_gate) }
        ensures last { IfErr result (λ fault. (fault ≡ Memory)
            ⊎ (length self.old.left + length self.old.under_way + 1 ≡ 2 ^ 64)) }
    {
        let number = self.first + self.under_way.len() as u64;
        if number == u64::MAX {
            return Err(RunFault::from(ImpossibleAnswer));
        }
        let next = OpenInput {
            time,
            progress: InputProgress::Awaited(way),
            has_place: false,
        };
        match self.under_way.push_back(next) {
            Ok(()) => Ok(number),
            Err(_) => Err(RunFault::Memory),
        }
    }

    /// Returns the index of open input `number`, or `None` if it has left or was not read.
    #[inline(always)]
    fn place_of(&self, number: u64) -> Option<usize>
        ensures { MatchOption result ((is_unknown (slice_get (progress_in self.now) number) ≡ true)
            × ((number < length self.now.left)
            ⊎ (length self.now.left + length self.now.under_way ≤ number)))
            (λ place. (number ≡ length self.now.left + place)
            × (place < length self.now.under_way)) }
    {
        if number < self.first {
            return None;
        }
        let place = number - self.first;
        if place < self.under_way.len() as u64 {
            Some(place as usize)
        } else {
            None
        }
    }

    /// Sets the progress of open input `number`. Fails if there is none; no worker answers for it.
    #[inline(always)]
    pub(crate) fn write(
        &mut self,
        number: u64,
        progress: InputProgress<P>,
    ) -> Result<(), ImpossibleAnswer>
        ensures ok { OnOk result (ProgressIsWritten number progress self.old self.new) }
        ensures marks { marks_in self.new ≡ marks_in self.old }
        ensures err { IfErr result (λ _.
            is_unknown (slice_get (progress_in self.old) number) ≡ true) }
    {
        let Some(place) = self.place_of(number) else {
            return Err(ImpossibleAnswer);
        };
        let input = &mut self.under_way[place];
        self.is_freed = self.is_freed || input.has_place;
        input.progress = progress;
        self.may_have_outcome = true;
        Ok(())
    }

    /// Returns the records of both legs of open input `number`, where `passage` is that of a leg
    /// with direction `way`, or `None` if no answer to such a leg is awaited.
    #[inline(always)]
    pub(crate) fn passages(&self, number: u64, way: Way, passage: P) -> Option<(P, P)>
        ensures { IfSome result (AnswersTo (P.tells NoPassage) self.now number way passage) }
    {
        let Some(place) = self.place_of(number) else {
            return None;
        };
        self.under_way[place].progress.passages(way, passage)
    }

    /// Returns whether, since the last call, an input with a placeholder made progress, so that its
    /// second leg may be offered.
    pub(crate) fn take_freed(&mut self) -> bool
        ensures { self.new ≡ self.old }
    {
        mem::replace(&mut self.is_freed, false)
    }

    /// Returns whether an outcome may have become ready to be written since the last call.
    pub(crate) fn take_outcome_flag(&mut self) -> bool
        ensures { self.new ≡ self.old }
    {
        mem::replace(&mut self.may_have_outcome, false)
    }

    /// Records that a placeholder is held for the second leg of input `number`.
    pub(crate) fn note_place(&mut self, number: u64)
        requires { length self.old.left ≤ number }
        ensures { InputIsMarked number true self.old self.new }
    {
        if let Some(place) = self.place_of(number) {
            self.under_way[place].has_place = true;
        }
    }

    /// Returns whether it is not yet known whether input `number` has a second leg.
    pub(crate) fn is_unknown(&self, number: u64) -> bool
        ensures { result ≡ is_unknown (slice_get (progress_in self.now) number) }
    {
        match self.place_of(number) {
            Some(place) => self.under_way[place].progress.is_unknown(),
            None => true,
        }
    }

    /// Removes and returns the second leg of input `number`, if any. Clears its placeholder's mark.
    pub(crate) fn second_leg(&mut self, number: u64) -> Option<Leg>
        requires { is_unknown (slice_get (progress_in self.old) number) ≡ false }
        ensures { IsSecondLegOf number self.old self.new result }
    {
        let Some(place) = self.place_of(number) else {
            unreachable!();
        };
        self.may_have_outcome = true;
        self.under_way[place].second_leg(number)
    }

    /// Returns whether the first open input has ended and has no placeholder for a second leg.
    fn is_first_complete(&self) -> bool
        ensures { (result ≡ true) ↔ FirstIsComplete self.now.under_way }
    {
        match self.under_way.front() {
            Some(input) => input.progress.has_ended() && !input.has_place,
            None => false,
        }
    }

    /// Removes the first open input, whose result must be ready. Returns its time (ns) and result.
    #[inline(always)]
    fn pop(&mut self) -> (u64, InputResult<P>)
        requires { FirstIsComplete self.old.under_way }
        ensures { FirstInputLeaves result self.old self.new }
    {
        let Some(OpenInput { time, progress, .. }) = self.under_way.pop_front() else {
            unreachable!();
        };
        let departed = progress.into_departed();
        self.first += 1;
        self.past = self.past.and(&time, &departed);
        (time, departed)
    }

    /// Writes the results of the first open inputs, up to the first whose result is not ready.
    pub(crate) fn hand_over<D: OutcomeSink<Trace = P>>(
        &mut self,
        departures: &mut D,
    ) -> Result<(), D::Fault>
        ensures all { OnOk result (¬ FirstIsComplete self.new.under_way) }
        ensures handed { MatchResult result
            (λ _. HandOverOk D.takes departures.old self.old departures.new self.new)
            (HandOverErr D.takes D.fails departures.old self.old departures.new self.new) }
    {
        while self.is_first_complete() {
            let (time, departed) = self.pop();
            match departures.write(time, departed) {
                Ok(vector) => self.store_spare(vector),
                Err(fault) => return Err(fault),
            }
        }
        Ok(())
    }
}
