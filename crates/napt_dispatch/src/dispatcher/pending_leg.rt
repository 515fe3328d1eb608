//! Entries of the workers' queues, and how answers change the progress of the inputs.

ghost use Rattle.std.specs.Prelude.{◌≡◌, ◌↔◌, ◌^◌, ◌<◌, true, false, [], length, IsOk, OnOk};
ghost use Rattle.napt_dispatch.specs.{RunProgresses.progress_in, DispatcherInvariants.{NoteAnswerPost, ResolvesFirstPlace, queue_waits, DispatcherIsDone}};

use crate::dispatcher::Dispatcher;
use crate::dispatcher::input_progress::InputProgress;
use crate::faults::ImpossibleAnswer;
use napt_sequential::{LegTrace, TracedAnswer};
use napt_translate::{Answer, End, Leg};
use napt_wire::Way;

/// A leg, or a placeholder for one, that has not been offered to its worker yet.
#[derive(Drop)]
pub(crate) enum PendingLeg {
    Ready(Leg),
    /// A placeholder for the second leg of the input with this number (RFC 4787, REQ-9). The answer
    /// to the first leg determines whether there is a second one.
    Place(u64),
}

/// The kind of the first entry after the legs of a worker's next message.
#[derive(Clone, Copy)]
pub(crate) enum QueueHead {
    Nothing,
    FirstLeg,
    /// A placeholder for the second leg of the input with this number.
    FirstPlace(u64),
}

/// A leg that was offered to a worker and has not been answered yet.
#[derive(Clone, Copy)]
pub(crate) struct AwaitedLeg {
    pub(crate) way: Way,
    /// The time of the leg, in ns.
    pub(crate) now: u64,
}

impl<P: LegTrace> Dispatcher<P> {
    /// Returns whether a queue with this head is empty or begins with a placeholder that waits.
    pub(super) fn waits(&self, front: QueueHead) -> bool
        ensures { result ≡ queue_waits (progress_in self.now.progress) front }
    {
        match front {
            QueueHead::Nothing => true,
            QueueHead::FirstLeg => false,
            QueueHead::FirstPlace(number) => self.progress.is_unknown(number),
        }
    }

    /// Removes and returns the second leg for a placeholder that no longer waits, if there is one.
    pub(super) fn second_leg(&mut self, front: QueueHead) -> Option<Leg>
        requires { queue_waits (progress_in self.old.progress) front ≡ false }
        ensures same { self.new.queues ≡ self.old.queues }
        ensures resolves { ResolvesFirstPlace front self.old.progress result self.new.progress }
    {
        match front {
            QueueHead::Nothing | QueueHead::FirstLeg => None,
            QueueHead::FirstPlace(number) => self.progress.second_leg(number),
        }
    }

    /// Records an answer of worker `w`. Fails if no such answer is awaited, which no worker causes.
    #[inline(always)]
    pub(super) fn note(&mut self, w: u32, traced: TracedAnswer<P>) -> Result<(), ImpossibleAnswer>
        requires { w < length self.old.queues }
        ensures many { OnOk result (length self.new.queues ≡ length self.old.queues) }
        ensures noted { OnOk result (NoteAnswerPost P.tells w traced self.old self.new) }
    {
        let Some(owed) = self.queues.note_answer(w) else {
            return Err(ImpossibleAnswer);
        };
        let TracedAnswer {
            answer: Answer { number, end },
            passage,
        } = traced;
        if matches!(end, End::Onward(..)) && matches!(owed.way, Way::Incoming) {
            return Err(ImpossibleAnswer);
        }
        let Some((first, second)) = self.progress.passages(number, owed.way, passage) else {
            return Err(ImpossibleAnswer);
        };
        self.progress
            .write(number, InputProgress::Answered(owed, end, first, second))?;
        Ok(())
    }

    /// Returns whether nothing is held and every worker has answered every leg.
    pub(super) fn is_done(&self) -> bool
        ensures { (result ≡ true) ↔ DispatcherIsDone self.now }
    {
        self.queues.none_held() && self.queues.none_owed()
    }

    /// Fails unless every outcome has been written. Never fails if no leg is held and every worker
    /// has answered every leg.
    pub(super) fn check_left(&self) -> Result<(), ImpossibleAnswer>
        ensures none { IsOk result ↔ (self.now.progress.under_way ≡ []) }
        ensures few { OnOk result (length self.now.progress.left < 2 ^ 64) }
    {
        if self.progress.is_empty() {
            Ok(())
        } else {
            Err(ImpossibleAnswer)
        }
    }
}
