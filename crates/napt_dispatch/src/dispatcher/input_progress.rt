//! The progress of one input.

ghost use Rattle.std.specs.Prelude.{◌≡◌, true, false, Some};
ghost use Rattle.napt_sequential.specs.declared.passage.Passage.TheVariants.{Nothing as NoPassage};
ghost use Rattle.napt_dispatch.specs.{DispatcherInvariants.IsSecondOf, RunProgresses.{has_ended, departed_in, passages_after, progress_refused, is_unknown}};

use crate::dispatcher::pending_leg::AwaitedLeg;
use crate::outcome_sink::InputResult;
use napt_sequential::{LegTrace, Outcome};
use napt_translate::{End, Leg};
use napt_wire::{Cause, Way};
use std::mem;

/// The progress of an input. `P` is the record of a leg.
#[derive(Drop)]
pub(crate) enum InputProgress<P> {
    /// The answer to the first leg, which has this direction, is awaited.
    Awaited(Way),
    /// The answer to the second leg is awaited. Contains the record of the first leg.
    Returning(P),
    /// The leg that was answered last, its answer, and the records of the first and second leg. If
    /// the answer ends with `End::Onward`, the packet comes in again by a second leg.
    Answered(AwaitedLeg, End, P, P),
}

impl<P: LegTrace> InputProgress<P> {
    /// Returns the progress of an input that has no leg and is dropped at time `now`, in ns.
    pub(crate) fn refused(now: u64, cause: Cause) -> InputProgress<P>
        ensures { result ≡ progress_refused (P.tells NoPassage) now cause }
    {
        let none = AwaitedLeg {
            way: Way::Incoming,
            now,
        };
        InputProgress::Answered(none, End::Dropped(cause), P::none(), P::none())
    }

    /// Returns the records of the first and second leg, where `passage` is that of a leg with
    /// direction `way`, or `None` if no answer to such a leg is awaited.
    #[inline(always)]
    pub(crate) fn passages(&self, way: Way, passage: P) -> Option<(P, P)>
        ensures { result ≡ passages_after (P.tells NoPassage) self.now way passage }
    {
        match (self, way) {
            (InputProgress::Awaited(Way::Outgoing), Way::Outgoing)
            | (InputProgress::Awaited(Way::Incoming), Way::Incoming) => Some((passage, P::none())),
            (InputProgress::Returning(first), Way::Incoming) => Some((*first, passage)),
            _ => None,
        }
    }

    /// Returns whether the outcome is known.
    pub(crate) fn has_ended(&self) -> bool
        ensures { result ≡ has_ended self.now }
    {
        match self {
            InputProgress::Awaited(_)
            | InputProgress::Returning(_)
            | InputProgress::Answered(_, End::Onward(..), _, _) => false,
            InputProgress::Answered(..) => true,
        }
    }

    /// Returns whether it is not yet known whether the input has a second leg.
    pub(crate) fn is_unknown(&self) -> bool
        ensures { result ≡ is_unknown (Some self.now) }
    {
        match self {
            InputProgress::Awaited(_) | InputProgress::Returning(_) => true,
            InputProgress::Answered(owed, ..) => matches!(owed.way, Way::Incoming),
        }
    }

    /// Returns the result of the input, whose outcome must be known.
    #[inline(always)]
    pub(crate) fn into_departed(self) -> InputResult<P>
        requires { has_ended self ≡ true }
        ensures { departed_in self ≡ Some result }
    {
        let InputProgress::Answered(AwaitedLeg { now, .. }, end, first, second) = self else {
            unreachable!();
        };
        let outcome = match end {
            End::ToOutside(packet) => Outcome::ToOutside(packet),
            End::ToInside(packet) => Outcome::ToInside(packet),
            End::Dropped(cause) => Outcome::Dropped(cause),
            End::Onward(..) => unreachable!(),
        };
        InputResult {
            outcome,
            now,
            first,
            second,
        }
    }
}

/// An input that was read and whose outcome has not been written.
#[derive(Drop)]
pub(crate) struct OpenInput<P> {
    /// The arrival time, in ns.
    pub(crate) time: u64,
    pub(crate) progress: InputProgress<P>,
    /// `true` while a placeholder for the second leg is queued. The outcome is written only later.
    pub(crate) has_place: bool,
}

impl<P: LegTrace> OpenInput<P> {
    /// Removes and returns the second leg of this input, which has number `number`, if it has one
    /// (RFC 4787, REQ-9). Clears the mark of the placeholder.
    pub(crate) fn second_leg(&mut self, number: u64) -> Option<Leg>
        requires { is_unknown (Some self.old.progress) ≡ false }
        ensures { IsSecondOf number self.old self.new result }
    {
        self.has_place = false;
        let was = mem::replace(&mut self.progress, InputProgress::Awaited(Way::Incoming));
        let InputProgress::Answered(owed, end, first, second) = was else {
            unreachable!();
        };
        match end {
            End::Onward(_, packet) => {
                self.progress = InputProgress::Returning(first);
                Some(Leg {
                    number,
                    now: owed.now,
                    way: Way::Incoming,
                    packet,
                })
            }
            end => {
                self.progress = InputProgress::Answered(owed, end, first, second);
                None
            }
        }
    }
}
