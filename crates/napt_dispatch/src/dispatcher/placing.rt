//! Reads an input and queues its first leg, and a placeholder for a second leg.

ghost use Rattle.std.specs.Prelude.{◌≡◌, ◌+◌, ◌<◌, ◌≤◌, ◌∷◌, ◌++◌, [], Bool, length, slice_get, Ok, Err, Some, None, IfOk, IfErr, IfSome, OnOk};
ghost use Rattle.napt_wire.specs.{declared.Side.TheVariants.Inside as InsideSide, Fields.destination, Packet.IsPacket, Reading.reading};
ghost use Rattle.napt_config.specs.Rules.{RulesInvariant, pool_place};
ghost use Rattle.napt_rules.specs.Prelude.{way_from, served_at, admission_as};
ghost use Rattle.napt_dispatch.specs.{declared.dispatcher.pending_leg.PendingLeg.TheVariants.Ready, Dispatch.IsDispatchFault};
ghost use Rattle.napt_dispatch.specs.{WorkerQueues.{QueuesHoldMore, held_count, only_at, lane_at}, RunProgresses.{progress_in, progress_refused, IsUnmarked, ProgressIsWritten}};
ghost use Rattle.napt_dispatch.specs.DispatcherInvariants.{journal_of, Admits};
ghost use Rattle.napt_sequential.specs.declared.passage.Passage.TheVariants.{Nothing as NoPassage};

use crate::dispatcher::Dispatcher;
use crate::dispatcher::input_progress::InputProgress;
use crate::dispatcher::pending_leg::PendingLeg;
use crate::faults::ImpossibleAnswer;
use napt_config::Config;
use napt_sequential::{Input, LegTrace, RunFault, places_stand_for_legs, right_answers, way_from};
use napt_translate::{Leg, onward, route};
use napt_wire::{Cause, Packet, Side};
use std::alloc::AllocError;

impl<P: LegTrace> Dispatcher<P> {
    /// Queues a placeholder for the second leg of input `number` at worker `to`, if there is one.
    fn hold_place(&mut self, to: Option<u32>, number: u64) -> Result<(), AllocError>
        requires to { IfSome to (λ v. v < length self.old.queues) }
        requires room { held_count self.old.queues < 65536 }
        requires open { IsUnmarked number self.old.progress }
        ensures many { length self.new.queues ≡ length self.old.queues }
        ensures placed { OnOk result (QueuesHoldMore (lane_at number to)
            self.old.queues self.new.queues) }
        ensures progress { progress_in self.new.progress ≡ progress_in self.old.progress }
        ensures journal { journal_of self.new.progress ≡ journal_of self.old.progress }
    {
        match to {
            None => Ok(()),
            Some(v) => {
                self.progress.note_place(number);
                self.queues.push(v, PendingLeg::Place(number))
            }
        }
    }

    /// Queues a first leg for worker `w`, and a placeholder at worker `to`, if there is one.
    #[inline(always)]
    fn hold_first(&mut self, w: u32, leg: Leg, to: Option<u32>) -> Result<(), AllocError>
        requires place { w < length self.old.queues }
        requires to { IfSome to (λ v. v < length self.old.queues) }
        requires room { held_count self.old.queues + 2 ≤ 65536 }
        requires open { IsUnmarked leg.number self.old.progress }
        ensures many { length self.new.queues ≡ length self.old.queues }
        ensures placed { OnOk result (QueuesHoldMore (λ v. only_at w (Ready leg ∷ []) v
            ++ lane_at leg.number to v) self.old.queues self.new.queues) }
        ensures progress { OnOk result (progress_in self.new.progress
            ≡ progress_in self.old.progress) }
        ensures journal { OnOk result (journal_of self.new.progress
            ≡ journal_of self.old.progress) }
    {
        let number = leg.number;
        self.queues.push(w, PendingLeg::Ready(leg))?;
        self.hold_place(to, number)
    }

    /// Records that input `number` has no leg and is dropped at time `now`, in ns, for `cause`.
    fn note_dropped(&mut self, number: u64, now: u64, cause: Cause) -> Result<(), ImpossibleAnswer>
        ensures same { self.new.queues ≡ self.old.queues }
        ensures noted { OnOk result (ProgressIsWritten number
            (progress_refused (P.tells NoPassage) now cause)
            self.old.progress self.new.progress) }
    {
        self.progress
            .write(number, InputProgress::refused(now, cause))?;
        Ok(())
    }

    /// Reads input `number` at time `now`, in ns, and queues its first leg. Returns the leg's
    /// worker, or `None` if the input has no leg because its packet is dropped.
    #[inline(always)]
    pub(super) fn admit(
        &mut self,
        config: &Config,
        number: u64,
        now: u64,
        input: Input,
    ) -> Result<Option<u32>, RunFault>
        requires keeps { RulesInvariant config.now }
        requires sized { length self.old.queues ≡ length config.now.pool }
        requires room { held_count self.old.queues + 2 ≤ 65536 }
        requires open { IsUnmarked number self.old.progress }
        ensures many { length self.new.queues ≡ length self.old.queues }
        ensures place { IfOk result (λ place. IfSome place (λ w. w < length config.now.pool)) }
        ensures journal { OnOk result (journal_of self.new.progress
            ≡ journal_of self.old.progress) }
        ensures admits { OnOk result
            (Admits P.tells config.now number now input self.old self.new) }
        ensures fault { (open_gate : Bool) → IfErr result (IsDispatchFault open_gate) }
    {
        right_answers();
        places_stand_for_legs();
        let side = input.side;
        match read_and_route(config, side, input.bytes) {
            Ok((place, packet)) => {
                let to = second_place(config, side, &packet);
                let leg = Leg {
                    number,
                    now,
                    way: way_from(side),
                    packet,
                };
                self.hold_first(place, leg, to)?;
                Ok(Some(place))
            }
            Err(cause) => {
                self.note_dropped(number, now, cause)?;
                Ok(None)
            }
        }
    }
}

/// Returns the pool index of the address at which a packet of this side may have its second leg.
#[inline(always)]
fn second_place(config: &Config, side: Side, packet: &Packet) -> Option<u32>
    ensures some { IfSome result (λ place. (side ≡ InsideSide)
        × (pool_place config.now (destination packet.now).address ≡ Some place)) }
    ensures none { result ≡ None → side ≡ InsideSide →
        pool_place config.now (destination packet.now).address ≡ None }
    ensures reads { IsPacket packet.now }
{
    // Only the contract of this call is used: a `Packet` is always valid.
    let _bytes = packet.bytes();
    match side {
        Side::Outside => None,
        Side::Inside => onward(config, packet),
    }
}

/// Reads a packet that arrived from `side`. Returns the pool index of the external address that
/// serves it, and the packet, or the cause for which it is dropped.
#[inline(always)]
fn read_and_route(config: &Config, side: Side, bytes: Vec<u8>) -> Result<(u32, Packet), Cause>
    requires keeps { RulesInvariant config.now }
    ensures admitted { IfOk result (λ first.
        (admission_as config.now side (reading side bytes.items)
        ≡ Ok first.1) × (slice_get config.now.pool first.0
        ≡ Some (served_at config.now (way_from side) first.1))) }
    ensures refused { IfErr result (λ cause. admission_as config.now side (reading side bytes.items)
        ≡ Err cause) }
{
    match Packet::read(side, bytes) {
        Ok(packet) => match route(config, side, &packet) {
            Ok(place) => Ok((place, packet)),
            Err(cause) => Err(cause),
        },
        Err((cause, _)) => Err(cause),
    }
}
