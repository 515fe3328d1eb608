//! The log of a run that streams.

ghost use Rattle.std.specs.Prelude.{◌≡◌, ◌++◌, [], ◌∷◌, ℕ, Bool, List, Option, Result, Ok, Err, IfErr, MatchResult, OnOk};
ghost use Rattle.napt_account.specs.Log.{LogModel};
ghost use Rattle.napt_records.specs.declared.{fault.Fault.Fault as KnownFault, stream_merger.CutFlags.CutFlags};
ghost use Rattle.napt_run.specs.{LogRuns.{EntersAll, IsLogFault, LogsTo}, Origins.OriginModel, Posts.{FaultPost, IsTextFault}, Streams.IsReportFault};

use napt_account::OpenLog;
use napt_records::Fault;
use napt_sequential::{LegTrace, NoTrace};
use std::alloc::Global;

/// Records the log of a run that streams, from the traces of the legs of each input as it leaves.
/// It is a [`LogWriter`](crate::LogWriter) or [`NoLog`].
pub trait StreamLog {
    /// The trace of a leg, as the log needs it.
    type Told: LegTrace;

    // This is true if there is a log.
    ghost is_kept: { Bool };

    // It is ready to record the log of a run from this origin.
    ghost is_ready: { OriginModel → Self → Type 0 };

    // It was opened between the two states.
    ghost opens: { Self → Self → Type 0 };

    // Entering these legs in the first state, in this order, leads to the second. An entry contains
    // the time of an input's legs and the traces of both.
    ghost enters: { Self → List (ℕ × Self.Told × Self.Told) → Self → Type 0 };

    // Entering these legs in the first state returns this fault, and leads to the second.
    ghost fails: { Self → List (ℕ × Self.Told × Self.Told) → KnownFault → Self → Type 0 };

    // All entered legs are at their destination.
    ghost is_settled: { Self → Type 0 };

    // A run over captures, whose bytes are known or not, leads from the first state to the second,
    // by its result, which contains the saved log.
    ghost post: { OriginModel → Option (List ℕ) → Option (List ℕ) → Result LogModel KnownFault → Self → Self → Type 0 };

    /// Writes and flushes the beginning of the log, before anything else is written.
    fn open(&mut self) -> Result<(), Fault>
        ensures ok { OnOk result (opens self.old self.new) }
        ensures settled { OnOk result (is_settled self.new) }
        ensures text { IfErr result (IsTextFault is_kept) }
        ensures err { (origin : OriginModel) (inside outside : Option (List ℕ)) → is_ready origin self.old →
            IfErr result (λ fault. post origin inside outside (Err fault) self.old self.new) };

    /// Records the next input, whose legs were at a time in ns.
    fn enter(&mut self, now: u64, first: Self::Told, second: Self::Told) -> Result<(), Fault>
        ensures of_log { IfErr result IsLogFault }
        ensures enters { MatchResult result
            (λ _. enters self.old ((now, first, second) ∷ []) self.new)
            (λ fault. fails self.old ((now, first, second) ∷ []) fault self.new) };

    /// Flushes the log, so that all that was recorded is at its destination.
    fn settle(&mut self) -> Result<(), Fault>
        ensures of_log { IfErr result IsLogFault }
        ensures settles { MatchResult result (λ _. enters self.old [] self.new × is_settled self.new)
            (λ fault. fails self.old [] fault self.new) };

    /// Ends the log after all inputs, and returns the accounts that are saved.
    fn close(&mut self, alloc: Global) -> Result<OpenLog, Fault>
        ensures text { IfErr result (IsTextFault is_kept) }
        ensures post { (origin : OriginModel) (inside outside : Option (List ℕ)) (start opened : Self)
            (cuts : CutFlags) → is_ready origin start → opens start opened →
            EntersAll Self.Told.tells origin enters fails is_settled inside outside opened self.old cuts →
            post origin inside outside result start self.new };

    /// Flushes the inputs that were recorded before a run failed, unless a call failed.
    fn flush_after(&mut self, fault: &Fault)
        ensures { (open_gate : Bool) (origin : OriginModel) (inside outside : Option (List ℕ))
            (start opened : Self) → is_ready origin start → opens start opened →
            LogsTo Self.Told.tells origin enters fails is_settled inside outside opened self.old open_gate
            (Err fault.now) → post origin inside outside (Err fault.now) start self.new
            × FaultPost is_kept open_gate inside outside fault.now };

    ghost enters_none: { (x : Self) → enters x [] x };

    ghost enters_more: { (x y z : Self) (xs ys : List (ℕ × Self.Told × Self.Told)) → enters x xs y →
        enters y ys z → enters x (xs ++ ys) z };

    ghost fails_more: { (x y z : Self) (xs ys : List (ℕ × Self.Told × Self.Told)) (fault : KnownFault) →
        enters x xs y → fails y ys fault z → fails x (xs ++ ys) fault z };

    // If the report fails at the end, the log is as after success.
    ghost unreported: { (origin : OriginModel) (inside outside : Option (List ℕ)) (log : LogModel) (fault : KnownFault)
        (old new : Self) → IsReportFault fault → post origin inside outside (Ok log) old new →
        post origin inside outside (Err fault) old new };
}

/// A log that is not recorded. It takes no memory and no time.
#[derive(Drop)]
pub struct NoLog;

impl StreamLog for NoLog {
    ghost use Rattle.std.specs.Prelude.{⊤, false};
    ghost use Rattle.napt_run.specs.Logs.{NoLogPost};

    type Told = NoTrace;

    ghost is_kept = { false };

    ghost is_ready = { λ origin it. ⊤ };

    ghost opens = { λ old new. ⊤ };

    ghost enters = { λ old all new. ⊤ };

    ghost fails = { λ old all fault new. ⊥ };

    ghost is_settled = { λ it. ⊤ };

    ghost post = { λ origin inside outside result old new. NoLogPost result };

    fn open(&mut self) -> Result<(), Fault> {
        Ok(())
    }

    #[inline(always)]
    fn enter(&mut self, _now: u64, _first: NoTrace, _second: NoTrace) -> Result<(), Fault> {
        Ok(())
    }

    fn settle(&mut self) -> Result<(), Fault> {
        Ok(())
    }

    fn close(&mut self, alloc: Global) -> Result<OpenLog, Fault> {
        Ok(OpenLog::none(alloc))
    }

    fn flush_after(&mut self, _fault: &Fault) {}

    ghost enters_none = { λ x. tt };

    ghost enters_more = { λ x y z xs ys one two. tt };

    ghost fails_more = { λ x y z xs ys fault one two. two };

    ghost unreported = { λ origin inside outside log fault old new report p. tt };
}
