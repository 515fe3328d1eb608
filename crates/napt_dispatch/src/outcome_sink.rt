//! The sink to which the outcomes of a run are written.

ghost use Rattle.std.specs.Prelude.{◌≡◌, ◌∷◌, ◌++◌, [], ℕ, List, MatchResult};
ghost use Rattle.napt_dispatch.specs.declared.outcome_sink.InputResult.{InputResult as KnownDeparted};

use napt_sequential::{LegTrace, Outcome};

/// The result of one input.
#[derive(Drop)]
pub struct InputResult<P> {
    pub outcome: Outcome,
    /// The time of its legs, in ns.
    pub now: u64,
    /// The records of its first and of its second leg.
    pub first: P,
    pub second: P,
}

/// A sink that accepts the results of a run one at a time, in the order of the inputs.
pub trait OutcomeSink {
    /// The reason why a sink accepts no more outcomes.
    type Fault: Drop;

    /// The record of each leg that the workers make in addition to its answer.
    type Trace: LegTrace;

    // Between the two states, these results, each with its arrival time, were written in order.
    ghost takes: { Self → List (ℕ × KnownDeparted Self.Trace) → Self → Type 0 };

    // Between the two states, writing these results ended with this fault.
    ghost fails: { Self → List (ℕ × KnownDeparted Self.Trace) → Self.Fault → Self → Type 0 };

    // Every outcome written has reached its destination.
    ghost is_settled: { Self → Type 0 };

    /// Writes the result of the next input, which arrived at `time`, in ns. Returns the buffer of
    /// its packet for a later input, or `None` if the sink still needs it or there is no packet.
    fn write(
        &mut self,
        time: u64,
        departed: InputResult<Self::Trace>,
    ) -> Result<Option<Vec<u8>>, Self::Fault>
        ensures { MatchResult result (λ _. takes self.old ((time, departed) ∷ []) self.new)
            (λ fault. fails self.old ((time, departed) ∷ []) fault self.new) };

    /// Flushes the sink: every outcome written reaches its destination.
    fn settle(&mut self) -> Result<(), Self::Fault>
        ensures { MatchResult result (λ _. takes self.old [] self.new × is_settled self.new)
            (λ fault. fails self.old [] fault self.new) };

    ghost takes_none: { (x : Self) → takes x [] x };

    ghost takes_more: { (x y z : Self) (xs ys : List (ℕ × KnownDeparted Self.Trace)) →
        takes x xs y → takes y ys z → takes x (xs ++ ys) z };
}
