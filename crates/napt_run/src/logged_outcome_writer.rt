//! The captures and the log that a run writes while packets come.

ghost use Rattle.std.specs.Prelude.{◌≡◌, [], ◌∷◌, MatchResult};

use crate::outcome_writer::{OutcomeWriter, vector_of};
use crate::stream_log::StreamLog;
use napt_capture::Sink;
use napt_dispatch::{InputResult, OutcomeSink};
use napt_records::Fault;

/// The captures and the log that a run writes while packets come. The legs of an input are recorded
/// in the log before its packet is written, and the log is flushed before the captures are.
#[derive(Drop)]
pub(crate) struct LoggedOutcomeWriter<'k, 'a, 'b, W: Sink, V: Sink, K> {
    pub(crate) leaving: OutcomeWriter<'a, 'b, W, V>,
    pub(crate) log: &'k mut K,
}

impl<'k, 'a, 'b, W: Sink, V: Sink, K> LoggedOutcomeWriter<'k, 'a, 'b, W, V, K> {
    /// Returns the captures and the log of a run, before anything is written.
    pub(crate) fn over(
        leaving: OutcomeWriter<'a, 'b, W, V>,
        log: &'k mut K,
    ) -> LoggedOutcomeWriter<'k, 'a, 'b, W, V, K>
        ensures leaving { result.leaving ≡ leaving.entry }
        ensures log_name { result.log.ghost_name ≡ log.entry.ghost_name }
        ensures log { result.log.now ≡ log.old }
    {
        LoggedOutcomeWriter { leaving, log }
    }
}

impl<W: Sink, V: Sink, K: StreamLog> OutcomeSink for LoggedOutcomeWriter<'_, '_, '_, W, V, K> {
    ghost use Rattle.napt_run.specs.LoggedOutcomeWriters.{AreSettled, FailsEither, TakesBoth, both_none, both_more};

    type Fault = Fault;

    type Trace = K::Told;

    ghost takes = { λ x all y. TakesBoth K.enters x all y };

    ghost fails = { λ x all fault y. FailsEither K.enters K.fails x all fault y };

    ghost is_settled = { λ x. AreSettled K.is_settled x };

    #[inline(always)]
    fn write(&mut self, time: u64, departed: InputResult<K::Told>) -> Result<Option<Vec<u8>>, Fault>
        ensures { MatchResult result
            (λ _. TakesBoth K.enters self.old ((time, departed) ∷ []) self.new)
            (λ fault. FailsEither K.enters K.fails self.old ((time, departed) ∷ []) fault self.new) }
    {
        let InputResult {
            outcome,
            now,
            first,
            second,
        } = departed;
        self.log.enter(now, first, second)?;
        self.leaving.write(time, &outcome)?;
        Ok(vector_of(outcome))
    }

    fn settle(&mut self) -> Result<(), Fault>
        ensures { MatchResult result
            (λ _. TakesBoth K.enters self.old [] self.new × AreSettled K.is_settled self.new)
            (λ fault. FailsEither K.enters K.fails self.old [] fault self.new) }
    {
        self.log.settle()?;
        self.leaving.settle()
    }

    ghost takes_none = { λ x. both_none K.enters K.enters_none x };

    ghost takes_more = { λ x y z first second one two. both_more K.enters K.enters_more x y z first second one two };
}
