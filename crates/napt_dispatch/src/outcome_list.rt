//! An outcome sink in memory.

ghost use Rattle.std.specs.Prelude.{◌≡◌, [], IfOk};

use crate::outcome_sink::{InputResult, OutcomeSink};
use napt_sequential::{NoTrace, Outcome};
use std::alloc::{AllocError, Global};

/// The outcomes of a run, one for each input, in input order.
#[derive(Drop)]
pub(crate) struct OutcomeList {
    pub(crate) outcomes: Vec<Outcome>,
}

impl OutcomeList {
    /// Returns an empty list with memory reserved for `inputs` outcomes.
    pub(crate) fn with_capacity(alloc: Global, inputs: usize) -> Result<OutcomeList, AllocError>
        ensures outcomes { IfOk result (λ none. none.outcomes.items ≡ []) }
    {
        Ok(OutcomeList {
            outcomes: Vec::with_capacity(alloc, inputs)?,
        })
    }
}

impl OutcomeSink for OutcomeList {
    ghost use Rattle.std.specs.Prelude.{⊤, ◌∷◌, ◌++◌, map, MatchResult};
    ghost use Rattle.std.proofs.{Common.{ap, sym, ◌∙◌, append-nil, append_assoc}, lemmas.List.map-append};
    ghost use Rattle.napt_dispatch.specs.OutcomeLists.{CollectsOutcomes, collected_outcome};

    type Fault = AllocError;

    type Trace = NoTrace;

    ghost takes = { CollectsOutcomes };

    ghost fails = { λ before pairs fault after. ⊤ };

    ghost is_settled = { λ collected. ⊤ };

    ghost takes_none = { λ x. sym (append-nil x.outcomes.items) };

    ghost takes_more = { λ x y z xs ys first second.
        second ∙ (ap (λ l. l ++ map collected_outcome ys) first
        ∙ (append_assoc x.outcomes.items (map collected_outcome xs) (map collected_outcome ys)
        ∙ ap (λ l. x.outcomes.items ++ l) (sym (map-append collected_outcome xs ys)))) };

    fn write(
        &mut self,
        _time: u64,
        departed: InputResult<NoTrace>,
    ) -> Result<Option<Vec<u8>>, AllocError>
        ensures { MatchResult result
            (λ _. CollectsOutcomes self.old ((_time, departed) ∷ []) self.new)
            (λ fault. ⊤) }
    {
        self.outcomes.push(departed.outcome)?;
        Ok(None)
    }

    fn settle(&mut self) -> Result<(), AllocError>
        ensures { MatchResult result (λ _. CollectsOutcomes self.old [] self.new × ⊤) (λ fault. ⊤) }
    {
        Ok(())
    }
}
