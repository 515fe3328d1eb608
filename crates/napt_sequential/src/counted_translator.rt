//! The translators of a run, each with the number of its legs.

ghost use Rattle.std.specs.Prelude.{◌≡◌, ◌-◌, ◌^◌, ◌<◌, max, IfOk, OnOk};

use crate::leg_trace::{LegTrace, TracedAnswer};
use crate::passage::Passage;
use napt_rules::{Leg, Row, StateBinding};
use napt_translate::Translator;
use std::alloc::{AllocError, Global};

/// A translator of one external address, and the number of legs that it has translated.
#[derive(Drop)]
pub(crate) struct CountedTranslator {
    pub(crate) translator: Translator,
    pub(crate) legs: u64,
}

impl CountedTranslator {
    ghost use Rattle.napt_sequential.specs.CountedTranslators.{traced_answer, counted_after, bindings_left_at, rows_at};
    ghost use Rattle.napt_rules.specs.Prelude.{AreBindingsLeft};

    /// Translates and counts a leg. Returns its answer and what the leg did to the bindings.
    pub(crate) fn translate(
        &mut self,
        alloc: Global,
        leg: Leg,
    ) -> Result<TracedAnswer<Passage>, AllocError>
        requires few { self.old.legs < 2 ^ 64 - 1 }
        ensures trace { IfOk result (λ traced. traced
            ≡ traced_answer (λ passage. passage) leg self.old.translator) }
        ensures left { OnOk result (self.new ≡ counted_after leg self.old) }
    {
        let traced = Passage::translate_traced(alloc, &mut self.translator, leg)?;
        self.legs += 1;
        Ok(traced)
    }

    /// Returns the bindings that are live at `now`, in ns.
    pub(crate) fn bindings(&self, alloc: Global, now: u64) -> Result<Vec<Row>, AllocError>
        ensures { IfOk result (λ made. made.items ≡ rows_at now self.now) }
    {
        self.translator.bindings(alloc, now)
    }

    /// Returns the bindings that are live or held at `now`, in ns, in the order of their rows.
    pub(crate) fn state_bindings(
        &self,
        alloc: Global,
        now: u64,
    ) -> Result<Vec<StateBinding>, AllocError>
        ensures { IfOk result (λ made. AreBindingsLeft self.now.translator.rules.timers
            (max now self.now.translator.table.at) (bindings_left_at now self.now) made.items) }
    {
        self.translator.state_bindings(alloc, now)
    }
}
