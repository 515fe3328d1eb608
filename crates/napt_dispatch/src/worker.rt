//! The translator of one external address, as the machine of a worker.

ghost use Rattle.std.specs.Prelude.{◌≡◌, IfOk};
ghost use Rattle.napt_dispatch.specs.Dispatch.{rows_after};

use napt_pool::Machine;
use napt_sequential::{LegTrace, TracedAnswer};
use napt_table::Row;
use napt_translate::{Leg, Translator};
use std::alloc::{AllocError, Global};
use std::marker::{Model, PhantomData};

/// A machine that answers legs with a translator. Contracts see the state of the translator.
#[derive(Drop)]
pub struct Worker<P> {
    pub translator: Translator,
    /// The type of the worker's records of its legs.
    pub trace: PhantomData<P>,
}

impl<P> Model for Worker<P> {
    ghost use Rattle.napt_translate.specs.Translators.{TranslatorModel};

    ghost Value = { TranslatorModel };

    ghost view = { λ worker. worker.translator };
}

impl<P: LegTrace> Worker<P> {
    /// Returns the bindings that are live at `now`, in ns.
    pub(crate) fn bindings(&self, alloc: Global, now: u64) -> Result<Vec<Row>, AllocError>
        ensures { IfOk result (λ made. made.items ≡ rows_after now self.now) }
    {
        self.translator.bindings(alloc, now)
    }

    /// Returns the translator.
    pub(crate) fn into_translator(self) -> Translator
        ensures { result ≡ self }
    {
        self.translator
    }
}

impl<P: LegTrace> Machine for Worker<P> {
    ghost use Rattle.napt_sequential.specs.CountedTranslators.{traced_answer};
    ghost use Rattle.napt_translate.specs.Translators.{translator_after};

    type Item = Leg;

    type Answer = TracedAnswer<P>;

    ghost stepped = { λ state leg. translator_after leg state };

    ghost reply = { λ state leg. traced_answer P.tells leg state };

    fn step(&mut self, alloc: Global, leg: Leg) -> Result<TracedAnswer<P>, AllocError> {
        P::translate_traced(alloc, &mut self.translator, leg)
    }

    fn size(&self) -> u64 {
        self.translator.size()
    }
}
