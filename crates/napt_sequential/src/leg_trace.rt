//! The translation of a leg, with a record of its effect on the bindings.

ghost use Rattle.std.specs.Prelude.{◌≡◌, IfOk, OnOk, OnErr};
ghost use Rattle.napt_sequential.specs.{CountedTranslators.{traced_answer, passage_seen}, declared.passage.Passage.Passage as KnownPassage};
ghost use Rattle.napt_sequential.specs.declared.passage.Passage.TheVariants.{Nothing as NoPassage};
ghost use Rattle.napt_translate.specs.Translators.{translator_after};

use crate::passage::{DroppedPacket, PacketTuple, Passage, passage_through};
use napt_rules::{Answer, End, Leg};
use napt_translate::Translator;
use napt_wire::Way;
use std::alloc::{AllocError, Global};

/// The answer to a leg, and the record of the leg.
#[derive(Drop)]
pub struct TracedAnswer<P> {
    pub answer: Answer,
    pub passage: P,
}

/// The record of a leg in addition to its answer: its effect on the bindings, or nothing.
pub trait LegTrace: Copy + Drop + Send + 'static {
    // The record of a leg with this effect on the bindings.
    ghost tells: { KnownPassage → Self };

    /// Returns the record for a leg that does not exist.
    fn none() -> Self
        ensures { result ≡ tells NoPassage };

    /// Translates a leg, as `Translator::translate` does, and records it. If memory is refused, the
    /// translator is unchanged and the leg is lost.
    fn translate_traced(
        alloc: Global,
        translator: &mut Translator,
        leg: Leg,
    ) -> Result<TracedAnswer<Self>, AllocError>
        ensures trace { IfOk result (λ traced. traced ≡ traced_answer tells leg translator.old) }
        ensures left { OnOk result (translator.new ≡ translator_after leg translator.old) }
        ensures refused { OnErr result (translator.new ≡ translator.old) };
}

/// A record without content, which takes no memory.
#[derive(Clone, Copy, Drop)]
pub struct NoTrace;

impl LegTrace for NoTrace {
    ghost use Rattle.napt_sequential.specs.CountedTranslators.{no_trace};

    ghost tells = { λ passage. no_trace };

    fn none() -> NoTrace {
        NoTrace
    }

    fn translate_traced(
        alloc: Global,
        translator: &mut Translator,
        leg: Leg,
    ) -> Result<TracedAnswer<NoTrace>, AllocError> {
        let answer = translator.translate(alloc, leg)?;
        Ok(TracedAnswer {
            answer,
            passage: NoTrace,
        })
    }
}

/// The record of a leg is the binding that its packet used, as it was after the leg.
impl LegTrace for Passage {
    ghost tells = { λ passage. passage };

    fn none() -> Passage {
        Passage::Nothing
    }

    fn translate_traced(
        alloc: Global,
        translator: &mut Translator,
        leg: Leg,
    ) -> Result<TracedAnswer<Passage>, AllocError> {
        // Only the contract of this call is used: the rules of a translator are valid.
        translator.keep_rules();
        let now = leg.now;
        let seen = PacketTuple::from_packet(&leg.packet);
        let mut made = false;
        let answer = translator.translate_noting(alloc, leg, &mut made)?;
        let passage = passage(translator, now, seen, made, &answer.end);
        Ok(TracedAnswer { answer, passage })
    }
}

/// Returns the effect of a leg at `now` (ns), given its packet, whether it made a binding, its end.
fn passage(translator: &Translator, now: u64, seen: PacketTuple, made: bool, end: &End) -> Passage
    ensures { result ≡ passage_seen now seen made end.now translator.now }
{
    let Some(protocol) = seen.protocol else {
        return Passage::Nothing;
    };
    match end {
        End::ToOutside(packet) | End::Onward(_, packet) => {
            let number = packet.source().number;
            let row = translator.timed_by_inside(now, protocol, seen.source, number);
            passage_through(Way::Outgoing, made, row)
        }
        End::ToInside(_) => {
            let row = translator.timed_by_number(now, protocol, seen.destination.number);
            passage_through(Way::Incoming, made, row)
        }
        End::Dropped(cause) => Passage::Dropped(DroppedPacket {
            protocol,
            host: seen.source.address,
            cause: *cause,
        }),
    }
}
