//! The captures that a run writes while packets come.
ghost use Rattle.std.specs.Prelude.{◌≡◌, ◌^◌, ◌<◌, length};
ghost use Rattle.napt_run.specs.OutcomeWriters.{result_of_output};

use crate::output::Output;
use napt_capture::{Sink, WriteFault};
use napt_records::{Fault, OutcomeCounts, Which};
use napt_rules::Outcome;
use napt_wire::Packet;

/// The captures that a run writes while packets come, and the counts for its report.
#[derive(Drop)]
pub(crate) struct OutcomeWriter<'a, 'b, W: Sink, V: Sink> {
    pub(crate) to_outside: Output<'a, W>,
    pub(crate) to_inside: Output<'b, V>,
    pub(crate) counts: OutcomeCounts,
}

/// Returns an output's answer, and adds the output's name to a fault.
fn result_of_output(which: Which, answer: Result<(), WriteFault>) -> Result<(), Fault>
    ensures { result ≡ result_of_output which answer }
{
    match answer {
        Ok(()) => Ok(()),
        Err(fault) => Err(Fault::Write(which, fault)),
    }
}

/// Returns the bytes of a packet, which are fewer than 65,536.
fn bytes_of(packet: &Packet) -> &[u8]
    ensures value { result.now ≡ packet.now }
    ensures short { length result.now < 2 ^ 16 }
{
    let bytes = packet.bytes();
    bytes
}

/// Returns the vector of an outcome's packet, to be reused once the packet is written.
pub(crate) fn vector_of(outcome: Outcome) -> Option<Vec<u8>> {
    match outcome {
        Outcome::ToOutside(packet) | Outcome::ToInside(packet) => Some(packet.into_bytes()),
        Outcome::Dropped(_) => None,
    }
}

impl<'a, 'b, W: Sink, V: Sink> OutcomeWriter<'a, 'b, W, V> {
    ghost use Rattle.std.specs.Prelude.{◌∷◌, [], IfErr, MatchResult, OnOk};
    ghost use Rattle.napt_records.specs.Counts.{AreCountsOf};
    ghost use Rattle.napt_run.specs.OutcomeWriters.{AreOutputsSound, IsOfOutput, SinkBegins, SinkFails, FailsToBegin, IsSettled, SinkTakes};

    /// Returns both captures over these outputs, before anything is written.
    pub(crate) fn into(
        to_outside: Output<'a, W>,
        to_inside: Output<'b, V>,
    ) -> OutcomeWriter<'a, 'b, W, V>
        ensures to_outside { result.to_outside ≡ to_outside.entry }
        ensures to_inside { result.to_inside ≡ to_inside.entry }
        ensures counts { AreCountsOf [] result.counts }
    {
        OutcomeWriter {
            to_outside,
            to_inside,
            counts: OutcomeCounts::new(),
        }
    }

    /// Writes and flushes the headers, so that a reader finds captures without packets.
    pub(crate) fn begin(&mut self) -> Result<(), Fault>
        ensures ok { OnOk result (SinkBegins self.old self.new) }
        ensures settled { OnOk result (IsSettled self.new) }
        ensures err { AreOutputsSound self.old →
            IfErr result (λ fault. FailsToBegin self.old fault self.new) }
    {
        if let Err(fault) = self.to_outside.start() {
            return Err(Fault::Write(Which::Outside, fault));
        }
        match self.to_inside.start() {
            Ok(()) => Ok(()),
            Err(fault) => Err(Fault::Write(Which::Inside, fault)),
        }
    }

    /// Counts the outcome of an input, and writes the record of its packet, if any, at its time in
    /// ns.
    #[inline(always)]
    pub(crate) fn write(&mut self, time: u64, outcome: &Outcome) -> Result<(), Fault>
        ensures of_output { IfErr result IsOfOutput }
        ensures takes { MatchResult result
            (λ _. SinkTakes self.old ((time, outcome.now) ∷ []) self.new)
            (λ fault. SinkFails self.old ((time, outcome.now) ∷ []) fault self.new) }
    {
        self.counts.count(outcome);
        match outcome {
            Outcome::ToOutside(packet) => {
                result_of_output(
                    Which::Outside,
                    self.to_outside.write_record(time, bytes_of(packet)),
                )
            }
            Outcome::ToInside(packet) => {
                result_of_output(
                    Which::Inside,
                    self.to_inside.write_record(time, bytes_of(packet)),
                )
            }
            Outcome::Dropped(_) => Ok(()),
        }
    }

    /// Flushes both captures.
    pub(crate) fn settle(&mut self) -> Result<(), Fault>
        ensures of_output { IfErr result IsOfOutput }
        ensures takes { MatchResult result (λ _. SinkTakes self.old [] self.new × IsSettled self.new)
            (λ fault. SinkFails self.old [] fault self.new) }
    {
        match self.to_outside.flush() {
            Ok(()) => result_of_output(Which::Inside, self.to_inside.flush()),
            Err(fault) => Err(Fault::Write(Which::Outside, fault)),
        }
    }
}
