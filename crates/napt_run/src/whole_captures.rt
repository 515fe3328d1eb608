//! The run over inputs that are all in memory.
ghost use Rattle.std.specs.{Prelude.{◌≡◌, ◌-◌, ◌^◌, ◌<◌, [], All, IfErr, IfOk, OnOk}, Io.KnownBytes.Appends};
ghost use Rattle.napt_capture.specs.Text.{file_header};
ghost use Rattle.napt_dispatch.specs.Dispatch.{IsFaultUnder};
ghost use Rattle.napt_records.specs.{Counts.AreCountsOf, Output.IsTimely};
ghost use Rattle.napt_run.specs.{Origins.origin_of, Streams.capture_text, WholeCaptures.{IsTallyOf, WritesAll}};

use crate::logged_outcome_writer::LoggedOutcomeWriter;
use crate::outcome_writer::OutcomeWriter;
use crate::output::Output;
use crate::start::RunSetting;
use crate::stream_log::NoLog;
use napt_capture::Sink;
use napt_dispatch::{PassFault, RunSummary};
use napt_pool::Gate;
use napt_records::{OutcomeCounts, RecordMerger};
use napt_sequential::RunFault;
use napt_wire::Side;
use std::sync::Wait;
use std::thread::Threads;

/// The data of a run's report, except which captures were cut, and of the state at its end.
#[derive(Drop)]
pub(crate) struct ReportTally {
    pub(crate) counts: OutcomeCounts,
    pub(crate) summary: RunSummary,
}

impl<T: Threads + Wait + Copy + Send + 'static, G: Gate + Send + Sync + Drop + 'static> RunSetting<
    '_,
    '_,
    T,
    G,
> {
    /// Runs over the inputs, and writes both captures. If an output fails, the fault is `Memory`.
    pub(crate) fn run_into<W: Sink, V: Sink>(
        self,
        inputs: RecordMerger,
        to_outside: &mut W,
        to_inside: &mut V,
    ) -> Result<ReportTally, RunFault>
        requires timely { All IsTimely inputs }
        ensures to_outside { OnOk result (Appends (W.contents to_outside.old)
            (W.contents to_outside.new) (capture_text (origin_of self.entry.start) Side.Outside
            inputs)) }
        ensures to_inside { OnOk result (Appends (V.contents to_inside.old)
            (V.contents to_inside.new) (capture_text (origin_of self.entry.start) Side.Inside
            inputs)) }
        ensures tally { IfOk result (IsTallyOf (origin_of self.entry.start) inputs) }
        ensures fault { IfErr result (IsFaultUnder G.is_open) }
    {
        let ours = Output::over(to_outside);
        let theirs = Output::over(to_inside);
        let leaving = OutcomeWriter::into(ours, theirs);
        let mut none = NoLog;
        let mut both = LoggedOutcomeWriter::over(leaving, &mut none);
        let told = self.write_all(inputs, &mut both);
        let LoggedOutcomeWriter { leaving, log } = both;
        let _log = log;
        let OutcomeWriter {
            to_outside: ours,
            to_inside: theirs,
            counts: _,
        } = leaving;
        let _inside = theirs.device;
        let _outside = ours.device;
        told
    }

    /// Writes the headers of both captures, and runs over the inputs.
    fn write_all<W: Sink, V: Sink>(
        self,
        inputs: RecordMerger,
        both: &mut LoggedOutcomeWriter<'_, '_, '_, W, V, NoLog>,
    ) -> Result<ReportTally, RunFault>
        requires timely { All IsTimely inputs }
        requires counts { AreCountsOf [] both.old.leaving.counts }
        ensures ok { IfOk result
            (WritesAll file_header (origin_of self.entry.start) inputs both.old.leaving
            both.new.leaving) }
        ensures fault { IfErr result (IsFaultUnder G.is_open) }
    {
        match both.leaving.begin() {
            Ok(()) => self.pass_all(inputs, both),
            Err(_) => Err(RunFault::Memory),
        }
    }

    /// Runs over the inputs.
    fn pass_all<W: Sink, V: Sink>(
        self,
        mut inputs: RecordMerger,
        both: &mut LoggedOutcomeWriter<'_, '_, '_, W, V, NoLog>,
    ) -> Result<ReportTally, RunFault>
        requires timely { All IsTimely inputs }
        requires counts { AreCountsOf [] both.old.leaving.counts }
        ensures ok { IfOk result
            (WritesAll [] (origin_of self.entry.start) inputs both.old.leaving both.new.leaving) }
        ensures fault { IfErr result (IsFaultUnder G.is_open) }
    {
        match self.run_all(&mut inputs, both) {
            Ok(summary) => Ok(ReportTally {
                counts: both.leaving.counts,
                summary,
            }),
            Err(PassFault::Run(fault)) => Err(fault),
            Err(PassFault::Arrival(none)) => match none {},
            Err(PassFault::Departure(_)) => Err(RunFault::Memory),
        }
    }
}
