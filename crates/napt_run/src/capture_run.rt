//! The run from arrivals to departures.
ghost use Rattle.std.specs.Prelude.{IfErr};
ghost use Rattle.napt_dispatch.specs.RunsThrough.{IsStoppedUnder};
ghost use Rattle.napt_records.specs.StreamMergers.{MergeEndsWith, HandsOutInputs};
ghost use Rattle.napt_run.specs.{LoggedOutcomeWriters.IsSameSinkPlace, Origins.origin_of, CaptureRuns.{EntersBy, EntersOr, PassesBy, PassesOr}};

use crate::logged_outcome_writer::LoggedOutcomeWriter;
use crate::start::{RunSetting, Start};
use crate::stream_log::StreamLog;
use napt_capture::{Sink, Source};
use napt_dispatch::{PassFault, RunSummary, run_through};
use napt_pool::Gate;
use napt_records::{CutFlags, Fault, OutcomeCounts, StreamMerger};
use napt_sequential::InputSource;
use std::sync::Wait;
use std::thread::Threads;

/// The data from which the report of a run is made.
#[derive(Drop)]
pub struct ReportData {
    pub(crate) counts: OutcomeCounts,
    pub(crate) summary: RunSummary,
    pub(crate) cuts: CutFlags,
}

impl<T: Threads + Wait + Copy + Send + 'static, G: Gate + Send + Sync + Drop + 'static> RunSetting<
    '_,
    '_,
    T,
    G,
> {
    /// Runs until the inputs end or something fails.
    pub(crate) fn run_all<A: InputSource, W: Sink, V: Sink, K: StreamLog>(
        self,
        inputs: &mut A,
        both: &mut LoggedOutcomeWriter<'_, '_, '_, W, V, K>,
    ) -> Result<RunSummary, PassFault<A::Fault, Fault>>
        ensures outputs { PassesBy (origin_of self.entry.start) A.hands A.ends inputs.old
            both.old.leaving inputs.new both.new.leaving result }
        ensures log { EntersBy K.Told.tells (origin_of self.entry.start) A.hands A.ends K.enters
            K.fails K.is_settled inputs.old both.old.log.now inputs.new both.new.log.now result }
        ensures same { IsSameSinkPlace both.old both.new }
        ensures stop { IfErr result (IsStoppedUnder G.is_open) }
    {
        let RunSetting {
            rt,
            alloc,
            start,
            gate,
        } = self;
        let Start { config, state } = start;
        run_through(rt, alloc, config, state, inputs, both, gate)
    }

    /// Runs until the captures end or something fails.
    pub(crate) fn pass<R: Source, Q: Source, W: Sink, V: Sink, K: StreamLog>(
        self,
        inputs: &mut StreamMerger<'_, '_, R, Q>,
        both: &mut LoggedOutcomeWriter<'_, '_, '_, W, V, K>,
    ) -> Result<ReportData, Fault>
        ensures outputs { PassesOr (origin_of self.entry.start) inputs.old both.old.leaving inputs.new
            both.new.leaving result }
        ensures log { EntersOr G.is_open K.Told.tells (origin_of self.entry.start) HandsOutInputs
            MergeEndsWith K.enters K.fails K.is_settled inputs.old both.old.log.now inputs.new
            both.new.log.now result }
        ensures same { IsSameSinkPlace both.old both.new }
    {
        match self.run_all(inputs, both) {
            Ok(summary) => Ok(ReportData {
                counts: both.leaving.counts,
                summary,
                cuts: inputs.cuts(),
            }),
            Err(PassFault::Run(fault)) => Err(Fault::Run(fault)),
            Err(PassFault::Arrival(stop)) => Err(Fault::Capture(stop.side, stop.fault)),
            Err(PassFault::Departure(fault)) => Err(fault),
        }
    }
}
