//! A run from devices to devices, headers included.
ghost use Rattle.std.specs.Prelude.{◌≡◌, IfErr, IfOk};
ghost use Rattle.napt_run.specs.{OutcomeWriters.IsNewOutcomeWriter, Origins.origin_of, Posts.{CapturePost, FaultPost, IsBeforeReport, RunsTo, SinkPost, capture_to, log_by}, LoggedOutcomeWriters.IsSameSinkPlace, LogRuns.LogsTo, Runs.IsToldOf};
ghost use Rattle.napt_run.specs.Streams.{HasRead, IsOfRun, stream_ended};

use crate::capture_run::ReportData;
use crate::logged_outcome_writer::LoggedOutcomeWriter;
use crate::outcome_writer::OutcomeWriter;
use crate::output::Output;
use crate::start::RunSetting;
use crate::stream_log::StreamLog;
use napt_account::OpenLog;
use napt_capture::{Sink, Source};
use napt_pool::Gate;
use napt_records::{Fault, Which};
use std::sync::Wait;
use std::thread::Threads;

impl<T: Threads + Wait + Copy + Send + 'static, G: Gate + Send + Sync + Drop + 'static> RunSetting<
    '_,
    '_,
    T,
    G,
> {
    /// Runs over the captures and writes both outputs, and the log if there is one. Returns the
    /// data of the report, and the accounts of the log that are saved.
    pub(crate) fn stream<R: Source, Q: Source, W: Sink, V: Sink, K: StreamLog>(
        self,
        inside: &mut R,
        outside: &mut Q,
        to_outside: &mut W,
        to_inside: &mut V,
        log: &mut K,
    ) -> Result<(ReportData, OpenLog), Fault>
        requires ready { K.is_ready (origin_of self.start) log.old }
        ensures to_outside { CapturePost W.Sink K.is_kept Which.Outside (origin_of self.entry.start)
            (R.remaining inside.old) (Q.remaining outside.old) (stream_ended result)
            to_outside.old to_outside.new }
        ensures to_inside { CapturePost V.Sink K.is_kept Which.Inside (origin_of self.entry.start)
            (R.remaining inside.old) (Q.remaining outside.old) (stream_ended result)
            to_inside.old to_inside.new }
        ensures log { K.post (origin_of self.entry.start) (R.remaining inside.old)
            (Q.remaining outside.old) (log_by result) log.old log.new }
        ensures told { IfOk result (λ told. IsToldOf (origin_of self.entry.start)
            (R.remaining inside.old) (Q.remaining outside.old) told.0) }
        ensures fault { IfErr result (FaultPost K.is_kept G.is_open (R.remaining inside.old)
            (Q.remaining outside.old)) }
        ensures unreported { IfErr result IsBeforeReport }
        ensures reads { (¬ IsOfRun (stream_ended result)) → HasRead R.failed Q.failed
            inside.old inside.new outside.old outside.new (stream_ended result) }
    {
        let alloc = self.alloc;
        log.open()?;
        match self.stream_opened(inside, outside, to_outside, to_inside, log) {
            Ok(totals) => {
                let left = log.close(alloc)?;
                Ok((totals, left))
            }
            Err(fault) => {
                log.flush_after(&fault);
                Err(fault)
            }
        }
    }

    /// Runs over the captures into both outputs and a log that is open.
    fn stream_opened<R: Source, Q: Source, W: Sink, V: Sink, K: StreamLog>(
        self,
        inside: &mut R,
        outside: &mut Q,
        to_outside: &mut W,
        to_inside: &mut V,
        log: &mut K,
    ) -> Result<ReportData, Fault>
        requires log { K.is_settled log.old }
        ensures to_outside { SinkPost W.Sink (capture_to Which.Outside (origin_of self.entry.start))
            Which.Outside (R.remaining inside.old) (Q.remaining outside.old) (stream_ended result)
            to_outside.old to_outside.new }
        ensures to_inside { SinkPost V.Sink (capture_to Which.Inside (origin_of self.entry.start))
            Which.Inside (R.remaining inside.old) (Q.remaining outside.old) (stream_ended result)
            to_inside.old to_inside.new }
        ensures told { IfOk result (IsToldOf (origin_of self.entry.start) (R.remaining inside.old)
            (Q.remaining outside.old)) }
        ensures readings { (¬ IsOfRun result) → HasRead R.failed Q.failed
            inside.old inside.new outside.old outside.new result }
        ensures logs { LogsTo K.Told.tells (origin_of self.entry.start) K.enters K.fails
            K.is_settled (R.remaining inside.old) (Q.remaining outside.old) log.old log.new G.is_open
            result }
    {
        let ours = Output::over(to_outside);
        let theirs = Output::over(to_inside);
        let leaving = OutcomeWriter::into(ours, theirs);
        let mut both = LoggedOutcomeWriter::over(leaving, log);
        let told = self.begin_and_run(inside, outside, &mut both);
        let LoggedOutcomeWriter { leaving, log } = both;
        let _log = log;
        let OutcomeWriter {
            to_outside: ours,
            to_inside: theirs,
            counts: _,
        } = leaving;
        let _inside = theirs.device;
        let _outside = ours.device;
        told
    }

    /// Writes the headers of the outputs, and runs over the captures.
    fn begin_and_run<R: Source, Q: Source, W: Sink, V: Sink, K: StreamLog>(
        self,
        inside: &mut R,
        outside: &mut Q,
        both: &mut LoggedOutcomeWriter<'_, '_, '_, W, V, K>,
    ) -> Result<ReportData, Fault>
        requires new { IsNewOutcomeWriter both.old.leaving }
        requires log { K.is_settled both.old.log.now }
        ensures runs { RunsTo (origin_of self.entry.start) (R.remaining inside.old)
            (Q.remaining outside.old) both.old.leaving both.new.leaving result }
        ensures readings { (¬ IsOfRun result) → HasRead R.failed Q.failed
            inside.old inside.new outside.old outside.new result }
        ensures logs { LogsTo K.Told.tells (origin_of self.entry.start) K.enters K.fails
            K.is_settled (R.remaining inside.old) (Q.remaining outside.old) both.old.log.now
            both.new.log.now G.is_open result }
        ensures same { IsSameSinkPlace both.old both.new }
    {
        both.leaving.begin()?;
        self.run_over(inside, outside, both)
    }
}
