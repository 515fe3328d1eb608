//! The captures that a run reads.
ghost use Rattle.std.specs.Prelude.{◌≡◌, ◌+◌, List, Option, ℕ, IfErr, IfOk};
ghost use Rattle.napt_run.specs.{Captures.failed_readings, OutcomeWriters.{IsNewOutcomeWriter, IsSettled, SinkBegins}, Origins.origin_of, Posts.RunsTo, LoggedOutcomeWriters.IsSameSinkPlace, LogRuns.LogsTo, declared.outcome_writer.OutcomeWriter.OutcomeWriter as KnownLeaving};
ghost use Rattle.napt_run.specs.Streams.{HasRead, IsAfterHeader, IsHeaderFault, IsOfRun};

use crate::capture_run::ReportData;
use crate::logged_outcome_writer::LoggedOutcomeWriter;
use crate::start::RunSetting;
use crate::stream_log::StreamLog;
use napt_capture::{RecordReader, Sink, Source};
use napt_pool::Gate;
use napt_records::{Fault, RecordStream, StreamMerger};
use napt_wire::Side;
use std::alloc::Global;
use std::sync::Wait;
use std::thread::Threads;

/// Both captures, after their headers.
#[derive(Drop)]
struct BothReaders {
    inside: RecordReader,
    outside: RecordReader,
}

impl<T: Threads + Wait + Copy + Send + 'static, G: Gate + Send + Sync + Drop + 'static> RunSetting<
    '_,
    '_,
    T,
    G,
> {
    /// Reads the headers of the captures, and runs over them.
    pub(crate) fn run_over<R: Source, Q: Source, W: Sink, V: Sink, K: StreamLog>(
        self,
        inside: &mut R,
        outside: &mut Q,
        both: &mut LoggedOutcomeWriter<'_, '_, '_, W, V, K>,
    ) -> Result<ReportData, Fault>
        requires log { K.is_settled both.old.log.now }
        ensures runs { (begun : KnownLeaving W V W.Sink V.Sink) →
            IsNewOutcomeWriter begun → SinkBegins begun both.old.leaving →
            IsSettled both.old.leaving → RunsTo (origin_of self.entry.start) (R.remaining inside.old)
            (Q.remaining outside.old) begun both.new.leaving result }
        ensures readings { (¬ IsOfRun result) → HasRead R.failed Q.failed
            inside.old inside.new outside.old outside.new result }
        ensures logs { LogsTo K.Told.tells (origin_of self.entry.start) K.enters K.fails
            K.is_settled (R.remaining inside.old) (Q.remaining outside.old) both.old.log.now
            both.new.log.now G.is_open result }
        ensures same { IsSameSinkPlace both.old both.new }
    {
        let ours = read_header(self.alloc, Side::Inside, inside)?;
        let theirs = read_header(self.alloc, Side::Outside, outside)?;
        let records = BothReaders {
            inside: ours,
            outside: theirs,
        };
        self.run_after_headers(inside, outside, records, both)
    }

    /// Runs over the captures, past their headers.
    fn run_after_headers<R: Source, Q: Source, W: Sink, V: Sink, K: StreamLog>(
        self,
        inside: &mut R,
        outside: &mut Q,
        records: BothReaders,
        both: &mut LoggedOutcomeWriter<'_, '_, '_, W, V, K>,
    ) -> Result<ReportData, Fault>
        ensures runs { (bytes others : Option (List ℕ)) (begun : KnownLeaving W V W.Sink V.Sink) →
            IsAfterHeader R.Source records.inside bytes inside.old →
            IsAfterHeader Q.Source records.outside others outside.old → IsNewOutcomeWriter begun →
            SinkBegins begun both.old.leaving →
            RunsTo (origin_of self.entry.start) bytes others begun both.new.leaving result }
        ensures readings { (¬ IsOfRun result) → HasRead R.failed Q.failed
            inside.old inside.new outside.old outside.new result }
        ensures logs { (bytes others : Option (List ℕ)) →
            IsAfterHeader R.Source records.inside bytes inside.old →
            IsAfterHeader Q.Source records.outside others outside.old →
            LogsTo K.Told.tells (origin_of self.entry.start) K.enters K.fails K.is_settled bytes
            others both.old.log.now both.new.log.now G.is_open result }
        ensures same { IsSameSinkPlace both.old both.new }
    {
        let ours = RecordStream::new(inside, records.inside);
        let theirs = RecordStream::new(outside, records.outside);
        let mut inputs = StreamMerger::new(self.alloc, ours, theirs);
        let passed = self.pass(&mut inputs, both);
        let (ours, theirs) = inputs.into_streams();
        let _outside = theirs.into_source();
        let _inside = ours.into_source();
        passed
    }
}

/// Reads the header of a side's capture.
fn read_header<R: Source>(alloc: Global, side: Side, source: &mut R) -> Result<RecordReader, Fault>
    ensures header { IfOk result (λ records.
        IsAfterHeader R.Source records (R.remaining source.old) source.new) }
    ensures fault { IfErr result (IsHeaderFault side (R.remaining source.old)
        (R.remaining source.new)) }
    ensures count { R.failed source.new ≡ R.failed source.old + failed_readings side result }
{
    match RecordReader::open(alloc, source) {
        Ok(records) => Ok(records),
        Err(fault) => Err(Fault::Capture(side, fault)),
    }
}
