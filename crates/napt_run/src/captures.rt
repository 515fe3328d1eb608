//! A run over captures: reads both, runs in memory, and only then writes.
ghost use Rattle.std.specs.Prelude.{◌≡◌, ◌↔◌, ◌+◌, length, All, OnOk, IfOk, IfErr, Err, true, false};
ghost use Rattle.napt_capture.specs.Text.{IsWritable};
ghost use Rattle.napt_rules.specs.Prelude.{TakesState};
ghost use Rattle.napt_run.specs.Captures.{Answers, AreOutputs, AreTooMany, Explains, GetsFrom, IfKnown, IsReadFrom, CaptureIsUnread, IsWriteFaultOf, OutputIsLeft, OutputReceives, failed_readings, failed_writings, output_to, share_of, texts_from};
ghost use Rattle.napt_run.specs.{Origins.origin_of, Streams.stream_ended, WholePosts.{AnswerPost, WholeEndPost, WholeFaultPost, WholeOutputsPost, WholeReadsPost}};
ghost use Rattle.napt_sequential.specs.Faults.{is_run_gate_fault};
ghost use Rattle.napt_records.specs.Faults.{is_shut_gate_fault};

use crate::buffered_text::BufferedText;
use crate::devices::Devices;
use crate::run_end::RunEnd;
use crate::start::{RunSetting, Start};
use crate::stream_log::NoLog;
use crate::whole_captures::ReportTally;
use napt_account::OpenLog;
use napt_capture::{Capture, Sink, Source, Watched, read_capture, write_text};
use napt_dispatch::RunSummary;
use napt_pool::Gate;
use napt_records::{Fault, RecordMerger, Which, report_of};
use napt_sequential::{MOST_INPUTS, RunFault};
use napt_wire::Side;
use std::alloc::Global;
use std::sync::{Arc, Wait};
use std::thread::Threads;

/// The captures of both sides.
#[derive(Drop)]
struct CaptureFiles {
    inside: Capture,
    outside: Capture,
}

/// The outputs of a run, and the data from which the state at its end is made.
#[derive(Drop)]
struct CaptureOutputs {
    to_outside: BufferedText,
    to_inside: BufferedText,
    report: String,
    summary: RunSummary,
}

/// Reads the capture of a side.
#[tactic(auto, using(crate::proofs::DeviceClauses::read_known, crate::proofs::DeviceClauses::unread, crate::proofs::DeviceClauses::own_readings))]
fn read_side<R: Source>(alloc: Global, side: Side, source: &mut R) -> Result<Capture, Fault>
    ensures ok { IfOk result (IsReadFrom (R.remaining source.old)) }
    ensures err { IfErr result (CaptureIsUnread side (R.remaining source.old)) }
    ensures writable { IfOk result (λ capture. All IsWritable capture.records) }
    ensures count { R.failed source.new ≡ R.failed source.old + failed_readings side result }
{
    match read_capture(alloc, source) {
        Ok(capture) => Ok(capture),
        Err(fault) => Err(Fault::Capture(side, fault)),
    }
}

impl CaptureFiles {
    /// Returns the number of records in both captures.
    fn count(&self) -> usize
        ensures { result ≡ length self.now.inside.records + length self.now.outside.records }
    {
        self.inside.records.len() + self.outside.records.len()
    }

    /// Returns whether there are more records than a run can count.
    fn are_too_many(&self) -> bool
        ensures { (result ≡ true) ↔ AreTooMany self.now }
    {
        self.count() > MOST_INPUTS
    }
}

/// Runs over the captures, and makes all outputs in memory.
fn make_outputs<T: Threads + Wait + Copy + Send + 'static, G: Gate + Send + Sync + Drop + 'static>(
    setting: RunSetting<'_, '_, T, G>,
    captures: CaptureFiles,
) -> Result<CaptureOutputs, RunFault>
    requires inside { All IsWritable captures.inside.records }
    requires outside { All IsWritable captures.outside.records }
    ensures ok { IfOk result (AreOutputs (origin_of setting.entry.start) captures) }
    ensures too_many { (result ≡ Err RunFault.TooMany) ↔ AreTooMany captures }
    ensures gate { G.is_open ≡ true → IfErr result (λ fault. is_run_gate_fault fault ≡ false) }
{
    if captures.are_too_many() {
        return Err(RunFault::TooMany);
    }
    let alloc = setting.alloc;
    let CaptureFiles { inside, outside } = captures;
    let inputs = RecordMerger::new(inside.records, outside.records);
    let mut to_outside = Watched::new(BufferedText::new(alloc)?);
    let mut to_inside = Watched::new(BufferedText::new(alloc)?);
    let ReportTally { counts, summary } = setting.run_into(
        inputs,
        &mut to_outside,
        &mut to_inside,
    )?;
    let report = report_of(alloc, &counts, &summary.bindings, inside.cut, outside.cut)?;
    Ok(CaptureOutputs {
        to_outside: to_outside.into_inner(),
        to_inside: to_inside.into_inner(),
        report,
        summary,
    })
}

/// Returns the name of the output that goes to a side.
fn output_to(side: Side) -> Which
    ensures { result ≡ output_to side }
{
    match side {
        Side::Inside => Which::Inside,
        Side::Outside => Which::Outside,
    }
}

/// Writes the capture that goes to a side, and flushes it.
fn write_side<W: Sink>(side: Side, kept: &BufferedText, output: &mut W) -> Result<(), Fault>
    ensures bytes { OutputReceives (share_of (output_to side) result) kept.now
        (W.contents output.old) (W.contents output.new) }
    ensures flushed { OnOk result (W.is_flushed output.new) }
    ensures fault { IfErr result (IsWriteFaultOf (output_to side)) }
    ensures count { W.failed output.new
        ≡ W.failed output.old + failed_writings (output_to side) result }
{
    match kept.write_to(output) {
        Ok(()) => Ok(()),
        Err(fault) => Err(Fault::Write(output_to(side), fault)),
    }
}

/// Writes the report, and flushes it.
fn write_report<W: Sink>(output: &mut W, report: &str) -> Result<(), Fault>
    ensures bytes { OutputReceives (share_of Which.Report result) report.now
        (W.contents output.old) (W.contents output.new) }
    ensures flushed { OnOk result (W.is_flushed output.new) }
    ensures fault { IfErr result (IsWriteFaultOf Which.Report) }
    ensures count { W.failed output.new ≡ W.failed output.old
        + failed_writings Which.Report result }
{
    match write_text(output, report.as_bytes()) {
        Ok(()) => Ok(()),
        Err(fault) => Err(Fault::Write(Which::Report, fault)),
    }
}

/// Translates both captures from a start, and writes the packets that leave to each side, and a
/// report. The written bytes are exactly those that a run on one thread would write, whatever the
/// gate, the ring size or the schedule. Returns the end of the run, from which the next run
/// continues.
///
/// It first reads both captures. Then it runs in memory, with one worker thread for each external
/// address; each worker asks the gate before each leg, and the gate only decides when the worker
/// continues. The workers are closed and joined before a fault of the run is returned. Finally it
/// writes the outputs, in this order: to the outside, to the inside, the report.
///
/// # Errors
///
/// `Fault::Capture` if that side's capture is malformed or could not be read, the inside first.
/// `Fault::Run` with `TooMany` if and only if the captures have more than 4,294,967,295 records, with
/// `Memory` if memory is refused, and with `Pool` if a worker could not be started or stopped early
/// (never `GateShut` under a gate that is always open). After these faults nothing has been written.
///
/// `Fault::Write` if writing that output, never the log, failed. The outputs before it are
/// complete, it contains the first `written` bytes of its text, and the outputs after it are
/// untouched.
pub fn run_captures<
    T: Threads + Wait + Copy + Send + 'static,
    R: Source,
    Q: Source,
    W: Sink,
    V: Sink,
    U: Sink,
    G: Gate + Send + Sync + Drop + 'static,
>(
    rt: &T,
    alloc: Global,
    start: Start<'_>,
    devices: &mut Devices<R, Q, W, V, U, NoLog>,
    gate: Arc<G>,
) -> Result<RunEnd, Fault>
    requires state { TakesState start.config.now start.state.now }
    ensures outputs { WholeOutputsPost R.Source Q.Source W.Sink V.Sink U.Sink
        (origin_of start.entry) devices.old (stream_ended result) devices.new }
    ensures answer { AnswerPost R.Source Q.Source (origin_of start.entry) devices.old (stream_ended result) }
    ensures end { IfOk result (WholeEndPost R.Source Q.Source (origin_of start.entry) devices.old) }
    ensures fault { IfErr result (WholeFaultPost R.Source Q.Source G.is_open devices.old) }
    ensures reads { WholeReadsPost R.Source Q.Source devices.old (stream_ended result) devices.new }
{
    let summary = run_whole(
        rt,
        alloc,
        start,
        &mut devices.inside,
        &mut devices.outside,
        &mut devices.to_outside,
        &mut devices.to_inside,
        &mut devices.report,
        gate,
    )?;
    Ok(RunEnd {
        summary,
        log: OpenLog::none(alloc),
    })
}

/// Runs as `run_captures` does, over the devices one by one.
fn run_whole<
    T: Threads + Wait + Copy + Send + 'static,
    R: Source,
    Q: Source,
    W: Sink,
    V: Sink,
    U: Sink,
    G: Gate + Send + Sync + Drop + 'static,
>(
    rt: &T,
    alloc: Global,
    start: Start<'_>,
    inside: &mut R,
    outside: &mut Q,
    to_outside: &mut W,
    to_inside: &mut V,
    report: &mut U,
    gate: Arc<G>,
) -> Result<RunSummary, Fault>
    requires taken { TakesState start.config.now start.state.now }
    ensures to_outside { GetsFrom (origin_of start.entry) Which.Outside
        (share_of Which.Outside (stream_ended result)) (R.remaining inside.old)
        (Q.remaining outside.old)
        (W.contents to_outside.old) (W.contents to_outside.new) }
    ensures to_inside { GetsFrom (origin_of start.entry) Which.Inside
        (share_of Which.Inside (stream_ended result)) (R.remaining inside.old)
        (Q.remaining outside.old)
        (V.contents to_inside.old) (V.contents to_inside.new) }
    ensures report { GetsFrom (origin_of start.entry) Which.Report
        (share_of Which.Report (stream_ended result)) (R.remaining inside.old)
        (Q.remaining outside.old)
        (U.contents report.old) (U.contents report.new) }
    ensures left { IfOk result
        (OutputIsLeft (origin_of start.entry) (R.remaining inside.old) (Q.remaining outside.old)) }
    ensures answer { IfKnown (R.remaining inside.old) (Q.remaining outside.old)
        (λ bytes others. Answers (texts_from (origin_of start.entry) bytes others)
        (stream_ended result)) }
    ensures fault { IfErr result
        (Explains (R.remaining inside.old) (Q.remaining outside.old)) }
    ensures gate { G.is_open ≡ true → IfErr result (λ fault. is_shut_gate_fault fault ≡ false) }
    ensures inside_readings { R.failed inside.new
        ≡ R.failed inside.old + failed_readings Side.Inside result }
    ensures outside_readings { Q.failed outside.new
        ≡ Q.failed outside.old + failed_readings Side.Outside result }
    ensures outside_writings { W.failed to_outside.new
        ≡ W.failed to_outside.old + failed_writings Which.Outside (stream_ended result) }
    ensures inside_writings { V.failed to_inside.new
        ≡ V.failed to_inside.old + failed_writings Which.Inside (stream_ended result) }
    ensures report_writings { U.failed report.new
        ≡ U.failed report.old + failed_writings Which.Report (stream_ended result) }
    ensures outside_flushed { OnOk result (W.is_flushed to_outside.new) }
    ensures inside_flushed { OnOk result (V.is_flushed to_inside.new) }
    ensures report_flushed { OnOk result (U.is_flushed report.new) }
{
    let inside = read_side(alloc, Side::Inside, inside)?;
    let outside = read_side(alloc, Side::Outside, outside)?;
    let captures = CaptureFiles { inside, outside };
    let setting = RunSetting {
        rt,
        alloc,
        start,
        gate,
    };
    let outputs = make_outputs(setting, captures)?;
    write_side(Side::Outside, &outputs.to_outside, to_outside)?;
    write_side(Side::Inside, &outputs.to_inside, to_inside)?;
    write_report(report, &outputs.report)?;
    Ok(outputs.summary)
}
