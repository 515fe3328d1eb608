//! A run over captures as they arrive.
ghost use Rattle.std.specs.Prelude.{IfErr, IfOk};
ghost use Rattle.napt_rules.specs.Prelude.{TakesState};
ghost use Rattle.napt_run.specs.{DevicesPosts.{EndPost, ExplainedBy, OutputsPost, ReadsPost}, Origins.origin_of, Posts.log_of_end, Streams.stream_ended};

use crate::devices::Devices;
use crate::report_output::write_report;
use crate::run_end::RunEnd;
use crate::start::{RunSetting, Start};
use crate::stream_log::StreamLog;
use napt_capture::{Sink, Source};
use napt_pool::Gate;
use napt_records::Fault;
use std::alloc::Global;
use std::sync::{Arc, Wait};
use std::thread::Threads;

/// Translates both captures from a start, as the packets arrive: each is read, translated and
/// written before a device is asked for more. Writes the packets that leave to each side, the log
/// of the run if its devices have a [`LogWriter`](crate::LogWriter), and a report at the end.
/// Returns the end of the run, from which the next run continues.
///
/// Memory is bounded by the bindings, the 131,072 packets that may be in flight, and 16,384 buffers
/// for reuse. An expired binding stays in memory until a new one is made at its address. Captures
/// may be of any length.
///
/// The header of each output capture is written before anything is read. Merging needs the next
/// record of both sides; a record without bytes lets time pass on its side. Before a device is
/// asked for more bytes, every packet read so far has been answered, written and flushed. If the
/// run succeeds, each output contains exactly the bytes that `run_captures` writes.
///
/// # Errors
///
/// After an error, each output contains a part of its text, as said here and by `OutputPost`. The
/// workers are closed and joined before any fault is returned.
///
/// `Fault::Capture` if that side's capture is malformed or could not be read, once merging needs
/// the record at fault. The packets before it are written and flushed, and there is no report.
///
/// `Fault::Write` if writing that output failed. The output contains the first `written` bytes of
/// its text; this number saturates. If the output is a capture, the other capture contains the text
/// of some first packets. If it is the report, both captures are complete. If it failed at the
/// header of the capture to the outside, the capture to the inside is empty. A failed read before
/// such a write is not reported.
///
/// `Fault::Run` with `Memory` if memory is refused, and with `Pool` if a worker could not be
/// started or stopped early (never `GateShut` under a gate that is always open). Each capture then
/// contains at least its header.
///
/// With a log, also `Fault::Write` with `Which::Log` if writing the log failed, and `Fault::Run`
/// with `TooMany` at input 4,611,686,018,427,387,904. After a fault of a capture, the log contains
/// the rows of the packets before the fault. After any fault the log is flushed, unless a call of
/// its own device failed. If the log could not be begun, both output captures are empty.
pub fn run_streams<
    T: Threads + Wait + Copy + Send + 'static,
    R: Source,
    Q: Source,
    W: Sink,
    V: Sink,
    U: Sink,
    L: StreamLog,
    G: Gate + Send + Sync + Drop + 'static,
>(
    rt: &T,
    alloc: Global,
    start: Start<'_>,
    devices: &mut Devices<R, Q, W, V, U, L>,
    gate: Arc<G>,
) -> Result<RunEnd, Fault>
    requires state { TakesState start.config.now start.state.now }
    requires log { L.is_ready (origin_of start) devices.old.log }
    ensures outputs { OutputsPost R.Source Q.Source W.Sink V.Sink U.Sink L.is_kept
        (origin_of start.entry) devices.old (stream_ended result) devices.new }
    ensures log { L.post (origin_of start.entry) (R.remaining devices.old.inside)
        (Q.remaining devices.old.outside) (log_of_end result) devices.old.log devices.new.log }
    ensures end { IfOk result (EndPost R.Source Q.Source (origin_of start.entry) devices.old) }
    ensures fault { IfErr result (ExplainedBy R.Source Q.Source L.is_kept G.is_open devices.old) }
    ensures reads { ReadsPost R.Source Q.Source devices.old (stream_ended result) devices.new }
{
    let setting = RunSetting {
        rt,
        alloc,
        start,
        gate,
    };
    let ran = setting.stream(
        &mut devices.inside,
        &mut devices.outside,
        &mut devices.to_outside,
        &mut devices.to_inside,
        &mut devices.log,
    )?;
    let (totals, log) = ran;
    write_report(alloc, &mut devices.report, &totals)?;
    Ok(RunEnd {
        summary: totals.summary,
        log,
    })
}
