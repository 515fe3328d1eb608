//! A run over open files, with its log if one is named.

ghost use Rattle.std.specs.Prelude.{◌≡◌, ◌&&◌, IfErr, IfOk, IfSome, None, Some, false, if◌then◌else◌, is_some, option_map, true};
ghost use Rattle.napt_account.specs.LogStarts.{is_saved_log_state};
ghost use Rattle.napt_program.specs.{CommandLine.files_with_log, Command.{IsOfLog, IsRunStop}, declared.streams.StandardStreams.StandardStreams};
ghost use Rattle.napt_account.specs.Prelude.{TakesState};
ghost use Rattle.napt_dispatch.specs.RunsThrough.{LeavesState};
ghost use Rattle.napt_rules.specs.Prelude.{IsStateInOrder, State as LeftState};
ghost use Rattle.napt_state.specs.Saved.{IsSavedState};
ghost use Rattle.napt_records.specs.Faults.{is_shut_gate_fault};

use crate::counting_gate::CountingGate;
use either::Either;
use napt_account::{OpenLog, SavedLogState};
use napt_capture::{NullSink, Source, Watched};
use napt_config::Config;
use napt_program::{
    CountedSink, LogDevice, LogOutput, LogPieces, MEMORY, OptionsWithLog, OutputDevices,
    ProgramCall, ProgramHost, QuietMinute, SeekableFile, Stop, stop_of_run,
};
use napt_run::{Devices, Fault, LogStart, LogWriter, NoLog, RunEnd, Start, State, run_streams};
use napt_state::{LogEnd, StateFileContents};
use std::alloc::Global;
use std::io::{BufWriter, Write};
use std::rt::Files;
use std::sync::Arc;

/// The configuration, state and log entries with which a run starts, and its gate.
#[derive(Drop)]
pub struct StreamRun<'a> {
    pub options: &'a OptionsWithLog,
    /// The name of the gateway, if its log is to contain it (`--name`).
    pub name: Option<&'a str>,
    pub config: &'a Config,
    pub state: &'a State,
    /// The accounts of its log that the state contains.
    pub saved: &'a SavedLogState,
    pub gate: Arc<CountingGate>,
}

/// The devices from which both captures are read.
#[derive(Drop)]
pub struct CaptureDevices<A, B> {
    pub inside: A,
    pub outside: B,
}

/// The captures and outputs after a run, and the result of the run.
#[derive(Drop)]
pub struct StreamResult<A, B, T: Write + Drop, F: Write + Drop> {
    pub captures: CaptureDevices<A, B>,
    pub outputs: OutputDevices<T, F>,
    /// The number of records that were written for the inside.
    pub to_inside: u64,
    pub answer: Result<StreamRemainder, Stop>,
}

/// The result of a run that succeeded.
#[derive(Drop)]
pub struct StreamRemainder {
    /// The state after the run, if it is to be saved, with the accounts of its log, if it has one.
    pub state: Option<StateFileContents>,
}

impl<'a> StreamRun<'a> {
    /// Warns on standard error if the state has no accounts of its bindings, so that the log, if
    /// there is one, begins new entries for them. Fails with `MEMORY` if memory is refused.
    pub fn print_new_entries<R: Eprint + AllocGlobal>(
        &self,
        rt: &R,
        call: ProgramCall,
    ) -> Result<(), Stop>
        ensures { IfErr result (λ stop. stop ≡ MEMORY) }
    {
        let state = self.state;
        if self.options.log.is_some() && self.saved.lacks_all(self.config, state) {
            call.print_new_entries(rt, rt.alloc(), state.clock)?;
        }
        Ok(())
    }

    /// Runs over the captures, which have these quiet minutes, and writes the outputs, and the log
    /// if there is one. Fails as the run does, and with `Stop::Log` if the log could not be written.
    pub fn over<R: ProgramHost, A: Source, B: Source, T: Write + Drop, F: SeekableFile + Drop>(
        self,
        rt: &R,
        captures: CaptureDevices<A, B>,
        outputs: OutputDevices<T, F>,
        log: Option<LogOutput<LogDevice<Either<T, F>, LogPieces<'_, R>>>>,
        quiet: Arc<QuietMinute>,
    ) -> StreamResult<A, B, T, F>
        requires taken { TakesState self.config.now self.state.now }
        requires saved { is_saved_log_state self.state.now self.saved.now ≡ true }
        requires named { is_some log ≡ is_some self.options.now.log }
        ensures saved { IfOk result.answer (λ left.
            is_some left.state ≡ is_some self.entry.options.now.files.save) }
        ensures stop { (streams : StandardStreams) → IfErr result.answer
            (IsRunStop streams (files_with_log self.entry.options.now)) }
    {
        let state = self.state;
        let Some(log) = log else {
            return self.without_log(rt, captures, outputs);
        };
        match log.of_gateway(rt.alloc(), self.name, state.clock, quiet) {
            Ok(log) => self.with_log(rt, captures, outputs, log),
            Err(stop) => StreamResult {
                captures,
                outputs,
                to_inside: 0,
                answer: Err(stop),
            },
        }
    }

    fn without_log<R: ProgramHost, A: Source, B: Source, T: Write + Drop, F: SeekableFile + Drop>(
        self,
        rt: &R,
        captures: CaptureDevices<A, B>,
        outputs: OutputDevices<T, F>,
    ) -> StreamResult<A, B, T, F>
        requires { TakesState self.config.now self.state.now }
        ensures saved { IfOk result.answer (λ left.
            is_some left.state ≡ is_some self.entry.options.now.files.save) }
        ensures stop { (streams : StandardStreams) → IfErr result.answer
            (IsRunStop streams (files_with_log self.entry.options.now)) }
    {
        let (options, config) = (self.options, self.config);
        let start = self.start();
        let mut devices = run_devices(captures, outputs, NoLog);
        let answer = run_streams(rt, rt.alloc(), start, &mut devices, self.gate);
        let (captures, outputs, to_inside) = parts_of(devices);
        StreamResult {
            captures,
            outputs,
            to_inside,
            answer: result_without_log(rt.alloc(), options, config, answer),
        }
    }

    fn with_log<R: ProgramHost, A: Source, B: Source, T: Write + Drop, F: SeekableFile + Drop>(
        self,
        rt: &R,
        captures: CaptureDevices<A, B>,
        outputs: OutputDevices<T, F>,
        log: LogOutput<LogDevice<Either<T, F>, LogPieces<'_, R>>>,
    ) -> StreamResult<A, B, T, F>
        requires taken { TakesState self.config.now self.state.now }
        requires saved { is_saved_log_state self.state.now self.saved.now ≡ true }
        requires named { is_some self.options.now.log ≡ true }
        ensures saved { IfOk result.answer (λ left.
            is_some left.state ≡ is_some self.entry.options.now.files.save) }
        ensures stop { (streams : StandardStreams) → IfErr result.answer
            (IsRunStop streams (files_with_log self.entry.options.now)) }
    {
        let (options, config) = (self.options, self.config);
        let start = self.start();
        let LogOutput { mut device, is_new } = log;
        let log_start = self.log_start(is_new);
        let Ok(writer) = LogWriter::new(rt.alloc(), start, log_start, &mut device) else {
            return StreamResult {
                captures,
                outputs,
                to_inside: 0,
                answer: Err(MEMORY),
            };
        };
        let mut devices = run_devices(captures, outputs, writer);
        let answer = run_streams(rt, rt.alloc(), start, &mut devices, self.gate);
        let (captures, outputs, to_inside) = parts_of(devices);
        StreamResult {
            captures,
            outputs,
            to_inside,
            answer: result_with_log(
                rt.alloc(),
                options,
                config,
                answer,
                LogOutput { device, is_new },
            ),
        }
    }

    /// Returns the start of the run.
    fn start(&self) -> Start<'a>
        ensures config { result.config ≡ self.now.config }
        ensures state { result.state ≡ self.now.state }
    {
        Start {
            config: self.config,
            state: self.state,
        }
    }

    /// Returns the start of the run's log, which is new or already has text.
    fn log_start(&self, is_new: bool) -> LogStart<'a>
        ensures saved { result.saved ≡ self.now.saved }
        ensures is_new { result.is_new ≡ is_new }
        ensures goes_on { result.goes_on ≡ is_some self.now.options.now.files.save }
        ensures each { result.each ≡ self.now.options.now.log_each }
    {
        LogStart {
            saved: self.saved,
            is_new,
            goes_on: self.options.files.save.is_some(),
            each: self.options.log_each,
        }
    }
}

/// The devices of a run: `T` is standard output, `F` a file, `L` the log.
type StreamDevices<A, B, T, F, L> = Devices<
    A,
    B,
    Watched<BufWriter<Either<T, F>>>,
    CountedSink<Either<Watched<BufWriter<Either<T, F>>>, NullSink>>,
    Either<Watched<BufWriter<Either<T, F>>>, NullSink>,
    L,
>;

/// Returns the captures and the outputs of a run's devices, and the number of records that were
/// written for the inside.
fn parts_of<A: Source, B: Source, T: Write + Drop, F: Write + Drop, L: Drop>(
    devices: StreamDevices<A, B, T, F, L>,
) -> (CaptureDevices<A, B>, OutputDevices<T, F>, u64) {
    let Devices {
        inside,
        outside,
        to_outside,
        to_inside,
        report,
        ..
    } = devices;
    let records = to_inside.records();
    let outputs = OutputDevices {
        to_outside,
        to_inside: to_inside.device,
        report,
    };
    (CaptureDevices { inside, outside }, outputs, records)
}

/// Returns the devices of a run.
fn run_devices<A: Source, B: Source, T: Write + Drop, F: Write + Drop, L: Drop>(
    captures: CaptureDevices<A, B>,
    outputs: OutputDevices<T, F>,
    log: L,
) -> StreamDevices<A, B, T, F, L>
    ensures { result.log ≡ log }
{
    let CaptureDevices { inside, outside } = captures;
    let OutputDevices {
        to_outside,
        to_inside,
        report,
    } = outputs;
    Devices {
        inside,
        outside,
        to_outside,
        to_inside: CountedSink::over(to_inside),
        report,
        log,
    }
}

/// Returns the result of the program for that of a run without a log.
fn result_without_log(
    alloc: Global,
    options: &OptionsWithLog,
    config: &Config,
    answer: Result<RunEnd, Fault>,
) -> Result<StreamRemainder, Stop>
    requires gate { IfErr answer (λ fault. is_shut_gate_fault fault ≡ false) }
    requires log { IfErr answer (IsOfLog (files_with_log options.now)) }
    ensures saved { IfOk result (λ left. is_some left.state ≡ is_some options.now.files.save) }
    ensures left { IfOk answer (λ end. (state : LeftState) →
        LeavesState config.now state end.summary →
        IfOk result (λ left. IfSome left.state (IsSavedState config.now state))) }
    ensures stop { (streams : StandardStreams) → IfErr result
        (IsRunStop streams (files_with_log options.now)) }
{
    let end = match answer {
        Ok(end) => end,
        Err(fault) => return Err(stop_of_run(options, fault)),
    };
    let state = end
        .summary
        .into_state_if(options.files.save.is_some(), alloc)?;
    Ok(StreamRemainder {
        state: saved_contents(alloc, config, state, None)?,
    })
}

/// Returns the result of the program for that of a run with a log, with the log's accounts and end
/// if the state is to be saved. Fails as the run does, and with `Stop::Log` on a failed write or sync.
fn result_with_log<T: Write + Drop, F: SeekableFile + Drop, R: Files + AllocGlobal>(
    alloc: Global,
    options: &OptionsWithLog,
    config: &Config,
    answer: Result<RunEnd, Fault>,
    log: LogOutput<LogDevice<Either<T, F>, LogPieces<'_, R>>>,
) -> Result<StreamRemainder, Stop>
    requires gate { IfErr answer (λ fault. is_shut_gate_fault fault ≡ false) }
    requires log { is_some options.now.log ≡ true }
    ensures saved { IfOk result (λ left. is_some left.state ≡ is_some options.now.files.save) }
    ensures left { IfOk answer (λ end. (state : LeftState) →
        LeavesState config.now state end.summary →
        IfOk result (λ left. IfSome left.state (IsSavedState config.now state))) }
    ensures stop { (streams : StandardStreams) → IfErr result
        (IsRunStop streams (files_with_log options.now)) }
{
    let end = match answer {
        Ok(end) => end,
        Err(fault) => {
            log.failed(&fault);
            return Err(stop_of_run(options, fault));
        }
    };
    let log = log.ended(alloc, end.summary.clock)?;
    if options.files.save.is_none() {
        return Ok(StreamRemainder { state: None });
    }
    // A fault of the log is reported before a fault of the state.
    let state = end.summary.into_state_if(true, alloc);
    let log_end = log.synced_end()?;
    Ok(StreamRemainder {
        state: saved_contents(alloc, config, state?, Some((&end.log, log_end)))?,
    })
}

/// Returns the contents of the saved state, if any. Fails with `MEMORY` if memory is refused.
fn saved_contents(
    alloc: Global,
    config: &Config,
    state: Option<State>,
    log: Option<(&OpenLog, LogEnd)>,
) -> Result<Option<StateFileContents>, Stop>
    ensures saved { IfOk result (λ made. is_some made ≡ is_some state) }
    ensures left { (left : LeftState) → IfSome state (IsStateInOrder config.now left) →
        IfOk result (λ made. IfSome made (IsSavedState config.now left)) }
    ensures stop { IfErr result (λ stop. stop ≡ MEMORY) }
{
    let Some(state) = state else {
        return Ok(None);
    };
    let Some((log, end)) = log else {
        return Ok(Some(StateFileContents::from_state(alloc, config, state, None)?));
    };
    let saved = log.saved(alloc, &state)?;
    Ok(Some(StateFileContents::from_state(alloc, config, state, Some((saved, end)))?))
}
