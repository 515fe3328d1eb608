//! The program reads its arguments and configuration, opens the files in a fixed order, and runs.

ghost use Rattle.std.specs.Prelude.{◌≡◌, IfErr, IfOk, IfSome, OnOk, is_some, map, string_bytes};
ghost use Rattle.napt_dispatch.specs.RunsThrough.{LeavesState};
ghost use Rattle.napt_rules.specs.Prelude.{State, TakesState};
ghost use Rattle.napt_state.specs.Saved.{IsSavedState};
ghost use Rattle.napt_program.specs.{CommandLine.{files_with_log, line_of_words}, Command.{IsLineStop, IsRunStop, LineIsAccepted, IsStopUnderOpenGate}, declared.streams.StandardStreams.StandardStreams as Known};

use napt_config::Config;
use napt_pool::OpenGate;
use napt_program::{
    CountedSource, MEMORY, OptionsWithLog, OutputDevices, ProgramCall, ProgramHost,
    RunDevices as OpenedDevices, RunResources, StandardStreams, Stop, StopReason, answer_line,
    open, parse_words, stop_of_run, take_verbose, words,
};
use napt_run::{Devices, NoLog, RunEnd, RunSummary, Start, run_captures};
use napt_state::StateFileContents;
use std::alloc::Global;
use std::io::{Read, Write};
use std::sync::Arc;

/// Serves the command line: runs over the files that it names, with a worker thread for each
/// external address, or prints help or the version. At a terminal and with `--verbose`, it warns of
/// cut and swapped captures.
///
/// Fails before any capture is opened if the arguments are not understood or memory for them is
/// refused, if a needed standard stream is closed, or if the configuration is refused; after that,
/// if a file cannot be opened or created, or if the run fails. A shut gate is never reported.
pub fn serve<R: ProgramHost>(
    rt: &R,
    streams: StandardStreams,
    call: ProgramCall,
    reason: &mut StopReason,
) -> Result<(), Stop>
    ensures { IfErr result IsStopUnderOpenGate }
{
    let mut words = words(rt)?;
    let mut call = call.with_misfits(&mut words);
    if take_verbose(&mut words) {
        reason.is_requested = true;
        call = call.with_verbose();
    }
    serve_words(rt, streams, call, words, reason)
}

/// Serves these arguments, of which the first is the program's name. Succeeds only if they are
/// understood, and fails only with a stop that they can cause.
pub fn serve_words<R: ProgramHost>(
    rt: &R,
    streams: StandardStreams,
    call: ProgramCall,
    words: Vec<String>,
    reason: &mut StopReason,
) -> Result<(), Stop>
    ensures taken { OnOk result (LineIsAccepted (line_of_words (map string_bytes words.items))) }
    ensures stop { IfErr result
        (IsLineStop streams (line_of_words (map string_bytes words.items))) }
{
    match parse_words(rt.alloc(), words) {
        Ok(files) => {
            let options = OptionsWithLog {
                files,
                log: None,
                log_each: None,
            };
            let answer = run(rt, streams, call, &options, reason);
            reason.find(rt, streams, &options, &answer);
            answer
        }
        Err(fault) => answer_line(rt, fault),
    }
}

/// Runs over the files that the options name, and saves the state after the run, if requested.
fn run<R: ProgramHost>(
    rt: &R,
    streams: StandardStreams,
    call: ProgramCall,
    options: &OptionsWithLog,
    reason: &mut StopReason,
) -> Result<(), Stop>
    ensures { IfErr result (IsRunStop streams (files_with_log options.now)) }
{
    let RunResources {
        config,
        state,
        ended,
        devices,
        save,
        ..
    } = open(rt, streams, options, &mut reason.place, call.ends_misfits)?;
    call.print_ended_bindings(rt, ended);
    let start = Start {
        config: &config,
        state: &state,
    };
    let end = run_over(rt, call, options, start, devices)?;
    let (end, outputs) = end;
    let saved = saved_state(rt.alloc(), &config, end.summary, save.is_some())?;
    if let (Some(save), Some(saved)) = (save, saved) {
        outputs.sync()?;
        save.finish(rt, rt.alloc(), &saved)?;
    }
    Ok(())
}

/// Returns the contents of the file of the state: the state at the end of the run, if it is to be
/// saved. Fails with `MEMORY` if memory is refused.
fn saved_state(
    alloc: Global,
    config: &Config,
    summary: RunSummary,
    is_saved: bool,
) -> Result<Option<StateFileContents>, Stop>
    ensures saved { IfOk result (λ made. is_some made ≡ is_saved) }
    ensures left { (state : State) → LeavesState config.now state summary →
        IfOk result (λ made. IfSome made (IsSavedState config.now state)) }
    ensures stop { IfErr result (λ stop. stop ≡ MEMORY) }
{
    match summary.into_state_if(is_saved, alloc)? {
        Some(state) => Ok(Some(StateFileContents::from_state(alloc, config, state, None)?)),
        None => Ok(None),
    }
}

/// Runs over the devices, and prints the flaws that the captures show, at a terminal and with
/// `--verbose`. Returns the outputs too, which have been flushed.
fn run_over<R: ProgramHost, S: Read + Drop, T: Write + Drop, F: Read + Write + Drop>(
    rt: &R,
    call: ProgramCall,
    options: &OptionsWithLog,
    start: Start<'_>,
    opened: OpenedDevices<S, T, F>,
) -> Result<(RunEnd, OutputDevices<T, F>), Stop>
    requires { TakesState start.config.now start.state.now }
    ensures { (streams : Known) → IfErr result
        (IsRunStop streams (files_with_log options.now)) }
{
    let OpenedDevices {
        inside,
        outside,
        outputs,
    } = opened;
    let OutputDevices {
        to_outside,
        to_inside,
        report,
    } = outputs;
    let gate = gate(rt.alloc())?;
    let mut devices = Devices {
        inside: CountedSource::over(inside, call.is_verbose),
        outside: CountedSource::over(outside, call.is_verbose),
        to_outside,
        to_inside,
        report,
        log: NoLog,
    };
    let config = start.config;
    let end = match run_captures(rt, rt.alloc(), start, &mut devices, gate) {
        Ok(end) => end,
        Err(fault) => return Err(stop_of_run(options, fault)),
    };
    call.print_flaws(rt, config, &devices.inside, &devices.outside);
    let outputs = OutputDevices {
        to_outside: devices.to_outside,
        to_inside: devices.to_inside,
        report: devices.report,
    };
    Ok((end, outputs))
}

/// Returns the gate of a run, which is always open. Fails with `MEMORY` if memory is refused.
fn gate(alloc: Global) -> Result<Arc<OpenGate>, Stop>
    ensures { IfErr result (λ stop. stop ≡ MEMORY) }
{
    Arc::new(alloc, OpenGate).map_err(|_| MEMORY)
}
