//! The program: it reads its arguments and its configuration, opens the files in a fixed order, and
//! runs over them.

ghost use Rattle.std.specs.Prelude.{◌≡◌, IfErr, OnOk, map, string_bytes};
ghost use Rattle.napt_program.specs.{CommandLine.{files_with_log, line_with_log}, Command.{IsLineStop, IsRunStop, LineIsAccepted, IsStopUnderOpenGate}};

use crate::counted_device::CountedDevice;
use crate::counting_gate::CountingGate;
use crate::manual::{INSTALLED, OWN};
use crate::progress::ProgressReport;
use crate::stream_run::{CaptureDevices, StreamRemainder, StreamResult, StreamRun};
use napt_program::{
    MEMORY, OptionsWithLog, ProgramCall, ProgramHost, QuietMinute, RunDevices, RunResources,
    StandardStreams, Stop, StopReason, answer_line, open, parse_words_with_log, take_name,
    take_verbose, words,
};
use std::alloc::Global;
use std::sync::Arc;
use std::time::Clock;

/// Serves the command line: runs over the files that it names, with a worker thread for each
/// external address, or prints help or the version. Warns of cut and swapped captures, and of
/// packets that are earlier than the state. A terminal gets progress too.
///
/// Fails before any capture is opened if the arguments are not understood or memory for them is
/// refused, if a needed standard stream is closed, or if the configuration is refused; after that,
/// if a file cannot be opened or created, or if the run fails. A shut gate is never reported.
pub fn serve<R: ProgramHost + Clock>(
    rt: &R,
    streams: StandardStreams,
    call: ProgramCall,
    reason: &mut StopReason,
) -> Result<(), Stop>
    ensures { IfErr result IsStopUnderOpenGate }
{
    let mut words = words(rt)?;
    let call = call.with_misfits(&mut words);
    if take_verbose(&mut words) {
        reason.is_requested = true;
    }
    let name = take_name(rt.alloc(), &mut words)?;
    serve_words(rt, streams, call, words, name, reason)
}

/// Serves these arguments, of which the first is the program's name. Succeeds only if they are
/// understood, and fails only with a stop that they can cause. If the gateway has a `name`, the log
/// also gets the rows of the gateway.
pub fn serve_words<R: ProgramHost + Clock>(
    rt: &R,
    streams: StandardStreams,
    call: ProgramCall,
    words: Vec<String>,
    name: Option<String>,
    reason: &mut StopReason,
) -> Result<(), Stop>
    ensures taken { OnOk result (LineIsAccepted (line_with_log (map string_bytes words.items))) }
    ensures stop { IfErr result
        (IsLineStop streams (line_with_log (map string_bytes words.items))) }
{
    match parse_words_with_log(rt.alloc(), call.manual(OWN, INSTALLED), words) {
        Ok(options) => {
            let name = name.as_ref().map(|name| name.as_str());
            let answer = run(rt, streams, call, &options, name, reason);
            reason.find(rt, streams, &options, &answer);
            answer
        }
        Err(fault) => answer_line(rt, fault),
    }
}

/// Runs over the files that the options name, and saves the state after the run, if requested.
fn run<R: ProgramHost + Clock>(
    rt: &R,
    streams: StandardStreams,
    call: ProgramCall,
    options: &OptionsWithLog,
    name: Option<&str>,
    reason: &mut StopReason,
) -> Result<(), Stop>
    ensures { IfErr result (IsRunStop streams (files_with_log options.now)) }
{
    let RunResources {
        config,
        state,
        ended,
        saved,
        devices,
        log,
        save,
    } = open(rt, streams, options, &mut reason.place, call.ends_misfits)?;
    call.print_ended_bindings(rt, ended);
    let RunDevices {
        inside,
        outside,
        outputs,
    } = devices;
    let gate = gate(rt.alloc(), config.pool().len())?;
    let quiet = quiet_minute(rt.alloc())?;
    let progress = ProgressReport::new(rt, share(&gate)?, call, share(&quiet)?, state.clock);
    let captures = CaptureDevices {
        inside: CountedDevice::over(inside, &progress),
        outside: CountedDevice::over(outside, &progress),
    };
    let run = StreamRun {
        options,
        name,
        config: &config,
        state: &state,
        saved: &saved,
        gate,
    };
    let Ok(()) = run.print_new_entries(rt, call) else {
        return Err(MEMORY);
    };
    let StreamResult {
        captures,
        outputs,
        to_inside,
        answer,
    } = run.over(rt, captures, outputs, log, quiet);
    progress.print_end();
    let StreamRemainder { state } = answer?;
    let (inside, outside) = (captures.inside.tallied(), captures.outside.tallied());
    call.print_flaws(rt, &config, inside, outside);
    if options.log.is_some() && name.is_none() {
        call.print_other_numbers(rt, outside.records(), to_inside);
    }
    if let (Some(save), Some(state)) = (save, state) {
        outputs.sync()?;
        save.finish(rt, rt.alloc(), &state)?;
    }
    Ok(())
}

/// Returns a gate for this many workers, which counts bindings and is always open, or `MEMORY`.
fn gate(alloc: Global, workers: usize) -> Result<Arc<CountingGate>, Stop>
    ensures { IfErr result (λ stop. stop ≡ MEMORY) }
{
    let counting = CountingGate::new(alloc, workers)?;
    Arc::new(alloc, counting).map_err(|_| MEMORY)
}

/// Returns a quiet minute that is shared by the captures and the log, or `MEMORY`.
fn quiet_minute(alloc: Global) -> Result<Arc<QuietMinute>, Stop>
    ensures { IfErr result (λ stop. stop ≡ MEMORY) }
{
    Arc::new(alloc, QuietMinute::new()).map_err(|_| MEMORY)
}

/// Returns one more reference to a shared value. Fails with `MEMORY` if memory is refused.
fn share<T: Drop>(shared: &Arc<T>) -> Result<Arc<T>, Stop>
    ensures { IfErr result (λ stop. stop ≡ MEMORY) }
{
    shared.clone().map_err(|_| MEMORY)
}
