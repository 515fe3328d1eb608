//! The arguments of a program, and everything that it opens for its run.

ghost use Rattle.std.specs.{Prelude.{◌≡◌, ◌≢◌, ◌⊎◌, [], Err, IfErr, IfOk, IfSome, None, false, is_some, true}, IoError.error_kind};
ghost use Rattle.napt_program.specs.{CommandLine.files_with_log, Command.{IsOfLog, IsRunStop, stop_after}};
ghost use Rattle.napt_program.specs.{Standard.repeated_stream, Streams.closed_stream};
ghost use Rattle.napt_records.specs.Faults.{is_shut_gate_fault};
ghost use Rattle.napt_account.specs.LogStarts.{is_saved_log_state};
ghost use Rattle.napt_rules.specs.Prelude.{TakesState};

use crate::config_file::configuration;
use crate::devices::{BUFFERED, HELD, LogDevice, RunDevices, buffered, buffered_log};
use crate::files::{FilesWithLog, open_files};
use crate::log_file::LogOutput;
use crate::log_pieces::LogPieces;
use crate::options_with_log::OptionsWithLog;
use crate::state_file::{StateFile, state_file};
use crate::state_reading::{ResumedState, state_at};
use crate::stop::{MEMORY, Stop};
use crate::streams::{StandardStreams, closed_stream_with_log};
use either::Either;
use napt_account::SavedLogState;
use napt_config::{Config, ConfigPlace};
use napt_records::Fault;
use napt_rules::State;
use napt_wire::Side;
use std::alloc::Global;
use std::env::Env;
use std::io::{ErrorKind, Printer, Write};
use std::rt::Files;
use std::{env, io};

/// Returns the arguments. Fails with `Stop::Usage` if one is not UTF-8, or with
/// `Stop::LineMemory` if memory is refused.
pub fn words<R: Env + AllocGlobal>(rt: &R) -> Result<Vec<String>, Stop>
    ensures { IfErr result (λ stop. (stop ≡ Stop.Usage) ⊎ (stop ≡ Stop.LineMemory)) }
{
    match env::args(rt) {
        Ok(args) => args.collect(rt.alloc()).map_err(|_| Stop::LineMemory),
        Err(error) => Err(unread_words(&error)),
    }
}

/// Returns why the arguments could not be read: memory was refused, or one is not UTF-8.
fn unread_words(error: &io::Error) -> Stop
    ensures memory { error_kind error.now ≡ ErrorKind.OutOfMemory → result ≡ Stop.LineMemory }
    ensures usage { error_kind error.now ≢ ErrorKind.OutOfMemory → result ≡ Stop.Usage }
    ensures either { (result ≡ Stop.Usage) ⊎ (result ≡ Stop.LineMemory) }
{
    match error.kind() {
        ErrorKind::OutOfMemory => Stop::LineMemory,
        _ => Stop::Usage,
    }
}

/// All that a run needs: `S` is standard input, `T` standard output, `F` a file, `P` log pieces.
#[derive(Drop)]
pub struct RunResources<S, T: Write + Drop, F: Write + Drop, P> {
    pub config: Config,
    /// The state from which the run starts.
    pub state: State,
    /// The number of its bindings that expire at the start, since the configuration refuses them.
    pub ended: u64,
    /// The accounts of its log that the state contains, or none if there was no log.
    pub saved: SavedLogState,
    pub devices: RunDevices<S, T, F>,
    /// The log, if one is named.
    pub log: Option<LogOutput<LogDevice<Either<T, F>, P>>>,
    /// The file of the state after the run, if it is saved.
    pub save: Option<StateFile<F>>,
}

/// Opens the files of the options, or the standard streams in their place: configuration, state,
/// captures, outputs and log, each with a buffer, and last the new file of a state.
///
/// Fails first with the role of a needed standard stream that is closed, or that another option
/// uses; then if the configuration, whose place is set, or the state is refused; and then as
/// `open_files` does. If `ends_misfits`, bindings that the configuration does not accept expire.
pub fn open<'r, R: Files + Input + Print + AllocGlobal>(
    rt: &'r R,
    streams: StandardStreams,
    options: &OptionsWithLog,
    place: &mut ConfigPlace,
    ends_misfits: bool,
) -> Result<RunResources<Box<R::Reader>, Printer<'r, R>, R::File, LogPieces<'r, R>>, Stop>
    ensures taken { IfOk result (λ o. TakesState o.config o.state) }
    ensures saved { IfOk result (λ o. is_saved_log_state o.state o.saved ≡ true) }
    ensures save { IfOk result (λ o. is_some o.save ≡ is_some options.now.files.save) }
    ensures log { IfOk result (λ o. is_some o.log ≡ is_some options.now.log) }
    ensures stop { IfErr result (IsRunStop streams (files_with_log options.now)) }
    ensures closed { IfSome (closed_stream streams (files_with_log options.now)) (λ role.
        result ≡ Err (Stop.File role)) }
    ensures again { closed_stream streams (files_with_log options.now) ≡ None →
        IfSome (repeated_stream (files_with_log options.now)) (λ role.
        result ≡ Err (Stop.File role)) }
{
    if let Some(role) = closed_stream_with_log(streams, options) {
        return Err(Stop::File(role));
    }
    if let Some(role) = options.repeated_stream() {
        return Err(Stop::File(role));
    }
    let config = configuration(rt, options.files.config.as_ref(), place)?;
    let resume = options.files.resume.as_ref();
    let ResumedState {
        state,
        saved,
        log,
        ended,
    } = state_at(rt, &config, resume, ends_misfits)?;
    let told = resume.map(|_| log);
    let FilesWithLog { files, log: file } = open_files(rt, options, told)?;
    let held = if file.is_some() { HELD } else { BUFFERED };
    Ok(RunResources {
        config,
        state,
        ended,
        saved,
        devices: buffered(rt.alloc(), files, held)?,
        log: buffered_log(rt.alloc(), file)?,
        save: state_file(rt, &options.files)?,
    })
}

/// Returns why a program stops after a fault of its run. The device in place of a missing outside
/// capture has no fault of its own: if it could not be read, the run was refused memory.
pub fn stop_of_run(options: &OptionsWithLog, fault: Fault) -> Stop
    requires gate { is_shut_gate_fault fault ≡ false }
    requires log { IsOfLog (files_with_log options.now) fault }
    ensures stop { (streams : StandardStreams) →
        IsRunStop streams (files_with_log options.now) result }
    ensures exact { result ≡ stop_after (files_with_log options.now) fault }
{
    match fault {
        Fault::Capture(Side::Outside, _) if options.files.outside.is_none() => MEMORY,
        fault => Stop::Run(fault),
    }
}
