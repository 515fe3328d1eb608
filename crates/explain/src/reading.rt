//! Reads the configurations and opens the captures as `napt` does, and prints why it refuses them.

use crate::file_checks::{print_closed, print_file, print_shared, refuse_log, refuse_written};
use crate::options::{ExplainOptions, OutputForm};
use crate::refusals;
use napt_attribution::{HolderRequest, answer_by_log, requests_at};
use napt_commands::{Exit, RunStart, print_failed, text_at};
use napt_config::{Config, ConfigFault, ConfigPlace};
use napt_program::{
    FileRole, InputFiles, MEMORY, StandardStreams, Stop, closed_stream, open_inputs,
    print_ended_bindings, refuse_unmade,
};
use napt_rules::StateBinding;
use napt_state::{SavedBinding, StateFileContents, TakenState, read_state};
use std::alloc::{AllocError, Global};
use std::fs::File;
use std::io::BufReader;
use std::rt::Files;

/// The input of a run in addition to its captures.
#[derive(Drop)]
pub struct GivenLog {
    pub config: Config,
    /// The configuration to compare with.
    pub other: Option<Config>,
    pub asked: Vec<HolderRequest>,
}

/// The start of the run, and of the run under the configuration to compare with.
#[derive(Drop)]
pub struct RunStarts<'a> {
    pub first: RunStart<'a>,
    pub other: Option<RunStart<'a>>,
}

/// Reads the configuration, unless it has been read, and the other input of a run except its
/// captures. Fails as `napt` would, with the same fault first.
pub fn read_given<R: Files + Input + Eprint + AllocGlobal>(
    rt: &R,
    streams: StandardStreams,
    options: &ExplainOptions<'_>,
    config: Option<Config>,
) -> Result<GivenLog, Exit> {
    if let Some(role) = closed_stream(streams, &options.files) {
        return Err(print_closed(rt, role));
    }
    refuse_shared(rt, options)?;
    let config = match config {
        Some(config) => config,
        None => configuration(rt, options)?,
    };
    let other = match &options.other {
        Some(path) => Some(configuration_at(rt, "FILE", path)?),
        None => None,
    };
    let asked = requests_of(rt, options.form)?;
    Ok(GivenLog {
        config,
        other,
        asked,
    })
}

impl GivenLog {
    /// Returns the starts of the runs, from the state of `--resume`, if one is named. Prints why
    /// `napt` refuses it, if it does.
    pub fn starts<R: Files + Eprint + AllocGlobal>(
        &self,
        rt: &R,
        options: &ExplainOptions<'_>,
    ) -> Result<RunStarts<'_>, Exit> {
        let saved = saved_at(rt, options)?;
        let other = match &self.other {
            Some(config) => {
                let saved = copy_without_accounts(rt.alloc(), &saved)?;
                Some(start_under(rt, options, config, saved)?)
            }
            None => None,
        };
        let first = start_under(rt, options, &self.config, saved)?;
        Ok(RunStarts { first, other })
    }
}

/// Opens the captures without reading them. Fails as `napt` would. The outputs of `napt` are
/// neither created nor truncated; one that could not be written is refused if
/// `napt_program::creation_error` knows it.
pub fn open_captures<R: Files + Input + Eprint + AllocGlobal>(
    rt: &R,
    options: &ExplainOptions<'_>,
) -> Result<InputFiles<Box<R::Reader>, R::File>, Exit> {
    let files = explain_file(rt, options, open_inputs(rt, &options.files))?;
    explain_file(rt, options, refuse_unmade(rt, &options.files))?;
    refuse_log(rt, options)?;
    refuse_written(rt, options)?;
    Ok(files)
}

/// Answers requests from a saved log, under a configuration if it is named, or prints why not.
pub fn answer<R: Files + Input + Print + Eprint + AllocGlobal>(
    rt: &R,
    streams: StandardStreams,
    options: &ExplainOptions<'_>,
) -> Result<(), Exit> {
    let has_config = options.files.is_stream(FileRole::Config);
    refuse_more_input(rt, options, has_config, "--from-log")?;
    let config = match &options.files.config {
        Some(path) => Some(configuration_at(rt, "--config", path)?),
        None => None,
    };
    let asked = requests_of(rt, options.form)?;
    answer_by_log(rt, streams, &asked, &options.pieces, config.as_ref())
}

/// Reads the state of `--resume`, or returns one without bindings. Prints why it is refused.
pub fn saved_at<R: Files + Eprint + AllocGlobal>(
    rt: &R,
    options: &ExplainOptions<'_>,
) -> Result<StateFileContents, Exit> {
    let alloc = rt.alloc();
    let Some(path) = &options.files.resume else {
        return Ok(StateFileContents::new(alloc, 0));
    };
    let file = match File::open(rt, path) {
        Ok(file) => file,
        Err(error) => {
            print_failed(rt, "--resume", path, &error);
            return Err(Exit::Printed(Stop::File(FileRole::Resume)));
        }
    };
    let reader = BufReader::new(alloc, file).map_err(|_| Exit::Unprinted(MEMORY))?;
    match read_state(alloc, reader) {
        Ok(saved) => Ok(saved),
        Err(fault) => Err(refusals::print_state(rt, path, &fault)),
    }
}

/// Returns the start of a run from a saved state, or prints why the configuration refuses it.
fn start_under<'a, R: Eprint + AllocGlobal>(
    rt: &R,
    options: &ExplainOptions<'_>,
    config: &'a Config,
    saved: StateFileContents,
) -> Result<RunStart<'a>, Exit> {
    let path = options.files.resume.as_ref();
    let path = path.map_or("", |path| path.as_str());
    match saved.restore(rt.alloc(), config, options.ends_misfits)? {
        Ok(TakenState { state, log, ended }) => {
            if !log.is_valid(rt.alloc(), &state)? {
                return Err(refusals::print_accounts(rt, path));
            }
            print_ended_bindings(rt, "explain", ended);
            Ok(RunStart::new(config, state, log))
        }
        Err((row, misfit)) => Err(refusals::print_binding(rt, path, row, misfit)),
    }
}

/// Returns a copy of the contents without accounts.
fn copy_without_accounts(
    alloc: Global,
    saved: &StateFileContents,
) -> Result<StateFileContents, AllocError> {
    let mut copy = StateFileContents::new(alloc, saved.clock);
    for binding in &saved.bindings {
        copy.bindings.push(match binding {
            SavedBinding::Live(StateBinding { row, last, flows }, _) => {
                let flows = Vec::from_slice(alloc, flows)?;
                let (row, last) = (*row, *last);
                SavedBinding::Live(StateBinding { row, last, flows }, None)
            }
            SavedBinding::Ended(row, end) => SavedBinding::Ended(*row, *end),
        })?;
    }
    Ok(copy)
}

/// Refuses the first option whose standard stream another option already uses, and prints why.
fn refuse_shared<R: Eprint + AllocGlobal>(
    rt: &R,
    options: &ExplainOptions<'_>,
) -> Result<(), Exit> {
    if let Some(role) = options.repeated_stream() {
        return Err(print_shared(rt, options.named_files().option_of(role), role));
    }
    refuse_more_input(
        rt,
        options,
        options.takes_input(),
        options.form.read_option_name(),
    )
}

/// Refuses standard input for more than one of the configurations, the requests and the pieces of a
/// log, or for one of them if another file uses it. Prints why, with the option of such a file.
fn refuse_more_input<R: Eprint + AllocGlobal>(
    rt: &R,
    options: &ExplainOptions<'_>,
    is_taken: bool,
    name: &str,
) -> Result<(), Exit> {
    let most = if is_taken { 0 } else { 1 };
    if options.stdin_count() > most {
        return Err(print_shared(rt, name, FileRole::Config));
    }
    Ok(())
}

/// Returns the files that were opened. If a file was refused, prints why.
fn explain_file<R: Files + Eprint + AllocGlobal, T: Drop>(
    rt: &R,
    options: &ExplainOptions<'_>,
    opened: Result<T, Stop>,
) -> Result<T, Exit> {
    match opened {
        Ok(opened) => Ok(opened),
        Err(Stop::File(role)) => Err(print_file(rt, options, role)),
        Err(stop) => Err(Exit::Unprinted(stop)),
    }
}

/// Reads the configuration in the file, or the built-in one. Prints why it is refused.
pub fn configuration<R: Files + Input + Eprint + AllocGlobal>(
    rt: &R,
    options: &ExplainOptions<'_>,
) -> Result<Config, Exit> {
    if let Some(path) = &options.files.config {
        return configuration_at(rt, "--config", path);
    }
    match Config::built_in(rt.alloc()) {
        Ok(config) => Ok(config),
        Err(_) => Err(Exit::Unprinted(Stop::Config(ConfigFault::Memory))),
    }
}

/// Reads the configuration in a file, which `name` names. If it is refused, prints why.
fn configuration_at<R: Files + Input + Eprint + AllocGlobal>(
    rt: &R,
    name: &str,
    path: &str,
) -> Result<Config, Exit> {
    let text = text_at(rt, name, path)?;
    let mut place = ConfigPlace::new();
    match Config::read_at(rt.alloc(), &text, &mut place) {
        Ok(config) => Ok(config),
        Err(fault) => Err(refusals::print_config(rt, name, path, &place, fault)),
    }
}

/// Returns the requests of a form, or none if it has none. If their file is refused, prints why.
pub fn requests_of<R: Files + Input + Eprint + AllocGlobal>(
    rt: &R,
    form: OutputForm<'_>,
) -> Result<Vec<HolderRequest>, Exit> {
    match form {
        OutputForm::Holders(request) => Ok(vec![in rt.alloc();
            HolderRequest::from_request(request),
        ]?),
        OutputForm::Requests(path) => requests_at(rt, path),
        _ => Ok(Vec::new(rt.alloc())),
    }
}
