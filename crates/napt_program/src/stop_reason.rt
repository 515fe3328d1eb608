//! The reason why a program stopped, for the second line that it prints on standard error.

use crate::named_files::{NamedFiles, closed_text, shared_text};
use crate::options_with_log::OptionsWithLog;
use crate::role::FileRole;
use crate::stop::{StateRefusal, Stop};
use crate::streams::{StandardStreams, closed_stream_with_log};
use napt_capture::CaptureFault;
use napt_config::{ConfigFault, ConfigPlace};
use napt_records::Fault;
use napt_rules::Misfit;
use napt_wire::Side;
use std::alloc::{AllocError, Global};
use std::fmt;
use std::rt::Files;

/// The word of the command line that requests the second line where there is no terminal.
const VERBOSE: &str = "--verbose";

/// The word of the command line by which bindings that the configuration refuses expire.
const END_MISFITS: &str = "--end-misfits";

/// The reason why a program stopped, in words: an option, its file, and the mistake in it.
#[derive(Debug, Drop)]
pub struct StopReason {
    /// Whether the reason is printed: at a terminal, or since the command line requests it.
    pub is_requested: bool,
    /// The place at which the configuration breaks a rule.
    pub place: ConfigPlace,
    text: Option<String>,
}

impl StopReason {
    /// Returns the reason of a program that has not stopped.
    pub fn new(is_requested: bool) -> StopReason {
        StopReason {
            is_requested,
            place: ConfigPlace::new(),
            text: None,
        }
    }

    /// Returns the reason in words, if there is one.
    pub fn text(&self) -> Option<&str> {
        self.text.as_ref().map(|text| text.as_str())
    }

    /// Finds the reason if a program with these options stopped, and the reason is to be printed.
    /// No file is created or changed. If memory is refused, no reason is found.
    pub fn find<R: Files + AllocGlobal>(
        &mut self,
        rt: &R,
        streams: StandardStreams,
        options: &OptionsWithLog,
        answer: &Result<(), Stop>,
    ) {
        self.text = match answer {
            Err(_) if !self.is_requested => None,
            Err(Stop::File(role)) => file_reason(rt, streams, options, *role).unwrap_or(None),
            Err(stop) => self.other_reason(rt.alloc(), options, *stop),
            Ok(()) => None,
        };
    }

    /// Returns the reason of a stop not due to a file, if it adds anything to the fault line.
    fn other_reason(&self, alloc: Global, options: &OptionsWithLog, stop: Stop) -> Option<String> {
        match stop {
            Stop::Config(ConfigFault::Memory) => None,
            Stop::Config(fault) => {
                let path = path_or(&options.files.config, "-");
                let place = &self.place;
                format!(in alloc; "--config {path}: {place}{fault}").ok()
            }
            Stop::State(refusal) => {
                let path = path_or(&options.files.resume, "-");
                format!(in alloc; "--resume {path}: {refusal}").ok()
            }
            Stop::Run(Fault::Capture(side, fault)) => {
                let (name, path) = match side {
                    Side::Inside => ("--inside", &options.files.inside),
                    Side::Outside => ("--outside", &options.files.outside),
                };
                capture_text(alloc, name, path_or(path, "-"), fault).ok()
            }
            _ => None,
        }
    }
}

/// Removes the first `--verbose` from the arguments, and returns whether there was one.
pub fn take_verbose(words: &mut Vec<String>) -> bool {
    take_word(words, VERBOSE)
}

/// Removes the first `--end-misfits` from the arguments, and returns whether there was one.
pub(crate) fn take_end_misfits(words: &mut Vec<String>) -> bool {
    take_word(words, END_MISFITS)
}

/// Removes the first such word from the arguments, and returns whether there was one.
fn take_word(words: &mut Vec<String>, wanted: &str) -> bool {
    match words.iter().position(|word| word.as_str() == wanted) {
        Some(index) => {
            words.remove(index);
            true
        }
        None => false,
    }
}

fn path_or<'a>(path: &'a Option<String>, absent: &'a str) -> &'a str {
    match path {
        Some(path) => path.as_str(),
        None => absent,
    }
}

fn capture_text(
    alloc: Global,
    name: &str,
    path: &str,
    fault: CaptureFault,
) -> Result<String, AllocError> {
    format!(in alloc;
        "{name} {path}: {fault}; explain with the same arguments prints what it is and what to do"
    )
}

/// Returns why the file of a role was not opened or created, or `None` if nothing is known.
fn file_reason<R: Files + AllocGlobal>(
    rt: &R,
    streams: StandardStreams,
    options: &OptionsWithLog,
    role: FileRole,
) -> Result<Option<String>, AllocError> {
    let alloc = rt.alloc();
    let named = NamedFiles {
        files: &options.files,
        outside: "--outside",
    };
    if closed_stream_with_log(streams, options) == Some(role) {
        return Ok(Some(closed_text(alloc, role)?));
    }
    if options.repeated_stream() == Some(role) {
        return Ok(Some(shared_text(alloc, named.option_of(role), role)?));
    }
    match (role, &options.log) {
        (FileRole::Log, Some(path)) => named.log_reason(rt, alloc, path),
        _ => named.reason(rt, alloc, role),
    }
}

/// Prints why a state is refused.
impl fmt::Display for StateRefusal {
    fn fmt<W: fmt::Write>(&self, f: &mut fmt::Formatter<W>) -> fmt::Result {
        match self {
            StateRefusal::Line(line) => write!(
                f,
                "line {line} is not a line of a state, or is missing"
            ),
            StateRefusal::NotUtf8(line) => write!(f, "line {line} is not UTF-8"),
            StateRefusal::Binding(misfit) => {
                f.write_str("the configuration does not accept a binding: ")?;
                f.write_str(misfit_reason(*misfit))
            }
        }
    }
}

/// Returns why a configuration does not accept a binding.
pub fn misfit_reason(misfit: Misfit) -> &'static str {
    match misfit {
        Misfit::NotInside => "its host is in no prefix of inside",
        Misfit::NotPaired => "the configuration gives its host another external address",
        Misfit::BadNumber =>
            "one of its numbers is 0, or its external number is not in its host's block",
        Misfit::UsedLater => "it or one of its flows was used after the state's time",
        Misfit::FlowsShareRemote => "two of its flows have the same remote endpoint",
        Misfit::Redirected => "a redirect of the configuration has one of these endpoints",
        Misfit::EndpointShared => "another binding of the state has one of these endpoints",
    }
}
