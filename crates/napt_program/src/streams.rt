//! The standard streams with which the program was started.

ghost use Rattle.std.specs.Prelude.{◌≡◌, IfSome, true};
ghost use Rattle.napt_program.specs.{Command.can_fail, CommandLine.{files_of, files_with_log}, Streams.{closed_output, closed_stream}};

use crate::options::RunOptions;
use crate::options_with_log::OptionsWithLog;
use crate::role::FileRole;
use std::os::fd::AsFd;

/// The system's error for a descriptor that is not open: EBADF of errno(3).
const NOT_OPEN: i32 = 9;

/// The standard streams that were open at startup. The next file that is opened gets the descriptor
/// of a closed stream, so a stream that was closed is neither read nor written.
#[derive(Clone, Copy, Debug, PartialEq, Eq)]
pub struct StandardStreams {
    pub input: bool,
    pub output: bool,
    pub error: bool,
}

impl StandardStreams {
    /// Returns the streams that are open now. Call it at startup, before any file is opened.
    pub fn open_now(rt: &HostRuntime) -> StandardStreams {
        StandardStreams {
            input: is_open(&rt.stdin()),
            output: is_open(&rt.stdout()),
            error: is_open(&rt.stderr()),
        }
    }
}

/// Returns whether the stream is open: a closed one cannot be duplicated.
fn is_open(stream: &impl AsFd) -> bool {
    match stream.as_fd().try_clone_to_owned() {
        Ok(_) => true,
        Err(error) => error.raw_os_error() != Some(NOT_OPEN),
    }
}

/// Returns the role of the first standard stream that is closed but needed, since its option is `-`
/// or no file is named for a role that uses it by default.
pub fn closed_stream(streams: StandardStreams, options: &RunOptions) -> Option<FileRole>
    ensures first { result ≡ closed_stream streams (files_of options.now) }
    ensures needed { IfSome result (λ role. can_fail streams (files_of options.now) role ≡ true) }
{
    if !streams.input && options.is_stream(FileRole::Config) {
        Some(FileRole::Config)
    } else if !streams.input && options.is_standard(FileRole::Inside) {
        Some(FileRole::Inside)
    } else if !streams.input && options.is_stream(FileRole::Outside) {
        Some(FileRole::Outside)
    } else {
        closed_output(streams, options)
    }
}

/// Returns the role of the first output that needs standard output, if that is closed.
fn closed_output(streams: StandardStreams, options: &RunOptions) -> Option<FileRole>
    ensures first { result ≡ closed_output streams (files_of options.now) }
    ensures needed { IfSome result (λ role. can_fail streams (files_of options.now) role ≡ true) }
{
    if !streams.output && options.is_standard(FileRole::ToOutside) {
        Some(FileRole::ToOutside)
    } else if !streams.output && options.is_stream(FileRole::ToInside) {
        Some(FileRole::ToInside)
    } else if !streams.output && options.is_stream(FileRole::Report) {
        Some(FileRole::Report)
    } else {
        None
    }
}

/// Returns the role of the first such stream for options with a log, which comes last.
pub fn closed_stream_with_log(
    streams: StandardStreams,
    options: &OptionsWithLog,
) -> Option<FileRole>
    ensures first { result ≡ closed_stream streams (files_with_log options.now) }
    ensures needed { IfSome result (λ role. can_fail streams (files_with_log options.now) role
        ≡ true) }
{
    match closed_stream(streams, &options.files) {
        Some(role) => Some(role),
        None if options.is_log_stream() && !streams.output => Some(FileRole::Log),
        None => None,
    }
}
