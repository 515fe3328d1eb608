//! The parts that the programs share apart from their runs: the command line and its files, the
//! configuration, the standard streams, and the reasons for which a program stops.
#![tactic(auto)]

mod call;
mod command;
mod config_file;
mod counted_sink;
mod devices;
mod file_location;
mod file_locations;
mod files;
mod first_sources;
mod gateway_log;
mod log_file;
mod log_pieces;
mod named_files;
mod options;
mod options_with_log;
mod outputs;
mod program_host;
mod record_counter;
mod role;
mod state_file;
mod state_reading;
mod stop;
mod stop_reason;
mod streams;

pub use crate::call::{ProgramCall, answer_line, print_ended_bindings, print_new_entries};
pub use crate::command::{RunResources, open, stop_of_run, words};
pub use crate::config_file::{
    MOST_BYTES, config_from, config_text, configuration, open_config, unread_config,
};
pub use crate::counted_sink::CountedSink;
pub use crate::devices::{LogDevice, OutputDevices, RunDevices, buffered};
pub use crate::file_location::{FileId, FileLocation, is_same, location_of};
pub use crate::file_locations::{is_log_lost, lost_file};
pub use crate::files::{FilesWithLog, InputFiles, RunFiles, open_files, open_inputs};
pub use crate::first_sources::FirstSources;
pub use crate::gateway_log::{GatewayLog, QuietMinute, take_name};
pub use crate::log_file::{LogOutput, SeekableFile};
pub use crate::log_pieces::LogPieces;
pub use crate::named_files::{NamedFiles, closed_text, input_reason, same_file_text, shared_text};
pub use crate::options::{LineFault, Manual, RunOptions, VERSION, parse_words, parse_words_of};
pub use crate::options_with_log::{OptionsWithLog, parse_words_with_log};
pub use crate::outputs::{creation_error, refuse_unmade};
pub use crate::program_host::ProgramHost;
pub use crate::record_counter::CountedSource;
pub use crate::role::FileRole;
pub use crate::state_file::{StateFile, new_path};
pub use crate::state_reading::{ResumedState, state_at, state_from, stop_of_state};
pub use crate::stop::{
    CaptureFaultName, LogRefusal, MEMORY, StateRefusal, StateRefusalName, Stop, StopLine,
    line_at_end, name_of_config_fault, status_at_end, stop_status,
};
pub use crate::stop_reason::{StopReason, misfit_reason, take_verbose};
pub use crate::streams::{StandardStreams, closed_stream, closed_stream_with_log};
