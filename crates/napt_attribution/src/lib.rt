//! Answers to who had an external endpoint, and when. The commands `who`, `log` and `blocks` of
//! `explain` print them, from a run, from a saved log, or from the blocks of a configuration.
#![tactic(auto)]

mod answers;
mod blocks;
mod holders;
mod kept_entries;
mod laws;
mod log_file;
mod log_piece;
mod log_times;
mod owners;
mod packet_file;
mod requests;
mod row_fault;
mod row_file;
mod run_log;
mod saved_bindings;
mod saved_rows;
mod spans;
mod wanted_endpoints;

pub use crate::answers::{answer_by_blocks, answer_by_log};
pub use crate::blocks::print_blocks;
pub use crate::holders::Holders;
pub use crate::laws::saved_logs_name_the_holders;
pub use crate::log_file::LogOpening;
pub use crate::requests::{HolderRequest, parse_party, requests_at};
pub use crate::run_log::{LogPaths, RunLog, begin_run_log};
pub use crate::spans::{TimeFault, parse_span};
