//! Writes and reads, line by line, the text of a state from which a run can continue.
//!
//! `specs/StateText` defines the text and the meaning of its lines, and `napt_rules` a state.
#![tactic(auto)]

mod endpoints;
mod fault;
mod fields;
mod line;
mod liveness;
mod saved_bindings;
mod state_checks;
mod state_contents;
mod state_reader;
mod text;
mod wrong_words;

pub use fault::{StateFault, StateField, StateReason};
pub use line::{LogEnd, LogPosition};
pub use saved_bindings::SavedBinding;
pub use state_checks::first_misfit;
pub use state_contents::{StateFileContents, TakenState, ended_bindings_stay_ended, misfits_end};
pub use text::{read_state, write_state};
