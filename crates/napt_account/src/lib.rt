//! The log of a run in progress, which records when each binding was live and how many packets went
//! through it. It is proved to name exactly the host that had an external endpoint at a time.
#![tactic(auto)]

mod account;
mod binding_end;
mod binding_tally;
mod legs;
mod live_rows;
mod log;
mod log_builder;
mod log_start;
mod logged_run;
mod open_entries;
mod open_log;
mod party;

pub use crate::account::{Account, SavedLogState};
pub use crate::binding_tally::{BindingTally, LogNote};
pub use crate::log::{
    Entry, LogEntry, Shortage, effects_are_the_log, ended_entries_stay,
    held_numbers_have_one_holder, in_order_of_making, log_attributes, logs_go_on,
    parts_are_the_log, redirected,
};
pub use crate::log_builder::{InputPart, LogBuilder};
pub use crate::log_start::{LogFromState, started_logs_go_on};
pub use crate::logged_run::{LogStep, LoggedRun, RunFromState};
pub use crate::open_log::OpenLog;
pub use crate::party::Party;
