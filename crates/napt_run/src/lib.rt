//! A run from captures to captures, from a [`Start`] over its [`Devices`]. [`run_captures`] reads
//! both captures whole, runs in memory and then writes. [`run_streams`] reads, translates and
//! writes as the packets arrive, in bounded memory, and also writes the log of the run if its
//! devices have a [`LogWriter`]. If both succeed, they write the same bytes
//! ([`streams_write_the_same`]). Each returns a [`RunEnd`], from which the next run continues.
//!
//! [`merge`] makes the inputs of a run from the records of both captures. [`run_plain`] translates
//! them with the translators of all external addresses on one thread; [`run_workers`] translates
//! them by [`dispatch`], with one worker thread for each address. Both return the same run.
#![tactic(auto)]

mod buffered_text;
mod capture_run;
mod captures;
mod devices;
mod initial;
mod joined_texts;
mod laws;
mod log_start;
mod log_writer;
mod logged_outcome_writer;
mod outcome_writer;
mod output;
mod report_output;
mod run_end;
mod sources;
mod start;
mod stream_log;
mod stream_run;
mod streams;
mod whole_captures;

pub use captures::run_captures;
pub use devices::Devices;
pub use initial::initial_state;
pub use joined_texts::texts_join;
pub use laws::streams_write_the_same;
pub use log_start::LogStart;
pub use log_writer::LogWriter;
pub use napt_dispatch::{RunSummary, Worker, dispatch, run_workers};
pub use napt_records::{
    EndpointText, Fault, Which, cause_name, merge, merge_is_in_order, protocol_name, report_text,
};
pub use napt_rules::State;
pub use napt_sequential::{
    Input, NoTrace, Outcome, Run, RunFault, legs_are_local, places_stand_for_legs, right_answers,
    run_plain, runs_are_sound, runs_keep_the_quota, translators_are_local,
};
pub use run_end::RunEnd;
pub use start::Start;
pub use stream_log::{NoLog, StreamLog};
pub use streams::run_streams;
