//! Runs a translation over worker threads, one for each external address.
//!
//! [`dispatch`] offers the legs of all inputs to a pool of workers and takes their answers.
//! [`run_workers`] starts the pool, dispatches, joins the workers, and returns the sequential run.
#![tactic(auto)]

mod dispatcher;
mod faults;
mod inputs;
mod outcome_list;
mod outcome_sink;
mod worker;
mod workers;

pub use dispatcher::dispatch;
pub use faults::PassFault;
pub use outcome_sink::{InputResult, OutcomeSink};
pub use worker::Worker;
pub use workers::{RunSummary, run_through, run_workers};
