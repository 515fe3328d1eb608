//! The end of a run.

use napt_account::OpenLog;
use napt_dispatch::RunSummary;

/// The end of a run, from which the next run continues.
#[derive(Drop)]
pub struct RunEnd {
    /// The counts of the run, with the bindings at its end, from which its state is made.
    pub summary: RunSummary,
    /// The open entries of the log, which are saved with the state. A run without a log has none.
    pub log: OpenLog,
}
