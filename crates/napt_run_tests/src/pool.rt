//! Properties beyond the contracts: answers come, workers step together and without a request, and
//! the number of requests to a gate.

mod batches;
mod checked;
mod keeper;
mod rounds;
mod waiting;
mod watch;
mod watched;

/// The greatest number of times that a test looks for a step of another thread.
const MOST_LOOKS: u32 = 1_000_000;
