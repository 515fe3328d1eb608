//! Makes a call that may be refused memory or a thread, and checks that a refusal changed nothing.
//! `tests/refused_calls` runs it repeatedly, each time with another growth of memory refused.
//!
//! `pool` starts a pool of three workers, fills it and closes it. `run` runs over captures on two
//! workers, `workers` over their inputs, and `plain` on one thread. `streams` runs over captures as
//! they are read, and `devices` refuses each call of each device in turn. `dispatch` dispatches
//! these inputs to a pool that was started before, and `merge` merges them. `capture` and
//! `configuration` read one. `bindings`, `flows` and `ends` send packets through a table: of new
//! bindings, of new flows of existing bindings, and of bindings that have ended.
//!
//! One line on standard output says how it ended. Statuses: 0 done, 1 something is left, changed or
//! wrong, 2 usage, 3 memory was refused before the call, 4 memory was refused after it, 5 memory or
//! a thread was refused to it, 6 no line.

mod captures;
mod dispatching;
mod pool;
mod readers;
mod remainders;
mod run;
mod table;

use self::table::TableCall;
use std::alloc::AllocError;
use std::process::ExitCode;
use std::rt::Files;
use std::sync::Wait;
use std::thread::Threads;

/// The resources of the runtime that the calls need.
pub(crate) trait System: Files + AllocGlobal + Threads + Wait + Copy + Send + 'static {}

impl<R: Files + AllocGlobal + Threads + Wait + Copy + Send + 'static> System for R {}

/// The ways in which a call ends without its usual answer.
#[derive(Clone, Copy)]
pub(crate) enum CallResult {
    /// Memory was refused to the call, and nothing is left or changed.
    Memory,
    /// A thread was refused to the call, and nothing is left or changed.
    NoThread,
    /// Memory was refused before the call.
    Before,
    /// Memory was refused to the check after the call.
    After,
    /// Something is left, changed or wrong.
    Wrong(&'static str),
    /// The word does not name a call.
    Usage,
}

impl CallResult {
    /// Returns the line and the status.
    fn line_and_status(self) -> (&'static str, u8) {
        match self {
            CallResult::Memory => ("memory", 5),
            CallResult::NoThread => ("no-thread", 5),
            CallResult::Before => ("before", 3),
            CallResult::After => ("after", 4),
            CallResult::Wrong(what) => (what, 1),
            CallResult::Usage => ("usage", 2),
        }
    }
}

impl From<AllocError> for CallResult {
    fn from(_refused: AllocError) -> CallResult {
        CallResult::Before
    }
}

/// Makes the call that the word names, prints the line, and returns the status.
pub(crate) fn print_call<R: System + Print>(rt: &R, call: Option<&String>) -> ExitCode {
    let (line, status) = match ended(rt, call) {
        Ok(()) => ("done", 0),
        Err(end) => end.line_and_status(),
    };
    match println!(rt; "{line}") {
        Ok(()) => ExitCode::from(status),
        Err(_) => ExitCode::from(6),
    }
}

/// Makes the call that the word names.
fn ended(rt: &impl System, call: Option<&String>) -> Result<(), CallResult> {
    let alloc = rt.alloc();
    match call.map(String::as_str) {
        Some("pool") => pool::ended(rt),
        Some("run") => captures::ended(rt, true),
        Some("workers") => run::workers_ended(rt),
        Some("streams") => captures::ended(rt, false),
        Some("devices") => captures::devices_ended(rt),
        Some("plain") => run::plain_ended(alloc),
        Some("dispatch") => dispatching::ended(rt),
        Some("merge") => run::merge_ended(alloc),
        Some("capture") => readers::capture_ended(alloc),
        Some("configuration") => readers::configuration_ended(alloc),
        Some("bindings") => table::ended(alloc, TableCall::Bindings),
        Some("flows") => table::ended(alloc, TableCall::Flows),
        Some("ends") => table::ended(alloc, TableCall::Ends),
        _ => Err(CallResult::Usage),
    }
}
