//! Calls of the libraries, for the bench and for tests from outside.
//!
//! `napt_calls HOW [CONFIG]`, where HOW is `copy`, `merged`, `plain`, `workers` or `slow`, makes a
//! part of a run over the capture on standard input ([`runs`]). `napt_calls refused CALL` makes a
//! call that may be refused memory or a thread ([`refused`]). `napt_calls play` makes the calls in
//! the lines of standard input ([`play`]).
//!
//! Statuses, except for `refused`: 0 done, 1 wrong, 2 usage, 3 configuration, 4 capture, 5 memory,
//! 6 files and writing.
#![tactic(auto)]

mod play;
mod refused;
mod runs;

use std::env;
use std::env::Env;
use std::process::ExitCode;

/// The reason why the program stops early.
#[derive(Clone, Copy)]
enum CallFault {
    /// The arguments of a call violate its precondition.
    Unsent,
    Usage,
    Config,
    Capture,
    /// A call was refused memory, or a run failed.
    Call,
    File,
}

impl CallFault {
    fn status(self) -> u8 {
        match self {
            CallFault::Unsent => 1,
            CallFault::Usage => 2,
            CallFault::Config => 3,
            CallFault::Capture => 4,
            CallFault::Call => 5,
            CallFault::File => 6,
        }
    }
}

fn main(rt: HostRuntime) -> ExitCode {
    let words = match words(&rt) {
        Ok(words) => words,
        Err(stop) => return ExitCode::from(stop.status()),
    };
    let done = match words.get(1).map(String::as_str) {
        Some("refused") => return refused::print_call(&rt, words.get(2)),
        Some("play") => play::play_calls(&rt),
        _ => runs::measure(&rt, &words),
    };
    match done {
        Ok(()) => ExitCode::SUCCESS,
        Err(stop) => ExitCode::from(stop.status()),
    }
}

/// Returns the words of the command line, the program's name first.
fn words<R: Env + AllocGlobal>(rt: &R) -> Result<Vec<String>, CallFault> {
    match env::args(rt) {
        Ok(args) => args.collect(rt.alloc()).map_err(|_| CallFault::Call),
        Err(_) => Err(CallFault::Usage),
    }
}
