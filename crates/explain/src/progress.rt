//! Progress reports for a user who waits at a terminal.

use std::fs;
use std::rt::Files;

/// The number of packets between two reports. A shorter run has no report.
const EACH: u64 = 65_536;

/// The progress of a run.
#[derive(Clone, Copy)]
pub struct ExplainProgress {
    is_printed: bool,
}

impl ExplainProgress {
    /// Reports progress if standard error is a terminal and standard output is not. On a terminal,
    /// the lines themselves show the progress.
    pub fn new<R: Files + AllocGlobal>(rt: &R) -> ExplainProgress {
        ExplainProgress {
            is_printed: is_terminal(rt, "/proc/self/fd/2") && !is_terminal(rt, "/proc/self/fd/1"),
        }
    }

    /// Prints the number of packets so far, in place of the last report.
    pub fn print<R: Eprint>(self, rt: &R, number: u64) {
        if self.is_printed && number % EACH == 0 {
            let _ = eprint!(rt; "\rexplain: {number} packets    ");
        }
    }

    /// Prints the number of all packets, and ends the line, if there was a report.
    pub fn print_end<R: Eprint>(self, rt: &R, packets: u64) {
        if self.is_printed && packets >= EACH {
            let _ = eprintln!(rt; "\rexplain: {packets} packets    ");
        }
    }
}

/// Returns whether a stream of this process is a terminal, by the name of its file in Linux.
fn is_terminal<R: Files + AllocGlobal>(rt: &R, stream: &str) -> bool {
    let Ok(path) = fs::read_link(rt, stream) else {
        return false;
    };
    path.to_str().is_some_and(|name| name.starts_with("/dev/pts/") || name.starts_with("/dev/tty"))
}
