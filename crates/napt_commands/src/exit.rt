//! The reasons for an exit status other than 0.

use napt_program::{MEMORY, Stop, stop_status};
use napt_records::Fault;
use napt_sequential::RunFault;
use std::alloc::{AllocError, AllocFailed};
use std::io;
use std::io::ErrorKind;

/// The reason why the program stops.
#[derive(Drop)]
pub enum Exit {
    /// A stop of `napt`, whose reason has already been printed.
    Printed(Stop),
    /// A stop of `napt`, whose fault line has not been printed yet.
    Unprinted(Stop),
    /// Standard output was closed at startup.
    NoOutput,
    /// Standard output cannot be written.
    Output(io::Error),
    /// Some packets have another outcome under the other configuration.
    Differences,
    /// Nobody had the endpoint in question.
    NoHolder,
    /// The captured gateway used other numbers than the run, as has already been printed.
    OtherNumbers,
    /// A saved log is refused, and the reason has already been printed.
    Log,
}

impl Exit {
    /// Returns the status of `napt`; 6 if standard output fails, as for a file; 4 if a saved log is
    /// refused, as for a capture; 7 if the captured gateway used other numbers; or 1 if packets
    /// differ or nobody had the endpoint.
    pub fn status(&self) -> u8 {
        match self {
            Exit::Printed(stop) | Exit::Unprinted(stop) => stop_status(stop),
            Exit::NoOutput | Exit::Output(_) => 6,
            Exit::Log => 4,
            Exit::OtherNumbers => 7,
            Exit::Differences | Exit::NoHolder => 1,
        }
    }

    /// Prints the reason, unless it has been printed already or standard output was a closed pipe.
    pub fn print<R: Eprint>(&self, rt: &R) {
        let _ = match self {
            Exit::Unprinted(stop) => eprintln!(rt; "explain: {stop}"),
            Exit::NoOutput => eprintln!(rt; "explain: standard output is closed"),
            // A program whose output pipe is closed ends without a message.
            Exit::Output(error) if error.kind() == ErrorKind::BrokenPipe => Ok(()),
            Exit::Output(error) => eprintln!(rt; "explain: standard output: {error}"),
            _ => Ok(()),
        };
    }
}

impl From<AllocError> for Exit {
    fn from(_refused: AllocError) -> Exit {
        Exit::Unprinted(MEMORY)
    }
}

impl<T: Drop> From<AllocFailed<T>> for Exit {
    fn from(_refused: AllocFailed<T>) -> Exit {
        Exit::Unprinted(MEMORY)
    }
}

impl From<RunFault> for Exit {
    fn from(fault: RunFault) -> Exit {
        Exit::Unprinted(Stop::Run(Fault::Run(fault)))
    }
}

impl From<io::Error> for Exit {
    fn from(error: io::Error) -> Exit {
        Exit::Output(error)
    }
}
