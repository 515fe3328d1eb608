//! Reads a log that `log` wrote. docs/FORMATS.md describes the order of its rows.

use crate::log_piece::LogPiece;
use crate::requests::HolderRequest;
use crate::row_fault::{RowFault, SavedLogRefusal};
use crate::saved_rows::{SavedBindings, SavedRows};
use napt_commands::{Exit, open_file};
use napt_config::Config;
use napt_log_text::LogFileFault;
use std::io::ErrorKind;
use std::rt::Files;

/// Reads the bindings that requests ask about from the log with pieces at these paths, in this
/// order. Prints why the log is refused, or that the last row of a piece is incomplete, and is
/// ignored.
pub fn read_saved<R: Files + Input + Eprint + AllocGlobal>(
    rt: &R,
    asked: &[HolderRequest],
    paths: &[String],
    config: Option<&Config>,
) -> Result<SavedBindings, Exit> {
    let mut rows = SavedRows::new(rt.alloc(), asked)?;
    let mut previous = None;
    for path in paths {
        let device = open_file(rt, "--from-log", path)?;
        let piece = LogPiece {
            is_first: previous.is_none(),
            config,
        };
        if let Err(refused) = piece.add_to(&mut rows, rt.alloc(), device) {
            print_refused(rt, path, previous, &refused)?;
        }
        previous = Some(path.as_str());
    }
    Ok(rows.into_bindings(rt.alloc())?)
}

/// Prints why a piece is refused, and returns the stop, or prints why its last row is ignored.
fn print_refused<R: Eprint>(
    rt: &R,
    path: &str,
    previous: Option<&str>,
    refused: &SavedLogRefusal,
) -> Result<(), Exit> {
    let SavedLogRefusal { row, fault } = refused;
    if let RowFault::File(LogFileFault::Unread(error)) = fault
        && error.kind() == ErrorKind::OutOfMemory
    {
        return Err(Exit::Unprinted(napt_program::MEMORY));
    }
    let _ = match (fault, previous) {
        (RowFault::NotRepeated(_), Some(previous)) => eprintln!(rt;
            "explain: --from-log {path}: it does not continue {previous}: {fault}"
        ),
        _ => eprintln!(rt; "explain: --from-log {path}: row {row}: {fault}"),
    };
    match fault {
        RowFault::File(LogFileFault::IncompleteRow) => Ok(()),
        _ => Err(Exit::Log),
    }
}
