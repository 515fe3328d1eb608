//! Files that commands read or write in addition to captures, and why one cannot be used.

use crate::exit::Exit;
use either::Either;
use napt_program::{FileRole, Stop, config_text, input_reason, open_config};
use std::io;
use std::rt::Files;

/// Prints that a file failed, with its name and path and the system's reason.
pub fn print_failed<R: Eprint>(rt: &R, name: &str, path: &str, error: &io::Error) {
    let _ = eprintln!(rt; "explain: {name} {path}: {error}");
}

/// Prints that a file cannot be written, with the system's reason, and returns the stop.
pub fn print_unwritten<R: Eprint>(rt: &R, name: &str, path: &str, error: &io::Error) -> Exit {
    print_failed(rt, name, path, error);
    unwritten()
}

/// Prints that a file cannot be written if the system gives no reason, and returns the stop.
pub fn print_unexplained<R: Eprint>(rt: &R, name: &str, path: &str) -> Exit {
    let _ = eprintln!(rt; "explain: {name} {path}: it cannot be written completely");
    unwritten()
}

/// Returns the stop if a file cannot be written, which is that of `napt` for an output.
pub fn unwritten() -> Exit {
    Exit::Printed(Stop::File(FileRole::Report))
}

/// Opens the file of the option `name` for reading, or standard input for `-`, or prints why not.
pub fn open_file<R: Files + Input + Eprint + AllocGlobal>(
    rt: &R,
    name: &str,
    path: &str,
) -> Result<Either<R::Reader, R::File>, Exit> {
    match open_config(rt, path) {
        Ok(device) => Ok(device),
        Err(stop) => Err(print_unread(rt, name, path, stop)),
    }
}

/// Reads a file of at most 64 MiB, as a configuration, and prints the reason if that fails.
pub fn text_at<R: Files + Input + Eprint + AllocGlobal>(
    rt: &R,
    name: &str,
    path: &str,
) -> Result<Vec<u8>, Exit> {
    match config_text(rt.alloc(), open_file(rt, name, path)?) {
        Ok(text) => Ok(text),
        Err(stop) => Err(print_unread(rt, name, path, stop)),
    }
}

/// Prints why a file (missing, unreadable, or too long) cannot be used, and returns the stop.
fn print_unread<R: Files + Eprint + AllocGlobal>(
    rt: &R,
    name: &str,
    path: &str,
    stop: Stop,
) -> Exit {
    if !matches!(stop, Stop::File(_)) {
        return Exit::Unprinted(stop);
    }
    match input_reason(rt, rt.alloc(), name, path) {
        Ok(text) => {
            let _ = eprintln!(rt; "explain: {text}");
            Exit::Printed(stop)
        }
        Err(refused) => Exit::from(refused),
    }
}
