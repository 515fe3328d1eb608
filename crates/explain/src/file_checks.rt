//! Prints why a file of the command line cannot be used. `napt_program` decides this, as for
//! `napt`, except for a log and for the files that `explain` writes.

use crate::options::ExplainOptions;
use napt_commands::{Exit, unwritten};
use napt_program::{
    FileRole, Stop, closed_text, is_same, location_of, same_file_text, shared_text,
};
use std::alloc::AllocError;
use std::fs;
use std::rt::Files;

/// Prints why the file of a role cannot be used, and returns the stop of `napt`.
pub fn print_file<R: Files + Eprint + AllocGlobal>(
    rt: &R,
    options: &ExplainOptions<'_>,
    role: FileRole,
) -> Exit {
    match print_if_some(rt, options.named_files().reason(rt, rt.alloc(), role)) {
        Ok(_) => Exit::Printed(Stop::File(role)),
        Err(refused) => Exit::from(refused),
    }
}

/// Prints a reason, if there is one, and returns whether there is.
fn print_if_some<R: Eprint>(
    rt: &R,
    reason: Result<Option<String>, AllocError>,
) -> Result<bool, AllocError> {
    match reason? {
        Some(text) => {
            let _ = eprintln!(rt; "explain: {text}");
            Ok(true)
        }
        None => Ok(false),
    }
}

/// Prints which other option names the file of an output.
fn print_again<R: Eprint + AllocGlobal>(
    rt: &R,
    name: &str,
    path: &str,
    other: &str,
) -> Result<bool, AllocError> {
    let text = same_file_text(rt.alloc(), name, path, other)?;
    print_if_some(rt, Ok(Some(text)))
}

/// Prints that the standard stream for a role is closed, and returns the stop of `napt`.
pub fn print_closed<R: Eprint + AllocGlobal>(rt: &R, role: FileRole) -> Exit {
    print_stopped(rt, closed_text(rt.alloc(), role), role)
}

/// Prints that a file is `-` although another option uses that standard stream, and returns the
/// stop of `napt`. `name` is the name of the file's option.
pub fn print_shared<R: Eprint + AllocGlobal>(rt: &R, name: &str, role: FileRole) -> Exit {
    print_stopped(rt, shared_text(rt.alloc(), name, role), role)
}

fn print_stopped<R: Eprint>(rt: &R, text: Result<String, AllocError>, role: FileRole) -> Exit {
    match text {
        Ok(text) => {
            let _ = eprintln!(rt; "explain: {text}");
            Exit::Printed(Stop::File(role))
        }
        Err(refused) => Exit::from(refused),
    }
}

/// Refuses a file that `explain` is to write if it is also read, is written twice or cannot be
/// created, and prints why.
pub fn refuse_written<R: Files + Eprint + AllocGlobal>(
    rt: &R,
    options: &ExplainOptions<'_>,
) -> Result<(), Exit> {
    let written = options.form.written_files();
    for (name, path) in written {
        if let Some(path) = path
            && print_unwritable(rt, options, name, path)?
        {
            return Err(unwritten());
        }
    }
    match written {
        [(first, Some(one)), (second, Some(other))]
            if is_same(location_of(rt, one), location_of(rt, other)) => {
            print_again(rt, second, other, first)?;
            Err(unwritten())
        }
        _ => Ok(()),
    }
}

/// Returns whether an output of `explain` cannot be written, and prints why. A log replaces no
/// text.
fn print_unwritable<R: Files + Eprint + AllocGlobal>(
    rt: &R,
    options: &ExplainOptions<'_>,
    name: &str,
    path: &str,
) -> Result<bool, AllocError> {
    if path == "-" {
        return print_again(rt, name, path, "standard output");
    }
    if print_if_some(
        rt,
        options
            .named_files()
            .output_reason(rt, rt.alloc(), name, path),
    )? {
        return Ok(true);
    }
    let has_text = name == "--to"
        && fs::metadata(rt, path).is_ok_and(|it| it.is_file() && it.len() > 0);
    if has_text {
        let _ = eprintln!(rt;
            "explain: --to {path}: it has text, which the log would replace: name a new file"
        );
    }
    Ok(has_text)
}

/// Refuses the log of `stream`, if one is named, if another option names its file too or it cannot
/// be created, and prints why.
pub fn refuse_log<R: Files + Eprint + AllocGlobal>(
    rt: &R,
    options: &ExplainOptions<'_>,
) -> Result<(), Exit> {
    let Some(path) = options.log else {
        return Ok(());
    };
    match print_if_some(rt, options.named_files().log_reason(rt, rt.alloc(), path))? {
        true => Err(Exit::Printed(Stop::File(FileRole::Log))),
        false => Ok(()),
    }
}
