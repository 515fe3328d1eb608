//! The reasons why a file cannot be used: another option names it, or the system refuses it.

use crate::config_file::MOST_BYTES;
use crate::file_location::{FileLocation, is_same, location_of};
use crate::options::{RunOptions, is_dash};
use crate::outputs::creation_error;
use crate::role::FileRole;
use crate::state_file::new_path;
use std::alloc::{AllocError, Global};
use std::fs::File;
use std::io::Read;
use std::rt::Files;
use std::{fs, io};

/// The paths of the standard streams.
const INPUT: &str = "/dev/stdin";

const OUTPUT: &str = "/dev/stdout";

/// The option that names the file of a state that is saved, and the new file next to it.
const SAVE: &str = "--save";

const BY_NEW: &str = "--save, by way of";

/// The files of a command line, with the name of the option of the outside capture.
#[derive(Clone, Copy)]
pub struct NamedFiles<'a> {
    pub files: &'a RunOptions,
    pub outside: &'static str,
}

/// A file with its name in messages: an option, or a standard stream in place of an absent one.
#[derive(Clone, Copy)]
struct NamedFile<'a> {
    name: &'static str,
    path: Option<&'a str>,
}

impl<'a> NamedFiles<'a> {
    /// Returns the name of the option of a role, with its dashes.
    pub fn option_of(self, role: FileRole) -> &'static str {
        match role {
            FileRole::Config => "--config",
            FileRole::Resume => "--resume",
            FileRole::Inside => "--inside",
            FileRole::Outside => self.outside,
            FileRole::ToOutside => "--to-outside",
            FileRole::ToInside => "--to-inside",
            FileRole::Report => "--report",
            FileRole::Save => SAVE,
            FileRole::Log => "--log",
        }
    }

    /// Returns why the file of a role cannot be used, after the option and the path, or `None` if
    /// the role has no path here. Nothing is created or changed. Fails only if memory is refused.
    pub fn reason<R: Files>(
        self,
        rt: &R,
        alloc: Global,
        role: FileRole,
    ) -> Result<Option<String>, AllocError> {
        let files = self.files;
        let path = match role {
            FileRole::Config => files.config.as_ref(),
            FileRole::Resume => files.resume.as_ref(),
            FileRole::Inside => files.inside.as_ref(),
            FileRole::Outside => files.outside.as_ref(),
            FileRole::ToOutside => files.to_outside.as_ref(),
            FileRole::ToInside => files.to_inside.as_ref(),
            FileRole::Report => files.report.as_ref(),
            FileRole::Save => files.save.as_ref(),
            FileRole::Log => None,
        };
        let Some(path) = path else {
            return Ok(None);
        };
        let name = self.option_of(role);
        match role {
            FileRole::Config | FileRole::Resume | FileRole::Inside | FileRole::Outside => {
                Ok(Some(input_reason(rt, alloc, name, path)?))
            }
            FileRole::Save => self.saved_reason(rt, alloc, path),
            _ => self.output_reason(rt, alloc, name, path),
        }
    }

    /// Returns why an output cannot be created, in the same form, or `None` if it can be.
    pub fn output_reason<R: Files>(
        self,
        rt: &R,
        alloc: Global,
        name: &str,
        path: &str,
    ) -> Result<Option<String>, AllocError> {
        match self.named_before(rt, name, path) {
            Some(other) => Ok(Some(same_file_text(alloc, name, path, other)?)),
            None => unmade_reason(rt, alloc, name, path),
        }
    }

    /// Returns why a log cannot be written to a path, in the same form, or `None` if it can be.
    pub fn log_reason<R: Files>(
        self,
        rt: &R,
        alloc: Global,
        path: &str,
    ) -> Result<Option<String>, AllocError> {
        if let Some(save) = &self.files.save {
            let (new, place) = (new_path(alloc, save)?, location_of(rt, path));
            if is_same(place, location_of(rt, save)) || is_same(place, location_of(rt, &new)) {
                return Ok(Some(same_file_text(alloc, "--log", path, SAVE)?));
            }
        }
        self.output_reason(rt, alloc, "--log", path)
    }

    /// Returns why a state cannot be saved to a path, by the file there or at the new file's path.
    fn saved_reason<R: Files>(
        self,
        rt: &R,
        alloc: Global,
        path: &str,
    ) -> Result<Option<String>, AllocError> {
        let new = new_path(alloc, path)?;
        if let Some(other) = self.saved_again(rt, path) {
            return Ok(Some(same_file_text(alloc, SAVE, path, other)?));
        }
        if let Some(other) = self.named_before(rt, SAVE, &new) {
            return Ok(Some(same_file_text(alloc, BY_NEW, &new, other)?));
        }
        if matches!(location_of(rt, path), FileLocation::Special) {
            return Ok(Some(not_a_file_text(alloc, SAVE, path)?));
        }
        if matches!(location_of(rt, &new), FileLocation::Special) {
            return Ok(Some(not_a_file_text(alloc, BY_NEW, &new)?));
        }
        unmade_reason(rt, alloc, SAVE, path)
    }

    /// Returns the earlier option that names the file of an output, if there is one.
    ///
    /// Files are compared by their identity (`is_same`), so another spelling of the path, or a
    /// link, is the same file.
    fn named_before<R: Files>(self, rt: &R, name: &str, path: &str) -> Option<&'static str> {
        let place = location_of(rt, path_or_stream(path, OUTPUT));
        let all = self.all();
        let again = all
            .iter()
            .take_while(|named| named.name != name)
            .find(|named| named.is_at(rt, place));
        again.map(|named| named.name)
    }

    /// Returns another option that names the file of a saved state. That of `--resume` may name it.
    fn saved_again<R: Files>(self, rt: &R, path: &str) -> Option<&'static str> {
        let place = location_of(rt, path);
        let all = self.all();
        let again = all
            .iter()
            .find(|named| named.name != "--resume" && named.is_at(rt, place));
        again.map(|named| named.name)
    }

    /// Returns the files of the options in their order, except for that of a state that is saved,
    /// and the standard streams that are in use because an option is absent.
    fn all(self) -> [NamedFile<'a>; 9] {
        let files = self.files;
        [
            NamedFile::new("--config", files.config.as_ref(), INPUT),
            NamedFile::new("--resume", files.resume.as_ref(), INPUT),
            NamedFile::new("--inside", files.inside.as_ref(), INPUT),
            NamedFile {
                name: "standard input",
                path: files.inside.is_none().then_some(INPUT),
            },
            NamedFile::new(self.outside, files.outside.as_ref(), INPUT),
            NamedFile {
                name: "standard output",
                path: files.to_outside.is_none().then_some(OUTPUT),
            },
            NamedFile::new("--to-outside", files.to_outside.as_ref(), OUTPUT),
            NamedFile::new("--to-inside", files.to_inside.as_ref(), OUTPUT),
            NamedFile::new("--report", files.report.as_ref(), OUTPUT),
        ]
    }
}

impl<'a> NamedFile<'a> {
    /// Returns the file of an option with its name, which is the standard stream for `-`.
    fn new(name: &'static str, path: Option<&'a String>, stream: &'a str) -> NamedFile<'a> {
        NamedFile {
            name,
            path: path.map(|path| path_or_stream(path, stream)),
        }
    }

    /// Returns whether it is the file at a place.
    fn is_at<R: Files>(self, rt: &R, place: FileLocation<'_>) -> bool {
        self.path
            .is_some_and(|other| is_same(place, location_of(rt, other)))
    }
}

/// Returns the path of a file, or of the standard stream for `-`.
fn path_or_stream<'a>(path: &'a str, stream: &'a str) -> &'a str {
    if is_dash(path) { stream } else { path }
}

/// Returns the message that the standard stream which a role uses is closed.
pub fn closed_text(alloc: Global, role: FileRole) -> Result<String, AllocError> {
    let (stream, name) = (stream_of(role), role.name());
    format!(in alloc; "{stream} is closed, and --{name} needs it")
}

/// Returns the message that a file is `-`, but another file uses the standard stream.
pub fn shared_text(alloc: Global, name: &str, role: FileRole) -> Result<String, AllocError> {
    let stream = stream_of(role);
    format!(in alloc; "{name} -: another file is {stream} too")
}

/// Returns the name of the standard stream that a role may use.
fn stream_of(role: FileRole) -> &'static str {
    match role {
        FileRole::Config | FileRole::Resume | FileRole::Inside | FileRole::Outside =>
            "standard input",
        FileRole::ToOutside
        | FileRole::ToInside
        | FileRole::Report
        | FileRole::Save
        | FileRole::Log => { "standard output" }
    }
}

/// Returns the message that another option names the file of an output, after its name and path.
pub fn same_file_text(
    alloc: Global,
    name: &str,
    path: &str,
    other: &str,
) -> Result<String, AllocError> {
    format!(in alloc; "{name} {path}: it is the file of {other}")
}

/// Returns the message that a path is not that of a regular file, so that no state is saved there.
fn not_a_file_text(alloc: Global, name: &str, path: &str) -> Result<String, AllocError> {
    format!(in alloc; "{name} {path}: expected a file, not a device, pipe or folder")
}

/// Returns the system's reason why an output cannot be created, or `None` if it has none.
fn unmade_reason<R: Files>(
    rt: &R,
    alloc: Global,
    name: &str,
    path: &str,
) -> Result<Option<String>, AllocError> {
    match creation_error(rt, path) {
        Some(error) => Ok(Some(format!(in alloc; "{name} {path}: {error}")?)),
        None => Ok(None),
    }
}

/// Returns why a file cannot be read, after its option and its path.
pub fn input_reason<R: Files>(
    rt: &R,
    alloc: Global,
    name: &str,
    path: &str,
) -> Result<String, AllocError> {
    match failure_of_reading(rt, path) {
        Some(error) => format!(in alloc; "{name} {path}: {error}"),
        None => {
            format!(in alloc;
                "{name} {path}: it cannot be read, or has more than {MOST_BYTES} bytes"
            )
        }
    }
}

/// Returns the system's reason why a file or folder cannot be read. A device or a pipe is not read.
fn failure_of_reading<R: Files>(rt: &R, path: &str) -> Option<io::Error> {
    match fs::metadata(rt, path) {
        Ok(known) if known.is_file() || known.is_dir() => failure_of_first(rt, path),
        Ok(_) => None,
        Err(error) => Some(error),
    }
}

fn failure_of_first<R: Files>(rt: &R, path: &str) -> Option<io::Error> {
    let mut first = [0u8; 1];
    match File::open(rt, path) {
        Ok(mut file) => file.read(&mut first).err(),
        Err(error) => Some(error),
    }
}
