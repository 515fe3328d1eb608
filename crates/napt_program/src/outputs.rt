//! Finds outputs that cannot be created, without creating any, and syncs those of a run.

ghost use Rattle.std.specs.Prelude.{◌≡◌, IfErr, IsSome};
ghost use Rattle.napt_program.specs.{CommandLine.{CommandLineFiles, files_of}, Command.IsRunStop, Files.IsFileStop, declared.streams.StandardStreams.StandardStreams};

use crate::devices::OutputDevices;
use crate::file_location::folder_of;
use crate::log_file::synced_length;
use crate::options::{RunOptions, is_dash};
use crate::role::FileRole;
use crate::stop::Stop;
use either::{Either, Left, Right};
use napt_capture::{NullSink, Watched, WriteFault};
use napt_records::{Fault, Which};
use std::fs::{FileType, OpenFile, OpenOptions};
use std::io::{BufWriter, ErrorKind, Write};
use std::os::unix::fs::FileTypeExt;
use std::path::Path;
use std::rt::Files;
use std::{fs, io};

/// Fails with the role of the first output, in the order of the options, that cannot be created or
/// emptied, as far as `creation_error` can know. Creates and changes nothing.
pub fn refuse_unmade<R: Files>(rt: &R, options: &RunOptions) -> Result<(), Stop>
    ensures { IfErr result (IsFileStop (files_of options.now)) }
{
    refuse_unmade_file(rt, options.to_outside.as_ref(), FileRole::ToOutside)?;
    refuse_unmade_file(rt, options.to_inside.as_ref(), FileRole::ToInside)?;
    refuse_unmade_file(rt, options.report.as_ref(), FileRole::Report)?;
    match &options.save {
        Some(path) if !has_folder(rt, path) => Err(Stop::File(FileRole::Save)),
        _ => Ok(()),
    }
}

/// Returns whether `path` names a file in an existing folder, so that a new file can replace it.
fn has_folder<R: Files>(rt: &R, path: &str) -> bool {
    let Some(folder) = folder_of(path) else {
        return false;
    };
    let is_name = !path.is_empty() && !path.ends_with('/');
    is_name && fs::metadata(rt, folder).is_ok_and(|known| known.is_dir())
}

/// Fails with the role of a file that cannot be created or emptied.
fn refuse_unmade_file<R: Files>(rt: &R, path: Option<&String>, role: FileRole) -> Result<(), Stop>
    ensures refused { IfErr result (λ stop. stop ≡ Stop.File role) }
    ensures path { IfErr result (λ stop. IsSome path.entry) }
{
    match path {
        Some(path) if creation_error(rt, path).is_some() => Err(Stop::File(role)),
        _ => Ok(()),
    }
}

/// Returns why the file cannot be created or emptied, as far as that is known without touching it.
///
/// Opens an existing file for writing, which changes nothing, but not `-`, a device or a pipe. A
/// new file needs an existing folder. It is not known beforehand whether the folder accepts a file,
/// whether a link leads to a missing folder, and whether writing fails, such as on a full disk.
pub fn creation_error<R: Files>(rt: &R, path: &str) -> Option<io::Error> {
    if is_dash(path) {
        return None;
    }
    match fs::metadata(rt, path) {
        Ok(known) if is_device_or_pipe(known.file_type()) => None,
        Ok(_) => OpenOptions::new().write(true).open(rt, path).err(),
        Err(error) if error.kind() == ErrorKind::NotFound => missing_folder(rt, path, error),
        Err(error) => Some(error),
    }
}

/// Returns whether a file is a device or a pipe.
fn is_device_or_pipe(kind: FileType) -> bool {
    kind.is_fifo() || kind.is_char_device() || kind.is_block_device()
}

/// Returns why a missing file cannot be created: `error` if it has no name, or a missing folder.
fn missing_folder<R: Files>(rt: &R, path: &str, error: io::Error) -> Option<io::Error> {
    if path.is_empty() || path.ends_with('/') {
        return Some(error);
    }
    let folder = folder_of(path).unwrap_or(Path::new("."));
    fs::metadata(rt, folder).err()
}

impl<T: Write + Drop, F: Write + OpenFile + Drop> OutputDevices<T, F> {
    /// Syncs the outputs that are regular files to disk, before a state is saved that relies on
    /// them. Fails as if the output could not be written.
    pub fn sync(self) -> Result<(), Stop>
        ensures { (streams : StandardStreams) (named : CommandLineFiles) →
            IfErr result (IsRunStop streams named) }
    {
        let OutputDevices {
            to_outside,
            to_inside,
            report,
        } = self;
        let fault = WriteFault { written: 0 };
        if !is_synced(to_outside) {
            return Err(Stop::Run(Fault::Write(Which::Outside, fault)));
        }
        if !is_synced_if(to_inside) {
            return Err(Stop::Run(Fault::Write(Which::Inside, fault)));
        }
        if !is_synced_if(report) {
            return Err(Stop::Run(Fault::Write(Which::Report, fault)));
        }
        Ok(())
    }
}

/// Syncs an output as `is_synced` does, if there is one.
fn is_synced_if<T: Write + Drop, F: Write + OpenFile + Drop>(
    device: Either<Watched<BufWriter<Either<T, F>>>, NullSink>,
) -> bool {
    match device {
        Left(device) => is_synced(device),
        Right(_) => true,
    }
}

/// Syncs an output if it is a regular file. Returns whether that succeeded.
fn is_synced<T: Write + Drop, F: Write + OpenFile + Drop>(
    device: Watched<BufWriter<Either<T, F>>>,
) -> bool {
    match device.into_inner().into_inner() {
        Ok(Right(file)) => synced_length(&file).is_ok(),
        Ok(Left(_)) => true,
        Err(_) => false,
    }
}
