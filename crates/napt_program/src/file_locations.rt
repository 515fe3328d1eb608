//! Finds an output that would overwrite another file of the run.
ghost use Rattle.std.specs.Prelude.{◌≡◌, IfErr, IfOk, IfSome, is_some, not, true};
ghost use Rattle.napt_program.specs.CommandLine.{files_of};
ghost use Rattle.napt_program.specs.{FileLocations.{AreLocationsOf, is_named_elsewhere, is_special_file, is_input, is_log_named_again, is_placed, is_save_lost, is_saved_there, is_taken, is_there, output_named_again}, Standard.names_file};

use crate::file_location::{FileLocation, is_same, location_of};
use crate::options::{RunOptions, is_dash};
use crate::options_with_log::OptionsWithLog;
use crate::role::FileRole;
use crate::state_file::new_path;
use std::alloc::{AllocError, Global};
use std::rt::Files;

/// The paths of the standard streams.
const INPUT: &str = "/dev/stdin";

const OUTPUT: &str = "/dev/stdout";

/// The location of each option's file, and of the standard streams for `-` or absent options.
#[derive(Clone, Copy, Debug)]
struct FileLocations<'a> {
    config: Option<FileLocation<'a>>,
    resume: Option<FileLocation<'a>>,
    standard_input: Option<FileLocation<'a>>,
    inside: Option<FileLocation<'a>>,
    outside: Option<FileLocation<'a>>,
    standard_output: Option<FileLocation<'a>>,
    to_outside: Option<FileLocation<'a>>,
    to_inside: Option<FileLocation<'a>>,
    report: Option<FileLocation<'a>>,
    save: Option<SaveLocations<'a>>,
}

/// The locations of a state that is saved.
#[derive(Clone, Copy, Debug)]
struct SaveLocations<'a> {
    file: FileLocation<'a>,
    /// The location of the new file, which is written first.
    new: FileLocation<'a>,
}

/// Returns the role of the first output whose file an earlier option also names. A state may be
/// saved to the file that was read. Fails only if memory is refused, which only a saved state
/// needs.
pub fn lost_file<R: Files>(
    rt: &R,
    alloc: Global,
    options: &RunOptions,
) -> Result<Option<FileRole>, AllocError>
    ensures lost { IfOk result (λ lost. IfSome lost (λ role.
        names_file (files_of options.now) role ≡ true)) }
    ensures memory { IfErr result (λ _. names_file (files_of options.now) FileRole.Save ≡ true) }
{
    let new = path_of_new(alloc, options)?;
    Ok(lost_file_with_new(rt, options, new.as_ref()))
}

/// Returns the path of the new file of a state, if one is saved. Fails only if memory is refused.
fn path_of_new(alloc: Global, options: &RunOptions) -> Result<Option<String>, AllocError>
    ensures new { IfOk result (λ new. is_some new ≡ is_some options.now.save) }
    ensures memory { IfErr result (λ _. is_some options.now.save ≡ true) }
{
    match &options.save {
        Some(save) => Ok(Some(new_path(alloc, save)?)),
        None => Ok(None),
    }
}

/// Returns the result of `lost_file`, given the path of the new file if a state is saved.
fn lost_file_with_new<R: Files>(
    rt: &R,
    options: &RunOptions,
    new: Option<&String>,
) -> Option<FileRole>
    ensures { IfSome result (λ role. names_file (files_of options.now) role ≡ true) }
{
    output_named_again(&locations_of(rt, options, new))
}

/// Returns whether the log is a file that another option also names, or a standard stream. Fails
/// only if memory is refused, which is needed only if a state is saved.
pub fn is_log_lost<R: Files>(
    rt: &R,
    alloc: Global,
    options: &OptionsWithLog,
) -> Result<bool, AllocError>
    ensures lost { IfOk result (λ lost. lost ≡ true → is_some options.now.log ≡ true) }
    ensures memory { IfErr result (λ _. is_some options.now.files.save ≡ true) }
{
    let new = path_of_new(alloc, &options.files)?;
    let log = location_at(rt, options.log.as_ref(), OUTPUT);
    Ok(is_log_named_again(&locations_of(rt, &options.files, new.as_ref()), log))
}

/// Returns the locations of the options' files, given the new file's path if a state is saved.
fn locations_of<'a, R: Files>(
    rt: &R,
    options: &'a RunOptions,
    new: Option<&'a String>,
) -> FileLocations<'a>
    ensures { AreLocationsOf options.now result }
{
    FileLocations {
        config: location_at(rt, options.config.as_ref(), INPUT),
        resume: location_at(rt, options.resume.as_ref(), INPUT),
        standard_input: location_of_stream(rt, options.inside.as_ref(), INPUT),
        inside: location_at(rt, options.inside.as_ref(), INPUT),
        outside: location_at(rt, options.outside.as_ref(), INPUT),
        standard_output: location_of_stream(rt, options.to_outside.as_ref(), OUTPUT),
        to_outside: location_at(rt, options.to_outside.as_ref(), OUTPUT),
        to_inside: location_at(rt, options.to_inside.as_ref(), OUTPUT),
        report: location_at(rt, options.report.as_ref(), OUTPUT),
        save: match (&options.save, new) {
            (Some(save), Some(new)) => Some(SaveLocations {
                file: location_of(rt, save),
                new: location_of(rt, new),
            }),
            _ => None,
        },
    }
}

/// Returns the location of an option's file, or of the standard stream for `-`.
fn location_at<'a, R: Files>(
    rt: &R,
    path: Option<&'a String>,
    stream: &'a str,
) -> Option<FileLocation<'a>>
    ensures { is_some result ≡ is_some path.entry }
{
    match path {
        Some(path) if is_dash(path) => Some(location_of(rt, stream)),
        Some(path) => Some(location_of(rt, path)),
        None => None,
    }
}

/// Returns the location of the standard stream that replaces an absent option.
fn location_of_stream<'a, R: Files>(
    rt: &R,
    path: Option<&'a String>,
    stream: &'a str,
) -> Option<FileLocation<'a>>
    ensures { is_some result ≡ not (is_some path.entry) }
{
    match path {
        Some(_) => None,
        None => Some(location_of(rt, stream)),
    }
}

/// Returns the first output that is the same file as an earlier option.
fn output_named_again(places: &FileLocations<'_>) -> Option<FileRole>
    ensures first { result ≡ output_named_again places.now }
    ensures named { IfSome result (λ role. is_placed places.now role ≡ true) }
{
    let (to_outside, to_inside) = (places.to_outside, places.to_inside);
    if is_named_elsewhere(places, to_outside, None, None) {
        Some(FileRole::ToOutside)
    } else if is_named_elsewhere(places, to_inside, to_outside, None) {
        Some(FileRole::ToInside)
    } else if is_named_elsewhere(places, places.report, to_outside, to_inside) {
        Some(FileRole::Report)
    } else if is_save_lost(places) {
        Some(FileRole::Save)
    } else {
        None
    }
}

/// Returns whether the state cannot be saved: its file or its new file is a device, a pipe or a
/// folder, or is the file of another option, or the new file would replace the file of `resume`.
fn is_save_lost(places: &FileLocations<'_>) -> bool
    ensures again { result ≡ is_save_lost places.now places.now.save }
    ensures placed { result ≡ true → is_some places.now.save ≡ true }
{
    match places.save {
        Some(save) => {
            is_special_file(save.file)
                || is_special_file(save.new)
                || is_taken(places, save.file)
                || is_taken(places, save.new)
                || is_there(save.new, places.resume)
        }
        None => false,
    }
}

/// Returns whether it is a device, a pipe or a folder, which no new file may replace.
fn is_special_file(place: FileLocation<'_>) -> bool
    ensures { result ≡ is_special_file place.entry }
{
    matches!(place, FileLocation::Special)
}

/// Returns whether a file is another input or output, apart from the files of states.
fn is_taken(places: &FileLocations<'_>, file: FileLocation<'_>) -> bool
    ensures { result ≡ is_taken places.now file.entry }
{
    is_input(places, file)
        || is_there(file, places.to_outside)
        || is_there(file, places.to_inside)
        || is_there(file, places.report)
}

/// Returns whether the log is a file of another option, or a standard stream.
fn is_log_named_again(places: &FileLocations<'_>, log: Option<FileLocation<'_>>) -> bool
    ensures { result ≡ is_log_named_again places.now log.entry }
{
    match log {
        Some(file) => {
            is_named_elsewhere(places, log, places.to_outside, places.to_inside)
                || is_there(file, places.report)
                || is_saved_there(places, file)
        }
        None => false,
    }
}

/// Returns whether this file is the one to which a state is saved, or the new file for it.
fn is_saved_there(places: &FileLocations<'_>, file: FileLocation<'_>) -> bool
    ensures { result ≡ is_saved_there file.entry places.now.save }
{
    match places.save {
        Some(save) => is_same(file, save.file) || is_same(file, save.new),
        None => false,
    }
}

/// Returns whether a file is an input, a state, a standard stream or one of two other outputs.
fn is_named_elsewhere(
    places: &FileLocations<'_>,
    file: Option<FileLocation<'_>>,
    first: Option<FileLocation<'_>>,
    second: Option<FileLocation<'_>>,
) -> bool
    ensures { result ≡ is_named_elsewhere places.now file.entry first.entry second.entry }
{
    match file {
        Some(file) => {
            is_input(places, file)
                || is_there(file, places.resume)
                || is_there(file, first)
                || is_there(file, second)
        }
        None => false,
    }
}

fn is_input(places: &FileLocations<'_>, file: FileLocation<'_>) -> bool
    ensures { result ≡ is_input places.now file.entry }
{
    is_there(file, places.standard_input)
        || is_there(file, places.standard_output)
        || is_there(file, places.config)
        || is_there(file, places.inside)
        || is_there(file, places.outside)
}

/// Returns whether `place`, if there is one, is this file.
fn is_there(file: FileLocation<'_>, place: Option<FileLocation<'_>>) -> bool
    ensures { result ≡ is_there file.entry place.entry }
{
    match place {
        Some(place) => is_same(file, place),
        None => false,
    }
}
