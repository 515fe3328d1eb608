//! The files of a run, which are opened in a fixed order.

ghost use Rattle.std.specs.Prelude.{◌≡◌, IfErr, IfOk, IsSome, None, false, option_map, string_bytes, true};
ghost use Rattle.either.specs.Either.{is_left};
ghost use Rattle.napt_program.specs.{CommandLine.{files_of, files_with_log}, Files.{AreInputsOpen, AreNamedFilesOpen, AreOpenWithLog, IsFileStop, IsOpenStop}};
ghost use Rattle.napt_program.specs.{LogFiles.LogTextIsKept, Standard.{has_pieces, is_dash}};

use crate::file_locations::{is_log_lost, lost_file};
use crate::log_file::{LogOutput, bytes_to_keep, open_log};
use crate::log_pieces::{LogPieces, last_piece};
use crate::options::{RunOptions, is_dash};
use crate::options_with_log::OptionsWithLog;
use crate::role::FileRole;
use crate::stop::{MEMORY, Stop};
use either::{Either, Left, Right};
use napt_state::LogEnd;
use std::fs::File;
use std::io;
use std::io::Printer;
use std::rt::Files;

/// The open files of a run: those that are named, and the standard streams for `-` and for captures
/// that are not named. `S` reads standard input, `T` writes standard output, and `F` is a file.
#[derive(Drop)]
pub struct RunFiles<S, T, F> {
    /// The capture of the packets that inside hosts send.
    pub inside: Either<S, F>,
    /// The capture of the packets that come from the outside.
    pub outside: Option<Either<S, F>>,
    /// The capture of the packets that go to the outside.
    pub to_outside: Either<T, F>,
    /// The capture of the packets that go to inside hosts.
    pub to_inside: Option<Either<T, F>>,
    /// The report.
    pub report: Option<Either<T, F>>,
}

/// The open files of a run with a log. `P` is the type of the pieces of a log.
#[derive(Drop)]
pub struct FilesWithLog<S, T, F, P> {
    /// All files other than the log.
    pub files: RunFiles<S, T, F>,
    /// The log, if it is named.
    pub log: Option<LogOutput<Either<Either<T, F>, P>>>,
}

/// The open files of a run on the runtime `R`.
pub type OpenFiles<'r, R> = FilesWithLog<
    Box<<R as Input>::Reader>,
    Printer<'r, R>,
    <R as Files>::File,
    LogPieces<'r, R>,
>;

/// The open captures of a run: those that are named, and standard input for `-` and for an inside
/// capture that is not named.
#[derive(Drop)]
pub struct InputFiles<S, F> {
    /// The capture of the packets that inside hosts send.
    pub inside: Either<S, F>,
    /// The capture of the packets that come from the outside.
    pub outside: Option<Either<S, F>>,
}

/// Opens the captures, the inside first, then creates or empties the outputs: to the outside, to
/// the inside, the report, the log. `told` is the end of the log of the state, if there is a state.
///
/// Fails with the role of a file that cannot be opened or created. Before any output is touched, it
/// fails for an output that an earlier option names, or if the log or memory is refused.
pub fn open_files<'r, R: Files + Input + Print + AllocGlobal>(
    rt: &'r R,
    options: &OptionsWithLog,
    told: Option<LogEnd>,
) -> Result<OpenFiles<'r, R>, Stop>
    ensures open { IfOk result (AreOpenWithLog (files_with_log options.now)) }
    ensures refused { IfErr result (IsOpenStop (files_with_log options.now)) }
{
    let inputs = open_inputs(rt, &options.files)?;
    let kept = saved_log_place(rt, options, told)?;
    let files = with_outputs(rt, &options.files, inputs)?;
    let log = match &options.log {
        Some(path) if options.has_pieces() => Some(LogOutput {
            device: Right(LogPieces::create_after(rt, path, kept)?),
            is_new: true,
        }),
        Some(path) => Some(open_log(rt, path, kept)?),
        None => None,
    };
    Ok(FilesWithLog { files, log })
}

/// Returns how many bytes the log retains, or the number of its last piece. Changes nothing. Fails
/// with its role if another option names it, and as `bytes_to_keep` and `last_piece` do.
fn saved_log_place<R: Files + AllocGlobal>(
    rt: &R,
    options: &OptionsWithLog,
    told: Option<LogEnd>,
) -> Result<u64, Stop>
    ensures kept { has_pieces (files_with_log options.now) ≡ false →
        IfOk result (LogTextIsKept told) }
    ensures anew { told ≡ None → IfOk result (λ kept. kept ≡ 0) }
    ensures refused { IfErr result (IsOpenStop (files_with_log options.now)) }
{
    let Some(path) = &options.log else {
        return Ok(0);
    };
    if is_log_lost(rt, rt.alloc(), options)? {
        return Err(Stop::File(FileRole::Log));
    }
    if options.has_pieces() {
        return last_piece(rt, path, options.files.save.as_ref(), told);
    }
    bytes_to_keep(rt, path, told)
}

/// Creates or empties the outputs of a run. Fails with the role of one that cannot be created.
fn with_outputs<'r, R: Files + Input + Print>(
    rt: &'r R,
    options: &RunOptions,
    inputs: InputFiles<Box<R::Reader>, R::File>,
) -> Result<RunFiles<Box<R::Reader>, Printer<'r, R>, R::File>, Stop>
    ensures open { AreInputsOpen (files_of options.now) inputs
        → IfOk result (AreNamedFilesOpen (files_of options.now)) }
    ensures refused { IfErr result (IsFileStop (files_of options.now)) }
{
    let InputFiles { inside, outside } = inputs;
    let to_outside = match &options.to_outside {
        None => Left(io::writer(rt)),
        Some(path) => create_file(rt, path, FileRole::ToOutside)?,
    };
    Ok(RunFiles {
        inside,
        outside,
        to_outside,
        to_inside: create_file_if_named(rt, options.to_inside.as_ref(), FileRole::ToInside)?,
        report: create_file_if_named(rt, options.report.as_ref(), FileRole::Report)?,
    })
}

/// Opens the captures, the inside first. Creates and empties nothing.
///
/// Fails with the role of a capture that cannot be opened, then with the role of an output that an
/// earlier option also names, and with `MEMORY` if memory is refused.
pub fn open_inputs<R: Files + Input + AllocGlobal>(
    rt: &R,
    options: &RunOptions,
) -> Result<InputFiles<Box<R::Reader>, R::File>, Stop>
    ensures open { IfOk result (AreInputsOpen (files_of options.now)) }
    ensures refused { IfErr result (IsOpenStop (files_of options.now)) }
{
    let inside = match &options.inside {
        None => Left(standard_input(rt)?),
        Some(path) => open_file(rt, path, FileRole::Inside)?,
    };
    let outside = match &options.outside {
        None => None,
        Some(path) => Some(open_file(rt, path, FileRole::Outside)?),
    };
    refuse_lost_file(rt, options)?;
    Ok(InputFiles { inside, outside })
}

/// Fails with the role of the first output that an earlier option also names, or with `MEMORY`.
fn refuse_lost_file<R: Files + AllocGlobal>(rt: &R, options: &RunOptions) -> Result<(), Stop>
    ensures { IfErr result (IsOpenStop (files_of options.now)) }
{
    match lost_file(rt, rt.alloc(), options)? {
        Some(role) => Err(Stop::File(role)),
        None => Ok(()),
    }
}

/// Opens a file for reading, or standard input for `-`. Fails with its role, or with `MEMORY` if
/// memory for standard input is refused.
fn open_file<R: Files + Input + AllocGlobal>(
    rt: &R,
    path: &str,
    role: FileRole,
) -> Result<Either<Box<R::Reader>, R::File>, Stop>
    ensures stream { IfOk result (λ file. is_left file ≡ is_dash path.now) }
    ensures file { is_dash path.now ≡ false → IfErr result (λ stop. stop ≡ Stop.File role) }
    ensures input { is_dash path.now ≡ true → IfErr result (λ stop. stop ≡ MEMORY) }
{
    if is_dash(path) {
        return Ok(Left(standard_input(rt)?));
    }
    let file = File::open(rt, path).map_err(|_| Stop::File(role))?;
    Ok(Right(file))
}

/// Returns the reader of standard input. Its buffer of 8 KiB is on the heap, since moving it on a
/// stack that cannot grow could end the program silently. Fails with `MEMORY` if memory is refused.
fn standard_input<R: Input + AllocGlobal>(rt: &R) -> Result<Box<R::Reader>, Stop>
    ensures { IfErr result (λ stop. stop ≡ MEMORY) }
{
    Box::new(rt.alloc(), rt.reader()).map_err(|_| MEMORY)
}

/// Creates or empties a file for writing, or returns standard output for `-`. Fails with its role.
fn create_file<'r, R: Files + Print>(
    rt: &'r R,
    path: &str,
    role: FileRole,
) -> Result<Either<Printer<'r, R>, R::File>, Stop>
    ensures stream { IfOk result (λ file. is_left file ≡ is_dash path.now) }
    ensures refused { IfErr result (λ stop. stop ≡ Stop.File role) }
{
    if is_dash(path) {
        return Ok(Left(io::writer(rt)));
    }
    let file = File::create(rt, path).map_err(|_| Stop::File(role))?;
    Ok(Right(file))
}

/// Creates or empties a file as `create_file` does, if there is a path.
fn create_file_if_named<'r, R: Files + Print>(
    rt: &'r R,
    path: Option<&String>,
    role: FileRole,
) -> Result<Option<Either<Printer<'r, R>, R::File>>, Stop>
    ensures stream { IfOk result (λ made. option_map is_left made
        ≡ option_map (λ path. is_dash (string_bytes path.now)) path.entry) }
    ensures refused { IfErr result (λ stop. stop ≡ Stop.File role) }
    ensures path { IfErr result (λ stop. IsSome path.entry) }
{
    match path {
        None => Ok(None),
        Some(path) => Ok(Some(create_file(rt, path, role)?)),
    }
}
