//! The file of a log, which is new or continues that of an earlier run. A log may be in pieces.

ghost use Rattle.std.specs.Prelude.{◌≡◌, ◌==◌, ◌⊎◌, IfErr, IfOk, false, true};
ghost use Rattle.either.specs.Either.{is_left};
ghost use Rattle.napt_program.specs.{Files.is_stream_log, LogFiles.{LogTextIsKept, IsLogStop, bytes_before, is_last_row, last_row, refusal_at, row_hash}, Standard.is_dash};

use crate::devices::LogDevice;
use crate::gateway_log::GatewayLog;
use crate::log_pieces::LogPieces;
use crate::options::is_dash;
use crate::role::FileRole;
use crate::stop::{LogRefusal, Stop, unread};
use either::{Either, Left, Right};
use napt_state::LogEnd;
use std::fs::{File, OpenFile, OpenOptions};
use std::io::{Printer, Read, Seek, SeekFrom, Write};
use std::rt::Files;
use std::{fs, io};

/// An upper bound for a row in bytes: fewer bytes after the last row may be a partial row.
pub(crate) const MOST_TORN: usize = 4_096;

/// A log that is open for writing.
#[derive(Drop)]
pub struct LogOutput<D> {
    pub device: D,
    /// Whether the log has no text yet.
    pub is_new: bool,
}

/// Returns how many bytes of its text the log at `path`, in one file, retains, or 0 if it has no
/// text. `told` is the end of the log of the state, or `None` if the run starts without a state.
/// Changes nothing.
///
/// Fails with `Stop::LogFile` if the run must not append to the text, with the file's role if it
/// cannot be read, and with `MEMORY` if memory is refused.
pub(crate) fn bytes_to_keep<R: Files + AllocGlobal>(
    rt: &R,
    path: &str,
    told: Option<LogEnd>,
) -> Result<u64, Stop>
    ensures kept { IfOk result (LogTextIsKept told) }
    ensures stop { IfErr result IsLogStop }
{
    if is_dash(path) || bytes_at(rt, path) == 0 {
        return Ok(0);
    }
    let Some(told) = told else {
        return Err(Stop::LogFile(LogRefusal::NoState));
    };
    if told.length == 0 || told.piece > 0 {
        return Err(Stop::LogFile(LogRefusal::NoSavedLog));
    }
    match refusal_at(told, &text_around(rt, path, told.length)?) {
        Some(refusal) => Err(Stop::LogFile(refusal)),
        None => Ok(told.length),
    }
}

/// Returns the number of bytes of the file at `path`, or 0 if there is no file.
fn bytes_at<R: Files>(rt: &R, path: &str) -> u64 {
    match fs::metadata(rt, path) {
        Ok(known) if known.is_file() => known.len(),
        _ => 0,
    }
}

/// Returns the bytes of a file around a place: up to `MOST_TORN` before it, and from there on up to
/// one more than that. Fails as `bytes_to_keep` does.
pub(crate) fn text_around<R: Files + AllocGlobal>(
    rt: &R,
    path: &str,
    place: u64,
) -> Result<Vec<u8>, Stop>
    ensures { IfErr result IsLogStop }
{
    let mut file = File::open(rt, path).map_err(|error| unread(&error, FileRole::Log))?;
    file.seek(SeekFrom::Start(place.saturating_sub(MOST_TORN as u64)))
        .map_err(|error| unread(&error, FileRole::Log))?;
    let mut text = Vec::new(rt.alloc());
    file.take(place.min(MOST_TORN as u64) + MOST_TORN as u64 + 1)
        .read_to_end(&mut text)
        .map_err(|error| unread(&error, FileRole::Log))?;
    Ok(text)
}

/// Returns why a run must not append to this log, if it must not. `text` contains the bytes around
/// the end of the log of the state (`text_around`): the row before it must be the last row of that
/// log, and at most a partial row may follow it.
pub(crate) fn refusal_at(told: LogEnd, text: &[u8]) -> Option<LogRefusal>
    ensures { result ≡ refusal_at told text.now }
{
    let Some((before, after)) = text.split_at_checked(bytes_before(told.length)) else {
        return Some(LogRefusal::OtherLog(told.length));
    };
    if !is_last_row(told.row, before) {
        return Some(LogRefusal::OtherLog(told.length));
    }
    if after.len() < MOST_TORN && !after.contains(&b'\n') {
        None
    } else {
        Some(LogRefusal::ExtraText(told.length))
    }
}

/// Returns how many bytes before a place `text_around` reads.
fn bytes_before(place: u64) -> usize
    ensures { result ≡ bytes_before place }
{
    place.min(MOST_TORN as u64) as usize
}

/// Returns whether a text ends with a row that has this hash, and with its line feed.
fn is_last_row(hash: u64, text: &[u8]) -> bool
    ensures { result ≡ is_last_row hash text.now }
{
    match text {
        [rows @ .., b'\n'] => row_hash(last_row(rows)) == hash,
        _ => false,
    }
}

/// Returns the bytes after the last line feed.
fn last_row(text: &[u8]) -> &[u8]
    ensures { result.now ≡ last_row text.now }
{
    match text.iter().rposition(|byte| *byte == b'\n') {
        Some(place) => &text[place + 1..],
        None => text,
    }
}

/// Returns the FNV-1a hash of a row, of 64 bits.
pub(crate) fn row_hash(row: &[u8]) -> u64
    ensures { result ≡ row_hash row.now }
{
    row.iter().fold(
        14_695_981_039_346_656_037_u64,
        |hash, byte| (hash ^ u64::from(*byte)).wrapping_mul(1_099_511_628_211),
    )
}

/// Opens the file of a log for appending after the bytes that it retains, and removes the bytes
/// after them, or creates it. For `-`, returns standard output. Fails with the file's role.
pub(crate) fn open_log<'r, R: Files + Print, P>(
    rt: &'r R,
    path: &str,
    kept: u64,
) -> Result<LogOutput<Either<Either<Printer<'r, R>, R::File>, P>>, Stop>
    ensures stream { IfOk result (λ log. is_stream_log log.device ≡ is_dash path.now) }
    ensures one { IfOk result (λ log. is_left log.device ≡ true) }
    ensures new { is_dash path.now ≡ false → IfOk result (λ log. log.is_new ≡ (kept == 0)) }
    ensures refused { IfErr result (λ stop. stop ≡ Stop.File FileRole.Log) }
{
    if is_dash(path) {
        return Ok(LogOutput {
            device: Left(Left(io::writer(rt))),
            is_new: true,
        });
    }
    let file = OpenOptions::new()
        .read(true)
        .append(true)
        .create(true)
        .open(rt, path)
        .map_err(|_| Stop::File(FileRole::Log))?;
    if kept > 0 {
        file.set_len(kept).map_err(|_| Stop::File(FileRole::Log))?;
    }
    Ok(LogOutput {
        device: Left(Right(file)),
        is_new: kept == 0,
    })
}

/// A file of a log, which is written, and whose last row is then read.
pub trait SeekableFile: Read + Write + Seek + OpenFile {}

impl<F: Read + Write + Seek + OpenFile> SeekableFile for F {}

impl<'r, T: Write + Drop, F: SeekableFile + Drop, R: Files + AllocGlobal> LogOutput<
    LogDevice<Either<T, F>, LogPieces<'r, R>>,
> {
    /// Syncs the file, or the last piece, after the run. Returns the end of its text, whose numbers
    /// are all 0 if it is not a regular file. Fails with `Stop::Log`.
    pub fn synced_end(self) -> Result<LogEnd, Stop>
        ensures { IfErr result (λ stop. stop ≡ Stop.Log) }
    {
        let GatewayLog { device, .. } = self.device.into_inner();
        let writer = match device {
            Left(writer) => writer,
            Right(pieces) => return pieces.synced_end().map_err(|_| Stop::Log),
        };
        match writer.into_inner() {
            Ok(Right(file)) => synced_end(file, 0).map_err(|_| Stop::Log),
            Ok(Left(_)) => Ok(LogEnd::default()),
            Err(_) => Err(Stop::Log),
        }
    }
}

/// Syncs a file and returns its length in bytes, if it is a regular file.
pub(crate) fn synced_length<F: OpenFile>(file: &F) -> io::Result<Option<u64>> {
    let known = file.metadata()?;
    if !known.is_file() {
        return Ok(None);
    }
    file.sync_all()?;
    Ok(Some(known.len()))
}

/// Syncs a file of a log, which is the piece with this number, or the whole log if the number is 0.
/// Returns the end of its text, whose numbers are all 0 if it is not a regular file.
pub(crate) fn synced_end<F: SeekableFile + Drop>(mut file: F, piece: u64) -> io::Result<LogEnd> {
    let Some(length) = synced_length(&file)? else {
        return Ok(LogEnd::default());
    };
    let mut room = [0; MOST_TORN];
    let end = &mut room[..bytes_before(length)];
    file.seek(SeekFrom::Start(length - end.len() as u64))?;
    file.read_exact(end)?;
    let rows = end.strip_suffix(b"\n").unwrap_or(end);
    Ok(LogEnd {
        piece,
        length,
        row: row_hash(last_row(rows)),
    })
}
