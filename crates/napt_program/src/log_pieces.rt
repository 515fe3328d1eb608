//! A log in pieces: the files FILE.1, FILE.2 and so on, each of which begins with the header.

ghost use Rattle.std.specs.{Prelude.{◌≡◌, ◌⊎◌, ℕ, ◌<◌, ◌^◌, ◌&&◌, IfErr, IfOk, IfSome, None, decimal, false, nat_lt, slice_index, string_bytes, true}, Io.{KnownBytes.WriteAppends, WritesAtMost}};
ghost use Rattle.napt_program.specs.LogFiles.{IsLogStop, IsNoPieceName, needs_new_piece, piece_name, piece_of};

use crate::devices::BUFFERED;
use crate::file_location::folder_of;
use crate::log_file::{MOST_TORN, refusal_at, synced_end, text_around};
use crate::role::FileRole;
use crate::stop::{LogRefusal, Stop, unread};
use napt_log_text::header;
use napt_state::LogEnd;
use std::alloc::{AllocError, Global};
use std::fs::{OpenFile, OpenOptions};
use std::io::{BufWriter, ErrorKind, Write};
use std::rt::Files;
use std::{fs, io};

/// The piece that is being written. Earlier pieces are unchanged and have been synced.
#[derive(Drop)]
pub struct LogPieces<'r, R: Files> {
    rt: &'r R,
    /// The path of the log. A dot and the number of a piece follow it.
    path: String,
    number: u64,
    piece: BufWriter<R::File>,
    /// Whether the piece has text.
    has_text: bool,
}

impl<'r, R: Files + AllocGlobal> LogPieces<'r, R> {
    /// Creates the next piece after number `last` of the log at `path`. Fails with the log's role,
    /// or with `MEMORY` if memory is refused.
    pub(crate) fn create_after(rt: &'r R, path: &str, last: u64) -> Result<LogPieces<'r, R>, Stop>
        ensures number { IfOk result (λ pieces. last < piece_of pieces) }
        ensures stop { IfErr result IsLogStop }
    {
        let path = String::from_str(rt.alloc(), path)?;
        let (number, piece) = piece_after(rt, &path, last).map_err(|error| unread(
            &error,
            FileRole::Log,
        ))?;
        Ok(LogPieces {
            rt,
            path,
            number,
            piece,
            has_text: false,
        })
    }

    /// Returns whether these bytes begin a new piece, with the header, and this piece has text.
    fn needs_new_piece(&self, bytes: &[u8]) -> bool
        ensures { result ≡ needs_new_piece self.now bytes.now }
    {
        self.has_text && bytes.starts_with(header().as_bytes())
    }

    /// Syncs the piece, and creates the next one.
    fn advance(&mut self) -> io::Result<()>
        ensures { IfOk result (λ _. piece_of self.old < piece_of self.new) }
    {
        self.piece.flush()?;
        self.piece.get_ref().sync_all()?;
        let (number, piece) = piece_after(self.rt, &self.path, self.number)?;
        self.number = number;
        self.piece = piece;
        self.has_text = false;
        Ok(())
    }

    /// Syncs the last piece after the run. Returns the end of its text.
    pub(crate) fn synced_end(self) -> io::Result<LogEnd> {
        let LogPieces { number, piece, .. } = self;
        match piece.into_inner() {
            Ok(file) => synced_end(file, number),
            Err(error) => Err(io::Error::from(error.error().kind())),
        }
    }
}

impl<'r, R: Files + AllocGlobal> Write for LogPieces<'r, R> {
    fn write(&mut self, bytes: &[u8]) -> io::Result<usize>
        ensures bound { WritesAtMost result bytes.now }
        ensures bytes { WriteAppends None None result bytes.now }
        ensures begins { needs_new_piece self.old bytes.now ≡ true →
            IfOk result (λ _. piece_of self.old < piece_of self.new) }
        ensures text { IfOk result (λ count. 0 < count → self.new.has_text ≡ true) }
        ensures stays { needs_new_piece self.old bytes.now ≡ false →
            piece_of self.new ≡ piece_of self.old }
    {
        if self.needs_new_piece(bytes) {
            self.advance()?;
        }
        let count = self.piece.write(bytes)?;
        self.has_text = self.has_text || count > 0;
        Ok(count)
    }

    fn flush(&mut self) -> io::Result<()>
        ensures { piece_of self.new ≡ piece_of self.old }
    {
        self.piece.flush()
    }
}

/// Creates the first piece after number `last` that does not exist, and returns it with its number.
fn piece_after<R: Files + AllocGlobal>(
    rt: &R,
    path: &str,
    last: u64,
) -> io::Result<(u64, BufWriter<R::File>)>
    ensures { IfOk result (λ made. last < made.0) }
{
    for before in last..u64::MAX {
        let number = before + 1;
        let name = name_of(rt.alloc(), path, number)?;
        let created = OpenOptions::new()
            .read(true)
            .write(true)
            .create_new(true)
            .open(rt, &name);
        match created {
            Ok(file) => {
                let piece = BufWriter::with_capacity(rt.alloc(), BUFFERED, file)?;
                return Ok((number, piece));
            }
            Err(error) if error.kind() == ErrorKind::AlreadyExists => {}
            Err(error) => return Err(error),
        }
    }
    Err(io::Error::from(ErrorKind::AlreadyExists))
}

fn name_of(alloc: Global, path: &str, number: u64) -> Result<String, AllocError>
    ensures { IfOk result (λ name. string_bytes name ≡ piece_name path.now number) }
{
    format!(in alloc; "{path}.{number}")
}

/// Returns the greatest number of an existing piece of the log at `path`, or 0 if there is none.
/// `told` is the end of the log of the state, or `None` without a state. Changes nothing.
///
/// Fails with the log's role if the state would be saved as a piece, or if the last piece or its
/// folder cannot be read; with `Stop::LogFile` if there is a piece but no state, or if the last
/// piece is not the one in which the log of the state ends, or does not end there; and with
/// `MEMORY` if memory is refused.
pub(crate) fn last_piece<R: Files + AllocGlobal>(
    rt: &R,
    path: &str,
    save: Option<&String>,
    told: Option<LogEnd>,
) -> Result<u64, Stop>
    ensures anew { told ≡ None → IfOk result (λ last. last ≡ 0) }
    ensures piece { IfSome told (λ told. IfOk result (λ last. (last ≡ 0) ⊎ (last ≡ told.piece))) }
    ensures save { IfOk result (λ _.
        IfSome save.entry (λ it. IsNoPieceName path.now (string_bytes it.now))) }
    ensures stop { IfErr result IsLogStop }
{
    if let Some(save) = save {
        if number_in(save, path) > 0 {
            return Err(Stop::File(FileRole::Log));
        }
    }
    let last = greatest_number(rt, path).map_err(|error| unread(&error, FileRole::Log))?;
    if last == 0 {
        return Ok(0);
    }
    let Some(told) = told else {
        return Err(Stop::LogFile(LogRefusal::NoState));
    };
    if told.piece == 0 {
        return Err(Stop::LogFile(LogRefusal::NoSavedLog));
    }
    if told.piece != last || !ends_at(rt, &name_of(rt.alloc(), path, last)?, told)? {
        return Err(Stop::LogFile(LogRefusal::OtherPiece(told.piece)));
    }
    Ok(last)
}

/// Returns whether the text of a piece ends where the log of a state does, with the same row. Fails
/// as `last_piece` does.
fn ends_at<R: Files + AllocGlobal>(rt: &R, name: &str, told: LogEnd) -> Result<bool, Stop>
    ensures { IfErr result IsLogStop }
{
    let text = text_around(rt, name, told.length)?;
    let is_longer = text.len() as u64 > told.length.min(MOST_TORN as u64);
    Ok(!is_longer && refusal_at(told, &text).is_none())
}

/// Returns the greatest number of a piece in the log's folder. Fails if that is unreadable.
fn greatest_number<R: Files + AllocGlobal>(rt: &R, path: &str) -> io::Result<u64> {
    let name = path.rsplit_once('/').map_or(path, |(_, name)| name);
    let folder = match folder_of(path) {
        Some(folder) if !name.is_empty() => folder,
        _ => return Err(io::Error::from(ErrorKind::InvalidFilename)),
    };
    let mut greatest = 0;
    for entry in fs::read_dir(&rt, folder)? {
        match entry {
            Ok(entry) => greatest = number_in(entry.file_name(), name).max(greatest),
            // A name that is not UTF-8 is not the name of a piece.
            Err(error) if error.kind() == ErrorKind::InvalidFilename => {}
            Err(error) => return Err(error),
        }
    }
    Ok(greatest)
}

/// Returns the number in the name of a piece of the log, or 0 if it is not such a name.
fn number_in(piece: &str, log: &str) -> u64
    ensures is { 0 < result → piece.now ≡ piece_name log.now result }
    ensures each { (number : ℕ) → 0 < number → number < 2 ^ 64
        → piece.now ≡ piece_name log.now number → result ≡ number }
{
    let Some(rest) = piece.strip_prefix(log) else {
        return 0;
    };
    match rest.strip_prefix('.') {
        Some(digits) => number_of(digits),
        None => 0,
    }
}

/// Returns a decimal number without a sign or leading zeros, or 0 if the text is not one.
fn number_of(text: &str) -> u64
    ensures is { 0 < result → text.now ≡ decimal result }
    ensures each { (number : ℕ) → 0 < number → number < 2 ^ 64 → text.now ≡ decimal number
        → result ≡ number }
{
    match text.parse() {
        Ok(number) if begins_with_1_to_9(text) => number,
        _ => 0,
    }
}

fn begins_with_1_to_9(text: &str) -> bool
    ensures { result ≡ nat_lt 48 (slice_index text.now 0) && nat_lt (slice_index text.now 0) 58 }
{
    matches!(text.as_bytes().first(), Some(b'1'..=b'9'))
}
