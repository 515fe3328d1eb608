//! Reads a saved log row by row.
ghost use Rattle.std.specs.{Prelude.{◌≡◌, ◌≢◌, ◌++◌, ◌<◌, ℕ, List, [], IsOkAnd, length, string_bytes, true}, List.All};
ghost use Rattle.napt_config.specs.Rules.{Rules};
ghost use Rattle.napt_log_text.specs.Rows as rows;
ghost use Rattle.napt_log_text.specs.LogReaders as logs;
ghost use Rattle.napt_log_text.specs.LogRows as saved;
ghost use Rattle.napt_log_text.specs.declared.event.LogEvent.{LogEvent as Told};

use crate::event::{earlier_header, header};
use crate::log_row::LogRow;
use std::alloc::Global;
use std::io;
use std::io::BufRead;

/// The reason why a log is refused.
#[derive(Debug, Drop)]
pub enum LogFileFault {
    /// A read failed, memory was refused, or the bytes are not UTF-8.
    Unread(io::Error),
    /// A line is not a row of a log; the value says what was expected.
    InvalidRow(&'static str),
    /// The last row is incomplete: it has no line feed at its end.
    IncompleteRow,
}

/// A log that is read row by row, in the memory of its longest row.
#[derive(Drop)]
pub struct LogReader<R> {
    reader: R,
    line: String,
}

impl<R: BufRead + Drop> LogReader<R> {
    /// Reads the header, the names of the fields. An error says why the log is refused.
    pub fn open(alloc: Global, reader: R) -> Result<LogReader<R>, LogFileFault>
        ensures names { (rest : List ℕ) → R.remaining reader ≡ Some (rows.csv_header ++ rest) →
            logs.LogUnlessUnread result (IsOkAnd result (λ log. R.remaining log.reader ≡ Some rest)) }
        ensures earlier { (rest : List ℕ) →
            R.remaining reader ≡ Some (rows.earlier_header ++ rest) →
            logs.LogUnlessUnread result (IsOkAnd result (λ log. R.remaining log.reader ≡ Some rest)) }
    {
        let mut log = LogReader {
            reader,
            line: String::new(alloc),
        };
        if let Err(error) = log.reader.read_line(&mut log.line) {
            return Err(LogFileFault::Unread(error));
        }
        if log.is_at_header() {
            Ok(log)
        } else {
            Err(LogFileFault::InvalidRow(
                "expected the names of the fields, as explain log writes them",
            ))
        }
    }

    /// Returns the reader of a later piece of a log, and reads nothing yet.
    pub fn for_piece(alloc: Global, reader: R) -> LogReader<R>
        ensures { R.remaining result.reader ≡ R.remaining reader }
    {
        LogReader {
            reader,
            line: String::new(alloc),
        }
    }

    /// Returns whether the last line read is a header: that of this version or of the version
    /// before. Both kinds of rows can be in one log, since a resumed run appends rows of this version
    /// to an older log; they differ in the number of their fields.
    pub fn is_at_header(&self) -> bool
        ensures names { string_bytes self.now.line ≡ rows.csv_header → result ≡ true }
        ensures earlier { string_bytes self.now.line ≡ rows.earlier_header → result ≡ true }
    {
        let line = self.line.as_str();
        line == header() || line == earlier_header()
    }

    /// Reads the next row, or returns `None` at the end. An error says what was expected.
    pub fn next(&mut self) -> Result<Option<LogRow>, LogFileFault>
        ensures row { (rules : Rules) (event : Told) (rest : List ℕ) → saved.IsEvent event →
            R.remaining self.old.reader ≡ Some (rows.csv_row rules event ++ rest) →
            logs.LogUnlessUnread result ((result ≡ Ok (Some (saved.saved_row event)))
            × (R.remaining self.new.reader ≡ Some rest)) }
        ensures end { R.remaining self.old.reader ≡ Some [] →
            logs.LogUnlessUnread result (result ≡ Ok None) }
        ensures torn { (torn : List ℕ) → 0 < length torn → All (λ byte. byte ≢ 10) torn →
            R.remaining self.old.reader ≡ Some torn →
            logs.LogUnlessUnread result (result ≡ Err LogFileFault.IncompleteRow) }
    {
        self.line.clear();
        let length = match self.reader.read_line(&mut self.line) {
            Ok(length) => length,
            Err(error) => return Err(LogFileFault::Unread(error)),
        };
        if length == 0 {
            return Ok(None);
        }
        let Some(text) = self.line.as_str().strip_suffix('\n') else {
            return Err(LogFileFault::IncompleteRow);
        };
        match LogRow::read(text) {
            Some(row) => Ok(Some(row)),
            None => Err(LogFileFault::InvalidRow("expected as many fields as there are names")),
        }
    }
}

/// Law: a new log begins with its header, and any log contains the rows of its events, so that
/// [`LogReader`] reads these events, in order. The run may continue from a state.
#[tactic(auto, using(crate::proofs::SavedLogs::has_rows))]
pub fn log_has_rows()
    ensures { logs.LogHasRows }
{}
