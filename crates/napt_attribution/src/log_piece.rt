//! A piece of a saved log, read from a device row by row.

ghost use Rattle.std.specs.Prelude.{◌≡◌, ◌++◌, ◌∷◌, [], ℕ, IfOk, IsErr, List, None, OnOk, Some, true, false, flat_map};
ghost use Rattle.napt_config.specs.Rules.{Rules};
ghost use Rattle.napt_rules.specs.Prelude.{Each};
ghost use Rattle.napt_log_text.specs.Rows.{csv_header, csv_row};
ghost use Rattle.napt_log_text.specs.LogRows.{IsEvent, saved_row};
ghost use Rattle.napt_log_text.specs.declared.event.LogEvent.{LogEvent as Told};
ghost use Rattle.napt_attribution.specs.SavedLogs as logs;
ghost use Rattle.napt_attribution.specs.declared.requests.HolderRequest.{HolderRequest as Asked};

use crate::row_fault::{RowFault, SavedLogRefusal, invalid_row};
use crate::saved_rows::SavedRows;
use napt_config::Config;
use napt_log_text::{LogFileFault, LogReader, LogRow};
use napt_rules::Row;
use napt_wire::Endpoint;
use std::alloc::Global;
use std::io::{BufRead, BufReader, Read};

/// A piece of a log.
#[derive(Clone, Copy)]
pub struct LogPiece<'c> {
    /// Whether it is the first piece, which must begin with the names of the fields.
    pub is_first: bool,
    /// The configuration of the run, if it is known.
    pub config: Option<&'c Config>,
}

impl LogPiece<'_> {
    /// Adds the rows of a device, up to the first row that is refused.
    pub fn add_to<D: Read + Drop>(
        self,
        rows: &mut SavedRows,
        alloc: Global,
        device: D,
    ) -> Result<(), SavedLogRefusal>
        ensures { (rules : Rules) (asked : List Asked) (events : List Told) → self.entry.is_first ≡ true →
            Each IsEvent events →
            D.remaining device ≡ Some (csv_header ++ flat_map (csv_row rules) events) →
            logs.RowsTrackEvents asked rows.old [] →
            OnOk result (logs.FollowAll [] events × logs.RowsTrackEvents asked rows.new events) }
    {
        let reader = match BufReader::new(alloc, device) {
            Ok(reader) => reader,
            Err(error) => return Err(header_refusal(LogFileFault::Unread(error))),
        };
        if self.is_first {
            match LogReader::open(alloc, reader) {
                Ok(mut log) => self.add_rows(rows, &mut log),
                Err(fault) => Err(header_refusal(fault)),
            }
        } else {
            let mut log = LogReader::for_piece(alloc, reader);
            match self.begin(rows, &mut log) {
                Ok(true) => self.add_rows(rows, &mut log),
                Ok(false) => Ok(()),
                Err(fault) => Err(SavedLogRefusal { row: 1, fault }),
            }
        }
    }

    /// Reads the first row of a later piece, which may be the names. Returns whether more may
    /// follow.
    fn begin<R: BufRead + Drop>(
        self,
        rows: &mut SavedRows,
        log: &mut LogReader<R>,
    ) -> Result<bool, RowFault> {
        let read = log.next();
        let has_names = log.is_at_header();
        rows.begin_piece(has_names)?;
        if has_names {
            return Ok(true);
        }
        self.add_read(rows, read)
    }

    /// Adds the rows of a log from the second one on.
    fn add_rows<R: BufRead + Drop>(
        self,
        rows: &mut SavedRows,
        log: &mut LogReader<R>,
    ) -> Result<(), SavedLogRefusal>
        ensures { (rules : Rules) (asked : List Asked) (events : List Told) → Each IsEvent events →
            R.remaining log.old.reader ≡ Some (flat_map (csv_row rules) events) →
            logs.RowsTrackEvents asked rows.old [] →
            OnOk result (logs.FollowAll [] events × logs.RowsTrackEvents asked rows.new events) }
    {
        for row in 2..u64::MAX {
            match self.add_next(rows, log) {
                Ok(true) => {}
                Ok(false) => return Ok(()),
                Err(fault) => return Err(SavedLogRefusal { row, fault }),
            }
        }
        Err(SavedLogRefusal {
            row: u64::MAX,
            fault: invalid_row("expected the end of the log"),
        })
    }

    /// Adds the next row of a log. Returns whether more may follow.
    fn add_next<R: BufRead + Drop>(
        self,
        rows: &mut SavedRows,
        log: &mut LogReader<R>,
    ) -> Result<bool, RowFault>
        ensures row { (rules : Rules) (asked : List Asked) (events : List Told) (event : Told)
            (rest : List ℕ) → IsEvent event →
            R.remaining log.old.reader ≡ Some (csv_row rules event ++ rest) →
            logs.RowsTrackEvents asked rows.old events → IfOk result (λ more. (more ≡ true)
            × logs.EventFollows (logs.entries_in events) event
            × logs.RowsTrackEvents asked rows.new (events ++ event ∷ [])
            × (R.remaining log.new.reader ≡ Some rest)) }
        ensures end { R.remaining log.old.reader ≡ Some [] →
            IfOk result (λ more. (more ≡ false) × (rows.new ≡ rows.old)) }
    {
        let read = log.next();
        self.add_read(rows, read)
    }

    /// Adds the row that was read, if any, and returns whether more may follow.
    fn add_read(
        self,
        rows: &mut SavedRows,
        read: Result<Option<LogRow>, LogFileFault>,
    ) -> Result<bool, RowFault>
        ensures row { (asked : List Asked) (events : List Told) (event : Told) →
            read ≡ Ok (Some (saved_row event)) → logs.RowsTrackEvents asked rows.old events →
            IfOk result (λ more. (more ≡ true) × logs.EventFollows (logs.entries_in events) event
            × logs.RowsTrackEvents asked rows.new (events ++ event ∷ [])) }
        ensures end { read ≡ Ok None →
            IfOk result (λ more. (more ≡ false) × (rows.new ≡ rows.old)) }
        ensures err { IsErr read → IsErr result }
    {
        match read {
            Ok(Some(row)) => self.add_row(rows, &row),
            Ok(None) => {
                rows.end_piece()?;
                Ok(false)
            }
            Err(fault) => Err(RowFault::File(fault)),
        }
    }

    /// Adds a row after the names, unless it is about the gateway, and returns that more may follow.
    fn add_row(self, rows: &mut SavedRows, row: &LogRow) -> Result<bool, RowFault>
        ensures { (asked : List Asked) (events : List Told) (event : Told) →
            row.now ≡ saved_row event → logs.RowsTrackEvents asked rows.old events →
            IfOk result (λ more. (more ≡ true) × logs.EventFollows (logs.entries_in events) event
            × logs.RowsTrackEvents asked rows.new (events ++ event ∷ [])) }
    {
        if row.is_of_gateway {
            rows.note_gateway(row);
            return Ok(true);
        }
        let made = rows.take(row)?;
        if let Some(binding) = made
            && self.is_elsewhere(&binding)
        {
            return Err(RowFault::OutsideBlock(binding));
        }
        Ok(true)
    }

    /// Returns whether a binding that is not a redirect is outside its host's configured block.
    fn is_elsewhere(self, binding: &Row) -> bool {
        let Endpoint { address, number } = binding.external;
        let config = self
            .config
            .filter(|it| it.block().is_some() && !binding.fixed);
        config.is_some_and(|it| it.host_of(address, number) != Some(binding.inside.address))
    }
}

/// Returns why the first row of a log is refused.
fn header_refusal(fault: LogFileFault) -> SavedLogRefusal {
    SavedLogRefusal {
        row: 1,
        fault: RowFault::File(fault),
    }
}
