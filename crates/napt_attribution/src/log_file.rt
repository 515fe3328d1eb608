//! The log of a run as CSV. docs/FORMATS.md describes its fields and the order of its rows;
//! `napt_log_text` defines its rows.

use crate::row_file::{RowFile, create_rows};
use napt_account::{LogEntry, OpenLog};
use napt_commands::{Exit, RunPacket};
use napt_config::Config;
use napt_log_text::{add_first, add_living, add_opening, add_part};
use std::io::Write;
use std::rt::Files;

/// The number of rows of live bindings that are added to the buffer at a time.
const LIVING: usize = 256;

/// A log that is being written. `W` is a file.
#[derive(Drop)]
pub struct LogFile<'a, W> {
    pub rows: RowFile<'a, W>,
}

/// The beginning of a log: the log as it was saved, the entries that end where the run begins, and
/// the entries that begin there.
#[derive(Clone, Copy)]
pub struct LogOpening<'a> {
    pub before: &'a OpenLog,
    pub ended: &'a [LogEntry],
    pub made: &'a [LogEntry],
}

/// Begins a log in a file or on standard output with the names of its fields, the entries that were
/// saved, and the entries that end or begin with the run.
pub fn begin_log<'a, R: Files + Print + Eprint + AllocGlobal>(
    rt: &R,
    path: Option<&'a str>,
    is_held: bool,
    config: &Config,
    opening: LogOpening<'_>,
) -> Result<LogFile<'a, R::File>, Exit> {
    let mut rows = create_rows(rt, "--to", path, is_held)?;
    add_opening(config, opening.before, &mut rows.text)?;
    add_first(config, opening.ended, opening.made, &mut rows.text)?;
    rows.write_if_full(rt)?;
    Ok(LogFile { rows })
}

impl<'a, W: Write + Drop> LogFile<'a, W> {
    /// Appends the rows of the events of a packet.
    pub fn take<R: Files + Print + Eprint>(
        &mut self,
        rt: &R,
        config: &Config,
        passing: RunPacket<'_>,
    ) -> Result<(), Exit> {
        add_part(config, &passing.step.part, &mut self.rows.text)?;
        self.rows.write_if_full(rt)
    }

    /// Writes the rows of the bindings that are live at the end, after all rows not written yet.
    pub fn finish<R: Files + Print + Eprint>(
        &mut self,
        rt: &R,
        config: &Config,
        living: &[LogEntry],
    ) -> Result<(), Exit> {
        for part in living.chunks(LIVING) {
            add_living(config, part, &mut self.rows.text)?;
            self.rows.write_if_full(rt)?;
        }
        self.rows.finish(rt)
    }
}
