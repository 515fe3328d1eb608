//! The times of the rows of a saved log, and the time for which it contains every binding.

ghost use Rattle.std.specs.Prelude.{◌≡◌, ◌<◌, IfOk};

use crate::row_fault::{RowFault, invalid_row};
use napt_log_text::LogField;

const NO_TIME: &str = "observationTimeNanoseconds: expected a number";

/// The times of the rows so far, in ns.
#[derive(Clone, Copy)]
pub struct LogTimes {
    /// The time at which the first binding other than a redirect was made.
    first: u64,
    /// The time of the first event other than the making of a binding.
    after_opening: Option<u64>,
    /// The time of the last event.
    last: u64,
    /// The greatest time of a row about the gateway, which shows that the log went on until then.
    went_on: u64,
    /// Whether bindings that ended before the log began are missing, as in a new file of a log.
    lacks: bool,
    /// Whether bindings before the next one may be missing.
    may_lack: bool,
}

impl LogTimes {
    /// Returns the value before the first row.
    pub fn new() -> LogTimes {
        LogTimes {
            first: u64::MAX,
            after_opening: None,
            last: 0,
            went_on: 0,
            lacks: false,
            may_lack: true,
        }
    }

    /// Returns the time from which on the log contains every binding, and that of its last row. If
    /// bindings are missing, the former is the time of the first event other than a making.
    pub fn covered_span(&self) -> (u64, u64) {
        let last = self.last.max(self.went_on);
        let first = match self.after_opening {
            _ if !self.lacks => self.first.min(last),
            Some(at) => at,
            None => self.last,
        };
        (first, last)
    }

    /// Records the time of a row about the gateway, if it has one.
    pub fn note_gateway(&mut self, time: LogField) {
        if let LogField::Number(time) = time
            && let Ok(at) = u64::try_from(time)
        {
            self.went_on = self.went_on.max(at);
        }
    }

    /// Returns the time at which a row makes a binding.
    pub fn made(&mut self, time: LogField, is_redirect: bool) -> Result<u64, RowFault>
        ensures { IfOk result (λ at. time ≡ LogField.Number at) }
    {
        let at = self.next(time)?;
        if !is_redirect {
            self.first = self.first.min(at);
        }
        Ok(at)
    }

    /// Returns the time of an event other than the making of a binding.
    pub fn time_of_other(&mut self, time: LogField) -> Result<u64, RowFault>
        ensures { IfOk result (λ at. time ≡ LogField.Number at) }
    {
        let at = self.next(time)?;
        self.after_opening = self.after_opening.or(Some(at));
        Ok(at)
    }

    /// Returns the number of a new binding: the next one, or a later one if any may be missing.
    pub fn number_after(&mut self, made: u64, number: LogField) -> Result<u64, RowFault>
        ensures { IfOk result (λ given. (number ≡ LogField.Number given) × (made < given)) }
    {
        let next = made.saturating_add(1);
        let given = match number {
            LogField::Number(number) => u64::try_from(number).unwrap_or(0),
            _ => 0,
        };
        if given <= made || (given > next && !self.may_lack) {
            return Err(RowFault::Number { next, given });
        }
        self.lacks |= given > next;
        self.may_lack &= self.after_opening.is_none();
        Ok(given)
    }

    /// Returns the time of an event, which is no earlier than the times of the rows above.
    fn next(&mut self, time: LogField) -> Result<u64, RowFault>
        ensures { IfOk result (λ at. time ≡ LogField.Number at) }
    {
        let LogField::Number(time) = time else {
            return Err(invalid_row(NO_TIME));
        };
        match u64::try_from(time) {
            Ok(at) if at >= self.last => {
                self.last = at;
                Ok(at)
            }
            Ok(_) => Err(invalid_row("observationTimeNanoseconds: earlier than in a row above")),
            Err(_) => Err(invalid_row(NO_TIME)),
        }
    }
}
