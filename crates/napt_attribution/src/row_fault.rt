//! The reasons why a saved log is refused.

use napt_config::Address;
use napt_log_text::LogFileFault;
use napt_records::EndpointText;
use napt_rules::Row;
use std::alloc::AllocFailed;
use std::io::ErrorKind;
use std::{fmt, io};

/// The reason why a log is refused.
#[derive(Drop)]
pub struct SavedLogRefusal {
    /// The number of the row in its piece, from 1.
    pub row: u64,
    pub fault: RowFault,
}

/// The fault of a row.
#[derive(Drop)]
pub enum RowFault {
    File(LogFileFault),
    /// The binding is outside its host's block.
    OutsideBlock(Row),
    /// The number of a new binding is not the next one.
    Number { next: u64, given: u64 },
    /// The piece neither repeats nor ends the entry of this number.
    NotRepeated(u64),
}

impl From<LogFileFault> for RowFault {
    fn from(fault: LogFileFault) -> RowFault {
        RowFault::File(fault)
    }
}

impl<T: Drop> From<AllocFailed<T>> for RowFault {
    fn from(_refused: AllocFailed<T>) -> RowFault {
        RowFault::File(LogFileFault::Unread(io::Error::from(ErrorKind::OutOfMemory)))
    }
}

impl fmt::Display for RowFault {
    fn fmt<W: fmt::Write>(&self, f: &mut fmt::Formatter<W>) -> fmt::Result {
        match self {
            RowFault::File(LogFileFault::Unread(error)) if error.kind() == ErrorKind::InvalidData =>
                { f.write_str("expected text in UTF-8") }
            RowFault::File(LogFileFault::Unread(error)) => write!(f, "{error}"),
            RowFault::File(LogFileFault::InvalidRow(why)) => f.write_str(why),
            RowFault::File(LogFileFault::IncompleteRow) => f.write_str(
                "it is incomplete, and is ignored",
            ),
            RowFault::Number { next, given } if given > next => write!(
                f,
                "binding: expected {next}, found {given}: earlier rows, or an earlier piece, are missing"
            ),
            RowFault::Number { next, given } => {
                write!(f, "binding: expected {next}, found {given}")
            }
            RowFault::NotRepeated(number) => write!(
                f,
                "binding {number} is neither repeated nor ended: a piece before it is missing, or they are out of order"
            ),
            RowFault::OutsideBlock(binding) => {
                let (host, external) = (Address(binding.inside.address), binding.external);
                let external = EndpointText(external);
                write!(
                    f,
                    "{host} has other numbers in the configuration than {external}: this is the log of another configuration"
                )
            }
        }
    }
}

/// Returns the fault of a row that is not a row of a log, with the text that was expected.
pub fn invalid_row(why: &'static str) -> RowFault {
    RowFault::File(LogFileFault::InvalidRow(why))
}
