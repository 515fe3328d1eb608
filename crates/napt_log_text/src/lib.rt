//! The texts of the log of a run: rows of CSV, lines that say who had an endpoint, and a JSON
//! object for each packet. `specs/` defines every character that the functions write.
#![tactic(auto)]

mod date;
mod digits;
mod event;
mod holder;
mod json_object;
mod log_reader;
mod log_row;
mod log_rows;
mod request;
mod suffix;
mod time_stamp;

pub use digits::{add_address, add_endpoint, add_number};
pub use event::{LogEvent, header};
pub use holder::{add_holder, add_mark, add_nobody};
pub use json_object::JsonObject;
pub use log_reader::{LogFileFault, LogReader, log_has_rows};
pub use log_row::{LogField, LogRow};
pub use log_rows::{
    add_first, add_living, add_opening, add_part, begins_piece, effects_have_the_rows, log_grows,
    logs_join,
};
pub use napt_account::LogEntry;
pub use request::{NearestEntries, Request, TimeSpan};
pub use time_stamp::TimeStamp;
