//! The line of a binding that expired.

use crate::column_widths::{BEFORE, ColumnWidths};
use crate::digits::{add_endpoint, add_number, add_seconds, add_spaces, end_column};
use napt_account::Entry;
use napt_records::protocol_name;
use napt_table::Row;
use std::alloc::AllocError;

/// Appends the line of a binding that expired, aligned with the lines of packets.
pub fn add_end(text: &mut String, widths: ColumnWidths, entry: &Entry) -> Result<(), AllocError> {
    // The end of an expired binding is a time in 64 bits.
    let at = u64::try_from(entry.end.unwrap_or(0)).unwrap_or(u64::MAX);
    add_spaces(text, widths.number())?;
    text.push_str(" ")?;
    add_seconds(text, at, widths.seconds())?;
    text.push_str(" ended   ")?;
    let begin = text.len();
    add_binding(text, &entry.binding)?;
    end_column(text, begin, BEFORE)?;
    text.push_str("made at ")?;
    add_seconds(text, entry.made, 1)?;
    text.push_str(", last packet at ")?;
    add_seconds(text, entry.last, 1)?;
    text.push_str("; ")?;
    add_number(text, entry.sent)?;
    text.push_str(" out, ")?;
    add_number(text, entry.received)?;
    text.push_str(" in\n")
}

/// Appends a binding, such as `udp 10.0.0.2:5000 at 203.0.113.1:5000`.
pub fn add_binding(text: &mut String, binding: &Row) -> Result<(), AllocError> {
    text.push_str(protocol_name(binding.protocol))?;
    text.push_str(" ")?;
    add_endpoint(text, binding.inside)?;
    text.push_str(" at ")?;
    add_endpoint(text, binding.external)
}
