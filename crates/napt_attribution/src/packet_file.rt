//! The packets of a run as CSV, with one row for each. docs/FORMATS.md describes its fields.

use crate::row_file::{RowFile, create_rows};
use napt_commands::{Exit, RunPacket};
use napt_log_text::add_number;
use napt_records::cause_name;
use napt_sequential::Outcome;
use napt_wire::Side;
use std::alloc::AllocError;
use std::io::Write;
use std::rt::Files;

/// The names of the fields.
const NAMES: &str = "number,time,side,outcome,cause,binding_out,binding_in\n";

/// The rows of packets that are being written. `W` is a file.
#[derive(Drop)]
pub struct PacketFile<'a, W> {
    pub rows: RowFile<'a, W>,
}

/// Begins the rows of packets in a file with the names of their fields.
pub fn begin_packets<'a, R: Files + Eprint + AllocGlobal>(
    rt: &R,
    path: &'a str,
    is_held: bool,
) -> Result<PacketFile<'a, R::File>, Exit> {
    let mut rows = create_rows(rt, "--packets", Some(path), is_held)?;
    rows.text.push_str(NAMES)?;
    Ok(PacketFile { rows })
}

impl<'a, W: Write + Drop> PacketFile<'a, W> {
    /// Appends the row of a packet.
    pub fn take<R: Files + Print + Eprint>(
        &mut self,
        rt: &R,
        passing: RunPacket<'_>,
    ) -> Result<(), Exit> {
        add_packet_row(passing, &mut self.rows.text)?;
        self.rows.write_if_full(rt)
    }
}

/// Appends the row of a packet.
fn add_packet_row(passing: RunPacket<'_>, text: &mut String) -> Result<(), AllocError> {
    let RunPacket {
        number,
        input,
        step,
    } = passing;
    add_number(text, number)?;
    text.push_str(",")?;
    add_number(text, input.time)?;
    text.push_str(match input.side {
        Side::Inside => ",inside,",
        Side::Outside => ",outside,",
    })?;
    match &step.outcome {
        Outcome::ToOutside(_) => text.push_str("to-outside,")?,
        Outcome::ToInside(_) => text.push_str("to-inside,")?,
        Outcome::Dropped(cause) => {
            text.push_str("dropped,")?;
            text.push_str(cause_name(*cause))?;
        }
    }
    add_binding_number(step.part.used.outbound, text)?;
    add_binding_number(step.part.used.inbound, text)?;
    text.push_str("\n")
}

/// Appends a comma, and the number of a binding in the log, if there is one.
fn add_binding_number(number: Option<u64>, text: &mut String) -> Result<(), AllocError> {
    text.push_str(",")?;
    match number {
        Some(number) => add_number(text, number),
        None => Ok(()),
    }
}
