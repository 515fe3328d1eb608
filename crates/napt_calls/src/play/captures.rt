//! Reads and writes captures.

use crate::CallFault;
use crate::play::line::{Line, print_answer};
use napt_capture::{LARGEST_RECORD, Record, Watched, read_capture, write_capture};

/// The first time in ns that a capture cannot contain: 2 ^ 32 seconds.
const TIMES_END: u64 = 4_294_967_296_000_000_000;

/// `read_capture BYTES`: prints the capture, or its fault.
pub(crate) fn print_read<R: Print>(line: &mut Line<'_, R>) -> Result<(), CallFault> {
    let bytes = line.bytes()?;
    print_answer(
        line.rt,
        &read_capture(line.alloc, &mut Watched::new(bytes.as_slice())),
    )
}

/// `write_capture TIME BYTES`: prints the text of a capture with that record.
pub(crate) fn print_written<R: Print>(line: &mut Line<'_, R>) -> Result<(), CallFault> {
    let time = line.number()?;
    let bytes = line.bytes()?;
    if time >= TIMES_END || bytes.len() > LARGEST_RECORD as usize {
        return Err(CallFault::Unsent);
    }
    let original = bytes.len() as u32;
    let record = Record {
        time,
        bytes,
        original,
    };
    let mut text = Watched::new(Vec::new(line.alloc));
    let answer = write_capture(&mut text, &[record]);
    let text = text.into_inner();
    println!(line.rt; "{answer:?} {text:?}").map_err(|_| CallFault::File)
}
