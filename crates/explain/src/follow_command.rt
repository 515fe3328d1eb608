//! Writes replies as packets to the external endpoints that their inside endpoints have in a run.

ghost use Rattle.std.specs.Prelude.{◌≡◌, ◌-◌, ◌^◌, ◌<◌, OnOk};

use napt_capture::{CaptureWriter, Sink, Watched, WriteFault};
use napt_commands::{
    CountedRun, Exit, OutsideCapture, RunStart, print_unexplained, print_unwritten, print_warning,
};
use napt_sequential::Input;
use napt_wire::Side;
use std::fs::File;
use std::io::{BufWriter, Write};
use std::rt::Files;

/// The size of the write buffer in bytes.
const BUFFERED: usize = 65_536;

/// The greatest number of bytes in a record that can be written.
const LARGEST: usize = napt_capture::LARGEST_RECORD as usize;

/// The first time that a capture cannot contain, in ns.
const END_OF_TIMES: u64 = 4_294_967_296_000_000_000;

/// The greatest number of bytes before a record that can be written.
const MOST_BEFORE: u64 = 4_611_686_018_427_387_904;

/// Writes the capture of the inputs from outside to a file, and prints the warnings of their run.
/// If writing fails, prints the file and the system's reason.
pub fn follow<R: Files + Eprint + AllocGlobal>(
    rt: &R,
    path: &str,
    outside: OutsideCapture,
    start: &RunStart<'_>,
    inputs: &[Input],
) -> Result<(), Exit> {
    let mut run = CountedRun::begin(rt.alloc(), start)?;
    for input in inputs {
        run.step(rt.alloc(), input)?;
    }
    print_warning(rt, outside, None, &run.losses);
    let made = File::create(rt, path).and_then(|file| BufWriter::with_capacity(
        rt.alloc(),
        BUFFERED,
        file,
    ));
    let mut sink = match made {
        Ok(writer) => Watched::new(writer),
        Err(error) => return Err(print_unwritten(rt, "FILE", path, &error)),
    };
    if put_outside(&mut sink, inputs).is_ok() {
        return Ok(());
    }
    // The device has not recorded the system's reason, so a flush requests it again.
    let mut writer = sink.into_inner();
    match writer.flush() {
        Err(error) => Err(print_unwritten(rt, "FILE", path, &error)),
        Ok(()) => Err(print_unexplained(rt, "FILE", path)),
    }
}

/// Writes the capture of the inputs from outside, each with its own time, and flushes it.
fn put_outside<W: Sink>(sink: &mut W, inputs: &[Input]) -> Result<(), WriteFault> {
    let mut written = CaptureWriter::create(sink)?;
    for input in inputs {
        if input.side == Side::Outside {
            written = put_record(sink, written, input)?;
        }
    }
    written.finish(sink)
}

/// Appends the record of an input. An input that no capture can contain counts as a failed write.
fn put_record<W: Sink>(
    sink: &mut W,
    written: CaptureWriter,
    input: &Input,
) -> Result<CaptureWriter, WriteFault>
    ensures { OnOk result (W.failed sink.new ≡ W.failed sink.old) }
{
    let before = written.bytes();
    if input.bytes.len() <= LARGEST && before <= MOST_BEFORE && input.time < END_OF_TIMES {
        written.record(sink, input.time, &input.bytes)
    } else {
        Err(WriteFault { written: before })
    }
}
