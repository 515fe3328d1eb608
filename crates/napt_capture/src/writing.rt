//! Writing a whole capture, or any text.
ghost use Rattle.std.specs.{Prelude.{◌≡◌, ◌+◌, ◌-◌, ◌^◌, ◌<◌, ◌≤◌, length, take, All, OnOk, IfErr}, Io.KnownBytes.Appends};
ghost use Rattle.napt_capture.specs.{Device.failed_calls, Text.{IsWritable, record_text, text}, Writing.PutPost};

use crate::capture_writer::CaptureWriter;
use crate::contents::Record;
use crate::device::Sink;
use crate::fault::WriteFault;

/// Writes a capture file with these records, and flushes the writer. It does not allocate.
pub fn write_capture<W: Sink>(writer: &mut W, records: &[Record]) -> Result<(), WriteFault>
    requires few { length records.now < 2 ^ 32 }
    requires writable { All IsWritable records.now }
    ensures ok { OnOk result (Appends (W.contents writer.old) (W.contents writer.new)
        (text records.now)) }
    ensures flushed { OnOk result (W.is_flushed writer.new) }
    ensures err { IfErr result (λ fault. (fault.written ≤ length (text records.now))
        × Appends (W.contents writer.old) (W.contents writer.new)
        (take fault.written (text records.now))) }
    ensures count { W.failed writer.new ≡ W.failed writer.old + failed_calls result }
{
    let mut written = CaptureWriter::create(writer)?;
    for packet in records {
        written = append_record(writer, written, packet)?;
    }
    written.finish(writer)
}

/// Writes one record after those written before.
#[tactic(auto, using(crate::proofs::PutSteps::record_text_whole))]
fn append_record<W: Sink>(
    writer: &mut W,
    written: CaptureWriter,
    packet: &Record,
) -> Result<CaptureWriter, WriteFault>
    requires room { written + length (record_text packet.now) < 2 ^ 64 }
    requires writable { IsWritable packet.now }
    ensures puts { PutPost written (W.contents writer.old) (W.contents writer.new)
        (record_text packet.now) result }
    ensures count { W.failed writer.new ≡ W.failed writer.old + failed_calls result }
{
    written.record(writer, packet.time, &packet.bytes)
}

/// Writes these bytes, and flushes the writer. It does not allocate.
pub fn write_text<W: Sink>(writer: &mut W, bytes: &[u8]) -> Result<(), WriteFault>
    ensures ok { OnOk result (Appends (W.contents writer.old) (W.contents writer.new) bytes.now) }
    ensures flushed { OnOk result (W.is_flushed writer.new) }
    ensures err { IfErr result (λ fault. (fault.written ≤ length bytes.now)
        × Appends (W.contents writer.old) (W.contents writer.new) (take fault.written bytes.now)) }
    ensures count { W.failed writer.new ≡ W.failed writer.old + failed_calls result }
{
    let written = CaptureWriter::nothing().write_record(writer, bytes)?;
    written.finish(writer)
}
