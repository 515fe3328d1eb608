//! Writing a text and counting its bytes.
ghost use Rattle.std.specs.{Prelude.{◌≡◌, ◌+◌, ◌-◌, ◌^◌, ◌<◌, length, OnOk, IfErr}, Io.KnownBytes.Keeps};
ghost use Rattle.napt_capture.specs.{Device.failed_calls, Text.{IsWritable, entry_of_packet, file_header, record_header as header_of, record_text}};
ghost use Rattle.napt_capture.specs.Writing.{PutPost};

use crate::device::Sink;
use crate::fault::WriteFault;
use byteorder::{ByteOrder, LittleEndian};
use std::marker::Model;

/// The header of every file written, in little-endian order: nanoseconds, version 2.4, zone 0,
/// significant figures 0, snapshot length 262,144, link type 101 (raw IP).
pub(crate) const FILE_HEADER: [u8; 24] = [
    0x4d, 0x3c, 0xb2, 0xa1, 2, 0, 4, 0, 0, 0, 0, 0, 0, 0, 0, 0, 0, 0, 4, 0, 101, 0, 0, 0,
];

/// The number of bytes written to a [`Sink`]. To write a capture, call [`CaptureWriter::create`],
/// [`CaptureWriter::record`] for each packet and [`CaptureWriter::finish`]; none allocates. If one
/// fails, its part may be written up to some byte, and the fault counts all bytes written.
#[derive(Debug, Drop)]
pub struct CaptureWriter {
    bytes: u64,
}

impl Model for CaptureWriter {
    ghost use Rattle.std.specs.Prelude.{ℕ};

    ghost Value = { ℕ };

    ghost view = { λ written. written.bytes };
}

impl CaptureWriter {
    /// Returns a writer that has written nothing.
    pub fn nothing() -> CaptureWriter
        ensures { result ≡ 0 }
    {
        CaptureWriter { bytes: 0 }
    }

    /// Returns the number of bytes written.
    pub fn bytes(&self) -> u64
        ensures { result ≡ self.now }
    {
        self.bytes
    }

    /// Writes the header of a capture.
    #[tactic(auto, unfolding(crate::specs::Text::file_header))]
    pub fn create<W: Sink>(writer: &mut W) -> Result<CaptureWriter, WriteFault>
        ensures puts { PutPost 0 (W.contents writer.old) (W.contents writer.new) file_header result }
        ensures count { W.failed writer.new ≡ W.failed writer.old + failed_calls result }
    {
        CaptureWriter::nothing().write_record(writer, &FILE_HEADER)
    }

    /// Writes the record of a whole packet; `time` is in ns since 1970-01-01 00:00:00 UTC.
    #[tactic(auto, unfolding(crate::specs::Text::record_text))]
    #[inline(always)]
    pub fn record<W: Sink>(
        self,
        writer: &mut W,
        time: u64,
        bytes: &[u8],
    ) -> Result<CaptureWriter, WriteFault>
        requires room { self + length (record_text (entry_of_packet time bytes.now)) < 2 ^ 64 }
        requires writable { IsWritable (entry_of_packet time bytes.now) }
        ensures puts { PutPost self (W.contents writer.old) (W.contents writer.new)
            (record_text (entry_of_packet time bytes.now)) result }
        ensures count { W.failed writer.new ≡ W.failed writer.old + failed_calls result }
    {
        let written = self.write_record(writer, &record_header(time, bytes))?;
        written.write_record(writer, bytes)
    }

    /// Flushes the writer. A fault counts the bytes written before.
    pub fn finish<W: Sink>(self, writer: &mut W) -> Result<(), WriteFault>
        ensures bytes { Keeps (W.contents writer.old) (W.contents writer.new) }
        ensures flushed { OnOk result (W.is_flushed writer.new) }
        ensures fault { IfErr result (λ fault. fault.written ≡ self) }
        ensures count { W.failed writer.new ≡ W.failed writer.old + failed_calls result }
    {
        match writer.flush() {
            Ok(()) => Ok(()),
            Err(_) => Err(WriteFault {
                written: self.bytes,
            }),
        }
    }

    /// Writes these bytes after those written before. Most devices accept all of them in one call.
    #[inline(always)]
    pub(crate) fn write_record<W: Sink>(
        self,
        writer: &mut W,
        bytes: &[u8],
    ) -> Result<CaptureWriter, WriteFault>
        requires room { self + length bytes.now < 2 ^ 64 }
        ensures puts { PutPost self (W.contents writer.old) (W.contents writer.new) bytes.now result }
        ensures count { W.failed writer.new ≡ W.failed writer.old + failed_calls result }
    {
        if bytes.is_empty() {
            return Ok(self);
        }
        let count = writer.write(bytes).unwrap_or(0);
        let written = CaptureWriter {
            bytes: self.bytes + count as u64,
        };
        if count == bytes.len() {
            return Ok(written);
        }
        if count == 0 {
            return Err(WriteFault {
                written: self.bytes,
            });
        }
        written.write_rest(writer, &bytes[count..])
    }

    /// Writes these bytes in as many calls as it takes.
    #[inline(never)]
    fn write_rest<W: Sink>(self, writer: &mut W, bytes: &[u8]) -> Result<CaptureWriter, WriteFault>
        requires room { self + length bytes.now < 2 ^ 64 }
        ensures puts { PutPost self (W.contents writer.old) (W.contents writer.new) bytes.now result }
        ensures count { W.failed writer.new ≡ W.failed writer.old + failed_calls result }
    {
        let before = self.bytes;
        let mut done = 0;
        while done < bytes.len() {
            let count = writer.write(&bytes[done..]).unwrap_or(0);
            if count == 0 {
                return Err(WriteFault {
                    written: before + done as u64,
                });
            }
            done += count;
        }
        Ok(CaptureWriter {
            bytes: before + bytes.len() as u64,
        })
    }
}

/// Returns the header of a record: seconds, nanoseconds, and the number of bytes twice.
#[tactic(auto, unfolding(crate::specs::Text::record_header))]
#[inline(always)]
fn record_header(time: u64, bytes: &[u8]) -> [u8; 16]
    requires { IsWritable (entry_of_packet time bytes.now) }
    ensures { result ≡ header_of (entry_of_packet time bytes.now) }
{
    let len = bytes.len() as u32;
    let mut header = [0; 16];
    LittleEndian::write_u32(&mut header, (time / 1_000_000_000) as u32);
    LittleEndian::write_u32(&mut header[4..], (time % 1_000_000_000) as u32);
    LittleEndian::write_u32(&mut header[8..], len);
    LittleEndian::write_u32(&mut header[12..], len);
    header
}
