//! Reading whole captures, and the headers of files and records.
ghost use Rattle.std.specs.Prelude.{◌≡◌, ◌≢◌, ◌+◌, ◌-◌, ◌*◌, ◌^◌, ◌<◌, ◌≤◌, ℕ, All, length, take, drop, IfOk, IfErr, IfSome, Err};
ghost use Rattle.std.specs.Io.KnownBytes.{Consumes, IsAtEnd};
ghost use Rattle.napt_capture.specs.{Device.failed_calls, Capture.{failed_reads, size_in, format_in}, Text.IsWritable};
ghost use Rattle.napt_capture.specs.Reading.{LeavesBytes, HeaderShows, IsForRecords, IsWithin, IsWritableNext, NextPost, ReadCapturePost, IsReadResult, TakesMemory};

use crate::capture_format::CaptureFormat;
use crate::contents::{Capture, Record};
use crate::device::{DeviceFault, Source};
use crate::fault::CaptureFault;
use crate::{LARGEST_RECORD, MOST_ASKED};
use byteorder::{BigEndian, ByteOrder};
use std::alloc::Global;

/// The size of the header of a file, in bytes.
const FILE_HEADER: usize = 24;

/// The size of the header of a record, in bytes.
pub(crate) const RECORD_HEADER: usize = 16;

/// The link type of raw IP, where packets begin with the IP header.
const RAW: u32 = 101;

/// The link type of raw IPv4.
const RAW_IPV4: u32 = 228;

/// What follows the records read so far.
#[derive(Debug, Drop)]
pub enum NextRead {
    /// A further record.
    Whole(Record),
    /// The end of the file, and whether it comes inside a record.
    End(bool),
}

/// The fields of the header of a record. The time is in nanoseconds.
#[derive(Clone, Copy)]
pub(crate) struct RecordHeader {
    pub(crate) time: u64,
    pub(crate) captured: u32,
    pub(crate) original: u32,
}

/// Reads a capture file: all records up to its end, or its first fault. It asks for 24 bytes, then
/// for 16 and the captured bytes of each record, and for nothing after a header with a fault.
///
/// Returns `Read` if and only if a read failed, which was then the last one, and `Memory` if an
/// allocation failed. Only records are allocated.
pub fn read_capture<R: Source>(alloc: Global, reader: &mut R) -> Result<Capture, CaptureFault>
    // If the bytes of the source are known, the result is that of reading them.
    ensures answer { IsReadResult result
        (LeavesBytes (R.remaining reader.old) (R.remaining reader.new) (ReadCapturePost result)) }
    // All records that were read can be written.
    ensures writable { IfOk result (λ capture. All IsWritable capture.records) }
    ensures few { IfOk result (λ capture. length capture.records < 2 ^ 32) }
    ensures memory { IfErr result (IsForRecords (R.remaining reader.old)) }
    ensures count { R.failed reader.new ≡ R.failed reader.old + failed_reads result }
{
    let format = read_file_header(reader)?;
    let mut records = Vec::new(alloc);
    let mut asked = FILE_HEADER as u64;
    loop {
        let number = records.len() as u64 + 1;
        match read_record(alloc, reader, format, asked, number)? {
            NextRead::Whole(record) => {
                asked += RECORD_HEADER as u64 + record.bytes.len() as u64;
                records.push(record)?;
            }
            NextRead::End(cut) => return Ok(Capture { records, cut }),
        }
    }
}

/// Fills the buffer as far as the source has bytes, and returns the number of bytes read.
fn fill<R: Source>(reader: &mut R, buffer: &mut [u8]) -> Result<usize, DeviceFault>
    ensures bound { IfOk result (λ n. n ≤ length buffer.new) }
    ensures bytes { IfOk result (λ n. Consumes (R.remaining reader.old) (R.remaining reader.new)
        (take n buffer.new)) }
    ensures end { IfOk result (λ n. n < length buffer.new → IsAtEnd (R.remaining reader.new)) }
    ensures count { R.failed reader.new ≡ R.failed reader.old + failed_calls result }
{
    let mut filled = 0;
    while filled < buffer.len() {
        let count = reader.read(&mut buffer[filled..])?;
        if count == 0 {
            return Ok(filled);
        }
        filled += count;
    }
    Ok(filled)
}

/// Reads the header of a file and returns its byte order and time unit, or its fault.
pub(crate) fn read_file_header<R: Source>(reader: &mut R) -> Result<CaptureFormat, CaptureFault>
    ensures header { IsReadResult result (LeavesBytes (R.remaining reader.old) (R.remaining reader.new)
        (λ bytes left. (format_in (take 24 bytes) ≡ result) × (left ≡ drop 24 bytes))) }
    ensures memory { result ≢ Err CaptureFault.Memory }
    ensures count { R.failed reader.new ≡ R.failed reader.old + failed_reads result }
{
    let mut header = [0; FILE_HEADER];
    let filled = fill(reader, &mut header)?;
    if filled < FILE_HEADER {
        return Err(CaptureFault::NoHeader);
    }
    format_of_file(&header)
}

/// Returns the byte order and time unit that a header of a file shows, or its fault.
fn format_of_file(header: &[u8]) -> Result<CaptureFormat, CaptureFault>
    requires { length header.now ≡ 24 }
    ensures is { format_in header.now ≡ result }
    ensures memory { result ≢ Err CaptureFault.Memory }
{
    let Some(format) = CaptureFormat::from_magic(BigEndian::read_u32(header)) else {
        return Err(CaptureFault::BadMagic);
    };
    if format.short(&header[4..]) != 2 || format.short(&header[6..]) != 4 {
        return Err(CaptureFault::BadVersion);
    }
    let link = format.long(&header[20..]);
    if link != RAW && link != RAW_IPV4 {
        return Err(CaptureFault::BadLink);
    }
    Ok(format)
}

/// Reads the record with this number, after `asked` bytes were asked for.
fn read_record<R: Source>(
    alloc: Global,
    reader: &mut R,
    format: CaptureFormat,
    asked: u64,
    number: u64,
) -> Result<NextRead, CaptureFault>
    requires within { asked ≤ MOST_ASKED }
    ensures next { IsReadResult result (LeavesBytes (R.remaining reader.old)
        (R.remaining reader.new)
        (NextPost format asked number result)) }
    ensures room { IfOk result (IsWithin asked) }
    ensures memory { TakesMemory result → IfSome (R.remaining reader.old) (λ all. 16 ≤ length all) }
    ensures large { MOST_ASKED < asked + 16 → result ≡ Err CaptureFault.TooLarge }
    ensures writable { IfOk result IsWritableNext }
    ensures count { R.failed reader.new ≡ R.failed reader.old + failed_reads result }
{
    if MOST_ASKED - asked < RECORD_HEADER as u64 {
        return Err(CaptureFault::TooLarge);
    }
    let mut header = [0; RECORD_HEADER];
    let filled = fill(reader, &mut header)?;
    if filled < RECORD_HEADER {
        return Ok(NextRead::End(filled > 0));
    }
    let fields = fields_of(format, &header, number)?;
    if MOST_ASKED - asked - (RECORD_HEADER as u64) < fields.captured as u64 {
        return Err(CaptureFault::TooLarge);
    }
    let mut bytes = vec![in alloc; 0; fields.captured as usize]?;
    let filled = fill(reader, &mut bytes)?;
    if filled < bytes.len() {
        return Ok(NextRead::End(true));
    }
    Ok(NextRead::Whole(Record {
        time: fields.time,
        bytes,
        original: fields.original,
    }))
}

/// Returns the fields of the header of record `number`, or its fault.
pub(crate) fn fields_of(
    format: CaptureFormat,
    header: &[u8],
    number: u64,
) -> Result<RecordHeader, CaptureFault>
    requires { length header.now ≡ 16 }
    ensures ok { IfOk result (λ fields. HeaderShows format number header.now fields) }
    ensures time { IfOk result (λ fields. fields.time < 2 ^ 32 * 1000000000) }
    ensures captured { IfOk result (λ fields. fields.captured ≤ LARGEST_RECORD) }
    ensures err { IfErr result (λ fault. size_in format number header.now ≡ Err fault) }
{
    let seconds = format.long(header);
    let fraction = format.long(&header[4..]);
    if fraction >= format.units_per_second() {
        return Err(CaptureFault::BadFraction(number));
    }
    let captured = format.long(&header[8..]);
    if captured > LARGEST_RECORD {
        return Err(CaptureFault::TooLong(number));
    }
    Ok(RecordHeader {
        time: seconds as u64 * 1_000_000_000 + format.nanoseconds(fraction),
        captured,
        original: format.long(&header[12..]),
    })
}
