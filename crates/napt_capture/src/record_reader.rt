//! Reading a capture one record at a time.
ghost use Rattle.std.specs.{Prelude.{◌≡◌, IfOk}, Option.ForSome};
ghost use Rattle.napt_capture.specs.Reading.{RecordIsAhead};

use crate::capture_format::CaptureFormat;
use crate::contents::Record;
use crate::device::{DeviceFault, Source};
use crate::fault::CaptureFault;
use crate::read_ahead::ReadAhead;
use crate::reading::{NextRead, RECORD_HEADER, RecordHeader, fields_of, read_file_header};
use std::alloc::{AllocError, Global};

/// A reader of one record at a time, through a buffer of 1,048,576 bytes; it allocates nothing else
/// of its own. Each call must be given the same source, with any number of bytes and records.
#[derive(Drop)]
pub struct RecordReader {
    format: CaptureFormat,
    /// The number of the next record. It saturates.
    number: u64,
    ahead: ReadAhead,
    /// The fields of the next record, if it is known to be whole in the bytes read ahead.
    whole: Option<RecordHeader>,
    ghost stands: { ForSome whole (RecordIsAhead format number ahead) },
}

impl RecordReader {
    ghost use Rattle.std.specs.Prelude.{◌≡◌, ◌≢◌, ◌+◌, ◌-◌, ◌^◌, ◌<◌, [], length, nat_lt, take, drop, Bool, true, false, Some, IfOk, IfErr, IfSome, IfNone, OnOk, OnErr, Ok, Err};
    ghost use Rattle.std.specs.Io.KnownBytes.{IsAtEnd};
    ghost use Rattle.napt_capture.specs.Capture.{failed_reads, format_in};
    ghost use Rattle.napt_capture.specs.Device.{failed_calls};
    ghost use Rattle.napt_capture.specs.declared.fault.CaptureFault.TheVariants.{Memory, Read};
    ghost use Rattle.napt_capture.specs.declared.reading.NextRead.TheVariants.{End};
    ghost use Rattle.napt_capture.specs.Reading.{LeavesBytes, IsWritableNext, IsReadResult};
    ghost use Rattle.napt_capture.specs.RecordReaders.{RecordsAskSource, HandsOutNothing, HandsOutNext, next_number, next_record, remaining_text, format_of_reader};

    /// Reads the file header. Returns `NoHeader`, `BadMagic`, `BadVersion` or `BadLink` for its 24
    /// bytes, `Read` if and only if a read failed, or `Memory`, before any read, for the buffer.
    pub fn open<R: Source>(alloc: Global, source: &mut R) -> Result<RecordReader, CaptureFault>
        ensures header { IsReadResult result
            (LeavesBytes (R.remaining source.old) (R.remaining source.new) (λ bytes left.
            (format_in (take 24 bytes) ≡ format_of_reader result) × (left ≡ drop 24 bytes))) }
        ensures empty { IfOk result (λ records. records.ahead ≡ []) }
        ensures first { IfOk result (λ records. records.number ≡ 1) }
        ensures unread { result ≡ Err Memory → source.new ≡ source.old }
        ensures count { R.failed source.new ≡ R.failed source.old + failed_reads result }
    {
        let ahead = ReadAhead::new(alloc)?;
        let format = read_file_header(source)?;
        Ok(RecordReader {
            format,
            number: 1,
            ahead,
            whole: None,
        })
    }

    /// Returns whether the next record, or the fault of its header, is already in the buffer, so
    /// that [`RecordReader::next`] does not ask the source.
    #[inline(always)]
    pub fn has_whole(&self) -> bool
        ensures whole { result ≡ true → ¬ RecordsAskSource self.now }
        ensures part { result ≡ false → RecordsAskSource self.now }
    {
        !matches!(self.front(), Ok(None))
    }

    /// Reads the next record into `vector`, whose contents are dropped and whose capacity is
    /// reused. The source is asked only while the buffer has no whole record, for as much as fits.
    ///
    /// Returns `BadFraction` or `TooLong` for the header of the record, `Read` if and only if a
    /// read failed, and `Memory` if `vector` could not grow. After the end or a
    /// fault, the unread bytes are kept: a later call continues there, and returns the end or the
    /// header's fault again.
    #[inline(always)]
    pub fn next<R: Source>(
        &mut self,
        source: &mut R,
        vector: Vec<u8>,
    ) -> Result<NextRead, CaptureFault>
        ensures next { IsReadResult result (LeavesBytes (remaining_text self.old (R.remaining source.old))
            (remaining_text self.new (R.remaining source.new)) (HandsOutNext self.old result)) }
        ensures number { IfOk result (λ next. self.new.number ≡ next_number next self.old.number) }
        ensures kept { OnErr result (HandsOutNothing self.old (R.remaining source.old)
            self.new (R.remaining source.new)) }
        ensures format { self.new.format ≡ self.old.format }
        // If the bytes read ahead determine the result, the source is not asked.
        ensures asks { (¬ RecordsAskSource self.old) → source.new ≡ source.old }
        ensures writable { IfOk result IsWritableNext }
        ensures count { R.failed source.new ≡ R.failed source.old + failed_reads result }
    {
        self.read_ahead(source)?;
        self.consume(vector)
    }

    /// Returns the fields of the record at the front of the bytes read ahead, `None` if it is not
    /// whole, or the fault of its header.
    #[inline(always)]
    fn front(&self) -> Result<Option<RecordHeader>, CaptureFault>
        ensures whole { IfOk result (λ front. IfSome front
            (RecordIsAhead self.now.format self.now.number self.now.ahead)) }
        ensures part { IfOk result (λ front. IfNone front
            (next_record self.now self.now.ahead ≡ Ok (End (nat_lt 0 (length self.now.ahead))))) }
        ensures fault { IfErr result (λ fault. next_record self.now self.now.ahead ≡ Err fault) }
    {
        match self.whole {
            Some(fields) => Ok(Some(fields)),
            None => self.first_front(),
        }
    }

    /// Does the same if no whole record is known, as after each read.
    #[inline(never)]
    fn first_front(&self) -> Result<Option<RecordHeader>, CaptureFault>
        ensures whole { IfOk result (λ front. IfSome front
            (RecordIsAhead self.now.format self.now.number self.now.ahead)) }
        ensures part { IfOk result (λ front. IfNone front
            (next_record self.now self.now.ahead ≡ Ok (End (nat_lt 0 (length self.now.ahead))))) }
        ensures fault { IfErr result (λ fault. next_record self.now self.now.ahead ≡ Err fault) }
    {
        self.read_front()
    }

    /// Does the same from the bytes alone.
    #[inline(always)]
    fn read_front(&self) -> Result<Option<RecordHeader>, CaptureFault>
        ensures whole { IfOk result (λ front. IfSome front
            (RecordIsAhead self.now.format self.now.number self.now.ahead)) }
        ensures part { IfOk result (λ front. IfNone front
            (next_record self.now self.now.ahead ≡ Ok (End (nat_lt 0 (length self.now.ahead))))) }
        ensures fault { IfErr result (λ fault. next_record self.now self.now.ahead ≡ Err fault) }
    {
        let ahead = self.ahead.as_slice();
        if ahead.len() < RECORD_HEADER {
            return Ok(None);
        }
        let fields = fields_of(self.format, &ahead[..RECORD_HEADER], self.number)?;
        if ahead.len() - RECORD_HEADER < fields.captured as usize {
            return Ok(None);
        }
        Ok(Some(fields))
    }

    /// Returns the fields of the record at the front of the bytes read ahead, if it is whole.
    #[inline(always)]
    fn whole_front(&self) -> Option<RecordHeader>
        ensures { IfSome result (RecordIsAhead self.now.format self.now.number self.now.ahead) }
    {
        match self.read_front() {
            Ok(front) => front,
            Err(_) => None,
        }
    }

    /// Reads until what comes next is known, or to the end of the source.
    #[inline(always)]
    fn read_ahead<R: Source>(&mut self, source: &mut R) -> Result<(), DeviceFault>
        ensures kept { HandsOutNothing self.old (R.remaining source.old)
            self.new (R.remaining source.new) }
        ensures known { OnOk result (RecordsAskSource self.new → IsAtEnd (R.remaining source.new)) }
        ensures asks { (¬ RecordsAskSource self.old) → (source.new ≡ source.old) ×
            (self.new ≡ self.old) }
        ensures count { R.failed source.new ≡ R.failed source.old + failed_calls result }
    {
        while !self.has_whole() {
            self.whole = None;
            if self.ahead.read_more(source)? == 0 {
                return Ok(());
            }
        }
        Ok(())
    }

    /// Removes what comes next from the bytes read ahead and returns it.
    #[inline(always)]
    fn consume(&mut self, vector: Vec<u8>) -> Result<NextRead, CaptureFault>
        ensures next { IsReadResult result
            (HandsOutNext self.old result self.old.ahead self.new.ahead) }
        ensures number { IfOk result (λ next. self.new.number ≡ next_number next self.old.number) }
        ensures read { result ≢ Err Read }
        ensures kept { OnErr result (self.new ≡ self.old) }
        ensures format { self.new.format ≡ self.old.format }
        ensures writable { IfOk result IsWritableNext }
    {
        let Some(fields) = self.front()? else {
            return Ok(NextRead::End(!self.ahead.as_slice().is_empty()));
        };
        let size = RECORD_HEADER + fields.captured as usize;
        let bytes = copied(&self.ahead.as_slice()[RECORD_HEADER..size], vector)?;
        self.ahead.consume(size);
        self.number = self.number.saturating_add(1);
        self.whole = None;
        self.whole = self.whole_front();
        Ok(NextRead::Whole(Record {
            time: fields.time,
            bytes,
            original: fields.original,
        }))
    }
}

/// Copies the bytes into the vector, whose capacity is reused.
#[inline(always)]
fn copied(bytes: &[u8], vector: Vec<u8>) -> Result<Vec<u8>, AllocError>
    ensures { IfOk result (λ copy. copy.items ≡ bytes.now) }
{
    let mut copy = vector;
    copy.clear();
    copy.extend_from_slice(bytes)?;
    Ok(copy)
}
