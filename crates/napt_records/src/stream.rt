//! A capture that is read as it arrives.
ghost use Rattle.std.specs.Prelude.{◌≡◌, ◌^◌, ◌-◌, ◌<◌, None};

use napt_capture::{CaptureFault, NextRead, Record, RecordReader, Source};
use std::alloc::Global;
use std::mem;

/// The source of a capture, and the fault that ended the reading, if there was one.
#[derive(Drop)]
struct OpenCapture<'a, R: Source> {
    source: &'a mut R,
    /// The fault with which reading ended early, if any.
    fault: Option<CaptureFault>,
    // Gives the contract view of the type the ghosts of its source.
    ghost of_source: { R.failed source.now ≡ R.failed source.now },
}

/// A capture that is read record by record.
#[derive(Drop)]
pub struct RecordStream<'a, R: Source> {
    live: OpenCapture<'a, R>,
    records: RecordReader,
    /// `true` if the capture ends inside a record; `None` until its end is reached.
    cut: Option<bool>,
}

impl<'a, R: Source> OpenCapture<'a, R> {
    ghost use Rattle.std.specs.Prelude.{◌≡◌, ◌+◌, ◌^◌, ◌-◌, ◌<◌, None, Some, IfOk, IfErr, Err, OnErr, OnOk};
    ghost use Rattle.napt_capture.specs.Capture.{failed_reads};
    ghost use Rattle.napt_capture.specs.Reading.{LeavesBytes, IsWritableNext, IsReadResult};
    ghost use Rattle.napt_capture.specs.RecordReaders.{RecordsAskSource, HandsOutNothing, HandsOutNext, next_number, remaining_text};

    /// Reads the next record. After a fault, returns the same fault again and reads nothing.
    #[inline(always)]
    fn next(
        &mut self,
        records: &mut RecordReader,
        vector: Vec<u8>,
    ) -> Result<NextRead, CaptureFault>
        ensures name { self.new.source.ghost_name ≡ self.old.source.ghost_name }
        ensures next { self.old.fault ≡ None → IsReadResult result (LeavesBytes
            (remaining_text records.old (R.remaining self.old.source.now))
            (remaining_text records.new (R.remaining self.new.source.now))
            (HandsOutNext records.old result)) }
        ensures good { OnOk result (self.old.fault ≡ None) }
        ensures number { self.old.fault ≡ None →
            IfOk result (λ next. records.new.number ≡ next_number next records.old.number) }
        ensures format { records.new.format ≡ records.old.format }
        ensures live { OnOk result (self.new.fault ≡ self.old.fault) }
        ensures stays { IfErr result (λ fault. self.new.fault ≡ Some fault) }
        ensures kept { self.old.fault ≡ None → OnErr result (HandsOutNothing
            records.old (R.remaining self.old.source.now)
            records.new (R.remaining self.new.source.now)) }
        ensures writable { IfOk result IsWritableNext }
        ensures count { self.old.fault ≡ None →
            R.failed self.new.source.now ≡ R.failed self.old.source.now + failed_reads result }
        ensures asks { (¬ RecordsAskSource records.old) →
            self.new.source.now ≡ self.old.source.now }
    {
        if let Some(fault) = self.fault {
            return Err(fault);
        }
        match records.next(self.source, vector) {
            Ok(next) => Ok(next),
            Err(fault) => {
                self.fault = Some(fault);
                Err(fault)
            }
        }
    }
}

impl<'a, R: Source> RecordStream<'a, R> {
    ghost use Rattle.std.specs.Prelude.{◌≡◌, ◌+◌, ◌^◌, ◌-◌, ◌<◌, None, All, IfSome, IfErr, Err, OnErr, OnOk, IsSome, option_to_list, [], false, true};
    ghost use Rattle.napt_capture.specs.Capture.{failed_reads};
    ghost use Rattle.napt_capture.specs.Reading.{IsReadFault};
    ghost use Rattle.napt_capture.specs.Text.{IsWritable};
    ghost use Rattle.napt_capture.specs.RecordReaders.{HandsOutNothing};
    ghost use Rattle.napt_records.specs.StreamMergers.{AsksSource, CountsFailures, IsStreamLive, HasSameSource};
    ghost use Rattle.napt_records.specs.UnreadInputs.{KnownStays, stream_holds};

    /// Returns the capture of a source from which the header has already been read.
    pub fn new(source: &'a mut R, records: RecordReader) -> RecordStream<'a, R>
        ensures name { result.live.source.ghost_name ≡ source.entry.ghost_name }
        ensures value { result.live.source.now ≡ source.old }
        ensures live { result.live.fault ≡ None }
        ensures records { result.records ≡ records }
        ensures cut { result.cut ≡ None }
    {
        RecordStream {
            live: OpenCapture {
                source,
                fault: None,
            },
            records,
            cut: None,
        }
    }

    /// Reads the next record into `first`, unless `first` has one or the end was reached. The
    /// record uses the memory of `spare`, which a new vector replaces. If this fails, `first` is
    /// unchanged, and all bytes that were read but not yet returned as records are kept.
    #[inline(always)]
    pub fn read_ahead(
        &mut self,
        alloc: Global,
        first: &mut Option<Record>,
        spare: &mut Vec<u8>,
    ) -> Result<(), CaptureFault>
        ensures name { HasSameSource self.old self.new }
        ensures live { OnOk result (self.new.live.fault ≡ self.old.live.fault) }
        ensures rest { IsStreamLive self.old → OnOk result (KnownStays
            (stream_holds self.old first.old) (stream_holds self.new first.new)) }
        ensures fault { IsStreamLive self.old → IfErr result (λ fault. IsReadFault fault
            (IfSome (stream_holds self.old first.old)
            (λ held. held ≡ record { records = []; end = Err fault }))) }
        ensures told { OnOk result (first.new ≡ None → IsSome self.new.cut) }
        ensures kept { IsStreamLive self.old → OnErr result (HandsOutNothing
            self.old.records (R.remaining self.old.live.source.now)
            self.new.records (R.remaining self.new.live.source.now)) }
        ensures unchanged { OnErr result ((self.new.cut ≡ self.old.cut)
            × (first.new ≡ first.old)) }
        ensures writable { OnOk result (All IsWritable (option_to_list first.old) →
            All IsWritable (option_to_list first.new)) }
        ensures count { IsStreamLive self.old →
            CountsFailures self.old (failed_reads result) self.new }
        // The source is read only if the next record is not known without it.
        ensures asks { (¬ AsksSource self.old first.old) →
            self.new.live.source.now ≡ self.old.live.source.now }
    {
        if first.is_some() || self.cut.is_some() {
            return Ok(());
        }
        let vector = mem::replace(spare, Vec::new(alloc));
        match self.live.next(&mut self.records, vector)? {
            NextRead::Whole(record) => *first = Some(record),
            NextRead::End(cut) => self.cut = Some(cut),
        }
        Ok(())
    }

    /// Returns whether `read_ahead` would read the source.
    pub fn asks_device(&self, first: &Option<Record>) -> bool
        ensures quiet { result ≡ false → ¬ AsksSource self.now first.now }
        ensures needed { result ≡ true → AsksSource self.now first.now }
    {
        first.is_none() && self.cut.is_none() && !self.records.has_whole()
    }

    /// Returns whether the capture ends inside a record, or `None` until its end is reached.
    pub fn cut(&self) -> Option<bool>
        ensures { result ≡ self.now.cut }
    {
        self.cut
    }

    /// Returns the source.
    pub fn into_source(self) -> &'a mut R
        ensures name { result.ghost_name ≡ self.entry.live.source.ghost_name }
        ensures value { result.now ≡ self.entry.live.source.now }
    {
        let RecordStream {
            live,
            records: _,
            cut: _,
        } = self;
        let OpenCapture { source, fault: _ } = live;
        source
    }
}
