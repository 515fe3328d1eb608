//! Counts the records of a capture in its bytes as they are read, and notes the first of them, and
//! those that show that no packet came for a minute.
ghost use Rattle.std.specs.Prelude.{◌≡◌};

use crate::first_sources::FirstSources;
use napt_capture::{DeviceFault, Source};

/// The number of bytes of a packet up to the end of its source address (RFC 791, section 3.1).
const SOURCE_END: u64 = 16;

/// The number of bytes of a record without a packet.
const EMPTY: usize = 16;

/// The time in ns after the record before it after which such a record shows a quiet minute.
pub(crate) const MINUTE: u64 = 60_000_000_000;

/// The part of a capture to which its next bytes belong.
#[derive(Clone, Copy)]
enum CounterState {
    /// The magic number, four bytes that give the byte order of the rest and the unit of fractions.
    Magic,
    /// The rest of the file header.
    FileHeader,
    /// The time of a record.
    Time,
    /// The captured length of a record.
    Captured,
    /// The original length of a record, and the first byte of the packet, which has the version.
    Version,
    /// The rest of the packet up to the end of its source address.
    Source,
    /// The rest of a record.
    Record,
}

/// Finds the records of a capture in its bytes as they are read.
#[derive(Clone, Copy)]
pub(crate) struct RecordCounter {
    part: CounterState,
    /// The number of bytes of this part that have not been read.
    left: u64,
    /// The last eight bytes that were read one by one, as a little-endian number.
    word: u64,
    is_big: bool,
    /// The number of captured bytes of the record.
    captured: u64,
    /// The unit of the fractions of a second in the capture, in ns.
    unit: u64,
    /// The time of the first record, in ns.
    first_time: Option<u64>,
    /// The source address of the record, or 0.
    source: u32,
    first_sources: FirstSources,
    /// The time of the last record, in ns.
    last_time: u64,
    /// Whether the last record came a minute or more after the one before it.
    is_late: bool,
}

impl RecordCounter {
    /// The state before the first byte of a capture.
    pub(crate) const BEGIN: RecordCounter = RecordCounter {
        part: CounterState::Magic,
        left: 4,
        word: 0,
        is_big: false,
        captured: 0,
        unit: 0,
        first_time: None,
        source: 0,
        first_sources: FirstSources::NONE,
        last_time: u64::MAX,
        is_late: false,
    };

    /// Reads the next bytes of a capture. Returns the number of records that end in them.
    pub(crate) fn pass(&mut self, bytes: &[u8]) -> u64 {
        let mut records = 0u64;
        let mut rest = bytes;
        // Each turn consumes at least one byte.
        for _ in 0..bytes.len() {
            if let Some(tail) = self.skip_header(rest) {
                rest = tail;
                continue;
            }
            let Some(byte) = rest.first() else {
                return records;
            };
            let many = if self.is_noted() {
                self.word = self.word >> 8 | u64::from(*byte) << 56;
                1
            } else {
                self.left.min(rest.len() as u64)
            };
            rest = rest.get(many as usize..).unwrap_or(&[]);
            self.left = self.left.saturating_sub(many);
            if self.left == 0 && self.next_part() {
                records = records.saturating_add(1);
            }
        }
        records
    }

    /// Reads the time and the captured length of a record whose bytes need not be recorded, if both
    /// are there completely. Returns the bytes after them.
    fn skip_header<'a>(&mut self, bytes: &'a [u8]) -> Option<&'a [u8]> {
        let is_at_record = matches!(self.part, CounterState::Time) && self.left == 8;
        if !is_at_record || !self.first_sources.is_full() {
            return None;
        }
        let (time, rest) = bytes.split_first_chunk::<8>()?;
        let (captured, tail) = rest.split_first_chunk::<4>()?;
        self.word = u64::from_le_bytes(*time);
        self.note_time();
        let captured = u64::from(self.number(*captured));
        self.note_length(captured);
        self.part = CounterState::Record;
        self.left = captured + 4;
        Some(tail)
    }

    /// Returns whether the bytes of this part are read one by one.
    fn is_noted(&self) -> bool {
        match self.part {
            CounterState::FileHeader | CounterState::Record => false,
            _ => true,
        }
    }

    /// Begins the next part. Returns whether a record has ended.
    fn next_part(&mut self) -> bool {
        let has_ended = matches!(self.part, CounterState::Record);
        if has_ended {
            self.first_sources.push(self.source);
            self.source = 0;
        }
        let (part, left) = match self.part {
            CounterState::Magic => {
                self.note_magic();
                (CounterState::FileHeader, 20)
            }
            CounterState::FileHeader | CounterState::Record => (CounterState::Time, 8),
            CounterState::Time => {
                self.note_time();
                (CounterState::Captured, 4)
            }
            CounterState::Captured => self.begin_record(),
            CounterState::Version if self.word >> 60 == 4 => (CounterState::Source, SOURCE_END - 1),
            CounterState::Version => (CounterState::Record, self.captured.saturating_sub(1)),
            CounterState::Source => {
                let [.., a, b, c, d] = self.word.to_le_bytes();
                self.source = u32::from_be_bytes([a, b, c, d]);
                (
                    CounterState::Record,
                    self.captured.saturating_sub(SOURCE_END),
                )
            }
        };
        self.part = part;
        self.left = left;
        has_ended
    }

    /// Records the byte order of the capture, and the unit of its fractions.
    fn note_magic(&mut self) {
        let [.., a, b, c, d] = self.word.to_le_bytes();
        let magic = u32::from_be_bytes([a, b, c, d]);
        self.is_big = matches!(magic, 0xa1b2_c3d4 | 0xa1b2_3c4d);
        self.unit = match magic {
            0xa1b2_3c4d | 0x4d3c_b2a1 => 1,
            _ => 1_000,
        };
    }

    /// Returns the part after the captured length of a record, and its number of bytes.
    fn begin_record(&mut self) -> (CounterState, u64) {
        let [.., a, b, c, d] = self.word.to_le_bytes();
        let captured = u64::from(self.number([a, b, c, d]));
        self.note_length(captured);
        if !self.first_sources.is_full() && captured > SOURCE_END {
            (CounterState::Version, 5)
        } else {
            (CounterState::Record, captured + 4)
        }
    }

    /// Records the time of a record, which is in the last eight bytes.
    fn note_time(&mut self) {
        let time = self.time();
        self.first_time = self.first_time.or(Some(time));
        self.is_late = time.saturating_sub(self.last_time) >= MINUTE;
        self.last_time = time;
    }

    /// Records the number of captured bytes of a record, whose time is known.
    fn note_length(&mut self, captured: u64) {
        self.captured = captured;
    }

    /// Returns the time of the last record in ns, if it ended with the last byte and shows that no
    /// packet came for a minute.
    fn quiet_minute(&self) -> Option<u64> {
        let is_quiet = self.captured == 0 && self.is_late && !self.is_within();
        is_quiet.then_some(self.last_time)
    }

    /// Returns the time in the last eight bytes, in ns.
    fn time(&self) -> u64 {
        let [a, b, c, d, e, f, g, h] = self.word.to_le_bytes();
        let seconds = u64::from(self.number([a, b, c, d]));
        let fraction = u64::from(self.number([e, f, g, h]));
        seconds
            .saturating_mul(1_000_000_000)
            .saturating_add(fraction.saturating_mul(self.unit))
    }

    /// Returns whether a record or the file header has begun and has not ended.
    fn is_within(&self) -> bool {
        !matches!(self.part, CounterState::Time) || self.left != 8
    }

    /// Returns the number in four bytes of the capture, in its byte order.
    fn number(&self, bytes: [u8; 4]) -> u32 {
        if self.is_big {
            u32::from_be_bytes(bytes)
        } else {
            u32::from_le_bytes(bytes)
        }
    }
}

/// The device of a capture, whose records are counted as they are read, if that is requested.
#[derive(Drop)]
pub struct CountedSource<S> {
    /// The device that is read.
    pub device: S,
    is_on: bool,
    tally: RecordCounter,
    records: u64,
    quiet: Option<u64>,
}

impl<S> CountedSource<S> {
    /// Wraps a device before anything is read. If `is_on` is `false`, nothing is counted.
    pub fn over(device: S, is_on: bool) -> CountedSource<S>
        ensures { result.device ≡ device }
    {
        CountedSource {
            device,
            is_on,
            tally: RecordCounter::BEGIN,
            records: 0,
            quiet: None,
        }
    }

    /// Returns the number of records that were read completely.
    pub fn records(&self) -> u64 {
        self.records
    }

    /// Returns the time of the first record in ns, if it was read and records are counted.
    pub fn first_time(&self) -> Option<u64> {
        self.tally.first_time
    }

    /// Returns the time in ns of the record that was read last, if the read returned only that one,
    /// it shows that no packet came for a minute, and records are counted.
    pub fn quiet_minute(&self) -> Option<u64> {
        self.quiet
    }

    /// Returns the sources of the first packets that were read, if records are counted.
    pub fn first_sources(&self) -> &FirstSources {
        &self.tally.first_sources
    }

    /// Returns whether the bytes read end inside a record; `false` if records are not counted.
    pub fn is_cut(&self) -> bool {
        self.is_on && self.tally.is_within()
    }
}

impl<S: Source> Source for CountedSource<S> {
    ghost remaining = { λ tallied. S.remaining tallied.device };

    ghost failed = { λ tallied. S.failed tallied.device };

    fn read(&mut self, buffer: &mut [u8]) -> Result<usize, DeviceFault> {
        let count = self.device.read(buffer)?;
        if self.is_on {
            let more = self.tally.pass(&buffer[..count]);
            self.records = self.records.saturating_add(more);
            self.quiet = self.tally.quiet_minute().filter(|_| count == EMPTY);
        }
        Ok(count)
    }
}
