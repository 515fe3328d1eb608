//! Counts the records of a capture in its bytes as they are written.
ghost use Rattle.std.specs.Prelude.{◌≡◌};

use crate::record_counter::RecordCounter;
use napt_capture::{DeviceFault, Sink};

/// The device of an output capture, whose records are counted as they are written.
#[derive(Drop)]
pub struct CountedSink<S> {
    /// The device that is written.
    pub device: S,
    tally: RecordCounter,
    records: u64,
}

impl<S> CountedSink<S> {
    /// Wraps a device before anything is written.
    pub fn over(device: S) -> CountedSink<S>
        ensures { result.device ≡ device }
    {
        CountedSink {
            device,
            tally: RecordCounter::BEGIN,
            records: 0,
        }
    }

    /// Returns the number of records that were written completely.
    pub fn records(&self) -> u64 {
        self.records
    }
}

impl<S: Sink> Sink for CountedSink<S> {
    ghost contents = { λ counted. S.contents counted.device };

    ghost failed = { λ counted. S.failed counted.device };

    ghost is_flushed = { λ counted. S.is_flushed counted.device };

    fn write(&mut self, bytes: &[u8]) -> Result<usize, DeviceFault> {
        let count = self.device.write(bytes)?;
        let more = self.tally.pass(&bytes[..count]);
        self.records = self.records.saturating_add(more);
        Ok(count)
    }

    fn flush(&mut self) -> Result<(), DeviceFault> {
        self.device.flush()
    }
}
