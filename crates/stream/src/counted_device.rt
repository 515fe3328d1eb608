//! A device whose packets are counted, and compared with the clock of the state.
ghost use Rattle.std.specs.Prelude.{◌≡◌};

use crate::progress::ProgressReport;
use napt_capture::{DeviceFault, Source};
use napt_program::CountedSource;
use std::time::Clock;

/// The device of a capture, whose packets are counted and reported as they are read.
#[derive(Drop)]
pub struct CountedDevice<'p, S, R> {
    device: CountedSource<S>,
    progress: &'p ProgressReport<'p, R>,
    /// Whether the first packet has been read.
    has_begun: bool,
}

impl<'p, S, R> CountedDevice<'p, S, R> {
    /// Wraps a device before anything is read.
    pub fn over(device: S, progress: &'p ProgressReport<'p, R>) -> CountedDevice<'p, S, R>
        ensures { result.device.device ≡ device }
    {
        CountedDevice {
            device: CountedSource::over(device, progress.has_stderr()),
            progress,
            has_begun: false,
        }
    }

    /// Returns the device that counts the records.
    pub fn tallied(&self) -> &CountedSource<S> {
        &self.device
    }
}

impl<'p, S: Source, R: Eprint + Clock + AllocGlobal> Source for CountedDevice<'p, S, R> {
    ghost remaining = { λ counted. S.remaining counted.device.device };

    ghost failed = { λ counted. S.failed counted.device.device };

    fn read(&mut self, buffer: &mut [u8]) -> Result<usize, DeviceFault> {
        self.progress.print();
        let before = self.device.records();
        let count = self.device.read(buffer)?;
        self.progress
            .count(self.device.records().saturating_sub(before));
        if let Some(time) = self.device.quiet_minute() {
            self.progress.note_quiet(time);
        }
        if !self.has_begun
            && let Some(time) = self.device.first_time()
        {
            self.has_begun = true;
            self.progress.print_if_earlier(time);
        }
        Ok(count)
    }
}
