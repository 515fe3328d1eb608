//! A std reader or writer as a source or a sink.
ghost use Rattle.std.specs.Prelude.{◌≡◌, false};

use crate::device::{DeviceFault, Sink, Source};
use http_server::Log;
use std::io::{Read, Write};

/// A std reader or writer with a record of its failed calls. Each call makes one call of the device
/// and returns its result.
#[derive(Drop)]
pub struct Watched<D> {
    device: D,
    /// An entry for each call that failed. It takes no memory: only proofs read it.
    failures: Log<u64, u64>,
    flushed: bool,
}

impl<D> Watched<D> {
    ghost use Rattle.napt_capture.specs.Watched.{device_of, failed_of, flushed_of};

    /// Wraps a device. It counts as unflushed, since it may have buffered bytes.
    pub fn new(device: D) -> Self
        ensures device { device_of result ≡ device }
        ensures count { failed_of result ≡ 0 }
        ensures unflushed { flushed_of result ≡ false }
    {
        Watched {
            device,
            failures: Log::new(),
            flushed: false,
        }
    }

    /// Returns the underlying device.
    pub fn into_inner(self) -> D
        ensures { result ≡ device_of self }
    {
        let Watched {
            device,
            failures: _,
            flushed: _,
        } = self;
        device
    }
}

impl<D: Read> Source for Watched<D> {
    ghost use Rattle.napt_capture.specs.Watched.{device_of, failed_of};

    ghost remaining = { λ w. D.remaining (device_of w) };

    ghost failed = { λ w. failed_of w };

    fn read(&mut self, buffer: &mut [u8]) -> Result<usize, DeviceFault> {
        match self.device.read(buffer) {
            Ok(count) => Ok(count),
            Err(_) => {
                self.failures = self.failures.and(&0, &0);
                Err(DeviceFault)
            }
        }
    }
}

impl<D: Write> Sink for Watched<D> {
    ghost use Rattle.std.specs.Prelude.{IsTrue};
    ghost use Rattle.napt_capture.specs.Watched.{device_of, failed_of, flushed_of};

    ghost contents = { λ w. D.contents (device_of w) };

    ghost failed = { λ w. failed_of w };

    ghost is_flushed = { λ w. IsTrue (flushed_of w) };

    fn write(&mut self, bytes: &[u8]) -> Result<usize, DeviceFault> {
        self.flushed = false;
        match self.device.write(bytes) {
            Ok(count) => {
                if count == 0 && !bytes.is_empty() {
                    self.failures = self.failures.and(&0, &0);
                }
                Ok(count)
            }
            Err(_) => {
                self.failures = self.failures.and(&0, &0);
                Err(DeviceFault)
            }
        }
    }

    fn flush(&mut self) -> Result<(), DeviceFault> {
        match self.device.flush() {
            Ok(()) => {
                self.flushed = true;
                Ok(())
            }
            Err(_) => {
                self.failures = self.failures.and(&0, &0);
                Err(DeviceFault)
            }
        }
    }
}
