//! Devices that replace missing inputs and outputs.
ghost use Rattle.std.specs.Prelude.{◌≤◌};

use crate::capture_writer::FILE_HEADER;
use crate::device::{DeviceFault, Sink, Source};
use std::io::Read;

/// A capture without packets, for a missing input: the 24 bytes of a header. Reads never fail.
#[derive(Drop)]
pub struct EmptySource {
    /// The number of header bytes that were read.
    taken: usize,
    ghost within: { taken ≤ 24 },
}

impl EmptySource {
    ghost use Rattle.std.specs.Prelude.{◌≡◌, [], false, Ok};
    ghost use Rattle.napt_capture.specs.EmptyDevices.{bytes_left};
    ghost use Rattle.napt_capture.specs.Capture.{capture_of_bytes, read_whole};
    ghost use Rattle.napt_capture.specs.Text.{file_header};

    /// Returns an empty capture of which nothing was read.
    #[tactic(auto, unfolding(crate::specs::Text::file_header))]
    pub fn new() -> EmptySource
        ensures header { bytes_left result ≡ file_header }
        ensures holds { capture_of_bytes file_header ≡ record { records = []; end = Ok false } }
        ensures reads { read_whole file_header ≡ Ok (record { records = []; cut = false }) }
    {
        EmptySource { taken: 0 }
    }
}

impl Source for EmptySource {
    ghost use Rattle.std.specs.Prelude.{Some};
    ghost use Rattle.napt_capture.specs.EmptyDevices.{bytes_left};

    ghost remaining = { λ capture. Some (bytes_left capture) };

    ghost failed = { λ _. 0 };

    #[tactic(auto, unfolding(crate::specs::Text::file_header))]
    fn read(&mut self, buffer: &mut [u8]) -> Result<usize, DeviceFault> {
        let mut left = &FILE_HEADER[self.taken..];
        match left.read(buffer) {
            Ok(count) => {
                self.taken += count;
                Ok(count)
            }
            Err(_) => Err(DeviceFault),
        }
    }
}

/// A sink for an output that is not wanted: it discards all bytes and never fails.
#[derive(Drop)]
pub struct NullSink {
    is_flushed: bool,
}

impl NullSink {
    /// Returns a sink to which nothing was written. It counts as flushed.
    pub fn new() -> NullSink {
        NullSink { is_flushed: true }
    }
}

impl Sink for NullSink {
    ghost use Rattle.std.specs.Prelude.{None, IsTrue};
    ghost use Rattle.napt_capture.specs.EmptyDevices.{flushed_of};

    ghost contents = { λ _. None };

    ghost failed = { λ _. 0 };

    ghost is_flushed = { λ nowhere. IsTrue (flushed_of nowhere) };

    fn write(&mut self, bytes: &[u8]) -> Result<usize, DeviceFault> {
        self.is_flushed = false;
        Ok(bytes.len())
    }

    fn flush(&mut self) -> Result<(), DeviceFault> {
        self.is_flushed = true;
        Ok(())
    }
}
