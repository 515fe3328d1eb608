//! The devices that captures are read from and written to. They behave like std's readers and
//! writers, and have a ghost count of their failed calls.
ghost use Rattle.std.specs.{Prelude.{◌≡◌, ℕ, ◌+◌, ◌-◌, ◌^◌, ◌<◌, List, Option, IfOk, OnOk, OnErr}, Io.{ReadsAtMost, WritesAtMost}};
ghost use Rattle.std.specs.Io.KnownBytes.{Keeps, ReadConsumes, WriteAppends};
ghost use Rattle.napt_capture.specs.Device.{failed_calls, failed_writes};

use std::error::Error;
use std::fmt;

/// The error of a device call that failed. The cause is not stored.
#[derive(Clone, Copy, Debug, PartialEq, Eq)]
pub struct DeviceFault;

impl fmt::Display for DeviceFault {
    ghost use Rattle.std.specs.Prelude.{Some, codes};

    ghost output = { λ _. Some (codes "the device failed") };

    fn fmt<W: fmt::Write>(&self, f: &mut fmt::Formatter<W>) -> fmt::Result {
        f.write_str("the device failed")
    }
}

impl Error for DeviceFault {}

/// A device that captures are read from.
pub trait Source {
    // The bytes that reads will return from here on, if known.
    ghost remaining: { Self → Option (List ℕ) };

    // The number of reads that failed.
    ghost failed: { Self → ℕ };

    /// Reads the next bytes into the front of the buffer and returns their number: 0 only at the
    /// end or for an empty buffer. A failed or interrupted read consumes nothing and is counted.
    fn read(&mut self, buffer: &mut [u8]) -> Result<usize, DeviceFault>
        ensures bound { ReadsAtMost result buffer.new }
        ensures bytes { ReadConsumes (remaining self.old) (remaining self.new) result buffer.new }
        ensures count { failed self.new ≡ failed self.old + failed_calls result };
}

/// A device that captures are written to.
pub trait Sink {
    // The bytes written so far, if known.
    ghost contents: { Self → Option (List ℕ) };

    // The number of writes and flushes that failed.
    ghost failed: { Self → ℕ };

    // A flush succeeded, and nothing was written since.
    ghost is_flushed: { Self → Type 0 };

    /// Writes some bytes from the front and returns their number; they are not flushed yet. A
    /// failed write writes nothing. It is counted, and so is a return of 0 for a non-empty slice.
    fn write(&mut self, bytes: &[u8]) -> Result<usize, DeviceFault>
        ensures bound { WritesAtMost result bytes.now }
        ensures bytes { WriteAppends (contents self.old) (contents self.new) result bytes.now }
        ensures unflushed { IfOk result (λ count. 0 < count → ¬ is_flushed self.new) }
        ensures held { is_flushed self.new → is_flushed self.old }
        ensures count { failed self.new ≡ failed self.old + failed_writes result bytes.now };

    /// Flushes buffered bytes. If this fails, the sink is flushed only if it was before.
    fn flush(&mut self) -> Result<(), DeviceFault>
        ensures bytes { Keeps (contents self.old) (contents self.new) }
        ensures flushed { OnOk result (is_flushed self.new) }
        ensures held { OnErr result (is_flushed self.new → is_flushed self.old) }
        ensures count { failed self.new ≡ failed self.old + failed_calls result };
}
