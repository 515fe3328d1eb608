//! The reasons for which a capture cannot be read or written.

ghost use Rattle.std.specs.Prelude.{◌≡◌};
ghost use Rattle.napt_capture.specs.declared.fault.CaptureFault.TheVariants.{Read, Memory};

use crate::device::DeviceFault;
use crate::{LARGEST_RECORD, MOST_ASKED};
use std::alloc::{AllocError, AllocFailed};
use std::{error, fmt};
use thiserror::Error;

/// Why a capture cannot be read: its first fault. Records are numbered from 1. The fraction in the
/// time of a record is checked before the length of the record. Both are checked before the bytes
/// are read, which may be cut off.
#[derive(Clone, Copy, Debug, PartialEq, Eq, Error)]
pub enum CaptureFault {
    /// The file has fewer than 24 bytes.
    #[error("the file is shorter than the 24 bytes of a capture's header")]
    NoHeader,
    /// The first four bytes are none of the four known magic numbers.
    #[error("the file does not begin with a pcap magic number (microseconds or nanoseconds)")]
    BadMagic,
    /// The version is not 2.4.
    #[error("the capture is not of version 2.4")]
    BadVersion,
    /// The link type is neither 101 (raw IP) nor 228 (raw IPv4).
    #[error("the capture's link type is neither 101 (raw IP) nor 228 (raw IPv4)")]
    BadLink,
    /// The fraction in the time of this record is a whole second or more.
    #[error("the fraction in the time of record {0} is a whole second or more")]
    BadFraction(u64),
    /// The captured length of this record exceeds [`LARGEST_RECORD`].
    #[error("record {0} has more than {limit} bytes", limit = LARGEST_RECORD)]
    TooLong(u64),
    /// Reading on would ask for more than [`MOST_ASKED`] bytes.
    #[error("the capture is longer than {limit} bytes", limit = MOST_ASKED)]
    TooLarge,
    /// A read failed.
    #[error("the capture could not be read")]
    Read,
    /// Memory was refused.
    #[error("there is not enough memory for the capture")]
    Memory,
}

impl From<DeviceFault> for CaptureFault {
    ghost from_gives = { λ _ e. e ≡ Read };

    fn from(_e: DeviceFault) -> CaptureFault {
        CaptureFault::Read
    }
}

impl From<AllocError> for CaptureFault {
    ghost from_gives = { λ _ e. e ≡ Memory };

    fn from(_e: AllocError) -> CaptureFault {
        CaptureFault::Memory
    }
}

impl<T: Drop> From<AllocFailed<T>> for CaptureFault {
    ghost from_gives = { λ _ e. e ≡ Memory };

    fn from(_e: AllocFailed<T>) -> CaptureFault {
        CaptureFault::Memory
    }
}

/// A write failed or returned 0, or a flush failed.
#[derive(Clone, Copy, Debug, PartialEq, Eq)]
pub struct WriteFault {
    /// The number of bytes of the text that were written, from its beginning.
    pub written: u64,
}

impl fmt::Display for WriteFault {
    ghost use Rattle.std.specs.Prelude.{Some, ◌++◌, codes, decimal};

    ghost output = { λ fault. Some (codes "writing failed after " ++ decimal fault.written
        ++ codes " bytes") };

    fn fmt<W: fmt::Write>(&self, f: &mut fmt::Formatter<W>) -> fmt::Result {
        let written = self.written;
        write!(f, "writing failed after {written} bytes")
    }
}

impl error::Error for WriteFault {}
