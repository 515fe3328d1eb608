//! Capture files in the libpcap savefile format (pcap-savefile(5)). They are read in both byte
//! orders and both time units, and written in little-endian order with nanoseconds.
//!
//! ```text
//! file    magic (4) major (2) minor (2) zone (4) sigfigs (4) snapshot length (4) link type (4)
//! record  seconds (4) fraction (4) captured length (4) original length (4), then the captured bytes
//! ```
#![tactic(auto)]

mod capture_format;
mod capture_writer;
mod contents;
mod device;
mod either_device;
mod empty_devices;
mod fault;
mod faulty_device;
mod laws;
mod read_ahead;
mod reading;
mod record_reader;
mod watched;
mod writing;

pub use capture_writer::CaptureWriter;
pub use contents::{Capture, Record};
pub use device::{DeviceFault, Sink, Source};
pub use empty_devices::{EmptySource, NullSink};
pub use fault::{CaptureFault, WriteFault};
pub use faulty_device::{FaultPlan, Faulty, InjectedFault};
pub use laws::{none_too_large, reads_back, records_follow};
pub use read_ahead::READ_AHEAD_BYTES;
pub use reading::{NextRead, read_capture};
pub use record_reader::RecordReader;
pub use watched::Watched;
pub use writing::{write_capture, write_text};

/// The largest captured length of a record, in bytes. A record with a larger one is a fault.
pub const LARGEST_RECORD: u32 = 262_144;

/// The largest number of bytes that [`read_capture`] asks its source for.
pub const MOST_ASKED: u64 = 68_719_476_736;
