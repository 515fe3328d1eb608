//! The contents of a capture file.

use std::marker::Model;

/// A captured packet.
#[derive(Debug, Drop)]
pub struct Record {
    /// The arrival time of the packet, in nanoseconds since 1970-01-01 00:00:00 UTC.
    pub time: u64,
    /// The bytes that were captured.
    pub bytes: Vec<u8>,
    /// The length of the packet in bytes as the file gives it. It is not compared with `bytes`.
    pub original: u32,
}

impl Model for Record {
    ghost use Rattle.napt_capture.specs.Contents.{RecordModel};

    ghost Value = { RecordModel };

    ghost view = { λ r. record { time = r.time; bytes = r.bytes.items; original = r.original } };
}

/// The records of a capture file, in file order.
#[derive(Debug, Drop)]
pub struct Capture {
    pub records: Vec<Record>,
    /// Whether the file ends inside a record. That record is not in `records`.
    pub cut: bool,
}

impl Model for Capture {
    ghost use Rattle.napt_capture.specs.Contents.{CaptureModel};

    ghost Value = { CaptureModel };

    ghost view = { λ c. record { records = c.records.items; cut = c.cut } };
}
