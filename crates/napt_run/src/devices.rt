//! The devices of a run.

use napt_capture::{Sink, Source};

/// The devices of a run. `EmptySource` replaces a capture that is not given, `NullSink` an output
/// that is not requested, and [`NoLog`](crate::NoLog) a log that is not kept.
#[derive(Drop)]
pub struct Devices<R: Source, Q: Source, W: Sink, V: Sink, U: Sink, L> {
    /// The capture of the packets that come from inside hosts.
    pub inside: R,
    /// The capture of the packets that come from the outside.
    pub outside: Q,
    /// The capture of the packets that leave to the outside.
    pub to_outside: W,
    /// The capture of the packets that leave to inside hosts.
    pub to_inside: V,
    pub report: U,
    /// The log: a [`LogWriter`](crate::LogWriter) or `NoLog`.
    pub log: L,
}
