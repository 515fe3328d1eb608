//! The events of a table, which only proofs read.

use napt_rules::{InboundPacket, OutboundPacket};

/// An event that may change the bindings of a table.
#[derive(Clone, Copy)]
pub(crate) enum TableEvent {
    /// A packet was sent out.
    Sent(OutboundPacket),
    /// A packet was received.
    Received(InboundPacket),
    /// The bindings whose hold time was over at a time, in ns, were removed.
    Purged(u64),
}
