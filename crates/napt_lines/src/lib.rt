//! The lines of packets, in the style of tcpdump, that the commands `show` and `compare` print.
#![tactic(auto)]

mod column_widths;
mod digits;
mod ended_bindings;
mod lines;
mod packet_fields;
mod packet_objects;
mod packet_selection;
mod remotes;
mod replies;
mod run_comparison;
mod single_packet;
mod summary;
mod unmatched_selection;

pub use crate::lines::{PacketLine, has_party};
pub use crate::packet_objects::PacketObjects;
pub use crate::packet_selection::PacketSelection;
pub use crate::remotes::Remotes;
pub use crate::replies::{Replies, inside_endpoints_of};
pub use crate::run_comparison::RunComparison;
pub use crate::single_packet::SinglePacket;
pub use crate::summary::PacketLines;
pub use crate::unmatched_selection::UnmatchedSelection;
