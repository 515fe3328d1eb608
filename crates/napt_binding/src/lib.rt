//! One binding of a translator: its lifetime, its filter, and its changes by packets.
//!
//! The rules are those of RFC 3022, 4787, 5382 and 5508; `specs/` states them with their sections.
#![tactic(auto)]

mod address_counts;
mod flows;
mod idle_timers;
mod inbound;
mod lifetime;
mod outbound;
mod packed_row;
mod session;
mod state_binding;
mod traffic;

pub use address_counts::AddressCounts;
pub use flows::Flows;
pub use idle_timers::IdleTimers;
pub use inbound::inbound_rules;
pub use lifetime::{end_of, is_live, is_live_flow, is_recent, live_until};
pub use napt_rules::{Flow, InboundRules, OutboundPacket, SessionMarks};
pub use packed_row::PackedRow;
pub use state_binding::{from_state, to_state};
pub use traffic::{purge_and_receive, send};

/// A binding as a table stores it: an inside endpoint, the external endpoint to which it is mapped
/// for one protocol (RFC 3022, section 2.2), and its flows.
pub type TableBinding = napt_rules::StoredBinding<PackedRow, Flows>;
