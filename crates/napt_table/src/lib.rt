//! The bindings of one external address, which map inside endpoints to its numbers for a time.
//!
//! The rules are those of RFC 3022, RFC 4787, RFC 5382 and RFC 5508, as `specs/` states them.
#![tactic(auto)]

ghost use Rattle.std.specs.Prelude.{◌≡◌, ℕ, List};
ghost use Rattle.napt_table.specs.{QuotaKept.PlayedKeepsQuota, Tables.{TablesShareNothing, TablesAreNumbered}};

mod bindings;
mod candidate_class;
mod first_place;
mod host_counts;
mod numbers;
mod rows;
mod table;
mod table_builder;
mod table_event;

pub use candidate_class::CandidateClass;
pub use napt_binding::{Flow, Flows, InboundRules, SessionMarks, TableBinding};
pub use napt_collections::Due;
pub use napt_laws::{
    candidates_are_the_class, no_host_exceeds_its_quota, opening_is_sound, rows_are_in_order,
    steps_are_local, steps_leave_taken, steps_stay_sound,
};
pub use napt_rules::{InboundPacket, OutboundPacket, Row};
pub use numbers::Numbers;
pub use table::Table;

/// A live binding, with the time at which it expires if no packet refreshes it.
#[derive(Clone, Copy, Debug, PartialEq, Eq)]
pub struct TimedRow {
    pub row: Row,
    /// The first time (ns) at which it is not live, or `None` for a redirect, which never expires.
    pub end: Option<u128>,
}

/// Law: a host never has more bindings than its quota, or than at the start if that was more (RFC
/// 6888, REQ-4).
pub fn tables_keep_the_quota()
    ensures { PlayedKeepsQuota }
{}

/// Law: no two bindings of a table share an endpoint, and no UDP or TCP port in it is 0.
pub fn tables_share_nothing()
    ensures apart { TablesShareNothing }
    ensures numbered { TablesAreNumbered }
{}
