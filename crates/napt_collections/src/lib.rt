//! Collections for a table of bindings: [`BitSet`], a set of numbers that finds the first absent
//! one, [`Due`], a queue of items by time, and [`Links`], nodes linked in a row.
#![tactic(auto)]

mod bit_set;
mod due;
mod links;
mod word;

pub use bit_set::BitSet;
pub use due::Due;
pub use links::{Links, link_before, unlink};
