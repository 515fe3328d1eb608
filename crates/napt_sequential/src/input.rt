//! The inputs of a run.

use napt_wire::Side;
use std::marker::Model;

/// The largest number of inputs of a run. A run with more fails with `RunFault::TooMany`.
pub const MOST_INPUTS: usize = 4_294_967_295;

/// A packet that arrived from either side. Its number is its index in the list of inputs, from 0.
#[derive(Debug, Drop)]
pub struct Input {
    pub side: Side,
    /// The arrival time, in nanoseconds since 1970-01-01 00:00:00 UTC.
    pub time: u64,
    /// The latest arrival time so far, including that of this input, in nanoseconds.
    pub clock: u64,
    pub bytes: Vec<u8>,
}

impl Model for Input {
    ghost use Rattle.napt_rules.specs.Prelude.{Arrival};

    ghost Value = { Arrival };

    ghost view = { λ i. record { side = i.side; time = i.time; clock = i.clock; bytes = i.bytes.items } };
}
