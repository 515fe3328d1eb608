//! The result of a run.

use crate::passage::Trace;
use napt_rules::{Outcome, Row};
use std::marker::Model;

/// The result of one input.
#[derive(Drop)]
pub struct StepResult {
    pub outcome: Outcome,
    /// The effects of its legs on the bindings.
    pub trace: Trace,
}

/// The result of a run over a list of inputs.
#[derive(Drop)]
pub struct Run {
    /// The outcome of each input, in the order of the inputs.
    pub outcomes: Vec<Outcome>,
    /// The bindings that are live at the last clock, or at 0 without inputs, sorted by external
    /// address in pool order, then by protocol (ICMP, TCP, UDP) and external number.
    pub bindings: Vec<Row>,
    /// The number of legs at each external address, in the order of the pool.
    pub legs: Vec<u64>,
}

impl Model for Run {
    ghost use Rattle.napt_rules.specs.Prelude.{RunResult};

    ghost Value = { RunResult };

    ghost view = { λ run. record { outcomes = run.outcomes.items; bindings = run.bindings.items; legs = run.legs.items } };
}
