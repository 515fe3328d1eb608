//! Large runs on one thread and over workers.

use crate::calls::{TestRuntime, plain_run, workers_run};
use crate::gates::{GateMode, Hold};
use crate::sample_inputs::{SIXTEEN_ADDRESSES, THREE_ADDRESSES, all_to_all, thousand_inputs};
use napt_run::{Input, Outcome};
use std::process::Abort;
use std::sync::Arc;
use std::test::Fail;

/// Returns the numbers of packets to the outside, to the inside, and dropped.
fn counts(outcomes: &[Outcome]) -> (u32, u32, u32) {
    let (mut outside, mut inside, mut dropped) = (0u32, 0u32, 0u32);
    for outcome in outcomes {
        match outcome {
            Outcome::ToOutside(_) => outside = outside.saturating_add(1),
            Outcome::ToInside(_) => inside = inside.saturating_add(1),
            Outcome::Dropped(_) => dropped = dropped.saturating_add(1),
        }
    }
    (outside, inside, dropped)
}

fn is_same(found: &Outcome, wanted: &Outcome) -> bool {
    match (found, wanted) {
        (Outcome::ToOutside(found), Outcome::ToOutside(wanted)) => found.bytes() == wanted.bytes(),
        (Outcome::ToInside(found), Outcome::ToInside(wanted)) => found.bytes() == wanted.bytes(),
        (Outcome::Dropped(found), Outcome::Dropped(wanted)) => found == wanted,
        _ => false,
    }
}

pub(crate) fn assert_same(rt: &impl Abort, outcomes: &[Outcome], all_wanted: &[Outcome]) {
    assert!(rt; outcomes.len() == all_wanted.len());
    for (i, (found, wanted)) in outcomes.iter().zip(all_wanted).enumerate() {
        assert!(rt; is_same(found, wanted), "the outcome of input {i}");
    }
}

/// Checks that a run over workers under a gate is that on one thread, and has these numbers of legs
/// at each external address. Returns the gate's count.
pub(crate) fn compared(
    rt: &impl TestRuntime,
    settings: &str,
    ring: &str,
    inputs: &[Input],
    legs: &[u64],
    way: GateMode,
) -> Result<u64, Fail> {
    let alloc = rt.alloc();
    let gate = Hold::new(alloc, way)?;
    let plain = plain_run(alloc, settings, inputs)?;
    let run = workers_run(rt, settings, ring, inputs, Arc::try_clone(&gate)?)??;
    assert_same(rt, &run.outcomes, &plain.outcomes);
    assert_eq!(rt; run.bindings.as_slice(), plain.bindings.as_slice());
    assert_eq!(rt; (run.legs.as_slice(), plain.legs.as_slice()), (legs, legs));
    Ok(gate.count())
}

/// Checks that the run on one thread has these numbers of packets to the outside and to the inside, no dropped packet
/// and this number of bindings. The run over workers is the same, with rings of each size and these legs.
fn assert_large(
    rt: &impl TestRuntime,
    settings: &str,
    inputs: &[Input],
    (to_outside, to_inside, bindings): (u32, u32, usize),
    legs: &[u64],
) -> Result<(), Fail> {
    let plain = plain_run(rt.alloc(), settings, inputs)?;
    assert_eq!(rt; counts(&plain.outcomes), (to_outside, to_inside, 0));
    assert_eq!(rt; plain.bindings.len(), bindings);
    for ring in ["1", "2", "3", "64", "4096"] {
        compared(rt, settings, ring, inputs, legs, GateMode::Open)?;
    }
    Ok(())
}

/// A fifth of the packets are hairpins, and all find their bindings.
#[test]
fn thousand_inputs_through_all_rings(rt: HostRuntime) -> Result<(), Fail> {
    let (inputs, legs) = (thousand_inputs(rt.alloc())?, [401, 400, 399]);
    assert_large(&rt, THREE_ADDRESSES, &inputs, (800, 200, 12), &legs)
}

#[test]
fn sixteen_workers(rt: HostRuntime) -> Result<(), Fail> {
    let inputs = all_to_all(rt.alloc())?;
    assert_large(&rt, SIXTEEN_ADDRESSES, &inputs, (16, 256, 16), &[33; 16])
}
