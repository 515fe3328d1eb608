//! The two calls that make a run, each in one function without clauses, so that the proof of a test
//! is short, and inputs for them. A test checks their results when it runs.

use crate::gates::Hold;
use crate::sample_inputs::input;
use crate::samples::hosts::SECOND;
use napt_config::Config;
use napt_run::{Input, Run, RunFault, run_plain, run_workers};
use napt_wire::{Endpoint, Side};
use std::alloc::{AllocError, Global};
use std::process::Abort;
use std::sync::{Arc, Wait};
use std::test::Fail;
use std::thread::Threads;

/// The resources of the runtime that tests of threads need.
pub(crate) trait TestRuntime: Threads + Wait + Abort + AllocGlobal + Copy + Send + 'static {}

impl<R: Threads + Wait + Abort + AllocGlobal + Copy + Send + 'static> TestRuntime for R {}

/// Returns the configuration with these settings, and rings of this number of slots.
pub(crate) fn with_rings(alloc: Global, settings: &str, ring: &str) -> Result<Config, Fail> {
    let text = format!(in alloc; "ring = {ring}\n{settings}")?;
    Ok(Config::read(alloc, text.as_bytes())?)
}

/// Makes a run on one thread.
pub(crate) fn plain_run(alloc: Global, settings: &str, inputs: &[Input]) -> Result<Run, Fail> {
    let config = with_rings(alloc, settings, "64")?;
    Ok(run_plain(alloc, &config, inputs)?)
}

/// Makes a run over workers under a gate, and returns it or its fault.
pub(crate) fn workers_run(
    rt: &impl TestRuntime,
    settings: &str,
    ring: &str,
    inputs: &[Input],
    gate: Arc<Hold>,
) -> Result<Result<Run, RunFault>, Fail> {
    let alloc = rt.alloc();
    let config = with_rings(alloc, settings, ring)?;
    Ok(run_workers(rt, alloc, &config, inputs, gate))
}

/// The side from which a packet arrives, its source and its destination.
pub(crate) type PacketEnds = (Side, Endpoint, Endpoint);

/// Returns these packets as inputs, a second apart.
pub(crate) fn inputs_of(alloc: Global, sent: &[PacketEnds]) -> Result<Vec<Input>, AllocError> {
    let mut inputs = Vec::new(alloc);
    for (second, (side, source, destination)) in sent.iter().enumerate() {
        let time = (second as u64).saturating_mul(SECOND);
        inputs.push(input(alloc, *side, time, *source, *destination)?)?;
    }
    Ok(inputs)
}
