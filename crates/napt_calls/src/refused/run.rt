//! Runs over the inputs of two captures, one of each side, with two external addresses, on workers
//! and on one thread, and merges these inputs.

use crate::refused::remainders::{counted, looked_at};
use crate::refused::{CallResult, System};
use napt_capture::{Record, Watched, read_capture};
use napt_config::Config;
use napt_pool::PoolFault;
use napt_run::{Input, RunFault, merge, run_plain, run_workers};
use napt_wire::Side;
use std::alloc::Global;

const CONFIGURATION: &str =
    "pool = [\"203.0.113.1\", \"203.0.113.2\"]\ninside = [\"10.0.0.0/8\"]\n";

/// At 1 s udp 10.0.0.3:7000 > 198.51.100.7:53, and at 2 s a hairpin, udp 10.0.0.2:5000 >
/// 203.0.113.2:7000.
pub(crate) const INSIDE: [u8; 112] = [
    0xd4, 0xc3, 0xb2, 0xa1, 2, 0, 4, 0, 0, 0, 0, 0, 0, 0, 0, 0, 0xff, 0xff, 0, 0, 0x65, 0, 0, 0,
    // time, captured and original length
    1, 0, 0, 0, 0, 0, 0, 0, 28, 0, 0, 0, 28, 0, 0, 0, // and the packet
    0x45, 0x00, 0x00, 0x1c, 0x00, 0x01, 0x00, 0x00, 0x40, 0x11, 0x46, 0x93, 0x0a, 0x00, 0x00, 0x03,
    0xc6, 0x33, 0x64, 0x07, 0x1b, 0x58, 0x00, 0x35, 0x00, 0x08, 0x00, 0x00,
    // time, captured and original length
    2, 0, 0, 0, 0, 0, 0, 0, 28, 0, 0, 0, 28, 0, 0, 0, // and the packet
    0x45, 0x00, 0x00, 0x1c, 0x00, 0x01, 0x00, 0x00, 0x40, 0x11, 0x34, 0xcc, 0x0a, 0x00, 0x00, 0x02,
    0xcb, 0x00, 0x71, 0x02, 0x13, 0x88, 0x1b, 0x58, 0x00, 0x08, 0x00, 0x00,
];

/// At 3 s the answer to the first, udp 198.51.100.7:53 > 203.0.113.2:7000.
pub(crate) const OUTSIDE: [u8; 68] = [
    0xd4, 0xc3, 0xb2, 0xa1, 2, 0, 4, 0, 0, 0, 0, 0, 0, 0, 0, 0, 0xff, 0xff, 0, 0, 0x65, 0, 0, 0,
    // time, captured and original length
    3, 0, 0, 0, 0, 0, 0, 0, 28, 0, 0, 0, 28, 0, 0, 0, // and the packet
    0x45, 0x00, 0x00, 0x1c, 0x00, 0x01, 0x00, 0x00, 0x40, 0x11, 0x14, 0x93, 0xc6, 0x33, 0x64, 0x07,
    0xcb, 0x00, 0x71, 0x02, 0x00, 0x35, 0x1b, 0x58, 0x00, 0x08, 0x00, 0x00,
];

/// Returns the end of the call after a fault of a run.
pub(crate) fn end_of_run(fault: RunFault) -> CallResult {
    match fault {
        RunFault::Memory | RunFault::Pool(PoolFault::Memory) => CallResult::Memory,
        RunFault::Pool(PoolFault::NoThread) => CallResult::NoThread,
        _ => CallResult::Wrong("another fault"),
    }
}

/// Reads the configuration, before the call.
pub(crate) fn configuration(alloc: Global) -> Result<Config, CallResult> {
    Config::read(alloc, CONFIGURATION.as_bytes()).map_err(|_| CallResult::Before)
}

/// Reads the records of a capture, before the call.
fn records(alloc: Global, capture: &[u8]) -> Result<Vec<Record>, CallResult> {
    let capture = read_capture(alloc, &mut Watched::new(capture)).map_err(|_| CallResult::Before)?;
    Ok(capture.records)
}

/// Merges the inputs, before the call.
pub(crate) fn inputs(alloc: Global) -> Result<Vec<Input>, CallResult> {
    let (inside, outside) = (records(alloc, &INSIDE)?, records(alloc, &OUTSIDE)?);
    merge(alloc, inside, outside).map_err(|_| CallResult::Before)
}

/// Returns whether an input is a packet of 28 bytes from a side at a time in s, the latest so far.
fn came(input: &Input, side: Side, seconds: u64) -> bool {
    let time = seconds.saturating_mul(1_000_000_000);
    input.side == side && input.time == time && input.clock == time && input.bytes.len() == 28
}

/// Returns whether the inputs are those of both captures, in their order.
fn are_merged(inputs: &[Input]) -> bool {
    match inputs {
        [first, second, third] => {
            came(first, Side::Inside, 1)
                && came(second, Side::Inside, 2)
                && came(third, Side::Outside, 3)
        }
        _ => false,
    }
}

/// Merges the records of both captures.
pub(crate) fn merge_ended(alloc: Global) -> Result<(), CallResult> {
    let (inside, outside) = (records(alloc, &INSIDE)?, records(alloc, &OUTSIDE)?);
    match merge(alloc, inside, outside) {
        Ok(inputs) if are_merged(&inputs) => Ok(()),
        Ok(_) => Err(CallResult::Wrong("other inputs")),
        Err(_) => Err(CallResult::Memory),
    }
}

/// Makes the run on one thread.
pub(crate) fn plain_ended(alloc: Global) -> Result<(), CallResult> {
    let (config, inputs) = (configuration(alloc)?, inputs(alloc)?);
    match run_plain(alloc, &config, &inputs) {
        Ok(run) if run.bindings.len() == 2 => Ok(()),
        Ok(_) => Err(CallResult::Wrong("another run")),
        Err(fault) => Err(end_of_run(fault)),
    }
}

/// Makes the run over workers.
pub(crate) fn workers_ended(rt: &impl System) -> Result<(), CallResult> {
    let alloc = rt.alloc();
    let (config, inputs) = (configuration(alloc)?, inputs(alloc)?);
    let (counts, gate) = counted(alloc)?;
    let came = match run_workers(rt, alloc, &config, &inputs, gate) {
        Ok(run) if run.bindings.len() == 2 && run.outcomes.len() == 3 => Ok(()),
        Ok(_) => Err(CallResult::Wrong("another run")),
        Err(fault) => Err(end_of_run(fault)),
    };
    looked_at(rt, &counts, came)
}
