//! A property beyond the contracts: a run over captures ends if one of its threads is slow. The
//! bytes of worked captures are in tests/runs, at the top of the repository, and the bytes of long
//! ones are in tests/hairpins.

ghost use Rattle.std.specs.Prelude.{◌<◌};

use crate::calls::TestRuntime;
use crate::gates::{GateMode, Hold};
use crate::packets::udp;
use crate::sample_inputs::{THREE_ADDRESSES, thousand_inputs};
use crate::samples::hosts::{RESOLVER, external};
use napt_account::SavedLogState;
use napt_capture::{FaultPlan, Faulty, InjectedFault, Watched};
use napt_config::Config;
use napt_run::{
    Devices, Fault, LogStart, LogWriter, NoLog, RunEnd, Start, initial_state, run_captures,
    run_streams,
};
use std::alloc::{AllocError, Global};
use std::ops::Range;
use std::sync::Arc;
use std::test::Fail;

/// A device of a run.
#[derive(Clone, Copy, PartialEq, Eq)]
pub(crate) enum Device {
    Inside,
    Outside,
    ToOutside,
    ToInside,
    Report,
    Log,
}

/// Moves at most `most` > 0 bytes at a time, and fails at a call, from 1, or never if it is 0.
pub(crate) fn at_most(most: usize, call: u64, injected: InjectedFault) -> FaultPlan
    ensures { 0 < result.most }
{
    FaultPlan {
        most: most.max(1),
        failing_call: call,
        fault: injected,
    }
}

/// Moves all bytes of a request, and fails at a call, counted from 1, or never if it is 0.
pub(crate) fn failing(call: u64) -> FaultPlan
    ensures { 0 < result.most }
{
    at_most(usize::MAX, call, InjectedFault::Fails)
}

/// Returns the plan of a device: the last one given for it, or a plan without a failure.
fn plan_of(plans: &[(Device, FaultPlan)], device: Device) -> FaultPlan
    ensures { 0 < result.most }
{
    let mut found = failing(0);
    for (planned, plan) in plans {
        if *planned == device {
            found = *plan;
        }
    }
    at_most(found.most, found.failing_call, found.fault)
}

/// The call of a program: `napt` reads whole captures, `stream` in steps, with or without a log.
#[derive(Clone, Copy, Debug, PartialEq, Eq)]
pub(crate) enum Call {
    Captures,
    Streams,
    StreamsWithLog,
}

/// The arguments of a run: the call, both captures, and the plans of devices that fail or move few
/// bytes at a time. Without settings the configuration is the built-in one.
#[derive(Clone, Copy)]
pub(crate) struct RunInput<'a> {
    pub(crate) call: Call,
    pub(crate) settings: Option<&'a str>,
    pub(crate) inside: &'a [u8],
    pub(crate) outside: &'a [u8],
    pub(crate) plans: &'a [(Device, FaultPlan)],
}

/// The result and the outputs of a run.
#[derive(Drop, PartialEq)]
pub(crate) struct RunOutput {
    pub(crate) answer: Result<(), Fault>,
    pub(crate) to_outside: Vec<u8>,
    pub(crate) to_inside: Vec<u8>,
    pub(crate) report: Vec<u8>,
    pub(crate) log: Vec<u8>,
}

/// Returns the result of a run without its `RunEnd`.
fn ended(run: Result<RunEnd, Fault>) -> Result<(), Fault> {
    match run {
        Ok(_) => Ok(()),
        Err(fault) => Err(fault),
    }
}

fn config_of(alloc: Global, settings: Option<&str>) -> Result<Config, Fail> {
    match settings {
        Some(text) => Ok(Config::read(alloc, text.as_bytes())?),
        None => Ok(Config::built_in(alloc)?),
    }
}

/// Returns the result and the outputs of a run over captures under a gate.
pub(crate) fn captured(
    rt: &impl TestRuntime,
    given: &RunInput<'_>,
    gate: Arc<Hold>,
) -> Result<RunOutput, Fail> {
    let alloc = rt.alloc();
    let config = config_of(alloc, given.settings)?;
    let state = initial_state(alloc);
    let start = Start {
        config: &config,
        state: &state,
    };
    macro_rules! on {
        ($device:ident, $text:expr) => {
            Faulty::new(Watched::new($text), plan_of(given.plans, Device::$device))
        };
    }
    macro_rules! written_by {
        ($run:ident, $log:expr) => {{
            let mut devices = Devices {
                inside: on!(Inside, given.inside),
                outside: on!(Outside, given.outside),
                to_outside: on!(ToOutside, Vec::new(alloc)),
                to_inside: on!(ToInside, Vec::new(alloc)),
                report: on!(Report, Vec::new(alloc)),
                log: $log,
            };
            let run = $run(rt, alloc, start, &mut devices, gate);
            let Devices { to_outside, to_inside, report, .. } = devices;
            RunOutput {
                answer: ended(run),
                to_outside: to_outside.into_inner().into_inner(),
                to_inside: to_inside.into_inner().into_inner(),
                report: report.into_inner().into_inner(),
                log: Vec::new(alloc),
            }
        }};
    }
    let kept = SavedLogState::none(alloc);
    if !kept.is_valid(alloc, &state)? {
        return Err(Fail::new("no log has these accounts"));
    }
    let log_start = LogStart {
        saved: &kept,
        is_new: true,
        each: None,
        goes_on: false,
    };
    Ok(match given.call {
        Call::Captures => written_by!(run_captures, NoLog),
        Call::Streams => written_by!(run_streams, NoLog),
        Call::StreamsWithLog => {
            let mut text = on!(Log, Vec::new(alloc));
            let log = LogWriter::new(alloc, start, log_start, &mut text)?;
            let output = written_by!(run_streams, log);
            RunOutput {
                log: text.into_inner().into_inner(),
                ..output
            }
        }
    })
}

/// All times of a capture here, in microseconds.
pub(crate) const ALL_TIMES: Range<u32> = 0..1_000_000;

/// The header of a capture in microseconds, little-endian.
pub(crate) const HEADER: [u8; 24] = [
    0xd4, 0xc3, 0xb2, 0xa1, 2, 0, 4, 0, 0, 0, 0, 0, 0, 0, 0, 0, 0xff, 0xff, 0, 0, 0x65, 0, 0, 0,
];

/// Appends a packet at this time, in microseconds.
pub(crate) fn push_packet(
    text: &mut Vec<u8>,
    microseconds: u32,
    bytes: &[u8],
) -> Result<(), AllocError> {
    let (seconds, fraction) = (microseconds / 1_000_000, microseconds % 1_000_000);
    let length = (bytes.len() & 0xffff) as u32;
    for word in [seconds, fraction, length, length] {
        text.extend_from_slice(&word.to_le_bytes())?;
    }
    text.extend_from_slice(bytes)
}

/// Returns the inside capture of the thousand inputs' part in this range, in microseconds.
pub(crate) fn sent_in(alloc: Global, times: &Range<u32>) -> Result<Vec<u8>, AllocError> {
    let mut text = Vec::from_slice(alloc, &HEADER)?;
    for input in &thousand_inputs(alloc)? {
        let microseconds = (input.time / 1000 & 0xf_ffff) as u32;
        if times.contains(&microseconds) {
            push_packet(&mut text, microseconds, &input.bytes)?;
        }
    }
    Ok(text)
}

/// Returns the outside capture of those of a hundred replies that arrive in this range, in
/// microseconds. The resolver sends them to the external endpoints of the thousand inputs in turn,
/// one every 10 ms, with inside packets.
pub(crate) fn replies_in(alloc: Global, times: &Range<u32>) -> Result<Vec<u8>, AllocError> {
    let mut text = Vec::from_slice(alloc, &HEADER)?;
    for k in 0..100u16 {
        let microseconds = u32::from(k) * 10_000;
        if times.contains(&microseconds) {
            let reply = udp(alloc, RESOLVER, external(1 + k % 3, 6000 + k % 4))?;
            push_packet(&mut text, microseconds, &reply)?;
        }
    }
    Ok(text)
}

/// Returns the outputs of a run over both captures under a gate, with rings of this size.
fn large_run(rt: &impl TestRuntime, ring: &str, gate: Arc<Hold>) -> Result<RunOutput, Fail> {
    let alloc = rt.alloc();
    let settings = format!(in alloc; "{THREE_ADDRESSES}ring = {ring}\n")?;
    let (inside, outside) = (sent_in(alloc, &ALL_TIMES)?, replies_in(alloc, &ALL_TIMES)?);
    let given = RunInput {
        call: Call::Captures,
        settings: Some(&settings),
        inside: &inside,
        outside: &outside,
        plans: &[],
    };
    captured(rt, &given, gate)
}

#[test]
fn same_bytes_of_a_slow_worker(rt: HostRuntime) -> Result<(), Fail> {
    let alloc = rt.alloc();
    let wanted = large_run(&rt, "1", Hold::new(alloc, GateMode::Open)?)?;
    // A fifth of the thousand are hairpins, and each reply finds its binding.
    let counts = b"packets 1100\nto outside 800\nto inside 300\n";
    assert_eq!(rt; wanted.answer, Ok(()));
    assert!(rt; wanted.report.starts_with(counts));
    for ring in ["1", "64"] {
        let open = large_run(&rt, ring, Hold::new(alloc, GateMode::Open)?)?;
        assert!(rt; open == wanted, "ring {ring}");
        let gate = Hold::new(alloc, GateMode::Slow)?;
        let slow = large_run(&rt, ring, Arc::try_clone(&gate)?)?;
        assert!(rt; slow == wanted, "ring {ring}, a slow worker");
        assert!(rt; gate.count() > 1000);
    }
    Ok(())
}
