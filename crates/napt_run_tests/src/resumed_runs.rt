//! A run that continues from the state of an earlier run.

ghost use Rattle.std.specs.Prelude.{◌≡◌, []};

use crate::calls::TestRuntime;
use crate::captures::{ALL_TIMES, replies_in, sent_in};
use crate::gates::{GateMode, Hold};
use crate::sample_inputs::THREE_ADDRESSES;
use napt_capture::Watched;
use napt_config::Config;
use napt_run::{Devices, NoLog, Start, State, run_captures, run_streams};
use napt_state::first_misfit;
use std::alloc::Global;
use std::ops::Range;
use std::test::Fail;

/// The outputs of a run, and the state after it.
#[derive(Drop)]
struct ResumedOutput {
    to_outside: Vec<u8>,
    to_inside: Vec<u8>,
    report: Vec<u8>,
    state: State,
}

/// Makes the run from a state over the packets in this range, in microseconds.
fn run_on(
    rt: &impl TestRuntime,
    state: State,
    times: &Range<u32>,
    are_whole: bool,
) -> Result<ResumedOutput, Fail> {
    let alloc = rt.alloc();
    let config = Config::read(alloc, THREE_ADDRESSES.as_bytes())?;
    let (sent, replies) = (sent_in(alloc, times)?, replies_in(alloc, times)?);
    if first_misfit(alloc, &config, &state)?.is_some() {
        return Err(Fail::new("the state is not taken"));
    }
    let gate = Hold::new(alloc, GateMode::Open)?;
    let start = Start {
        config: &config,
        state: &state,
    };
    let mut devices = Devices {
        inside: Watched::new(sent.as_slice()),
        outside: Watched::new(replies.as_slice()),
        to_outside: Watched::new(Vec::new(alloc)),
        to_inside: Watched::new(Vec::new(alloc)),
        report: Watched::new(Vec::new(alloc)),
        log: NoLog,
    };
    let end = if are_whole {
        run_captures(rt, alloc, start, &mut devices, gate)?
    } else {
        run_streams(rt, alloc, start, &mut devices, gate)?
    };
    let Devices {
        to_outside,
        to_inside,
        report,
        ..
    } = devices;
    Ok(ResumedOutput {
        to_outside: to_outside.into_inner(),
        to_inside: to_inside.into_inner(),
        report: report.into_inner(),
        state: end.summary.into_state_if(true, alloc)?.ok_or("a state")?,
    })
}

/// Returns the state before the first packet.
pub(crate) fn nothing(alloc: Global) -> State
    ensures { result ≡ record { clock = 0; list = [] } }
{
    State {
        clock: 0,
        list: Vec::new(alloc),
    }
}

/// Returns whether the second text, without its header of 24 bytes, continues the first, as the
/// whole text does.
fn goes_on(first: &[u8], second: &[u8], whole: &[u8]) -> bool {
    let (Some(rest), Some(header)) = (whole.strip_prefix(first), first.get(..24)) else {
        return false;
    };
    second.strip_prefix(header) == Some(rest)
}

#[test]
fn a_cut_run_writes_what_the_whole_does(rt: HostRuntime) -> Result<(), Fail> {
    let alloc = rt.alloc();
    for are_whole in [true, false] {
        let whole = run_on(&rt, nothing(alloc), &ALL_TIMES, are_whole)?;
        for cut in [0, 1, 4_000, 500_000, 999_999] {
            let first = run_on(&rt, nothing(alloc), &(0..cut), are_whole)?;
            let second = run_on(&rt, first.state, &(cut..ALL_TIMES.end), are_whole)?;
            assert!(rt;
                goes_on(&first.to_outside, &second.to_outside, &whole.to_outside),
                "{cut}"
            );
            assert!(rt;
                goes_on(&first.to_inside, &second.to_inside, &whole.to_inside),
                "{cut}"
            );
            assert!(rt; second.state.list.len() == whole.state.list.len());
            assert!(rt; !first.report.is_empty());
        }
    }
    Ok(())
}
