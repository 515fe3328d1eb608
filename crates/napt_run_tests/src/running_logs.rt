//! A run with its log, over captures as they arrive: the log, written out by hand, also in two
//! parts, and the outputs after a log that fails.

ghost use Rattle.std.specs.Prelude.{◌≡◌};

use crate::calls::TestRuntime;
use crate::captures::{Call, Device, HEADER, RunInput, RunOutput, captured, failing, push_packet};
use crate::gates::{GateMode, Hold};
use crate::kept_logs::{SETTINGS, kept};
use crate::packets::udp;
use crate::resumed_runs::nothing;
use crate::samples::hosts::{CLIENT, RESOLVER};
use napt_account::SavedLogState;
use napt_capture::{Watched, WriteFault};
use napt_config::Config;
use napt_run::{Devices, Fault, LogStart, LogWriter, Start, State, Which, run_streams};
use napt_state::first_misfit;
use std::alloc::{AllocError, Global};
use std::num::NonZeroU32;
use std::test::Fail;

/// The header and the row of the redirect.
const OPENING: &str = "observationTimeNanoseconds,natEvent,protocolIdentifier,sourceIPv4Address,\
sourceTransportPort,postNATSourceIPv4Address,postNAPTSourceTransportPort,natQuotaExceededEvent,binding,redirect,\
packets_out,packets_in,flowEndNanoseconds,note\n\
0,8,17,10.0.0.3,7000,203.0.113.1,7000,,1,1,0,0,,\n";

/// The first packet makes a binding, which the second uses. It and the redirect are live at the
/// end.
const ROWS: &str = "10000,8,17,10.0.0.2,5000,203.0.113.1,5000,,2,0,1,0,10000,\n\
300000020000,,17,10.0.0.2,5000,203.0.113.1,5000,,2,0,2,0,20000,\n\
,,17,10.0.0.3,7000,203.0.113.1,7000,,1,1,0,0,,\n";

/// Returns a capture with a packet of one host at each of these times, in microseconds.
fn sent_at(alloc: Global, times: &[u32]) -> Result<Vec<u8>, AllocError> {
    let mut text = Vec::from_slice(alloc, &HEADER)?;
    for microseconds in times {
        push_packet(&mut text, *microseconds, &udp(alloc, CLIENT, RESOLVER)?)?;
    }
    Ok(text)
}

/// Makes the run over two packets, with a log that fails at a call, from 1, or never if it is 0.
fn run_with(rt: &impl TestRuntime, settings: &str, call: u64) -> Result<RunOutput, Fail> {
    let inside = sent_at(rt.alloc(), &[10, 20])?;
    let given = RunInput {
        call: Call::StreamsWithLog,
        settings: Some(settings),
        inside: &inside,
        outside: &HEADER,
        plans: &[(Device::Log, failing(call))],
    };
    captured(rt, &given, Hold::new(rt.alloc(), GateMode::Open)?)
}

#[test]
fn log_of_a_run_as_it_runs(rt: HostRuntime) -> Result<(), Fail> {
    let left = run_with(&rt, SETTINGS, 0)?;
    assert_eq!(rt; left.answer, Ok(()));
    assert!(rt; left.log.starts_with(OPENING.as_bytes()));
    assert_eq!(rt; left.log.get(OPENING.len()..), Some(ROWS.as_bytes()));
    assert_eq!(rt; left.to_outside.len(), 24 + 2 * 44);
    assert!(rt; left.report.starts_with(b"packets 2\n"));
    Ok(())
}

/// The results of a part of a run.
#[derive(Drop)]
struct Part {
    text: Vec<u8>,
    state: State,
    saved: SavedLogState,
}

/// Returns a new log of the saved accounts, in one piece, which another run continues.
fn new_log(saved: &SavedLogState) -> LogStart<'_>
    ensures { result.saved ≡ saved.entry }
{
    LogStart {
        saved,
        is_new: true,
        each: None,
        goes_on: true,
    }
}

/// Makes the run over packets at these times, in microseconds, from a state and with a log.
fn run_on(
    rt: &impl TestRuntime,
    state: State,
    log_start: LogStart<'_>,
    times: &[u32],
) -> Result<Part, Fail> {
    let alloc = rt.alloc();
    let config = Config::read(alloc, SETTINGS.as_bytes())?;
    if first_misfit(alloc, &config, &state)?.is_some() {
        return Err(Fail::new("the state is not taken"));
    }
    if !log_start.saved.is_valid(alloc, &state)? {
        return Err(Fail::new("no log has these accounts"));
    }
    let start = Start {
        config: &config,
        state: &state,
    };
    let sent = sent_at(alloc, times)?;
    let mut text = Watched::new(Vec::new(alloc));
    let mut devices = Devices {
        inside: Watched::new(sent.as_slice()),
        outside: Watched::new(HEADER.as_slice()),
        to_outside: Watched::new(Vec::new(alloc)),
        to_inside: Watched::new(Vec::new(alloc)),
        report: Watched::new(Vec::new(alloc)),
        log: LogWriter::new(alloc, start, log_start, &mut text)?,
    };
    let gate = Hold::new(alloc, GateMode::Open)?;
    let end = run_streams(rt, alloc, start, &mut devices, gate)?;
    drop(devices);
    let state = end.summary.into_state_if(true, alloc)?.ok_or("a state")?;
    Ok(Part {
        text: text.into_inner(),
        saved: end.log.saved(alloc, &state)?,
        state,
    })
}

/// A log that is begun and then continued after its text is the log of one run.
#[test]
fn log_of_a_run_in_two_parts(rt: HostRuntime) -> Result<(), Fail> {
    let alloc = rt.alloc();
    let none = SavedLogState::none(alloc);
    let first = run_on(&rt, nothing(alloc), new_log(&none), &[10])?;
    let kept = kept(alloc, 2, 1)?;
    assert_eq!(rt; first.saved.made, kept.made);
    assert!(rt; first.saved.accounts == kept.accounts);
    let after = LogStart {
        is_new: false,
        goes_on: false,
        ..new_log(&kept)
    };
    let second = run_on(&rt, first.state, after, &[20])?;
    assert_eq!(rt; second.saved.made, 2);
    assert!(rt; second.text.starts_with(b"300000020000,"));
    let mut text = first.text;
    text.extend_from_slice(&second.text)?;
    assert!(rt; text.starts_with(OPENING.as_bytes()));
    assert_eq!(rt; text.get(OPENING.len()..), Some(ROWS.as_bytes()));
    Ok(())
}

/// When the clock passes a second, a new piece begins, as the log of a run that continues there.
#[test]
fn log_of_a_run_in_pieces(rt: HostRuntime) -> Result<(), Fail> {
    let alloc = rt.alloc();
    let none = SavedLogState::none(alloc);
    let kept = kept(alloc, 2, 1)?;
    let pieces = LogStart {
        each: NonZeroU32::new(1),
        ..new_log(&none)
    };
    let one = run_on(&rt, nothing(alloc), pieces, &[10, 999_999])?;
    let both = run_on(&rt, nothing(alloc), pieces, &[10, 1_000_010])?;
    let first = run_on(&rt, nothing(alloc), new_log(&none), &[10])?;
    let second = run_on(&rt, first.state, new_log(&kept), &[1_000_010])?;
    assert_eq!(rt; one.text, first.text);
    let mut text = first.text;
    text.extend_from_slice(&second.text)?;
    assert_eq!(rt; both.text, text);
    Ok(())
}

/// The header of the log is written and flushed before anything else. If that fails, nothing is written. If the row of
/// the first packet cannot be written, no packet has left. There is no report.
#[test]
fn a_log_that_fails(rt: HostRuntime) -> Result<(), Fail> {
    let opening = OPENING.len();
    for (call, length, header) in [(1, 0, 0), (2, opening, 0), (3, opening, 24)] {
        let left = run_with(&rt, SETTINGS, call)?;
        let written = length as u64;
        assert_eq!(rt;
            left.answer,
            Err(Fault::Write(Which::Log, WriteFault { written }))
        );
        assert_eq!(rt; Some(left.log.as_slice()), OPENING.as_bytes().get(..length));
        assert_eq!(rt;
            (left.to_outside.len(), left.to_inside.len()),
            (header, header)
        );
        assert!(rt; left.report.is_empty());
    }
    Ok(())
}
