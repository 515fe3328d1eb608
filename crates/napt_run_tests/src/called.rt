//! Properties, beyond the contracts, of the calls that `napt` and `stream` make: their workers step
//! at the same time on their own threads, a worker that waits does not delay the others, and each
//! asks the gate that the call is given.

use crate::calls::TestRuntime;
use crate::captures::{Call, HEADER, RunInput, RunOutput, captured, push_packet};
use crate::gates::{GateMode, Hold, MOST_REQUESTS};
use crate::packets::udp;
use crate::sample_inputs::THREE_ADDRESSES;
use crate::samples::hosts::{CLIENT, RESOLVER, SECOND_CLIENT, external, host};
use crate::samples::settings::TWO_ADDRESSES;
use napt_pool::PoolFault;
use napt_run::{Fault, RunFault};
use napt_wire::Endpoint;
use std::sync::Arc;
use std::test::Fail;

/// Returns the outputs of a call over inside packets with these endpoints, and the gate's count.
fn under_gate(
    rt: &impl TestRuntime,
    call: Call,
    settings: &str,
    packets: &[(Endpoint, Endpoint)],
    way: GateMode,
) -> Result<(RunOutput, u64), Fail> {
    let alloc = rt.alloc();
    let mut inside = Vec::from_slice(alloc, &HEADER)?;
    for (from, to) in packets {
        push_packet(&mut inside, 0, &udp(alloc, *from, *to)?)?;
    }
    let given = RunInput {
        call,
        settings: Some(settings),
        inside: &inside,
        outside: &HEADER,
        plans: &[],
    };
    let gate = Hold::new(alloc, way)?;
    let written = captured(rt, &given, Arc::try_clone(&gate)?)?;
    Ok((written, gate.count()))
}

/// Checks that both calls end with this count of a gate, and a report that begins with this text.
fn assert_ends(
    rt: &impl TestRuntime,
    settings: &str,
    packets: &[(Endpoint, Endpoint)],
    way: GateMode,
    (report, count): (&str, u64),
) -> Result<(), Fail> {
    for call in [Call::Captures, Call::Streams] {
        let (written, counted) = under_gate(rt, call, settings, packets, way)?;
        assert_eq!(rt; written.answer, Ok(()), "{call:?}");
        assert!(rt; written.report.starts_with(report.as_bytes()), "{call:?}");
        assert_eq!(rt; counted, count, "{call:?}");
    }
    Ok(())
}

/// Each of two workers sees the other at its first leg. Workers that step only on request do not.
#[test]
fn workers_of_a_call_meet(rt: HostRuntime) -> Result<(), Fail> {
    let packets = [(CLIENT, RESOLVER), (SECOND_CLIENT, RESOLVER)];
    let end = ("packets 2\nto outside 2\n", 2);
    assert_ends(&rt, TWO_ADDRESSES, &packets, GateMode::Meeting, end)
}

/// While a hairpin waits for its first worker, legs of other workers are offered to them.
#[test]
fn others_of_a_call_go_on(rt: HostRuntime) -> Result<(), Fail> {
    let packets = [(CLIENT, external(2, 7000)), (host(4, 5000), RESOLVER)];
    let end = ("packets 2\nto outside 1\nto inside 0\n", 0);
    assert_ends(&rt, THREE_ADDRESSES, &packets, GateMode::AfterThird, end)
}

/// The gate refuses the fourth of five packets of 10.0.0.3, whose worker is the second, a million
/// times. By then `napt` has written nothing, and `stream` at most the three packets before it.
#[test]
fn gate_of_a_call_stays_shut(rt: HostRuntime) -> Result<(), Fail> {
    let packets = [(host(3, 5000), RESOLVER); 5];
    let (open, _) = under_gate(&rt, Call::Streams, TWO_ADDRESSES, &packets, GateMode::Open)?;
    assert_eq!(rt; open.answer, Ok(()));
    for (call, most) in [(Call::Captures, 0), (Call::Streams, 24 + 3 * 44)] {
        let (shut, asks) = under_gate(&rt, call, TWO_ADDRESSES, &packets, GateMode::Shut(1, 3))?;
        let fault = Fault::Run(RunFault::Pool(PoolFault::GateShut(1)));
        assert_eq!(rt; shut.answer, Err(fault), "{call:?}");
        assert_eq!(rt; asks, MOST_REQUESTS, "{call:?}");
        assert!(rt; shut.to_outside.len() <= most, "{call:?}");
        assert!(rt; open.to_outside.starts_with(&shut.to_outside), "{call:?}");
        assert!(rt; shut.report.is_empty(), "{call:?}");
    }
    Ok(())
}
