//! Properties of runs over workers, beyond the contracts: they end, on threads that step at the
//! same time and ask the gate that they are given. The outcomes of their packets are in
//! `tests/runs/legs.txt`, at the top of the repository.

use crate::calls::{PacketEnds, TestRuntime, inputs_of, workers_run};
use crate::gates::{GateMode, Hold, MOST_REQUESTS};
use crate::large::compared;
use crate::sample_inputs::THREE_ADDRESSES;
use crate::samples::hosts::{CLIENT, RESOLVER, SECOND_CLIENT, external, host};
use crate::samples::settings::{ONE_ADDRESS, TWO_ADDRESSES};
use napt_pool::PoolFault;
use napt_run::RunFault;
use napt_wire::Side;
use std::sync::Arc;
use std::test::Fail;

/// The second address belongs to 10.0.0.2.
const PAIRED: &str = "pool = ['203.0.113.1', '203.0.113.2']\ninside = ['10.0.0.0/8']\n\
[[pair]]\nhost = '10.0.0.2'\nexternal = '203.0.113.2'\n";

const QUERY: PacketEnds = (Side::Inside, CLIENT, RESOLVER);

const SECOND_QUERY: PacketEnds = (Side::Inside, SECOND_CLIENT, RESOLVER);

/// Returns a packet from 10.0.0.3:7000.
fn served() -> PacketEnds {
    (Side::Inside, host(3, 7000), RESOLVER)
}

/// Returns a hairpin to port 7000 of the address 203.0.113.0 + `many`.
fn hairpin(many: u16) -> PacketEnds {
    (Side::Inside, CLIENT, external(many, 7000))
}

/// The settings, the slots of a ring, the packets, their legs at each address, the gate, its count.
type HairpinRow<'a> = (&'a str, &'a str, &'a [PacketEnds], &'a [u64], GateMode, u64);

#[test]
fn runs_have_their_legs(rt: HostRuntime) -> Result<(), Fail> {
    let (one, two) = (ONE_ADDRESS, TWO_ADDRESSES);
    let (served, lost) = (served(), hairpin(2));
    let inbound = (Side::Inside, RESOLVER, CLIENT);
    let first = (Side::Outside, RESOLVER, external(1, 5000));
    let second = (Side::Outside, RESOLVER, external(2, 5000));
    let rows: [HairpinRow<'_>; 8] = [
        (two, "1", &[], &[0, 0], GateMode::Open, 0),
        (one, "1", &[inbound], &[0], GateMode::Open, 0),
        (one, "1", &[served, hairpin(1)], &[3], GateMode::Open, 0),
        (two, "1", &[lost, served], &[1, 2], GateMode::Open, 0),
        // A hairpin is delivered at another address.
        (two, "1", &[served, lost], &[1, 2], GateMode::Open, 0),
        (two, "1", &[QUERY, first], &[2, 0], GateMode::Open, 0),
        (PAIRED, "1", &[QUERY, second], &[0, 2], GateMode::Open, 0),
        // The run waits for a slow worker: its one leg is let in at the request after the thousand.
        (two, "64", &[lost, served], &[1, 2], GateMode::Slow, 1001),
    ];
    for (settings, ring, sent, legs, way, wanted) in rows {
        let inputs = inputs_of(rt.alloc(), sent)?;
        let count = compared(&rt, settings, ring, &inputs, legs, way)?;
        assert_eq!(rt; count, wanted, "{legs:?}");
    }
    Ok(())
}

/// While a hairpin waits for its first worker, legs of other workers are offered to them.
#[test]
fn others_go_on(rt: HostRuntime) -> Result<(), Fail> {
    let fourth = (Side::Inside, host(4, 5000), RESOLVER);
    let inputs = inputs_of(rt.alloc(), &[hairpin(2), fourth])?;
    let legs = [1, 1, 1];
    compared(
        &rt,
        THREE_ADDRESSES,
        "64",
        &inputs,
        &legs,
        GateMode::AfterThird,
    )?;
    Ok(())
}

/// Checks that two workers, with `legs` legs and with one, see each other at their first legs.
fn assert_meeting(rt: &impl TestRuntime, ring: &str, legs: u64) -> Result<(), Fail> {
    let mut sent = Vec::new(rt.alloc());
    for _ in 0..legs {
        sent.push(QUERY)?;
    }
    sent.push(SECOND_QUERY)?;
    let inputs = inputs_of(rt.alloc(), &sent)?;
    let count = compared(
        rt,
        TWO_ADDRESSES,
        ring,
        &inputs,
        &[legs, 1],
        GateMode::Meeting,
    )?;
    assert_eq!(rt; count, 2, "ring {ring}, {legs} legs");
    Ok(())
}

#[test]
fn held_until_other(rt: HostRuntime) -> Result<(), Fail> {
    assert_meeting(&rt, "64", 1)
}

/// A worker that does not answer yet delays no other, with a ring for all of its legs or for one.
#[test]
fn full_ring_holds_up_no_other(rt: HostRuntime) -> Result<(), Fail> {
    for (ring, legs) in [("4", 4), ("4", 5), ("1", 100)] {
        assert_meeting(&rt, ring, legs)?;
    }
    Ok(())
}

/// A run over two workers ends because the gate refuses the second the same turn a million times.
#[test]
fn gate_stays_shut(rt: HostRuntime) -> Result<(), Fail> {
    let rows: [(GateMode, &[PacketEnds]); 3] = [
        // The gate refuses the fourth packet of 10.0.0.3, on the second worker, a million times.
        (GateMode::Shut(1, 3), &[SECOND_QUERY; 5]),
        // A hairpin that finds no binding, and then a packet of the host to which it went.
        (GateMode::Shut(1, 0), &[hairpin(2), served()]),
        // Worker 1 stops while worker 0 is still asking, and both have stopped when the pool is closed. The run returns
        // the fault that ended dispatching, and not that of the first worker, which `close` returns.
        (GateMode::SecondFirst, &[QUERY, SECOND_QUERY]),
    ];
    for (way, sent) in rows {
        let inputs = inputs_of(rt.alloc(), sent)?;
        let gate = Hold::new(rt.alloc(), way)?;
        let run = workers_run(&rt, TWO_ADDRESSES, "64", &inputs, Arc::try_clone(&gate)?)?;
        assert_eq!(rt; run.err(), Some(RunFault::Pool(PoolFault::GateShut(1))));
        assert_eq!(rt; gate.count(), MOST_REQUESTS);
    }
    Ok(())
}
