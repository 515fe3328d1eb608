//! Devices of a run that move a byte at a time, and fail at each of their calls in turn.

use crate::calls::TestRuntime;
use crate::captures::{Call, Device, HEADER, RunInput, at_most, captured, failing};
use crate::gates::{GateMode, Hold};
use crate::samples::captures::{ONE_PACKET, WRITTEN};
use napt_capture::{CaptureFault, FaultPlan, InjectedFault, WriteFault};
use napt_pool::PoolFault;
use napt_run::{Fault, RunFault, Which};
use napt_wire::Side;
use std::test::Fail;

/// The report of the run over the capture of one packet.
const REPORT: &str =
    "packets 1\nto outside 1\nto inside 0\ndrop truncated 0\ndrop not-ipv4 0\ndrop bad-header 0\n\
drop bad-checksum 0\ndrop fragment 0\ndrop unsupported 0\ndrop bad-inner 0\ndrop bad-port 0\ndrop spoofed 0\ndrop not-ours 0\n\
drop no-binding 0\ndrop filtered 0\ndrop over-quota 0\ndrop no-port 0\nudp 10.0.0.2:5000 203.0.113.1:5000\n";

/// Moves a byte at a time, and fails after this number of bytes.
fn slow(moved: u16, injected: InjectedFault) -> FaultPlan {
    at_most(1, u64::from(moved) + 1, injected)
}

/// The result of a run, and the lengths of its texts: to the outside, to the inside, and of the report.
type DeviceRunEnd = (Result<(), Fault>, [u16; 3]);

/// Returns the end of a run that fails before it writes anything.
fn silent(fault: Fault) -> DeviceRunEnd {
    (Err(fault), [0; 3])
}

/// The end of a run that writes everything.
const WHOLE: DeviceRunEnd = (Ok(()), [70, 24, 307]);

/// Checks the end of a run over the capture of one packet on the inside and of none on the outside.
/// The capture to the inside is only a header, the first 24 bytes of the capture to the outside.
fn assert_ends(
    rt: &impl TestRuntime,
    plans: &[(Device, FaultPlan)],
    way: GateMode,
    end: DeviceRunEnd,
) -> Result<(), Fail> {
    let given = RunInput {
        call: Call::Captures,
        settings: None,
        inside: &ONE_PACKET,
        outside: &HEADER,
        plans,
    };
    let written = captured(rt, &given, Hold::new(rt.alloc(), way)?)?;
    let (answer, [to_outside, to_inside, report]) = end;
    assert_eq!(rt; written.answer, answer);
    let texts: [(&[u8], &[u8], u16); 3] = [
        (&written.to_outside, &WRITTEN, to_outside),
        (&written.to_inside, &WRITTEN, to_inside),
        (&written.report, REPORT.as_bytes(), report),
    ];
    for (found, whole, length) in texts {
        assert_eq!(rt; Some(found), whole.get(..usize::from(length)));
    }
    Ok(())
}

/// The inside capture takes four reads, for two headers, the packet and the end, the outside two.
#[test]
fn each_read_of_a_run_fails(rt: HostRuntime) -> Result<(), Fail> {
    let (inside, outside) = (Device::Inside, Device::Outside);
    for (device, side, reads) in [(inside, Side::Inside, 4), (outside, Side::Outside, 2)] {
        for call in 1..=reads {
            let end = silent(Fault::Capture(side, CaptureFault::Read));
            assert_ends(&rt, &[(device, failing(call))], GateMode::Open, end)?;
        }
    }
    let behind = [(inside, failing(5)), (outside, failing(3))];
    assert_ends(&rt, &behind, GateMode::Open, WHOLE)
}

#[test]
fn shut_gate_lets_nothing_out(rt: HostRuntime) -> Result<(), Fail> {
    let end = silent(Fault::Run(RunFault::Pool(PoolFault::GateShut(0))));
    assert_ends(&rt, &[], GateMode::Shut(0, 0), end)
}

/// Each output fails after each number of bytes. The outputs before it are complete, and the
/// outputs after it are empty. The call after the writes is the flush.
#[test]
fn each_write_of_a_run_goes_wrong(rt: HostRuntime) -> Result<(), Fail> {
    let fails = InjectedFault::Fails;
    let rows = [
        (Device::ToOutside, Which::Outside, 70u16),
        (Device::ToInside, Which::Inside, 24),
        (Device::Report, Which::Report, 307),
    ];
    for (device, which, length) in rows {
        for (injected, calls) in [
            (InjectedFault::TakesNone, length),
            (fails, length.saturating_add(1)),
        ] {
            for taken in 0..calls {
                let written = u64::from(taken);
                let lengths = match device {
                    Device::ToOutside => [taken, 0, 0],
                    Device::ToInside => [70, taken, 0],
                    _ => [70, 24, taken],
                };
                let end = (Err(Fault::Write(which, WriteFault { written })), lengths);
                assert_ends(&rt, &[(device, slow(taken, injected))], GateMode::Open, end)?;
            }
        }
    }
    let behind = [
        (Device::ToOutside, slow(71, fails)),
        (Device::ToInside, slow(25, fails)),
        (Device::Report, slow(308, fails)),
    ];
    assert_ends(&rt, &behind, GateMode::Open, WHOLE)
}
