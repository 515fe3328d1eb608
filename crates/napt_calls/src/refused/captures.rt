//! A run over captures that are read at once or in steps: with a growth of memory refused, and with
//! each call of each device refused in turn.

ghost use Rattle.std.specs.Prelude.{◌<◌};

use crate::refused::remainders::{GateCounter, counted, looked_at};
use crate::refused::run::{INSIDE, OUTSIDE, configuration, end_of_run};
use crate::refused::{CallResult, System};
use napt_capture::{CaptureFault, FaultPlan, Faulty, InjectedFault, Watched};
use napt_config::Config;
use napt_records::{Fault, Which};
use napt_run::{Devices, NoLog, Start, initial_state, run_captures, run_streams};
use napt_wire::Side;
use std::sync::Arc;

/// The capacity of an output in bytes, so that none grows while it is written.
const ROOM: usize = 4096;

/// The greatest number of bytes that a device moves in a call.
const AT_ONCE: usize = 16;

/// The greatest number of calls of a device in a run.
const MOST_CALLS: u64 = 200;

/// A device of the run.
#[derive(Clone, Copy, PartialEq, Eq)]
enum RefusingDevice {
    Inside,
    Outside,
    ToOutside,
    ToInside,
    Report,
}

/// The call of a device that fails, counted from 1, or 0 if none does.
#[derive(Clone, Copy)]
struct Refusal {
    device: RefusingDevice,
    call: u64,
    injected: InjectedFault,
}

impl Refusal {
    /// Returns the plan of a device.
    fn plan(self, device: RefusingDevice) -> FaultPlan
        ensures { 0 < result.most }
    {
        let call = if self.device == device { self.call } else { 0 };
        FaultPlan {
            most: AT_ONCE,
            failing_call: call,
            fault: self.injected,
        }
    }
}

/// The result and the outputs of a run.
#[derive(Drop)]
struct CallOutput {
    answer: Result<(), Fault>,
    to_outside: Vec<u8>,
    to_inside: Vec<u8>,
    report: Vec<u8>,
}

/// Makes the run, with this gate.
fn make_run(
    rt: &impl System,
    config: &Config,
    are_whole: bool,
    refusal: Refusal,
    gate: Arc<GateCounter>,
) -> Result<CallOutput, CallResult> {
    let alloc = rt.alloc();
    macro_rules! on {
        ($device:ident, $text:expr) => {
            Faulty::new(Watched::new($text), refusal.plan(RefusingDevice::$device))
        };
    }
    let state = initial_state(alloc);
    let start = Start {
        config,
        state: &state,
    };
    let mut devices = Devices {
        inside: on!(Inside, INSIDE.as_slice()),
        outside: on!(Outside, OUTSIDE.as_slice()),
        to_outside: on!(ToOutside, Vec::with_capacity(alloc, ROOM)?),
        to_inside: on!(ToInside, Vec::with_capacity(alloc, ROOM)?),
        report: on!(Report, Vec::with_capacity(alloc, ROOM)?),
        log: NoLog,
    };
    let run = if are_whole {
        run_captures(rt, alloc, start, &mut devices, gate)
    } else {
        run_streams(rt, alloc, start, &mut devices, gate)
    };
    let answer = match run {
        Ok(_) => Ok(()),
        Err(fault) => Err(fault),
    };
    let Devices {
        to_outside,
        to_inside,
        report,
        ..
    } = devices;
    Ok(CallOutput {
        answer,
        to_outside: to_outside.into_inner().into_inner(),
        to_inside: to_inside.into_inner().into_inner(),
        report: report.into_inner().into_inner(),
    })
}

/// No call fails.
const NONE: Refusal = Refusal {
    device: RefusingDevice::Inside,
    call: 0,
    injected: InjectedFault::Fails,
};

/// Makes the run, and checks that nothing is left.
fn tried(
    rt: &impl System,
    config: &Config,
    are_whole: bool,
    refusal: Refusal,
) -> Result<CallOutput, CallResult> {
    let (counts, gate) = counted(rt.alloc())?;
    let run = make_run(rt, config, are_whole, refusal, gate);
    looked_at(rt, &counts, run)
}

/// Makes the run. Its outputs must be complete. If memory or a thread was refused, they must be
/// empty after captures that are read at once, and otherwise prefixes of the complete outputs.
pub(crate) fn ended(rt: &impl System, are_whole: bool) -> Result<(), CallResult> {
    let config = configuration(rt.alloc())?;
    let run = tried(rt, &config, are_whole, NONE)?;
    // One packet goes to the outside, and two packets go to inside hosts.
    let (whole, written) = ((68, 112), (run.to_outside.len(), run.to_inside.len()));
    let most = if are_whole { (0, 0) } else { whole };
    match run.answer {
        Ok(()) if written == whole && !run.report.is_empty() => Ok(()),
        Ok(()) => Err(CallResult::Wrong("other outputs")),
        Err(_) if written.0 > most.0 || written.1 > most.1 || !run.report.is_empty() => {
            Err(CallResult::Wrong("too much is written"))
        }
        Err(Fault::Capture(_, CaptureFault::Memory)) => Err(CallResult::Memory),
        Err(Fault::Run(fault)) => Err(end_of_run(fault)),
        Err(_) => Err(CallResult::Wrong("another fault")),
    }
}

/// Refuses each call of each device in turn, over captures that are read in steps. No thread may be
/// left, each output must be a prefix of the complete one, and the fault must name the device and
/// the number of bytes written.
pub(crate) fn devices_ended(rt: &impl System) -> Result<(), CallResult> {
    let config = configuration(rt.alloc())?;
    let whole = tried(rt, &config, false, NONE)?;
    for device in [
        RefusingDevice::Inside,
        RefusingDevice::Outside,
        RefusingDevice::ToOutside,
        RefusingDevice::ToInside,
        RefusingDevice::Report,
    ] {
        sweep(rt, &config, device, &whole)?;
    }
    Ok(())
}

/// Refuses each call of a device in turn.
fn sweep(
    rt: &impl System,
    config: &Config,
    device: RefusingDevice,
    whole: &CallOutput,
) -> Result<(), CallResult> {
    for call in 1..MOST_CALLS {
        let mut is_over = false;
        for injected in [InjectedFault::Fails, InjectedFault::TakesNone] {
            // A capture that ends earlier is another capture.
            let is_source = matches!(device, RefusingDevice::Inside | RefusingDevice::Outside);
            if is_source && injected == InjectedFault::TakesNone {
                continue;
            }
            let refusal = Refusal {
                device,
                call,
                injected,
            };
            let run = tried(rt, config, false, refusal)?;
            is_over = is_over || injected == InjectedFault::Fails && run.answer == Ok(());
            judge(device, &run, whole)?;
        }
        if is_over {
            return Ok(());
        }
    }
    Err(CallResult::Wrong("a device has no end of calls"))
}

/// Checks that a run in which one call of a device failed ended as it should.
fn judge(device: RefusingDevice, run: &CallOutput, whole: &CallOutput) -> Result<(), CallResult> {
    let begins = whole.to_outside.starts_with(&run.to_outside)
        && whole.to_inside.starts_with(&run.to_inside)
        && whole.report.starts_with(&run.report);
    if !begins {
        return Err(CallResult::Wrong("an output is no front"));
    }
    let is_right = match (run.answer, device) {
        (Ok(()), _) => is_whole(run, whole),
        (Err(Fault::Capture(side, CaptureFault::Read)), RefusingDevice::Inside) => side
            == Side::Inside,
        (Err(Fault::Capture(side, CaptureFault::Read)), RefusingDevice::Outside) => side
            == Side::Outside,
        (Err(Fault::Write(Which::Outside, fault)), RefusingDevice::ToOutside) => {
            fault.written == run.to_outside.len() as u64
        }
        (Err(Fault::Write(Which::Inside, fault)), RefusingDevice::ToInside) => {
            fault.written == run.to_inside.len() as u64
        }
        (Err(Fault::Write(Which::Report, fault)), RefusingDevice::Report) => {
            fault.written == run.report.len() as u64
        }
        _ => false,
    };
    match is_right {
        true if run.report.is_empty() || device == RefusingDevice::Report || run.answer == Ok(()) =>
            Ok(()),
        true => Err(CallResult::Wrong("a report is begun")),
        false => Err(CallResult::Wrong("another fault")),
    }
}

fn is_whole(run: &CallOutput, whole: &CallOutput) -> bool {
    run.to_outside.len() == whole.to_outside.len()
        && run.to_inside.len() == whole.to_inside.len()
        && run.report.len() == whole.report.len()
}
