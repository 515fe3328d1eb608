//! The program `stream`, which translates as `napt` does, but as packets arrive, in bounded memory.
#![tactic(auto)]

mod counted_device;
mod counting_gate;
mod manual;
mod program;
mod progress;
mod stream_run;

use napt_program::{ProgramCall, StandardStreams, StopReason};
use std::process::ExitCode;

fn main(rt: HostRuntime) -> ExitCode {
    let streams = StandardStreams::open_now(&rt);
    let call = ProgramCall::new(&rt, streams, manual::OWN.name);
    let mut reason = StopReason::new(call.at_terminal);
    match call.as_called(&rt, manual::INSTALLED.name) {
        Ok(call) => {
            let answer = program::serve(&rt, streams, call, &mut reason);
            call.finish(&rt, &answer, &reason)
        }
        Err(stop) => call.finish(&rt, &Err(stop), &reason),
    }
}
