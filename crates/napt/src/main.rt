//! The program `napt`.
#![tactic(auto)]

mod program;

use napt_program::{ProgramCall, StandardStreams, StopReason};
use std::process::ExitCode;

fn main(rt: HostRuntime) -> ExitCode {
    let streams = StandardStreams::open_now(&rt);
    let call = ProgramCall::new(&rt, streams, "napt");
    let mut reason = StopReason::new(call.at_terminal);
    let answer = program::serve(&rt, streams, call, &mut reason);
    call.finish(&rt, &answer, &reason)
}
