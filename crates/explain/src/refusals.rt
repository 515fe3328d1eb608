//! Prints why napt refuses a configuration, a state or a capture.

use napt_capture::CaptureFault;
use napt_commands::Exit;
use napt_config::{ConfigFault, ConfigPlace};
use napt_display::reasons::{Reason, SplitAdvice, capture_reasons};
use napt_program::{
    CaptureFaultName, FileRole, StateRefusal, StateRefusalName, Stop, misfit_reason, stop_of_state,
};
use napt_records::{EndpointText, protocol_name};
use napt_rules::{Misfit, Row};
use napt_state::StateFault;
use std::alloc::AllocError;

/// Prints the fault line of a refused configuration and the reason, and returns the stop of `napt`.
pub fn print_config<R: Eprint>(
    rt: &R,
    name: &str,
    path: &str,
    place: &ConfigPlace,
    fault: ConfigFault,
) -> Exit {
    let stop = Stop::Config(fault);
    let _ = eprintln!(rt; "explain: {stop}");
    let _ = eprintln!(rt; "explain: {name} {path}: {place}{fault}");
    Exit::Printed(stop)
}

/// Prints that the capture of a side, which starts with these bytes, is refused, and why.
pub fn print_capture<R: Eprint + AllocGlobal>(
    rt: &R,
    side: &str,
    bytes: &[u8],
    fault: CaptureFault,
    splitting: SplitAdvice<'_>,
) -> Result<(), Exit> {
    let name = CaptureFaultName(fault);
    let _ = eprintln!(rt; "the capture {side} is refused: {name}");
    print_reasons(rt, capture_reasons(rt.alloc(), bytes, fault, splitting))
}

/// Prints why the text of the state at a path is refused, and returns the stop of `napt`.
pub fn print_state<R: Eprint>(rt: &R, path: &str, fault: &StateFault) -> Exit {
    let _ = eprintln!(rt; "the state {path} is refused: {fault}");
    Exit::Printed(stop_of_state(fault))
}

/// Prints that the accounts of the state at a path cannot be those of a log, and returns the stop.
pub fn print_accounts<R: Eprint>(rt: &R, path: &str) -> Exit {
    let _ = eprintln!(rt; "the state {path} is refused: its accounts cannot be those of one log");
    Exit::Printed(Stop::File(FileRole::Resume))
}

/// Prints which binding of a state the configuration refuses, and why, and returns the stop.
pub fn print_binding<R: Eprint>(rt: &R, path: &str, row: Row, misfit: Misfit) -> Exit {
    let refusal = StateRefusal::Binding(misfit);
    let (name, protocol) = (StateRefusalName(refusal), protocol_name(row.protocol));
    let (inside, external) = (EndpointText(row.inside), EndpointText(row.external));
    let _ = eprintln!(rt; "the state {path} is refused: {name}");
    let _ = eprintln!(rt; "  binding   {protocol} {inside} {external}");
    let _ = eprintln!(rt; "  reason    {}", misfit_reason(misfit));
    Exit::Printed(Stop::State(refusal))
}

fn print_reasons<R: Eprint>(rt: &R, reasons: Result<Vec<Reason>, AllocError>) -> Result<(), Exit> {
    for reason in &reasons? {
        let _ = eprintln!(rt; "  {:<9} {}", reason.title, reason.text);
    }
    Ok(())
}
