//! The log of a run over inputs.

use crate::CallFault;
use crate::play::line::{Line, print_answer};
use napt_account::{LoggedRun, in_order_of_making};
use napt_config::Config;
use napt_sequential::Input;

/// `input SIDE NOW BYTES`: adds an input.
pub(crate) fn take_input<R: Print>(
    line: &mut Line<'_, R>,
    inputs: &mut Vec<Input>,
) -> Result<(), CallFault> {
    let (side, time) = (line.side()?, line.number()?);
    let input = Input {
        side,
        time,
        clock: time,
        bytes: line.bytes()?,
    };
    println!(line.rt; "taken").map_err(|_| CallFault::File)?;
    inputs.push(input).map_err(|_| CallFault::Call)
}

/// `logged`: prints the entries that the log ends, makes and refuses with each input, and the
/// effect of the input on the bindings; then the entries that remain, and all entries in the order
/// of making.
pub(crate) fn print_log<R: Print>(
    line: &Line<'_, R>,
    config: Option<&Config>,
    inputs: &[Input],
) -> Result<(), CallFault> {
    let (rt, alloc) = (line.rt, line.alloc);
    let config = config.ok_or(CallFault::Usage)?;
    let mut run = LoggedRun::from_config(alloc, config).map_err(|_| CallFault::Call)?;
    let mut listed = Vec::new(alloc);
    for input in inputs {
        let mut step = run.step(alloc, input).map_err(|_| CallFault::Call)?;
        print!(rt;
            "{:?} {:?} {:?} {:?}; ",
            step.part.ended, step.part.made, step.part.refused, step.part.used
        )
        .map_err(|_| CallFault::File)?;
        listed
            .append(&mut step.part.ended)
            .map_err(|_| CallFault::Call)?;
    }
    let mut living = run.living(alloc).map_err(|_| CallFault::Call)?;
    print!(rt; "{living:?}; ").map_err(|_| CallFault::File)?;
    listed.append(&mut living).map_err(|_| CallFault::Call)?;
    let log = in_order_of_making(alloc, listed).map_err(|_| CallFault::Call)?;
    print_answer(line.rt, &log)
}
