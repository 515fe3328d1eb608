//! Functions on lists of inputs.

ghost use Rattle.std.specs.Prelude.{◌≡◌, IfOk};
ghost use Rattle.napt_rules.specs.Sequential as model;

use napt_sequential::Input;
use std::alloc::{AllocError, Global};
use std::collections::VecDeque;

/// Returns a copy of an input and its bytes.
fn copy_of(alloc: Global, input: &Input) -> Result<Input, AllocError>
    ensures { IfOk result (λ copy. copy ≡ input.now) }
{
    Ok(Input {
        side: input.side,
        time: input.time,
        clock: input.clock,
        bytes: Vec::from_slice(alloc, &input.bytes)?,
    })
}

/// Returns copies of all inputs, in the same order.
pub(crate) fn copies(alloc: Global, inputs: &[Input]) -> Result<VecDeque<Input>, AllocError>
    ensures { IfOk result (λ made. made.items ≡ inputs.now) }
{
    let mut made = Vec::with_capacity(alloc, inputs.len())?;
    for input in inputs {
        made.push(copy_of(alloc, input)?)?;
    }
    Ok(VecDeque::from(made))
}

/// Returns the greatest clock of the inputs, in ns, or 0 if there are none.
pub(crate) fn last_clock(inputs: &[Input]) -> u64
    ensures { result ≡ model.last_clock 0 inputs.now }
{
    let mut clock = 0u64;
    for input in inputs {
        clock = clock.max(input.clock);
    }
    clock
}
