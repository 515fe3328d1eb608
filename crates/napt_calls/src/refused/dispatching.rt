//! Inputs that are dispatched to a pool.

ghost use Rattle.std.specs.Prelude.{◌≡◌, length, vec_len, IfOk};
ghost use Rattle.napt_config.specs.Rules.{RulesInvariant};
ghost use Rattle.napt_dispatch.specs.Dispatch.{started_translators};

use crate::refused::remainders::{GateCounter, counted, looked_at};
use crate::refused::run::{configuration, end_of_run, inputs};
use crate::refused::{CallResult, System};
use napt_config::Config;
use napt_pool::{Pool, PoolFault};
use napt_run::{Input, NoTrace, Worker, dispatch};
use napt_translate::Translator;
use std::alloc::{AllocError, Global};
use std::marker::PhantomData;
use std::sync::Arc;

/// Returns the workers of all external addresses before any leg, in the order of the pool.
fn workers(alloc: Global, config: &Config) -> Result<Vec<Worker<NoTrace>>, AllocError>
    ensures kept { RulesInvariant config.now }
    ensures made { IfOk result (λ made. made.items
        ≡ started_translators config.now (length config.now.pool)) }
    ensures many { IfOk result (λ made. vec_len made ≡ length config.now.pool) }
{
    let many = config.pool().len() as u32;
    let mut made = Vec::new(alloc);
    for index in 0..many {
        let translator = Translator::new(alloc, index, config.copy(alloc)?)?;
        made.push(Worker {
            translator,
            trace: PhantomData,
        })?;
    }
    Ok(made)
}

/// Dispatches the inputs to a pool, and closes it.
fn dispatched(
    rt: &impl System,
    config: &Config,
    inputs: &[Input],
    gate: Arc<GateCounter>,
) -> Result<(), CallResult> {
    let alloc = rt.alloc();
    let machines = workers(alloc, config)?;
    if inputs.len() != 3 {
        return Err(CallResult::Wrong("other inputs"));
    }
    let mut pool = match Pool::start(rt, alloc, machines, config.ring(), gate) {
        Ok(pool) => pool,
        Err(PoolFault::Memory | PoolFault::NoThread) => return Err(CallResult::Before),
        Err(_) => return Err(CallResult::Wrong("another fault")),
    };
    let answer = dispatch(rt, alloc, &mut pool, config, inputs);
    let closed = pool.close(rt, alloc);
    let (outcomes, legs) = answer.map_err(end_of_run)?;
    match closed {
        Ok(_) if outcomes.len() == 3 && legs.as_slice() == [1, 3].as_slice() => Ok(()),
        Err(PoolFault::Memory) => Err(CallResult::After),
        _ => Err(CallResult::Wrong("another run")),
    }
}

pub(crate) fn ended(rt: &impl System) -> Result<(), CallResult> {
    let alloc = rt.alloc();
    let (config, inputs) = (configuration(alloc)?, inputs(alloc)?);
    let (counts, gate) = counted(alloc)?;
    let came = dispatched(rt, &config, &inputs, gate);
    looked_at(rt, &counts, came)
}
