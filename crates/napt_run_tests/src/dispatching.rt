//! Dispatching to a pool, and the state of its workers afterwards.

ghost use Rattle.std.specs.Prelude.{◌≡◌, length, vec_len, IfOk};
ghost use Rattle.napt_config.specs.Rules.{RulesInvariant};
ghost use Rattle.napt_dispatch.specs.Dispatch.{started_translators};

use crate::calls::{TestRuntime, plain_run, with_rings};
use crate::gates::{GateMode, Hold};
use crate::large::assert_same;
use crate::sample_inputs::{THREE_ADDRESSES, thousand_inputs};
use crate::samples::hosts::{SECOND, external};
use napt_config::Config;
use napt_pool::{Ended, Pool};
use napt_run::{Input, NoTrace, Run, Worker, dispatch};
use napt_table::Row;
use napt_translate::Translator;
use std::alloc::{AllocError, Global};
use std::marker::PhantomData;
use std::test::Fail;

/// Returns the workers of all external addresses before any leg, in the order of the pool.
fn workers(alloc: Global, config: &Config) -> Result<Vec<Worker<NoTrace>>, AllocError>
    ensures kept { RulesInvariant config.now }
    ensures made { IfOk result (λ made. made.items
        ≡ started_translators config.now (length config.now.pool)) }
    ensures many { IfOk result (λ made. vec_len made ≡ length config.now.pool) }
{
    let many = config.pool().len() as u32;
    let mut made = Vec::new(alloc);
    for index in 0..many {
        let translator = Translator::new(alloc, index, config.copy(alloc)?)?;
        made.push(Worker {
            translator,
            trace: PhantomData,
        })?;
    }
    Ok(made)
}

/// Checks that each of three workers has the four bindings of its own address, and owes no answer.
fn assert_left(
    rt: &impl TestRuntime,
    ended: &[Ended<Worker<NoTrace>>],
    rows: &[Row],
) -> Result<(), Fail> {
    let mut left = Vec::new(rt.alloc());
    assert!(rt; ended.len() == 3);
    for (last, worker) in [1, 2, 3].iter().zip(ended) {
        let mut own = worker.machine.translator.bindings(rt.alloc(), SECOND)?;
        let address = external(*last, 0).address;
        let are_own = own.iter().all(|row| row.external.address == address);
        let is_left = are_own && own.len() == 4 && worker.answers.is_empty();
        assert!(rt; is_left, "203.0.113.{last}");
        left.append(&mut own)?;
    }
    assert_eq!(rt; left.as_slice(), rows);
    Ok(())
}

/// Checks that up to a thousand inputs, dispatched to a pool, give the run on one thread.
fn assert_dispatched(
    rt: &impl TestRuntime,
    config: &Config,
    inputs: &[Input],
    plain: &Run,
) -> Result<(), Fail> {
    if inputs.len() > 1000 {
        return Err("at most a thousand inputs".into());
    }
    let alloc = rt.alloc();
    let machines = workers(alloc, config)?;
    let gate = Hold::new(alloc, GateMode::Open)?;
    let mut pool = Pool::start(rt, alloc, machines, config.ring(), gate)?;
    let told = dispatch(rt, alloc, &mut pool, config, inputs);
    let closed = pool.close(rt, alloc);
    let (outcomes, legs) = told?;
    assert_same(rt, &outcomes, &plain.outcomes);
    assert_eq!(rt; legs.as_slice(), [401, 400, 399].as_slice());
    assert_left(rt, &closed?, &plain.bindings)
}

#[test]
fn thousand_inputs_dispatched(rt: HostRuntime) -> Result<(), Fail> {
    let alloc = rt.alloc();
    let inputs = thousand_inputs(alloc)?;
    let plain = plain_run(alloc, THREE_ADDRESSES, &inputs)?;
    for ring in ["1", "64"] {
        let config = with_rings(alloc, THREE_ADDRESSES, ring)?;
        assert_dispatched(&rt, &config, &inputs, &plain)?;
    }
    Ok(())
}
