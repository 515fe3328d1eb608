//! A property beyond the contracts: while inputs are read, all answers that are there are taken.

ghost use Rattle.std.specs.Prelude.{⊤, MatchResult};

use crate::gates::{GateMode, Hold};
use crate::resumed_runs::nothing;
use crate::sample_inputs::input;
use crate::samples::hosts::{CLIENT, RESOLVER, SECOND};
use crate::samples::settings::TWO_ADDRESSES;
use napt_config::Config;
use napt_dispatch::{InputResult, OutcomeSink, run_through};
use napt_run::Input;
use napt_sequential::{InputSource, NoTrace};
use napt_wire::Side;
use std::alloc::{AllocError, Global};
use std::sync::Arc;
use std::sync::atomic::{AtomicU64, Ordering};
use std::test::Fail;

/// The input by which the first worker has answered two messages, and after which it is looked at.
const LOOKED_AFTER: u64 = 48;

/// The number of legs in these two messages: those of the first input and of the sixteen after it.
const ANSWERED: u64 = 17;

/// Packets of one host, and the number of outcomes that left before the input after `LOOKED_AFTER`.
#[derive(Drop)]
struct Packets {
    alloc: Global,
    number: u64,
    gate: Arc<Hold>,
    left: Arc<AtomicU64>,
    left_then: u64,
}

impl InputSource for Packets {
    type Fault = AllocError;

    ghost hands = { λ packets inputs later. ⊤ };

    ghost ends = { λ packets fault later. ⊤ };

    ghost asks = { λ packets. ⊥ };

    ghost hands_none = { λ x. tt };

    ghost hands_more = { λ x y z xs ys first second. tt };

    fn asks_device(&self) -> bool {
        false
    }

    fn next(&mut self, _spare: Vec<u8>) -> Result<Option<Input>, AllocError> {
        let number = self.number;
        if number == LOOKED_AFTER {
            // The worker requests a message's first turn once all earlier answers are in the ring.
            self.gate.wait_for(ANSWERED);
        }
        if number > LOOKED_AFTER {
            self.left_then = self.left.load(Ordering::SeqCst);
            return Ok(None);
        }
        self.number = number + 1;
        let packet = input(self.alloc, Side::Inside, SECOND, CLIENT, RESOLVER)?;
        Ok(Some(packet))
    }
}

/// Counts the outcomes that leave.
#[derive(Drop)]
struct Count {
    left: Arc<AtomicU64>,
}

impl OutcomeSink for Count {
    type Fault = AllocError;

    type Trace = NoTrace;

    ghost takes = { λ before pairs after. ⊤ };

    ghost fails = { λ before pairs fault after. ⊤ };

    ghost is_settled = { λ count. ⊤ };

    ghost takes_none = { λ x. tt };

    ghost takes_more = { λ x y z xs ys first second. tt };

    fn write(
        &mut self,
        _time: u64,
        _departed: InputResult<NoTrace>,
    ) -> Result<Option<Vec<u8>>, AllocError>
        ensures { MatchResult result (λ _. ⊤) (λ fault. ⊤) }
    {
        self.left.fetch_add(1, Ordering::SeqCst);
        Ok(None)
    }

    fn settle(&mut self) -> Result<(), AllocError>
        ensures { MatchResult result (λ _. ⊤ × ⊤) (λ fault. ⊤) }
    {
        Ok(())
    }
}

/// With rings of 64 slots, the dispatcher sends a worker sixteen legs in a message, looks at the
/// worker whenever it does, and takes all its answers. Therefore they have left before the next
/// input is requested. A dispatcher that takes one answer, or looks at no worker, delays them.
#[test]
fn answers_are_taken_while_inputs_are_read(rt: HostRuntime) -> Result<(), Fail> {
    let alloc = rt.alloc();
    let config = Config::read(alloc, TWO_ADDRESSES.as_bytes())?;
    let gate = Hold::new(alloc, GateMode::Shown)?;
    let left = Arc::new(alloc, AtomicU64::new(0))?;
    let mut packets = Packets {
        alloc,
        number: 0,
        gate: Arc::try_clone(&gate)?,
        left: Arc::try_clone(&left)?,
        left_then: 0,
    };
    let (state, mut count) = (nothing(alloc), Count { left });
    let run = run_through(&rt, alloc, &config, &state, &mut packets, &mut count, gate);
    let passed = run.ok().expect(&rt, "a run that ends whole");
    assert_eq!(rt; passed.legs.as_slice(), [LOOKED_AFTER + 1, 0].as_slice());
    let left = packets.left_then;
    assert!(rt; left >= ANSWERED, "{left} have left");
    Ok(())
}
