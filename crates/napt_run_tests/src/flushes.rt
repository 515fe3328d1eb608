//! A property beyond the contracts: packets share flushes if captures are read in steps.

use crate::captures::{ALL_TIMES, HEADER, sent_in};
use crate::gates::{GateMode, Hold};
use crate::sample_inputs::THREE_ADDRESSES;
use napt_capture::Watched;
use napt_config::Config;
use napt_run::{Devices, NoLog, Start, initial_state, run_streams};
use std::io;
use std::io::Write;
use std::test::Fail;

/// Accepts everything that is written, and counts its bytes and its flushes.
#[derive(Drop)]
struct Counter {
    bytes: usize,
    flushes: u32,
}

impl Write for Counter {
    fn write(&mut self, bytes: &[u8]) -> io::Result<usize> {
        self.bytes = self.bytes.saturating_add(bytes.len());
        Ok(bytes.len())
    }

    fn flush(&mut self) -> io::Result<()> {
        self.flushes = self.flushes.saturating_add(1);
        Ok(())
    }
}

const NOTHING: Counter = Counter {
    bytes: 0,
    flushes: 0,
};

/// A flush is a system call. The 800 outgoing packets of one read do not have a flush each.
#[test]
fn packets_that_come_together_are_flushed_together(rt: HostRuntime) -> Result<(), Fail> {
    let alloc = rt.alloc();
    let config = Config::read(alloc, THREE_ADDRESSES.as_bytes())?;
    let inside = sent_in(alloc, &ALL_TIMES)?;
    let state = initial_state(alloc);
    let start = Start {
        config: &config,
        state: &state,
    };
    let mut devices = Devices {
        inside: Watched::new(inside.as_slice()),
        outside: Watched::new(HEADER.as_slice()),
        to_outside: Watched::new(NOTHING),
        to_inside: Watched::new(NOTHING),
        report: Watched::new(NOTHING),
        log: NoLog,
    };
    let gate = Hold::new(alloc, GateMode::Open)?;
    run_streams(&rt, alloc, start, &mut devices, gate)?;
    let Counter { bytes, flushes } = devices.to_outside.into_inner();
    assert_eq!(rt; bytes, 24 + 800 * 44);
    assert!(rt; flushes < 10, "{flushes} flushes");
    Ok(())
}
