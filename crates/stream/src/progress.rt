//! The progress of a run, which is printed at a terminal.

use crate::counting_gate::CountingGate;
use napt_program::{ProgramCall, QuietMinute};
use std::cell::Cell;
use std::sync::Arc;
use std::time::{Clock, Instant};

/// A run that is shorter than this many milliseconds prints no progress.
const FIRST_AFTER: u64 = 2_000;

/// The number of milliseconds after which the line is printed again.
const EACH: u64 = 1_000;

/// The number of packets that were read up to a time, in milliseconds from the start of the run.
#[derive(Clone, Copy)]
struct ProgressMark {
    millis: u64,
    packets: u64,
}

impl ProgressMark {
    /// The mark before the first packet.
    const BEGIN: ProgressMark = ProgressMark {
        millis: 0,
        packets: 0,
    };

    /// Returns how many packets per second were read since an earlier mark.
    fn rate_since(self, earlier: ProgressMark) -> u64 {
        let packets = self.packets.saturating_sub(earlier.packets);
        let millis = self.millis.saturating_sub(earlier.millis);
        packets.saturating_mul(1_000) / millis.max(1)
    }
}

/// The progress of a run, in one line on standard error that replaces the one before.
#[derive(Drop)]
pub struct ProgressReport<'r, R> {
    rt: &'r R,
    call: ProgramCall,
    gate: Arc<CountingGate>,
    quiet: Arc<QuietMinute>,
    /// The clock of the state with which the run starts, in ns, until a packet is earlier.
    clock: Cell<u64>,
    /// The start of the run, or `None` if progress is not printed.
    began: Option<Instant>,
    packets: Cell<u64>,
    /// The mark of the last line, or `ProgressMark::BEGIN` if there was none.
    printed: Cell<ProgressMark>,
}

impl<'r, R> ProgressReport<'r, R> {
    /// Returns whether standard error is open.
    pub fn has_stderr(&self) -> bool {
        self.call.has_stderr
    }
}

impl<'r, R: Eprint + Clock + AllocGlobal> ProgressReport<'r, R> {
    /// Returns the progress of a run that starts now, with a state of this clock, in ns. Without a
    /// terminal, no progress is printed.
    pub fn new(
        rt: &'r R,
        gate: Arc<CountingGate>,
        call: ProgramCall,
        quiet: Arc<QuietMinute>,
        clock: u64,
    ) -> ProgressReport<'r, R> {
        let began = if call.at_terminal {
            Instant::now(rt).ok()
        } else {
            None
        };
        ProgressReport {
            rt,
            call,
            gate,
            quiet,
            clock: Cell::new(clock),
            began,
            packets: Cell::new(0),
            printed: Cell::new(ProgressMark::BEGIN),
        }
    }

    /// Prints, once, that the first packet of a capture, of this time in ns, is earlier than the
    /// state. If memory for the message is refused, the run continues, and nothing is printed.
    pub fn print_if_earlier(&self, time: u64) {
        let clock = self.clock.get();
        if time < clock {
            let (rt, call) = (self.rt, self.call);
            let _ = call.print_earlier(rt, rt.alloc(), time, clock);
            self.clock.set(0);
        }
    }

    /// Records that a capture shows a quiet minute, which ends at a time in ns.
    pub fn note_quiet(&self, time: u64) {
        self.quiet.note(time);
    }

    /// Counts packets that were read.
    pub fn count(&self, more: u64) {
        self.packets.set(self.packets.get().saturating_add(more));
    }

    /// If it is time for another line, prints the number of packets read, the packets per second
    /// since the last line, and the number of bindings.
    pub fn print(&self) {
        let Some(now) = self.mark() else {
            return;
        };
        let told = self.printed.get();
        if now.millis < FIRST_AFTER || now.millis.saturating_sub(told.millis) < EACH {
            return;
        }
        let ProgressMark { packets, .. } = now;
        let rate = now.rate_since(told);
        let (name, bindings) = (self.call.name, self.gate.bindings());
        let _ = eprint!(self.rt;
            "\r{name}: {packets} packets, {rate} a second, {bindings} bindings    "
        );
        self.printed.set(now);
    }

    /// Replaces the line, if any, by the packets of the whole run and the bindings after it.
    pub fn print_end(&self) {
        if self.printed.get().millis == 0 {
            return;
        }
        let Some(now) = self.mark() else {
            return;
        };
        let ProgressMark { packets, millis } = now;
        let (seconds, rate) = (millis / 1_000, now.rate_since(ProgressMark::BEGIN));
        let (name, bindings) = (self.call.name, self.gate.bindings());
        let _ = eprintln!(self.rt;
            "\r{name}: {packets} packets in {seconds} s, {rate} a second, {bindings} bindings    "
        );
    }

    /// Returns the mark of now, or `None` if progress is not printed or the clock fails.
    fn mark(&self) -> Option<ProgressMark> {
        let elapsed = self.began?.elapsed(self.rt).ok()?;
        Some(ProgressMark {
            millis: u64::try_from(elapsed.as_millis()).ok()?,
            packets: self.packets.get(),
        })
    }
}
