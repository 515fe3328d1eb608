//! Flaws of captures that may make a run wrong.

use crate::options::OutputForm;
use napt_commands::{Exit, OutsideCapture};
use napt_records::CutFlags;
use napt_sequential::Input;

/// The message about a capture that ends inside a record.
const CUT: &str = "is cut: its last packet is incomplete, and is ignored";

/// A second, in ns. Shorter steps back are printed only with times, since network cards with
/// several queues make them.
const SECOND: u64 = 1_000_000_000;

/// The flaws of captures, once their ends have been reached.
#[derive(Clone, Copy)]
pub struct CaptureFlaws {
    /// Whether each capture ends inside a record, which is ignored.
    pub cuts: CutFlags,
    /// The kind of the outside capture.
    pub outside: OutsideCapture,
    pub step_back: StepBack,
}

impl CaptureFlaws {
    /// Prints which captures end inside a record, whose last packet is ignored: on standard output
    /// if it is for people, and otherwise on standard error, as a step back in time always is.
    pub fn print<R: Print + Eprint>(self, rt: &R, form: OutputForm<'_>) -> Result<(), Exit> {
        self.step_back.print(rt, form);
        let CutFlags { inside, outside } = self.cuts;
        for (side, cut) in [("inside", inside), (self.outside.name(), outside)] {
            if cut && form.is_for_people() {
                println!(rt; "the capture {side} {CUT}")?;
            } else if cut {
                let _ = eprintln!(rt; "explain: the capture {side} {CUT}");
            }
        }
        Ok(())
    }
}

/// The longest step back in time so far, among the packets and the state with which the run starts.
#[derive(Clone, Copy)]
pub struct StepBack {
    latest: Stamp,
    /// The length of the step, in ns, or 0 if there is none.
    length: u64,
    /// The number of the latest packet before the step, or 0 for the state.
    from: u64,
    /// The number of the packet after the step.
    to: u64,
}

/// The number of a packet, from 1, or 0 for the state, and its time in ns.
#[derive(Clone, Copy)]
struct Stamp {
    number: u64,
    time: u64,
}

impl StepBack {
    /// Returns no step, after a state with this clock, in ns, which is 0 for a new run.
    pub fn from_state(time: u64) -> StepBack {
        StepBack {
            latest: Stamp { number: 0, time },
            length: 0,
            from: 0,
            to: 0,
        }
    }

    /// Compares the next packet with the latest time so far.
    pub fn add_packet(&mut self, number: u64, input: &Input) {
        let time = input.time;
        let Some(far) = self.latest.time.checked_sub(time) else {
            self.latest = Stamp { number, time };
            return;
        };
        if far > self.length {
            self.length = far;
            self.from = self.latest.number;
            self.to = number;
        }
    }

    /// Returns the length of the step, in ns, or 0 if there is none.
    pub fn length(self) -> u64 {
        self.length
    }

    /// Prints a step of more than a second, and any step if the output has times.
    fn print<R: Eprint>(self, rt: &R, form: OutputForm<'_>) {
        if self.length == 0 || (self.length <= SECOND && !form.has_times()) {
            return;
        }
        self.print_step(rt);
        if form.is_about_times() {
            let _ = eprintln!(rt;
                "  each answer covers this much more time than was requested, and names everyone who had the endpoint then"
            );
        }
        if self.length <= SECOND {
            return;
        }
        let cause = match self.from {
            0 => "is it the state of a later run",
            _ => "were files joined in the wrong order",
        };
        let _ = eprintln!(rt;
            "  no binding expires until that time is reached again: {cause}, or was a clock set?"
        );
    }

    /// Prints the length of the step, and the packets before and after it.
    fn print_step<R: Eprint>(self, rt: &R) {
        let (from, to) = (self.from, self.to);
        let (seconds, rest) = (self.length / SECOND, self.length % SECOND);
        let _ = match from {
            0 => eprintln!(rt;
                "explain: packet {to} is {seconds}.{rest:09} s earlier than the state of --resume"
            ),
            _ => eprintln!(rt;
                "explain: packet {to} is {seconds}.{rest:09} s earlier than packet {from} before it"
            ),
        };
    }
}
