//! The marks of a TCP flow (RFC 5382, REQ-2 and REQ-5).

ghost use Rattle.std.specs.Prelude.{◌≡◌, ◌<◌, ◌≤◌};
ghost use Rattle.napt_rules.specs.Marks as rules;

use crate::idle_timers::IdleTimers;
use napt_rules::SessionMarks;
use napt_wire::{Flags, Way};

pub(crate) const NO_MARKS: SessionMarks = SessionMarks {
    syn_out: false,
    syn_in: false,
    fin_out: false,
    fin_in: false,
    reset: false,
};

/// Returns whether the flow is closing: it was reset, or a FIN was seen in each direction.
fn is_closing(marks: SessionMarks) -> bool
    ensures { result ≡ rules.is_closing marks }
{
    marks.reset || (marks.fin_out && marks.fin_in)
}

/// Returns whether the session is established: a SYN was seen in each direction, and no closing.
pub(crate) fn is_established(marks: SessionMarks) -> bool
    ensures { result ≡ rules.is_established marks }
{
    marks.syn_out && marks.syn_in && !is_closing(marks)
}

/// Returns how long a flow with these marks may be idle, in seconds.
pub(crate) fn idle(marks: SessionMarks, timers: IdleTimers) -> u64
    ensures value { result ≡ rules.idle timers marks }
    ensures some { 0 < result }
    ensures few { result ≤ 1_000_000_000 }
{
    if is_established(marks) {
        timers.seconds.established
    } else {
        timers.seconds.transitory
    }
}

/// Returns the marks after a segment in this direction.
pub(crate) fn marked(marks: SessionMarks, way: Way, flags: Flags) -> SessionMarks
    ensures { result ≡ rules.marked marks way flags }
{
    let begins = flags.syn && !flags.ack && is_closing(marks);
    let marks = if begins { NO_MARKS } else { marks };
    let answers = flags.syn && flags.ack;
    match way {
        Way::Outgoing => SessionMarks {
            syn_out: marks.syn_out || flags.syn,
            syn_in: marks.syn_in || answers,
            fin_out: marks.fin_out || flags.fin,
            fin_in: marks.fin_in,
            reset: marks.reset || flags.rst,
        },
        Way::Incoming => SessionMarks {
            syn_out: marks.syn_out || answers,
            syn_in: marks.syn_in || flags.syn,
            fin_out: marks.fin_out,
            fin_in: marks.fin_in || flags.fin,
            reset: marks.reset || flags.rst,
        },
    }
}
