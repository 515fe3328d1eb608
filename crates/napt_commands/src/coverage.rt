//! Checks whether captures contain the packets that the figures of a run need.

use napt_account::{LogEntry, LogStep};
use napt_sequential::{Input, Outcome};
use napt_wire::{Cause, Side};

const SECOND: u64 = 1_000_000_000;

/// The packets of the captures, and the bindings made and ended in them. Redirects do not count.
#[derive(Clone, Copy, Default)]
pub struct Coverage {
    from_inside: u64,
    from_outside: u64,
    /// The number of packets with fewer bytes than their headers say.
    truncated: u64,
    made: u64,
    ended: u64,
    /// The longest time from the last packet of a binding to its end, in ns.
    longest: u64,
    /// The times of the first and the latest packet, in ns.
    first: Option<u64>,
    last: u64,
}

impl Coverage {
    /// Counts the next packet, and the bindings that it made and ended.
    pub fn count_packet(&mut self, input: &Input, step: &LogStep) {
        let many = match input.side {
            Side::Inside => &mut self.from_inside,
            Side::Outside => &mut self.from_outside,
        };
        *many = many.saturating_add(1);
        if let Outcome::Dropped(Cause::Truncated) = &step.outcome {
            self.truncated = self.truncated.saturating_add(1);
        }
        self.made = self.made.saturating_add(step.part.made.len() as u64);
        self.ended = self.ended.saturating_add(step.part.ended.len() as u64);
        self.end(&step.part.ended);
        self.first = self.first.or(Some(input.clock));
        self.last = self.last.max(input.clock);
    }

    /// Prints which packets the captures lack under any configuration.
    pub fn print<R: Eprint>(self, rt: &R) {
        if self.from_inside == 0 {
            let _ = eprintln!(rt;
                "explain: no packet comes from inside, so figures about bindings are meaningless"
            );
        } else if self.from_outside == 0 {
            let _ = eprintln!(rt;
                "explain: no packet comes from outside, so every connection counts as unanswered and expires early"
            );
        }
        let all = self.from_inside.saturating_add(self.from_outside);
        if self.truncated > all / 100 {
            let truncated = self.truncated;
            let _ = eprintln!(rt;
                "explain: {truncated} of {all} packets are truncated: take captures without a snapshot length"
            );
        }
    }

    /// Counts bindings that have ended, or that would end if no more packets came.
    fn end(&mut self, entries: &[LogEntry]) {
        for LogEntry { entry, .. } in entries {
            let end = u64::try_from(entry.end.unwrap_or(0)).unwrap_or(u64::MAX);
            self.longest = self.longest.max(end.saturating_sub(entry.last));
        }
    }

    /// Counts the bindings that are live at the end, and prints a warning if more than half of all
    /// bindings are, or if the captures span less time than the longest time to an end.
    pub fn print_living<R: Eprint>(mut self, rt: &R, entries: &[LogEntry]) {
        self.end(entries);
        let (living, made) = (self.made.saturating_sub(self.ended), self.made);
        let span = self.last.saturating_sub(self.first.unwrap_or(0));
        let is_half = living > made / 2;
        if !is_half && span >= self.longest {
            return;
        }
        let (span, longest) = (span / SECOND, self.longest / SECOND);
        let _ = match is_half {
            true => eprintln!(rt;
                "explain: {living} of {made} bindings are live when the captures end, after {span} s: the greatest number at once may be higher"
            ),
            false => eprintln!(rt;
                "explain: the captures span {span} s, less than the {longest} s that a binding lives after its last packet: \
the greatest number at once may be higher"
            ),
        };
    }
}
