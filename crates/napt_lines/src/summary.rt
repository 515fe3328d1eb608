//! The lines of a run, and its summary: the live bindings, and the counts of outcomes.

use crate::column_widths::ColumnWidths;
use crate::ended_bindings::{add_binding, add_end};
use crate::lines::{PacketLine, has_party};
use crate::packet_selection::PacketSelection;
use crate::replies::Replies;
use napt_account::Entry;
use napt_commands::{CommandOutput, EndedRun, Exit, LineBuffer, RunPacket, Seconds, SortedEntries};
use napt_config::Config;
use napt_display::reasons::CauseText;
use napt_records::{OutcomeCounts, cause_name};
use napt_table::Row;
use napt_wire::Cause;
use std::alloc::AllocError;
use std::fmt::Write;

/// The advice if many packets from outside find no binding, but were requested from inside.
const OTHER_NUMBERS: &str =
    "inside packets left for their remotes just before, so the captured gateway seems to have chosen other numbers or \
addresses: give what inside hosts got as --replies";

/// The lines of a run, and the counts for its summary.
#[derive(Drop)]
pub struct PacketLines<'a> {
    choice: PacketSelection,
    /// The packets from outside, if they are replies.
    replies: Option<Replies<'a>>,
    widths: ColumnWidths,
    counts: OutcomeCounts,
}

impl<'a> PacketLines<'a> {
    /// Returns the value before the first packet.
    pub fn new(choice: PacketSelection, replies: Option<Replies<'a>>) -> PacketLines<'a> {
        PacketLines {
            choice,
            replies,
            widths: ColumnWidths::default(),
            counts: OutcomeCounts::new(),
        }
    }

    /// Returns whether the end of a binding is selected.
    fn has_chosen(&self, entry: &Entry) -> bool {
        !self.choice.dropped && has_party(&entry.binding, self.choice.host)
    }

    /// Prints the bindings that are live at the last packet's time, with their ages, or only the
    /// bindings of the host or endpoint that is selected.
    fn print_bindings<R: Print + AllocGlobal>(
        &self,
        rt: &R,
        page: &mut LineBuffer,
        ending: &EndedRun<'_>,
    ) -> Result<(), Exit> {
        let living = ending.living.iter().map(|listed| listed.entry);
        let living = SortedEntries::from_entries(living.collect(rt.alloc())?)?;
        let time = Seconds(ending.last);
        let many = ending.rows.len();
        writeln!(page.text, "live bindings at {time}: {many}")?;
        for row in &ending.rows {
            if has_party(row, self.choice.host) {
                let entry = living.entry_of(row.protocol, row.external);
                add_row(&mut page.text, row, entry, ending.last)?;
            }
            page.write_if_full(rt)?;
        }
        Ok(())
    }

    /// Appends the counts of outcomes, and advice if a cause dropped over a fifth of the packets.
    fn add_counts(&self, text: &mut String, ending: &EndedRun<'_>) -> Result<(), AllocError> {
        let counts = &self.counts;
        writeln!(text, "packets: {}", counts.packets())?;
        writeln!(text, "  {} to the outside", counts.to_outside())?;
        writeln!(text, "  {} to the inside", counts.to_inside())?;
        for cause in Cause::ALL {
            self.add_cause(text, ending, cause)?;
        }
        Ok(())
    }

    fn add_cause(
        &self,
        text: &mut String,
        ending: &EndedRun<'_>,
        cause: Cause,
    ) -> Result<(), AllocError> {
        let many = self.counts.dropped(cause);
        if many == 0 {
            return Ok(());
        }
        let (name, meaning) = (cause_name(cause), CauseText::from_cause(cause).meaning);
        writeln!(text, "  {many} dropped, {name}: {meaning}")?;
        if let Some(replies) = self.replies {
            replies.add_losses(text, cause, &ending.losses)?;
        }
        if many > self.counts.packets() / 5 {
            self.add_advice(text, ending, cause)?;
        }
        Ok(())
    }

    /// Appends advice if many packets were dropped for a cause. If they seem to be answers, the
    /// advice first says that the captured gateway chose other numbers.
    fn add_advice(
        &self,
        text: &mut String,
        ending: &EndedRun<'_>,
        cause: Cause,
    ) -> Result<(), AllocError> {
        let is_answered = self.replies.is_none()
            && matches!(cause, Cause::NoBinding | Cause::NotOurs)
            && ending.are_answers;
        if is_answered {
            writeln!(text, "    many packets have this cause: {OTHER_NUMBERS}")?;
        }
        let told = CauseText::from_cause(cause);
        let told = match self.replies {
            Some(_) => told.advice_of_replies.or(told.advice),
            None => told.advice,
        };
        match told {
            Some(advice) if is_answered => writeln!(text, "    otherwise: {advice}"),
            Some(advice) => writeln!(text, "    many packets have this cause: {advice}"),
            None => Ok(()),
        }
    }
}

impl<R: Print + AllocGlobal> CommandOutput<R> for PacketLines<'_> {
    /// Processes the next packet: appends the lines of the bindings that have expired by then, and
    /// its own line if it is selected.
    fn take(
        &mut self,
        rt: &R,
        _config: &Config,
        passing: RunPacket<'_>,
        text: &mut String,
    ) -> Result<(), Exit> {
        let RunPacket {
            number,
            input,
            step,
        } = passing;
        self.counts.count(&step.outcome);
        self.widths.widen_for(number, input);
        for listed in &step.part.ended {
            if self.has_chosen(&listed.entry) {
                add_end(text, self.widths, &listed.entry)?;
            }
        }
        let line = PacketLine::new(passing, self.replies);
        if line.is_chosen(rt.alloc(), self.choice)? {
            line.add(rt.alloc(), text, self.widths)?;
        }
        Ok(())
    }

    /// Prints the live bindings and the counts of outcomes.
    fn end(self, rt: &R, page: &mut LineBuffer, ending: &EndedRun<'_>) -> Result<(), Exit> {
        self.print_bindings(rt, page, ending)?;
        self.add_counts(&mut page.text, ending)?;
        page.end(rt)
    }
}

/// Appends the line of a live binding, with this entry, at the last packet's time, in ns.
fn add_row(
    text: &mut String,
    row: &Row,
    entry: Option<&Entry>,
    last: u64,
) -> Result<(), AllocError> {
    text.push_str("  ")?;
    add_binding(text, row)?;
    if row.fixed {
        return text.push_str(", a redirect\n");
    }
    if let Some(entry) = entry {
        let made = Seconds(last.saturating_sub(entry.made));
        let sent = Seconds(last.saturating_sub(entry.last_sent));
        write!(
            text,
            ", made {made} s ago, last used from inside {sent} s ago"
        )?;
    }
    text.push_str("\n")
}
