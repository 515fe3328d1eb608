//! The line of a single packet, and the bindings that it used.

use crate::column_widths::ColumnWidths;
use crate::ended_bindings::add_binding;
use crate::lines::PacketLine;
use crate::packet_selection::PacketSelection;
use crate::replies::Replies;
use napt_account::{Entry, LogEntry};
use napt_commands::{CommandOutput, EndedRun, Exit, LineBuffer, RunPacket, Seconds};
use napt_config::Config;
use napt_program::Stop;
use std::alloc::AllocError;
use std::fmt::Write;

/// A binding that the packet used: its number in the log, from 1, and its entry once it has ended.
#[derive(Clone, Copy)]
struct UsedBinding {
    number: u64,
    entry: Option<Entry>,
}

impl UsedBinding {
    fn new(number: u64) -> UsedBinding {
        UsedBinding {
            number,
            entry: None,
        }
    }

    /// Records the binding's entry, if it is among these.
    fn take(&mut self, listed: &[LogEntry]) {
        if let Some(found) = listed.iter().find(|listed| listed.number == self.number) {
            self.entry = Some(found.entry);
        }
    }
}

/// The one packet whose line is printed.
#[derive(Clone, Copy)]
pub struct SinglePacket<'a> {
    /// The number of the packet, from 1.
    number: u64,
    choice: PacketSelection,
    replies: Option<Replies<'a>>,
    /// Whether the captures contain the packet.
    is_found: bool,
    /// Whether the packet meets the other conditions.
    is_chosen: bool,
    /// The bindings through which the packet went out and came in.
    out: Option<UsedBinding>,
    into: Option<UsedBinding>,
}

impl<'a> SinglePacket<'a> {
    /// Returns the value before the first packet.
    pub fn new(
        number: u64,
        choice: PacketSelection,
        replies: Option<Replies<'a>>,
    ) -> SinglePacket<'a> {
        SinglePacket {
            number,
            choice,
            replies,
            is_found: false,
            is_chosen: false,
            out: None,
            into: None,
        }
    }

    /// Records the entries of the packet's bindings, if they are among these.
    fn take_entries(&mut self, listed: &[LogEntry]) {
        if let Some(used) = &mut self.out {
            used.take(listed);
        }
        if let Some(used) = &mut self.into {
            used.take(listed);
        }
    }
}

impl<R: Print + Eprint + AllocGlobal> CommandOutput<R> for SinglePacket<'_> {
    /// Processes the next packet. Appends its line if it is the one and meets the other conditions.
    fn take(
        &mut self,
        rt: &R,
        _config: &Config,
        passing: RunPacket<'_>,
        text: &mut String,
    ) -> Result<(), Exit> {
        let RunPacket {
            number,
            input,
            step,
        } = passing;
        self.take_entries(&step.part.ended);
        if number != self.number {
            return Ok(());
        }
        self.is_found = true;
        let line = PacketLine::new(passing, self.replies);
        self.is_chosen = line.is_chosen(rt.alloc(), self.choice)?;
        if !self.is_chosen {
            return Ok(());
        }
        let mut widths = ColumnWidths::default();
        widths.widen_for(number, input);
        line.add(rt.alloc(), text, widths)?;
        self.out = step.part.used.outbound.map(UsedBinding::new);
        self.into = step.part.used.inbound.map(UsedBinding::new);
        Ok(())
    }

    /// Prints the bindings, or that the captures do not contain the packet.
    fn end(self, rt: &R, page: &mut LineBuffer, ending: &EndedRun<'_>) -> Result<(), Exit> {
        if !self.is_found {
            let (number, packets) = (self.number, ending.packets);
            let _ = eprintln!(rt;
                "explain: --only {number}: the captures contain {packets} packets"
            );
            return Err(Exit::Printed(Stop::Usage));
        }
        if !self.is_chosen {
            let number = self.number;
            let _ = eprintln!(rt;
                "explain: --only {number}: it does not meet the other conditions"
            );
        }
        let mut only = self;
        only.take_entries(&ending.living);
        add_used(&mut page.text, "out", only.out)?;
        add_used(&mut page.text, "in", only.into)?;
        page.end(rt)
    }
}

/// Appends the line of a binding that the packet used in this direction.
fn add_used(text: &mut String, way: &str, used: Option<UsedBinding>) -> Result<(), AllocError> {
    let Some(entry) = used.and_then(|used| used.entry) else {
        return Ok(());
    };
    write!(text, "  {way} through ")?;
    add_binding(text, &entry.binding)?;
    if entry.binding.fixed {
        return text.push_str(", a redirect\n");
    }
    let (made, last) = (Seconds(entry.made), Seconds(entry.last));
    writeln!(text, ", made at {made}, last packet at {last}")
}
