//! The lines of packets.

use crate::column_widths::{BEFORE, ColumnWidths, HAPPENED};
use crate::digits::{add_number_within, add_seconds, end_column};
use crate::packet_fields::{add_arrival, add_packet, is_end_of, is_end_of_arrival};
use crate::packet_selection::PacketSelection;
use crate::replies::Replies;
use napt_account::{LogNote, Party};
use napt_commands::RunPacket;
use napt_display::reasons::CauseText;
use napt_log_text::JsonObject;
use napt_records::cause_name;
use napt_sequential::Outcome;
use napt_table::Row;
use napt_wire::{Cause, Endpoint, Kind, Packet, Side};
use std::alloc::{AllocError, Global};

/// A packet of a run.
#[derive(Clone, Copy)]
pub struct PacketLine<'a> {
    pub run_packet: RunPacket<'a>,
    /// The packets from outside, if they are replies.
    replies: Option<Replies<'a>>,
    /// The inside endpoint that was the destination of the packet, if it is a valid reply.
    end: Option<Endpoint>,
}

impl<'a> PacketLine<'a> {
    /// Returns the line of a packet of a run.
    pub fn new(passing: RunPacket<'a>, replies: Option<Replies<'a>>) -> PacketLine<'a> {
        let end = replies.and_then(|replies| replies.inside_endpoint_at(passing.number));
        PacketLine {
            run_packet: passing,
            replies,
            end,
        }
    }

    fn outcome(self) -> &'a Outcome {
        &self.run_packet.step.outcome
    }

    /// Returns the packet's object in JSON.
    pub fn object(self) -> JsonObject<'a> {
        JsonObject {
            number: self.run_packet.number,
            input: self.run_packet.input,
            outcome: self.outcome(),
            note: self.run_packet.step.part.used.note,
        }
    }

    /// Returns whether the packet is selected.
    pub fn is_chosen(self, alloc: Global, choice: PacketSelection) -> Result<bool, AllocError> {
        let is_dropped = matches!(self.outcome(), Outcome::Dropped(_));
        match choice.host {
            _ if !choice.selects(self.run_packet.number, is_dropped) => Ok(false),
            None => Ok(true),
            Some(host) => self.has_host(alloc, host),
        }
    }

    /// Returns whether the packet arrives, leaves or is a reply with this host or endpoint.
    pub fn has_host(self, alloc: Global, host: Party) -> Result<bool, AllocError> {
        let input = self.run_packet.input;
        Ok(
            leaves_with(self.outcome(), host)
                || self.end.is_some_and(|end| host.has(end))
                || is_end_of_arrival(host, alloc, input.side, &input.bytes)?,
        )
    }

    /// Appends the line. The columns of all lines align, except after an ICMP error whose quotation
    /// is wider than its column, and when a number or a time first needs one more digit.
    pub fn add(
        self,
        alloc: Global,
        text: &mut String,
        widths: ColumnWidths,
    ) -> Result<(), AllocError> {
        let RunPacket { number, input, .. } = self.run_packet;
        add_number_within(text, number, widths.number())?;
        text.push_str(" ")?;
        add_seconds(text, input.time, widths.seconds())?;
        text.push_str(side_column(input.side))?;
        let begin = text.len();
        add_arrival(alloc, text, input.side, &input.bytes)?;
        end_column(text, begin, BEFORE)?;
        self.add_rest(text)?;
        text.push_str("\n")
    }

    /// Appends the outcome of the packet, and the packet as it leaves.
    fn add_rest(self, text: &mut String) -> Result<(), AllocError> {
        let RunPacket { input, step, .. } = self.run_packet;
        let (packet, is_hairpin) = match &step.outcome {
            Outcome::Dropped(cause) => return self.add_loss(text, *cause),
            Outcome::ToInside(packet) => (packet, input.side == Side::Inside),
            Outcome::ToOutside(packet) => (packet, false),
        };
        let begin = text.len();
        text.push_str(binding_effect(packet, step.part.used.note))?;
        end_column(text, begin, HAPPENED)?;
        if is_hairpin {
            text.push_str("hairpin: ")?;
        }
        add_packet(text, packet)
    }

    /// Appends why the packet was dropped.
    fn add_loss(self, text: &mut String, cause: Cause) -> Result<(), AllocError> {
        let input = self.run_packet.input;
        text.push_str("dropped, ")?;
        text.push_str(cause_name(cause))?;
        text.push_str(": ")?;
        if let (Some(replies), Some(end)) = (self.replies, self.end) {
            if replies.add_loss(text, cause, end, &input.bytes)? {
                return Ok(());
            }
        }
        text.push_str(CauseText::from_cause(cause).meaning)
    }
}

/// Returns the column of a side, with one space before it and at least one after it.
pub fn side_column(side: Side) -> &'static str {
    match side {
        Side::Inside => " inside  ",
        Side::Outside => " outside ",
    }
}

/// Returns whether a packet leaves with this host or endpoint.
pub fn leaves_with(outcome: &Outcome, host: Party) -> bool {
    match outcome {
        Outcome::ToOutside(packet) | Outcome::ToInside(packet) => is_end_of(host, packet),
        Outcome::Dropped(_) => false,
    }
}

/// Returns whether a binding has the selected host or endpoint, if one is selected.
pub fn has_party(row: &Row, host: Option<Party>) -> bool {
    host.is_none_or(|host| host.has(row.inside) || host.has(row.external))
}

/// Returns the effect of a forwarded packet on a binding.
fn binding_effect(packet: &Packet, note: LogNote) -> &'static str {
    match (packet.kind(), note) {
        (Kind::ErrorOf(_), _) => "error about a binding",
        (_, LogNote::Made) => "made a binding",
        (_, LogNote::Redirect) => "found a redirect",
        (_, LogNote::Found | LogNote::Nothing) => "found a binding",
    }
}
