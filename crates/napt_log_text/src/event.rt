//! The events of the log, and their rows as CSV.
ghost use Rattle.std.specs.Prelude.{◌≡◌, ◌∷◌, ◌++◌, OnOk, decimal, codes, string_bytes};
ghost use Rattle.napt_log_text.specs.Rows as rows;

use crate::digits::{add_address, add_number};
use itoa::Buffer;
use napt_account::{Entry, LogEntry, Shortage};
use napt_config::Config;
use napt_rules::Row;
use napt_wire::{Cause, Endpoint, Protocol};
use std::alloc::AllocError;

/// The values of natEvent that occur (RFC 8158).
const BINDING_MADE: u64 = 8;

const BINDING_ENDED: u64 = 9;

const PORTS_EXHAUSTED: u64 = 12;

const QUOTA_EXCEEDED: u64 = 13;

/// The note of a row that repeats a binding.
const REPEATED: &str = "repeated";

/// The rest of a row without a binding, after natQuotaExceededEvent: all fields are empty.
const NO_BINDING: &str = ",,,,,,\n";

/// Returns the first row of the log: the names of its fields.
pub fn header() -> &'static str
    ensures { result.now ≡ rows.csv_header }
{
    "observationTimeNanoseconds,natEvent,protocolIdentifier,sourceIPv4Address,sourceTransportPort,\
    postNATSourceIPv4Address,postNAPTSourceTransportPort,natQuotaExceededEvent,binding,redirect,packets_out,\
    packets_in,flowEndNanoseconds,note\n"
}

/// The first row of a log of the version before: times are there twice, the second time as dates.
pub(crate) fn earlier_header() -> &'static str
    ensures { result.now ≡ rows.earlier_header }
{
    "observationTimeNanoseconds,time,natEvent,protocolIdentifier,sourceIPv4Address,sourceTransportPort,\
    postNATSourceIPv4Address,postNAPTSourceTransportPort,natQuotaExceededEvent,binding,redirect,packets_out,\
    packets_in,flowEndNanoseconds,last_use\n"
}

/// An event of the log.
#[derive(Clone, Copy, Debug, PartialEq, Eq)]
pub enum LogEvent {
    /// A binding was made.
    Made(LogEntry),
    /// A binding was made before the text of the log begins, which repeats its row.
    Repeated(LogEntry),
    /// A binding expired, at the end in its entry.
    Ended(LogEntry),
    /// No event: a binding is live at the last packet. It ends as its entry says if none comes.
    Living(LogEntry),
    /// A packet got no binding.
    Refused(Shortage),
}

impl LogEvent {
    /// Appends the row of the event. The configuration contains the external address of a host that
    /// got no binding. Fails only if memory is refused.
    #[tactic(auto, unfolding(crate::specs::Rows::csv_row))]
    pub fn add_row(&self, config: &Config, text: &mut String) -> Result<(), AllocError>
        ensures { OnOk result (string_bytes text.new ≡ string_bytes text.old
            ++ rows.csv_row config.now self.now) }
    {
        match self {
            LogEvent::Made(listed) => {
                let made = u128::from(listed.entry.made);
                add_listed(listed, Some(made), Some(BINDING_MADE), "", text)
            }
            LogEvent::Repeated(listed) => {
                let made = u128::from(listed.entry.made);
                add_listed(listed, Some(made), Some(BINDING_MADE), REPEATED, text)
            }
            LogEvent::Ended(listed) => {
                add_listed(listed, listed.entry.end, Some(BINDING_ENDED), "", text)
            }
            LogEvent::Living(listed) => add_listed(listed, listed.entry.end, None, "", text),
            LogEvent::Refused(shortage) => {
                add_shortage(shortage, config.pair(shortage.host), text)
            }
        }
    }
}

/// Appends the row of an event of a binding at a time, or of a binding without an event, with a
/// note.
fn add_listed(
    listed: &LogEntry,
    at: Option<u128>,
    event: Option<u64>,
    note: &str,
    text: &mut String,
) -> Result<(), AllocError>
    ensures { OnOk result (string_bytes text.new ≡ string_bytes text.old
        ++ rows.row_text (rows.number_if_any at ∷ rows.listed_fields event note.now listed.now)) }
{
    add_time(at, text)?;
    add_binding(event, &listed.entry.binding, text)?;
    text.push_str(",")?;
    add_entry(listed, text)?;
    text.push_str(note)?;
    text.push_str("\n")?;
    Ok(())
}

/// Appends the number of an entry and the fields after it up to the note, and a comma.
fn add_entry(listed: &LogEntry, text: &mut String) -> Result<(), AllocError>
    ensures { OnOk result (string_bytes text.new
        ≡ string_bytes text.old ++ (decimal listed.now.number
        ++ codes "," ++ rows.csv_flag listed.now.entry.binding.fixed ++ codes ","
        ++ decimal listed.now.entry.sent ++ codes "," ++ decimal listed.now.entry.received
        ++ codes ","
        ++ rows.number_if_any (rows.last_use listed.now.entry) ++ codes ",")) }
{
    add_field(listed.number, text)?;
    text.push_str(flag(listed.entry.binding.fixed))?;
    text.push_str(",")?;
    add_field(listed.entry.sent, text)?;
    add_field(listed.entry.received, text)?;
    add_time(last_use(&listed.entry), text)?;
    Ok(())
}

/// Appends a time in ns, if there is one, and a comma.
fn add_time(time: Option<u128>, text: &mut String) -> Result<(), AllocError>
    ensures { OnOk result (string_bytes text.new ≡ string_bytes text.old
        ++ (rows.number_if_any time ++ codes ",")) }
{
    let Some(time) = time else {
        return text.push_str(",");
    };
    let mut digits = Buffer::new();
    text.push_str(digits.format(time))?;
    text.push_str(",")?;
    Ok(())
}

/// Appends a number and a comma.
fn add_field(number: u64, text: &mut String) -> Result<(), AllocError>
    ensures { OnOk result (string_bytes text.new
        ≡ string_bytes text.old ++ (decimal number ++ codes ",")) }
{
    add_number(text, number)?;
    text.push_str(",")?;
    Ok(())
}

/// Appends an endpoint as two fields, and a comma.
fn add_endpoint_fields(endpoint: Endpoint, text: &mut String) -> Result<(), AllocError>
    ensures { OnOk result (string_bytes text.new ≡ string_bytes text.old
        ++ rows.before_more (rows.endpoint_fields endpoint)) }
{
    add_address(text, endpoint.address)?;
    text.push_str(",")?;
    add_field(u64::from(endpoint.number), text)?;
    Ok(())
}

/// Appends the number of an event, if there is one, and a comma.
fn add_event(event: Option<u64>, text: &mut String) -> Result<(), AllocError>
    ensures { OnOk result (string_bytes text.new ≡ string_bytes text.old
        ++ (rows.number_if_any event ++ codes ",")) }
{
    match event {
        Some(event) => add_field(event, text),
        None => text.push_str(","),
    }
}

/// Appends the fields of a binding, and a comma.
fn add_binding(event: Option<u64>, binding: &Row, text: &mut String) -> Result<(), AllocError>
    ensures { OnOk result (string_bytes text.new ≡ string_bytes text.old
        ++ rows.before_more (rows.binding_fields event binding.now)) }
{
    add_event(event, text)?;
    add_field(protocol_number(binding.protocol), text)?;
    add_endpoint_fields(binding.inside, text)?;
    add_endpoint_fields(binding.external, text)?;
    Ok(())
}

/// Appends the row of a shortage; `external` is the external address of its host.
fn add_shortage(shortage: &Shortage, external: u32, text: &mut String) -> Result<(), AllocError>
    ensures { OnOk result (string_bytes text.new ≡ string_bytes text.old
        ++ rows.row_text (decimal shortage.now.at ∷ rows.shortage_fields external shortage.now)) }
{
    add_field(shortage.at, text)?;
    add_refusal(shortage, text)?;
    add_address(text, external)?;
    text.push_str(",,")?;
    text.push_str(quota(shortage.cause))?;
    text.push_str(NO_BINDING)?;
    Ok(())
}

/// Appends the fields of a shortage from its natEvent to its host, an empty one, and a comma.
fn add_refusal(shortage: &Shortage, text: &mut String) -> Result<(), AllocError>
    ensures { OnOk result (string_bytes text.new ≡ string_bytes text.old
        ++ rows.before_more (rows.refusal_fields shortage.now)) }
{
    add_field(shortage_number(shortage.cause), text)?;
    add_field(protocol_number(shortage.protocol), text)?;
    add_address(text, shortage.host)?;
    text.push_str(",,")?;
    Ok(())
}

/// Returns the natEvent of a shortage.
fn shortage_number(cause: Cause) -> u64
    ensures { result ≡ rows.shortage_number cause }
{
    match cause {
        Cause::OverQuota => QUOTA_EXCEEDED,
        _ => PORTS_EXHAUSTED,
    }
}

/// Returns the natQuotaExceededEvent of a shortage, if it has one.
fn quota(cause: Cause) -> &'static str
    ensures { result.now ≡ rows.quota_text cause }
{
    match cause {
        Cause::OverQuota => "3",
        _ => "",
    }
}

/// Returns the number of a protocol (IANA).
fn protocol_number(protocol: Protocol) -> u64
    ensures { result ≡ rows.csv_protocol protocol }
{
    match protocol {
        Protocol::Icmp => 1,
        Protocol::Tcp => 6,
        Protocol::Udp => 17,
    }
}

fn flag(is_set: bool) -> &'static str
    ensures { result.now ≡ rows.csv_flag is_set }
{
    if is_set { "1" } else { "0" }
}

/// Returns the time when a packet last went through the binding, if one did.
fn last_use(entry: &Entry) -> Option<u128>
    ensures { result ≡ rows.last_use entry.now }
{
    if entry.sent > 0 || entry.received > 0 {
        Some(u128::from(entry.last))
    } else {
        None
    }
}
