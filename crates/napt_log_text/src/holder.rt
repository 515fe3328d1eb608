//! The lines about holders of external endpoints (RFC 6888, section 4; RFC 6269, section 12).
ghost use Rattle.std.specs.Prelude.{◌≡◌, ◌++◌, OnOk, false, option_map, string_bytes};
ghost use Rattle.napt_log_text.specs.Holders as holders;

use crate::digits::{add_address, add_endpoint, add_number};
use crate::request::{NearestEntries, Request, TimeSpan};
use crate::time_stamp::TimeStamp;
use napt_account::{Entry, Party};
use napt_config::Config;
use napt_records::protocol_name;
use napt_wire::Protocol;
use std::alloc::AllocError;

/// Appends the line of a binding that had an endpoint. `last` is the time of the run's last packet,
/// in ns; an end after it is certain only if no packet arrives before it. Fails only if memory is
/// refused.
pub fn add_holder(entry: &Entry, last: u64, text: &mut String) -> Result<(), AllocError>
    ensures { OnOk result (string_bytes text.new
        ≡ string_bytes text.old ++ holders.holder_line last entry.now) }
{
    add_binding(entry, last, text)?;
    text.push_str("\n")?;
    Ok(())
}

/// Appends the number of a request, with which each of its lines begins if there are several
/// requests. Fails only if memory is refused.
pub fn add_mark(number: u64, text: &mut String) -> Result<(), AllocError>
    ensures { OnOk result (string_bytes text.new
        ≡ string_bytes text.old ++ holders.mark_text number) }
{
    add_number(text, number)?;
    text.push_str(": ")?;
    Ok(())
}

/// Appends a binding and the times between which it had its endpoint.
#[tactic(auto, unfolding(crate::specs::Holders::holder_text))]
fn add_binding(entry: &Entry, last: u64, text: &mut String) -> Result<(), AllocError>
    ensures { OnOk result (string_bytes text.new
        ≡ string_bytes text.old ++ holders.holder_text last entry.now) }
{
    text.push_str(protocol_name(entry.binding.protocol))?;
    text.push_str(" ")?;
    add_endpoint(text, entry.binding.inside)?;
    text.push_str(" at ")?;
    add_endpoint(text, entry.binding.external)?;
    add_span(entry, last, text)?;
    Ok(())
}

/// Appends the times between which a binding had its endpoint.
fn add_span(entry: &Entry, last: u64, text: &mut String) -> Result<(), AllocError>
    ensures { OnOk result (string_bytes text.new ≡ string_bytes text.old
        ++ holders.span_text last entry.now.binding.fixed entry.now.made entry.now.end) }
{
    match entry.end {
        Some(end) => add_times(entry.made, end, last, text),
        None => add_open(entry.binding.fixed, entry.made, text),
    }
}

/// Appends the time from which on a binding without an end had its endpoint.
fn add_open(fixed: bool, made: u64, text: &mut String) -> Result<(), AllocError>
    ensures { OnOk result (string_bytes text.new
        ≡ string_bytes text.old ++ holders.open_text fixed made) }
{
    if fixed && made == 0 {
        return text.push_str(" always, a redirect");
    }
    text.push_str(" from ")?;
    TimeStamp(u128::from(made)).add_to(text)?;
    text.push_str(why_open(fixed))
}

/// Returns why a binding has no end.
fn why_open(fixed: bool) -> &'static str
    ensures { result.now ≡ holders.why_open fixed }
{
    if fixed {
        " on, a redirect"
    } else {
        " on, with no end in the log"
    }
}

/// Appends both times of a binding that ends.
fn add_times(made: u64, end: u128, last: u64, text: &mut String) -> Result<(), AllocError>
    ensures { OnOk result (string_bytes text.new
        ≡ string_bytes text.old ++ holders.times_text last made end) }
{
    text.push_str(" from ")?;
    TimeStamp(u128::from(made)).add_to(text)?;
    text.push_str(" until ")?;
    TimeStamp(end).add_to(text)?;
    text.push_str(end_condition(end, last))?;
    Ok(())
}

fn end_condition(end: u128, last: u64) -> &'static str
    ensures { result.now ≡ holders.end_condition_text last end }
{
    if end <= u128::from(last) {
        ""
    } else {
        ", if no packet comes"
    }
}

/// Appends the line that says that nobody had the endpoint, and who had it last before and first
/// after. The configuration contains the pool; without one, no address is called foreign. `last` is
/// the time of the run's last packet, in ns. Fails only if memory is refused.
#[tactic(auto, unfolding(crate::specs::Holders::nobody_line))]
pub fn add_nobody(
    request: &Request,
    nearest: &NearestEntries,
    config: Option<&Config>,
    last: u64,
    text: &mut String,
) -> Result<(), AllocError>
    ensures { OnOk result (string_bytes text.new ≡ string_bytes text.old
        ++ holders.nobody_line (option_map (λ known. known.now) config.entry) last request.now
        nearest.now) }
{
    text.push_str("nobody had ")?;
    add_protocol(request.protocol, text)?;
    add_party(request.party, text)?;
    add_reason(request, nearest, config, last, text)?;
    text.push_str("\n")?;
    Ok(())
}

fn add_protocol(protocol: Option<Protocol>, text: &mut String) -> Result<(), AllocError>
    ensures { OnOk result (string_bytes text.new
        ≡ string_bytes text.old ++ holders.protocol_text protocol) }
{
    let Some(protocol) = protocol else {
        return Ok(());
    };
    text.push_str(protocol_name(protocol))?;
    text.push_str(" ")?;
    Ok(())
}

fn add_party(party: Party, text: &mut String) -> Result<(), AllocError>
    ensures { OnOk result (string_bytes text.new
        ≡ string_bytes text.old ++ holders.party_text party) }
{
    add_address(text, party.address)?;
    let Some(number) = party.number else {
        return Ok(());
    };
    text.push_str(":")?;
    add_number(text, u64::from(number))?;
    Ok(())
}

/// Appends that the address is not in the pool, or the time at which nobody had the endpoint, and
/// who had it last before and first after.
fn add_reason(
    request: &Request,
    nearest: &NearestEntries,
    config: Option<&Config>,
    last: u64,
    text: &mut String,
) -> Result<(), AllocError>
    ensures { OnOk result (string_bytes text.new ≡ string_bytes text.old
        ++ holders.reason_text (option_map (λ known. known.now) config.entry) last request.now
        nearest.now) }
{
    if is_foreign(config, request.party.address) {
        return text.push_str(": it is no address of the pool");
    }
    add_asked(request.at, text)?;
    let Some(span) = request.at else {
        return Ok(());
    };
    add_before(span, &nearest.before, last, text)?;
    add_after(span, &nearest.after, last, text)?;
    Ok(())
}

/// Returns whether an address is known not to be in the pool.
fn is_foreign(config: Option<&Config>, address: u32) -> bool
    ensures { result ≡ holders.is_foreign (option_map (λ known. known.now) config.entry) address }
{
    match config {
        Some(config) => config.pool_index(address).is_none(),
        None => false,
    }
}

/// Appends the time at which nobody had the endpoint.
fn add_asked(at: Option<TimeSpan>, text: &mut String) -> Result<(), AllocError>
    ensures { OnOk result (string_bytes text.new ≡ string_bytes text.old ++ holders.asked_text at) }
{
    let Some(span) = at else {
        return Ok(());
    };
    if is_single(span) {
        text.push_str(" at ")?;
        return TimeStamp(span.first).add_to(text);
    }
    text.push_str(" from ")?;
    TimeStamp(span.first).add_to(text)?;
    text.push_str(" until ")?;
    TimeStamp(span.until).add_to(text)?;
    Ok(())
}

/// Appends the last holder before a span, and how long before it the holder's binding had ended.
fn add_before(
    span: TimeSpan,
    entry: &Option<Entry>,
    last: u64,
    text: &mut String,
) -> Result<(), AllocError>
    ensures { OnOk result (string_bytes text.new
        ≡ string_bytes text.old ++ holders.before_text span last entry.now) }
{
    let Some(entry) = entry else {
        return Ok(());
    };
    let apart = span.first.saturating_sub(entry.end.unwrap_or(0));
    add_near(apart, " s before: ", entry, last, text)
}

/// Appends the first holder after a span, and how long after it the holder's binding was made.
fn add_after(
    span: TimeSpan,
    entry: &Option<Entry>,
    last: u64,
    text: &mut String,
) -> Result<(), AllocError>
    ensures { OnOk result (string_bytes text.new
        ≡ string_bytes text.old ++ holders.after_text span last entry.now) }
{
    let Some(entry) = entry else {
        return Ok(());
    };
    let apart = u128::from(entry.made).saturating_sub(shown_last(span));
    add_near(apart, " s after: ", entry, last, text)
}

/// Returns the last time in the text of a span.
fn shown_last(span: TimeSpan) -> u128
    ensures { result ≡ holders.shown_last span }
{
    if is_single(span) {
        span.first
    } else {
        span.until
    }
}

fn is_single(span: TimeSpan) -> bool
    ensures { result ≡ holders.is_single span }
{
    span.until.saturating_sub(1) == span.first
}

/// Appends the distance of a holder from a span, in seconds, and the holder's entry.
fn add_near(
    apart: u128,
    words: &str,
    entry: &Entry,
    last: u64,
    text: &mut String,
) -> Result<(), AllocError>
    ensures { OnOk result (string_bytes text.new
        ≡ string_bytes text.old ++ holders.near_text apart words.now last entry.now) }
{
    text.push_str("; ")?;
    TimeStamp(apart).add_seconds(text)?;
    text.push_str(words)?;
    add_binding(entry, last, text)?;
    Ok(())
}
