//! Requests for who had an external endpoint, and when. The command line has one, a file has many.

use crate::spans::{TimeFault, parse_span};
use napt_account::Party;
use napt_commands::{Exit, text_at};
use napt_config::Address;
use napt_log_text::Request;
use napt_program::Stop;
use napt_records::protocol_name;
use napt_wire::{Endpoint, Protocol};
use std::rt::Files;
use std::str;

/// The form of a line of requests.
const WANTED: &str =
    "expected ADDRESS[:PORT] TIME [PROTOCOL], as 203.0.113.1:5000 2026-11-26T10:02:07Z udp";

/// A request.
#[derive(Clone, Copy)]
pub struct HolderRequest {
    /// The line of the request in a file of requests, from 1.
    pub line: Option<u64>,
    pub request: Request,
}

impl HolderRequest {
    /// Returns the request of the command line.
    pub fn from_request(request: Request) -> HolderRequest {
        HolderRequest {
            line: None,
            request,
        }
    }

    /// Returns the external endpoint that the request names, unless it names only an address.
    pub fn endpoint(&self) -> Option<Endpoint> {
        let party = self.request.party;
        Some(Endpoint {
            address: party.address,
            number: party.number?,
        })
    }

    /// Returns the same request with its time, if any, extended by this many ns at its end.
    pub fn until_later(&self, by: u64) -> HolderRequest {
        let mut asked = *self;
        if let Some(span) = &mut asked.request.at {
            span.until = span.until.saturating_add(u128::from(by));
        }
        asked
    }
}

/// Reads the requests of a file. Prints why the file cannot be read, or which line is no request.
pub fn requests_at<R: Files + Input + Eprint + AllocGlobal>(
    rt: &R,
    path: &str,
) -> Result<Vec<HolderRequest>, Exit> {
    let text = text_at(rt, "--requests", path)?;
    let lines = match str::from_utf8(&text) {
        Ok(lines) => lines,
        Err(error) => {
            let line = line_at(&text, error.valid_up_to());
            return Err(print_wrong(rt, path, line, WANTED));
        }
    };
    let mut asked = Vec::new(rt.alloc());
    for (place, line) in lines.lines().enumerate() {
        let number = (place as u64).saturating_add(1);
        // A blank line is ignored.
        if line.trim().is_empty() {
            continue;
        }
        match request_of(line) {
            Ok(request) => asked.push(HolderRequest {
                line: Some(number),
                request,
            })?,
            Err(no_time) => return Err(print_wrong(rt, path, number, no_time.message(WANTED))),
        }
    }
    Ok(asked)
}

/// Prints which line of a file is not a request, and why, and returns the stop.
fn print_wrong<R: Eprint>(rt: &R, path: &str, line: u64, why: &str) -> Exit {
    let _ = eprintln!(rt; "explain: --requests {path}: line {line}: {why}");
    Exit::Printed(Stop::Usage)
}

/// Returns the number of the line, from 1, that contains the byte at this index of a text.
fn line_at(text: &[u8], place: usize) -> u64 {
    let ended = text.iter().take(place).filter(|it| **it == b'\n').count();
    (ended as u64).saturating_add(1)
}

/// Parses an endpoint or an address, a time, and an optional protocol. In a date, a space may
/// precede the time of day.
fn request_of(line: &str) -> Result<Request, TimeFault> {
    let (party, rest) = first_word(line.trim());
    let party = parse_party(party).ok_or(TimeFault::Unread)?;
    let (time, last) = last_word(rest);
    let (time, protocol) = match protocol_of(last) {
        Some(protocol) => (time, Some(protocol)),
        None => (rest, None),
    };
    Ok(Request {
        protocol,
        party,
        at: Some(parse_span(time)?),
    })
}

/// Parses a host or an endpoint, such as `10.0.0.2` or `203.0.113.1:5000`.
pub fn parse_party(text: &str) -> Option<Party> {
    let (address, number) = match text.split_once(':') {
        Some((address, number)) => (address, Some(number.parse::<u16>().ok()?)),
        None => (text, None),
    };
    let address = address.parse::<Address>().ok()?;
    Some(Party {
        address: address.0,
        number,
    })
}

/// Splits a text into its first word and the text after it.
fn first_word(text: &str) -> (&str, &str) {
    match text.split_once(|it: char| it.is_whitespace()) {
        Some((word, rest)) => (word, rest.trim_start()),
        None => (text, ""),
    }
}

/// Splits a text into the text before its last word, and that word.
fn last_word(text: &str) -> (&str, &str) {
    match text.rsplit_once(|it: char| it.is_whitespace()) {
        Some((rest, word)) => (rest.trim_end(), word),
        None => ("", text),
    }
}

/// Returns the protocol with a name, in letters of either case.
fn protocol_of(name: &str) -> Option<Protocol> {
    [Protocol::Icmp, Protocol::Tcp, Protocol::Udp]
        .into_iter()
        .find(|protocol| name.eq_ignore_ascii_case(protocol_name(*protocol)))
}
