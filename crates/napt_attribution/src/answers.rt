//! The answers to who had an external endpoint, and when (RFC 6888, section 4; RFC 6269, section
//! 12). `napt_log_text` defines the holders and the lines.

use crate::owners::{add_owners, add_party};
use crate::requests::HolderRequest;
use crate::saved_bindings::read_saved;
use crate::saved_rows::SavedBindings;
use napt_account::Entry;
use napt_commands::{Exit, LineBuffer, SortedEntries};
use napt_config::Config;
use napt_log_text::{Request, TimeStamp, add_holder, add_mark, add_nobody};
use napt_program::StandardStreams;
use napt_records::protocol_name;
use std::alloc::AllocError;
use std::fmt::Write;
use std::rt::Files;

/// The data from which requests are answered.
#[derive(Clone, Copy)]
pub struct AnswerBasis<'a> {
    /// The entries of a log, in the order in which their bindings were made.
    pub entries: &'a [Entry],
    /// The time of the last packet, in ns.
    pub last: u64,
    /// The greatest step back in time between packets, in ns. A packet may have arrived this much
    /// later than its own time.
    pub greatest_step_back: u64,
    /// The configuration of the run, if it is known.
    pub config: Option<&'a Config>,
    pub basis: Basis,
}

/// The source of the answers.
#[derive(Clone, Copy, PartialEq, Eq)]
pub enum Basis {
    /// The blocks of the configuration.
    Blocks,
    /// A run over captures, which covers the time from this one on, in ns.
    Run(u64),
    /// A log, which covers the time from this one on, in ns.
    Log(u64),
}

impl AnswerBasis<'_> {
    /// Returns the beginning and end of a run or log that does not cover the time of a request.
    fn uncovered_time(self, request: &Request) -> Option<OutsideTime> {
        let span = request.at?;
        let (what, first, last) = match self.basis {
            Basis::Blocks => return None,
            Basis::Run(first) => ("run", first, None),
            Basis::Log(first) => ("log", first, Some(self.last)),
        };
        let is_over = last.is_some_and(|last| u128::from(last) < span.first);
        (is_over || span.until <= u128::from(first)).then_some(OutsideTime { what, first, last })
    }
}

/// A run or log that does not cover the time of a request: its name, beginning and end, in ns.
#[derive(Clone, Copy)]
struct OutsideTime {
    what: &'static str,
    first: u64,
    last: Option<u64>,
}

/// Answers requests from the blocks of a configuration. Fails with `NoHolder` if one has no answer.
pub fn answer_by_blocks<R: Print + AllocGlobal>(
    rt: &R,
    streams: StandardStreams,
    asked: &[HolderRequest],
    config: &Config,
) -> Result<(), Exit> {
    if !streams.output {
        return Err(Exit::NoOutput);
    }
    let known = AnswerBasis {
        entries: &[],
        last: 0,
        greatest_step_back: 0,
        config: Some(config),
        basis: Basis::Blocks,
    };
    print_answers(rt, asked, known)
}

/// Answers requests from the log whose pieces have these paths, under a configuration if it is
/// known. Prints why a piece is refused. Fails with `NoHolder` if a request has no answer.
pub fn answer_by_log<R: Files + Input + Print + Eprint + AllocGlobal>(
    rt: &R,
    streams: StandardStreams,
    asked: &[HolderRequest],
    pieces: &[String],
    config: Option<&Config>,
) -> Result<(), Exit> {
    let SavedBindings {
        entries,
        first,
        last,
    } = read_saved(rt, asked, pieces, config)?;
    if !streams.output {
        return Err(Exit::NoOutput);
    }
    let known = AnswerBasis {
        entries: &entries,
        last,
        greatest_step_back: 0,
        config,
        basis: Basis::Log(first),
    };
    print_answers(rt, asked, known)
}

/// Prints for each request the hosts whose blocks contain it and the bindings that had the
/// endpoint, in the order of making, or that nobody had it. Fails with `NoHolder` if one has no
/// answer.
pub fn print_answers<R: Print + AllocGlobal>(
    rt: &R,
    asked: &[HolderRequest],
    known: AnswerBasis<'_>,
) -> Result<(), Exit> {
    let sorted = match asked.len() {
        0 | 1 => None,
        _ => Some(SortedEntries::from_entries(Vec::from_slice(rt.alloc(), known.entries)?)?),
    };
    let mut page = LineBuffer::new(rt.alloc());
    let mut is_answered = true;
    for one in asked {
        let one = one.until_later(known.greatest_step_back);
        let entries = match (&sorted, one.endpoint()) {
            (Some(sorted), Some(endpoint)) => sorted.at(endpoint),
            _ => known.entries,
        };
        let known = AnswerBasis { entries, ..known };
        is_answered &= print_answer(rt, &one, known, &mut page)?;
    }
    page.end(rt)?;
    if is_answered {
        Ok(())
    } else {
        Err(Exit::NoHolder)
    }
}

/// Prints the lines of a request, and returns whether somebody had the endpoint.
fn print_answer<R: Print + AllocGlobal>(
    rt: &R,
    asked: &HolderRequest,
    known: AnswerBasis<'_>,
    page: &mut LineBuffer,
) -> Result<bool, Exit> {
    let is_owned = add_owners(asked, known, page)?;
    page.write_if_full(rt)?;
    if known.basis == Basis::Blocks {
        return Ok(is_owned);
    }
    let holders = asked.request.holders_among(rt.alloc(), known.entries)?;
    for entry in &holders {
        add_line_number(asked, &mut page.text)?;
        add_holder(entry, known.last, &mut page.text)?;
        page.write_if_full(rt)?;
    }
    if !holders.is_empty() {
        return Ok(true);
    }
    add_line_number(asked, &mut page.text)?;
    let (request, text) = (&asked.request, &mut page.text);
    if let Some(beside) = known.uncovered_time(request) {
        add_uncovered_time(request, beside, text)?;
    } else {
        let nearest = request.nearest_among(known.entries);
        add_nobody(request, &nearest, known.config, known.last, text)?;
    }
    page.write_if_full(rt)?;
    Ok(is_owned)
}

/// Appends the line that says that no holder is known at the time of a request.
fn add_uncovered_time(
    request: &Request,
    beside: OutsideTime,
    text: &mut String,
) -> Result<(), AllocError> {
    let OutsideTime { what, first, last } = beside;
    text.push_str("no holder of ")?;
    if let Some(protocol) = request.protocol {
        write!(text, "{} ", protocol_name(protocol))?;
    }
    add_party(request.party, text)?;
    let begins = if last.is_some() {
        "runs from"
    } else {
        "begins at"
    };
    write!(
        text,
        " is known: the {what} does not cover that time, but {begins} "
    )?;
    TimeStamp(u128::from(first)).add_to(text)?;
    if let Some(last) = last {
        text.push_str(" to ")?;
        TimeStamp(u128::from(last)).add_to(text)?;
    }
    text.push_str("\n")
}

/// Appends the beginning of a line, if the request is one of several.
pub fn add_line_number(asked: &HolderRequest, text: &mut String) -> Result<(), AllocError> {
    match asked.line {
        Some(number) => add_mark(number, text),
        None => Ok(()),
    }
}
