//! The lines of a state's text.
ghost use Rattle.std.specs.Prelude.{◌≡◌, ◌++◌, [], ◌∷◌, ℕ, Option, Some, OnOk, codes, decimal, string_bytes};
ghost use Rattle.napt_account.specs.declared.{account.Account.{Account as Held}, log.LogEntry.{LogEntry as Logged}};
ghost use Rattle.napt_rules.specs.declared.{Flow.Flow as Used, Row.Row as Bound};
ghost use Rattle.napt_state.specs.declared.line.{LineCounts.{LineCounts as Counted}, LogPosition.{LogPosition as Placed}};
ghost use Rattle.napt_state.specs.StateText as texts;
ghost use Rattle.napt_state.specs.declared.line.StateLine.{StateLine as Told};

use crate::fields;
use napt_account::{Account, Entry, LogEntry};
use napt_rules::{Flow, Row};
use std::alloc::AllocError;

/// A line of the text of a state.
#[derive(Clone, Copy, Debug, PartialEq, Eq)]
pub(crate) enum StateLine {
    /// The clock of the state, in ns: the first line.
    Clock(u64),
    /// The log of the run, if it had one: the second line.
    Log(LogPosition),
    /// A binding, its last use (ns), and its account in the log, if any. Its flows follow.
    Binding(Row, u64, Option<Account>),
    /// A flow of the last binding before it.
    Flow(Flow),
    /// The row of a binding that has ended, and its end, in ns. Its external number is held.
    Held(Row, u64),
    /// The last line.
    End(LineCounts),
    /// The numbers of entries of a log and of bytes of its file, as earlier versions wrote them.
    EarlierLog(u64, u64),
    /// An entry of a log in the form of earlier versions.
    EarlierEntry(LogEntry),
}

/// The number of entries that the log of a state has so far, and the end of its text.
#[derive(Clone, Copy, Debug, PartialEq, Eq)]
pub struct LogPosition {
    pub made: u64,
    pub end: LogEnd,
}

/// The end of the text of a log. Every number is 0 if the log was not written to a file.
#[derive(Clone, Copy, Debug, Default, PartialEq, Eq)]
pub struct LogEnd {
    /// The number of its last piece; 0 if the log is one file.
    pub piece: u64,
    /// The length in bytes of the file, or of that piece.
    pub length: u64,
    /// The hash of its last row (`napt_log_text::row_hash`).
    pub row: u64,
}

/// The number of bindings of a state, including held ones, and the number of its flows.
#[derive(Clone, Copy, Debug, PartialEq, Eq)]
pub(crate) struct LineCounts {
    pub bindings: u64,
    pub flows: u64,
    /// The number of lines of entries in the form of earlier versions, if the text has a log in it.
    pub entries: Option<u64>,
}

impl StateLine {
    /// Appends the line. Fails only if memory is refused.
    #[tactic(auto, unfolding(crate::specs::StateText::line_text))]
    pub(crate) fn add_to(&self, text: &mut String) -> Result<(), AllocError>
        ensures { OnOk result (string_bytes text.new
            ≡ string_bytes text.old ++ texts.line_text self.now) }
    {
        match self {
            StateLine::Clock(clock) => add_clock(*clock, text),
            StateLine::Log(position) => add_log(*position, text),
            StateLine::Binding(row, last, account) => add_binding(row, *last, *account, text),
            StateLine::Flow(flow) => add_flow(flow, text),
            StateLine::Held(row, end) => add_held(row, *end, text),
            StateLine::End(counts) => add_end(*counts, text),
            StateLine::EarlierLog(made, length) => add_earlier_log(*made, *length, text),
            StateLine::EarlierEntry(numbered) => add_entry(numbered, text),
        }
    }

    /// Reads a line without its line feed. Returns `None` if the line is not one of a state.
    pub(crate) fn read(line: &str) -> Option<StateLine>
        ensures read { (told : Told) → texts.IsStateLine told →
            texts.line_text told ≡ line.now ++ codes "\n" → result ≡ Some told }
    {
        match fields::word(line, 0) {
            "clock" => read_clock(line),
            "log" => read_log(line),
            "binding" => read_binding(line),
            "redirect" => read_binding(line),
            "flow" => read_flow(line),
            "held" => read_held(line),
            "end" => read_end(line),
            "entry" => read_entry(line),
            _ => None,
        }
    }
}

fn add_clock(clock: u64, text: &mut String) -> Result<(), AllocError>
    ensures { OnOk result (string_bytes text.new
        ≡ string_bytes text.old ++ texts.words_text (texts.clock_words clock)) }
{
    text.push_str("clock ")?;
    fields::add_number(text, clock)?;
    text.push_str("\n")?;
    Ok(())
}

fn add_binding(
    row: &Row,
    last: u64,
    account: Option<Account>,
    text: &mut String,
) -> Result<(), AllocError>
    ensures { OnOk result (string_bytes text.new
        ≡ string_bytes text.old ++ texts.words_text (texts.binding_words row.now last account)) }
{
    match account {
        Some(account) => add_accounted(row, last, account, text),
        None => add_unaccounted(row, last, text),
    }
}

fn add_unaccounted(row: &Row, last: u64, text: &mut String) -> Result<(), AllocError>
    ensures { OnOk result (string_bytes text.new ≡ string_bytes text.old
        ++ texts.words_text (texts.row_words row.now (decimal last ∷ []))) }
{
    fields::add_row(text, row)?;
    fields::add_number(text, last)?;
    text.push_str("\n")?;
    Ok(())
}

fn add_accounted(
    row: &Row,
    last: u64,
    account: Account,
    text: &mut String,
) -> Result<(), AllocError>
    ensures { OnOk result (string_bytes text.new ≡ string_bytes text.old
        ++ texts.words_text (texts.row_words row.now (decimal last ∷ texts.account_words account))) }
{
    fields::add_row(text, row)?;
    fields::add_spaced(text, last)?;
    add_account(account, text)?;
    Ok(())
}

/// Appends the account of a binding: the end of a line.
fn add_account(account: Account, text: &mut String) -> Result<(), AllocError>
    ensures { OnOk result (string_bytes text.new
        ≡ string_bytes text.old ++ texts.words_text (texts.account_words account)) }
{
    fields::add_spaced(text, account.number)?;
    fields::add_spaced(text, account.made)?;
    fields::add_spaced(text, account.sent)?;
    fields::add_spaced(text, account.received)?;
    fields::add_spaced(text, account.last)?;
    fields::add_number(text, account.last_sent)?;
    text.push_str("\n")?;
    Ok(())
}

fn add_held(row: &Row, end: u64, text: &mut String) -> Result<(), AllocError>
    ensures { OnOk result (string_bytes text.new
        ≡ string_bytes text.old ++ texts.words_text (texts.held_words row.now end)) }
{
    text.push_str("held ")?;
    fields::add_endpoints(text, row)?;
    fields::add_number(text, end)?;
    text.push_str("\n")?;
    Ok(())
}

fn add_flow(flow: &Flow, text: &mut String) -> Result<(), AllocError>
    ensures { OnOk result (string_bytes text.new
        ≡ string_bytes text.old ++ texts.words_text (texts.flow_words flow.now)) }
{
    text.push_str("flow ")?;
    fields::add_endpoint(text, flow.remote)?;
    fields::add_number(text, flow.last)?;
    fields::add_marks(text, flow.marks)?;
    text.push_str("\n")?;
    Ok(())
}

fn add_log(position: LogPosition, text: &mut String) -> Result<(), AllocError>
    ensures { OnOk result (string_bytes text.new
        ≡ string_bytes text.old ++ texts.words_text (texts.log_words position)) }
{
    text.push_str("log ")?;
    fields::add_spaced(text, position.made)?;
    fields::add_spaced(text, position.end.piece)?;
    fields::add_spaced(text, position.end.length)?;
    fields::add_number(text, position.end.row)?;
    text.push_str("\n")?;
    Ok(())
}

fn add_earlier_log(made: u64, length: u64, text: &mut String) -> Result<(), AllocError>
    ensures { OnOk result (string_bytes text.new
        ≡ string_bytes text.old ++ texts.words_text (texts.earlier_log_words made length)) }
{
    text.push_str("log ")?;
    fields::add_spaced(text, made)?;
    fields::add_number(text, length)?;
    text.push_str("\n")?;
    Ok(())
}

fn add_entry(numbered: &LogEntry, text: &mut String) -> Result<(), AllocError>
    ensures { OnOk result (string_bytes text.new
        ≡ string_bytes text.old ++ texts.words_text (texts.entry_words numbered.now)) }
{
    text.push_str("entry ")?;
    fields::add_spaced(text, numbered.number)?;
    fields::add_row(text, &numbered.entry.binding)?;
    add_use(&numbered.entry, text)?;
    Ok(())
}

/// Appends the times and the counts of an entry: the end of a line.
fn add_use(entry: &Entry, text: &mut String) -> Result<(), AllocError>
    ensures { OnOk result (string_bytes text.new
        ≡ string_bytes text.old ++ texts.words_text (texts.use_words entry.now)) }
{
    fields::add_spaced(text, entry.made)?;
    fields::add_end(text, entry.end)?;
    fields::add_spaced(text, entry.sent)?;
    fields::add_spaced(text, entry.received)?;
    fields::add_spaced(text, entry.last)?;
    fields::add_number(text, entry.last_sent)?;
    text.push_str("\n")?;
    Ok(())
}

fn add_end(counts: LineCounts, text: &mut String) -> Result<(), AllocError>
    ensures { OnOk result (string_bytes text.new
        ≡ string_bytes text.old ++ texts.words_text (texts.end_line_words counts)) }
{
    text.push_str("end ")?;
    fields::add_spaced(text, counts.bindings)?;
    fields::add_number(text, counts.flows)?;
    if let Some(entries) = counts.entries {
        text.push_str(" ")?;
        fields::add_number(text, entries)?;
    }
    text.push_str("\n")?;
    Ok(())
}

/// Reads the clock in a line that begins with its word.
fn read_clock(line: &str) -> Option<StateLine>
    ensures read { (clock : ℕ) → texts.IsStateLine (texts.clock clock) →
        texts.words_in line.now ≡ texts.clock_words clock → result ≡ Some (texts.clock clock) }
{
    Some(StateLine::Clock(fields::number(line, 1)?))
}

/// Reads the binding in a line that begins with its word or that of a redirect.
fn read_binding(line: &str) -> Option<StateLine>
    ensures read { (row : Bound) (last : ℕ) (account : Option Held) →
        texts.IsStateLine (texts.binding row last account) →
        texts.words_in line.now ≡ texts.binding_words row last account →
        result ≡ Some (texts.binding row last account) }
{
    Some(StateLine::Binding(
        fields::row(line, 0)?,
        fields::number(line, 6)?,
        fields::account(line, 7),
    ))
}

/// Reads the binding that has ended in a line that begins with the word for it.
fn read_held(line: &str) -> Option<StateLine>
    ensures read { (row : Bound) (end : ℕ) → texts.IsStateLine (texts.held_line row end) →
        texts.words_in line.now ≡ texts.held_words row end →
        result ≡ Some (texts.held_line row end) }
{
    Some(StateLine::Held(fields::endpoints(line, 1)?, fields::number(line, 6)?))
}

/// Reads the flow in a line that begins with its word.
fn read_flow(line: &str) -> Option<StateLine>
    ensures read { (flow : Used) → texts.IsStateLine (texts.flow flow) →
        texts.words_in line.now ≡ texts.flow_words flow → result ≡ Some (texts.flow flow) }
{
    Some(StateLine::Flow(Flow {
        remote: fields::endpoint(line, 1)?,
        last: fields::number(line, 3)?,
        marks: fields::marks(line, 4)?,
    }))
}

/// Reads the four numbers of a log, or the two of earlier versions, in a line with its word.
fn read_log(line: &str) -> Option<StateLine>
    ensures read { (position : Placed) → texts.IsStateLine (texts.log position) →
        texts.words_in line.now ≡ texts.log_words position →
        result ≡ Some (texts.log position) }
    ensures earlier { (made length : ℕ) → texts.IsStateLine (texts.earlier_log made length) →
        texts.words_in line.now ≡ texts.earlier_log_words made length →
        result ≡ Some (texts.earlier_log made length) }
{
    let made = fields::count(line, 1)?;
    let second = fields::number(line, 2)?;
    let Some(length) = fields::number(line, 3) else {
        return Some(StateLine::EarlierLog(made, second));
    };
    let row = fields::number(line, 4)?;
    let end = LogEnd {
        piece: second,
        length,
        row,
    };
    Some(StateLine::Log(LogPosition { made, end }))
}

/// Reads the entry in a line that begins with its word.
fn read_entry(line: &str) -> Option<StateLine>
    ensures read { (numbered : Logged) → texts.IsStateLine (texts.entry numbered) →
        texts.words_in line.now ≡ texts.entry_words numbered →
        result ≡ Some (texts.entry numbered) }
{
    Some(StateLine::EarlierEntry(LogEntry {
        number: fields::number(line, 1)?,
        entry: Entry {
            binding: fields::row(line, 2)?,
            made: fields::number(line, 8)?,
            end: fields::end(line, 9)?,
            sent: fields::count(line, 10)?,
            received: fields::count(line, 11)?,
            last: fields::number(line, 12)?,
            last_sent: fields::number(line, 13)?,
        },
    }))
}

/// Reads the counts in a line that begins with their word.
fn read_end(line: &str) -> Option<StateLine>
    ensures read { (counts : Counted) → texts.IsStateLine (texts.end counts) →
        texts.words_in line.now ≡ texts.end_line_words counts → result ≡ Some (texts.end counts) }
{
    Some(StateLine::End(LineCounts {
        bindings: fields::number(line, 1)?,
        flows: fields::number(line, 2)?,
        entries: fields::number(line, 3),
    }))
}
