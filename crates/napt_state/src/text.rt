//! Writing and reading the whole text of a state.
ghost use Rattle.std.specs.{Prelude.{◌≡◌, ℕ, List, Option, Some, Ok, OnOk, IfOk, flat_map}, Io.KnownBytes.Appends};
ghost use Rattle.napt_state.specs.StateFiles.{StateFileModel as Left};
ghost use Rattle.napt_state.specs.{Saved.{HasAccounts, IsSaved}, StateContents.{IsReadAs, UnlessFailed}};
ghost use Rattle.napt_state.specs.StateText as texts;

use crate::fault::StateFault;
use crate::line::{LineCounts, LogPosition, StateLine};
use crate::saved_bindings::SavedBinding;
use crate::state_contents::StateFileContents;
use crate::state_reader::StateReader;
use napt_account::Account;
use napt_rules::StateBinding;
use std::alloc::Global;
use std::io;
use std::io::{BufRead, Write};

/// Writes a line. The string `line` is used again for its text.
fn write_line<W: Write>(writer: &mut W, line: &mut String, entry: &StateLine) -> io::Result<()>
    ensures { OnOk result (Appends (W.contents writer.old) (W.contents writer.new)
        (texts.line_text entry.now)) }
{
    line.clear();
    entry.add_to(line)?;
    writer.write_all(line.as_bytes())
}

/// Writes a binding and its flows.
fn push_binding<W: Write>(writer: &mut W, line: &mut String, saved: &SavedBinding) -> io::Result<()>
    ensures { OnOk result (Appends (W.contents writer.old) (W.contents writer.new)
        (flat_map texts.line_text (texts.binding_lines saved.now))) }
{
    match saved {
        SavedBinding::Live(binding, account) => push_live(writer, line, binding, *account),
        SavedBinding::Ended(row, end) => write_line(writer, line, &StateLine::Held(*row, *end)),
    }
}

/// Writes a live binding with its account, and its flows.
fn push_live<W: Write>(
    writer: &mut W,
    line: &mut String,
    binding: &StateBinding,
    account: Option<Account>,
) -> io::Result<()>
    ensures { OnOk result (Appends (W.contents writer.old) (W.contents writer.new)
        (flat_map texts.line_text (texts.live_lines binding.now account))) }
{
    let first = StateLine::Binding(binding.row, binding.last, account);
    write_line(writer, line, &first)?;
    for flow in &binding.flows {
        write_line(writer, line, &StateLine::Flow(*flow))?;
    }
    Ok(())
}

/// Writes the line of a log, if there is one.
fn push_log<W: Write>(writer: &mut W, line: &mut String, log: Option<LogPosition>) -> io::Result<()>
    ensures { OnOk result (Appends (W.contents writer.old) (W.contents writer.new)
        (flat_map texts.line_text (texts.log_lines log))) }
{
    match log {
        Some(position) => write_line(writer, line, &StateLine::Log(position)),
        None => Ok(()),
    }
}

/// Writes the text of a state line by line, in the memory of one line, and flushes it. Fails if a
/// write or the flush fails, or memory is refused; a prefix may then have been written.
pub fn write_state<W: Write>(
    alloc: Global,
    writer: &mut W,
    saved: &StateFileContents,
) -> io::Result<()>
    ensures { OnOk result (Appends (W.contents writer.old) (W.contents writer.new)
        (texts.saved_text saved.now)) }
{
    let mut line = String::new(alloc);
    write_line(writer, &mut line, &StateLine::Clock(saved.clock))?;
    push_log(writer, &mut line, saved.log)?;
    for binding in &saved.bindings {
        push_binding(writer, &mut line, binding)?;
    }
    let counts = LineCounts::from_contents(saved)?;
    write_line(writer, &mut line, &StateLine::End(counts))?;
    writer.flush()
}

/// Reads the text of a state to its end, in the memory of the state and of one line, and drops the
/// reader. Also reads a text into which an earlier version wrote its log.
///
/// Fails with the first fault: a read fails, memory is refused, a line is malformed, the text ends
/// early, or it continues after its last line. It is not specified how many bytes were read before
/// a fault.
pub fn read_state<R: BufRead + Drop>(
    alloc: Global,
    reader: R,
) -> Result<StateFileContents, StateFault>
    ensures read { (saved : Left) → IsSaved saved →
        R.remaining reader ≡ Some (texts.saved_text saved) →
        UnlessFailed result (result ≡ Ok saved) }
    ensures exact { (text : List ℕ) → R.remaining reader ≡ Some text →
        IfOk result (IsReadAs text) }
    ensures accounts { IfOk result HasAccounts }
{
    let mut text = StateReader::new(alloc, reader);
    match text.saved() {
        Ok(saved) => Ok(saved),
        Err(reason) => Err(StateFault {
            line: text.line(),
            reason,
        }),
    }
}
