//! The text of a state, read line by line.
ghost use Rattle.std.specs.{Prelude.{◌≡◌, ◌≢◌, ◌+◌, ◌-◌, ◌^◌, ◌++◌, ◌<◌, min, ℕ, List, [], Ok, Err, Some, None, IfOk, OnOk, IsOk, IfSome, length}, List.All, Io.KnownBytes.IsAtEnd, Str.IsUtf8};
ghost use Rattle.napt_state.specs.Saved.{HasAccounts, IsSaved};
ghost use Rattle.napt_state.specs.StateText as texts;
ghost use Rattle.napt_state.specs.StateContents as said;
ghost use Rattle.napt_state.specs.{StateFiles.{StateFileModel as Left}, declared.line.StateLine.{StateLine as Told}};

use crate::fault::{StateField, StateReason};
use crate::fields;
use crate::line::{LineCounts, StateLine};
use crate::saved_bindings::has_accounts;
use crate::state_contents::StateFileContents;
use crate::wrong_words::{reason_of, wrong_word};
use napt_account::OpenLog;
use std::alloc::Global;
use std::io::BufRead;
use std::str;

/// A reader of the text of a state, line by line, in the memory of its longest line.
#[derive(Drop)]
pub(crate) struct StateReader<R> {
    alloc: Global,
    reader: R,
    line: Vec<u8>,
    /// The text of the line, written again to compare it.
    rewritten: String,
    /// The number of lines that have been read.
    lines: u64,
}

impl<R: BufRead + Drop> StateReader<R> {
    /// Returns a reader that begins at the first line of the text.
    pub(crate) fn new(alloc: Global, reader: R) -> StateReader<R>
        ensures reader { R.remaining result.reader ≡ R.remaining reader }
        ensures lines { result.lines ≡ 0 }
    {
        StateReader {
            alloc,
            reader,
            line: Vec::new(alloc),
            rewritten: String::new(alloc),
            lines: 0,
        }
    }

    /// Returns the number of the line that was read last, from 1.
    pub(crate) fn line(&self) -> u64
        ensures { result ≡ self.now.lines }
    {
        self.lines
    }

    /// Reads the next line, or returns `None` at the end.
    pub(crate) fn next(&mut self) -> Result<Option<StateLine>, StateReason>
        ensures lines { self.new.lines ≡ min (self.old.lines + 1) (2 ^ 64 - 1) }
        ensures entry { (entry : Told) (rest : List ℕ) → texts.IsStateLine entry →
            R.remaining self.old.reader ≡ Some (texts.line_text entry ++ rest) →
            said.StateUnlessUnread result ((result ≡ Ok (Some entry))
            × (R.remaining self.new.reader ≡ Some rest)) }
        ensures exact { (entry : Told) (all : List ℕ) → R.remaining self.old.reader ≡ Some all →
            result ≡ Ok (Some entry) → said.IsFirstLine entry all (R.remaining self.new.reader) }
        ensures end { R.remaining self.old.reader ≡ Some [] →
            said.StateUnlessUnread result (result ≡ Ok None) }
        ensures none { result ≡ Ok None → IsAtEnd (R.remaining self.old.reader) }
        ensures torn { (torn : List ℕ) → IsUtf8 torn → 0 < length torn →
            All (λ byte. byte ≢ 10) torn → R.remaining self.old.reader ≡ Some torn →
            said.StateUnlessUnread result (result ≡ Err StateReason.Torn) }
    {
        self.line.clear();
        self.lines = self.lines.saturating_add(1);
        let length = match self.reader.read_until(b'\n', &mut self.line) {
            Ok(length) => length,
            Err(error) => return Err(StateReason::Unread(error)),
        };
        if length == 0 {
            return Ok(None);
        }
        let Ok(line) = str::from_utf8(&self.line) else {
            return Err(StateReason::NotUtf8);
        };
        let Some(text) = line.strip_suffix('\n') else {
            return Err(StateReason::Torn);
        };
        let Some(entry) = StateLine::read(text) else {
            return Err(reason_of(self.alloc, text));
        };
        self.rewritten.clear();
        if entry.add_to(&mut self.rewritten).is_err() {
            return Err(StateReason::Memory);
        }
        if self.rewritten.as_str() == line {
            Ok(Some(entry))
        } else {
            Err(reason_of(self.alloc, text))
        }
    }

    /// Reads the next line. Fails if there is none.
    fn entry(&mut self) -> Result<StateLine, StateReason>
        ensures entry { (entry : Told) (rest : List ℕ) → texts.IsStateLine entry →
            R.remaining self.old.reader ≡ Some (texts.line_text entry ++ rest) →
            said.StateUnlessUnread result ((result ≡ Ok entry)
            × (R.remaining self.new.reader ≡ Some rest)) }
        ensures exact { (all : List ℕ) → R.remaining self.old.reader ≡ Some all →
            IfOk result (λ entry. said.IsFirstLine entry all (R.remaining self.new.reader)) }
    {
        match self.next()? {
            Some(entry) => Ok(entry),
            None => Err(StateReason::Torn),
        }
    }

    /// Reads the first line, and returns its clock, in ns. Fails if it is of another kind.
    fn clock(&mut self) -> Result<u64, StateReason>
        ensures read { (clock : ℕ) (rest : List ℕ) → clock < 2 ^ 64 →
            R.remaining self.old.reader ≡ Some (texts.line_text (texts.clock clock) ++ rest) →
            said.StateUnlessUnread result ((result ≡ Ok clock)
            × (R.remaining self.new.reader ≡ Some rest)) }
        ensures exact { (all : List ℕ) → R.remaining self.old.reader ≡ Some all →
            IfOk result (λ clock. said.IsFirstLine (texts.clock clock) all
            (R.remaining self.new.reader)) }
    {
        match self.entry()? {
            StateLine::Clock(clock) => Ok(clock),
            _ => Err(self.misplaced()),
        }
    }

    /// Returns the reason that refuses a line which may not follow those before it.
    fn misplaced(&self) -> StateReason {
        let kind = fields::word(str::from_utf8(&self.line).unwrap_or(""), 0);
        wrong_word(self.alloc, StateField::Kind, kind)
    }

    /// Adds a line to the contents of the lines before it.
    fn add(&self, saved: &mut StateFileContents, line: StateLine) -> Result<(), StateReason>
        ensures added { OnOk result (said.IsAdded line saved.old saved.new) }
        ensures read { said.CanFollow line saved.old → said.StateUnlessUnread result (IsOk result) }
    {
        if saved.add(self.alloc, line)? {
            return Ok(());
        }
        match line {
            StateLine::Flow(_) => Err(StateReason::NoBinding),
            _ => Err(self.misplaced()),
        }
    }

    /// Reads the end of a text after a line with these counts.
    fn end(&mut self, saved: &StateFileContents, counts: LineCounts) -> Result<(), StateReason>
        ensures same { OnOk result (counts ≡ texts.counts_of saved.now) }
        ensures exact { OnOk result (IsAtEnd (R.remaining self.old.reader)) }
        ensures accounts { OnOk result (HasAccounts saved.now) }
        ensures read { counts ≡ texts.counts_of saved.now → HasAccounts saved.now →
            R.remaining self.old.reader ≡ Some [] → said.StateUnlessUnread result (IsOk result) }
    {
        if counts != LineCounts::from_contents(saved)? {
            return Err(StateReason::Counts);
        }
        if !has_accounts(self.alloc, saved)? {
            return Err(StateReason::Accounts);
        }
        match self.next()? {
            None => Ok(()),
            Some(_) => Err(StateReason::AfterEnd),
        }
    }

    /// Reads the whole text.
    pub(crate) fn saved(&mut self) -> Result<StateFileContents, StateReason>
        ensures read { (whole : Left) → IsSaved whole →
            R.remaining self.old.reader ≡ Some (texts.saved_text whole) →
            said.StateUnlessUnread result (result ≡ Ok whole) }
        ensures exact { (text : List ℕ) → R.remaining self.old.reader ≡ Some text →
            IfOk result (said.IsReadAs text) }
        ensures accounts { IfOk result HasAccounts }
    {
        let clock = self.clock()?;
        let mut saved = StateFileContents::new(self.alloc, clock);
        for _ in 0..u64::MAX {
            match self.entry()? {
                StateLine::End(counts) => {
                    self.end(&saved, counts)?;
                    return Ok(saved);
                }
                StateLine::EarlierLog(made, _) => return self.earlier(saved, made),
                line => self.add(&mut saved, line)?,
            }
        }
        Err(StateReason::Memory)
    }

    /// Reads the rest of a text with its log in the form of earlier versions, after the line of the
    /// log: each entry becomes the account of its binding. The file of the log is not known.
    fn earlier(
        &mut self,
        mut saved: StateFileContents,
        made: u64,
    ) -> Result<StateFileContents, StateReason>
        ensures { IfOk result HasAccounts }
    {
        if saved.log.is_some() {
            return Err(self.misplaced());
        }
        let mut entries = Vec::new(self.alloc);
        for _ in 0..u64::MAX {
            match self.entry()? {
                StateLine::EarlierEntry(numbered) => entries.push(numbered)?,
                StateLine::End(counts) => {
                    if counts.entries != Some(entries.len() as u64) {
                        return Err(StateReason::Counts);
                    }
                    if !saved.assign_accounts(self.alloc, &OpenLog { made, entries })? {
                        return Err(StateReason::Accounts);
                    }
                    let counts = LineCounts {
                        entries: None,
                        ..counts
                    };
                    self.end(&saved, counts)?;
                    return Ok(saved);
                }
                _ => return Err(self.misplaced()),
            }
        }
        Err(StateReason::Memory)
    }
}
