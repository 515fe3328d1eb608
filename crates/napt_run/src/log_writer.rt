//! A log that is written to a device.

ghost use Rattle.std.specs.Prelude.{◌≡◌, [], List, true, IfErr, IfOk, MatchResult, OnOk, string_bytes};
ghost use Rattle.napt_rules.specs.Prelude.{TakesState};
ghost use Rattle.napt_account.specs.{LogBuilders.part_in, LogStarts.is_saved_log_state};
ghost use Rattle.napt_sequential.specs.declared.passage.Trace.{Trace as Did};
ghost use Rattle.napt_run.specs.{LogOrigins.{LoggedOrigin, log_origin, texts_from, texts_of}, LogRuns.IsLogFault, Origins.origin_of, OutcomeWriters.result_of_output, Posts.IsTextFault, RunningLogs.{IsReady, ending_with, running_log_of}};
ghost use Rattle.napt_records.specs.declared.Which.TheVariants.{Log};

use crate::log_start::{LogStart, ResumedLog, log_laws, resume_log};
use crate::output::Output;
use crate::start::Start;
use crate::stream_log::StreamLog;
use napt_account::{InputPart, LogBuilder, OpenLog};
use napt_capture::{Sink, WriteFault};
use napt_log_text::{add_living, add_opening, add_part, begins_piece};
use napt_records::{Fault, Which};
use napt_sequential::{Passage, Trace};
use std::alloc::{AllocError, Global};
use std::mem;
use std::num::NonZeroU32;

/// The log of a run, which is written to a device.
///
/// It is written row by row (RFC 8158). The rows of an input record the bindings that ended before
/// it, and the binding that it made, or that it got none. They are written before its packet is.
/// Before a device is asked for more bytes, the log is flushed, and then the captures are.
/// Therefore, if the devices buffer bytes until they are flushed, no packet leaves before its rows
/// are at their destination. The log takes memory for the bindings that have not ended.
///
/// The beginning of its text is written and flushed first, before the headers of the captures. The
/// rows of the bindings that are live at the end are written last, before the report.
#[derive(Drop)]
pub struct LogWriter<'a, 'b, L: Sink> {
    alloc: Global,
    log: LogBuilder<'a>,
    /// The beginning of its text, until it is written.
    opening: String,
    /// The number of seconds in each of its pieces, if it has pieces.
    each: Option<NonZeroU32>,
    /// Whether another run continues it.
    goes_on: bool,
    output: Output<'b, L>,
}

impl<'a, 'b, L: Sink> LogWriter<'a, 'b, L> {
    ghost use Rattle.napt_run.specs.RunningLogs.{LogAdds, LogCloses, EntersNot, EntersWith, FlushPost, IsAfterFault, LogIsAt, left_with, opening_before};

    /// Begins the log of a run from a state, to be written to a device, and writes nothing yet.
    /// Fails only if memory is refused.
    pub fn new(
        alloc: Global,
        start: Start<'a>,
        log_start: LogStart<'_>,
        device: &'b mut L,
    ) -> Result<LogWriter<'a, 'b, L>, AllocError>
        requires saved { is_saved_log_state start.state.now log_start.saved.now ≡ true }
        requires taken { TakesState start.config.now start.state.now }
        ensures ready { IfOk result (IsReady (origin_of start.entry)) }
        ensures texts { IfOk result (λ it.
            texts_of (running_log_of (origin_of start.entry) it) ≡ texts_from start.entry log_start.entry) }
        ensures log { IfOk result (λ it. it.log.log ≡ (log_origin start.entry log_start.entry).log) }
        ensures name { IfOk result (λ it. it.output.device.ghost_name ≡ device.entry.ghost_name) }
        ensures device { IfOk result (λ it. it.output.device.now ≡ device.old) }
    {
        log_laws(start);
        let taken = resume_log(alloc, start, log_start)?;
        let output = Output::over(device);
        let ResumedLog { log, opening } = taken;
        Ok(LogWriter {
            alloc,
            log,
            opening,
            each: log_start.each,
            goes_on: log_start.goes_on,
            output,
        })
    }

    /// Returns the rows of the bindings that are live at the end, unless another run continues it.
    fn ending(&self) -> Result<String, AllocError>
        ensures { (from : LoggedOrigin) (all : List Did) → LogIsAt from all self.now →
            IfOk result (λ text. string_bytes text ≡ ending_with from all) }
    {
        let mut text = String::new(self.alloc);
        if self.goes_on {
            return Ok(text);
        }
        let living = self.log.living(self.alloc)?;
        add_living(self.log.config(), &living, &mut text)?;
        Ok(text)
    }

    /// Writes a text, and flushes it.
    fn write(&mut self, text: &str) -> Result<(), Fault>
        ensures text { (from : LoggedOrigin) (before : List Did) → LogIsAt from before self.old →
            LogAdds from before text.now self.old.output result self.new }
        ensures fault { IfErr result (IsTextFault true) }
        ensures flushed { OnOk result (L.is_flushed self.new.output.device.now) }
    {
        match self.output.write_text(text.as_bytes()) {
            Ok(()) => log_result(self.output.flush()),
            Err(fault) => Err(Fault::Write(Which::Log, fault)),
        }
    }

    /// Takes the trace of the next input, and returns its rows.
    #[inline(always)]
    fn rows(&mut self, trace: Trace) -> Result<String, Fault>
        ensures of_log { IfErr result IsLogFault }
        ensures rows { (from : LoggedOrigin) (before : List Did) → LogIsAt from before self.old →
            MatchResult result
            (λ text. EntersWith from before trace self.old self.new (string_bytes text))
            (λ fault. EntersNot from before trace self.old fault self.new) }
    {
        let opening = self.piece_opening(trace.now);
        let part = self.log.enter(self.alloc, trace)?;
        let mut text = opening?;
        if is_quiet(&part) {
            return Ok(text);
        }
        add_part(self.log.config(), &part, &mut text)?;
        Ok(text)
    }

    /// Returns the beginning of a piece, if one begins with the next input, at a time in ns.
    #[inline(always)]
    fn piece_opening(&self, now: u64) -> Result<String, AllocError>
        ensures { (from : LoggedOrigin) (before : List Did) → LogIsAt from before self.now →
            IfOk result (λ text. string_bytes text ≡ opening_before from before now) }
    {
        let mut text = String::new(self.alloc);
        if begins_piece(self.each, self.log.last(), now) {
            let kept = self.log.to_open_log(self.alloc)?;
            add_opening(self.log.config(), &kept, &mut text)?;
        }
        Ok(text)
    }

    /// Flushes the rows that were written before a run failed, unless a call failed. After a fault
    /// of a capture they are flushed already.
    fn flush_rest(&mut self, fault: &Fault)
        ensures { IsAfterFault fault.now self.old self.new }
    {
        match fault {
            Fault::Capture(..) | Fault::Write(Which::Log, _) => {}
            Fault::Run(_) | Fault::Write(..) => self.flush_sound(),
        }
    }

    /// Flushes the rows that were written, unless a call failed before.
    fn flush_sound(&mut self)
        ensures { FlushPost self.old.output self.new.output }
    {
        if !self.output.is_broken {
            let _flushed = self.output.flush();
        }
    }

    /// Writes and flushes the rows of the bindings live at the end, if no run continues it.
    fn finish(&mut self) -> Result<OpenLog, Fault>
        ensures text { (from : LoggedOrigin) (all : List Did) → LogIsAt from all self.old →
            LogCloses from all (ending_with from all) self.old.output result self.new }
        ensures left { (from : LoggedOrigin) (all : List Did) → LogIsAt from all self.old →
            IfOk result (λ left. left ≡ left_with from all) }
        ensures fault { IfErr result (IsTextFault true) }
    {
        let left = self.log.to_open_log(self.alloc)?;
        let text = self.ending()?;
        self.write(&text)?;
        Ok(left)
    }
}

/// Returns whether an input adds no row to the log.
#[inline(always)]
fn is_quiet(part: &InputPart) -> bool
    ensures { result ≡ true → part_in part.now ≡ record { ended = []; made = []; refused = [] } }
{
    part.ended.is_empty() && part.made.is_empty() && part.refused.is_empty()
}

/// Returns an answer of the output as an answer of the log.
#[inline(always)]
fn log_result(answer: Result<(), WriteFault>) -> Result<(), Fault>
    ensures { result ≡ result_of_output Log answer }
{
    match answer {
        Ok(()) => Ok(()),
        Err(fault) => Err(Fault::Write(Which::Log, fault)),
    }
}

impl<L: Sink> StreamLog for LogWriter<'_, '_, L> {
    ghost use Rattle.napt_run.specs.{Logs.LogPost, LogLaws.log_unreported, RunningLogs.{Enters, LogFails, LogOpens, running_log_traces}};
    ghost use Rattle.napt_run.specs.RunningLogLaws.{enters_more, enters_none, fails_more};

    type Told = Passage;

    ghost is_kept = { true };

    ghost is_ready = { λ origin it. IsReady origin it };

    ghost opens = { λ old new. LogOpens old new };

    ghost enters = { λ old all new. Enters old (running_log_traces all) new };

    ghost fails = { λ old all fault new. LogFails old (running_log_traces all) fault new };

    ghost is_settled = { λ log. L.is_flushed log.output.device.now };

    ghost post = { λ origin inside outside result old new. LogPost origin inside outside result old new };

    fn open(&mut self) -> Result<(), Fault> {
        let opening = mem::replace(&mut self.opening, String::new(self.alloc));
        self.write(&opening)
    }

    #[inline(always)]
    fn enter(&mut self, now: u64, first: Passage, second: Passage) -> Result<(), Fault> {
        let text = self.rows(Trace { now, first, second })?;
        let rows = text.as_bytes();
        if rows.is_empty() {
            return Ok(());
        }
        match self.output.write_text(rows) {
            Ok(()) => Ok(()),
            Err(fault) => Err(Fault::Write(Which::Log, fault)),
        }
    }

    fn settle(&mut self) -> Result<(), Fault> {
        match self.output.flush() {
            Ok(()) => Ok(()),
            Err(fault) => Err(Fault::Write(Which::Log, fault)),
        }
    }

    fn close(&mut self, _alloc: Global) -> Result<OpenLog, Fault> {
        self.finish()
    }

    fn flush_after(&mut self, fault: &Fault) {
        self.flush_rest(fault);
    }

    ghost enters_none = { λ x. enters_none x };

    ghost enters_more = { λ x y z xs ys one two. enters_more x y z xs ys one two };

    ghost fails_more = { λ x y z xs ys fault one two. fails_more x y z xs ys fault one two };

    ghost unreported = { λ origin inside outside log fault old new report p.
        log_unreported origin inside outside log fault old new report p };
}
