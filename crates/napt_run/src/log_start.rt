//! The start of the log of a run: the saved log, and how the run continues it.

ghost use Rattle.std.specs.Prelude.{◌≡◌, IfOk, string_bytes, true};
ghost use Rattle.napt_rules.specs.Prelude.{TakesState};
ghost use Rattle.napt_account.specs.{Log.LogModel, LogStarts.is_saved_log_state, ResumedLogRuns.IsLogOf};
ghost use Rattle.napt_log_text.specs.Logs.{first_text};
ghost use Rattle.napt_run.specs.{LogOrigins.{IsResumedFrom, origin_from}, Origins.origin_of, RunningLogs.LogLawsHold};

use crate::start::Start;
use napt_account::{
    LogBuilder, LogFromState, SavedLogState, effects_are_the_log, started_logs_go_on,
};
use napt_config::Config;
use napt_log_text::{add_first, add_opening, effects_have_the_rows};
use std::alloc::{AllocError, Global};
use std::num::NonZeroU32;

/// The start of the log of a run: the saved log, and how the run continues it.
#[derive(Clone, Copy)]
pub struct LogStart<'a> {
    /// The accounts of the saved state; it has none if it was saved without a log.
    pub saved: &'a SavedLogState,
    /// Whether the device of the log has no text yet. The text then begins with the header and a
    /// row for each account. In either case, the rows of entries that the configuration ends
    /// follow, and then the rows of new entries.
    pub is_new: bool,
    /// The number of seconds of the run's clock in each piece of the log, if it has pieces. When
    /// the clock passes a multiple of them, a new piece begins like a new log: with the header and
    /// a row for each open binding, in one write.
    pub each: Option<NonZeroU32>,
    /// Whether another run continues the log. It then ends without the rows of live bindings.
    pub goes_on: bool,
}

/// A log before the first input of a run, and how the run's part of its text begins.
#[derive(Drop)]
pub(crate) struct ResumedLog<'a> {
    pub(crate) log: LogBuilder<'a>,
    pub(crate) opening: String,
}

/// Returns the beginning of a log's text: the header and a row for each saved entry if the log is
/// new, and in any case the rows of entries that end or begin before the first packet.
fn first_text(
    alloc: Global,
    config: &Config,
    started: &LogFromState<'_>,
    is_new: bool,
) -> Result<String, AllocError>
    ensures { IfOk result (λ text. string_bytes text
        ≡ first_text config.now (origin_from started.now is_new)) }
{
    let mut text = String::new(alloc);
    if is_new {
        add_opening(config, &started.before, &mut text)?;
    }
    add_first(config, &started.ended, &started.made, &mut text)?;
    Ok(text)
}

/// Begins the log of a run from a state. Fails only if memory is refused.
pub(crate) fn resume_log<'a>(
    alloc: Global,
    start: Start<'a>,
    log_start: LogStart<'_>,
) -> Result<ResumedLog<'a>, AllocError>
    requires saved { is_saved_log_state start.state.now log_start.saved.now ≡ true }
    requires taken { TakesState start.config.now start.state.now }
    ensures { IfOk result (IsResumedFrom start.entry log_start.entry) }
{
    started_logs_go_on();
    // Only the contract of this call is used: the rules of a configuration are valid.
    let _pool = start.config.pool();
    let started = LogBuilder::resume(alloc, start.config, start.state, log_start.saved)?;
    let opening = first_text(alloc, start.config, &started, log_start.is_new)?;
    Ok(ResumedLog {
        log: started.log,
        opening,
    })
}

/// Law: the log of a state has the rows of the inputs of a run, by their traces.
pub(crate) fn log_laws(start: Start<'_>)
    requires { TakesState start.config.now start.state.now }
    ensures { (log : LogModel) → IsLogOf start.entry.config.now (origin_of start.entry).state log →
        LogLawsHold (origin_of start.entry) log }
{
    effects_are_the_log();
    effects_have_the_rows();
    // Only the contract of this call is used: the rules of a configuration are valid.
    let _pool = start.config.pool();
}
