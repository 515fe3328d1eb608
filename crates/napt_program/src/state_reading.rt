//! Reads the state from which a run starts, and its log position.

ghost use Rattle.std.specs.Prelude.{◌≡◌, ℕ, Bool, List, IfErr, IfOk, IfSome, None, Some, false, is_some, true};
ghost use Rattle.napt_config.specs.Rules.{Rules};
ghost use Rattle.napt_account.specs.LogStarts.{is_saved_log_state};
ghost use Rattle.napt_rules.specs.Prelude.{TakesState};
ghost use Rattle.napt_state.specs.{StateContents.{unless_for}, Saved.{IsSaved}, StateFiles.{StateFileModel as Told}, StateText.{saved_text}};
ghost use Rattle.napt_program.specs.State.{IsNewRun, IsStateOf, IsStateStop, ReportsMisfit, is_bad_line, line_refusal};

use crate::devices::reader;
use crate::role::FileRole;
use crate::stop::{MEMORY, StateRefusal, Stop, unread};
use napt_account::SavedLogState;
use napt_config::Config;
use napt_rules::State;
use napt_state::{LogEnd, StateFault, StateReason, TakenState, read_state};
use std::alloc::Global;
use std::fs::File;
use std::io::Read;
use std::rt::Files;

/// A state from which a run starts, as its configuration accepts it.
#[derive(Drop)]
pub struct ResumedState {
    pub state: State,
    /// The accounts of its log that the state contains, or none if there was no log.
    pub saved: SavedLogState,
    /// The end of its log, whose numbers are all 0 if there was no log in a file.
    pub log: LogEnd,
    /// The number of its bindings that expire at the start, since the configuration refuses them.
    pub ended: u64,
}

/// Returns the state in the file as the configuration accepts it, or one without bindings or log
/// for `None`. Fails as `state_from` does, and with the file's role if the file cannot be opened.
pub fn state_at<R: Files + AllocGlobal>(
    rt: &R,
    config: &Config,
    path: Option<&String>,
    ends_misfits: bool,
) -> Result<ResumedState, Stop>
    ensures taken { IfOk result (λ saved. TakesState config.now saved.state) }
    ensures saved { IfOk result (λ it. is_saved_log_state it.state it.saved ≡ true) }
    ensures anew { path.entry ≡ None → IfOk result IsNewRun }
    ensures stop { IfErr result (IsStateStop (is_some path.entry)) }
{
    let Some(path) = path else {
        let list = Vec::new(rt.alloc());
        return Ok(ResumedState {
            state: State { clock: 0, list },
            saved: SavedLogState::none(rt.alloc()),
            log: LogEnd::default(),
            ended: 0,
        });
    };
    let file = File::open(rt, path).map_err(|error| unread(&error, FileRole::Resume))?;
    state_from(rt.alloc(), config, file, ends_misfits)
}

/// Reads a state from a reader to its end. If `ends_misfits`, the bindings that the configuration
/// does not accept end at its clock.
///
/// Fails with `Stop::State` if the text is refused or a binding is not accepted, with the file's
/// role if the reader fails, and with `MEMORY` if memory is refused.
pub fn state_from<D: Read + Drop>(
    alloc: Global,
    config: &Config,
    device: D,
    ends_misfits: bool,
) -> Result<ResumedState, Stop>
    ensures taken { IfOk result (λ saved. TakesState config.now saved.state) }
    ensures saved { IfOk result (λ it. is_saved_log_state it.state it.saved ≡ true) }
    ensures read { IfOk result (λ saved. IfSome (D.remaining device) (λ text.
        IsStateOf ends_misfits config.now text saved)) }
    ensures whole { (told : Told) → IsSaved told → D.remaining device ≡ Some (saved_text told)
        → IfErr result (λ stop. is_bad_line stop ≡ false) }
    ensures misfit { (text : List ℕ) → D.remaining device ≡ Some text
        → IfErr result (ReportsMisfit ends_misfits config.now text) }
    ensures stop { IfErr result (IsStateStop true) }
{
    let saved = match read_state(alloc, reader(alloc, device)?) {
        Ok(saved) => saved,
        Err(fault) => return Err(stop_of_state(&fault)),
    };
    let log = saved.log.map_or(LogEnd::default(), |log| log.end);
    match saved.restore(alloc, config, ends_misfits)? {
        Ok(
            TakenState {
                state,
                log: saved,
                ended,
            },
        ) => Ok(ResumedState {
            state,
            saved,
            log,
            ended,
        }),
        Err((_, misfit)) => Err(Stop::State(StateRefusal::Binding(misfit))),
    }
}

/// Returns why a text is no state: its file failed, memory was refused, or a line is malformed.
pub fn stop_of_state(fault: &StateFault) -> Stop
    ensures line { unless_for fault.now.reason
        (result ≡ Stop.State (line_refusal fault.now.reason fault.now.line)) }
    ensures unread { unless_for fault.now.reason ⊥ → is_bad_line result ≡ false }
    ensures memory { fault.now.reason ≡ StateReason.Memory → result ≡ MEMORY }
    ensures misfit { (ends : Bool) (rules : Rules) (text : List ℕ)
        → ReportsMisfit ends rules text result }
    ensures stop { IsStateStop true result }
{
    match &fault.reason {
        StateReason::Memory => MEMORY,
        StateReason::Unread(error) => unread(error, FileRole::Resume),
        StateReason::NotUtf8 => Stop::State(StateRefusal::NotUtf8(fault.line)),
        _ => Stop::State(StateRefusal::Line(fault.line)),
    }
}
