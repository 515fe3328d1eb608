//! The contents of the text of a state.

ghost use Rattle.std.specs.Prelude.{◌≡◌, true, false, Ok, IfOk};
ghost use Rattle.napt_state.specs.EndedMisfits as ending;
ghost use Rattle.napt_state.specs.Saved as saved;
ghost use Rattle.napt_state.specs.StateContents as said;
ghost use Rattle.napt_state.specs.StateText as texts;

use crate::line::{LineCounts, LogPosition, StateLine};
use crate::saved_bindings::{SavedBinding, ended_binding, made_so_far};
use crate::state_checks::{end_misfits, first_misfit};
use napt_account::SavedLogState;
use napt_config::Config;
use napt_rules::{Flow, Misfit, Row, State, StateBinding};
use std::alloc::{AllocError, Global};
use std::marker::Model;

/// The contents of the file in which a run saves its state, so that another run can continue.
#[derive(Drop)]
pub struct StateFileContents {
    /// The clock of the state, in ns.
    pub clock: u64,
    /// The log of the run, if it had one.
    pub log: Option<LogPosition>,
    pub bindings: Vec<SavedBinding>,
}

impl Model for StateFileContents {
    ghost use Rattle.napt_state.specs.StateFiles.{StateFileModel};

    ghost Value = { StateFileModel };

    ghost view = { λ it. record { clock = it.clock; log = it.log; bindings = it.bindings.items } };
}

/// A state as a configuration accepts it, with the state of its log.
#[derive(Drop)]
pub struct TakenState {
    pub state: State,
    pub log: SavedLogState,
    /// The number of its bindings that do not fit, and end at the start.
    pub ended: u64,
}

impl StateFileContents {
    /// Returns the contents of a state without bindings and without a log, at a clock in ns.
    pub fn new(alloc: Global, clock: u64) -> StateFileContents
        ensures { result ≡ said.empty_contents clock }
    {
        StateFileContents {
            clock,
            log: None,
            bindings: Vec::new(alloc),
        }
    }

    /// Adds a line. Returns whether it may follow those before it. Fails only if memory is refused.
    pub(crate) fn add(&mut self, alloc: Global, line: StateLine) -> Result<bool, AllocError>
        ensures added { result ≡ Ok true → said.IsAdded line self.old self.new }
        ensures refused { result ≡ Ok false → ¬ said.CanFollow line self.old }
    {
        match line {
            StateLine::Log(position) => {
                if self.log.is_some() || !self.bindings.is_empty() {
                    return Ok(false);
                }
                self.log = Some(position);
            }
            StateLine::Binding(row, last, account) => {
                let flows = Vec::new(alloc);
                let binding = StateBinding { row, last, flows };
                self.bindings.push(SavedBinding::Live(binding, account))?;
            }
            StateLine::Flow(flow) => return add_flow(&mut self.bindings, flow),
            StateLine::Held(row, end) => self.bindings.push(SavedBinding::Ended(row, end))?,
            _ => return Ok(false),
        }
        Ok(true)
    }

    /// Converts the contents to a state for a configuration. Redirects, and bindings that are
    /// neither live nor held at the clock, need not fit.
    ///
    /// If `ends_misfits`, each other binding that does not fit ends at the clock, with its entry.
    /// Otherwise, or if the clock is not past a timer and the hold, the first such binding is
    /// returned, with the reason why it does not fit. Takes linear time. Fails only if memory is
    /// refused.
    pub fn restore(
        self,
        alloc: Global,
        config: &Config,
        ends_misfits: bool,
    ) -> Result<Result<TakenState, (Row, Misfit)>, AllocError>
        ensures { IfOk result (saved.IsTaken ends_misfits config.now self) }
    {
        let whole = self.into_state(alloc, config)?;
        let taken = starting(alloc, config, whole, ends_misfits)?;
        Ok(match first_misfit(alloc, config, &taken.state)? {
            None => Ok(taken),
            Some(misfit) => Err(misfit),
        })
    }

    /// Returns the state and its log. A binding that has ended has the same end under other timers.
    fn into_state(self, alloc: Global, config: &Config) -> Result<TakenState, AllocError>
        ensures { IfOk result (λ taken. taken ≡ saved.taken_whole config.now.timers self) }
    {
        let StateFileContents {
            clock,
            log,
            bindings,
        } = self;
        let mut list = Vec::new(alloc);
        let mut accounts = Vec::new(alloc);
        for binding in bindings {
            match binding {
                SavedBinding::Live(binding, account) => {
                    list.push(binding)?;
                    accounts.push(account)?;
                }
                SavedBinding::Ended(row, end) => {
                    if let Some(binding) = ended_binding(alloc, row, end, config, clock)? {
                        list.push(binding)?;
                        accounts.push(None)?;
                    }
                }
            }
        }
        Ok(TakenState {
            state: State { clock, list },
            log: SavedLogState {
                made: made_so_far(log),
                accounts,
            },
            ended: 0,
        })
    }
}

/// Ends the misfits of a state if `ends_misfits`. Fails only if memory is refused.
fn starting(
    alloc: Global,
    config: &Config,
    mut taken: TakenState,
    ends_misfits: bool,
) -> Result<TakenState, AllocError>
    ensures { IfOk result (λ made. made ≡ saved.starting ends_misfits config.now taken) }
{
    if ends_misfits {
        taken.ended = end_misfits(alloc, config, &mut taken.state)?;
    }
    Ok(taken)
}

/// Law: without its misfits, whose entries end at its clock, a state has the bindings that fit, and
/// the configuration accepts it, if the clock is past a timer and the hold, as any present date is.
pub fn misfits_end()
    ensures { ending.MisfitsEnd }
{}

/// Law: a binding that had ended when it was saved is not live in the run that continues, whatever
/// its timers, and its number is held as long as under the earlier timers (RFC 6888, REQ-8).
pub fn ended_bindings_stay_ended()
    ensures { saved.EndedBindingsStayEnded }
{}

/// Adds a flow to the last binding if that is live, and returns whether it is live. Fails only if
/// memory is refused.
fn add_flow(list: &mut Vec<SavedBinding>, flow: Flow) -> Result<bool, AllocError>
    ensures added { result ≡ Ok true → said.IsAddedFlow flow list.old.items list.new.items }
    ensures none { result ≡ Ok false → said.LastIsNotLive list.old.items }
{
    match list.pop() {
        Some(SavedBinding::Live(mut binding, account)) => {
            binding.flows.push(flow)?;
            list.push(SavedBinding::Live(binding, account))?;
            Ok(true)
        }
        _ => Ok(false),
    }
}

impl LineCounts {
    /// Returns the numbers of bindings and of flows. Fails only if there are 2^64 flows or more.
    pub(crate) fn from_contents(saved: &StateFileContents) -> Result<LineCounts, AllocError>
        ensures { IfOk result (λ counts. counts ≡ texts.counts_of saved.now) }
    {
        let mut flows = 0_u64;
        for binding in &saved.bindings {
            let Some(count) = flows.checked_add(binding.flow_count()) else {
                return Err(AllocError);
            };
            flows = count;
        }
        Ok(LineCounts {
            bindings: saved.bindings.len() as u64,
            flows,
            entries: None,
        })
    }
}
