//! Records the legs of an input in the log.

ghost use Rattle.std.specs.Prelude.{◌≡◌, ◌+◌, ◌<◌, ◌^◌, ◌++◌, ℕ, [], ◌∷◌, List, true, false, filter, length, drop, OnOk, IfOk, IfSome, Ok, None};
ghost use Rattle.napt_account.specs.{BindingTallies.use_of, Effects.CanCome, Log.{LogModel, after_input, after_leg, shortages_by, shortages_in}, MadeEntries.made_entry, OpenEntries.OpenEntriesShow, LogParts.is_after};

use crate::binding_tally::{BindingTally, both_uses};
use crate::log::{LogEntry, Shortage, is_shortage};
use crate::open_entries::OpenEntries;
use napt_sequential::{Passage, Trace};
use std::alloc::{AllocError, Global};

/// The effects of an input's legs on the bindings.
#[derive(Drop)]
pub(crate) struct InputTally {
    pub(crate) used: BindingTally,
    /// The entries that the legs made, as they are after both legs.
    pub(crate) made: Vec<LogEntry>,
    pub(crate) refused: Vec<Shortage>,
}

impl OpenEntries {
    /// Records the legs of an input, and returns `None` if one of them is not possible (`CanCome`).
    #[inline(always)]
    pub(crate) fn enter(
        &mut self,
        alloc: Global,
        effects: Trace,
    ) -> Result<Option<InputTally>, AllocError>
        requires { (most : ℕ) × (log : LogModel) × OpenEntriesShow effects.now most log self.old
            × (most + 2 < 2 ^ 64) × (log.made + 2 < 2 ^ 64) }
        ensures shows { (most : ℕ) (log : LogModel) → OpenEntriesShow effects.now most log self.old →
            IfOk result (λ legs. IfSome legs (λ l.
            OpenEntriesShow effects.now (most + 2) (after_input log effects) self.new)) }
        ensures uses { (most : ℕ) (log : LogModel) → OpenEntriesShow effects.now most log self.old →
            IfOk result (λ legs. IfSome legs (λ l. l.used ≡ use_of log effects)) }
        ensures made { (most : ℕ) (log : LogModel) → OpenEntriesShow effects.now most log self.old →
            IfOk result (λ legs. IfSome legs (λ l. l.made.items
            ≡ filter (is_after log.made) (after_input log effects).entries)) }
        ensures refused { IfOk result (λ legs. IfSome legs (λ l.
            l.refused.items ≡ shortages_in effects)) }
        ensures come { (most : ℕ) (log : LogModel) → OpenEntriesShow effects.now most log self.old →
            IfOk result (λ legs. IfSome legs (λ l. CanCome effects.now log effects.first
            × CanCome effects.now (after_leg effects.now effects.first log) effects.second)) }
        ensures none { (most : ℕ) (log : LogModel) → OpenEntriesShow effects.now most log self.old →
            result ≡ Ok None → ¬ (CanCome effects.now log effects.first
            × CanCome effects.now (after_leg effects.now effects.first log) effects.second) }
    {
        if !self.can_come(effects.now, effects.first) {
            return Ok(None);
        }
        let first = self.record_leg(effects.now, effects.first)?;
        if !self.can_come(effects.now, effects.second) {
            return Ok(None);
        }
        let second = self.record_leg(effects.now, effects.second)?;
        let mut made = Vec::new(alloc);
        self.list_made(&mut made, effects.first)?;
        self.list_made(&mut made, effects.second)?;
        Ok(Some(InputTally {
            used: both_uses(first, second),
            made,
            refused: refused_by(alloc, effects)?,
        }))
    }

    /// Appends the entry that a leg made, in its present form, if the leg made one.
    #[inline(always)]
    fn list_made(&self, made: &mut Vec<LogEntry>, effect: Passage) -> Result<(), AllocError>
        ensures { (now most : ℕ) (log : LogModel) → OpenEntriesShow now most log self.now →
            OnOk result (made.new.items ≡ made.old.items ++ made_entry now effect log) }
    {
        let Passage::Made(through) = effect else {
            return Ok(());
        };
        let Some(open) = self.find(through.timed().row) else {
            return Ok(());
        };
        made.push(open.numbered)?;
        Ok(())
    }
}

/// Returns a shortage for each leg for whose packet no binding could be made.
#[inline(always)]
fn refused_by(alloc: Global, effects: Trace) -> Result<Vec<Shortage>, AllocError>
    ensures { IfOk result (λ refused. refused.items ≡ shortages_in effects) }
{
    let mut refused = Vec::new(alloc);
    list_refused(&mut refused, effects.now, effects.first)?;
    list_refused(&mut refused, effects.now, effects.second)?;
    Ok(refused)
}

/// Appends a shortage if no binding could be made for the packet.
#[inline(always)]
fn list_refused(refused: &mut Vec<Shortage>, now: u64, effect: Passage) -> Result<(), AllocError>
    ensures { OnOk result (refused.new.items ≡ refused.old.items ++ shortages_by now effect) }
{
    let Passage::Dropped(loss) = effect else {
        return Ok(());
    };
    if is_shortage(loss.cause) {
        refused.push(Shortage {
            at: now,
            cause: loss.cause,
            protocol: loss.protocol,
            host: loss.host,
        })?;
    }
    Ok(())
}
