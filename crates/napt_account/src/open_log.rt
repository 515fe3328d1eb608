//! The open part of a log, from which its next run continues it.

ghost use Rattle.std.specs.Prelude.{◌≡◌, ℕ, [], IfOk};
ghost use Rattle.std.specs.HashMap as hash;
ghost use Rattle.napt_account.specs.{LogParts.kept_at, LogStarts.saved_log_state, OpenEntries.{entry_key, external_eq}};

use crate::account::{Account, SavedLogState};
use crate::log::LogEntry;
use crate::open_entries::{EntryKey, external_key};
use napt_rules::State;
use napt_table::Row;
use std::alloc::{AllocError, Global};
use std::collections::HashMap;
use std::marker::Model;

/// The open entries of a log at the end of a run, with which the next run continues the log.
#[derive(Drop)]
pub struct OpenLog {
    /// The number of all entries that the log has so far.
    pub made: u64,
    /// The entries that have not ended by the clock of the state, with their numbers, oldest first.
    pub entries: Vec<LogEntry>,
}

impl Model for OpenLog {
    ghost use Rattle.std.specs.Prelude.{[]};
    ghost use Rattle.napt_account.specs.Log.{LogModel};

    ghost Value = { LogModel };

    ghost view = { λ it. record { made = it.made; entries = it.entries.items; shortages = [] } };
}

impl OpenLog {
    /// Returns the open log of a log without entries.
    pub fn none(alloc: Global) -> OpenLog
        ensures { result ≡ record { made = 0; entries = []; shortages = [] } }
    {
        OpenLog {
            made: 0,
            entries: Vec::new(alloc),
        }
    }

    /// Returns the part of the log that the state after a run contains: the account of each binding
    /// that has an entry. Takes linear time. Fails only if memory is refused.
    pub fn saved(&self, alloc: Global, state: &State) -> Result<SavedLogState, AllocError>
        ensures { IfOk result (λ saved. (now : ℕ) → kept_at now self.now ≡ self.now →
            saved ≡ saved_log_state now self.now state.now) }
    {
        let mut by_key: HashMap<EntryKey, Account> = HashMap::new(alloc);
        for numbered in &self.entries {
            let key = external_key(numbered.entry.binding);
            if !by_key.contains_key(&key) {
                by_key.insert(key, Account::from_entry(numbered))?;
            }
        }
        let mut accounts = Vec::new(alloc);
        for binding in &state.list {
            accounts.push(account_under(&by_key, binding.row))?;
        }
        Ok(SavedLogState {
            made: self.made,
            accounts,
        })
    }
}

/// Returns the account for the external endpoint of a row, if there is one.
fn account_under(by_key: &HashMap<EntryKey, Account>, row: Row) -> Option<Account>
    ensures { result ≡ hash.get external_eq by_key.now (entry_key row) }
{
    by_key.get(&external_key(row)).copied()
}
