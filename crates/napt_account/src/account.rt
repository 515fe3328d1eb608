//! The part of a log that a state contains: an account for each binding that has an entry.

ghost use Rattle.std.specs.Prelude.{◌≡◌, ◌∷◌, [], Some, None, cond, nat_lt, IfOk, true};
ghost use Rattle.napt_account.specs.LogStarts as starts;

use crate::binding_end::dynamic_end;
use crate::log::{Entry, LogEntry};
use crate::open_entries::{EntryKey, external_key};
use napt_config::Config;
use napt_rules::State;
use napt_table::Row;
use std::alloc::{AllocError, Global};
use std::collections::HashSet;
use std::marker::Model;

/// The largest number of entries, and of packets of one entry, that a state may have: 2^61.
const MOST_SAVED: u64 = 2_305_843_009_213_693_952;

/// The account of a binding: its log entry without the row and the end. Times are in ns.
#[derive(Clone, Copy, Debug, PartialEq, Eq)]
pub struct Account {
    /// The number of the entry, from 1.
    pub number: u64,
    /// The time when the binding was made; 0 for a redirect of the first configuration.
    pub made: u64,
    /// The number of packets that went out through it.
    pub sent: u64,
    /// The number of packets that came in through it.
    pub received: u64,
    /// The time when a packet last went through it, in either direction.
    pub last: u64,
    /// The time when a packet last went out through it.
    pub last_sent: u64,
}

/// The part of a log that a state contains in addition to its bindings.
#[derive(Drop)]
pub struct SavedLogState {
    /// The number of entries that the log has so far.
    pub made: u64,
    /// The account of each binding of the state, in order, or `None` if it has no open entry.
    pub accounts: Vec<Option<Account>>,
}

impl Model for SavedLogState {
    ghost use Rattle.napt_account.specs.LogStarts.{SavedLogStateModel};

    ghost Value = { SavedLogStateModel };

    ghost view = { λ it. record { made = it.made; accounts = it.accounts.items } };
}

impl Account {
    /// Returns the account of an entry.
    pub fn from_entry(numbered: &LogEntry) -> Account
        ensures { result ≡ starts.account_of_entry numbered.now }
    {
        Account {
            number: numbered.number,
            made: numbered.entry.made,
            sent: numbered.entry.sent,
            received: numbered.entry.received,
            last: numbered.entry.last,
            last_sent: numbered.entry.last_sent,
        }
    }

    /// Returns the entry of a binding with this account and an end, in ns.
    pub(crate) fn to_entry(self, binding: Row, end: Option<u128>) -> LogEntry
        ensures { result ≡ starts.entry_by_account binding end self }
    {
        LogEntry {
            number: self.number,
            entry: Entry {
                binding,
                made: self.made,
                end,
                sent: self.sent,
                received: self.received,
                last: self.last,
                last_sent: self.last_sent,
            },
        }
    }

    /// Returns whether the number of the account is in 1..=`made`, the binding was made by `clock`
    /// (ns), and the counts of packets are small enough to be saved.
    fn is_within(self, made: u64, clock: u64) -> bool
        ensures { result ≡ starts.is_account made clock self }
    {
        (0 < self.number && self.number <= made)
            && (self.made <= clock && (self.sent <= MOST_SAVED && self.received <= MOST_SAVED))
    }
}

impl SavedLogState {
    /// Returns the value for the state of a run without a log: no entries and no accounts.
    pub fn none(alloc: Global) -> SavedLogState
        ensures { result ≡ starts.no_saved_log }
    {
        SavedLogState {
            made: 0,
            accounts: Vec::new(alloc),
        }
    }

    /// Returns whether a binding of the state other than a redirect is live, but no binding has an
    /// account.
    pub fn lacks_all(&self, config: &Config, state: &State) -> bool {
        let (timers, now) = (config.timers(), u128::from(state.clock));
        let mut lives = false;
        for binding in &state.list {
            lives = lives || !binding.row.fixed && now < dynamic_end(timers, binding);
        }
        lives && self.accounts.iter().all(|account| account.is_none())
    }

    /// Returns the account of the binding at a place of the state.
    pub(crate) fn account(&self, place: usize) -> Option<Account>
        ensures { result ≡ starts.account_in self.now.accounts place }
    {
        match self.accounts.get(place) {
            Some(account) => *account,
            None => None,
        }
    }

    /// Returns whether a run with a log can start with it: the entries and the packets of each are
    /// at most 2^61, each number is one of the log's, each binding was made by the clock, and no
    /// two share a number or an external endpoint. Takes linear time. Fails only if memory is
    /// refused.
    pub fn is_valid(&self, alloc: Global, state: &State) -> Result<bool, AllocError>
        ensures { IfOk result (λ is. is ≡ starts.is_saved_log_state state.now self.now) }
    {
        if self.made > MOST_SAVED {
            return Ok(false);
        }
        let mut numbers: HashSet<u64> = HashSet::new(alloc);
        let mut endpoints: HashSet<EntryKey> = HashSet::new(alloc);
        for place in 0..state.list.len() {
            let Some(account) = self.account(place) else {
                continue;
            };
            let key = external_key(state.list[place].row);
            if !account.is_within(self.made, state.clock)
                || numbers.contains(&account.number)
                || endpoints.contains(&key)
            {
                return Ok(false);
            }
            numbers.insert(account.number)?;
            endpoints.insert(key)?;
        }
        Ok(true)
    }
}
