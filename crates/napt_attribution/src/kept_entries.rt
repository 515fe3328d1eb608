//! The entries of a saved log that are retained while its rows are read: the entries without an
//! end, and the entries that requests ask about.

ghost use Rattle.std.specs.Prelude.{◌≡◌, ◌++◌, ◌∷◌, [], ℕ, IfOk, IfSome, IsSome, List, None, OnOk, Some, map};
ghost use Rattle.napt_account.specs.{LogParts.NumbersAscend, declared.log.LogEntry.{LogEntry as Listed}};
ghost use Rattle.napt_attribution.specs.SavedLogs as logs;
ghost use Rattle.napt_attribution.specs.declared.requests.HolderRequest.{HolderRequest as Asked};

use crate::requests::HolderRequest;
use crate::wanted_endpoints::WantedEndpoints;
use napt_account::Entry;
use std::alloc::{AllocError, AllocFailed, Global};
use std::collections::BTreeMap;

/// Entries by the numbers of their bindings, without counts and last uses.
#[derive(Drop)]
pub struct KeptEntries {
    wanted: WantedEndpoints,
    /// The entries without an end.
    unended: BTreeMap<u64, Entry>,
    /// The entries with an end that requests ask about.
    ended: BTreeMap<u64, Entry>,
}

impl KeptEntries {
    /// Returns the value before the first row.
    pub fn new(alloc: Global, asked: &[HolderRequest]) -> Result<KeptEntries, AllocError>
        ensures { IfOk result (λ kept. logs.TracksEntries asked.now kept []) }
    {
        Ok(KeptEntries {
            wanted: WantedEndpoints::from_requests(alloc, asked)?,
            unended: BTreeMap::new(alloc),
            ended: BTreeMap::new(alloc),
        })
    }

    /// Adds an entry without an end, whose number is greater than those before.
    pub fn insert(&mut self, number: u64, entry: Entry) -> Result<(), AllocFailed<(u64, Entry)>>
        ensures { (asked : List Asked) (entries : List Listed) →
            logs.TracksEntries asked self.old entries →
            entry.end ≡ None →
            NumbersAscend 1 (entries ++ record { number = number; entry = entry } ∷ []) →
            OnOk result (logs.TracksEntries asked self.new
            (entries ++ record { number = number; entry = entry } ∷ [])) }
    {
        self.unended.insert(number, entry)?;
        Ok(())
    }

    /// Returns the entry of a number, if it has no end.
    pub fn get(&self, number: u64) -> Option<&Entry>
        ensures { (asked : List Asked) (entries : List Listed) →
            logs.TracksEntries asked self.now entries →
            IfSome result (λ entry. logs.entry_if logs.has_no_end (logs.entry_of entries number)
            ≡ Some entry.now) }
    {
        self.unended.get(&number)
    }

    /// Returns the entries without an end, by their numbers.
    pub fn unended(&self) -> &BTreeMap<u64, Entry> {
        &self.unended
    }

    /// Ends the entry of a number, if it has no end.
    pub fn close(&mut self, number: u64, end: u128) -> Result<(), AllocFailed<(u64, Entry)>>
        ensures { (asked : List Asked) (entries : List Listed) →
            logs.TracksEntries asked self.old entries →
            IsSome (logs.entry_if logs.has_no_end (logs.entry_of entries number)) →
            OnOk result (logs.TracksEntries asked self.new
            (map (logs.entry_with_end number (Some end)) entries)) }
    {
        if let Some(mut entry) = self.unended.remove(&number) {
            if self.wanted.contains(entry.binding.external) {
                entry.end = Some(end);
                self.ended.insert(number, entry)?;
            }
        }
        Ok(())
    }

    /// Returns the entries that requests ask about, in the order of their numbers.
    pub fn into_entries(self, alloc: Global) -> Result<Vec<Entry>, AllocError>
        ensures { (asked : List Asked) (entries : List Listed) →
            logs.TracksEntries asked self entries →
            IfOk result (λ found. found.items ≡ logs.asked_entries asked entries) }
    {
        let KeptEntries {
            wanted,
            mut unended,
            mut ended,
        } = self;
        ended.append(&mut unended)?;
        wanted.among(alloc, &ended)
    }
}
