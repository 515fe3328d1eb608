//! The entries of bindings, sorted by their external endpoints.

use napt_account::Entry;
use napt_wire::{Endpoint, Protocol};
use std::alloc::AllocError;

/// Entries sorted by their external endpoints. Entries of one endpoint retain their given order.
#[derive(Drop)]
pub struct SortedEntries {
    entries: Vec<Entry>,
}

impl SortedEntries {
    /// Sorts entries by their external endpoints. Fails only if memory is refused.
    pub fn from_entries(entries: Vec<Entry>) -> Result<SortedEntries, AllocError> {
        let mut entries = entries;
        // The sort is stable, so that entries of one endpoint retain their order.
        entries.sort_by_key(|entry| place_of(entry.binding.external))?;
        Ok(SortedEntries { entries })
    }

    /// Returns the entries of an external endpoint, of all protocols.
    pub fn at(&self, endpoint: Endpoint) -> &[Entry] {
        let place = place_of(endpoint);
        let begin = self
            .entries
            .partition_point(|entry| place_of(entry.binding.external) < place);
        let end = self
            .entries
            .partition_point(|entry| place_of(entry.binding.external) <= place);
        self.entries.get(begin..end).unwrap_or(&[])
    }

    /// Returns the first entry of an external endpoint and a protocol.
    pub fn entry_of(&self, protocol: Protocol, external: Endpoint) -> Option<&Entry> {
        self.at(external)
            .iter()
            .find(|entry| entry.binding.protocol == protocol)
    }
}

/// Returns the key by which endpoints are sorted.
fn place_of(endpoint: Endpoint) -> (u32, u16) {
    (endpoint.address, endpoint.number)
}
