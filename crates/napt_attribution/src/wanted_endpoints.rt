//! The external addresses and endpoints that requests name.

ghost use Rattle.std.specs.{BTreeMap.values, Prelude.{◌≡◌, IfOk, filter}};
ghost use Rattle.napt_attribution.specs.RequestParties.{AreEndpointsAskedAbout, is_wanted};

use crate::requests::HolderRequest;
use napt_account::Entry;
use napt_wire::Endpoint;
use std::alloc::{AllocError, Global};
use std::collections::{BTreeMap, BTreeSet};

/// The endpoints that requests name, and the addresses of which they ask about every endpoint.
#[derive(Drop)]
pub struct WantedEndpoints {
    /// Addresses with a number, or without one if every number is wanted.
    parties: BTreeSet<(u32, Option<u16>)>,
}

impl WantedEndpoints {
    /// Returns the addresses and endpoints that the requests name.
    pub fn from_requests(
        alloc: Global,
        asked: &[HolderRequest],
    ) -> Result<WantedEndpoints, AllocError>
        ensures { IfOk result (λ wanted. AreEndpointsAskedAbout asked.now wanted) }
    {
        let mut parties = BTreeSet::new(alloc);
        for one in asked {
            let party = one.request.party;
            parties.insert((party.address, party.number))?;
        }
        Ok(WantedEndpoints { parties })
    }

    /// Returns whether a request asks about an external endpoint.
    pub fn contains(&self, external: Endpoint) -> bool
        ensures { result ≡ is_wanted self.now external }
    {
        let Endpoint { address, number } = external;
        self.parties.contains(&(address, None)) || self.parties.contains(&(address, Some(number)))
    }

    /// Returns the entries that requests ask about, in the order of their numbers.
    pub fn among(
        &self,
        alloc: Global,
        entries: &BTreeMap<u64, Entry>,
    ) -> Result<Vec<Entry>, AllocError>
        ensures { IfOk result (λ found. found.items
            ≡ filter (λ entry. is_wanted self.now entry.binding.external) (values entries.now)) }
    {
        entries
            .values()
            .filter(|entry| self.contains(entry.binding.external))
            .copied()
            .collect(alloc)
    }
}
