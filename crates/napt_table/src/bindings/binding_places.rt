//! Hints at the index where the binding of each external number is stored.

use crate::bindings::keys::ExternalNumberKey;
use crate::rows::protocol_rank;
use indexmap::IndexMap;
use napt_binding::TableBinding;
use napt_wire::Protocol;
use std::alloc::{AllocError, Global};

/// The number of external numbers of a protocol.
const NUMBERS: usize = 65_536;

/// The index where the binding of each external number was last stored, by protocol. Callers check
/// this hint, and contracts do not mention it. An index of 65,536 or more is not recorded.
#[derive(Drop)]
pub(crate) struct BindingPlaces {
    noted: [Vec<u16>; 3],
}

impl BindingPlaces {
    /// Creates an empty set of hints, which takes no memory.
    pub(crate) fn new(alloc: Global) -> BindingPlaces {
        BindingPlaces {
            noted: [Vec::new(alloc), Vec::new(alloc), Vec::new(alloc)],
        }
    }

    /// Reserves the 128 KiB of a protocol's hints, if it has none. Fails only if memory is refused.
    pub(crate) fn reserve(&mut self, protocol: Protocol) -> Result<(), AllocError> {
        self.noted[protocol_rank(protocol) as usize].resize(NUMBERS, 0)
    }

    /// Returns the index that was recorded for the number, or any index if there is none.
    #[inline(always)]
    pub(crate) fn noted(&self, key: ExternalNumberKey) -> usize {
        match self.noted[protocol_rank(key.protocol) as usize].get(usize::from(key.number)) {
            Some(place) => usize::from(*place),
            None => 0,
        }
    }

    /// Records the index `place` for the binding that is stored there, if there is one.
    pub(crate) fn note(&mut self, held: &IndexMap<ExternalNumberKey, TableBinding>, place: usize) {
        let (Some((key, _)), Ok(place)) = (held.get_index(place), u16::try_from(place)) else {
            return;
        };
        let places = &mut self.noted[protocol_rank(key.protocol) as usize];
        if let Some(noted) = places.get_mut(usize::from(key.number)) {
            *noted = place;
        }
    }
}
