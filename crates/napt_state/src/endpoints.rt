//! The endpoints that bindings have.
ghost use Rattle.std.specs.Prelude.{◌≡◌, ◌||◌, false, OnOk};
ghost use Rattle.napt_rules.specs.Misfits.{clashes};
ghost use Rattle.napt_rules.specs.declared.Row.{Row as Bound};
ghost use Rattle.napt_state.specs.StateReaders.{state_external_key, state_inside_key, clash};

use napt_rules::Row;
use napt_wire::Protocol;
use std::alloc::{AllocError, Global};
use std::collections::HashSet;

/// An endpoint and its protocol.
#[derive(Clone, Copy, PartialEq, Eq, Hash, Drop)]
pub(crate) struct EndpointKey {
    address: u32,
    number: u16,
    protocol: Protocol,
}

/// The endpoints of bindings.
#[derive(Drop)]
pub(crate) struct Endpoints {
    external: HashSet<EndpointKey>,
    inside: HashSet<EndpointKey>,
}

pub(crate) fn external_key(row: &Row) -> EndpointKey
    ensures { result ≡ state_external_key row.now }
{
    EndpointKey {
        address: row.external.address,
        number: row.external.number,
        protocol: row.protocol,
    }
}

fn inside_key(row: &Row) -> EndpointKey
    ensures { result ≡ state_inside_key row.now }
{
    EndpointKey {
        address: row.inside.address,
        number: row.inside.number,
        protocol: row.protocol,
    }
}

impl Endpoints {
    /// Returns an empty set of endpoints.
    pub(crate) fn new(alloc: Global) -> Endpoints
        ensures { (row : Bound) → clash result row ≡ false }
    {
        Endpoints {
            external: HashSet::new(alloc),
            inside: HashSet::new(alloc),
        }
    }

    /// Returns whether one of the bindings has an endpoint of the row.
    pub(crate) fn clash(&self, row: &Row) -> bool
        ensures { result ≡ clash self.now row.now }
    {
        self.external.contains(&external_key(row)) || self.inside.contains(&inside_key(row))
    }

    /// Adds the endpoints of one more binding. Fails only if memory is refused.
    pub(crate) fn insert(&mut self, row: &Row) -> Result<(), AllocError>
        ensures { OnOk result ((other : Bound) →
            clash self.new other ≡ (clashes other row.now || clash self.old other)) }
    {
        self.external.insert(external_key(row))?;
        self.inside.insert(inside_key(row))?;
        Ok(())
    }
}
