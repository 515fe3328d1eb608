//! The keys by which the bindings of one external address are found.

ghost use Rattle.std.specs.Prelude.{◌≡◌, ◌<◌, ◌^◌};
ghost use Rattle.napt_table.specs.Keys.{key_of, inside_key};

use napt_binding::TableBinding;
use napt_wire::{Endpoint, Protocol};

/// A protocol and an external number.
#[derive(Clone, Copy, PartialEq, Eq, PartialOrd, Ord, Hash)]
pub(crate) struct ExternalNumberKey {
    pub(crate) number: u16,
    pub(crate) protocol: Protocol,
}

/// A protocol and an inside endpoint.
#[derive(Clone, Copy, PartialEq, Eq, Hash)]
pub(crate) struct InsideKey {
    address: u32,
    number: u16,
    protocol: Protocol,
}

/// Returns the key of an inside endpoint.
pub(crate) fn inside_key(protocol: Protocol, inside: Endpoint) -> InsideKey
    ensures { result ≡ inside_key protocol inside }
{
    InsideKey {
        address: inside.address,
        number: inside.number,
        protocol,
    }
}

/// Returns the key of a binding's external number.
pub(crate) fn key_of(binding: &TableBinding) -> ExternalNumberKey
    ensures value { result ≡ key_of binding.now }
    ensures small { result.number < 2 ^ 16 }
{
    ExternalNumberKey {
        number: binding.row.external_number(),
        protocol: binding.row.protocol(),
    }
}
