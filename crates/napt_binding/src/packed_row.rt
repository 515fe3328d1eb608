//! A row as a binding stores it.

ghost use Rattle.std.specs.Prelude.{◌≡◌, ◌<◌, ◌^◌};

use napt_rules::Row;
use napt_wire::{Endpoint, Protocol};
use std::marker::Model;

/// A row in 16 bytes, without the padding of its endpoints. Contracts see a `Row`.
#[derive(Drop)]
pub struct PackedRow {
    inside_address: u32,
    external_address: u32,
    inside_number: u16,
    external_number: u16,
    protocol: Protocol,
    fixed: bool,
}

impl Model for PackedRow {
    ghost use Rattle.napt_rules.specs.declared.Row.{Row};

    ghost Value = { Row };

    ghost view = { λ kept. record {
      protocol = kept.protocol;
      inside = record { address = kept.inside_address; number = kept.inside_number };
      external = record { address = kept.external_address; number = kept.external_number };
      fixed = kept.fixed;
    } };
}

impl PackedRow {
    pub fn new(row: Row) -> PackedRow
        ensures { result ≡ row }
    {
        PackedRow {
            inside_address: row.inside.address,
            external_address: row.external.address,
            inside_number: row.inside.number,
            external_number: row.external.number,
            protocol: row.protocol,
            fixed: row.fixed,
        }
    }

    pub fn protocol(&self) -> Protocol
        ensures { result ≡ self.now.protocol }
    {
        self.protocol
    }

    pub fn inside(&self) -> Endpoint
        ensures { result ≡ self.now.inside }
    {
        Endpoint {
            address: self.inside_address,
            number: self.inside_number,
        }
    }

    pub fn external_number(&self) -> u16
        ensures { result ≡ self.now.external.number }
    {
        self.external_number
    }

    /// Returns whether the row is a static redirect.
    pub fn is_fixed(&self) -> bool
        ensures { result ≡ self.now.fixed }
    {
        self.fixed
    }

    pub fn row(&self) -> Row
        ensures row { result ≡ self.now }
        ensures small { result.external.number < 2 ^ 16 }
    {
        Row {
            protocol: self.protocol,
            inside: self.inside(),
            external: Endpoint {
                address: self.external_address,
                number: self.external_number(),
            },
            fixed: self.fixed,
        }
    }
}
