//! A binding that a leg used.

ghost use Rattle.std.specs.Prelude.{◌≡◌};

use napt_table::{Row, TimedRow};
use napt_wire::{Endpoint, Protocol};
use std::marker::Model;

/// A binding that a leg used, and the time at which it expires. It takes half the bytes of a
/// `TimedRow`, as which contracts see it.
#[derive(Clone, Copy, Debug, PartialEq, Eq)]
pub struct PackedTimedRow {
    /// The time at which it expires, in ns, divided by 2^64; `low` is the remainder.
    high: u64,
    low: u64,
    inside_address: u32,
    external_address: u32,
    inside_number: u16,
    external_number: u16,
    protocol: Protocol,
    fixed: bool,
    /// `true` if it never expires. Both parts of the time are then 0.
    is_endless: bool,
}

impl Model for PackedTimedRow {
    ghost use Rattle.std.specs.Prelude.{◌≡◌, ◌+◌, ◌*◌, ◌/◌, ◌%◌, ◌^◌, ◌<◌, true, cond, not, None, Some, is_some, unwrap_or};
    ghost use Rattle.napt_table.specs.declared.TimedRow.{TimedRow};

    ghost Value = { TimedRow };

    ghost view = { λ it. record {
      row = record {
        protocol = it.protocol;
        inside = record { address = it.inside_address; number = it.inside_number };
        external = record { address = it.external_address; number = it.external_number };
        fixed = it.fixed;
      };
      end = cond it.is_endless None (Some (it.high * 2 ^ 64 + it.low));
    } };

    ghost invariant = { λ it. (it.low < 2 ^ 64)
        × (it.is_endless ≡ true → (it.high ≡ 0) × (it.low ≡ 0)) };

    ghost inverse = { λ timed. record {
      high = unwrap_or timed.end 0 / 2 ^ 64;
      low = unwrap_or timed.end 0 % 2 ^ 64;
      inside_address = timed.row.inside.address;
      external_address = timed.row.external.address;
      inside_number = timed.row.inside.number;
      external_number = timed.row.external.number;
      protocol = timed.row.protocol;
      fixed = timed.row.fixed;
      is_endless = not (is_some timed.end);
    } };
}

/// The unit of `high`, 2^64 ns.
const UNIT: u128 = 18_446_744_073_709_551_616;

impl PackedTimedRow {
    /// Packs a row and its expiry, without loss.
    #[inline(always)]
    pub(crate) fn from_row(timed: TimedRow) -> PackedTimedRow
        ensures { result ≡ timed }
    {
        let TimedRow { row, end } = timed;
        let time = end.unwrap_or(0);
        PackedTimedRow {
            high: (time / UNIT) as u64,
            low: (time % UNIT) as u64,
            inside_address: row.inside.address,
            external_address: row.external.address,
            inside_number: row.inside.number,
            external_number: row.external.number,
            protocol: row.protocol,
            fixed: row.fixed,
            is_endless: end.is_none(),
        }
    }

    /// Returns the row and the time at which the binding expires.
    #[inline(always)]
    pub fn timed(self) -> TimedRow
        ensures { result ≡ self }
    {
        let row = Row {
            protocol: self.protocol,
            inside: Endpoint {
                address: self.inside_address,
                number: self.inside_number,
            },
            external: Endpoint {
                address: self.external_address,
                number: self.external_number,
            },
            fixed: self.fixed,
        };
        let time = u128::from(self.high) * UNIT + u128::from(self.low);
        let end = if self.is_endless { None } else { Some(time) };
        TimedRow { row, end }
    }
}
