//! The widths of the columns.

use napt_sequential::Input;

/// The least widths of the column of a packet as it arrived, and of the column of its outcome.
pub const BEFORE: usize = 50;

pub const HAPPENED: usize = 21;

/// The widths of the first columns: those of the greatest numbers so far.
#[derive(Clone, Copy, Default)]
pub struct ColumnWidths {
    number: u64,
    /// The greatest time so far, in whole seconds.
    seconds: u64,
}

impl ColumnWidths {
    /// Widens the columns for the next packet, by its number and its time.
    pub fn widen_for(&mut self, number: u64, input: &Input) {
        self.number = self.number.max(number);
        self.seconds = self.seconds.max(input.clock / 1_000_000_000);
    }

    /// Returns the width of the column of packet numbers.
    pub fn number(self) -> usize {
        digits(self.number)
    }

    /// Returns the width of the column of times, before the point.
    pub fn seconds(self) -> usize {
        digits(self.seconds)
    }
}

/// Returns the number of decimal digits of a number.
pub fn digits(number: u64) -> usize {
    (number.checked_ilog10().unwrap_or(0) as usize).saturating_add(1)
}
