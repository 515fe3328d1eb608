//! Appends numbers and spaces to a text, without `write!`, which takes most of the time of many lines.

use itoa::Buffer;
pub use napt_log_text::{add_address, add_endpoint, add_number};
use std::alloc::AllocError;

/// The spaces of the widest column, and the bar that ends a column.
const SPACES_AND_BAR: &str = "                                                   | ";

/// The number of spaces before the bar.
const SPACES: usize = 50;

/// Appends a number in decimal, padded on the left to at least this width.
pub fn add_number_within(text: &mut String, number: u64, wide: usize) -> Result<(), AllocError> {
    let mut digits = Buffer::new();
    let shown = digits.format(number);
    add_spaces(text, wide.saturating_sub(shown.len()))?;
    text.push_str(shown)
}

/// Appends a time in ns as seconds with six decimals, padded to this width before the point.
pub fn add_seconds(text: &mut String, time: u64, wide: usize) -> Result<(), AllocError> {
    add_number_within(text, time / 1_000_000_000, wide)?;
    // The leading 1 preserves the leading zeros of the microseconds.
    let mut digits = Buffer::new();
    let micros = digits.format(1_000_000 + time % 1_000_000_000 / 1000);
    text.push_str(".")?;
    text.push_str(micros.strip_prefix('1').unwrap_or(micros))
}

/// Appends this number of spaces, at most the width of the widest column.
pub fn add_spaces(text: &mut String, many: usize) -> Result<(), AllocError> {
    if many == 0 {
        return Ok(());
    }
    text.push_str(SPACES_AND_BAR.get(..many.min(SPACES)).unwrap_or(""))
}

/// Ends the column that starts at `begin`: pads it with spaces to this width, at most that of the
/// widest column, and appends the bar.
pub fn end_column(text: &mut String, begin: usize, wide: usize) -> Result<(), AllocError> {
    let many = wide.saturating_sub(text.len().saturating_sub(begin));
    text.push_str(
        SPACES_AND_BAR
            .get(SPACES.saturating_sub(many)..)
            .unwrap_or(SPACES_AND_BAR),
    )
}
