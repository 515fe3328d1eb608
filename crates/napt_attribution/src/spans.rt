//! Times as users write them. Each means the span of all moments that begin with its digits.

ghost use Rattle.std.specs.Prelude.{◌≡◌, ◌+◌, IfSome};

use jiff::Timestamp;
use napt_log_text::TimeSpan;

const SECOND: u64 = 1_000_000_000;

const MINUTE: u64 = 60 * SECOND;

const HOUR: u64 = 60 * MINUTE;

/// The greatest number that is read as seconds since 1970, in the year 5138. A greater number must
/// be milliseconds, microseconds or nanoseconds.
const LAST: u64 = 100_000_000_000;

/// The greatest number of decimals of a second.
const DECIMALS: usize = 9;

/// The number of digits of hours, minutes and seconds.
const CLOCK: usize = 6;

/// The reason why a text is not a time.
#[derive(Clone, Copy)]
pub enum TimeFault {
    /// The text is neither a number of seconds nor a date.
    Unread,
    /// The text has more seconds than `LAST`.
    TooLate,
}

impl TimeFault {
    /// Returns the message for a time that is refused, if `wanted` was expected.
    pub fn message(self, wanted: &'static str) -> &'static str {
        match self {
            TimeFault::Unread => wanted,
            TimeFault::TooLate => {
                "more than 100000000000 seconds since 1970: are these milliseconds, microseconds or nanoseconds?"
            }
        }
    }
}

/// Returns the span that a time means: seconds since 1970, or a date of RFC 3339.
pub fn parse_span(text: &str) -> Result<TimeSpan, TimeFault> {
    match span_of_seconds(text) {
        Some(span) if span.first / u128::from(SECOND) > u128::from(LAST) => Err(TimeFault::TooLate),
        Some(span) => Ok(span),
        None => span_of_date(text).ok_or(TimeFault::Unread),
    }
}

fn span_of_seconds(text: &str) -> Option<TimeSpan> {
    let Some((seconds, decimals)) = text.split_once('.') else {
        let first = u128::from(text.parse::<u64>().ok()?).checked_mul(u128::from(SECOND))?;
        return span_from(first, SECOND);
    };
    if decimals.is_empty() || !decimals.bytes().all(|it| it.is_ascii_digit()) {
        return None;
    }
    let unit = unit_of(decimals.len())?;
    let rest = decimals.parse::<u64>().ok()?.checked_mul(unit)?;
    let whole = u128::from(seconds.parse::<u64>().ok()?).checked_mul(u128::from(SECOND))?;
    span_from(whole.checked_add(u128::from(rest))?, unit)
}

fn span_of_date(text: &str) -> Option<TimeSpan> {
    let date = text.parse::<Timestamp>().ok()?;
    let unit = match clock_digits(text)? {
        2 => HOUR,
        4 => MINUTE,
        digits => unit_of(digits.checked_sub(CLOCK)?)?,
    };
    span_from(u128::try_from(date.as_nanosecond()).ok()?, unit)
}

/// Returns the span of one unit from a moment on.
fn span_from(first: u128, unit: u64) -> Option<TimeSpan>
    ensures { IfSome result (λ span. (span.first ≡ first) × (span.until ≡ first + unit)) }
{
    Some(TimeSpan {
        first,
        until: first.checked_add(u128::from(unit))?,
    })
}

/// Returns the value of the last decimal in ns, if a time in seconds has this number of decimals.
fn unit_of(decimals: usize) -> Option<u64> {
    10u64.checked_pow(DECIMALS.checked_sub(decimals)? as u32)
}

/// Returns the number of digits in the time of day of a date.
fn clock_digits(date: &str) -> Option<usize> {
    let separator = date
        .bytes()
        .position(|it| matches!(it, b'T' | b't' | b' '))?;
    let clock = date.bytes().skip(separator.checked_add(1)?);
    Some(
        clock
            .take_while(|it| it.is_ascii_digit() || matches!(*it, b':' | b'.' | b','))
            .filter(|it| it.is_ascii_digit())
            .count(),
    )
}
