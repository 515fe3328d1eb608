//! Times as texts.
ghost use Rattle.std.specs.Prelude.{◌≡◌, ◌++◌, ◌/◌, ◌%◌, ◌<◌, OnOk, decimal, string_bytes};
ghost use Rattle.napt_log_text.specs.Times as times;

use crate::date::Date;
use crate::digits::add_padded;
use itoa::Buffer;
use std::alloc::AllocError;

const SECOND: u64 = 1_000_000_000;

const MINUTES: u32 = 60;

/// The first time of the year 10000, in ns. RFC 3339 has years of four digits.
const UNDATED: u128 = 253_402_300_800_000_000_000;

/// A time, in ns since 1970-01-01 UTC.
#[derive(Clone, Copy, Debug, PartialEq, Eq)]
pub struct TimeStamp(pub u128);

impl TimeStamp {
    /// Returns the whole seconds.
    fn seconds(self) -> u128
        ensures { result ≡ self.0 / times.ns_per_log_second }
    {
        match u64::try_from(self.0) {
            Ok(time) => u128::from(time / SECOND),
            Err(_) => self.0 / u128::from(SECOND),
        }
    }

    /// Returns the number of ns after the last whole second.
    fn subsec_nanos(self) -> u32
        ensures { result ≡ self.0 % times.ns_per_log_second }
    {
        match u64::try_from(self.0) {
            Ok(time) => (time % SECOND) as u32,
            Err(_) => (self.0 % u128::from(SECOND)) as u32,
        }
    }

    /// Appends the time in seconds, with nine decimals. Fails only if memory is refused.
    pub fn add_seconds(self, text: &mut String) -> Result<(), AllocError>
        ensures { OnOk result (string_bytes text.new
            ≡ string_bytes text.old ++ times.seconds_text self.0) }
    {
        let mut digits = Buffer::new();
        text.push_str(digits.format(self.seconds()))?;
        text.push_str(".")?;
        add_padded(text, self.subsec_nanos(), 9)?;
        Ok(())
    }

    /// Returns whether the year has four digits.
    fn has_date(self) -> bool
        ensures { result ≡ times.has_date self.0 }
    {
        self.0 < UNDATED
    }

    /// Appends the date and the time of day.
    fn add_known_date(self, text: &mut String) -> Result<(), AllocError>
        requires { self.0 < 253402300800000000000 }
        ensures { OnOk result (string_bytes text.new
            ≡ string_bytes text.old ++ times.date_text self.0) }
    {
        let seconds = self.seconds() as u64;
        let date = Date::from_days((seconds / 86_400) as u32);
        date.add_to(text)?;
        text.push_str("T")?;
        add_clock(text, (seconds % 86_400) as u32)?;
        text.push_str(".")?;
        add_padded(text, self.subsec_nanos(), 9)?;
        text.push_str("Z")?;
        Ok(())
    }

    /// Appends the date and the time of day in UTC (RFC 3339), such as
    /// `2026-11-26T10:02:07.000000001Z`, or nothing from the year 10000 on. Fails only if memory is
    /// refused.
    pub fn add_date(self, text: &mut String) -> Result<(), AllocError>
        ensures { OnOk result (string_bytes text.new
            ≡ string_bytes text.old ++ times.date_if_any self.0) }
    {
        if !self.has_date() {
            return Ok(());
        }
        self.add_known_date(text)
    }

    /// Appends the time in seconds, and its date in brackets if it has one, such as `1.000000000
    /// (1970-01-01T00:00:01.000000000Z)`. Fails only if memory is refused.
    #[tactic(auto, unfolding(crate::specs::Times::moment_text))]
    pub fn add_to(self, text: &mut String) -> Result<(), AllocError>
        ensures { OnOk result (string_bytes text.new
            ≡ string_bytes text.old ++ times.moment_text self.0) }
    {
        self.add_seconds(text)?;
        if !self.has_date() {
            return Ok(());
        }
        text.push_str(" (")?;
        self.add_known_date(text)?;
        text.push_str(")")?;
        Ok(())
    }
}

/// Appends the second of a day as hours, minutes and seconds.
fn add_clock(text: &mut String, second: u32) -> Result<(), AllocError>
    ensures { OnOk result (string_bytes text.new
        ≡ string_bytes text.old ++ times.clock_text second) }
{
    add_padded(text, second / 3600, 2)?;
    text.push_str(":")?;
    add_padded(text, second / MINUTES % MINUTES, 2)?;
    text.push_str(":")?;
    add_padded(text, second % MINUTES, 2)?;
    Ok(())
}
