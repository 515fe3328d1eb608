//! Days of the Gregorian calendar.
ghost use Rattle.std.specs.Prelude.{ℕ, ◌≡◌, ◌+◌, ◌++◌, ◌≤◌, ◌<◌, OnOk, string_bytes};
ghost use Rattle.napt_log_text.specs.Calendar as calendar;
ghost use Rattle.napt_log_text.specs.Times.{day_text};

use crate::digits::add_padded;
use std::alloc::AllocError;

/// A day of the Gregorian calendar.
#[derive(Clone, Copy, Debug, PartialEq, Eq)]
pub struct Date {
    pub year: u32,
    /// The month, from 1 for January.
    pub month: u32,
    /// The day of the month, from 1.
    pub day: u32,
}

impl Date {
    /// Returns the day that is this number of days after 1970-01-01.
    pub(crate) fn from_days(days: u32) -> Date
        requires { days < calendar.dated_days }
        ensures { result ≡ calendar.date_on days }
    {
        // No year has more than 366 days.
        let year = 1970 + days / 366;
        Date::from_year(year, days - days_before(year))
    }

    /// Returns the day that is this number of days after January 1st of a year, month by month.
    fn from_year(year: u32, days: u32) -> Date
        requires { (year < 10000) × (days < 7000) }
        ensures { (begin : ℕ) → calendar.date_on begin ≡ calendar.first_of_month year 1 →
            result ≡ calendar.date_on (begin + days) }
    {
        let mut year = year;
        let mut month = 1;
        let mut left = days;
        while month_length(year, month) <= left {
            left -= month_length(year, month);
            if month < 12 {
                month += 1;
            } else {
                year += 1;
                month = 1;
            }
        }
        let day = left + 1;
        Date { year, month, day }
    }

    /// Appends the day, such as `2026-11-26`. Fails only if memory is refused.
    pub(crate) fn add_to(self, text: &mut String) -> Result<(), AllocError>
        ensures { OnOk result (string_bytes text.new ≡ string_bytes text.old ++ day_text self) }
    {
        add_padded(text, self.year, 4)?;
        text.push_str("-")?;
        add_padded(text, self.month, 2)?;
        text.push_str("-")?;
        add_padded(text, self.day, 2)?;
        Ok(())
    }
}

/// Returns whether a year has a leap day.
fn is_leap(year: u32) -> bool
    ensures { result ≡ calendar.is_leap year }
{
    year % 4 == 0 && (year % 100 != 0 || year % 400 == 0)
}

/// Returns the number of days of a month.
fn month_length(year: u32, month: u32) -> u32
    ensures { result ≡ calendar.month_length year month }
{
    match month {
        2 if is_leap(year) => 29,
        2 => 28,
        4 | 6 | 9 | 11 => 30,
        _ => 31,
    }
}

/// Returns the number of days between January 1st of 1970 and that of a later year.
fn days_before(year: u32) -> u32
    requires { (1970 ≤ year) × (year < 10000) }
    ensures { result ≡ calendar.days_before year }
{
    365 * (year - 1970) + leap_days_through(year - 1) - leap_days_through(1969)
}

/// Returns the number of leap days in the years from 1 to a year.
fn leap_days_through(year: u32) -> u32
    ensures { result ≡ calendar.leap_days_through year }
{
    year / 4 - year / 100 + year / 400
}
