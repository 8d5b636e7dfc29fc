//! The text of a date-time, and the names of weekdays and months.
ghost use Rattle.std.specs.Prelude.{◌≡◌, ◌-◌, ◌<◌, Some};
ghost use Rattle.std.specs.Int.{IsInRange};
ghost use Rattle.cookie_date.specs.Names.{weekday_text, month_text};
ghost use Rattle.cookie_date.specs.Text.{clock_text, moment_text};

use jiff::civil::{DateTime, Time};
use std::fmt;

/// Prints a date-time in UTC as `Wed, 21 Oct 2015 07:28:00 GMT` (RFC 9110 5.6.7, `IMF-fixdate`).
///
/// The year has the digits that it needs, after a `-` if it is below 0. The fraction of a second is left out.
/// Example: `print` in crates/cookie_examples/src/dates.rt.
#[derive(Clone, Copy)]
pub struct DateText(pub DateTime);

/// The short name of a weekday, from 0 for Monday.
pub(crate) fn weekday_name(weekday: u8) -> &'static str
    requires { weekday < 7 }
    ensures { result.now ≡ weekday_text weekday }
{
    match weekday {
        0 => "Mon",
        1 => "Tue",
        2 => "Wed",
        3 => "Thu",
        4 => "Fri",
        5 => "Sat",
        _ => "Sun",
    }
}

/// The short name of a month, from 1 for January.
pub(crate) fn month_name(month: u8) -> &'static str
    requires { IsInRange 1 12 month }
    ensures { result.now ≡ month_text month }
{
    match month {
        1 => "Jan",
        2 => "Feb",
        3 => "Mar",
        4 => "Apr",
        5 => "May",
        6 => "Jun",
        7 => "Jul",
        8 => "Aug",
        9 => "Sep",
        10 => "Oct",
        11 => "Nov",
        _ => "Dec",
    }
}

/// A number below 100, printed in two digits.
#[derive(Clone, Copy)]
struct TwoDigits {
    number: u8,
    ghost below: { number < 100 },
}

impl fmt::Display for TwoDigits {
    ghost use Rattle.cookie_date.specs.Text.{two_digits};

    ghost output = { λ digits. Some (two_digits digits.number) };

    fn fmt<W: fmt::Write>(&self, f: &mut fmt::Formatter<W>) -> fmt::Result {
        let number = self.number;
        write!(f, "{number:02}")
    }
}

/// A time of day in whole seconds, as `07:28:00`.
#[derive(Clone, Copy)]
struct ClockText(Time);

impl fmt::Display for ClockText {
    ghost output = { λ clock. Some (clock_text clock.0.hour clock.0.minute clock.0.second) };

    fn fmt<W: fmt::Write>(&self, f: &mut fmt::Formatter<W>) -> fmt::Result {
        let hour = TwoDigits {
            number: self.0.hour() as u8,
        };
        let minute = TwoDigits {
            number: self.0.minute() as u8,
        };
        let second = TwoDigits {
            number: self.0.second() as u8,
        };
        write!(f, "{hour}:{minute}:{second}")
    }
}

impl fmt::Display for DateText {
    ghost output = { λ text. Some (moment_text text.0) };

    fn fmt<W: fmt::Write>(&self, f: &mut fmt::Formatter<W>) -> fmt::Result {
        let date = self.0.to_plain().date;
        let weekday = weekday_name(date.weekday().to_monday_zero_offset() as u8);
        let day = TwoDigits { number: date.day };
        let month = month_name(date.month);
        let year = date.year;
        let clock = ClockText(self.0.time());
        write!(f, "{weekday}, {day} {month} {year} {clock} GMT")
    }
}
