//! Dates some days apart.
ghost use Rattle.std.specs.Prelude.{◌≡◌};
ghost use Rattle.cookie_date.specs.Days.{IsDaysLater};
ghost use Rattle.cookie_date.specs.Moments.{days_later};

use jiff::civil::{Date, DateTime};

/// The same time of day `days` days later, or earlier if `days` is negative. Both are in UTC.
///
/// Past the ends of the calendar it is the first date-time, -9999-01-01 00:00:00, or the last one,
/// 9999-12-31 23:59:59.999999999.
/// Example: `week_after` in crates/cookie_examples/src/dates.rt.
pub fn days_after(moment: DateTime, days: i32) -> DateTime
    ensures later { IsDaysLater moment days result }
    ensures value { result ≡ days_later moment days }
{
    match moment.date().to_plain().checked_add(i64::from(days)) {
        Ok(date) => Date::from_plain(date).to_datetime(moment.time()),
        Err(_) if days < 0 => DateTime::MIN,
        Err(_) => DateTime::MAX,
    }
}
