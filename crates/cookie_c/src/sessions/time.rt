//! A time in seconds.
ghost use Rattle.std.specs.Prelude.{◌<◌, ◌≤◌, MatchOption};
ghost use Rattle.cookie_c.specs.Sites.{IsAtSecond, last_second};

use jiff::Timestamp;
use jiff::civil::DateTime;
use jiff::tz::Offset;

pub(super) const LAST_SECOND: u64 = 253402207200;

// The time in UTC that many seconds after 1970-01-01 00:00:00, if it is a date.
pub(crate) fn time_at(second: u64) -> Option<DateTime>
    ensures { MatchOption result (last_second < second)
        (λ time. (second ≤ last_second) × IsAtSecond second time) }
{
    if second > LAST_SECOND {
        return None;
    }
    match Timestamp::from_second(second as i64) {
        Ok(timestamp) => Some(Offset::UTC.to_datetime(timestamp)),
        Err(_) => unreachable!(),
    }
}
