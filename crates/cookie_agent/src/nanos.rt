//! Times in UTC as nanoseconds since 1970.
ghost use Rattle.std.specs.Prelude.{◌≡◌, pos};
ghost use Rattle.jiff.specs.Words.{IsDurationNanos, civil_nanos};
ghost use Rattle.cookie_browser.specs.ExpiryCode.{expiry_time};

use cookie_browser::Expiry;
use jiff::Timestamp;
use jiff::civil::DateTime;
use jiff::tz::Offset;

// 1970-01-01 00:00:00.
pub(crate) fn start_of_1970() -> DateTime
    ensures { civil_nanos result ≡ pos 0 }
{
    Offset::UTC.to_datetime(Timestamp::UNIX_EPOCH)
}

// The nanoseconds from 1970 to a time.
pub(crate) fn nanos_of(time: DateTime) -> i128
    ensures value { result ≡ civil_nanos time }
    ensures bound { IsDurationNanos result }
{
    time.duration_since(start_of_1970()).as_nanos()
}

// The nanoseconds from 1970 to an expiry that isn't the end of the session.
pub(crate) fn expiry_nanos(expiry: Expiry) -> Option<i128>
    ensures { result ≡ expiry_time expiry }
{
    match expiry {
        Expiry::Session => None,
        Expiry::At(time) => Some(nanos_of(time)),
        Expiry::After(time, age) => Some(nanos_of(time) + age.as_nanos()),
    }
}
