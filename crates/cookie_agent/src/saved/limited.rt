//! How long a loaded cookie lasts.
ghost use Rattle.std.specs.Prelude.{◌≡◌, ◌*◌, pos};
ghost use Rattle.jiff.specs.Words.{civil_nanos, signed_nanos};
ghost use Rattle.cookie_browser.specs.ExpiryCode.{expiry_time};
ghost use Rattle.cookie_browser.specs.Received.{age_limit};
ghost use Rattle.cookie_browser.specs.Storage.{earlier_of};
ghost use Rattle.cookie_agent.specs.Storable as spec;

use crate::nanos::{expiry_nanos, nanos_of};
use cookie_browser::Expiry;
use jiff::SignedDuration;
use jiff::civil::DateTime;

// 400 days.
fn age_limit() -> SignedDuration
    ensures { signed_nanos result ≡ pos (age_limit * 1000000000) }
{
    SignedDuration::from_secs(34_560_000)
}

// Whether the expiry is at most 400 days after the time `now` (RFC 6265bis, Cookie Lifetime Limits).
fn is_limited(expiry: &Expiry, now: DateTime) -> bool
    ensures { result ≡ spec.is_limited now (expiry_time expiry.now) }
{
    match expiry_nanos(*expiry) {
        Some(time) => time <= nanos_of(now) + age_limit().as_nanos(),
        None => true,
    }
}

// The expiry, cut to that.
pub(super) fn limited(expiry: Expiry, now: DateTime) -> Expiry
    ensures { expiry_time result ≡ spec.limited now (expiry_time expiry) }
{
    if is_limited(&expiry, now) {
        expiry
    } else {
        Expiry::After(now, age_limit())
    }
}

// The earlier of the two times.
pub(super) fn earlier_of(time: DateTime, now: DateTime) -> DateTime
    ensures { civil_nanos result ≡ earlier_of (civil_nanos time) (civil_nanos now) }
{
    if time < now { time } else { now }
}
