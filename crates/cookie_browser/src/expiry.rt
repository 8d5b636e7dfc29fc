//! When a stored cookie expires (RFC 6265bis, Storage Model).
ghost use Rattle.std.specs.Prelude.{◌≡◌, ◌*◌, pos, Some, None};
ghost use Rattle.jiff.specs.Words.{signed_nanos};
ghost use Rattle.cookie_browser.specs.ExpiryCode.{expiry_time};
ghost use Rattle.cookie_browser.specs.Received.{age_limit};
ghost use Rattle.cookie_browser.specs.Storage.{kept_until, lasts};

use crate::attributes::{AGE_LIMIT, ReceivedAttributes};
use jiff::SignedDuration;
use jiff::civil::DateTime;

/// When a stored cookie expires, in UTC.
#[derive(Clone, Copy)]
pub enum Expiry {
    /// At the end of the session.
    Session,
    /// At a time.
    At(DateTime),
    /// This long after the time at which the cookie was stored. The sum may be outside the calendar.
    After(DateTime, SignedDuration),
}

fn age_limit() -> SignedDuration
    ensures { signed_nanos result ≡ pos (age_limit * 1000000000) }
{
    SignedDuration::from_secs(i64::from(AGE_LIMIT))
}

fn limited(moment: DateTime, now: DateTime) -> Expiry
    ensures { expiry_time result ≡ kept_until now None (Some moment) }
{
    let limit = age_limit();
    if moment.duration_since(now) < limit {
        Expiry::At(moment)
    } else {
        Expiry::After(now, limit)
    }
}

impl Expiry {
    /// When a cookie with these attributes expires that is stored at the time `now`, which is in UTC. `Max-Age` goes
    /// before `Expires`, and neither is more than 400 days off (RFC 6265bis, Cookie Lifetime Limits).
    pub fn of(attributes: &ReceivedAttributes<'_>, now: DateTime) -> Expiry
        ensures { expiry_time result
            ≡ kept_until now attributes.now.max_age attributes.now.expires }
    {
        if let Some(seconds) = attributes.max_age {
            return Expiry::After(now, SignedDuration::from_secs(i64::from(seconds)));
        }
        match attributes.expires {
            Some(moment) => limited(moment, now),
            None => Expiry::Session,
        }
    }

    /// Whether it is after the time `now`, which is in UTC. The end of the session always is.
    pub fn lasts(self, now: DateTime) -> bool
        ensures { result ≡ lasts (expiry_time self) now }
    {
        match self {
            Expiry::Session => true,
            Expiry::At(moment) => now < moment,
            Expiry::After(moment, age) => now.duration_since(moment) < age,
        }
    }
}
