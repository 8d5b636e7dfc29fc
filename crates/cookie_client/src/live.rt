//! Whether a client keeps a cookie (RFC 6265 5.3).
ghost use Rattle.std.specs.Prelude.{◌≡◌};
ghost use Rattle.cookie_client.specs.Live.{is_live, is_later};

use cookie::{Cookie, Expiration};
use jiff::civil::DateTime;

// Whether the expiry, without its fraction of a second, is later than `now`.
fn is_later(expires: Option<Expiration>, now: DateTime) -> bool
    ensures { result ≡ is_later expires now }
{
    match expires {
        Some(expiration) => match expiration.datetime() {
            Some(moment) => moment.to_plain().to_second() > now.to_plain().to_second(),
            None => true,
        },
        None => true,
    }
}

/// Whether the cookie is live at the time `now` in UTC, so that a client keeps it (RFC 6265 5.2.2, 5.3).
///
/// A cookie with an age is live if the age, in whole seconds, is above zero. A cookie without an age is live if its
/// expiry, in whole seconds of UTC, is later than `now`, if it ends with the session, or if it has no expiry.
pub fn is_live(cookie: &Cookie<'_>, now: DateTime) -> bool
    ensures { result ≡ is_live cookie.now.fields now }
{
    match cookie.max_age() {
        Some(age) => age.as_secs() > 0,
        None => is_later(cookie.expires(), now),
    }
}
