//! How long a browser keeps the cookie of a saved session (RFC 6265 4.1.2.1, 4.1.2.2).
ghost use Rattle.std.specs.Prelude.{◌≡◌, ◌+◌, min};
ghost use Rattle.jiff.specs.Types.{DateTime as DateTimeValue};
ghost use Rattle.cookie.specs.declared.Expiration.TheVariants as expiration;
ghost use Rattle.cookie_session.specs.Seconds.{from_zero};
ghost use Rattle.cookie_c.specs.Lastings.{IsKept, end_second, lasting_of};
ghost use Rattle.cookie_c.specs.Numbers.{whole_seconds};
ghost use Rattle.cookie_c.specs.Sites.{IsAtSecond, last_second};

use super::time::{LAST_SECOND, time_at};
use crate::attributes::seconds;
use cookie::{Cookie, Expiration};

/// How long a browser keeps the cookie of a saved session.
#[derive(Clone, Copy)]
pub enum Lasting {
    /// As long as the session lives, by `Max-Age`.
    MaxAge,
    /// The same, by `Max-Age` and `Expires`: for clients that know only one.
    MaxAgeAndExpires,
    /// Until the browser closes: the cookie has neither.
    UntilClosed,
}

impl Lasting {
    // The one of this number, if it is one's. No later version changes the meaning of a number.
    pub(super) fn of(number: u32) -> Option<Lasting>
        ensures { result ≡ lasting_of number }
    {
        match number {
            0 => Some(Lasting::MaxAge),
            1 => Some(Lasting::MaxAgeAndExpires),
            2 => Some(Lasting::UntilClosed),
            _ => None,
        }
    }

    // The cookie of a session that is saved in this second, with the attributes that say so.
    pub(super) fn kept(self, mut cookie: Cookie<'static>, now: u64) -> Cookie<'static>
        ensures { IsKept self now cookie.entry.fields result.fields }
    {
        match self {
            Lasting::MaxAge => {}
            Lasting::MaxAgeAndExpires => {
                let end = expiry_of(&cookie, now);
                cookie.set_expires(end);
            }
            Lasting::UntilClosed => cookie.set_max_age(None),
        }
        cookie
    }
}

// The second in which the cookie's age is over, or the last one that a call takes.
fn expiry_of(cookie: &Cookie<'static>, now: u64) -> Expiration
    ensures { (moment : DateTimeValue)
        × IsAtSecond (end_second now cookie.now.fields) moment
        × (result ≡ expiration.DateTime moment) }
{
    let Some(moment) = time_at(end_of(now, age_of(cookie))) else {
        unreachable!();
    };
    Expiration::DateTime(moment)
}

// The whole seconds of the cookie's age.
fn age_of(cookie: &Cookie<'static>) -> u64
    ensures { result ≡ from_zero (whole_seconds cookie.now.fields.max_age) }
{
    let age = seconds(cookie.max_age());
    if age < 0 { 0 } else { age as u64 }
}

// So many seconds later, or the last second.
fn end_of(now: u64, age: u64) -> u64
    ensures { result ≡ min (now + age) last_second }
{
    match now.checked_add(age) {
        Some(end) => end.min(LAST_SECOND),
        None => LAST_SECOND,
    }
}
