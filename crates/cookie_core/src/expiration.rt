//! The expiry of a cookie (RFC 6265 5.3).
ghost use Rattle.std.specs.Prelude.{◌≡◌, ◌↔◌, IsTrue, IsSomeAnd, IfSome, None, MatchOption, is_some};
ghost use Rattle.cookie_core.specs.Expiration.{datetime_of, expiration_of, last_expiry, capped_expiry};

use jiff::civil::{DateTime, datetime};

/// When a cookie expires (RFC 6265 5.3).
#[derive(Clone, Copy, Debug, PartialEq, Eq)]
pub enum Expiration {
    /// At this date and time in UTC.
    DateTime(DateTime),
    /// At the end of the client's session.
    Session,
}

// The last expiry that a cookie keeps.
fn last_expiry() -> DateTime
    ensures { result ≡ last_expiry }
{
    datetime(9999, 12, 31, 23, 59, 59, 999_999_000)
}

impl Expiration {
    /// The expiry at this date and time in UTC, or at the end of the session for `None`.
    pub fn from_option(moment: Option<DateTime>) -> Expiration
        ensures { result ≡ expiration_of moment }
    {
        match moment {
            Some(moment) => Expiration::DateTime(moment),
            None => Expiration::Session,
        }
    }

    /// Whether it is a date and time.
    pub fn is_datetime(&self) -> bool
        ensures { result ≡ is_some (datetime_of self.now) }
    {
        matches!(self, Expiration::DateTime(_))
    }

    /// Whether it is the end of the session.
    pub fn is_session(&self) -> bool
        ensures { IsTrue result ↔ (datetime_of self.now ≡ None) }
    {
        matches!(self, Expiration::Session)
    }

    /// The date and time in UTC, or `None` for the end of the session.
    pub fn datetime(self) -> Option<DateTime>
        ensures { result ≡ datetime_of self }
    {
        match self {
            Expiration::DateTime(moment) => Some(moment),
            Expiration::Session => None,
        }
    }

    /// Applies the function to the date and time, which is in UTC. The end of the session stays.
    ///
    /// The caller makes sure that the function can be called on the date and time.
    pub fn map<F: FnOnce(DateTime) -> DateTime + Drop>(self, f: F) -> Expiration
        requires { IfSome (datetime_of self) (F.pre f) }
        ensures { MatchOption (datetime_of self) (datetime_of result ≡ None)
            (λ m. IsSomeAnd (datetime_of result) (F.post f m)) }
    {
        match self {
            Expiration::DateTime(moment) => Expiration::DateTime(f(moment)),
            Expiration::Session => Expiration::Session,
        }
    }

    // The expiry, or the last one that a cookie keeps if it is later.
    pub(crate) fn cap(self) -> Expiration
        ensures { result ≡ capped_expiry self }
    {
        match self {
            Expiration::DateTime(moment) => Expiration::DateTime(moment.min(last_expiry())),
            Expiration::Session => Expiration::Session,
        }
    }
}
