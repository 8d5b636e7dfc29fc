//! What all copies of a session's cookie have in common.
ghost use Rattle.std.specs.Prelude.{◌≤◌, ◌↔◌, IsTrue};
ghost use Rattle.cookie_session.specs.Seconds.{second_of};

use crate::id::ID_LENGTH;
use crate::seconds::second_of;
use jiff::civil::DateTime;

/// What all copies of a session's cookie have in common: the session's id, and the second in which it is over, however it
/// is used. Neither changes until the session is renewed. A store revokes it by the id, until this second.
#[derive(Clone, Copy, Debug, PartialEq, Eq)]
pub struct Pass {
    /// The id.
    pub id: [u8; ID_LENGTH],
    /// The second, since 1970 in UTC, in which the session is over.
    pub end: u64,
}

impl Pass {
    // Whether the session is over at the time `now`, however it was used.
    pub(crate) fn is_over(&self, now: DateTime) -> bool
        ensures { IsTrue result ↔ (self.now.end ≤ second_of now) }
    {
        self.end <= second_of(now)
    }
}
