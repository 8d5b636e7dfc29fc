//! What the user agent has of the session in a handle.
ghost use Rattle.std.specs.Prelude.{◌≡◌};
ghost use Rattle.cookie_c.specs.OpenedSessions.{given_of, session_of};

use super::Session;
use crate::handle::with_content;
use crate::status::Status;
use cookie_session::Visit;
use std::alloc::Global;

/// What all copies of a session's cookie have in common. A store revokes a session by it.
#[repr(C)]
#[derive(Clone, Copy, Default)]
pub struct Pass {
    /// The number of a `Status`. If it isn't `Status::Done`, the other fields are 0.
    pub status: u32,
    /// The second in which the session is over, however it is used, in seconds since 1970 in UTC. It stays revoked
    /// until then.
    pub end: u64,
    /// The session's id.
    pub id: [u8; 16],
}

/// What the user agent has: the id and the end of the session that was opened, or saved last. A logout revokes it, and
/// so does the first save after `cookie_session_renew`. The session is as before.
///
/// Refuses a handle without a session, and then a session of a user agent that has none. It doesn't allocate.
#[unsafe(no_mangle)]
pub extern "C" fn cookie_session_given(alloc: Global, session: &mut Session) -> Pass
    ensures kept { session_of session.new ≡ session_of session.old }
    ensures told { result ≡ given_of (session_of session.old) }
{
    with_content!(alloc, session.handle,
        Session(visit) => Pass::of(visit),
        _ => Pass::none(Status::NoSession),
    )
}

impl Pass {
    ghost use Rattle.std.specs.Prelude.{◌≡◌, Some};
    ghost use Rattle.cookie_c.specs.OpenedSessions.{given_of, no_pass};

    // What is told where there is none.
    fn none(why: Status) -> Pass
        ensures { result ≡ no_pass why }
    {
        Pass {
            status: why.code(),
            ..Pass::default()
        }
    }

    // What the user agent of this visit has.
    fn of(visit: &Visit) -> Pass
        ensures { result ≡ given_of (Some visit.now) }
    {
        let Some(pass) = visit.given() else {
            return Pass::none(Status::NotFound);
        };
        let id = pass.id;
        Pass {
            status: Status::Done.code(),
            end: pass.end,
            id,
        }
    }
}
