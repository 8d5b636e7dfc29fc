//! What is told of a session in a handle.
ghost use Rattle.std.specs.Prelude.{◌≡◌};
ghost use Rattle.cookie_c.specs.OpenedSessions.{facts_of, session_of};

use super::Session;
use crate::handle::with_content;
use crate::status::Status;
use cookie_session::Visit;
use std::alloc::Global;

/// What is told of a session.
#[repr(C)]
#[derive(Clone, Copy, Default)]
pub struct SessionFacts {
    /// The number of a `Status`. If it isn't `Status::Done`, the other fields are 0.
    pub status: u32,
    /// Whether a request had it. Else it started in its handle.
    pub is_opened: bool,
    /// The index of the key that opened it: 0 is the newest. It is 0 too if no request had it.
    pub index: usize,
    /// When it started, in seconds since 1970 in UTC.
    pub started: u64,
    /// When it was last saved before it was opened, or else when it started or was renewed, in seconds since 1970 in
    /// UTC.
    pub seen: u64,
    /// The second in which it is over, however it is used, in seconds since 1970 in UTC. Under a shorter lifetime of the
    /// site it is over earlier.
    pub end: u64,
    /// The seconds that it lives after it was last saved. Under a shorter idle time of the site it lives shorter.
    pub idle: u64,
    /// Its id.
    pub id: [u8; 16],
}

/// The id of the handle's session, its times and limits, and the index of the key that opened it. The session is as before.
///
/// Refuses a handle without a session. It doesn't allocate.
#[unsafe(no_mangle)]
pub extern "C" fn cookie_session_describe(alloc: Global, session: &mut Session) -> SessionFacts
    ensures kept { session_of session.new ≡ session_of session.old }
    ensures told { result ≡ facts_of (session_of session.old) }
{
    with_content!(alloc, session.handle,
        Session(visit) => SessionFacts::of(visit),
        _ => SessionFacts::none(),
    )
}

impl SessionFacts {
    ghost use Rattle.std.specs.Prelude.{◌≡◌, None, Some};
    ghost use Rattle.cookie_c.specs.OpenedSessions.{facts_of};

    // What is told of a handle without a session.
    fn none() -> SessionFacts
        ensures { result ≡ facts_of None }
    {
        SessionFacts {
            status: Status::NoSession.code(),
            ..SessionFacts::default()
        }
    }

    // What is told of this session.
    fn of(visit: &Visit) -> SessionFacts
        ensures { result ≡ facts_of (Some visit.now) }
    {
        let session = visit.session();
        SessionFacts {
            status: Status::Done.code(),
            is_opened: visit.place().is_some(),
            index: visit.place().unwrap_or(0),
            started: session.started(),
            seen: session.seen(),
            end: session.end(),
            idle: session.idle(),
            id: *session.id(),
        }
    }
}
