//! Whether the session in a handle must be saved.
ghost use Rattle.std.specs.Prelude.{◌≡◌, Some};
ghost use Rattle.cookie_c.specs.OpenedSessions.{session_of};
ghost use Rattle.cookie_c.specs.SavedSessions.{TellsNeed, no_need};
ghost use Rattle.cookie_c.specs.Sites.{AtSite, site_of};

use super::Session;
use super::site::Site;
use super::time::time_at;
use crate::handle::with_content;
use crate::status::Status;
use cookie_session::{Sessions, Visit};
use jiff::civil::DateTime;
use std::alloc::Global;

/// Whether a session must be saved.
#[repr(C)]
#[derive(Clone, Copy, Default)]
pub struct Need {
    /// The number of a `Status`.
    pub status: u32,
    /// Whether it must be saved. It is false if the status isn't `Status::Done`.
    pub must_save: bool,
}

/// Whether the handle's session must be saved, as `Sessions::must_save` says: it was changed, it is new, an older key
/// opened it, or a tenth of the idle time has passed since it was last saved. A new session without texts needn't be
/// saved, unless it was renewed. `now` is the time in seconds since 1970 in UTC. Both handles are as before.
///
/// Refuses a handle without sessions, then a time after 9999-12-30 22:00:00, and then a handle without a session. It
/// doesn't allocate.
#[unsafe(no_mangle)]
pub extern "C" fn cookie_session_must_save(
    alloc: Global,
    sessions: &mut super::Sessions,
    session: &mut Session,
    now: u64,
) -> Need
    ensures kept { site_of sessions.new ≡ site_of sessions.old }
    ensures stays { session_of session.new ≡ session_of session.old }
    ensures told { AtSite (site_of sessions.old) now
        (λ site time. TellsNeed site time (session_of session.old) result)
        (λ why. result ≡ no_need why) }
{
    with_content!(alloc, sessions.handle,
        Sessions(site) => must_save_at(alloc, site, session, now),
        _ => Need::none(Status::NoSessions),
    )
}

// Whether it must be saved, by these sessions.
fn must_save_at(alloc: Global, site: &Site, session: &mut Session, now: u64) -> Need
    ensures stays { session_of session.new ≡ session_of session.old }
    ensures told { AtSite (Some site.now) now
        (λ site time. TellsNeed site time (session_of session.old) result)
        (λ why. result ≡ no_need why) }
{
    match time_at(now) {
        Some(time) => must_save_held(alloc, &site.sessions(), session, time),
        None => Need::none(Status::NoDate),
    }
}

fn must_save_held(
    alloc: Global,
    sessions: &Sessions<'_>,
    session: &mut Session,
    time: DateTime,
) -> Need
    ensures stays { session_of session.new ≡ session_of session.old }
    ensures told { TellsNeed sessions.now time (session_of session.old) result }
{
    with_content!(alloc, session.handle,
        Session(visit) => Need::of(sessions, visit, time),
        _ => Need::none(Status::NoSession),
    )
}

impl Need {
    ghost use Rattle.std.specs.Prelude.{◌≡◌, Some};
    ghost use Rattle.cookie_c.specs.SavedSessions.{TellsNeed, no_need};

    // What a refused call returns.
    fn none(why: Status) -> Need
        ensures { result ≡ no_need why }
    {
        Need {
            status: why.code(),
            must_save: false,
        }
    }

    // Whether this session must be saved.
    fn of(sessions: &Sessions<'_>, visit: &Visit, time: DateTime) -> Need
        ensures { TellsNeed sessions.now time (Some visit.now) result }
    {
        Need {
            status: Status::Done.code(),
            must_save: sessions.must_save(visit, time),
        }
    }
}
