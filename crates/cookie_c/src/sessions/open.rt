//! Opening a session for C.
ghost use Rattle.std.specs.Prelude.{◌≡◌, Some};
ghost use Rattle.cookie.specs.Originals.{field_cookies};
ghost use Rattle.cookie_c.specs.Handles.{IsKept, Tells};
ghost use Rattle.cookie_c.specs.OpenedSessions.{IsOpening, session_of};
ghost use Rattle.cookie_c.specs.Sites.{AtSite, site_of};

use super::site::Site;
use super::time::time_at;
use super::{Session, Sessions};
use crate::handle::content::Content;
use crate::handle::with_content;
use crate::status::Status;
use cookie::field_cookies;
use cookie_session::Visit;
use std::alloc::Global;

/// Opens the session of a request, for a site that revokes none: puts it into the handle `session`, and frees the one
/// that it had, if it had one. `header` is the value of the request's `Cookie` header. A piece of it that isn't UTF-8 or
/// isn't a cookie is skipped. Of several cookies with the site's name the first counts in which a session is open. `now`
/// is the time in seconds since 1970 in UTC. A site that revokes sessions calls `cookie_opened_new`.
///
/// Refuses a handle without sessions, then a time after 9999-12-30 22:00:00, and then a request without an open session.
/// It may also run out of memory. After a refusal `session` is as before.
#[unsafe(no_mangle)]
pub extern "C" fn cookie_session_open(
    alloc: Global,
    sessions: &mut Sessions,
    header: &[u8],
    now: u64,
    session: &mut Session,
) -> u32
    ensures kept { site_of sessions.new ≡ site_of sessions.old }
    ensures opens { Tells (λ answer. AtSite (site_of sessions.old) now
        (λ site time. IsOpening site (field_cookies header.now) time answer
        (session_of session.old) (session_of session.new))
        (λ why. IsKept why answer (session_of session.old) (session_of session.new))) result }
{
    open(alloc, sessions, header, now, session).code()
}

// Opens the session of a request.
fn open(
    alloc: Global,
    sessions: &mut Sessions,
    header: &[u8],
    now: u64,
    session: &mut Session,
) -> Status
    ensures kept { site_of sessions.new ≡ site_of sessions.old }
    ensures opens { AtSite (site_of sessions.old) now
        (λ site time. IsOpening site (field_cookies header.now) time result
        (session_of session.old) (session_of session.new))
        (λ why. IsKept why result (session_of session.old) (session_of session.new)) }
{
    with_content!(alloc, sessions.handle,
        Sessions(site) => open_at(alloc, site, header, now, session),
        _ => Status::NoSessions,
    )
}

// Opens the session of a request, by the sessions of this site.
fn open_at(alloc: Global, site: &Site, header: &[u8], now: u64, session: &mut Session) -> Status
    ensures { AtSite (Some site.now) now
        (λ site time. IsOpening site (field_cookies header.now) time result
        (session_of session.old) (session_of session.new))
        (λ why. IsKept why result (session_of session.old) (session_of session.new)) }
{
    let Some(time) = time_at(now) else {
        return Status::NoDate;
    };
    let sessions = site.sessions();
    let Ok(cookies) = field_cookies(alloc, header) else {
        return Status::OutOfMemory;
    };
    match sessions.open(alloc, &cookies, time) {
        Ok(Some(opened)) => {
            let visit = Visit::of(opened);
            session.handle.set(alloc, Content::Session(visit))
        }
        Ok(None) => Status::NoSession,
        Err(_) => Status::OutOfMemory,
    }
}
