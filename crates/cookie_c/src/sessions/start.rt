//! Starting a session, and renewing one, for C.
ghost use Rattle.std.specs.Prelude.{◌≡◌, ◌≢◌, ◌↔◌, IsTrue, Some, length};
ghost use Rattle.cookie_session.specs.Id.{id_length};
ghost use Rattle.cookie_c.specs.Handles.{IsKept, IsPut, Tells};
ghost use Rattle.cookie_c.specs.OpenedSessions.{session_of};
ghost use Rattle.cookie_c.specs.SessionCalls.{Renews, new_session, renewed_session};
ghost use Rattle.cookie_c.specs.Sites.{AtSite, site_of};
ghost use Rattle.cookie_c.specs.declared.status.Status.TheVariants as status;

use super::given::Given;
use super::site::Site;
use super::time::time_at;
use crate::handle::content::Content;
use crate::handle::with_content;
use crate::status::Status;
use cookie_session::{Sessions, Visit};
use jiff::civil::DateTime;
use std::alloc::Global;

const ID_LENGTH: usize = 16;

/// Starts a session without texts: puts it into the handle, and frees the one that it had, if it had one. It keeps the
/// lifetime and the idle time that the site has now. `id` has sixteen random bytes. `now` is the time in seconds since
/// 1970 in UTC.
///
/// Refuses an id of another length, then a handle without sessions, and then a time after 9999-12-30 22:00:00. It may
/// also run out of memory. After a refusal `session` is as before.
#[unsafe(no_mangle)]
pub extern "C" fn cookie_session_start(
    alloc: Global,
    sessions: &mut super::Sessions,
    id: &[u8],
    now: u64,
    session: &mut super::Session,
) -> u32
    ensures kept { site_of sessions.new ≡ site_of sessions.old }
    ensures bad_id { length id.now ≢ id_length → Tells (λ answer.
        IsKept status.BadNonce answer (session_of session.old) (session_of session.new)) result }
    ensures starts { length id.now ≡ id_length → Tells (λ answer. AtSite (site_of sessions.old) now
        (λ site time. IsPut (new_session site id.now time) answer
        (session_of session.old) (session_of session.new))
        (λ why. IsKept why answer (session_of session.old) (session_of session.new))) result }
{
    if !is_id(id) {
        return Status::BadNonce.code();
    }
    start(alloc, sessions, Given { bytes: id }, now, session).code()
}

/// Starts the handle's session anew, with the same texts, another id and the limits that the site has now, so that its
/// lifetime counts from now. `id` has sixteen random bytes. `now` is the time in seconds since 1970 in UTC.
///
/// Refuses an id of another length, then a handle without sessions, then a time after 9999-12-30 22:00:00, and then a
/// handle without a session. After a refusal the session is as before. It doesn't allocate.
#[unsafe(no_mangle)]
pub extern "C" fn cookie_session_renew(
    alloc: Global,
    sessions: &mut super::Sessions,
    session: &mut super::Session,
    id: &[u8],
    now: u64,
) -> u32
    ensures kept { site_of sessions.new ≡ site_of sessions.old }
    ensures bad_id { length id.now ≢ id_length → Tells (λ answer.
        IsKept status.BadNonce answer (session_of session.old) (session_of session.new)) result }
    ensures renews { length id.now ≡ id_length → Tells (λ answer. AtSite (site_of sessions.old) now
        (λ site time. Renews site id.now time answer
        (session_of session.old) (session_of session.new))
        (λ why. IsKept why answer (session_of session.old) (session_of session.new))) result }
{
    if !is_id(id) {
        return Status::BadNonce.code();
    }
    renew(alloc, sessions, session, Given { bytes: id }, now).code()
}

// Whether the bytes are as many as an id has.
fn is_id(bytes: &[u8]) -> bool
    ensures { IsTrue result ↔ (length bytes.now ≡ id_length) }
{
    bytes.len() == ID_LENGTH
}

// Starts a session with this id.
fn start(
    alloc: Global,
    sessions: &mut super::Sessions,
    id: Given<'_>,
    now: u64,
    session: &mut super::Session,
) -> Status
    requires { length id.bytes.now ≡ id_length }
    ensures kept { site_of sessions.new ≡ site_of sessions.old }
    ensures starts { AtSite (site_of sessions.old) now
        (λ site time. IsPut (new_session site id.entry.bytes.now time) result
        (session_of session.old) (session_of session.new))
        (λ why. IsKept why result (session_of session.old) (session_of session.new)) }
{
    with_content!(alloc, sessions.handle,
        Sessions(site) => start_at(alloc, site, id, now, session),
        _ => Status::NoSessions,
    )
}

// Starts a session with this id, by the sessions of this site.
fn start_at(
    alloc: Global,
    site: &Site,
    id: Given<'_>,
    now: u64,
    session: &mut super::Session,
) -> Status
    requires { length id.bytes.now ≡ id_length }
    ensures { AtSite (Some site.now) now
        (λ site time. IsPut (new_session site id.entry.bytes.now time) result
        (session_of session.old) (session_of session.new))
        (λ why. IsKept why result (session_of session.old) (session_of session.new)) }
{
    let Some(time) = time_at(now) else {
        return Status::NoDate;
    };
    let visit = started(alloc, &site.sessions(), id, time);
    session.handle.set(alloc, Content::Session(visit))
}

// The session with this id that starts at this time.
fn started(alloc: Global, sessions: &Sessions<'_>, mut id: Given<'_>, time: DateTime) -> Visit
    requires { length id.bytes.now ≡ id_length }
    ensures { result ≡ new_session sessions.now id.entry.bytes.now time }
{
    match Visit::start(alloc, sessions, time, &mut id) {
        Ok(visit) => visit,
        Err(_) => unreachable!(),
    }
}

// Starts the handle's session anew, with this id.
fn renew(
    alloc: Global,
    sessions: &mut super::Sessions,
    session: &mut super::Session,
    id: Given<'_>,
    now: u64,
) -> Status
    requires { length id.bytes.now ≡ id_length }
    ensures kept { site_of sessions.new ≡ site_of sessions.old }
    ensures renews { AtSite (site_of sessions.old) now
        (λ site time. Renews site id.entry.bytes.now time result
        (session_of session.old) (session_of session.new))
        (λ why. IsKept why result (session_of session.old) (session_of session.new)) }
{
    with_content!(alloc, sessions.handle,
        Sessions(site) => renew_at(alloc, site, session, id, now),
        _ => Status::NoSessions,
    )
}

// Starts the handle's session anew, by the sessions of this site.
fn renew_at(
    alloc: Global,
    site: &Site,
    session: &mut super::Session,
    id: Given<'_>,
    now: u64,
) -> Status
    requires { length id.bytes.now ≡ id_length }
    ensures { AtSite (Some site.now) now
        (λ site time. Renews site id.entry.bytes.now time result
        (session_of session.old) (session_of session.new))
        (λ why. IsKept why result (session_of session.old) (session_of session.new)) }
{
    match time_at(now) {
        Some(time) => renew_held(alloc, &site.sessions(), session, id, time),
        None => Status::NoDate,
    }
}

fn renew_held(
    alloc: Global,
    sessions: &Sessions<'_>,
    session: &mut super::Session,
    id: Given<'_>,
    time: DateTime,
) -> Status
    requires { length id.bytes.now ≡ id_length }
    ensures { Renews sessions.now id.entry.bytes.now time result
        (session_of session.old) (session_of session.new) }
{
    with_content!(alloc, session.handle,
        Session(visit) => renew_session(sessions, visit, id, time),
        _ => Status::NoSession,
    )
}

fn renew_session(
    sessions: &Sessions<'_>,
    visit: &mut Visit,
    mut id: Given<'_>,
    time: DateTime,
) -> Status
    requires { length id.bytes.now ≡ id_length }
    ensures done { result ≡ status.Done }
    ensures renewed { visit.new ≡ renewed_session sessions.now id.entry.bytes.now time visit.old }
{
    match visit.renew(sessions, time, &mut id) {
        Ok(()) => Status::Done,
        Err(_) => unreachable!(),
    }
}
