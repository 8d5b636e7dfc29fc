//! Saving a session for C.
ghost use Rattle.std.specs.Prelude.{◌≡◌, ◌≢◌, Some, false, length, true};
ghost use Rattle.cookie.specs.Text.{cookie_text};
ghost use Rattle.cookie_c.specs.OpenedSessions.{session_of};
ghost use Rattle.cookie_c.specs.SavedSessions.{GivesSavedInMemory, RefusesSave, SavesAt, SavesFor, SavesHeld, SavesVisit, unsaved_number, unsaved_status};
ghost use Rattle.cookie_c.specs.Sites.{site_of};
ghost use Rattle.cookie_c.specs.declared.status.Status.TheVariants as status;

use super::given::Given;
use super::lasting::Lasting;
use super::site::Site;
use super::time::time_at;
use crate::answer::Answer;
use crate::handle::with_content;
use crate::print::give_text;
use crate::status::Status;
use cookie::Cookie;
use cookie_session::{SessionError, Sessions, Visit, second_of};
use jiff::civil::DateTime;
use std::alloc::Global;

const NONCE_LENGTH: usize = 12;

/// Saves the handle's session. The value of the `Set-Cookie` header that sets its cookie, encrypted under the newest
/// key, is for the buffer. Its lifetime goes on. `lasting` is 0 for a cookie with the session's `Max-Age`, 1 for one
/// with `Expires` too, and 2 for one with neither, which the browser drops when it closes. `nonce` has twelve random
/// bytes: under one key no nonce may be used twice, and at most 2^32 may be drawn (SP 800-38D 8.3). `now` is the time
/// in seconds since 1970 in UTC. Both handles are as before.
///
/// Refuses a nonce of another length, then another number as `lasting`, then a handle without sessions, then a time
/// after 9999-12-30 22:00:00, and then a handle without a session. It then fails as `Sessions::save` does, with the
/// size in bytes of a cookie that is too large. It may also run out of memory.
#[unsafe(no_mangle)]
pub extern "C" fn cookie_session_save(
    alloc: Global,
    sessions: &mut super::Sessions,
    session: &mut super::Session,
    lasting: u32,
    nonce: &[u8],
    now: u64,
    out: &mut [u8],
) -> Answer
    ensures kept { site_of sessions.new ≡ site_of sessions.old }
    ensures bad_nonce { length nonce.now ≢ 12 → RefusesSave result
        (session_of session.old) (session_of session.new) out.old out.new status.BadNonce }
    ensures saves { length nonce.now ≡ 12 → SavesFor lasting (site_of sessions.old) nonce.now now
        result (session_of session.old) (session_of session.new) out.old out.new }
{
    if nonce.len() != NONCE_LENGTH {
        return Answer::refusal(Status::BadNonce);
    }
    let nonce = Given { bytes: nonce };
    let Some(lasting) = Lasting::of(lasting) else {
        return Answer::refusal(Status::BadAttribute);
    };
    with_content!(alloc, sessions.handle,
        Sessions(site) => save_at(alloc, site, session, lasting, nonce, now, out),
        _ => Answer::refusal(Status::NoSessions),
    )
}

// Saves the handle's session, by these sessions.
fn save_at(
    alloc: Global,
    site: &Site,
    session: &mut super::Session,
    lasting: Lasting,
    nonce: Given<'_>,
    now: u64,
    out: &mut [u8],
) -> Answer
    requires { length nonce.bytes.now ≡ 12 }
    ensures { SavesAt lasting (Some site.now) nonce.entry.bytes.now now result
        (session_of session.old) (session_of session.new) out.old out.new }
{
    match time_at(now) {
        Some(time) => save_held(alloc, &site.sessions(), session, lasting, nonce, time, out),
        None => Answer::refusal(Status::NoDate),
    }
}

fn save_held(
    alloc: Global,
    sessions: &Sessions<'_>,
    session: &mut super::Session,
    lasting: Lasting,
    nonce: Given<'_>,
    time: DateTime,
    out: &mut [u8],
) -> Answer
    requires { length nonce.bytes.now ≡ 12 }
    ensures { SavesHeld lasting sessions.now nonce.entry.bytes.now time result
        (session_of session.old) (session_of session.new) out.old out.new }
{
    with_content!(alloc, session.handle,
        Session(visit) => save(alloc, sessions, visit, lasting, nonce, time, out),
        _ => Answer::refusal(Status::NoSession),
    )
}

// The text of the visit's cookie, for the buffer.
fn save(
    alloc: Global,
    sessions: &Sessions<'_>,
    visit: &mut Visit,
    lasting: Lasting,
    mut nonce: Given<'_>,
    time: DateTime,
    out: &mut [u8],
) -> Answer
    requires { length nonce.bytes.now ≡ 12 }
    ensures { SavesVisit lasting sessions.now nonce.entry.bytes.now time result
        visit.old visit.new out.old out.new }
{
    match sessions.saved_cookie(alloc, visit.session(), time, &mut nonce) {
        Ok(cookie) => {
            let cookie = lasting.kept(cookie, second_of(time));
            give(alloc, visit, &cookie, out)
        }
        Err(error) => Answer::of(unsaved_status(error), unsaved_number(error)),
    }
}

// Gives the text of the visit's cookie, unless it replaces what the user agent has.
fn give(alloc: Global, visit: &mut Visit, cookie: &Cookie<'_>, out: &mut [u8]) -> Answer
    ensures { GivesSavedInMemory (cookie_text true false cookie.now.fields) result
        visit.old visit.new out.old out.new }
{
    let None = visit.replaced() else {
        return Answer::refusal(Status::Replaces);
    };
    let answer = give_text(alloc, cookie, true, out);
    if answer.status == Status::Done.code() {
        visit.set_saved();
    }
    answer
}

fn unsaved_status(error: SessionError) -> Status
    ensures { result ≡ unsaved_status error }
{
    match error {
        SessionError::OutOfMemory => Status::OutOfMemory,
        SessionError::Prefix => Status::BadPrefix,
        SessionError::Over => Status::Over,
        SessionError::TooLarge(_) => Status::TooLarge,
        SessionError::TooLong => Status::TooLong,
        SessionError::Generator => Status::BadNonce,
    }
}

// The size of a cookie that is too large, and 0 for another reason.
fn unsaved_number(error: SessionError) -> usize
    ensures { result ≡ unsaved_number error }
{
    match error {
        SessionError::TooLarge(size) => size,
        _ => 0,
    }
}
