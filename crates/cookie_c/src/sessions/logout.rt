//! Ending what the user agent has, for C: before a renewed session is saved, and at a logout.
ghost use Rattle.cookie_c.specs.Handles.{IsKept, Tells};
ghost use Rattle.cookie_c.specs.OpenedSessions.{session_of};
ghost use Rattle.cookie_c.specs.SessionCalls.{EndsGiven, LogsOut, ReplacesHeld};
ghost use Rattle.cookie_c.specs.Sites.{AtSecond};

use super::Session;
use super::time::time_at;
use crate::handle::with_content;
use crate::status::Status;
use cookie_session::{Ending, Visit};
use jiff::civil::DateTime;
use std::alloc::Global;

/// Tells that the caller's store was asked to revoke what the user agent has (`cookie_session_given`), and whether that
/// was revoked before. Then the handle's session, which replaces it, can be saved. A site without a store passes in
/// false. `now` is the time in seconds since 1970 in UTC.
///
/// Refuses a time after 9999-12-30 22:00:00, then a handle without a session, then a session of a user agent that has
/// none (`NotFound`), and then one that was revoked before or is over (`Gone`): another request renewed or ended it.
/// Save nothing then. After a refusal the session is as before. It doesn't allocate.
#[unsafe(no_mangle)]
pub extern "C" fn cookie_session_replace(
    alloc: Global,
    session: &mut Session,
    now: u64,
    was_revoked: bool,
) -> u32
    ensures { Tells (λ answer. AtSecond now
        (λ time. ReplacesHeld time was_revoked answer
        (session_of session.old) (session_of session.new))
        (λ why. IsKept why answer (session_of session.old) (session_of session.new))) result }
{
    replace(alloc, session, now, was_revoked).code()
}

/// Logs the visitor out: tells that the caller's store was asked to revoke what the user agent has
/// (`cookie_session_given`), and whether that was revoked before. Frees the handle's session, so that nothing can be
/// saved of it. `cookie_session_end` has the user agent drop its cookie. A site without a store passes in false. `now`
/// is the time in seconds since 1970 in UTC.
///
/// Refuses as `cookie_session_replace` does. After `Gone` the page must not say that the user is logged out. After a
/// refusal the session is as before. It doesn't allocate.
#[unsafe(no_mangle)]
pub extern "C" fn cookie_session_log_out(
    alloc: Global,
    session: &mut Session,
    now: u64,
    was_revoked: bool,
) -> u32
    ensures { Tells (λ answer. AtSecond now
        (λ time. LogsOut time was_revoked answer
        (session_of session.old) (session_of session.new))
        (λ why. IsKept why answer (session_of session.old) (session_of session.new))) result }
{
    log_out(alloc, session, now, was_revoked).code()
}

// Ends what the user agent has, and keeps the session.
fn replace(alloc: Global, session: &mut Session, now: u64, was_revoked: bool) -> Status
    ensures { AtSecond now
        (λ time. ReplacesHeld time was_revoked result
        (session_of session.old) (session_of session.new))
        (λ why. IsKept why result (session_of session.old) (session_of session.new)) }
{
    match time_at(now) {
        Some(time) => replace_at(alloc, session, time, was_revoked),
        None => Status::NoDate,
    }
}

// Ends what the user agent has, and frees the session.
fn log_out(alloc: Global, session: &mut Session, now: u64, was_revoked: bool) -> Status
    ensures { AtSecond now
        (λ time. LogsOut time was_revoked result
        (session_of session.old) (session_of session.new))
        (λ why. IsKept why result (session_of session.old) (session_of session.new)) }
{
    match time_at(now) {
        Some(time) => log_out_at(alloc, session, time, was_revoked),
        None => Status::NoDate,
    }
}

fn replace_at(alloc: Global, session: &mut Session, time: DateTime, was_revoked: bool) -> Status
    ensures { ReplacesHeld time was_revoked result
        (session_of session.old) (session_of session.new) }
{
    with_content!(alloc, session.handle,
        Session(visit) => end_given(visit, time, was_revoked),
        _ => Status::NoSession,
    )
}

fn log_out_at(alloc: Global, session: &mut Session, time: DateTime, was_revoked: bool) -> Status
    ensures { LogsOut time was_revoked result (session_of session.old) (session_of session.new) }
{
    match replace_at(alloc, session, time, was_revoked) {
        Status::Done => {
            session.handle.free(alloc);
            Status::Done
        }
        why => why,
    }
}

// Ends what the user agent has, or returns why not.
fn end_given(visit: &mut Visit, time: DateTime, was_revoked: bool) -> Status
    ensures { EndsGiven time was_revoked result visit.old visit.new }
{
    match visit.end_given(time, was_revoked) {
        Ending::Ended => Status::Done,
        Ending::Nobody => Status::NotFound,
        Ending::Gone => Status::Gone,
    }
}
