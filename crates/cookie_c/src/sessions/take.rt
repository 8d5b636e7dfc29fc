//! Taking one of a request's opened sessions, for C.
ghost use Rattle.std.specs.Prelude.{◌≡◌, IfNone, IfSome, List, Some};
ghost use Rattle.cookie_c.specs.Handles.{IsKept, Tells, opened_in};
ghost use Rattle.cookie_c.specs.OpenedSessions.{opened_of, session_of};
ghost use Rattle.cookie_c.specs.Revoked.{HasIds, HasNoneLeft, IsTaken, Takes, ids_of};
ghost use Rattle.cookie_session.specs.declared.opened.Opened.{Opened as OpenedValue};
ghost use Rattle.cookie_c.specs.declared.status.Status.TheVariants as status;

use super::{Opened, Session};
use crate::handle::content::Content;
use crate::status::Status;
use cookie_session::Visit;
use std::alloc::Global;
use std::mem::replace;

/// Takes one of the handle's opened sessions: the first whose id isn't in `revoked`, which has the ids of revoked
/// sessions, one after the other. Puts it into the handle `session`, frees the one that this had, if it had one, and
/// frees the other opened sessions: the handle `opened` has none then.
///
/// Refuses ids that don't have sixteen bytes each, and then a handle without opened sessions, or without one that isn't
/// revoked. After a refusal both handles are as before. It doesn't allocate.
#[unsafe(no_mangle)]
pub extern "C" fn cookie_opened_take(
    alloc: Global,
    opened: &mut Opened,
    revoked: &[u8],
    session: &mut Session,
) -> u32
    ensures bad_ids { ¬ HasIds revoked.now → Tells (λ answer.
        IsKept status.BadIds answer (session_of session.old) (session_of session.new)
        × (opened_of opened.new ≡ opened_of opened.old)) result }
    ensures takes { HasIds revoked.now → Tells (λ answer. Takes (ids_of revoked.now) answer
        (opened_of opened.old) (opened_of opened.new)
        (session_of session.old) (session_of session.new)) result }
{
    let (ids, rest) = revoked.as_chunks::<16>();
    if !rest.is_empty() {
        return Status::BadIds.code();
    }
    take(alloc, opened, ids, session).code()
}

// Takes the first session whose id isn't one of these. Its box is the one that all of them had.
fn take(alloc: Global, opened: &mut Opened, revoked: &[[u8; 16]], session: &mut Session) -> Status
    ensures { Takes revoked.now result (opened_of opened.old) (opened_of opened.new)
        (session_of session.old) (session_of session.new) }
{
    let Some(mut held) = opened.handle.take(alloc) else {
        return Status::NoSession;
    };
    match take_first(held.as_mut(), revoked) {
        Some(taken) => {
            drop(replace(held.as_mut(), Content::Session(taken)));
            session.handle.free(alloc);
            session.handle.put(held);
            Status::Done
        }
        None => {
            opened.handle.put(held);
            Status::NoSession
        }
    }
}

// Takes the first of the opened sessions out of the content whose id isn't one of these, if there is one.
fn take_first(content: &mut Content, revoked: &[[u8; 16]]) -> Option<Visit>
    ensures some { IfSome result (λ taken. (all : List OpenedValue)
        × (opened_in (Some content.old) ≡ Some all) × IsTaken revoked.now all taken) }
    ensures none { IfNone result (HasNoneLeft revoked.now (opened_in (Some content.old))) }
    ensures kept { IfNone result (content.new ≡ content.old) }
{
    match content {
        Content::Opened(all) => all.take_first(revoked),
        _ => None,
    }
}
