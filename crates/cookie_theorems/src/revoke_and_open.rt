//! A session that is revoked, and the requests after that.
ghost use Rattle.std.specs.Prelude.{◌≡◌, ◌⊎◌, All, IfOk, OnErr, OnOk};
ghost use Rattle.std.specs.List.{AllZip};
ghost use Rattle.cookie.specs.Originals.{field_cookies};
ghost use Rattle.cookie_session.specs.Revocations.{AreForgotten, AreSame, IsRevoked};
ghost use Rattle.cookie_session.specs.Seconds.{second_of};
ghost use Rattle.cookie_session.specs.Session.{SessionState};
ghost use Rattle.cookie_theorems.specs.Revoking.{AreAnswers, AreBefore, AreInOrder, AreLeft, IsAmong, IsAnswer, IsOther, IsRevokedToEnd, OpensOther, left_after, revoked_too};

use crate::site_request::SiteRequest;
use cookie::field_cookies;
use cookie_session::{OpenError, Opened, Revocations, Session, Sessions, second_of};
use std::alloc::Global;

/// Revokes a session, and then opens the sessions of requests, as [`open_each`] does.
///
/// No request opens the session from a copy of its cookie, whoever sends it, whenever the copy was saved, and whichever
/// keys and limits the site has then. This requires that the times of the requests don't go back, and that what is
/// revoked is kept. Nobody else is logged out: a request whose first open session is another one opens that, unless it
/// was revoked before.
///
/// Fails if the session can't be revoked, if a session can't be looked up, if what is over can't be forgotten, or if out
/// of memory. Each session that was revoked before stays so until its second.
pub fn revoke_and_open<R: Revocations>(
    alloc: Global,
    sessions: &Sessions<'_>,
    session: &Session,
    requests: &[SiteRequest<'_>],
    revocations: &mut R,
) -> Result<Vec<Option<Opened>>, OpenError<R::Error>>
    // Each request opens exactly the session that its cookies open, by what is revoked then.
    ensures answers { R.is_intact revocations.new → R.can_revoke → IfOk result (λ answers.
        AreAnswers (revoked_too session.now.id session.now.end (R.revoked_until revocations.old))
        requests.now answers.items) }

    // Whatever the look-ups say, only a session opens that is open in one of the request's cookies.
    ensures sealed { IfOk result (λ answers. AllZip IsAmong requests.now answers.items) }

    // No copy of the session opens.
    ensures refused { R.is_intact revocations.new → R.can_revoke → AreInOrder 0 requests.now
        → IfOk result (λ answers. All (IsOther session.now) answers.items) }

    // Nobody else is logged out.
    ensures others { R.is_intact revocations.new → R.can_revoke
        → IfOk result (λ answers. AllZip (OpensOther (λ id. (id ≡ session.now.id)
        ⊎ IsRevoked (R.revoked_until revocations.old) id)) requests.now answers.items) }

    // The session is still revoked after these requests, as `open_each` requires of one that it refuses.
    ensures stays { R.is_intact revocations.new → R.can_revoke
        → AreBefore session.now.end requests.now
        → OnOk result (IsRevokedToEnd (R.revoked_until revocations.new) session.now) }

    // Exactly this session is revoked too, and exactly what is over at one of the requests is forgotten.
    ensures forgotten { R.is_intact revocations.new → R.can_revoke
        → OnOk result (AreSame (left_after requests.now
        (revoked_too session.now.id session.now.end (R.revoked_until revocations.old)))
        (R.revoked_until revocations.new)) }

    // After an error each session is revoked as before, or this one is revoked too, and exactly what is over at one of
    // the first requests is forgotten.
    ensures err { R.is_intact revocations.new → R.can_revoke
        → OnErr result (AreSame (R.revoked_until revocations.old) (R.revoked_until revocations.new)
        ⊎ AreLeft requests.now
        (revoked_too session.now.id session.now.end (R.revoked_until revocations.old))
        (R.revoked_until revocations.new)) }
    ensures kept { R.is_intact revocations.new → R.is_intact revocations.old }
{
    match sessions.revoke(session, revocations) {
        Ok(_) => open_each(alloc, requests, revocations),
        Err(error) => Err(OpenError::Revocations(error)),
    }
}

/// Opens the sessions of requests, one after the other, as a site's server does: at each request it forgets the sessions
/// that are over, and opens the request's session by [`Sessions::open_unrevoked`].
///
/// No request opens a session that is revoked until its end, whatever cookies it sends. This requires that the times of
/// the requests don't go back, and that what is revoked is kept. A request whose first open session isn't revoked opens
/// that.
///
/// Fails if a session can't be looked up, if what is over can't be forgotten, or if out of memory. Each session that was
/// revoked stays so until its second.
pub fn open_each<R: Revocations>(
    alloc: Global,
    requests: &[SiteRequest<'_>],
    revocations: &mut R,
) -> Result<Vec<Option<Opened>>, OpenError<R::Error>>
    // Each request opens exactly the session that its cookies open, by what is revoked then.
    ensures answers { R.is_intact revocations.new → IfOk result (λ answers.
        AreAnswers (R.revoked_until revocations.old) requests.now answers.items) }

    // Whatever the look-ups say, only a session opens that is open in one of the request's cookies.
    ensures sealed { IfOk result (λ answers. AllZip IsAmong requests.now answers.items) }

    // No copy of a session opens that is revoked until its end.
    ensures refused { R.is_intact revocations.new → (gone : SessionState)
        → AreInOrder 0 requests.now → IsRevokedToEnd (R.revoked_until revocations.old) gone
        → IfOk result (λ answers. All (IsOther gone) answers.items) }

    // What isn't revoked opens.
    ensures others { R.is_intact revocations.new → IfOk result (λ answers.
        AllZip (OpensOther (IsRevoked (R.revoked_until revocations.old)))
        requests.now answers.items) }

    // What is revoked stays so until its end, also after an error.
    ensures stays { R.is_intact revocations.new → (gone : SessionState)
        → AreBefore gone.end requests.now
        → IsRevokedToEnd (R.revoked_until revocations.old) gone
        → IsRevokedToEnd (R.revoked_until revocations.new) gone }

    // Exactly what is over at one of the requests is forgotten, and after an error at one of the first of them.
    ensures forgotten { R.is_intact revocations.new → OnOk result (AreSame
        (left_after requests.now (R.revoked_until revocations.old))
        (R.revoked_until revocations.new)) }
    ensures err { R.is_intact revocations.new → OnErr result (AreLeft requests.now
        (R.revoked_until revocations.old) (R.revoked_until revocations.new)) }
    ensures kept { R.is_intact revocations.new → R.is_intact revocations.old }
{
    let mut answers = Vec::new(alloc);
    for request in requests {
        let opened = open_one(alloc, request, revocations)?;
        answers.push(opened)?;
    }
    Ok(answers)
}

// Forgets what is over at the request's time, and opens its session.
fn open_one<R: Revocations>(
    alloc: Global,
    request: &SiteRequest<'_>,
    revocations: &mut R,
) -> Result<Option<Opened>, OpenError<R::Error>>
    ensures answers { R.is_intact revocations.new → IfOk result
        (IsAnswer (R.revoked_until revocations.new) request.now) }
    ensures sealed { IfOk result (IsAmong request.now) }
    ensures forgotten { R.is_intact revocations.new → OnOk result
        (AreForgotten (second_of request.now.time)
        (R.revoked_until revocations.old) (R.revoked_until revocations.new)) }
    ensures err { R.is_intact revocations.new → OnErr result
        (AreSame (R.revoked_until revocations.old) (R.revoked_until revocations.new)
        ⊎ AreForgotten (second_of request.now.time)
        (R.revoked_until revocations.old) (R.revoked_until revocations.new)) }
    ensures kept { R.is_intact revocations.new → R.is_intact revocations.old }
{
    if let Err(error) = revocations.forget(second_of(request.time)) {
        return Err(OpenError::Revocations(error));
    }
    open_request(alloc, request, revocations)
}

// Opens the session of the request.
fn open_request<R: Revocations>(
    alloc: Global,
    request: &SiteRequest<'_>,
    revocations: &mut R,
) -> Result<Option<Opened>, OpenError<R::Error>>
    ensures answers { R.is_intact revocations.new → IfOk result
        (IsAnswer (R.revoked_until revocations.old) request.now) }
    ensures sealed { IfOk result (IsAmong request.now) }
    ensures same { R.is_intact revocations.new
        → AreSame (R.revoked_until revocations.old) (R.revoked_until revocations.new) }
    ensures kept { R.is_intact revocations.new → R.is_intact revocations.old }
{
    let cookies = field_cookies(alloc, request.field)?;
    let sessions = &request.sessions;
    sessions.open_unrevoked(alloc, &cookies, request.time, revocations)
}
