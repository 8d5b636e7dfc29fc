//! Opening and revoking sessions that can be revoked.
ghost use Rattle.std.specs.Prelude.{◌≡◌, ◌≢◌, ◌↔◌, ◌⊎◌, [], ℕ, MatchOption, None, Some, Err, IfOk, IsTrue, OnErr, OnOk, map, slice_get};
ghost use Rattle.cookie.specs.Originals.{first_of_name};
ghost use Rattle.cookie_session.specs.Revocations.{AreSame, IsRevoked, IsRevokedToo};
ghost use Rattle.cookie_session.specs.Session.{SessionState};
ghost use Rattle.cookie_session.specs.Sessions.{HoldsOne, IsFirstLeft, IsOneOf, OpensNone, OpensOne, OpensUnrevoked};
ghost use Rattle.cookie_session.specs.declared.open_error.OpenError.TheVariants as refusal;

use crate::open_error::OpenError;
use crate::opened::Opened;
use crate::revocations::Revocations;
use crate::session::Session;
use crate::sessions::Sessions;
use cookie::Cookie;
use jiff::civil::DateTime;
use std::alloc::{AllocError, Global};

impl<'a> Sessions<'a> {
    /// Opens the session of a request to read it, as `open` does, unless it is revoked: of several cookies of the site's
    /// name the first counts in which a session is open that isn't revoked. It looks up only the ids of sessions that are
    /// open, and all of them at once. Returns `None` if there is no such session. A handler calls `visit`.
    ///
    /// Fails if a session can't be looked up, or if out of memory. Refuse the request then. With no session open in the
    /// cookies only out of memory is possible, since the store isn't asked.
    ///
    /// ```
    /// let cookies = cookie::field_cookies(alloc, field)?;
    /// let opened = sessions.open_unrevoked(alloc, &cookies, now, &mut revocations)?;
    /// ```
    pub fn open_unrevoked<R: Revocations>(
        &self,
        alloc: Global,
        cookies: &[Cookie<'static>],
        now: DateTime,
        revocations: &mut R,
    ) -> Result<Option<Opened>, OpenError<R::Error>>
        ensures answers { R.is_intact revocations.new → IfOk result (λ answer.
            (place : ℕ) (s : SessionState)
            → (answer ≡ Some (record { session = s; place = place }))
            ↔ OpensUnrevoked (IsRevoked (R.revoked_until revocations.old)) self.now
            (map (λ c. c.fields) cookies.now) now place s) }

        // Whatever the look-up says, only a session opens that is open in one of the cookies.
        ensures sealed { IfOk result (λ answer. (place : ℕ) (s : SessionState)
            → answer ≡ Some (record { session = s; place = place })
            → OpensOne self.now (map (λ c. c.fields) cookies.now) now place s) }

        // The cookie that opens holds no other session, whatever the time.
        ensures once { R.is_intact revocations.new → IfOk result (λ _.
            (place : ℕ) (s : SessionState)
            → (first : OpensUnrevoked (IsRevoked (R.revoked_until revocations.old)) self.now
            (map (λ c. c.fields) cookies.now) now place s)
            → HoldsOne self.now (Some first.cookie)) }

        // The first cookie of the name holds one session at most, whether one is open or not.
        ensures first { IfOk result (λ _. HoldsOne self.now
            (first_of_name self.now.cookie.now.fields.name (map (λ c. c.fields) cookies.now))) }

        // With no session open in the cookies the store isn't asked.
        ensures unasked { OpensNone self.now (map (λ c. c.fields) cookies.now) now
            → (revocations.new ≡ revocations.old)
            × ((error : R.Error) → result ≢ Err (refusal.Revocations error)) }

        // It revokes nothing.
        ensures same { R.is_intact revocations.new
            → AreSame (R.revoked_until revocations.old) (R.revoked_until revocations.new) }
        ensures kept { R.is_intact revocations.new → R.is_intact revocations.old }
    {
        let found = self.open_all(alloc, cookies, now)?;
        first_unrevoked(alloc, found, revocations)
    }

    /// Revokes one session by its id, as an administrator does: after it returned `Ok`, no copy of the session's cookie opens
    /// any more, whenever the copy was saved. The session is kept as revoked until it is over, whatever limits the site has
    /// then. Returns whether it was revoked already. A logout calls `log_out`, which knows of a renewal in the same
    /// request, and says whether another request came before.
    ///
    /// Fails if that can't be kept. The session may then be revoked or not.
    ///
    /// ```
    /// let was_revoked = sessions.revoke(&opened.session, &mut revocations)?;
    /// ```
    pub fn revoke<R: Revocations>(
        &self,
        session: &Session,
        revocations: &mut R,
    ) -> Result<bool, R::Error>
        ensures revoked { R.is_intact revocations.new → R.can_revoke → OnOk result
            (IsRevokedToo session.now.id session.now.end
            (R.revoked_until revocations.old) (R.revoked_until revocations.new)) }
        ensures already { R.is_intact revocations.new → R.can_revoke → IfOk result (λ already.
            IsTrue already ↔ IsRevoked (R.revoked_until revocations.old) session.now.id) }
        ensures err { R.is_intact revocations.new → OnErr result
            (AreSame (R.revoked_until revocations.old) (R.revoked_until revocations.new)
            ⊎ IsRevokedToo session.now.id session.now.end
            (R.revoked_until revocations.old) (R.revoked_until revocations.new)) }
        ensures kept { R.is_intact revocations.new → R.is_intact revocations.old }
    {
        revocations.revoke(session.id(), session.end())
    }
}

// The first of these sessions that isn't revoked, if there is one. With none of them the store isn't asked.
pub(crate) fn first_unrevoked<R: Revocations>(
    alloc: Global,
    found: Vec<Opened>,
    revocations: &mut R,
) -> Result<Option<Opened>, OpenError<R::Error>>
    ensures first { R.is_intact revocations.new → IfOk result
        (IsFirstLeft (R.revoked_until revocations.old) found.items) }
    ensures one { IfOk result (IsOneOf found.items) }
    ensures unasked { found.items ≡ [] → (revocations.new ≡ revocations.old)
        × ((error : R.Error) → result ≢ Err (refusal.Revocations error)) }
    ensures same { R.is_intact revocations.new
        → AreSame (R.revoked_until revocations.old) (R.revoked_until revocations.new) }
    ensures kept { R.is_intact revocations.new → R.is_intact revocations.old }
{
    if found.is_empty() {
        return Ok(None);
    }
    let ids = ids_of(alloc, &found)?;
    match revocations.first_unrevoked(&ids) {
        Ok(place) => Ok(session_at(found, place)),
        Err(error) => Err(OpenError::Revocations(error)),
    }
}

// The ids of the sessions.
fn ids_of(alloc: Global, opened: &[Opened]) -> Result<Vec<[u8; 16]>, AllocError>
    ensures { IfOk result (λ ids. ids.items ≡ map (λ o. o.session.id) opened.now) }
{
    let mut ids = Vec::with_capacity(alloc, opened.len())?;
    for one in opened {
        ids.push(*one.session.id())?;
    }
    Ok(ids)
}

// The session at this place, if there is one.
fn session_at(found: Vec<Opened>, place: Option<usize>) -> Option<Opened>
    ensures { MatchOption place (result ≡ None) (λ n. result ≡ slice_get found.items n) }
{
    found.into_iter().nth(place?)
}
