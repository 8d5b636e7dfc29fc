//! Logging a visitor out.
ghost use Rattle.std.specs.Prelude.{◌≡◌, ◌≢◌, ◌↔◌, None, Ok, Some, Err, IfOk, IsTrue, OnErr};
ghost use Rattle.cookie.specs.Jar.{Remove, after};
ghost use Rattle.cookie_session.specs.Endings.{IsGone, IsSpent, MayBeSpent};
ghost use Rattle.cookie_session.specs.Seconds.{second_of};
ghost use Rattle.cookie_session.specs.declared.ending.Ending.TheVariants as endings;
ghost use Rattle.cookie_session.specs.declared.pass.Pass.{Pass as PassValue};
ghost use Rattle.cookie_session.specs.declared.session_error.SessionError.{SessionError as SessionRefusal};
ghost use Rattle.cookie_session.specs.declared.session_error.SessionError.TheVariants as refusal;
ghost use Rattle.cookie_session.specs.declared.visit_error.VisitError.TheVariants as failure;

use crate::ending::Ending;
use crate::pass::Pass;
use crate::revocations::Revocations;
use crate::sessions::Sessions;
use crate::visit::Visit;
use crate::visit_error::VisitError;
use cookie::CookieJar;
use jiff::civil::DateTime;
use std::alloc::Global;

impl<'a> Sessions<'a> {
    /// Logs a visitor out, at the time `now` in UTC: revokes what the user agent has until it is over, and removes the
    /// site's cookie from the jar, as [`Sessions::end`] does. After `Ended` no copy of a cookie of this login opens any
    /// more, whoever has it, and whichever requests renewed the session before. `Nobody` and `Gone` leave the jar as it
    /// was. The visit is taken, so nothing can be saved after it.
    ///
    /// With [`NeverRevoked`](crate::NeverRevoked) only the cookie is removed, and copies open until the session's limits.
    ///
    /// Fails if out of memory, and then nothing is revoked, or with `Revocations` if the store failed: then it may be
    /// revoked, so tell the user that the logout failed. After any failure the jar is as it was.
    ///
    /// ```
    /// match sessions.log_out(alloc, &mut jar, visit, now, &mut revocations)? {
    ///     Ending::Ended => show("You are logged out."),
    ///     Ending::Nobody => show("You weren't logged in."),
    ///     Ending::Gone => show("Please try again."),
    /// }
    /// ```
    pub fn log_out<R: Revocations>(
        &self,
        alloc: Global,
        jar: &mut CookieJar,
        visit: Visit,
        now: DateTime,
        revocations: &mut R,
    ) -> Result<Ending, VisitError<R::Error>>
        // What the user agent has is revoked until its own end, and wasn't over or revoked before.
        ensures ended { (pass : PassValue) → visit.given ≡ Some pass → R.is_intact revocations.new
            → R.can_revoke → result ≡ Ok endings.Ended → IsSpent (second_of now) pass
            (R.revoked_until revocations.old) (R.revoked_until revocations.new) }

        // The user agent has nothing, so the store isn't asked.
        ensures nobody { (visit.given ≡ None) ↔ (result ≡ Ok endings.Nobody) }
        ensures unasked { visit.given ≡ None → revocations.new ≡ revocations.old }

        // It was over, or revoked already.
        ensures gone { (pass : PassValue) → visit.given ≡ Some pass → R.is_intact revocations.new
            → R.can_revoke → result ≡ Ok endings.Gone → IsGone (second_of now) pass
            (R.revoked_until revocations.old) (R.revoked_until revocations.new) }

        // Only after a logout the cookie is removed.
        ensures removed { result ≡ Ok endings.Ended
            → jar.new ≡ after (Remove self.now.cookie.now.fields now) jar.old }
        ensures stays { result ≢ Ok endings.Ended → jar.new ≡ jar.old }

        // If the store failed, it may be revoked. Out of memory it isn't.
        ensures unsure { (error : R.Error) → result ≡ Err (failure.Revocations error)
            → (pass : PassValue) × (visit.given ≡ Some pass)
            × (R.is_intact revocations.new → MayBeSpent pass
            (R.revoked_until revocations.old) (R.revoked_until revocations.new)) }
        ensures memory { (why : SessionRefusal) → result ≡ Err (failure.Session why)
            → (why ≡ refusal.OutOfMemory) × (revocations.new ≡ revocations.old) }
        ensures never { result ≢ Err failure.Gone }
        ensures kept { R.is_intact revocations.new → R.is_intact revocations.old }
    {
        let Some(given) = visit.given else {
            return Ok(Ending::Nobody);
        };
        let mut ended = jar.clone()?;
        self.end(alloc, &mut ended, now)?;
        if !spend(&given, now, revocations)? {
            return Ok(Ending::Gone);
        }
        *jar = ended;
        Ok(Ending::Ended)
    }
}

// Revokes the pass until its own end, unless it is over. Returns whether it was neither over nor revoked before.
pub(crate) fn spend<R: Revocations>(
    pass: &Pass,
    now: DateTime,
    revocations: &mut R,
) -> Result<bool, VisitError<R::Error>>
    ensures spent { R.is_intact revocations.new → R.can_revoke → IfOk result (λ is_spent.
        IsTrue is_spent → IsSpent (second_of now) pass.now
        (R.revoked_until revocations.old) (R.revoked_until revocations.new)) }
    ensures gone { R.is_intact revocations.new → R.can_revoke → IfOk result (λ is_spent.
        (¬ IsTrue is_spent) → IsGone (second_of now) pass.now
        (R.revoked_until revocations.old) (R.revoked_until revocations.new)) }
    ensures unsure { R.is_intact revocations.new → OnErr result (MayBeSpent pass.now
        (R.revoked_until revocations.old) (R.revoked_until revocations.new)) }
    ensures sure { (why : SessionRefusal) → result ≢ Err (failure.Session why) }
    ensures never { result ≢ Err failure.Gone }
    ensures kept { R.is_intact revocations.new → R.is_intact revocations.old }
{
    if pass.is_over(now) {
        return Ok(false);
    }
    match revocations.revoke(&pass.id, pass.end) {
        Ok(was_revoked) => Ok(!was_revoked),
        Err(error) => Err(VisitError::Revocations(error)),
    }
}
