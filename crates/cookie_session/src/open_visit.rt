//! Opening the session of a request for its handler.
ghost use Rattle.std.specs.Prelude.{◌≡◌, ◌≢◌, ◌↔◌, ◌⊎◌, ℕ, None, Some, Err, IfErr, IfOk, OnErr, map, true};
ghost use Rattle.std.specs.FinMap.{empty};
ghost use Rattle.cookie_session.specs.Id.{IsId};
ghost use Rattle.cookie_session.specs.Revocations.{AreSame, IsRevoked};
ghost use Rattle.cookie_session.specs.Session.{SessionState};
ghost use Rattle.cookie_session.specs.Sessions.{OpensNone, OpensOne, OpensUnrevoked, started_at};
ghost use Rattle.cookie_session.specs.Visit.{new_visit, opened_visit};
ghost use Rattle.cookie_session.specs.declared.session_error.SessionError.{SessionError as SessionRefusal};
ghost use Rattle.cookie_session.specs.declared.session_error.SessionError.TheVariants as refusal;
ghost use Rattle.cookie_session.specs.declared.visit_error.VisitError.TheVariants as failure;

use crate::open_unrevoked::first_unrevoked;
use crate::revocations::Revocations;
use crate::sessions::Sessions;
use crate::visit::Visit;
use crate::visit_error::VisitError;
use cookie::Cookie;
use jiff::civil::DateTime;
use rand_core::TryRng;
use std::alloc::Global;

impl<'a> Sessions<'a> {
    /// Opens the session of a request for its handler, at the time `now` in UTC: the one that `open_unrevoked` finds, or
    /// else a new one. `cookies` are the request's, as [`cookie::field_cookies`] reads them. A site that revokes no
    /// sessions passes in [`NeverRevoked`](crate::NeverRevoked). Only a new session draws its id from `rng`, which must be
    /// a cryptographic generator.
    ///
    /// Fails with `Revocations` if a session can't be looked up, with `Generator` if the draw failed, or if out of memory.
    /// With no session open in the cookies the store isn't asked.
    ///
    /// Example: `handle` in crates/cookie_examples/src/handler.rt.
    pub fn visit<G: TryRng, R: Revocations>(
        &self,
        alloc: Global,
        cookies: &[Cookie<'static>],
        now: DateTime,
        rng: &mut G,
        revocations: &mut R,
    ) -> Result<Visit, VisitError<R::Error>>
        ensures answers { R.is_intact revocations.new → IfOk result (λ visit.
            (place : ℕ) (s : SessionState)
            → (visit ≡ opened_visit s place)
            ↔ OpensUnrevoked (IsRevoked (R.revoked_until revocations.old)) self.now
            (map (λ c. c.fields) cookies.now) now place s) }

        // Else a new session starts.
        ensures started { IfOk result (λ visit. visit.place ≡ None
            → IsId visit.session.id × G.may_fill rng.old visit.session.id rng.new
            × (visit ≡ new_visit (started_at self.now now visit.session.id empty)
            visit.shows_revoked)) }
        ensures undrawn { IfOk result (λ visit. visit.place ≢ None → rng.new ≡ rng.old) }

        // It is known whether the request shows only revoked sessions.
        ensures revoked { IfOk result (λ visit. (visit.shows_revoked ≡ true)
            ↔ ((visit.place ≡ None)
            × ¬ (OpensNone self.now (map (λ c. c.fields) cookies.now) now))) }

        // Whatever the look-up says, only a session opens that is open in one of the cookies.
        ensures sealed { IfOk result (λ visit. (place : ℕ) → visit.place ≡ Some place
            → (visit ≡ opened_visit visit.session place)
            × OpensOne self.now (map (λ c. c.fields) cookies.now) now place visit.session) }

        // What is refused, and why.
        ensures fails { (why : SessionRefusal) → result ≡ Err (failure.Session why)
            → (why ≡ refusal.OutOfMemory) ⊎ ((why ≡ refusal.Generator) × G.Error) }
        ensures never { result ≢ Err failure.Gone }

        // With no session open in the cookies the store isn't asked.
        ensures unasked { OpensNone self.now (map (λ c. c.fields) cookies.now) now
            → (revocations.new ≡ revocations.old)
            × ((error : R.Error) → result ≢ Err (failure.Revocations error)) }

        // It revokes nothing.
        ensures same { R.is_intact revocations.new
            → AreSame (R.revoked_until revocations.old) (R.revoked_until revocations.new) }
        ensures kept { R.is_intact revocations.new → R.is_intact revocations.old }
    {
        let found = self.open_all(alloc, cookies, now)?;
        let shows_one = !found.is_empty();
        match first_unrevoked(alloc, found, revocations)? {
            Some(opened) => Ok(Visit::of(opened)),
            None => Ok(Visit::new(self.start(alloc, now, rng)?, shows_one)),
        }
    }
}
