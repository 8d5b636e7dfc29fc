//! Saving the session of a request only if it must be saved.
ghost use Rattle.std.specs.Prelude.{◌≡◌, ◌↔◌, ◌⊎◌, ◌+◌, ◌/◌, ◌<◌, ◌≤◌, ℕ, Err, IfOk, IfSome, IsTrue, List, Ok, OnErr, OnOk, false, true};
ghost use Rattle.cookie.specs.Jar.{Add, after, view};
ghost use Rattle.cookie.specs.Record.{IsCookie};
ghost use Rattle.cookie.specs.Sealing.{IsNonce};
ghost use Rattle.cookie_session.specs.Endings.{IsGone, IsSpent, MayBeSpent};
ghost use Rattle.cookie_session.specs.Seconds.{second_of};
ghost use Rattle.cookie_session.specs.Session.{seen_at};
ghost use Rattle.cookie_session.specs.Sessions.{CanSave, CanSealSession, IsStored, bare_cookie, meets_prefix, saved_cookie};
ghost use Rattle.cookie_session.specs.Size.{browser_length, most_bytes};
ghost use Rattle.cookie_session.specs.Visit.{IsDue, MustSave, Replaces, saved_visit};
ghost use Rattle.cookie_session.specs.declared.pass.Pass.{Pass as PassValue};
ghost use Rattle.cookie_session.specs.declared.session_error.SessionError.{SessionError as SessionRefusal};
ghost use Rattle.cookie_session.specs.declared.session_error.SessionError.TheVariants as refusal;
ghost use Rattle.cookie_session.specs.declared.visit_error.VisitError.TheVariants as failure;

use crate::log_out::spend;
use crate::revocations::Revocations;
use crate::seconds::second_of;
use crate::session::Session;
use crate::sessions::Sessions;
use crate::visit::Visit;
use crate::visit_error::VisitError;
use cookie::{Cookie, CookieJar};
use jiff::civil::DateTime;
use rand_core::TryRng;
use std::alloc::Global;

impl<'a> Sessions<'a> {
    /// Whether the session of a request must be saved, at the time `now` in UTC: it was changed, it is new, an older key
    /// opened it, or a tenth of the idle time has passed since it was last saved. A new session without texts needn't be
    /// saved, so a visitor who does nothing gets no cookie. Nor is a new one saved if the request shows a revoked session,
    /// unless it was started by name ([`Visit::shows_revoked`]).
    pub fn must_save(&self, visit: &Visit, now: DateTime) -> bool
        ensures { IsTrue result ↔ MustSave self.now now visit.now }
    {
        if visit.shows_revoked {
            return false;
        }
        match visit.place {
            None => visit.given.is_some() || !visit.session.is_empty(),
            Some(place) => visit.is_changed || place > 0 || self.is_due(&visit.session, now),
        }
    }

    // Whether a tenth of the idle time, the site's or its own, has passed since the session was last saved.
    fn is_due(&self, session: &Session, now: DateTime) -> bool
        ensures { IsTrue result ↔ IsDue self.now now session.now }
    {
        let second = second_of(now);
        let idle = session.idle().min(self.idle as u64);
        session.seen() <= second && second - session.seen() >= idle / 10
    }

    /// Saves the session of a request, as [`Sessions::save`] does, if it must be saved (`must_save`). Returns whether it
    /// was saved. If it needn't be, nothing is drawn, and the jar stays as it is.
    ///
    /// If the session was renewed, its cookie replaces what the user agent has. That is revoked first, until it is over:
    /// so of a login at most one session opens, whoever has copies. Only a save after a renewal asks the store.
    ///
    /// Fails with `Session` as [`Sessions::save`] does, and then nothing is revoked. Fails with `Gone` if what is replaced
    /// was over, or revoked already: of two requests that renew a session at the same moment one gets it, and so does a
    /// renewal that comes after a logout. Fails with `Revocations` if the store failed: what is replaced may be revoked
    /// then. After any failure the jar and the visit are as they were.
    pub fn save_if_needed<G: TryRng, R: Revocations>(
        &self,
        alloc: Global,
        jar: &mut CookieJar,
        visit: &mut Visit,
        now: DateTime,
        rng: &mut G,
        revocations: &mut R,
    ) -> Result<bool, VisitError<R::Error>>
        ensures skipped { ¬ MustSave self.now now visit.old → (result ≡ Ok false)
            × (jar.new ≡ jar.old) × (visit.new ≡ visit.old)
            × (rng.new ≡ rng.old) × (revocations.new ≡ revocations.old) }
        ensures saved { MustSave self.now now visit.old → IfOk result (λ saved. (saved ≡ true)
            × (nonce : List ℕ) × IsNonce nonce × G.may_fill rng.old nonce rng.new
            × (jar.new ≡ after (Add (saved_cookie self.now nonce now visit.old.session)) jar.old)
            × (visit.new ≡ saved_visit visit.old)) }

        // What it replaces is revoked until its own end, and wasn't over or revoked before.
        ensures spent { MustSave self.now now visit.old → (pass : PassValue)
            → Replaces visit.old pass → R.is_intact revocations.new → R.can_revoke
            → OnOk result (IsSpent (second_of now) pass
            (R.revoked_until revocations.old) (R.revoked_until revocations.new)) }

        // If it was over, or revoked already, nothing is saved.
        ensures gone { R.is_intact revocations.new → R.can_revoke → result ≡ Err failure.Gone
            → (pass : PassValue) × Replaces visit.old pass × IsGone (second_of now) pass
            (R.revoked_until revocations.old) (R.revoked_until revocations.new) }

        // If the store failed, it may be revoked.
        ensures unsure { (error : R.Error) → result ≡ Err (failure.Revocations error)
            → (pass : PassValue) × Replaces visit.old pass
            × (R.is_intact revocations.new → MayBeSpent pass
            (R.revoked_until revocations.old) (R.revoked_until revocations.new)) }

        // The store isn't asked about a session that replaces none, nor about one that can't be saved.
        ensures plain { ((pass : PassValue) → ¬ Replaces visit.old pass)
            → revocations.new ≡ revocations.old }
        ensures refused { (why : SessionRefusal) → result ≡ Err (failure.Session why)
            → revocations.new ≡ revocations.old }
        ensures kept { R.is_intact revocations.new → R.is_intact revocations.old }

        // A browser takes its size and its prefix. Its texts are UTF-8, and its age is one that a duration can have.
        ensures fits { MustSave self.now now visit.old → OnOk result (IfSome
            (view jar.new self.now.cookie.now.fields.name)
            (λ cookie. browser_length cookie ≤ most_bytes)) }
        ensures meets { MustSave self.now now visit.old
            → OnOk result (meets_prefix self.now.cookie.now.fields ≡ true) }
        ensures cookie { MustSave self.now now visit.old → OnOk result (IfSome
            (view jar.new self.now.cookie.now.fields.name) IsCookie) }

        // As long as the session lives, each request with this name and value opens it by the newest key.
        ensures opens { MustSave self.now now visit.old → OnOk result (IsStored self.now
            (view jar.new self.now.cookie.now.fields.name)
            (seen_at (second_of now) visit.old.session)) }

        // What is refused, and why.
        ensures prefix { MustSave self.now now visit.old
            → (¬ (meets_prefix self.now.cookie.now.fields ≡ true))
            ↔ (result ≡ Err (failure.Session refusal.Prefix)) }
        ensures over { MustSave self.now now visit.old
            → meets_prefix self.now.cookie.now.fields ≡ true
            → (¬ (CanSave self.now now visit.old.session))
            ↔ (result ≡ Err (failure.Session refusal.Over)) }
        ensures lives { MustSave self.now now visit.old
            → OnOk result (CanSave self.now now visit.old.session) }
        ensures too_long { MustSave self.now now visit.old
            → CanSave self.now now visit.old.session
            → ¬ (result ≡ Err (failure.Session refusal.Prefix))
            → ¬ (result ≡ Err (failure.Session refusal.OutOfMemory))
            → (¬ (CanSealSession (bare_cookie self.now now visit.old.session)))
            ↔ (result ≡ Err (failure.Session refusal.TooLong)) }
        ensures within { MustSave self.now now visit.old
            → OnOk result (CanSealSession (bare_cookie self.now now visit.old.session)) }
        ensures undrawn { ¬ ((meets_prefix self.now.cookie.now.fields ≡ true)
            × CanSave self.now now visit.old.session
            × CanSealSession (bare_cookie self.now now visit.old.session)) → rng.new ≡ rng.old }
        ensures too_large { (size : ℕ) → result ≡ Err (failure.Session (refusal.TooLarge size))
            → (most_bytes < size) × (nonce : List ℕ) × IsNonce nonce
            × G.may_fill rng.old nonce rng.new
            × (size ≡ browser_length (saved_cookie self.now nonce now visit.old.session)) }
        ensures failed { result ≡ Err (failure.Session refusal.Generator) → G.Error }
        ensures memory { result ≡ Err (failure.Session refusal.OutOfMemory)
            → (rng.new ≡ rng.old)
            ⊎ ((nonce : List ℕ) × IsNonce nonce × G.may_fill rng.old nonce rng.new) }

        // After any refusal the jar and the visit are as they were.
        ensures err { OnErr result ((jar.new ≡ jar.old) × (visit.new ≡ visit.old)) }
    {
        if !self.must_save(visit, now) {
            return Ok(false);
        }
        let cookie = self.saved_cookie(alloc, &visit.session, now, rng)?;
        give(jar, visit, cookie, now, revocations)?;
        Ok(true)
    }
}

// Adds the cookie of the visit's session to the jar, once what it replaces is revoked.
fn give<R: Revocations>(
    jar: &mut CookieJar,
    visit: &mut Visit,
    cookie: Cookie<'static>,
    now: DateTime,
    revocations: &mut R,
) -> Result<(), VisitError<R::Error>>
    ensures ok { OnOk result ((jar.new ≡ after (Add cookie.entry.fields) jar.old)
        × (visit.new ≡ saved_visit visit.old)) }
    ensures spent { (pass : PassValue) → Replaces visit.old pass
        → R.is_intact revocations.new → R.can_revoke → OnOk result (IsSpent (second_of now) pass
        (R.revoked_until revocations.old) (R.revoked_until revocations.new)) }
    ensures gone { R.is_intact revocations.new → R.can_revoke → result ≡ Err failure.Gone
        → (pass : PassValue) × Replaces visit.old pass × IsGone (second_of now) pass
        (R.revoked_until revocations.old) (R.revoked_until revocations.new) }
    ensures unsure { (error : R.Error) → result ≡ Err (failure.Revocations error)
        → (pass : PassValue) × Replaces visit.old pass
        × (R.is_intact revocations.new → MayBeSpent pass
        (R.revoked_until revocations.old) (R.revoked_until revocations.new)) }
    ensures plain { ((pass : PassValue) → ¬ Replaces visit.old pass)
        → revocations.new ≡ revocations.old }
    ensures memory { (why : SessionRefusal) → result ≡ Err (failure.Session why)
        → (why ≡ refusal.OutOfMemory) × (revocations.new ≡ revocations.old) }
    ensures err { OnErr result ((jar.new ≡ jar.old) × (visit.new ≡ visit.old)) }
    ensures kept { R.is_intact revocations.new → R.is_intact revocations.old }
{
    match visit.replaced() {
        Some(pass) => {
            let mut changed = jar.clone()?;
            changed.add(cookie)?;
            if !spend(&pass, now, revocations)? {
                return Err(VisitError::Gone);
            }
            *jar = changed;
        }
        None => jar.add(cookie)?,
    }
    visit.set_saved();
    Ok(())
}
