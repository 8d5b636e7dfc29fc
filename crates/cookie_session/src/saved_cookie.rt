//! The cookie of a session that is saved.
ghost use Rattle.std.specs.Prelude.{◌≡◌, ◌↔◌, ◌⊎◌, ◌<◌, ◌≤◌, true, ℕ, List, Some, Err, IfOk, OnOk};
ghost use Rattle.cookie.specs.Record.{IsCookie};
ghost use Rattle.cookie.specs.Sealing.{IsNonce};
ghost use Rattle.cookie_session.specs.Seconds.{second_of};
ghost use Rattle.cookie_session.specs.Session.{seen_at};
ghost use Rattle.cookie_session.specs.Sessions.{CanSave, CanSealSession, IsStored, bare_cookie, meets_prefix, saved_cookie};
ghost use Rattle.cookie_session.specs.Size.{browser_length, most_bytes};
ghost use Rattle.cookie_session.specs.declared.session_error.SessionError.TheVariants as refusal;

use crate::session::Session;
use crate::session_error::SessionError;
use crate::sessions::Sessions;
use crate::size::browser_length;
use cookie::{Cookie, MOST_BYTES};
use jiff::civil::DateTime;
use rand_core::TryRng;
use std::alloc::Global;

impl<'a> Sessions<'a> {
    /// The cookie that `save` adds to a jar, for a response without one: the site's cookie with the session's text,
    /// encrypted under the newest key. The nonce is drawn from `rng` as by `save`, and fails as it does.
    ///
    /// ```
    /// let cookie = sessions.saved_cookie(alloc, &session, now, rng)?;
    /// writeln!(out, "Set-Cookie: {}", cookie.encoded())?;
    /// ```
    pub fn saved_cookie<R: TryRng>(
        &self,
        alloc: Global,
        session: &Session,
        now: DateTime,
        rng: &mut R,
    ) -> Result<Cookie<'static>, SessionError>
        ensures ok { IfOk result (λ cookie. (nonce : List ℕ) × IsNonce nonce
            × R.may_fill rng.old nonce rng.new
            × (cookie.fields ≡ saved_cookie self.now nonce now session.now)) }

        // A browser takes its size and its prefix.
        ensures fits { IfOk result (λ cookie. browser_length cookie.fields ≤ most_bytes) }
        ensures meets { OnOk result (meets_prefix self.now.cookie.now.fields ≡ true) }

        // Its texts are UTF-8, and its age is one that a duration can have.
        ensures cookie { IfOk result (λ cookie. IsCookie cookie.fields) }

        // As long as the session lives, each request with this name and value opens it by the newest key.
        ensures opens { IfOk result (λ cookie. IsStored self.now (Some cookie.fields)
            (seen_at (second_of now) session.now)) }

        // What is refused, and why.
        ensures prefix { (¬ (meets_prefix self.now.cookie.now.fields ≡ true))
            ↔ (result ≡ Err refusal.Prefix) }
        ensures over { meets_prefix self.now.cookie.now.fields ≡ true
            → (¬ (CanSave self.now now session.now)) ↔ (result ≡ Err refusal.Over) }
        ensures lives { OnOk result (CanSave self.now now session.now) }
        ensures too_long { CanSave self.now now session.now
            → ¬ (result ≡ Err refusal.Prefix) → ¬ (result ≡ Err refusal.OutOfMemory)
            → (¬ (CanSealSession (bare_cookie self.now now session.now)))
            ↔ (result ≡ Err refusal.TooLong) }
        ensures within { OnOk result (CanSealSession (bare_cookie self.now now session.now)) }
        ensures undrawn { ¬ ((meets_prefix self.now.cookie.now.fields ≡ true)
            × CanSave self.now now session.now
            × CanSealSession (bare_cookie self.now now session.now)) → rng.new ≡ rng.old }
        ensures failed { result ≡ Err refusal.Generator → R.Error }
        ensures memory { result ≡ Err refusal.OutOfMemory → (rng.new ≡ rng.old)
            ⊎ ((nonce : List ℕ) × IsNonce nonce × R.may_fill rng.old nonce rng.new) }
        ensures too_large { (size : ℕ) → result ≡ Err (refusal.TooLarge size)
            → (most_bytes < size) × (nonce : List ℕ) × IsNonce nonce
            × R.may_fill rng.old nonce rng.new
            × (size ≡ browser_length (saved_cookie self.now nonce now session.now)) }
    {
        let cookie = self.bare_cookie(alloc, session, now)?;
        let sealed = self.sealed(alloc, cookie, rng)?;
        let size = browser_length(alloc, &sealed)?;
        if size > MOST_BYTES {
            return Err(SessionError::TooLarge(size));
        }
        Ok(sealed)
    }
}
