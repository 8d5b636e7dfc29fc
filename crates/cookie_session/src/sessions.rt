//! The sessions of a site.
ghost use Rattle.std.specs.Prelude.{◌≡◌, ◌↔◌, ◌⊎◌, ◌<◌, ◌≤◌, ◌-◌, ◌+◌, min, true, ℕ, List, Some, Err, IfErr, IfOk, IfSome, OnOk, OnErr, alloc_error, length, map, string_bytes};
ghost use Rattle.cookie.specs.Jar.{Add, Remove, after, empty_jar, view};
ghost use Rattle.cookie.specs.Memory.{Gives};
ghost use Rattle.cookie.specs.Originals.{first_of_name, with_originals};
ghost use Rattle.cookie.specs.Record.{IsCookie};
ghost use Rattle.cookie.specs.Keys.{encryption_half};
ghost use Rattle.cookie.specs.Sealing.{IsNonce};
ghost use Rattle.cookie.specs.SealingCalls.{IsDrawnCall};
ghost use Rattle.cookie_session.specs.KeyRing.{newest};
ghost use Rattle.cookie_session.specs.Seconds.{second_of};
ghost use Rattle.cookie_session.specs.Session.{IsSession, SessionState, seen_at};
ghost use Rattle.cookie_session.specs.Sessions.{CanSave, CanSealSession, HoldsOne, IsOpen, IsSessionSealed, IsStored, OpensFirst, bare_cookie, meets_prefix, saved_cookie, session_cookie, time_left};
ghost use Rattle.cookie_session.specs.SessionError.{IsBareRefusal};
ghost use Rattle.cookie_session.specs.Size.{browser_length, most_bytes};
ghost use Rattle.cookie_session.specs.declared.session_error.SessionError.TheVariants as refusal;

use crate::key_ring::KeyRing;
use crate::never_revoked::NeverRevoked;
use crate::open_error::OpenError;
use crate::opened::Opened;
use crate::prefix::meets_prefix;
use crate::seconds::second_of;
use crate::session::Session;
use crate::session_error::SessionError;
use crate::session_text::read_session;
use cookie::{Cookie, CookieJar, JarError};
use jiff::SignedDuration;
use jiff::civil::DateTime;
use rand_core::TryRng;
use std::alloc::{AllocError, Global};

// What the values of sessions are sealed for.
const PURPOSE: &str = "session";

/// How a site keeps its sessions: one encrypted cookie holds a session.
#[derive(Clone, Copy)]
pub struct Sessions<'a> {
    /// The keys. The newest encrypts, and each of them decrypts.
    pub keys: &'a KeyRing,
    /// The cookie with the name and the attributes that the site sets. Its name isn't empty. Its value, `Max-Age` and
    /// `Expires` don't count. With `SameSite=None` but not `Secure` no browser keeps it (RFC 6265bis 5.7).
    pub cookie: &'a Cookie<'static>,
    /// The seconds that a session lives after its start, however it is used. A session keeps the lifetime that it
    /// started with, so a longer one here is for sessions that start later, and a shorter one for all.
    pub lifetime: u32,
    /// The seconds that a session lives after it was last saved. A session keeps the idle time that it started with, as
    /// its lifetime.
    pub idle: u32,
}

impl<'a> Sessions<'a> {
    /// Opens the session of a request, at the time `now` in UTC, and returns it with the place of the key that opened
    /// it. `cookies` are the request's, as [`cookie::field_cookies`] reads them. Of those that have the site's name the
    /// first in which a session is open counts. So no cookie that another host set can hide an open session. Returns
    /// `None` if no session is open.
    ///
    /// The same list makes the request's jar, by [`CookieJar::with_cookies`], so the field is read once. A handler calls
    /// `visit`, and one that only reads and whose site revokes sessions calls `open_unrevoked`.
    ///
    /// Fails only if out of memory.
    ///
    /// ```
    /// let cookies = cookie::field_cookies(alloc, field)?;
    /// let opened = sessions.open(alloc, &cookies, now)?;
    /// ```
    pub fn open(
        &self,
        alloc: Global,
        cookies: &[Cookie<'static>],
        now: DateTime,
    ) -> Result<Option<Opened>, AllocError>
        ensures answers { Gives alloc_error result (λ answer.
            (place : ℕ) (s : SessionState)
            → (answer ≡ Some (record { session = s; place = place }))
            ↔ OpensFirst self.now (map (λ c. c.fields) cookies.now) now place s) }

        // The cookie that opens holds no other session, whatever the time.
        ensures once { IfOk result (λ _. (place : ℕ) (s : SessionState)
            → (first : OpensFirst self.now (map (λ c. c.fields) cookies.now) now place s)
            → HoldsOne self.now (Some first.cookie)) }

        // The first cookie of the name holds one session at most, whether one is open or not.
        ensures first { IfOk result (λ _. HoldsOne self.now
            (first_of_name self.now.cookie.now.fields.name (map (λ c. c.fields) cookies.now))) }

        // The session that is open in the jar of these cookies, if there is one, is the one that is found.
        ensures jar { Gives alloc_error result (λ answer.
            (place : ℕ) (s : SessionState)
            → IsOpen self.now (view (with_originals (map (λ c. c.fields) cookies.now) empty_jar)
            self.now.cookie.now.fields.name) now place s
            → answer ≡ Some (record { session = s; place = place })) }
    {
        match self.open_unrevoked(alloc, cookies, now, &mut NeverRevoked) {
            Ok(found) => Ok(found),
            Err(OpenError::OutOfMemory) => Err(AllocError),
            Err(OpenError::Revocations(never)) => match never {},
        }
    }

    /// Opens the session that a jar has under the site's name, such as one that `save` has just put there. It is the
    /// session whose text was encrypted in that cookie, under a key of the ring, if the session lives. Returns `None` if
    /// there is no such session.
    ///
    /// Don't open a request by it: a jar has each name once, so a cookie that another host set can hide the session.
    /// `open` looks at all cookies of the name.
    ///
    /// Fails only if out of memory.
    /// Example: `print` in crates/cookie_examples/src/handler.rt.
    pub fn open_jar(
        &self,
        alloc: Global,
        jar: &CookieJar,
        now: DateTime,
    ) -> Result<Option<Opened>, AllocError>
        ensures answers { Gives alloc_error result (λ answer.
            (place : ℕ) (s : SessionState)
            → (answer ≡ Some (record { session = s; place = place }))
            ↔ IsOpen self.now (view jar.now self.now.cookie.now.fields.name) now place s) }

        // A cookie holds one session at most, whatever the time.
        ensures once { IfOk result (λ _.
            HoldsOne self.now (view jar.now self.now.cookie.now.fields.name)) }
    {
        match jar.get(self.cookie.name()) {
            Some(cookie) => self.open_cookie(alloc, cookie, now),
            None => Ok(None),
        }
    }

    // The session that is open in the cookie, if one is, with the place of its key.
    pub(crate) fn open_cookie(
        &self,
        alloc: Global,
        cookie: &Cookie<'static>,
        now: DateTime,
    ) -> Result<Option<Opened>, AllocError>
        ensures answers { Gives alloc_error result (λ answer.
            (place : ℕ) (s : SessionState)
            → (answer ≡ Some (record { session = s; place = place }))
            ↔ IsOpen self.now (Some cookie.now.fields) now place s) }
        ensures once { IfOk result (λ _. HoldsOne self.now (Some cookie.now.fields)) }
    {
        let Some(opened) = self
            .keys
            .open_text(Some(PURPOSE), cookie.name(), cookie.value())?
        else {
            return Ok(None);
        };
        let Some(session) = read_session(alloc, opened.value.as_str())? else {
            return Ok(None);
        };
        if !session.is_alive(self.lifetime, self.idle, session.seen(), second_of(now)) {
            return Ok(None);
        }
        Ok(Some(Opened {
            session,
            place: opened.place,
        }))
    }

    /// Saves a session, at the time `now` in UTC: adds the site's cookie with the session's text to the jar, encrypted
    /// under the newest key. It revokes nothing: a handler calls `save_if_needed`, which ends what a renewed session
    /// replaces. Its `Max-Age` is the number of seconds that the session lives. The nonce is one draw of
    /// twelve bytes from `rng`. `rng` must be a cryptographic generator, and under one key at most 2^32 nonces may be
    /// drawn (SP 800-38D 8.3).
    ///
    /// Fails with `Prefix` if the site's cookie lacks what a browser requires of its name. Else fails with `Over` if,
    /// saved at that time, the session wouldn't live: its lifetime is over, it starts after `now`, or `idle` is 0. Else
    /// fails with `TooLong` if its text is past the cipher's limits. In these cases nothing is drawn. Else fails with
    /// `Generator` if the draw failed, with `TooLarge` if name and value have more than 4,096 bytes as printed, and
    /// with `OutOfMemory`. The jar is then as it was.
    ///
    /// ```
    /// sessions.save(alloc, &mut jar, &session, now, rng)?;
    /// ```
    pub fn save<R: TryRng>(
        &self,
        alloc: Global,
        jar: &mut CookieJar,
        session: &Session,
        now: DateTime,
        rng: &mut R,
    ) -> Result<(), SessionError>
        ensures ok { OnOk result ((nonce : List ℕ) × IsNonce nonce
            × R.may_fill rng.old nonce rng.new
            × (jar.new ≡ after (Add (saved_cookie self.now nonce now session.now)) jar.old)) }

        // A browser takes its size and its prefix.
        ensures fits { OnOk result (IfSome (view jar.new self.now.cookie.now.fields.name)
            (λ cookie. browser_length cookie ≤ most_bytes)) }
        ensures meets { OnOk result (meets_prefix self.now.cookie.now.fields ≡ true) }

        // Its texts are UTF-8, and its age is one that a duration can have.
        ensures cookie { OnOk result (IfSome (view jar.new self.now.cookie.now.fields.name)
            IsCookie) }

        // As long as the session lives, each request with this name and value opens it by the newest key.
        ensures opens { OnOk result (IsStored self.now
            (view jar.new self.now.cookie.now.fields.name)
            (seen_at (second_of now) session.now)) }

        // What is refused, and why.
        ensures prefix { (¬ (meets_prefix self.now.cookie.now.fields ≡ true))
            ↔ (result ≡ Err refusal.Prefix) }
        ensures over { meets_prefix self.now.cookie.now.fields ≡ true
            → (¬ (CanSave self.now now session.now)) ↔ (result ≡ Err refusal.Over) }
        ensures lives { OnOk result (CanSave self.now now session.now) }
        ensures too_long { CanSave self.now now session.now
            → ¬ (result ≡ Err refusal.Prefix) → ¬ (result ≡ Err refusal.OutOfMemory)
            → (¬ (CanSealSession (bare_cookie self.now now session.now)))
            ↔ (result ≡ Err refusal.TooLong) }
        ensures within { OnOk result (CanSealSession (bare_cookie self.now now session.now)) }
        ensures undrawn { ¬ ((meets_prefix self.now.cookie.now.fields ≡ true)
            × CanSave self.now now session.now
            × CanSealSession (bare_cookie self.now now session.now)) → rng.new ≡ rng.old }
        ensures failed { result ≡ Err refusal.Generator → R.Error }
        ensures memory { result ≡ Err refusal.OutOfMemory → (rng.new ≡ rng.old)
            ⊎ ((nonce : List ℕ) × IsNonce nonce × R.may_fill rng.old nonce rng.new) }
        ensures too_large { (size : ℕ) → result ≡ Err (refusal.TooLarge size)
            → (most_bytes < size) × (nonce : List ℕ) × IsNonce nonce
            × R.may_fill rng.old nonce rng.new
            × (size ≡ browser_length (saved_cookie self.now nonce now session.now)) }

        // After any refusal the jar is as it was.
        ensures err { OnErr result (jar.new ≡ jar.old) }
    {
        let cookie = self.saved_cookie(alloc, session, now, rng)?;
        jar.add(cookie)?;
        Ok(())
    }

    /// Ends the session, at the time `now` in UTC: removes the site's cookie from the jar, with the path and the domain
    /// that the site sets. If the request had the cookie, the response tells the client to drop it. A copy of the
    /// cookie still opens until the session's limits. `log_out` ends the copies too.
    ///
    /// Fails only if out of memory, and then leaves the jar as it was.
    ///
    /// ```
    /// sessions.end(alloc, &mut jar, now)?;
    /// ```
    pub fn end(&self, alloc: Global, jar: &mut CookieJar, now: DateTime) -> Result<(), AllocError>
        ensures gives { Gives alloc_error result (λ _.
            jar.new ≡ after (Remove self.now.cookie.now.fields now) jar.old) }
        ensures err { OnErr result (jar.new ≡ jar.old) }
    {
        let removed = jar.remove(self.cookie.clone(alloc)?, now);
        removed.map_err(|_| AllocError)
    }

    // The cookie with its value sealed as a session, under the newest key.
    pub(crate) fn sealed<R: TryRng>(
        &self,
        alloc: Global,
        mut cookie: Cookie<'static>,
        rng: &mut R,
    ) -> Result<Cookie<'static>, JarError>
        ensures outcome { IsDrawnCall (CanSealSession cookie.entry.fields)
            (IsSessionSealed (encryption_half (newest self.now.keys.now)) cookie.entry.fields)
            (λ nonce. R.may_fill rng.old nonce rng.new) (rng.new ≡ rng.old) R.Error result }
        ensures some { 0 < length self.now.keys.now }
    {
        let sealer = self.keys.newest().sealer();
        let value = sealer.seal_for(alloc, PURPOSE, cookie.name(), cookie.value(), rng)?;
        cookie.set_value_owned(value);
        Ok(cookie)
    }

    // The cookie of a session that is saved at the time `now`, before it is encrypted.
    pub(crate) fn bare_cookie(
        &self,
        alloc: Global,
        session: &Session,
        now: DateTime,
    ) -> Result<Cookie<'static>, SessionError>
        ensures ok { IfOk result (λ cookie. cookie.fields
            ≡ bare_cookie self.now now session.now) }
        ensures session { OnOk result (IsSession (seen_at (second_of now) session.now)) }
        ensures meets { OnOk result (meets_prefix self.now.cookie.now.fields ≡ true) }
        ensures lives { OnOk result (CanSave self.now now session.now) }
        ensures prefix { (¬ (meets_prefix self.now.cookie.now.fields ≡ true))
            ↔ (result ≡ Err refusal.Prefix) }
        ensures over { meets_prefix self.now.cookie.now.fields ≡ true
            → (¬ (CanSave self.now now session.now)) ↔ (result ≡ Err refusal.Over) }
        ensures others { IfErr result IsBareRefusal }
    {
        if !meets_prefix(self.cookie) {
            return Err(SessionError::Prefix);
        }
        let second = second_of(now);
        if !session.is_alive(self.lifetime, self.idle, second, second) {
            return Err(SessionError::Over);
        }
        let text = session.text_at(alloc, second)?;
        Ok(self.cookie_with(alloc, text, self.time_left(session, second))?)
    }

    // The seconds that a session lives that was saved now.
    fn time_left(&self, session: &Session, now: u64) -> u32
        requires begun { session.now.started ≤ now }
        requires young { now < session.now.started + self.now.lifetime }
        requires own { now < session.now.end }
        ensures { result ≡ time_left self.now now session.now }
    {
        let young = self.lifetime as u64 - (now - session.started());
        let own = session.end() - now;
        let idle = session.idle().min(self.idle as u64);
        young.min(own).min(idle) as u32
    }

    // The site's cookie with that value, for that many seconds.
    fn cookie_with(
        &self,
        alloc: Global,
        text: String,
        age: u32,
    ) -> Result<Cookie<'static>, AllocError>
        ensures { IfOk result (λ cookie. cookie.fields
            ≡ session_cookie self.now.cookie.now.fields age (string_bytes text)) }
    {
        let mut cookie = self.cookie.clone(alloc)?;
        cookie.set_value_owned(text);
        cookie.set_max_age(Some(SignedDuration::from_secs(age as i64)));
        cookie.unset_expires();
        Ok(cookie)
    }
}
