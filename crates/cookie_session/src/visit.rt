//! The session of one request, which knows whether it must be saved.
ghost use Rattle.std.specs.Prelude.{◌≡◌, ◌≢◌, ◌↔◌, None, Some, IfErr, IfOk, IsTrue, OnErr, OnOk, Bool, false, true};
ghost use Rattle.std.specs.FinMap.{empty, get, insert, remove};
ghost use Rattle.cookie_session.specs.Endings.{IsEndedBy};
ghost use Rattle.cookie_session.specs.Form.{texts_of_form};
ghost use Rattle.cookie_session.specs.Id.{IsId};
ghost use Rattle.cookie_session.specs.Seconds.{second_of};
ghost use Rattle.cookie_session.specs.Sessions.{started_at};
ghost use Rattle.cookie_session.specs.Visit.{Replaces, new_visit, opened_visit, renewed_visit, saved_visit};
ghost use Rattle.cookie_session.specs.declared.ending.Ending.TheVariants as endings;
ghost use Rattle.cookie_session.specs.declared.pass.Pass.{Pass as PassValue};
ghost use Rattle.cookie_session.specs.declared.session_error.SessionError.TheVariants as refusal;

use crate::ending::Ending;
use crate::opened::Opened;
use crate::pass::Pass;
use crate::session::Session;
use crate::session_error::SessionError;
use crate::sessions::Sessions;
use jiff::civil::DateTime;
use rand_core::TryRng;
use std::alloc::{AllocError, Global};
use std::marker::Model;

/// The session of one request: the one that was open, or a new one. It knows whether it must be saved, so that
/// [`Sessions::save_if_needed`] sends no cookie that nobody needs. And it knows what the user agent has, so that a renewal
/// or a logout leaves no copy that opens. Contracts see it as a `VisitState`. [`Sessions::visit`] makes one.
///
/// ```
/// let mut visit = sessions.visit(alloc, &cookies, now, &mut rng, &mut revocations)?;
/// visit.set("theme", "dark")?;
/// sessions.save_if_needed(alloc, &mut jar, &mut visit, now, &mut rng, &mut revocations)?;
/// ```
#[derive(Drop)]
pub struct Visit {
    pub(crate) session: Session,
    pub(crate) place: Option<usize>,
    pub(crate) given: Option<Pass>,
    pub(crate) is_changed: bool,
    pub(crate) shows_revoked: bool,
}

impl Model for Visit {
    ghost use Rattle.cookie_session.specs.Visit.{VisitState, visit_code};

    ghost Value = { VisitState };

    ghost coded = { visit_code };

    ghost view = { λ v. record {
      session = v.session;
      place = v.place;
      given = v.given;
      is_changed = v.is_changed;
      shows_revoked = v.shows_revoked;
    } };
}

impl Visit {
    /// The visit of a request whose session was found open. It is for a site that looks up itself which sessions are
    /// revoked ([`Sessions::open_all`]). Any other calls [`Sessions::visit`].
    pub fn of(opened: Opened) -> Visit
        ensures { result ≡ opened_visit opened.session opened.place }
    {
        let pass = opened.session.pass();
        Visit {
            session: opened.session,
            place: Some(opened.place),
            given: Some(pass),
            is_changed: false,
            shows_revoked: false,
        }
    }

    /// The visit of a request without a session: a new one of the site starts at the time `now` in UTC. It is for a site
    /// that looks up itself which sessions are revoked. Any other calls [`Sessions::visit`]. The id is one draw of sixteen
    /// bytes from `rng`, which must be a cryptographic generator.
    ///
    /// Fails only with `Generator`, if the draw failed.
    pub fn start<R: TryRng>(
        alloc: Global,
        sessions: &Sessions<'_>,
        now: DateTime,
        rng: &mut R,
    ) -> Result<Visit, SessionError>
        ensures drawn { IfOk result (λ visit. IsId visit.session.id
            × R.may_fill rng.old visit.session.id rng.new) }
        ensures started { IfOk result (λ visit.
            visit ≡ new_visit (started_at sessions.now now visit.session.id empty) false) }
        ensures failed { IfErr result (λ why. (why ≡ refusal.Generator) × R.Error) }
    {
        let session = sessions.start(alloc, now, rng)?;
        Ok(Visit::new(session, false))
    }

    // The visit of a request for which this session started.
    pub(crate) fn new(session: Session, shows_revoked: bool) -> Visit
        ensures { result ≡ new_visit session shows_revoked }
    {
        Visit {
            session,
            place: None,
            given: None,
            is_changed: false,
            shows_revoked,
        }
    }

    /// The session, to look at.
    pub fn session(&self) -> &Session
        ensures { result.now ≡ self.now.session }
    {
        &self.session
    }

    /// The place of the key that opened the session: 0 is the newest. `None` if the request had no open session.
    pub fn place(&self) -> Option<usize>
        ensures { result ≡ self.now.place }
    {
        self.place
    }

    /// Whether the request had no open session.
    pub fn is_new(&self) -> bool
        ensures { IsTrue result ↔ (self.now.place ≡ None) }
    {
        self.place.is_none()
    }

    /// Whether `set`, `remove`, `renew` or `restart` changed it.
    pub fn is_changed(&self) -> bool
        ensures { result ≡ self.now.is_changed }
    {
        self.is_changed
    }

    /// Whether the request has a revoked session, and none that opens, and none was started by name since, as by `renew`.
    /// Such a request may be an old tab's, whose browser has another session by now. So `save_if_needed` saves none.
    pub fn shows_revoked(&self) -> bool
        ensures { result ≡ self.now.shows_revoked }
    {
        self.shows_revoked
    }

    /// What the user agent has: the pass of the session that was opened or saved last. A logout revokes it.
    pub fn given(&self) -> Option<Pass>
        ensures { result ≡ self.now.given }
    {
        self.given
    }

    /// What the user agent has, if the session was renewed since. It must be revoked before the session is saved, as
    /// [`Sessions::save_if_needed`] does.
    pub fn replaced(&self) -> Option<Pass>
        ensures { (pass : PassValue) → (result ≡ Some pass) ↔ Replaces self.now pass }
    {
        let given = self.given?;
        if given == self.session.pass() {
            None
        } else {
            Some(given)
        }
    }

    /// Tells that a store was asked to revoke what the user agent has, and whether that was revoked before. It is for a
    /// site that keeps itself which sessions are revoked. Any other calls [`Sessions::save_if_needed`] and
    /// [`Sessions::log_out`].
    ///
    /// After `Ended` the user agent has nothing that opens, so the session may be saved. After `Gone` nothing has changed:
    /// save nothing, and don't tell the user that a logout is done.
    pub fn end_given(&mut self, now: DateTime, was_revoked: bool) -> Ending
        ensures nobody { (self.old.given ≡ None) ↔ (result ≡ endings.Nobody) }
        ensures ended { IsEndedBy (second_of now) was_revoked self.old.given
            ↔ (result ≡ endings.Ended) }
        ensures taken { result ≡ endings.Ended → self.new ≡ record self.old { given = None } }
        ensures stays { result ≢ endings.Ended → self.new ≡ self.old }
    {
        let Some(given) = self.given else {
            return Ending::Nobody;
        };
        if was_revoked || given.is_over(now) {
            return Ending::Gone;
        }
        self.given = None;
        Ending::Ended
    }

    /// Puts a copy of `text` at `name`. Fails only if out of memory, and then leaves the visit as it was.
    pub fn set(&mut self, name: &str, text: &str) -> Result<(), AllocError>
        ensures ok { OnOk result (self.new ≡ record self.old {
          session = record self.old.session {
            texts = insert self.old.session.texts name.now text.now;
          };
          is_changed = true;
        }) }
        ensures err { OnErr result (self.new ≡ self.old) }
    {
        self.session.set(name, text)?;
        self.is_changed = true;
        Ok(())
    }

    /// Drops the text at `name`, if there is one.
    pub fn remove(&mut self, name: &str)
        ensures none { get self.old.session.texts name.now ≡ None → self.new ≡ self.old }
        ensures some { get self.old.session.texts name.now ≢ None → self.new ≡ record self.old {
          session = record self.old.session {
            texts = remove self.old.session.texts name.now;
          };
          is_changed = true;
        } }
    {
        if self.session.get(name).is_some() {
            self.session.remove(name);
            self.is_changed = true;
        }
    }

    /// Puts the texts of a form in place of its own, as [`Session::set_form`] does.
    ///
    /// Fails only if out of memory, and then leaves the visit as it was.
    pub fn set_form(&mut self, alloc: Global, form: &[u8]) -> Result<(), AllocError>
        ensures ok { OnOk result (self.new ≡ record self.old {
          session = record self.old.session {
            texts = texts_of_form form.now;
          };
          is_changed = true;
        }) }
        ensures err { OnErr result (self.new ≡ self.old) }
    {
        self.session.set_form(alloc, form)?;
        self.is_changed = true;
        Ok(())
    }

    /// Starts the session anew at the time `now` in UTC, so that the lifetime counts from now. Call it at a login. It keeps
    /// its texts, and has another id and the limits that the site has now. The id is one draw of sixteen bytes from `rng`,
    /// which must be a cryptographic generator. Once it is saved, no copy of the session from before opens any more.
    ///
    /// Fails only with `Generator`, if the draw failed, and then leaves the visit as it was.
    pub fn renew<R: TryRng>(
        &mut self,
        sessions: &Sessions<'_>,
        now: DateTime,
        rng: &mut R,
    ) -> Result<(), SessionError>
        ensures drawn { OnOk result (IsId self.new.session.id
            × R.may_fill rng.old self.new.session.id rng.new) }
        ensures renewed { OnOk result (self.new ≡ renewed_visit
            (started_at sessions.now now self.new.session.id self.old.session.texts) self.old) }
        ensures failed { IfErr result (λ why. (why ≡ refusal.Generator) × R.Error) }
        ensures err { OnErr result (self.new ≡ self.old) }
    {
        sessions.renew(&mut self.session, now, rng)?;
        self.is_changed = true;
        self.shows_revoked = false;
        Ok(())
    }

    /// Starts the session anew as `renew` does, but without texts, for a login that no text from before may survive.
    ///
    /// Fails only with `Generator`, if the draw failed, and then leaves the visit as it was.
    pub fn restart<R: TryRng>(
        &mut self,
        alloc: Global,
        sessions: &Sessions<'_>,
        now: DateTime,
        rng: &mut R,
    ) -> Result<(), SessionError>
        ensures drawn { OnOk result (IsId self.new.session.id
            × R.may_fill rng.old self.new.session.id rng.new) }
        ensures restarted { OnOk result (self.new ≡ renewed_visit
            (started_at sessions.now now self.new.session.id empty) self.old) }
        ensures failed { IfErr result (λ why. (why ≡ refusal.Generator) × R.Error) }
        ensures err { OnErr result (self.new ≡ self.old) }
    {
        self.session = sessions.start(alloc, now, rng)?;
        self.is_changed = true;
        self.shows_revoked = false;
        Ok(())
    }

    /// Tells that the cookie of its session was given out ([`Sessions::saved_cookie`]), as
    /// [`Sessions::save_if_needed`] does.
    pub fn set_saved(&mut self)
        ensures { self.new ≡ saved_visit self.old }
    {
        self.given = Some(self.session.pass());
    }
}
