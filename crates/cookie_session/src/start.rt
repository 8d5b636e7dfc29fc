//! Starting a session, and starting one anew.
ghost use Rattle.std.specs.Prelude.{◌≡◌, ◌+◌, IfErr, IfOk, OnErr, OnOk};
ghost use Rattle.std.specs.FinMap.{empty};
ghost use Rattle.cookie_session.specs.Id.{IsId};
ghost use Rattle.cookie_session.specs.Seconds.{second_of};
ghost use Rattle.cookie_session.specs.Sessions.{started_at};
ghost use Rattle.cookie_session.specs.declared.session_error.SessionError.TheVariants as refusal;

use crate::id::draw_id;
use crate::seconds::second_of;
use crate::session::Session;
use crate::session_error::SessionError;
use crate::sessions::Sessions;
use crate::times::Times;
use cookie::TextMap;
use jiff::civil::DateTime;
use rand_core::TryRng;
use std::alloc::Global;

impl<'a> Sessions<'a> {
    /// Starts a session at the time `now` in UTC, without texts. In the place of a request's session, as at a login,
    /// [`Visit::renew`](crate::Visit::renew) or `restart` starts one: they end the other. It keeps the lifetime and the idle time that the site
    /// has now: it is over at the earlier of these limits and those that the site has later. Its id is one draw of
    /// sixteen bytes from `rng`, which must be a cryptographic generator. It doesn't allocate.
    ///
    /// Fails only with `Generator`, if the draw failed.
    ///
    /// ```
    /// let mut session = sessions.start(alloc, now, &mut rng)?;
    /// session.set("user", "ann")?;
    /// ```
    pub fn start<R: TryRng>(
        &self,
        alloc: Global,
        now: DateTime,
        rng: &mut R,
    ) -> Result<Session, SessionError>
        ensures drawn { IfOk result (λ session. R.may_fill rng.old session.id rng.new) }
        ensures is_id { IfOk result (λ session. IsId session.id) }
        ensures started { IfOk result (λ session.
            session ≡ started_at self.now now session.id empty) }
        ensures failed { IfErr result (λ why. (why ≡ refusal.Generator) × R.Error) }
    {
        let id = draw_id(rng)?;
        Ok(Session::of(id, self.times_at(now), TextMap::new(alloc)))
    }

    // Starts the session anew with the same texts. `Visit::renew` calls it, and knows what the saved session replaces.
    pub(crate) fn renew<R: TryRng>(
        &self,
        session: &mut Session,
        now: DateTime,
        rng: &mut R,
    ) -> Result<(), SessionError>
        ensures drawn { OnOk result (R.may_fill rng.old session.new.id rng.new) }
        ensures is_id { OnOk result (IsId session.new.id) }
        ensures renewed { OnOk result (session.new
            ≡ started_at self.now now session.new.id session.old.texts) }
        ensures failed { IfErr result (λ why. (why ≡ refusal.Generator) × R.Error) }
        ensures err { OnErr result (session.new ≡ session.old) }
    {
        let id = draw_id(rng)?;
        session.restart(id, self.times_at(now));
        Ok(())
    }

    // The times of a session that starts now.
    fn times_at(&self, now: DateTime) -> Times
        ensures { result ≡ record {
          started = second_of now;
          end = second_of now + self.now.lifetime;
          idle = self.now.idle;
          seen = second_of now;
        } }
    {
        let second = second_of(now);
        Times {
            started: second,
            end: second + self.lifetime as u64,
            idle: self.idle as u64,
            seen: second,
        }
    }
}
