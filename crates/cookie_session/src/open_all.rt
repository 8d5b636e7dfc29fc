//! Opening each session that a request has.
ghost use Rattle.std.specs.Prelude.{IfOk, alloc_error, map};
ghost use Rattle.cookie.specs.Memory.{Gives};
ghost use Rattle.cookie_session.specs.Sessions.{AreFound, EachHoldsOne, site_cookies};

use crate::opened::Opened;
use crate::sessions::Sessions;
use cookie::Cookie;
use jiff::civil::DateTime;
use std::alloc::{AllocError, Global};

impl<'a> Sessions<'a> {
    /// Opens each session that is open in the request's cookies of the site's name, at the time `now` in UTC. They come in
    /// the order of the cookies, whether they are revoked or not. Each such cookie is decrypted once.
    ///
    /// It is for a site that looks the ids up itself, as a server in another language does. `open_unrevoked` asks a
    /// [`Revocations`](crate::Revocations), and returns the first that isn't revoked.
    ///
    /// Fails only if out of memory.
    ///
    /// ```
    /// let opened = sessions.open_all(alloc, &cookies, now)?;
    /// ```
    pub fn open_all(
        &self,
        alloc: Global,
        cookies: &[Cookie<'static>],
        now: DateTime,
    ) -> Result<Vec<Opened>, AllocError>
        ensures found { Gives alloc_error result (λ found. AreFound self.now now
            (site_cookies self.now (map (λ c. c.fields) cookies.now)) found.items) }

        // None of these cookies holds another session, whatever the time.
        ensures once { IfOk result (λ _. EachHoldsOne self.now
            (site_cookies self.now (map (λ c. c.fields) cookies.now))) }
    {
        let mut found = Vec::new(alloc);
        for cookie in cookies {
            if cookie.name() == self.cookie.name() {
                if let Some(opened) = self.open_cookie(alloc, cookie, now)? {
                    found.push(opened)?;
                }
            }
        }
        Ok(found)
    }
}
