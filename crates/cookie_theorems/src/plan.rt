//! Which cookies of a name a user agent can follow.
ghost use Rattle.std.specs.Prelude.{◌≡◌, ◌≢◌, ◌↔◌, ◌&&◌, not, [], true, false, IfOk, IsTrue};
ghost use Rattle.cookie.specs.Jar.{Name};
ghost use Rattle.cookie.specs.Text.{cookie_text};
ghost use Rattle.cookie_browser.specs.Storage.{is_sent, lasts, verdict};
ghost use Rattle.cookie_theorems.specs.Agreement.{PlanView};
ghost use Rattle.cookie_theorems.specs.PlannedCalls.{IsPlannedAddition, IsPlannedRemoval};
ghost use Rattle.cookie_theorems.specs.PlanCode.{fits_plan};
ghost use Rattle.cookie_agent.specs.VerdictCode.{verdict_result};

use cookie::Cookie;
use cookie_agent::{Agent, Scope, Site, StoredCookie, Verdict};
use cookie_browser::Suffixes;
use jiff::civil::DateTime;
use std::alloc::{AllocError, Global};
use std::marker::Model;

/// Where the cookies of a name are sent, and whether they may be secure-only. The theorem of
/// [`visits`](crate::visits::visits) needs a plan for each name: every cookie that is added or removed under it must
/// fit.
#[derive(Drop)]
pub struct Plan {
    scope: Scope,
    is_secure: bool,
}

impl Model for Plan {
    ghost use Rattle.cookie_theorems.specs.Agreement.{PlanView};

    ghost Value = { PlanView };

    ghost view = { λ p. record { scope = p.scope; is_secure = p.is_secure } };
}

impl Plan {
    /// The plan of this scope. A name whose cookies may be secure-only is set and removed over secure connections only.
    pub fn new(scope: Scope, is_secure: bool) -> Plan
        ensures { result ≡ record { scope = scope; is_secure = is_secure } }
    {
        Plan { scope, is_secure }
    }

    /// Whether the cookie, as a jar stores it, may be added in a response of the site at the time `now` in UTC: it has
    /// a name, an agent without cookies stores its text as planned, and sends it to the site at once. Fails only if out
    /// of memory.
    pub fn fits_addition(
        &self,
        alloc: Global,
        suffixes: &Suffixes,
        site: &Site,
        cookie: &Cookie<'_>,
        now: DateTime,
    ) -> Result<bool, AllocError>
        ensures { IfOk result (λ fits. (plans : Name → PlanView)
            → plans cookie.now.fields.name ≡ self.now
            → (IsTrue fits
            ↔ IsPlannedAddition suffixes.now site.now now plans cookie.now.fields)) }
    {
        if !has_name(cookie) {
            return Ok(false);
        }
        match verdict_of(alloc, suffixes, site, cookie, now)? {
            Verdict::Stored(stored) => Ok(self.fits_and_is_sent(site, &stored, now)),
            Verdict::Refused(_) => Ok(false),
        }
    }

    /// Whether the cookie may be removed in a response of the site at the time `now` in UTC. `removal` is what the
    /// client receives: the cookie after [`make_removal`](cookie::Cookie::make_removal). It has a name, and an agent
    /// without cookies stores its text as planned, and expired. Fails only if out of memory.
    pub fn fits_removal(
        &self,
        alloc: Global,
        suffixes: &Suffixes,
        site: &Site,
        removal: &Cookie<'_>,
        now: DateTime,
    ) -> Result<bool, AllocError>
        ensures { IfOk result (λ fits. (plans : Name → PlanView)
            → plans removal.now.fields.name ≡ self.now
            → (IsTrue fits
            ↔ IsPlannedRemoval suffixes.now site.now now plans removal.now.fields)) }
    {
        if !has_name(removal) {
            return Ok(false);
        }
        match verdict_of(alloc, suffixes, site, removal, now)? {
            Verdict::Stored(stored) => Ok(self.fits_and_is_expired(site, &stored, now)),
            Verdict::Refused(_) => Ok(false),
        }
    }

    // Whether the stored cookie is as planned, and is sent.
    fn fits_and_is_sent(&self, site: &Site, stored: &StoredCookie, now: DateTime) -> bool
        ensures { result
            ≡ fits_plan self.now site.now stored.now && is_sent site.now now stored.now }
    {
        self.fits(site, stored) && stored.is_sent(site, now)
    }

    // Whether the stored cookie is as planned, and is expired.
    fn fits_and_is_expired(&self, site: &Site, stored: &StoredCookie, now: DateTime) -> bool
        ensures { result
            ≡ fits_plan self.now site.now stored.now && not (lasts stored.now.expiry now) }
    {
        self.fits(site, stored) && !stored.expiry().lasts(now)
    }

    // Whether the stored cookie is as planned.
    fn fits(&self, site: &Site, stored: &StoredCookie) -> bool
        ensures { result ≡ fits_plan self.now site.now stored.now }
    {
        let kept = stored.as_kept();
        kept.domain == self.scope.domain()
            && kept.is_host_only == self.scope.is_host_only()
            && kept.path == self.scope.path()
            && (!kept.is_secure_only || self.is_secure)
            && (!self.is_secure || site.is_secure())
    }
}

fn has_name(cookie: &Cookie<'_>) -> bool
    ensures { IsTrue result ↔ (cookie.now.fields.name ≢ []) }
{
    !cookie.name().is_empty()
}

// The verdict of an agent without cookies on the text of the cookie.
fn verdict_of(
    alloc: Global,
    suffixes: &Suffixes,
    site: &Site,
    cookie: &Cookie<'_>,
    now: DateTime,
) -> Result<Verdict, AllocError>
    ensures { IfOk result (λ found. verdict_result found
        ≡ verdict suffixes.now site.now now [] (cookie_text true false cookie.now.fields)) }
{
    let text = cookie.encoded().to_string(alloc)?;
    Agent::new(alloc, suffixes).verdict(site, text.as_bytes(), now)
}
