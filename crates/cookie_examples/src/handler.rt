//! A request's handler with a session.
ghost use Rattle.std.specs.Prelude.{◌≡◌, OnOk, OnErr, map};
ghost use Rattle.cookie_session.specs.Revocations.{IsRevoked};
ghost use Rattle.cookie_examples.specs.Words.{IsLoggedIn, KeepsTexts};

use anyhow::{Context, Result};
use cookie::{Cookie, CookieBuilder, CookieJar, Key, SameSite};
use cookie_session::{KeyRing, NeverRevoked, Revocations, Sessions, VisitError};
use jiff::civil::DateTime;
use rand_core::TryRng;
use std::alloc::Global;

/// Logs the user in at the time `now` in UTC. The session starts anew, keeps its texts, and ends what the browser had.
pub fn handle<G: TryRng, R: Revocations>(
    alloc: Global,
    sessions: &Sessions<'_>,
    cookies: &[Cookie<'static>],
    jar: &mut CookieJar,
    user: &str,
    now: DateTime,
    rng: &mut G,
    revocations: &mut R,
) -> Result<(), VisitError<R::Error>>
    ensures logs_in { OnOk result (IsLoggedIn sessions.now jar.new now user.now) }
    ensures keeps { R.is_intact revocations.new → OnOk result
        (KeepsTexts (IsRevoked (R.revoked_until revocations.old)) sessions.now
        (map (λ c. c.fields) cookies.now) jar.new now user.now) }
    ensures err { OnErr result (jar.new ≡ jar.old) }
{
    let mut visit = sessions.visit(alloc, cookies, now, rng, revocations)?;
    visit.renew(sessions, now, rng)?;
    visit.set("user", user)?;
    sessions.save_if_needed(alloc, jar, &mut visit, now, rng, revocations)?;
    Ok(())
}

pub fn print(rt: &HostRuntime, now: DateTime) -> Result<()> {
    let (alloc, mut rng) = (rt.alloc(), crate::generator());
    let keys = KeyRing::new(alloc, Key::generate(&mut rng))?;
    let cookie = CookieBuilder::new("__Host-session", "")
        .path("/")
        .secure(true)
        .http_only(true)
        .same_site(SameSite::Lax)
        .build();
    let sessions = Sessions {
        keys: &keys,
        cookie: &cookie,
        lifetime: 12 * 3600,
        idle: 1800,
    };
    let (jar, never) = (&mut CookieJar::new(alloc), &mut NeverRevoked);
    handle(alloc, &sessions, &[], jar, "ann", now, &mut rng, never)?;
    for text in &jar.set_cookie_texts()? {
        println!(rt; "{text}")?;
    }
    let opened = sessions.open_jar(alloc, jar, now)?.context("nobody")?;
    println!(rt; "logged in: {}", opened.session.get("user").unwrap_or(""))?;
    Ok(())
}
