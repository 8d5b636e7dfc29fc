//! `greeting`: greets a visitor by the name that a form sent before, as a CGI program (RFC 3875).
#![tactic(auto)]

use anyhow::{Context, Result};
use cookie::{Cookie, CookieBuilder, CookieJar, Key, SameSite, field_cookies};
use cookie_session::{KeyRing, NeverRevoked, Sessions, Visit};
use jiff::Timestamp;
use jiff::civil::DateTime;
use jiff::tz::Offset;
use rand::rngs::SysRng;
use std::env::VarError;
use std::hash::RandomState;
use std::io::Read;
use std::{env, io};

// A variable of the request: of the environment under a web server, and else an argument `NAME=value`. It is empty if
// there is none. A web server may make arguments of an address (RFC 3875 4.4), so under one they don't count.
fn variable(rt: &HostRuntime, name: &str) -> Result<String> {
    match env::var(rt, "GATEWAY_INTERFACE") {
        Err(VarError::NotPresent) => argument(rt, name),
        _ => Ok(env::var(rt, name).unwrap_or(String::new(rt.alloc()))),
    }
}

fn argument(rt: &HostRuntime, name: &str) -> Result<String> {
    for word in env::args(rt)? {
        match word.as_str().split_once('=') {
            Some((left, value)) if left == name => return Ok(String::from_str(rt.alloc(), value)?),
            _ => (),
        }
    }
    Ok(String::new(rt.alloc()))
}

// The name in the form of a request, if it sends one. A longer form isn't read.
fn name_sent(rt: &HostRuntime) -> Result<Option<String>> {
    if variable(rt, "REQUEST_METHOD")?.as_str() != "POST" {
        return Ok(None);
    }
    let length = variable(rt, "CONTENT_LENGTH")?;
    let length = length.as_str().parse::<u64>().context("CONTENT_LENGTH")?;
    if length > 4096 {
        return Ok(None);
    }
    let form = io::read_to_string(rt.alloc(), rt.stdin().take(length))?;
    for pair in form_urlencoded::parse(rt.alloc(), form.as_bytes()) {
        let (name, value) = pair?;
        if &*name == "name" {
            return Ok(Some(String::from_str(rt.alloc(), &*value)?));
        }
    }
    Ok(None)
}

// Saves the session, if it must be saved, and returns the texts of the response's `Set-Cookie` fields.
fn save(
    rt: &HostRuntime,
    sessions: &Sessions<'_>,
    visit: &mut Visit,
    now: DateTime,
) -> Result<Vec<String>> {
    let (alloc, mut rng) = (rt.alloc(), SysRng::new(rt));
    let mut jar = CookieJar::with_hasher(alloc, RandomState::new(rt)?);
    sessions.save_if_needed(alloc, &mut jar, visit, now, &mut rng, &mut NeverRevoked)?;
    Ok(jar.set_cookie_texts()?)
}

// Prints the response: its cookies, and a greeting of the name.
fn greet(rt: &HostRuntime, cookies: &[String], name: &str) -> Result<()> {
    print!(rt; "Content-Type: text/plain; charset=utf-8\r\nCache-Control: no-store\r\n")?;
    for text in cookies {
        print!(rt; "Set-Cookie: {text}\r\n")?;
    }
    println!(rt; "\r\nHello, {name}!")?;
    Ok(())
}

// Answers a request. If it sends a name, its session keeps the name from now on.
fn respond(
    rt: &HostRuntime,
    sessions: &Sessions<'_>,
    visit: &mut Visit,
    now: DateTime,
) -> Result<()> {
    if let Some(name) = name_sent(rt)? {
        visit.renew(sessions, now, &mut SysRng::new(rt))?;
        visit.set("name", name.as_str())?;
    }
    let cookies = save(rt, sessions, visit, now)?;
    greet(
        rt,
        &cookies,
        visit.session().get("name").unwrap_or("stranger"),
    )
}

fn answer(rt: &HostRuntime, sessions: &Sessions<'_>) -> Result<()> {
    let now = Offset::UTC.to_datetime(Timestamp::now(rt)?);
    let field = variable(rt, "HTTP_COOKIE")?;
    let (alloc, mut rng) = (rt.alloc(), SysRng::new(rt));
    let cookies = field_cookies(alloc, field.as_bytes())?;
    let mut visit = sessions.visit(alloc, &cookies, now, &mut rng, &mut NeverRevoked)?;
    respond(rt, sessions, &mut visit, now)
}

fn main(rt: HostRuntime) -> Result<()> {
    let secret = variable(&rt, "SESSION_SECRET")?;
    let keys = KeyRing::new(rt.alloc(), Key::try_derive_from(secret.as_bytes())?)?;
    let cookie = CookieBuilder::new("__Host-visitor", "")
        .path("/")
        .secure(true)
        .http_only(true)
        .same_site(SameSite::Lax)
        .build();
    let sessions = Sessions {
        keys: &keys,
        cookie: &cookie,
        lifetime: 12 * 3600,
        idle: 1800,
    };
    answer(&rt, &sessions)
}
