//! `login`: logs users in and out, as a CGI program (RFC 3875). A file of SQLite keeps which sessions are revoked.
#![tactic(auto)]

use anyhow::{Context, Result};
use cookie::{CookieBuilder, CookieJar, Key, SameSite, are_equal, field_cookies};
use cookie_session::{Ending, KeyRing, Sessions, Visit, VisitError, second_of};
use jiff::Timestamp;
use jiff::civil::DateTime;
use jiff::tz::Offset;
use rand::rngs::SysRng;
use session_revocations::{RevocationError, SqliteRevocations};
use sqlite::{Connection, File, FileStore};
use std::hash::RandomState;
use std::io::Read;
use std::rt::Env;
use std::time::Duration;
use std::{env, io, thread};

// Each user and password. A site has slow hashes of its users' passwords.
const USERS: [(&str, &str); 2] = [("ann", "secret"), ("bob", "hidden")];

// The file of revoked sessions.
type Revoked = SqliteRevocations<FileStore<File>>;

// How the site keeps its sessions, and the time of the request in UTC.
#[derive(Drop)]
struct Site<'s> {
    sessions: Sessions<'s>,
    revoked: Revoked,
    now: DateTime,
}

// What a request is for.
#[derive(Drop)]
enum Action {
    Look,
    LogIn(String),
    LogOut,
}

// What the program answers.
#[derive(Drop)]
struct Response {
    status: u16,
    cookies: Vec<String>,
    page: String,
}

// Opens the file, or makes it. While another process has it open, it tries again for about two seconds.
fn open(rt: &HostRuntime, path: &str) -> Result<Revoked, RevocationError> {
    for _ in 0..180 {
        match open_once(rt, path) {
            Err(RevocationError::Busy) => {
                thread::sleep(rt, Duration::from_millis(10));
            }
            opened => return opened,
        }
    }
    Err(RevocationError::Busy)
}

fn open_once(rt: &HostRuntime, path: &str) -> Result<Revoked, RevocationError> {
    SqliteRevocations::new(Connection::open(rt, path)?)
}

// What a form is for, or `None` if no user has its name and password.
fn action_of(rt: &HostRuntime, form: &[u8]) -> Result<Option<Action>> {
    let (mut user, mut password) = (String::new(rt.alloc()), String::new(rt.alloc()));
    for pair in form_urlencoded::parse(rt.alloc(), form) {
        let (name, value) = pair?;
        match &*name {
            "logout" => return Ok(Some(Action::LogOut)),
            "user" => user = String::from_str(rt.alloc(), &*value)?,
            "password" => password = String::from_str(rt.alloc(), &*value)?,
            _ => (),
        }
    }
    if user.is_empty() {
        return Ok(Some(Action::Look));
    }
    let is_known = USERS.iter().any(|(name, known)| {
        user.as_str() == *name && are_equal(password.as_bytes(), known.as_bytes())
    });
    Ok(is_known.then_some(Action::LogIn(user)))
}

// Opens the session of the request, changes it, and saves it if it must be saved. After a logout there is no visit.
fn act(
    rt: &HostRuntime,
    site: &mut Site<'_>,
    state: RandomState,
    cookies: &[u8],
    action: &Action,
) -> Result<(CookieJar, Option<Visit>), VisitError<RevocationError>> {
    let Site {
        sessions,
        revoked,
        now,
    } = site;
    let (alloc, mut rng, now) = (rt.alloc(), SysRng::new(rt), *now);
    let cookies = field_cookies(alloc, cookies)?;
    let mut visit = sessions.visit(alloc, &cookies, now, &mut rng, revoked)?;
    let mut jar = CookieJar::with_hasher(alloc, state).with_cookies(cookies)?;
    match action {
        Action::Look => {}
        Action::LogIn(user) => {
            visit.renew(sessions, now, &mut rng)?;
            visit.set("user", user.as_str())?;
        }
        Action::LogOut => {
            return match sessions.log_out(alloc, &mut jar, visit, now, revoked)? {
                Ending::Ended | Ending::Nobody => Ok((jar, None)),
                Ending::Gone => Err(VisitError::Gone),
            };
        }
    }
    sessions.save_if_needed(alloc, &mut jar, &mut visit, now, &mut rng, revoked)?;
    Ok((jar, Some(visit)))
}

// Answers a request. If what is revoked isn't known, or another request came in between, the client is to try again.
fn answer(rt: &HostRuntime, site: &mut Site<'_>, cookies: &[u8], form: &[u8]) -> Result<Response> {
    let Some(action) = action_of(rt, form)? else {
        return refused(rt, 403, "No user has this name and password.");
    };
    match act(rt, site, RandomState::new(rt)?, cookies, &action) {
        Ok((jar, visit)) => {
            forget(rt, site, &action);
            Ok(Response {
                status: 200,
                cookies: jar.set_cookie_texts()?,
                page: page(rt, visit.as_ref())?,
            })
        }
        Err(VisitError::Gone) => refused(rt, 409, "Another request came in between."),
        Err(VisitError::Revocations(why)) => unavailable(rt, why),
        Err(VisitError::Session(why)) => Err(why.into()),
    }
}

// At each login and logout drops what is over. If that fails, it is kept.
fn forget(rt: &HostRuntime, site: &mut Site<'_>, action: &Action) {
    if let Action::Look = action {
        return;
    }
    if let Err(why) = site.revoked.forget(second_of(site.now)) {
        let _ = eprintln!(rt; "revoked sessions: {why}");
    }
}

fn page(rt: &HostRuntime, visit: Option<&Visit>) -> Result<String> {
    let Some(visit) = visit else {
        return Ok(String::from_str(rt.alloc(), "You are logged out.")?);
    };
    match visit.session().get("user") {
        Some(user) => Ok(format!(in rt.alloc(); "Hello, {user}!")?),
        None => Ok(String::from_str(rt.alloc(), "Who are you?")?),
    }
}

fn refused(rt: &HostRuntime, status: u16, why: &str) -> Result<Response> {
    Ok(Response {
        status,
        cookies: Vec::new(rt.alloc()),
        page: format!(in rt.alloc(); "{why} Please try again.")?,
    })
}

fn unavailable(rt: &HostRuntime, why: RevocationError) -> Result<Response> {
    eprintln!(rt; "revoked sessions: {why}")?;
    refused(rt, 503, "Nobody can be logged in or out now.")
}

// A variable of the request, empty if there is none.
fn variable(rt: &HostRuntime, name: &str) -> String {
    env::var(rt, name).unwrap_or(String::new(rt.alloc()))
}

// The form of a request, empty if it sends none. A longer one isn't read.
fn form(rt: &HostRuntime) -> Result<String> {
    let length = variable(rt, "CONTENT_LENGTH");
    let length = length.as_str().parse::<u64>().unwrap_or(0);
    if length > 4096 {
        return Ok(String::new(rt.alloc()));
    }
    Ok(io::read_to_string(rt.alloc(), rt.stdin().take(length))?)
}

// The request's `Cookie` field, empty if there is none or if it has more than 64 KB. It needn't be UTF-8.
fn cookies(rt: &HostRuntime) -> Result<Vec<u8>> {
    let mut bytes = vec![in rt.alloc(); 0; 65536]?;
    let length = rt.var("HTTP_COOKIE", &mut bytes).unwrap_or(0);
    bytes.truncate(length);
    Ok(bytes)
}

// Answers one request, as a web server hands it over.
fn serve(rt: &HostRuntime, sessions: Sessions<'_>, now: DateTime) -> Result<Response> {
    let path = env::var(rt, "REVOKED_SESSIONS").context("REVOKED_SESSIONS")?;
    let (form, cookies) = (form(rt)?, cookies(rt)?);
    match open(rt, path.as_str()) {
        Ok(revoked) => {
            let mut site = Site {
                sessions,
                revoked,
                now,
            };
            answer(rt, &mut site, &cookies, form.as_bytes())
        }
        Err(why) => unavailable(rt, why),
    }
}

fn print(rt: &HostRuntime, response: &Response) -> Result<()> {
    print!(rt;
        "Status: {}\r\nContent-Type: text/plain; charset=utf-8\r\n",
        response.status
    )?;
    for text in &response.cookies {
        print!(rt; "Set-Cookie: {text}\r\n")?;
    }
    println!(rt; "Cache-Control: no-store\r\n\r\n{}", response.page)?;
    Ok(())
}

// Plays a request without a web server: a machine sends its cookie and a form. Returns the cookie that it has then.
fn send(rt: &HostRuntime, site: &mut Site<'_>, cookie: &str, form: &str) -> Result<String> {
    let response = answer(rt, site, cookie.as_bytes(), form.as_bytes())?;
    println!(rt; "[{form}] {} {}", response.status, response.page)?;
    let text = response
        .cookies
        .first()
        .map_or(cookie, |text| text.as_str());
    let pair = text.split_once(';').map_or(text, |(pair, _)| pair);
    Ok(String::from_str(rt.alloc(), pair)?)
}

// Plays a login, a copy of its cookie on a second machine, and the logout on the first, after which the copy opens no more.
fn play(rt: &HostRuntime, sessions: Sessions<'_>, now: DateTime) -> Result<()> {
    let revoked = open(rt, "revoked.db")?;
    let mut site = Site {
        sessions,
        revoked,
        now,
    };
    send(rt, &mut site, "", "user=ann&password=guess")?;
    let first = send(rt, &mut site, "", "user=ann&password=secret")?;
    let second = send(rt, &mut site, first.as_str(), "")?;
    send(rt, &mut site, first.as_str(), "logout=1")?;
    send(rt, &mut site, second.as_str(), "")?;
    Ok(())
}

fn main(rt: HostRuntime) -> Result<()> {
    let is_served = env::var(&rt, "GATEWAY_INTERFACE").is_ok();
    let secret = if is_served {
        env::var(&rt, "SESSION_SECRET").context("SESSION_SECRET")?
    } else {
        String::from_str(
            rt.alloc(),
            "a secret of at least thirty-two bytes, only for this run",
        )?
    };
    let keys = KeyRing::new(rt.alloc(), Key::try_derive_from(secret.as_bytes())?)?;
    let cookie = CookieBuilder::new("__Host-session", "")
        .path("/")
        .secure(true)
        .http_only(true)
        .same_site(SameSite::Lax)
        .build();
    let sessions = Sessions {
        keys: &keys,
        cookie: &cookie,
        lifetime: 12 * 3600,
        idle: 1800,
    };
    let now = Offset::UTC.to_datetime(Timestamp::now(&rt)?);
    if is_served {
        print(&rt, &serve(&rt, sessions, now)?)
    } else {
        play(&rt, sessions, now)
    }
}
