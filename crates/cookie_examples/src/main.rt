//! Uses of the cookie crates, as a caller writes them, a file for each crate. `main` runs them all.
#![tactic(auto)]

mod agents;
mod carrying;
mod dates;
mod following;
mod handler;
mod headers;
mod reading;
mod refusal;
mod sealing;
mod session;

use anyhow::Result;
use cookie::{CookieBuilder, CookieJar, Key, SameSite, read_date};
use jiff::civil::DateTime;
use rand::SeedableRng;
use rand::rngs::StdRng;
use std::hash::RandomState;

// Reads a `Cookie` header, changes the jar, and prints the response's `Set-Cookie` lines. `now` is in UTC.
fn answer(rt: &HostRuntime, header: &str, now: DateTime) -> Result<()> {
    let mut rng = generator();
    let (key, rng) = (&Key::generate(&mut rng), &mut rng);
    let jar = CookieJar::with_hasher(rt.alloc(), RandomState::new(rt)?);
    let mut jar = jar.with_originals(header)?;

    jar.add(CookieBuilder::new("theme", "dark").path("/").build())?;
    jar.remove(CookieBuilder::new("notice", "").path("/").build(), now)?;
    let user = CookieBuilder::new("user", "ann").path("/").secure(true);
    let user = user.http_only(true).same_site(SameSite::Lax).build();
    jar.private_mut(key).add(user, rng)?;

    for text in &jar.set_cookie_texts()? {
        println!(rt; "Set-Cookie: {text}")?;
    }
    Ok(())
}

// A fixed seed, so that each run prints the same. A server takes `SysRng` of `rand`.
fn generator() -> StdRng {
    StdRng::seed_from_u64(1)
}

fn main(rt: HostRuntime) -> Result<()> {
    // A fixed time. A server takes `Timestamp::now` of `jiff`.
    let now = read_date("Wed, 21 Oct 2015 07:28:00 GMT").unwrap_or(DateTime::MIN);
    answer(&rt, "notice=1; lang=en", now)?;
    reading::print(&rt, now)?;
    dates::print(&rt)?;
    sealing::print(&rt)?;
    session::print(&rt)?;
    handler::print(&rt, now)?;
    following::print(&rt, now)?;
    agents::print(&rt, now)?;
    refusal::print(&rt)?;
    headers::print(&rt)
}
