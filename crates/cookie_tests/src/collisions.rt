//! Names that were chosen to collide in a jar of `CookieJar::new`: a jar with drawn keys, and its clone, find each of
//! them without going over the others.
//!
//! Such a jar goes over half of the names at each look-up. Here that takes about twenty times as long as to hash with
//! keys. `benches/given.py` says how the names are chosen. The least of several times is compared, so that a
//! pause of the machine changes no answer.
use cookie::{Cookie, CookieJar};
use std::alloc::Global;
use std::hash::RandomState;
use std::test::Fail;
use std::time::{Clock, Duration, Instant};

// A name that begins with a chosen text and ends in any eight digits.
fn chosen(alloc: Global, number: u32) -> Option<Cookie<'static>> {
    let name = format!(in alloc; "0000000000042547nf8XT7Lr{number}").ok()?;
    Some(Cookie::new_owned(name, String::new(alloc)))
}

// Adds an original and a change of each name.
fn filled(alloc: Global, mut jar: CookieJar) -> Option<CookieJar> {
    for number in 10_000_000..10_000_400u32 {
        jar.add_original(chosen(alloc, number)?).ok()?;
        jar.add(chosen(alloc, number)?).ok()?;
    }
    Some(jar)
}

// The least time of this many tries to find each name among the changes and among the originals.
fn least_time<C: Clock>(clock: &C, jar: &CookieJar, tries: u32) -> Option<Duration> {
    let mut least = Duration::MAX;
    for _try in 0..tries {
        let start = Instant::now(clock).ok()?;
        for cookie in jar.delta() {
            jar.get(cookie.name())?;
            jar.original(cookie.name())?;
        }
        least = least.min(start.elapsed(clock).ok()?);
    }
    Some(least)
}

// Whether a jar with drawn keys, and its clone, find them in a fifth of the time that one of `CookieJar::new` takes.
fn are_fast<C: Clock>(alloc: Global, clock: &C, keys: RandomState) -> Option<bool> {
    let slow = least_time(clock, &filled(alloc, CookieJar::new(alloc))?, 2)?.as_nanos();
    let jar = filled(alloc, CookieJar::with_hasher(alloc, keys))?;
    let time = least_time(clock, &jar, 10)?.max(least_time(clock, &jar.clone().ok()?, 10)?);
    Some(time.as_nanos().saturating_mul(5) < slow)
}

#[test]
fn a_jar_with_drawn_keys_keeps_chosen_names_apart(rt: HostRuntime) -> Result<(), Fail> {
    let keys = RandomState::new(&rt)?;
    assert!(rt; are_fast(rt.alloc(), &rt, keys) == Some(true));
    Ok(())
}
