//! The user agent over cookies that are drawn.
use crate::draws::{Draws, code};
use crate::moment::moment;
use cookie_agent::{Agent, Scope, Site, Store};
use cookie_browser::Suffixes;
use jiff::SignedDuration;
use jiff::civil::DateTime;
use std::alloc::{AllocError, Global};

// What each hundred lists come to by a second body of the agent, in Python.
const CODES: &str = "\
586fa6254fbb3578 16ea0675e2457035 8392447acfdf9d3d b917cf426a7331d7 0f84d149aecc7215 \
7c4bd11957378a42 5dc006e6ba093385 01469b2cb4d8f28e c8ba3ac93d48ae43 3eb0fa6a672d2c32";

// The host is in upper case, or an address.
fn site(alloc: Global, number: usize) -> Result<Site, AllocError> {
    match number {
        0 => Site::new(alloc, "EXAMPLE.COM", "/", false),
        1 => Site::new(alloc, "WWW.EXAMPLE.COM", "/a/b", true),
        2 => Site::new(alloc, "WWW.EXAMPLE.COM", "/ab", true),
        _ => Site::of_address(alloc, "10.0.0.1", "/a/", false),
    }
}

fn after(seconds: usize) -> DateTime {
    let seconds = SignedDuration::from_secs(i64::try_from(seconds).unwrap_or(0));
    moment().checked_add(seconds).unwrap_or(DateTime::MIN)
}

fn drawn(alloc: Global, draws: &mut Draws) -> Result<String, AllocError> {
    let (name, value) = (draws.text("a|b|a b|"), draws.text("|1|2 x|\u{e9}"));
    let path = draws.text("|; Path=/|; Path=/a|; Path=x");
    let domain = draws.text(
        "|||; Domain=|; Domain=example.com|; Domain=www.example.com|; Domain=other.com|; Domain=0.0.1",
    );
    let flag = draws.text("; Secure|||||||");
    let age = draws.text("||; Max-Age=9|; Max-Age=0");
    format!(in alloc; "{name}={value}{path}{domain}{flag}{age}")
}

// Appends which of up to twenty drawn cookies are stored, at times that may go back, and then what each site is sent.
fn push_list(bytes: &mut Vec<u8>, draws: &mut Draws) -> Result<(), AllocError> {
    let alloc = *bytes.allocator();
    let suffixes = Suffixes::new(alloc, b"com\n")?;
    let mut agent = Agent::new(alloc, &suffixes);
    for _ in 0..draws.below(21) {
        let (site, now) = (site(alloc, draws.below(4))?, after(draws.below(16)));
        let text = drawn(alloc, draws)?;
        let refusal = agent.read(&site, text.as_bytes(), now)?;
        let outcome = if refusal.is_none() {
            "stored\n"
        } else {
            "refused\n"
        };
        bytes.extend_from_slice(outcome.as_bytes())?;
    }
    push_sent(bytes, &agent)
}

// Appends what each site is sent, at three times.
fn push_sent(bytes: &mut Vec<u8>, agent: &Agent<'_>) -> Result<(), AllocError> {
    let alloc = *bytes.allocator();
    for second in [0, 8, 16] {
        for number in 0..4 {
            let header = agent.header(&site(alloc, number)?, after(second))?;
            bytes.extend_from_slice(&header)?;
            bytes.push(b'\n')?;
        }
    }
    Ok(())
}

#[test]
fn drawn_cookies_are_stored_and_sent(rt: HostRuntime) {
    let mut draws = Draws::new();
    for wanted in CODES.split(' ') {
        let mut bytes = Vec::new(rt.alloc());
        for number in 0..100 {
            assert!(rt; push_list(&mut bytes, &mut draws).is_ok(), "list {number}");
        }
        assert!(rt; u64::from_str_radix(wanted, 16) == Ok(code(&bytes)));
    }
}

// The store of a host with three cookies, without the second.
fn store_without_second(alloc: Global) -> Option<Store> {
    let suffixes = Suffixes::empty(alloc);
    let mut agent = Agent::new(alloc, &suffixes);
    let site = site(alloc, 0).ok()?;
    for text in ["a=1", "b=2", "c=3"] {
        agent.read(&site, text.as_bytes(), moment()).ok()?;
    }
    let scope = Scope::new(alloc, b"example.com", true, b"/").ok()?;
    if agent.remove(b"b", &scope) {
        return Some(agent.into_store());
    }
    None
}

// The names of the store's cookies, by their places.
fn names_by_place(alloc: Global, store: &Store) -> Option<Vec<u8>> {
    let mut names = Vec::new(alloc);
    for place in 0..store.len() {
        let cookie = store.cookie_at(place)?;
        names.extend_from_slice(cookie.as_kept().name).ok()?;
    }
    Some(names)
}

#[test]
fn a_removal_leaves_the_others_in_their_order(rt: HostRuntime) {
    let Some(mut store) = store_without_second(rt.alloc()) else {
        assert!(rt; false, "no memory, or no cookie to remove");
        return;
    };
    for _ in 0..2 {
        let names = names_by_place(rt.alloc(), &store);
        assert!(rt; names.is_some_and(|names| names.as_slice() == b"ac".as_slice()));
        assert!(rt; store.cookies().size_hint() == (2, Some(2)));
        assert!(rt; store.cookie_at(2).is_none());
        store.pack();
    }
}
