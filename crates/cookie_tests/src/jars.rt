//! The jar and its client over calls that are drawn.
use crate::draws::{Draws, code};
use crate::moment::moment;
use cookie::{Cookie, CookieJar};
use cookie_client::{ClientRequest, JarCall, Played, replay, rounds};
use std::alloc::{AllocError, Global};

// What each hundred lists come to by a second body of both, in Python.
const CODES: &str = "\
b0c4af0d866efc83 8bf7cba220d526cf 2bbe23afabb5fd50 f1dcdc2f35f8da74 26828e1cbccda0f8 \
596d6d48fe75d4ae 63edef3ae2b2e517 330253bae73090e6 2f4b493b1a710e14 4c37df8438023928";

const NAMES: &str = "a|b|c|id|A||\u{e9}|a b";

const VERBS: &str = "\
original|original|original|original|add|add|add|add|add|\
remove|remove|remove|remove|force|force|reset";

fn drawn_call(alloc: Global, draws: &mut Draws) -> Result<JarCall<'static>, AllocError> {
    let (verb, name) = (draws.text(VERBS), draws.text(NAMES));
    let cookie = Cookie::new(name, draws.text("|1|2; x|\u{e9}"));
    Ok(match verb {
        "original" => JarCall::AddOriginal(cookie),
        "add" => JarCall::Add(cookie),
        "remove" => JarCall::Remove(cookie, moment()),
        "force" => JarCall::ForceRemove(String::from_str(alloc, name)?),
        _ => JarCall::ResetDelta,
    })
}

// Up to 23 calls.
fn drawn_calls(alloc: Global, draws: &mut Draws) -> Result<Vec<JarCall<'static>>, AllocError> {
    let mut calls = Vec::new(alloc);
    for _ in 0..draws.below(24) {
        let call = drawn_call(alloc, draws)?;
        calls.push(call)?;
    }
    Ok(calls)
}

// The values that walks over the jar's changes, and over what it shows, meet under the name.
fn walked<'j>(jar: &'j CookieJar, name: &str) -> (Option<&'j str>, Option<&'j str>) {
    let (mut change, mut shown) = (None, None);
    for cookie in jar.delta() {
        if cookie.name() == name {
            change = Some(cookie.value());
        }
    }
    for cookie in jar.iter() {
        if cookie.name() == name {
            shown = Some(cookie.value());
        }
    }
    (change, shown)
}

// Appends what the jar has under each name, by a look-up and by walks, and its numbers of changes and of cookies.
fn push_jar(text: &mut String, jar: &CookieJar) -> Option<()> {
    for name in NAMES.split('|') {
        let found = jar.get(name).map(|cookie| cookie.value()).unwrap_or("-");
        let (change, shown) = walked(jar, name);
        let (change, shown) = (change.unwrap_or("-"), shown.unwrap_or("-"));
        write!(text, "{found}|{change}|{shown}\n").ok()?;
    }
    write!(text, "{} {}\n", jar.delta().count(), jar.iter().count()).ok()
}

// Appends what the jar and a copy of it have, and how many calls were accepted.
fn push_outcome(text: &mut String, jar: &CookieJar, outcomes: &[bool]) -> Option<()> {
    push_jar(text, jar)?;
    push_jar(text, &jar.clone().ok()?)?;
    let accepted = outcomes.iter().filter(|is_accepted| **is_accepted).count();
    write!(text, "{accepted} of {} accepted\n", outcomes.len()).ok()
}

// Appends what the calls come to on a new jar.
fn push_replayed(text: &mut String, calls: &[JarCall<'_>]) -> Option<()> {
    let mut jar = CookieJar::new(*text.allocator());
    let outcomes = replay(*text.allocator(), &mut jar, calls).ok()?;
    push_outcome(text, &jar, &outcomes)
}

// What comes of a request for each list, if the client reads texts in that order.
fn played(alloc: Global, lists: &[Vec<JarCall<'static>>], pick: &[usize]) -> Option<Vec<Played>> {
    let mut requests = Vec::new(alloc);
    for calls in lists {
        requests.push(ClientRequest { calls }).ok()?;
    }
    rounds(alloc, &requests, pick, moment()).ok()
}

// Appends what requests for up to four drawn lists come to, and what the client then holds, in a drawn order.
fn push_lists(text: &mut String, draws: &mut Draws) -> Option<()> {
    let pick = [draws.below(24), draws.below(24)];
    let mut lists = Vec::new(*text.allocator());
    for _ in 0..draws.below(5) {
        let calls = drawn_calls(*text.allocator(), draws).ok()?;
        lists.push(calls).ok()?;
    }
    for (calls, one) in lists.iter().zip(&played(*text.allocator(), &lists, &pick)?) {
        push_outcome(text, &one.jar, &one.outcomes)?;
        push_replayed(text, calls)?;
        for name in NAMES.split('|') {
            write!(text, "{}\n", one.client.get(name).unwrap_or("-")).ok()?;
        }
    }
    Some(())
}

#[test]
fn drawn_calls_are_followed(rt: HostRuntime) {
    let mut draws = Draws::new();
    for wanted in CODES.split(' ') {
        let mut text = String::new(rt.alloc());
        for number in 0..100 {
            let followed = push_lists(&mut text, &mut draws);
            assert!(rt; followed.is_some(), "list {number}");
        }
        assert!(rt; u64::from_str_radix(wanted, 16) == Ok(code(text.as_bytes())));
    }
}
