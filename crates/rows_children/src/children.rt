//! What prefixes make of names and cookies, and what child jars return: one that is read, and one that can be changed.
use crate::calls::{make_on, make_private};
use cookie::prefix::{Prefix, Prefixing};
use cookie::{Cookie, CookieJar, JarError, Key};
use rand_core::TryRng;
use rows::cookie_words::words;
use rows::{Answer, Step};

// The cookie that a child jar opened, or `-`, or the refusal.
fn opened(step: Step<'_>, outcome: Result<Option<Cookie<'static>>, JarError>) -> Answer {
    match outcome {
        Ok(cookie) => step.found(cookie.as_ref()),
        Err(refusal) => step.refused(&refusal),
    }
}

// The cookie, and the parts of its text that it borrows: its name, value, path and domain.
fn with_raw(step: Step<'_>, cookie: Cookie<'_>) -> Answer {
    let (name, value) = (cookie.name_raw(), cookie.value_raw());
    let (path, domain) = (cookie.path_raw(), cookie.domain_raw());
    let parts = [name, value, path, domain].map(|part| part.unwrap_or("-"));
    let words = words(step.alloc, &cookie)?;
    let raw = parts.join(step.alloc, "|").ok()?;
    format!(in step.alloc; "{words} raw {raw}").ok()
}

// What the prefix makes of the text's cookie, and what that borrows of the text.
fn remade<P: Prefix>(step: Step<'_>) -> Answer {
    let (alloc, text) = (step.alloc, step.text()?);
    let cookie = Cookie::parse(&text).ok()?;
    match step.call {
        "prefix" => with_raw(step, P::prefix(alloc, cookie).ok()?),
        "clip" => with_raw(step, P::clip(alloc, cookie).ok()?),
        "apply" => with_raw(step, P::apply(alloc, cookie).ok()?),
        _ => with_raw(step, P::conform(cookie)),
    }
}

/// What the prefix or its child jars return.
pub fn prefixed<P: Prefix + Copy>(jar: &mut CookieJar, prefix: P, step: Step<'_>) -> Answer {
    match step.call {
        "text" => step.shown(P::PREFIX.as_str().as_bytes()),
        "name" => {
            let name = P::prefixed_name(step.alloc, &step.text()?).ok()?;
            step.shown(name.as_bytes())
        }
        "get" => {
            let name = step.text()?;
            let one = opened(step, jar.prefixed(prefix).get(&name));
            step.same(one, opened(step, jar.prefixed_mut(prefix).get(&name)))
        }
        "prefix" | "clip" | "apply" | "conform" => remade::<P>(step),
        _ => make_on(&mut jar.prefixed_mut(prefix), step),
    }
}

fn get(jar: &mut CookieJar, key: &Key, kind: &str, step: Step<'_>) -> Answer {
    let name = step.text()?;
    if kind == "signed" {
        let one = opened(step, jar.signed(key).get(&name));
        return step.same(one, opened(step, jar.signed_mut(key).get(&name)));
    }
    let one = opened(step, jar.private(key).get(&name));
    step.same(one, opened(step, jar.private_mut(key).get(&name)))
}

// What the child jars make of the cookie of a client.
fn open(
    jar: &mut CookieJar,
    key: &Key,
    kind: &str,
    step: Step<'_>,
    cookie: Cookie<'static>,
) -> Answer {
    let copy = cookie.clone(step.alloc).ok()?;
    if kind == "signed" {
        let one = opened(step, jar.signed(key).verify(cookie));
        return step.same(one, opened(step, jar.signed_mut(key).verify(copy)));
    }
    let one = opened(step, jar.private(key).decrypt(cookie));
    step.same(one, opened(step, jar.private_mut(key).decrypt(copy)))
}

// Nothing, a letter of base64, a character of none, one of its alphabet for addresses, a blank, its padding, a newline,
// and a character of two bytes.
const OTHERS: &str = "|A|!|_| |=|\n|\u{e9}";

// The first value that is opened and isn't the cookie's, if one is: with a text put in, in place of one character, or
// in place of the rest.
fn damaged(jar: &mut CookieJar, key: &Key, kind: &str, step: Step<'_>) -> Answer {
    let cookie = step.cookie()?;
    let value = cookie.value();
    for other in OTHERS.split('|') {
        for place in 0..=value.len() {
            for length in [0, 1, 100] {
                let front = value.get(..place).unwrap_or("");
                let back = value.get(place.saturating_add(length)..).unwrap_or("");
                let text = format!(in step.alloc; "{front}{other}{back}").ok()?;
                let mut copy = cookie.clone(step.alloc).ok()?;
                copy.set_value_owned(text.clone().ok()?);
                let is_opened = open(jar, key, kind, step, copy)?.as_str() != "-";
                if is_opened && text.as_str() != value {
                    return Some(text);
                }
            }
        }
    }
    step.said("-")
}

/// What the signed or the private jar returns. In a word such as `private7` is the byte of its nonces.
pub fn secret<R: TryRng>(jar: &mut CookieJar, key: &Key, step: Step<'_>, rng: &mut R) -> Answer {
    let (kind, child) = (step.call, step.inner());
    let byte = kind.strip_prefix("private");
    let byte: Option<u8> = byte.and_then(|byte| byte.parse().ok());
    match (child.call, byte) {
        ("get", _) => get(jar, key, kind, child),
        ("open", _) => open(jar, key, kind, child, child.cookie()?),
        ("damaged", _) => damaged(jar, key, kind, child),
        ("encrypt", _) => {
            let (cookie, jar) = (child.cookie()?, jar.private(key));
            let sealed = match byte {
                Some(byte) => jar.encrypt_with_nonce(cookie, [byte; 12]),
                None => jar.encrypt(cookie, rng),
            };
            opened(step, sealed.map(Some))
        }
        _ if kind == "signed" => make_on(&mut jar.signed_mut(key), child),
        _ => make_private(&mut jar.private_mut(key), child, byte, rng),
    }
}
