//! What a jar holds and prints, the cookies of a request's header, what fits into a response's, and base64.
use base64::engine::general_purpose::STANDARD;
use cookie::{
    Cookie, CookieJar, field_cookies, fits_field, is_attribute_value, is_named_as_sent, trim_wsp,
};
use rows::cookie_words::words;
use rows::{Answer, Step, debugged};
use std::alloc::Global;

// The words of each cookie.
fn listed(alloc: Global, cookies: Vec<&Cookie<'static>>) -> Option<Vec<String>> {
    let mut parts = Vec::new(alloc);
    for cookie in &cookies {
        parts.push(words(alloc, cookie)?).ok()?;
    }
    Some(parts)
}

fn texts(step: Step<'_>, jar: &CookieJar) -> Answer {
    let texts = match jar.set_cookie_texts() {
        Ok(texts) => texts,
        Err(refusal) => return step.refused(&refusal),
    };
    let mut parts = Vec::new(step.alloc);
    for text in &texts {
        parts.push(step.escaped(text.as_bytes())?).ok()?;
    }
    step.sorted(parts)
}

/// What the jar returns, or what a call returns that needs no jar.
pub fn answer(jar: &CookieJar, step: Step<'_>) -> Answer {
    let alloc = step.alloc;
    match step.call {
        "get" => step.found(jar.get(&step.text()?)),
        "get-original" => step.found(jar.original(&step.text()?)),
        "counts" => format!(in alloc; "{} {}", jar.delta().count(), jar.iter().count()).ok(),
        "all" => step.sorted(listed(alloc, jar.iter().collect(alloc).ok()?)?),
        "delta" => step.sorted(listed(alloc, jar.delta().collect(alloc).ok()?)?),
        "texts" => texts(step, jar),
        "fit" => step.yes(jar.fits_fields()),
        "debug" => format!(in alloc; "{jar:?}").ok(),
        "flags" => step.escaped(debugged(alloc, jar)?.as_bytes()),
        "fits" => step.yes(fits_field(&step.cookie()?)),
        _ => text_answer(step, &step.bytes()?),
    }
}

// What a call on bytes or a text returns.
fn text_answer(step: Step<'_>, bytes: &[u8]) -> Answer {
    match step.call {
        "cookies" => {
            let cookies = field_cookies(step.alloc, bytes).ok()?;
            step.list(&listed(step.alloc, cookies.iter().collect(step.alloc).ok()?)?)
        }
        "is-sent" => step.yes(is_named_as_sent(str::from_utf8(bytes).ok()?)),
        "is-value" => step.yes(is_attribute_value(str::from_utf8(bytes).ok()?)),
        "trim" => step.shown(trim_wsp(bytes)),
        "base64" => step.shown(STANDARD.encode(step.alloc, bytes).ok()?.as_bytes()),
        _ => None,
    }
}
