//! What is said of a text.
use cookie_agent::{Store, Verdict};
use cookie_browser::{Enforcement, Expiry, KeptCookie, Refusal, is_partitioned};
use cookie_date::DateText;
use jiff::civil::DateTime;
use std::alloc::{AllocError, Global};

/// Appends what a browser that stores these cookies makes of a text.
pub fn push_verdict(
    alloc: Global,
    line: &mut Vec<u8>,
    stored: &Store,
    text: &[u8],
    verdict: &Verdict,
    now: DateTime,
) -> Result<(), AllocError> {
    let cookie = match verdict {
        Verdict::Refused(refusal) => return push_refusal(line, *refusal),
        Verdict::Stored(cookie) => cookie,
    };
    let kept = cookie.as_kept();
    if cookie.expiry().lasts(now) {
        line.extend_from_slice(b"stored: ")?;
        push_cookie(line, &kept)?;
        push_expiry(alloc, line, cookie.expiry())?;
        push_flags(line, &kept)?;
    } else {
        line.extend_from_slice(removal_head(stored, &kept, now))?;
        line.extend_from_slice(kept.name)?;
        push_scope(line, &kept)?;
    }
    push_partition(line, text, kept.is_secure_only)
}

// The sentence of the refusal, and its section.
fn push_refusal(line: &mut Vec<u8>, refusal: Refusal) -> Result<(), AllocError> {
    line.extend_from_slice(b"refused: ")?;
    line.extend_from_slice(refusal.as_str().as_bytes())?;
    line.extend_from_slice(b" (RFC 6265bis, ")?;
    line.extend_from_slice(refusal.section().as_bytes())?;
    line.extend_from_slice(b")")
}

/// Appends a cookie, and which hosts and paths it is for.
pub fn push_cookie(line: &mut Vec<u8>, kept: &KeptCookie<'_>) -> Result<(), AllocError> {
    line.extend_from_slice(kept.name)?;
    line.extend_from_slice(b"=")?;
    line.extend_from_slice(kept.value)?;
    push_scope(line, kept)
}

// What comes of an expired cookie: it removes the stored one with its name, host and path.
fn removal_head(stored: &Store, kept: &KeptCookie<'_>, now: DateTime) -> &'static [u8] {
    let is_there = stored.cookies().any(|other| other.expiry().lasts(now)
        && other.as_kept().is_same(kept));
    let is_named = stored.cookies().any(|other| other.expiry().lasts(now)
        && other.as_kept().name == kept.name);
    if is_there {
        b"removed: "
    } else if is_named {
        b"removes nothing, since no such cookie is stored: "
    } else {
        b"would remove, if it were stored: "
    }
}

// Which hosts and paths the cookie is for.
fn push_scope(line: &mut Vec<u8>, kept: &KeptCookie<'_>) -> Result<(), AllocError> {
    line.extend_from_slice(b"; for ")?;
    line.extend_from_slice(kept.domain)?;
    line.extend_from_slice(if kept.is_host_only {
        b" only"
    } else {
        b" and the hosts below it"
    })?;
    line.extend_from_slice(b"; path ")?;
    line.extend_from_slice(kept.path)
}

// Until when the browser has the cookie.
fn push_expiry(alloc: Global, line: &mut Vec<u8>, expiry: Expiry) -> Result<(), AllocError> {
    let (end, is_longest) = match expiry {
        Expiry::Session => return line.extend_from_slice(b"; until the browser closes"),
        Expiry::At(moment) => (moment, false),
        Expiry::After(moment, age) => (moment.saturating_add(age), age.as_secs() == 34_560_000),
    };
    line.extend_from_slice(b"; until ")?;
    line.extend_from_slice(DateText(end).to_string(alloc)?.as_bytes())?;
    if is_longest {
        line.extend_from_slice(b" (400 days, the most that a browser allows)")?;
    }
    Ok(())
}

// The flags that are set.
fn push_flags(line: &mut Vec<u8>, kept: &KeptCookie<'_>) -> Result<(), AllocError> {
    if kept.is_secure_only {
        line.extend_from_slice(b"; Secure")?;
    }
    if kept.is_http_only {
        line.extend_from_slice(b"; HttpOnly")?;
    }
    line.extend_from_slice(match kept.same_site {
        Enforcement::Default => b"",
        Enforcement::Strict => b"; SameSite=Strict",
        Enforcement::Lax => b"; SameSite=Lax",
        Enforcement::None => b"; SameSite=None",
    })
}

// The attribute `Partitioned`, which RFC 6265bis doesn't know (CHIPS).
fn push_partition(line: &mut Vec<u8>, text: &[u8], is_secure: bool) -> Result<(), AllocError> {
    if !is_partitioned(text) {
        return Ok(());
    }
    line.extend_from_slice(if is_secure {
        b"; Partitioned (not in RFC 6265bis: kept apart for each top-level site)"
    } else {
        b"; Partitioned (not in RFC 6265bis: browsers that know it refuse it without Secure)"
    })
}
