//! A cookie as words: its name and value as `a=1`, and then each attribute that is set, after `; `. data/jars.tsv has
//! their forms; `removed` makes the cookie a removal, at the time of most rows. Nothing is decoded or trimmed:
//! `Cookie::new` and the setters make the cookie, not the parser under test.
use crate::escapes::Escaped;
use crate::step::Step;
use crate::times::moment;
use cookie_core::{Cookie, Expiration, SameSite};
use jiff::SignedDuration;
use std::alloc::Global;
use std::fmt::{self, Display, Formatter, Write};

fn site(word: &str) -> Option<SameSite> {
    match word {
        "Strict" => Some(SameSite::Strict),
        "Lax" => Some(SameSite::Lax),
        "None" => Some(SameSite::None),
        _ => None,
    }
}

// This many seconds, with up to nine digits after a point.
fn age(alloc: Global, words: &str) -> Option<SignedDuration> {
    let (seconds, digits) = words.split_once('.').unwrap_or((words, ""));
    let digits = format!(in alloc; "{digits:0<9}").ok()?;
    let sign = if words.starts_with('-') { -1 } else { 1 };
    let part = SignedDuration::from_nanos(i64::from(digits.parse::<i32>().ok()?) * sign);
    SignedDuration::from_secs(seconds.parse().ok()?).checked_add(part)
}

fn expiry(words: &str) -> Option<Expiration> {
    match words {
        "session" => Some(Expiration::Session),
        _ => Some(Expiration::DateTime(words.parse().ok()?)),
    }
}

/// Sets the attribute that the words say, as `Path=/a`.
pub fn set(cookie: &mut Cookie<'_>, step: Step<'_>) -> Option<()> {
    let (name, value) = step.words.split_once('=').unwrap_or((step.words, ""));
    let (text, is_on) = (step.with_words(value), value != "false");
    match name {
        "Path" => cookie.set_path_owned(text.text()?),
        "Domain" => cookie.set_domain_owned(text.text()?),
        "Secure" => cookie.set_secure(Some(is_on)),
        "HttpOnly" => cookie.set_http_only(Some(is_on)),
        "Partitioned" => cookie.set_partitioned(Some(is_on)),
        "SameSite" => cookie.set_same_site(Some(site(value)?)),
        "Max-Age" => cookie.set_max_age(Some(age(step.alloc, value)?)),
        "Expires" => cookie.set_expires(expiry(value)?),
        "removed" => cookie.make_removal(moment()),
        _ => return None,
    }
    Some(())
}

impl Step<'_> {
    /// The cookie that the words are. Words without `=` are a name, with the empty value.
    pub fn cookie(self) -> Option<Cookie<'static>> {
        let mut fields = self.words.split("; ");
        let pair = fields.next()?;
        let (name, value) = pair.split_once('=').unwrap_or((pair, ""));
        let (name, value) = (self.with_words(name), self.with_words(value));
        let mut cookie = Cookie::new_owned(name.text()?, value.text()?);
        for field in fields {
            set(&mut cookie, self.with_words(field))?;
        }
        Some(cookie)
    }
}

// A text with its escapes, each `;` too, so that it ends where the next attribute begins.
#[derive(Clone, Copy)]
struct Shielded<'t>(&'t str);

impl Display for Shielded<'_> {
    fn fmt<W: Write>(&self, f: &mut Formatter<W>) -> fmt::Result {
        for (place, part) in self.0.split(';').enumerate() {
            let mark = if place == 0 { "" } else { "\\x3b" };
            write!(f, "{mark}{}", Escaped(part.as_bytes()))?;
        }
        Ok(())
    }
}

/// Appends `; NAME=VALUE` if there is a value.
pub fn push<T: Display + Drop>(words: &mut String, name: &str, value: Option<T>) -> Option<()> {
    match value {
        Some(value) => write!(words, "; {name}={value}").ok(),
        None => Some(()),
    }
}

/// Appends `; NAME` if the flag is set to yes, and `; NAME=false` if it is set to no.
pub fn push_flag(words: &mut String, name: &str, flag: Option<bool>) -> Option<()> {
    match flag {
        Some(true) => write!(words, "; {name}").ok(),
        _ => push(words, name, flag),
    }
}

// The seconds, with the digits that count after a point.
fn seconds(alloc: Global, age: SignedDuration) -> Option<String> {
    let sign = if age.is_negative() { "-" } else { "" };
    let seconds = age.as_secs().unsigned_abs();
    let nanos = age.subsec_nanos().unsigned_abs();
    let text = format!(in alloc; "{sign}{seconds}.{nanos:09}").ok()?;
    String::from_str(alloc, text.trim_end_matches('0').trim_end_matches('.')).ok()
}

/// The words of the cookie: every field that it has, also what `==` of cookies doesn't compare.
pub fn words(alloc: Global, cookie: &Cookie<'_>) -> Option<String> {
    let (name, value) = (Shielded(cookie.name()), Shielded(cookie.value()));
    let mut words = format!(in alloc; "{name}={value}").ok()?;
    push(&mut words, "Path", cookie.path().map(Shielded))?;
    push(&mut words, "Domain", cookie.domain().map(Shielded))?;
    push_flag(&mut words, "Secure", cookie.secure())?;
    push_flag(&mut words, "HttpOnly", cookie.http_only())?;
    push_flag(&mut words, "Partitioned", cookie.partitioned())?;
    push(&mut words, "SameSite", cookie.same_site())?;
    if let Some(age) = cookie.max_age() {
        push(&mut words, "Max-Age", Some(seconds(alloc, age)?))?;
    }
    match cookie.expires() {
        Some(Expiration::Session) => push(&mut words, "Expires", Some("session"))?,
        expires => push(&mut words, "Expires", expires.and_then(|at| at.datetime()))?,
    }
    Some(words)
}
