//! Stored cookies as JSON lines.
ghost use Rattle.std.specs.Prelude.{◌≡◌, ◌++◌, ◌+ℤ◌, true, Some, IfOk, OnOk, nat_lt, option_and_then, option_map, string_bytes};
ghost use Rattle.std.specs.List.{list_all};
ghost use Rattle.std.specs.Str.{chars, encode_utf8_all};
ghost use Rattle.jiff.specs.Words.{civil_nanos, signed_nanos};
ghost use Rattle.serde_json.specs.Data.{put as put_member};
ghost use Rattle.serde_json.specs.View.{members_view, view};
ghost use Rattle.cookie_browser.specs.ExpiryCode.{expiry_time};
ghost use Rattle.cookie_browser.specs.RefusedCode.{kept_view};
ghost use Rattle.cookie_agent.specs.JsonLines as spec;
ghost use Rattle.cookie_agent.specs.JsonLinesCode as code;
ghost use Rattle.cookie_agent.specs.SavedFormsCode.{carried_text};
ghost use Rattle.cookie_agent.specs.declared.saved.form.SavedForm.TheVariants as form;

use crate::nanos::start_of_1970;
use crate::saved::limited::{earlier_of, limited};
use crate::saved::line::Line;
use crate::saved::storable::is_storable;
use crate::stored::StoredCookie;
use cookie_browser::{Enforcement, Expiry, KeptCookie};
use jiff::civil::DateTime;
use jiff::tz::Offset;
use jiff::{SignedDuration, Timestamp};
use serde_json::{Map, Value, put};
use std::alloc::{AllocError, Global};

// Writes the line of the cookie, if the form can carry it. Returns whether it can.
pub(super) fn push_carried(
    text: &mut Vec<u8>,
    alloc: Global,
    cookie: &StoredCookie,
) -> Result<bool, AllocError>
    ensures carried { IfOk result (λ carried. carried ≡ spec.is_json_carried cookie.now) }
    ensures text { OnOk result (text.new.items
        ≡ text.old.items ++ carried_text form.JsonLines cookie.now) }
{
    let Some(times) = carried_times(cookie) else {
        return Ok(false);
    };
    push_line(text, alloc, &cookie.as_kept(), times)?;
    Ok(true)
}

// When a cookie expires and when it was last sent, in nanoseconds since 1970.
#[derive(Clone, Copy)]
struct Times {
    expiry: i64,
    last_access: i64,
}

// The nanoseconds of an age, if an `i64` has them.
fn nanos_of(age: SignedDuration) -> Option<i64>
    ensures { result ≡ code.json_time (signed_nanos age) }
{
    match i64::try_from(age.as_nanos()) {
        Ok(nanos) => Some(nanos),
        Err(_) => None,
    }
}

// The nanoseconds from 1970 to the end of this age after the time, if an `i64` has them.
fn nanos_after(time: DateTime, age: SignedDuration) -> Option<i64>
    ensures { result ≡ code.json_time (civil_nanos time +ℤ signed_nanos age) }
{
    let since = time.duration_since(start_of_1970());
    match since.checked_add(age) {
        Some(age) => nanos_of(age),
        None => None,
    }
}

fn expiry_nanos(expiry: Expiry) -> Option<i64>
    ensures { result ≡ option_and_then code.json_time (expiry_time expiry) }
{
    match expiry {
        Expiry::Session => None,
        Expiry::At(time) => nanos_after(time, SignedDuration::ZERO),
        Expiry::After(time, age) => nanos_after(time, age),
    }
}

// The times of the cookie, if the form can carry it.
fn carried_times(cookie: &StoredCookie) -> Option<Times>
    ensures { result ≡ code.carried_times cookie.now }
{
    if !is_storable(&cookie.as_kept()) {
        return None;
    }
    let Some(expiry) = expiry_nanos(cookie.expiry()) else {
        return None;
    };
    let Some(last_access) = nanos_after(cookie.last_access(), SignedDuration::ZERO) else {
        return None;
    };
    Some(Times {
        expiry,
        last_access,
    })
}

// The string in which each byte is the character of its number.
fn text_of(alloc: Global, bytes: &[u8]) -> Result<String, AllocError>
    ensures { IfOk result (λ text. string_bytes text ≡ encode_utf8_all bytes.now) }
{
    let mut text = String::new(alloc);
    for &byte in bytes {
        text.push(char::from(byte))?;
    }
    Ok(text)
}

fn word_of(enforcement: Enforcement) -> &'static str
    ensures { result.now ≡ spec.enforcement_word enforcement }
{
    match enforcement {
        Enforcement::Default => "default",
        Enforcement::Strict => "strict",
        Enforcement::Lax => "lax",
        Enforcement::None => "none",
    }
}

// Puts the texts of a cookie into an object.
fn put_texts(
    object: &mut Map<String, Value>,
    alloc: Global,
    cookie: &KeptCookie<'_>,
) -> Result<(), AllocError>
    ensures { OnOk result (members_view object.new.entries
        ≡ code.with_texts (kept_view cookie.now) (members_view object.old.entries)) }
{
    put_text(object, alloc, "name", cookie.name)?;
    put_text(object, alloc, "value", cookie.value)?;
    put_text(object, alloc, "domain", cookie.domain)?;
    put_text(object, alloc, "path", cookie.path)?;
    Ok(())
}

fn put_text(
    object: &mut Map<String, Value>,
    alloc: Global,
    key: &str,
    bytes: &[u8],
) -> Result<(), AllocError>
    ensures { OnOk result (members_view object.new.entries
        ≡ put_member key.now (spec.text_data bytes.now) (members_view object.old.entries)) }
{
    let text = text_of(alloc, bytes)?;
    put(object, alloc, key, Value::String(text))
}

// Puts the flags of a cookie into an object.
fn put_flags(
    object: &mut Map<String, Value>,
    alloc: Global,
    cookie: &KeptCookie<'_>,
) -> Result<(), AllocError>
    ensures { OnOk result (members_view object.new.entries
        ≡ code.with_flags (kept_view cookie.now) (members_view object.old.entries)) }
{
    put(object, alloc, "host_only", Value::Bool(cookie.is_host_only))?;
    put(object, alloc, "secure", Value::Bool(cookie.is_secure_only))?;
    put(object, alloc, "http_only", Value::Bool(cookie.is_http_only))?;
    let word = Value::try_from_str(alloc, word_of(cookie.same_site))?;
    put(object, alloc, "same_site", word)?;
    Ok(())
}

// Puts the times of a cookie into an object.
fn put_times(object: &mut Map<String, Value>, alloc: Global, times: Times) -> Result<(), AllocError>
    ensures { OnOk result (members_view object.new.entries
        ≡ code.with_times times (members_view object.old.entries)) }
{
    put(object, alloc, "expiry", Value::from(times.expiry))?;
    put(object, alloc, "last_access", Value::from(times.last_access))?;
    Ok(())
}

// The object of a cookie with these times.
#[tactic(auto, unfolding(serde_json::proofs::OnLiterals::serde_json_on_literals))]
fn object(alloc: Global, cookie: &KeptCookie<'_>, times: Times) -> Result<Value, AllocError>
    ensures { IfOk result (λ value. view value
        ≡ spec.cookie_data (code.timed times (kept_view cookie.now)) times.expiry) }
{
    let mut members = Map::new(alloc);
    put_texts(&mut members, alloc, cookie)?;
    put_flags(&mut members, alloc, cookie)?;
    put_times(&mut members, alloc, times)?;
    Ok(Value::Object(members))
}

// Writes the line of a cookie with these times.
fn push_line(
    text: &mut Vec<u8>,
    alloc: Global,
    cookie: &KeptCookie<'_>,
    times: Times,
) -> Result<(), AllocError>
    ensures { OnOk result (text.new.items
        ≡ text.old.items ++ code.line_at times (kept_view cookie.now)) }
{
    let line = object(alloc, cookie, times)?.to_string(alloc)?;
    text.extend_from_slice(line.as_bytes())?;
    text.extend_from_slice(b"\n")?;
    Ok(())
}

// What a line holds.
pub(super) fn read_line(alloc: Global, line: &[u8], now: DateTime) -> Result<Line, AllocError>
    ensures { IfOk result (λ read. read ≡ spec.json_line_read now line.now) }
{
    if line.is_empty() {
        return Ok(Line::Other);
    }
    match Value::from_slice(alloc, line) {
        Ok(value) => cookie_in(alloc, &value, now),
        Err(error) => {
            if error.is_memory() {
                Err(AllocError)
            } else {
                Ok(Line::Bad)
            }
        }
    }
}

// The texts of an object.
#[derive(Drop)]
struct Texts {
    name: Vec<u8>,
    value: Vec<u8>,
    domain: Vec<u8>,
    path: Vec<u8>,
}

// The flags of an object.
#[derive(Clone, Copy)]
struct Flags {
    is_host_only: bool,
    is_secure_only: bool,
    is_http_only: bool,
    same_site: Enforcement,
}

// What the object holds.
fn cookie_in(alloc: Global, object: &Value, now: DateTime) -> Result<Line, AllocError>
    ensures { IfOk result (λ line. line ≡ spec.line_of_data now (Some (view object.now))) }
{
    let Some(flags) = flags_in(object) else {
        return Ok(Line::Bad);
    };
    let Some(times) = times_in(object) else {
        return Ok(Line::Bad);
    };
    match texts_in(alloc, object)? {
        Some(texts) => line_of(alloc, &texts, flags, times, now),
        None => Ok(Line::Bad),
    }
}

// The line of a cookie of these.
fn line_of(
    alloc: Global,
    texts: &Texts,
    flags: Flags,
    times: Times,
    now: DateTime,
) -> Result<Line, AllocError>
    ensures { IfOk result (λ line. line ≡ spec.line_of_cookie now
        (spec.cookie_with (Some (code.texts_view texts.now)) (Some flags) (Some times))) }
{
    let cookie = KeptCookie {
        name: texts.name.as_slice(),
        value: texts.value.as_slice(),
        domain: texts.domain.as_slice(),
        is_host_only: flags.is_host_only,
        path: texts.path.as_slice(),
        is_secure_only: flags.is_secure_only,
        is_http_only: flags.is_http_only,
        same_site: flags.same_site,
    };
    line_at(alloc, &cookie, times, now)
}

// The line of a cookie with these times.
fn line_at(
    alloc: Global,
    cookie: &KeptCookie<'_>,
    times: Times,
    now: DateTime,
) -> Result<Line, AllocError>
    ensures { IfOk result (λ line. line
        ≡ spec.line_of_cookie now (Some (code.dated times (kept_view cookie.now)))) }
{
    if !is_storable(cookie) {
        return Ok(Line::Bad);
    }
    let expiry = limited(expiry_at(times.expiry), now);
    let last_access = earlier_of(time_at(times.last_access), now);
    Ok(Line::Cookie(StoredCookie::of(alloc, cookie, expiry, last_access)?))
}

// The expiry at this number of nanoseconds after 1970.
fn expiry_at(nanos: i64) -> Expiry
    ensures { expiry_time result ≡ Some nanos }
{
    Expiry::At(time_at(nanos))
}

// The time at this number of nanoseconds after 1970. The calendar has each of an `i64`.
fn time_at(nanos: i64) -> DateTime
    ensures { civil_nanos result ≡ nanos }
{
    match Timestamp::from_nanosecond(i128::from(nanos)) {
        Ok(timestamp) => Offset::UTC.to_datetime(timestamp),
        Err(_) => unreachable!(),
    }
}

// The texts of an object, if all are there.
fn texts_in(alloc: Global, object: &Value) -> Result<Option<Texts>, AllocError>
    ensures { IfOk result (λ texts.
        option_map code.texts_view texts ≡ spec.texts_of (view object.now)) }
{
    let Some(name) = bytes_at(alloc, object, "name")? else {
        return Ok(None);
    };
    let Some(value) = bytes_at(alloc, object, "value")? else {
        return Ok(None);
    };
    let Some(domain) = bytes_at(alloc, object, "domain")? else {
        return Ok(None);
    };
    let Some(path) = bytes_at(alloc, object, "path")? else {
        return Ok(None);
    };
    Ok(Some(Texts {
        name,
        value,
        domain,
        path,
    }))
}

// The flags of an object, if all are there.
fn flags_in(object: &Value) -> Option<Flags>
    ensures { result ≡ spec.flags_of (view object.now) }
{
    Some(Flags {
        is_host_only: flag_at(object, "host_only")?,
        is_secure_only: flag_at(object, "secure")?,
        is_http_only: flag_at(object, "http_only")?,
        same_site: enforcement_at(object, "same_site")?,
    })
}

// The times of an object, if both are there.
fn times_in(object: &Value) -> Option<Times>
    ensures { result ≡ spec.times_of (view object.now) }
{
    Some(Times {
        expiry: nanos_at(object, "expiry")?,
        last_access: nanos_at(object, "last_access")?,
    })
}

fn flag_at(object: &Value, key: &str) -> Option<bool>
    ensures { result ≡ spec.flag_at key.now (view object.now) }
{
    object.get(key).and_then(Value::as_bool)
}

fn nanos_at(object: &Value, key: &str) -> Option<i64>
    ensures { result ≡ spec.time_at key.now (view object.now) }
{
    object.get(key).and_then(Value::as_i64)
}

fn enforcement_at(object: &Value, key: &str) -> Option<Enforcement>
    ensures { result ≡ spec.enforcement_at key.now (view object.now) }
{
    match object.get(key).and_then(Value::as_str) {
        Some(word) => enforcement_of(word),
        None => None,
    }
}

fn enforcement_of(word: &str) -> Option<Enforcement>
    ensures { result ≡ spec.enforcement_of_word word.now }
{
    let word = word.as_bytes();
    if word == b"default".as_slice() {
        Some(Enforcement::Default)
    } else if word == b"strict".as_slice() {
        Some(Enforcement::Strict)
    } else if word == b"lax".as_slice() {
        Some(Enforcement::Lax)
    } else if word == b"none".as_slice() {
        Some(Enforcement::None)
    } else {
        None
    }
}

// The bytes of a string in which each byte is the character of its number.
fn bytes_at(alloc: Global, object: &Value, key: &str) -> Result<Option<Vec<u8>>, AllocError>
    ensures { IfOk result (λ bytes.
        option_map (λ b. b.items) bytes ≡ spec.bytes_at key.now (view object.now)) }
{
    match object.get(key).and_then(Value::as_str) {
        Some(text) => bytes_of(alloc, text),
        None => Ok(None),
    }
}

fn bytes_of(alloc: Global, text: &str) -> Result<Option<Vec<u8>>, AllocError>
    ensures { IfOk result (λ bytes.
        option_map (λ b. b.items) bytes ≡ spec.bytes_of text.now) }
{
    let letters = letters_of(alloc, text)?;
    if !are_bytes(&letters) {
        return Ok(None);
    }
    Ok(Some(numbers_of(alloc, &letters)?))
}

fn letters_of(alloc: Global, text: &str) -> Result<Vec<char>, AllocError>
    ensures { IfOk result (λ letters. letters.items ≡ chars text.now) }
{
    text.chars().collect(alloc)
}

fn are_bytes(letters: &[char]) -> bool
    ensures { result ≡ list_all (λ letter. nat_lt letter 256) letters.now }
{
    letters.iter().all(|&letter| u32::from(letter) < 256)
}

// The numbers of the letters.
#[tactic(auto, using(crate::proofs::JsonLinesLemmas::small_at))]
fn numbers_of(alloc: Global, letters: &[char]) -> Result<Vec<u8>, AllocError>
    requires { list_all (λ letter. nat_lt letter 256) letters.now ≡ true }
    ensures { IfOk result (λ numbers. numbers.items ≡ letters.now) }
{
    let mut numbers = Vec::new(alloc);
    for &letter in letters {
        numbers.push(u32::from(letter) as u8)?;
    }
    Ok(numbers)
}
