//! Netscape's `cookies.txt`.
ghost use Rattle.std.specs.Prelude.{◌≡◌, ◌++◌, ◌∷◌, ◌+ℤ◌, ℕ, [], IfOk, OnOk, Some, map, option_map, pos};
ghost use Rattle.jiff.specs.Words.{civil_nanos, signed_nanos};
ghost use Rattle.cookie_core.specs.Attributes.{nanos_of_seconds, seconds_of_digits};
ghost use Rattle.cookie_core.specs.Record.{without_leading_dot};
ghost use Rattle.cookie_browser.specs.ExpiryCode.{expiry_time};
ghost use Rattle.cookie_browser.specs.RefusedCode.{kept_view};
ghost use Rattle.cookie_agent.specs.CookiesTxt as spec;
ghost use Rattle.cookie_agent.specs.CookiesTxtCode as code;
ghost use Rattle.cookie_agent.specs.SavedFormsCode.{carried_text};
ghost use Rattle.cookie_agent.specs.declared.saved.form.SavedForm.TheVariants as form;

use crate::nanos::start_of_1970;
use crate::saved::limited::limited;
use crate::saved::line::Line;
use crate::saved::storable::is_storable;
use crate::stored::StoredCookie;
use cookie_browser::{Enforcement, Expiry, KeptCookie};
use cookie_core::seconds_of_digits;
use itoa::Buffer;
use jiff::SignedDuration;
use jiff::civil::DateTime;
use std::alloc::{AllocError, Global};

// The first line, as curl writes it.
pub(super) const HEAD_LINE: &[u8] = b"# Netscape HTTP Cookie File\n";

const HTTP_ONLY_MARK: &[u8] = b"#HttpOnly_";

// The fields of a line.
#[derive(Clone, Copy)]
struct Fields<'t> {
    domain: &'t [u8],
    below: &'t [u8],
    path: &'t [u8],
    secure: &'t [u8],
    expiry: &'t [u8],
    name: &'t [u8],
    value: &'t [u8],
}

// The flags of a line.
#[derive(Clone, Copy)]
struct Kind {
    is_http_only: bool,
    below: bool,
    is_secure_only: bool,
}

// Writes the line of the cookie, if the form can carry it. Returns whether it can.
pub(super) fn push_carried(text: &mut Vec<u8>, cookie: &StoredCookie) -> Result<bool, AllocError>
    ensures carried { IfOk result (λ carried. carried ≡ spec.is_carried cookie.now) }
    ensures text { OnOk result (text.new.items
        ≡ text.old.items ++ carried_text form.CookiesTxt cookie.now) }
{
    let Some(seconds) = carried_seconds(cookie) else {
        return Ok(false);
    };
    push_line(text, &cookie.as_kept(), seconds)?;
    Ok(true)
}

// The seconds of the cookie's expiry, if the form can carry the cookie.
fn carried_seconds(cookie: &StoredCookie) -> Option<u64>
    ensures { result ≡ code.carried_seconds cookie.now }
{
    if has_fields(&cookie.as_kept()) {
        expiry_seconds(cookie.expiry())
    } else {
        None
    }
}

fn is_field_byte(byte: u8) -> bool
    ensures { result ≡ spec.is_field_byte byte }
{
    byte >= 32 && byte != 127
}

fn is_one_field(text: &[u8]) -> bool
    ensures { result ≡ spec.is_one_field text.now }
{
    text.iter().all(|&byte| is_field_byte(byte))
}

// Whether the cookie has a name, each of its texts is one field, and a user agent could have stored it.
fn has_fields(cookie: &KeptCookie<'_>) -> bool
    ensures { result ≡ spec.has_fields (kept_view cookie.now) }
{
    is_storable(cookie)
        && !cookie.name.is_empty()
        && is_one_field(cookie.name)
        && is_one_field(cookie.value)
        && is_one_field(cookie.path)
}

// The whole seconds of an age, if they are at least 1.
fn seconds_of_age(age: SignedDuration) -> Option<u64>
    ensures { result ≡ spec.expiry_seconds (Some (signed_nanos age)) }
{
    let seconds = age.as_secs();
    if seconds > 0 {
        Some(seconds.unsigned_abs())
    } else {
        None
    }
}

// The whole seconds from 1970 to the end of this age after the time, if they are at least 1, and an `i64` has them.
fn seconds_after(time: DateTime, age: SignedDuration) -> Option<u64>
    ensures { result ≡ spec.expiry_seconds (Some (civil_nanos time +ℤ signed_nanos age)) }
{
    let since = time.duration_since(start_of_1970());
    match since.checked_add(age) {
        Some(age) => seconds_of_age(age),
        None => None,
    }
}

// The same for an expiry.
fn expiry_seconds(expiry: Expiry) -> Option<u64>
    ensures { result ≡ spec.expiry_seconds (expiry_time expiry) }
{
    match expiry {
        Expiry::Session => None,
        Expiry::At(time) => seconds_after(time, SignedDuration::ZERO),
        Expiry::After(time, age) => seconds_after(time, age),
    }
}

fn flag_text(flag: bool) -> &'static [u8]
    ensures { result.now ≡ spec.flag_text flag }
{
    if flag { b"TRUE" } else { b"FALSE" }
}

// Writes a field and the tab after it.
fn push_field(text: &mut Vec<u8>, field: &[u8]) -> Result<(), AllocError>
    ensures { OnOk result (text.new.items ≡ text.old.items ++ field.now ++ 9 ∷ []) }
{
    text.extend_from_slice(field)?;
    text.extend_from_slice(b"\t")
}

// Writes the fields of the domain: what is before it, the domain itself, and whether the hosts below get the cookie.
fn push_domain(text: &mut Vec<u8>, cookie: &KeptCookie<'_>) -> Result<(), AllocError>
    ensures { OnOk result (text.new.items
        ≡ text.old.items ++ code.domain_text (kept_view cookie.now)) }
{
    if cookie.is_http_only {
        text.extend_from_slice(HTTP_ONLY_MARK)?;
    }
    if !cookie.is_host_only {
        text.extend_from_slice(b".")?;
    }
    push_field(text, cookie.domain)?;
    push_field(text, flag_text(!cookie.is_host_only))
}

// Writes the line of a cookie with an expiry of these seconds.
fn push_line(text: &mut Vec<u8>, cookie: &KeptCookie<'_>, seconds: u64) -> Result<(), AllocError>
    ensures { OnOk result (text.new.items
        ≡ text.old.items ++ code.line_at seconds (kept_view cookie.now)) }
{
    push_domain(text, cookie)?;
    push_field(text, cookie.path)?;
    push_field(text, flag_text(cookie.is_secure_only))?;
    push_field(text, Buffer::new().format(seconds).as_bytes())?;
    push_field(text, cookie.name)?;
    text.extend_from_slice(cookie.value)?;
    text.extend_from_slice(b"\n")?;
    Ok(())
}

// The texts between tabs.
fn fields_of(alloc: Global, line: &[u8]) -> Result<Vec<&[u8]>, AllocError>
    ensures { IfOk result (λ fields.
        map (λ f. f.now) fields.items ≡ spec.split_fields line.now) }
{
    line.split(|byte| *byte == 9).collect(alloc)
}

// What a line holds.
pub(super) fn read_line(alloc: Global, line: &[u8], now: DateTime) -> Result<Line, AllocError>
    ensures { IfOk result (λ read. read ≡ spec.line_read now line.now) }
{
    if line.starts_with(HTTP_ONLY_MARK) {
        return read_fields(alloc, &line[HTTP_ONLY_MARK.len()..], true, now);
    }
    match line {
        [] | [b'#', ..] => Ok(Line::Other),
        _ => read_fields(alloc, line, false, now),
    }
}

// What a line of these fields holds.
fn read_fields(
    alloc: Global,
    text: &[u8],
    is_http_only: bool,
    now: DateTime,
) -> Result<Line, AllocError>
    ensures { IfOk result (λ read.
        read ≡ spec.line_of_fields now is_http_only (spec.split_fields text.now)) }
{
    let texts = fields_of(alloc, text)?;
    match Fields::of(&texts) {
        Some(fields) => fields.read(alloc, is_http_only, now),
        None => Ok(Line::Bad),
    }
}

impl<'t> Fields<'t> {
    // The fields of these texts. Without the seventh the value is empty.
    fn of(texts: &[&'t [u8]]) -> Option<Fields<'t>>
        ensures { code.AreFieldsOf (map (λ t. t.now) texts.entry.now) result }
    {
        if texts.len() == 7 {
            return Some(Fields {
                domain: texts[0],
                below: texts[1],
                path: texts[2],
                secure: texts[3],
                expiry: texts[4],
                name: texts[5],
                value: texts[6],
            });
        }
        if texts.len() == 6 {
            return Some(Fields {
                domain: texts[0],
                below: texts[1],
                path: texts[2],
                secure: texts[3],
                expiry: texts[4],
                name: texts[5],
                value: &[],
            });
        }
        None
    }

    // What a line of these fields holds.
    fn read(&self, alloc: Global, is_http_only: bool, now: DateTime) -> Result<Line, AllocError>
        ensures { IfOk result (λ line.
            line ≡ code.line_of_parts now is_http_only (Some self.now)) }
    {
        let Some(below) = flag_of(self.below) else {
            return Ok(Line::Bad);
        };
        let Some(is_secure_only) = flag_of(self.secure) else {
            return Ok(Line::Bad);
        };
        let Some(seconds) = seconds_of(self.expiry) else {
            return Ok(Line::Bad);
        };
        let kind = Kind {
            is_http_only,
            below,
            is_secure_only,
        };
        self.read_as(alloc, kind, seconds, now)
    }

    // What a line of these fields holds, of which the flags and the seconds were read.
    fn read_as(
        &self,
        alloc: Global,
        kind: Kind,
        seconds: i64,
        now: DateTime,
    ) -> Result<Line, AllocError>
        ensures { (count : ℕ) → seconds ≡ pos count → IfOk result (λ line.
            line ≡ spec.line_of now count (code.cookie_as now kind count self.now)) }
    {
        let domain = without_leading_dot(self.domain).to_ascii_lowercase(alloc)?;
        let cookie = KeptCookie {
            name: self.name,
            value: self.value,
            domain: domain.as_slice(),
            is_host_only: !kind.below,
            path: self.path,
            is_secure_only: kind.is_secure_only,
            is_http_only: kind.is_http_only,
            same_site: Enforcement::Default,
        };
        line_of(alloc, &cookie, seconds, now)
    }
}

// The expiry at this number of seconds after 1970.
fn expiry_of(seconds: i64) -> Expiry
    ensures { (count : ℕ) → seconds ≡ pos count
        → expiry_time result ≡ Some (nanos_of_seconds count) }
{
    Expiry::After(start_of_1970(), SignedDuration::from_secs(seconds))
}

// The line of a cookie with an expiry of these seconds. With 0 it ended with the browser that wrote it.
fn line_of(
    alloc: Global,
    cookie: &KeptCookie<'_>,
    seconds: i64,
    now: DateTime,
) -> Result<Line, AllocError>
    ensures { (count : ℕ) → seconds ≡ pos count → IfOk result (λ line.
        line ≡ spec.line_of now count (code.dated count now (kept_view cookie.now))) }
{
    if !has_fields(cookie) {
        return Ok(Line::Bad);
    }
    if seconds == 0 {
        return Ok(Line::Other);
    }
    let expiry = limited(expiry_of(seconds), now);
    Ok(Line::Cookie(StoredCookie::of(alloc, cookie, expiry, now)?))
}

// `TRUE` or `FALSE`, in any ASCII case.
fn flag_of(text: &[u8]) -> Option<bool>
    ensures { result ≡ spec.flag_of text.now }
{
    if text.eq_ignore_ascii_case(b"true") {
        Some(true)
    } else if text.eq_ignore_ascii_case(b"false") {
        Some(false)
    } else {
        None
    }
}

// The number of the digits, at most `i64::MAX`. `None` if there is no digit, or another byte.
fn seconds_of(digits: &[u8]) -> Option<i64>
    ensures { result ≡ option_map pos (seconds_of_digits digits.now) }
{
    seconds_of_digits(str::from_utf8(digits).ok()?)
}

fn without_leading_dot(domain: &[u8]) -> &[u8]
    ensures { result.now ≡ without_leading_dot domain.now }
{
    match domain {
        [b'.', rest @ ..] => rest,
        _ => domain,
    }
}
