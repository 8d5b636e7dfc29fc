//! Printing a cookie whose parts C passes in (RFC 6265 4.1.1).
ghost use Rattle.std.specs.Prelude.{◌≡◌, ◌↔◌, Some, None, IsTrue, IsUtf8, IfOk, MatchOption, MatchResult, option_map, string_bytes, false};
ghost use Rattle.jiff.specs.Types.{DateTime as CivilDateTime};
ghost use Rattle.jiff.specs.Words.{signed_nanos, nanos_of_seconds};
ghost use Rattle.cookie.specs.AttributeValues.{FitsField};
ghost use Rattle.cookie.specs.Expiration.{capped_expiry};
ghost use Rattle.cookie.specs.Record.{without_leading_dot};
ghost use Rattle.cookie.specs.Text.{cookie_text};
ghost use Rattle.cookie.specs.Types.{AtDateTime};
ghost use Rattle.cookie_c.specs.Answers.{IsGivenInMemory, IsRefused};
ghost use Rattle.cookie_c.specs.Prints.{AreCodes, IsMoment, IsMomentOf, HasDate, ExpiresAt, AreTexts, IsUnprintable, flag_of, same_site_of, option_of, record_of_parts};
ghost use Rattle.cookie_c.specs.declared.status.Status.TheVariants as status;

use crate::answer::Answer;
use crate::attributes::Attributes;
use crate::date::Moment;
use crate::status::Status;
use cookie::{Cookie, Expiration, SameSite, fits_field};
use jiff::SignedDuration;
use jiff::civil::DateTime;
use std::alloc::{AllocError, Global};

/// Prints the cookie of these parts as the value of a `Set-Cookie` header, for the buffer. Its name and value are
/// escaped, or as they are. Path, domain, age and expiry count only if the attributes say that there is one.
///
/// Refuses an attribute with an undefined value, then an expiry whose numbers aren't a date and time, then a name, a
/// value, a path or a domain that counts and isn't UTF-8, and then a path or a domain that counts and holds a control
/// character or a `;`. Else it fails only when memory runs out.
#[unsafe(no_mangle)]
pub extern "C" fn cookie_print(
    alloc: Global,
    name: &[u8],
    value: &[u8],
    path: &[u8],
    domain: &[u8],
    attributes: &Attributes,
    is_escaped: bool,
    out: &mut [u8],
) -> Answer
    ensures bad_attribute { ¬ AreCodes attributes.now
        → IsRefused status.BadAttribute result out.old out.new }
    ensures no_date { AreCodes attributes.now → ¬ HasDate attributes.now
        → IsRefused status.NoDate result out.old out.new }
    ensures not_utf8 { AreCodes attributes.now → HasDate attributes.now
        → ¬ AreTexts name.now value.now path.now domain.now attributes.now
        → IsRefused status.NotUtf8 result out.old out.new }
    ensures invalid { (moment : CivilDateTime) → AreCodes attributes.now
        → ExpiresAt attributes.now moment
        → AreTexts name.now value.now path.now domain.now attributes.now
        → ¬ FitsField
        (record_of_parts name.now value.now path.now domain.now attributes.now moment)
        → IsRefused status.InvalidValue result out.old out.new }
    ensures printed { (moment : CivilDateTime) → AreCodes attributes.now
        → ExpiresAt attributes.now moment
        → AreTexts name.now value.now path.now domain.now attributes.now
        → FitsField
        (record_of_parts name.now value.now path.now domain.now attributes.now moment)
        → IsGivenInMemory (cookie_text is_escaped false
        (record_of_parts name.now value.now path.now domain.now attributes.now moment))
        result out.old out.new }
{
    match cookie_of(name, value, path, domain, attributes) {
        Ok(cookie) if fits_field(&cookie) => give_text(alloc, &cookie, is_escaped, out),
        Ok(_) => Answer::refusal(Status::InvalidValue),
        Err(why) => Answer::refusal(why),
    }
}

// The cookie's text, for the buffer.
pub(crate) fn give_text(
    alloc: Global,
    cookie: &Cookie<'_>,
    is_escaped: bool,
    out: &mut [u8],
) -> Answer
    ensures { IsGivenInMemory (cookie_text is_escaped false cookie.now.fields)
        result out.old out.new }
{
    match text_of(alloc, cookie, is_escaped) {
        Ok(text) => Answer::give(text.as_bytes(), out),
        Err(_) => Answer::refusal(Status::OutOfMemory),
    }
}

fn text_of(alloc: Global, cookie: &Cookie<'_>, is_escaped: bool) -> Result<String, AllocError>
    ensures { IfOk result (λ text.
        string_bytes text ≡ cookie_text is_escaped false cookie.now.fields) }
{
    if is_escaped {
        cookie.encoded().to_string(alloc)
    } else {
        cookie.to_string(alloc)
    }
}

// The cookie of these parts, or why there is none. Its path and its domain may hold any bytes.
fn cookie_of<'a>(
    name: &'a [u8],
    value: &'a [u8],
    path: &'a [u8],
    domain: &'a [u8],
    numbers: &Attributes,
) -> Result<Cookie<'a>, Status>
    ensures { MatchResult result
        (λ cookie. AreCodes numbers.now × HasDate numbers.now
        × AreTexts name.now value.now path.now domain.now numbers.now
        × ((moment : CivilDateTime) → ExpiresAt numbers.now moment
        → cookie.fields
        ≡ record_of_parts name.now value.now path.now domain.now numbers.now moment))
        (IsUnprintable name.now value.now path.now domain.now numbers.now) }
{
    if !are_codes(numbers) {
        return Err(Status::BadAttribute);
    }
    let expiry = expiry(numbers)?;
    let name = utf8(name)?;
    let value = utf8(value)?;
    let path = part(numbers.has_path, path)?;
    let domain = part(numbers.has_domain, domain)?;
    let mut cookie = Cookie::new(name, value);
    set_numbers(&mut cookie, numbers);
    set_path(&mut cookie, path);
    set_domain(&mut cookie, domain);
    set_expiry(&mut cookie, expiry);
    Ok(cookie)
}

// The text, if it is UTF-8.
fn utf8(text: &[u8]) -> Result<&str, Status>
    ensures { MatchResult result (λ read. IsUtf8 text.now × (read.now ≡ text.now))
        (λ why. (why ≡ status.NotUtf8) × ¬ IsUtf8 text.now) }
{
    match str::from_utf8(text) {
        Ok(text) => Ok(text),
        Err(_) => Err(Status::NotUtf8),
    }
}

// The text, if the number says that there is one. It has to be UTF-8 then.
fn part(number: u32, text: &[u8]) -> Result<Option<&str>, Status>
    ensures { MatchResult result
        (λ part. (number ≡ 1 → IsUtf8 text.now)
        × (option_map (λ t. t.now) part ≡ option_of number text.now))
        (λ why. (why ≡ status.NotUtf8) × (number ≡ 1) × ¬ IsUtf8 text.now) }
{
    if number == 1 {
        Ok(Some(utf8(text)?))
    } else {
        Ok(None)
    }
}

fn set_path<'a>(cookie: &mut Cookie<'a>, path: Option<&'a str>)
    ensures { cookie.new.fields
        ≡ record cookie.old.fields { path = option_map (λ p. p.now) path.entry } }
{
    match path {
        Some(path) => cookie.set_path(path),
        None => cookie.unset_path(),
    }
}

fn set_domain<'a>(cookie: &mut Cookie<'a>, domain: Option<&'a str>)
    ensures { cookie.new.fields ≡ record cookie.old.fields {
      domain = option_map (λ d. without_leading_dot d.now) domain.entry;
    } }
{
    match domain {
        Some(domain) => cookie.set_domain(domain),
        None => cookie.unset_domain(),
    }
}

fn set_expiry(cookie: &mut Cookie<'_>, expiry: Option<Expiration>)
    ensures { cookie.new.fields
        ≡ record cookie.old.fields { expires = option_map capped_expiry expiry } }
{
    match expiry {
        Some(expiry) => cookie.set_expires(expiry),
        None => cookie.unset_expires(),
    }
}

// Sets the flags, the rule for requests from other sites, and the age.
fn set_numbers(cookie: &mut Cookie<'_>, numbers: &Attributes)
    ensures { cookie.new.fields ≡ record cookie.old.fields {
      http_only = flag_of numbers.now.http_only;
      secure = flag_of numbers.now.secure;
      partitioned = flag_of numbers.now.partitioned;
      same_site = same_site_of numbers.now.same_site;
      max_age = option_of numbers.now.has_max_age (nanos_of_seconds numbers.now.max_age);
    } }
{
    cookie.set_http_only(flag(numbers.http_only));
    cookie.set_secure(flag(numbers.secure));
    cookie.set_partitioned(flag(numbers.partitioned));
    cookie.set_same_site(same_site(numbers.same_site));
    cookie.set_max_age(age(numbers));
}

fn are_codes(numbers: &Attributes) -> bool
    ensures { IsTrue result ↔ AreCodes numbers.now }
{
    numbers.http_only <= 2
        && numbers.secure <= 2
        && numbers.partitioned <= 2
        && numbers.same_site <= 3
        && numbers.has_path <= 1
        && numbers.has_domain <= 1
        && numbers.has_max_age <= 1
        && numbers.has_expires <= 1
}

fn flag(number: u32) -> Option<bool>
    ensures { result ≡ flag_of number }
{
    if number == 0 { None } else { Some(number == 1) }
}

fn same_site(number: u32) -> Option<SameSite>
    ensures { result ≡ same_site_of number }
{
    match number {
        1 => Some(SameSite::Strict),
        2 => Some(SameSite::Lax),
        3 => Some(SameSite::None),
        _ => None,
    }
}

// The age, if the number says that there is one.
fn age(numbers: &Attributes) -> Option<SignedDuration>
    ensures { option_map signed_nanos result
        ≡ option_of numbers.now.has_max_age (nanos_of_seconds numbers.now.max_age) }
{
    if numbers.has_max_age == 1 {
        Some(SignedDuration::from_secs(numbers.max_age))
    } else {
        None
    }
}

// The expiry, if the number says that there is one.
fn expiry(numbers: &Attributes) -> Result<Option<Expiration>, Status>
    ensures { MatchResult result
        (λ expiry. HasDate numbers.now
        × ((moment : CivilDateTime) → ExpiresAt numbers.now moment
        → option_map capped_expiry expiry ≡ option_of numbers.now.has_expires (AtDateTime moment)))
        (λ why. (why ≡ status.NoDate) × ¬ HasDate numbers.now) }
{
    if numbers.has_expires != 1 {
        return Ok(None);
    }
    match moment(&numbers.expires) {
        Some(moment) => Ok(Some(Expiration::DateTime(moment))),
        None => Err(Status::NoDate),
    }
}

// The date and time of these numbers, if there is one.
fn moment(at: &Moment) -> Option<DateTime>
    ensures { MatchOption result (¬ IsMoment at.now)
        (λ moment. IsMoment at.now × IsMomentOf at.now moment) }
{
    match DateTime::new(at.year, at.month, at.day, at.hour, at.minute, at.second, 0) {
        Ok(moment) => Some(moment),
        Err(_) => None,
    }
}
