//! The cookies of a response (RFC 6265 3, 4.1).
ghost use Rattle.std.specs.Prelude.{◌≡◌, ◌∷◌, [], ◌↔◌, true, false, List, IsTrue, OnOk, OnErr, IsErrOf, IsUtf8, codes, length};
ghost use Rattle.cookie.specs.AttributeValues.{AllFitFields, FitsField};
ghost use Rattle.cookie.specs.Memory.{Gives};
ghost use Rattle.cookie.specs.Record.{Record};
ghost use Rattle.cookie.specs.Text.{cookie_text};
ghost use Rattle.http_header.specs.HeaderMap.{RefusesAppend};
ghost use Rattle.cookie.specs.DeltaTexts.{WalksDelta};
ghost use Rattle.cookie_http.specs.Response.{AddsDelta, LacksRoom, LacksRoomFor, with_set_cookies};
ghost use Rattle.cookie_http.specs.declared.http_error.HttpError.TheVariants as refusal;

use crate::http_error::HttpError;
use bytes::Bytes;
use cookie::{Cookie, CookieJar};
use http_header::{HeaderMap, HeaderValue};
use std::alloc::Global;

// How many names a header map may have.
const MOST_NAMES: usize = 24_576;

/// Appends a `Set-Cookie` field for each cookie of the jar's delta, after the fields that are there: its encoded text
/// (RFC 6265 4.1.1).
///
/// Names and values are escaped, and a path and a domain aren't. So the delta is refused as `InvalidValue` exactly if
/// `set_cookie_texts` refuses it: if a path or a domain in it holds a control character, such as a line break, which
/// would split the response, or a `;`, which would begin another attribute (RFC 6265 4.1.1).
///
/// If the map has no room, it is refused as `TooManyFields`. Both come before anything is allocated. Else it fails only
/// with `OutOfMemory`. After any refusal the map is as before.
pub fn append_delta(
    alloc: Global,
    jar: &CookieJar,
    headers: &mut HeaderMap,
) -> Result<(), HttpError>
    ensures ok { OnOk result (AddsDelta jar.now.delta headers.old headers.new) }
    ensures invalid { IsErrOf result refusal.InvalidValue ↔ ¬ (AllFitFields jar.now.delta) }
    ensures full { IsErrOf result refusal.TooManyFields
        ↔ (AllFitFields jar.now.delta × LacksRoomFor jar.now.delta headers.old) }

    // An empty map has room for any delta.
    ensures empty { headers.old ≡ [] → ¬ (IsErrOf result refusal.TooManyFields) }
    ensures err { OnErr result (headers.new ≡ headers.old) }
{
    if !jar.fits_fields() {
        return Err(HttpError::InvalidValue);
    }
    if lacks_room(jar, headers) {
        return Err(HttpError::TooManyFields);
    }
    let mut made = headers.clone()?;
    for cookie in jar.delta() {
        append_cookie(alloc, cookie, &mut made)?;
    }
    *headers = made;
    Ok(())
}

// Appends the encoded text of the cookie as a `Set-Cookie` field.
fn append_cookie(
    alloc: Global,
    cookie: &Cookie<'_>,
    headers: &mut HeaderMap,
) -> Result<(), HttpError>
    requires fits { FitsField cookie.now.fields }
    requires room { ¬ (RefusesAppend headers.old (codes "set-cookie")) }
    ensures gives { Gives refusal.OutOfMemory result (λ _. headers.new
        ≡ with_set_cookies (cookie_text true false cookie.now.fields ∷ []) headers.old) }
    ensures text { IsUtf8 (cookie_text true false cookie.now.fields) }
{
    let (_name, _value) = cookie.name_value();
    let text = cookie.encoded().to_string(alloc)?;
    let value = HeaderValue::from_known_valid(Bytes::from_string(text)?);
    headers.append("set-cookie", value)?;
    Ok(())
}

// Whether the map lacks room for a field for each cookie of the delta.
fn lacks_room(jar: &CookieJar, headers: &HeaderMap) -> bool
    ensures lacks { IsTrue result ↔ LacksRoomFor jar.now.delta headers.now }
    ensures empty { headers.now ≡ [] → ¬ (IsTrue result) }
{
    lacks_room_for(count(jar), headers)
}

// How many cookies the delta has.
fn count(jar: &CookieJar) -> usize
    ensures { (cookies : List Record) × WalksDelta jar.now.delta cookies
        × (result ≡ length cookies) }
{
    let mut count = 0;
    for _cookie in jar.delta() {
        count += 1;
    }
    count
}

// Whether the map lacks room for this many more `Set-Cookie` fields.
fn lacks_room_for(count: usize, headers: &HeaderMap) -> bool
    ensures lacks { IsTrue result ↔ LacksRoom count headers.now }
    ensures empty { headers.now ≡ [] → ¬ (IsTrue result) }
{
    if count > 0 && headers.keys_len() >= MOST_NAMES && !headers.contains_key("set-cookie") {
        return true;
    }
    headers.len().checked_add(count).is_none()
}
