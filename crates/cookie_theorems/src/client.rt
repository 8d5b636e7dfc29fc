//! A client's part in header maps: what it sends, and what it reads (RFC 6265 5.2, 5.4).
ghost use Rattle.std.specs.Prelude.{◌≡◌, ◌∷◌, [], true, None, Some, IfOk, OnErr, filter, map};
ghost use Rattle.std.specs.FinMap.{entries, get};
ghost use Rattle.std.specs.Str.{is_utf8};
ghost use Rattle.cookie.specs.CookieOf.{cookie_of};
ghost use Rattle.cookie.specs.Header.{header_texts};
ghost use Rattle.cookie.specs.Memory.{Gives};
ghost use Rattle.cookie.specs.Originals.{field_cookies};
ghost use Rattle.cookie.specs.Record.{plain};
ghost use Rattle.http_header.specs.FieldValue.{plain_value};
ghost use Rattle.cookie_client.specs.Client.{after_texts, header_text};
ghost use Rattle.cookie_http.specs.Fields.{set_cookie_texts};
ghost use Rattle.cookie_http.specs.declared.http_error.HttpError.TheVariants as refusal;

use bytes::Bytes;
use cookie_client::{Client, ClientError};
use cookie_http::HttpError;
use http_header::{HeaderMap, HeaderValue};
use jiff::civil::DateTime;
use std::str;

/// Returns the value of the `Cookie` field that the client sends (RFC 6265 5.4): its names and values, escaped, which
/// are a field value whatever they hold.
///
/// Fails only if out of memory.
pub fn cookie_of_client(client: &Client) -> Result<HeaderValue, HttpError>
    ensures text { Gives refusal.OutOfMemory result (λ value.
        value ≡ plain_value (header_text client.now)) }
    ensures reads_back { get client.now [] ≡ None → IfOk result (λ value.
        map (cookie_of true) (header_texts value.bytes)
        ≡ map (λ pair. Some (plain pair.0 pair.1)) (entries client.now)) }
    ensures cookies { get client.now [] ≡ None → IfOk result (λ value.
        field_cookies value.bytes ≡ map (λ pair. plain pair.0 pair.1) (entries client.now)) }
{
    let Ok(header) = client.header() else {
        return Err(HttpError::OutOfMemory);
    };
    Ok(HeaderValue::from_known_valid(Bytes::from_string(header)?))
}

/// Has the client read all `Set-Cookie` fields of a response, in order, at the time `now` in UTC (RFC 6265 5.2, 5.3). A
/// field that isn't UTF-8 is skipped.
///
/// Fails only if out of memory, and then leaves the client as it was.
pub fn read_response(
    client: &mut Client,
    headers: &HeaderMap,
    now: DateTime,
) -> Result<(), HttpError>
    ensures gives { Gives refusal.OutOfMemory result (λ _.
        client.new ≡ after_texts now (set_cookie_texts headers.now) client.old) }
    ensures err { OnErr result (client.new ≡ client.old) }
{
    let Ok(mut reading) = client.clone() else {
        return Err(HttpError::OutOfMemory);
    };
    for value in headers.get_all("set-cookie") {
        read_value(&mut reading, value, now)?;
    }
    *client = reading;
    Ok(())
}

// Has the client read the text of one field, unless it isn't UTF-8.
fn read_value(client: &mut Client, value: &HeaderValue, now: DateTime) -> Result<(), HttpError>
    ensures { Gives refusal.OutOfMemory result (λ _.
        client.new ≡ after_texts now (filter is_utf8 (value.now.bytes ∷ [])) client.old) }
{
    match str::from_utf8(value.as_bytes()) {
        Ok(text) => match client.read(text, now) {
            Ok(_) => Ok(()),
            Err(ClientError::OutOfMemory) => Err(HttpError::OutOfMemory),
        },
        Err(_) => Ok(()),
    }
}
