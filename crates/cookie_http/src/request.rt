//! The cookies of a request (RFC 6265 5.4, RFC 9113 8.2.3).
ghost use Rattle.std.specs.Prelude.{◌≡◌};
ghost use Rattle.cookie.specs.Memory.{Gives};
ghost use Rattle.cookie.specs.Originals.{HasFirst, with_originals};
ghost use Rattle.cookie_http.specs.Fields.{request_cookies, request_jar};
ghost use Rattle.cookie_http.specs.declared.http_error.HttpError.TheVariants as refusal;

use crate::http_error::HttpError;
use cookie::CookieJar;
use http_header::HeaderMap;
use std::alloc::Global;

/// Makes a new jar whose originals are the cookies of a request's `Cookie` fields, decoded. Its hash is fixed. If
/// strangers choose the names, use `with_headers`.
///
/// Several fields are read one after the other (RFC 9113 8.2.3). Pieces are skipped as by `CookieJar::with_field`, and of
/// several cookies with one name the first counts. Fails only with `HttpError::OutOfMemory`.
pub fn jar_from_headers(alloc: Global, headers: &HeaderMap) -> Result<CookieJar, HttpError>
    ensures { Gives refusal.OutOfMemory result (λ jar. jar ≡ request_jar headers.now) }
{
    with_headers(CookieJar::new(alloc), headers)
}

/// Returns the jar with the cookies of a request's `Cookie` fields as originals, read as by `jar_from_headers`. A
/// server passes in `CookieJar::with_hasher(alloc, state)`, so that nobody can choose names that make the jar slow.
///
/// Fails only with `HttpError::OutOfMemory`, and then the jar is gone.
/// Example: `jar_of` in crates/cookie_examples/src/headers.rt.
pub fn with_headers(jar: CookieJar, headers: &HeaderMap) -> Result<CookieJar, HttpError>
    ensures made { Gives refusal.OutOfMemory result (λ made.
        made ≡ with_originals (request_cookies headers.now) jar) }
    ensures first { Gives refusal.OutOfMemory result (HasFirst (request_cookies headers.now) jar) }
{
    let mut jar = jar;
    for value in headers.get_all("cookie") {
        jar = jar.with_field(value.as_bytes())?;
    }
    Ok(jar)
}
