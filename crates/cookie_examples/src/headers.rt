//! A request's header map.
ghost use Rattle.std.specs.Prelude.{◌≡◌};
ghost use Rattle.cookie.specs.Memory.{Gives};
ghost use Rattle.cookie_http.specs.Fields.{request_jar};
ghost use Rattle.cookie_http.specs.declared.http_error.HttpError.TheVariants as refusal;

use anyhow::Result;
use cookie::{Cookie, CookieJar};
use cookie_http::{HttpError, append_delta, with_headers};
use http_header::{HeaderMap, HeaderValue};
use std::alloc::Global;
use std::hash::RandomState;

/// The jar of a request, where each cookie is an original: several `Cookie` fields are read one after the other. The keys
/// of `state` were drawn, so nobody can choose names that make the jar slow.
pub fn jar_of(
    alloc: Global,
    state: RandomState,
    request: &HeaderMap,
) -> Result<CookieJar, HttpError>
    ensures { Gives refusal.OutOfMemory result (λ jar. jar ≡ request_jar request.now) }
{
    with_headers(CookieJar::with_hasher(alloc, state), request)
}

/// The fields of the response to the request, which sets a theme.
pub fn respond(alloc: Global, state: RandomState, request: &HeaderMap) -> Result<HeaderMap> {
    let mut response = HeaderMap::new(alloc);
    let mut jar = with_headers(CookieJar::with_hasher(alloc, state), request)?;
    jar.add(Cookie::new("theme", "dark"))?;
    append_delta(alloc, &jar, &mut response)?;
    Ok(response)
}

pub fn print(rt: &HostRuntime) -> Result<()> {
    let mut request = HeaderMap::new(rt.alloc());
    request.append("cookie", HeaderValue::from_static("lang=en; theme=light"))?;
    let jar = jar_of(rt.alloc(), RandomState::new(rt)?, &request)?;
    println!(rt; "a header map with lang: {}", jar.get("lang").is_some())?;
    let response = respond(rt.alloc(), RandomState::new(rt)?, &request)?;
    println!(rt; "fields of the response: {}", response.len())?;
    for value in response.get_all("set-cookie") {
        println!(rt; "Set-Cookie: {}", str::from_utf8(value.as_bytes())?)?;
    }
    Ok(())
}
