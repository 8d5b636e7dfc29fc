//! A jar's response over header maps, and the request of the client that read it.
ghost use Rattle.std.specs.Prelude.{◌≡◌, [], ◌∷◌, None, IfOk, IsErrOf, codes, option_map};
ghost use Rattle.std.specs.FinMap.{get};
ghost use Rattle.http_header.specs.FieldValue.{plain_value};
ghost use Rattle.cookie.specs.AttributeValues.{AllFitFields};
ghost use Rattle.cookie.specs.Jar.{Name, view};
ghost use Rattle.cookie.specs.Memory.{Gives};
ghost use Rattle.cookie.specs.Record.{plain};
ghost use Rattle.cookie_client.specs.Client.{header_text};
ghost use Rattle.cookie_http.specs.Fields.{request_jar};
ghost use Rattle.cookie_http.specs.Response.{AddsDelta};
ghost use Rattle.cookie_http.specs.declared.http_error.HttpError.TheVariants as http_refusal;
ghost use Rattle.cookie_theorems.specs.Carrying.{CarriesDelta};

use crate::carried::Carried;
use crate::client::{cookie_of_client, read_response};
use cookie::CookieJar;
use cookie_client::Client;
use cookie_http::{HttpError, append_delta, jar_from_headers};
use http_header::HeaderMap;
use jiff::civil::DateTime;
use std::alloc::Global;

// Carries the jar's delta to the client, and what the client then sends to the jar of its next request.
pub(crate) fn carry(
    alloc: Global,
    jar: &CookieJar,
    client: &mut Client,
    now: DateTime,
) -> Result<Carried, HttpError>
    ensures carried { IfOk result (CarriesDelta now jar.now.delta client.old client.new) }
    ensures shows { IfOk result (λ carried. get client.new [] ≡ None → (name : Name)
        → view carried.next name ≡ option_map (plain name) (get client.new name)) }
    ensures invalid { IsErrOf result http_refusal.InvalidValue → ¬ (AllFitFields jar.now.delta) }
    ensures room { ¬ (IsErrOf result http_refusal.TooManyFields) }
{
    let response = response_of(alloc, jar)?;
    read_response(client, &response, now)?;
    let request = request_of(alloc, client)?;
    let next = jar_from_headers(alloc, &request)?;
    Ok(Carried {
        response,
        request,
        next,
    })
}

// A response with the `Set-Cookie` fields of the jar's delta.
fn response_of(alloc: Global, jar: &CookieJar) -> Result<HeaderMap, HttpError>
    ensures ok { IfOk result (AddsDelta jar.now.delta []) }
    ensures invalid { IsErrOf result http_refusal.InvalidValue → ¬ (AllFitFields jar.now.delta) }
    ensures room { ¬ (IsErrOf result http_refusal.TooManyFields) }
{
    let mut response = HeaderMap::new(alloc);
    append_delta(alloc, jar, &mut response)?;
    Ok(response)
}

// The client's next request.
fn request_of(alloc: Global, client: &Client) -> Result<HeaderMap, HttpError>
    ensures request { Gives http_refusal.OutOfMemory result (λ request. request
        ≡ (codes "cookie", plain_value (header_text client.now) ∷ []) ∷ []) }
    ensures shows { IfOk result (λ request. get client.now [] ≡ None → (name : Name)
        → view (request_jar request) name
        ≡ option_map (plain name) (get client.now name)) }
{
    let mut request = HeaderMap::new(alloc);
    request.append("cookie", cookie_of_client(client)?)?;
    Ok(request)
}
