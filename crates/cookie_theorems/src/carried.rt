//! A response and the client's next request, as header maps.
use cookie::CookieJar;
use http_header::HeaderMap;

/// A response and the client's next request, as header maps.
#[derive(Drop)]
pub struct Carried {
    /// The response: a `Set-Cookie` field for each cookie of the jar's delta.
    pub response: HeaderMap,
    /// The client's next request: one `Cookie` field.
    pub request: HeaderMap,
    /// The jar of that request.
    pub next: CookieJar,
}
