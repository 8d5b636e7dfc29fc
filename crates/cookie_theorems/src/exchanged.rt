//! What came of calls on a jar over header maps.
use cookie::CookieJar;
use cookie_client::Played;
use http_header::HeaderMap;

/// What came of calls on a jar over header maps.
#[derive(Drop)]
pub struct Exchanged {
    /// The jar after the calls, and the client that read the response.
    pub played: Played,
    /// The response: a `Set-Cookie` field for each cookie of the jar's delta.
    pub response: HeaderMap,
    /// The client's next request: one `Cookie` field.
    pub request: HeaderMap,
    /// The jar of that request.
    pub next: CookieJar,
}
