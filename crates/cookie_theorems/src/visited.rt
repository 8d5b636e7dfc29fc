//! What a request of a user agent came to.
use cookie::CookieJar;
use cookie_agent::Agent;

/// What a request of a user agent came to.
#[derive(Drop)]
pub struct Visited<'r> {
    /// The value of the `Cookie` header that it sent.
    pub header: Vec<u8>,
    /// Its jar after the calls.
    pub jar: CookieJar,
    /// The user agent after the response.
    pub agent: Agent<'r>,
    /// One outcome a call, in their order: true if it was accepted. A refused call counts as not made.
    pub outcomes: Vec<bool>,
}
