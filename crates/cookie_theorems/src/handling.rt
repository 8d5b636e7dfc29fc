//! A request that is being handled.
use cookie::CookieJar;
use cookie_session::Visit;

/// A request that is being handled: its session, and the jar of its response.
#[derive(Drop)]
pub struct Handling {
    /// The request's session.
    pub visit: Visit,
    /// The jar of its response.
    pub jar: CookieJar,
}
