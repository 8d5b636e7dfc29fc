//! What a logout came to.

/// What a logout came to.
#[derive(Clone, Copy, Debug, PartialEq, Eq)]
pub enum Ending {
    /// What the user agent has is revoked: no copy of it opens any more.
    Ended,
    /// The user agent has no session that opens, so there is nothing to revoke.
    Nobody,
    /// What the user agent has was over, or revoked already: another request has renewed the session since, or logged
    /// out. Don't tell the user that the logout is done. Answer with 409 (RFC 9110 15.5.10), or send the browser to the
    /// logout again: it has the renewed session's cookie by then.
    Gone,
}
