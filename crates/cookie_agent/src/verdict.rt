//! What a user agent makes of a `Set-Cookie` text.
use crate::stored::StoredCookie;
use cookie_browser::Refusal;

/// What a user agent makes of a `Set-Cookie` text.
#[derive(Drop)]
pub enum Verdict {
    /// It stores this cookie. One that is expired removes the stored one that it replaces.
    Stored(StoredCookie),
    /// It refuses the cookie at this step.
    Refused(Refusal),
}
